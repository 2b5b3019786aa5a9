//! The rules for a wanted cell in abduction: the ends of a segment are made to differ (rule 3), or the cell is missing (rule 4).
ghost use Rattle.std.specs.Prelude.{◌≡◌, ◌+◌, ◌<◌, ◌≤◌, IfOk, IfSome, length, map, position, slice_get};
ghost use Rattle.std.specs.List.{list_all, list_any};
ghost use Rattle.sym_matching.specs.NewVariables.{HasRoom};
ghost use Rattle.sym_matching.specs.Reading.{is_logical as is_logical_of, read as read_of};
ghost use Rattle.sym_matching.specs.WantedCells.{
  is_atom_from as is_atom_from_of,
  is_to_part as is_to_part_of,
  miss_cell as miss_cell_of,
  miss_named as miss_named_of,
  miss_read as miss_read_of,
  name_field as name_field_of,
  name_fields as name_fields_of,
  part_at as part_at_of,
  place_to_part as place_to_part_of,
  take_parted as take_parted_of,
};
ghost use Rattle.sym_matching.specs.RuleSteps.InSetting.{rules_in};

use crate::cells::{is_from, take_unfolded};
use shape_data::symbolic::{Atom, Exp, Fact};
use shape_data::{Name, Row, copy_of};
use std::alloc::{AllocError, Global};
use sym_canon::{is_cell_at, is_segment_from};
use sym_matching::rule_steps::missing::{miss_atom, miss_fact};
use sym_matching::rule_steps::reading::{Setting, is_logical, is_logical_variable};
use sym_matching::rule_steps::steps::{bind_new, is_unbound_in, read_in};
use sym_matching::{Matching, Mode, Turned};

/// Whether the atom is the cell at the expression, or a segment from it.
fn is_atom_from(e: Exp, atom: &Atom) -> bool
    ensures { result ≡ is_atom_from_of e atom.now }
{
    is_cell_at(e, atom) || is_segment_from(e, atom)
}

/// Whether some atom is one from the expression.
fn has_atom_from(e: Exp, atoms: &[Atom]) -> bool
    ensures { result ≡ list_any (is_atom_from_of e) atoms.now }
{
    atoms.iter().any(|atom| is_atom_from(e, atom))
}

/// An unbound field gets a new logical variable.
fn name_field(setting: &Setting, want: Exp, m: Matching) -> Result<Matching, AllocError>
    requires { m.next + 1 < 4294967296 }
    ensures value { IfOk result (λ n. n ≡ name_field_of (rules_in setting.now) want m) }
    ensures next { IfOk result (λ n. n.next ≤ m.next + 1) }
{
    if is_unbound_in(setting, &m, want) {
        bind_new(m, want)
    } else {
        Ok(m)
    }
}

/// Each unbound field gets a new logical variable, in order.
fn name_fields(setting: &Setting, wants: &[Exp], m: Matching) -> Result<Matching, AllocError>
    requires { m.next + length wants.now < 4294967296 }
    ensures { IfOk result (λ n. n ≡ name_fields_of (rules_in setting.now) wants.now m) }
{
    let mut current = m;
    for want in wants {
        current = name_field(setting, *want, current)?;
    }
    Ok(current)
}

/// The wanted fields, read as the match stands.
fn read_all(
    alloc: Global,
    setting: &Setting,
    m: &Matching,
    wants: &[Exp],
) -> Result<Row<Exp>, AllocError>
    ensures { IfOk result (λ all. all ≡ map (read_of setting.now.facts.now m.now.binding) wants.now) }
{
    let mut all = Row::new(alloc);
    for want in wants {
        all.push(read_in(setting, m, *want))?;
    }
    Ok(all)
}

/// Whether all of these are logical variables or constants.
fn are_logical(list: &[Exp]) -> bool
    ensures { result ≡ list_all is_logical_of list.now }
{
    list.iter().all(|e| is_logical(*e))
}

/// The cell with these fields is missing, if they are logical.
fn miss_read(
    alloc: Global,
    setting: &Setting,
    number: u32,
    kind: &Name,
    e: Exp,
    fields: Row<Exp>,
    m: Matching,
) -> Result<Turned, AllocError>
    ensures { IfOk result (λ turned. turned ≡ miss_read_of (rules_in setting.now) number kind.now e fields m) }
{
    if !are_logical(fields.as_slice()) {
        return Ok(Turned::Stuck(number));
    }
    let kind = copy_of(kind)?;
    let cell = Atom::Points {
        at: e,
        kind,
        fields,
    };
    miss_atom(alloc, setting, number, cell, m)
}

/// Unbound fields get new logical variables; then the cell with all of them is missing.
fn miss_named(
    alloc: Global,
    setting: &Setting,
    number: u32,
    kind: &Name,
    wants: &[Exp],
    e: Exp,
    m: Matching,
) -> Result<Turned, AllocError>
    requires { m.next + length wants.now < 4294967296 }
    ensures { IfOk result (λ turned. turned
        ≡ miss_named_of (rules_in setting.now) number kind.now wants.now e (name_fields_of (rules_in setting.now) wants.now m)) }
{
    let n = name_fields(setting, wants, m)?;
    let fields = read_all(alloc, setting, &n, wants)?;
    miss_read(alloc, setting, number, kind, e, fields, n)
}

/// Rule 4: the cell is missing, where the expression is a logical variable and no atom is left from it.
fn miss_cell(
    alloc: Global,
    setting: &Setting,
    number: u32,
    kind: &Name,
    wants: &[Exp],
    e: Exp,
    m: Matching,
) -> Result<Turned, AllocError>
    requires { m.next + length wants.now < 4294967296 }
    ensures { IfOk result (λ turned. turned ≡ miss_cell_of (rules_in setting.now) number kind.now wants.now e m setting.now.mode) }
{
    match setting.mode {
        Mode::Subtract => Ok(Turned::Stuck(number)),
        Mode::Abduce => {
            if is_logical_variable(e) && !has_atom_from(e, m.left.as_slice()) {
                miss_named(alloc, setting, number, kind, wants, e, m)
            } else {
                Ok(Turned::Stuck(number))
            }
        }
    }
}

/// Whether the atom is a segment of the kind from the expression, both of whose ends are logical.
fn is_to_part(e: Exp, kind: &Name, atom: &Atom) -> bool
    ensures { result ≡ is_to_part_of e kind.now atom.now }
{
    match atom {
        Atom::Seg {
            kind: own_kind,
            from,
            to,
            ..
        } => is_from(e, kind, *from, own_kind) && is_logical(*from) && is_logical(*to),
        _ => false,
    }
}

/// The place of the first segment of the kind from the expression, both of whose ends are logical.
fn first_to_part(e: Exp, kind: &Name, atoms: &[Atom]) -> Option<usize>
    ensures first { result ≡ position (is_to_part_of e kind.now) atoms.now }
    ensures within { IfSome result (λ place. place < length atoms.now) }
{
    atoms.iter().position(|atom| is_to_part(e, kind, atom))
}

/// The place of rule 3, which is for abduction.
fn place_to_part(mode: Mode, e: Exp, kind: &Name, atoms: &[Atom]) -> Option<usize>
    ensures first { result ≡ place_to_part_of mode e kind.now atoms.now }
    ensures within { IfSome result (λ place. place < length atoms.now) }
{
    match mode {
        Mode::Subtract => None,
        Mode::Abduce => first_to_part(e, kind, atoms),
    }
}

/// Rule 3: the disequality of the ends of the segment at the place is missing; then the segment is unfolded.
fn take_parted(
    alloc: Global,
    setting: &Setting,
    number: u32,
    wants: &[Exp],
    m: Matching,
    place: usize,
) -> Result<Turned, AllocError>
    requires within { place < length m.left }
    requires room { HasRoom (length wants.now) m.used }
    ensures { IfOk result (λ turned. turned ≡ take_parted_of (rules_in setting.now) number wants.now m place (slice_get m.left place)) }
{
    match &m.left.as_slice()[place] {
        Atom::Seg { from, to, .. } => {
            let apart = Fact::Ne(*from, *to);
            match miss_fact(alloc, setting, number, apart, m)? {
                Turned::On(n) => take_unfolded(alloc, setting, number, wants, n, place),
                Turned::Stuck(stuck) => Ok(Turned::Stuck(stuck)),
            }
        }
        _ => Ok(Turned::Stuck(number)),
    }
}

/// A wanted cell that is neither there nor in a segment whose ends differ: rules 3 and 4.
pub fn want_missing(
    alloc: Global,
    setting: &Setting,
    number: u32,
    kind: &Name,
    wants: &[Exp],
    e: Exp,
    m: Matching,
) -> Result<Turned, AllocError>
    requires room { HasRoom (length wants.now) m.used }
    requires names { m.next + length wants.now < 4294967296 }
    ensures { IfOk result (λ turned. turned
        ≡ part_at_of (rules_in setting.now) number kind.now wants.now e m (place_to_part_of setting.now.mode e kind.now m.left)) }
{
    match place_to_part(setting.mode, e, kind, m.left.as_slice()) {
        Some(place) => take_parted(alloc, setting, number, wants, m, place),
        None => miss_cell(alloc, setting, number, kind, wants, e, m),
    }
}
