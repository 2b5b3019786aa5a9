//! What a wanted cell is taken from: a cell, or a segment that is unfolded.
ghost use Rattle.std.specs.Prelude.{◌≡◌, ◌&&◌, ◌<◌, IfOk, IfSome, length, position, slice_get};
ghost use Rattle.std.specs.Str.{bytes_eq};
ghost use Rattle.sym_parts.specs.Laws.Expressions.{same_exp};
ghost use Rattle.sym_matching.specs.NewVariables.{HasRoom};
ghost use Rattle.sym_matching.specs.Steps.{whole as whole_of};
ghost use Rattle.sym_matching.specs.WantedCells.{
  is_to_unfold as is_to_unfold_of,
  take_cell as take_cell_of,
  take_field as take_field_of,
  take_fields as take_fields_of,
  take_unfolded as take_unfolded_of,
};
ghost use Rattle.sym_matching.specs.RuleSteps.InSetting.{rules_in};

use shape_data::symbolic::{Atom, Exp, SymHeap};
use shape_data::{Name, copy_of};
use std::alloc::{AllocError, Global};
use sym_matching::renaming::new_variables::{as_exps, fresh_variables};
use sym_matching::rule_steps::reading::{Setting, is_unbound};
use sym_matching::rule_steps::steps::{bind, is_same_name, owe, put_unfolded, whole};
use sym_matching::{Matching, Turned};
use sym_parts::is_same_exp;
use sym_pure::differs;

/// A wanted field binds its unbound variable, or leaves the fact that the two are equal.
fn take_field(
    setting: &Setting,
    number: u32,
    want: Exp,
    have: Exp,
    m: Matching,
) -> Result<Matching, AllocError>
    ensures { IfOk result (λ n. n ≡ take_field_of (rules_in setting.now) number want have m) }
{
    if is_unbound(setting.flexible, m.binding.as_slice(), want) {
        bind(m, want, have)
    } else {
        owe(m, number, want, have)
    }
}

/// Each wanted field, in order.
fn take_fields(
    setting: &Setting,
    number: u32,
    wants: &[Exp],
    haves: &[Exp],
    m: Matching,
) -> Result<Matching, AllocError>
    ensures { IfOk result (λ n. n ≡ take_fields_of (rules_in setting.now) number wants.now haves.now m) }
{
    let mut current = m;
    for place in 0..wants.len() {
        if place >= haves.len() {
            return Ok(current);
        }
        current = take_field(setting, number, wants[place], haves[place], current)?;
    }
    Ok(current)
}

/// Whether a source and a kind are these.
pub fn is_from(e: Exp, kind: &Name, from: Exp, own_kind: &Name) -> bool
    ensures { result ≡ (same_exp e from && bytes_eq own_kind.now kind.now) }
{
    is_same_exp(e, from) && is_same_name(own_kind, kind)
}

/// Whether the atom is a segment of the kind from the expression, whose ends are known to differ in the heap.
fn is_to_unfold(heap: &SymHeap, e: Exp, kind: &Name, atom: &Atom) -> bool
    ensures { result ≡ is_to_unfold_of heap.now e kind.now atom.now }
{
    match atom {
        Atom::Seg {
            kind: own_kind,
            from,
            to,
            ..
        } => is_from(e, kind, *from, own_kind) && differs(heap, *from, *to),
        _ => false,
    }
}

/// Takes the cell at a place, and matches its fields.
pub fn take_cell(
    setting: &Setting,
    number: u32,
    kind: &Name,
    wants: &[Exp],
    m: Matching,
    place: usize,
) -> Result<Turned, AllocError>
    requires { place < length m.left }
    ensures { IfOk result (λ turned. turned
        ≡ take_cell_of (rules_in setting.now) number kind.now wants.now m place (slice_get m.left place)) }
{
    let mut m = m;
    let atom = m.left.remove(place);
    match &atom {
        Atom::Points {
            kind: own_kind,
            fields,
            ..
        } => {
            if !is_same_name(own_kind, kind) {
                return Ok(Turned::Stuck(number));
            }
            let haves = copy_of(fields)?;
            m.gone.push(atom)?;
            let next = take_fields(setting, number, wants, haves.as_slice(), m)?;
            Ok(Turned::On(next))
        }
        _ => Ok(Turned::Stuck(number)),
    }
}

/// Unfolds the segment at a place with new variables, and matches the fields of its cell.
pub fn take_unfolded(
    alloc: Global,
    setting: &Setting,
    number: u32,
    wants: &[Exp],
    m: Matching,
    place: usize,
) -> Result<Turned, AllocError>
    requires within { place < length m.left }
    requires room { HasRoom (length wants.now) m.used }
    ensures { IfOk result (λ turned. turned ≡ take_unfolded_of (rules_in setting.now) number wants.now m place (slice_get m.left place)) }
{
    let mut m = m;
    match m.left.remove(place) {
        Atom::Seg {
            kind,
            link,
            from,
            to,
        } => {
            let names = fresh_variables(alloc, &mut m.used, wants.len())?;
            let haves = as_exps(alloc, names.as_slice())?;
            let fields = copy_of(&haves)?;
            let n = put_unfolded(m, place, kind, link, from, to, fields)?;
            let next = take_fields(setting, number, wants, haves.as_slice(), n)?;
            Ok(Turned::On(next))
        }
        _ => Ok(Turned::Stuck(number)),
    }
}

/// The place of the first segment that may be unfolded.
fn place_to_unfold(heap: &SymHeap, e: Exp, kind: &Name, atoms: &[Atom]) -> Option<usize>
    ensures first { result ≡ position (is_to_unfold_of heap.now e kind.now) atoms.now }
    ensures within { IfSome result (λ place. place < length atoms.now) }
{
    atoms
        .iter()
        .position(|atom| is_to_unfold(heap, e, kind, atom))
}

/// The place in a match of the first segment that may be unfolded.
pub fn place_of_segment(
    alloc: Global,
    setting: &Setting,
    e: Exp,
    kind: &Name,
    m: &Matching,
) -> Result<Option<usize>, AllocError>
    ensures first { IfOk result (λ found. found
        ≡ position (is_to_unfold_of (whole_of (rules_in setting.now) m.now) e kind.now) m.now.left) }
    ensures within { IfOk result (λ found. IfSome found (λ place. place < length m.now.left)) }
{
    let all = whole(alloc, setting, m)?;
    Ok(place_to_unfold(&all, e, kind, m.left.as_slice()))
}
