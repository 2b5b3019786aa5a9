//! Expose: the cases in which a cell stands at what a slot holds.
ghost use Rattle.std.specs.Prelude.{◌≡◌, ◌+◌, ◌++◌, ◌<◌, ◌≤◌, IfOk, IfSome, List, Some, length, map, position, reverse, slice_get};
ghost use Rattle.std.specs.List.{list_any};
ghost use Rattle.shape_data.specs.declared.symbolic.Exp.TheVariants.{Var};
ghost use Rattle.shape_data.specs.declared.symbolic.Fact.TheVariants.{Eq};
ghost use Rattle.shape_data.specs.Heap.{struct_named};
ghost use Rattle.sym_canon.specs.declared.parts.Pair.{Pair as AnyPair};
ghost use Rattle.sym_canon.specs.Placing.{is_cell_at as is_cell_at_of, is_segment_from as is_segment_from_of};
ghost use Rattle.sym_matching.specs.Renaming.Calls.{variables_from};
ghost use Rattle.exec_laws.specs.declared.parts.Exposed.{Exposed as AnyExposed};
ghost use Rattle.exec_laws.specs.Exposing.{
  cases_of_segment,
  cause_at as cause_at_of,
  empty_case,
  expose as expose_of,
  lacking as lacking_of,
  miss_cell as miss_cell_of,
  miss_struct as miss_struct_of,
  shown as shown_of,
  unfolded_case,
  unfolded_with as unfolded_with_of,
  where_ends_differ as where_ends_differ_of,
  with_unfolded as with_unfolded_of,
  without_atom as without_atom_of,
};
ghost use Rattle.exec_laws.specs.Pairs.{atoms_of, unless_left_out};
ghost use Rattle.exec_cells.specs.InSetting.{IsGood, setting_in};
ghost use Rattle.exec_cells.specs.Sizes.{IsLow, IsLowPair};
ghost use Rattle.exec_cells.specs.Turns.{IsLowTurn, cases_after, listed, turn_of};

use crate::pairs::{formed, in_slot, new_existentials, new_logical, where_true};
use crate::setting::Setting;
use exec_laws::{Exposed, Mode};
use shape_data::answer::Fault;
use shape_data::program::StructDef;
use shape_data::symbolic::{Atom, Exp, Fact};
use shape_data::{Name, Row, copy_of, struct_of};
use std::alloc::{AllocError, Global};
use sym_canon::{Pair, is_cell_at, is_segment_from};
use sym_matching::renaming::new_variables::as_exps;
use sym_matching::rule_steps::missing::contradicts;
use sym_matching::rule_steps::reading::is_logical_variable;
use sym_parts::is_same_exp;
use sym_pure::differs;

/// Null or unowned.
pub fn cause_at(e: Exp) -> Fault
    ensures { result ≡ cause_at_of e }
{
    if is_same_exp(e, Exp::Const(0)) {
        Fault::Null
    } else {
        Fault::Unowned
    }
}

/// Whether there is a cell at the expression.
fn has_cell(e: Exp, atoms: &[Atom]) -> bool
    ensures { result ≡ list_any (is_cell_at_of e) atoms.now }
{
    atoms.iter().any(|atom| is_cell_at(e, atom))
}

/// The place of the first segment from the expression.
fn place_of_segment(e: Exp, atoms: &[Atom]) -> Option<usize>
    ensures first { result ≡ position (is_segment_from_of e) atoms.now }
    ensures within { IfSome result (λ place. place < length atoms.now) }
{
    atoms.iter().position(|atom| is_segment_from(e, atom))
}

/// One case.
fn one_exposed(alloc: Global, case: Exposed) -> Result<Vec<Exposed>, AllocError>
    ensures { IfOk result (λ cases. cases.items ≡ listed (Some case)) }
{
    let mut cases = Vec::new(alloc);
    cases.push(case)?;
    Ok(cases)
}

/// Without a cell at the expression.
fn lacking(alloc: Global, e: Exp) -> Result<Vec<Exposed>, AllocError>
    ensures { IfOk result (λ cases. cases.items ≡ lacking_of e) }
{
    one_exposed(alloc, Exposed::Lacking(cause_at(e)))
}

/// The case of a pair that is no contradiction.
fn shown(alloc: Global, made: Option<Pair>) -> Result<Vec<Exposed>, AllocError>
    ensures { IfOk result (λ cases. cases.items ≡ shown_of made) }
{
    match made {
        None => Ok(Vec::new(alloc)),
        Some(pair) => one_exposed(alloc, Exposed::Shown(pair)),
    }
}

/// So many variables from a first one on, as expressions.
fn variables(alloc: Global, first: u32, count: usize) -> Result<Row<Exp>, AllocError>
    requires { first + count ≤ 4294967295 }
    ensures { IfOk result (λ all. all ≡ map Var (variables_from first count)) }
{
    let mut all = Row::new(alloc);
    let mut x = first;
    for turn in 0..count {
        all.push(Exp::Var(x))?;
        x += 1;
    }
    Ok(all)
}

/// A missing cell joins both heaps; unowned where the missing heap becomes a contradiction.
fn miss_cell(
    alloc: Global,
    setting: &Setting,
    cell: Atom,
    pair: Pair,
) -> Result<Vec<Exposed>, AllocError>
    ensures { IfOk result (λ cases. cases.items ≡ miss_cell_of (setting_in setting.now) cell pair) }
{
    let mut pair = pair;
    pair.missing.spatial.push(copy_of(&cell)?)?;
    if contradicts(alloc, copy_of(&pair.missing)?)? {
        return one_exposed(alloc, Exposed::Lacking(Fault::Unowned));
    }
    pair.state.heap.spatial.push(cell)?;
    let made = formed(alloc, setting.mode, setting.params, pair)?;
    shown(alloc, made)
}

/// A missing cell of a structure, with new logical fields.
fn miss_struct_of_def(
    alloc: Global,
    setting: &Setting,
    kind: &Name,
    e: Exp,
    def: &StructDef,
    pair: Pair,
) -> Result<Vec<Exposed>, AllocError>
    requires setting { IsGood (setting_in setting.now) }
    requires few { length def.now.fields ≤ 32768 }
    ensures { IfOk result (λ cases. cases.items ≡ miss_struct_of (setting_in setting.now) kind.now e pair (Some def.now)) }
{
    let first = new_logical(alloc, setting.params, &pair)?;
    let fields = variables(alloc, first, def.fields.len())?;
    let kind = copy_of(kind)?;
    let cell = Atom::Points {
        at: e,
        kind,
        fields,
    };
    miss_cell(alloc, setting, cell, pair)
}

/// A missing cell of the command's structure.
fn miss_struct(
    alloc: Global,
    setting: &Setting,
    kind: &Name,
    e: Exp,
    pair: Pair,
) -> Result<Vec<Exposed>, AllocError>
    requires { IsGood (setting_in setting.now) }
    ensures { IfOk result (λ cases. cases.items
        ≡ miss_struct_of (setting_in setting.now) kind.now e pair (struct_named setting.now.structs.now kind.now)) }
{
    match struct_of(setting.structs, kind) {
        None => one_exposed(alloc, Exposed::Lacking(Fault::Kind)),
        Some(def) => miss_struct_of_def(alloc, setting, kind, e, def, pair),
    }
}

/// What there is without an atom from the expression: null or unowned; in the search, a logical variable gets a cell of the command's
/// kind in both heaps.
fn without_atom(
    alloc: Global,
    setting: &Setting,
    kind: &Name,
    e: Exp,
    pair: Pair,
) -> Result<Vec<Exposed>, AllocError>
    requires { IsGood (setting_in setting.now) }
    ensures { IfOk result (λ cases. cases.items ≡ without_atom_of setting.now.mode (setting_in setting.now) kind.now e pair) }
{
    match setting.mode {
        Mode::Strict => lacking(alloc, e),
        Mode::Search => {
            if is_logical_variable(e) {
                miss_struct(alloc, setting, kind, e, pair)
            } else {
                lacking(alloc, e)
            }
        }
    }
}

/// The pair with a cell and a segment from its link in place of the segment at the place.
fn with_unfolded(
    alloc: Global,
    place: usize,
    kind: &Name,
    link: u32,
    from: Exp,
    to: Exp,
    names: &[u32],
    next: u32,
    pair: &Pair,
) -> Result<Pair, AllocError>
    requires { place < length pair.now.state.heap.spatial }
    ensures { IfOk result (λ made. made ≡ with_unfolded_of place kind.now link from to names.now next pair.now) }
{
    let mut made = copy_of(pair)?;
    made.state.heap.spatial.remove(place);
    let rest = Atom::Seg {
        kind: copy_of(kind)?,
        link,
        from: Exp::Var(next),
        to,
    };
    made.state.heap.spatial.insert(place, rest)?;
    let cell = Atom::Points {
        at: from,
        kind: copy_of(kind)?,
        fields: as_exps(alloc, names)?,
    };
    made.state.heap.spatial.insert(place, cell)?;
    Ok(made)
}

/// In the search the ends differ.
fn where_ends_differ(
    alloc: Global,
    setting: &Setting,
    from: Exp,
    to: Exp,
    pair: Pair,
) -> Result<Option<Pair>, AllocError>
    ensures { IfOk result (λ form. form ≡ where_ends_differ_of setting.now.mode (setting_in setting.now) from to pair) }
{
    match setting.mode {
        Mode::Strict => formed(alloc, Mode::Strict, setting.params, pair),
        Mode::Search => where_true(alloc, setting, Fact::Ne(from, to), pair),
    }
}

/// The unfolded case of a segment with these new fields.
fn unfolded_with(
    alloc: Global,
    setting: &Setting,
    place: usize,
    kind: &Name,
    link: u32,
    from: Exp,
    to: Exp,
    names: &[u32],
    pair: &Pair,
) -> Result<Option<Exposed>, AllocError>
    requires { place < length pair.now.state.heap.spatial }
    ensures { IfOk result (λ case. unfolded_with_of (setting_in setting.now) pair.now place kind.now link from to names.now ≡ listed case) }
{
    match names.get(link as usize) {
        None => Ok(Some(Exposed::Lacking(Fault::Kind))),
        Some(next) => {
            let full = with_unfolded(alloc, place, kind, link, from, to, names, *next, pair)?;
            match where_ends_differ(alloc, setting, from, to, full)? {
                None => Ok(None),
                Some(form) => Ok(Some(Exposed::Shown(form))),
            }
        }
    }
}

/// The unfolded case of a segment of a structure: a cell with new existential fields, and a segment from its link.
fn unfolded_of_def(
    alloc: Global,
    setting: &Setting,
    place: usize,
    kind: &Name,
    link: u32,
    from: Exp,
    to: Exp,
    def: &StructDef,
    pair: &Pair,
) -> Result<Option<Exposed>, AllocError>
    requires place { place < length pair.now.state.heap.spatial }
    requires low { IsLowPair pair.now }
    requires few { length def.now.fields ≤ 32768 }
    ensures { IfOk result (λ case. unfolded_case (setting_in setting.now) pair.now place kind.now link from to (Some def.now)
        ≡ listed case) }
{
    let names = new_existentials(alloc, def.fields.len(), pair)?;
    unfolded_with(
        alloc,
        setting,
        place,
        kind,
        link,
        from,
        to,
        names.as_slice(),
        pair,
    )
}

/// The unfolded case of the segment at a place.
fn unfolded(
    alloc: Global,
    setting: &Setting,
    place: usize,
    kind: &Name,
    link: u32,
    from: Exp,
    to: Exp,
    pair: &Pair,
) -> Result<Option<Exposed>, AllocError>
    requires place { place < length pair.now.state.heap.spatial }
    requires low { IsLowPair pair.now }
    requires setting { IsGood (setting_in setting.now) }
    ensures { IfOk result (λ case.
        unfolded_case (setting_in setting.now) pair.now place kind.now link from to (struct_named setting.now.structs.now kind.now)
        ≡ listed case) }
{
    match struct_of(setting.structs, kind) {
        None => Ok(Some(Exposed::Lacking(Fault::Kind))),
        Some(def) => unfolded_of_def(alloc, setting, place, kind, link, from, to, def, pair),
    }
}

/// Notes the unfolded case of the segment at a place.
fn note_unfolded(
    alloc: Global,
    setting: &Setting,
    place: usize,
    kind: &Name,
    link: u32,
    from: Exp,
    to: Exp,
    pair: &Pair,
    noted: &mut Vec<Exposed>,
) -> Result<(), AllocError>
    requires place { place < length pair.now.state.heap.spatial }
    requires low { IsLowPair pair.now }
    requires setting { IsGood (setting_in setting.now) }
    ensures { IfOk result (λ _. reverse noted.new.items
        ≡ unfolded_case (setting_in setting.now) pair.now place kind.now link from to (struct_named setting.now.structs.now kind.now)
        ++ reverse noted.old.items) }
{
    if let Some(case) = unfolded(alloc, setting, place, kind, link, from, to, pair)? {
        noted.push(case)?;
    }
    Ok(())
}

/// The pair of the empty case of the segment at a place, unless its ends differ.
fn emptied(
    alloc: Global,
    setting: &Setting,
    place: usize,
    from: Exp,
    to: Exp,
    pair: Pair,
) -> Result<Option<Pair>, AllocError>
    requires { place < length pair.state.heap.spatial }
    ensures value { IfOk result (λ made. (again : AnyPair → List AnyExposed)
        → empty_case again (setting_in setting.now) pair place from to ≡ unless_left_out again made) }
    ensures low { IsLowPair pair → IsLow from → IsLow to → IfOk result (λ made. IfSome made IsLowPair) }
{
    if differs(&pair.state.heap, from, to) {
        return Ok(None);
    }
    let mut pair = pair;
    pair.state.heap.spatial.remove(place);
    where_true(alloc, setting, Fact::Eq(from, to), pair)
}

/// What comes of one turn: a pair that is exposed again, or the last cases.
#[derive(Drop)]
enum Turn {
    Again(Pair),
    Last(Vec<Exposed>),
}

/// The turn at the segment at a place: the empty case is exposed again, and the unfolded one is noted.
fn at_place(
    alloc: Global,
    setting: &Setting,
    e: Exp,
    place: usize,
    pair: Pair,
    noted: &mut Vec<Exposed>,
) -> Result<Turn, AllocError>
    requires place { place < length pair.state.heap.spatial }
    requires low { IsLowPair pair }
    requires setting { IsGood (setting_in setting.now) }
    ensures value { IfOk result (λ turn. (again : AnyPair → List AnyExposed)
        → cases_of_segment again (setting_in setting.now) e pair place (slice_get (atoms_of pair) place) ++ reverse noted.old.items
        ≡ cases_after again turn ++ reverse noted.new.items) }
    ensures low { IfOk result IsLowTurn }
{
    match copy_of(&pair.state.heap.spatial[place])? {
        Atom::Seg {
            kind,
            link,
            from,
            to,
        } => {
            note_unfolded(alloc, setting, place, &kind, link, from, to, &pair, noted)?;
            match emptied(alloc, setting, place, from, to, pair)? {
                None => Ok(Turn::Last(Vec::new(alloc))),
                Some(made) => Ok(Turn::Again(made)),
            }
        }
        Atom::Points { .. } => Ok(Turn::Last(lacking(alloc, e)?)),
        Atom::Junk => Ok(Turn::Last(lacking(alloc, e)?)),
    }
}

/// One turn: a cell at what the slot holds is shown; a segment from it has two cases; else there is none.
fn take_turn(
    alloc: Global,
    setting: &Setting,
    kind: &Name,
    slot: u32,
    pair: Pair,
    noted: &mut Vec<Exposed>,
) -> Result<Turn, AllocError>
    requires low { IsLowPair pair }
    requires setting { IsGood (setting_in setting.now) }
    ensures value { IfOk result (λ turn. (again : AnyPair → List AnyExposed)
        → turn_of again (setting_in setting.now) kind.now slot pair ++ reverse noted.old.items
        ≡ cases_after again turn ++ reverse noted.new.items) }
    ensures low { IfOk result IsLowTurn }
{
    let e = in_slot(&pair, slot);
    if has_cell(e, pair.state.heap.spatial.as_slice()) {
        return Ok(Turn::Last(one_exposed(alloc, Exposed::Shown(pair))?));
    }
    match place_of_segment(e, pair.state.heap.spatial.as_slice()) {
        None => Ok(Turn::Last(without_atom(alloc, setting, kind, e, pair)?)),
        Some(place) => at_place(alloc, setting, e, place, pair, noted),
    }
}

/// The cases, and behind them those that were noted, the last one first.
fn with_noted(cases: Vec<Exposed>, noted: Vec<Exposed>) -> Result<Vec<Exposed>, AllocError>
    ensures { IfOk result (λ all. all.items ≡ cases.items ++ reverse noted.items) }
{
    let mut all = cases;
    let mut behind = noted;
    behind.reverse();
    all.append(&mut behind)?;
    Ok(all)
}

/// The cases in which a cell stands at what a slot holds, for a command on cells of a kind. Each turn takes a segment away for its
/// empty case, whose cases come first; behind them come the unfolded cases, that of the last segment first.
pub fn expose(
    alloc: Global,
    setting: &Setting,
    kind: &Name,
    slot: u32,
    pair: Pair,
) -> Result<Vec<Exposed>, AllocError>
    requires low { IsLowPair pair }
    requires setting { IsGood (setting_in setting.now) }
    ensures { IfOk result (λ cases. cases.items ≡ expose_of (setting_in setting.now) kind.now slot pair) }
{
    let turns = pair.state.heap.spatial.len();
    let mut noted = Vec::new(alloc);
    let mut current = pair;
    for done in 0..turns {
        match take_turn(alloc, setting, kind, slot, current, &mut noted)? {
            Turn::Again(made) => current = made,
            Turn::Last(cases) => return with_noted(cases, noted),
        }
    }
    let e = in_slot(&current, slot);
    let cases = without_atom(alloc, setting, kind, e, current)?;
    with_noted(cases, noted)
}
