//! The rows of the commands on cells: Load, Store, New, Free; and that of a pair which may be a contradiction (`goes_on`), which branches
//! need too.
ghost use Rattle.std.specs.Prelude.{◌≡◌, ◌<◌, ◌≤◌, IfOk, IfSome, List, Some, length, slice_get, slice_set};
ghost use Rattle.shape_data.specs.declared.symbolic.Atom.TheVariants.{Points};
ghost use Rattle.std.specs.Option.{option_copied};
ghost use Rattle.shape_data.specs.declared.symbolic.Exp.{Exp as AnyExp};
ghost use Rattle.shape_data.specs.Heap.{struct_named};
ghost use Rattle.exec_laws.specs.declared.parts.Case.{Case as AnyCase};
ghost use Rattle.exec_laws.specs.declared.parts.Exposed.TheVariants.{Shown};
ghost use Rattle.exec_laws.specs.Cells.{
  cell_place as cell_place_of,
  for_each_case as for_each_case_of,
  free as free_of,
  free_cell as free_cell_of,
  free_null as free_null_of,
  goes_on as goes_on_of,
  in_case as in_case_of,
  load as load_of,
  load_cell as load_cell_of,
  new as new_of,
  new_struct as new_struct_of,
  store as store_of,
  store_cell as store_cell_of,
  with_fields,
  with_new as with_new_of,
  without_cell as without_cell_of,
};
ghost use Rattle.exec_laws.specs.Pairs.{atoms_of};
ghost use Rattle.exec_cells.specs.Accesses.{use_of, with_found};
ghost use Rattle.exec_cells.specs.InSetting.{IsGood, setting_in};
ghost use Rattle.exec_cells.specs.Sizes.{IsLow, IsLowPair};

use crate::exposing::{cause_at, expose};
use crate::pairs::{in_slot, new_existentials, where_true, with_slot};
use crate::setting::Setting;
use crate::values::{on_alone, operand};
use exec_laws::{Case, Exposed};
use shape_data::answer::Fault;
use shape_data::program::{Operand, StructDef};
use shape_data::symbolic::{Atom, Exp, Fact};
use shape_data::{Name, Row, copy_of, struct_of};
use std::alloc::{AllocError, Global};
use sym_canon::{Pair, place_of_cell};
use sym_matching::renaming::new_variables::as_exps;
use sym_matching::rule_steps::steps::{exp_at, is_same_name};
use sym_parts::is_same_exp;
use sym_pure::differs;

/// The place of the first cell at what a slot holds.
fn cell_place(slot: u32, pair: &Pair) -> Option<usize>
    ensures first { result ≡ cell_place_of slot pair.now }
    ensures within { IfSome result (λ place. place < length pair.now.state.heap.spatial) }
{
    let e = in_slot(pair, slot);
    place_of_cell(e, pair.state.heap.spatial.as_slice())
}

/// A cell's address and fields.
#[derive(Clone, Copy)]
struct CellFields<'a> {
    at: Exp,
    fields: &'a [Exp],
}

/// The address and the fields of a cell of the kind; or why there is none.
fn fields_of<'a>(kind: &Name, e: Exp, cell: Option<&'a Atom>) -> Result<CellFields<'a>, Fault>
    ensures { (use_fields : AnyExp → List AnyExp → AnyCase)
        → with_fields kind.now use_fields e (option_copied cell.entry) ≡ with_found use_fields result }
{
    match cell {
        Some(
            Atom::Points {
                at,
                kind: own,
                fields,
            },
        ) => {
            if is_same_name(own, kind) {
                Ok(CellFields {
                    at: *at,
                    fields: fields.as_slice(),
                })
            } else {
                Err(Fault::Kind)
            }
        }
        _ => Err(cause_at(e)),
    }
}

/// Load: the field's value in the slot; a cell of another kind is dropped.
fn load_cell(
    to: u32,
    base: u32,
    kind: &Name,
    field: u32,
    next: u32,
    place: usize,
    pair: Pair,
) -> Case
    ensures { result ≡ load_cell_of to base kind.now field next pair place (slice_get (atoms_of pair) place) }
{
    let e = in_slot(&pair, base);
    let value = match fields_of(kind, e, pair.state.heap.spatial.get(place)) {
        Ok(found) => exp_at(found.fields, field),
        Err(fault) => return Case::Drops { fault },
    };
    Case::On {
        node: next,
        pair: with_slot(to, value, pair),
    }
}

/// The cell with an expression in one of its fields.
fn with_field(
    alloc: Global,
    at: Exp,
    kind: &Name,
    fields: &[Exp],
    field: u32,
    e: Exp,
) -> Result<Atom, AllocError>
    ensures { IfOk result (λ cell. cell ≡ Points at kind.now (slice_set fields.now field e)) }
{
    let mut list = fields.to_vec(alloc)?;
    if (field as usize) < list.len() {
        list[field as usize] = e;
    }
    Ok(Atom::Points {
        at,
        kind: copy_of(kind)?,
        fields: Row::from_vec(list),
    })
}

/// Store: the cell with the value in its field; a cell of another kind is dropped.
fn store_cell(
    alloc: Global,
    base: u32,
    kind: &Name,
    field: u32,
    from: Operand,
    next: u32,
    place: usize,
    pair: Pair,
) -> Result<Case, AllocError>
    requires { place < length pair.state.heap.spatial }
    ensures { IfOk result (λ case. case ≡ store_cell_of base kind.now field from next pair place (slice_get (atoms_of pair) place)) }
{
    let e = in_slot(&pair, base);
    let cell = match fields_of(kind, e, pair.state.heap.spatial.get(place)) {
        Ok(found) => with_field(
            alloc,
            found.at,
            kind,
            found.fields,
            field,
            operand(&pair, from),
        )?,
        Err(fault) => return Ok(Case::Drops { fault }),
    };
    let mut pair = pair;
    pair.state.heap.spatial.set(place, cell);
    Ok(Case::On { node: next, pair })
}

/// The cell goes, whatever its kind.
fn without_cell(next: u32, place: usize, pair: Pair) -> Case
    requires { place < length pair.state.heap.spatial }
    ensures { result ≡ without_cell_of next pair place (slice_get (atoms_of pair) place) }
{
    let mut pair = pair;
    pair.state.heap.spatial.remove(place);
    Case::On { node: next, pair }
}

/// What a command does with a cell.
#[derive(Clone, Copy)]
enum Access<'a> {
    Load {
        to: u32,
        kind: &'a Name,
        field: u32,
    },
    Store {
        kind: &'a Name,
        field: u32,
        from: Operand,
    },
    Free,
}

/// What comes of the cell at a place.
fn use_cell(
    alloc: Global,
    access: Access,
    base: u32,
    next: u32,
    place: usize,
    pair: Pair,
) -> Result<Case, AllocError>
    requires { place < length pair.state.heap.spatial }
    ensures { IfOk result (λ case. case ≡ use_of access.entry base next pair place (slice_get (atoms_of pair) place)) }
{
    match access {
        Access::Load { to, kind, field } => {
            Ok(load_cell(to, base, kind, field, next, place, pair))
        }
        Access::Store { kind, field, from } => {
            store_cell(alloc, base, kind, field, from, next, place, pair)
        }
        Access::Free => Ok(without_cell(next, place, pair)),
    }
}

/// What comes of the cell that is shown.
fn use_shown(
    alloc: Global,
    access: Access,
    base: u32,
    next: u32,
    pair: Pair,
) -> Result<Case, AllocError>
    ensures { IfOk result (λ case. case ≡ in_case_of (use_of access.entry base next) base (Shown pair)) }
{
    match cell_place(base, &pair) {
        None => Ok(Case::Drops {
            fault: cause_at(in_slot(&pair, base)),
        }),
        Some(place) => use_cell(alloc, access, base, next, place, pair),
    }
}

/// What comes of one case of expose.
fn in_case(
    alloc: Global,
    access: Access,
    base: u32,
    next: u32,
    exposed: Exposed,
) -> Result<Case, AllocError>
    ensures { IfOk result (λ case. case ≡ in_case_of (use_of access.entry base next) base exposed) }
{
    match exposed {
        Exposed::Shown(pair) => use_shown(alloc, access, base, next, pair),
        Exposed::Lacking(fault) => Ok(Case::Drops { fault }),
    }
}

/// What comes of each case of expose.
fn for_each_case(
    alloc: Global,
    access: Access,
    base: u32,
    next: u32,
    exposed: Vec<Exposed>,
) -> Result<Vec<Case>, AllocError>
    ensures { IfOk result (λ cases. cases.items ≡ for_each_case_of (use_of access.entry base next) base exposed.items) }
{
    let mut cases = Vec::new(alloc);
    for one in exposed {
        cases.push(in_case(alloc, access, base, next, one)?)?;
    }
    Ok(cases)
}

/// Load: for each case of expose the field's value; a cell of another kind is dropped.
pub fn load(
    alloc: Global,
    setting: &Setting,
    to: u32,
    base: u32,
    kind: &Name,
    field: u32,
    next: u32,
    pair: Pair,
) -> Result<Vec<Case>, AllocError>
    requires low { IsLowPair pair }
    requires setting { IsGood (setting_in setting.now) }
    ensures { IfOk result (λ cases. cases.items ≡ load_of (setting_in setting.now) to base kind.now field next pair) }
{
    let exposed = expose(alloc, setting, kind, base, pair)?;
    for_each_case(alloc, Access::Load { to, kind, field }, base, next, exposed)
}

/// Store: for each case of expose the cell with the value in its field; a cell of another kind is dropped.
pub fn store(
    alloc: Global,
    setting: &Setting,
    base: u32,
    kind: &Name,
    field: u32,
    from: Operand,
    next: u32,
    pair: Pair,
) -> Result<Vec<Case>, AllocError>
    requires low { IsLowPair pair }
    requires setting { IsGood (setting_in setting.now) }
    ensures { IfOk result (λ cases. cases.items ≡ store_of (setting_in setting.now) base kind.now field from next pair) }
{
    let exposed = expose(alloc, setting, kind, base, pair)?;
    for_each_case(
        alloc,
        Access::Store { kind, field, from },
        base,
        next,
        exposed,
    )
}

/// A cell at the first of these variables, with the others in its fields, and its address in the slot.
fn with_new(
    alloc: Global,
    to: u32,
    kind: &Name,
    names: &[u32],
    pair: Pair,
) -> Result<Pair, AllocError>
    ensures { IfOk result (λ made. made ≡ with_new_of to kind.now names.now pair) }
{
    match names {
        [] => Ok(pair),
        [at, fields @ ..] => {
            let mut made = pair;
            let cell = Atom::Points {
                at: Exp::Var(*at),
                kind: copy_of(kind)?,
                fields: as_exps(alloc, fields)?,
            };
            made.state.heap.spatial.push(cell)?;
            Ok(with_slot(to, Exp::Var(*at), made))
        }
    }
}

/// A new existential address with a cell of a structure with new fields.
fn new_of_def(
    alloc: Global,
    to: u32,
    kind: &Name,
    next: u32,
    def: &StructDef,
    pair: Pair,
) -> Result<Case, AllocError>
    requires low { IsLowPair pair }
    requires few { length def.now.fields ≤ 32768 }
    ensures { IfOk result (λ case. case ≡ new_struct_of to kind.now next pair (Some def.now)) }
{
    let names = new_existentials(alloc, def.fields.len() + 1, &pair)?;
    let made = with_new(alloc, to, kind, names.as_slice(), pair)?;
    Ok(Case::On {
        node: next,
        pair: made,
    })
}

/// A new existential address with a cell of new fields.
fn new_struct(
    alloc: Global,
    setting: &Setting,
    to: u32,
    kind: &Name,
    next: u32,
    pair: Pair,
) -> Result<Case, AllocError>
    requires low { IsLowPair pair }
    requires setting { IsGood (setting_in setting.now) }
    ensures { IfOk result (λ case. case ≡ new_struct_of to kind.now next pair (struct_named setting.now.structs.now kind.now)) }
{
    match struct_of(setting.structs, kind) {
        None => Ok(Case::Drops { fault: Fault::Kind }),
        Some(def) => new_of_def(alloc, to, kind, next, def, pair),
    }
}

/// New: 0; then a new existential address with a cell of new fields.
pub fn new(
    alloc: Global,
    setting: &Setting,
    to: u32,
    kind: &Name,
    next: u32,
    pair: Pair,
) -> Result<Vec<Case>, AllocError>
    requires low { IsLowPair pair }
    requires setting { IsGood (setting_in setting.now) }
    ensures { IfOk result (λ cases. cases.items ≡ new_of (setting_in setting.now) to kind.now next pair) }
{
    let null = with_slot(to, Exp::Const(0), copy_of(&pair)?);
    let mut cases = on_alone(alloc, next, null)?;
    cases.push(new_struct(alloc, setting, to, kind, next, pair)?)?;
    Ok(cases)
}

/// The case that is no contradiction goes on.
pub fn goes_on(alloc: Global, next: u32, made: Option<Pair>) -> Result<Vec<Case>, AllocError>
    ensures { IfOk result (λ cases. cases.items ≡ goes_on_of next made) }
{
    match made {
        None => Ok(Vec::new(alloc)),
        Some(pair) => on_alone(alloc, next, pair),
    }
}

/// Free, the case in which the address is 0, unless it is known to differ.
fn free_null(
    alloc: Global,
    setting: &Setting,
    e: Exp,
    next: u32,
    pair: &Pair,
) -> Result<Vec<Case>, AllocError>
    ensures { IfOk result (λ cases. cases.items ≡ free_null_of (setting_in setting.now) e next pair.now) }
{
    if differs(&pair.state.heap, e, Exp::Const(0)) {
        return Ok(Vec::new(alloc));
    }
    let made = where_true(alloc, setting, Fact::Eq(e, Exp::Const(0)), copy_of(pair)?)?;
    goes_on(alloc, next, made)
}

/// Free, the case in which the address is not 0: for each case of expose the cell goes.
fn free_cell(
    alloc: Global,
    setting: &Setting,
    base: u32,
    kind: &Name,
    e: Exp,
    next: u32,
    pair: Pair,
) -> Result<Vec<Case>, AllocError>
    requires low { IsLowPair pair }
    requires address { IsLow e }
    requires setting { IsGood (setting_in setting.now) }
    ensures { IfOk result (λ cases. cases.items ≡ free_cell_of (setting_in setting.now) base kind.now e next pair) }
{
    match where_true(alloc, setting, Fact::Ne(e, Exp::Const(0)), pair)? {
        None => Ok(Vec::new(alloc)),
        Some(apart) => {
            let exposed = expose(alloc, setting, kind, base, apart)?;
            for_each_case(alloc, Access::Free, base, next, exposed)
        }
    }
}

/// Free: of 0 unchanged; else the case in which the address is 0, then that in which it is not.
pub fn free(
    alloc: Global,
    setting: &Setting,
    base: u32,
    kind: &Name,
    next: u32,
    pair: Pair,
) -> Result<Vec<Case>, AllocError>
    requires low { IsLowPair pair }
    requires setting { IsGood (setting_in setting.now) }
    ensures { IfOk result (λ cases. cases.items ≡ free_of (setting_in setting.now) base kind.now next pair) }
{
    let e = in_slot(&pair, base);
    if is_same_exp(e, Exp::Const(0)) {
        return on_alone(alloc, next, pair);
    }
    let mut cases = free_null(alloc, setting, e, next, &pair)?;
    let mut others = free_cell(alloc, setting, base, kind, e, next, pair)?;
    cases.append(&mut others)?;
    Ok(cases)
}
