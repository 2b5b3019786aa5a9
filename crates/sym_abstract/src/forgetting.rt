//! First rule: constants are forgotten, and new existential variables stand in their places.
ghost use Rattle.std.specs.Prelude.{◌≡◌, ◌+◌, ◌^◌, ◌≤◌, if◌then◌else◌, length, slice_get, IfOk};
ghost use Rattle.shape_data.specs.declared.symbolic.Exp.TheVariants.{Var};
ghost use Rattle.sym_abstract.specs.Places.{forget_at};
ghost use Rattle.shape_data.specs.Heap.{struct_named};
ghost use Rattle.sym_canon.specs.Numbering.{sides};
ghost use Rattle.sym_canon.specs.Placing.{exps_of};
ghost use Rattle.sym_forms.specs.Sizes.{fields_of as fields_of_atom};
ghost use Rattle.abstraction_laws.specs.Forgetting.{
  above,
  above_exp as above_exp_of,
  first_new as first_new_of,
  forget as forget_of,
  forget_atom as forget_atom_of,
  forget_atoms as forget_atoms_of,
  forget_cell as forget_cell_of,
  forget_fields as forget_fields_of,
  forget_slots as forget_slots_of,
  forget_value as forget_value_of,
  is_constant as is_constant_of,
  is_forgotten as is_forgotten_of,
  is_int as is_int_of,
};
ghost use Rattle.abstraction_laws.specs.Occurrences.{exps_of_atoms, exps_of_facts};
ghost use Rattle.sym_forms.specs.Sizes.{fields_in};
ghost use Rattle.abstraction_laws.specs.Rooms.{HasRoom};

use shape_data::program::{Field, HeadMark, StructDef, Ty};
use shape_data::symbolic::{Atom, Exp, FIRST_EXISTENTIAL, Fact, SymHeap, SymState};
use shape_data::{Name, Row, copy_of, struct_of};
use std::alloc::{AllocError, Global};
use sym_parts::is_one_of;

/// Whether the expression is a constant.
fn is_constant(e: Exp) -> bool
    ensures { result ≡ is_constant_of e }
{
    match e {
        Exp::Var(_) => false,
        Exp::Const(_) => true,
    }
}

/// Whether the type is int.
fn is_int(ty: &Ty) -> bool
    ensures { result ≡ is_int_of ty.now }
{
    match ty {
        Ty::Int => true,
        _ => false,
    }
}

/// The number, or one that is above the variable.
fn above_exp(first: u64, e: Exp) -> u64
    ensures value { result ≡ above_exp_of first e }
    ensures small { first ≤ 2 ^ 32 → result ≤ 2 ^ 32 }
{
    match e {
        Exp::Var(x) => first.max(u64::from(x) + 1),
        Exp::Const(_) => first,
    }
}

/// The least number from a first one on that is above all variables of the expressions.
fn above_exps(first: u64, list: &[Exp]) -> u64
    ensures value { result ≡ above first list.now }
    ensures small { first ≤ 2 ^ 32 → result ≤ 2 ^ 32 }
{
    let mut last = first;
    for e in list {
        last = above_exp(last, *e);
    }
    last
}

fn above_atom(first: u64, atom: &Atom) -> u64
    ensures value { result ≡ above first (exps_of atom.now) }
    ensures small { first ≤ 2 ^ 32 → result ≤ 2 ^ 32 }
{
    match atom {
        Atom::Points { at, fields, .. } => above_exps(above_exp(first, *at), fields.as_slice()),
        Atom::Seg { from, to, .. } => above_exp(above_exp(first, *from), *to),
        Atom::Junk => first,
    }
}

fn above_atoms(first: u64, atoms: &[Atom]) -> u64
    ensures value { result ≡ above first (exps_of_atoms atoms.now) }
    ensures small { first ≤ 2 ^ 32 → result ≤ 2 ^ 32 }
{
    let mut last = first;
    for atom in atoms {
        last = above_atom(last, atom);
    }
    last
}

fn above_fact(first: u64, fact: Fact) -> u64
    ensures value { result ≡ above first (sides fact) }
    ensures small { first ≤ 2 ^ 32 → result ≤ 2 ^ 32 }
{
    match fact {
        Fact::Eq(left, right) => above_exp(above_exp(first, left), right),
        Fact::Ne(left, right) => above_exp(above_exp(first, left), right),
    }
}

fn above_facts(first: u64, facts: &[Fact]) -> u64
    ensures value { result ≡ above first (exps_of_facts facts.now) }
    ensures small { first ≤ 2 ^ 32 → result ≤ 2 ^ 32 }
{
    let mut last = first;
    for fact in facts {
        last = above_fact(last, *fact);
    }
    last
}

/// The first of the new existential variables of locals and a heap: from it on none stands there. It may be 2^32.
pub fn first_new(locals: &[Exp], heap: &SymHeap) -> u64
    ensures value { result ≡ first_new_of (record { locals = locals.now; heap = heap.now }) }
    ensures small { result ≤ 2 ^ 32 }
{
    let locals = above_exps(u64::from(FIRST_EXISTENTIAL), locals);
    let atoms = above_atoms(locals, heap.spatial.as_slice());
    above_facts(atoms, heap.pure.as_slice())
}

/// Whether a slot is forgotten: it is dead, or it is one of the mark's ints and holds a constant.
fn is_forgotten(mark: &HeadMark, slot: u32, e: Exp) -> bool
    ensures { result ≡ is_forgotten_of mark.now slot e }
{
    is_one_of(mark.dead.as_slice(), slot) || is_one_of(mark.ints.as_slice(), slot) && is_constant(e)
}

/// What a slot holds, or this new variable where it is forgotten.
fn forget_slot(mark: &HeadMark, slot: u32, next: u32, e: Exp) -> Exp
    ensures { result ≡ (if is_forgotten_of mark.now slot e then Var next else e) }
{
    if is_forgotten(mark, slot, e) {
        Exp::Var(next)
    } else {
        e
    }
}

/// The locals, with the new variable of its place for each that is forgotten.
fn forget_slots(
    alloc: Global,
    mark: &HeadMark,
    first: u64,
    locals: &[Exp],
) -> Result<Vec<Exp>, AllocError>
    requires room { first + length locals.now ≤ 2 ^ 32 }
    ensures { IfOk result (λ made. made.items ≡ forget_slots_of mark.now first 0 locals.now) }
{
    let mut made = Vec::new(alloc);
    for (slot, e) in locals.iter().enumerate() {
        let next = first + slot as u64;
        made.push(forget_slot(mark, slot as u32, next as u32, *e))?;
    }
    Ok(made)
}

/// The value; an int's constant is forgotten.
pub fn forget_value(next: u32, ty: &Ty, e: Exp) -> Exp
    ensures { result ≡ forget_value_of next ty.now e }
{
    if is_int(ty) && is_constant(e) {
        Exp::Var(next)
    } else {
        e
    }
}

/// The value of the field at a place, if there is one; an int's constant is forgotten.
fn forget_field(next: u32, fields: &[Field], place: usize, e: Exp) -> Exp
    ensures { result ≡ forget_at next (slice_get fields.now place) e }
{
    if place < fields.len() {
        forget_value(next, &fields[place].ty, e)
    } else {
        e
    }
}

/// The values of a cell's fields, with the new variable of its place for each constant of an int field.
fn forget_fields(
    alloc: Global,
    first: u64,
    fields: &[Field],
    values: &[Exp],
) -> Result<Vec<Exp>, AllocError>
    requires room { first + length values.now ≤ 2 ^ 32 }
    ensures { IfOk result (λ made. made.items ≡ forget_fields_of first fields.now values.now) }
{
    let mut made = Vec::new(alloc);
    for (place, e) in values.iter().enumerate() {
        let next = first + place as u64;
        made.push(forget_field(next as u32, fields, place, *e))?;
    }
    Ok(made)
}

fn copied(alloc: Global, list: &[Exp]) -> Result<Vec<Exp>, AllocError>
    ensures { IfOk result (λ copy. copy.items ≡ list.now) }
{
    let mut copy = Vec::new(alloc);
    copy.extend_from_slice(list)?;
    Ok(copy)
}

/// The values of a cell of a structure; of one that is not listed nothing is known.
fn forget_cell(
    alloc: Global,
    structs: &[StructDef],
    kind: &Name,
    first: u64,
    values: &[Exp],
) -> Result<Vec<Exp>, AllocError>
    requires room { first + length values.now ≤ 2 ^ 32 }
    ensures { IfOk result (λ made. made.items ≡ forget_cell_of first (struct_named structs.now kind.now) values.now) }
{
    match struct_of(structs, kind) {
        Some(def) => forget_fields(alloc, first, def.fields.as_slice(), values),
        None => copied(alloc, values),
    }
}

/// An atom, each place of a cell's fields having a new variable of its own.
fn forget_atom(
    alloc: Global,
    structs: &[StructDef],
    first: u64,
    atom: &Atom,
) -> Result<Atom, AllocError>
    requires room { first + fields_of_atom atom.now ≤ 2 ^ 32 }
    ensures { IfOk result (λ made. made ≡ forget_atom_of structs.now first atom.now) }
{
    match atom {
        Atom::Points { at, kind, fields } => {
            let fields = forget_cell(alloc, structs, kind, first, fields.as_slice())?;
            Ok(Atom::Points {
                at: *at,
                kind: copy_of(kind)?,
                fields: Row::from_vec(fields),
            })
        }
        other => copy_of(other),
    }
}

/// How many fields an atom has.
pub fn fields_of(atom: &Atom) -> u64
    ensures { result ≡ fields_of_atom atom.now }
{
    match atom {
        Atom::Points { fields, .. } => fields.len() as u64,
        _ => 0,
    }
}

/// The atoms, each place of a cell's fields having a new variable of its own.
pub fn forget_atoms(
    alloc: Global,
    structs: &[StructDef],
    first: u64,
    atoms: &[Atom],
) -> Result<Vec<Atom>, AllocError>
    requires room { first + fields_in atoms.now ≤ 2 ^ 32 }
    ensures { IfOk result (λ made. made.items ≡ forget_atoms_of structs.now first atoms.now) }
{
    let mut next = first;
    let mut made = Vec::new(alloc);
    for atom in atoms {
        made.push(forget_atom(alloc, structs, next, atom)?)?;
        next += fields_of(atom);
    }
    Ok(made)
}

/// A state at the head of a loop with its constants forgotten.
pub fn forget(
    alloc: Global,
    structs: &[StructDef],
    mark: &HeadMark,
    state: &SymState,
) -> Result<SymState, AllocError>
    requires room { HasRoom state.now }
    ensures { IfOk result (λ made. made ≡ forget_of structs.now mark.now state.now) }
{
    let locals = state.locals.as_slice();
    let first = first_new(locals, &state.heap);
    let atoms = state.heap.spatial.as_slice();
    let spatial = forget_atoms(alloc, structs, first + locals.len() as u64, atoms)?;
    Ok(SymState {
        locals: Row::from_vec(forget_slots(alloc, mark, first, locals)?),
        heap: SymHeap {
            pure: copy_of(&state.heap.pure)?,
            spatial: Row::from_vec(spatial),
        },
    })
}
