//! The normal form of a state: its four rules, one after the other.
ghost use Rattle.std.specs.Prelude.{◌≡◌, IfOk};
ghost use Rattle.std.specs.declared.option.Option.TheVariants.{Some};
ghost use Rattle.sym_pure.specs.Normal.{
  disequalities as disequalities_of,
  form_of as form_of_parts,
  normal as normal_of_state,
  normal_of as normal_of_parts,
  normal_settled as normal_settled_of,
};

use crate::contradictions::has_clash;
use crate::emptying::settle;
use crate::parts::{Normal, Settled, Solved};
use crate::redundancy::{needed, one_junk};
use crate::solving::{Reading, equations, read, solve};
use shape_data::symbolic::{Atom, Fact, SymHeap, SymState};
use shape_data::{Row, copy_of};
use std::alloc::{AllocError, Global};
use sym_parts::{map_atoms, map_exps};

/// The disequalities, read through the solved equations.
fn disequalities(alloc: Global, solved: &[Solved], facts: &[Fact]) -> Result<Vec<Fact>, AllocError>
    ensures { IfOk result (λ all. all.items ≡ disequalities_of solved.now facts.now) }
{
    let mut all = Vec::new(alloc);
    for fact in facts {
        if let Fact::Ne(left, right) = *fact {
            all.push(Fact::Ne(read(solved, left), read(solved, right)))?;
        }
    }
    Ok(all)
}

/// The form of what contradicts itself nowhere; facts and atoms are read.
fn form_of(
    alloc: Global,
    state: &SymState,
    solved: &[Solved],
    facts: &[Fact],
    atoms: Vec<Atom>,
) -> Result<SymState, AllocError>
    ensures { IfOk result (λ form. form ≡ form_of_parts state.now solved.now facts.now atoms.items) }
{
    let locals = map_exps(alloc, &Reading { solved }, state.locals.as_slice())?;
    let pure = needed(atoms.as_slice(), facts, equations(alloc, solved)?)?;
    let spatial = one_junk(alloc, atoms)?;
    Ok(SymState {
        locals: Row::from_vec(locals),
        heap: SymHeap {
            pure: Row::from_vec(pure),
            spatial: Row::from_vec(spatial),
        },
    })
}

/// The form of facts and atoms that are read, unless they contradict one another.
fn normal_of(
    alloc: Global,
    state: &SymState,
    solved: &[Solved],
    facts: &[Fact],
    atoms: Vec<Atom>,
) -> Result<Normal, AllocError>
    ensures { IfOk result (λ form. form ≡ normal_of_parts state.now solved.now facts.now atoms.items) }
{
    if has_clash(facts, atoms.as_slice()) {
        return Ok(Normal::Contradiction);
    }
    Ok(Normal::Is(form_of(alloc, state, solved, facts, atoms)?))
}

/// The form of what is settled.
fn normal_settled(alloc: Global, state: &SymState, settled: &Settled) -> Result<Normal, AllocError>
    ensures { IfOk result (λ form. form ≡ normal_settled_of state.now (Some settled.now)) }
{
    let solved = settled.solved.as_slice();
    let facts = disequalities(alloc, solved, state.heap.pure.as_slice())?;
    let atoms = map_atoms(alloc, &Reading { solved }, settled.atoms.as_slice())?;
    normal_of(alloc, state, solved, facts.as_slice(), atoms)
}

/// The normal form of a state. The only error is want of memory.
pub fn normal(alloc: Global, state: &SymState) -> Result<Normal, AllocError>
    ensures { IfOk result (λ form. form ≡ normal_of_state state.now) }
{
    let Some(solved) = solve(state.heap.pure.as_slice(), Row::new(alloc))? else {
        return Ok(Normal::Contradiction);
    };
    match settle(solved, copy_of(&state.heap.spatial)?)? {
        None => Ok(Normal::Contradiction),
        Some(settled) => normal_settled(alloc, state, &settled),
    }
}
