//! The canonical form of a state and of a post.
ghost use Rattle.std.specs.Prelude.{◌≡◌, [], IfOk};
ghost use Rattle.sym_canon.specs.Canonical.{
  arranged as arranged_of,
  as_state as as_state_of,
  canon_post as canon_post_of,
  canon_state as canon_state_of,
  sight_state,
  state_with_facts_sorted as state_sorted_of,
  with_atoms_placed as with_atoms_placed_of,
  with_facts_sorted as with_facts_sorted_of,
};
ghost use Rattle.sym_canon.specs.declared.parts.Variables.TheVariants as variables;

use crate::facts::sorted_facts;
use crate::numbering::Numbers;
use crate::parts::Variables;
use crate::placing::placed;
use crate::sights::see_state;
use shape_data::symbolic::{FIRST_EXISTENTIAL, Post, SymHeap, SymState};
use shape_data::{Row, copy_of};
use std::alloc::{AllocError, Global};
use sym_parts::map_state;

/// The state with its atoms in their order.
fn with_atoms_placed(alloc: Global, params: u32, state: &SymState) -> Result<SymState, AllocError>
    ensures { IfOk result (λ made. made ≡ with_atoms_placed_of params state.now) }
{
    let atoms = copy_of(&state.heap.spatial)?;
    let spatial = placed(alloc, params, state.locals.as_slice(), atoms.into_vec())?;
    Ok(SymState {
        locals: copy_of(&state.locals)?,
        heap: SymHeap {
            pure: copy_of(&state.heap.pure)?,
            spatial: Row::from_vec(spatial),
        },
    })
}

/// The numbers of a state's existential variables.
fn existential_numbers(alloc: Global, state: &SymState) -> Result<Numbers, AllocError>
    ensures first { IfOk result (λ numbers. numbers.first ≡ 65536) }
    ensures seen { IfOk result (λ numbers. numbers.seen.items ≡ sight_state variables.Existential state.now []) }
{
    let mut seen = Vec::new(alloc);
    see_state(&mut seen, Variables::Existential, state)?;
    Ok(Numbers::from(FIRST_EXISTENTIAL, seen))
}

/// The state with its atoms in order and its existential variables numbered.
pub fn arranged(alloc: Global, params: u32, state: &SymState) -> Result<SymState, AllocError>
    ensures { IfOk result (λ made. made ≡ arranged_of params state.now) }
{
    let state = with_atoms_placed(alloc, params, state)?;
    let numbers = existential_numbers(alloc, &state)?;
    map_state(alloc, &numbers, &state)
}

/// The heap with its facts in order.
pub fn with_facts_sorted(alloc: Global, heap: SymHeap) -> Result<SymHeap, AllocError>
    ensures { IfOk result (λ sorted. sorted ≡ with_facts_sorted_of heap) }
{
    let pure = sorted_facts(alloc, heap.pure.as_slice())?;
    Ok(SymHeap {
        pure: Row::from_vec(pure),
        spatial: heap.spatial,
    })
}

/// The state with its facts in order.
pub fn state_with_facts_sorted(alloc: Global, state: SymState) -> Result<SymState, AllocError>
    ensures { IfOk result (λ sorted. sorted ≡ state_sorted_of state) }
{
    Ok(SymState {
        locals: state.locals,
        heap: with_facts_sorted(alloc, state.heap)?,
    })
}

/// The canonical form of a state of a procedure with so many parameters. The only error is want of memory.
pub fn canon_state(alloc: Global, state: &SymState, params: u32) -> Result<SymState, AllocError>
    ensures { IfOk result (λ form. form ≡ canon_state_of state.now params) }
{
    state_with_facts_sorted(alloc, arranged(alloc, params, state)?)
}

/// A post as a state with one local, the result. The only error is want of memory.
pub fn as_state(alloc: Global, post: &Post) -> Result<SymState, AllocError>
    ensures { IfOk result (λ state. state ≡ as_state_of post.now) }
{
    Ok(SymState {
        locals: Row::from_vec(vec![in alloc; post.ret]?),
        heap: copy_of(&post.heap)?,
    })
}

/// The canonical form of a post of a procedure with so many parameters. The only error is want of memory.
pub fn canon_post(alloc: Global, post: &Post, params: u32) -> Result<Post, AllocError>
    ensures { IfOk result (λ form. form ≡ canon_post_of post.now params) }
{
    let state = as_state(alloc, post)?;
    let form = canon_state(alloc, &state, params)?;
    Ok(Post {
        ret: form.locals[0],
        heap: form.heap,
    })
}
