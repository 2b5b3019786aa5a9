//! The canonical form of a pair: each part's atoms and existential variables by themselves, the logical variables that
//! are no parameters together.
ghost use Rattle.std.specs.Prelude.{◌≡◌, IfOk};
ghost use Rattle.sym_canon.specs.Canonical.{
  canon_pair as canon_pair_of,
  pair_numbered as pair_numbered_of,
  sight_pair,
  without_locals as without_locals_of,
};

use crate::numbering::Numbers;
use crate::parts::{Pair, Variables};
use crate::sights::see_state;
use crate::states::{arranged, state_with_facts_sorted, with_facts_sorted};
use shape_data::symbolic::{SymHeap, SymState};
use shape_data::{Row, copy_of};
use std::alloc::{AllocError, Global};
use sym_parts::{map_heap, map_state};

/// A heap as a state without locals. The only error is want of memory.
pub fn without_locals(alloc: Global, heap: &SymHeap) -> Result<SymState, AllocError>
    ensures { IfOk result (λ state. state ≡ without_locals_of heap.now) }
{
    Ok(SymState {
        locals: Row::new(alloc),
        heap: copy_of(heap)?,
    })
}

/// The numbers of the logical variables of both parts that are no parameters.
fn further_numbers(
    alloc: Global,
    params: u32,
    missing: &SymState,
    state: &SymState,
) -> Result<Numbers, AllocError>
    ensures first { IfOk result (λ numbers. numbers.first ≡ params) }
    ensures seen { IfOk result (λ numbers. numbers.seen.items ≡ sight_pair params missing.now state.now) }
{
    let mut seen = Vec::new(alloc);
    see_state(&mut seen, Variables::Further(params), missing)?;
    see_state(&mut seen, Variables::Further(params), state)?;
    Ok(Numbers::from(params, seen))
}

/// Both parts with these variables numbered, and then with their facts in order.
fn pair_numbered(
    alloc: Global,
    numbers: &Numbers,
    missing: &SymState,
    state: &SymState,
) -> Result<Pair, AllocError>
    ensures { IfOk result (λ pair. pair ≡ pair_numbered_of numbers.now.first numbers.now.seen.items missing.now state.now) }
{
    let missing = map_heap(alloc, numbers, &missing.heap)?;
    let state = map_state(alloc, numbers, state)?;
    Ok(Pair {
        missing: with_facts_sorted(alloc, missing)?,
        state: state_with_facts_sorted(alloc, state)?,
    })
}

/// The canonical form of a missing heap and a state of a procedure with so many parameters. The only error is want of
/// memory.
pub fn canon_pair(
    alloc: Global,
    missing: &SymHeap,
    state: &SymState,
    params: u32,
) -> Result<Pair, AllocError>
    ensures { IfOk result (λ pair. pair ≡ canon_pair_of missing.now state.now params) }
{
    let alone = without_locals(alloc, missing)?;
    let missing = arranged(alloc, params, &alone)?;
    let state = arranged(alloc, params, state)?;
    let numbers = further_numbers(alloc, params, &missing, &state)?;
    pair_numbered(alloc, &numbers, &missing, &state)
}
