//! A state with new numbers for its existential variables: what a covering takes out of another state.
ghost use Rattle.std.specs.Prelude.{◌≡◌, ◌≤◌, IfOk, filter, leb, length};
ghost use Rattle.sym_matching.specs.Covers.{existentials as existentials_of};
ghost use Rattle.sym_matching.specs.Rooms.{IsWithinSizes};
ghost use Rattle.sym_matching.specs.Renaming.Coverings.{state_apart as state_apart_of, state_numbers as state_numbers_of};

use crate::renaming::apart::numbers_apart;
use crate::renaming::parts::Numbers;
use crate::renaming::variables::add_state;
use shape_data::symbolic::{FIRST_EXISTENTIAL, SymState};
use std::alloc::{AllocError, Global};
use sym_parts::map_state;

/// The existential variables of a list.
fn existential_ones(alloc: Global, list: &[u32]) -> Result<Vec<u32>, AllocError>
    ensures { IfOk result (λ names. names.items ≡ filter (λ x. leb 65536 x) list.now) }
{
    let mut names = Vec::new(alloc);
    for x in list {
        if FIRST_EXISTENTIAL <= *x {
            names.push(*x)?;
        }
    }
    Ok(names)
}

/// The existential variables of a state, in order of occurrence, doubles included: those that are flexible in a covering.
pub fn existentials(alloc: Global, state: &SymState) -> Result<Vec<u32>, AllocError>
    ensures { IfOk result (λ names. names.items ≡ existentials_of state.now) }
{
    let mut all = Vec::new(alloc);
    add_state(&mut all, state)?;
    existential_ones(alloc, all.as_slice())
}

/// New numbers for the existential variables of a state.
fn state_numbers(alloc: Global, used: &[u32], state: &SymState) -> Result<Numbers, AllocError>
    requires used { length used.now ≤ 1073741824 }
    requires locals { length state.now.locals ≤ 32768 }
    requires heap { IsWithinSizes state.now.heap }
    ensures { IfOk result (λ apart. apart ≡ state_numbers_of used.now state.now) }
{
    let list = existentials(alloc, state)?;
    numbers_apart(alloc, used, list.as_slice())
}

/// The state with new numbers for its existential variables, the least that are not in use. It means the same, by the law
/// [`crate::renaming::laws::state_apart_means_the_same`]. The only error is want of memory.
pub fn state_apart(alloc: Global, used: &[u32], state: &SymState) -> Result<SymState, AllocError>
    requires used { length used.now ≤ 1073741824 }
    requires locals { length state.now.locals ≤ 32768 }
    requires heap { IsWithinSizes state.now.heap }
    ensures { IfOk result (λ apart. apart ≡ state_apart_of used.now state.now) }
{
    let numbers = state_numbers(alloc, used, state)?;
    map_state(alloc, &numbers, state)
}
