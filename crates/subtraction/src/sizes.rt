//! Tests of what the coverings ask of their arguments: heaps within the sizes of `sym_matching::renaming::sizes`, variables below 2^31, and
//! at most 32,768 locals. All that is well formed is so.
ghost use Rattle.std.specs.Prelude.{◌↔◌, IsTrue};
ghost use Rattle.subtraction.specs.Conditions.{IsPostWithinSizes, IsStateWithinSizes};

use shape_data::symbolic::{Post, SymState};
use sym_matching::renaming::sizes::{are_small, is_small, is_within_sizes};

/// The most locals.
const MOST_LOCALS: usize = 32_768;

/// Whether a state is within the sizes.
pub fn is_state_within_sizes(state: &SymState) -> bool
    ensures { IsTrue result ↔ IsStateWithinSizes state.now }
{
    are_small(state.locals.as_slice())
        && state.locals.len() <= MOST_LOCALS
        && is_within_sizes(&state.heap)
}

/// Whether a post is within the sizes.
pub fn is_post_within_sizes(post: &Post) -> bool
    ensures { IsTrue result ↔ IsPostWithinSizes post.now }
{
    is_small(post.ret) && is_within_sizes(&post.heap)
}
