//! Whether one of a list of states, or of posts, covers another.
ghost use Rattle.std.specs.Prelude.{◌≡◌, All, IfOk};
ghost use Rattle.subtraction.specs.Conditions.{IsPostWithinSizes, IsStateWithinSizes};
ghost use Rattle.solve_laws.specs.Certificates.Coverings.{
  covers_post as covers_post_of,
  covers_state as covers_state_of,
  is_covered as is_covered_by,
  is_post_covered as is_post_covered_by,
};

use shape_data::symbolic::{Post, SymState};
use std::alloc::{AllocError, Global};

/// Whether a state covers another.
fn covers_state(alloc: Global, cover: &SymState, state: &SymState) -> Result<bool, AllocError>
    requires cover { IsStateWithinSizes cover.now }
    requires state { IsStateWithinSizes state.now }
    ensures { IfOk result (λ covers. covers ≡ covers_state_of cover.now state.now) }
{
    subtraction::covers_state(alloc, state, cover)
}

/// Whether a post covers another.
fn covers_post(alloc: Global, cover: &Post, post: &Post) -> Result<bool, AllocError>
    requires cover { IsPostWithinSizes cover.now }
    requires post { IsPostWithinSizes post.now }
    ensures { IfOk result (λ covers. covers ≡ covers_post_of cover.now post.now) }
{
    subtraction::covers_post(alloc, post, cover)
}

/// Whether one of the states covers the state. All of them have the sizes of well-formed states. The only error is want of memory.
pub fn is_covered(alloc: Global, states: &[SymState], state: &SymState) -> Result<bool, AllocError>
    requires states { All IsStateWithinSizes states.now }
    requires state { IsStateWithinSizes state.now }
    ensures { IfOk result (λ covered. covered ≡ is_covered_by states.now state.now) }
{
    for cover in states {
        if covers_state(alloc, cover, state)? {
            return Ok(true);
        }
    }
    Ok(false)
}

/// Whether one of the posts covers the post. All of them have the sizes of well-formed posts. The only error is want of memory.
pub fn is_post_covered(alloc: Global, posts: &[Post], post: &Post) -> Result<bool, AllocError>
    requires posts { All IsPostWithinSizes posts.now }
    requires post { IsPostWithinSizes post.now }
    ensures { IfOk result (λ covered. covered ≡ is_post_covered_by posts.now post.now) }
{
    for cover in posts {
        if covers_post(alloc, cover, post)? {
            return Ok(true);
        }
    }
    Ok(false)
}
