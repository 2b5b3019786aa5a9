//! Abstraction of a state at the head of a loop, and of a post at an exit.
ghost use Rattle.std.specs.Prelude.{◌≡◌, ◌^◌, ◌<◌, length, IfOk};
ghost use Rattle.sym_canon.specs.Canonical.{as_state as as_state_of, canon_post as canon_post_of};
ghost use Rattle.abstraction_laws.specs.Heads.{
  abstract_exit as abstract_exit_of,
  abstract_head as abstract_head_of,
  at_exit as at_exit_of,
  at_head as at_head_of,
  forget_at_exit as forget_at_exit_of,
  forget_if_recursive as forget_if_recursive_of,
  post_of as post_of_state,
  reduced as reduced_of,
};
ghost use Rattle.abstraction_laws.specs.Rooms.{HasRoom, HaveFewFields, IsWithinRoom};

use crate::forgetting::{first_new, forget, forget_atoms, forget_value};
use crate::repeating::reduce;
use shape_data::program::{Flow, HeadMark, StructDef};
use shape_data::symbolic::{Exp, Post, SymHeap, SymState};
use shape_data::{Row, copy_of};
use std::alloc::{AllocError, Global};
use sym_canon::{as_state, canon_post, canon_state};
use sym_pure::{Normal, normal};

/// The state with its heap reduced.
fn reduced(alloc: Global, joins: bool, state: SymState) -> Result<SymState, AllocError>
    requires few { HaveFewFields state.heap.spatial }
    ensures { IfOk result (λ made. made ≡ reduced_of joins state) }
{
    let SymState { locals, heap } = state;
    let heap = reduce(alloc, joins, locals.as_slice(), heap)?;
    Ok(SymState { locals, heap })
}

/// A state at the head of a loop: the four rules.
pub fn at_head(
    alloc: Global,
    structs: &[StructDef],
    mark: &HeadMark,
    state: &SymState,
) -> Result<SymState, AllocError>
    requires room { HasRoom state.now }
    requires few { HaveFewFields state.now.heap.spatial }
    ensures { IfOk result (λ made. made ≡ at_head_of structs.now mark.now state.now) }
{
    reduced(alloc, true, forget(alloc, structs, mark, state)?)
}

/// The abstraction of a state at the head of a loop, in normal and then in canonical form. `structs` are the structures that
/// the procedure's fields are looked up in. None where it is a contradiction, which a join may make: nothing meets the state
/// then. The sizes are those of each well-formed state ([`is_within_room`](crate::is_within_room)). The only error is want of memory.
/// (Distefano, O'Hearn, Yang, TACAS 2006.)
pub fn abstract_head(
    alloc: Global,
    state: &SymState,
    flow: &Flow,
    mark: &HeadMark,
    structs: &[StructDef],
) -> Result<Option<SymState>, AllocError>
    requires sizes { IsWithinRoom state.now }
    requires params { length flow.now.params < 2 ^ 32 }
    ensures { IfOk result (λ made. made ≡ abstract_head_of state.now flow.now mark.now structs.now) }
{
    let reduced = at_head(alloc, structs, mark, state)?;
    match normal(alloc, &reduced)? {
        Normal::Contradiction => Ok(None),
        Normal::Is(form) => Ok(Some(canon_state(alloc, &form, flow.params.len() as u32)?)),
    }
}

/// The first rule at an exit, of a post as a state: a constant in the result, where that is an int, and in int fields.
fn forget_at_exit(
    alloc: Global,
    structs: &[StructDef],
    flow: &Flow,
    post: &Post,
) -> Result<SymState, AllocError>
    requires room { HasRoom (as_state_of post.now) }
    ensures { IfOk result (λ made. made ≡ as_state_of (forget_at_exit_of structs.now flow.now post.now)) }
{
    let first = first_new(&[post.ret], &post.heap);
    let ret = forget_value(first as u32, &flow.ret, post.ret);
    let spatial = forget_atoms(alloc, structs, first + 1, post.heap.spatial.as_slice())?;
    Ok(SymState {
        locals: Row::from_vec(vec![in alloc; ret]?),
        heap: SymHeap {
            pure: copy_of(&post.heap.pure)?,
            spatial: Row::from_vec(spatial),
        },
    })
}

/// A post, as a state; in a recursive component with its constants forgotten.
fn forget_if_recursive(
    alloc: Global,
    recursive: bool,
    structs: &[StructDef],
    flow: &Flow,
    post: &Post,
) -> Result<SymState, AllocError>
    requires room { HasRoom (as_state_of post.now) }
    ensures { IfOk result (λ made. made ≡ as_state_of (forget_if_recursive_of recursive structs.now flow.now post.now)) }
{
    if recursive {
        forget_at_exit(alloc, structs, flow, post)
    } else {
        as_state(alloc, post)
    }
}

/// A post at an exit, as a state: what the result does not reach and what then says nothing is gone; in a recursive component
/// constants are forgotten and atoms joined too.
fn at_exit(
    alloc: Global,
    recursive: bool,
    structs: &[StructDef],
    flow: &Flow,
    post: &Post,
) -> Result<SymState, AllocError>
    requires room { HasRoom (as_state_of post.now) }
    requires few { HaveFewFields post.now.heap.spatial }
    ensures { IfOk result (λ made. made ≡ at_exit_of recursive structs.now flow.now post.now) }
{
    reduced(
        alloc,
        recursive,
        forget_if_recursive(alloc, recursive, structs, flow, post)?,
    )
}

/// A state that has a result as its local, as a post; the other result is that of a state without locals.
pub fn post_of(other: Exp, state: SymState) -> Post
    ensures { result ≡ post_of_state other state }
{
    let ret = match state.locals.as_slice() {
        [] => other,
        [ret, ..] => *ret,
    };
    Post {
        ret,
        heap: state.heap,
    }
}

/// The canonical form of a state that has a result as its local, as a post.
fn canon_of(alloc: Global, params: u32, other: Exp, state: SymState) -> Result<Post, AllocError>
    ensures { IfOk result (λ form. form ≡ canon_post_of (post_of_state other state) params) }
{
    canon_post(alloc, &post_of(other, state), params)
}

/// The abstraction of a post at an exit, in normal and then in canonical form; `recursive` says whether the component calls
/// itself. `structs` are the structures that the procedure's fields are looked up in. None where it is a contradiction:
/// nothing meets the post then. The sizes are those of each well-formed post. The only error is want of memory.
pub fn abstract_exit(
    alloc: Global,
    post: &Post,
    flow: &Flow,
    structs: &[StructDef],
    recursive: bool,
) -> Result<Option<Post>, AllocError>
    requires sizes { IsWithinRoom (as_state_of post.now) }
    requires params { length flow.now.params < 2 ^ 32 }
    ensures { IfOk result (λ made. made ≡ abstract_exit_of post.now flow.now structs.now recursive) }
{
    let reduced = at_exit(alloc, recursive, structs, flow, post)?;
    match normal(alloc, &reduced)? {
        Normal::Contradiction => Ok(None),
        Normal::Is(form) => Ok(Some(canon_of(alloc, flow.params.len() as u32, post.ret, form)?)),
    }
}
