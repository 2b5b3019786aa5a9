//! Rows of coverings.
use crate::rows::state_of;
use crate::told::is_yes;
use shape_data::symbolic::SymState;
use std::alloc::Global;
use subtraction::sizes::{is_post_within_sizes, is_state_within_sizes};
use subtraction::{covers_post, covers_state};
use worked_rows::Fault;
use worked_rows::parts::text;
use worked_scopes::Scope;

/// Whether the second state covers the first.
fn covers_states(alloc: Global, a: &SymState, b: &SymState) -> Result<bool, Fault> {
    if !is_state_within_sizes(a) || !is_state_within_sizes(b) {
        return Err(Fault::Row);
    }
    Ok(covers_state(alloc, a, b)?)
}

/// Whether the covering of states is as the row tells.
pub fn covers_as_state(alloc: Global, scope: &Scope, row: &str) -> Result<bool, Fault> {
    let told = is_yes(row)?;
    let a = state_of(alloc, scope, row, "state", "locals")?;
    let b = state_of(alloc, scope, row, "by", "slots")?;
    Ok(covers_states(alloc, &a, &b)? == told)
}

/// Whether the covering of posts is as the row tells.
pub fn covers_as_post(alloc: Global, scope: &Scope, row: &str) -> Result<bool, Fault> {
    let told = is_yes(row)?;
    let a = scope.post(alloc, text(row, "post"))?;
    let b = scope.post(alloc, text(row, "by"))?;
    if !is_post_within_sizes(&a) || !is_post_within_sizes(&b) {
        return Err(Fault::Row);
    }
    Ok(covers_post(alloc, &a, &b)? == told)
}
