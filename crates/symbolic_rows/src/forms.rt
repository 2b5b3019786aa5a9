//! Rows of the normal form and of the canonical form.
use crate::rows::{PARAMS, state_of};
use crate::told::{is_given, is_yes};
use shape_data::symbolic::SymState;
use std::alloc::Global;
use sym_canon::{Pair, canon_pair, canon_post, canon_state};
use sym_pure::{Normal, differs, is_normal, is_normal_heap, normal};
use worked_rows::Fault;
use worked_rows::parts::{part, text};
use worked_scopes::Scope;

/// The normal form of a state, if it has one.
fn form_of(alloc: Global, state: &SymState) -> Result<Option<SymState>, Fault> {
    match normal(alloc, state)? {
        Normal::Is(form) => Ok(Some(form)),
        Normal::Contradiction => Ok(None),
    }
}

/// Whether the form is normal, and its own form.
fn is_form(alloc: Global, form: &SymState) -> Result<bool, Fault> {
    match form_of(alloc, form)? {
        None => Ok(false),
        Some(own) => Ok(is_normal(form) && is_normal_heap(&form.heap) && own == *form),
    }
}

/// Whether a state with this form is normal where it is its form, and nowhere else.
fn is_alone(alloc: Global, state: &SymState, form: &Option<SymState>) -> Result<bool, Fault> {
    match form {
        None => Ok(!is_normal(state)),
        Some(form) => Ok(is_form(alloc, form)? && is_normal(state) == (*state == *form)),
    }
}

/// Whether the state's normal form is what the row tells, and the state normal nowhere else.
fn has_form(
    rt: &impl Print,
    alloc: Global,
    scope: &Scope,
    row: &str,
    state: &SymState,
) -> Result<bool, Fault> {
    let form = form_of(alloc, state)?;
    Ok(is_given(rt, alloc, scope, row, &form)? && is_alone(alloc, state, &form)?)
}

/// Whether the state has the normal form that the row tells.
pub fn has_normal_form(
    rt: &impl Print,
    alloc: Global,
    scope: &Scope,
    row: &str,
) -> Result<bool, Fault> {
    let state = state_of(alloc, scope, row, "normal", "locals")?;
    has_form(rt, alloc, scope, row, &state)
}

/// Whether the two sides are known to differ as the row tells, whichever comes first.
pub fn differ(alloc: Global, scope: &Scope, row: &str) -> Result<bool, Fault> {
    let told = is_yes(row)?;
    let heap = scope.heap(alloc, text(row, "differ"))?;
    let sides = scope.exps(alloc, part(row, "sides").unwrap_or(""))?;
    match sides.as_slice() {
        [e, f] => Ok(differs(&heap, *e, *f) == told && differs(&heap, *f, *e) == told),
        _ => Err(Fault::Row),
    }
}

/// Whether the state has the canonical form that the row tells.
pub fn has_canonical_form(
    rt: &impl Print,
    alloc: Global,
    scope: &Scope,
    row: &str,
) -> Result<bool, Fault> {
    let state = state_of(alloc, scope, row, "canonical", "locals")?;
    let found = Some(canon_state(alloc, &state, PARAMS)?);
    is_given(rt, alloc, scope, row, &found)
}

/// Whether the post has the canonical form that the row tells.
pub fn has_canonical_post(
    rt: &impl Print,
    alloc: Global,
    scope: &Scope,
    row: &str,
) -> Result<bool, Fault> {
    let post = scope.post(alloc, text(row, "canonical-post"))?;
    let found = Some(canon_post(alloc, &post, PARAMS)?);
    is_given(rt, alloc, scope, row, &found)
}

/// The canonical form of the row's pair.
fn canonical_pair(alloc: Global, scope: &Scope, row: &str) -> Result<Option<Pair>, Fault> {
    let missing = scope.heap(alloc, text(row, "missing"))?;
    let state = state_of(alloc, scope, row, "canonical-pair", "locals")?;
    Ok(Some(canon_pair(alloc, &missing, &state, PARAMS)?))
}

/// Whether the pair has the canonical form that the row tells.
pub fn has_canonical_pair(
    rt: &impl Print,
    alloc: Global,
    scope: &Scope,
    row: &str,
) -> Result<bool, Fault> {
    let found = canonical_pair(alloc, scope, row)?;
    is_given(rt, alloc, scope, row, &found)
}
