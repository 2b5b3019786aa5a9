//! Answers that rows tell.
use crate::rows::state_of;
use shape_data::symbolic::{Post, SymHeap, SymState};
use std::alloc::Global;
use std::fmt::Debug;
use sym_canon::Pair;
use worked_rows::Fault;
use worked_rows::parts::{part, text};
use worked_scopes::Scope;

/// What a row may give.
pub trait Given: Sized + Drop {
    /// What the row gives.
    fn given(alloc: Global, scope: &Scope, row: &str) -> Result<Self, Fault>;
}

impl Given for SymHeap {
    fn given(alloc: Global, scope: &Scope, row: &str) -> Result<SymHeap, Fault> {
        scope.heap(alloc, text(row, "gives"))
    }
}

impl Given for SymState {
    fn given(alloc: Global, scope: &Scope, row: &str) -> Result<SymState, Fault> {
        state_of(alloc, scope, row, "gives", "slots")
    }
}

impl Given for Post {
    fn given(alloc: Global, scope: &Scope, row: &str) -> Result<Post, Fault> {
        scope.post(alloc, text(row, "gives"))
    }
}

impl Given for Pair {
    fn given(alloc: Global, scope: &Scope, row: &str) -> Result<Pair, Fault> {
        Ok(Pair {
            missing: scope.heap(alloc, text(row, "misses"))?,
            state: SymState::given(alloc, scope, row)?,
        })
    }
}

/// Whether what was found is what was told; else it is printed.
pub fn is_told<T: PartialEq + Debug>(rt: &impl Print, found: &T, told: &T) -> Result<bool, Fault> {
    let agrees = *found == *told;
    if !agrees {
        println!(rt; "{found:?}")?;
    }
    Ok(agrees)
}

/// What the row gives, if it does not tell of a contradiction.
fn told<T: Given>(alloc: Global, scope: &Scope, row: &str) -> Result<Option<T>, Fault> {
    if part(row, "none").is_some() {
        Ok(None)
    } else {
        Ok(Some(T::given(alloc, scope, row)?))
    }
}

/// Whether what was found is what the row gives, or its contradiction; else it is printed.
pub fn is_given<T: Given + PartialEq + Debug>(
    rt: &impl Print,
    alloc: Global,
    scope: &Scope,
    row: &str,
    found: &Option<T>,
) -> Result<bool, Fault> {
    let told = told::<T>(alloc, scope, row)?;
    is_told(rt, found, &told)
}

/// What the row says: `yes` or `no`.
pub fn is_yes(row: &str) -> Result<bool, Fault> {
    match (part(row, "yes"), part(row, "no")) {
        (Some(_), None) => Ok(true),
        (None, Some(_)) => Ok(false),
        _ => Err(Fault::Row),
    }
}
