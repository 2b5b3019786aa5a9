//! A key that has a spec, and one that has none, through the job.
use crate::texts::key_of;
use crate::told::{NO_PATH, tells};
use claim_core::{Job, Tally, has_key_sizes};
use comp_solve::job::{SolveJob, StoredAnswers};
use shape_data::answer::Answer;
use std::alloc::Global;
use std::process::Abort;
use std::sync::Arc;
use std::test::Fail;

/// `int g() { return 0; }` on line 1.
const RETURNS: &str = r#"{
    "name": "g", "params": [], "slots": [], "ret": "int", "nodes": [[1, null, ["return", ["n", 0]]]]
}"#;

/// `int g() { return g(); }` on line 1.
const NEVER_RETURNS: &str = r#"{
    "name": "g", "params": [], "slots": ["int"], "ret": "int",
    "nodes": [[1, null, ["call", 0, "g", [], 1]], [1, null, ["return", ["s", 0]]]]
}"#;

/// The job without loaded entries.
fn job(alloc: Global) -> Result<SolveJob, Fail> {
    Ok(SolveJob::new(Arc::new(alloc, StoredAnswers::none(alloc))?))
}

/// The answer of the job to the key of a procedure alone. One solve is counted.
fn answer_to(
    rt: &impl Abort,
    alloc: Global,
    recursive: bool,
    proc: &str,
) -> Result<Arc<Answer>, Fail> {
    let job = job(alloc)?;
    let key = key_of(alloc, recursive, "", proc)?;
    assert!(rt; has_key_sizes(&key));
    let key = Arc::new(alloc, key)?;
    let mut tally = Tally::new();
    let solved = job.solve(alloc, &key, &mut tally)?;
    assert_eq!(rt; tally.count(), 1);
    assert_eq!(rt; solved.key().procs.len(), 1);
    Ok(solved.into_answer())
}

#[test]
fn a_key_is_answered_with_a_spec(rt: HostRuntime) -> Result<(), Fail> {
    let answer = answer_to(&rt, rt.alloc(), false, RETURNS)?;
    assert!(rt; tells(&answer, &[(1, None)]));
    Ok(())
}

#[test]
fn a_key_is_answered_with_a_reason(rt: HostRuntime) -> Result<(), Fail> {
    let answer = answer_to(&rt, rt.alloc(), true, NEVER_RETURNS)?;
    assert!(rt; tells(&answer, &[(0, Some(NO_PATH))]));
    Ok(())
}
