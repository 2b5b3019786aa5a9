//! Small components: a procedure alone, one that never returns, and two of which one loses the spec that the other uses.
ghost use Rattle.shape_data.specs.WellFormed.{IsStorableKey};

use crate::texts::{NODE, key_of};
use crate::told::{NO_PATH, Told, tells};
use comp_solve::solve;
use shape_data::answer::{Answer, Fault, Key, Reason};
use std::alloc::Global;
use std::test::Fail;

/// `int get(struct node *x) {`, `return x->data;`, `}`: a line each.
const GET: &str = r#"{
    "name": "get", "params": ["x"], "slots": [["ptr", "node"], "int"], "ret": "int",
    "nodes": [[1, null, ["load", 1, 0, "node", 0, 1]], [1, null, ["return", ["s", 1]]]]
}"#;

/// `int loop(int a) {`, `return loop(a);`, `}`: a line each.
const LOOP: &str = r#"{
    "name": "loop", "params": ["a"], "slots": ["int", "int"], "ret": "int",
    "nodes": [[1, null, ["call", 1, "loop", [["s", 0]], 1]], [1, null, ["return", ["s", 1]]]]
}"#;

/// `int f(struct node *x, int a) {`, `if (a != 0)`, `return g(NULL);`, `return x->data;`, `}`, and `int g(struct node *x) {`,
/// `return f(x, 0);`, `}`: a line each.
const F_AND_G: &str = r#"{
    "name": "f", "params": ["x", "a"], "slots": [["ptr", "node"], "int", "int"], "ret": "int",
    "nodes": [
        [1, null, ["branch", "!=", false, ["s", 1], ["n", 0], 1, 2]],
        [2, null, ["call", 2, "g", [["n", 0]], 3]],
        [3, null, ["load", 2, 0, "node", 0, 3]],
        [3, null, ["return", ["s", 2]]]
    ]
}, {
    "name": "g", "params": ["x"], "slots": [["ptr", "node"], "int"], "ret": "int",
    "nodes": [[1, null, ["call", 1, "f", [["s", 0], ["n", 0]], 1]], [1, null, ["return", ["s", 1]]]]
}"#;

/// A call on this line fits no spec.
fn failed_call(line: u32) -> Option<Reason> {
    Some(Reason::Failed {
        fault: Fault::Callee,
        line,
    })
}

/// The answer that solving a key gives.
fn answer_to(alloc: Global, key: &Key) -> Result<Answer, Fail>
    requires { IsStorableKey key.now }
{
    Ok(solve(alloc, key)?)
}

/// Whether the answer for procedures without callees outside tells this of them.
fn is_told(alloc: Global, recursive: bool, procs: &str, wanted: &[Told]) -> Result<bool, Fail> {
    let key = key_of(alloc, recursive, NODE, procs)?;
    let answer = answer_to(alloc, &key)?;
    Ok(tells(&answer, wanted))
}

#[test]
fn a_procedure_alone_has_a_spec(rt: HostRuntime) -> Result<(), Fail> {
    assert!(rt; is_told(rt.alloc(), false, GET, &[(1, None)])?);
    Ok(())
}

#[test]
fn a_procedure_that_only_calls_itself_has_no_path(rt: HostRuntime) -> Result<(), Fail> {
    assert!(rt; is_told(rt.alloc(), true, LOOP, &[(0, Some(NO_PATH))])?);
    Ok(())
}

/// Strictly the call of `g` at null fits no spec, so that of `f` falls; then that of `g`, which stood on it, falls in a pass.
#[test]
fn a_spec_falls_with_the_one_that_it_uses(rt: HostRuntime) -> Result<(), Fail> {
    let wanted: [Told; 2] = [(0, failed_call(2)), (0, failed_call(1))];
    assert!(rt; is_told(rt.alloc(), true, F_AND_G, &wanted)?);
    Ok(())
}
