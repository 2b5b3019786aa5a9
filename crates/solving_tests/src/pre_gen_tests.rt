//! The candidates of three procedures.
ghost use Rattle.shape_data.specs.WellFormed.{IsStorableAnswer, IsStorableKey};

use crate::texts::{GET, NODE, WALK, answer_of, heaps_of, key_of};
use pre_gen::{Dropped, Found, candidates};
use shape_data::Row;
use shape_data::answer::{Answer, Fault, Key};
use shape_data::symbolic::SymHeap;
use std::alloc::Global;
use std::test::Fail;
use triple_check::{Task, table_of};

/// `int f(struct node *x) { free(x);`, `int d = x->data;`, `return d; }`: a line each.
const BAD: &str = r#"{
    "name": "f", "params": ["x"], "slots": [["ptr", "node"], "int"], "ret": "int",
    "nodes": [[0, null, ["free", 0, "node", 1]], [1, null, ["load", 1, 0, "node", 0, 2]], [2, null, ["return", ["s", 1]]]]
}"#;

/// No spec.
const NO_SPECS: &str =
    r#"{"procs": [{"name": "f", "reason": ["endless"], "specs": [], "certs": []}]}"#;

/// The procedure has no candidate, since x is null where its data is read.
const AT_NULL: Dropped = Dropped {
    fault: Fault::Null,
    line: 1,
};

/// Procedures: what each does, its text, its candidates in order, and the first drop.
const PROCS: [(&str, &str, &[&str], Option<Dropped>); 3] = [
    ("a cell is read", GET, &["x|->node(data:$1,next:$2)"], None),
    (
        "a list is walked",
        WALK,
        &["x=0", "x|->node(data:$1,next:0)", "ls[node.next](x,0)"],
        None,
    ),
    ("what was freed is read", BAD, &[], Some(AT_NULL)),
];

/// What is found for the first procedure of a key, under an answer's specs.
fn found(alloc: Global, key: &Key, answer: &Answer) -> Result<Found, Fail>
    requires key { IsStorableKey key.now }
    requires answer { IsStorableAnswer key.now answer.now }
{
    let Some(flow) = key.procs.get(0) else {
        return Err(Fail::from("no procedure"));
    };
    let table = table_of(alloc, key, answer)?;
    let task = Task {
        flow,
        structs: key.structs.as_slice(),
        table: &table,
        recursive: key.recursive,
    };
    Ok(candidates(alloc, &task)?)
}

/// What is found for the first procedure of a key, under no specs.
fn found_alone(alloc: Global, key: &Key) -> Result<Found, Fail>
    requires { IsStorableKey key.now }
{
    let answer = answer_of(alloc, key, NO_SPECS)?;
    found(alloc, key, &answer)
}

/// The heaps of texts over the parameters of a key's first procedure.
fn wanted(alloc: Global, key: &Key, texts: &[&str]) -> Result<Row<SymHeap>, Fail> {
    match key.procs.as_slice() {
        [flow, ..] => heaps_of(alloc, key, &flow.params, texts),
        [] => Err(Fail::from("no procedure")),
    }
}

/// Whether these candidates are found for a procedure, and this drop first.
fn finds(
    alloc: Global,
    proc: &str,
    pres: &[&str],
    first_drop: Option<Dropped>,
) -> Result<bool, Fail> {
    let key = key_of(alloc, false, NODE, proc)?;
    let pres = wanted(alloc, &key, pres)?;
    let found = found_alone(alloc, &key)?;
    Ok(found.pres == pres && found.first_drop == first_drop)
}

#[test]
fn candidates_are_found_in_order_with_the_first_drop(rt: HostRuntime) -> Result<(), Fail> {
    let alloc = rt.alloc();
    for (what, proc, pres, first_drop) in PROCS {
        assert!(rt; finds(alloc, proc, pres, first_drop)?, "{what}");
    }
    Ok(())
}
