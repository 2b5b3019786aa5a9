//! Annotations of preconditions of two small procedures.
ghost use Rattle.std.specs.Prelude.{◌≡◌, false, [], IfOk};
ghost use Rattle.shape_data.specs.WellFormed.{IsStorableAnswer, IsStorableKey};

use crate::texts::{GET, NODE, WALK, answer_of, key_of};
use exec_laws::Table;
use post_gen::{Annotated, Task, annotate};
use shape_data::answer::{Answer, Fault, Key};
use shape_data::symbolic::Post;
use shape_data::{Row, copy_of, is_same};
use std::alloc::{AllocError, Global};
use std::test::Fail;

/// A cell is owned, and stays; its data is returned.
const CELL: &str = r#"{"procs": [{
    "name": "f", "reason": null, "certs": [{"nodes": [[], []], "exits": []}],
    "specs": [{"pre": "x|->node(data:$1,next:$2)", "posts": ["x|->node(data:$1,next:$2) ret=$1"]}]
}]}"#;

/// A list is owned, and stays.
const LIST: &str = r#"{"procs": [{
    "name": "f", "reason": null, "certs": [{"nodes": [[], [], []], "exits": []}],
    "specs": [{"pre": "ls[node.next](x,0)", "posts": ["ls[node.next](x,0) ret=0"]}]
}]}"#;

/// Nothing is owned.
const NOTHING: &str = r#"{"procs": [{
    "name": "f", "reason": null, "certs": [{"nodes": [[], []], "exits": []}],
    "specs": [{"pre": "emp", "posts": []}]
}]}"#;

/// Why an annotation fails, and at which line.
type Failure = (Fault, u32);

/// Annotations: what is shown, the procedure, an answer with the precondition and with the posts that come of it, and the failure,
/// if there is one.
const ANNOTATIONS: [(&str, &str, &str, Option<Failure>); 3] = [
    ("a cell is read", GET, CELL, None),
    ("a list is walked", WALK, LIST, None),
    ("nothing is owned", GET, NOTHING, Some((Fault::Unowned, 1))),
];

/// The strict table of the key's callees alone.
fn table_of(alloc: Global, key: &Key) -> Result<Table, AllocError>
    ensures { IfOk result (λ table. table ≡ record { own = []; outer = key.now.callees; cut = false }) }
{
    Ok(Table {
        own: Row::new(alloc),
        outer: copy_of(&key.callees)?,
        cut: false,
    })
}

/// What comes of the annotation of the answer's first precondition.
fn annotation(alloc: Global, key: &Key, answer: &Answer) -> Result<Annotated, Fail>
    requires key { IsStorableKey key.now }
    requires answer { IsStorableAnswer key.now answer.now }
{
    let Some(flow) = key.procs.first() else {
        return Err(Fail::from("no procedure"));
    };
    let Some(summary) = answer.procs.first() else {
        return Err(Fail::from("no summary"));
    };
    let Some(spec) = summary.specs.first() else {
        return Err(Fail::from("no spec"));
    };
    let table = table_of(alloc, key)?;
    let task = Task {
        flow,
        structs: key.structs.as_slice(),
        table: &table,
        recursive: key.recursive,
    };
    Ok(annotate(alloc, &task, &spec.pre)?)
}

/// Whether an answer has one spec, with these posts.
fn has_posts(answer: &Answer, posts: &Row<Post>) -> bool {
    match answer.procs.as_slice() {
        [summary] => match summary.specs.as_slice() {
            [spec] => is_same(&spec.posts, posts),
            _ => false,
        },
        _ => false,
    }
}

/// Whether an annotation failed so, or else is done with the answer's posts.
fn is_right(made: &Annotated, answer: &Answer, failure: Option<Failure>) -> bool {
    match made {
        Annotated::Done { posts, .. } => failure.is_none() && has_posts(answer, posts),
        Annotated::Fail { fault, line } => failure == Some((*fault, *line)),
        Annotated::Spent { .. } => false,
    }
}

/// Whether the precondition of an answer for a procedure is annotated as wanted.
fn is_annotated(
    alloc: Global,
    proc: &str,
    text: &str,
    failure: Option<Failure>,
) -> Result<bool, Fail> {
    let key = key_of(alloc, false, NODE, proc)?;
    let answer = answer_of(alloc, &key, text)?;
    let made = annotation(alloc, &key, &answer)?;
    Ok(is_right(&made, &answer, failure))
}

#[test]
fn preconditions_are_annotated(rt: HostRuntime) -> Result<(), Fail> {
    let alloc = rt.alloc();
    for (what, proc, text, failure) in ANNOTATIONS {
        assert!(rt; is_annotated(alloc, proc, text, failure)?, "{what}");
    }
    Ok(())
}
