//! Keys and answers, read of texts of their JSON forms, and heaps, read of their texts; and texts that more than one test reads.
ghost use Rattle.std.specs.Prelude.{IfOk};
ghost use Rattle.shape_data.specs.WellFormed.{IsStorableAnswer, IsStorableKey};

use serde_json::Value;
use shape_data::answer::{Answer, Key};
use shape_data::program::Program;
use shape_data::symbolic::SymHeap;
use shape_data::{Name, Row, copy_of};
use std::alloc::{AllocError, Global};
use std::test::Fail;
use summary_json::{read_answer, read_key};
use worked_scopes::Scope;

/// `struct node { int data; struct node *next; };`
pub const NODE: &str = r#"["node", [["data", "int"], ["next", ["ptr", "node"]]]]"#;

/// `int f(struct node *x) {`, `int d = x->data;`, `return d;`, `}`: a line each.
pub const GET: &str = r#"{
    "name": "f", "params": ["x"], "slots": [["ptr", "node"], "int"], "ret": "int",
    "nodes": [[1, null, ["load", 1, 0, "node", 0, 1]], [2, null, ["return", ["s", 1]]]]
}"#;

/// `int f(struct node *x) {`, `while (x != NULL)`, `x = x->next;`, `return 0;`, `}`: a line each. A local int is never used.
pub const WALK: &str = r#"{
    "name": "f", "params": ["x"], "slots": [["ptr", "node"], "int"], "ret": "int",
    "nodes": [
        [1, [[], []], ["branch", "!=", true, ["s", 0], ["n", 0], 1, 2]],
        [2, null, ["load", 0, 0, "node", 1, 0]],
        [3, null, ["return", ["n", 0]]]
    ]
}"#;

/// The texts in a row.
fn joined(alloc: Global, texts: &[&str]) -> Result<String, Fail> {
    let mut whole = String::new(alloc);
    for text in texts {
        whole.push_str(text)?;
    }
    Ok(whole)
}

/// The text of a key without callees, of those of its structures and of its procedures.
fn key_text(alloc: Global, recursive: bool, structs: &str, procs: &str) -> Result<String, Fail> {
    let flag = if recursive { "true" } else { "false" };
    joined(
        alloc,
        &[
            r#"{"callees": [], "recursive": "#,
            flag,
            r#", "structs": ["#,
            structs,
            r#"], "procs": ["#,
            procs,
            "]}",
        ],
    )
}

/// The key of a text.
fn key_in(alloc: Global, text: &str) -> Result<Key, Fail>
    ensures { IfOk result IsStorableKey }
{
    match read_key(alloc, &Value::from_str(alloc, text)?)? {
        Some(key) => Ok(key),
        None => Err(Fail::from("no key")),
    }
}

/// The key without callees that has these structures and procedures. Each text is a list of JSON forms, with commas between them.
pub fn key_of(alloc: Global, recursive: bool, structs: &str, procs: &str) -> Result<Key, Fail>
    ensures { IfOk result IsStorableKey }
{
    let text = key_text(alloc, recursive, structs, procs)?;
    key_in(alloc, text.as_str())
}

/// The answer of a text, for a key.
pub fn answer_of(alloc: Global, key: &Key, text: &str) -> Result<Answer, Fail>
    ensures { IfOk result (λ answer. IsStorableAnswer key.now answer) }
{
    match read_answer(alloc, key, &Value::from_str(alloc, text)?)? {
        Some(answer) => Ok(answer),
        None => Err(Fail::from("no answer")),
    }
}

/// What texts are over that speak of these parameters and a key's structures.
fn scope_of(alloc: Global, key: &Key, params: &Row<Name>) -> Result<Scope, AllocError> {
    Ok(Scope {
        params: copy_of(params)?,
        program: Program {
            structs: copy_of(&key.structs)?,
            procs: Row::new(alloc),
        },
    })
}

/// The heaps of texts over these parameters and a key's structures.
pub fn heaps_of(
    alloc: Global,
    key: &Key,
    params: &Row<Name>,
    texts: &[&str],
) -> Result<Row<SymHeap>, Fail> {
    let scope = scope_of(alloc, key, params)?;
    let mut heaps = Row::new(alloc);
    for text in texts {
        heaps.push(scope.heap(alloc, text)?)?;
    }
    Ok(heaps)
}
