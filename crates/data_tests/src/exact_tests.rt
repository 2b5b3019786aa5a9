//! Each public function once, each generic impl at a type, and what callers of a row learn.
ghost use Rattle.std.specs.Prelude.{◌≡◌, ◌<◌, ◌≤◌, ◌↔◌, ◌++◌, ◌∷◌, [], length, slice_get, Some, IsTrue, IfOk, All};

use flow_json::Form;
use serde_json::Value;
use shape_data::answer::{Callee, Key};
use shape_data::exact::{Exact, copy_of, is_same, is_same_shared, share};
use shape_data::name::Name;
use shape_data::program::{Flow, Proc, Program};
use shape_data::row::Row;
use shape_data::symbolic::{Atom, Exp, Spec, SymHeap};
use std::alloc::{AllocError, Global};
use std::cmp::Ordering;
use std::process::Abort;
use std::sync::Arc;
use std::test::Fail;

fn name(alloc: Global, bytes: &[u8]) -> Result<Name, AllocError>
    requires some { 1 ≤ length bytes.now }
    requires short { length bytes.now ≤ 64 }
{
    Name::of(alloc, bytes)
}

// What callers of a row learn, with no proof of their own.

fn are_small(row: &Row<u32>) -> bool
    ensures { IsTrue result ↔ All (λ value. value < 10) row.now }
{
    row.iter().all(|value| *value < 10)
}

fn at(row: &Row<u32>, place: usize) -> u32
    requires { place < length row.now }
    ensures { slice_get row.now place ≡ Some result }
{
    row[place]
}

fn with_one_more(row: &mut Row<u32>, value: u32) -> Result<(), AllocError>
    ensures { IfOk result (λ done. row.new ≡ row.old ++ value ∷ []) }
{
    row.push(value)?;
    Ok(())
}

// A row of one value.
fn one<T: Drop>(alloc: Global, value: T) -> Result<Row<T>, AllocError> {
    let mut row = Row::new(alloc);
    row.push(value)?;
    Ok(row)
}

// A procedure that returns 5, and one that returns 6.
const FIVE: &str =
    r#"{"name": "five", "params": [], "slots": [], "ret": "int", "nodes": [[0, null, ["return", ["n", 5]]]]}"#;

const SIX: &str =
    r#"{"name": "five", "params": [], "slots": [], "ret": "int", "nodes": [[0, null, ["return", ["n", 6]]]]}"#;

fn flow(alloc: Global, text: &str) -> Result<Flow, Fail> {
    let value = Value::from_str(alloc, text)?;
    Ok(Flow::of_value(alloc, &value)?)
}

// A program of one procedure, which is written so.
fn program(alloc: Global, text: &str) -> Result<Program, Fail> {
    let proc = Proc {
        file: name(alloc, b"five.c")?,
        flow: flow(alloc, text)?,
        line: 3,
    };
    Ok(Program {
        structs: Row::new(alloc),
        procs: one(alloc, proc)?,
    })
}

// A structure that holds this number.
fn cell(alloc: Global, number: i32) -> Result<Atom, AllocError> {
    Ok(Atom::Points {
        at: Exp::Var(0),
        kind: name(alloc, b"node")?,
        fields: one(alloc, Exp::Const(number))?,
    })
}

// A spec that asks for a heap of one structure, which holds this number.
fn spec(alloc: Global, number: i32) -> Result<Spec, AllocError> {
    let cell = cell(alloc, number)?;
    let pre = SymHeap {
        pure: Row::new(alloc),
        spatial: one(alloc, cell)?,
    };
    let posts = Row::new(alloc);
    Ok(Spec { pre, posts })
}

fn callee(alloc: Global, number: i32) -> Result<Callee, AllocError> {
    let spec = spec(alloc, number)?;
    Ok(Callee {
        name: name(alloc, b"get")?,
        params: Row::new(alloc),
        specs: one(alloc, spec)?,
    })
}

// A key with one callee, whose spec asks for a heap that holds this number.
fn key(alloc: Global, number: i32) -> Result<Key, AllocError> {
    let callee = callee(alloc, number)?;
    Ok(Key {
        recursive: true,
        procs: Row::new(alloc),
        structs: Row::new(alloc),
        callees: one(alloc, callee)?,
    })
}

// A value is the same as its clone, and is not the same as the other.
fn tells_apart<T: Exact + Drop>(rt: &impl Abort, value: &T, other: &T) {
    let copied = copy_of(value).expect(rt, "memory");
    assert!(rt; is_same(value, &copied));
    assert!(rt; !is_same(&copied, other));
}

#[test]
fn programs_are_told_apart(rt: HostRuntime) -> Result<(), Fail> {
    let five = program(rt.alloc(), FIVE)?;
    let six = program(rt.alloc(), SIX)?;
    tells_apart(&rt, &five, &six);
    Ok(())
}

#[test]
fn keys_are_told_apart(rt: HostRuntime) {
    let five = key(rt.alloc(), 5).expect(&rt, "memory");
    let six = key(rt.alloc(), 6).expect(&rt, "memory");
    tells_apart(&rt, &five, &six);
}

#[test]
fn options_are_told_apart(rt: HostRuntime) {
    tells_apart(&rt, &Some(3u32), &None);
}

// A shared row of one value.
fn shared(alloc: Global, value: u32) -> Result<Arc<Row<u32>>, AllocError> {
    Ok(Arc::new(alloc, one(alloc, value)?)?)
}

#[test]
fn shared_values_are_compared_by_what_they_hold(rt: HostRuntime) {
    let first = shared(rt.alloc(), 5).expect(&rt, "memory");
    let alike = shared(rt.alloc(), 5).expect(&rt, "memory");
    let other = shared(rt.alloc(), 6).expect(&rt, "memory");
    assert!(rt; is_same_shared(&first, &alike));
    assert!(rt; !is_same_shared(&first, &other));
    let again = share(&first).expect(&rt, "memory");
    assert!(rt; is_same_shared(&again, &alike));
}

#[test]
fn names_are_bytes_in_order(rt: HostRuntime) {
    let short = name(rt.alloc(), b"ab").expect(&rt, "memory");
    let long = name(rt.alloc(), b"ab\xff").expect(&rt, "memory");
    let again = short.clone().expect(&rt, "memory");
    assert!(rt; Name::is_name(&[7; 64]) && !Name::is_name(&[7; 65]) && !Name::is_name(b""));
    assert_eq!(rt; long.as_bytes().len(), 3);
    assert!(rt; short < long && short == again);
}

#[test]
fn rows_are_edited(rt: HostRuntime) {
    let mut row = Row::new(rt.alloc());
    assert!(rt; row.is_empty());
    row.push(5).expect(&rt, "memory");
    with_one_more(&mut row, 7).expect(&rt, "memory");
    row.insert(1, 6).expect(&rt, "memory");
    row.set(0, 4);
    assert_eq!(rt; row.remove(1), 6);
    assert_eq!(rt; row.into_vec().as_slice(), [4, 7].as_slice());
}

// A row of two numbers.
fn two(alloc: Global, first: u32, second: u32) -> Result<Row<u32>, AllocError>
    ensures { IfOk result (λ row. row ≡ first ∷ second ∷ []) }
{
    Ok(vec![in alloc; first, second]?.into())
}

#[test]
fn rows_are_read(rt: HostRuntime) {
    let row = two(rt.alloc(), 4, 7).expect(&rt, "memory");
    assert!(rt; row.first() == row.get(0) && row.last() == row.get(1) && are_small(&row));
    assert!(rt; row.len() == 2 && at(&row, 1) == 7);
    let text = format!(in rt.alloc(); "{row:?}").expect(&rt, "memory");
    assert_eq!(rt; text.as_str(), "[4, 7]");
}

#[test]
fn rows_are_walked(rt: HostRuntime) {
    let row = two(rt.alloc(), 4, 7).expect(&rt, "memory");
    let mut count = 0u32;
    for value in &row {
        count = count.wrapping_add(*value);
    }
    assert_eq!(rt; count, 11);
}

#[test]
fn rows_are_compared(rt: HostRuntime) {
    let row = two(rt.alloc(), 4, 7).expect(&rt, "memory");
    let other = two(rt.alloc(), 4, 8).expect(&rt, "memory");
    assert!(rt; row < other && row.cmp(&other) == Ordering::Less);
    tells_apart(&rt, &row, &other);
}
