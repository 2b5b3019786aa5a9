//! Worked rows of execution. Each line of standard input is a row: a command with what it is executed from, and the answer that was worked
//! for it by hand from the rules, or by a second program that shares nothing with this one. Rows with another answer are printed with what
//! was found, and at the end how many rows agree. Lines that are empty or begin with `#` are no rows. [`rows`] says what a row is.
#![tactic(auto)]

mod commands;
mod conditions;
mod executions;
mod programs;
mod rows;
mod tables;

use std::alloc::Global;
use std::io;
use worked_rows::parts::{first_word, has_only};
use worked_rows::{Fault, count_rows};
use worked_scopes::Scope;

/// Each structure as its name and then the names of its fields.
const STRUCTS: &[&[&str]] = &[&["node", "data", "next"], &["q", "head", "tail", "size"]];

const PARAMS: &[&str] = &["x", "y"];

/// The words of parts.
const WORDS: &[&str] = &[
    "strict", "search", "state", "slots", "missing", "own", "outer", "cut", "on", "leaves", "drops",
];

/// Whether the row's answer is the one found; where it is not, it is printed.
fn agrees(rt: &impl Print, alloc: Global, scope: &Scope, row: &str) -> Result<bool, Fault> {
    if !has_only(row, WORDS) {
        return Err(Fault::Row);
    }
    let (word, _) = first_word(row);
    match word {
        "strict" => executions::steps(rt, alloc, scope, row),
        "search" => executions::searches(rt, alloc, scope, row),
        _ => Err(Fault::Row),
    }
}

fn main(rt: HostRuntime) -> io::Result<()> {
    let alloc = rt.alloc();
    match Scope::new(alloc, PARAMS, STRUCTS) {
        Ok(scope) => count_rows(&rt, |row| agrees(&rt, alloc, &scope, row).map(Some)),
        Err(fault) => println!(rt; "no scope: {fault:?}"),
    }
}
