//! Worked rows of matching, of coverings, of samples, of abstraction, and of the normal and the canonical form. Each line of standard input
//! is a row: a question, and the answer that was worked for it by hand from the rules (or by a second program that shares nothing with this
//! one). Rows with another answer are printed with what was found, and at the end how many rows agree. Lines that are empty or begin with
//! `#` are no
//! rows. [`rows`] says what a row is.
#![tactic(auto)]

mod abstractions;
mod coverings;
mod forms;
mod matches;
mod rows;
mod samples;
mod told;

use std::alloc::Global;
use std::io;
use worked_rows::parts::{first_word, has_only};
use worked_rows::{Fault, count_rows};
use worked_scopes::Scope;

/// Each structure as its name and then its fields: a name, and behind it the structure that a pointer points to.
const STRUCTS: &[&[&str]] = &[
    &["node", "data", "next node"],
    &["leaf", "value"],
    &["stack", "head node", "size"],
    &["tree", "l tree", "k", "r tree"],
];

/// The words of parts.
const WORDS: &[&str] = &[
    "subtract",
    "abduce",
    "both",
    "state",
    "post",
    "normal",
    "differ",
    "canonical",
    "canonical-post",
    "canonical-pair",
    "head",
    "exit",
    "pair",
    "candidate",
    "sample",
    "wanted",
    "bound",
    "avoid",
    "fresh",
    "missing",
    "frame",
    "binds",
    "stuck",
    "locals",
    "by",
    "slots",
    "sides",
    "gives",
    "misses",
    "ints",
    "dead",
    "pointer",
    "recursive",
    "none",
    "yes",
    "no",
];

/// Whether the row's answer is the one found; where it is not, it is printed.
fn agrees(rt: &impl Print, alloc: Global, scope: &Scope, row: &str) -> Result<bool, Fault> {
    if !has_only(row, WORDS) {
        return Err(Fault::Row);
    }
    let (word, _) = first_word(row);
    match word {
        "subtract" => matches::subtracts(rt, alloc, scope, row, "subtract"),
        "abduce" => matches::abduces(rt, alloc, scope, row, "abduce"),
        "both" => matches::agree(rt, alloc, scope, row),
        "state" => coverings::covers_as_state(alloc, scope, row),
        "post" => coverings::covers_as_post(alloc, scope, row),
        "sample" => samples::samples(rt, alloc, scope, row),
        "normal" => forms::has_normal_form(rt, alloc, scope, row),
        "differ" => forms::differ(alloc, scope, row),
        "canonical" => forms::has_canonical_form(rt, alloc, scope, row),
        "canonical-post" => forms::has_canonical_post(rt, alloc, scope, row),
        "canonical-pair" => forms::has_canonical_pair(rt, alloc, scope, row),
        "head" => abstractions::abstracts_at_head(rt, alloc, scope, row),
        "exit" => abstractions::abstracts_at_exit(rt, alloc, scope, row),
        "pair" => abstractions::abstracts_pair(rt, alloc, scope, row),
        "candidate" => abstractions::abstracts_candidate(rt, alloc, scope, row),
        _ => Err(Fault::Row),
    }
}

fn main(rt: HostRuntime) -> io::Result<()> {
    let alloc = rt.alloc();
    match Scope::new(alloc, rows::NAMES.as_slice(), STRUCTS) {
        Ok(scope) => count_rows(&rt, |row| agrees(&rt, alloc, &scope, row).map(Some)),
        Err(fault) => println!(rt; "no scope: {fault:?}"),
    }
}
