//! Worked rows of the front end. Each line of standard input is a row: a text in C, and what was worked for it by hand from the rules of
//! the grammar, of typing or of lowering. Rows with another answer are printed with what was found, and at the end how many rows agree.
//! Lines that are empty or begin with `#` are no rows. [`rows`] says what a row is.
#![tactic(auto)]

mod flows;
mod rows;
mod show;
mod trees;
mod typing;

use std::alloc::Global;
use std::io;
use worked_rows::parts::first_word;
use worked_rows::{Fault, count_rows};

/// Whether the row's answer is the one found; where it is not, what was found is printed.
fn agrees(rt: &impl Print, alloc: Global, before: &str, row: &str) -> Result<bool, Fault> {
    let (word, asked) = first_word(row);
    match word {
        "read" => trees::is_read(rt, alloc, asked),
        "flow" => flows::is_lowered(rt, alloc, before, asked),
        "typed" => typing::is_typed(rt, alloc, before, asked),
        "refused" => typing::is_refused(rt, alloc, before, asked),
        "kinds" => typing::has_kinds(rt, alloc, before, asked),
        "two" => typing::are_refused(rt, alloc, asked),
        _ => Err(Fault::Row),
    }
}

/// Whether the row agrees; a line that says what the texts of those below stand behind is no row.
fn answer(
    rt: &impl Print,
    alloc: Global,
    before: &mut String,
    row: &str,
) -> Result<Option<bool>, Fault> {
    match row.strip_prefix("before ") {
        None => Ok(Some(agrees(rt, alloc, before.as_str(), row)?)),
        Some(text) => {
            before.clear();
            before.push_str(text)?;
            before.push(' ')?;
            Ok(None)
        }
    }
}

fn main(rt: HostRuntime) -> io::Result<()> {
    let alloc = rt.alloc();
    let mut before = String::new(alloc);
    count_rows(&rt, |row| answer(&rt, alloc, &mut before, row))
}
