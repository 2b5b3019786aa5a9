//! The forms of a row: a word, and what is asked.
//!
//! - `read TEXT $ TREE`: the tree of a text, which stands behind nothing, as `show` writes it; or `CODE LINE:COLUMN`, where it is refused.
//! - `before TEXT`: what the texts of the rows below stand behind, on their first line; it is no row by itself.
//! - `flow TEXT $ LINES`: the flow form of the text's procedures, with ` $ ` between the lines. Each procedure has a line with its name,
//!   its parameters, the types of its slots and of its result, and a line a node: its place, its line in the text (from 0), its command,
//!   and the mark of a loop's head.
//! - `typed TEXT`: the text keeps the rules of typing.
//! - `refused CODE TEXT`: it is refused with this code, at the place that `@` marks.
//! - `kinds LETTERS TEXT`: the types of its expressions, in their order: `i` an int, `p` a pointer, `v` void.
//! - `two FILE CODE COLUMN TEXT $ TEXT`: the first refusal of two files, which stand behind nothing, or `0 0 0`.
//!
//! `%` in a text or a tree is the end of a line.
use std::alloc::{AllocError, Global};

/// What stands before `$`, and behind it.
pub fn both_sides(text: &str) -> (&str, &str) {
    match text.split_once('$') {
        Some((before, behind)) => (before.trim(), behind.trim()),
        None => (text, ""),
    }
}

/// A text behind another, without marks and with its ends of lines.
pub fn text_behind(alloc: Global, before: &str, text: &str) -> Result<Vec<u8>, AllocError> {
    let mut bytes = Vec::from_slice(alloc, before.as_bytes())?;
    for byte in text.as_bytes() {
        match *byte {
            b'@' => {}
            b'%' => bytes.push(b'\n')?,
            other => bytes.push(other)?,
        }
    }
    Ok(bytes)
}
