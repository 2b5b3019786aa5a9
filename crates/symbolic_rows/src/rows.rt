//! The parts of a row, with ` ; ` between them. A part is a word and a text. The first word asks the question:
//!
//! - `subtract HEAP ; wanted HEAP`, with the answer `frame HEAP ; binds FACTS` or `stuck NUMBER`;
//! - `abduce HEAP ; wanted HEAP`, with the answer `missing HEAP ; frame HEAP ; binds FACTS` or `stuck NUMBER`;
//! - `both HEAP ; wanted HEAP`, where subtraction and abduction have the same answer and nothing is missing;
//! - `state HEAP ; locals EXPRESSIONS ; by HEAP ; slots EXPRESSIONS`, whether the second state covers the first: `yes` or `no`;
//! - `post POST ; by POST`, whether the second post covers the first: `yes` or `no`;
//! - `normal HEAP ; locals EXPRESSIONS`, a state and its normal form, with the answer `gives HEAP ; slots EXPRESSIONS` or `none`; the form
//!   is to be normal and its own form, and the state normal only where it is its form;
//! - `differ HEAP ; sides EXPRESSIONS`, whether two expressions are known to differ, whichever comes first: `yes` or `no`;
//! - `canonical HEAP ; locals EXPRESSIONS`, a state and its canonical form, with the answer `gives HEAP ; slots EXPRESSIONS`;
//! - `canonical-post POST`, a post and its canonical form, with the answer `gives POST`;
//! - `canonical-pair HEAP ; locals EXPRESSIONS ; missing HEAP`, a pair and its canonical form, with the answer
//!   `gives HEAP ; slots EXPRESSIONS ; misses HEAP`;
//! - `head HEAP ; locals EXPRESSIONS ; ints SLOTS ; dead SLOTS`, a state at the head of a loop with the int slots and the dead slots of
//!   its mark, with the answer `gives HEAP ; slots EXPRESSIONS` or `none`;
//! - `exit POST ; pointer STRUCTURE ; recursive`, a post at an exit: where there is no structure the result is an int, and `recursive` may
//!   be left out, with the answer `gives POST` or `none`;
//! - `pair HEAP ; locals EXPRESSIONS ; missing HEAP ; ints SLOTS ; dead SLOTS`, a pair at the head of a loop, with the answer
//!   `gives HEAP ; slots EXPRESSIONS ; misses HEAP` or `none`;
//! - `candidate HEAP`, a candidate of a recursive component, with the answer `gives HEAP` or `none`;
//! - `sample HEAP`, with the answer `gives VALUES CELLS`, a cell being `ADDRESS:KIND(VALUE,VALUE,)`, or `none`.
//!
//! Heaps and posts are texts of `sym_text`; a part that is left out is `emp`. What variables are bound to is written as equations.
//! `?11`, `?12` and `?13` are flexible. A match may also have `bound FACTS`, `avoid EXPRESSIONS` and `fresh NUMBER`, which is 3 where
//! it is left out, so that the first new logical variable is `$1`.
use shape_data::symbolic::SymState;
use std::alloc::Global;
use worked_rows::Fault;
use worked_rows::parts::{number_of, part, text};
use worked_scopes::Scope;

/// How many parameters texts are over.
pub const PARAMS: u32 = 3;

/// Their names.
pub const NAMES: &[&str; PARAMS as usize] = &["a", "b", "c"];

/// The number behind a word, or another.
pub fn number(row: &str, word: &str, otherwise: u32) -> Result<u32, Fault> {
    match part(row, word) {
        Some(digits) => number_of(digits),
        None => Ok(otherwise),
    }
}

/// The state whose heap and locals stand behind these words.
pub fn state_of(
    alloc: Global,
    scope: &Scope,
    row: &str,
    heap: &str,
    locals: &str,
) -> Result<SymState, Fault> {
    scope.state(alloc, text(row, heap), part(row, locals).unwrap_or(""))
}
