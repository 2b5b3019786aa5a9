//! The parts of a row, with ` ; ` between them. A part is a word and a text, and some texts have pieces, with ` / ` between them.
//! The first part asks: `strict COMMAND` or `search COMMAND`, executed at a node on line 5 of a procedure with the parameters `x` and
//! `y` and four slots. The others say from what:
//!
//! - `state HEAP`, `slots EXPRESSIONS` (four of them), and in the search `missing HEAP`;
//! - `own CALLEE / PRECONDITION / POST / POST ..` for each spec of a callee of the component, `outer ..` for one from outside; a callee is
//!   `f(a b)`, and a part that has it alone lists it without a spec; `cut` where the table is cut;
//!
//! and what the answer is, in its order: `on NODE / SLOTS / HEAP`, `leaves / RESULT / HEAP`, in the search with the missing heap before
//! the slots or the result; and `drops FAULT`, which in strict execution is the whole answer.
//!
//! Heaps and posts are texts of `sym_text`; a part that is left out is `emp`. Commands: `copy TO FROM`, `arith TO OP LEFT RIGHT`, `any TO`,
//! `load TO BASE KIND FIELD`, `store BASE KIND FIELD FROM`, `new TO KIND`, `free BASE KIND`, `call TO NAME ARGUMENTS` (TO may be `-`),
//! `branch OP TYPE LEFT RIGHT` (the type being `ptr` or `int`), `return VALUE`. An operand is a number, or `sN` for the slot N. They go on
//! at node 1, a test that fails at node 2.

/// The piece of a text at a place, or no text.
pub fn piece(text: &str, place: usize) -> &str {
    text.split('/').nth(place).unwrap_or("").trim()
}

/// The word of a text at a place, or no text.
pub fn word(text: &str, place: usize) -> &str {
    text.split_whitespace().nth(place).unwrap_or("")
}
