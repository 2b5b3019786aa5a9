//! JSON forms of keys and answers, as values of `serde_json`: what a store holds. A form says what a thing is written as (`specs/Texts`,
//! `Keys`, `Reasons`, `Answers`) and how a value is read; a value is read as the one well-formed key or answer that is written so, and
//! as nothing where there is none (`specs/Laws`). It stands on `flow_json`, on the texts of heaps of `sym_text` and on the tests of
//! well-formedness of `shape_data`.
#![tactic(auto)]

mod answers;
mod certs;
mod keys;
pub mod laws;
mod params;
mod reasons;
mod scoped;
mod specs_of;
mod texts;

pub use answers::{answer_value, read_answer};
pub use keys::{key_value, read_key};
