//! JSON forms of structures and of procedures in flow form, as values of `serde_json`: the part of a store's keys that has no
//! symbolic heaps. A form says what a thing is written as and how a value is read (`specs/Types`, `Commands`, `Flows`, put together by
//! `Forms`); that reading is the inverse of writing, for all that fits the types, is the law `laws::reading_is_inverse`. It stands on
//! `shape_data` and `serde_json`.
//!
//! Nothing more is read than what is written: an object with another member, an array with an item more, `1.0` and `-0` are of no form. The
//! order of an object's members in a text doesn't matter, as `serde_json` keeps them in order of their names.
#![tactic(auto)]

mod commands;
mod flows;
mod forms;
pub mod laws;
mod lists;
pub mod objects;
mod types;
mod unread;
pub mod values;

pub use forms::Form;
pub use lists::{list_value, read_list};
pub use unread::Unread;
