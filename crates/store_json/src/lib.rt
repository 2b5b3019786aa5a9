//! The bytes of a store: entries, each a key with its answer, as one compact JSON text (RFC 8259) with the SHA-256 of that text
//! (FIPS 180-4) behind it. What bytes are written (`specs/Texts`) and what bytes are read as (`specs/Reading`) are definitions that the
//! code is equal to. It stands on the JSON forms of `summary_json` and on `serde_json`, `sha2` and `hex`.
//!
//! A right hash shows no more than that the text is what was written once: whoever writes a store can write any hash. Whether an answer is
//! right for its key is not asked here.
#![tactic(auto)]

mod entries;
pub mod laws;
mod reading;
mod trailer;
mod writing;

pub use reading::{Unread, read_store};
pub use writing::write_store;
