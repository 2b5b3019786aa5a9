//! Stores of answers. [`encode`] writes the entries of a session, each a key with its answer; [`load`] reads the bytes of a store,
//! whoever wrote them, and keeps an entry only where its certificates show that the answer is inductive for its key. So nothing of a store
//! is trusted: not its hash, and no answer in it. `specs/Loading` says what bytes are loaded as; it stands on `store_json` for the bytes
//! and on `triple_check` for the certificates.
#![tactic(auto)]

pub mod laws;
mod loading;

pub use loading::{Loaded, encode, load};
pub use store_json::Unread;
