//! The reading and writing of stores.
ghost use Rattle.std.specs.Prelude.{◌≡◌, ◌<◌, ◌↔◌, length, map, All, IfOk, IsTrue};
ghost use Rattle.store_json.specs.Entries.{IsReadEntry, IsStorable};
ghost use Rattle.claim_core.specs.Views.{solution_of};
ghost use Rattle.store_json.specs.Texts.{store_text};
ghost use Rattle.summary_store.specs.Loading.{contents_of, AreLoaded, IsInductive, IsLeftOf, IsLoaded};

use shape_data::Row;
use shape_data::answer::Kept;
use shape_data::exact::share;
use solve_laws::certificates::limits::limits_widen;
use std::alloc::{AllocError, Global};
use store_json::laws::entries_are_few;
use store_json::{Unread, read_store, write_store};
use triple_check::check_answer;

/// What the bytes of a store are loaded as.
#[derive(Drop, Debug)]
pub enum Loaded {
    /// The entries of the store that are inductive, in its order, each answer marked `stored`, and how many others there were.
    Entries { entries: Row<Kept>, dropped: u32 },
    /// The bytes are no store.
    Unread { why: Unread },
}

/// Whether the answer of an entry is inductive for its key.
fn is_inductive(alloc: Global, entry: &Kept) -> Result<bool, AllocError>
    requires { IsStorable (solution_of entry.now) }
    ensures { IfOk result (λ yes. IsTrue yes ↔ IsInductive (solution_of entry.now)) }
{
    limits_widen();
    check_answer(alloc, &entry.key, &entry.answer)
}

/// The entries that are inductive, and the number of the others.
fn checked(alloc: Global, entries: &[Kept]) -> Result<Loaded, AllocError>
    requires read { All (λ kept. IsReadEntry (solution_of kept)) entries.now }
    requires few { length entries.now < 4294967296 }
    ensures { IfOk result (λ loaded. IsLeftOf (map solution_of entries.now) (contents_of loaded)) }
{
    let mut left = Row::new(alloc);
    let mut dropped = 0u32;
    for entry in entries {
        if is_inductive(alloc, entry)? {
            left.push(Kept {
                key: share(&entry.key)?,
                answer: share(&entry.answer)?,
            })?;
        } else {
            dropped += 1;
        }
    }
    Ok(Loaded::Entries {
        entries: left,
        dropped,
    })
}

/// The entries of a store's bytes that are inductive, each answer marked `stored`, or why the bytes are no store. An entry is dropped
/// exactly where it is not inductive. There are fewer than 2^32 bytes; what limit a store has is for the caller to say. The only error is
/// want of memory.
pub fn load(alloc: Global, bytes: &[u8]) -> Result<Loaded, AllocError>
    requires { length bytes.now < 4294967296 }
    ensures value { IfOk result (λ loaded. IsLoaded bytes.now (contents_of loaded)) }
    ensures inductive { IfOk result AreLoaded }
{
    entries_are_few();
    match read_store(alloc, bytes)? {
        Ok(entries) => checked(alloc, entries.as_slice()),
        Err(why) => Ok(Loaded::Unread { why }),
    }
}

/// The bytes of a store with these entries, in this order: a JSON text (RFC 8259) and its SHA-256 (FIPS 180-4). Keys and answers are well
/// formed within the limits of a store; the answers' marks `stored` are not written. The only error is want of memory.
pub fn encode(alloc: Global, entries: &[Kept]) -> Result<Vec<u8>, AllocError>
    requires { All (λ kept. IsStorable (solution_of kept)) entries.now }
    ensures { IfOk result (λ bytes. bytes.items ≡ store_text (map solution_of entries.now)) }
{
    write_store(alloc, entries)
}
