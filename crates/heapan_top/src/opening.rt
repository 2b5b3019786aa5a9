//! What a session begins with: the entries of the store that the words name.
ghost use Rattle.std.specs.Prelude.{◌≡◌, ◌≤◌, ℕ, true, List, [], Option, Some, Err, IfErr, IfOk, IfSome, length};
ghost use Rattle.io_ports.specs.Counts.{Rose};
ghost use Rattle.io_ports.specs.Places.{IsHeld, IsWithin, MOST_HELD};
ghost use Rattle.heapan_top.specs.Parts.{IsStoreEnd, path_bytes, setting_of};
ghost use Rattle.heapan_top.specs.Stores.{Opens, front_of, store_told};

use crate::status::Status;
use io_ports::{Held, KeepFault, Keeper};
use session_replies::StoredAnswers;
use std::alloc::{AllocError, Global};
use std::sync::Arc;
use summary_store::laws::loaded_are_inductive;
use summary_store::{Loaded, load};

/// What a session begins with.
#[derive(Drop)]
pub struct Opened {
    /// The entries that were loaded from the store.
    pub loaded: Arc<StoredAnswers>,
    /// Whether there is a store whose bytes are none.
    pub unread: bool,
}

/// A session that begins without an entry.
fn without_entries(alloc: Global, unread: bool) -> Result<Opened, AllocError>
    ensures loaded { IfOk result (λ opened. opened.loaded.value ≡ []) }
    ensures unread { IfOk result (λ opened. opened.unread ≡ unread) }
{
    let loaded = Arc::new(alloc, StoredAnswers::none(alloc))?;
    Ok(Opened { loaded, unread })
}

/// A session that begins with the entries of a store that has these bytes.
fn with_bytes(alloc: Global, bytes: &[u8]) -> Result<Opened, AllocError>
    requires { length bytes.now ≤ MOST_HELD }
    ensures { IfOk result (λ opened. Opens (Some (Some bytes.now)) (record { loaded = opened.loaded.value; saves = true })
        (front_of opened.unread)) }
{
    match load(alloc, bytes)? {
        Loaded::Entries {
            entries,
            dropped: _,
        } => {
            let loaded = Arc::new(alloc, StoredAnswers::of(alloc, entries)?)?;
            Ok(Opened {
                loaded,
                unread: false,
            })
        }
        Loaded::Unread { why: _ } => without_entries(alloc, true),
    }
}

/// A session that begins with what is under the path of a store.
fn with_held(alloc: Global, held: Held) -> Result<Opened, AllocError>
    requires { IsWithin held }
    ensures { IfOk result (λ opened. (there : Option (List ℕ)) → IsHeld there held
        → Opens (Some there) (record { loaded = opened.loaded.value; saves = true }) (front_of opened.unread)) }
{
    match held {
        Held::Absent => without_entries(alloc, false),
        Held::TooLong => without_entries(alloc, true),
        Held::Bytes(bytes) => with_bytes(alloc, bytes.as_slice()),
    }
}

/// Reads the store, if one is named; or says how the session ends for a fault.
pub fn open<P: Keeper>(alloc: Global, keeper: &mut P, path: Option<&str>) -> Result<Opened, Status>
    ensures opens { IfOk result (λ opened. IfSome (store_told (P.kept keeper.old) (path_bytes path.entry))
        (λ store. Opens store (setting_of opened.loaded.value path.entry) (front_of opened.unread))) }
    ensures same { (any : List ℕ) → P.kept keeper.new any ≡ P.kept keeper.old any }
    ensures status { IfErr result IsStoreEnd }
    ensures store_fault { result ≡ Err Status.StoreFault → Rose (P.faults keeper.old) (P.faults keeper.new) }
    ensures never_falls { P.faults keeper.old ≤ P.faults keeper.new }
{
    let Some(path) = path else {
        return without_entries(alloc, false).map_err(|_| Status::NoMemory);
    };
    match keeper.read_all(alloc, path) {
        Ok(held) => with_held(alloc, held).map_err(|_| Status::NoMemory),
        Err(KeepFault::Failed) => Err(Status::StoreFault),
        Err(KeepFault::OutOfMemory) => Err(Status::NoMemory),
    }
}
