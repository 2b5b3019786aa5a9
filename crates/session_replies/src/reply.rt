//! A reply to a command.
ghost use Rattle.std.specs.Prelude.{◌≡◌, None, []};

use crate::told::Told;

/// The bytes that are written, an entry for each procedure of a report, which reporters are fed then, and the bytes that the store is to
/// have before the reply is written, if it is to be replaced.
#[derive(Drop)]
pub struct Reply {
    pub text: Vec<u8>,
    pub entries: Vec<Told>,
    pub saved: Option<Vec<u8>>,
}

impl Reply {
    /// A reply that is fed to nobody, and leaves the store as it is.
    pub fn of(text: Vec<u8>) -> Self
        ensures text { result.text.items ≡ text.items }
        ensures entries { result.entries.items ≡ [] }
        ensures saved { result.saved ≡ None }
    {
        let entries = Vec::new(*text.allocator());
        Reply {
            text,
            entries,
            saved: None,
        }
    }
}
