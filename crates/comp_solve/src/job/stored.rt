//! Answers of a store, of which nothing is trusted: that each is right for its key was checked, and the type keeps it.
ghost use Rattle.std.specs.Prelude.{◌≡◌, [], All, IfOk};
ghost use Rattle.claim_core.specs.Views.{solutions_of};
ghost use Rattle.comp_solve.specs.Job.Solves.{IsStoredEntry};

use loaded_answers::LoadedAnswers;
use shape_data::Row;
use shape_data::answer::Kept;
use std::alloc::{AllocError, Global};
use std::marker::Model;

/// Entries that were loaded from a store, each marked so, inductive for its key and within the limits of a store. Contracts see the
/// entries.
#[derive(Drop)]
pub struct StoredAnswers {
    loaded: LoadedAnswers,
}

impl Model for StoredAnswers {
    ghost use Rattle.std.specs.Prelude.{All, List};
    ghost use Rattle.claim_core.specs.Views.{Solution};
    ghost use Rattle.comp_solve.specs.Job.Solves.{IsStoredEntry};

    ghost Value = { List Solution };

    ghost view = { λ stored. stored.loaded };

    ghost invariant = { λ stored. All IsStoredEntry stored.loaded };
}

impl StoredAnswers {
    /// No entries.
    pub fn none(alloc: Global) -> Self
        ensures { result ≡ [] }
    {
        StoredAnswers {
            loaded: LoadedAnswers::none(alloc),
        }
    }

    /// These entries.
    pub fn of(alloc: Global, entries: Row<Kept>) -> Result<Self, AllocError>
        requires { All IsStoredEntry (solutions_of entries) }
        ensures { IfOk result (λ stored. stored ≡ solutions_of entries) }
    {
        Ok(StoredAnswers {
            loaded: LoadedAnswers::of(alloc, entries)?,
        })
    }

    /// The entries, to look answers up in.
    pub fn answers(&self) -> &LoadedAnswers
        ensures value { result.now ≡ self.now }
        ensures stored { All IsStoredEntry self.now }
    {
        &self.loaded
    }
}
