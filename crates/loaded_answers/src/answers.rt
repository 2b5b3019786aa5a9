//! The entries that were loaded, with a map by which they are found.
ghost use Rattle.std.specs.Prelude.{◌≡◌, List, [], ◌∷◌, ◌++◌, IfOk, OnOk};
ghost use Rattle.std.specs.Option.{option_map};
ghost use Rattle.claim_core.specs.Views.{Solution, solution_of, solutions_of};
ghost use Rattle.loaded_answers.specs.Lookup.{AreFound, first_answer};

use crate::keys::{EntryKey, SoughtKey};
use indexmap::IndexMap;
use shape_data::Row;
use shape_data::answer::{Answer, Kept, Key};
use shape_data::exact::share;
use std::alloc::{AllocError, Global};
use std::marker::Model;
use std::sync::Arc;

/// Answers that were loaded from a store, found by their keys. Contracts see the entries, in the order in which they were loaded.
#[derive(Drop)]
pub struct LoadedAnswers {
    entries: Row<Kept>,
    found: IndexMap<EntryKey, Arc<Answer>>,
}

impl Model for LoadedAnswers {
    ghost use Rattle.std.specs.Prelude.{List};
    ghost use Rattle.claim_core.specs.Views.{Solution, solutions_of};
    ghost use Rattle.loaded_answers.specs.Lookup.{AreFound};

    ghost Value = { List Solution };

    ghost view = { λ loaded. solutions_of loaded.entries };

    ghost invariant = { λ loaded. AreFound (λ answer. answer.value) (solutions_of loaded.entries) loaded.found };
}

/// Adds an entry to what is found, unless one with its key is found already.
fn add_entry(found: &mut IndexMap<EntryKey, Arc<Answer>>, entry: &Kept) -> Result<(), AllocError>
    ensures { OnOk result
        ((loaded : List Solution) → AreFound (λ answer. answer.value) loaded found.old
        → AreFound (λ answer. answer.value) (loaded ++ solution_of entry.now ∷ []) found.new) }
{
    if found.contains_key(SoughtKey { key: &entry.key }) {
        return Ok(());
    }
    let key = EntryKey::of(share(&entry.key)?);
    found.insert(key, share(&entry.answer)?)?;
    Ok(())
}

impl LoadedAnswers {
    /// No entries.
    pub fn none(alloc: Global) -> Self
        ensures { result ≡ [] }
    {
        LoadedAnswers {
            entries: Row::new(alloc),
            found: IndexMap::new(alloc),
        }
    }

    /// These entries.
    pub fn of(alloc: Global, entries: Row<Kept>) -> Result<Self, AllocError>
        ensures { IfOk result (λ loaded. loaded ≡ solutions_of entries) }
    {
        let mut found = IndexMap::new(alloc);
        for entry in entries.as_slice() {
            add_entry(&mut found, entry)?;
        }
        Ok(LoadedAnswers { entries, found })
    }

    /// The answer of the first entry with the key, if there is one.
    pub fn find(&self, key: &Key) -> Option<&Arc<Answer>>
        ensures { option_map (λ answer. answer.now.value) result ≡ first_answer self.now key.now }
    {
        self.found.get(SoughtKey { key })
    }
}
