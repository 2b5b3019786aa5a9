//! Whether entries have the answers that the loaded ones have for their keys.
ghost use Rattle.std.specs.Prelude.{◌↔◌, All, IsTrue};
ghost use Rattle.loaded_answers.specs.Lookup.{Agrees};
ghost use Rattle.claim_core.specs.Views.{solution_of};

use crate::answers::LoadedAnswers;
use shape_data::answer::Kept;
use shape_data::exact::is_same_shared;

/// Whether an entry has the answer of the first loaded entry with its key, or, where there is none, an answer that was read from no store.
fn agrees_with(loaded: &LoadedAnswers, entry: &Kept) -> bool
    ensures { IsTrue result ↔ Agrees loaded.now (solution_of entry.now) }
{
    match loaded.find(&entry.key) {
        Some(answer) => is_same_shared(&entry.answer, answer),
        None => !entry.answer.stored,
    }
}

/// Whether each entry has the answer of the first loaded entry with its key, or, where there is none, an answer that was read from no
/// store.
pub fn agrees(loaded: &LoadedAnswers, entries: &[Kept]) -> bool
    ensures { IsTrue result ↔ All (λ entry. Agrees loaded.now (solution_of entry)) entries.now }
{
    entries.iter().all(|entry| agrees_with(loaded, entry))
}
