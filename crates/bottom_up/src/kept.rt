//! Where the summaries of a program's procedures stand among answers that are at hand, one for each component, callees first.
ghost use Rattle.std.specs.Prelude.{◌≡◌, length, All, IfOk, IsSome};
ghost use Rattle.std.specs.List.{filter_map, find};
ghost use Rattle.std.specs.Option.{option_copied};
ghost use Rattle.std.specs.Str.{bytes_eq};
ghost use Rattle.bottom_up.specs.BottomUp.{answers_in, known_by, summaries_for};
ghost use Rattle.bottom_up.specs.Laws.{AreRight};
ghost use Rattle.bottom_up.specs.Placed.{answers_kept, summary_among, summary_in};
ghost use Rattle.shape_data.specs.declared.answer.Key.{Key};
ghost use Rattle.shape_data.specs.WellFormed.{IsProgram};

use crate::places::{Place, places_named};
use shape_data::answer::{Answer, Kept, ProcSummary};
use shape_data::program::Program;
use shape_data::{Name, copy_of};
use std::alloc::{AllocError, Global};

/// Where the summaries of a program's procedures stand, in their order, among the answers of its components, each key having a right one.
pub fn summary_places(
    alloc: Global,
    program: &Program,
    kept: &[Kept],
) -> Result<Vec<Place>, AllocError>
    requires program { IsProgram program.now }
    requires right { (answer_of : Key → Answer) × AreRight answer_of
        × (answers_kept kept.now ≡ answers_in (known_by answer_of program.now)) }
    ensures one_each { IfOk result (λ places. length places.items ≡ length program.now.procs) }
    ensures there { IfOk result (λ places. All (λ place. IsSome (summary_in (answers_kept kept.now) place)) places.items) }
    ensures summaries { (answer_of : Key → Answer) → AreRight answer_of
        → answers_kept kept.now ≡ answers_in (known_by answer_of program.now)
        → IfOk result (λ places. filter_map (summary_in (answers_kept kept.now)) places.items
        ≡ summaries_for (known_by answer_of program.now) program.now.procs) }
{
    places_named(alloc, program.procs.as_slice(), kept)
}

/// The summary of the name in an answer.
fn summary_named<'a>(answer: &'a Answer, name: &Name) -> Option<&'a ProcSummary>
    ensures { option_copied result ≡ find (λ summary. bytes_eq summary.name name.now) answer.now.procs }
{
    answer
        .procs
        .as_slice()
        .iter()
        .find(|summary| summary.name == *name)
}

/// The first summary of the name among these answers.
pub fn summary_of(kept: &[Kept], name: &Name) -> Result<Option<ProcSummary>, AllocError>
    ensures { IfOk result (λ found. found ≡ summary_among (answers_kept kept.now) name.now) }
{
    for one in kept {
        if let Some(found) = summary_named(&one.answer, name) {
            return Ok(Some(copy_of(found)?));
        }
    }
    Ok(None)
}
