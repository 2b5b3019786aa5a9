//! What a report tells of each procedure, as reporters are offered it. Summaries stay where they stand: an entry shares the answer of its
//! procedure's component.
ghost use Rattle.std.specs.Prelude.{◌≡◌, All, IfOk, IsSome, length, slice_get};
ghost use Rattle.std.specs.List.{filter_map};
ghost use Rattle.bottom_up.specs.Placed.{answers_kept, summary_in};
ghost use Rattle.session_replies.specs.Entries.{IsEntryOf, entries_over};

use bottom_up::Place;
use report_text::HasSummary;
use reporters::{Entry, SharedSummary};
use shape_data::answer::{Answer, Kept, ProcSummary};
use shape_data::copy_of;
use shape_data::program::Proc;
use std::alloc::{AllocError, Global};
use std::marker::Model;
use std::sync::Arc;

/// The entry of a procedure. Contracts see the entry.
#[derive(Drop)]
pub struct Told {
    entry: Entry,
}

impl Model for Told {
    ghost use Rattle.reporters.specs.declared.reporter.Entry.{Entry};

    ghost Value = { Entry };

    ghost view = { λ told. told.entry };
}

impl HasSummary for Told {
    ghost its = { λ entry. entry.summary };

    fn summary(&self) -> &ProcSummary {
        &self.entry.summary
    }
}

impl Told {
    /// The entry of a procedure, with the summary that an answer has of its member at this place.
    fn of(proc: &Proc, answer: &Arc<Answer>, member: usize) -> Result<Self, AllocError>
        requires { IsSome (slice_get answer.now.value.procs member) }
        ensures { IfOk result (λ entry. IsEntryOf proc.now (slice_get answer.now.value.procs member) entry) }
    {
        let entry = Entry {
            file: copy_of(&proc.file)?,
            line: proc.line,
            summary: SharedSummary::of(answer, member)?,
        };
        Ok(Told { entry })
    }

    /// The entry.
    pub fn entry(&self) -> &Entry
        ensures { result.now ≡ self.now }
    {
        &self.entry
    }
}

/// The answer that a place is in.
fn answer_at<'a>(kept: &'a [Kept], place: &Place) -> &'a Arc<Answer>
    requires { IsSome (summary_in (answers_kept kept.now) place.now) }
    ensures { slice_get result.now.value.procs place.now.member ≡ summary_in (answers_kept kept.now) place.now }
{
    &kept[place.component].answer
}

/// What is told of procedures whose summaries stand at these places.
pub fn told_of(
    alloc: Global,
    procs: &[Proc],
    kept: &[Kept],
    places: &[Place],
) -> Result<Vec<Told>, AllocError>
    requires one_each { length places.now ≡ length procs.now }
    requires there { All (λ place. IsSome (summary_in (answers_kept kept.now) place)) places.now }
    ensures { IfOk result (λ told. told.items ≡ entries_over procs.now (filter_map (summary_in (answers_kept kept.now)) places.now)) }
{
    let mut all = Vec::with_capacity(alloc, places.len())?;
    for number in 0..places.len() {
        let place = &places[number];
        let answer = answer_at(kept, place);
        all.push(Told::of(&procs[number], answer, place.member)?)?;
    }
    Ok(all)
}
