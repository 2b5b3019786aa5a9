//! Where summaries stand among answers, found by their names: the summary of a procedure is the first of its name among all answers, so a
//! map has the place of the first summary of each name, and each procedure is looked up there.
ghost use Rattle.std.specs.Prelude.{◌≡◌, List, [], ◌∷◌, ◌++◌, map, slice_get, Some, All, IfOk, OnOk, IsSome};
ghost use Rattle.shape_data.specs.declared.answer.Answer.{Answer};
ghost use Rattle.shape_data.specs.declared.answer.ProcSummary.{ProcSummary};
ghost use Rattle.bottom_up.specs.Placed.{AreFirst, answers_kept, first_place, summaries_in, summary_among, summary_in};

use indexmap::IndexMap;
use shape_data::Name;
use shape_data::answer::{Answer, Kept, ProcSummary};
use shape_data::program::Proc;
use std::alloc::{AllocError, Global};

/// The place of a summary: that of its answer, and its place among the answer's summaries.
#[derive(Clone, Copy, PartialEq, Eq, Debug)]
pub struct Place {
    pub component: usize,
    pub member: usize,
}

/// The place of the first summary of each name, by the bytes of the name.
type FirstPlaces<'a> = IndexMap<&'a [u8], Place>;

/// Adds the place of a summary, unless its name has one.
fn add_summary<'a>(
    firsts: &mut FirstPlaces<'a>,
    place: Place,
    summary: &'a ProcSummary,
) -> Result<(), AllocError>
    ensures { OnOk result ((answers : List Answer) (before : List ProcSummary) → summary_in answers place ≡ Some summary.now →
        AreFirst answers before firsts.old → AreFirst answers (before ++ summary.now ∷ []) firsts.new) }
{
    let name = summary.name.as_bytes();
    if !firsts.contains_key(name) {
        firsts.insert(name, place)?;
    }
    Ok(())
}

/// Adds the places of an answer's summaries, but for the names that have one.
fn add_answer<'a>(
    firsts: &mut FirstPlaces<'a>,
    component: usize,
    answer: &'a Answer,
) -> Result<(), AllocError>
    ensures { OnOk result ((answers : List Answer) (before : List ProcSummary) → slice_get answers component ≡ Some answer.now →
        AreFirst answers before firsts.old → AreFirst answers (before ++ answer.now.procs) firsts.new) }
{
    for (member, summary) in answer.procs.as_slice().iter().enumerate() {
        add_summary(firsts, Place { component, member }, summary)?;
    }
    Ok(())
}

/// The places of the first summaries of all names, of which there are about so many.
fn first_places<'a>(
    alloc: Global,
    about: usize,
    kept: &'a [Kept],
) -> Result<FirstPlaces<'a>, AllocError>
    ensures { IfOk result (λ firsts. AreFirst (answers_kept kept.now) (summaries_in (answers_kept kept.now)) firsts) }
{
    let mut firsts = IndexMap::with_capacity(alloc, about)?;
    for (component, one) in kept.iter().enumerate() {
        add_answer(&mut firsts, component, &one.answer)?;
    }
    Ok(firsts)
}

/// The place of the first summary of the name, which has one.
fn first_place(firsts: &FirstPlaces<'_>, name: &Name) -> Place
    requires { IsSome (first_place firsts.now name.now) }
    ensures { first_place firsts.now name.now ≡ Some result }
{
    *firsts.get(name.as_bytes()).unwrap()
}

/// Where the first summaries of these procedures' names stand among the answers.
pub fn places_named(alloc: Global, procs: &[Proc], kept: &[Kept]) -> Result<Vec<Place>, AllocError>
    requires { All (λ proc. IsSome (summary_among (answers_kept kept.now) proc.flow.name)) procs.now }
    ensures { IfOk result (λ places. map (summary_in (answers_kept kept.now)) places.items
        ≡ map (λ proc. summary_among (answers_kept kept.now) proc.flow.name) procs.now) }
{
    let firsts = first_places(alloc, procs.len(), kept)?;
    let mut places = Vec::with_capacity(alloc, procs.len())?;
    for proc in procs {
        places.push(first_place(&firsts, &proc.flow.name))?;
    }
    Ok(places)
}
