//! What is known of programs. The desk has each component that an aim reaches answered under its key, callees first, unless it is settled
//! already. Where what it then answers agrees with the loaded entries, it is what an analysis over these would answer; where it doesn't,
//! that analysis is made here.
ghost use Rattle.std.specs.Prelude.{◌≡◌, ◌≤◌, Some, true, is_some, map, All, IfOk, OnOk};
ghost use Rattle.std.specs.List.{position};
ghost use Rattle.bottom_up.specs.BottomUp.{program_summaries};
ghost use Rattle.loaded_answers.specs.Lookup.{lookup};
ghost use Rattle.claim_core.specs.Views.{solution_of, solutions_of};
ghost use Rattle.report_text.specs.Parts.{AreReportable, IsPrintable};
ghost use Rattle.session_replies.specs.Entries.{program_entries, summary_told};
ghost use Rattle.session_replies.specs.Known.{named_summary};
ghost use Rattle.session_replies.specs.Texts.{is_named, program_store};
ghost use Rattle.session_replies.specs.Work.{count_reached};
ghost use Rattle.settled_laws.specs.Laws.{aimed_known};
ghost use Rattle.shape_data.specs.Sizes.{HasProgramSizes};
ghost use Rattle.shape_data.specs.WellFormed.{IsProgram};
ghost use Rattle.session_replies.specs.PlainAnswers.Solving.{IsStoredEntry, solve as solve_of};
ghost use Rattle.store_json.specs.Entries.{IsStorable};
ghost use Rattle.summary_book.specs.declared.aims.Aim.TheVariants as aim;

use crate::plain_answers::laws::stored_are_right;
use crate::plain_answers::{SolveJob, agreed_are_looked_up, plain};
use crate::told::{Told, told_of};
use bottom_up::laws::each_is_reported;
use bottom_up::{summary_of, summary_places};
use io_ports::Gate;
use loaded_answers::{LoadedAnswers, agrees};
use report_text::laws::formed_is_printable;
use settled_laws::laws::settled_is_known;
use shape_data::answer::{Kept, ProcSummary};
use shape_data::program::Program;
use shape_data::{Name, copy_of};
use std::alloc::{AllocError, Global};
use std::sync::ledger::Ledger;
use std::sync::{Arc, Wait};
use summary_book::Aim;
use summary_store::encode;
use worker_pool::desk::Desk;
use worker_pool::shares::Hands;

/// The answers for the components of a program that an aim reaches, callees first, with their keys. What was not known yet is solved.
fn answers_for<R: Wait, G: Gate, A: Ledger, B: Ledger>(
    rt: &R,
    alloc: Global,
    desk: &Desk<'_, SolveJob, G, A, B>,
    hands: &mut Hands<B>,
    loaded: &LoadedAnswers,
    program: &Arc<Program>,
    aim: &Aim,
) -> Result<Vec<Kept>, AllocError>
    requires formed { IsProgram program.now.value }
    requires sizes { HasProgramSizes program.now.value }
    requires loaded { All IsStoredEntry loaded.now }
    ensures known { IfOk result (λ kept. solutions_of kept.items ≡ aimed_known (lookup solve_of loaded.now) program.now.value aim.now) }
    ensures storable { IfOk result (λ kept. All (λ one. IsStorable (solution_of one)) kept.items) }
    ensures worked { OnOk result (count_reached program.now.value aim.now ≤ hands.new.seen) }
    ensures rises { hands.old.seen ≤ hands.new.seen }
{
    settled_is_known::<SolveJob>();
    agreed_are_looked_up();
    let kept = desk.settle(rt, alloc, program, aim, hands)?;
    if agrees(loaded, &kept) {
        Ok(kept)
    } else {
        plain(rt, alloc, loaded, program, aim, desk.gate())
    }
}

/// What is told of the procedures of a program, in their order. What was not known yet is solved.
pub fn entries<R: Wait, G: Gate, A: Ledger, B: Ledger>(
    rt: &R,
    alloc: Global,
    desk: &Desk<'_, SolveJob, G, A, B>,
    hands: &mut Hands<B>,
    loaded: &LoadedAnswers,
    program: &Arc<Program>,
) -> Result<Vec<Told>, AllocError>
    requires formed { IsProgram program.now.value }
    requires sizes { HasProgramSizes program.now.value }
    requires loaded { All IsStoredEntry loaded.now }
    ensures value { IfOk result (λ told. told.items ≡ program_entries loaded.now program.now.value) }
    ensures summaries { IfOk result (λ told. map summary_told told.items ≡ program_summaries loaded.now program.now.value) }
    ensures reportable { IfOk result (λ told. AreReportable program.now.value.structs program.now.value.procs
        (map summary_told told.items)) }
    ensures worked { OnOk result (count_reached program.now.value aim.All ≤ hands.new.seen) }
    ensures rises { hands.old.seen ≤ hands.new.seen }
{
    each_is_reported();
    formed_is_printable();
    stored_are_right();
    settled_is_known::<SolveJob>();
    let all = Aim::All;
    let kept = answers_for(rt, alloc, desk, hands, loaded, program, &all)?;
    let places = summary_places(alloc, program, &kept)?;
    told_of(alloc, program.procs.as_slice(), &kept, &places)
}

/// What is known of the procedure of a name. Of what was not known yet, its component is solved, and those that it calls.
pub fn summary<R: Wait, G: Gate, A: Ledger, B: Ledger>(
    rt: &R,
    alloc: Global,
    desk: &Desk<'_, SolveJob, G, A, B>,
    hands: &mut Hands<B>,
    loaded: &LoadedAnswers,
    program: &Arc<Program>,
    name: &Name,
) -> Result<ProcSummary, AllocError>
    requires formed { IsProgram program.now.value }
    requires sizes { HasProgramSizes program.now.value }
    requires loaded { All IsStoredEntry loaded.now }
    requires defined { is_some (position (is_named name.now) program.now.value.procs) ≡ true }
    ensures value { IfOk result (λ known. named_summary loaded.now program.now.value name.now ≡ Some known) }
    ensures printable { IfOk result (λ known. IsPrintable program.now.value.structs known) }
    ensures worked { OnOk result (count_reached program.now.value (aim.One name.now) ≤ hands.new.seen) }
    ensures rises { hands.old.seen ≤ hands.new.seen }
{
    each_is_reported();
    formed_is_printable();
    stored_are_right();
    let one = Aim::One(copy_of(name)?);
    let kept = answers_for(rt, alloc, desk, hands, loaded, program, &one)?;
    match summary_of(&kept, name)? {
        Some(summary) => Ok(summary),
        None => unreachable!(),
    }
}

/// The bytes of a store with what is known of all components of a program, callees first. What was not known yet is solved.
pub fn store_of<R: Wait, G: Gate, A: Ledger, B: Ledger>(
    rt: &R,
    alloc: Global,
    desk: &Desk<'_, SolveJob, G, A, B>,
    hands: &mut Hands<B>,
    loaded: &LoadedAnswers,
    program: &Arc<Program>,
) -> Result<Vec<u8>, AllocError>
    requires formed { IsProgram program.now.value }
    requires sizes { HasProgramSizes program.now.value }
    requires loaded { All IsStoredEntry loaded.now }
    ensures bytes { IfOk result (λ bytes. bytes.items ≡ program_store loaded.now program.now.value) }
    ensures worked { OnOk result (count_reached program.now.value aim.All ≤ hands.new.seen) }
    ensures rises { hands.old.seen ≤ hands.new.seen }
{
    settled_is_known::<SolveJob>();
    let all = Aim::All;
    let kept = answers_for(rt, alloc, desk, hands, loaded, program, &all)?;
    encode(alloc, &kept)
}
