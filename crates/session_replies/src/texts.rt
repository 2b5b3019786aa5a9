//! The lines of replies.
ghost use Rattle.std.specs.Prelude.{◌≡◌, ◌≤◌, None, true, is_some, [], All, IfOk, OnOk};
ghost use Rattle.std.specs.List.{position};
ghost use Rattle.shape_data.specs.Sizes.{HasProgramSizes};
ghost use Rattle.shape_data.specs.WellFormed.{IsProgram};
ghost use Rattle.session_replies.specs.Entries.{program_entries};
ghost use Rattle.session_replies.specs.Parts.{bytes_saved};
ghost use Rattle.session_replies.specs.Texts.{
  block_named,
  drop_line,
  error_line,
  is_named,
  ok_line,
  program_missing,
  program_report,
  program_stored_line,
  program_total,
  refused_line,
  stored_program,
};
ghost use Rattle.session_replies.specs.Work.{count_reached};
ghost use Rattle.session_replies.specs.PlainAnswers.Solving.{IsStoredEntry};
ghost use Rattle.summary_book.specs.declared.aims.Aim.TheVariants as aim;

use crate::known::{entries, store_of, summary};
use crate::plain_answers::SolveJob;
use crate::reply::Reply;
use io_ports::{Gate, MOST_HELD};
use loaded_answers::LoadedAnswers;
use project_form::Refused;
use report_text::totals::push_total;
use report_text::{block, count_none, push_decimal, push_report};
use shape_data::Name;
use shape_data::program::Program;
use std::alloc::{AllocError, Global};
use std::sync::ledger::Ledger;
use std::sync::{Arc, Wait};
use worker_pool::desk::Desk;
use worker_pool::shares::Hands;

/// The code of a name under which no file is present.
const NO_FILE: u16 = 145;

/// The code of a name that no procedure has.
const NO_PROC: u16 = 146;

/// The code of a store that would have more than [`MOST_HELD`] bytes, which a keeper would not read again.
const STORE_TOO_LONG: u16 = 148;

/// The line that all is well.
pub fn ok_text(alloc: Global) -> Result<Vec<u8>, AllocError>
    ensures { IfOk result (λ text. text.items ≡ ok_line) }
{
    Vec::from_slice(alloc, b"ok\n")
}

/// The line of an error.
#[tactic(auto, using(crate::proofs::Appending::appending))]
pub fn error_text(alloc: Global, code: u16) -> Result<Vec<u8>, AllocError>
    ensures { IfOk result (λ text. text.items ≡ error_line code) }
{
    let mut text = Vec::from_slice(alloc, b"error ")?;
    push_decimal(&mut text, u64::from(code))?;
    text.extend_from_slice(b"\n")?;
    Ok(text)
}

/// The reply to a file that was to be dropped, and was there or not.
pub fn drop_text(alloc: Global, there: bool) -> Result<Vec<u8>, AllocError>
    ensures { IfOk result (λ text. text.items ≡ drop_line there) }
{
    if there {
        ok_text(alloc)
    } else {
        error_text(alloc, NO_FILE)
    }
}

/// The line that refuses files.
#[tactic(auto, using(crate::proofs::Appending::appending))]
pub fn refused_text(alloc: Global, refused: &Refused) -> Result<Vec<u8>, AllocError>
    ensures { IfOk result (λ text. text.items ≡ refused_line refused.now) }
{
    let mut text = Vec::from_slice(alloc, b"refused ")?;
    text.extend_from_slice(refused.file.as_bytes())?;
    text.extend_from_slice(b" ")?;
    push_decimal(&mut text, u64::from(refused.line))?;
    text.extend_from_slice(b" ")?;
    push_decimal(&mut text, u64::from(refused.code))?;
    text.extend_from_slice(b"\n")?;
    Ok(text)
}

/// The place of the procedure of a name.
fn place_of(program: &Program, name: &Name) -> Option<usize>
    ensures { result ≡ position (is_named name.now) program.now.procs }
{
    program
        .procs
        .as_slice()
        .iter()
        .position(|proc| proc.flow.name == *name)
}

/// The block of the procedure of a name, or the error that the program defines none.
pub fn block_text<R: Wait, G: Gate, A: Ledger, B: Ledger>(
    rt: &R,
    alloc: Global,
    desk: &Desk<'_, SolveJob, G, A, B>,
    hands: &mut Hands<B>,
    loaded: &LoadedAnswers,
    program: &Arc<Program>,
    name: &Name,
) -> Result<Vec<u8>, AllocError>
    requires formed { IsProgram program.now.value }
    requires sizes { HasProgramSizes program.now.value }
    requires loaded { All IsStoredEntry loaded.now }
    ensures text { IfOk result (λ text. text.items ≡ block_named loaded.now name.now program.now.value) }
    ensures worked { OnOk result (is_some (position (is_named name.now) program.now.value.procs) ≡ true
        → count_reached program.now.value (aim.One name.now) ≤ hands.new.seen) }
    ensures rises { hands.old.seen ≤ hands.new.seen }
{
    let Some(place) = place_of(program, name) else {
        return error_text(alloc, NO_PROC);
    };
    let summary = summary(rt, alloc, desk, hands, loaded, program, name)?;
    block(
        alloc,
        &program.procs[place],
        &summary,
        program.structs.as_slice(),
    )
}

/// The total line of a program.
pub fn total_text<R: Wait, G: Gate, A: Ledger, B: Ledger>(
    rt: &R,
    alloc: Global,
    desk: &Desk<'_, SolveJob, G, A, B>,
    hands: &mut Hands<B>,
    loaded: &LoadedAnswers,
    program: &Arc<Program>,
) -> Result<Vec<u8>, AllocError>
    requires formed { IsProgram program.now.value }
    requires sizes { HasProgramSizes program.now.value }
    requires loaded { All IsStoredEntry loaded.now }
    ensures text { IfOk result (λ text. text.items ≡ program_total loaded.now program.now.value) }
    ensures worked { OnOk result (count_reached program.now.value aim.All ≤ hands.new.seen) }
    ensures rises { hands.old.seen ≤ hands.new.seen }
{
    let entries = entries(rt, alloc, desk, hands, loaded, program)?;
    let mut text = Vec::new(alloc);
    push_total(&mut text, entries.as_slice())?;
    Ok(text)
}

/// A report on a program: its bytes with its entries, and how many procedures have no spec.
#[derive(Drop)]
pub struct Report {
    pub reply: Reply,
    pub missing: usize,
}

/// The report on a program.
pub fn make_report<R: Wait, G: Gate, A: Ledger, B: Ledger>(
    rt: &R,
    alloc: Global,
    desk: &Desk<'_, SolveJob, G, A, B>,
    hands: &mut Hands<B>,
    loaded: &LoadedAnswers,
    program: &Arc<Program>,
) -> Result<Report, AllocError>
    requires formed { IsProgram program.now.value }
    requires sizes { HasProgramSizes program.now.value }
    requires loaded { All IsStoredEntry loaded.now }
    ensures text { IfOk result (λ report. report.reply.text.items ≡ program_report loaded.now program.now.value) }
    ensures entries { IfOk result (λ report. report.reply.entries.items ≡ program_entries loaded.now program.now.value) }
    ensures saved { IfOk result (λ report. report.reply.saved ≡ None) }
    ensures missing { IfOk result (λ report. report.missing ≡ program_missing loaded.now program.now.value) }
    ensures worked { OnOk result (count_reached program.now.value aim.All ≤ hands.new.seen) }
    ensures rises { hands.old.seen ≤ hands.new.seen }
{
    let entries = entries(rt, alloc, desk, hands, loaded, program)?;
    let mut text = Vec::new(alloc);
    push_report(
        &mut text,
        program.structs.as_slice(),
        program.procs.as_slice(),
        entries.as_slice(),
    )?;
    let missing = count_none(entries.as_slice());
    let reply = Reply {
        text,
        entries,
        saved: None,
    };
    Ok(Report { reply, missing })
}

/// What is known of a program as the bytes of its store, or the error that they are too many.
pub fn make_store<R: Wait, G: Gate, A: Ledger, B: Ledger>(
    rt: &R,
    alloc: Global,
    desk: &Desk<'_, SolveJob, G, A, B>,
    hands: &mut Hands<B>,
    loaded: &LoadedAnswers,
    program: &Arc<Program>,
) -> Result<Reply, AllocError>
    requires formed { IsProgram program.now.value }
    requires sizes { HasProgramSizes program.now.value }
    requires loaded { All IsStoredEntry loaded.now }
    ensures text { IfOk result (λ reply. reply.text.items ≡ program_stored_line loaded.now program.now.value) }
    ensures entries { IfOk result (λ reply. reply.entries.items ≡ []) }
    ensures saved { IfOk result (λ reply. bytes_saved reply.saved ≡ stored_program loaded.now program.now.value) }
    ensures worked { OnOk result (count_reached program.now.value aim.All ≤ hands.new.seen) }
    ensures rises { hands.old.seen ≤ hands.new.seen }
{
    let bytes = store_of(rt, alloc, desk, hands, loaded, program)?;
    if bytes.len() > MOST_HELD {
        return Ok(Reply::of(error_text(alloc, STORE_TOO_LONG)?));
    }
    Ok(Reply {
        text: ok_text(alloc)?,
        entries: Vec::new(alloc),
        saved: Some(bytes),
    })
}
