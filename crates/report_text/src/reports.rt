//! A whole report: the block of each procedure of a program, and the total line.
ghost use Rattle.std.specs.Prelude.{◌≡◌, ◌++◌, length, map, All, OnOk};
ghost use Rattle.report_text.specs.Parts.{AreReportable, IsPrintable};
ghost use Rattle.report_text.specs.Report.{blocks_text, report_of};

use crate::blocks::push_block;
use crate::summed::HasSummary;
use crate::totals::push_total;
use shape_data::program::{Proc, StructDef};
use std::alloc::AllocError;

/// Appends the blocks of procedures, each with the summary at its place.
fn push_blocks<S: HasSummary>(
    text: &mut Vec<u8>,
    structs: &[StructDef],
    procs: &[Proc],
    summaries: &[S],
) -> Result<(), AllocError>
    requires one_each { length summaries.now ≡ length procs.now }
    requires printable { All (IsPrintable structs.now) (map S.its summaries.now) }
    ensures { OnOk result (text.new.items ≡ text.old.items ++ blocks_text structs.now procs.now (map S.its summaries.now)) }
{
    for place in 0..procs.len() {
        push_block(text, structs, &procs[place], summaries[place].summary())?;
    }
    Ok(())
}

/// Appends the report on procedures over these structures, with their summaries: the block of each, in order, and the total line.
///
/// # Errors
///
/// Only want of memory; what the text then is, is not said.
#[tactic(auto, using(crate::proofs::Appending::appending))]
pub fn push_report<S: HasSummary>(
    text: &mut Vec<u8>,
    structs: &[StructDef],
    procs: &[Proc],
    summaries: &[S],
) -> Result<(), AllocError>
    requires { AreReportable structs.now procs.now (map S.its summaries.now) }
    ensures { OnOk result (text.new.items ≡ text.old.items ++ report_of structs.now procs.now (map S.its summaries.now)) }
{
    push_blocks(text, structs, procs, summaries)?;
    push_total(text, summaries)
}
