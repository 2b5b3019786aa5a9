//! The total line of a report, of summaries or of answers.
ghost use Rattle.std.specs.Prelude.{◌≡◌, ◌*◌, ◌≤◌, ◌^◌, ◌++◌, length, map, All, IfOk, OnOk};
ghost use Rattle.std.specs.List.{flat_map};
ghost use Rattle.shape_data.specs.declared.answer.Answer.{Answer};
ghost use Rattle.shape_data.specs.WellFormed.{IsCountable};
ghost use Rattle.report_text.specs.Parts.{AreCountable};
ghost use Rattle.report_text.specs.Report.{none_count, spec_count, total_line, total_text};

use crate::summed::HasSummary;
use itoa::Buffer;
use shape_data::answer::Answer;
use std::alloc::{AllocError, Global};
use std::sync::Arc;

/// How many specs the summaries have.
fn count_specs<S: HasSummary>(summaries: &[S]) -> u128
    requires { AreCountable (map S.its summaries.now) }
    ensures exact { result ≡ spec_count (map S.its summaries.now) }
    ensures within { result ≤ length summaries.now * 4294967295 }
{
    let mut count = 0u128;
    for one in summaries {
        count += one.summary().specs.len() as u128;
    }
    count
}

/// How many of the summaries have no spec.
pub fn count_none<S: HasSummary>(summaries: &[S]) -> usize
    ensures exact { result ≡ none_count (map S.its summaries.now) }
    ensures within { result ≤ length summaries.now }
{
    let mut count = 0;
    for one in summaries {
        if one.summary().specs.is_empty() {
            count += 1;
        }
    }
    count
}

/// How many specs an answer has.
#[tactic(auto, using(crate::proofs::Having::its_own))]
fn specs_in(answer: &Answer) -> u128
    requires { AreCountable answer.now.procs }
    ensures exact { result ≡ spec_count answer.now.procs }
    ensures within { result ≤ length answer.now.procs * 4294967295 }
{
    count_specs(answer.procs.as_slice())
}

/// How many of an answer's procedures have no spec.
#[tactic(auto, using(crate::proofs::Having::its_own))]
fn none_in(answer: &Answer) -> usize
    ensures exact { result ≡ none_count answer.now.procs }
    ensures within { result ≤ length answer.now.procs }
{
    count_none(answer.procs.as_slice())
}

/// Appends the line of these totals.
#[tactic(auto, using(crate::proofs::Appending::appending))]
fn push_line(text: &mut Vec<u8>, procs: u128, specs: u128, none: u128) -> Result<(), AllocError>
    ensures { OnOk result (text.new.items ≡ text.old.items ++ total_line procs specs none) }
{
    let mut buffer = Buffer::new();
    text.extend_from_slice(b"total ")?;
    text.extend_from_slice(buffer.format(procs).as_bytes())?;
    text.extend_from_slice(b" ")?;
    text.extend_from_slice(buffer.format(specs).as_bytes())?;
    text.extend_from_slice(b" ")?;
    text.extend_from_slice(buffer.format(none).as_bytes())?;
    text.extend_from_slice(b"\n")
}

/// Appends the total line of summaries: how many they are, how many specs they have, and how many of them none.
///
/// # Errors
///
/// Only want of memory; what the text then is, is not said.
pub fn push_total<S: HasSummary>(text: &mut Vec<u8>, summaries: &[S]) -> Result<(), AllocError>
    requires { AreCountable (map S.its summaries.now) }
    ensures { OnOk result (text.new.items ≡ text.old.items ++ total_text (map S.its summaries.now)) }
{
    push_line(
        text,
        summaries.len() as u128,
        count_specs(summaries),
        count_none(summaries) as u128,
    )
}

/// The total line of answers: how many procedures they have, how many specs these, and how many of them none. The only error
/// is want of memory.
pub fn total(alloc: Global, answers: &[Arc<Answer>]) -> Result<Vec<u8>, AllocError>
    requires countable { IsCountable answers.now }
    requires each { All (λ answer. AreCountable answer.value.procs) answers.now }
    ensures { IfOk result (λ text. text.items ≡ total_text (flat_map (λ answer. answer.value.procs) answers.now)) }
{
    let mut procs = 0u128;
    let mut specs = 0u128;
    let mut none = 0u128;
    for answer in answers {
        procs += answer.procs.len() as u128;
        specs += specs_in(answer);
        none += none_in(answer) as u128;
    }
    let mut text = Vec::new(alloc);
    push_line(&mut text, procs, specs, none)?;
    Ok(text)
}
