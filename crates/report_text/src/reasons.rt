//! Why a procedure has no spec, as a line of its block.
ghost use Rattle.std.specs.Prelude.{◌≡◌, ◌+◌, ◌++◌, codes, OnOk};
ghost use Rattle.std.specs.Fmt.{decimal};
ghost use Rattle.report_text.specs.Report.{budget_text, fault_text, line_of, reason_text};

use shape_data::answer::{Budget, Fault, Reason};
use std::alloc::AllocError;
use sym_text::push_decimal;

/// The word of a fault.
fn fault_word(fault: Fault) -> &'static [u8]
    ensures { result.now ≡ fault_text fault }
{
    match fault {
        Fault::Null => b"null",
        Fault::Unowned => b"unowned",
        Fault::Kind => b"struct",
        Fault::Callee => b"callee",
        Fault::Cover => b"cover",
        Fault::Alias => b"alias",
        Fault::States => b"states",
        Fault::Parts => b"parts",
        Fault::Turns => b"turns",
    }
}

/// The word of a budget.
fn budget_word(budget: Budget) -> &'static [u8]
    ensures { result.now ≡ budget_text budget }
{
    match budget {
        Budget::Turns => b"turns",
        Budget::States => b"states",
        Budget::Parts => b"parts",
        Budget::Rounds => b"rounds",
    }
}

/// Appends a line of the file, from the procedure's first line and the line counted from there, and a fault.
#[tactic(auto, using(crate::proofs::Appending::appending))]
fn push_place(text: &mut Vec<u8>, first: u32, line: u32, fault: Fault) -> Result<(), AllocError>
    ensures { OnOk result (text.new.items ≡ text.old.items ++ (decimal (first + line) ++ codes " " ++ fault_text fault)) }
{
    push_decimal(text, u64::from(first) + u64::from(line))?;
    text.extend_from_slice(b" ")?;
    text.extend_from_slice(fault_word(fault))
}

/// Appends a reason of a procedure that begins on this line.
#[tactic(auto, using(crate::proofs::Appending::appending))]
fn push_reason(text: &mut Vec<u8>, first: u32, reason: Reason) -> Result<(), AllocError>
    ensures { OnOk result (text.new.items ≡ text.old.items ++ reason_text first reason) }
{
    match reason {
        Reason::NoPath { fault, line } => {
            text.extend_from_slice(b"no-path ")?;
            push_place(text, first, line, fault)
        }
        Reason::Endless => text.extend_from_slice(b"no-path endless"),
        Reason::Failed { fault, line } => {
            text.extend_from_slice(b"failed ")?;
            push_place(text, first, line, fault)
        }
        Reason::Spent { what, count } => {
            text.extend_from_slice(b"spent ")?;
            text.extend_from_slice(budget_word(what))?;
            text.extend_from_slice(b" ")?;
            push_decimal(text, u64::from(count))
        }
    }
}

/// Appends the line ` none REASON`.
#[tactic(auto, using(crate::proofs::Appending::appending))]
pub fn push_none(text: &mut Vec<u8>, first: u32, reason: Reason) -> Result<(), AllocError>
    ensures { OnOk result (text.new.items ≡ text.old.items ++ line_of (codes " none " ++ reason_text first reason)) }
{
    text.extend_from_slice(b" none ")?;
    push_reason(text, first, reason)?;
    text.extend_from_slice(b"\n")
}
