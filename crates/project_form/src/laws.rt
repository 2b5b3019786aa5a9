//! Laws of projects. Each is the contract of a function with an empty body.
ghost use Rattle.project_form.specs.Laws.{AnswersHaveSizes, HaveAnswer, HaveOneAnswer, HaveWellFormed, KeepLimits};

use c_lower_rules::laws::{parsed_files_are_texts, programs_are_well_formed};
use c_types_rules::laws::first_refusal;

/// Files are one program at most, or refused at one place, and never both.
pub fn one_answer()
    ensures { HaveOneAnswer }
{}

/// Files are a program, or refused.
pub fn some_answer()
    ensures { HaveAnswer }
{}

/// A program that files are is well formed, where they are few and short.
pub fn answers_are_well_formed()
    ensures { HaveWellFormed }
{
    first_refusal();
    parsed_files_are_texts();
    programs_are_well_formed();
}

/// A program that files are has structures of at most sixteen fields, and procedures of at most 48 slots.
pub fn answers_have_sizes()
    ensures { AnswersHaveSizes }
{
    first_refusal();
}

/// Putting and dropping files keeps within the limits.
pub fn limits_are_kept()
    ensures { KeepLimits }
{}
