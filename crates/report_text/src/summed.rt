//! What has a summary.
ghost use Rattle.std.specs.Prelude.{◌≡◌};

use shape_data::answer::ProcSummary;

/// What has the summary of a procedure, whatever else it has.
pub trait HasSummary {
    ghost use Rattle.shape_data.specs.declared.answer.ProcSummary.{ProcSummary};

    /// The summary that it has.
    ghost its: { Self → ProcSummary };

    /// The summary.
    fn summary(&self) -> &ProcSummary
        ensures { result.now ≡ its self.now };
}

impl HasSummary for ProcSummary {
    ghost its = { λ summary. summary };

    fn summary(&self) -> &ProcSummary {
        self
    }
}
