//! A summary in an answer that others hold, too: to hand it on takes no copy.
ghost use Rattle.std.specs.Prelude.{◌≡◌, Some, IfOk, IsSome, slice_get};

use shape_data::answer::{Answer, ProcSummary};
use shape_data::exact::share;
use std::alloc::AllocError;
use std::marker::Model;
use std::ops::Deref;
use std::sync::Arc;

/// The summary of one procedure of an answer, which it shares with others. Contracts see the summary.
#[derive(Drop, Debug)]
pub struct SharedSummary {
    answer: Arc<Answer>,
    member: usize,
}

impl Model for SharedSummary {
    ghost use Rattle.std.specs.Prelude.{IsSome, slice_get};
    ghost use Rattle.shape_data.specs.declared.answer.ProcSummary.{ProcSummary};
    ghost use Rattle.reporters.specs.Shared.{summary_at};

    ghost Value = { ProcSummary };

    ghost view = { λ shared. summary_at shared.answer.value.procs shared.member };

    ghost invariant = { λ shared. IsSome (slice_get shared.answer.value.procs shared.member) };
}

impl SharedSummary {
    /// The summary at this place of an answer.
    pub fn of(answer: &Arc<Answer>, member: usize) -> Result<Self, AllocError>
        requires { IsSome (slice_get answer.now.value.procs member) }
        ensures { IfOk result (λ summary. slice_get answer.now.value.procs member ≡ Some summary) }
    {
        let answer = share(answer)?;
        Ok(SharedSummary { answer, member })
    }

    /// The same summary once more.
    pub fn again(&self) -> Result<Self, AllocError>
        ensures { IfOk result (λ summary. summary ≡ self.now) }
    {
        let answer = share(&self.answer)?;
        Ok(SharedSummary {
            answer,
            member: self.member,
        })
    }
}

impl Deref for SharedSummary {
    ghost use Rattle.std.specs.Prelude.{◌≡◌};

    type Target = ProcSummary;

    ghost deref_gives = { λ shared value. value ≡ shared };

    fn deref(&self) -> &ProcSummary {
        &self.answer.procs[self.member]
    }
}
