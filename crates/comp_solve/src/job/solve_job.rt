//! The job, and the answer to a key.
ghost use Rattle.std.specs.Prelude.{◌≡◌, IfOk, OnErr, OnOk};
ghost use Rattle.claim_core.specs.Sizes.{IsJobKey};
ghost use Rattle.loaded_answers.specs.Lookup.{lookup};
ghost use Rattle.shape_data.specs.WellFormed.{IsStorableAnswer};
ghost use Rattle.comp_solve.specs.Job.Solves.{Solves};
ghost use Rattle.solve_laws.specs.Solving.{solve as solve_of};

use crate::job::stored::StoredAnswers;
use crate::solve;
use claim_core::{Job, Meaning, Solved, Tally};
use shape_data::answer::{Answer, Key};
use shape_data::exact::share;
use solve_laws::certificates::limits::limits_widen;
use solve_laws::limits::laws::solved_is_storable;
use std::alloc::{AllocError, Global};
use std::marker::Model;
use std::sync::Arc;

/// The job that answers keys: with the answer of the first loaded entry that has the key, else by solving it. An answer is right for a key
/// where it is what solving the key gives, or was read from a store and is inductive for the key. Contracts see the loaded entries.
#[derive(Drop)]
pub struct SolveJob {
    loaded: Arc<StoredAnswers>,
}

impl Model for SolveJob {
    ghost use Rattle.std.specs.Prelude.{List};
    ghost use Rattle.claim_core.specs.Views.{Solution};

    ghost Value = { List Solution };

    ghost view = { λ job. job.loaded.value };
}

impl Meaning for SolveJob {
    ghost use Rattle.comp_solve.specs.Job.Solves.{Solves};

    ghost solves = { Solves };
}

/// The answer that solving a key gives, which is within the limits of a store.
fn answer_to(alloc: Global, key: &Key) -> Result<Answer, AllocError>
    requires { IsJobKey key.now }
    ensures value { IfOk result (λ answer. answer ≡ solve_of key.now) }
    ensures storable { IfOk result (λ answer. IsStorableAnswer key.now answer) }
{
    limits_widen();
    solved_is_storable();
    solve(alloc, key)
}

impl SolveJob {
    /// The job with these loaded entries.
    pub fn new(loaded: Arc<StoredAnswers>) -> Self
        ensures { result ≡ loaded.value }
    {
        SolveJob { loaded }
    }

    /// The answer of the first loaded entry that has the key, else the one that solving it gives.
    fn answer(&self, alloc: Global, key: &Key) -> Result<Arc<Answer>, AllocError>
        requires { IsJobKey key.now }
        ensures value { IfOk result (λ answer. answer.value ≡ lookup solve_of self.now key.now) }
        ensures solves { IfOk result (λ answer. Solves key.now answer.value) }
        ensures storable { IfOk result (λ answer. IsStorableAnswer key.now answer.value) }
    {
        match self.loaded.answers().find(key) {
            Some(answer) => share(answer),
            None => Ok(Arc::new(alloc, answer_to(alloc, key)?)?),
        }
    }
}

impl Job for SolveJob {
    fn solve(
        &self,
        alloc: Global,
        key: &Arc<Key>,
        tally: &mut Tally,
    ) -> Result<Solved<SolveJob>, AllocError>
        requires tally { tally.old ≡ 0 }
        requires key { IsJobKey key.now.value }
        ensures key { IfOk result (λ solved. solved.key ≡ key.now.value) }
        ensures answer { IfOk result (λ solved. solved.answer ≡ lookup solve_of self.now key.now.value) }
        ensures ok { OnOk result (tally.new ≡ 1) }
        ensures err { OnErr result (tally.new ≡ 0) }
    {
        let answer = self.answer(alloc, key)?;
        let key = share(key)?;
        tally.raise();
        Ok(Solved::new(key, answer))
    }
}
