//! Jobs, their answers, and the claims under which they are done.
ghost use Rattle.std.specs.Prelude.{◌≡◌, ◌+◌, ◌<◌, ◌^◌, IfOk, OnOk, OnErr};
ghost use Rattle.claim_core.specs.Sizes.{IsJobKey};
ghost use Rattle.claim_core.specs.Views.{IsSolution};
ghost use Rattle.shape_data.specs.WellFormed.{IsStorableAnswer, IsStorableKey};

use claim_laws::Meaning;
use shape_data::answer::{Answer, Key};
use std::alloc::{AllocError, Global};
use std::marker::{Model, PhantomData};
use std::sync::Arc;

/// How many solves a worker has still to book. Contracts see it as that number.
#[derive(Drop)]
pub struct Tally {
    count: u64,
}

impl Model for Tally {
    ghost use Rattle.std.specs.Prelude.{ℕ};

    ghost Value = { ℕ };

    ghost view = { λ tally. tally.count };
}

impl Tally {
    /// Nothing to book.
    pub fn new() -> Self
        ensures { result ≡ 0 }
    {
        Tally { count: 0 }
    }

    /// The number.
    pub fn count(&self) -> u64
        ensures { result ≡ self.now }
    {
        self.count
    }

    /// One more solve.
    pub fn raise(&mut self)
        requires { self.old + 1 < 2 ^ 64 }
        ensures { self.new ≡ self.old + 1 }
    {
        self.count += 1;
    }

    /// Nothing to book any more.
    pub fn clear(&mut self)
        ensures { self.new ≡ 0 }
    {
        self.count = 0;
    }
}

/// A key with an answer that is right for it, as the job's type says, both within the limits of a store. Contracts see it as the two.
#[derive(Drop)]
pub struct Solved<J: Meaning> {
    key: Arc<Key>,
    answer: Arc<Answer>,
    of: PhantomData<J>,
}

impl<J: Meaning> Model for Solved<J> {
    ghost use Rattle.claim_core.specs.Views.{IsSolution, Solution};

    ghost Value = { Solution };

    ghost view = { λ solved. record { key = solved.key.value; answer = solved.answer.value } };

    ghost invariant = { λ solved. IsSolution J.solves solved.key.value solved.answer.value };
}

impl<J: Meaning> Solved<J> {
    /// A key with an answer that is right for it.
    pub fn new(key: Arc<Key>, answer: Arc<Answer>) -> Self
        requires solves { J.solves key.value answer.value }
        requires key { IsStorableKey key.value }
        requires answer { IsStorableAnswer key.value answer.value }
        ensures key { result.key ≡ key.value }
        ensures answer { result.answer ≡ answer.value }
    {
        Solved {
            key,
            answer,
            of: PhantomData,
        }
    }

    /// The key.
    pub fn key(&self) -> &Arc<Key>
        ensures { result.now.value ≡ self.now.key }
    {
        &self.key
    }

    /// The answer, which is right for the key.
    pub fn into_answer(self) -> Arc<Answer>
        ensures answer { result.value ≡ self.answer }
        ensures solution { IsSolution J.solves self.key self.answer }
        ensures solves { J.solves self.key self.answer }
    {
        let Solved {
            key: _key,
            answer,
            of: _,
        } = self;
        answer
    }
}

/// Whoever answers keys. It may be any deterministic work.
pub trait Job: Meaning {
    /// The answer for a key. One solve is then to be booked, and none where memory is refused.
    fn solve(
        &self,
        alloc: Global,
        key: &Arc<Key>,
        tally: &mut Tally,
    ) -> Result<Solved<Self>, AllocError>
        requires tally { tally.old ≡ 0 }
        requires key { IsJobKey key.now.value }
        ensures key { IfOk result (λ solved. solved.key ≡ key.now.value) }
        ensures ok { OnOk result (tally.new ≡ 1) }
        ensures err { OnErr result (tally.new ≡ 0) };
}

/// A component that was handed out, with the key to answer, which is within the limits of a store and has few fields and slots. It has
/// to be spent, by the book's `publish` or `give_back`, or by `forget`. Contracts see it as the record of its parts.
pub struct Claim {
    number: u64,
    component: u32,
    revision: u64,
    key: Arc<Key>,
}

impl Model for Claim {
    ghost use Rattle.claim_core.specs.Views.{Claimed};
    ghost use Rattle.claim_core.specs.Sizes.{IsJobKey};

    ghost Value = { Claimed };

    ghost view = { λ claim. record {
      number = claim.number;
      component = claim.component;
      revision = claim.revision;
      key = claim.key.value;
    } };

    ghost invariant = { λ claim. IsJobKey claim.key.value };
}

impl Claim {
    /// A claim of these parts, which only the book that has handed the component out may make use of.
    pub fn new(number: u64, component: u32, revision: u64, key: Arc<Key>) -> Self
        requires { IsJobKey key.value }
        ensures number { result.number ≡ number }
        ensures component { result.component ≡ component }
        ensures revision { result.revision ≡ revision }
        ensures key { result.key ≡ key.value }
    {
        Claim {
            number,
            component,
            revision,
            key,
        }
    }

    /// The claim's number, from 1 on.
    pub fn number(&self) -> u64
        ensures { result ≡ self.now.number }
    {
        self.number
    }

    /// The number of the component in the program of the claim's revision.
    pub fn component(&self) -> u32
        ensures { result ≡ self.now.component }
    {
        self.component
    }

    /// The revision in which the component was handed out.
    pub fn revision(&self) -> u64
        ensures { result ≡ self.now.revision }
    {
        self.revision
    }

    /// The key to answer.
    pub fn key(&self) -> &Arc<Key>
        ensures key { result.now.value ≡ self.now.key }
        ensures job { IsJobKey self.now.key }
    {
        &self.key
    }

    /// Ends the claim; no book hears of it. The key comes back.
    pub fn forget(self) -> Arc<Key>
        ensures { result.value ≡ self.key }
    {
        let Claim {
            number: _,
            component: _,
            revision: _,
            key,
        } = self;
        key
    }
}
