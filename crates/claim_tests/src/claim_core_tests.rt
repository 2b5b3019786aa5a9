//! Claims, answers and tallies with a toy job.
use claim_core::{Claim, Job, Meaning, Solved, Tally, has_key_sizes};
use shape_data::answer::Key;
use shape_data::well_formed_key;
use std::alloc::{AllocError, Global};
use std::sync::Arc;
use std::test::Fail;
use toy_programs::answers::silent_answer;
use toy_programs::keys::key;
use toy_programs::programs::LEAF;

/// A job that finds no spec for any procedure.
struct Silent;

impl Meaning for Silent {
    ghost use Rattle.std.specs.Prelude.{◌≡◌, [], All};

    ghost solves = { λ key answer. All (λ summary. summary.specs ≡ []) answer.procs };
}

impl Job for Silent {
    fn solve(
        &self,
        alloc: Global,
        key: &Arc<Key>,
        tally: &mut Tally,
    ) -> Result<Solved<Silent>, AllocError> {
        let answer = silent_answer(alloc, key)?;
        let key = key.clone()?;
        tally.raise();
        Ok(Solved::new(key, answer))
    }
}

#[test]
fn a_claim_is_solved_and_counted(rt: HostRuntime) -> Result<(), Fail> {
    let alloc = rt.alloc();
    let key = key(alloc, LEAF, &[])?;
    assert!(rt; well_formed_key(&key));
    assert!(rt; has_key_sizes(&key));
    let claim = Claim::new(7, 2, 3, key);
    assert_eq!(rt; claim.number(), 7);
    assert_eq!(rt; claim.component(), 2);
    assert_eq!(rt; claim.revision(), 3);
    let mut tally = Tally::new();
    let solved = Silent.solve(alloc, claim.key(), &mut tally);
    let key = claim.forget();
    assert!(rt; key.callees.is_empty());
    assert_eq!(rt; tally.count(), 1);
    tally.clear();
    assert_eq!(rt; tally.count(), 0);
    let solved = solved?;
    assert_eq!(rt; solved.key().procs.len(), 1);
    let answer = solved.into_answer();
    assert_eq!(rt; answer.procs.len(), 1);
    Ok(())
}
