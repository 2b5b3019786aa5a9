//! What stands is tested again by the strict table of it: annotated once more, and then checked in passes, which drop what is not
//! inductive.
ghost use Rattle.std.specs.Prelude.{◌≡◌, IfOk, map};
ghost use Rattle.shape_data.specs.WellFormed.{IsKey};
ghost use Rattle.solve_laws.specs.Certificates.Conditions.{IsTask, IsTaskCert, IsTaskSpec};
ghost use Rattle.solve_laws.specs.Certificates.Limits.{analysable};
ghost use Rattle.certificate_steps.specs.InTask.{task_in};
ghost use Rattle.comp_solve.specs.Tests.{test_of};
ghost use Rattle.solve_laws.specs.Attempts.{count_of as count_of_all};
ghost use Rattle.solve_laws.specs.Solving.{
  again_with,
  all_again as all_again_of,
  all_passes as all_passes_of,
  attempt_again as attempt_again_of,
  attempts_again as attempts_again_of,
  checked_again as checked_again_of,
  pass as pass_of,
  strictly as strictly_of,
};
ghost use Rattle.solve_laws.specs.Standing.{AllStanding, AreFormed, AreTasks, IsFormed, OfStanding};

use crate::attempts::try_pre;
use crate::standing::{count_of, specs_of};
use crate::tables::table_with;
use certificate_steps::Task;
use exec_laws::Table;
use pre_gen::Found;
use shape_data::answer::{Key, Reason};
use shape_data::symbolic::{Cert, Spec};
use shape_data::{Row, copy_of};
use solve_laws::laws::standing_is_well_formed;
use solve_laws::{Attempt, Trial};
use std::alloc::{AllocError, Global};
use triple_check::spec_gap;

/// How what stands is tested again.
#[derive(Clone, Copy, Debug)]
pub enum Test {
    /// Its precondition is annotated.
    Annotation,
    /// Its certificate is checked.
    Check,
}

/// A spec that has a gap falls for it.
fn checked_again(alloc: Global, task: &Task, spec: &Spec, cert: &Cert) -> Result<Trial, AllocError>
    requires task { IsTask (task_in task.now) }
    requires spec { IsTaskSpec (task_in task.now) spec.now }
    requires cert { IsTaskCert (task_in task.now) cert.now }
    ensures { IfOk result (λ trial. trial ≡ checked_again_of (task_in task.now) spec.now cert.now) }
{
    match spec_gap(alloc, task, spec, cert)? {
        None => Ok(Trial::Stands {
            spec: copy_of(spec)?,
            cert: copy_of(cert)?,
        }),
        Some(gap) => Ok(Trial::Fell {
            why: Reason::Failed {
                fault: gap.fault,
                line: gap.line,
            },
        }),
    }
}

/// What stands is tested again.
fn tested(
    alloc: Global,
    test: Test,
    task: &Task,
    spec: &Spec,
    cert: &Cert,
) -> Result<Trial, AllocError>
    requires task { IsTask (task_in task.now) }
    requires spec { IsTaskSpec (task_in task.now) spec.now }
    requires cert { IsTaskCert (task_in task.now) cert.now }
    ensures { IfOk result (λ trial. trial ≡ test_of test (task_in task.now) spec.now cert.now) }
{
    match test {
        Test::Annotation => try_pre(alloc, task, &spec.pre),
        Test::Check => checked_again(alloc, task, spec, cert),
    }
}

/// What stands is tested again, in its place.
fn trial_again(alloc: Global, test: Test, task: &Task, trial: &Trial) -> Result<Trial, AllocError>
    requires task { IsTask (task_in task.now) }
    requires formed { OfStanding (IsFormed task.now.structs.now task.now.flow.now) trial.now }
    ensures { IfOk result (λ made. made ≡ again_with (test_of test) (task_in task.now) trial.now) }
{
    match trial {
        Trial::Stands { spec, cert } => tested(alloc, test, task, spec, cert),
        Trial::Fell { why } => Ok(Trial::Fell { why: *why }),
    }
}

/// All that stands of a procedure is tested again.
#[tactic(auto, using(crate::proofs::Turns::map_turns))]
fn trials_again(
    alloc: Global,
    test: Test,
    task: &Task,
    trials: &[Trial],
) -> Result<Row<Trial>, AllocError>
    requires task { IsTask (task_in task.now) }
    requires formed { AllStanding (IsFormed task.now.structs.now task.now.flow.now) trials.now }
    ensures { IfOk result (λ made. made ≡ map (again_with (test_of test) (task_in task.now)) trials.now) }
{
    let mut made = Row::new(alloc);
    for trial in trials {
        made.push(trial_again(alloc, test, task, trial)?)?;
    }
    Ok(made)
}

/// The same with what was found.
fn attempt_again(
    alloc: Global,
    test: Test,
    task: &Task,
    one: &Attempt,
) -> Result<Attempt, AllocError>
    requires task { IsTask (task_in task.now) }
    requires formed { AllStanding (IsFormed task.now.structs.now task.now.flow.now) one.now.trials }
    ensures { IfOk result (λ made. made ≡ attempt_again_of (test_of test) (task_in task.now) one.now) }
{
    Ok(Attempt {
        found: Found {
            pres: copy_of(&one.found.pres)?,
            first_drop: one.found.first_drop,
        },
        trials: trials_again(alloc, test, task, one.trials.as_slice())?,
    })
}

/// All that stands is tested again under a table.
fn attempts_again(
    alloc: Global,
    test: Test,
    key: &Key,
    table: &Table,
    attempts: &[Attempt],
) -> Result<Row<Attempt>, AllocError>
    requires tasks { AreTasks key.now table.now }
    requires formed { AreFormed key.now attempts.now }
    ensures { IfOk result (λ made. made ≡ attempts_again_of (test_of test) key.now table.now key.now.procs attempts.now) }
{
    let flows = key.procs.as_slice();
    let mut made = Row::new(alloc);
    for place in 0..flows.len() {
        let task = Task {
            flow: &flows[place],
            structs: key.structs.as_slice(),
            table,
            recursive: key.recursive,
        };
        made.push(attempt_again(alloc, test, &task, &attempts[place])?)?;
    }
    Ok(made)
}

/// All that stands is tested again, by the strict table of it.
fn all_again(
    alloc: Global,
    test: Test,
    key: &Key,
    attempts: &[Attempt],
) -> Result<Row<Attempt>, AllocError>
    requires key { IsKey analysable key.now }
    requires formed { AreFormed key.now attempts.now }
    ensures { IfOk result (λ made. made ≡ all_again_of (test_of test) key.now attempts.now) }
{
    standing_is_well_formed();
    let specs = specs_of(alloc, attempts)?;
    let table = table_with(alloc, key, specs.as_slice(), false)?;
    attempts_again(alloc, test, key, &table, attempts)
}

/// Each spec is annotated by the strict table of all of them.
pub fn strictly(alloc: Global, key: &Key, attempts: &[Attempt]) -> Result<Row<Attempt>, AllocError>
    requires key { IsKey analysable key.now }
    requires formed { AreFormed key.now attempts.now }
    ensures value { IfOk result (λ made. made ≡ strictly_of key.now attempts.now) }
    ensures formed { IfOk result (AreFormed key.now) }
{
    standing_is_well_formed();
    all_again(alloc, Test::Annotation, key, attempts)
}

/// A pass: the specs that are not inductive are dropped, all at once.
fn pass(alloc: Global, key: &Key, attempts: &[Attempt]) -> Result<Row<Attempt>, AllocError>
    requires key { IsKey analysable key.now }
    requires formed { AreFormed key.now attempts.now }
    ensures value { IfOk result (λ made. made ≡ pass_of key.now attempts.now) }
    ensures formed { IfOk result (AreFormed key.now) }
{
    standing_is_well_formed();
    all_again(alloc, Test::Check, key, attempts)
}

/// How many specs stand.
fn count_standing(key: &Key, attempts: &[Attempt]) -> usize
    requires key { IsKey analysable key.now }
    requires formed { AreFormed key.now attempts.now }
    ensures { result ≡ count_of_all attempts.now }
{
    count_of(attempts)
}

/// Passes, until none is dropped. Each but the last drops a spec, so as many as there are specs are enough.
pub fn all_passes(
    alloc: Global,
    key: &Key,
    attempts: Row<Attempt>,
) -> Result<Row<Attempt>, AllocError>
    requires key { IsKey analysable key.now }
    requires formed { AreFormed key.now attempts }
    ensures value { IfOk result (λ made. made ≡ all_passes_of key.now attempts) }
    ensures formed { IfOk result (AreFormed key.now) }
{
    let all = attempts.as_slice();
    let most = count_standing(key, all);
    let mut standing = attempts;
    for _turn in 0..most {
        let before = standing.as_slice();
        let after = pass(alloc, key, before)?;
        let rest = after.as_slice();
        let left = count_standing(key, rest);
        let were = count_standing(key, before);
        if left == were {
            return Ok(after);
        }
        standing = after;
    }
    Ok(standing)
}
