//! What stands of the attempts: the specs, their certificates, and how many there are.
ghost use Rattle.std.specs.Prelude.{◌≡◌, ◌<◌, ◌≤◌, filter_map, length, All, IfOk};
ghost use Rattle.solve_laws.specs.declared.parts.Attempt.{Attempt as AnyAttempt};
ghost use Rattle.solve_laws.specs.Attempts.{cert_of, count_of as count_of_all, specs_in as specs_in_one, specs_of as specs_of_all};
ghost use Rattle.solve_laws.specs.Tables.{same_specs as same_specs_of};

use shape_data::symbolic::{Cert, Spec};
use shape_data::{Row, copy_of, is_same};
use solve_laws::{Attempt, Trial};
use std::alloc::{AllocError, Global};

/// The specs of a procedure.
#[tactic(auto, using(crate::proofs::Turns::kept_turns))]
pub fn specs_in(alloc: Global, one: &Attempt) -> Result<Row<Spec>, AllocError>
    ensures { IfOk result (λ specs. specs ≡ specs_in_one one.now) }
{
    let trials = one.trials.as_slice();
    let mut specs = Row::new(alloc);
    for trial in trials {
        if let Trial::Stands { spec, cert: _ } = trial {
            specs.push(copy_of(spec)?)?;
        }
    }
    Ok(specs)
}

/// Their certificates.
#[tactic(auto, using(crate::proofs::Turns::kept_turns))]
pub fn certs_in(alloc: Global, one: &Attempt) -> Result<Row<Cert>, AllocError>
    ensures { IfOk result (λ certs. certs ≡ filter_map cert_of one.now.trials) }
{
    let trials = one.trials.as_slice();
    let mut certs = Row::new(alloc);
    for trial in trials {
        if let Trial::Stands { spec: _, cert } = trial {
            certs.push(copy_of(cert)?)?;
        }
    }
    Ok(certs)
}

/// The specs of each procedure.
#[tactic(auto, using(crate::proofs::Turns::map_turns))]
pub fn specs_of(alloc: Global, attempts: &[Attempt]) -> Result<Row<Row<Spec>>, AllocError>
    ensures value { IfOk result (λ specs. specs ≡ specs_of_all attempts.now) }
    ensures len { IfOk result (λ specs. length specs ≡ length attempts.now) }
{
    let mut specs = Row::new(alloc);
    for one in attempts {
        specs.push(specs_in(alloc, one)?)?;
    }
    Ok(specs)
}

/// How many specs a procedure has.
fn count_in(one: &Attempt) -> usize
    ensures value { result ≡ length (specs_in_one one.now) }
    ensures few { result ≤ length one.now.trials }
{
    let trials = one.trials.as_slice();
    let mut count = 0;
    for trial in trials {
        if let Trial::Stands { .. } = trial {
            count += 1;
        }
    }
    count
}

/// How many specs there are, of procedures with at most eight trials each.
pub fn count_of(attempts: &[Attempt]) -> usize
    requires each { All (λ (one : AnyAttempt). length one.trials ≤ 8) attempts.now }
    requires all { length attempts.now < 4294967296 }
    ensures { result ≡ count_of_all attempts.now }
{
    let mut count = 0;
    for one in attempts {
        count += count_in(one);
    }
    count
}

/// Whether each procedure has the same specs.
pub fn same_specs(left: &Row<Row<Spec>>, right: &Row<Row<Spec>>) -> bool
    ensures { result ≡ same_specs_of left.now right.now }
{
    is_same(left, right)
}
