//! Rounds: candidates and annotations with the specs of the round before, until those of two rounds are equal.
ghost use Rattle.std.specs.Prelude.{◌≡◌, length, IfOk, IfSome};
ghost use Rattle.shape_data.specs.WellFormed.{IsKey};
ghost use Rattle.solve_laws.specs.Certificates.Limits.{analysable};
ghost use Rattle.solve_laws.specs.Laws.{FitKey};
ghost use Rattle.solve_laws.specs.Solving.{no_specs as no_specs_of, round as round_of, rounds as rounds_of};
ghost use Rattle.solve_laws.specs.Standing.{AreFormed};

use crate::attempts::attempts_under;
use crate::standing::{same_specs, specs_of};
use crate::tables::table_with;
use shape_data::Row;
use shape_data::answer::Key;
use shape_data::symbolic::Spec;
use solve_laws::Attempt;
use solve_laws::laws::standing_is_well_formed;
use std::alloc::{AllocError, Global};

/// How many rounds there are at most.
pub const MOST_ROUNDS: u32 = 8;

/// No specs for any procedure.
#[tactic(auto, using(crate::proofs::Turns::map_turns))]
fn no_specs(alloc: Global, key: &Key) -> Result<Row<Row<Spec>>, AllocError>
    ensures { IfOk result (λ specs. specs ≡ no_specs_of key.now) }
{
    let flows = key.procs.as_slice();
    let mut specs = Row::new(alloc);
    for _flow in flows {
        specs.push(Row::new(alloc))?;
    }
    Ok(specs)
}

/// A round: the candidates of all procedures, annotated with the specs of the round before. A call of an own procedure none of whose
/// specs fits gives no state.
fn round(alloc: Global, key: &Key, before: &[Row<Spec>]) -> Result<Row<Attempt>, AllocError>
    requires key { IsKey analysable key.now }
    requires fit { FitKey key.now before.now }
    requires one_each { length before.now ≡ length key.now.procs }
    ensures value { IfOk result (λ attempts. attempts ≡ round_of key.now before.now) }
    ensures formed { IfOk result (AreFormed key.now) }
{
    standing_is_well_formed();
    let table = table_with(alloc, key, before, true)?;
    attempts_under(alloc, key, &table)
}

/// The round whose specs equal those of the one before, if there is one among the first eight.
pub fn rounds(alloc: Global, key: &Key) -> Result<Option<Row<Attempt>>, AllocError>
    requires { IsKey analysable key.now }
    ensures value { IfOk result (λ found. found ≡ rounds_of MOST_ROUNDS key.now (no_specs_of key.now)) }
    ensures formed { IfOk result (λ found. IfSome found (AreFormed key.now)) }
{
    standing_is_well_formed();
    let mut before = no_specs(alloc, key)?;
    for _turn in 0..MOST_ROUNDS {
        let attempts = round(alloc, key, before.as_slice())?;
        let made = attempts.as_slice();
        let specs = specs_of(alloc, made)?;
        if same_specs(&specs, &before) {
            return Ok(Some(attempts));
        }
        before = specs;
    }
    Ok(None)
}
