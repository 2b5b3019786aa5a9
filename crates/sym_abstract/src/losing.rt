//! Fourth rule: disequalities that say nothing any more go.
ghost use Rattle.std.specs.Prelude.{◌≡◌, IfOk};
ghost use Rattle.abstraction_laws.specs.Losing.{is_disequality_of, lose as lose_of, without_disequalities};
ghost use Rattle.sym_abstract.specs.Counted.{is_lost_by};

use crate::occurrences::{Times, is_counted, times_of_both};
use shape_data::symbolic::{Atom, Exp, FIRST_EXISTENTIAL, Fact};
use std::alloc::{AllocError, Global};

/// Whether the expression is a variable from a number on that does not stand among what was counted.
fn is_lost(counts: &Times, low: u32, e: Exp) -> bool
    ensures { result ≡ is_lost_by counts.now low e }
{
    match e {
        Exp::Var(x) => low <= x && !is_counted(counts, x),
        Exp::Const(_) => false,
    }
}

/// Whether the fact is a disequality with such a variable.
fn is_lost_fact(counts: &Times, low: u32, fact: Fact) -> bool
    ensures { result ≡ is_disequality_of (is_lost_by counts.now low) fact }
{
    match fact {
        Fact::Eq(_, _) => false,
        Fact::Ne(left, right) => is_lost(counts, low, left) || is_lost(counts, low, right),
    }
}

/// The facts without disequalities with such variables.
pub fn without_lost(
    alloc: Global,
    counts: &Times,
    low: u32,
    facts: &[Fact],
) -> Result<Vec<Fact>, AllocError>
    ensures { IfOk result (λ some. some.items ≡ without_disequalities (is_lost_by counts.now low) facts.now) }
{
    let mut some = Vec::new(alloc);
    for fact in facts {
        if !is_lost_fact(counts, low, *fact) {
            some.push(*fact)?;
        }
    }
    Ok(some)
}

/// The facts without the disequalities of existential variables that are in no local and no atom.
pub fn lose(
    alloc: Global,
    locals: &[Exp],
    atoms: &[Atom],
    facts: &[Fact],
) -> Result<Vec<Fact>, AllocError>
    ensures { IfOk result (λ some. some.items ≡ lose_of locals.now atoms.now facts.now) }
{
    let counts = times_of_both(alloc, locals, atoms)?;
    without_lost(alloc, &counts, FIRST_EXISTENTIAL, facts)
}
