//! The order of the facts: equations by variable, then disequalities.
ghost use Rattle.std.specs.Prelude.{◌≡◌, ◌≤◌, IfOk, length};
ghost use Rattle.std.specs.List.{position_or_len};
ghost use Rattle.sym_canon.specs.FactOrder.{
  are_sides_before as are_sides_before_of,
  is_before as is_before_of,
  is_fact_before as is_fact_before_of,
  sorted_facts as sorted_facts_of,
  with_fact,
  with_sides_in_order as with_sides_in_order_of,
};

use shape_data::symbolic::{Exp, Fact};
use std::alloc::{AllocError, Global};
use sym_parts::is_same_exp;

/// Whether an expression comes before another: variables before constants, smaller before greater.
fn is_before(left: Exp, right: Exp) -> bool
    ensures { result ≡ is_before_of left right }
{
    match (left, right) {
        (Exp::Var(x), Exp::Var(y)) => x < y,
        (Exp::Var(_), Exp::Const(_)) => true,
        (Exp::Const(_), Exp::Var(_)) => false,
        (Exp::Const(m), Exp::Const(n)) => m < n,
    }
}

/// The fact; a disequality with its sides in order.
fn with_sides_in_order(fact: Fact) -> Fact
    ensures { result ≡ with_sides_in_order_of fact }
{
    match fact {
        Fact::Eq(_, _) => fact,
        Fact::Ne(left, right) => {
            if is_before(right, left) {
                Fact::Ne(right, left)
            } else {
                fact
            }
        }
    }
}

/// Whether two sides come before two others: by the left ones, then by the right ones.
fn are_sides_before(left: Exp, right: Exp, l: Exp, r: Exp) -> bool
    ensures { result ≡ are_sides_before_of left right l r }
{
    is_before(left, l) || is_same_exp(left, l) && is_before(right, r)
}

/// Whether a fact comes before another: equations before disequalities, two of one kind by their sides.
fn is_fact_before(fact: Fact, other: Fact) -> bool
    ensures { result ≡ is_fact_before_of fact other }
{
    match (fact, other) {
        (Fact::Eq(left, right), Fact::Eq(l, r)) => are_sides_before(left, right, l, r),
        (Fact::Eq(_, _), Fact::Ne(_, _)) => true,
        (Fact::Ne(_, _), Fact::Eq(_, _)) => false,
        (Fact::Ne(left, right), Fact::Ne(l, r)) => are_sides_before(left, right, l, r),
    }
}

/// The place of the first fact that this one comes before, or how many facts there are.
fn place_of(facts: &[Fact], fact: Fact) -> usize
    ensures first { result ≡ position_or_len (is_fact_before_of fact) facts.now }
    ensures within { result ≤ length facts.now }
{
    for (place, other) in facts.iter().enumerate() {
        if is_fact_before(fact, *other) {
            return place;
        }
    }
    facts.len()
}

/// Puts a fact among those that are in order.
#[tactic(auto, using(crate::proofs::FactPlaces::fact_places))]
fn add_fact(sorted: &mut Vec<Fact>, fact: Fact) -> Result<(), AllocError>
    ensures { IfOk result (λ _. sorted.new.items ≡ with_fact fact sorted.old.items) }
{
    let place = place_of(sorted.as_slice(), fact);
    sorted.insert(place, fact)?;
    Ok(())
}

/// The facts in order.
pub fn sorted_facts(alloc: Global, facts: &[Fact]) -> Result<Vec<Fact>, AllocError>
    ensures { IfOk result (λ sorted. sorted.items ≡ sorted_facts_of facts.now) }
{
    let mut sorted = Vec::new(alloc);
    for fact in facts {
        add_fact(&mut sorted, with_sides_in_order(*fact))?;
    }
    Ok(sorted)
}
