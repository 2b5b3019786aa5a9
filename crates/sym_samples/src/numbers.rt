//! The numbers of variables and of expressions.
ghost use Rattle.std.specs.Prelude.{◌≡◌, ◌+◌, ◌<◌, All, IfOk, map};
ghost use Rattle.shape_data.specs.Meaning.{value};
ghost use Rattle.sym_parts.specs.Laws.Each.{EachInFact};
ghost use Rattle.sym_samples.specs.Laws.{IsLow};
ghost use Rattle.sym_samples.specs.Samples.{number_of as number_of_variable, numbers_from as numbers_from_variable, plain as plain_of};

use shape_data::Row;
use shape_data::machine::Value;
use shape_data::symbolic::{Exp, Fact, SymHeap};
use std::alloc::{AllocError, Global};

/// Where numbers of variables begin: above all 32-bit constants.
const FIRST: Value = 4_294_967_296;

/// The number of an expression that no equation solves.
fn plain(e: Exp) -> Value
    ensures { result ≡ value plain_of e }
{
    match e {
        Exp::Var(x) => FIRST + Value::from(x),
        Exp::Const(n) => Value::from(n),
    }
}

/// The number of a variable, by the facts.
fn number_of(facts: &[Fact], x: u32) -> Value
    ensures { result ≡ number_of_variable facts.now x }
{
    for fact in facts {
        if let Fact::Eq(Exp::Var(y), right) = *fact {
            if y == x {
                return plain(right);
            }
        }
    }
    plain(Exp::Var(x))
}

/// The number of an expression, by the facts.
pub fn value_of(facts: &[Fact], e: Exp) -> Value
    ensures { result ≡ value (number_of_variable facts.now) e }
{
    match e {
        Exp::Var(x) => number_of(facts, x),
        Exp::Const(n) => Value::from(n),
    }
}

/// The numbers of expressions, by the facts.
pub fn values_of(alloc: Global, facts: &[Fact], list: &[Exp]) -> Result<Row<Value>, AllocError>
    ensures { IfOk result (λ all. all ≡ map (value (number_of_variable facts.now)) list.now) }
{
    let mut all = Row::new(alloc);
    for e in list {
        all.push(value_of(facts, *e))?;
    }
    Ok(all)
}

/// The numbers of the parameters, by the facts.
pub fn parameter_values(
    alloc: Global,
    facts: &[Fact],
    params: u32,
) -> Result<Row<Value>, AllocError>
    ensures { IfOk result (λ all. all ≡ numbers_from_variable facts.now params 0) }
{
    let mut all = Row::new(alloc);
    for x in 0..params {
        all.push(number_of(facts, x))?;
    }
    Ok(all)
}

/// Constants have 32 bits.
fn have_bits(e: Exp)
    ensures { IsLow e }
{
    if let Exp::Const(n) = e {
        let _number = n;
    }
}

/// The constants of a fact have 32 bits.
fn fact_has_bits(fact: Fact)
    ensures { EachInFact IsLow fact }
{
    match fact {
        Fact::Eq(left, right) => {
            have_bits(left);
            have_bits(right);
        }
        Fact::Ne(left, right) => {
            have_bits(left);
            have_bits(right);
        }
    }
}

/// The constants of facts have 32 bits.
fn facts_have_bits(facts: &[Fact])
    ensures { All (EachInFact IsLow) facts.now }
{
    for place in 0..facts.len() {
        fact_has_bits(facts[place]);
    }
}

/// The constants of a heap's facts have 32 bits.
pub fn heap_has_bits(heap: &SymHeap)
    ensures { All (EachInFact IsLow) heap.now.pure }
{
    facts_have_bits(heap.pure.as_slice());
}
