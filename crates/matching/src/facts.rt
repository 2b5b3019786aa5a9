//! The facts that fields left over, and the wanted facts.
ghost use Rattle.std.specs.Prelude.{◌≡◌, ◌<◌, ◌+◌, IfOk, length};
ghost use Rattle.shape_data.specs.declared.symbolic.Fact.TheVariants.{Eq, Ne};
ghost use Rattle.sym_pure.specs.Sources.{differs as differs_of};
ghost use Rattle.sym_matching.specs.Steps.{whole as whole_of};
ghost use Rattle.sym_matching.specs.WantedFacts.{
  miss_disequality as miss_disequality_of,
  miss_equation as miss_equation_of,
  want_all_owed as want_all_owed_of,
  want_apart as want_apart_of,
  want_fact as want_fact_of,
  want_facts as want_facts_of,
  want_owed as want_owed_of,
  want_same as want_same_of,
};
ghost use Rattle.sym_matching.specs.RuleSteps.InSetting.{rules_in};

use shape_data::symbolic::{Exp, Fact};
use std::alloc::{AllocError, Global};
use sym_matching::rule_steps::missing::miss_fact;
use sym_matching::rule_steps::reading::{Setting, is_logical};
use sym_matching::rule_steps::steps::{bind, is_unbound_in, read_in, whole};
use sym_matching::{Matching, Mode, Owed, Turned};
use sym_parts::is_same_exp;
use sym_pure::{differs, read_through};

/// Whether the two are known to differ in the whole heap with the missing part.
fn are_apart(
    alloc: Global,
    setting: &Setting,
    m: &Matching,
    left: Exp,
    right: Exp,
) -> Result<bool, AllocError>
    ensures { IfOk result (λ apart. apart ≡ differs_of (whole_of (rules_in setting.now) m.now) left right) }
{
    let all = whole(alloc, setting, m)?;
    Ok(differs(&all, left, right))
}

/// The equation is missing, where both sides are logical and not known to differ.
fn miss_equation(
    alloc: Global,
    setting: &Setting,
    number: u32,
    left: Exp,
    right: Exp,
    m: Matching,
) -> Result<Turned, AllocError>
    ensures { IfOk result (λ turned. turned ≡ miss_equation_of (rules_in setting.now) number left right m setting.now.mode) }
{
    match setting.mode {
        Mode::Subtract => Ok(Turned::Stuck(number)),
        Mode::Abduce => {
            if !is_logical(left) || !is_logical(right) {
                return Ok(Turned::Stuck(number));
            }
            if are_apart(alloc, setting, &m, left, right)? {
                return Ok(Turned::Stuck(number));
            }
            miss_fact(alloc, setting, number, Fact::Eq(left, right), m)
        }
    }
}

/// Two sides that are determined and read are equal, or their equation is missing.
fn want_same(
    alloc: Global,
    setting: &Setting,
    number: u32,
    left: Exp,
    right: Exp,
    m: Matching,
) -> Result<Turned, AllocError>
    ensures { IfOk result (λ turned. turned ≡ want_same_of (rules_in setting.now) number left right m) }
{
    if is_same_exp(left, right) {
        Ok(Turned::On(m))
    } else {
        miss_equation(alloc, setting, number, left, right, m)
    }
}

/// An equation, for a fact that was left over: its right side is the heap's own.
fn want_owed(
    alloc: Global,
    setting: &Setting,
    owed: Owed,
    m: Matching,
) -> Result<Turned, AllocError>
    ensures { IfOk result (λ turned. turned ≡ want_owed_of (rules_in setting.now) owed m) }
{
    let have = read_through(setting.facts, owed.have);
    if is_unbound_in(setting, &m, owed.want) {
        return Ok(Turned::On(bind(m, owed.want, have)?));
    }
    let want = read_in(setting, &m, owed.want);
    want_same(alloc, setting, owed.number, want, have, m)
}

/// The facts that were left over, in order.
pub fn want_all_owed(
    alloc: Global,
    setting: &Setting,
    owed: &[Owed],
    m: Matching,
) -> Result<Turned, AllocError>
    ensures { IfOk result (λ turned. turned ≡ want_all_owed_of (rules_in setting.now) owed.now m) }
{
    let mut current = m;
    for one in owed {
        match want_owed(alloc, setting, *one, current)? {
            Turned::On(next) => current = next,
            Turned::Stuck(number) => return Ok(Turned::Stuck(number)),
        }
    }
    Ok(Turned::On(current))
}

/// A wanted equation: one side that is unbound is bound to the other; else both are equal, or it is missing.
fn want_equal(
    alloc: Global,
    setting: &Setting,
    number: u32,
    e: Exp,
    f: Exp,
    m: Matching,
) -> Result<Turned, AllocError>
    ensures { IfOk result (λ turned. turned ≡ want_fact_of (rules_in setting.now) number (Eq e f) m) }
{
    let left = read_in(setting, &m, e);
    let right = read_in(setting, &m, f);
    match (is_unbound_in(setting, &m, e), is_unbound_in(setting, &m, f)) {
        (true, false) => Ok(Turned::On(bind(m, e, right)?)),
        (false, true) => Ok(Turned::On(bind(m, f, left)?)),
        (false, false) => want_same(alloc, setting, number, left, right, m),
        (true, true) => {
            if is_same_exp(e, f) {
                Ok(Turned::On(m))
            } else {
                Ok(Turned::Stuck(number))
            }
        }
    }
}

/// The disequality is missing, where both sides are logical and not equal.
fn miss_disequality(
    alloc: Global,
    setting: &Setting,
    number: u32,
    left: Exp,
    right: Exp,
    m: Matching,
) -> Result<Turned, AllocError>
    ensures { IfOk result (λ turned. turned ≡ miss_disequality_of (rules_in setting.now) number left right m setting.now.mode) }
{
    match setting.mode {
        Mode::Subtract => Ok(Turned::Stuck(number)),
        Mode::Abduce => {
            if !is_logical(left) || !is_logical(right) || is_same_exp(left, right) {
                return Ok(Turned::Stuck(number));
            }
            miss_fact(alloc, setting, number, Fact::Ne(left, right), m)
        }
    }
}

/// Two sides that are determined and read are known to differ, or their disequality is missing.
fn want_apart(
    alloc: Global,
    setting: &Setting,
    number: u32,
    left: Exp,
    right: Exp,
    m: Matching,
) -> Result<Turned, AllocError>
    ensures { IfOk result (λ turned. turned ≡ want_apart_of (rules_in setting.now) number left right m) }
{
    if are_apart(alloc, setting, &m, left, right)? {
        Ok(Turned::On(m))
    } else {
        miss_disequality(alloc, setting, number, left, right, m)
    }
}

/// A wanted disequality, whose sides are determined.
fn want_unequal(
    alloc: Global,
    setting: &Setting,
    number: u32,
    e: Exp,
    f: Exp,
    m: Matching,
) -> Result<Turned, AllocError>
    ensures { IfOk result (λ turned. turned ≡ want_fact_of (rules_in setting.now) number (Ne e f) m) }
{
    if is_unbound_in(setting, &m, e) || is_unbound_in(setting, &m, f) {
        return Ok(Turned::Stuck(number));
    }
    let left = read_in(setting, &m, e);
    let right = read_in(setting, &m, f);
    want_apart(alloc, setting, number, left, right, m)
}

/// The rules for a fact.
fn want_fact(
    alloc: Global,
    setting: &Setting,
    number: u32,
    fact: Fact,
    m: Matching,
) -> Result<Turned, AllocError>
    ensures { IfOk result (λ turned. turned ≡ want_fact_of (rules_in setting.now) number fact m) }
{
    match fact {
        Fact::Eq(e, f) => want_equal(alloc, setting, number, e, f, m),
        Fact::Ne(e, f) => want_unequal(alloc, setting, number, e, f, m),
    }
}

/// Wanted facts in order, numbered from one on.
pub fn want_facts(
    alloc: Global,
    setting: &Setting,
    first: u32,
    facts: &[Fact],
    m: Matching,
) -> Result<Turned, AllocError>
    requires { first + length facts.now < 4294967296 }
    ensures { IfOk result (λ turned. turned ≡ want_facts_of (rules_in setting.now) first facts.now m) }
{
    let mut current = m;
    let mut number = first;
    for fact in facts {
        match want_fact(alloc, setting, number, *fact, current)? {
            Turned::On(next) => current = next,
            Turned::Stuck(stuck) => return Ok(Turned::Stuck(stuck)),
        }
        number += 1;
    }
    Ok(Turned::On(current))
}
