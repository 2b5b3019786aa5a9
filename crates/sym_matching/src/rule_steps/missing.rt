//! Saying that a part is missing. Where the whole heap with it, or all that is missing by itself, is a contradiction, the match is
//! stuck.
ghost use Rattle.std.specs.Prelude.{◌≡◌, ◌||◌, IfOk};
ghost use Rattle.sym_matching.specs.Steps.{
  contradicts as contradicts_of,
  miss_atom as miss_atom_of,
  miss_fact as miss_fact_of,
  unless_contradiction as unless_contradiction_of,
  whole as whole_of,
};
ghost use Rattle.sym_matching.specs.RuleSteps.InSetting.{rules_in};

use crate::rule_steps::reading::Setting;
use crate::rule_steps::steps::whole;
use crate::{Matching, Turned};
use shape_data::symbolic::{Atom, Fact, SymHeap, SymState};
use shape_data::{Row, copy_of};
use std::alloc::{AllocError, Global};
use sym_pure::{Normal, normal};

/// Whether the heap has no normal form: then nothing meets it. The only error is want of memory.
#[tactic(auto, unfolding(crate::specs::Steps::contradicts))]
pub fn contradicts(alloc: Global, heap: SymHeap) -> Result<bool, AllocError>
    ensures { IfOk result (λ none. none ≡ contradicts_of heap) }
{
    let state = SymState {
        locals: Row::new(alloc),
        heap,
    };
    match normal(alloc, &state)? {
        Normal::Is(_) => Ok(false),
        Normal::Contradiction => Ok(true),
    }
}

/// Whether the whole heap beside the missing part, or the missing part alone, has no normal form.
fn is_contradictory(alloc: Global, setting: &Setting, m: &Matching) -> Result<bool, AllocError>
    ensures { IfOk result (λ none. none ≡ (contradicts_of (whole_of (rules_in setting.now) m.now) || contradicts_of m.now.missing)) }
{
    let all = whole(alloc, setting, m)?;
    if contradicts(alloc, all)? {
        return Ok(true);
    }
    contradicts(alloc, copy_of(&m.missing)?)
}

/// The match goes on, unless what is missing makes a contradiction.
fn unless_contradiction(
    alloc: Global,
    setting: &Setting,
    number: u32,
    m: Matching,
) -> Result<Turned, AllocError>
    ensures { IfOk result (λ turned. turned ≡ unless_contradiction_of (rules_in setting.now) number m) }
{
    if is_contradictory(alloc, setting, &m)? {
        Ok(Turned::Stuck(number))
    } else {
        Ok(Turned::On(m))
    }
}

/// The fact is missing.
pub fn miss_fact(
    alloc: Global,
    setting: &Setting,
    number: u32,
    fact: Fact,
    m: Matching,
) -> Result<Turned, AllocError>
    ensures { IfOk result (λ turned. turned ≡ miss_fact_of (rules_in setting.now) number fact m) }
{
    let mut m = m;
    m.missing.pure.push(fact)?;
    unless_contradiction(alloc, setting, number, m)
}

/// The atom is missing, and taken at once.
pub fn miss_atom(
    alloc: Global,
    setting: &Setting,
    number: u32,
    atom: Atom,
    m: Matching,
) -> Result<Turned, AllocError>
    ensures { IfOk result (λ turned. turned ≡ miss_atom_of (rules_in setting.now) number atom m) }
{
    let mut m = m;
    m.missing.spatial.push(copy_of(&atom)?)?;
    m.gone.push(atom)?;
    unless_contradiction(alloc, setting, number, m)
}
