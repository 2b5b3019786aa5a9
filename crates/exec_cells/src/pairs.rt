//! Pairs of a missing heap and a state, as execution changes them: slots, new variables, forms and facts.
ghost use Rattle.std.specs.Prelude.{◌≡◌, ◌≤◌, IfOk, IfSome, filter, ltb};
ghost use Rattle.sym_matching.specs.Covers.{above};
ghost use Rattle.sym_matching.specs.NewVariables.{HasRoom};
ghost use Rattle.exec_laws.specs.Pairs.{
  canonical as canonical_of,
  formed as formed_of,
  in_slot as in_slot_of,
  is_logical_fact as is_logical_fact_of,
  new_existentials as new_existentials_of,
  new_logical as new_logical_of,
  pair_variables as pair_variables_of,
  where_true as where_true_of,
  where_true_in_state as where_true_in_state_of,
  with_missing_fact as with_missing_fact_of,
  with_slot as with_slot_of,
  with_state_fact as with_state_fact_of,
};
ghost use Rattle.exec_cells.specs.InSetting.{setting_in};
ghost use Rattle.exec_cells.specs.Sizes.{IsLowFact, IsLowPair};

use crate::setting::Setting;
use exec_laws::Mode;
use shape_data::Row;
use shape_data::symbolic::{Exp, FIRST_EXISTENTIAL, Fact};
use std::alloc::{AllocError, Global};
use sym_canon::{Pair, canon_pair, canon_state};
use sym_forms::pair_form;
use sym_matching::renaming::new_variables::fresh_variables;
use sym_matching::renaming::variables::{add_heap, add_state};
use sym_matching::rule_steps::reading::is_logical;
use sym_matching::rule_steps::steps::exp_at;
use sym_pure::{Normal, normal};

/// What a slot holds.
pub(crate) fn in_slot(pair: &Pair, slot: u32) -> Exp
    ensures { result ≡ in_slot_of pair.now slot }
{
    exp_at(pair.state.locals.as_slice(), slot)
}

/// The pair with an expression in a slot.
pub(crate) fn with_slot(slot: u32, e: Exp, pair: Pair) -> Pair
    ensures { result ≡ with_slot_of slot e pair }
{
    let mut pair = pair;
    if (slot as usize) < pair.state.locals.len() {
        pair.state.locals.set(slot as usize, e);
    }
    pair
}

/// The variables of a pair: the state's, then the missing heap's.
pub fn pair_variables(alloc: Global, pair: &Pair) -> Result<Vec<u32>, AllocError>
    ensures { IfOk result (λ names. names.items ≡ pair_variables_of pair.now) }
{
    let mut names = Vec::new(alloc);
    add_state(&mut names, &pair.state)?;
    add_heap(&mut names, &pair.missing)?;
    Ok(names)
}

/// So many new existential variables, which stand nowhere in the pair.
pub(crate) fn new_existentials(
    alloc: Global,
    count: usize,
    pair: &Pair,
) -> Result<Vec<u32>, AllocError>
    requires { HasRoom count (pair_variables_of pair.now) }
    ensures { IfOk result (λ names. names.items ≡ new_existentials_of count pair.now) }
{
    let mut used = Row::from_vec(pair_variables(alloc, pair)?);
    fresh_variables(alloc, &mut used, count)
}

/// The least number from a first one on that is above all the logical variables of a list.
pub fn above_logical(first: u32, names: &[u32]) -> u32
    ensures value { result ≡ above first (filter (λ x. ltb x 65536) names.now) }
    ensures low { first ≤ 65536 → result ≤ 65536 }
{
    let mut least = first;
    for x in names {
        if *x < FIRST_EXISTENTIAL && least <= *x {
            least = *x + 1;
        }
    }
    least
}

/// The number from which on logical variables are new in the pair of a procedure with so many parameters.
pub(crate) fn new_logical(alloc: Global, params: u32, pair: &Pair) -> Result<u32, AllocError>
    ensures value { IfOk result (λ first. first ≡ new_logical_of params pair.now) }
    ensures low { params ≤ 65536 → IfOk result (λ first. first ≤ 65536) }
{
    let names = pair_variables(alloc, pair)?;
    Ok(above_logical(params, names.as_slice()))
}

/// The normal form: in strict execution the state's, in the search the pair's. None is a contradiction.
pub fn formed(
    alloc: Global,
    mode: Mode,
    params: u32,
    pair: Pair,
) -> Result<Option<Pair>, AllocError>
    ensures { IfOk result (λ form. form ≡ formed_of mode params pair) }
{
    match mode {
        Mode::Search => pair_form(alloc, params, &pair),
        Mode::Strict => match normal(alloc, &pair.state)? {
            Normal::Contradiction => Ok(None),
            Normal::Is(state) => Ok(Some(Pair {
                missing: pair.missing,
                state,
            })),
        },
    }
}

/// The canonical form; in strict execution logical variables keep their numbers.
pub fn canonical(alloc: Global, mode: Mode, params: u32, pair: Pair) -> Result<Pair, AllocError>
    ensures { IfOk result (λ form. form ≡ canonical_of mode params pair) }
{
    match mode {
        Mode::Search => canon_pair(alloc, &pair.missing, &pair.state, params),
        Mode::Strict => {
            let state = canon_state(alloc, &pair.state, params)?;
            Ok(Pair {
                missing: pair.missing,
                state,
            })
        }
    }
}

/// Whether a fact is between logical expressions.
fn is_logical_fact(fact: Fact) -> bool
    ensures { result ≡ is_logical_fact_of fact }
{
    match fact {
        Fact::Eq(left, right) => is_logical(left) && is_logical(right),
        Fact::Ne(left, right) => is_logical(left) && is_logical(right),
    }
}

/// The pair with one more missing fact, in the search, where it is between logical expressions.
fn with_missing_fact(mode: Mode, fact: Fact, pair: Pair) -> Result<Pair, AllocError>
    ensures { IfOk result (λ made. made ≡ with_missing_fact_of mode fact pair) }
{
    let mut pair = pair;
    match mode {
        Mode::Strict => {}
        Mode::Search => {
            if is_logical_fact(fact) {
                pair.missing.pure.push(fact)?;
            }
        }
    }
    Ok(pair)
}

/// The pair with one more fact in its state.
fn with_state_fact(fact: Fact, pair: Pair) -> Result<Pair, AllocError>
    ensures { IfOk result (λ made. made ≡ with_state_fact_of fact pair) }
{
    let mut pair = pair;
    pair.state.heap.pure.push(fact)?;
    Ok(pair)
}

/// The case in which a fact is true, which is missing too. Where the variables of the pair and the fact are low, so are the form's.
pub fn where_true(
    alloc: Global,
    setting: &Setting,
    fact: Fact,
    pair: Pair,
) -> Result<Option<Pair>, AllocError>
    ensures value { IfOk result (λ form. form ≡ where_true_of (setting_in setting.now) fact pair) }
    ensures low { IsLowPair pair → IsLowFact fact → IfOk result (λ form. IfSome form IsLowPair) }
{
    let missing = with_missing_fact(setting.mode, fact, pair)?;
    let given = with_state_fact(fact, missing)?;
    formed(alloc, setting.mode, setting.params, given)
}

/// The case in which a fact is true, which changes the state alone.
pub fn where_true_in_state(
    alloc: Global,
    setting: &Setting,
    fact: Fact,
    pair: Pair,
) -> Result<Option<Pair>, AllocError>
    ensures { IfOk result (λ form. form ≡ where_true_in_state_of (setting_in setting.now) fact pair) }
{
    let given = with_state_fact(fact, pair)?;
    formed(alloc, setting.mode, setting.params, given)
}
