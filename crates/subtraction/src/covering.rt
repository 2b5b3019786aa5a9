//! Whether a state or a post covers another: whatever meets the second then meets the first, by the law
//! `sym_matching::laws::covering_is_met`.
ghost use Rattle.std.specs.Prelude.{◌≡◌, ◌↔◌, ◌+◌, ◌<◌, [], IfOk, IsTrue, length};
ghost use Rattle.sym_canon.specs.Canonical.{as_state as as_state_of, canon_post as canon_post_of, canon_state as canon_state_of};
ghost use Rattle.sym_matching.specs.Covers.{
  PostCovers,
  StateCovers,
  apart_from as apart_from_of,
  equal_slots as equal_slots_of,
  match_state as match_state_of,
  matches_state as matches_state_of,
  takes_all as takes_all_of,
};
ghost use Rattle.sym_matching.specs.Matches.{want_heap as want_heap_of};
ghost use Rattle.sym_matching.specs.NewVariables.{HasRoom};
ghost use Rattle.sym_matching.specs.Rooms.{fields_of_all};
ghost use Rattle.sym_matching.specs.Steps.{and_then};
ghost use Rattle.sym_matching.specs.Variables.{with_state};
ghost use Rattle.sym_matching.specs.WantedFacts.{want_all_owed as want_all_owed_of};
ghost use Rattle.sym_matching.specs.RuleSteps.InSetting.{rules_in};
ghost use Rattle.sym_matching.specs.Answers.{names_of_all};
ghost use Rattle.subtraction.specs.Conditions.{IsPostWithinSizes, IsStateWithinSizes};

use matching::facts::want_all_owed;
use matching::matches::{start, want_heap};
use shape_data::is_same;
use shape_data::symbolic::{Exp, Post, SymHeap, SymState};
use std::alloc::{AllocError, Global};
use sym_canon::{as_state, canon_post, canon_state};
use sym_matching::renaming::variables::add_state;
use sym_matching::renaming::{existentials, state_apart};
use sym_matching::rule_steps::reading::Setting;
use sym_matching::{Matching, Mode, Owed, Turned};
use sym_pure::has_junk;

/// The variables of a state.
fn variables_of(alloc: Global, state: &SymState) -> Result<Vec<u32>, AllocError>
    ensures { IfOk result (λ names. names.items ≡ with_state [] state.now) }
{
    let mut names = Vec::new(alloc);
    add_state(&mut names, state)?;
    Ok(names)
}

/// The variables of two states.
fn variables_of_both(alloc: Global, a: &SymState, b: &SymState) -> Result<Vec<u32>, AllocError>
    ensures { IfOk result (λ names. names.items ≡ with_state (with_state [] a.now) b.now) }
{
    let mut names = Vec::new(alloc);
    add_state(&mut names, a)?;
    add_state(&mut names, b)?;
    Ok(names)
}

/// The wanted state with numbers for its existential variables that are free in the other.
fn apart_from(alloc: Global, a: &SymState, b: &SymState) -> Result<SymState, AllocError>
    requires a { IsStateWithinSizes a.now }
    requires b { IsStateWithinSizes b.now }
    ensures { IfOk result (λ apart. apart ≡ apart_from_of a.now b.now) }
{
    let names = variables_of(alloc, a)?;
    state_apart(alloc, names.as_slice(), b)
}

/// The wanted locals are equal to those that are there, slot by slot.
fn equal_slots(alloc: Global, wants: &[Exp], haves: &[Exp]) -> Result<Vec<Owed>, AllocError>
    requires { length wants.now ≡ length haves.now }
    ensures { IfOk result (λ owed. owed.items ≡ equal_slots_of wants.now haves.now) }
{
    let mut owed = Vec::new(alloc);
    for slot in 0..wants.len() {
        owed.push(Owed {
            number: 0,
            want: wants[slot],
            have: haves[slot],
        })?;
    }
    Ok(owed)
}

/// The match of the locals, slot by slot, then of the heap.
fn want_state(
    alloc: Global,
    setting: &Setting,
    slots: &[Owed],
    b: &SymHeap,
    m: Matching,
) -> Result<Turned, AllocError>
    requires room { HasRoom (fields_of_all b.now.spatial) m.used }
    requires names { m.next + names_of_all b.now.spatial < 4294967296 }
    requires few { length b.now.spatial + length b.now.pure < 4294967296 }
    ensures { IfOk result (λ turned. turned
        ≡ and_then (want_heap_of (rules_in setting.now) b.now) (want_all_owed_of (rules_in setting.now) slots.now m)) }
{
    match want_all_owed(alloc, setting, slots, m)? {
        Turned::On(n) => want_heap(alloc, setting, b, n),
        Turned::Stuck(number) => Ok(Turned::Stuck(number)),
    }
}

/// The match of a state in another, its existential variables being flexible.
fn match_state(alloc: Global, a: &SymState, b: &SymState) -> Result<Turned, AllocError>
    requires slots { length b.now.locals ≡ length a.now.locals }
    requires room { HasRoom (fields_of_all b.now.heap.spatial) (with_state (with_state [] a.now) b.now) }
    requires names { names_of_all b.now.heap.spatial < 4294967296 }
    requires few { length b.now.heap.spatial + length b.now.heap.pure < 4294967296 }
    ensures { IfOk result (λ turned. turned ≡ match_state_of a.now b.now) }
{
    let flexible = existentials(alloc, b)?;
    let used = variables_of_both(alloc, a, b)?;
    let slots = equal_slots(alloc, b.locals.as_slice(), a.locals.as_slice())?;
    let m = start(alloc, &a.heap, &[], used, 0)?;
    let setting = Setting {
        mode: Mode::Subtract,
        facts: a.heap.pure.as_slice(),
        flexible: flexible.as_slice(),
    };
    want_state(alloc, &setting, slots.as_slice(), &b.heap, m)
}

/// Whether a match went to its end and its frame has no atom.
fn takes_all(b: &SymHeap, turned: &Turned) -> bool
    ensures { result ≡ takes_all_of b.now turned.now }
{
    match turned {
        Turned::On(m) => has_junk(b.spatial.as_slice()) || m.left.is_empty(),
        Turned::Stuck(_) => false,
    }
}

/// Whether the state `b`, renamed apart, matches `a` with nothing left over.
fn matches_state(alloc: Global, a: &SymState, b: &SymState) -> Result<bool, AllocError>
    requires a { IsStateWithinSizes a.now }
    requires b { IsStateWithinSizes b.now }
    ensures { IfOk result (λ matches. matches ≡ matches_state_of a.now b.now) }
{
    if b.locals.len() != a.locals.len() {
        return Ok(false);
    }
    let apart = apart_from(alloc, a, b)?;
    let turned = match_state(alloc, a, &apart)?;
    Ok(takes_all(&apart.heap, &turned))
}

/// Whether the two have equal canonical forms.
fn are_alike(alloc: Global, a: &SymState, b: &SymState) -> Result<bool, AllocError>
    ensures { IfOk result (λ alike. IsTrue alike ↔ (canon_state_of a.now 0 ≡ canon_state_of b.now 0)) }
{
    let one = canon_state(alloc, a, 0)?;
    let other = canon_state(alloc, b, 0)?;
    Ok(is_same(&one, &other))
}

/// Whether the state `b` covers the state `a`: their canonical forms are equal, or `b` matches `a` with nothing left over, its
/// existential variables being flexible. `a` should be normal; else the answer is still the definition's. The only error is
/// want of memory.
pub fn covers_state(alloc: Global, a: &SymState, b: &SymState) -> Result<bool, AllocError>
    requires a { IsStateWithinSizes a.now }
    requires b { IsStateWithinSizes b.now }
    ensures { IfOk result (λ covers. IsTrue covers ↔ StateCovers b.now a.now) }
{
    if are_alike(alloc, a, b)? {
        return Ok(true);
    }
    matches_state(alloc, a, b)
}

/// Whether the posts, as states, match with nothing left over.
fn matches_post(alloc: Global, a: &Post, b: &Post) -> Result<bool, AllocError>
    requires a { IsPostWithinSizes a.now }
    requires b { IsPostWithinSizes b.now }
    ensures { IfOk result (λ matches. matches ≡ matches_state_of (as_state_of a.now) (as_state_of b.now)) }
{
    let one = as_state(alloc, a)?;
    let other = as_state(alloc, b)?;
    matches_state(alloc, &one, &other)
}

/// Whether the two have equal canonical forms.
fn are_alike_posts(alloc: Global, a: &Post, b: &Post) -> Result<bool, AllocError>
    ensures { IfOk result (λ alike. IsTrue alike ↔ (canon_post_of a.now 0 ≡ canon_post_of b.now 0)) }
{
    let one = canon_post(alloc, a, 0)?;
    let other = canon_post(alloc, b, 0)?;
    Ok(is_same(&one, &other))
}

/// Whether the post `b` covers the post `a`, as [`covers_state`] with the result as the one local.
pub fn covers_post(alloc: Global, a: &Post, b: &Post) -> Result<bool, AllocError>
    requires a { IsPostWithinSizes a.now }
    requires b { IsPostWithinSizes b.now }
    ensures { IfOk result (λ covers. IsTrue covers ↔ PostCovers b.now a.now) }
{
    if are_alike_posts(alloc, a, b)? {
        return Ok(true);
    }
    matches_post(alloc, a, b)
}
