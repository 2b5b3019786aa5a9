//! Abstraction of a pair of a missing heap and a state at the head of a loop, and of a candidate.
ghost use Rattle.std.specs.Prelude.{◌≡◌, ℕ, ◌+◌, ◌^◌, ◌<◌, ◌≤◌, ◌==◌, Bool, length, IfOk, filter, is_some, not, option_map};
ghost use Rattle.std.specs.declared.option.Option.TheVariants.{Some};
ghost use Rattle.abstraction_laws.specs.Forgetting.{first_new as first_new_of};
ghost use Rattle.abstraction_laws.specs.Joining.{find_join as find_join_of};
ghost use Rattle.abstraction_laws.specs.Occurrences.{exps_of_atoms, exps_of_heap};
ghost use Rattle.abstraction_laws.specs.Pairs.{
  abstract_pair as abstract_pair_of,
  abstract_pre as abstract_pre_of,
  beside_nothing as beside_nothing_of,
  exps_beside_facts,
  heap_with_join as heap_with_join_of,
  is_absent_or_joint as is_absent_or_joint_of,
  is_further as is_further_of,
  join_pair as join_pair_of,
  join_pair_once as join_pair_once_of,
  lose_equations as lose_equations_of,
  lose_in_pair as lose_in_pair_of,
  make_existential as make_existential_of,
  may_join,
  pair_in_forms as pair_in_forms_of,
  reduce_state as reduce_state_of,
  state_joined_at as state_joined_at_of,
};
ghost use Rattle.abstraction_laws.specs.Rooms.{HasRoom, HaveFewFields, IsWithinRoom};
ghost use Rattle.sym_parts.specs.Laws.Mapped.{on_state};
ghost use Rattle.sym_abstract.specs.Counted.{Counts, is_lost_equation_by, made_existential_by};
ghost use Rattle.sym_abstract.specs.Places.{place_of};

use crate::forgetting::first_new;
use crate::heads::at_head;
use crate::joining::{Middle, Place, find_join, join_found};
use crate::losing::without_lost;
use crate::occurrences::{
    Times, count_atoms, is_counted, times_of_atoms, times_of_both, times_of_heap,
};
use shape_data::program::{Flow, HeadMark, StructDef};
use shape_data::symbolic::{Atom, Exp, FIRST_EXISTENTIAL, Fact, SymHeap, SymState};
use shape_data::{Row, copy_of};
use std::alloc::{AllocError, Global};
use sym_canon::{Pair, canon_pair};
use sym_forms::pair_form;
use sym_parts::{Mapping, is_among, map_state};

/// Whether the variable is a logical one that is no parameter.
fn is_further(params: u32, x: u32) -> bool
    ensures { result ≡ is_further_of params x }
{
    params <= x && x < FIRST_EXISTENTIAL
}

/// One variable.
#[derive(Clone, Copy)]
struct Only {
    variable: u32,
}

impl Middle for Only {
    ghost use Rattle.std.specs.Prelude.{◌==◌};

    ghost may = { λ only x. x == only.variable };

    fn may_be(&self, x: u32) -> bool {
        x == self.variable
    }
}

/// The first join of a state's atoms, whose expressions are counted, at a variable.
fn find_join_at(counts: &Times, atoms: &[Atom], x: u32) -> Option<Place>
    requires { Counts counts.now (exps_of_atoms atoms.now) }
    ensures { result ≡ option_map place_of (find_join_of (λ y. y == x) atoms.now) }
{
    find_join(counts, &Only { variable: x }, atoms)
}

/// The variables at which a pair may be joined, by its state, whose atoms' expressions are counted.
#[derive(Clone, Copy)]
struct Joinable<'a> {
    params: u32,
    state: &'a SymState,
    counts: &'a Times,
    ghost counted: { Counts counts.now (exps_of_atoms state.now.heap.spatial) },
}

impl Middle for Joinable<'_> {
    ghost use Rattle.abstraction_laws.specs.Pairs.{may_join};

    ghost may = { λ joinable x. may_join joinable.params joinable.state.now x };

    fn may_be(&self, x: u32) -> bool {
        is_further(self.params, x)
            && !is_among(Exp::Var(x), self.state.locals.as_slice())
            && is_absent_or_joint(self.counts, self.state.heap.spatial.as_slice(), x)
    }
}

/// Whether the variable stands in none of the atoms, whose expressions are counted, or they may be joined at it.
fn is_absent_or_joint(counts: &Times, atoms: &[Atom], x: u32) -> bool
    requires { Counts counts.now (exps_of_atoms atoms.now) }
    ensures { result ≡ is_absent_or_joint_of atoms.now x }
{
    !is_counted(counts, x) || find_join_at(counts, atoms, x).is_some()
}

/// The first join of the missing heap at which the pair may be joined.
fn find_pair_join(
    params: u32,
    missing_counts: &Times,
    state_counts: &Times,
    pair: &Pair,
) -> Option<Place>
    requires missing { Counts missing_counts.now (exps_of_atoms pair.now.missing.spatial) }
    requires state { Counts state_counts.now (exps_of_atoms pair.now.state.heap.spatial) }
    ensures { result ≡ option_map place_of (find_join_of (may_join params pair.now.state) pair.now.missing.spatial) }
{
    let joinable = Joinable {
        params,
        state: &pair.state,
        counts: state_counts,
    };
    find_join(missing_counts, &joinable, pair.missing.spatial.as_slice())
}

/// The heap with a join that was found, if one was.
fn heap_with_join(heap: SymHeap, found: Option<Place>) -> Result<SymHeap, AllocError>
    requires few { HaveFewFields heap.spatial }
    ensures { (may : ℕ → Bool) → found ≡ option_map place_of (find_join_of may heap.spatial)
        → IfOk result (λ made. made ≡ heap_with_join_of heap (find_join_of may heap.spatial)) }
{
    let atoms = join_found(heap.spatial.into_vec(), found)?;
    Ok(SymHeap {
        pure: heap.pure,
        spatial: Row::from_vec(atoms),
    })
}

/// The state with its atoms, whose expressions are counted, joined at an expression, where they may be.
fn state_joined_at(counts: &Times, state: SymState, middle: Exp) -> Result<SymState, AllocError>
    requires counts { Counts counts.now (exps_of_atoms state.heap.spatial) }
    requires few { HaveFewFields state.heap.spatial }
    ensures { IfOk result (λ made. made ≡ state_joined_at_of state middle) }
{
    match middle {
        Exp::Var(x) => {
            let found = find_join_at(counts, state.heap.spatial.as_slice(), x);
            Ok(SymState {
                locals: state.locals,
                heap: heap_with_join(state.heap, found)?,
            })
        }
        Exp::Const(_) => Ok(state),
    }
}

/// A pair after a turn of joining, and whether there was a join.
#[derive(Drop)]
struct Turn {
    pair: Pair,
    joined: bool,
}

/// The pair with its first join made, if there is one: in the missing heap, and in the state too if the middle stands there.
fn join_pair_once(alloc: Global, params: u32, pair: Pair) -> Result<Turn, AllocError>
    requires missing { HaveFewFields pair.missing.spatial }
    requires state { HaveFewFields pair.state.heap.spatial }
    ensures pair { IfOk result (λ turn. turn.pair ≡ join_pair_once_of params pair) }
    ensures joined { IfOk result (λ turn. turn.joined ≡ is_some (find_join_of (may_join params pair.state) pair.missing.spatial)) }
{
    let missing_counts = times_of_atoms(alloc, pair.missing.spatial.as_slice())?;
    let state_counts = times_of_atoms(alloc, pair.state.heap.spatial.as_slice())?;
    match find_pair_join(params, &missing_counts, &state_counts, &pair) {
        None => Ok(Turn {
            pair,
            joined: false,
        }),
        Some(place) => {
            let Pair { missing, state } = pair;
            let missing = heap_with_join(missing, Some(place))?;
            let state = state_joined_at(&state_counts, state, place.middle)?;
            Ok(Turn {
                pair: Pair { missing, state },
                joined: true,
            })
        }
    }
}

/// Second step of a pair: joins at logical variables until there is none. Each takes an atom of the missing heap.
fn join_pair(alloc: Global, params: u32, pair: Pair) -> Result<Pair, AllocError>
    requires missing { HaveFewFields pair.missing.spatial }
    requires state { HaveFewFields pair.state.heap.spatial }
    ensures { IfOk result (λ made. made ≡ join_pair_of params pair) }
{
    let mut pair = pair;
    loop {
        let turn = join_pair_once(alloc, params, pair)?;
        pair = turn.pair;
        if !turn.joined {
            return Ok(pair);
        }
    }
}

/// Makes existential the logical variables that are no parameters and not counted.
#[derive(Clone, Copy)]
struct ToExistential<'a> {
    params: u32,
    first: u64,
    counts: &'a Times,
    ghost room: { first + 65536 ≤ 2 ^ 32 },
}

impl Mapping for ToExistential<'_> {
    ghost use Rattle.sym_abstract.specs.Counted.{made_existential_by};

    ghost image = { λ map e. made_existential_by map.params map.first map.counts.now e };

    fn image_of(&self, e: Exp) -> Exp {
        match e {
            Exp::Var(x) => {
                if is_further(self.params, x) && !is_counted(self.counts, x) {
                    Exp::Var((self.first + u64::from(x)) as u32)
                } else {
                    e
                }
            }
            Exp::Const(_) => e,
        }
    }
}

/// The state with these variables made existential.
fn state_made_existential(
    alloc: Global,
    params: u32,
    counts: &Times,
    state: &SymState,
) -> Result<SymState, AllocError>
    requires { first_new_of state.now + 65536 ≤ 2 ^ 32 }
    ensures { IfOk result (λ made. made ≡ on_state (made_existential_by params (first_new_of state.now) counts.now) state.now) }
{
    let first = first_new(state.locals.as_slice(), &state.heap);
    map_state(
        alloc,
        &ToExistential {
            params,
            first,
            counts,
        },
        state,
    )
}

/// Third step: logical variables of the state that are no parameters and not in the missing heap become existential.
fn make_existential(
    alloc: Global,
    params: u32,
    counts: &Times,
    pair: Pair,
) -> Result<Pair, AllocError>
    requires counts { Counts counts.now (exps_of_heap pair.missing) }
    requires room { first_new_of pair.state + 65536 ≤ 2 ^ 32 }
    ensures { IfOk result (λ made. made ≡ make_existential_of params pair) }
{
    let Pair { missing, state } = pair;
    let state = state_made_existential(alloc, params, counts, &state)?;
    Ok(Pair { missing, state })
}

/// Whether the fact is an equation of a variable that is neither a parameter nor in the missing heap, whose expressions are
/// counted.
fn is_lost_equation(params: u32, counts: &Times, fact: Fact) -> bool
    ensures { result ≡ is_lost_equation_by params counts.now fact }
{
    match fact {
        Fact::Eq(Exp::Var(x), _) => params <= x && !is_counted(counts, x),
        Fact::Eq(Exp::Const(_), _) => true,
        Fact::Ne(_, _) => false,
    }
}

/// The facts without such equations.
fn without_lost_equations(
    alloc: Global,
    params: u32,
    counts: &Times,
    facts: &[Fact],
) -> Result<Vec<Fact>, AllocError>
    ensures { IfOk result (λ some. some.items ≡ filter (λ fact. not (is_lost_equation_by params counts.now fact)) facts.now) }
{
    let mut some = Vec::new(alloc);
    for fact in facts {
        if !is_lost_equation(params, counts, *fact) {
            some.push(*fact)?;
        }
    }
    Ok(some)
}

/// Fourth step: such equations go from the state.
fn lose_equations(
    alloc: Global,
    params: u32,
    counts: &Times,
    pair: Pair,
) -> Result<Pair, AllocError>
    requires counts { Counts counts.now (exps_of_heap pair.missing) }
    ensures { IfOk result (λ made. made ≡ lose_equations_of params pair) }
{
    let Pair { missing, state } = pair;
    let pure = without_lost_equations(alloc, params, counts, state.heap.pure.as_slice())?;
    Ok(Pair {
        missing,
        state: SymState {
            locals: state.locals,
            heap: SymHeap {
                pure: Row::from_vec(pure),
                spatial: state.heap.spatial,
            },
        },
    })
}

/// The counts of the expressions of a pair's locals and atoms.
fn times_beside_facts(alloc: Global, pair: &Pair) -> Result<Times, AllocError>
    ensures { IfOk result (λ counts. Counts counts (exps_beside_facts pair.now)) }
{
    let mut counts = times_of_both(
        alloc,
        pair.state.locals.as_slice(),
        pair.state.heap.spatial.as_slice(),
    )?;
    count_atoms(&mut counts, pair.missing.spatial.as_slice())?;
    Ok(counts)
}

/// Fifth step: disequalities over a variable that is no parameter, and in no local and no atom of either heap, go from both.
fn lose_in_pair(alloc: Global, params: u32, pair: Pair) -> Result<Pair, AllocError>
    ensures { IfOk result (λ made. made ≡ lose_in_pair_of params pair) }
{
    let counts = times_beside_facts(alloc, &pair)?;
    let Pair { missing, state } = pair;
    let missing_pure = without_lost(alloc, &counts, params, missing.pure.as_slice())?;
    let state_pure = without_lost(alloc, &counts, params, state.heap.pure.as_slice())?;
    Ok(Pair {
        missing: SymHeap {
            pure: Row::from_vec(missing_pure),
            spatial: missing.spatial,
        },
        state: SymState {
            locals: state.locals,
            heap: SymHeap {
                pure: Row::from_vec(state_pure),
                spatial: state.heap.spatial,
            },
        },
    })
}

/// The third to the fifth step.
fn last_steps(alloc: Global, params: u32, pair: Pair) -> Result<Pair, AllocError>
    requires room { first_new_of pair.state + 65536 ≤ 2 ^ 32 }
    ensures { IfOk result (λ made. made ≡ lose_in_pair_of params (lose_equations_of params (make_existential_of params pair))) }
{
    let counts = times_of_heap(alloc, &pair.missing)?;
    let pair = make_existential(alloc, params, &counts, pair)?;
    let pair = lose_equations(alloc, params, &counts, pair)?;
    lose_in_pair(alloc, params, pair)
}

/// First step: the four rules in the state.
fn reduce_state(
    alloc: Global,
    structs: &[StructDef],
    mark: &HeadMark,
    pair: &Pair,
) -> Result<Pair, AllocError>
    requires room { HasRoom pair.now.state }
    requires few { HaveFewFields pair.now.state.heap.spatial }
    ensures { IfOk result (λ made. made ≡ reduce_state_of structs.now mark.now pair.now) }
{
    Ok(Pair {
        missing: copy_of(&pair.missing)?,
        state: at_head(alloc, structs, mark, &pair.state)?,
    })
}

/// A pair in normal and then in canonical form; None where one of its parts is a contradiction.
fn pair_in_forms(alloc: Global, params: u32, pair: &Pair) -> Result<Option<Pair>, AllocError>
    ensures { IfOk result (λ made. made ≡ pair_in_forms_of params pair.now) }
{
    match pair_form(alloc, params, pair)? {
        None => Ok(None),
        Some(form) => Ok(Some(canon_pair(alloc, &form.missing, &form.state, params)?)),
    }
}

/// The abstraction of a pair of a missing heap and a state at the head of a loop: the five steps, once and in order, and then
/// its normal and canonical form. None where one of its parts is a contradiction. Each candidate is executed again without
/// abduction, so no law that this weakens is owed. The sizes are those of each well-formed pair. The only error is want of memory.
pub fn abstract_pair(
    alloc: Global,
    pair: &Pair,
    flow: &Flow,
    mark: &HeadMark,
    structs: &[StructDef],
) -> Result<Option<Pair>, AllocError>
    requires missing { HaveFewFields pair.now.missing.spatial }
    requires state { IsWithinRoom pair.now.state }
    requires params { length flow.now.params < 2 ^ 32 }
    ensures { IfOk result (λ made. made ≡ abstract_pair_of pair.now flow.now mark.now structs.now) }
{
    let params = flow.params.len() as u32;
    let reduced = reduce_state(alloc, structs, mark, pair)?;
    let joined = join_pair(alloc, params, reduced)?;
    let stepped = last_steps(alloc, params, joined)?;
    pair_in_forms(alloc, params, &stepped)
}

/// A missing heap beside a state that says nothing.
fn beside_nothing(alloc: Global, missing: &SymHeap) -> Result<Pair, AllocError>
    ensures { IfOk result (λ pair. pair ≡ beside_nothing_of missing.now) }
{
    Ok(Pair {
        missing: copy_of(missing)?,
        state: SymState {
            locals: Row::new(alloc),
            heap: SymHeap {
                pure: Row::new(alloc),
                spatial: Row::new(alloc),
            },
        },
    })
}

/// The abstraction of a candidate of a recursive component with so many parameters: joined at its logical variables that are
/// no parameters, and then in normal and canonical form. None where it is a contradiction. The cells of each well-formed heap
/// have few fields ([`have_few_fields`](crate::have_few_fields)). The only error is want of memory.
pub fn abstract_pre(
    alloc: Global,
    missing: &SymHeap,
    params: u32,
) -> Result<Option<SymHeap>, AllocError>
    requires { HaveFewFields missing.now.spatial }
    ensures { IfOk result (λ made. made ≡ abstract_pre_of missing.now params) }
{
    let pair = join_pair(alloc, params, beside_nothing(alloc, missing)?)?;
    match pair_in_forms(alloc, params, &pair)? {
        None => Ok(None),
        Some(made) => Ok(Some(made.missing)),
    }
}
