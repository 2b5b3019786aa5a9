//! Which classes may be listed, and for whom each of the others waits. A class waits for one at a time of those that it calls outside of
//! itself, and is looked at again when that one is listed; so each call is looked at once.
ghost use Rattle.std.specs.Prelude.{◌≡◌, ◌∷◌, ◌++◌, [], List, ℕ, ◌<◌, true, false, map, length, All, IfNone, IfOk, IfSome, OnOk};
ghost use Rattle.std.specs.List.{list_any};
ghost use Rattle.component_keys.specs.Components.{holds};
ghost use Rattle.call_components.specs.Reaching.{AreDefined, marked, rows};
ghost use Rattle.call_components.specs.Sorting.{below};
ghost use Rattle.call_components.specs.Waiting.{
  AreNeeded,
  AreWaiting,
  IsBounded,
  IsFirst,
  calls_outside,
  is_listed as is_listed_in,
  outside_of,
  places_in,
};

use crate::calls::{callees_of, empty_rows};
use crate::classes::are_of_kind;
use crate::places::Places;
use crate::reach::is_marked;
use std::alloc::{AllocError, Global};
use std::mem;

/// The classes that are not listed.
#[derive(Drop)]
pub struct Waiting {
    /// For each class, whom it calls outside of itself, without some of those that are listed.
    pub needs: Vec<Vec<u32>>,
    /// For each number, the places of the classes that wait until it is listed.
    pub waits: Vec<Vec<usize>>,
    /// The places of the classes that may be listed, and of some that are.
    pub ready: Places,
}

/// Puts whom a number calls of another kind behind the row.
fn add_outside(
    calls: &[Vec<u32>],
    kinds: &[usize],
    number: u32,
    row: &mut Vec<u32>,
) -> Result<(), AllocError>
    ensures { OnOk result (row.new.items ≡ row.old.items ++ calls_outside kinds.now (rows calls.now) number) }
{
    let callees = callees_of(calls, number);
    for callee in callees {
        if !are_of_kind(kinds, *callee, number) {
            row.push(*callee)?;
        }
    }
    Ok(())
}

/// Whom a class calls outside of itself.
fn outside(
    alloc: Global,
    calls: &[Vec<u32>],
    kinds: &[usize],
    class: &[u32],
) -> Result<Vec<u32>, AllocError>
    ensures { IfOk result (λ row. row.items ≡ outside_of kinds.now (rows calls.now) class.now) }
{
    let mut row: Vec<u32> = Vec::new(alloc);
    for number in class {
        add_outside(calls, kinds, *number, &mut row)?;
    }
    Ok(row)
}

/// Whom each class calls outside of itself.
fn all_outside(
    alloc: Global,
    calls: &[Vec<u32>],
    kinds: &[usize],
    all: &[Vec<u32>],
) -> Result<Vec<Vec<u32>>, AllocError>
    ensures { IfOk result (λ made. rows made.items ≡ map (outside_of kinds.now (rows calls.now)) (rows all.now)) }
{
    let mut made: Vec<Vec<u32>> = Vec::with_capacity(alloc, all.len())?;
    for class in all {
        made.push(outside(alloc, calls, kinds, class)?)?;
    }
    Ok(made)
}

/// The places below.
fn places_below(alloc: Global, count: usize) -> Result<Vec<usize>, AllocError>
    ensures { IfOk result (λ places. places.items ≡ below count) }
{
    let mut places: Vec<usize> = Vec::with_capacity(alloc, count)?;
    for place in 0..count {
        places.push(place)?;
    }
    Ok(places)
}

/// Forgets numbers at the end of the row that are listed, and tells the first one from there that is not.
fn last_missing(listed: &[bool], row: &mut Vec<u32>) -> Option<u32>
    ensures needed { AreNeeded listed.now row.old.items row.new.items }
    ensures none { IfNone result (row.new.items ≡ []) }
    ensures missing { IfSome result (λ number. marked listed.now number ≡ false) }
    ensures there { IfSome result (λ number. holds row.new.items number ≡ true) }
{
    while let Some(number) = row.last() {
        let number = *number;
        if !is_marked(listed, number as usize) {
            return Some(number);
        }
        let _listed = row.pop();
    }
    None
}

/// Puts a class among those that may be listed, or lets it wait for one that it calls.
fn look_at(listed: &[bool], place: usize, waiting: &mut Waiting) -> Result<(), AllocError>
    requires bounded { IsBounded (length waiting.old.needs.items) (length waiting.old.waits.items) waiting.old }
    requires place { place < length waiting.old.needs.items }
    ensures bounded { OnOk result (IsBounded (length waiting.old.needs.items) (length waiting.old.waits.items) waiting.new) }
    ensures looked { OnOk result
        ((all outs : List (List ℕ)) (wakes rest : List ℕ) → AreWaiting all outs listed.now wakes (place ∷ rest) waiting.old
        → AreWaiting all outs listed.now wakes rest waiting.new) }
{
    match last_missing(listed, &mut waiting.needs[place]) {
        Some(number) => waiting.waits[number as usize].push(place)?,
        None => waiting.ready.add(place)?,
    }
    Ok(())
}

/// Looks at each of the classes at these places.
fn look_at_each(listed: &[bool], places: &[usize], waiting: &mut Waiting) -> Result<(), AllocError>
    requires bounded { IsBounded (length waiting.old.needs.items) (length waiting.old.waits.items) waiting.old }
    requires places { All (λ place. place < length waiting.old.needs.items) places.now }
    ensures bounded { OnOk result (IsBounded (length waiting.old.needs.items) (length waiting.old.waits.items) waiting.new) }
    ensures looked { OnOk result
        ((all outs : List (List ℕ)) (wakes : List ℕ) → AreWaiting all outs listed.now wakes places.now waiting.old
        → AreWaiting all outs listed.now wakes [] waiting.new) }
{
    for place in places {
        look_at(listed, *place, waiting)?;
    }
    Ok(())
}

/// The classes, none of which is listed, by whom they call outside of themselves.
pub fn waiting_for(
    alloc: Global,
    calls: &[Vec<u32>],
    kinds: &[usize],
    all: &[Vec<u32>],
    listed: &[bool],
) -> Result<Waiting, AllocError>
    requires { AreDefined (rows calls.now) }
    ensures bounded { IfOk result (IsBounded (length all.now) (length calls.now)) }
    ensures waiting { IfOk result
        (AreWaiting (rows all.now) (map (outside_of kinds.now (rows calls.now)) (rows all.now)) listed.now [] []) }
{
    let mut waiting = Waiting {
        needs: all_outside(alloc, calls, kinds, all)?,
        waits: empty_rows(alloc, calls.len())?,
        ready: Places::new(alloc),
    };
    let places = places_below(alloc, all.len())?;
    look_at_each(listed, &places, &mut waiting)?;
    Ok(waiting)
}

/// Looks at the classes that wait for a number, which is listed now.
fn wake(
    alloc: Global,
    listed: &[bool],
    number: u32,
    waiting: &mut Waiting,
) -> Result<(), AllocError>
    requires bounded { IsBounded (length waiting.old.needs.items) (length waiting.old.waits.items) waiting.old }
    requires number { number < length waiting.old.waits.items }
    ensures bounded { OnOk result (IsBounded (length waiting.old.needs.items) (length waiting.old.waits.items) waiting.new) }
    ensures woken { OnOk result
        ((all outs : List (List ℕ)) (wakes : List ℕ) → AreWaiting all outs listed.now (number ∷ wakes) [] waiting.old
        → AreWaiting all outs listed.now wakes [] waiting.new) }
{
    let places = mem::replace(&mut waiting.waits[number as usize], Vec::new(alloc));
    look_at_each(listed, &places, waiting)
}

/// Looks at the classes that wait for these numbers, which are listed now.
pub fn wake_each(
    alloc: Global,
    listed: &[bool],
    numbers: &[u32],
    waiting: &mut Waiting,
) -> Result<(), AllocError>
    requires bounded { IsBounded (length waiting.old.needs.items) (length waiting.old.waits.items) waiting.old }
    requires numbers { All (λ number. number < length waiting.old.waits.items) numbers.now }
    ensures bounded { OnOk result (IsBounded (length waiting.old.needs.items) (length waiting.old.waits.items) waiting.new) }
    ensures woken { OnOk result
        ((all outs : List (List ℕ)) → AreWaiting all outs listed.now numbers.now [] waiting.old
        → AreWaiting all outs listed.now [] [] waiting.new) }
{
    for number in numbers {
        wake(alloc, listed, *number, waiting)?;
    }
    Ok(())
}

/// Whether a member of a class is listed.
fn is_listed(listed: &[bool], class: &[u32]) -> bool
    ensures { result ≡ list_any (marked listed.now) class.now }
{
    class
        .iter()
        .any(|number| is_marked(listed, *number as usize))
}

/// Takes the place of the first class among those that are ready and not listed.
pub fn first_ready(listed: &[bool], all: &[Vec<u32>], ready: &mut Places) -> Option<usize>
    requires { (place : ℕ) → holds (places_in ready.old) place ≡ true → place < length all.now }
    ensures { IsFirst listed.now (rows all.now) (places_in ready.old) (places_in ready.new) result }
{
    while let Some(place) = ready.take() {
        if !is_listed(listed, &all[place]) {
            return Some(place);
        }
    }
    None
}
