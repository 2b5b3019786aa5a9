//! The search for classes: a depth-first walk over all numbers that puts open numbers together as soon as they call one another
//! (Gabow 2000). It takes time in proportion to the numbers and the calls.
ghost use Rattle.std.specs.Prelude.{
  ◌≡◌,
  ◌≢◌,
  ℕ,
  ◌+◌,
  ◌-◌,
  ◌<◌,
  ◌≤◌,
  ◌++◌,
  ◌∷◌,
  [],
  if◌then◌else◌,
  length,
  map,
  take,
  All,
  IfOk,
  OnOk,
  slice_get,
  slice_set,
};
ghost use Rattle.std.specs.declared.option.Option.TheVariants.{Some};
ghost use Rattle.call_components.specs.declared.marks.Entry.{Entry as Set};
ghost use Rattle.call_components.specs.Searching.{
  AreClassed,
  AreMerged,
  AreMet,
  AreRising,
  IsLast,
  IsSearch,
  IsSearched,
  kind_of_mark,
  mark_of,
  work_left,
};
ghost use Rattle.call_components.specs.Reaching.{AreDefined, rows};
ghost use Rattle.call_components.specs.Tables.{AreKinds};
ghost use Rattle.component_keys.specs.Components.{calls_of, holds};

use crate::calls::callees_of;
use crate::marks::{Entry, Mark, Search};
use std::alloc::{AllocError, Global};

/// Puts a number that is met on the stack, as a set of its own, and its calls behind those to follow.
fn visit(calls: &[Vec<u32>], search: &mut Search, number: u32) -> Result<(), AllocError>
    requires { number < length search.old.marks.items }
    ensures marks { OnOk result
        (search.new.marks.items ≡ slice_set search.old.marks.items number (Mark.Open (length search.old.stack.items))) }
    ensures stack { OnOk result (search.new.stack.items ≡ search.old.stack.items ++ number ∷ []) }
    ensures entries { OnOk result
        (search.new.entries.items
        ≡ search.old.entries.items ++ record { first = length search.old.stack.items; todo = length search.old.todo.items } ∷ []) }
    ensures todo { OnOk result (search.new.todo.items ≡ search.old.todo.items ++ calls_of (rows calls.now) number) }
    ensures done { search.new.done.items ≡ search.old.done.items }
{
    let first = search.stack.len();
    let todo = search.todo.len();
    search.stack.push(number)?;
    search.entries.push(Entry { first, todo })?;
    search.todo.extend_from_slice(callees_of(calls, number))?;
    search.marks[number as usize] = Mark::Open(first);
    Ok(())
}

/// How many sets begin at a place or before it.
fn count_up_to(entries: &[Entry], place: usize) -> usize
    requires { AreRising entries.now }
    ensures within { result ≤ length entries.now }
    ensures low { (i : ℕ) (entry : Set) → slice_get entries.now i ≡ Some entry → i < result → entry.first ≤ place }
    ensures high { (i : ℕ) (entry : Set) → slice_get entries.now i ≡ Some entry → result ≤ i → place < entry.first }
{
    for index in (0..entries.len()).rev() {
        if entries[index].first <= place {
            return index + 1;
        }
    }
    0
}

/// Puts the sets that begin behind a place together with the one that holds it.
fn merge(entries: &mut Vec<Entry>, place: usize)
    requires { AreRising entries.old.items }
    ensures { AreMerged place entries.old.items entries.new.items }
{
    let kept = count_up_to(entries, place);
    entries.truncate(kept);
}

/// Gives the numbers from a place of the stack on a class.
#[tactic(auto, using(crate::proofs::Turns::more_classed))]
fn class_all(numbers: &[u32], class: usize, marks: &mut Vec<Mark>)
    requires { All (λ number. number < length marks.old.items) numbers.now }
    ensures lengths { length marks.new.items ≡ length marks.old.items }
    ensures classed { (number : ℕ)
        → mark_of marks.new.items number ≡ (if holds numbers.now number then Mark.Done class else mark_of marks.old.items number) }
{
    for number in numbers {
        marks[*number as usize] = Mark::Done(class);
    }
}

/// Ends the set that begins at a place of the stack: its numbers are a class.
fn close(search: &mut Search, first: usize) -> Result<(), AllocError>
    requires first { first < length search.old.stack.items }
    requires numbers { All (λ number. number < length search.old.marks.items) search.old.stack.items }
    ensures lengths { OnOk result (length search.new.marks.items ≡ length search.old.marks.items) }
    ensures classed { OnOk result
        (AreClassed first (length search.old.done.items) search.old.stack.items search.old.marks.items search.new.marks.items) }
    ensures stack { OnOk result (search.new.stack.items ≡ take first search.old.stack.items) }
    ensures entries { OnOk result (search.new.entries.items ≡ take (length search.old.entries.items - 1) search.old.entries.items) }
    ensures todo { search.new.todo.items ≡ search.old.todo.items }
    ensures done { OnOk result (length search.new.done.items ≡ length search.old.done.items + 1) }
{
    let class = search.done.len();
    let root = search.stack[first];
    search.done.push(root)?;
    class_all(&search.stack[first..], class, &mut search.marks);
    search.stack.truncate(first);
    let _closed = search.entries.pop();
    Ok(())
}

/// Follows a call, or ends the last set where all its calls were followed.
fn turn(calls: &[Vec<u32>], search: &mut Search, top: Entry) -> Result<(), AllocError>
    requires defined { AreDefined (rows calls.now) }
    requires search { IsSearch (rows calls.now) search.old }
    requires top { IsLast search.old.entries.items top }
    ensures search { OnOk result (IsSearch (rows calls.now) search.new) }
    ensures met { OnOk result (AreMet search.old.marks.items search.new.marks.items) }
    ensures less { OnOk result (work_left (rows calls.now) search.new < work_left (rows calls.now) search.old) }
{
    if search.todo.len() <= top.todo {
        return close(search, top.first);
    }
    let Some(number) = search.todo.pop() else {
        return Ok(());
    };
    match search.marks[number as usize] {
        Mark::Done(_) => Ok(()),
        Mark::Open(place) => {
            merge(&mut search.entries, place);
            Ok(())
        }
        Mark::New => visit(calls, search, number),
    }
}

/// Walks from a number that was not met, until no number is open.
fn walk(calls: &[Vec<u32>], search: &mut Search, root: u32) -> Result<(), AllocError>
    requires defined { AreDefined (rows calls.now) }
    requires search { IsSearch (rows calls.now) search.old }
    requires closed { search.old.entries.items ≡ [] }
    requires root { root < length calls.now }
    requires new { mark_of search.old.marks.items root ≡ Mark.New }
    ensures search { OnOk result (IsSearch (rows calls.now) search.new) }
    ensures closed { OnOk result (search.new.entries.items ≡ []) }
    ensures met { OnOk result (AreMet search.old.marks.items search.new.marks.items) }
    ensures root { OnOk result (mark_of search.new.marks.items root ≢ Mark.New) }
{
    visit(calls, search, root)?;
    while let Some(top) = search.entries.last() {
        let top = *top;
        turn(calls, search, top)?;
    }
    Ok(())
}

/// The kind that a mark tells.
fn kind_of(mark: &Mark) -> usize
    ensures { result ≡ kind_of_mark mark.now }
{
    match mark {
        Mark::Done(class) => *class,
        Mark::New => 0,
        Mark::Open(_) => 0,
    }
}

/// The kinds that marks tell.
fn read_kinds(alloc: Global, marks: &[Mark]) -> Result<Vec<usize>, AllocError>
    ensures { IfOk result (λ kinds. kinds.items ≡ map kind_of_mark marks.now) }
{
    marks.iter().map(kind_of).collect(alloc)
}

/// Searches all numbers. `calls` has a row for each number.
fn searched(alloc: Global, calls: &[Vec<u32>]) -> Result<Search, AllocError>
    requires small { length calls.now < 4294967296 }
    requires defined { AreDefined (rows calls.now) }
    ensures { IfOk result (IsSearched (rows calls.now)) }
{
    let mut search = Search {
        marks: vec![in alloc; Mark::New; calls.len()]?,
        stack: Vec::new(alloc),
        entries: Vec::new(alloc),
        todo: Vec::new(alloc),
        done: Vec::new(alloc),
    };
    for number in 0..calls.len() as u32 {
        match search.marks[number as usize] {
            Mark::New => walk(calls, &mut search, number)?,
            Mark::Open(_) => {}
            Mark::Done(_) => {}
        }
    }
    Ok(search)
}

/// The kind of each number, the same for those that reach each other, and a number above all of them.
pub fn kinds_below(alloc: Global, calls: &[Vec<u32>]) -> Result<(Vec<usize>, usize), AllocError>
    requires small { length calls.now < 4294967296 }
    requires defined { AreDefined (rows calls.now) }
    ensures kinds { IfOk result (λ found. AreKinds (rows calls.now) found.0.items) }
    ensures below { IfOk result (λ found. All (λ kind. kind < found.1) found.0.items) }
{
    let search = searched(alloc, calls)?;
    let kinds = read_kinds(alloc, &search.marks)?;
    Ok((kinds, search.done.len()))
}
