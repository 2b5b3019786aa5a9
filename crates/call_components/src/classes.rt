//! The classes of procedures that call one another, by their kinds: numbers are of one kind where each reaches the other.
ghost use Rattle.std.specs.Prelude.{◌≡◌, ◌≢◌, ℕ, ◌<◌, length, All, AllPairs, IfOk, OnOk, slice_index_or};
ghost use Rattle.std.specs.declared.option.Option.TheVariants.{None, Some};
ghost use Rattle.call_components.specs.Reaching.{rows};
ghost use Rattle.call_components.specs.Tables.{classes_in, put_list, put_slot, same_kind};

use std::alloc::{AllocError, Global};

/// The kind of a number.
fn kind_of(kinds: &[usize], number: u32) -> usize
    ensures { result ≡ slice_index_or kinds.now number 0 }
{
    match kinds.get(number as usize) {
        Some(kind) => *kind,
        None => 0,
    }
}

/// Whether two numbers are of one kind.
pub fn are_of_kind(kinds: &[usize], one: u32, other: u32) -> bool
    ensures { result ≡ same_kind kinds.now one other }
{
    kind_of(kinds, one) == kind_of(kinds, other)
}

/// Puts a number into the class of its kind, or begins one with it.
fn put(
    alloc: Global,
    kind: usize,
    number: u32,
    slots: &mut Vec<Option<usize>>,
    classes: &mut Vec<Vec<u32>>,
) -> Result<(), AllocError>
    requires kind { kind < length slots.old.items }
    requires places { (place : ℕ) → slice_index_or slots.old.items kind None ≡ Some place → place < length classes.old.items }
    ensures lists { OnOk result
        (rows classes.new.items ≡ put_list (slice_index_or slots.old.items kind None) number (rows classes.old.items)) }
    ensures slots { OnOk result
        (slots.new.items ≡ put_slot (slice_index_or slots.old.items kind None) kind (length classes.old.items) slots.old.items) }
{
    match slots[kind] {
        Some(place) => classes[place].push(number)?,
        None => {
            let place = classes.len();
            classes.push(Vec::from_slice(alloc, &[number])?)?;
            slots[kind] = Some(place);
        }
    }
    Ok(())
}

/// Each class once, in order of their first members. The kinds are below the count. It takes time in proportion to the order and the
/// count.
pub fn classes_of_kinds(
    alloc: Global,
    kinds: &[usize],
    count: usize,
    order: &[u32],
) -> Result<Vec<Vec<u32>>, AllocError>
    requires below { All (λ kind. kind < count) kinds.now }
    requires order { All (λ number. number < length kinds.now) order.now }
    requires apart { AllPairs (λ one other. one ≢ other) order.now }
    ensures { IfOk result (λ classes. rows classes.items ≡ classes_in kinds.now order.now) }
{
    let mut slots: Vec<Option<usize>> = vec![in alloc; None; count]?;
    let mut classes: Vec<Vec<u32>> = Vec::new(alloc);
    for number in order {
        put(
            alloc,
            kind_of(kinds, *number),
            *number,
            &mut slots,
            &mut classes,
        )?;
    }
    Ok(classes)
}
