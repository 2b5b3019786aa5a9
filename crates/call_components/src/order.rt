//! Numbers in order of their names, and names looked up by them, where names may stand there more than once.
ghost use Rattle.std.specs.Prelude.{◌≡◌, [], ◌<◌, ◌≤◌, length, nat_eq, position, true, false, IfOk, slice_index_or};
ghost use Rattle.std.specs.List.Sorted.{IsPartitionPoint};
ghost use Rattle.std.specs.Cmp.Lexicographic.{pointwise};
ghost use Rattle.call_components.specs.Sorting.{is_ahead, name_rank};
ghost use Rattle.component_keys.specs.Components.{by_name};

use shape_data::Name;
use std::alloc::{AllocError, Global};
use std::cmp::Ordering;

/// The bytes of a number's name; what is outside has none.
pub fn name_of(names: &[Name], number: u32) -> &[u8]
    ensures { result.now ≡ slice_index_or names.now number [] }
{
    match names.get(number as usize) {
        Some(name) => name.as_bytes(),
        None => &[],
    }
}

/// How two numbers stand by their names, and by themselves where the names are the same.
fn compare(names: &[Name], one: u32, other: u32) -> Ordering
    ensures { result ≡ name_rank names.now one other }
{
    name_of(names, one)
        .cmp(&name_of(names, other))
        .then(one.cmp(&other))
}

/// The numbers of the names, in order of the names. It takes time in proportion to the names, times a logarithm.
pub fn in_order(alloc: Global, names: &[Name]) -> Result<Vec<u32>, AllocError>
    requires { length names.now < 4294967296 }
    ensures { IfOk result (λ order. order.items ≡ by_name names.now (length names.now)) }
{
    let mut order: Vec<u32> = Vec::with_capacity(alloc, names.len())?;
    for number in 0..names.len() as u32 {
        order.push(number)?;
    }
    order.sort_unstable_by(|one, other| compare(names, *one, *other));
    Ok(order)
}

/// How many numbers have names that stand ahead of this one.
fn count_ahead(names: &[Name], order: &[u32], name: &Name) -> usize
    requires { order.now ≡ by_name names.now (length names.now) }
    ensures bound { result ≤ length order.now }
    ensures parted { IsPartitionPoint (λ number. is_ahead names.now name.now number ≡ true)
        (λ number. is_ahead names.now name.now number ≡ false) order.now result }
{
    order.partition_point(|number| name_of(names, *number).cmp(&name.as_bytes()).is_lt())
}

/// The first number of a name, by the numbers in order of their names. Among n names it takes O(log n) comparisons of names.
pub fn first_named(names: &[Name], order: &[u32], name: &Name) -> Option<u32>
    requires { order.now ≡ by_name names.now (length names.now) }
    ensures { result ≡ position (λ other. pointwise nat_eq other name.now) names.now }
{
    let number = *order.get(count_ahead(names, order, name))?;
    if name_of(names, number) == name.as_bytes() {
        Some(number)
    } else {
        None
    }
}
