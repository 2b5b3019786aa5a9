//! The order of the classes: next is always the first one, by its least name, whose callees are all listed.
ghost use Rattle.std.specs.Prelude.{◌≡◌, ◌<◌, length, All, IfOk};
ghost use Rattle.call_components.specs.Reaching.{marked, rows};
ghost use Rattle.call_components.specs.Tables.{AreAllMarked, AreKinds, classes_in};
ghost use Rattle.component_keys.specs.Components.{by_name, components};
ghost use Rattle.component_keys.specs.Laws.{IsCallGraph};

use crate::classes::classes_of_kinds;
use crate::order::in_order;
use crate::search::kinds_below;
use crate::waiting::{first_ready, waiting_for, wake_each};
use shape_data::Name;
use std::alloc::{AllocError, Global};

/// Marks the numbers.
#[tactic(auto, using(crate::proofs::ListedByMarks::more_marked))]
pub fn mark_all(numbers: &[u32], marks: &mut Vec<bool>)
    requires { All (λ number. number < length marks.old.items) numbers.now }
    ensures lengths { length marks.new.items ≡ length marks.old.items }
    ensures marked { AreAllMarked numbers.now marks.old.items marks.new.items }
{
    for number in numbers {
        marks[*number as usize] = true;
    }
}

/// The classes in the order in which their callees are listed before them.
fn in_call_order(
    alloc: Global,
    names: &[Name],
    calls: &[Vec<u32>],
    kinds: &[usize],
    all: &[Vec<u32>],
) -> Result<Vec<Vec<u32>>, AllocError>
    requires small { length names.now < 4294967296 }
    requires graph { IsCallGraph names.now (rows calls.now) }
    requires kinds { AreKinds (rows calls.now) kinds.now }
    requires all { rows all.now ≡ classes_in kinds.now (by_name names.now (length names.now)) }
    ensures { IfOk result (λ listed. rows listed.items ≡ components names.now (rows calls.now)) }
{
    let mut marks = vec![in alloc; false; calls.len()]?;
    let mut waiting = waiting_for(alloc, calls, kinds, all, &marks)?;
    let mut listed: Vec<Vec<u32>> = Vec::with_capacity(alloc, all.len())?;
    for _turn in 0..names.len() {
        let Some(place) = first_ready(&marks, all, &mut waiting.ready) else {
            return Ok(listed);
        };
        let class = Vec::from_slice(alloc, &all[place])?;
        mark_all(&class, &mut marks);
        wake_each(alloc, &marks, &class, &mut waiting)?;
        listed.push(class)?;
    }
    Ok(listed)
}

/// The same as `components`, where the numbers are given in order of their names.
pub fn ordered_components(
    alloc: Global,
    names: &[Name],
    calls: &[Vec<u32>],
    order: &[u32],
) -> Result<Vec<Vec<u32>>, AllocError>
    requires small { length names.now < 4294967296 }
    requires graph { IsCallGraph names.now (rows calls.now) }
    requires order { order.now ≡ by_name names.now (length names.now) }
    ensures { IfOk result (λ all. rows all.items ≡ components names.now (rows calls.now)) }
{
    let (kinds, count) = kinds_below(alloc, calls)?;
    let all = classes_of_kinds(alloc, &kinds, count, order)?;
    in_call_order(alloc, names, calls, &kinds, &all)
}

/// The components of the procedures of these names: the classes of those that call one another, each in order of its members' names.
/// `calls` has a row for each procedure, with the numbers of those that it calls. Next in the list is always, among the classes whose
/// callees are all listed, the one whose least member name is least by bytes.
pub fn components(
    alloc: Global,
    names: &[Name],
    calls: &[Vec<u32>],
) -> Result<Vec<Vec<u32>>, AllocError>
    requires small { length names.now < 4294967296 }
    requires graph { IsCallGraph names.now (rows calls.now) }
    ensures { IfOk result (λ all. rows all.items ≡ components names.now (rows calls.now)) }
{
    let order = in_order(alloc, names)?;
    ordered_components(alloc, names, calls, &order)
}
