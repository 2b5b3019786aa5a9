//! Whom the components of a program call outside of themselves: each procedure, in order of the names, goes to the components that
//! call it.
ghost use Rattle.std.specs.Prelude.{
  ◌≡◌,
  ◌≢◌,
  [],
  ◌<◌,
  ◌==◌,
  if◌then◌else◌,
  map,
  length,
  replicate,
  All,
  AllPairs,
  IfOk,
  OnOk,
  slice_index_or,
  slice_set,
};
ghost use Rattle.call_components.specs.Reaching.{AreDefined, rows};
ghost use Rattle.composed_keys.specs.Outside.{AreAhead, AreCallers, AreNoted, ArePlaced, ArePutBy, noted_once, outers};
ghost use Rattle.composed_keys.specs.Rows.{outer_in};

use crate::rows::{Component, Outer};
use call_components::calls::{callees_of, empty_rows};
use std::alloc::{AllocError, Global};

/// Puts a caller behind those of each of its callees.
#[tactic(auto, using(crate::proofs::Called::more_noted))]
fn note_caller(callees: &[u32], caller: u32, callers: &mut Vec<Vec<u32>>) -> Result<(), AllocError>
    requires { All (λ callee. callee < length callers.old.items) callees.now }
    ensures lengths { OnOk result (length callers.new.items ≡ length callers.old.items) }
    ensures noted { OnOk result (AreNoted callees.now caller (rows callers.old.items) (rows callers.new.items)) }
{
    for callee in callees {
        callers[*callee as usize].push(caller)?;
    }
    Ok(())
}

/// Who calls each procedure.
fn callers_of(alloc: Global, calls: &[Vec<u32>]) -> Result<Vec<Vec<u32>>, AllocError>
    requires small { length calls.now < 4294967296 }
    requires defined { AreDefined (rows calls.now) }
    ensures { IfOk result (λ callers. AreCallers (rows calls.now) (rows callers.items)) }
{
    let mut callers = empty_rows(alloc, calls.len())?;
    for caller in 0..calls.len() as u32 {
        note_caller(callees_of(calls, caller), caller, &mut callers)?;
    }
    Ok(callers)
}

/// Puts a procedure behind those that a component calls outside, unless it is the last of them.
fn note_once(component: &mut Component, outer: Outer) -> Result<(), AllocError>
    ensures members { OnOk result (component.new.members.items ≡ component.old.members.items) }
    ensures outer { OnOk result (component.new.outer.items ≡ noted_once component.old.outer.items outer) }
{
    match component.outer.last() {
        Some(last) => {
            if last.number != outer.number {
                component.outer.push(outer)?;
            }
        }
        None => component.outer.push(outer)?,
    }
    Ok(())
}

/// Puts a procedure behind those that the component at a place calls outside, unless it is the procedure's own one.
fn note_at(place: u32, outer: Outer, made: &mut Vec<Component>) -> Result<(), AllocError>
    requires { place < length made.old.items }
    ensures members { OnOk result (map (λ row. row.members.items) made.new.items ≡ map (λ row. row.members.items) made.old.items) }
    ensures outer { OnOk result
        (outers made.new.items
        ≡ (if place == outer.component then outers made.old.items else slice_set (outers made.old.items) place
        (noted_once (slice_index_or (outers made.old.items) place []) outer))) }
{
    if place == outer.component {
        return Ok(());
    }
    note_once(&mut made[place as usize], outer)
}

/// Puts a procedure behind those that the components of its callers call outside.
fn note_outer(
    places: &[u32],
    callers: &[u32],
    outer: Outer,
    made: &mut Vec<Component>,
) -> Result<(), AllocError>
    requires callers { All (λ caller. caller < length places.now) callers.now }
    requires places { All (λ place. place < length made.old.items) places.now }
    requires ahead { AreAhead outer.number made.old.items }
    ensures members { OnOk result (map (λ row. row.members.items) made.new.items ≡ map (λ row. row.members.items) made.old.items) }
    ensures outer { OnOk result (ArePutBy places.now callers.now outer (outers made.old.items) (outers made.new.items)) }
{
    for caller in callers {
        note_at(places[*caller as usize], outer, made)?;
    }
    Ok(())
}

/// Components of these members, which call nobody outside yet.
fn alone(alloc: Global, all: Vec<Vec<u32>>) -> Result<Vec<Component>, AllocError>
    ensures members { IfOk result (λ made. map (λ row. row.members.items) made.items ≡ rows all.items) }
    ensures outer { IfOk result (λ made. outers made.items ≡ replicate (length all.items) []) }
{
    let mut made = Vec::with_capacity(alloc, all.len())?;
    for members in all {
        made.push(Component {
            members,
            outer: Vec::new(alloc),
        })?;
    }
    Ok(made)
}

/// The components of these classes. It takes time in proportion to the procedures and the calls.
pub fn rows_of(
    alloc: Global,
    calls: &[Vec<u32>],
    places: &[u32],
    order: &[u32],
    all: Vec<Vec<u32>>,
) -> Result<Vec<Component>, AllocError>
    requires small { length calls.now < 4294967296 }
    requires defined { AreDefined (rows calls.now) }
    requires places { ArePlaced (rows all.items) (length calls.now) places.now }
    requires order { All (λ number. number < length calls.now) order.now }
    requires apart { AllPairs (λ one other. one ≢ other) order.now }
    ensures members { IfOk result (λ made. map (λ row. row.members.items) made.items ≡ rows all.items) }
    ensures outer { IfOk result (λ made. outers made.items ≡ map (outer_in (rows calls.now) places.now order.now) (rows all.items)) }
{
    let callers = callers_of(alloc, calls)?;
    let mut made = alone(alloc, all)?;
    for number in order {
        let outer = Outer {
            number: *number,
            component: places[*number as usize],
        };
        note_outer(places, callees_of(&callers, *number), outer, &mut made)?;
    }
    Ok(made)
}
