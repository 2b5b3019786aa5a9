//! Callees with the specs that the answers of their components have for them.
ghost use Rattle.std.specs.Prelude.{◌≡◌, ◌<◌, ◌↔◌, IsTrue, Some, None, All, IfOk, IsSome, length, map, slice_index_or};
ghost use Rattle.component_keys.specs.Keys.{specs_in};
ghost use Rattle.composed_keys.specs.Callees.{known_as};
ghost use Rattle.composed_keys.specs.declared.rows.Outer.{Outer as OuterRow};
ghost use Rattle.shape_data.specs.declared.answer.Callee.{Callee};
ghost use Rattle.summary_book.specs.Rows.{known_row, row_answer};

use crate::places::{row_answer, slot_at};
use crate::rows::SlotRow;
use claim_core::Event;
use composed_keys::{Outer, callee_of, summary_of};
use shape_data::answer::{Answer, Callee};
use shape_data::program::{Flow, Program};
use shape_data::symbolic::Spec;
use shape_data::{Name, Row, is_same};
use std::alloc::{AllocError, Global};

/// Whether an answer has these specs for the procedure of a name.
fn has_specs(answer: &Answer, name: &Name, specs: &Row<Spec>) -> bool
    ensures { IsTrue result ↔ (specs.now ≡ specs_in answer.now name.now) }
{
    match summary_of(answer, name) {
        Some(summary) => is_same(specs, &summary.specs),
        None => specs.is_empty(),
    }
}

/// Whether a callee is this procedure with the specs that the answer has for it.
fn is_callee(flow: &Flow, answer: &Answer, callee: &Callee) -> bool
    ensures { IsTrue result ↔ (callee.now ≡ known_as flow.now answer.now) }
{
    is_same(&callee.name, &flow.name)
        && is_same(&callee.params, &flow.params)
        && has_specs(answer, &flow.name, &callee.specs)
}

/// Whether a callee is what is known of a procedure outside.
fn is_known(
    program: &Program,
    log: &[Event],
    slots: &[Option<SlotRow>],
    outer: &Outer,
    callee: &Callee,
) -> bool
    requires { outer.now.number < length program.now.procs }
    ensures { IsTrue result ↔ (known_row program.now log.now slots.now outer.now ≡ Some callee.now) }
{
    match row_answer(log, slot_at(slots, outer.component as usize)) {
        Some(answer) => is_callee(&program.procs[outer.number as usize].flow, answer, callee),
        None => false,
    }
}

/// Whether callees are what is known of the procedures outside.
pub fn are_known(
    program: &Program,
    log: &[Event],
    slots: &[Option<SlotRow>],
    outer: &[Outer],
    callees: &[Callee],
) -> bool
    requires { All (λ (one : OuterRow). one.number < length program.now.procs) outer.now }
    ensures { IsTrue result
        ↔ (map (known_row program.now log.now slots.now) outer.now ≡ map (λ (callee : Callee). Some callee) callees.now) }
{
    if outer.len() != callees.len() {
        return false;
    }
    for (place, one) in outer.iter().enumerate() {
        if !is_known(program, log, slots, one, &callees[place]) {
            return false;
        }
    }
    true
}

/// What is known of a procedure outside.
fn known_callee(
    alloc: Global,
    program: &Program,
    log: &[Event],
    slots: &[Option<SlotRow>],
    outer: &Outer,
) -> Result<Callee, AllocError>
    requires number { outer.now.number < length program.now.procs }
    requires answered { IsSome (row_answer log.now (slice_index_or slots.now outer.now.component None)) }
    ensures { IfOk result (λ callee. known_row program.now log.now slots.now outer.now ≡ Some callee) }
{
    match row_answer(log, slot_at(slots, outer.component as usize)) {
        Some(answer) => callee_of(alloc, &program.procs[outer.number as usize].flow, answer),
        None => unreachable!(),
    }
}

/// What is known of procedures outside, all of which have answers.
pub fn known_callees(
    alloc: Global,
    program: &Program,
    log: &[Event],
    slots: &[Option<SlotRow>],
    outer: &[Outer],
) -> Result<Row<Callee>, AllocError>
    requires numbers { All (λ (one : OuterRow). one.number < length program.now.procs) outer.now }
    requires answered { All (λ (one : OuterRow). IsSome (row_answer log.now (slice_index_or slots.now one.component None))) outer.now }
    ensures { IfOk result (λ callees. map (known_row program.now log.now slots.now) outer.now
        ≡ map (λ (callee : Callee). Some callee) callees) }
{
    let mut callees = Row::new(alloc);
    for one in outer {
        callees.push(known_callee(alloc, program, log, slots, one)?)?;
    }
    Ok(callees)
}
