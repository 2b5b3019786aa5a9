//! The keys of components, over what a table has of their callees.
ghost use Rattle.std.specs.Prelude.{◌≡◌, ◌<◌, map, length, All, IfOk};
ghost use Rattle.std.specs.List.{filter_map};
ghost use Rattle.std.specs.Option.{option_copied};
ghost use Rattle.bottom_up.specs.BottomUp.{specs_known};
ghost use Rattle.component_keys.specs.Keys.{flows_of};
ghost use Rattle.composed_keys.specs.Rows.{component_value, outer_value};
ghost use Rattle.composed_keys.specs.Used.{AreStructures};
ghost use Rattle.session_replies.specs.PlainAnswers.Table.{answer_at, callee_as, callee_over, entry_answer, key_by};

use composed_keys::{Component, Outer, Structures, callee_with, key_of, specs_of};
use shape_data::answer::{Answer, Callee, Kept, Key};
use shape_data::program::{Flow, Program};
use shape_data::symbolic::Spec;
use shape_data::{Name, Row};
use std::alloc::{AllocError, Global};

/// The answer of an entry, where there is one.
fn answer_in(entry: &Option<Kept>) -> Option<&Answer>
    ensures { option_copied result ≡ entry_answer entry.now }
{
    match entry {
        Some(kept) => {
            let answer: &Answer = &kept.answer;
            Some(answer)
        }
        None => None,
    }
}

/// The answer that a table has of a component.
fn answer_of(table: &[Option<Kept>], component: u32) -> Option<&Answer>
    ensures { option_copied result ≡ answer_at table.now component }
{
    match table.get(component as usize) {
        Some(entry) => answer_in(entry),
        None => None,
    }
}

/// The specs that the answer of a component has for the procedure of a name; none where there is no answer.
fn specs_by(alloc: Global, answer: Option<&Answer>, name: &Name) -> Result<Row<Spec>, AllocError>
    ensures { IfOk result (λ specs. specs ≡ specs_known (option_copied answer.entry) name.now) }
{
    match answer {
        Some(answer) => specs_of(alloc, answer, name),
        None => Ok(Row::new(alloc)),
    }
}

/// A procedure as a callee, with the specs that its component's answer has for it.
fn callee_by(alloc: Global, flow: &Flow, answer: Option<&Answer>) -> Result<Callee, AllocError>
    ensures { IfOk result (λ callee. callee ≡ callee_as flow.now (option_copied answer.entry)) }
{
    let specs = specs_by(alloc, answer, &flow.name)?;
    callee_with(flow, specs)
}

/// The procedures outside of a component as callees.
fn callees_of(
    alloc: Global,
    program: &Program,
    table: &[Option<Kept>],
    outers: &[Outer],
) -> Result<Row<Callee>, AllocError>
    requires { All (λ outer. outer.number < length program.now.procs) outers.now }
    ensures { IfOk result (λ callees. callees
        ≡ map (callee_over (answer_at table.now)) (filter_map (outer_value (flows_of program.now)) outers.now)) }
{
    let mut callees = Row::new(alloc);
    for outer in outers {
        let flow = &program.procs[outer.number as usize].flow;
        let answer = answer_of(table, outer.component);
        callees.push(callee_by(alloc, flow, answer)?)?;
    }
    Ok(callees)
}

/// The key of a component, over what a table has of its callees.
pub fn key_in(
    alloc: Global,
    program: &Program,
    structures: &Structures,
    table: &[Option<Kept>],
    row: &Component,
) -> Result<Key, AllocError>
    requires structures { AreStructures program.now.structs structures.now }
    requires members { All (λ number. number < length program.now.procs) row.now.members.items }
    requires outer { All (λ outer. outer.number < length program.now.procs) row.now.outer.items }
    ensures { IfOk result (λ key. key ≡ key_by program.now.structs (answer_at table.now) (component_value (flows_of program.now) row.now)) }
{
    let callees = callees_of(alloc, program, table, &row.outer)?;
    key_of(alloc, program, structures, &row.members, callees)
}
