//! Which components of a program an aim reaches, by the rows of the components.
ghost use Rattle.std.specs.Prelude.{◌≡◌, ℕ, ◌<◌, IfOk, IfSome, length, slice_get};
ghost use Rattle.std.specs.List.{position};
ghost use Rattle.bottom_up.specs.Placed.{AreRows};
ghost use Rattle.call_components.specs.Reaching.{marked};
ghost use Rattle.component_keys.specs.Components.{holds, reached};
ghost use Rattle.composed_keys.specs.declared.rows.Component.{Component as ComponentRow};
ghost use Rattle.session_replies.specs.PlainAnswers.Table.{has_own_name, names_one};
ghost use Rattle.shape_data.specs.WellFormed.{IsProgram};
ghost use Rattle.summary_book.specs.Aims.{aimed, component_calls, component_with as component_named};

use call_components::reach::reach;
use composed_keys::{Component, calls_of};
use shape_data::Name;
use shape_data::program::Program;
use std::alloc::{AllocError, Global};
use summary_book::Aim;

/// Whether the procedure at a place of the program has the name.
fn is_named(program: &Program, number: u32, name: &Name) -> bool
    ensures { result ≡ has_own_name name.now (slice_get program.now.procs number) }
{
    match program.procs.get(number as usize) {
        Some(proc) => proc.flow.name == *name,
        None => false,
    }
}

/// Whether one of the procedures at these places has the name.
fn has_name(program: &Program, members: &[u32], name: &Name) -> bool
    ensures { result ≡ names_one program.now.procs name.now members.now }
{
    members
        .iter()
        .any(|number| is_named(program, *number, name))
}

/// The place of the component with a procedure of the name.
fn place_with(program: &Program, components: &[Component], name: &Name) -> Option<usize>
    ensures place { result ≡ position (λ (row : ComponentRow). names_one program.now.procs name.now row.members.items) components.now }
    ensures within { IfSome result (λ place. place < length components.now) }
{
    components
        .iter()
        .position(|row| has_name(program, &row.members, name))
}

/// The number of the component with a procedure of the name.
fn component_with(program: &Program, components: &[Component], name: &Name) -> Option<u32>
    requires formed { IsProgram program.now }
    requires rows { AreRows program.now components.now }
    ensures number { result ≡ component_named program.now name.now }
    ensures within { IfSome result (λ number. number < length components.now) }
{
    match place_with(program, components, name) {
        Some(place) => Some(place as u32),
        None => None,
    }
}

/// Marks of a component, and of those that it calls, directly or not.
fn reached_by(
    alloc: Global,
    program: &Program,
    components: &[Component],
    start: u32,
) -> Result<Vec<bool>, AllocError>
    requires rows { AreRows program.now components.now }
    requires start { start < length components.now }
    ensures { IfOk result (λ marks. (component : ℕ)
        → marked marks.items component ≡ holds (reached (component_calls program.now) start) component) }
{
    let calls = calls_of(alloc, components)?;
    reach(alloc, &calls, &[start])
}

/// Marks of the components that an aim reaches.
pub fn aimed_in(
    alloc: Global,
    program: &Program,
    components: &[Component],
    aim: &Aim,
) -> Result<Vec<bool>, AllocError>
    requires formed { IsProgram program.now }
    requires rows { AreRows program.now components.now }
    ensures { IfOk result (λ marks. (component : ℕ) → marked marks.items component ≡ aimed program.now aim.now component) }
{
    let count = components.len();
    match aim {
        Aim::All => vec![in alloc; true; count],
        Aim::One(name) => match component_with(program, components, name) {
            Some(start) => reached_by(alloc, program, components, start),
            None => vec![in alloc; false; count],
        },
    }
}
