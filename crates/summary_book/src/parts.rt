//! What is made of a program once, and which of its components an aim reaches.
ghost use Rattle.std.specs.Prelude.{◌≡◌, ℕ, ◌<◌, All, IfOk, IfSome, length, slice_get};
ghost use Rattle.std.specs.List.{filter_map};
ghost use Rattle.call_components.specs.Reaching.{marked};
ghost use Rattle.component_keys.specs.Keys.{flows_of};
ghost use Rattle.shape_data.specs.Sizes.{HasProgramSizes};
ghost use Rattle.shape_data.specs.WellFormed.{IsProgram};
ghost use Rattle.summary_book.specs.Aims.{aimed, component_with, has_name};
ghost use Rattle.summary_book.specs.Rows.{AreParts};

use crate::aims::Aim;
use crate::rows::Parts;
use call_components::reach::reach;
use composed_keys::{calls_of, components_of, structures_of};
use shape_data::exact::share;
use shape_data::program::Program;
use shape_data::{Name, is_same};
use std::alloc::{AllocError, Global};
use std::sync::Arc;

/// What is made of a program once.
pub fn parts_of(alloc: Global, program: &Arc<Program>) -> Result<Parts, AllocError>
    requires formed { IsProgram program.now.value }
    requires sizes { HasProgramSizes program.now.value }
    ensures program { IfOk result (λ parts. parts.program.value ≡ program.now.value) }
    ensures parts { IfOk result AreParts }
{
    let structures = structures_of(alloc, &program.structs)?;
    let components = components_of(alloc, program)?;
    let calls = calls_of(alloc, &components)?;
    let program = share(program)?;
    Ok(Parts {
        program,
        structures,
        components,
        calls,
    })
}

/// Whether one of the procedures at these places has the name.
fn has_name(program: &Program, members: &[u32], name: &Name) -> bool
    requires { All (λ number. number < length program.now.procs) members.now }
    ensures { result ≡ has_name name.now (filter_map (slice_get (flows_of program.now)) members.now) }
{
    for number in members {
        if is_same(&program.procs[*number as usize].flow.name, name) {
            return true;
        }
    }
    false
}

/// The number of the component with a procedure of the name.
fn component_with(parts: &Parts, name: &Name) -> Option<u32>
    requires { AreParts parts.now }
    ensures number { result ≡ component_with parts.now.program.value name.now }
    ensures within { IfSome result (λ number. number < length parts.now.components.items) }
{
    for (place, component) in parts.components.iter().enumerate() {
        if has_name(&parts.program, &component.members, name) {
            return Some(place as u32);
        }
    }
    None
}

/// Marks of the components that an aim reaches.
pub fn aimed_in(alloc: Global, parts: &Parts, aim: &Aim) -> Result<Vec<bool>, AllocError>
    requires { AreParts parts.now }
    ensures { IfOk result (λ marks. (component : ℕ) → marked marks.items component ≡ aimed parts.now.program.value aim.now component) }
{
    let count = parts.components.len();
    match aim {
        Aim::All => vec![in alloc; true; count],
        Aim::One(name) => match component_with(parts, name) {
            Some(start) => reach(alloc, &parts.calls, &[start]),
            None => vec![in alloc; false; count],
        },
    }
}
