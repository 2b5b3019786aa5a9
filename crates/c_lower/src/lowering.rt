//! The lowering of a program.
ghost use Rattle.std.specs.Prelude.{◌≡◌, ◌<◌, [], IfOk, IfErr, None, All, length, take};
ghost use Rattle.c_types_rules.specs.Programs as typing;
ghost use Rattle.c_types.specs.Typing.{files_of};
ghost use Rattle.c_lower_rules.specs.Numbers.{FileHasIntNumbers};
ghost use Rattle.c_lower_rules.specs.Fields.{HasCountableFields};
ghost use Rattle.c_lower_rules.specs.Programs.{files_refusals, files_procs, first_too_large, program_of};
ghost use Rattle.c_lower.specs.Lowering.{IsLowerFault, with_first};

use crate::building::Building;
use crate::fault::LowerFault;
use crate::items::items;
use c_lower_exprs::context::Context;
use c_tree::{Name, Unit};
use c_types::Typed;
use c_types_names::first_refusal::FirstRefusal;
use c_types_rules::laws::first_refusal;
use shape_data::Row;
use shape_data::program::Program;
use std::alloc::{AllocError, Global};

/// What is too large in the files, and the first procedures, at most `most`, where nothing is.
fn build<'a>(
    alloc: Global,
    context: &mut Context<'a>,
    units: &'a [Unit],
    files: &[Name],
    most: usize,
) -> Result<Building, AllocError>
    requires names { length files.now ≡ length units.now }
    requires countable { length units.now < 4294967296 }
    requires numbers { All FileHasIntNumbers (files_of units.now) }
    ensures refusal { IfOk result (λ built. built.first.found
        ≡ typing.first_of (files_refusals context.old.env.tables 0 (files_of units.now))) }
    ensures procs { IfOk result (λ built. files_refusals context.old.env.tables 0 (files_of units.now) ≡ []
        → built.procs ≡ take most (files_procs context.old.env.tables files.now (files_of units.now))) }
{
    let mut built = Building {
        first: FirstRefusal {
            unit: 0,
            found: None,
        },
        most,
        procs: Row::new(alloc),
    };
    for (place, unit) in units.iter().enumerate() {
        built.first.unit = place as u32;
        items(
            alloc,
            context,
            &files[place],
            unit.items.as_slice(),
            &mut built,
        )?;
    }
    Ok(built)
}

/// Lowers a program that keeps the typing rules. `files` are the names of its files, one for each unit, in their order; the program has
/// the structures in the order of their first definitions (C11 6.7.2.1), and the procedures in the order of their definitions (C11 6.9.1),
/// file by file: the first `most` of them. Those behind are only measured, since whoever refuses a program for its many procedures has no
/// use for all of them. Expressions are lowered as C11 6.5 says, and statements as 6.8 says; operands are evaluated from the left, an order
/// that C leaves open.
///
/// # Errors
///
/// The first refusal of what is too large, by file, line, column and code: `unit` counts the files from 0. And want of memory.
pub fn lower(
    alloc: Global,
    typed: Typed<'_>,
    files: &[Name],
    most: usize,
) -> Result<Program, LowerFault>
    requires names { length files.now ≡ length typed.units.now }
    requires countable { length typed.units.now < 4294967296 }
    requires numbers { All FileHasIntNumbers (files_of typed.units.now) }
    requires fields { All HasCountableFields (files_of typed.units.now) }
    ensures program { IfOk result (λ program. program ≡ with_first most (program_of files.now (files_of typed.entry.units.now))) }
    ensures small { IfOk result (λ _. first_too_large (files_of typed.entry.units.now) ≡ None) }
    ensures fault { IfErr result (λ fault. IsLowerFault (files_of typed.entry.units.now) fault) }
{
    first_refusal();
    let Typed {
        units,
        tables,
        structs,
    } = typed;
    let mut context = Context::new(alloc, tables);
    let built = build(alloc, &mut context, units, files, most)?;
    let Building { first, procs, .. } = built;
    match first.found {
        Some(at) => Err(LowerFault::Refused(at)),
        None => Ok(Program { structs, procs }),
    }
}
