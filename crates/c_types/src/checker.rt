//! The type checker.
ghost use Rattle.std.specs.Prelude.{◌≡◌, ◌<◌, IfOk, IfErr, Some, None, length, map};
ghost use Rattle.c_types_rules.specs.Tables.{no_tables, items_of};
ghost use Rattle.c_types_rules.specs.Programs as program;
ghost use Rattle.c_types_exprs.specs.Listing.{with_kinds};
ghost use Rattle.c_types.specs.Typing.{files_of};
ghost use Rattle.c_types.specs.Checking.{IsFault};

use crate::defs::struct_defs;
use crate::items::items;
use crate::typed::{TypeFault, Typed};
use c_tree::Unit;
use c_types_exprs::all_kinds::Kinds;
use c_types_names::env::Env;
use c_types_names::first_refusal::FirstRefusal;
use c_types_names::tables::Tables;
use c_types_rules::At;
use c_types_rules::laws::{first_refusal, types_are_known};
use c_types_stmts::finding::Finding;
use std::alloc::{AllocError, Global};

/// What the files declare.
fn declared<'a>(alloc: Global, units: &'a [Unit]) -> Result<Tables<'a>, AllocError>
    ensures { IfOk result (λ tables. tables ≡ program.tables_of (files_of units.now)) }
{
    let mut tables = Tables::new(alloc);
    for unit in units {
        tables.declare_all(unit.items.as_slice())?;
    }
    Ok(tables)
}

/// The first refusal in the files and, where `kinds` is a list, that list with the types of the files behind it.
fn find<'a>(
    alloc: Global,
    env: &mut Env<'a>,
    units: &'a [Unit],
    kinds: Option<Kinds<'a>>,
) -> Result<Finding<'a>, AllocError>
    requires { length units.now < 4294967296 }
    ensures refusal { IfOk result (λ found. found.first.found
        ≡ program.first_of (program.files_refusals env.old.tables no_tables 0 (files_of units.now))) }
    ensures kinds { IfOk result (λ found. found.kinds
        ≡ with_kinds kinds.entry (program.items env.old.tables no_tables (items_of (files_of units.now))).kinds) }
    ensures tables { IfOk result (λ _. env.new.tables ≡ env.old.tables) }
{
    let mut before = Tables::new(alloc);
    let mut found = Finding {
        first: FirstRefusal {
            unit: 0,
            found: None,
        },
        kinds,
    };
    for (place, unit) in units.iter().enumerate() {
        found.first.unit = place as u32;
        items(alloc, env, &mut before, unit.items.as_slice(), &mut found)?;
    }
    Ok(found)
}

/// The well typed program, with what is declared in it and its structures.
fn typed<'a>(alloc: Global, tables: Tables<'a>, units: &'a [Unit]) -> Result<Typed<'a>, AllocError>
    requires tables { tables ≡ program.tables_of (files_of units.now) }
    requires well_typed { program.IsWellTyped (files_of units.now) }
    ensures units { IfOk result (λ typed. typed.units.now ≡ units.now) }
    ensures well_typed { IfOk result (λ _. program.IsWellTyped (files_of units.now)) }
{
    let structs = struct_defs(alloc, &tables)?;
    Ok(Typed {
        units,
        tables,
        structs,
    })
}

/// The answer, where this is the first refusal, if any.
fn answer<'a>(
    alloc: Global,
    tables: Tables<'a>,
    first: Option<At>,
    units: &'a [Unit],
) -> Result<Typed<'a>, TypeFault>
    requires tables { tables ≡ program.tables_of (files_of units.now) }
    requires refusal { first ≡ program.first_refusal (files_of units.now) }
    ensures units { IfOk result (λ typed. typed.units.now ≡ units.now) }
    ensures well_typed { IfOk result (λ _. program.IsWellTyped (files_of units.now)) }
    ensures fault { IfErr result (λ fault. IsFault (files_of units.now) fault) }
{
    first_refusal();
    match first {
        Some(at) => Err(TypeFault::Refused(at)),
        None => Ok(typed(alloc, tables, units)?),
    }
}

/// Checks the types of a program of several files: each name may be used in any of them, before or behind its definition.
///
/// # Errors
///
/// The first refusal in the order of the text, by file, line, column and code, and want of memory.
pub fn check<'a>(alloc: Global, units: &'a [Unit]) -> Result<Typed<'a>, TypeFault>
    requires { length units.now < 4294967296 }
    ensures units { IfOk result (λ typed. typed.units.now ≡ units.now) }
    ensures well_typed { IfOk result (λ _. program.IsWellTyped (files_of units.now)) }
    ensures fault { IfErr result (λ fault. IsFault (files_of units.now) fault) }
{
    let mut env = Env::new(alloc, declared(alloc, units)?);
    let found = find(alloc, &mut env, units, None)?;
    answer(alloc, env.into_tables(), found.first.found, units)
}

/// The types of all expressions of a program that keeps the typing rules, one an expression in the order of the text. They are all known.
///
/// # Errors
///
/// Want of memory.
pub fn kinds_of<'a>(alloc: Global, typed: &Typed<'a>) -> Result<Kinds<'a>, AllocError>
    requires { length typed.now.units.now < 4294967296 }
    ensures kinds { IfOk result (λ kinds. kinds ≡ program.kinds_of (files_of typed.now.units.now)) }
    ensures known { IfOk result (λ kinds. map Some (map program.known kinds) ≡ kinds) }
{
    types_are_known();
    let units = typed.units;
    let mut env = Env::new(alloc, declared(alloc, units)?);
    let found = find(alloc, &mut env, units, Some(Kinds::new(alloc)))?;
    match found.kinds {
        Some(kinds) => Ok(kinds),
        None => unreachable!(),
    }
}
