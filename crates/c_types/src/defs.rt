//! The structures and the types of a well typed program as data of their own.
ghost use Rattle.std.specs.Prelude.{◌≡◌, [], IfOk, map};
ghost use Rattle.c_types_rules.specs.Programs.{field_def, struct_def, first_structures};
ghost use Rattle.c_types_names.specs.Seen.{field_seen, structure_seen};

use crate::fields::Fields;
use c_types_names::declared::Structure;
use c_types_names::kinds::known_type;
use c_types_names::name_tables::Structures;
use c_types_names::objects::FieldKind;
use c_types_names::tables::Tables;
use shape_data::program::{Field, StructDef};
use shape_data::{Row, copy_of};
use std::alloc::{AllocError, Global};

/// The field as data of its own.
#[tactic(auto, unfolding(c_types_names::specs::Seen::field_seen))]
fn field_def(field: FieldKind) -> Result<Field, AllocError>
    ensures { IfOk result (λ def. def ≡ field_def (field_seen field.entry)) }
{
    Ok(Field {
        name: copy_of(&field.name.text)?,
        ty: known_type(field.kind)?,
    })
}

/// The fields as data of their own.
fn field_defs(alloc: Global, fields: &[FieldKind]) -> Result<Row<Field>, AllocError>
    ensures { IfOk result (λ defs. defs ≡ map field_def (map field_seen fields.now)) }
{
    let mut defs = Vec::new(alloc);
    for field in fields {
        defs.push(field_def(*field)?)?;
    }
    Ok(Row::from_vec(defs))
}

/// The structure as data of its own.
fn struct_def<'a>(
    alloc: Global,
    tables: &Tables<'a>,
    one: Structure<'a>,
) -> Result<StructDef, AllocError>
    ensures { IfOk result (λ def. def ≡ struct_def tables.now (structure_seen one.entry)) }
{
    let mut fields = Fields::new(alloc);
    fields.push_lines(tables, one.lines.as_slice())?;
    Ok(StructDef {
        name: copy_of(one.tag)?,
        fields: field_defs(alloc, fields.as_slice())?,
    })
}

/// Each structure at its first definition.
fn first_structures<'a>(
    alloc: Global,
    structures: &[Structure<'a>],
) -> Result<Structures<'a>, AllocError>
    ensures { IfOk result (λ firsts. firsts ≡ first_structures [] (map structure_seen structures.now)) }
{
    let mut firsts = Structures::new(alloc);
    for one in structures {
        if firsts.first(one.tag).is_none() {
            firsts.push(*one)?;
        }
    }
    Ok(firsts)
}

/// The structures as data of their own.
fn defs_of<'a>(
    alloc: Global,
    tables: &Tables<'a>,
    structures: &[Structure<'a>],
) -> Result<Row<StructDef>, AllocError>
    ensures { IfOk result (λ defs. defs ≡ map (struct_def tables.now) (map structure_seen structures.now)) }
{
    let mut defs = Vec::new(alloc);
    for one in structures {
        defs.push(struct_def(alloc, tables, *one)?)?;
    }
    Ok(Row::from_vec(defs))
}

/// The structures of a program, in the order of their first definitions.
pub fn struct_defs<'a>(alloc: Global, tables: &Tables<'a>) -> Result<Row<StructDef>, AllocError>
    ensures { IfOk result (λ defs. defs ≡ map (struct_def tables.now) (first_structures [] tables.now.structures)) }
{
    let firsts = first_structures(alloc, tables.structures())?;
    defs_of(alloc, tables, firsts.as_slice())
}
