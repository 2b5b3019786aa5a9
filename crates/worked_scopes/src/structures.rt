//! Structures, made of texts.
use crate::names::name_of;
use shape_data::Row;
use shape_data::program::{Field, StructDef, Ty};
use std::alloc::Global;
use worked_rows::Fault;

/// A type: a pointer to a structure, or int where there is no name.
pub fn type_of(alloc: Global, pointed: Option<&str>) -> Result<Ty, Fault> {
    match pointed {
        None => Ok(Ty::Int),
        Some(name) => Ok(Ty::Ptr(name_of(alloc, name)?)),
    }
}

/// A field: a name, and behind it the structure that a pointer points to.
fn field_of(alloc: Global, text: &str) -> Result<Field, Fault> {
    let mut words = text.split_whitespace();
    let name = name_of(alloc, words.next().unwrap_or(""))?;
    let ty = type_of(alloc, words.next())?;
    Ok(Field { name, ty })
}

fn fields_of(alloc: Global, texts: &[&str]) -> Result<Row<Field>, Fault> {
    let mut fields = Row::new(alloc);
    for text in texts {
        fields.push(field_of(alloc, text)?)?;
    }
    Ok(fields)
}

fn struct_of(alloc: Global, texts: &[&str]) -> Result<StructDef, Fault> {
    match texts {
        [] => Err(Fault::Row),
        [own, others @ ..] => Ok(StructDef {
            name: name_of(alloc, own)?,
            fields: fields_of(alloc, others)?,
        }),
    }
}

/// Structures, each of which is a name and then its fields: a name, and behind it the structure that a pointer points to.
pub fn structs_of(alloc: Global, texts: &[&[&str]]) -> Result<Row<StructDef>, Fault> {
    let mut structs = Row::new(alloc);
    for own in texts {
        structs.push(struct_of(alloc, own)?)?;
    }
    Ok(structs)
}
