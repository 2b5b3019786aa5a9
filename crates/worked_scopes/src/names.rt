//! Names, made of texts.
use shape_data::{Name, Row};
use std::alloc::Global;
use worked_rows::Fault;

/// The name of a text.
pub fn name_of(alloc: Global, text: &str) -> Result<Name, Fault> {
    let bytes = text.as_bytes();
    if !Name::is_name(bytes) {
        return Err(Fault::Row);
    }
    Ok(Name::of(alloc, bytes)?)
}

/// The names of texts.
pub fn names_of(alloc: Global, texts: &[&str]) -> Result<Row<Name>, Fault> {
    let mut names = Row::new(alloc);
    for text in texts {
        names.push(name_of(alloc, text)?)?;
    }
    Ok(names)
}
