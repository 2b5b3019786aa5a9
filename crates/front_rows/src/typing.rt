//! Rows of typing.
use crate::rows::{both_sides, text_behind};
use c_front::{ReadFault, read_unit};
use c_tree::Unit;
use c_types::{TypeFault, check, kinds_of};
use c_types_names::kinds::{CType, Kind};
use std::alloc::Global;
use worked_rows::Fault;
use worked_rows::parts::{first_word, number_of};

/// The tree of a text that is a file.
fn unit_of(alloc: Global, text: &[u8]) -> Result<Unit, Fault> {
    if text.len() > 100_000 {
        return Err(Fault::Row);
    }
    match read_unit(alloc, text) {
        Ok(unit) => Ok(unit),
        Err(ReadFault::OutOfMemory) => Err(Fault::OutOfMemory),
        Err(ReadFault::Refused(_)) => Err(Fault::Refused),
    }
}

/// The file, the code and the column of the first refusal of files; 0 three times where there is none.
fn refusal(alloc: Global, units: &[Unit]) -> Result<(u32, u32, usize), Fault> {
    if units.len() > 2 {
        return Err(Fault::Row);
    }
    match check(alloc, units) {
        Ok(_) => Ok((0, 0, 0)),
        Err(TypeFault::Refused(at)) => {
            let code = u32::from(at.refusal.code);
            Ok((at.unit, code, at.refusal.column as usize))
        }
        Err(TypeFault::OutOfMemory) => Err(Fault::OutOfMemory),
    }
}

/// Whether that is the first refusal; where it is not, it is printed.
fn is_first(
    rt: &impl Print,
    alloc: Global,
    units: &[Unit],
    wanted: (u32, u32, usize),
) -> Result<bool, Fault> {
    let found = refusal(alloc, units)?;
    if found != wanted {
        println!(rt; "found {found:?}")?;
    }
    Ok(found == wanted)
}

/// Whether a text keeps the rules.
pub fn is_typed(rt: &impl Print, alloc: Global, before: &str, text: &str) -> Result<bool, Fault> {
    let bytes = text_behind(alloc, before, text)?;
    is_first(rt, alloc, &[unit_of(alloc, &bytes)?], (0, 0, 0))
}

/// Whether a text is refused with the code, and where it is marked.
pub fn is_refused(rt: &impl Print, alloc: Global, before: &str, row: &str) -> Result<bool, Fault> {
    let (code, text) = number(row)?;
    let Some(mark) = text.find('@') else {
        return Err(Fault::Row);
    };
    let column = before.len().saturating_add(mark).saturating_add(1);
    let bytes = text_behind(alloc, before, text)?;
    is_first(rt, alloc, &[unit_of(alloc, &bytes)?], (0, code, column))
}

/// A number of a row, and the text behind it.
fn number(row: &str) -> Result<(u32, &str), Fault> {
    let (word, behind) = first_word(row);
    Ok((number_of(word)?, behind))
}

/// Whether that is the first refusal of two texts, if any.
pub fn are_refused(rt: &impl Print, alloc: Global, row: &str) -> Result<bool, Fault> {
    let (file, row) = number(row)?;
    let (code, row) = number(row)?;
    let (column, row) = number(row)?;
    let (one, other) = both_sides(row);
    let one = unit_of(alloc, &text_behind(alloc, "", one)?)?;
    let other = unit_of(alloc, &text_behind(alloc, "", other)?)?;
    is_first(rt, alloc, &[one, other], (file, code, column as usize))
}

/// `i`, `p` or `v` for a type, `?` for one that is not known.
fn letter(kind: Kind) -> char {
    match kind {
        Some(CType::Int) => 'i',
        Some(CType::Pointer(_)) => 'p',
        Some(CType::Void) => 'v',
        None => '?',
    }
}

/// The types of the expressions of a text, a letter each.
fn kinds(alloc: Global, text: &[u8]) -> Result<String, Fault> {
    let units = [unit_of(alloc, text)?];
    match check(alloc, &units) {
        Ok(typed) => {
            let found = kinds_of(alloc, &typed)?;
            let mut letters = String::new(alloc);
            for kind in found.as_slice() {
                letters.push(letter(*kind))?;
            }
            Ok(letters)
        }
        Err(TypeFault::Refused(_)) => Err(Fault::Refused),
        Err(TypeFault::OutOfMemory) => Err(Fault::OutOfMemory),
    }
}

/// Whether a text's expressions have these types.
pub fn has_kinds(rt: &impl Print, alloc: Global, before: &str, row: &str) -> Result<bool, Fault> {
    let (wanted, text) = first_word(row);
    let found = kinds(alloc, &text_behind(alloc, before, text)?)?;
    if found.as_str() != wanted {
        println!(rt; "found {found}")?;
    }
    Ok(found.as_str() == wanted)
}
