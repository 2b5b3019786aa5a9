//! Rows of parsing.
use crate::rows::{both_sides, text_behind};
use crate::show::show_unit;
use c_grammar::tokens::{TokenFault, tokens};
use c_parse::parse;
use c_parse_exprs::SyntaxFault;
use std::alloc::Global;
use worked_rows::Fault;

/// The tree of a text as `show` writes it, or its refusal as `CODE LINE:COLUMN`.
fn read(alloc: Global, text: &[u8]) -> Result<Vec<u8>, Fault> {
    if text.len() > 100_000 {
        return Err(Fault::Row);
    }
    let found = match tokens(alloc, text) {
        Ok(found) => found,
        Err(TokenFault::Refused(_)) => return Err(Fault::Refused),
        Err(TokenFault::OutOfMemory) => return Err(Fault::OutOfMemory),
    };
    match parse(alloc, found.as_slice()) {
        Ok(unit) => Ok(show_unit(alloc, &unit)?),
        Err(SyntaxFault::Refused(refusal)) => {
            let (code, line, column) = (refusal.code, refusal.line, refusal.column);
            let shown = format!(in alloc; "{code} {line}:{column}")?;
            Ok(Vec::from_slice(alloc, shown.as_bytes())?)
        }
        Err(SyntaxFault::OutOfMemory) => Err(Fault::OutOfMemory),
    }
}

/// Whether a text has the tree, or is refused so.
pub fn is_read(rt: &impl Print, alloc: Global, row: &str) -> Result<bool, Fault> {
    let (text, wanted) = both_sides(row);
    let wanted = text_behind(alloc, "", wanted)?;
    let found = read(alloc, &text_behind(alloc, "", text)?)?;
    if found != wanted {
        println!(rt; "found {}", str::from_utf8(found.as_slice()).unwrap_or(""))?;
    }
    Ok(found == wanted)
}
