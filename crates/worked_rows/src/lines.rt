//! The rows of a program: lines of its standard input.
use crate::fault::Fault;
use std::io::{self, BufRead, BufReader};

/// Whether a line is a row: it is not empty, and does not begin with `#`.
fn is_row(line: &str) -> bool {
    !line.is_empty() && !line.starts_with('#')
}

/// Whether a row agrees. One that has another answer, or none, is printed.
fn is_counted(rt: &impl Print, row: &str, found: Result<Option<bool>, Fault>) -> io::Result<bool> {
    match found {
        Ok(None) => Ok(false),
        Ok(Some(true)) => Ok(true),
        Ok(Some(false)) => {
            println!(rt; "another answer: {row}")?;
            Ok(false)
        }
        Err(fault) => {
            println!(rt; "{fault:?}: {row}")?;
            Ok(false)
        }
    }
}

/// Asks of each line of standard input that is not empty and does not begin with `#`, prints those that have another answer or none, and
/// at the end how many rows agree.
///
/// `agrees` says whether the answer of a row is the one found; `None` where the line is no row by itself.
pub fn count_rows<F: FnMut(&str) -> Result<Option<bool>, Fault>>(
    rt: &HostRuntime,
    mut agrees: F,
) -> io::Result<()>
    requires { F.IsAlwaysCallable agrees }
{
    let alloc = rt.alloc();
    let mut count = 0u32;
    for line in BufReader::new(alloc, rt.reader())?.lines(alloc) {
        let row = line?;
        if is_row(row.as_str()) && is_counted(rt, row.as_str(), agrees(row.as_str()))? {
            count = count.saturating_add(1);
        }
    }
    println!(rt; "{count} rows agree")
}
