//! Graphs of calls.
ghost use Rattle.std.specs.Prelude.{◌≡◌, ◌<◌, ◌↔◌, length, All, IsTrue};
ghost use Rattle.call_components.specs.Graphs.{IsTested};
ghost use Rattle.call_components.specs.Reaching.{rows};
ghost use Rattle.component_keys.specs.Laws.{IsCallGraph};

use shape_data::Name;
use shape_data::names::have_different_names;

/// Whether each of the numbers is below the count.
fn are_below(numbers: &[u32], count: usize) -> bool
    ensures { IsTrue result ↔ All (λ number. number < count) numbers.now }
{
    numbers.iter().all(|number| (*number as usize) < count)
}

/// Whether each that is called is below the count.
fn are_rows_below(calls: &[Vec<u32>], count: usize) -> bool
    ensures { IsTrue result ↔ All (λ row. All (λ number. number < count) row.items) calls.now }
{
    calls.iter().all(|row| are_below(row, count))
}

fn has_rows(names: &[Name], calls: &[Vec<u32>]) -> bool
    ensures { IsTrue result ↔ (length names.now ≡ length calls.now) }
{
    names.len() == calls.len()
}

fn is_tested(names: &[Name], calls: &[Vec<u32>]) -> bool
    ensures { IsTrue result ↔ IsTested names.now calls.now }
{
    has_rows(names, calls) && have_different_names(names) && are_rows_below(calls, calls.len())
}

/// Whether there is a row for each name, no two names are the same, and each that is called is the number of a name.
pub fn is_call_graph(names: &[Name], calls: &[Vec<u32>]) -> bool
    ensures { IsTrue result ↔ IsCallGraph names.now (rows calls.now) }
{
    is_tested(names, calls)
}
