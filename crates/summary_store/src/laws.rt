//! Laws of stores that are loaded.
ghost use Rattle.summary_store.specs.Laws.{LoadedAreInductive, LoadedAreValid, OneLoading, SomeLoading, StoresAreLoadedBack};

use solve_laws::certificates::gaps::no_gap_is_inductive;
use solve_laws::certificates::limits::limits_widen;
use solve_laws::certificates::soundness::inductive_is_valid;
use store_json::laws::{one_reading, some_reading, stores_are_read_back};

/// Bytes are loaded in one way alone.
pub fn one_loading()
    ensures { OneLoading }
{
    one_reading();
}

/// All bytes are loaded in some way.
pub fn some_loading()
    ensures { SomeLoading }
{
    some_reading();
    limits_widen();
    no_gap_is_inductive();
}

/// Each entry that is loaded of any bytes is well formed within the limits of a store, marked `stored`, and inductive.
pub fn loaded_are_inductive()
    ensures { LoadedAreInductive }
{}

/// Each spec of each entry that is loaded of any bytes is valid in every program in which the entry's key stands: from each heap that meets
/// the precondition no run of the procedure faults, and each that returns meets one of the posts.
pub fn loaded_are_valid()
    ensures { LoadedAreValid }
{
    inductive_is_valid();
}

/// Entries that are inductive are loaded of their store's bytes as they were written, in order, but for the mark `stored` of each
/// answer, which is then set; none is dropped.
pub fn stores_are_loaded_back()
    ensures { StoresAreLoadedBack }
{
    stores_are_read_back();
}
