//! What the entries of an aim are, said of the program alone.
ghost use Rattle.worker_pool.specs.Composed.{EntriesAreComposed};

use claim_core::Meaning;

/// The entries of an aim are one for each component that it reaches, callees first, and each has the key that is composed of the
/// component's procedures in the program, the structures used, and its callees with the specs that the entries have for them.
pub fn entries_are_composed<J: Meaning>()
    ensures { EntriesAreComposed J.solves }
{}
