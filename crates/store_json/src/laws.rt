//! Laws of stores: bytes are read in one way alone, and what is written is read back.
ghost use Rattle.store_json.specs.Laws.{EntriesAreFew, OneReading, SomeReading, StoresAreReadBack};

use summary_json::laws::{one_answer, one_key};

/// Bytes are read in one way alone.
pub fn one_reading()
    ensures { OneReading }
{
    one_key();
    one_answer();
}

/// All bytes are read in some way: as entries, or for a cause as none.
pub fn some_reading()
    ensures { SomeReading }
{}

/// A store's bytes are read as its entries, in order, but for the mark `stored` of each answer, which is then set.
pub fn stores_are_read_back()
    ensures { StoresAreReadBack }
{}

/// Bytes are read as no more entries than there are bytes.
pub fn entries_are_few()
    ensures { EntriesAreFew }
{}
