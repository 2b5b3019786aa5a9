//! The reading of stores.
ghost use Rattle.std.specs.Prelude.{map, option_map, IfOk};
ghost use Rattle.serde_json.specs.View.{view};
ghost use Rattle.claim_core.specs.Views.{solution_of};
ghost use Rattle.store_json.specs.Reading.{all_read, AreValuesOf, IsJsonOf, IsRead, IsStoreOf};

use crate::entries::read_entries;
use crate::trailer::without_trailer;
use crate::writing::FORMAT;
use flow_json::objects::has_names;
use serde_json::{Category, Value};
use shape_data::Row;
use shape_data::answer::Kept;
use std::alloc::{AllocError, Global};

/// Why bytes are no store: the first of these that applies.
#[derive(Clone, Copy, PartialEq, Eq, Drop, Debug)]
pub enum Unread {
    /// The last lines are not the hash of what stands before them.
    Trailer,
    /// What stands before them is no JSON (RFC 8259) in UTF-8, of at most 127 levels.
    Json,
    /// The JSON is no store of this format, or one of its keys or answers is not well formed.
    Format,
}

/// The JSON value of a text; none where the text is no JSON.
fn read_json(alloc: Global, text: &[u8]) -> Result<Option<Value>, AllocError>
    ensures { IfOk result (λ value. IsJsonOf text.now (option_map view value)) }
{
    match Value::from_slice(alloc, text) {
        Ok(value) => Ok(Some(value)),
        Err(fault) => match fault.classify() {
            Category::Memory => Err(AllocError),
            _ => Ok(None),
        },
    }
}

/// The values of the entries of a store; none where the value is not of a store's form, or its format has another number.
#[tactic(auto, using(crate::proofs::ShapeLemmas::store_shapes))]
fn entry_values(value: &Value) -> Option<&[Value]>
    ensures { AreValuesOf (view value.now) (option_map (λ values. map view values.now) result) }
{
    if !has_names(&["entries", "format"], value) {
        return None;
    }
    let format = value.get("format")?.as_u64()?;
    if format != FORMAT as u64 {
        return None;
    }
    Some(value.get("entries")?.as_array()?.as_slice())
}

/// The entries of a store's value; none where it is that of no store.
#[tactic(auto, using(crate::proofs::EntryLemmas::no_store_read, crate::proofs::EntryLemmas::store_read))]
fn read_value(alloc: Global, value: &Value) -> Result<Option<Row<Kept>>, AllocError>
    ensures { IfOk result (λ found. IsStoreOf (view value.now) (option_map (map solution_of) found)) }
{
    match entry_values(value) {
        Some(values) => read_entries(alloc, values),
        None => Ok(None),
    }
}

/// The entries of a store's bytes, in order, each answer marked `stored`, or why the bytes are no store. The only error is want of memory.
/// How many bytes a store may have is for the caller to say.
pub fn read_store(alloc: Global, bytes: &[u8]) -> Result<Result<Row<Kept>, Unread>, AllocError>
    ensures { IfOk result (λ read. IsRead bytes.now (all_read read)) }
{
    let Some(text) = without_trailer(alloc, bytes)? else {
        return Ok(Err(Unread::Trailer));
    };
    let Some(value) = read_json(alloc, text)? else {
        return Ok(Err(Unread::Json));
    };
    match read_value(alloc, &value)? {
        Some(entries) => Ok(Ok(entries)),
        None => Ok(Err(Unread::Format)),
    }
}
