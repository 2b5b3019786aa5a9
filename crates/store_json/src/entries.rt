//! The reading of entries.
ghost use Rattle.std.specs.Prelude.{map, option_map, IfOk};
ghost use Rattle.serde_json.specs.View.{view};
ghost use Rattle.shape_data.specs.WellFormed.{IsStorableKey};
ghost use Rattle.summary_json.specs.Fits.{KeyFits};
ghost use Rattle.summary_json.specs.Keys.{key_data};
ghost use Rattle.claim_core.specs.Views.{solution_of};
ghost use Rattle.store_json.specs.Reading.{AreEntriesOf, IsEntryOf};
ghost use Rattle.store_json.specs.Texts.{entry_object};

use flow_json::objects::has_names;
use serde_json::Value;
use shape_data::Row;
use shape_data::answer::{Kept, Key};
use std::alloc::{AllocError, Global};
use std::sync::Arc;
use summary_json::laws::one_key;
use summary_json::{read_answer, read_key};

/// The entry of a well-formed key and the value of an answer; none where the value is that of no well-formed answer for the key.
#[tactic(auto, using(crate::proofs::EntryLemmas::answer_read, crate::proofs::EntryLemmas::no_answer_read))]
fn answered(alloc: Global, key: Key, value: &Value) -> Result<Option<Kept>, AllocError>
    requires formed { IsStorableKey key }
    requires fits { KeyFits key }
    ensures { IfOk result (λ kept. IsEntryOf (entry_object (view value.now) (key_data key)) (option_map solution_of kept)) }
{
    one_key();
    match read_answer(alloc, &key, value)? {
        Some(answer) => Ok(Some(Kept {
            key: Arc::new(alloc, key)?,
            answer: Arc::new(alloc, answer)?,
        })),
        None => Ok(None),
    }
}

/// The entry of the values of an answer and a key.
#[tactic(auto, using(crate::proofs::EntryLemmas::no_key_read))]
fn entry_of(alloc: Global, answer: &Value, key: &Value) -> Result<Option<Kept>, AllocError>
    ensures { IfOk result (λ kept. IsEntryOf (entry_object (view answer.now) (view key.now)) (option_map solution_of kept)) }
{
    match read_key(alloc, key)? {
        Some(key) => answered(alloc, key, answer),
        None => Ok(None),
    }
}

/// The entry of a value; none where the value is not of the form, or its key or its answer is not well formed.
#[tactic(auto, using(crate::proofs::ShapeLemmas::entry_shapes))]
fn read_entry(alloc: Global, value: &Value) -> Result<Option<Kept>, AllocError>
    ensures { IfOk result (λ kept. IsEntryOf (view value.now) (option_map solution_of kept)) }
{
    if !has_names(&["answer", "key"], value) {
        return Ok(None);
    }
    let Some(answer) = value.get("answer") else {
        return Ok(None);
    };
    let Some(key) = value.get("key") else {
        return Ok(None);
    };
    entry_of(alloc, answer, key)
}

/// The entries of values, in order; none where one of the values is that of no entry.
#[tactic(auto, using(crate::proofs::EntryLemmas::turns))]
pub fn read_entries(alloc: Global, values: &[Value]) -> Result<Option<Row<Kept>>, AllocError>
    ensures { IfOk result (λ found. AreEntriesOf (map view values.now) (option_map (map solution_of) found)) }
{
    let mut entries = Row::new(alloc);
    for value in values {
        match read_entry(alloc, value)? {
            Some(entry) => entries.push(entry)?,
            None => return Ok(None),
        }
    }
    Ok(Some(entries))
}
