//! The writing of stores.
ghost use Rattle.std.specs.Prelude.{◌≡◌, map, All, IfOk};
ghost use Rattle.serde_json.specs.View.{view};
ghost use Rattle.flow_json.specs.Forms.{tuple};
ghost use Rattle.store_json.specs.Entries.{IsStorable};
ghost use Rattle.claim_core.specs.Views.{solution_of};
ghost use Rattle.store_json.specs.Texts.{entry_data, store_data, store_text};

use crate::trailer::with_trailer;
use serde_json::{Value, json};
use shape_data::answer::Kept;
use std::alloc::{AllocError, Global};
use summary_json::{answer_value, key_value};

/// The number of the format.
pub const FORMAT: u32 = 1;

/// The value of an entry.
fn entry_value(alloc: Global, entry: &Kept) -> Result<Value, AllocError>
    requires { IsStorable (solution_of entry.now) }
    ensures { IfOk result (λ value. view value ≡ entry_data (solution_of entry.now)) }
{
    json!(in alloc; {
        "answer": answer_value(alloc, &entry.key, &entry.answer)?,
        "key": key_value(alloc, &entry.key)?
    })
}

/// The array of the entries.
fn entries_value(alloc: Global, entries: &[Kept]) -> Result<Value, AllocError>
    requires { All (λ kept. IsStorable (solution_of kept)) entries.now }
    ensures { IfOk result (λ value. view value ≡ tuple (map entry_data (map solution_of entries.now))) }
{
    let mut values = Vec::new(alloc);
    for entry in entries {
        let value = entry_value(alloc, entry)?;
        serde_json::push(&mut values, value)?;
    }
    Ok(Value::Array(values))
}

/// The value of a store.
fn store_value(alloc: Global, entries: &[Kept]) -> Result<Value, AllocError>
    requires { All (λ kept. IsStorable (solution_of kept)) entries.now }
    ensures { IfOk result (λ value. view value ≡ store_data (map solution_of entries.now)) }
{
    json!(in alloc; {"entries": entries_value(alloc, entries)?, "format": FORMAT})
}

/// The bytes of a store with these entries, whose keys and answers are well formed within the limits of a store. The answers' marks
/// `stored` are not written. The only error is want of memory; how long the bytes may be is for the caller to say.
#[tactic(auto, using(crate::proofs::FloatLaws::store_has_no_float))]
pub fn write_store(alloc: Global, entries: &[Kept]) -> Result<Vec<u8>, AllocError>
    requires { All (λ kept. IsStorable (solution_of kept)) entries.now }
    ensures { IfOk result (λ bytes. bytes.items ≡ store_text (map solution_of entries.now)) }
{
    let text = store_value(alloc, entries)?.to_vec(alloc)?;
    with_trailer(alloc, text)
}
