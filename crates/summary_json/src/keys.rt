//! Keys.
ghost use Rattle.std.specs.Prelude.{◌≡◌, Some, IfOk, IfErr};
ghost use Rattle.serde_json.specs.View.{view};
ghost use Rattle.shape_data.specs.WellFormed.{AreStructs, IsStorableKey};
ghost use Rattle.flow_json.specs.Forms.{list_data};
ghost use Rattle.flow_json.specs.Types.{struct_data};
ghost use Rattle.flow_json.specs.Unread.{IsUnread};
ghost use Rattle.summary_json.specs.Keys.{key_data, key_members, read_key, whole_key};
ghost use Rattle.summary_json.specs.Laws.{IsReadKey};
ghost use Rattle.summary_json.specs.Unfit.{IsUnfit};

use crate::scoped::Scoped;
use flow_json::objects::{has_names, member};
use flow_json::values::read_flag;
use flow_json::{Unread, list_value, read_list};
use serde_json::{Value, json};
use shape_data::answer::Key;
use shape_data::program::StructDef;
use shape_data::{Row, are_structs, well_formed_key};
use std::alloc::{AllocError, Global};

/// The array of structures.
#[tactic(auto, using(crate::proofs::KeyTexts::structs_are_texts))]
fn structs_value(alloc: Global, structs: &[StructDef]) -> Result<Value, AllocError>
    requires { AreStructs structs.now }
    ensures { IfOk result (λ value. view value ≡ list_data struct_data structs.now) }
{
    list_value(alloc, structs)
}

/// The value of a well-formed key. The only error is want of memory.
#[tactic(auto, using(crate::proofs::KeyTexts::no_params, crate::proofs::KeyTexts::procs_are_texts))]
pub fn key_value(alloc: Global, key: &Key) -> Result<Value, AllocError>
    requires { IsStorableKey key.now }
    ensures { IfOk result (λ value. view value ≡ key_data key.now) }
{
    let structs = key.structs.as_slice();
    json!(in alloc; {
        "callees": key.callees.to_value(alloc, structs, &[])?,
        "procs": list_value(alloc, key.procs.as_slice())?,
        "recursive": key.recursive,
        "structs": structs_value(alloc, structs)?
    })
}

/// The key of an object with a key's members, over these structures.
#[tactic(auto, using(crate::proofs::KeyTexts::no_params), unfolding(flow_json::specs::Forms::go_on))]
fn key_members(alloc: Global, structs: Row<StructDef>, value: &Value) -> Result<Key, Unread>
    requires { AreStructs structs }
    ensures ok { IfOk result (λ key. key_members structs (view value.now) ≡ Some key) }
    ensures err { IfErr result (λ fault. IsUnread fault (key_members structs (view value.now))) }
{
    let callees = Row::of_value(alloc, structs.as_slice(), &[], member(value, "callees")?)?;
    let procs = read_list(alloc, member(value, "procs")?)?;
    let recursive = read_flag(member(value, "recursive")?)?;
    Ok(Key {
        recursive,
        procs,
        structs,
        callees,
    })
}

/// The key of an object with a key's members, if its structures are well formed.
#[tactic(auto, using(crate::proofs::KeyTexts::unfit, crate::proofs::KeyTexts::unformed), unfolding(flow_json::specs::Forms::go_on))]
fn whole_key(alloc: Global, value: &Value) -> Result<Key, Unread>
    ensures ok { IfOk result (λ key. whole_key (view value.now) ≡ Some key) }
    ensures err { IfErr result (λ fault. IsUnfit fault (whole_key (view value.now))) }
{
    let structs: Row<StructDef> = read_list(alloc, member(value, "structs")?)?;
    if are_structs(structs.as_slice()) {
        key_members(alloc, structs, value)
    } else {
        Err(Unread::NotOfForm)
    }
}

/// The key of a value, if its structures are well formed.
#[tactic(auto, using(crate::proofs::KeyTexts::unfit))]
fn key_of(alloc: Global, value: &Value) -> Result<Key, Unread>
    ensures ok { IfOk result (λ key. read_key (view value.now) ≡ Some key) }
    ensures err { IfErr result (λ fault. IsUnfit fault (read_key (view value.now))) }
{
    if has_names(&["callees", "procs", "recursive", "structs"], value) {
        whole_key(alloc, value)
    } else {
        Err(Unread::NotOfForm)
    }
}

/// The key of a value: the one well-formed key that [`key_value`] writes so, or `None` where there is none. The only error is want of
/// memory.
#[tactic(auto, using(crate::proofs::ReadBack::key_found, crate::proofs::ReadBack::key_not_formed, crate::proofs::ReadBack::no_key_found))]
pub fn read_key(alloc: Global, value: &Value) -> Result<Option<Key>, AllocError>
    ensures { IfOk result (IsReadKey (view value.now)) }
{
    match key_of(alloc, value) {
        Ok(key) => {
            if well_formed_key(&key) {
                Ok(Some(key))
            } else {
                Ok(None)
            }
        }
        Err(Unread::NotOfForm) => Ok(None),
        Err(Unread::OutOfMemory) => Err(AllocError),
    }
}
