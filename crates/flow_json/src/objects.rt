//! Objects with known members.
ghost use Rattle.std.specs.Prelude.{◌≡◌, Some, map, IfOk, IfErr};
ghost use Rattle.serde_json.specs.Data.{no_members};
ghost use Rattle.serde_json.specs.Find.{get};
ghost use Rattle.serde_json.specs.View.{view, members_view};
ghost use Rattle.flow_json.specs.Forms.{has_names, names_are};
ghost use Rattle.flow_json.specs.Unread.{IsUnread};

use crate::unread::Unread;
use serde_json::{Map, Value};

/// Whether no name is left, as at the end of an object's members.
#[tactic(auto, using(crate::proofs::FormLemmas::names_end))]
fn no_names(left: &[&str]) -> bool
    ensures { result ≡ names_are (map (λ name. name.now) left.now) no_members }
{
    left.is_empty()
}

/// Whether the members have these names, in this order.
fn names_are(names: &[&str], members: &Map<String, Value>) -> bool
    ensures { result ≡ names_are (map (λ name. name.now) names.now) (members_view members.now.entries) }
{
    let mut left = names;
    for (key, _) in members.iter() {
        match left {
            [name, others @ ..] if key.as_str() == *name => left = others,
            _ => return false,
        }
    }
    no_names(left)
}

/// Whether the value is an object with these members and no others.
pub fn has_names(names: &[&str], value: &Value) -> bool
    ensures { result ≡ has_names (map (λ name. name.now) names.now) (view value.now) }
{
    match value.as_object() {
        Some(members) => names_are(names, members),
        None => false,
    }
}

/// The member of a name.
pub fn member<'a>(value: &'a Value, name: &str) -> Result<&'a Value, Unread>
    ensures ok { IfOk result (λ found. get name.now (view value.now) ≡ Some (view found.now)) }
    ensures err { IfErr result (λ fault. IsUnread fault (get name.now (view value.now))) }
{
    match value.get(name) {
        Some(found) => Ok(found),
        None => Err(Unread::NotOfForm),
    }
}
