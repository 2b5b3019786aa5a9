//! Parts of values, as the forms see them.
ghost use Rattle.std.specs.Prelude.{◌≡◌, Some, map, IfOk, IfErr};
ghost use Rattle.serde_json.specs.Find.{as_bool, as_str};
ghost use Rattle.serde_json.specs.View.{view};
ghost use Rattle.flow_json.specs.Forms.{as_list, read_count, read_int};
ghost use Rattle.flow_json.specs.Unread.{IsUnread};

use crate::unread::Unread;
use serde_json::Value;

/// What an array is of.
#[tactic(auto, using(crate::proofs::FormLemmas::list_of_items))]
pub fn items(value: &Value) -> Result<&[Value], Unread>
    ensures ok { IfOk result (λ items. as_list (view value.now) ≡ Some (map view items.now)) }
    ensures err { IfErr result (λ fault. IsUnread fault (as_list (view value.now))) }
{
    match value.as_array() {
        Some(items) => Ok(items.as_slice()),
        None => Err(Unread::NotOfForm),
    }
}

/// A string's text.
pub fn text(value: &Value) -> Result<&str, Unread>
    ensures ok { IfOk result (λ word. as_str (view value.now) ≡ Some word.now) }
    ensures err { IfErr result (λ fault. IsUnread fault (as_str (view value.now))) }
{
    match value.as_str() {
        Some(word) => Ok(word),
        None => Err(Unread::NotOfForm),
    }
}

/// A truth value.
pub fn read_flag(value: &Value) -> Result<bool, Unread>
    ensures ok { IfOk result (λ flag. as_bool (view value.now) ≡ Some flag) }
    ensures err { IfErr result (λ fault. IsUnread fault (as_bool (view value.now))) }
{
    match value.as_bool() {
        Some(flag) => Ok(flag),
        None => Err(Unread::NotOfForm),
    }
}

/// A number of 32 bits.
#[tactic(auto, unfolding(crate::specs::Forms::go_on))]
pub fn read_count(value: &Value) -> Result<u32, Unread>
    ensures ok { IfOk result (λ n. read_count (view value.now) ≡ Some n) }
    ensures err { IfErr result (λ fault. IsUnread fault (read_count (view value.now))) }
{
    match value.as_u64() {
        Some(n) => {
            if n < 4294967296 {
                Ok(n as u32)
            } else {
                Err(Unread::NotOfForm)
            }
        }
        None => Err(Unread::NotOfForm),
    }
}

/// A number of 32 bits with a sign.
pub fn read_int(value: &Value) -> Result<i32, Unread>
    ensures ok { IfOk result (λ n. read_int (view value.now) ≡ Some n) }
    ensures err { IfErr result (λ fault. IsUnread fault (read_int (view value.now))) }
{
    match value.as_u64() {
        Some(n) => {
            if n < 2147483648 {
                Ok(n as i32)
            } else {
                Err(Unread::NotOfForm)
            }
        }
        None => match value.as_i64() {
            Some(n) => {
                if -2147483648 <= n && n < 0 {
                    Ok(n as i32)
                } else {
                    Err(Unread::NotOfForm)
                }
            }
            None => Err(Unread::NotOfForm),
        },
    }
}
