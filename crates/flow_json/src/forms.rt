//! What has a form, and the forms of numbers and names.
ghost use Rattle.std.specs.Prelude.{◌≡◌, ◌&&◌, nat_le, length};

use crate::unread::Unread;
use crate::values::{read_count, text};
use serde_json::Value;
use shape_data::name::Name;
use std::alloc::{AllocError, Global};

/// Whether a name can have so many bytes.
fn has_name_length(bytes: &[u8]) -> bool
    ensures { result ≡ (nat_le 1 (length bytes.now) && nat_le (length bytes.now) 64) }
{
    1 <= bytes.len() && bytes.len() <= 64
}

/// What has a JSON form.
pub trait Form: Sized + Drop {
    ghost use Rattle.std.specs.Prelude.{◌≡◌, Option, Some, IfOk, IfErr};
    ghost use Rattle.serde_json.specs.Data.{Data};
    ghost use Rattle.serde_json.specs.View.{view};
    ghost use Rattle.flow_json.specs.Unread.{IsUnread};

    /// What it is written as.
    ghost written: { Self → Data };

    /// How it is read.
    ghost reader: { Data → Option Self };

    /// What can be written.
    ghost fits: { Self → Type 0 };

    /// The value of a thing.
    fn to_value(&self, alloc: Global) -> Result<Value, AllocError>
        requires { fits self.now }
        ensures { IfOk result (λ value. view value ≡ written self.now) };

    /// The thing of a value.
    fn of_value(alloc: Global, value: &Value) -> Result<Self, Unread>
        ensures ok { IfOk result (λ thing. reader (view value.now) ≡ Some thing) }
        ensures err { IfErr result (λ fault. IsUnread fault (reader (view value.now))) };
}

impl Form for u32 {
    ghost use Rattle.flow_json.specs.Forms.{count_data, read_count};

    ghost written = { count_data };

    ghost reader = { read_count };

    ghost fits = { λ n. Unit {0} };

    fn to_value(&self, _alloc: Global) -> Result<Value, AllocError> {
        Ok(Value::from(*self))
    }

    fn of_value(_alloc: Global, value: &Value) -> Result<u32, Unread> {
        read_count(value)
    }
}

impl Form for Name {
    ghost use Rattle.std.specs.Prelude.{IsUtf8};
    ghost use Rattle.serde_json.specs.Data.{string};
    ghost use Rattle.flow_json.specs.Forms.{read_name};

    ghost written = { string };

    ghost reader = { read_name };

    ghost fits = { IsUtf8 };

    fn to_value(&self, alloc: Global) -> Result<Value, AllocError> {
        match std::str::from_utf8(self.as_bytes()) {
            Ok(word) => Value::try_from_str(alloc, word),
            Err(_) => unreachable!(),
        }
    }

    #[tactic(auto, unfolding(crate::specs::Forms::go_on))]
    fn of_value(alloc: Global, value: &Value) -> Result<Name, Unread> {
        let bytes = text(value)?.as_bytes();
        if has_name_length(bytes) {
            Ok(Name::of(alloc, bytes)?)
        } else {
            Err(Unread::NotOfForm)
        }
    }
}
