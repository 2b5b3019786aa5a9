//! Arrays of things of one form.
ghost use Rattle.std.specs.Prelude.{◌≡◌, Some, All, IfOk, IfErr};
ghost use Rattle.serde_json.specs.View.{view};
ghost use Rattle.flow_json.specs.Forms.{list_data, read_list};
ghost use Rattle.flow_json.specs.Unread.{IsUnread};

use crate::forms::Form;
use crate::unread::Unread;
use crate::values::items;
use serde_json::Value;
use shape_data::Row;
use std::alloc::{AllocError, Global};

/// The array of the things, in order.
pub fn list_value<T: Form>(alloc: Global, things: &[T]) -> Result<Value, AllocError>
    requires { All T.fits things.now }
    ensures { IfOk result (λ value. view value ≡ list_data T.written things.now) }
{
    let mut values = Vec::new(alloc);
    for thing in things {
        let value = thing.to_value(alloc)?;
        serde_json::push(&mut values, value)?;
    }
    Ok(Value::Array(values))
}

/// The things of an array.
#[tactic(auto, using(crate::proofs::FormLemmas::read_next, crate::proofs::FormLemmas::read_stops), unfolding(crate::specs::Forms::go_on))]
pub fn read_list<T: Form>(alloc: Global, value: &Value) -> Result<Row<T>, Unread>
    ensures ok { IfOk result (λ things. read_list T.reader (view value.now) ≡ Some things) }
    ensures err { IfErr result (λ fault. IsUnread fault (read_list T.reader (view value.now))) }
{
    let mut things = Row::new(alloc);
    for item in items(value)? {
        let thing = T::of_value(alloc, item)?;
        things.push(thing)?;
    }
    Ok(things)
}
