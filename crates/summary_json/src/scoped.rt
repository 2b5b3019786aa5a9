//! What has a JSON form over structures and parameters, and rows of such things.
ghost use Rattle.std.specs.Prelude.{◌≡◌, Some, All, IfOk, IfErr};
ghost use Rattle.serde_json.specs.View.{view};
ghost use Rattle.shape_data.specs.WellFormed.{AreParams, AreStructs};
ghost use Rattle.flow_json.specs.Forms.{list_data, read_list};
ghost use Rattle.flow_json.specs.Unread.{IsUnread};

use flow_json::Unread;
use flow_json::values::items;
use serde_json::Value;
use shape_data::program::StructDef;
use shape_data::{Name, Row};
use std::alloc::{AllocError, Global};

/// What has a JSON form over the structures of a program and the parameters of a procedure.
pub trait Scoped: Sized + Drop {
    ghost use Rattle.std.specs.Prelude.{◌≡◌, ℕ, List, Option, Some, IfOk, IfErr};
    ghost use Rattle.serde_json.specs.Data.{Data};
    ghost use Rattle.serde_json.specs.View.{view};
    ghost use Rattle.shape_data.specs.declared.program.StructDef.{StructDef as Def};
    ghost use Rattle.shape_data.specs.WellFormed.{AreParams, AreStructs};
    ghost use Rattle.flow_json.specs.Unread.{IsUnread};

    /// What it is written as.
    ghost written: { List Def → List (List ℕ) → Self → Data };

    /// How it is read.
    ghost reader: { List Def → List (List ℕ) → Data → Option Self };

    /// What can be written.
    ghost fits: { List Def → List (List ℕ) → Self → Type 0 };

    /// The value of a thing.
    fn to_value(
        &self,
        alloc: Global,
        structs: &[StructDef],
        params: &[Name],
    ) -> Result<Value, AllocError>
        requires structs { AreStructs structs.now }
        requires params { AreParams params.now }
        requires fits { fits structs.now params.now self.now }
        ensures { IfOk result (λ value. view value ≡ written structs.now params.now self.now) };

    /// The thing of a value.
    fn of_value(
        alloc: Global,
        structs: &[StructDef],
        params: &[Name],
        value: &Value,
    ) -> Result<Self, Unread>
        requires structs { AreStructs structs.now }
        requires params { AreParams params.now }
        ensures ok { IfOk result (λ thing. reader structs.now params.now (view value.now) ≡ Some thing) }
        ensures err { IfErr result (λ fault. IsUnread fault (reader structs.now params.now (view value.now))) };
}

/// The array of the things, in order.
fn row_value<T: Scoped>(
    alloc: Global,
    structs: &[StructDef],
    params: &[Name],
    things: &[T],
) -> Result<Value, AllocError>
    requires structs { AreStructs structs.now }
    requires params { AreParams params.now }
    requires fits { All (T.fits structs.now params.now) things.now }
    ensures { IfOk result (λ value. view value ≡ list_data (T.written structs.now params.now) things.now) }
{
    let mut values = Vec::new(alloc);
    for thing in things {
        let value = thing.to_value(alloc, structs, params)?;
        serde_json::push(&mut values, value)?;
    }
    Ok(Value::Array(values))
}

/// The things of an array.
#[tactic(auto, using(flow_json::proofs::FormLemmas::read_next, flow_json::proofs::FormLemmas::read_stops), unfolding(flow_json::specs::Forms::go_on))]
fn read_row<T: Scoped>(
    alloc: Global,
    structs: &[StructDef],
    params: &[Name],
    value: &Value,
) -> Result<Row<T>, Unread>
    requires structs { AreStructs structs.now }
    requires params { AreParams params.now }
    ensures ok { IfOk result (λ things. read_list (T.reader structs.now params.now) (view value.now) ≡ Some things) }
    ensures err { IfErr result (λ fault. IsUnread fault (read_list (T.reader structs.now params.now) (view value.now))) }
{
    let mut things = Row::new(alloc);
    for item in items(value)? {
        let thing = T::of_value(alloc, structs, params, item)?;
        things.push(thing)?;
    }
    Ok(things)
}

impl<T: Scoped> Scoped for Row<T> {
    ghost use Rattle.std.specs.Prelude.{All};
    ghost use Rattle.flow_json.specs.Forms.{list_data, read_list};

    ghost written = { λ structs params. list_data (T.written structs params) };

    ghost reader = { λ structs params. read_list (T.reader structs params) };

    ghost fits = { λ structs params. All (T.fits structs params) };

    fn to_value(
        &self,
        alloc: Global,
        structs: &[StructDef],
        params: &[Name],
    ) -> Result<Value, AllocError> {
        row_value(alloc, structs, params, self.as_slice())
    }

    fn of_value(
        alloc: Global,
        structs: &[StructDef],
        params: &[Name],
        value: &Value,
    ) -> Result<Row<T>, Unread> {
        read_row(alloc, structs, params, value)
    }
}
