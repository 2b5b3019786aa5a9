//! Specs and callees.
ghost use Rattle.std.specs.Prelude.{◌≡◌, Some, map, IfOk, IfErr};
ghost use Rattle.serde_json.specs.View.{view};
ghost use Rattle.shape_data.specs.WellFormed.{AreParams, AreStructs};
ghost use Rattle.flow_json.specs.Unread.{IsUnread};
ghost use Rattle.summary_json.specs.Keys.{callee_parts, spec_members};

use crate::params::read_params;
use crate::scoped::Scoped;
use flow_json::objects::{has_names, member};
use flow_json::values::items;
use flow_json::{Form, Unread, list_value};
use serde_json::{Value, json};
use shape_data::answer::Callee;
use shape_data::program::StructDef;
use shape_data::symbolic::{Spec, SymHeap};
use shape_data::{Name, Row};
use std::alloc::{AllocError, Global};

/// The spec of an object with a spec's members.
#[tactic(auto, unfolding(flow_json::specs::Forms::go_on))]
fn spec_members(
    alloc: Global,
    structs: &[StructDef],
    params: &[Name],
    value: &Value,
) -> Result<Spec, Unread>
    requires structs { AreStructs structs.now }
    requires params { AreParams params.now }
    ensures ok { IfOk result (λ spec. spec_members structs.now params.now (view value.now) ≡ Some spec) }
    ensures err { IfErr result (λ fault. IsUnread fault (spec_members structs.now params.now (view value.now))) }
{
    let posts = Row::of_value(alloc, structs, params, member(value, "posts")?)?;
    let pre = SymHeap::of_value(alloc, structs, params, member(value, "pre")?)?;
    Ok(Spec { pre, posts })
}

impl Scoped for Spec {
    ghost use Rattle.std.specs.Prelude.{length};
    ghost use Rattle.shape_data.specs.WellFormed.{storable, IsSpec};
    ghost use Rattle.summary_json.specs.Keys.{read_spec, spec_data};

    ghost written = { spec_data };

    ghost reader = { read_spec };

    ghost fits = { λ structs params. IsSpec storable structs (length params) };

    fn to_value(
        &self,
        alloc: Global,
        structs: &[StructDef],
        params: &[Name],
    ) -> Result<Value, AllocError> {
        json!(in alloc; {
            "posts": self.posts.to_value(alloc, structs, params)?,
            "pre": self.pre.to_value(alloc, structs, params)?
        })
    }

    fn of_value(
        alloc: Global,
        structs: &[StructDef],
        params: &[Name],
        value: &Value,
    ) -> Result<Spec, Unread> {
        if has_names(&["posts", "pre"], value) {
            spec_members(alloc, structs, params, value)
        } else {
            Err(Unread::NotOfForm)
        }
    }
}

/// A callee's name, parameters and specs.
#[tactic(auto, unfolding(flow_json::specs::Forms::go_on))]
fn callee_parts(alloc: Global, structs: &[StructDef], parts: &[Value]) -> Result<Callee, Unread>
    requires { AreStructs structs.now }
    ensures ok { IfOk result (λ callee. callee_parts structs.now (map view parts.now) ≡ Some callee) }
    ensures err { IfErr result (λ fault. IsUnread fault (callee_parts structs.now (map view parts.now))) }
{
    match parts {
        [name, params, specs] => {
            let name = Name::of_value(alloc, name)?;
            let params = read_params(alloc, params)?;
            let specs = Row::of_value(alloc, structs, params.as_slice(), specs)?;
            Ok(Callee {
                name,
                params,
                specs,
            })
        }
        _ => Err(Unread::NotOfForm),
    }
}

/// A callee is over its own parameters.
impl Scoped for Callee {
    ghost use Rattle.shape_data.specs.WellFormed.{storable, IsCallee};
    ghost use Rattle.summary_json.specs.Keys.{callee_data, read_callee};

    ghost written = { λ structs params. callee_data structs };

    ghost reader = { λ structs params. read_callee structs };

    ghost fits = { λ structs params. IsCallee storable structs };

    #[tactic(auto, using(flow_json::proofs::TextLaws::name_is_text, crate::proofs::PlainTexts::names_are_utf8))]
    fn to_value(
        &self,
        alloc: Global,
        structs: &[StructDef],
        _params: &[Name],
    ) -> Result<Value, AllocError> {
        let params = self.params.as_slice();
        json!(in alloc; [
            Form::to_value(&self.name, alloc)?,
            list_value(alloc, params)?,
            self.specs.to_value(alloc, structs, params)?
        ])
    }

    #[tactic(auto, unfolding(flow_json::specs::Forms::go_on))]
    fn of_value(
        alloc: Global,
        structs: &[StructDef],
        _params: &[Name],
        value: &Value,
    ) -> Result<Callee, Unread> {
        callee_parts(alloc, structs, items(value)?)
    }
}
