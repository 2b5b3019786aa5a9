//! States and certificates.
ghost use Rattle.std.specs.Prelude.{◌≡◌, Some, IfOk, IfErr};
ghost use Rattle.serde_json.specs.View.{view};
ghost use Rattle.shape_data.specs.WellFormed.{AreParams, AreStructs};
ghost use Rattle.flow_json.specs.Unread.{IsUnread};
ghost use Rattle.summary_json.specs.Answers.{cert_members, state_members};

use crate::scoped::Scoped;
use flow_json::Unread;
use flow_json::objects::{has_names, member};
use serde_json::{Value, json};
use shape_data::program::StructDef;
use shape_data::symbolic::{Cert, SymHeap, SymState};
use shape_data::{Name, Row};
use std::alloc::{AllocError, Global};

/// The state of an object with a state's members.
#[tactic(auto, unfolding(flow_json::specs::Forms::go_on))]
fn state_members(
    alloc: Global,
    structs: &[StructDef],
    params: &[Name],
    value: &Value,
) -> Result<SymState, Unread>
    requires structs { AreStructs structs.now }
    requires params { AreParams params.now }
    ensures ok { IfOk result (λ state. state_members structs.now params.now (view value.now) ≡ Some state) }
    ensures err { IfErr result (λ fault. IsUnread fault (state_members structs.now params.now (view value.now))) }
{
    let heap = SymHeap::of_value(alloc, structs, params, member(value, "heap")?)?;
    let locals = Row::of_value(alloc, structs, params, member(value, "locals")?)?;
    Ok(SymState { locals, heap })
}

impl Scoped for SymState {
    ghost use Rattle.summary_json.specs.Answers.{read_state, state_data};
    ghost use Rattle.summary_json.specs.Written.{StateIsText};

    ghost written = { state_data };

    ghost reader = { read_state };

    ghost fits = { StateIsText };

    fn to_value(
        &self,
        alloc: Global,
        structs: &[StructDef],
        params: &[Name],
    ) -> Result<Value, AllocError> {
        json!(in alloc; {
            "heap": self.heap.to_value(alloc, structs, params)?,
            "locals": self.locals.to_value(alloc, structs, params)?
        })
    }

    fn of_value(
        alloc: Global,
        structs: &[StructDef],
        params: &[Name],
        value: &Value,
    ) -> Result<SymState, Unread> {
        if has_names(&["heap", "locals"], value) {
            state_members(alloc, structs, params, value)
        } else {
            Err(Unread::NotOfForm)
        }
    }
}

/// The certificate of an object with a certificate's members.
#[tactic(auto, unfolding(flow_json::specs::Forms::go_on))]
fn cert_members(
    alloc: Global,
    structs: &[StructDef],
    params: &[Name],
    value: &Value,
) -> Result<Cert, Unread>
    requires structs { AreStructs structs.now }
    requires params { AreParams params.now }
    ensures ok { IfOk result (λ cert. cert_members structs.now params.now (view value.now) ≡ Some cert) }
    ensures err { IfErr result (λ fault. IsUnread fault (cert_members structs.now params.now (view value.now))) }
{
    let exits = Row::of_value(alloc, structs, params, member(value, "exits")?)?;
    let nodes = Row::of_value(alloc, structs, params, member(value, "nodes")?)?;
    Ok(Cert { nodes, exits })
}

impl Scoped for Cert {
    ghost use Rattle.summary_json.specs.Answers.{cert_data, read_cert};
    ghost use Rattle.summary_json.specs.Written.{CertIsText};

    ghost written = { cert_data };

    ghost reader = { read_cert };

    ghost fits = { CertIsText };

    fn to_value(
        &self,
        alloc: Global,
        structs: &[StructDef],
        params: &[Name],
    ) -> Result<Value, AllocError> {
        json!(in alloc; {
            "exits": self.exits.to_value(alloc, structs, params)?,
            "nodes": self.nodes.to_value(alloc, structs, params)?
        })
    }

    fn of_value(
        alloc: Global,
        structs: &[StructDef],
        params: &[Name],
        value: &Value,
    ) -> Result<Cert, Unread> {
        if has_names(&["exits", "nodes"], value) {
            cert_members(alloc, structs, params, value)
        } else {
            Err(Unread::NotOfForm)
        }
    }
}
