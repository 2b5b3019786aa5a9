//! Marks of loop heads, nodes and flows.
ghost use Rattle.std.specs.Prelude.{◌≡◌, Some, map, IfOk, IfErr};
ghost use Rattle.serde_json.specs.View.{view};
ghost use Rattle.flow_json.specs.Flows.{flow_members, mark_data, node_parts, read_mark};
ghost use Rattle.flow_json.specs.Forms.{option_data, read_option};
ghost use Rattle.flow_json.specs.Unread.{IsUnread};

use crate::forms::Form;
use crate::lists::{list_value, read_list};
use crate::objects::{has_names, member};
use crate::unread::Unread;
use crate::values::{items, read_count};
use serde_json::{Value, json};
use shape_data::name::Name;
use shape_data::program::{Cmd, Flow, HeadMark, Node, Ty};
use std::alloc::{AllocError, Global};

/// `[ints,dead]`, or `null`.
fn mark_value(alloc: Global, mark: &Option<HeadMark>) -> Result<Value, AllocError>
    ensures { IfOk result (λ value. view value ≡ option_data mark_data mark.now) }
{
    match mark {
        Some(mark) =>
            json!(in alloc; [list_value(alloc, mark.ints.as_slice())?, list_value(alloc, mark.dead.as_slice())?]),
        None => Ok(Value::Null),
    }
}

/// The mark of an array.
#[tactic(auto, unfolding(crate::specs::Forms::go_on))]
fn read_mark(alloc: Global, value: &Value) -> Result<HeadMark, Unread>
    ensures ok { IfOk result (λ mark. read_mark (view value.now) ≡ Some mark) }
    ensures err { IfErr result (λ fault. IsUnread fault (read_mark (view value.now))) }
{
    match items(value)? {
        [ints, dead] => Ok(HeadMark {
            ints: read_list(alloc, ints)?,
            dead: read_list(alloc, dead)?,
        }),
        _ => Err(Unread::NotOfForm),
    }
}

/// The mark of a value, if it is not `null`.
#[tactic(auto, unfolding(crate::specs::Forms::go_on))]
fn read_head(alloc: Global, value: &Value) -> Result<Option<HeadMark>, Unread>
    ensures ok { IfOk result (λ head. read_option read_mark (view value.now) ≡ Some head) }
    ensures err { IfErr result (λ fault. IsUnread fault (read_option read_mark (view value.now))) }
{
    if value.is_null() {
        Ok(None)
    } else {
        Ok(Some(read_mark(alloc, value)?))
    }
}

/// `line`, `head`, `cmd`.
#[tactic(auto, unfolding(crate::specs::Forms::go_on))]
fn node_parts(alloc: Global, parts: &[Value]) -> Result<Node, Unread>
    ensures ok { IfOk result (λ node. node_parts (map view parts.now) ≡ Some node) }
    ensures err { IfErr result (λ fault. IsUnread fault (node_parts (map view parts.now))) }
{
    match parts {
        [line, head, cmd] => Ok(Node {
            line: read_count(line)?,
            head: read_head(alloc, head)?,
            cmd: Cmd::of_value(alloc, cmd)?,
        }),
        _ => Err(Unread::NotOfForm),
    }
}

impl Form for Node {
    ghost use Rattle.flow_json.specs.Flows.{node_data, read_node, NodeIsText};

    ghost written = { node_data };

    ghost reader = { read_node };

    ghost fits = { NodeIsText };

    fn to_value(&self, alloc: Global) -> Result<Value, AllocError> {
        json!(in alloc; [self.line, mark_value(alloc, &self.head)?, self.cmd.to_value(alloc)?])
    }

    #[tactic(auto, unfolding(crate::specs::Forms::go_on))]
    fn of_value(alloc: Global, value: &Value) -> Result<Node, Unread> {
        node_parts(alloc, items(value)?)
    }
}

/// The flow of an object with a flow's members.
#[tactic(auto, unfolding(crate::specs::Forms::go_on))]
fn flow_members(alloc: Global, value: &Value) -> Result<Flow, Unread>
    ensures ok { IfOk result (λ flow. flow_members (view value.now) ≡ Some flow) }
    ensures err { IfErr result (λ fault. IsUnread fault (flow_members (view value.now))) }
{
    let name = Name::of_value(alloc, member(value, "name")?)?;
    let nodes = read_list(alloc, member(value, "nodes")?)?;
    let params = read_list(alloc, member(value, "params")?)?;
    let ret = Ty::of_value(alloc, member(value, "ret")?)?;
    let slots = read_list(alloc, member(value, "slots")?)?;
    Ok(Flow {
        name,
        params,
        slots,
        ret,
        nodes,
    })
}

impl Form for Flow {
    ghost use Rattle.flow_json.specs.Flows.{flow_data, read_flow, FlowIsText};

    ghost written = { flow_data };

    ghost reader = { read_flow };

    ghost fits = { FlowIsText };

    fn to_value(&self, alloc: Global) -> Result<Value, AllocError> {
        json!(in alloc; {
            "name": self.name.to_value(alloc)?,
            "nodes": list_value(alloc, self.nodes.as_slice())?,
            "params": list_value(alloc, self.params.as_slice())?,
            "ret": self.ret.to_value(alloc)?,
            "slots": list_value(alloc, self.slots.as_slice())?
        })
    }

    fn of_value(alloc: Global, value: &Value) -> Result<Flow, Unread> {
        if has_names(&["name", "nodes", "params", "ret", "slots"], value) {
            flow_members(alloc, value)
        } else {
            Err(Unread::NotOfForm)
        }
    }
}
