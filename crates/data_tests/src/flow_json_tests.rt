use flow_json::{Form, Unread};
use serde_json::Value;
use shape_data::program::{ArithOp, Cmd, Flow, Operand, StructDef, TestOp};
use std::alloc::Global;
use std::test::Fail;

/// Flows by the table of forms: all commands, an operand of each sort, a call with a result and one without, and a mark.
const FLOWS: [(&str, usize); 3] = [
    (
        "{\"name\":\"f\",\"nodes\":[],\"params\":[],\"ret\":\"void\",\"slots\":[]}",
        0,
    ),
    (
        "{\"name\":\"get\",\"nodes\":[[0,null,[\"load\",1,0,\"node\",0,1]],[0,null,[\"return\",[\"s\",1]]],[0,null,[\"any\",1,\"int\",3]],[0,null,[\"return\",[\"s\",1]]]],\"params\":[\"x\"],\"ret\":\"int\",\"slots\":[[\"ptr\",\"node\"],\"int\"]}",
        4,
    ),
    (
        "{\"name\":\"g\",\"nodes\":[[0,[[0],[1,2]],[\"copy\",0,[\"n\",-2147483648],1]],[4294967295,null,[\"arith\",0,\"*\",[\"s\",0],[\"n\",2147483647],2]],[1,[[],[]],[\"store\",0,\"node\",1,[\"n\",0],3]],[1,null,[\"new\",0,\"node\",4]],[1,null,[\"free\",0,\"node\",5]],[1,null,[\"call\",null,\"f\",[[\"s\",0],[\"n\",2]],6]],[1,null,[\"call\",1,\"g\",[],7]],[1,null,[\"branch\",\"<=\",true,[\"s\",0],[\"n\",3],8,9]]],\"params\":[],\"ret\":\"void\",\"slots\":[]}",
        8,
    ),
];

fn node_count(alloc: Global, text: &str) -> Result<usize, Fail> {
    let value = Value::from_str(alloc, text)?;
    let flow = Flow::of_value(alloc, &value)?;
    Ok(flow.nodes.len())
}

#[test]
fn reads_flows(rt: HostRuntime) -> Result<(), Fail> {
    for (text, nodes) in FLOWS {
        assert_eq!(rt; node_count(rt.alloc(), text)?, nodes);
    }
    Ok(())
}

/// No structure, each for one reason: another form, a member or an item too many or too few, a number that is no number of 32 bits, a
/// name that is none.
const NO_STRUCTS: [&str; 9] = [
    "null",
    "[\"s\"]",
    "[\"s\",[],[]]",
    "[\"s\",{}]",
    "[\"\",[]]",
    "[1,[]]",
    "[\"s\",[[\"f\",\"char\"]]]",
    "[\"s\",[[\"f\",[\"ptr\"]]]]",
    "[\"s\",[[\"f\",[\"int\",\"n\"]]]]",
];

/// No nodes' commands.
const NO_CMDS: [&str; 10] = [
    "[]",
    "[\"jump\",1]",
    "[\"return\",[\"s\",4294967296]]",
    "[\"return\",[\"n\",2147483648]]",
    "[\"return\",[\"n\",-2147483649]]",
    "[\"return\",[\"s\",1.0]]",
    "[\"return\",[\"n\",-0]]",
    "[\"return\",[\"s\",-1]]",
    "[\"branch\",\"=\",true,[\"s\",0],[\"n\",3],8,9]",
    "[\"branch\",\"<\",1,[\"s\",0],[\"n\",3],8,9]",
];

/// No flows: a member too few or too many, and another form.
const NO_FLOWS: [&str; 3] = [
    "{\"name\":\"f\",\"nodes\":[],\"params\":[],\"ret\":\"void\"}",
    "{\"line\":1,\"name\":\"f\",\"nodes\":[],\"params\":[],\"ret\":\"void\",\"slots\":[]}",
    "[]",
];

/// Whether a text gives nothing, since it is not of the form.
fn is_of_no_form<T: Form>(alloc: Global, text: &str) -> Result<bool, Fail> {
    let value = Value::from_str(alloc, text)?;
    Ok(matches!(T::of_value(alloc, &value), Err(Unread::NotOfForm)))
}

#[test]
fn refuses_what_is_not_of_the_form(rt: HostRuntime) -> Result<(), Fail> {
    for text in NO_STRUCTS {
        assert!(rt; is_of_no_form::<StructDef>(rt.alloc(), text)?, "{text}");
    }
    for text in NO_CMDS {
        assert!(rt; is_of_no_form::<Cmd>(rt.alloc(), text)?, "{text}");
    }
    for text in NO_FLOWS {
        assert!(rt; is_of_no_form::<Flow>(rt.alloc(), text)?, "{text}");
    }
    Ok(())
}

#[test]
fn writes_sums(rt: HostRuntime) {
    let arith = Cmd::Arith {
        to: 0,
        op: ArithOp::Sub,
        left: Operand::Slot(1),
        right: Operand::Num(-7),
        next: 2,
    };
    let value = arith.to_value(rt.alloc()).expect(&rt, "memory");
    let text = value.to_string(rt.alloc()).expect(&rt, "memory");
    assert_eq!(rt; text.as_str(), "[\"arith\",0,\"-\",[\"s\",1],[\"n\",-7],2]");
}

#[test]
fn writes_branches(rt: HostRuntime) {
    let branch = Cmd::Branch {
        op: TestOp::Ge,
        pointers: false,
        left: Operand::Slot(0),
        right: Operand::Num(3),
        yes: 8,
        no: 9,
    };
    let value = branch.to_value(rt.alloc()).expect(&rt, "memory");
    let text = value.to_string(rt.alloc()).expect(&rt, "memory");
    assert_eq!(rt;
        text.as_str(),
        "[\"branch\",\">=\",false,[\"s\",0],[\"n\",3],8,9]"
    );
}
