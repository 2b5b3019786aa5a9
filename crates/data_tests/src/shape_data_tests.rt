//! The tests of well-formedness on one program, key and answer, and on each with one rule broken. Structures and procedures
//! are a text of their JSON form, in which a row changes one place; heaps and answers are tables of plain values.
use flow_json::objects::member;
use flow_json::values::items;
use flow_json::{Form, Unread, read_list};
use serde_json::Value;
use shape_data::answer::{Answer, Callee, Fault, Key, ProcSummary, Reason};
use shape_data::name::Name;
use shape_data::program::{Flow, Proc, Program};
use shape_data::row::Row;
use shape_data::symbolic::{Atom, Cert, Exp, Fact, Post, Spec, SymHeap, SymState};
use shape_data::{well_formed_answer, well_formed_key, well_formed_program};
use std::alloc::{AllocError, Global};
use std::test::Fail;

/// `struct node { int data; struct node *next; };`, `int get(struct node *x) { return x->data; }`, with a loop head's mark on
/// its first node, and `int peek(struct node *x) { return get(x); }`, which also calls `other`, of one parameter.
const CODE: &str = r#"{
    "structs": [["node", [["data", "int"], ["next", ["ptr", "node"]]]]],
    "procs": [
        {
            "name": "get", "params": ["x"], "slots": [["ptr", "node"], "int"], "ret": "int",
            "nodes": [[0, [[1], []], ["load", 1, 0, "node", 0, 1]], [0, null, ["return", ["s", 1]]]]
        },
        {
            "name": "peek", "params": ["x"], "slots": [["ptr", "node"], "int"], "ret": "int",
            "nodes": [
                [0, null, ["call", 1, "get", [["s", 0]], 1]],
                [0, null, ["call", null, "other", [["s", 0]], 2]],
                [0, null, ["return", ["s", 1]]]
            ]
        }
    ]
}"#;

/// A change of the code, at the first place where this text stands: the text, and what stands there instead.
type Edit<'a> = (&'a str, &'a str);

/// No change.
const NO_EDIT: Edit = ("", "");

/// Programs that are none, each with the rule that it breaks.
const NO_PROGRAMS: [(&str, Edit); 16] = [
    (
        "a procedure's name",
        (r#""name": "get""#, r#""name": "get-it""#),
    ),
    (
        "a field's name",
        (r#"["data", "int"]"#, r#"["1data", "int"]"#),
    ),
    (
        "the name of what a field points to",
        (r#"["ptr", "node"]"#, r#"["ptr", "no de"]"#),
    ),
    ("the name of what is called", (r#""other""#, r#""other?""#)),
    (
        "fields have different names",
        (r#"["next", ["#, r#"["data", ["#),
    ),
    (
        "structures have different names",
        (
            r#""structs": ["#,
            r#""structs": [["node", [["data", "int"], ["next", ["ptr", "node"]]]], "#,
        ),
    ),
    (
        "parameters have different names",
        (r#"["x"]"#, r#"["x", "x"]"#),
    ),
    (
        "procedures have different names",
        (r#""name": "peek""#, r#""name": "get""#),
    ),
    (
        "there is a node",
        (
            r#"[[0, [[1], []], ["load", 1, 0, "node", 0, 1]], [0, null, ["return", ["s", 1]]]]"#,
            "[]",
        ),
    ),
    ("the next node", (r#""node", 0, 1]"#, r#""node", 0, 2]"#)),
    (
        "the slot that is loaded",
        (r#"["load", 1"#, r#"["load", 2"#),
    ),
    (
        "the field that is loaded",
        (r#""node", 0, 1]"#, r#""node", 2, 1]"#),
    ),
    (
        "the structure that is loaded",
        (r#"["load", 1, 0, "node""#, r#"["load", 1, 0, "tree""#),
    ),
    ("the slots of a mark", (r#"[[1], []]"#, r#"[[2], []]"#)),
    (
        "a call's arguments",
        (r#""get", [["s", 0]]"#, r#""get", [["s", 0], ["n", 0]]"#),
    ),
    ("a node's line", (r#"[0, [[1]"#, r#"[4294967295, [[1]"#)),
];

/// Code of no key, each with the rule that it breaks.
const NO_KEYS: [(&str, Edit); 7] = [
    (
        "structures have different names",
        (
            r#""structs": ["#,
            r#""structs": [["node", [["data", "int"], ["next", ["ptr", "node"]]]], "#,
        ),
    ),
    (
        "procedures have different names",
        (r#""name": "peek""#, r#""name": "get""#),
    ),
    ("the next node", (r#""node", 0, 1]"#, r#""node", 0, 2]"#)),
    (
        "a call's arguments",
        (r#""get", [["s", 0]]"#, r#""get", [["s", 0], ["n", 0]]"#),
    ),
    (
        "there is a procedure",
        (r#""procs": ["#, r#""procs": [], "others": ["#),
    ),
    (
        "procedures are in order",
        (r#""name": "peek""#, r#""name": "fetch""#),
    ),
    (
        "a call of a callee",
        (r#""other", [["s", 0]]"#, r#""other", [["s", 0], ["n", 0]]"#),
    ),
];

/// `x!=0 * x|->node(FIELDS) * ls[node.LINK]($3,0) * junk`: the values of the fields, and the place of the link.
type Heap<'a> = (&'a [Exp], u32);

/// `x!=0 * x|->node(data:$1,next:$2) * ls[node.next]($3,0) * junk`
const HEAP: Heap = (&[Exp::Var(1), Exp::Var(98_303)], 1);

/// Heaps that are none, each with the rule that it breaks.
const NO_HEAPS: [(&str, Heap); 4] = [
    (
        "a cell's values",
        (&[Exp::Var(1), Exp::Var(98_303), Exp::Const(0)], 1),
    ),
    ("a segment's link", (&[Exp::Var(1), Exp::Var(98_303)], 2)),
    (
        "the last logical variable",
        (&[Exp::Var(32_769), Exp::Var(98_303)], 1),
    ),
    (
        "the last existential variable",
        (&[Exp::Var(1), Exp::Var(98_304)], 1),
    ),
];

/// An answer: of `get` one spec with a certificate, and none of `peek`.
#[derive(Clone, Copy)]
struct Draft<'a> {
    heap: Heap<'a>,
    /// The name of the first summary.
    name: &'a [u8],
    has_cert: bool,
    /// The values of the slots in each node's only state; a node with no values has no state.
    nodes: &'a [&'a [Exp]],
    has_peek: bool,
    /// Why there is no spec of `peek`.
    reason: Option<Reason>,
}

const ANSWER: Draft = Draft {
    heap: HEAP,
    name: b"get",
    has_cert: true,
    nodes: &[&[Exp::Var(0), Exp::Var(1)], &[Exp::Var(0), Exp::Var(1)]],
    has_peek: true,
    reason: Some(Reason::NoPath {
        fault: Fault::Callee,
        line: 0,
    }),
};

/// Answers that are none for their own parts, each with the rule that it breaks.
const NO_ANSWERS: [(&str, Draft); 6] = [
    (
        "a summary's name",
        Draft {
            name: b"got",
            ..ANSWER
        },
    ),
    (
        "there is a summary of each procedure",
        Draft {
            has_peek: false,
            ..ANSWER
        },
    ),
    (
        "a spec has a certificate",
        Draft {
            has_cert: false,
            ..ANSWER
        },
    ),
    (
        "a certificate's nodes",
        Draft {
            nodes: &[
                &[Exp::Var(0), Exp::Var(1)],
                &[Exp::Var(0), Exp::Var(1)],
                &[],
            ],
            ..ANSWER
        },
    ),
    (
        "a state's slots",
        Draft {
            nodes: &[
                &[Exp::Var(0), Exp::Var(1), Exp::Const(0)],
                &[Exp::Var(0), Exp::Var(1), Exp::Const(0)],
            ],
            ..ANSWER
        },
    ),
    (
        "there is a reason where there is no spec",
        Draft {
            reason: None,
            ..ANSWER
        },
    ),
];

fn name(alloc: Global, bytes: &[u8]) -> Result<Name, Fail> {
    if !Name::is_name(bytes) {
        return Err("no name")?;
    }
    Ok(Name::of(alloc, bytes)?)
}

/// A row of one value.
fn one<T: Drop>(alloc: Global, value: T) -> Result<Row<T>, AllocError> {
    let mut row = Row::new(alloc);
    row.push(value)?;
    Ok(row)
}

/// The code with one change.
fn code(alloc: Global, edit: Edit) -> Result<Value, Fail> {
    let (old, new) = edit;
    let text = CODE.replacen(alloc, old, new, 1)?;
    Ok(Value::from_str(alloc, text.as_str())?)
}

fn proc(alloc: Global, value: &Value, line: u32) -> Result<Proc, Fail> {
    Ok(Proc {
        file: name(alloc, b"a.c")?,
        flow: Flow::of_value(alloc, value)?,
        line,
    })
}

/// `get` on line 2, and `peek` on line 3.
fn procs(alloc: Global, values: &[Value]) -> Result<Row<Proc>, Fail> {
    let mut procs = Row::new(alloc);
    for (line, value) in (2..4).zip(values) {
        procs.push(proc(alloc, value, line)?)?;
    }
    Ok(procs)
}

fn program_of(alloc: Global, code: &Value) -> Result<Program, Fail> {
    let values = items(member(code, "procs")?)?;
    Ok(Program {
        structs: read_list(alloc, member(code, "structs")?)?,
        procs: procs(alloc, values)?,
    })
}

fn program(alloc: Global, edit: Edit) -> Result<Program, Fail> {
    let code = code(alloc, edit)?;
    program_of(alloc, &code)
}

/// The first atom of a heap.
fn cell(alloc: Global, fields: &[Exp]) -> Result<Atom, Fail> {
    Ok(Atom::Points {
        at: Exp::Var(0),
        kind: name(alloc, b"node")?,
        fields: Row::from_vec(fields.to_vec(alloc)?),
    })
}

/// The second atom of a heap.
fn segment(alloc: Global, link: u32) -> Result<Atom, Fail> {
    Ok(Atom::Seg {
        kind: name(alloc, b"node")?,
        link,
        from: Exp::Var(32_768),
        to: Exp::Const(0),
    })
}

fn heap(alloc: Global, heap: Heap) -> Result<SymHeap, Fail> {
    let (fields, link) = heap;
    let mut spatial = one(alloc, cell(alloc, fields)?)?;
    spatial.push(segment(alloc, link)?)?;
    spatial.push(Atom::Junk)?;
    Ok(SymHeap {
        pure: one(alloc, Fact::Ne(Exp::Var(0), Exp::Const(0)))?,
        spatial,
    })
}

/// What holds when `get` returns.
fn exits(alloc: Global, exit: Heap) -> Result<Row<Post>, Fail> {
    let post = Post {
        ret: Exp::Var(1),
        heap: heap(alloc, exit)?,
    };
    Ok(one(alloc, post)?)
}

fn specs(alloc: Global, pre: Heap) -> Result<Row<Spec>, Fail> {
    let spec = Spec {
        pre: heap(alloc, pre)?,
        posts: exits(alloc, pre)?,
    };
    Ok(one(alloc, spec)?)
}

fn callee(alloc: Global, named: &[u8], pre: Heap) -> Result<Callee, Fail> {
    Ok(Callee {
        name: name(alloc, named)?,
        params: one(alloc, name(alloc, b"y")?)?,
        specs: specs(alloc, pre)?,
    })
}

/// The key of `get` and `peek`, with no callee yet.
fn key_of(alloc: Global, code: &Value) -> Result<Key, Fail> {
    let structs = member(code, "structs")?;
    Ok(Key {
        recursive: false,
        procs: read_list(alloc, member(code, "procs")?)?,
        structs: read_list(alloc, structs)?,
        callees: Row::new(alloc),
    })
}

/// The key of the code with one change, and with one callee.
fn key(alloc: Global, edit: Edit, callee: Callee) -> Result<Key, Fail> {
    let code = code(alloc, edit)?;
    let mut key = key_of(alloc, &code)?;
    key.callees.push(callee)?;
    Ok(key)
}

/// The states at a node.
fn states(alloc: Global, locals: &[Exp], held: Heap) -> Result<Row<SymState>, Fail> {
    if locals.is_empty() {
        return Ok(Row::new(alloc));
    }
    let state = SymState {
        locals: Row::from_vec(locals.to_vec(alloc)?),
        heap: heap(alloc, held)?,
    };
    Ok(one(alloc, state)?)
}

fn cert(alloc: Global, draft: Draft) -> Result<Cert, Fail> {
    let mut nodes = Row::new(alloc);
    for locals in draft.nodes {
        nodes.push(states(alloc, locals, draft.heap)?)?;
    }
    Ok(Cert {
        nodes,
        exits: exits(alloc, draft.heap)?,
    })
}

fn get_summary(alloc: Global, draft: Draft) -> Result<ProcSummary, Fail> {
    let mut certs = Row::new(alloc);
    if draft.has_cert {
        certs.push(cert(alloc, draft)?)?;
    }
    Ok(ProcSummary {
        name: name(alloc, draft.name)?,
        specs: specs(alloc, draft.heap)?,
        certs,
        reason: None,
    })
}

fn peek_summary(alloc: Global, reason: Option<Reason>) -> Result<ProcSummary, Fail> {
    Ok(ProcSummary {
        name: name(alloc, b"peek")?,
        specs: Row::new(alloc),
        certs: Row::new(alloc),
        reason,
    })
}

fn answer(alloc: Global, draft: Draft) -> Result<Answer, Fail> {
    let mut procs = one(alloc, get_summary(alloc, draft)?)?;
    if draft.has_peek {
        procs.push(peek_summary(alloc, draft.reason)?)?;
    }
    Ok(Answer {
        stored: false,
        procs,
    })
}

/// Whether it is a program, with this change of its code.
fn is_program(alloc: Global, edit: Edit) -> Result<bool, Fail> {
    Ok(well_formed_program(&program(alloc, edit)?))
}

#[test]
fn a_program_is_well_formed_unless_a_rule_is_broken(rt: HostRuntime) -> Result<(), Fail> {
    assert!(rt; is_program(rt.alloc(), NO_EDIT)?);
    for (rule, edit) in NO_PROGRAMS {
        assert!(rt; !is_program(rt.alloc(), edit)?, "{rule}");
    }
    Ok(())
}

/// Whether it is a key, with this code and this callee.
fn is_key(alloc: Global, edit: Edit, named: &[u8], pre: Heap) -> Result<bool, Fail> {
    let callee = callee(alloc, named, pre)?;
    Ok(well_formed_key(&key(alloc, edit, callee)?))
}

#[test]
fn a_key_is_well_formed_unless_a_rule_is_broken(rt: HostRuntime) -> Result<(), Fail> {
    let alloc = rt.alloc();
    assert!(rt; is_key(alloc, NO_EDIT, b"other", HEAP)?);
    assert!(rt;
        !is_key(alloc, NO_EDIT, b"get", HEAP)?,
        "a callee is outside"
    );
    for (rule, edit) in NO_KEYS {
        assert!(rt; !is_key(alloc, edit, b"other", HEAP)?, "{rule}");
    }
    for (rule, heap) in NO_HEAPS {
        assert!(rt; !is_key(alloc, NO_EDIT, b"other", heap)?, "{rule}");
    }
    Ok(())
}

/// Whether it is an answer for the key.
fn is_answer(alloc: Global, draft: Draft) -> Result<bool, Fail> {
    let key = key(alloc, NO_EDIT, callee(alloc, b"other", HEAP)?)?;
    Ok(well_formed_answer(&key, &answer(alloc, draft)?))
}

#[test]
fn an_answer_is_well_formed_unless_a_rule_is_broken(rt: HostRuntime) -> Result<(), Fail> {
    assert!(rt; is_answer(rt.alloc(), ANSWER)?);
    for (rule, draft) in NO_ANSWERS {
        assert!(rt; !is_answer(rt.alloc(), draft)?, "{rule}");
    }
    for (rule, heap) in NO_HEAPS {
        let draft = Draft { heap, ..ANSWER };
        assert!(rt; !is_answer(rt.alloc(), draft)?, "{rule}");
    }
    Ok(())
}
