//! Rows of lowering: the texts of procedures and nodes.
//!
//! Commands: `copy TO FROM`, `add TO LEFT RIGHT` (also `sub`, `mul`), `any TO TYPE`, `load TO BASE TAG.FIELD`, `store BASE TAG.FIELD FROM`,
//! `new TO TAG`, `free BASE TAG`, `call TO NAME OPERANDS` (TO may be `-`), each with `>NODE` behind it, where a run goes on;
//! `branch OP WHAT LEFT RIGHT >YES >NO` (OP is `eq`, `ne`, `lt`, `le`, `gt` or `ge`, WHAT `p` for pointers and `i` for ints);
//! `ret OPERAND`. Slots, fields and nodes are numbers from 0. An operand is a slot, or `#N` for a number. A type is `int`, `*TAG` or
//! `void`. A loop's head has `head ints SLOTS dead SLOTS` behind its command.
use crate::rows::{both_sides, text_behind};
use itoa::Buffer;
use project_form::{ProgramFault, Project, PutFault};
use shape_data::Name;
use shape_data::program::{ArithOp, Cmd, Flow, HeadMark, Node, Operand, Program, TestOp, Ty};
use std::alloc::{AllocError, Global};
use std::sync::Arc;
use worked_rows::Fault;

/// A text, and a number behind it.
#[derive(Clone, Copy)]
struct Part<'a> {
    text: &'a [u8],
    number: Option<i64>,
}

fn word(text: &[u8]) -> Part<'_> {
    Part { text, number: None }
}

fn slot(slot: u32) -> Part<'static> {
    Part {
        text: b" ",
        number: Some(i64::from(slot)),
    }
}

fn next(place: u32) -> Part<'static> {
    Part {
        text: b" >",
        number: Some(i64::from(place)),
    }
}

fn field(place: u32) -> Part<'static> {
    Part {
        text: b".",
        number: Some(i64::from(place)),
    }
}

/// An operand: a slot as its number, a number behind `#`.
fn value(operand: Operand) -> Part<'static> {
    match operand {
        Operand::Slot(place) => slot(place),
        Operand::Num(number) => Part {
            text: b" #",
            number: Some(i64::from(number)),
        },
    }
}

/// The slot that a call's result goes to, or `-`.
fn target(to: Option<u32>) -> Part<'static> {
    match to {
        Some(place) => slot(place),
        None => word(b" -"),
    }
}

fn arith_text(op: ArithOp) -> &'static [u8] {
    match op {
        ArithOp::Add => b" add",
        ArithOp::Sub => b" sub",
        ArithOp::Mul => b" mul",
    }
}

fn test_text(op: TestOp) -> &'static [u8] {
    match op {
        TestOp::Eq => b" branch eq",
        TestOp::Ne => b" branch ne",
        TestOp::Lt => b" branch lt",
        TestOp::Le => b" branch le",
        TestOp::Gt => b" branch gt",
        TestOp::Ge => b" branch ge",
    }
}

/// `p` for a comparison of pointers, `i` for one of ints.
fn pointers_text(pointers: bool) -> &'static [u8] {
    if pointers { b" p" } else { b" i" }
}

/// A type: `int`, `*TAG` or `void`.
fn kind(ty: &Ty) -> [Part<'_>; 2] {
    match ty {
        Ty::Int => [word(b" "), word(b"int")],
        Ty::Ptr(tag) => [word(b" *"), word(tag.as_bytes())],
        Ty::Void => [word(b" "), word(b"void")],
    }
}

/// Appends parts.
fn put(lines: &mut Vec<u8>, parts: &[Part<'_>]) -> Result<(), AllocError> {
    for part in parts {
        lines.extend_from_slice(part.text)?;
        if let Some(number) = part.number {
            lines.extend_from_slice(Buffer::new().format(number).as_bytes())?;
        }
    }
    Ok(())
}

fn put_values(lines: &mut Vec<u8>, values: &[Operand]) -> Result<(), AllocError> {
    for operand in values {
        put(lines, &[value(*operand)])?;
    }
    Ok(())
}

fn put_slots(lines: &mut Vec<u8>, slots: &[u32]) -> Result<(), AllocError> {
    for place in slots {
        put(lines, &[slot(*place)])?;
    }
    Ok(())
}

/// Appends an operator, what it assigns, and its operands.
fn put_arith(
    lines: &mut Vec<u8>,
    to: u32,
    op: ArithOp,
    left: Operand,
    right: Operand,
    on: u32,
) -> Result<(), AllocError> {
    put(
        lines,
        &[
            word(arith_text(op)),
            slot(to),
            value(left),
            value(right),
            next(on),
        ],
    )
}

fn put_any(lines: &mut Vec<u8>, to: u32, ty: &Ty, on: u32) -> Result<(), AllocError> {
    let [mark, tag] = kind(ty);
    put(lines, &[word(b" any"), slot(to), mark, tag, next(on)])
}

/// Appends a load: the slot that it assigns, and the field that it reads.
fn put_load(
    lines: &mut Vec<u8>,
    to: u32,
    base: u32,
    tag: &Name,
    place: u32,
    on: u32,
) -> Result<(), AllocError> {
    put(
        lines,
        &[
            word(b" load"),
            slot(to),
            slot(base),
            word(b" "),
            word(tag.as_bytes()),
            field(place),
            next(on),
        ],
    )
}

/// Appends a store: the field that it assigns, and the operand that it reads.
fn put_store(
    lines: &mut Vec<u8>,
    base: u32,
    tag: &Name,
    place: u32,
    from: Operand,
    on: u32,
) -> Result<(), AllocError> {
    put(
        lines,
        &[
            word(b" store"),
            slot(base),
            word(b" "),
            word(tag.as_bytes()),
            field(place),
            value(from),
            next(on),
        ],
    )
}

/// Appends the word, a slot and the name of its structure.
fn put_structure(
    lines: &mut Vec<u8>,
    text: &[u8],
    place: u32,
    tag: &Name,
    on: u32,
) -> Result<(), AllocError> {
    put(
        lines,
        &[
            word(text),
            slot(place),
            word(b" "),
            word(tag.as_bytes()),
            next(on),
        ],
    )
}

/// Appends a call: the slot that gets its result, if any, the procedure's name, and the arguments.
fn put_call(
    lines: &mut Vec<u8>,
    to: Option<u32>,
    callee: &Name,
    args: &[Operand],
    on: u32,
) -> Result<(), AllocError> {
    put(
        lines,
        &[
            word(b" call"),
            target(to),
            word(b" "),
            word(callee.as_bytes()),
        ],
    )?;
    put_values(lines, args)?;
    put(lines, &[next(on)])
}

/// Appends a branch: its test, and where a run goes on if it holds, and if not.
fn put_branch(
    lines: &mut Vec<u8>,
    op: TestOp,
    pointers: bool,
    left: Operand,
    right: Operand,
    yes: u32,
    no: u32,
) -> Result<(), AllocError> {
    put(
        lines,
        &[
            word(test_text(op)),
            word(pointers_text(pointers)),
            value(left),
            value(right),
            next(yes),
            next(no),
        ],
    )
}

/// Appends a command on the heap, and nothing for another one.
fn put_heap_command(lines: &mut Vec<u8>, command: &Cmd) -> Result<(), AllocError> {
    match command {
        Cmd::Load {
            to,
            base,
            kind: tag,
            field: place,
            next: on,
        } => put_load(lines, *to, *base, tag, *place, *on),
        Cmd::Store {
            base,
            kind: tag,
            field: place,
            from,
            next: on,
        } => put_store(lines, *base, tag, *place, *from, *on),
        Cmd::New {
            to,
            kind: tag,
            next: on,
        } => put_structure(lines, b" new", *to, tag, *on),
        Cmd::Free {
            base,
            kind: tag,
            next: on,
        } => put_structure(lines, b" free", *base, tag, *on),
        _ => Ok(()),
    }
}

/// Appends a command: its word, what it assigns, what it reads, and where a run goes on.
fn put_command(lines: &mut Vec<u8>, command: &Cmd) -> Result<(), AllocError> {
    match command {
        Cmd::Copy { to, from, next: on } => {
            put(lines, &[word(b" copy"), slot(*to), value(*from), next(*on)])
        }
        Cmd::Arith {
            to,
            op,
            left,
            right,
            next: on,
        } => put_arith(lines, *to, *op, *left, *right, *on),
        Cmd::Any { to, ty, next: on } => put_any(lines, *to, ty, *on),
        Cmd::Load { .. } | Cmd::Store { .. } | Cmd::New { .. } | Cmd::Free { .. } => {
            put_heap_command(lines, command)
        }
        Cmd::Call {
            to,
            callee,
            args,
            next: on,
        } => put_call(lines, *to, callee, args.as_slice(), *on),
        Cmd::Branch {
            op,
            pointers,
            left,
            right,
            yes,
            no,
        } => put_branch(lines, *op, *pointers, *left, *right, *yes, *no),
        Cmd::Return { value: given } => put(lines, &[word(b" ret"), value(*given)]),
    }
}

/// Appends the mark of a head.
fn put_head(lines: &mut Vec<u8>, head: &Option<HeadMark>) -> Result<(), AllocError> {
    let Some(mark) = head else {
        return Ok(());
    };
    put(lines, &[word(b" head ints")])?;
    put_slots(lines, mark.ints.as_slice())?;
    put(lines, &[word(b" dead")])?;
    put_slots(lines, mark.dead.as_slice())
}

/// Appends a line a node: its place, its line, its command, and its mark.
fn put_nodes(lines: &mut Vec<u8>, nodes: &[Node]) -> Result<(), AllocError> {
    let mut place = 0u32;
    for node in nodes {
        let line = Part {
            text: b" @",
            number: Some(i64::from(node.line)),
        };
        let number = Part {
            text: b"",
            number: Some(i64::from(place)),
        };
        put(lines, &[word(b" $ "), number, line])?;
        put_command(lines, &node.cmd)?;
        put_head(lines, &node.head)?;
        place = place.saturating_add(1);
    }
    Ok(())
}

fn put_names(lines: &mut Vec<u8>, names: &[Name]) -> Result<(), AllocError> {
    for name in names {
        put(lines, &[word(b" "), word(name.as_bytes())])?;
    }
    Ok(())
}

fn put_types(lines: &mut Vec<u8>, types: &[Ty]) -> Result<(), AllocError> {
    for ty in types {
        put(lines, &kind(ty))?;
    }
    Ok(())
}

/// Appends a procedure: a line with its name, its parameters, the types of its slots and of its result, and a line a node.
fn put_flow(lines: &mut Vec<u8>, flow: &Flow) -> Result<(), AllocError> {
    if !lines.is_empty() {
        put(lines, &[word(b" $ ")])?;
    }
    put(lines, &[word(flow.name.as_bytes())])?;
    put_names(lines, flow.params.as_slice())?;
    put(lines, &[word(b" |")])?;
    put_types(lines, flow.slots.as_slice())?;
    put(lines, &[word(b" ->")])?;
    put(lines, &kind(&flow.ret))?;
    put_nodes(lines, flow.nodes.as_slice())
}

/// The program that a text is.
fn program(alloc: Global, bytes: Vec<u8>) -> Result<Arc<Program>, Fault> {
    let mut project = Project::new(alloc);
    let name = Name::of(alloc, b"a.c")?;
    match project.put(alloc, &name, bytes) {
        Ok(()) => {}
        Err(PutFault::Code(_)) => return Err(Fault::Refused),
        Err(PutFault::OutOfMemory) => return Err(Fault::OutOfMemory),
    }
    match project.program(alloc) {
        Ok(program) => Ok(program),
        Err(ProgramFault::Refused(_)) => Err(Fault::Refused),
        Err(ProgramFault::OutOfMemory) => Err(Fault::OutOfMemory),
    }
}

/// Whether the procedures of a text have these lines.
pub fn is_lowered(rt: &impl Print, alloc: Global, before: &str, row: &str) -> Result<bool, Fault> {
    let (text, wanted) = both_sides(row);
    let program = program(alloc, text_behind(alloc, before, text)?)?;
    let mut lines = Vec::new(alloc);
    for proc in program.procs.as_slice() {
        put_flow(&mut lines, &proc.flow)?;
    }
    let found = str::from_utf8(lines.as_slice()).unwrap_or("").trim();
    if found != wanted {
        println!(rt; "found {found}")?;
    }
    Ok(found == wanted)
}
