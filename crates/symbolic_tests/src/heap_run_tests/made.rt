//! Programs, heaps, choices and ends as plain values, and what is made of them.
use shape_data::Row;
use shape_data::answer::Fault;
use shape_data::machine::{Cell, Choice, Config, Frame, Outcome, Stepped, Value};
use shape_data::program::{ArithOp, Cmd, Flow, Node, Operand, Proc, Program, TestOp, Ty};
use std::alloc::{AllocError, Global};
use worked_rows::Fault as RowFault;
use worked_scopes::names::{name_of, names_of};
use worked_scopes::structures::structs_of;

/// A command whose structure is `node`.
#[derive(Clone, Copy)]
pub enum Code<'a> {
    Arith(u32, ArithOp, Operand, Operand, u32),
    AnyInt(u32, u32),
    AnyPointer(u32, u32),
    Load(u32, u32, u32, u32),
    Store(u32, u32, Operand, u32),
    New(u32, u32),
    Free(u32, u32),
    Call(u32, &'a str, [Operand; 2], u32),
    Branch(TestOp, Operand, Operand, u32, u32),
    Return(Operand),
}

/// A procedure `f` with two parameters.
#[derive(Clone, Copy)]
pub struct Source<'a> {
    /// The line on which it begins.
    pub line: u32,
    /// How many slots it has. They are ints; to the machine an address is a number too.
    pub slots: usize,
    /// The line of each node, counted from the procedure's, and its command.
    pub nodes: &'a [(u32, Code<'a>)],
}

/// A cell: its address, the name of its structure, and its numbers.
#[derive(Clone, Copy)]
pub struct Live<'a>(pub Value, pub &'a str, pub &'a [Value]);

#[derive(Clone, Copy)]
pub enum Pick<'a> {
    Null,
    Cell(Value, &'a [Value]),
    Value(Value),
    Go,
}

/// A call of `f` that has not returned: the node that runs next, the values of the slots, and the caller's slot for the
/// result.
#[derive(Clone, Copy)]
pub struct Called<'a>(pub u32, pub &'a [Value], pub Option<u32>);

#[derive(Clone, Copy)]
pub enum End<'a> {
    Running(&'a [Called<'a>], &'a [Live<'a>]),
    Returned(Value, &'a [Live<'a>]),
    Fault(u32, Fault),
    BadChoice(u32),
}

/// `struct node { int data; struct node *next; };` and `struct tree { int data; };`
const STRUCTS: &[&[&str]] = &[&["node", "data", "next node"], &["tree", "data"]];

fn numbers(alloc: Global, values: &[Value]) -> Result<Row<Value>, RowFault> {
    Ok(Row::from_vec(values.to_vec(alloc)?))
}

fn operands(alloc: Global, pair: [Operand; 2]) -> Result<Row<Operand>, AllocError> {
    Ok(Row::from_vec(Vec::from_array(alloc, pair)?))
}

fn call(
    alloc: Global,
    to: u32,
    callee: &str,
    args: [Operand; 2],
    next: u32,
) -> Result<Cmd, RowFault> {
    let callee = name_of(alloc, callee)?;
    let args = operands(alloc, args)?;
    Ok(Cmd::Call {
        to: Some(to),
        callee,
        args,
        next,
    })
}

fn command(alloc: Global, code: Code) -> Result<Cmd, RowFault> {
    match code {
        Code::Arith(to, op, left, right, next) => Ok(Cmd::Arith {
            to,
            op,
            left,
            right,
            next,
        }),
        Code::AnyInt(to, next) => Ok(Cmd::Any {
            to,
            ty: Ty::Int,
            next,
        }),
        Code::AnyPointer(to, next) => Ok(Cmd::Any {
            to,
            ty: Ty::Ptr(name_of(alloc, "node")?),
            next,
        }),
        Code::Load(to, base, field, next) => Ok(Cmd::Load {
            to,
            base,
            kind: name_of(alloc, "node")?,
            field,
            next,
        }),
        Code::Store(base, field, from, next) => Ok(Cmd::Store {
            base,
            kind: name_of(alloc, "node")?,
            field,
            from,
            next,
        }),
        Code::New(to, next) => Ok(Cmd::New {
            to,
            kind: name_of(alloc, "node")?,
            next,
        }),
        Code::Free(base, next) => Ok(Cmd::Free {
            base,
            kind: name_of(alloc, "node")?,
            next,
        }),
        Code::Call(to, callee, args, next) => call(alloc, to, callee, args, next),
        Code::Branch(op, left, right, yes, no) => Ok(Cmd::Branch {
            op,
            pointers: false,
            left,
            right,
            yes,
            no,
        }),
        Code::Return(value) => Ok(Cmd::Return { value }),
    }
}

fn nodes(alloc: Global, codes: &[(u32, Code)]) -> Result<Row<Node>, RowFault> {
    let mut nodes = Row::new(alloc);
    for (line, code) in codes {
        nodes.push(Node {
            line: *line,
            cmd: command(alloc, *code)?,
            head: None,
        })?;
    }
    Ok(nodes)
}

fn slots(alloc: Global, count: usize) -> Result<Row<Ty>, RowFault> {
    let mut slots = Row::new(alloc);
    for _ in 0..count {
        slots.push(Ty::Int)?;
    }
    Ok(slots)
}

fn flow(alloc: Global, source: &Source) -> Result<Flow, RowFault> {
    Ok(Flow {
        name: name_of(alloc, "f")?,
        params: names_of(alloc, &["a", "b"])?,
        slots: slots(alloc, source.slots)?,
        ret: Ty::Int,
        nodes: nodes(alloc, source.nodes)?,
    })
}

fn procs(alloc: Global, source: &Source) -> Result<Row<Proc>, RowFault> {
    let mut procs = Row::new(alloc);
    procs.push(Proc {
        flow: flow(alloc, source)?,
        file: name_of(alloc, "a.c")?,
        line: source.line,
    })?;
    Ok(procs)
}

/// The program of one procedure, in the file `a.c`.
pub fn program(alloc: Global, source: &Source) -> Result<Program, RowFault> {
    Ok(Program {
        structs: structs_of(alloc, STRUCTS)?,
        procs: procs(alloc, source)?,
    })
}

pub fn cells(alloc: Global, live: &[Live]) -> Result<Row<Cell>, RowFault> {
    let mut cells = Row::new(alloc);
    for Live(at, kind, fields) in live {
        cells.push(Cell {
            at: *at,
            kind: name_of(alloc, *kind)?,
            fields: numbers(alloc, *fields)?,
        })?;
    }
    Ok(cells)
}

pub fn choice(alloc: Global, pick: Pick) -> Result<Choice, RowFault> {
    match pick {
        Pick::Null => Ok(Choice::Null),
        Pick::Cell(at, fields) => Ok(Choice::Cell {
            at,
            fields: numbers(alloc, fields)?,
        }),
        Pick::Value(value) => Ok(Choice::Value(value)),
        Pick::Go => Ok(Choice::Go),
    }
}

fn add(choices: &mut Vec<Choice>, choice: Choice) -> Result<(), AllocError> {
    choices.push(choice)?;
    Ok(())
}

pub fn choices(alloc: Global, picks: &[Pick]) -> Result<Vec<Choice>, RowFault> {
    let mut choices = Vec::new(alloc);
    for pick in picks {
        add(&mut choices, choice(alloc, *pick)?)?;
    }
    Ok(choices)
}

fn stack(alloc: Global, calls: &[Called]) -> Result<Row<Frame>, RowFault> {
    let mut stack = Row::new(alloc);
    for Called(node, locals, to) in calls {
        stack.push(Frame {
            proc: 0,
            node: *node,
            locals: numbers(alloc, *locals)?,
            to: *to,
        })?;
    }
    Ok(stack)
}

pub fn outcome(alloc: Global, end: End) -> Result<Outcome, RowFault> {
    match end {
        End::Running(calls, live) => Ok(Outcome::Running(Config {
            stack: stack(alloc, calls)?,
            heap: cells(alloc, live)?,
        })),
        End::Returned(value, live) => Ok(Outcome::Returned {
            value,
            heap: cells(alloc, live)?,
        }),
        End::Fault(line, fault) => Ok(Outcome::Fault { line, fault }),
        End::BadChoice(index) => Ok(Outcome::BadChoice { index }),
    }
}

/// What a step answers that leads there.
pub fn stepped(end: Outcome) -> Stepped {
    match end {
        Outcome::Running(config) => Stepped::On(config),
        Outcome::Returned { value, heap } => Stepped::Returned { value, heap },
        Outcome::Fault { line, fault } => Stepped::Fault { line, fault },
        Outcome::BadChoice { .. } => Stepped::BadChoice,
    }
}
