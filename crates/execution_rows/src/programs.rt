//! The program of a row: a procedure with the scope's parameters and three nodes, the row's command and two that return.
use crate::commands::command;
use shape_data::program::{Cmd, Flow, Node, Operand, Proc, Program, Ty};
use shape_data::{Row, copy_of};
use std::alloc::{AllocError, Global};
use worked_rows::Fault;
use worked_scopes::Scope;
use worked_scopes::names::name_of;

/// How many slots the procedure has.
const SLOT_COUNT: u32 = 4;

/// The line of the command.
pub const LINE: u32 = 5;

fn slots(alloc: Global) -> Result<Row<Ty>, AllocError> {
    let mut slots = Row::new(alloc);
    for _ in 0..SLOT_COUNT {
        slots.push(Ty::Int)?;
    }
    Ok(slots)
}

/// A node that returns.
fn last() -> Node {
    Node {
        line: LINE + 1,
        cmd: Cmd::Return {
            value: Operand::Num(0),
        },
        head: None,
    }
}

/// The command of a text, and two nodes that return.
fn nodes(alloc: Global, text: &str) -> Result<Row<Node>, Fault> {
    let mut all = Row::new(alloc);
    all.push(Node {
        line: LINE,
        cmd: command(alloc, text)?,
        head: None,
    })?;
    all.push(last())?;
    all.push(last())?;
    Ok(all)
}

fn flow(alloc: Global, scope: &Scope, text: &str) -> Result<Flow, Fault> {
    Ok(Flow {
        nodes: nodes(alloc, text)?,
        name: name_of(alloc, "p")?,
        params: copy_of(&scope.params)?,
        slots: slots(alloc)?,
        ret: Ty::Int,
    })
}

fn proc(alloc: Global, scope: &Scope, text: &str) -> Result<Proc, Fault> {
    Ok(Proc {
        file: name_of(alloc, "file")?,
        flow: flow(alloc, scope, text)?,
        line: 1,
    })
}

/// The program of the procedure with the command of a text.
pub fn program(alloc: Global, scope: &Scope, text: &str) -> Result<Program, Fault> {
    let mut procs = Row::new(alloc);
    procs.push(proc(alloc, scope, text)?)?;
    Ok(Program {
        structs: copy_of(&scope.program.structs)?,
        procs,
    })
}
