//! The command of a row.
use crate::rows::word;
use shape_data::program::{ArithOp, Cmd, Operand, TestOp, Ty};
use shape_data::{Name, Row};
use std::alloc::Global;
use worked_rows::Fault;
use worked_rows::parts::{first_word, number_of};
use worked_scopes::names::name_of;

/// The number of a word of a text.
fn number(text: &str, place: usize) -> Result<u32, Fault> {
    number_of(word(text, place))
}

/// The name of a word of a text.
fn name(alloc: Global, text: &str, place: usize) -> Result<Name, Fault> {
    name_of(alloc, word(text, place))
}

/// The operand of a word.
fn operand_of(word: &str) -> Result<Operand, Fault> {
    match word.strip_prefix('s') {
        Some(digits) => Ok(Operand::Slot(number_of(digits)?)),
        None => match word.parse() {
            Ok(n) => Ok(Operand::Num(n)),
            Err(_) => Err(Fault::Row),
        },
    }
}

/// The operand of a word of a text.
fn operand(text: &str, place: usize) -> Result<Operand, Fault> {
    operand_of(word(text, place))
}

fn arith_op(word: &str) -> Result<ArithOp, Fault> {
    match word {
        "add" => Ok(ArithOp::Add),
        "sub" => Ok(ArithOp::Sub),
        "mul" => Ok(ArithOp::Mul),
        _ => Err(Fault::Row),
    }
}

fn test_op(word: &str) -> Result<TestOp, Fault> {
    match word {
        "eq" => Ok(TestOp::Eq),
        "ne" => Ok(TestOp::Ne),
        "lt" => Ok(TestOp::Lt),
        "le" => Ok(TestOp::Le),
        "gt" => Ok(TestOp::Gt),
        "ge" => Ok(TestOp::Ge),
        _ => Err(Fault::Row),
    }
}

fn copy(text: &str) -> Result<Cmd, Fault> {
    Ok(Cmd::Copy {
        to: number(text, 0)?,
        from: operand(text, 1)?,
        next: 1,
    })
}

fn arith(text: &str) -> Result<Cmd, Fault> {
    Ok(Cmd::Arith {
        to: number(text, 0)?,
        op: arith_op(word(text, 1))?,
        left: operand(text, 2)?,
        right: operand(text, 3)?,
        next: 1,
    })
}

fn any(text: &str) -> Result<Cmd, Fault> {
    Ok(Cmd::Any {
        to: number(text, 0)?,
        ty: Ty::Int,
        next: 1,
    })
}

fn load(alloc: Global, text: &str) -> Result<Cmd, Fault> {
    Ok(Cmd::Load {
        to: number(text, 0)?,
        base: number(text, 1)?,
        field: number(text, 3)?,
        kind: name(alloc, text, 2)?,
        next: 1,
    })
}

fn store(alloc: Global, text: &str) -> Result<Cmd, Fault> {
    Ok(Cmd::Store {
        base: number(text, 0)?,
        field: number(text, 2)?,
        from: operand(text, 3)?,
        kind: name(alloc, text, 1)?,
        next: 1,
    })
}

fn new(alloc: Global, text: &str) -> Result<Cmd, Fault> {
    Ok(Cmd::New {
        to: number(text, 0)?,
        kind: name(alloc, text, 1)?,
        next: 1,
    })
}

fn free(alloc: Global, text: &str) -> Result<Cmd, Fault> {
    Ok(Cmd::Free {
        base: number(text, 0)?,
        kind: name(alloc, text, 1)?,
        next: 1,
    })
}

/// The slot that a result goes to, or none.
fn target(text: &str) -> Result<Option<u32>, Fault> {
    if word(text, 0) == "-" {
        return Ok(None);
    }
    Ok(Some(number(text, 0)?))
}

/// The operands of a text from its third word on.
fn arguments(alloc: Global, text: &str) -> Result<Row<Operand>, Fault> {
    let mut args = Row::new(alloc);
    for word in text.split_whitespace().skip(2) {
        args.push(operand_of(word)?)?;
    }
    Ok(args)
}

fn call(alloc: Global, text: &str) -> Result<Cmd, Fault> {
    Ok(Cmd::Call {
        to: target(text)?,
        callee: name(alloc, text, 1)?,
        args: arguments(alloc, text)?,
        next: 1,
    })
}

fn branch(text: &str) -> Result<Cmd, Fault> {
    Ok(Cmd::Branch {
        op: test_op(word(text, 0))?,
        pointers: word(text, 1) == "ptr",
        left: operand(text, 2)?,
        right: operand(text, 3)?,
        yes: 1,
        no: 2,
    })
}

/// The command of a text.
pub fn command(alloc: Global, text: &str) -> Result<Cmd, Fault> {
    let (word, rest) = first_word(text);
    match word {
        "copy" => copy(rest),
        "arith" => arith(rest),
        "any" => any(rest),
        "load" => load(alloc, rest),
        "store" => store(alloc, rest),
        "new" => new(alloc, rest),
        "free" => free(alloc, rest),
        "call" => call(alloc, rest),
        "branch" => branch(rest),
        "return" => Ok(Cmd::Return {
            value: operand(rest, 0)?,
        }),
        _ => Err(Fault::Row),
    }
}
