//! Programs of procedures without parameters, whose names are single letters.
use shape_data::program::{Cmd, Flow, Node, Operand, Proc, Program, Ty};
use shape_data::{Name, Row};
use std::alloc::{AllocError, Global};
use std::sync::Arc;

/// A procedure that returns a number.
#[derive(Clone, Copy)]
pub struct Sketch<'a> {
    pub name: u8,
    /// What it does before it returns: a letter calls the procedure of that name, and a point gives the first slot 0.
    pub body: &'a [u8],
    /// What each slot holds: an int, or a pointer to the structure of this letter.
    pub slots: &'a [Option<u8>],
    pub value: i32,
}

/// `g`, which returns 0.
pub const LEAF: Sketch = Sketch {
    name: b'g',
    body: b"",
    slots: &[],
    value: 0,
};

/// `g` with another body, which returns 1.
pub const OTHER_LEAF: Sketch = Sketch { value: 1, ..LEAF };

/// `f`, which calls `g`.
pub const CALLER: Sketch = Sketch {
    name: b'f',
    body: b"g",
    slots: &[],
    value: 0,
};

/// The name of one letter.
pub fn name_of(alloc: Global, letter: u8) -> Result<Name, AllocError> {
    Name::of(alloc, &[letter])
}

/// An int, or a pointer to the structure of this letter.
pub fn type_of(alloc: Global, pointed: Option<u8>) -> Result<Ty, AllocError> {
    match pointed {
        None => Ok(Ty::Int),
        Some(letter) => Ok(Ty::Ptr(name_of(alloc, letter)?)),
    }
}

fn types(alloc: Global, slots: &[Option<u8>]) -> Result<Row<Ty>, AllocError> {
    let mut types = Row::new(alloc);
    for pointed in slots {
        types.push(type_of(alloc, *pointed)?)?;
    }
    Ok(types)
}

/// The command of a letter or a point, which leads to the node `next`.
fn command(alloc: Global, letter: u8, next: u32) -> Result<Cmd, AllocError> {
    if letter == b'.' {
        return Ok(Cmd::Copy {
            to: 0,
            from: Operand::Num(0),
            next,
        });
    }
    Ok(Cmd::Call {
        to: None,
        callee: name_of(alloc, letter)?,
        args: Row::new(alloc),
        next,
    })
}

fn node(cmd: Cmd) -> Node {
    Node {
        line: 0,
        cmd,
        head: None,
    }
}

fn commands(alloc: Global, body: &[u8]) -> Result<Row<Node>, AllocError> {
    let mut nodes = Row::new(alloc);
    let mut next = 0_u32;
    for letter in body {
        next = next.wrapping_add(1);
        nodes.push(node(command(alloc, *letter, next)?))?;
    }
    Ok(nodes)
}

fn nodes(alloc: Global, sketch: Sketch) -> Result<Row<Node>, AllocError> {
    let mut nodes = commands(alloc, sketch.body)?;
    nodes.push(node(Cmd::Return {
        value: Operand::Num(sketch.value),
    }))?;
    Ok(nodes)
}

/// The procedure in flow form.
pub fn flow(alloc: Global, sketch: Sketch) -> Result<Flow, AllocError> {
    Ok(Flow {
        name: name_of(alloc, sketch.name)?,
        params: Row::new(alloc),
        slots: types(alloc, sketch.slots)?,
        ret: Ty::Int,
        nodes: nodes(alloc, sketch)?,
    })
}

/// The procedure on line 1 of the file `x`.
pub fn proc(alloc: Global, sketch: Sketch) -> Result<Proc, AllocError> {
    Ok(Proc {
        flow: flow(alloc, sketch)?,
        file: name_of(alloc, b'x')?,
        line: 1,
    })
}

/// The procedures, in this order.
pub fn procs(alloc: Global, sketches: &[Sketch]) -> Result<Row<Proc>, AllocError> {
    let mut procs = Row::new(alloc);
    for sketch in sketches {
        procs.push(proc(alloc, *sketch)?)?;
    }
    Ok(procs)
}

/// The program of procedures that are made already, with no structures.
pub fn program_of(alloc: Global, procs: Row<Proc>) -> Result<Arc<Program>, AllocError> {
    let program = Program {
        structs: Row::new(alloc),
        procs,
    };
    Ok(Arc::new(alloc, program)?)
}

/// The program of the procedures of these sketches, with no structures.
pub fn program(alloc: Global, sketches: &[Sketch]) -> Result<Arc<Program>, AllocError> {
    program_of(alloc, procs(alloc, sketches)?)
}
