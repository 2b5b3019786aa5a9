//! Programs in flow form, this project's own: each procedure is a list of nodes over numbered slots, with one
//! command to a node. It stands on names and rows; what a command does is the machine's `Step`, in the crates
//! above, and the types' `==` and `clone` are exact, so that "the same program" means what it says.
use crate::name::Name;
use crate::row::Row;

/// A type. A slot or a field is an `Int` or a `Ptr`; `Void` stands for a result alone.
#[derive(Clone, PartialEq, Eq, Drop, Debug)]
pub enum Ty {
    /// 32-bit signed whole numbers.
    Int,
    /// Pointers to the structure of this name, 0 being null.
    Ptr(Name),
    /// No result.
    Void,
}

/// A field of a structure.
#[derive(Clone, PartialEq, Eq, Drop, Debug)]
pub struct Field {
    pub name: Name,
    pub ty: Ty,
}

/// A structure (C11 6.7.2.1): its name and its fields in the order of their declaration.
#[derive(Clone, PartialEq, Eq, Drop, Debug)]
pub struct StructDef {
    pub name: Name,
    pub fields: Row<Field>,
}

/// What a command reads.
#[derive(Clone, Copy, PartialEq, Eq, Debug)]
pub enum Operand {
    /// The value of a slot, an index into the flow's `slots`.
    Slot(u32),
    /// This number. 0 is null too.
    Num(i32),
}

/// `+`, `-` and `*` of ints, taken on whole numbers and wrapped to 32 bits.
#[derive(Clone, Copy, PartialEq, Eq, Debug)]
pub enum ArithOp {
    Add,
    Sub,
    Mul,
}

/// The comparisons `==`, `!=`, `<`, `<=`, `>` and `>=`, of whole numbers.
#[derive(Clone, Copy, PartialEq, Eq, Debug)]
pub enum TestOp {
    Eq,
    Ne,
    Lt,
    Le,
    Gt,
    Ge,
}

/// The command of a node. `to`, `base` and the slots in operands are indices into the flow's `slots`; `next`,
/// `yes` and `no` are indices into its `nodes`, where the run goes on; `kind` is the name of a structure, and
/// `field` an index into that structure's fields.
#[derive(Clone, PartialEq, Eq, Drop, Debug)]
pub enum Cmd {
    /// The slot `to` gets the value of `from`.
    Copy {
        to: u32,
        from: Operand,
        next: u32,
    },
    /// The slot `to` gets `left op right`.
    Arith {
        to: u32,
        op: ArithOp,
        left: Operand,
        right: Operand,
        next: u32,
    },
    /// The slot `to` gets any value of the type: what an uninitialised local holds.
    Any {
        to: u32,
        ty: Ty,
        next: u32,
    },
    /// The slot `to` gets the field of the structure at the address in the slot `base` (C11 6.5.2.3).
    Load {
        to: u32,
        base: u32,
        kind: Name,
        field: u32,
        next: u32,
    },
    /// The field of the structure at the address in the slot `base` gets the value of `from` (C11 6.5.2.3).
    Store {
        base: u32,
        kind: Name,
        field: u32,
        from: Operand,
        next: u32,
    },
    /// The slot `to` gets null or the address of a new structure with any values in it (C11 7.22.3.4).
    New {
        to: u32,
        kind: Name,
        next: u32,
    },
    /// The structure at the address in the slot `base` goes; nothing happens at null (C11 7.22.3.3).
    Free {
        base: u32,
        kind: Name,
        next: u32,
    },
    /// Calls the procedure of this name. Its result goes to the slot `to`, where there is one.
    Call {
        to: Option<u32>,
        callee: Name,
        args: Row<Operand>,
        next: u32,
    },
    /// Goes on at `yes` where `left op right` holds, else at `no`. `pointers` says that the operands are pointers.
    Branch {
        op: TestOp,
        pointers: bool,
        left: Operand,
        right: Operand,
        yes: u32,
        no: u32,
    },
    /// Ends the procedure with this value. Where the source gives none, it is 0.
    Return {
        value: Operand,
    },
}

/// What abstraction may forget at the head of a loop; both are rows of slots, indices into the flow's `slots`.
#[derive(Clone, PartialEq, Eq, Drop, Debug)]
pub struct HeadMark {
    /// The int slots that a node of the loop assigns.
    pub ints: Row<u32>,
    /// The temporaries, and the locals that are out of scope at the head.
    pub dead: Row<u32>,
}

/// A node of a procedure.
#[derive(Clone, PartialEq, Eq, Drop, Debug)]
pub struct Node {
    /// The line in the file, counted from 0 at the line of the procedure's first token.
    pub line: u32,
    pub cmd: Cmd,
    /// The mark, where the node is the head of a loop.
    pub head: Option<HeadMark>,
}

/// A procedure without its place in a file, so that moving it changes nothing here.
#[derive(Clone, PartialEq, Eq, Drop, Debug)]
pub struct Flow {
    pub name: Name,
    /// The parameters' names. Parameter i, from 0, is held in slot i.
    pub params: Row<Name>,
    /// The types of the slots: the parameters, then the other locals, then the temporaries.
    pub slots: Row<Ty>,
    /// The type of the result.
    pub ret: Ty,
    /// The nodes. A run begins at node 0.
    pub nodes: Row<Node>,
}

/// A procedure with its place.
#[derive(Clone, PartialEq, Eq, Drop, Debug)]
pub struct Proc {
    pub flow: Flow,
    /// The file that defines it.
    pub file: Name,
    /// The line of its first token in the file, counted from 1.
    pub line: u32,
}

/// A program: the structures and the procedures of all its files.
#[derive(Clone, PartialEq, Eq, Drop, Debug)]
pub struct Program {
    pub structs: Row<StructDef>,
    pub procs: Row<Proc>,
}
