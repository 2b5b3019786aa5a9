//! Statements and local declarations (C11 6.8).
use crate::exprs::Expr;
use crate::names::{Declarator, Ident, TypeSpecifier};
use crate::non_empty::NonEmpty;
use c_grammar::tokens::Place;

/// An operator that assigns (C11 6.5.16).
#[derive(Clone, Copy, PartialEq, Eq, Debug)]
pub enum AssignOp {
    /// `=`
    Set,
    /// `+=`
    AddTo,
    /// `-=`
    SubtractFrom,
    /// `*=`
    MultiplyBy,
}

/// An operator behind what it changes (C11 6.5.2.4).
#[derive(Clone, Copy, PartialEq, Eq, Debug)]
pub enum StepOp {
    /// `++`
    Increment,
    /// `--`
    Decrement,
}

/// A simple statement, without its semicolon (C11 6.8.3).
#[derive(Drop)]
pub enum Simple {
    /// What is assigned to, and the value (C11 6.5.16).
    Assign(Expr, AssignOp, Expr),
    /// `++` or `--` behind what it changes (C11 6.5.2.4).
    Step(Expr, StepOp),
    /// A call of a function by its name (C11 6.5.2.2).
    Call(Ident, Vec<Expr>),
    /// `free` of a pointer (C11 7.22.3.3).
    Free(Place, Expr),
}

/// A declarator of a local, with the value that it begins with, if any (C11 6.7.9).
#[derive(Drop)]
pub struct Initialized {
    pub declarator: Declarator,
    pub value: Option<Expr>,
}

/// The locals of one declaration, without its semicolon (C11 6.7).
#[derive(Drop)]
pub struct Local {
    pub specifier: TypeSpecifier,
    pub declarators: NonEmpty<Initialized>,
}

/// What a `for` begins with (C11 6.8.5.3). Its parts stand by themselves, as its step does, since a `for` would be the largest of the
/// statements.
#[derive(Drop)]
pub enum ForInit {
    /// Nothing.
    Empty,
    /// A declaration.
    Local(Box<Local>),
    /// A simple statement.
    Simple(Box<Simple>),
}

/// A statement (C11 6.8).
#[cycle(stmt)]
#[derive(Drop)]
pub enum Stmt {
    /// A block (C11 6.8.2).
    Block(Block),
    /// `;` (C11 6.8.3).
    Empty(Place),
    /// A declaration of locals, which stands among statements (C11 6.8.2).
    Local(Local),
    /// A simple statement (C11 6.8.3).
    Simple(Simple),
    /// `if`, with the statement behind its `else`, if it has one (C11 6.8.4.1).
    If {
        place: Place,
        test: Expr,
        body: Box<Stmt>,
        other: Option<Box<Stmt>>,
    },
    /// `while` (C11 6.8.5.1).
    While {
        place: Place,
        test: Expr,
        body: Box<Stmt>,
    },
    /// `do`, and the test behind its `while` (C11 6.8.5.2).
    DoWhile {
        place: Place,
        body: Box<Stmt>,
        test: Expr,
    },
    /// `for` (C11 6.8.5.3).
    For {
        place: Place,
        init: ForInit,
        test: Option<Expr>,
        step: Option<Box<Simple>>,
        body: Box<Stmt>,
    },
    /// `break` (C11 6.8.6.3).
    Break(Place),
    /// `continue` (C11 6.8.6.2).
    Continue(Place),
    /// `return`, with the value, if any (C11 6.8.6.4).
    Return(Place, Option<Expr>),
}

/// Statements in braces, with the places of the braces (C11 6.8.2).
#[cycle(stmt)]
#[derive(Drop)]
pub struct Block {
    pub open: Place,
    pub stmts: Vec<Stmt>,
    pub close: Place,
}
