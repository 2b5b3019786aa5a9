//! Expressions (C11 6.5).
use crate::names::{Ident, TypeSpecifier};
use crate::non_empty::NonEmpty;
use c_grammar::tokens::Place;

/// An operator between two operands (C11 6.5.5 to 6.5.14).
#[derive(Clone, Copy, PartialEq, Eq, Debug)]
pub enum BinaryOp {
    /// `||`
    Or,
    /// `&&`
    And,
    /// `==`
    Equal,
    /// `!=`
    NotEqual,
    /// `<`
    Less,
    /// `<=`
    LessEqual,
    /// `>`
    Greater,
    /// `>=`
    GreaterEqual,
    /// `+`
    Add,
    /// `-`
    Subtract,
    /// `*`
    Multiply,
}

/// An operator before its operand (C11 6.5.3.3).
#[derive(Clone, Copy, PartialEq, Eq, Debug)]
pub enum PrefixOp {
    /// `-`
    Negate,
    /// `!`
    Not,
}

/// The types of a `malloc`. They stand by themselves, since they would be the largest part of an expression.
#[derive(Drop)]
pub struct MallocTypes {
    /// The type of the cast before it, if there is one (C11 6.5.4).
    pub cast: Option<TypeSpecifier>,
    /// The type in its `sizeof`.
    pub allocated: TypeSpecifier,
}

/// An expression (C11 6.5).
#[cycle(expr)]
#[derive(Drop)]
pub enum Expr {
    /// Operands of one level with the operators between them, grouped from the left (C11 6.5.5 to 6.5.14).
    Chain(Box<Expr>, Vec<Link>),
    /// A prefix operator and its operand (C11 6.5.3.3).
    Prefix(Place, PrefixOp, Box<Expr>),
    /// `->` and a field, once or more (C11 6.5.2.3).
    Members(Box<Expr>, NonEmpty<Ident>),
    /// A variable (C11 6.5.1).
    Variable(Ident),
    /// A number (C11 6.4.4.1).
    Number(Place, u32),
    /// `NULL` (C11 7.19).
    Null(Place),
    /// An expression in parentheses, and the place of the first one (C11 6.5.1).
    Paren(Place, Box<Expr>),
    /// A call of a function by its name (C11 6.5.2.2).
    Call(Ident, Vec<Expr>),
    /// `malloc(sizeof(TYPE))` (C11 7.22.3.4).
    Malloc(Place, Box<MallocTypes>),
}

/// An operator of a chain, and the operand behind it.
#[cycle(expr)]
#[derive(Drop)]
pub struct Link {
    pub op: BinaryOp,
    pub operand: Expr,
}
