//! Syntax trees of the C subset (C11 6.5 to 6.9) as plain data. `specs/Syntax` says which tree of the grammar, in
//! `c_grammar`, each value stands for; what reads, prints and checks C speaks of that tree alone.
#![tactic(auto)]

pub mod exprs;
pub mod items;
pub mod names;
pub mod non_empty;
pub mod places;
pub mod stmts;

pub use c_grammar::tokens::Place;
pub use exprs::{BinaryOp, Expr, Link, MallocTypes, PrefixOp};
pub use items::{Item, Unit};
pub use names::{Declarator, FieldDecl, Head, Ident, Param, Params, TypeSpecifier};
pub use non_empty::NonEmpty;
pub use shape_data::Name;
pub use stmts::{AssignOp, Block, ForInit, Initialized, Local, Simple, StepOp, Stmt};
