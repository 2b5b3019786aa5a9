//! How many nodes statements have (C11 6.8). The calls nest as deep as the blocks, branches and loops do.
ghost use Rattle.std.specs.Prelude.{◌≡◌, option_map};
ghost use Rattle.c_tree.specs.Syntax.{expr_tree, for_step_tree, init_tree, stmt_tree, stmts_tree, block_tree};
ghost use Rattle.c_lower_sizes.specs.Sizes.{init_size, condition_size, step_size, return_size, stmt_size, stmts_size};
ghost use Rattle.c_lower_sizes.specs.Counts.{capped};

use crate::counts::plus;
use crate::exprs::expr;
use crate::simples::{declaration, simple};
use c_tree::{Block, Expr, ForInit, Simple, Stmt};

/// What a `for` begins with.
fn init(one: &ForInit) -> u32
    ensures { result ≡ capped (init_size (init_tree one.now)) }
{
    match one {
        ForInit::Empty => 0,
        ForInit::Local(one) => declaration(one),
        ForInit::Simple(one) => simple(one),
    }
}

/// The condition of a `for`.
fn condition(one: &Option<Expr>) -> u32
    ensures { result ≡ capped (condition_size (option_map expr_tree one.now)) }
{
    match one {
        None => 1,
        Some(one) => expr(one).test,
    }
}

/// The step of a `for`.
fn step_of(one: &Option<Box<Simple>>) -> u32
    ensures { result ≡ capped (step_size (option_map for_step_tree one.now)) }
{
    match one {
        None => 0,
        Some(one) => simple(one),
    }
}

/// A `return`.
fn returned(value: &Option<Expr>) -> u32
    ensures { result ≡ capped (return_size (option_map expr_tree value.now)) }
{
    match value {
        None => 1,
        Some(value) => plus(expr(value).value, 1),
    }
}

/// A statement.
#[cycle(stmts)]
fn stmt(one: &Stmt) -> u32
    ensures { result ≡ capped (stmt_size (stmt_tree one.now)) }
{
    match one {
        Stmt::Block(inner) => block(inner),
        Stmt::Empty(_) => 0,
        Stmt::Local(one) => declaration(one),
        Stmt::Simple(one) => simple(one),
        Stmt::If {
            test,
            body,
            other,
            ..
        } => {
            let begun = plus(expr(test).test, stmt(body));
            match other {
                None => begun,
                Some(other) => plus(begun, stmt(other)),
            }
        }
        Stmt::While { test, body, .. } => plus(expr(test).test, stmt(body)),
        Stmt::DoWhile { body, test, .. } => plus(stmt(body), expr(test).test),
        Stmt::For {
            init: first,
            test,
            step,
            body,
            ..
        } => plus(
            plus(plus(init(first), condition(test)), stmt(body)),
            step_of(step),
        ),
        Stmt::Break(_) => 0,
        Stmt::Continue(_) => 0,
        Stmt::Return(_, value) => returned(value),
    }
}

/// The statements of a block.
#[cycle(stmts)]
fn block(body: &Block) -> u32
    ensures { result ≡ capped (stmts_size (block_tree body.now).body) }
{
    let mut total = 0;
    for one in &body.stmts {
        total = plus(total, stmt(one));
    }
    total
}

/// How many nodes the code of a body has, without those that close it, and at most `MOST_COUNTED`.
pub fn body_size(body: &[Stmt]) -> u32
    ensures { result ≡ capped (stmts_size (stmts_tree body.now)) }
{
    let mut total = 0;
    for one in body {
        total = plus(total, stmt(one));
    }
    total
}
