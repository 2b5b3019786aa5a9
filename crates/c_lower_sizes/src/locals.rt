//! How many locals statements declare (C11 6.7). The calls nest as deep as the blocks, branches and loops do.
ghost use Rattle.std.specs.Prelude.{◌≡◌};
ghost use Rattle.c_tree.specs.Syntax.{local_tree, init_tree, stmt_tree, stmts_tree, block_tree};
ghost use Rattle.c_lower_sizes.specs.Sizes.{declared, init_locals, stmt_locals, stmts_locals};
ghost use Rattle.c_lower_sizes.specs.Counts.{capped};

use crate::counts::{count_of, plus};
use c_tree::{Block, ForInit, Local, Stmt};

/// The locals of a declaration.
fn declared(one: &Local) -> u32
    ensures { result ≡ capped (declared (local_tree one.now)) }
{
    plus(count_of(one.declarators.others.len()), 1)
}

/// The locals that a `for` begins with.
fn init_locals(one: &ForInit) -> u32
    ensures { result ≡ capped (init_locals (init_tree one.now)) }
{
    match one {
        ForInit::Empty => 0,
        ForInit::Local(one) => declared(one),
        ForInit::Simple(_) => 0,
    }
}

/// The locals of a statement.
#[cycle(locals)]
fn stmt_locals(one: &Stmt) -> u32
    ensures { result ≡ capped (stmt_locals (stmt_tree one.now)) }
{
    match one {
        Stmt::Block(inner) => block_locals(inner),
        Stmt::Empty(_) => 0,
        Stmt::Local(one) => declared(one),
        Stmt::Simple(_) => 0,
        Stmt::If { body, other, .. } => {
            let begun = stmt_locals(body);
            match other {
                None => begun,
                Some(other) => plus(begun, stmt_locals(other)),
            }
        }
        Stmt::While { body, .. } => stmt_locals(body),
        Stmt::DoWhile { body, .. } => stmt_locals(body),
        Stmt::For { init, body, .. } => plus(init_locals(init), stmt_locals(body)),
        Stmt::Break(_) => 0,
        Stmt::Continue(_) => 0,
        Stmt::Return(_, _) => 0,
    }
}

/// The locals of a block.
#[cycle(locals)]
fn block_locals(body: &Block) -> u32
    ensures { result ≡ capped (stmts_locals (block_tree body.now).body) }
{
    let mut total = 0;
    for one in &body.stmts {
        total = plus(total, stmt_locals(one));
    }
    total
}

/// How many locals a body declares, and at most `MOST_COUNTED`.
pub fn local_count(body: &[Stmt]) -> u32
    ensures { result ≡ capped (stmts_locals (stmts_tree body.now)) }
{
    let mut total = 0;
    for one in body {
        total = plus(total, stmt_locals(one));
    }
    total
}
