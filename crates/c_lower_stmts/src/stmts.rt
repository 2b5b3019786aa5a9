//! Statements (C11 6.8). The calls nest as deep as the blocks, branches and loops do.
ghost use Rattle.std.specs.Prelude.{◌≡◌, ℕ, OnOk, IfOk, option_map};
ghost use Rattle.c_grammar.specs.declared.tokens.places.Place.{Place};
ghost use Rattle.c_grammar.specs.Trees as tree;
ghost use Rattle.c_tree.specs.Syntax.{expr_tree, for_step_tree, init_tree, stmt_tree, stmts_tree};
ghost use Rattle.c_lower_rules.specs.Statements.{inside, stmt, stmts};
ghost use Rattle.c_lower_rules.specs.Numbers.{StmtHasIntNumbers, StmtsHaveIntNumbers};
ghost use Rattle.c_lower_exprs.specs.Contexts.{on_line, IsWithin};
ghost use Rattle.c_lower_stmts.specs.Laying.{EmitsLowered, EmitsStmt, EmitsWithin};
ghost use Rattle.c_lower_stmts.specs.Standing.{state};

use crate::declaring::place_of_local;
use crate::heads::{declared, init, once, return_at, step, tested, tested_for};
use crate::laid::Laid;
use crate::loops::{close, close_behind, open};
use crate::simples::place_of_simple;
use crate::stmt_parts::choose;
use c_lower_emit::drafts::Label;
use c_lower_emit::output::Output;
use c_lower_exprs::context::Context;
use c_tree::{Block, Expr, ForInit, Place, Simple, Stmt};
use std::alloc::AllocError;

/// A statement.
#[cycle(stmts)]
fn stmt<'a>(
    context: &mut Context<'a>,
    locals: u32,
    one: &'a Stmt,
    out: &mut Output<'a>,
) -> Result<Laid, AllocError>
    ensures within { OnOk result (IsWithin context.old context.new) }
    ensures laid { IfOk result (λ laid. EmitsStmt (stmt_tree one.now) context.old locals context.new laid out.old out.new) }
{
    match one {
        Stmt::Block(inner) => block(context, locals, inner, out),
        Stmt::Empty(_) => Ok(Laid::new(Label::Next, locals)),
        Stmt::Local(one) => declared(context, locals, place_of_local(one), one, out),
        Stmt::Simple(one) => once(context, locals, place_of_simple(one), one, out),
        Stmt::If {
            test,
            body,
            other,
            ..
        } => {
            let from = out.len();
            tested(context, test, out)?;
            let past = out.len();
            let first = nested(context, locals, body, out)?;
            match other {
                None => {
                    choose(from, past, first.begin, Label::Next, out);
                    Ok(Laid::new(Label::at(from), first.locals))
                }
                Some(other) => {
                    let second = nested(context, first.locals, other, out)?;
                    choose(from, past, first.begin, second.begin, out);
                    Ok(Laid::new(Label::at(from), second.locals))
                }
            }
        }
        Stmt::While { test, body, .. } => while_loop(context, locals, body, test, out),
        Stmt::DoWhile { body, test, .. } => do_loop(context, locals, body, test, out),
        Stmt::For {
            place,
            init,
            test,
            step,
            body,
        } => for_loop(context, locals, body, *place, init, test, step, out),
        Stmt::Break(_) => Ok(Laid::new(Label::Breaks, locals)),
        Stmt::Continue(_) => Ok(Laid::new(Label::Continues, locals)),
        Stmt::Return(place, value) => return_at(context, locals, *place, value, out),
    }
}

/// A `while` (C11 6.8.5.1). `body` is before `test` among the parameters, since the calls end by its depth.
#[cycle(stmts)]
fn while_loop<'a>(
    context: &mut Context<'a>,
    locals: u32,
    body: &'a Box<Stmt>,
    test: &'a Expr,
    out: &mut Output<'a>,
) -> Result<Laid, AllocError>
    ensures context { OnOk result (context.new ≡ context.old) }
    ensures laid { IfOk result (λ laid. (place : Place)
        → EmitsStmt (tree.Stmt.While place (expr_tree test.now) (stmt_tree body.now.value))
        context.old locals context.new laid out.old out.new) }
{
    let opened = open(context, out)?;
    let head = opened.head;
    tested(context, test, out)?;
    let from = out.len();
    let laid = nested(context, locals, body, out)?;
    let past = out.len();
    close(opened, from, past, laid.begin, Label::Next, out)?;
    Ok(Laid::new(Label::at(head), laid.locals))
}

/// A `do`, with the test behind its body (C11 6.8.5.2).
#[cycle(stmts)]
fn do_loop<'a>(
    context: &mut Context<'a>,
    locals: u32,
    body: &'a Box<Stmt>,
    test: &'a Expr,
    out: &mut Output<'a>,
) -> Result<Laid, AllocError>
    ensures context { OnOk result (context.new ≡ context.old) }
    ensures laid { IfOk result (λ laid. (place : Place)
        → EmitsStmt (tree.Stmt.DoWhile place (stmt_tree body.now.value) (expr_tree test.now))
        context.old locals context.new laid out.old out.new) }
{
    let opened = open(context, out)?;
    let laid = nested(context, locals, body, out)?;
    let from = out.len();
    tested(context, test, out)?;
    let begin = close_behind(opened, from, laid.begin, out)?;
    Ok(Laid::new(begin, laid.locals))
}

/// A `for` (C11 6.8.5.3), in a scope of its own.
#[cycle(stmts)]
fn for_loop<'a>(
    context: &mut Context<'a>,
    locals: u32,
    body: &'a Box<Stmt>,
    place: Place,
    first: &'a ForInit,
    test: &'a Option<Expr>,
    last: &'a Option<Box<Simple>>,
    out: &mut Output<'a>,
) -> Result<Laid, AllocError>
    ensures context { OnOk result (context.new ≡ context.old) }
    ensures laid { IfOk result (λ laid. EmitsStmt
        (tree.Stmt.For place (init_tree first.now) (option_map expr_tree test.now) (option_map for_step_tree last.now)
        (stmt_tree body.now.value)) context.old locals context.new laid out.old out.new) }
{
    let scope = context.enter();
    let start = out.len();
    let begun = init(context, locals, place, first, out)?;
    let opened = open(context, out)?;
    let head = opened.head;
    tested_for(context, place, test, out)?;
    let from = out.len();
    let laid = nested(context, begun.locals, body, out)?;
    let past = out.len();
    let stepped = step(context, laid.locals, last, out)?;
    close(opened, from, past, laid.begin, stepped.begin, out)?;
    let label = Label::at(head);
    out.lead_next(start, head, label);
    context.leave(scope);
    Ok(Laid::new(begun.begin.followed_by(label), stepped.locals))
}

/// A statement in a scope of its own.
#[cycle(stmts)]
fn nested<'a>(
    context: &mut Context<'a>,
    locals: u32,
    body: &'a Box<Stmt>,
    out: &mut Output<'a>,
) -> Result<Laid, AllocError>
    ensures context { OnOk result (context.new ≡ context.old) }
    ensures laid { IfOk result (λ laid. StmtHasIntNumbers (stmt_tree body.now.value) → (line : ℕ)
        → EmitsWithin (stmt (stmt_tree body.now.value) (inside (state (on_line context.old line) locals out.old)))
        context.old locals laid out.old out.new) }
{
    let scope = context.enter();
    let laid = stmt(context, locals, body, out)?;
    context.leave(scope);
    Ok(laid)
}

/// The statements of a block, in a scope of its own.
#[cycle(stmts)]
fn block<'a>(
    context: &mut Context<'a>,
    locals: u32,
    body: &'a Block,
    out: &mut Output<'a>,
) -> Result<Laid, AllocError>
    ensures context { OnOk result (context.new ≡ context.old) }
    ensures laid { IfOk result (λ laid. StmtsHaveIntNumbers (stmts_tree body.now.stmts.items) → (line : ℕ)
        → EmitsWithin (stmts (stmts_tree body.now.stmts.items) (inside (state (on_line context.old line) locals out.old)))
        context.old locals laid out.old out.new) }
{
    let scope = context.enter();
    let laid = stmts(context, locals, &body.stmts, out)?;
    context.leave(scope);
    Ok(laid)
}

/// Statements, one behind another.
#[cycle(stmts)]
pub fn stmts<'a>(
    context: &mut Context<'a>,
    locals: u32,
    ones: &'a Vec<Stmt>,
    out: &mut Output<'a>,
) -> Result<Laid, AllocError>
    ensures within { OnOk result (IsWithin context.old context.new) }
    ensures laid { IfOk result (λ laid. StmtsHaveIntNumbers (stmts_tree ones.now.items) → (line : ℕ)
        → EmitsLowered (stmts (stmts_tree ones.now.items) (state (on_line context.old line) locals out.old))
        context.old locals context.new laid out.old out.new) }
{
    let start = out.len();
    let mut laid = Laid::new(Label::Next, locals);
    for one in ones {
        let past = out.len();
        let next = stmt(context, laid.locals, one, out)?;
        out.lead_next(start, past, next.begin);
        laid = Laid::new(laid.begin.followed_by(next.begin), next.locals);
    }
    Ok(laid)
}
