//! Statements that have no statement within them, and the parts of statements that have none (C11 6.8).
ghost use Rattle.std.specs.Prelude.{◌≡◌, ◌≤◌, ◌<◌, length, option_map, IfOk};
ghost use Rattle.c_grammar.specs.Readers as readers;
ghost use Rattle.c_grammar.specs.Readers.{class_at};
ghost use Rattle.c_grammar.specs.Trees as tree;
ghost use Rattle.c_tree.specs.Syntax.{expr_tree, simple_tree, init_tree, for_step_tree, stmt_tree};
ghost use Rattle.c_parse_exprs.specs.Reads.{Reads};
ghost use Rattle.c_parse.specs.Clauses.{clause_tree, read_plain, read_return, read_do_test, read_for_head, for_head_tree};

use crate::locals::{Clause, begins_clause, read_clause};
use crate::simple::{begins_simple, read_simple};
use c_parse_exprs::exprs::read_expr;
use c_parse_exprs::parts::begins_expr;
use c_parse_exprs::{Class, SyntaxFault, Words};
use c_tree::{Expr, ForInit, Place, Simple, Stmt};
use std::alloc::{AllocError, Global};

/// How a `for` begins, its test and its step (C11 6.8.5.3). Its `drop` is written out, so that a function that holds one
/// calls it.
pub struct ForHead {
    init: ForInit,
    test: Option<Expr>,
    step: Option<Box<Simple>>,
}

impl Drop for ForHead {
    fn drop(self) {
        let ForHead {
            init: _,
            test: _,
            step: _,
        } = self;
    }
}

impl ForHead {
    ghost use Rattle.c_parse.specs.Clauses.{for_head_tree};

    /// The `for` with this head and the body.
    pub fn of(self, alloc: Global, place: Place, body: Stmt) -> Result<Stmt, AllocError>
        ensures { let h = for_head_tree self in
            IfOk result (λ whole. stmt_tree whole ≡ tree.Stmt.For place h.init h.test h.step (stmt_tree body)) }
    {
        let ForHead { init, test, step } = self;
        let body = Box::new(alloc, body)?;
        Ok(Stmt::For {
            place,
            init,
            test,
            step,
            body,
        })
    }
}

/// The statement that a clause is.
fn stmt_of(clause: Clause) -> Stmt
    ensures { stmt_tree result ≡ readers.stmt_of (clause_tree clause) }
{
    match clause {
        Clause::Local(local) => Stmt::Local(local),
        Clause::Simple(simple) => Stmt::Simple(simple),
    }
}

/// What a `for` begins with.
fn init_of(alloc: Global, clause: Option<Clause>) -> Result<ForInit, AllocError>
    ensures { IfOk result (λ init. init_tree init ≡ readers.init_of (option_map clause_tree clause)) }
{
    match clause {
        None => Ok(ForInit::Empty),
        Some(Clause::Local(local)) => Ok(ForInit::Local(Box::new(alloc, local)?)),
        Some(Clause::Simple(simple)) => Ok(ForInit::Simple(Box::new(alloc, simple)?)),
    }
}

/// The step of a `for`, if there is one.
fn step_of(alloc: Global, step: Option<Simple>) -> Result<Option<Box<Simple>>, AllocError>
    ensures { IfOk result (λ found. option_map for_step_tree found ≡ option_map simple_tree step) }
{
    match step {
        None => Ok(None),
        Some(simple) => Ok(Some(Box::new(alloc, simple)?)),
    }
}

/// An expression, if one stands there.
fn read_maybe_expr(
    alloc: Global,
    levels: u32,
    words: &mut Words<'_>,
) -> Result<Option<Expr>, SyntaxFault>
    ensures value { Reads (readers.read_maybe readers.begins_expr (readers.read_expr levels) words.old) (option_map expr_tree)
        result words.new }
    ensures stays { length words.new ≤ length words.old }
{
    if !begins_expr(words.first_class()) {
        return Ok(None);
    }
    Ok(Some(read_expr(alloc, levels, words)?))
}

/// A clause, if one stands there.
fn read_maybe_clause(
    alloc: Global,
    levels: u32,
    words: &mut Words<'_>,
) -> Result<Option<Clause>, SyntaxFault>
    ensures value { Reads (readers.read_maybe readers.begins_clause (readers.read_clause levels) words.old) (option_map clause_tree)
        result words.new }
    ensures stays { length words.new ≤ length words.old }
{
    if !begins_clause(words.first_class()) {
        return Ok(None);
    }
    Ok(Some(read_clause(alloc, levels, words)?))
}

/// A simple statement, if one stands there.
fn read_maybe_simple(
    alloc: Global,
    levels: u32,
    words: &mut Words<'_>,
) -> Result<Option<Simple>, SyntaxFault>
    ensures value { Reads (readers.read_maybe readers.begins_simple (readers.read_simple levels) words.old) (option_map simple_tree)
        result words.new }
    ensures stays { length words.new ≤ length words.old }
{
    if !begins_simple(words.first_class()) {
        return Ok(None);
    }
    Ok(Some(read_simple(alloc, levels, words)?))
}

/// A clause and its semicolon.
fn read_plain(alloc: Global, levels: u32, words: &mut Words<'_>) -> Result<Stmt, SyntaxFault>
    ensures value { Reads (read_plain levels words.old) stmt_tree result words.new }
    ensures falls { IfOk result (λ _. length words.new < length words.old) }
    ensures stays { length words.new ≤ length words.old }
{
    let clause = read_clause(alloc, levels, words)?;
    words.take(Class::Semicolon)?;
    Ok(stmt_of(clause))
}

/// `return`, with its value, if any (C11 6.8.6.4).
fn read_return(alloc: Global, levels: u32, words: &mut Words<'_>) -> Result<Stmt, SyntaxFault>
    ensures value { Reads (read_return levels words.old) stmt_tree result words.new }
    ensures falls { IfOk result (λ _. length words.new < length words.old) }
    ensures stays { length words.new ≤ length words.old }
{
    let place = words.place();
    words.step();
    let value = read_maybe_expr(alloc, levels, words)?;
    words.take(Class::Semicolon)?;
    Ok(Stmt::Return(place, value))
}

/// A statement that opens no level.
pub fn read_flat(alloc: Global, levels: u32, words: &mut Words<'_>) -> Result<Stmt, SyntaxFault>
    ensures value { Reads (readers.flat_by (class_at words.old) levels words.old) stmt_tree result words.new }
    ensures falls { IfOk result (λ _. length words.new < length words.old) }
    ensures stays { length words.new ≤ length words.old }
{
    let place = words.place();
    match words.first_class() {
        Class::Semicolon => {
            words.step();
            Ok(Stmt::Empty(place))
        }
        Class::Break => {
            words.step();
            words.take(Class::Semicolon)?;
            Ok(Stmt::Break(place))
        }
        Class::Continue => {
            words.step();
            words.take(Class::Semicolon)?;
            Ok(Stmt::Continue(place))
        }
        Class::Return => read_return(alloc, levels, words),
        _ => read_plain(alloc, levels, words),
    }
}

/// A test in parentheses (C11 6.8.4, 6.8.5).
#[tactic(auto, unfolding(c_grammar::specs::Readers::read_test))]
pub fn read_test(alloc: Global, levels: u32, words: &mut Words<'_>) -> Result<Expr, SyntaxFault>
    ensures value { Reads (readers.read_test levels words.old) expr_tree result words.new }
    ensures falls { IfOk result (λ _. length words.new < length words.old) }
    ensures stays { length words.new ≤ length words.old }
{
    words.take_open()?;
    let test = read_expr(alloc, levels, words)?;
    words.take(Class::Close)?;
    Ok(test)
}

/// What stands behind the statement of a `do`: `while`, a test and a semicolon (C11 6.8.5.2).
pub fn read_do_test(alloc: Global, levels: u32, words: &mut Words<'_>) -> Result<Expr, SyntaxFault>
    ensures value { Reads (read_do_test levels words.old) expr_tree result words.new }
    ensures falls { IfOk result (λ _. length words.new < length words.old) }
    ensures stays { length words.new ≤ length words.old }
{
    words.take(Class::While)?;
    let test = read_test(alloc, levels, words)?;
    words.take(Class::Semicolon)?;
    Ok(test)
}

/// What stands behind `for`, from its `(` to its `)` (C11 6.8.5.3).
pub fn read_for_head(
    alloc: Global,
    levels: u32,
    words: &mut Words<'_>,
) -> Result<ForHead, SyntaxFault>
    ensures value { Reads (read_for_head levels words.old) for_head_tree result words.new }
    ensures falls { IfOk result (λ _. length words.new < length words.old) }
    ensures stays { length words.new ≤ length words.old }
{
    words.take_open()?;
    let clause = read_maybe_clause(alloc, levels, words)?;
    let init = init_of(alloc, clause)?;
    words.take(Class::Semicolon)?;
    let test = read_maybe_expr(alloc, levels, words)?;
    words.take(Class::Semicolon)?;
    let simple = read_maybe_simple(alloc, levels, words)?;
    let step = step_of(alloc, simple)?;
    words.take(Class::Close)?;
    Ok(ForHead { init, test, step })
}
