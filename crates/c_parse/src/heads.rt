//! What stands before and behind a statement that is within another one (C11 6.8.4, 6.8.5).
ghost use Rattle.std.specs.Prelude.{◌≡◌, ◌≤◌, ◌<◌, length, IfOk};
ghost use Rattle.c_grammar.specs.Readers.{class_at};
ghost use Rattle.c_grammar.specs.Trees as tree;
ghost use Rattle.c_tree.specs.Syntax.{expr_tree, stmt_tree, stmts_tree, block_tree};
ghost use Rattle.c_parse_exprs.specs.Reads.{Reads};
ghost use Rattle.c_parse.specs.Clauses.{read_do_end};
ghost use Rattle.c_parse.specs.Heads.{read_tested, tested_tree, branch_tree, iteration_by, iteration_tree, iteration_end, read_block_end};

use crate::flat_stmts::{ForHead, read_do_test, read_for_head, read_test};
use c_parse_exprs::{Class, SyntaxFault, Words};
use c_tree::{Block, Expr, Place, Stmt};
use std::alloc::{AllocError, Global};

/// The place of an `if` or a `while`, and its test. Its `drop` is written out, as are those below, so that a function that
/// holds one calls it, and none has the cases of `Expr` and `Stmt` within it.
pub struct Tested {
    place: Place,
    test: Expr,
}

impl Drop for Tested {
    fn drop(self) {
        let Tested { place: _, test } = self;
        drop(test);
    }
}

impl Tested {
    /// `if` with this test and the first statement.
    pub fn then(self, alloc: Global, body: Stmt) -> Result<Branch, AllocError>
        ensures { IfOk result (λ found. branch_tree found
            ≡ record { place = self.place; test = expr_tree self.test; body = stmt_tree body }) }
    {
        let body = Box::new(alloc, body)?;
        let Tested { place, test } = self;
        Ok(Branch { place, test, body })
    }

    /// `while` with this test and the body (C11 6.8.5.1).
    fn again(self, alloc: Global, body: Stmt) -> Result<Stmt, AllocError>
        ensures { IfOk result (λ whole. stmt_tree whole ≡ tree.Stmt.While self.place (expr_tree self.test) (stmt_tree body)) }
    {
        let body = Box::new(alloc, body)?;
        let Tested { place, test } = self;
        Ok(Stmt::While { place, test, body })
    }
}

/// `if` or `while`, and the test behind it.
pub fn read_tested(alloc: Global, levels: u32, words: &mut Words<'_>) -> Result<Tested, SyntaxFault>
    ensures value { Reads (read_tested levels words.old) tested_tree result words.new }
    ensures falls { IfOk result (λ _. length words.new < length words.old) }
    ensures stays { length words.new ≤ length words.old }
{
    let place = words.place();
    words.step();
    let test = read_test(alloc, levels, words)?;
    Ok(Tested { place, test })
}

/// An `if` up to the end of its first statement (C11 6.8.4.1).
pub struct Branch {
    place: Place,
    test: Expr,
    body: Box<Stmt>,
}

impl Drop for Branch {
    fn drop(self) {
        let Branch {
            place: _,
            test,
            body,
        } = self;
        drop(test);
        drop(body);
    }
}

impl Branch {
    /// `if` without `else`.
    pub fn alone(self) -> Stmt
        ensures { let b = branch_tree self in stmt_tree result ≡ tree.Stmt.If b.place b.test b.body }
    {
        let Branch { place, test, body } = self;
        Stmt::If {
            place,
            test,
            body,
            other: None,
        }
    }

    /// `if` with `else`.
    pub fn or_else(self, alloc: Global, other: Stmt) -> Result<Stmt, AllocError>
        ensures { let b = branch_tree self in
            IfOk result (λ whole. stmt_tree whole ≡ tree.Stmt.IfElse b.place b.test b.body (stmt_tree other)) }
    {
        let other = Box::new(alloc, other)?;
        let Branch { place, test, body } = self;
        Ok(Stmt::If {
            place,
            test,
            body,
            other: Some(other),
        })
    }
}

/// What stands before the statement of an iteration statement (C11 6.8.5).
pub enum Iteration {
    While(Tested),
    Do(Place),
    For(Place, ForHead),
}

impl Drop for Iteration {
    fn drop(self) {
        match self {
            Iteration::While(_tested) => {}
            Iteration::Do(_place) => {}
            Iteration::For(_place, _head) => {}
        }
    }
}

/// What stands before the statement of an iteration statement, from its first word on.
pub fn read_iteration_head(
    alloc: Global,
    levels: u32,
    words: &mut Words<'_>,
) -> Result<Iteration, SyntaxFault>
    ensures value { Reads (iteration_by (class_at words.old) levels words.old) iteration_tree result words.new }
    ensures stays { length words.new ≤ length words.old }
{
    match words.first_class() {
        Class::While => Ok(Iteration::While(read_tested(alloc, levels, words)?)),
        Class::Do => {
            let place = words.place();
            words.step();
            Ok(Iteration::Do(place))
        }
        Class::For => {
            let place = words.place();
            words.step();
            Ok(Iteration::For(place, read_for_head(alloc, levels, words)?))
        }
        _ => Err(words.wrong()),
    }
}

/// A `do` up to its `while` (C11 6.8.5.2).
struct Begun {
    place: Place,
    body: Box<Stmt>,
}

impl Drop for Begun {
    fn drop(self) {
        let Begun { place: _, body } = self;
        drop(body);
    }
}

impl Begun {
    /// `do` and its `while`.
    fn until(self, test: Expr) -> Stmt
        ensures { stmt_tree result ≡ tree.Stmt.DoWhile self.place (stmt_tree self.body.value) (expr_tree test) }
    {
        let Begun { place, body } = self;
        Stmt::DoWhile { place, body, test }
    }
}

/// A `do` behind its statement: its `while` and its test.
fn read_do_end(
    alloc: Global,
    levels: u32,
    place: Place,
    body: Stmt,
    words: &mut Words<'_>,
) -> Result<Stmt, SyntaxFault>
    ensures value { Reads (read_do_end levels place (stmt_tree body) words.old) stmt_tree result words.new }
    ensures stays { length words.new ≤ length words.old }
{
    let body = Box::new(alloc, body)?;
    let begun = Begun { place, body };
    let test = read_do_test(alloc, levels, words)?;
    Ok(begun.until(test))
}

impl Iteration {
    /// The iteration statement, from behind its statement on.
    pub fn read_end(
        self,
        alloc: Global,
        levels: u32,
        body: Stmt,
        words: &mut Words<'_>,
    ) -> Result<Stmt, SyntaxFault>
        ensures value { Reads (iteration_end (iteration_tree self) levels (stmt_tree body) words.old) stmt_tree result words.new }
        ensures stays { length words.new ≤ length words.old }
    {
        match self {
            Iteration::While(tested) => Ok(tested.again(alloc, body)?),
            Iteration::Do(place) => read_do_end(alloc, levels, place, body, words),
            Iteration::For(place, head) => Ok(head.of(alloc, place, body)?),
        }
    }
}

/// The block between these places. It has no room for more statements, since most blocks are short.
fn block_of(place: Place, stmts: Vec<Stmt>, end: Place) -> Block
    ensures { block_tree result ≡ record { place = place; body = stmts_tree stmts.items; end = end } }
{
    let mut stmts = stmts;
    stmts.shrink_to_fit();
    Block {
        open: place,
        stmts,
        close: end,
    }
}

/// A block behind its statements: its `}` (C11 6.8.2).
pub fn read_block_end(
    place: Place,
    stmts: Vec<Stmt>,
    words: &mut Words<'_>,
) -> Result<Block, SyntaxFault>
    ensures value { Reads (read_block_end place (stmts_tree stmts.items) words.old) block_tree result words.new }
    ensures falls { IfOk result (λ _. length words.new < length words.old) }
    ensures stays { length words.new ≤ length words.old }
{
    let block = block_of(place, stmts, words.place());
    words.take(Class::CloseBrace)?;
    Ok(block)
}

/// A block as a statement (C11 6.8.2).
pub fn as_stmt(block: Block) -> Stmt
    ensures { let b = block_tree block in stmt_tree result ≡ tree.Stmt.Block b.place b.body b.end }
{
    Stmt::Block(block)
}
