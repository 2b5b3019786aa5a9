//! Statements (C11 6.8). What stands within a statement that opens a level is read with a level less.
ghost use Rattle.std.specs.Prelude.{◌≡◌, ◌≤◌, ◌<◌, length, IfOk};
ghost use Rattle.c_grammar.specs.Readers as readers;
ghost use Rattle.c_grammar.specs.Readers.{class_at};
ghost use Rattle.c_tree.specs.Syntax.{stmt_tree, stmts_tree, block_tree};
ghost use Rattle.c_parse_exprs.specs.Reads.{Reads};
ghost use Rattle.c_parse.specs.Clauses.{read_block};
ghost use Rattle.c_parse.specs.Heads.{branch_tree, read_other, read_whole_if, read_iteration};

use crate::flat_stmts::read_flat;
use crate::heads::{Branch, as_stmt, read_block_end, read_iteration_head, read_tested};
use crate::locals::begins_clause;
use c_parse_exprs::{Class, SyntaxFault, Words};
use c_tree::{Block, Stmt};
use std::alloc::Global;

/// Whether a statement that opens a level begins with a word of the class.
fn opens_level(class: Class) -> bool
    ensures { result ≡ readers.opens_level class }
{
    matches!(
        class,
        Class::OpenBrace | Class::If | Class::While | Class::Do | Class::For
    )
}

/// Whether a statement may begin with a word of the class.
fn begins_stmt(class: Class) -> bool
    ensures { result ≡ readers.begins_stmt class }
{
    matches!(
        class,
        Class::Semicolon | Class::Break | Class::Continue | Class::Return
    ) || opens_level(class)
        || begins_clause(class)
}

/// A statement, within so many levels of nesting.
#[cycle(stmt)]
fn read_stmt(alloc: Global, levels: u32, words: &mut Words<'_>) -> Result<Stmt, SyntaxFault>
    ensures value { Reads (readers.read_stmt levels words.old) stmt_tree result words.new }
    ensures falls { IfOk result (λ _. length words.new < length words.old) }
    ensures stays { length words.new ≤ length words.old }
{
    if !opens_level(words.first_class()) {
        return read_flat(alloc, levels, words);
    }
    if levels == 0 {
        return Err(words.too_deep());
    }
    read_nested(alloc, levels - 1, words)
}

/// A statement that opens a level, within which are so many.
#[cycle(stmt)]
fn read_nested(alloc: Global, levels: u32, words: &mut Words<'_>) -> Result<Stmt, SyntaxFault>
    ensures value { Reads (readers.nested_by (class_at words.old) levels (readers.read_stmt levels) words.old) stmt_tree result words.new }
    ensures falls { IfOk result (λ _. length words.new < length words.old) }
    ensures stays { length words.new ≤ length words.old }
{
    match words.first_class() {
        Class::OpenBrace => {
            let block = read_block(alloc, levels, words)?;
            Ok(as_stmt(block))
        }
        Class::If => read_if(alloc, levels, words),
        _ => read_iteration(alloc, levels, words),
    }
}

/// Statements, as long as one begins.
#[cycle(stmt)]
fn read_stmts(alloc: Global, levels: u32, words: &mut Words<'_>) -> Result<Vec<Stmt>, SyntaxFault>
    ensures value { Reads (readers.read_stmts (length words.old) (readers.read_stmt levels) words.old) (λ found. stmts_tree found.items)
        result words.new }
    ensures stays { length words.new ≤ length words.old }
{
    let mut stmts = Vec::new(alloc);
    'each: while begins_stmt(words.first_class()) {
        stmts.push(read_stmt(alloc, levels, words)?)?;
    }
    Ok(stmts)
}

/// A block, from its `{` on, within which are so many levels (C11 6.8.2).
#[cycle(stmt)]
pub fn read_block(alloc: Global, levels: u32, words: &mut Words<'_>) -> Result<Block, SyntaxFault>
    ensures value { Reads (read_block (readers.read_stmt levels) words.old) block_tree result words.new }
    ensures falls { IfOk result (λ _. length words.new < length words.old) }
    ensures stays { length words.new ≤ length words.old }
{
    let place = words.place();
    words.step();
    let stmts = read_stmts(alloc, levels, words)?;
    read_block_end(place, stmts, words)
}

/// `if` (C11 6.8.4.1).
#[cycle(stmt)]
fn read_if(alloc: Global, levels: u32, words: &mut Words<'_>) -> Result<Stmt, SyntaxFault>
    ensures value { Reads (read_whole_if levels (readers.read_stmt levels) words.old) stmt_tree result words.new }
    ensures falls { IfOk result (λ _. length words.new < length words.old) }
    ensures stays { length words.new ≤ length words.old }
{
    let tested = read_tested(alloc, levels, words)?;
    let body = read_stmt(alloc, levels, words)?;
    let branch = tested.then(alloc, body)?;
    read_else(alloc, levels, branch, words)
}

/// An `if`, behind its first statement: `else` and its statement, if they stand there (C11 6.8.4.1).
#[cycle(stmt)]
fn read_else(
    alloc: Global,
    levels: u32,
    branch: Branch,
    words: &mut Words<'_>,
) -> Result<Stmt, SyntaxFault>
    ensures value { Reads (read_other (readers.read_stmt levels) (branch_tree branch) words.old) stmt_tree result words.new }
    ensures stays { length words.new ≤ length words.old }
{
    if !words.sees(Class::Else) {
        return Ok(branch.alone());
    }
    words.step();
    let other = read_stmt(alloc, levels, words)?;
    Ok(branch.or_else(alloc, other)?)
}

/// An iteration statement (C11 6.8.5).
#[cycle(stmt)]
fn read_iteration(alloc: Global, levels: u32, words: &mut Words<'_>) -> Result<Stmt, SyntaxFault>
    ensures value { Reads (read_iteration levels (readers.read_stmt levels) words.old) stmt_tree result words.new }
    ensures falls { IfOk result (λ _. length words.new < length words.old) }
    ensures stays { length words.new ≤ length words.old }
{
    let head = read_iteration_head(alloc, levels, words)?;
    let body = read_stmt(alloc, levels, words)?;
    head.read_end(alloc, levels, body, words)
}
