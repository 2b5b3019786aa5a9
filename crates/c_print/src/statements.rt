//! Statements and local declarations (C11 6.8). The calls nest as deep as the statement does.
ghost use Rattle.std.specs.Prelude.{◌≡◌, ◌∷◌, OnOk, map, option_map, codes};
ghost use Rattle.c_grammar.specs.Printing.{
  print_more,
  print_maybe,
  text_of_assign,
  text_of_step,
  print_simple,
  print_initialized,
  print_local,
  print_init,
  print_stmt,
  print_stmts,
};
ghost use Rattle.c_print.specs.Writing.{
  Prints,
  print_value,
  print_for,
  print_return,
  print_tested,
  print_else,
  print_do_while,
  print_block,
};
ghost use Rattle.c_tree.specs.Syntax.{
  expr_tree,
  assign_tree,
  step_tree,
  simple_tree,
  for_step_tree,
  initialized_tree,
  local_tree,
  init_tree,
  stmt_tree,
  else_tree,
  stmts_tree,
  block_tree,
};

use crate::expressions::{write_call, write_expr, write_in_parens, write_optional_expr};
use crate::types::{write_declarator, write_specifier};
use crate::words::write_word;
use c_tree::{AssignOp, Block, Expr, ForInit, Initialized, Local, Simple, StepOp, Stmt};
use std::alloc::AllocError;

/// The text of an operator that assigns.
fn text_of_assign(op: AssignOp) -> &'static [u8]
    ensures { result.now ≡ text_of_assign (assign_tree op) }
{
    match op {
        AssignOp::Set => b"=",
        AssignOp::AddTo => b"+=",
        AssignOp::SubtractFrom => b"-=",
        AssignOp::MultiplyBy => b"*=",
    }
}

/// The text of an operator behind what it changes.
fn text_of_step(op: StepOp) -> &'static [u8]
    ensures { result.now ≡ text_of_step (step_tree op) }
{
    match op {
        StepOp::Increment => b"++",
        StepOp::Decrement => b"--",
    }
}

/// Writes the simple statement, without its semicolon.
fn write_simple(text: &mut Vec<u8>, simple: &Simple) -> Result<(), AllocError>
    ensures { OnOk result (Prints (print_simple (simple_tree simple.now)) text.old.items text.new.items) }
{
    match simple {
        Simple::Assign(target, op, value) => {
            write_expr(text, target)?;
            write_word(text, text_of_assign(*op))?;
            write_expr(text, value)
        }
        Simple::Step(target, op) => {
            write_expr(text, target)?;
            write_word(text, text_of_step(*op))
        }
        Simple::Call(callee, args) => write_call(text, callee, args),
        Simple::Free(_, pointer) => write_in_parens(text, b"free", pointer),
    }
}

/// Writes the simple statement, if there is one.
fn write_optional_simple(text: &mut Vec<u8>, simple: &Option<Box<Simple>>) -> Result<(), AllocError>
    ensures { OnOk result (Prints (print_maybe print_simple (option_map for_step_tree simple.now)) text.old.items text.new.items) }
{
    match simple {
        None => Ok(()),
        Some(simple) => write_simple(text, simple),
    }
}

/// Writes `=` and the value that a local begins with, if it has one.
fn write_value(text: &mut Vec<u8>, value: &Option<Expr>) -> Result<(), AllocError>
    ensures { OnOk result (Prints (print_value (option_map expr_tree value.now)) text.old.items text.new.items) }
{
    match value {
        None => Ok(()),
        Some(value) => {
            write_word(text, b"=")?;
            write_expr(text, value)
        }
    }
}

/// Writes the declarator of a local, with its value.
fn write_initialized(text: &mut Vec<u8>, one: &Initialized) -> Result<(), AllocError>
    ensures { OnOk result (Prints (print_initialized (initialized_tree one.now)) text.old.items text.new.items) }
{
    write_declarator(text, &one.declarator)?;
    write_value(text, &one.value)
}

/// Writes the declarators of locals, each behind a comma.
fn write_more_initialized(text: &mut Vec<u8>, others: &[Initialized]) -> Result<(), AllocError>
    ensures { OnOk result (Prints (print_more print_initialized (map initialized_tree others.now)) text.old.items text.new.items) }
{
    for one in others {
        write_word(text, b",")?;
        write_initialized(text, one)?;
    }
    Ok(())
}

/// Writes the locals of one declaration, without its semicolon.
fn write_local(text: &mut Vec<u8>, local: &Local) -> Result<(), AllocError>
    ensures { OnOk result (Prints (print_local (local_tree local.now)) text.old.items text.new.items) }
{
    write_specifier(text, &local.specifier)?;
    write_initialized(text, &local.declarators.first)?;
    write_more_initialized(text, &local.declarators.others)
}

/// Writes what a `for` begins with.
fn write_init(text: &mut Vec<u8>, init: &ForInit) -> Result<(), AllocError>
    ensures { OnOk result (Prints (print_init (init_tree init.now)) text.old.items text.new.items) }
{
    match init {
        ForInit::Empty => Ok(()),
        ForInit::Local(local) => write_local(text, local),
        ForInit::Simple(simple) => write_simple(text, simple),
    }
}

/// Writes `for` and its three parts in parentheses.
fn write_for(
    text: &mut Vec<u8>,
    init: &ForInit,
    test: &Option<Expr>,
    step: &Option<Box<Simple>>,
) -> Result<(), AllocError>
    ensures { OnOk result (Prints (print_for (init_tree init.now) (option_map expr_tree test.now) (option_map for_step_tree step.now))
        text.old.items text.new.items) }
{
    write_word(text, b"for")?;
    write_word(text, b"(")?;
    write_init(text, init)?;
    write_word(text, b";")?;
    write_optional_expr(text, test)?;
    write_word(text, b";")?;
    write_optional_simple(text, step)?;
    write_word(text, b")")
}

/// Writes the word and a semicolon.
fn write_jump(text: &mut Vec<u8>, word: &[u8]) -> Result<(), AllocError>
    ensures { OnOk result (Prints (λ behind. word.now ∷ codes ";" ∷ behind) text.old.items text.new.items) }
{
    write_word(text, word)?;
    write_word(text, b";")
}

/// Writes `return`, the value, if there is one, and a semicolon.
fn write_return(text: &mut Vec<u8>, value: &Option<Expr>) -> Result<(), AllocError>
    ensures { OnOk result (Prints (print_return (option_map expr_tree value.now)) text.old.items text.new.items) }
{
    write_word(text, b"return")?;
    write_optional_expr(text, value)?;
    write_word(text, b";")
}

/// Writes the statement.
#[cycle(write)]
fn write_stmt(text: &mut Vec<u8>, stmt: &Stmt) -> Result<(), AllocError>
    ensures { OnOk result (Prints (print_stmt (stmt_tree stmt.now)) text.old.items text.new.items) }
{
    match stmt {
        Stmt::Block(block) => write_block(text, block),
        Stmt::Empty(_) => write_word(text, b";"),
        Stmt::Local(local) => {
            write_local(text, local)?;
            write_word(text, b";")
        }
        Stmt::Simple(simple) => {
            write_simple(text, simple)?;
            write_word(text, b";")
        }
        Stmt::If {
            test,
            body,
            other,
            ..
        } => {
            write_tested(text, b"if", body, test)?;
            write_else(text, other)
        }
        Stmt::While { test, body, .. } => write_tested(text, b"while", body, test),
        Stmt::DoWhile { body, test, .. } => write_do_while(text, body, test),
        Stmt::For {
            init,
            test,
            step,
            body,
            ..
        } => {
            write_for(text, init, test, step)?;
            write_stmt(text, body)
        }
        Stmt::Break(_) => write_jump(text, b"break"),
        Stmt::Continue(_) => write_jump(text, b"continue"),
        Stmt::Return(_, value) => write_return(text, value),
    }
}

/// Writes the word, the test in parentheses, and the statement: an `if` up to its `else`, or a `while`.
#[cycle(write)]
fn write_tested(text: &mut Vec<u8>, word: &[u8], body: &Stmt, test: &Expr) -> Result<(), AllocError>
    ensures { OnOk result (Prints (print_tested word.now (expr_tree test.now) (stmt_tree body.now)) text.old.items text.new.items) }
{
    write_in_parens(text, word, test)?;
    write_stmt(text, body)
}

/// Writes `else` and the statement behind it, if there is one.
#[cycle(write)]
fn write_else(text: &mut Vec<u8>, other: &Option<Box<Stmt>>) -> Result<(), AllocError>
    ensures { OnOk result (Prints (print_else (option_map else_tree other.now)) text.old.items text.new.items) }
{
    match other {
        None => Ok(()),
        Some(other) => {
            write_word(text, b"else")?;
            write_stmt(text, other)
        }
    }
}

/// Writes `do`, the statement, `while` with the test in parentheses, and a semicolon.
#[cycle(write)]
fn write_do_while(text: &mut Vec<u8>, body: &Stmt, test: &Expr) -> Result<(), AllocError>
    ensures { OnOk result (Prints (print_do_while (stmt_tree body.now) (expr_tree test.now)) text.old.items text.new.items) }
{
    write_word(text, b"do")?;
    write_stmt(text, body)?;
    write_in_parens(text, b"while", test)?;
    write_word(text, b";")
}

/// Writes the statements of the block, in braces.
#[cycle(write)]
pub fn write_block(text: &mut Vec<u8>, block: &Block) -> Result<(), AllocError>
    ensures { OnOk result (Prints (print_block (block_tree block.now)) text.old.items text.new.items) }
{
    write_word(text, b"{")?;
    write_stmts(text, &block.stmts)?;
    write_word(text, b"}")
}

/// Writes the statements, one behind another.
#[cycle(write)]
fn write_stmts(text: &mut Vec<u8>, stmts: &Vec<Stmt>) -> Result<(), AllocError>
    ensures { OnOk result (Prints (print_stmts (stmts_tree stmts.now.items)) text.old.items text.new.items) }
{
    for stmt in stmts {
        write_stmt(text, stmt)?;
    }
    Ok(())
}
