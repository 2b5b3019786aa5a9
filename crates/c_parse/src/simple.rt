//! Simple statements: assignments, steps, calls and `free` (C11 6.8.3).
ghost use Rattle.std.specs.Prelude.{◌≡◌, ◌≤◌, length};
ghost use Rattle.c_grammar.specs.declared.class.Class.TheVariants as class;
ghost use Rattle.c_grammar.specs.Readers as readers;
ghost use Rattle.c_grammar.specs.Readers.{class_at};
ghost use Rattle.c_tree.specs.Syntax.{assign_tree, ident_tree, expr_tree, args_tree, simple_tree};
ghost use Rattle.c_parse_exprs.specs.Reads.{Reads};

use c_parse_exprs::exprs::{level_below, read_call, read_closed, read_expr};
use c_parse_exprs::parts::{read_members, with_members};
use c_parse_exprs::types::read_name;
use c_parse_exprs::{Class, SyntaxFault, Words};
use c_tree::{AssignOp, Expr, Ident, Simple, StepOp};
use std::alloc::Global;

/// The arguments of a call, from its `(` on (C11 6.5.2.2).
fn read_call_args(
    alloc: Global,
    levels: u32,
    words: &mut Words<'_>,
) -> Result<Vec<Expr>, SyntaxFault>
    ensures value { Reads (readers.read_call (readers.read_below levels) words.old) (λ args. args_tree args.items) result words.new }
    ensures stays { length words.new ≤ length words.old }
{
    read_call(alloc, level_below(levels), words)
}

/// A primary expression that begins with no name (C11 6.5.1).
fn read_base(alloc: Global, levels: u32, words: &mut Words<'_>) -> Result<Expr, SyntaxFault>
    ensures value { Reads (readers.closed_by (class_at words.old) (readers.read_below levels) words.old) expr_tree result words.new }
    ensures stays { length words.new ≤ length words.old }
{
    read_closed(alloc, level_below(levels), words)
}

/// Whether something is done to what stands before a word of the class.
fn begins_assign(class: Class) -> bool
    ensures { result ≡ readers.begins_assign class }
{
    matches!(
        class,
        Class::Set
            | Class::AddTo
            | Class::SubtractFrom
            | Class::MultiplyBy
            | Class::Increment
            | Class::Decrement
    )
}

/// Whether a simple statement may begin with a word of the class.
pub fn begins_simple(class: Class) -> bool
    ensures { result ≡ readers.begins_simple class }
{
    matches!(
        class,
        Class::Name
            | Class::Number
            | Class::Open
            | Class::Cast
            | Class::Null
            | Class::Malloc
            | Class::Free
    )
}

/// What is assigned, behind the operator (C11 6.5.16).
fn read_assigned(
    alloc: Global,
    levels: u32,
    target: Expr,
    op: AssignOp,
    words: &mut Words<'_>,
) -> Result<Simple, SyntaxFault>
    ensures value { Reads (readers.assign_with (assign_tree op) levels (expr_tree target) words.old) simple_tree result words.new }
    ensures stays { length words.new ≤ length words.old }
{
    words.step();
    let value = read_expr(alloc, levels, words)?;
    Ok(Simple::Assign(target, op, value))
}

/// What is done to a target (C11 6.5.16, 6.5.2.4).
fn read_change(
    alloc: Global,
    levels: u32,
    target: Expr,
    words: &mut Words<'_>,
) -> Result<Simple, SyntaxFault>
    ensures value { Reads (readers.assign_by (class_at words.old) levels (expr_tree target) words.old) simple_tree result words.new }
    ensures stays { length words.new ≤ length words.old }
{
    match words.first_class() {
        Class::Set => read_assigned(alloc, levels, target, AssignOp::Set, words),
        Class::AddTo => read_assigned(alloc, levels, target, AssignOp::AddTo, words),
        Class::SubtractFrom => {
            read_assigned(alloc, levels, target, AssignOp::SubtractFrom, words)
        }
        Class::MultiplyBy => read_assigned(alloc, levels, target, AssignOp::MultiplyBy, words),
        Class::Increment => {
            words.step();
            Ok(Simple::Step(target, StepOp::Increment))
        }
        Class::Decrement => {
            words.step();
            Ok(Simple::Step(target, StepOp::Decrement))
        }
        _ => Err(words.wrong()),
    }
}

/// Members of a base, and what is done to them.
#[tactic(auto, unfolding(c_grammar::specs::Readers::read_target))]
fn read_target(
    alloc: Global,
    levels: u32,
    base: Expr,
    words: &mut Words<'_>,
) -> Result<Simple, SyntaxFault>
    ensures value { Reads (readers.read_target levels (expr_tree base) words.old) simple_tree result words.new }
    ensures stays { length words.new ≤ length words.old }
{
    let fields = read_members(alloc, words)?;
    let target = with_members(alloc, base, fields)?;
    read_change(alloc, levels, target, words)
}

/// A simple statement behind a call (C11 6.5.2.2).
#[tactic(auto, unfolding(c_grammar::specs::Readers::read_called))]
fn read_called(
    alloc: Global,
    levels: u32,
    callee: Ident,
    args: Vec<Expr>,
    words: &mut Words<'_>,
) -> Result<Simple, SyntaxFault>
    ensures value { Reads (readers.read_called levels (ident_tree callee) (args_tree args.items) words.old) simple_tree result words.new }
    ensures stays { length words.new ≤ length words.old }
{
    let class = words.first_class();
    if class == Class::Arrow || begins_assign(class) {
        read_target(alloc, levels, Expr::Call(callee, args), words)
    } else {
        Ok(Simple::Call(callee, args))
    }
}

/// A simple statement behind a name.
#[tactic(auto, unfolding(c_grammar::specs::Readers::read_named))]
pub fn read_named(
    alloc: Global,
    levels: u32,
    name: Ident,
    words: &mut Words<'_>,
) -> Result<Simple, SyntaxFault>
    ensures value { Reads (readers.read_named levels (ident_tree name) words.old) simple_tree result words.new }
    ensures stays { length words.new ≤ length words.old }
{
    if matches!(words.first_class(), Class::Open | Class::Cast) {
        let args = read_call_args(alloc, levels, words)?;
        read_called(alloc, levels, name, args, words)
    } else {
        read_target(alloc, levels, Expr::Variable(name), words)
    }
}

/// `free` and its operand (C11 7.22.3.3).
fn read_free(alloc: Global, levels: u32, words: &mut Words<'_>) -> Result<Simple, SyntaxFault>
    ensures value { Reads (readers.other_by class.Free levels words.old) simple_tree result words.new }
    ensures stays { length words.new ≤ length words.old }
{
    let place = words.place();
    words.step();
    words.take_open()?;
    let pointer = read_expr(alloc, levels, words)?;
    words.take(Class::Close)?;
    Ok(Simple::Free(place, pointer))
}

/// A simple statement that begins with no name.
pub fn read_other(alloc: Global, levels: u32, words: &mut Words<'_>) -> Result<Simple, SyntaxFault>
    ensures value { Reads (readers.other_by (class_at words.old) levels words.old) simple_tree result words.new }
    ensures stays { length words.new ≤ length words.old }
{
    if words.sees(Class::Free) {
        return read_free(alloc, levels, words);
    }
    let base = read_base(alloc, levels, words)?;
    read_target(alloc, levels, base, words)
}

/// A simple statement (C11 6.8.3).
#[tactic(auto, unfolding(c_grammar::specs::Readers::read_simple))]
pub fn read_simple(alloc: Global, levels: u32, words: &mut Words<'_>) -> Result<Simple, SyntaxFault>
    ensures value { Reads (readers.read_simple levels words.old) simple_tree result words.new }
    ensures stays { length words.new ≤ length words.old }
{
    if !words.sees(Class::Name) {
        return read_other(alloc, levels, words);
    }
    let name = read_name(alloc, words)?;
    read_named(alloc, levels, name, words)
}
