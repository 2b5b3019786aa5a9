//! Expressions (C11 6.5). Their functions call one another once for each level of nesting (parentheses, the arguments of a
//! call, a prefix); chains of operators, members and arguments are loops.
ghost use Rattle.std.specs.Prelude.{◌≡◌, ◌≤◌, length, option_map};
ghost use Rattle.c_grammar.specs.Readers as readers;
ghost use Rattle.c_grammar.specs.Readers.{class_at};
ghost use Rattle.c_tree.specs.Syntax.{prefix_tree, expr_tree, args_tree, links_tree};
ghost use Rattle.c_parse_exprs.specs.Reads.{Reads};
ghost use Rattle.c_parse_exprs.specs.Levels.{level_below};

use crate::parts::{
    begins_expr, chained, link, op_at, read_cast, read_malloc, read_members, with_members,
};
use crate::types::read_name;
use crate::{Class, SyntaxFault, Words, is_open};
use c_tree::{Expr, Link, PrefixOp};
use std::alloc::Global;

/// How many levels of operators there are (C11 6.5.5 to 6.5.14).
const LEVELS_OF_OPERATORS: u32 = 6;

/// The levels that are left one level deeper, if there is one.
pub fn level_below(levels: u32) -> Option<u32>
    ensures { result ≡ level_below levels }
{
    if levels == 0 { None } else { Some(levels - 1) }
}

/// An expression within so many levels of nesting.
pub fn read_expr(alloc: Global, levels: u32, words: &mut Words<'_>) -> Result<Expr, SyntaxFault>
    ensures value { Reads (readers.read_expr levels words.old) expr_tree result words.new }
    ensures stays { length words.new ≤ length words.old }
{
    read_chain(alloc, LEVELS_OF_OPERATORS, levels, words)
}

/// A chain of so many levels of operators.
#[cycle(expr)]
fn read_chain(
    alloc: Global,
    chain: u32,
    levels: u32,
    words: &mut Words<'_>,
) -> Result<Expr, SyntaxFault>
    requires { chain ≤ 6 }
    ensures value { Reads (readers.read_chain chain (readers.read_unary levels) words.old) expr_tree result words.new }
    ensures stays { length words.new ≤ length words.old }
{
    if chain == 0 {
        return read_unary(alloc, levels, words);
    }
    let first = read_chain(alloc, chain - 1, levels, words)?;
    let others = read_links(alloc, chain - 1, levels, words)?;
    Ok(chained(alloc, first, others)?)
}

/// Operators of a level and their operands.
#[cycle(expr)]
fn read_links(
    alloc: Global,
    level: u32,
    levels: u32,
    words: &mut Words<'_>,
) -> Result<Vec<Link>, SyntaxFault>
    requires { level ≤ 5 }
    ensures value { Reads (readers.read_links (length words.old) level (readers.read_chain level (readers.read_unary levels)) words.old)
        (λ found. links_tree found.items) result words.new }
    ensures stays { length words.new ≤ length words.old }
{
    let mut links = Vec::new(alloc);
    while let Some(op) = op_at(level, words.first_class()) {
        words.step();
        let operand = read_chain(alloc, level, levels, words)?;
        links.push(link(op, operand))?;
    }
    Ok(links)
}

/// An operand, with its prefixes (C11 6.5.3).
#[cycle(expr)]
fn read_unary(alloc: Global, levels: u32, words: &mut Words<'_>) -> Result<Expr, SyntaxFault>
    ensures value { Reads (readers.read_unary levels words.old) expr_tree result words.new }
    ensures stays { length words.new ≤ length words.old }
{
    let below = level_below(levels);
    match words.first_class() {
        Class::Minus => read_prefix(alloc, PrefixOp::Negate, below, words),
        Class::Not => read_prefix(alloc, PrefixOp::Not, below, words),
        _ => read_postfix(alloc, below, words),
    }
}

/// A prefix operator and its operand (C11 6.5.3.3).
#[cycle(expr)]
fn read_prefix(
    alloc: Global,
    op: PrefixOp,
    below: Option<u32>,
    words: &mut Words<'_>,
) -> Result<Expr, SyntaxFault>
    ensures value { Reads (readers.read_prefix (prefix_tree op) (option_map readers.read_unary below) words.old)
        expr_tree result words.new }
    ensures stays { length words.new ≤ length words.old }
{
    let Some(levels) = below else {
        return Err(words.too_deep());
    };
    let place = words.place();
    words.step();
    let inner = read_unary(alloc, levels, words)?;
    Ok(Expr::Prefix(place, op, Box::new(alloc, inner)?))
}

/// A primary expression and the members that are taken of it (C11 6.5.2).
#[cycle(expr)]
fn read_postfix(
    alloc: Global,
    below: Option<u32>,
    words: &mut Words<'_>,
) -> Result<Expr, SyntaxFault>
    ensures value { Reads (readers.read_postfix (option_map readers.read_expr below) words.old) expr_tree result words.new }
    ensures stays { length words.new ≤ length words.old }
{
    let base = read_primary(alloc, below, words)?;
    let members = read_members(alloc, words)?;
    Ok(with_members(alloc, base, members)?)
}

/// A primary expression, or a call (C11 6.5.1, 6.5.2.2).
#[cycle(expr)]
fn read_primary(
    alloc: Global,
    below: Option<u32>,
    words: &mut Words<'_>,
) -> Result<Expr, SyntaxFault>
    ensures value { Reads (readers.primary_by (class_at words.old) (option_map readers.read_expr below) words.old)
        expr_tree result words.new }
    ensures stays { length words.new ≤ length words.old }
{
    match words.first_class() {
        Class::Name => {
            let name = read_name(alloc, words)?;
            if is_open(words.first_class()) {
                Ok(Expr::Call(name, read_call(alloc, below, words)?))
            } else {
                Ok(Expr::Variable(name))
            }
        }
        _ => read_closed(alloc, below, words),
    }
}

/// A primary expression that begins with no name (C11 6.5.1).
#[cycle(expr)]
pub fn read_closed(
    alloc: Global,
    below: Option<u32>,
    words: &mut Words<'_>,
) -> Result<Expr, SyntaxFault>
    ensures value { Reads (readers.closed_by (class_at words.old) (option_map readers.read_expr below) words.old)
        expr_tree result words.new }
    ensures stays { length words.new ≤ length words.old }
{
    let place = words.place();
    match words.first_class() {
        Class::Number => {
            let value = words.number();
            words.step();
            Ok(Expr::Number(place, value))
        }
        Class::Null => {
            words.step();
            Ok(Expr::Null(place))
        }
        Class::Open => read_paren(alloc, below, words),
        Class::Cast => read_cast(alloc, words),
        Class::Malloc => read_malloc(alloc, words),
        _ => Err(words.wrong()),
    }
}

/// An expression in parentheses (C11 6.5.1).
#[cycle(expr)]
fn read_paren(alloc: Global, below: Option<u32>, words: &mut Words<'_>) -> Result<Expr, SyntaxFault>
    ensures value { Reads (readers.read_paren (option_map readers.read_expr below) words.old) expr_tree result words.new }
    ensures stays { length words.new ≤ length words.old }
{
    let Some(levels) = below else {
        return Err(words.too_deep());
    };
    let place = words.place();
    words.step();
    let inner = read_chain(alloc, LEVELS_OF_OPERATORS, levels, words)?;
    words.take(Class::Close)?;
    Ok(Expr::Paren(place, Box::new(alloc, inner)?))
}

/// The arguments of a call, from its `(` to its `)` (C11 6.5.2.2).
#[cycle(expr)]
pub fn read_call(
    alloc: Global,
    below: Option<u32>,
    words: &mut Words<'_>,
) -> Result<Vec<Expr>, SyntaxFault>
    ensures value { Reads (readers.read_call (option_map readers.read_expr below) words.old) (λ found. args_tree found.items)
        result words.new }
    ensures stays { length words.new ≤ length words.old }
{
    let Some(levels) = below else {
        return Err(words.too_deep());
    };
    words.step();
    let args = read_args(alloc, levels, words)?;
    words.take(Class::Close)?;
    Ok(args)
}

/// The arguments of a call, between its parentheses.
#[cycle(expr)]
fn read_args(alloc: Global, levels: u32, words: &mut Words<'_>) -> Result<Vec<Expr>, SyntaxFault>
    ensures value { Reads (readers.read_args (readers.read_expr levels) words.old) (λ found. args_tree found.items) result words.new }
    ensures stays { length words.new ≤ length words.old }
{
    let mut args = Vec::new(alloc);
    if !begins_expr(words.first_class()) {
        return Ok(args);
    }
    args.push(read_chain(alloc, LEVELS_OF_OPERATORS, levels, words)?)?;
    while words.eat(Class::Comma) {
        args.push(read_chain(alloc, LEVELS_OF_OPERATORS, levels, words)?)?;
    }
    Ok(args)
}
