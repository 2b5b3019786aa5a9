//! How many nodes expressions have (C11 6.5). The calls nest as deep as the expression does.
ghost use Rattle.std.specs.Prelude.{◌≡◌, option_map};
ghost use Rattle.c_tree.specs.Syntax.{binary_tree, prefix_tree, expr_tree, links_tree, args_tree};
ghost use Rattle.c_lower_sizes.specs.Sizes.{
  Uses,
  arithmetic_uses,
  comparison_uses,
  logical_uses,
  binary_uses,
  prefix_uses,
  expr_uses,
  chain_uses,
  args_size,
  target_size,
};
ghost use Rattle.c_lower_sizes.specs.Counts.{capped, seen, AreCounts};

use crate::counts::{UseCounts, at_hand, count_of, made, plus, truth};
use c_tree::{BinaryOp, Expr, Link, PrefixOp};

/// `+`, `-` and `*`.
fn arithmetic(left: UseCounts, right: UseCounts) -> UseCounts
    ensures { AreCounts (arithmetic_uses (seen left) (seen right)) result }
{
    made(plus(left.value, right.value))
}

/// `==`, `<` and the like.
fn comparison(left: UseCounts, right: UseCounts) -> UseCounts
    ensures { AreCounts (comparison_uses (seen left) (seen right)) result }
{
    truth(plus(plus(left.value, right.value), 1))
}

/// `&&` and `||`.
fn logical(left: UseCounts, right: UseCounts) -> UseCounts
    ensures { AreCounts (logical_uses (seen left) (seen right)) result }
{
    truth(plus(left.test, right.test))
}

/// What an operator makes of two operands.
fn binary(op: BinaryOp, left: UseCounts, right: UseCounts) -> UseCounts
    ensures { AreCounts (binary_uses (binary_tree op) (seen left) (seen right)) result }
{
    match op {
        BinaryOp::Or => logical(left, right),
        BinaryOp::And => logical(left, right),
        BinaryOp::Add => arithmetic(left, right),
        BinaryOp::Subtract => arithmetic(left, right),
        BinaryOp::Multiply => arithmetic(left, right),
        _ => comparison(left, right),
    }
}

/// What a prefix operator makes of its operand.
fn prefix(op: PrefixOp, inner: UseCounts) -> UseCounts
    ensures { AreCounts (prefix_uses (prefix_tree op) (seen inner)) result }
{
    match op {
        PrefixOp::Negate => made(inner.value),
        PrefixOp::Not => truth(inner.test),
    }
}

/// An expression.
#[cycle(exprs)]
pub fn expr(one: &Expr) -> UseCounts
    ensures { AreCounts (expr_uses (expr_tree one.now)) result }
{
    match one {
        Expr::Chain(first, others) => chain(expr(first), others),
        Expr::Prefix(_, op, inner) => prefix(*op, expr(inner)),
        Expr::Members(base, fields) => made(plus(expr(base).value, count_of(fields.others.len()))),
        Expr::Variable(_) => at_hand(),
        Expr::Number(_, _) => at_hand(),
        Expr::Null(_) => at_hand(),
        Expr::Paren(_, inner) => expr(inner),
        Expr::Call(_, args) => made(arguments(args)),
        Expr::Malloc(_, _) => made(0),
    }
}

/// Operands with more operators and operands behind them.
#[cycle(exprs)]
fn chain(before: UseCounts, links: &Vec<Link>) -> UseCounts
    ensures { (uses : Uses) → AreCounts uses before → AreCounts (chain_uses uses (links_tree links.now.items)) result }
{
    let mut current = before;
    for link in links {
        current = binary(link.op, current, expr(&link.operand));
    }
    current
}

/// The values of the arguments of a call.
#[cycle(exprs)]
pub fn arguments(args: &Vec<Expr>) -> u32
    ensures { result ≡ capped (args_size (args_tree args.now.items)) }
{
    let mut total = 0;
    for arg in args {
        total = plus(total, expr(arg).value);
    }
    total
}

/// The nodes of the pointer before the last `->` of what is assigned to; none where that is a variable.
pub fn target(one: &Expr) -> Option<u32>
    ensures { result ≡ option_map capped (target_size (expr_tree one.now)) }
{
    match one {
        Expr::Chain(_, _) => None,
        Expr::Prefix(_, _, _) => None,
        Expr::Members(base, fields) => Some(plus(expr(base).value, count_of(fields.others.len()))),
        Expr::Variable(_) => None,
        Expr::Number(_, _) => None,
        Expr::Null(_) => None,
        Expr::Paren(_, inner) => target(inner),
        Expr::Call(_, _) => None,
        Expr::Malloc(_, _) => None,
    }
}
