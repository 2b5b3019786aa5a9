//! Expressions (C11 6.5). The calls nest as deep as the expressions do, and as chains of operators are long.
ghost use Rattle.std.specs.Prelude.{◌≡◌, ◌≤◌, length, take, IfOk};
ghost use Rattle.shape_data.specs.declared.program.Operand.TheVariants.{Num};
ghost use Rattle.shape_data.specs.declared.program.Ty.TheVariants.{Int};
ghost use Rattle.c_tree.specs.Syntax.{expr_tree, links_tree, args_tree, binary_tree, prefix_tree};
ghost use Rattle.c_lower_rules.specs.Contexts.{Context as ContextValue};
ghost use Rattle.c_lower_rules.specs.Values.{Lowering, at_hand};
ghost use Rattle.c_lower_rules.specs.Expressions.{lowering, prefix, chain, binary, lowerings, arguments, no_arguments};
ghost use Rattle.c_lower_rules.specs.Numbers.{HasIntNumbers, HaveIntNumbers, AllHaveIntNumbers};
ghost use Rattle.c_lower_exprs.specs.Lowered.{IsLowered, EmitsArguments};
ghost use Rattle.c_lower_exprs.specs.Operators.{binary_of};

use crate::members::{Found, members};
use crate::operators::{arithmetic, both, called, compared, either, negated, negation, new};
use crate::site::Site;
use c_lower_emit::output::Output;
use c_lower_emit::uses::Use;
use c_tree::{BinaryOp, Expr, Link, PrefixOp};
use c_types_names::kinds::{CType, known};
use c_types_names::objects::pointer_of;
use shape_data::program::{ArithOp, Operand, TestOp};
use std::alloc::AllocError;

/// What an operator does with its operands.
#[derive(Clone, Copy)]
enum Operation {
    /// Computes with both values.
    Arith(ArithOp),
    /// Compares both values.
    Compare(TestOp),
    /// Tests the second where the first holds.
    Both,
    /// Tests the second where the first doesn't hold.
    Either,
}

/// What the operator does.
fn what_it_does(op: BinaryOp) -> Operation
    ensures { (c : ContextValue) → (l r : Lowering) → binary c (binary_tree op) l r ≡ binary_of c result l r }
{
    match op {
        BinaryOp::Or => Operation::Either,
        BinaryOp::And => Operation::Both,
        BinaryOp::Equal => Operation::Compare(TestOp::Eq),
        BinaryOp::NotEqual => Operation::Compare(TestOp::Ne),
        BinaryOp::Less => Operation::Compare(TestOp::Lt),
        BinaryOp::LessEqual => Operation::Compare(TestOp::Le),
        BinaryOp::Greater => Operation::Compare(TestOp::Gt),
        BinaryOp::GreaterEqual => Operation::Compare(TestOp::Ge),
        BinaryOp::Add => Operation::Arith(ArithOp::Add),
        BinaryOp::Subtract => Operation::Arith(ArithOp::Sub),
        BinaryOp::Multiply => Operation::Arith(ArithOp::Mul),
    }
}

/// An expression in a use, as code whose nodes have the site's line.
#[cycle(values)]
pub fn lower<'a>(
    site: &Site<'_, 'a>,
    expr: &'a Expr,
    used: Use,
    out: &mut Output<'a>,
) -> Result<Found<'a>, AllocError>
    ensures { IfOk result (λ found. HasIntNumbers (expr_tree expr.now)
        → IsLowered used (lowering site.now (expr_tree expr.now)) site.now.first_temp out.old out.new found) }
{
    match expr {
        Expr::Chain(first, others) => chain(site, first, others, others.len(), used, out),
        Expr::Prefix(_, op, inner) => prefix(site, *op, inner, used, out),
        Expr::Members(base, fields) => {
            let base = lower(site, base, Use::Value, out)?;
            members(site, base, fields, used, out)
        }
        Expr::Variable(name) => {
            let kind = site.kind_of(&name.text);
            let slot = Operand::Slot(site.slot_of(&name.text));
            let operand = out.at_hand(site.spot(), kind, slot, used)?;
            Ok(Found { kind, operand })
        }
        Expr::Number(_, value) => {
            let value = i32::try_from(*value).unwrap_or(i32::MAX);
            number(site, value, used, out)
        }
        Expr::Null(_) => number(site, 0, used, out),
        Expr::Paren(_, inner) => lower(site, inner, used, out),
        Expr::Call(callee, args) => {
            let operands = values(site, args, out)?;
            called(site, callee, operands, used, out)
        }
        Expr::Malloc(_, types) => {
            let pointer = known(pointer_of(site.tables(), &types.allocated));
            new(site, pointer, &types.allocated, used, out)
        }
    }
}

/// A number.
fn number<'a>(
    site: &Site<'_, 'a>,
    value: i32,
    used: Use,
    out: &mut Output<'a>,
) -> Result<Found<'a>, AllocError>
    ensures { IfOk result (λ found. IsLowered used (at_hand site.now Int (Num value)) site.now.first_temp out.old out.new found) }
{
    let operand = out.at_hand(site.spot(), CType::Int, Operand::Num(value), used)?;
    Ok(Found {
        kind: CType::Int,
        operand,
    })
}

/// A prefix operator and its operand.
#[cycle(values)]
fn prefix<'a>(
    site: &Site<'_, 'a>,
    op: PrefixOp,
    inner: &'a Box<Expr>,
    used: Use,
    out: &mut Output<'a>,
) -> Result<Found<'a>, AllocError>
    ensures { IfOk result (λ found. HasIntNumbers (expr_tree inner.now.value)
        → IsLowered used (prefix site.now (prefix_tree op) (lowering site.now (expr_tree inner.now.value)))
        site.now.first_temp out.old out.new found) }
{
    match op {
        PrefixOp::Negate => {
            let found = lower(site, inner, Use::Value, out)?;
            negated(site, found, used, out)
        }
        PrefixOp::Not => {
            let to = out.begin_truth(site.spot(), used)?;
            let from = out.len();
            lower(site, inner, Use::Test, out)?;
            negation(site, to, from, used, out)
        }
    }
}

/// The first operands of a chain, so many behind the first one.
#[cycle(values)]
fn chain<'a>(
    site: &Site<'_, 'a>,
    first: &'a Box<Expr>,
    links: &'a Vec<Link>,
    count: usize,
    used: Use,
    out: &mut Output<'a>,
) -> Result<Found<'a>, AllocError>
    requires { count ≤ length links.now.items }
    ensures { IfOk result (λ found. HasIntNumbers (expr_tree first.now.value) → HaveIntNumbers (links_tree links.now.items)
        → IsLowered used (chain site.now (lowering site.now (expr_tree first.now.value)) (links_tree (take count links.now.items)))
        site.now.first_temp out.old out.new found) }
{
    if count == 0 {
        return lower(site, first, used, out);
    }
    let last = count - 1;
    match what_it_does(links[last].op) {
        Operation::Arith(op) => {
            let left = chain(site, first, links, last, Use::Value, out)?;
            let right = lower(site, &links[last].operand, Use::Value, out)?;
            arithmetic(site, op, left, right, used, out)
        }
        Operation::Compare(op) => {
            let to = out.begin_truth(site.spot(), used)?;
            let from = out.len();
            let left = chain(site, first, links, last, Use::Value, out)?;
            let right = lower(site, &links[last].operand, Use::Value, out)?;
            compared(site, op, to, from, left, right, used, out)
        }
        Operation::Both => {
            let to = out.begin_truth(site.spot(), used)?;
            let from = out.len();
            chain(site, first, links, last, Use::Test, out)?;
            out.lead_holds(from);
            lower(site, &links[last].operand, Use::Test, out)?;
            both(site, to, from, used, out)
        }
        Operation::Either => {
            let to = out.begin_truth(site.spot(), used)?;
            let from = out.len();
            chain(site, first, links, last, Use::Test, out)?;
            out.lead_fails(from);
            lower(site, &links[last].operand, Use::Test, out)?;
            either(site, to, from, used, out)
        }
    }
}

/// The values of arguments, from the left.
#[cycle(values)]
pub fn values<'a>(
    site: &Site<'_, 'a>,
    args: &'a Vec<Expr>,
    out: &mut Output<'a>,
) -> Result<Vec<Operand>, AllocError>
    ensures { IfOk result (λ operands. AllHaveIntNumbers (args_tree args.now.items)
        → EmitsArguments (arguments (no_arguments out.old.temps) (lowerings site.now (args_tree args.now.items)))
        site.now.first_temp out.old out.new operands.items) }
{
    let mut operands = Vec::new(site.alloc());
    for arg in args {
        let found = lower(site, arg, Use::Value, out)?;
        operands.push(found.operand)?;
    }
    Ok(operands)
}
