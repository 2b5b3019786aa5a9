//! Expressions where they stand in statements, and the simple statements: assignments, steps, calls and `free`.
ghost use Rattle.std.specs.Prelude.{◌≡◌, OnOk, IfOk};
ghost use Rattle.c_grammar.specs.Trees.{Expr as ExprTree, Simple as SimpleTree};
ghost use Rattle.c_types_rules.specs.Expressions.{kind_of};
ghost use Rattle.c_types_rules.specs.Statements as rule;
ghost use Rattle.c_tree.specs.Syntax.{ident_tree, expr_tree, args_tree, assign_tree, simple_tree};
ghost use Rattle.c_types_names.specs.Seen.{kind_seen};
ghost use Rattle.c_types_stmts.specs.Adding.{Adds};

use crate::finding::Finding;
use c_tree::places::place_of_expr;
use c_tree::{AssignOp, Expr, Ident, Simple};
use c_types_exprs::all_kinds::{list_call_kinds, list_kinds};
use c_types_exprs::exprs::is_null;
use c_types_exprs::refusals::{call_refusals, expr_refusals, whole_refusals};
use c_types_exprs::value_types::{fits_as, given_as, gives_int, gives_pointer};
use c_types_names::codes::{CLASH, LEFT_OUT};
use c_types_names::env::Env;
use c_types_names::kinds::{Kind, may_be_int};
use std::alloc::AllocError;

/// An expression where no call may stand; gives its type.
pub fn plain<'a>(
    env: &Env<'a>,
    expr: &'a Expr,
    found: &mut Finding<'a>,
) -> Result<Kind<'a>, AllocError>
    ensures found { OnOk result (Adds (rule.plain env.now (expr_tree expr.now)) found.old found.new) }
    ensures kind { IfOk result (λ kind. kind_seen kind ≡ kind_of env.now (expr_tree expr.now)) }
{
    let kind = expr_refusals(env, expr, &mut found.first);
    list_kinds(env, expr, &mut found.kinds)?;
    Ok(kind)
}

/// An expression that may be a call or `malloc` as a whole; gives its type.
pub fn whole<'a>(
    env: &Env<'a>,
    expr: &'a Expr,
    found: &mut Finding<'a>,
) -> Result<Kind<'a>, AllocError>
    ensures found { OnOk result (Adds (rule.whole env.now (expr_tree expr.now)) found.old found.new) }
    ensures kind { IfOk result (λ kind. kind_seen kind ≡ kind_of env.now (expr_tree expr.now)) }
{
    let kind = whole_refusals(env, expr, &mut found.first);
    list_kinds(env, expr, &mut found.kinds)?;
    Ok(kind)
}

/// A call that is a statement.
fn called<'a>(
    env: &Env<'a>,
    callee: &'a Ident,
    args: &'a Vec<Expr>,
    found: &mut Finding<'a>,
) -> Result<(), AllocError>
    ensures { OnOk result (Adds (rule.called env.now (ident_tree callee.now) (args_tree args.now.items)) found.old found.new) }
{
    call_refusals(env, callee, args, &mut found.first);
    list_call_kinds(env, callee, args, &mut found.kinds)
}

/// Whether the expression is a variable or a member, parentheses aside.
fn is_target(expr: &Expr) -> bool
    ensures { result ≡ rule.is_target (expr_tree expr.now) }
{
    match expr {
        Expr::Chain(_, _) => false,
        Expr::Prefix(_, _, _) => false,
        Expr::Members(_, _) => true,
        Expr::Variable(_) => true,
        Expr::Number(_, _) => false,
        Expr::Null(_) => false,
        Expr::Paren(_, inner) => is_target(inner),
        Expr::Call(_, _) => false,
        Expr::Malloc(_, _) => false,
    }
}

/// What is assigned to; gives its type.
fn target<'a>(
    env: &Env<'a>,
    expr: &'a Expr,
    found: &mut Finding<'a>,
) -> Result<Kind<'a>, AllocError>
    ensures found { OnOk result (Adds (rule.target env.now (expr_tree expr.now)) found.old found.new) }
    ensures kind { IfOk result (λ kind. kind_seen kind ≡ kind_of env.now (expr_tree expr.now)) }
{
    let kind = plain(env, expr, found)?;
    found.unless(is_target(expr), place_of_expr(expr), LEFT_OUT);
    Ok(kind)
}

/// Whether the operator takes what has the type `left` on its left, and on its right the expression, whose type is `kind`.
fn may_assign<'a>(
    env: &Env<'a>,
    op: AssignOp,
    left: Kind<'a>,
    right: &'a Expr,
    kind: Kind<'a>,
) -> bool
    requires is_its_kind { kind_seen kind ≡ kind_of env.now (expr_tree right.now) }
    ensures { (l : ExprTree) → kind_seen left.entry ≡ kind_of env.now l
        → result ≡ rule.may_assign env.now (assign_tree op) l (expr_tree right.now) }
{
    match op {
        AssignOp::Set => fits_as(env, left, right, kind),
        _ => may_be_int(left) && gives_int(given_as(env, right, kind)),
    }
}

/// Whether `free` takes the expression, which has the type.
fn may_be_freed<'a>(env: &Env<'a>, expr: &'a Expr, kind: Kind<'a>) -> bool
    requires is_its_kind { kind_seen kind ≡ kind_of env.now (expr_tree expr.now) }
    ensures { result ≡ rule.may_be_freed env.now (expr_tree expr.now) }
{
    is_null(expr) || gives_pointer(given_as(env, expr, kind))
}

/// An assignment.
fn assigned<'a>(
    env: &Env<'a>,
    left: &'a Expr,
    op: AssignOp,
    right: &'a Expr,
    found: &mut Finding<'a>,
) -> Result<(), AllocError>
    ensures { OnOk result (Adds (rule.simple env.now (SimpleTree.Assign (expr_tree left.now) (assign_tree op) (expr_tree right.now)))
        found.old found.new) }
{
    let wanted = target(env, left, found)?;
    let kind = whole(env, right, found)?;
    let takes = may_assign(env, op, wanted, right, kind);
    found.unless(takes, place_of_expr(left), CLASH);
    Ok(())
}

/// A simple statement.
pub fn simple<'a>(env: &Env<'a>, one: &'a Simple, found: &mut Finding<'a>) -> Result<(), AllocError>
    ensures { OnOk result (Adds (rule.simple env.now (simple_tree one.now)) found.old found.new) }
{
    match one {
        Simple::Assign(left, op, right) => assigned(env, left, *op, right, found),
        Simple::Step(left, _) => {
            let kind = target(env, left, found)?;
            found.unless(may_be_int(kind), place_of_expr(left), CLASH);
            Ok(())
        }
        Simple::Call(callee, args) => called(env, callee, args, found),
        Simple::Free(place, pointer) => {
            let kind = plain(env, pointer, found)?;
            found.unless(may_be_freed(env, pointer, kind), *place, CLASH);
            Ok(())
        }
    }
}
