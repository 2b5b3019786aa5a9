//! Simple statements (C11 6.8.3).
ghost use Rattle.std.specs.Prelude.{◌≡◌, map, OnOk};
ghost use Rattle.c_tree.specs.Syntax.{ident_tree, expr_tree, args_tree, assign_tree, step_tree, simple_tree};
ghost use Rattle.c_types_rules.specs.Expressions.{kind_of};
ghost use Rattle.c_types_rules.specs.Programs.{known};
ghost use Rattle.c_lower_rules.specs.Expressions.{arguments, no_arguments, lowering, lowerings};
ghost use Rattle.c_lower_rules.specs.Statements as statements;
ghost use Rattle.c_lower_rules.specs.Statements.{
  target,
  member_target,
  assign,
  update,
  assign_by,
  step_by,
  call,
  free,
  simple,
  place_of_simple,
};
ghost use Rattle.c_lower_rules.specs.Numbers.{HasIntNumbers, AllHaveIntNumbers, SimpleHasIntNumbers};
ghost use Rattle.c_lower_stmts.specs.Amounts.{amount, amount_is_call, AmountHasIntNumbers};
ghost use Rattle.c_lower_stmts.specs.Simples.{EmitsPiece};
ghost use Rattle.c_lower_stmts.specs.Targets.{IsFieldKind};

use crate::storing::{call, free, store, zero};
use crate::targets::{Target, lower_pointer, target_of};
use crate::updating::{Amount, update_member, update_variable};
use crate::wanted_values::{WantedType, wanted};
use c_lower_emit::output::Output;
use c_lower_emit::uses::Use;
use c_lower_exprs::site::Site;
use c_lower_exprs::values::{lower, values};
use c_tree::places::place_of_expr;
use c_tree::{AssignOp, Expr, Ident, NonEmpty, Place, Simple, StepOp};
use shape_data::program::{ArithOp, Operand};
use std::alloc::AllocError;

/// `=` to a member, which is the expression on the left: the value, then the pointer, then the store.
fn set_member<'a>(
    site: &Site<'_, 'a>,
    left: &'a Expr,
    base: &'a Box<Expr>,
    fields: &'a NonEmpty<Ident>,
    value: &'a Expr,
    out: &mut Output<'a>,
) -> Result<(), AllocError>
    ensures { OnOk result (HasIntNumbers (expr_tree base.now.value) → HasIntNumbers (expr_tree value.now)
        → IsFieldKind (member_target site.now (lowering site.now (expr_tree base.now.value)) (ident_tree fields.now.first)
        (map ident_tree fields.now.others.items))
        (known (kind_of site.now.env (expr_tree left.now)))
        → EmitsPiece (assign site.now
        (member_target site.now (lowering site.now (expr_tree base.now.value)) (ident_tree fields.now.first)
        (map ident_tree fields.now.others.items))
        (expr_tree value.now))
        site.now.first_temp out.old out.new) }
{
    let value = wanted(site, WantedType::TypeOf(left), value, Use::Value, out)?;
    let pointer = lower_pointer(site, base, fields, out)?;
    store(site, pointer.base, pointer.field, value.operand, out)
}

/// `=` to a variable.
fn set_variable<'a>(
    site: &Site<'_, 'a>,
    to: u32,
    value: &'a Expr,
    out: &mut Output<'a>,
) -> Result<(), AllocError>
    ensures { OnOk result (HasIntNumbers (expr_tree value.now)
        → EmitsPiece (assign site.now (statements.Target.Variable to) (expr_tree value.now)) site.now.first_temp out.old out.new) }
{
    lower(site, value, Use::Into(to), out)?;
    Ok(())
}

/// `=`
fn assign<'a>(
    site: &Site<'_, 'a>,
    left: &'a Expr,
    value: &'a Expr,
    out: &mut Output<'a>,
) -> Result<(), AllocError>
    ensures { OnOk result (HasIntNumbers (expr_tree left.now) → HasIntNumbers (expr_tree value.now)
        → EmitsPiece (assign site.now (target site.now (expr_tree left.now)) (expr_tree value.now))
        site.now.first_temp out.old out.new) }
{
    match target_of(site, left) {
        Target::Variable(to) => set_variable(site, to, value, out),
        Target::Member(base, fields) => set_member(site, left, base, fields, value, out),
    }
}

/// `+=` and the like, `++` and `--`.
fn update<'a>(
    site: &Site<'_, 'a>,
    left: &'a Expr,
    op: ArithOp,
    by: Amount<'a>,
    out: &mut Output<'a>,
) -> Result<(), AllocError>
    ensures { OnOk result (HasIntNumbers (expr_tree left.now) → AmountHasIntNumbers by.entry
        → EmitsPiece (update site.now (target site.now (expr_tree left.now)) op (amount_is_call by.entry) (amount site.now by.entry))
        site.now.first_temp out.old out.new) }
{
    match target_of(site, left) {
        Target::Variable(to) => update_variable(site, to, op, by, out),
        Target::Member(base, fields) => update_member(site, base, fields, op, by, out),
    }
}

/// An assignment.
fn assign_by<'a>(
    site: &Site<'_, 'a>,
    left: &'a Expr,
    op: AssignOp,
    value: &'a Expr,
    out: &mut Output<'a>,
) -> Result<(), AllocError>
    ensures { OnOk result (HasIntNumbers (expr_tree left.now) → HasIntNumbers (expr_tree value.now)
        → EmitsPiece (assign_by site.now (target site.now (expr_tree left.now)) (assign_tree op) (expr_tree value.now))
        site.now.first_temp out.old out.new) }
{
    match op {
        AssignOp::Set => assign(site, left, value, out),
        AssignOp::AddTo => update(site, left, ArithOp::Add, Amount::Of(value), out),
        AssignOp::SubtractFrom => update(site, left, ArithOp::Sub, Amount::Of(value), out),
        AssignOp::MultiplyBy => update(site, left, ArithOp::Mul, Amount::Of(value), out),
    }
}

/// What the operator does.
fn step_by(op: StepOp) -> ArithOp
    ensures { result ≡ step_by (step_tree op) }
{
    match op {
        StepOp::Increment => ArithOp::Add,
        StepOp::Decrement => ArithOp::Sub,
    }
}

/// A call whose result is dropped.
fn perform<'a>(
    site: &Site<'_, 'a>,
    callee: &Ident,
    args: &'a Vec<Expr>,
    out: &mut Output<'a>,
) -> Result<(), AllocError>
    ensures { OnOk result (AllHaveIntNumbers (args_tree args.now.items)
        → EmitsPiece (λ temps. call site.now (ident_tree callee.now)
        (arguments (no_arguments temps) (lowerings site.now (args_tree args.now.items))))
        site.now.first_temp out.old out.new) }
{
    let operands = values(site, args, out)?;
    call(site, callee, operands, out)
}

/// `free` (C11 7.22.3.3).
fn release<'a>(
    site: &Site<'_, 'a>,
    pointer: &'a Expr,
    out: &mut Output<'a>,
) -> Result<(), AllocError>
    ensures { OnOk result (HasIntNumbers (expr_tree pointer.now)
        → EmitsPiece (free site.now (lowering site.now (expr_tree pointer.now))) site.now.first_temp out.old out.new) }
{
    let found = lower(site, pointer, Use::Value, out)?;
    match found.operand {
        Operand::Slot(slot) => free(site, slot, found.kind, out),
        Operand::Num(_) => zero(site, out),
    }
}

/// A simple statement, as code whose nodes have the site's line.
pub fn simple<'a>(
    site: &Site<'_, 'a>,
    one: &'a Simple,
    out: &mut Output<'a>,
) -> Result<(), AllocError>
    ensures { OnOk result (SimpleHasIntNumbers (simple_tree one.now)
        → EmitsPiece (simple site.now (simple_tree one.now)) site.now.first_temp out.old out.new) }
{
    match one {
        Simple::Assign(left, op, value) => assign_by(site, left, *op, value, out),
        Simple::Step(left, op) => update(site, left, step_by(*op), Amount::One, out),
        Simple::Call(callee, args) => perform(site, callee, args, out),
        Simple::Free(_, pointer) => release(site, pointer, out),
    }
}

/// Where the statement begins.
pub fn place_of_simple(one: &Simple) -> Place
    ensures { result ≡ place_of_simple (simple_tree one.now) }
{
    match one {
        Simple::Assign(left, _, _) => place_of_expr(left),
        Simple::Step(left, _) => place_of_expr(left),
        Simple::Call(callee, _) => callee.place,
        Simple::Free(place, _) => *place,
    }
}
