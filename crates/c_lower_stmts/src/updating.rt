//! `+=` and the like, `++` and `--` (C11 6.5.2.4, 6.5.16.2).
ghost use Rattle.std.specs.Prelude.{◌≡◌, true, false, map, OnOk, IfOk};
ghost use Rattle.c_tree.specs.Syntax.{ident_tree, expr_tree};
ghost use Rattle.c_types_names.specs.Seen.{type_seen};
ghost use Rattle.c_lower_rules.specs.Expressions.{arithmetic, field_behind, lowering};
ghost use Rattle.c_lower_rules.specs.Statements as statements;
ghost use Rattle.c_lower_rules.specs.Statements.{field_at_hand, is_call, member_target, update};
ghost use Rattle.c_lower_rules.specs.Numbers.{HasIntNumbers};
ghost use Rattle.c_lower_emit.specs.declared.uses.Use.TheVariants.{Value};
ghost use Rattle.c_lower_emit.specs.Emitting.{Out};
ghost use Rattle.c_lower_exprs.specs.Lowered.{IsLowered};
ghost use Rattle.c_lower_stmts.specs.Amounts.{amount, amount_is_call, AmountHasIntNumbers};
ghost use Rattle.c_lower_stmts.specs.Simples.{EmitsPiece};
ghost use Rattle.c_lower_stmts.specs.Targets.{IsPointer};

use crate::storing::store;
use crate::targets::{Pointer, lower_pointer};
use c_lower_emit::output::Output;
use c_lower_emit::uses::Use;
use c_lower_exprs::members::{Found, load};
use c_lower_exprs::operators::arithmetic;
use c_lower_exprs::site::Site;
use c_lower_exprs::values::lower;
use c_tree::{Expr, Ident, NonEmpty};
use c_types_names::kinds::CType;
use shape_data::program::{ArithOp, Operand};
use std::alloc::AllocError;

/// What a statement adds, subtracts or multiplies by.
#[derive(Clone, Copy)]
pub enum Amount<'a> {
    /// The number 1.
    One,
    /// The value of the expression.
    Of(&'a Expr),
}

/// Whether the expression is a call, parentheses aside.
fn is_call(expr: &Expr) -> bool
    ensures { result ≡ is_call (expr_tree expr.now) }
{
    match expr {
        Expr::Chain(_, _) => false,
        Expr::Prefix(_, _, _) => false,
        Expr::Members(_, _) => false,
        Expr::Variable(_) => false,
        Expr::Number(_, _) => false,
        Expr::Null(_) => false,
        Expr::Paren(_, inner) => is_call(inner),
        Expr::Call(_, _) => true,
        Expr::Malloc(_, _) => false,
    }
}

/// Whether the amount is a call.
fn amount_is_call(by: Amount) -> bool
    ensures { result ≡ amount_is_call by.entry }
{
    match by {
        Amount::One => false,
        Amount::Of(value) => is_call(value),
    }
}

/// The value of the amount.
fn lower_amount<'a>(
    site: &Site<'_, 'a>,
    by: Amount<'a>,
    out: &mut Output<'a>,
) -> Result<Found<'a>, AllocError>
    ensures { IfOk result (λ found. AmountHasIntNumbers by.entry
        → IsLowered Value (amount site.now by.entry) site.now.first_temp out.old out.new found) }
{
    match by {
        Amount::One => Ok(Found {
            kind: CType::Int,
            operand: Operand::Num(1),
        }),
        Amount::Of(value) => lower(site, value, Use::Value, out),
    }
}

/// Computes with a variable, and puts the value into it.
pub fn update_variable<'a>(
    site: &Site<'_, 'a>,
    to: u32,
    op: ArithOp,
    by: Amount<'a>,
    out: &mut Output<'a>,
) -> Result<(), AllocError>
    ensures { OnOk result (AmountHasIntNumbers by.entry
        → EmitsPiece (update site.now (statements.Target.Variable to) op (amount_is_call by.entry) (amount site.now by.entry))
        site.now.first_temp out.old out.new) }
{
    let left = Found {
        kind: CType::Int,
        operand: Operand::Slot(to),
    };
    let by = lower_amount(site, by, out)?;
    arithmetic(site, op, left, by, Use::Into(to), out)?;
    Ok(())
}

/// Computes with a field of what was emitted as a pointer.
fn computed<'a>(
    site: &Site<'_, 'a>,
    pointer: Pointer<'a>,
    op: ArithOp,
    by: Amount<'a>,
    out: &mut Output<'a>,
) -> Result<Found<'a>, AllocError>
    ensures { IfOk result (λ found. AmountHasIntNumbers by.entry
        → IsLowered Value (arithmetic site.now op
        (field_at_hand site.now (field_behind site.now (type_seen pointer.entry.base.kind) (ident_tree pointer.entry.field.now))
        pointer.entry.base.operand)
        (amount site.now by.entry))
        site.now.first_temp out.old out.new found) }
{
    let field = load(site, pointer.base, pointer.field, Use::Value, out)?;
    let by = lower_amount(site, by, out)?;
    arithmetic(site, op, field, by, Use::Value, out)
}

/// Computes with a field of what was emitted as a pointer, and puts the value into it.
fn update_field<'a>(
    site: &Site<'_, 'a>,
    pointer: Pointer<'a>,
    op: ArithOp,
    by: Amount<'a>,
    out: &mut Output<'a>,
) -> Result<(), AllocError>
    ensures { OnOk result (AmountHasIntNumbers by.entry → amount_is_call by.entry ≡ false → (to : statements.Target) → (before : Out)
        → IsPointer site.now to site.now.first_temp before out.old pointer.entry
        → EmitsPiece (update site.now to op (amount_is_call by.entry) (amount site.now by.entry)) site.now.first_temp before out.new) }
{
    let value = computed(site, pointer, op, by, out)?;
    store(site, pointer.base, pointer.field, value.operand, out)
}

/// The same with a call, which comes before the field is loaded.
fn update_field_by_call<'a>(
    site: &Site<'_, 'a>,
    pointer: Pointer<'a>,
    op: ArithOp,
    by: Amount<'a>,
    out: &mut Output<'a>,
) -> Result<(), AllocError>
    ensures { OnOk result (AmountHasIntNumbers by.entry → amount_is_call by.entry ≡ true → (to : statements.Target) → (before : Out)
        → IsPointer site.now to site.now.first_temp before out.old pointer.entry
        → EmitsPiece (update site.now to op (amount_is_call by.entry) (amount site.now by.entry)) site.now.first_temp before out.new) }
{
    let called = lower_amount(site, by, out)?;
    let field = load(site, pointer.base, pointer.field, Use::Value, out)?;
    let value = arithmetic(site, op, field, called, Use::Value, out)?;
    store(site, pointer.base, pointer.field, value.operand, out)
}

/// Computes with a member, and puts the value into it. The pointer before `->` is evaluated once.
pub fn update_member<'a>(
    site: &Site<'_, 'a>,
    base: &'a Box<Expr>,
    fields: &'a NonEmpty<Ident>,
    op: ArithOp,
    by: Amount<'a>,
    out: &mut Output<'a>,
) -> Result<(), AllocError>
    ensures { OnOk result (HasIntNumbers (expr_tree base.now.value) → AmountHasIntNumbers by.entry
        → EmitsPiece (update site.now
        (member_target site.now (lowering site.now (expr_tree base.now.value)) (ident_tree fields.now.first)
        (map ident_tree fields.now.others.items))
        op (amount_is_call by.entry) (amount site.now by.entry))
        site.now.first_temp out.old out.new) }
{
    let pointer = lower_pointer(site, base, fields, out)?;
    if amount_is_call(by) {
        update_field_by_call(site, pointer, op, by, out)
    } else {
        update_field(site, pointer, op, by, out)
    }
}
