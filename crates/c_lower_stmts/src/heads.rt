//! Statements that hold no others, and the heads of those that do: the tests of branches and loops, and the parts of a `for`.
ghost use Rattle.std.specs.Prelude.{ℕ, None, Some, IfSome, OnOk, IfOk, option_map};
ghost use Rattle.c_tree.specs.Syntax.{expr_tree, simple_tree, for_step_tree, local_tree, init_tree};
ghost use Rattle.c_lower_rules.specs.Statements.{
  condition,
  for_condition,
  for_init,
  for_step,
  from_place,
  simple_from,
  return_from,
  declaration,
};
ghost use Rattle.c_lower_rules.specs.Numbers.{HasIntNumbers, SimpleHasIntNumbers, LocalHasIntNumbers, InitHasIntNumbers};
ghost use Rattle.c_lower_emit.specs.Emitting.{EmitsTested};
ghost use Rattle.c_lower_exprs.specs.Contexts.{on_line, IsWithin};
ghost use Rattle.c_lower_stmts.specs.Laying.{EmitsLowered, EmitsWithin};
ghost use Rattle.c_lower_stmts.specs.Standing.{state};

use crate::declaring::declaration;
use crate::laid::Laid;
use crate::simples::place_of_simple;
use crate::stmt_parts::{condition, performed, returned};
use c_lower_emit::drafts::Label;
use c_lower_emit::output::Output;
use c_lower_emit::uses::Use;
use c_lower_exprs::context::Context;
use c_lower_exprs::site::Site;
use c_tree::places::place_of_expr;
use c_tree::{Expr, ForInit, Local, Place, Simple};
use c_types_names::kinds::CType;
use shape_data::program::Operand;
use std::alloc::AllocError;

/// A condition, whose nodes have the line that it begins on.
pub fn tested<'a>(
    context: &Context<'a>,
    expr: &'a Expr,
    out: &mut Output<'a>,
) -> Result<(), AllocError>
    ensures { OnOk result (HasIntNumbers (expr_tree expr.now) → (line locals : ℕ)
        → EmitsTested (condition (state (on_line context.now line) locals out.old) (expr_tree expr.now))
        context.now.first_temp out.old out.new) }
{
    condition(&Site::at(context, place_of_expr(expr)), expr, out)
}

/// The test that always holds, whose nodes have the line of the place.
fn forever<'a>(context: &Context<'a>, place: Place, out: &mut Output<'a>) -> Result<(), AllocError>
    ensures { OnOk result ((line locals : ℕ)
        → EmitsTested (for_condition (state (on_line context.now line) locals out.old) place None) context.now.first_temp out.old out.new) }
{
    let site = Site::at(context, place);
    out.release();
    out.at_hand(site.spot(), CType::Int, Operand::Num(1), Use::Test)?;
    Ok(())
}

/// The condition of a `for` at the place, which holds where it is missing.
pub fn tested_for<'a>(
    context: &Context<'a>,
    place: Place,
    expr: &'a Option<Expr>,
    out: &mut Output<'a>,
) -> Result<(), AllocError>
    ensures { OnOk result (IfSome (option_map expr_tree expr.now) HasIntNumbers → (line locals : ℕ)
        → EmitsTested (for_condition (state (on_line context.now line) locals out.old) place (option_map expr_tree expr.now))
        context.now.first_temp out.old out.new) }
{
    match expr {
        None => forever(context, place, out),
        Some(expr) => tested(context, expr, out),
    }
}

/// A simple statement, whose nodes have the line of the place.
pub fn once<'a>(
    context: &Context<'a>,
    locals: u32,
    place: Place,
    one: &'a Simple,
    out: &mut Output<'a>,
) -> Result<Laid, AllocError>
    ensures { IfOk result (λ laid. SimpleHasIntNumbers (simple_tree one.now) → (line : ℕ)
        → EmitsLowered (simple_from (state (on_line context.now line) locals out.old)
        (from_place (state (on_line context.now line) locals out.old) place) (simple_tree one.now))
        context.now locals context.now laid out.old out.new) }
{
    let begin = Label::at(out.len());
    performed(&Site::at(context, place), one, out)?;
    Ok(Laid::new(begin, locals))
}

/// A simple statement that is the step of a `for`.
fn stepped<'a>(
    context: &Context<'a>,
    locals: u32,
    one: &'a Simple,
    out: &mut Output<'a>,
) -> Result<Laid, AllocError>
    ensures { IfOk result (λ laid. SimpleHasIntNumbers (simple_tree one.now) → (line : ℕ)
        → EmitsWithin (for_step (state (on_line context.now line) locals out.old) (Some (simple_tree one.now)))
        context.now locals laid out.old out.new) }
{
    once(context, locals, place_of_simple(one), one, out)
}

/// The step of a `for`.
pub fn step<'a>(
    context: &Context<'a>,
    locals: u32,
    one: &'a Option<Box<Simple>>,
    out: &mut Output<'a>,
) -> Result<Laid, AllocError>
    ensures { IfOk result (λ laid. IfSome (option_map for_step_tree one.now) SimpleHasIntNumbers → (line : ℕ)
        → EmitsWithin (for_step (state (on_line context.now line) locals out.old) (option_map for_step_tree one.now))
        context.now locals laid out.old out.new) }
{
    match one {
        None => Ok(Laid::new(Label::Next, locals)),
        Some(one) => stepped(context, locals, one, out),
    }
}

/// A `return` at the place.
pub fn return_at<'a>(
    context: &Context<'a>,
    locals: u32,
    place: Place,
    value: &'a Option<Expr>,
    out: &mut Output<'a>,
) -> Result<Laid, AllocError>
    ensures { IfOk result (λ laid. IfSome (option_map expr_tree value.now) HasIntNumbers → (line : ℕ)
        → EmitsLowered (return_from (state (on_line context.now line) locals out.old)
        (from_place (state (on_line context.now line) locals out.old) place) (option_map expr_tree value.now))
        context.now locals context.now laid out.old out.new) }
{
    let begin = Label::at(out.len());
    returned(&Site::at(context, place), value, out)?;
    Ok(Laid::new(begin, locals))
}

/// A declaration of locals, whose nodes have the line of the place.
pub fn declared<'a>(
    context: &mut Context<'a>,
    locals: u32,
    place: Place,
    one: &'a Local,
    out: &mut Output<'a>,
) -> Result<Laid, AllocError>
    ensures within { OnOk result (IsWithin context.old context.new) }
    ensures laid { IfOk result (λ laid. LocalHasIntNumbers (local_tree one.now) → (line : ℕ)
        → EmitsLowered (declaration (local_tree one.now) (from_place (state (on_line context.old line) locals out.old) place))
        context.old locals context.new laid out.old out.new) }
{
    let begin = Label::at(out.len());
    let line = context.line_of(place);
    out.release();
    let locals = declaration(context, line, locals, one, out)?;
    Ok(Laid::new(begin, locals))
}

/// What a `for` at the place begins with.
pub fn init<'a>(
    context: &mut Context<'a>,
    locals: u32,
    place: Place,
    one: &'a ForInit,
    out: &mut Output<'a>,
) -> Result<Laid, AllocError>
    ensures within { OnOk result (IsWithin context.old context.new) }
    ensures laid { IfOk result (λ laid. InitHasIntNumbers (init_tree one.now) → (line : ℕ)
        → EmitsLowered (for_init (state (on_line context.old line) locals out.old) place (init_tree one.now))
        context.old locals context.new laid out.old out.new) }
{
    match one {
        ForInit::Empty => Ok(Laid::new(Label::Next, locals)),
        ForInit::Local(one) => declared(context, locals, place, one, out),
        ForInit::Simple(one) => once(context, locals, place, one, out),
    }
}
