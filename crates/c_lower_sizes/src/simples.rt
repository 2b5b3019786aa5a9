//! How many nodes simple statements and declarations have (C11 6.8.3, 6.7).
ghost use Rattle.std.specs.Prelude.{◌≡◌, option_map};
ghost use Rattle.c_tree.specs.Syntax.{expr_tree, assign_tree, simple_tree, local_tree};
ghost use Rattle.c_lower_sizes.specs.Sizes.{
  assign_size,
  update_size,
  assign_by_size,
  simple_size,
  initial_size,
  declaration_size,
};
ghost use Rattle.c_lower_sizes.specs.Counts.{capped, seen};

use crate::counts::{UseCounts, at_hand, capped, plus};
use crate::exprs::{arguments, expr, target};
use c_tree::{AssignOp, Expr, Local, Simple};

/// `=`, to a variable or to a field behind a pointer of so many nodes.
fn assign(to: Option<u32>, value: UseCounts) -> u32
    ensures { result ≡ capped (assign_size to (seen value)) }
{
    match to {
        None => capped(value.into),
        Some(pointer) => plus(plus(value.value, pointer), 1),
    }
}

/// `+=` and the like.
fn update(to: Option<u32>, by: UseCounts) -> u32
    ensures { result ≡ capped (update_size to (seen by)) }
{
    match to {
        None => plus(by.value, 1),
        Some(pointer) => plus(plus(pointer, by.value), 3),
    }
}

/// An operator that assigns.
fn assign_by(op: AssignOp, to: Option<u32>, value: UseCounts) -> u32
    ensures { result ≡ capped (assign_by_size (assign_tree op) to (seen value)) }
{
    match op {
        AssignOp::Set => assign(to, value),
        AssignOp::AddTo => update(to, value),
        AssignOp::SubtractFrom => update(to, value),
        AssignOp::MultiplyBy => update(to, value),
    }
}

/// A simple statement.
pub fn simple(one: &Simple) -> u32
    ensures { result ≡ capped (simple_size (simple_tree one.now)) }
{
    match one {
        Simple::Assign(left, op, right) => assign_by(*op, target(left), expr(right)),
        Simple::Step(left, _) => update(target(left), at_hand()),
        Simple::Call(_, args) => plus(arguments(args), 1),
        Simple::Free(_, pointer) => plus(expr(pointer).value, 1),
    }
}

/// What a local begins with.
fn initial(value: &Option<Expr>) -> u32
    ensures { result ≡ capped (initial_size (option_map expr_tree value.now)) }
{
    match value {
        None => 1,
        Some(value) => expr(value).into,
    }
}

/// A declaration of locals.
pub fn declaration(one: &Local) -> u32
    ensures { result ≡ capped (declaration_size (local_tree one.now)) }
{
    let mut total = 0;
    for declarator in one.declarators.iter() {
        total = plus(total, initial(&declarator.value));
    }
    total
}
