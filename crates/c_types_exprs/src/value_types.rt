//! The type that an expression gives where its value is used.
ghost use Rattle.std.specs.Prelude.{◌≡◌, option_map};
ghost use Rattle.c_types_rules.specs.Expressions.{
  given_by_malloc,
  given_by,
  kind_of,
  may_be_pointer,
  may_take,
  fits,
  gives_int,
  gives_scalar,
  gives_pointer,
  give_equals,
  may_stand_by,
  may_stand_behind,
};
ghost use Rattle.c_tree.specs.Syntax.{specifier_tree, binary_tree, prefix_tree, expr_tree};
ghost use Rattle.c_types_names.specs.Seen.{kind_seen};
ghost use Rattle.c_types_exprs.specs.Seen.{given_seen};

use crate::exprs::{is_null, kind_of};
use c_tree::{BinaryOp, Expr, PrefixOp, TypeSpecifier};
use c_types_names::env::Env;
use c_types_names::hiding::pointer_in;
use c_types_names::kinds::{CType, Kind, may_agree, may_be_compared, may_be_int, may_be_scalar};

/// What an expression gives where its value is used.
#[derive(Clone, Copy)]
pub enum Given<'a> {
    OfKind(Kind<'a>),
    /// What `malloc` without a cast gives: a pointer to any structure.
    AnyPointer,
}

/// What `malloc` gives: behind a cast the cast's pointer.
fn given_by_malloc<'a>(env: &Env<'a>, as_type: &'a Option<TypeSpecifier>) -> Given<'a>
    ensures { given_seen result ≡ given_by_malloc env.now (option_map specifier_tree as_type.now) }
{
    match as_type {
        None => Given::AnyPointer,
        Some(as_type) => Given::OfKind(pointer_in(env, as_type)),
    }
}

/// What the expression, which has the type, gives.
pub fn given_as<'a>(env: &Env<'a>, expr: &'a Expr, kind: Kind<'a>) -> Given<'a>
    requires is_its_kind { kind_seen kind ≡ kind_of env.now (expr_tree expr.now) }
    ensures { given_seen result ≡ given_by env.now (expr_tree expr.now) }
{
    match expr {
        Expr::Chain(_, _) => Given::OfKind(kind),
        Expr::Prefix(_, _, _) => Given::OfKind(kind),
        Expr::Members(_, _) => Given::OfKind(kind),
        Expr::Variable(_) => Given::OfKind(kind),
        Expr::Number(_, _) => Given::OfKind(kind),
        Expr::Null(_) => Given::OfKind(kind),
        Expr::Paren(_, inner) => given_as(env, inner, kind),
        Expr::Call(_, _) => Given::OfKind(kind),
        Expr::Malloc(_, types) => given_by_malloc(env, &types.cast),
    }
}

/// Whether the type is a pointer, or not known.
fn may_be_pointer(kind: Kind) -> bool
    ensures { result ≡ may_be_pointer (kind_seen kind.entry) }
{
    match kind {
        None => true,
        Some(CType::Int) => false,
        Some(CType::Pointer(_)) => true,
        Some(CType::Void) => false,
    }
}

/// Whether what is given may be assigned to an object of the type.
fn may_take(wanted: Kind, given: Given, null: bool) -> bool
    ensures { result ≡ may_take (kind_seen wanted.entry) (given_seen given.entry) null }
{
    match given {
        Given::AnyPointer => may_be_pointer(wanted),
        Given::OfKind(Some(CType::Void)) => false,
        Given::OfKind(kind) => may_agree(wanted, kind) || (null && may_be_pointer(wanted)),
    }
}

/// Whether the expression, which has the type, may be assigned to an object of the wanted type.
pub fn fits_as<'a>(env: &Env<'a>, wanted: Kind<'a>, value: &'a Expr, kind: Kind<'a>) -> bool
    requires is_its_kind { kind_seen kind ≡ kind_of env.now (expr_tree value.now) }
    ensures { result ≡ fits env.now (kind_seen wanted.entry) (expr_tree value.now) }
{
    may_take(wanted, given_as(env, value, kind), is_null(value))
}

/// Whether the expression may be assigned to an object of the wanted type.
pub(crate) fn fits<'a>(env: &Env<'a>, wanted: Kind<'a>, value: &'a Expr) -> bool
    ensures { result ≡ fits env.now (kind_seen wanted.entry) (expr_tree value.now) }
{
    fits_as(env, wanted, value, kind_of(env, value))
}

/// Whether what is given may be an int.
pub fn gives_int(given: Given) -> bool
    ensures { result ≡ gives_int (given_seen given.entry) }
{
    match given {
        Given::AnyPointer => false,
        Given::OfKind(kind) => may_be_int(kind),
    }
}

/// Whether what is given may be an int or a pointer.
pub fn gives_scalar(given: Given) -> bool
    ensures { result ≡ gives_scalar (given_seen given.entry) }
{
    match given {
        Given::AnyPointer => true,
        Given::OfKind(kind) => may_be_scalar(kind),
    }
}

/// Whether what is given may be a pointer.
pub fn gives_pointer(given: Given) -> bool
    ensures { result ≡ gives_pointer (given_seen given.entry) }
{
    match given {
        Given::AnyPointer => true,
        Given::OfKind(kind) => may_be_pointer(kind),
    }
}

/// Whether `==` and `!=` take the two.
fn give_equals(left: Given, left_null: bool, right: Given, right_null: bool) -> bool
    ensures { result ≡ give_equals (given_seen left.entry) left_null (given_seen right.entry) right_null }
{
    match left {
        Given::AnyPointer => gives_pointer(right) || right_null,
        Given::OfKind(left) => match right {
            Given::AnyPointer => may_be_pointer(left) || left_null,
            Given::OfKind(right) => may_be_compared(left, left_null, right, right_null),
        },
    }
}

/// Whether the two operands may stand by the operator.
pub(crate) fn may_stand_by(
    op: BinaryOp,
    left: Given,
    left_null: bool,
    right: Given,
    right_null: bool,
) -> bool
    ensures { result ≡ may_stand_by (binary_tree op) (given_seen left.entry) left_null (given_seen right.entry) right_null }
{
    match op {
        BinaryOp::Or => gives_scalar(left) && gives_scalar(right),
        BinaryOp::And => gives_scalar(left) && gives_scalar(right),
        BinaryOp::Equal => give_equals(left, left_null, right, right_null),
        BinaryOp::NotEqual => give_equals(left, left_null, right, right_null),
        _ => gives_int(left) && gives_int(right),
    }
}

/// Whether the operand may stand behind the operator.
pub(crate) fn may_stand_behind(op: PrefixOp, given: Given) -> bool
    ensures { result ≡ may_stand_behind (prefix_tree op) (given_seen given.entry) }
{
    match op {
        PrefixOp::Negate => gives_int(given),
        PrefixOp::Not => gives_scalar(given),
    }
}
