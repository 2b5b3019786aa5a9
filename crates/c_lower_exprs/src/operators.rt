//! Operators behind their operands, calls and `malloc` (C11 6.5.2.2, 6.5.3.3, 6.5.5 to 6.5.9, 7.22.3.4).
ghost use Rattle.std.specs.Prelude.{◌≡◌, ◌||◌, length, IfOk};
ghost use Rattle.c_tree.specs.Syntax.{ident_tree, specifier_tree};
ghost use Rattle.c_types_names.specs.Seen.{type_seen};
ghost use Rattle.c_lower_rules.specs.Values.{is_pointer, Lowering};
ghost use Rattle.c_lower_rules.specs.Expressions.{negated, negation, new};
ghost use Rattle.c_lower_emit.specs.Emitting.{Out, EmitsTested, BeginsTruth};
ghost use Rattle.c_lower_emit.specs.declared.uses.Use.TheVariants.{Value};
ghost use Rattle.c_lower_exprs.specs.Lowered.{
  IsLowered,
  IsCalled,
  IsComputed,
  IsCompared,
  IsBoth,
  IsEither,
};

use crate::members::{Found, tag_of};
use crate::site::Site;
use c_lower_emit::drafts::{AS_THEY_ARE, Label, Ways};
use c_lower_emit::output::Output;
use c_lower_emit::uses::{Use, is_pointer};
use c_tree::{Ident, TypeSpecifier};
use c_types_exprs::exprs::kind_of_call;
use c_types_names::kinds::{CType, known};
use c_types_names::objects::pointer_of;
use shape_data::program::{ArithOp, Cmd, Operand, TestOp};
use shape_data::{Row, copy_of};
use std::alloc::AllocError;

/// Whether one of the types is that of a pointer.
fn any_pointer(one: CType, other: CType) -> bool
    ensures { result ≡ (is_pointer (type_seen one.entry) || is_pointer (type_seen other.entry)) }
{
    is_pointer(one) || is_pointer(other)
}

/// What `+`, `-` or `*` makes of two values.
pub fn arithmetic<'a>(
    site: &Site<'_, 'a>,
    op: ArithOp,
    left: Found<'a>,
    right: Found<'a>,
    used: Use,
    out: &mut Output<'a>,
) -> Result<Found<'a>, AllocError>
    ensures { IfOk result (IsComputed used site.now op left.entry right.entry out.old out.new) }
{
    let cmd = Cmd::Arith {
        to: 0,
        op,
        left: left.operand,
        right: right.operand,
        next: 0,
    };
    let operand = out.make(site.spot(), CType::Int, cmd, used)?;
    Ok(Found {
        kind: CType::Int,
        operand,
    })
}

/// `-` before a value.
pub fn negated<'a>(
    site: &Site<'_, 'a>,
    inner: Found<'a>,
    used: Use,
    out: &mut Output<'a>,
) -> Result<Found<'a>, AllocError>
    ensures { IfOk result (λ found. (l : Lowering) → (before : Out) → IsLowered Value l site.now.first_temp before out.old inner.entry
        → IsLowered used (negated site.now l) site.now.first_temp before out.new found) }
{
    let cmd = Cmd::Arith {
        to: 0,
        op: ArithOp::Sub,
        left: Operand::Num(0),
        right: inner.operand,
        next: 0,
    };
    let operand = out.make(site.spot(), CType::Int, cmd, used)?;
    Ok(Found {
        kind: CType::Int,
        operand,
    })
}

/// Compares two values, behind the beginning of the test at a place, whose value goes to the slot.
pub fn compared<'a>(
    site: &Site<'_, 'a>,
    op: TestOp,
    to: u32,
    from: usize,
    left: Found<'a>,
    right: Found<'a>,
    used: Use,
    out: &mut Output<'a>,
) -> Result<Found<'a>, AllocError>
    ensures { IfOk result (IsCompared used site.now op to from left.entry right.entry out.old out.new) }
{
    let spot = site.spot();
    let pointers = any_pointer(left.kind, right.kind);
    out.push_branch(spot, op, pointers, left.operand, right.operand)?;
    let operand = out.end_truth(spot, to, from, used)?;
    Ok(Found {
        kind: CType::Int,
        operand,
    })
}

/// What two tests give of which the second stands behind where the first holds, as [`compared`] does.
pub fn both<'a>(
    site: &Site<'_, 'a>,
    to: u32,
    from: usize,
    used: Use,
    out: &mut Output<'a>,
) -> Result<Found<'a>, AllocError>
    ensures { IfOk result (IsBoth used site.now to from out.old out.new) }
{
    let operand = out.end_truth(site.spot(), to, from, used)?;
    Ok(Found {
        kind: CType::Int,
        operand,
    })
}

/// What two tests give of which the second stands behind where the first doesn't hold, as [`compared`] does.
pub fn either<'a>(
    site: &Site<'_, 'a>,
    to: u32,
    from: usize,
    used: Use,
    out: &mut Output<'a>,
) -> Result<Found<'a>, AllocError>
    ensures { IfOk result (IsEither used site.now to from out.old out.new) }
{
    let operand = out.end_truth(site.spot(), to, from, used)?;
    Ok(Found {
        kind: CType::Int,
        operand,
    })
}

/// `!` before a test that begins at a place, as [`compared`] does.
pub fn negation<'a>(
    site: &Site<'_, 'a>,
    to: u32,
    from: usize,
    used: Use,
    out: &mut Output<'a>,
) -> Result<Found<'a>, AllocError>
    ensures { IfOk result (λ found. (l : Lowering) → (before start : Out) → BeginsTruth used site.now.first_temp before start to
        → from ≡ length start.nodes → EmitsTested (l.test start.temps) site.now.first_temp start out.old
        → IsLowered used (negation site.now l) site.now.first_temp before out.new found) }
{
    let ways = Ways {
        holds: Label::Fails,
        fails: Label::Holds,
        ..AS_THEY_ARE
    };
    let past = out.len();
    out.redirect(from, past, ways);
    let operand = out.end_truth(site.spot(), to, from, used)?;
    Ok(Found {
        kind: CType::Int,
        operand,
    })
}

/// Calls a procedure with the arguments, for its result.
pub fn called<'a>(
    site: &Site<'_, 'a>,
    callee: &Ident,
    args: Vec<Operand>,
    used: Use,
    out: &mut Output<'a>,
) -> Result<Found<'a>, AllocError>
    ensures { IfOk result (λ found. (before : Out)
        → IsCalled used site.now (ident_tree callee.now) args.items site.now.first_temp before out.old out.new found) }
{
    let kind = known(kind_of_call(site.tables(), &callee.text));
    let cmd = Cmd::Call {
        to: None,
        callee: copy_of(&callee.text)?,
        args: Row::from_vec(args),
        next: 0,
    };
    let operand = out.make(site.spot(), kind, cmd, used)?;
    Ok(Found { kind, operand })
}

/// A new structure, to which a pointer of the type is wanted.
pub fn new<'a>(
    site: &Site<'_, 'a>,
    wanted: CType<'a>,
    allocated: &'a TypeSpecifier,
    used: Use,
    out: &mut Output<'a>,
) -> Result<Found<'a>, AllocError>
    ensures { IfOk result (λ found. IsLowered used (new site.now (type_seen wanted.entry) (specifier_tree allocated.now))
        site.now.first_temp out.old out.new found) }
{
    let pointer = known(pointer_of(site.tables(), allocated));
    let cmd = Cmd::New {
        to: 0,
        kind: tag_of(site.alloc(), pointer)?,
        next: 0,
    };
    let operand = out.make(site.spot(), wanted, cmd, used)?;
    Ok(Found {
        kind: wanted,
        operand,
    })
}
