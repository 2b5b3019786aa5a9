//! The rows of the commands that give a value without a cell: Copy, Arith, Any, Return; and what an operand is, and rows of one case, for
//! branches and calls too.
ghost use Rattle.std.specs.Prelude.{◌≡◌, ◌∷◌, [], IfOk};
ghost use Rattle.shape_data.specs.Machine.{arith_value};
ghost use Rattle.exec_laws.specs.declared.parts.Case.TheVariants.{On};
ghost use Rattle.exec_laws.specs.Values.{
  any as any_of,
  arith as arith_of,
  copy as copy_row,
  leave as leave_of,
  operand as operand_of,
  with_any as with_any_of,
  with_result as with_result_of,
};
ghost use Rattle.exec_cells.specs.Sizes.{IsLowPair};

use crate::pairs::{in_slot, new_existentials, with_slot};
use exec_laws::Case;
use shape_data::Row;
use shape_data::program::{ArithOp, Operand};
use shape_data::symbolic::Exp;
use std::alloc::{AllocError, Global};
use sym_canon::Pair;

/// What an operand stands for.
pub fn operand(pair: &Pair, from: Operand) -> Exp
    ensures { result ≡ operand_of pair.now from }
{
    match from {
        Operand::Slot(slot) => in_slot(pair, slot),
        Operand::Num(n) => Exp::Const(n),
    }
}

/// One case.
pub fn one_case(alloc: Global, case: Case) -> Result<Vec<Case>, AllocError>
    ensures { IfOk result (λ cases. cases.items ≡ case ∷ []) }
{
    let mut cases = Vec::new(alloc);
    cases.push(case)?;
    Ok(cases)
}

/// The pair goes on at a node, and nothing else comes of the command.
pub fn on_alone(alloc: Global, next: u32, pair: Pair) -> Result<Vec<Case>, AllocError>
    ensures { IfOk result (λ cases. cases.items ≡ On next pair ∷ []) }
{
    one_case(alloc, Case::On { node: next, pair })
}

/// Arithmetic on two constants, wrapped to 32 bits.
fn computed(op: ArithOp, left: i32, right: i32) -> i32
    ensures { result ≡ arith_value op left right }
{
    match op {
        ArithOp::Add => left.wrapping_add(right),
        ArithOp::Sub => left.wrapping_sub(right),
        ArithOp::Mul => left.wrapping_mul(right),
    }
}

/// A new existential variable in the slot.
fn with_any(alloc: Global, to: u32, pair: Pair) -> Result<Pair, AllocError>
    requires { IsLowPair pair }
    ensures { IfOk result (λ made. made ≡ with_any_of to pair) }
{
    let names = new_existentials(alloc, 1, &pair)?;
    Ok(with_slot(to, Exp::Var(names[0]), pair))
}

/// In the slot the wrapped constant of two constants, else a new existential variable.
fn with_result(
    alloc: Global,
    to: u32,
    op: ArithOp,
    left: Exp,
    right: Exp,
    pair: Pair,
) -> Result<Pair, AllocError>
    requires { IsLowPair pair }
    ensures { IfOk result (λ made. made ≡ with_result_of to op left right pair) }
{
    match (left, right) {
        (Exp::Const(m), Exp::Const(n)) => Ok(with_slot(to, Exp::Const(computed(op, m, n)), pair)),
        _ => with_any(alloc, to, pair),
    }
}

/// Copy: the value.
pub fn copy(
    alloc: Global,
    to: u32,
    from: Operand,
    next: u32,
    pair: Pair,
) -> Result<Vec<Case>, AllocError>
    ensures { IfOk result (λ cases. cases.items ≡ copy_row to from next pair) }
{
    let e = operand(&pair, from);
    on_alone(alloc, next, with_slot(to, e, pair))
}

/// Arith: the wrapped constant of two constants, else a new existential variable.
pub fn arith(
    alloc: Global,
    to: u32,
    op: ArithOp,
    left: Operand,
    right: Operand,
    next: u32,
    pair: Pair,
) -> Result<Vec<Case>, AllocError>
    requires { IsLowPair pair }
    ensures { IfOk result (λ cases. cases.items ≡ arith_of to op left right next pair) }
{
    let e = operand(&pair, left);
    let f = operand(&pair, right);
    let made = with_result(alloc, to, op, e, f, pair)?;
    on_alone(alloc, next, made)
}

/// Any: a new existential variable.
pub fn any(alloc: Global, to: u32, next: u32, pair: Pair) -> Result<Vec<Case>, AllocError>
    requires { IsLowPair pair }
    ensures { IfOk result (λ cases. cases.items ≡ any_of to next pair) }
{
    let made = with_any(alloc, to, pair)?;
    on_alone(alloc, next, made)
}

/// Return: one exit, the value and the heap.
pub fn leave(alloc: Global, value: Operand, pair: Pair) -> Result<Vec<Case>, AllocError>
    ensures { IfOk result (λ cases. cases.items ≡ leave_of value pair) }
{
    let mut pair = pair;
    let locals = vec![in alloc; operand(&pair, value)]?;
    pair.state.locals = Row::from_vec(locals);
    one_case(alloc, Case::Leaves { pair })
}
