//! Numbers of the machine: operands, wrapped arithmetic, comparisons, and the numbers of a type. They carry the rows of
//! `Copy`, `Arith`, `Any` and `Branch`, and stand on no heap.
ghost use Rattle.std.specs.Prelude.{◌≡◌, length, All, IfOk, map};
ghost use Rattle.std.specs.Int.{int_wrap, w32};
ghost use Rattle.shape_data.specs.Machine.{
  arith_value,
  are_of_fields as are_numbers_of,
  has_32_bits as fits_32_bits,
  is_of_type as is_number_of,
  operand_value,
  test_passes,
};
ghost use Rattle.shape_data.specs.WellFormed.{IsOperand};

use shape_data::machine::Value;
use shape_data::program::{ArithOp, Field, Operand, TestOp, Ty};
use std::alloc::{AllocError, Global};

/// What an operand stands for.
pub fn value_of(locals: &[Value], operand: Operand) -> Value
    requires { IsOperand (length locals.now) operand }
    ensures { result ≡ operand_value locals.now operand }
{
    match operand {
        Operand::Slot(slot) => locals[slot as usize],
        Operand::Num(number) => Value::from(number),
    }
}

/// What each of some operands stands for.
pub fn values_of(
    alloc: Global,
    locals: &[Value],
    operands: &[Operand],
) -> Result<Vec<Value>, AllocError>
    requires { All (IsOperand (length locals.now)) operands.now }
    ensures { IfOk result (λ values. values.items ≡ map (operand_value locals.now) operands.now) }
{
    operands
        .iter()
        .map(|operand| value_of(locals, *operand))
        .collect(alloc)
}

/// What is left of a whole number in 32 bits of two's complement.
fn wrapped(value: Value) -> i32
    ensures { result ≡ int_wrap w32 value }
{
    let low = value.rem_euclid(4_294_967_296) as u32;
    low.cast_signed()
}

/// Arithmetic on whole numbers, wrapped to 32 bits. The operands are wrapped first, so that nothing overflows.
pub fn computed(op: ArithOp, left: Value, right: Value) -> Value
    ensures { result ≡ arith_value op left right }
{
    let (left, right) = (wrapped(left), wrapped(right));
    Value::from(match op {
        ArithOp::Add => left.wrapping_add(right),
        ArithOp::Sub => left.wrapping_sub(right),
        ArithOp::Mul => left.wrapping_mul(right),
    })
}

/// A comparison of two whole numbers.
pub fn passes(op: TestOp, left: Value, right: Value) -> bool
    ensures { result ≡ test_passes op left right }
{
    match op {
        TestOp::Eq => left == right,
        TestOp::Ne => left != right,
        TestOp::Lt => left < right,
        TestOp::Le => left <= right,
        TestOp::Gt => left > right,
        TestOp::Ge => left >= right,
    }
}

/// Whether a number has 32 bits, with a sign.
fn has_32_bits(value: Value) -> bool
    ensures { result ≡ fits_32_bits value }
{
    -2_147_483_648 <= value && value < 2_147_483_648
}

/// Whether a number is one of a type.
pub fn is_of_type(ty: &Ty, value: Value) -> bool
    ensures { result ≡ is_number_of ty.now value }
{
    match ty {
        Ty::Int => has_32_bits(value),
        Ty::Ptr(_) => 0 <= value,
        Ty::Void => has_32_bits(value),
    }
}

/// Whether there is one number for each field, each one of its field's type.
pub fn are_of_fields(fields: &[Field], values: &[Value]) -> bool
    ensures { result ≡ are_numbers_of fields.now values.now }
{
    if fields.len() != values.len() {
        return false;
    }
    for place in 0..fields.len() {
        if !is_of_type(&fields[place].ty, values[place]) {
            return false;
        }
    }
    true
}
