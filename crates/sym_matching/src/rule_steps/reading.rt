//! Reading the expressions of the wanted heap: through the binding, and through the heap's equations.
ghost use Rattle.std.specs.Prelude.{◌≡◌};
ghost use Rattle.sym_matching.specs.Reading.{
  is_logical as is_logical_of,
  is_logical_variable as is_logical_variable_of,
  is_unbound as is_unbound_of,
  read as read_of,
};

use crate::Mode;
use crate::renaming::reading::{bound_exp, bound_to};
use shape_data::symbolic::{Exp, FIRST_EXISTENTIAL, Fact};
use sym_parts::is_one_of;
use sym_pure::read_through;

/// What stays the same through a match: whether parts may be missing, the heap's facts, and the flexible variables.
#[derive(Clone, Copy)]
pub struct Setting<'a> {
    pub mode: Mode,
    pub facts: &'a [Fact],
    pub flexible: &'a [u32],
}

/// An expression of the wanted heap, read through the binding and the heap's equations.
pub fn read(facts: &[Fact], binding: &[(u32, Exp)], e: Exp) -> Exp
    ensures { result ≡ read_of facts.now binding.now e }
{
    read_through(facts, bound_exp(binding, e))
}

/// Whether the expression is a flexible variable that is not bound yet.
pub fn is_unbound(flexible: &[u32], binding: &[(u32, Exp)], e: Exp) -> bool
    ensures { result ≡ is_unbound_of flexible.now binding.now e }
{
    match e {
        Exp::Var(x) => is_one_of(flexible, x) && bound_to(binding, x).is_none(),
        Exp::Const(_) => false,
    }
}

/// Whether the expression is a logical variable.
pub fn is_logical_variable(e: Exp) -> bool
    ensures { result ≡ is_logical_variable_of e }
{
    match e {
        Exp::Var(x) => x < FIRST_EXISTENTIAL,
        Exp::Const(_) => false,
    }
}

/// Whether the expression is a logical variable or a constant.
pub fn is_logical(e: Exp) -> bool
    ensures { result ≡ is_logical_of e }
{
    match e {
        Exp::Var(x) => x < FIRST_EXISTENTIAL,
        Exp::Const(_) => true,
    }
}
