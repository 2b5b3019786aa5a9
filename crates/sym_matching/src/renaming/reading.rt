//! Reading expressions through a binding.
ghost use Rattle.std.specs.Prelude.{◌≡◌};
ghost use Rattle.sym_matching.specs.Reading.{bound_exp as bound_exp_of, bound_to as bound_to_of};

use shape_data::symbolic::Exp;
use sym_parts::Mapping;

/// The expression that a variable is bound to, if any.
pub fn bound_to(binding: &[(u32, Exp)], x: u32) -> Option<Exp>
    ensures { result ≡ bound_to_of binding.now x }
{
    for bound in binding {
        if bound.0 == x {
            return Some(bound.1);
        }
    }
    None
}

/// An expression read through a binding: a variable that is not bound stands for itself.
pub fn bound_exp(binding: &[(u32, Exp)], e: Exp) -> Exp
    ensures { result ≡ bound_exp_of binding.now e }
{
    match e {
        Exp::Var(x) => match bound_to(binding, x) {
            Some(f) => f,
            None => e,
        },
        Exp::Const(_) => e,
    }
}

/// A binding, through which heaps, states and posts are read by the calls of `sym_parts::mapping`.
#[derive(Clone, Copy)]
pub struct Bound<'a> {
    pub binding: &'a [(u32, Exp)],
}

impl<'a> Mapping for Bound<'a> {
    ghost use Rattle.sym_matching.specs.Reading.{bound_exp};

    ghost image = { λ bound. bound_exp bound.binding.now };

    fn image_of(&self, e: Exp) -> Exp {
        bound_exp(self.binding, e)
    }
}
