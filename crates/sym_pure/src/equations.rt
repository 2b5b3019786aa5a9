//! Reading through the equations that stand among facts, as those of a form do.
ghost use Rattle.std.specs.Prelude.{◌≡◌};
ghost use Rattle.sym_pure.specs.Equations.{read_through as read_through_of, solved as solved_of};

use shape_data::symbolic::{Exp, Fact};

/// What the facts' equations solve a variable for.
fn solved(facts: &[Fact], x: u32) -> Exp
    ensures { result ≡ solved_of facts.now x }
{
    for fact in facts {
        if let Fact::Eq(Exp::Var(y), right) = *fact {
            if y == x {
                return right;
            }
        }
    }
    Exp::Var(x)
}

/// An expression, read through the facts' equations: a variable is what the first equation with it on the left solves it for, or itself
/// where there is none.
pub fn read_through(facts: &[Fact], e: Exp) -> Exp
    ensures { result ≡ read_through_of facts.now e }
{
    match e {
        Exp::Var(x) => solved(facts, x),
        Exp::Const(_) => e,
    }
}
