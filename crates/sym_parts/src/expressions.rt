//! Tests of expressions and of lists of them.
ghost use Rattle.std.specs.Prelude.{◌≡◌, ◌↔◌, IsTrue};
ghost use Rattle.sym_parts.specs.Laws.Expressions.{has_double as has_double_of, is_among as is_among_of, same_exp};

use shape_data::symbolic::Exp;

/// Whether the two are the same variable, or the same constant.
pub fn is_same_exp(left: Exp, right: Exp) -> bool
    ensures test { result ≡ same_exp left right }
    ensures exact { IsTrue result ↔ (left ≡ right) }
{
    match (left, right) {
        (Exp::Var(x), Exp::Var(y)) => x == y,
        (Exp::Const(m), Exp::Const(n)) => m == n,
        _ => false,
    }
}

/// Whether the expression is in the list.
pub fn is_among(e: Exp, list: &[Exp]) -> bool
    ensures { result ≡ is_among_of e list.now }
{
    for f in list {
        if is_same_exp(e, *f) {
            return true;
        }
    }
    false
}

/// Whether an expression is in the list twice.
pub fn has_double(list: &[Exp]) -> bool
    ensures { result ≡ has_double_of list.now }
{
    match list {
        [] => false,
        [first, others @ ..] => is_among(*first, others) || has_double(others),
    }
}
