//! Where trees begin: the place of the first token of each.
ghost use Rattle.std.specs.Prelude.{◌≡◌};
ghost use Rattle.c_grammar.specs.Readers.{place_of_specifier};
ghost use Rattle.c_grammar.specs.FirstPlaces.{place_of_expr};
ghost use Rattle.c_tree.specs.Syntax.{specifier_tree, expr_tree};

use crate::exprs::Expr;
use crate::names::TypeSpecifier;
use c_grammar::tokens::Place;

/// Where the specifier begins.
pub fn place_of_specifier(specifier: &TypeSpecifier) -> Place
    ensures { result ≡ place_of_specifier (specifier_tree specifier.now) }
{
    match specifier {
        TypeSpecifier::Int(place) => *place,
        TypeSpecifier::Void(place) => *place,
        TypeSpecifier::Struct(place, _) => *place,
        TypeSpecifier::Alias(name) => name.place,
    }
}

/// Where the expression begins.
pub fn place_of_expr(expr: &Expr) -> Place
    ensures { result ≡ place_of_expr (expr_tree expr.now) }
{
    match expr {
        Expr::Chain(first, _) => place_of_expr(first),
        Expr::Prefix(place, _, _) => *place,
        Expr::Members(base, _) => place_of_expr(base),
        Expr::Variable(name) => name.place,
        Expr::Number(place, _) => *place,
        Expr::Null(place) => *place,
        Expr::Paren(place, _) => *place,
        Expr::Call(callee, _) => callee.place,
        Expr::Malloc(place, _) => *place,
    }
}
