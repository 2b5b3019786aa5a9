//! Expressions that are stored or returned.
ghost use Rattle.std.specs.Prelude.{◌≡◌, IfOk};
ghost use Rattle.c_tree.specs.Syntax.{expr_tree};
ghost use Rattle.c_types_names.specs.Seen.{type_seen};
ghost use Rattle.c_lower_rules.specs.Expressions.{wanted};
ghost use Rattle.c_lower_rules.specs.Numbers.{HasIntNumbers};
ghost use Rattle.c_lower_exprs.specs.Lowered.{IsLowered};
ghost use Rattle.c_lower_stmts.specs.WantedTypes.{wanted_kind};

use c_lower_emit::output::Output;
use c_lower_emit::uses::Use;
use c_lower_exprs::members::Found;
use c_lower_exprs::operators::new;
use c_lower_exprs::site::Site;
use c_lower_exprs::values::lower;
use c_tree::Expr;
use c_types_exprs::exprs::kind_of;
use c_types_names::kinds::{CType, known};
use std::alloc::AllocError;

/// The type that is wanted of a value.
#[derive(Clone, Copy)]
pub enum WantedType<'a> {
    /// This one.
    Kind(CType<'a>),
    /// That of the expression, which is looked up only where it matters.
    TypeOf(&'a Expr),
}

/// The type that is wanted.
fn wanted_kind<'a>(site: &Site<'_, 'a>, as_type: WantedType<'a>) -> CType<'a>
    ensures { type_seen result ≡ wanted_kind site.now as_type.entry }
{
    match as_type {
        WantedType::Kind(kind) => kind,
        WantedType::TypeOf(expr) => known(kind_of(site.env(), expr)),
    }
}

/// An expression in a use, where a value of the type is wanted: `malloc` gives a pointer of that type.
pub fn wanted<'a>(
    site: &Site<'_, 'a>,
    as_type: WantedType<'a>,
    expr: &'a Expr,
    used: Use,
    out: &mut Output<'a>,
) -> Result<Found<'a>, AllocError>
    ensures { IfOk result (λ found. HasIntNumbers (expr_tree expr.now)
        → IsLowered used (wanted site.now (wanted_kind site.now as_type.entry) (expr_tree expr.now))
        site.now.first_temp out.old out.new found) }
{
    match expr {
        Expr::Chain(_, _) => lower(site, expr, used, out),
        Expr::Prefix(_, _, _) => lower(site, expr, used, out),
        Expr::Members(_, _) => lower(site, expr, used, out),
        Expr::Variable(_) => lower(site, expr, used, out),
        Expr::Number(_, _) => lower(site, expr, used, out),
        Expr::Null(_) => lower(site, expr, used, out),
        Expr::Paren(_, inner) => wanted(site, as_type, inner, used, out),
        Expr::Call(_, _) => lower(site, expr, used, out),
        Expr::Malloc(_, types) => {
            let kind = wanted_kind(site, as_type);
            new(site, kind, &types.allocated, used, out)
        }
    }
}
