//! What is refused in an expression; its type is found in the same walk. The calls nest as deep as the expression does.
ghost use Rattle.std.specs.Prelude.{◌≡◌, map, option_map};
ghost use Rattle.c_types_rules.specs.Tables.{param_kinds, procedure_in};
ghost use Rattle.c_types_rules.specs.Scopes.{variable};
ghost use Rattle.c_types_rules.specs.Expressions.{
  member_refusals,
  members_refusals,
  cast_refusals,
  malloc_refusals,
  same_number,
  all_fit,
  callee_refusals,
  expr_refusals,
  links_refusals,
  args_refusals,
  call_refusals,
  whole_refusals,
  kind_of_variable,
  kind_of_call,
  kind_of_member,
  kind_of_members,
  kind_of,
  kind_of_chain,
};
ghost use Rattle.c_grammar.specs.Trees.{Expr as ExprTree};
ghost use Rattle.c_tree.specs.NonEmpty.{items};
ghost use Rattle.c_tree.specs.Syntax.{ident_tree, specifier_tree, params_tree, expr_tree, links_tree, args_tree};
ghost use Rattle.c_types_names.specs.Seen.{kind_seen};
ghost use Rattle.c_types_exprs.specs.Seen.{given_seen};
ghost use Rattle.c_types_names.specs.FirstRefusal.{with_refusals};

use crate::exprs::{is_null, kind_of, kind_of_binary, kind_of_prefix};
use crate::value_types::{Given, fits, given_as, may_stand_behind, may_stand_by};
use c_tree::places::place_of_expr;
use c_tree::{Expr, Ident, Link, NonEmpty, Params, Place, TypeSpecifier};
use c_types_names::codes::{ARGUMENTS, CLASH, LEFT_OUT, UNDECLARED};
use c_types_names::env::Env;
use c_types_names::first_refusal::FirstRefusal;
use c_types_names::hiding::specifier_refusals_in;
use c_types_names::kinds::{CType, Kind};
use c_types_names::objects::{field_of, is_defined, kind_of_result, names_structure, param_kind};
use c_types_names::tables::Tables;

/// The type of a field of what a pointer points to; refuses one that the structure lacks, and a field of what is no pointer.
#[tactic(auto, using(c_types_names::proofs::FirstRefusals::more_refusals), unfolding(c_types_names::specs::Seen::field_seen))]
fn member_refusals<'a>(
    tables: &Tables<'a>,
    place: Place,
    kind: Kind<'a>,
    field: &Ident,
    first: &mut FirstRefusal,
) -> Kind<'a>
    ensures refusals { first.new ≡ with_refusals first.old
        (member_refusals tables.now place (kind_seen kind.entry) (ident_tree field.now)) }
    ensures kind { kind_seen result ≡ kind_of_member tables.now (kind_seen kind.entry) (ident_tree field.now) }
{
    match kind {
        None => None,
        Some(CType::Pointer(tag)) => match field_of(tables, tag, &field.text) {
            None => {
                first.unless(!is_defined(tables, tag), field.place, UNDECLARED);
                None
            }
            Some(found) => found.kind,
        },
        Some(CType::Int | CType::Void) => {
            first.unless(false, place, CLASH);
            None
        }
    }
}

/// Refuses one field after another, and gives the type behind the last.
#[tactic(auto, using(c_types_names::proofs::FirstRefusals::more_refusals))]
fn members_refusals<'a>(
    tables: &Tables<'a>,
    place: Place,
    kind: Kind<'a>,
    fields: &NonEmpty<Ident>,
    first: &mut FirstRefusal,
) -> Kind<'a>
    ensures refusals { first.new ≡ with_refusals first.old
        (members_refusals tables.now place (kind_seen kind.entry) (map ident_tree (items fields.now))) }
    ensures kind { kind_seen result ≡ kind_of_members tables.now (kind_seen kind.entry) (map ident_tree (items fields.now)) }
{
    let mut current = kind;
    for field in fields.iter() {
        current = member_refusals(tables, place, current, field, first);
    }
    current
}

/// Refuses a cast to what is no pointer to a structure.
#[tactic(auto, using(c_types_names::proofs::FirstRefusals::more_refusals))]
fn cast_refusals(env: &Env, place: Place, as_type: &Option<TypeSpecifier>, first: &mut FirstRefusal)
    ensures { first.new ≡ with_refusals first.old (cast_refusals env.now place (option_map specifier_tree as_type.now)) }
{
    match as_type {
        None => {}
        Some(as_type) => {
            specifier_refusals_in(env, as_type, first);
            first.unless(names_structure(as_type), place, LEFT_OUT);
        }
    }
}

/// Refuses a `malloc` of what is no structure.
#[tactic(auto, using(c_types_names::proofs::FirstRefusals::more_refusals))]
fn malloc_refusals(
    env: &Env,
    place: Place,
    as_type: &Option<TypeSpecifier>,
    allocated: &TypeSpecifier,
    first: &mut FirstRefusal,
)
    ensures { first.new ≡ with_refusals first.old
        (malloc_refusals env.now place (option_map specifier_tree as_type.now) (specifier_tree allocated.now)) }
{
    cast_refusals(env, place, as_type, first);
    specifier_refusals_in(env, allocated, first);
    first.unless(names_structure(allocated), place, LEFT_OUT);
}

/// Whether there are as many arguments as parameters.
#[tactic(auto, using(crate::proofs::Arguments::arguments))]
fn same_number(tables: &Tables, params: &Params, args: &[Expr]) -> bool
    ensures { result ≡ same_number (param_kinds tables.now (params_tree params.now)) (args_tree args.now) }
{
    params.len() == args.len()
}

/// Whether each argument may be assigned to its parameter.
#[tactic(auto, using(crate::proofs::Arguments::arguments, c_types_names::proofs::ParamsInTurn::each_kind))]
fn all_fit<'a>(env: &Env<'a>, params: &'a Params, args: &'a [Expr]) -> bool
    ensures { result ≡ all_fit env.now (param_kinds env.now.tables (params_tree params.now)) (args_tree args.now) }
{
    let mut left = args.iter();
    for param in params.iter() {
        match left.next() {
            None => return true,
            Some(arg) => {
                if !fits(env, param_kind(env.tables(), param), arg) {
                    return false;
                }
            }
        }
    }
    true
}

/// Refuses a call of a name that is no procedure's, and one whose arguments are not those that the procedure takes; gives the type of the
/// call.
#[tactic(auto, using(c_types_names::proofs::FirstRefusals::more_refusals), unfolding(c_types_names::specs::Seen::procedure_seen))]
fn callee_refusals<'a>(
    env: &Env<'a>,
    callee: &Ident,
    args: &'a [Expr],
    first: &mut FirstRefusal,
) -> Kind<'a>
    ensures refusals { first.new ≡ with_refusals first.old
        (callee_refusals env.now (procedure_in env.now.tables.procedures callee.now.text) (ident_tree callee.now) (args_tree args.now)) }
    ensures kind { kind_seen result
        ≡ kind_of_call env.now.tables (procedure_in env.now.tables.procedures callee.now.text) }
{
    match env.tables().procedure(&callee.text) {
        None => {
            first.unless(false, callee.place, UNDECLARED);
            None
        }
        Some(found) => {
            if same_number(env.tables(), &found.head.params, args) {
                first.unless(all_fit(env, &found.head.params, args), callee.place, CLASH);
            } else {
                first.unless(false, callee.place, ARGUMENTS);
            }
            kind_of_result(env.tables(), found.head)
        }
    }
}

/// Refuses a variable that is not declared; gives its type.
#[tactic(auto, using(c_types_names::proofs::FirstRefusals::more_refusals))]
fn variable_refusals<'a>(env: &Env<'a>, name: &Ident, first: &mut FirstRefusal) -> Kind<'a>
    ensures refusals { first.new ≡ with_refusals first.old (expr_refusals env.now (ExprTree.Variable (ident_tree name.now))) }
    ensures kind { kind_seen result ≡ kind_of_variable (variable env.now name.now.text) }
{
    match env.variable(&name.text) {
        None => {
            first.unless(false, name.place, UNDECLARED);
            None
        }
        Some(found) => found.kind,
    }
}

/// The type of an expression, and what is refused in it where no call and no `malloc` may stand.
#[cycle(refusals)]
#[tactic(auto, using(c_types_names::proofs::FirstRefusals::more_refusals))]
pub fn expr_refusals<'a>(env: &Env<'a>, expr: &'a Expr, first: &mut FirstRefusal) -> Kind<'a>
    ensures refusals { first.new ≡ with_refusals first.old (expr_refusals env.now (expr_tree expr.now)) }
    ensures kind { kind_seen result ≡ kind_of env.now (expr_tree expr.now) }
{
    match expr {
        Expr::Chain(operand, others) => {
            let kind = expr_refusals(env, operand, first);
            let left = Operand {
                kind,
                given: given_as(env, operand, kind),
                null: is_null(operand),
            };
            links_refusals(env, place_of_expr(operand), left, others, first)
        }
        Expr::Prefix(place, op, inner) => {
            let kind = expr_refusals(env, inner, first);
            first.unless(
                may_stand_behind(*op, given_as(env, inner, kind)),
                *place,
                CLASH,
            );
            kind_of_prefix(*op, kind)
        }
        Expr::Members(base, fields) => {
            let kind = expr_refusals(env, base, first);
            members_refusals(env.tables(), place_of_expr(base), kind, fields, first)
        }
        Expr::Variable(name) => variable_refusals(env, name, first),
        Expr::Number(_, _) => Some(CType::Int),
        Expr::Null(_) => Some(CType::Int),
        Expr::Paren(_, inner) => expr_refusals(env, inner, first),
        Expr::Call(callee, args) => {
            first.unless(false, callee.place, LEFT_OUT);
            args_refusals(env, args, first);
            callee_refusals(env, callee, args.as_slice(), first)
        }
        Expr::Malloc(place, types) => {
            first.unless(false, *place, LEFT_OUT);
            malloc_refusals(env, *place, &types.cast, &types.allocated, first);
            kind_of(env, expr)
        }
    }
}

/// What stands on the left of an operator: its type, what it gives, and whether it is a null pointer.
#[derive(Clone, Copy)]
struct Operand<'a> {
    kind: Kind<'a>,
    given: Given<'a>,
    null: bool,
}

/// What is refused in the other operands of a chain, and the type of the whole chain.
#[cycle(refusals)]
#[tactic(auto, using(c_types_names::proofs::FirstRefusals::more_refusals))]
fn links_refusals<'a>(
    env: &Env<'a>,
    place: Place,
    left: Operand<'a>,
    links: &'a Vec<Link>,
    first: &mut FirstRefusal,
) -> Kind<'a>
    ensures refusals { let operand = left.entry in
        first.new ≡ with_refusals first.old
        (links_refusals env.now place (kind_seen operand.kind) (given_seen operand.given) operand.null (links_tree links.now.items)) }
    ensures kind { kind_seen result ≡ kind_of_chain env.now (kind_seen left.entry.kind) (links_tree links.now.items) }
{
    let mut kind = left.kind;
    let mut given = left.given;
    let mut null = left.null;
    for link in links {
        let right = expr_refusals(env, &link.operand, first);
        let fit = may_stand_by(
            link.op,
            given,
            null,
            given_as(env, &link.operand, right),
            is_null(&link.operand),
        );
        first.unless(fit, place, CLASH);
        kind = kind_of_binary(link.op, kind, right);
        given = Given::OfKind(kind);
        null = false;
    }
    kind
}

/// What is refused in arguments.
#[cycle(refusals)]
#[tactic(auto, using(c_types_names::proofs::FirstRefusals::more_refusals))]
fn args_refusals<'a>(env: &Env<'a>, args: &'a Vec<Expr>, first: &mut FirstRefusal)
    ensures { first.new ≡ with_refusals first.old (args_refusals env.now (args_tree args.now.items)) }
{
    for arg in args {
        expr_refusals(env, arg, first);
    }
}

/// The type of a call, and what is refused in it where one may stand.
#[tactic(auto, using(c_types_names::proofs::FirstRefusals::more_refusals))]
pub fn call_refusals<'a>(
    env: &Env<'a>,
    callee: &Ident,
    args: &'a Vec<Expr>,
    first: &mut FirstRefusal,
) -> Kind<'a>
    ensures refusals { first.new ≡ with_refusals first.old (call_refusals env.now (ident_tree callee.now) (args_tree args.now.items)) }
    ensures kind { kind_seen result
        ≡ kind_of_call env.now.tables (procedure_in env.now.tables.procedures callee.now.text) }
{
    args_refusals(env, args, first);
    callee_refusals(env, callee, args.as_slice(), first)
}

/// The type of an expression that may be a call or `malloc` as a whole, and what is refused in it.
pub fn whole_refusals<'a>(env: &Env<'a>, expr: &'a Expr, first: &mut FirstRefusal) -> Kind<'a>
    ensures refusals { first.new ≡ with_refusals first.old (whole_refusals env.now (expr_tree expr.now)) }
    ensures kind { kind_seen result ≡ kind_of env.now (expr_tree expr.now) }
{
    match expr {
        Expr::Chain(_, _) => expr_refusals(env, expr, first),
        Expr::Prefix(_, _, _) => expr_refusals(env, expr, first),
        Expr::Members(_, _) => expr_refusals(env, expr, first),
        Expr::Variable(_) => expr_refusals(env, expr, first),
        Expr::Number(_, _) => expr_refusals(env, expr, first),
        Expr::Null(_) => expr_refusals(env, expr, first),
        Expr::Paren(_, inner) => whole_refusals(env, inner, first),
        Expr::Call(callee, args) => call_refusals(env, callee, args, first),
        Expr::Malloc(place, types) => {
            malloc_refusals(env, *place, &types.cast, &types.allocated, first);
            kind_of(env, expr)
        }
    }
}
