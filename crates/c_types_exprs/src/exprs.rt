//! Which type an expression has. The calls nest as deep as the expression does.
ghost use Rattle.std.specs.Prelude.{◌≡◌, map};
ghost use Rattle.c_types_rules.specs.Tables.{procedure_in};
ghost use Rattle.c_types_rules.specs.Scopes.{variable};
ghost use Rattle.c_types_rules.specs.Expressions.{
  kind_of_variable,
  kind_of_call,
  kind_of_member,
  kind_of_members,
  int_of,
  kind_of_binary,
  kind_of_prefix,
  kind_of,
  kind_of_chain,
  is_null,
};
ghost use Rattle.c_grammar.specs.Trees.{BinaryOp as BinaryOpTree};
ghost use Rattle.c_tree.specs.NonEmpty.{items};
ghost use Rattle.c_tree.specs.Syntax.{ident_tree, binary_tree, prefix_tree, expr_tree, links_tree};
ghost use Rattle.c_types_names.specs.Seen.{kind_seen};

use c_tree::{BinaryOp, Expr, Ident, Link, Name, NonEmpty, PrefixOp};
use c_types_names::env::Env;
use c_types_names::kinds::{CType, Kind};
use c_types_names::objects::{field_of, kind_of_result, pointer_of};
use c_types_names::tables::Tables;

/// The type of the variable of the name.
pub fn kind_of_variable<'a>(env: &Env<'a>, name: &Name) -> Kind<'a>
    ensures { kind_seen result ≡ kind_of_variable (variable env.now name.now) }
{
    match env.variable(name) {
        None => None,
        Some(found) => found.kind,
    }
}

/// The type of a call of the procedure of the name.
#[tactic(auto, unfolding(c_types_names::specs::Seen::procedure_seen))]
pub fn kind_of_call<'a>(tables: &Tables<'a>, name: &Name) -> Kind<'a>
    ensures { kind_seen result ≡ kind_of_call tables.now (procedure_in tables.now.procedures name.now) }
{
    match tables.procedure(name) {
        None => None,
        Some(found) => kind_of_result(tables, found.head),
    }
}

/// The type of a field of what a pointer points to.
#[tactic(auto, unfolding(c_types_names::specs::Seen::field_seen))]
pub(crate) fn kind_of_member<'a>(tables: &Tables<'a>, kind: Kind<'a>, field: &Ident) -> Kind<'a>
    ensures { kind_seen result ≡ kind_of_member tables.now (kind_seen kind.entry) (ident_tree field.now) }
{
    match kind {
        Some(CType::Pointer(tag)) => match field_of(tables, tag, &field.text) {
            None => None,
            Some(found) => found.kind,
        },
        _ => None,
    }
}

/// The type behind one `->` after another.
fn kind_of_members<'a>(tables: &Tables<'a>, kind: Kind<'a>, fields: &NonEmpty<Ident>) -> Kind<'a>
    ensures { kind_seen result ≡ kind_of_members tables.now (kind_seen kind.entry) (map ident_tree (items fields.now)) }
{
    let mut current = kind;
    for field in fields.iter() {
        current = kind_of_member(tables, current, field);
    }
    current
}

/// An int, where an operand is known to be one.
fn int_of<'a>(kind: Kind<'a>) -> Kind<'a>
    ensures { kind_seen result ≡ int_of (kind_seen kind.entry) }
{
    match kind {
        Some(CType::Int) => Some(CType::Int),
        _ => None,
    }
}

/// What `+`, `-` and `*` give.
fn int_of_two<'a>(left: Kind<'a>, right: Kind<'a>) -> Kind<'a>
    ensures { kind_seen result ≡ kind_of_binary BinaryOpTree.Add (kind_seen left.entry) (kind_seen right.entry) }
{
    match int_of(left) {
        None => None,
        Some(_) => int_of(right),
    }
}

/// What an operator gives.
pub(crate) fn kind_of_binary<'a>(op: BinaryOp, left: Kind<'a>, right: Kind<'a>) -> Kind<'a>
    ensures { kind_seen result ≡ kind_of_binary (binary_tree op) (kind_seen left.entry) (kind_seen right.entry) }
{
    match op {
        BinaryOp::Add => int_of_two(left, right),
        BinaryOp::Subtract => int_of_two(left, right),
        BinaryOp::Multiply => int_of_two(left, right),
        _ => Some(CType::Int),
    }
}

/// What a prefix operator gives.
pub(crate) fn kind_of_prefix<'a>(op: PrefixOp, kind: Kind<'a>) -> Kind<'a>
    ensures { kind_seen result ≡ kind_of_prefix (prefix_tree op) (kind_seen kind.entry) }
{
    match op {
        PrefixOp::Negate => int_of(kind),
        PrefixOp::Not => Some(CType::Int),
    }
}

/// The type of an expression.
#[cycle(kinds)]
pub fn kind_of<'a>(env: &Env<'a>, expr: &'a Expr) -> Kind<'a>
    ensures { kind_seen result ≡ kind_of env.now (expr_tree expr.now) }
{
    match expr {
        Expr::Chain(first, others) => kind_of_chain(env, kind_of(env, first), others),
        Expr::Prefix(_, op, inner) => kind_of_prefix(*op, kind_of(env, inner)),
        Expr::Members(base, fields) => { kind_of_members(env.tables(), kind_of(env, base), fields) }
        Expr::Variable(name) => kind_of_variable(env, &name.text),
        Expr::Number(_, _) => Some(CType::Int),
        Expr::Null(_) => Some(CType::Int),
        Expr::Paren(_, inner) => kind_of(env, inner),
        Expr::Call(callee, _) => kind_of_call(env.tables(), &callee.text),
        Expr::Malloc(_, types) => pointer_of(env.tables(), &types.allocated),
    }
}

/// The type of operands with more operators and operands behind them.
#[cycle(kinds)]
fn kind_of_chain<'a>(env: &Env<'a>, kind: Kind<'a>, links: &'a Vec<Link>) -> Kind<'a>
    ensures { kind_seen result ≡ kind_of_chain env.now (kind_seen kind.entry) (links_tree links.now.items) }
{
    let mut current = kind;
    for link in links {
        current = kind_of_binary(link.op, current, kind_of(env, &link.operand));
    }
    current
}

/// Whether the expression is `NULL` or the number 0, parentheses aside.
pub fn is_null(expr: &Expr) -> bool
    ensures { result ≡ is_null (expr_tree expr.now) }
{
    match expr {
        Expr::Chain(_, _) => false,
        Expr::Prefix(_, _, _) => false,
        Expr::Members(_, _) => false,
        Expr::Variable(_) => false,
        Expr::Number(_, value) => *value == 0,
        Expr::Null(_) => true,
        Expr::Paren(_, inner) => is_null(inner),
        Expr::Call(_, _) => false,
        Expr::Malloc(_, _) => false,
    }
}
