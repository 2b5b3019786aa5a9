//! The types of all expressions, in the order of the text, listed where a caller asks for it (`c_types::kinds_of`); `check` lists none.
//! Each type is found anew for the list.
ghost use Rattle.std.specs.Prelude.{◌≡◌, ◌∷◌, ◌++◌, [], OnOk, map};
ghost use Rattle.c_types_rules.specs.Expressions.{kind_of_call};
ghost use Rattle.c_types_rules.specs.Kinds.{link_kinds, member_kinds, first_kinds, later_kinds, operand_kinds, arg_kinds, kinds};
ghost use Rattle.c_types_rules.specs.Tables.{procedure_in};
ghost use Rattle.c_tree.specs.NonEmpty.{items};
ghost use Rattle.c_tree.specs.Syntax.{ident_tree, expr_tree, links_tree, args_tree};
ghost use Rattle.c_types_names.specs.Seen.{kind_seen};
ghost use Rattle.c_types_exprs.specs.Listing.{with_kinds};

use crate::exprs::{kind_of, kind_of_binary, kind_of_call, kind_of_member};
use c_tree::{Expr, Ident, Link, NonEmpty};
use c_types_names::env::Env;
use c_types_names::kinds::Kind;
use c_types_names::tables::Tables;
use std::alloc::{AllocError, Global};
use std::marker::Model;

/// The types that were found so far.
#[derive(Drop)]
pub struct Kinds<'a> {
    found: Vec<Kind<'a>>,
}

impl<'a> Model for Kinds<'a> {
    ghost use Rattle.std.specs.Prelude.{List, map};
    ghost use Rattle.c_types_rules.specs.Types.{Kind};
    ghost use Rattle.c_types_names.specs.Seen.{kind_seen};

    ghost Value = { List Kind };

    ghost view = { λ k. map kind_seen k.found.items };
}

impl<'a> Kinds<'a> {
    /// No types.
    pub fn new(alloc: Global) -> Kinds<'a>
        ensures { result ≡ [] }
    {
        Kinds {
            found: Vec::new(alloc),
        }
    }

    /// One type more.
    fn push(&mut self, kind: Kind<'a>) -> Result<(), AllocError>
        ensures { OnOk result (self.new ≡ self.old ++ kind_seen kind.entry ∷ []) }
    {
        self.found.push(kind)?;
        Ok(())
    }

    /// The types, in order.
    pub fn as_slice(&self) -> &[Kind<'a>]
        ensures { map kind_seen result.now ≡ self.now }
    {
        self.found.as_slice()
    }
}

/// The type behind each `->`.
#[tactic(auto, using(crate::proofs::Appending::appending))]
fn push_members<'a>(
    tables: &Tables<'a>,
    kind: Kind<'a>,
    fields: &NonEmpty<Ident>,
    list: &mut Kinds<'a>,
) -> Result<(), AllocError>
    ensures { OnOk result (list.new
        ≡ list.old ++ member_kinds tables.now (kind_seen kind.entry) (map ident_tree (items fields.now))) }
{
    let mut current = kind;
    for field in fields.iter() {
        current = kind_of_member(tables, current, field);
        list.push(current)?;
    }
    Ok(())
}

/// The type behind each operand of a chain but the first.
#[tactic(auto, using(crate::proofs::Appending::appending))]
fn push_links<'a>(
    env: &Env<'a>,
    kind: Kind<'a>,
    links: &'a Vec<Link>,
    list: &mut Kinds<'a>,
) -> Result<(), AllocError>
    ensures { OnOk result (list.new ≡ list.old ++ link_kinds env.now (kind_seen kind.entry) (links_tree links.now.items)) }
{
    let mut current = kind;
    for link in links {
        current = kind_of_binary(link.op, current, kind_of(env, &link.operand));
        list.push(current)?;
    }
    Ok(())
}

/// The types of the expressions that begin at the first token.
#[tactic(auto, using(crate::proofs::Appending::appending))]
fn push_first<'a>(env: &Env<'a>, expr: &'a Expr, list: &mut Kinds<'a>) -> Result<(), AllocError>
    ensures { OnOk result (list.new ≡ list.old ++ first_kinds env.now (expr_tree expr.now)) }
{
    match expr {
        Expr::Chain(operand, others) => {
            push_first(env, operand, list)?;
            push_links(env, kind_of(env, operand), others, list)
        }
        Expr::Members(base, fields) => {
            push_first(env, base, list)?;
            push_members(env.tables(), kind_of(env, base), fields, list)
        }
        Expr::Prefix(_, _, _) => list.push(kind_of(env, expr)),
        Expr::Variable(_) => list.push(kind_of(env, expr)),
        Expr::Number(_, _) => list.push(kind_of(env, expr)),
        Expr::Null(_) => list.push(kind_of(env, expr)),
        Expr::Paren(_, _) => list.push(kind_of(env, expr)),
        Expr::Call(_, _) => list.push(kind_of(env, expr)),
        Expr::Malloc(_, _) => list.push(kind_of(env, expr)),
    }
}

/// The types of the expressions that begin behind the first token.
#[cycle(later)]
#[tactic(auto, using(crate::proofs::Appending::appending))]
fn push_later<'a>(env: &Env<'a>, expr: &'a Expr, list: &mut Kinds<'a>) -> Result<(), AllocError>
    ensures { OnOk result (list.new ≡ list.old ++ later_kinds env.now (expr_tree expr.now)) }
{
    match expr {
        Expr::Chain(operand, others) => {
            push_later(env, operand, list)?;
            push_operands(env, others, list)
        }
        Expr::Prefix(_, _, inner) => {
            push_first(env, inner, list)?;
            push_later(env, inner, list)
        }
        Expr::Members(base, _) => push_later(env, base, list),
        Expr::Variable(_) => Ok(()),
        Expr::Number(_, _) => Ok(()),
        Expr::Null(_) => Ok(()),
        Expr::Paren(_, inner) => {
            push_first(env, inner, list)?;
            push_later(env, inner, list)
        }
        Expr::Call(_, args) => push_args(env, args, list),
        Expr::Malloc(_, _) => Ok(()),
    }
}

/// The types of the expressions in the other operands of a chain.
#[cycle(later)]
#[tactic(auto, using(crate::proofs::Appending::appending))]
fn push_operands<'a>(
    env: &Env<'a>,
    links: &'a Vec<Link>,
    list: &mut Kinds<'a>,
) -> Result<(), AllocError>
    ensures { OnOk result (list.new ≡ list.old ++ operand_kinds env.now (links_tree links.now.items)) }
{
    for link in links {
        push_first(env, &link.operand, list)?;
        push_later(env, &link.operand, list)?;
    }
    Ok(())
}

/// The types of the expressions in arguments.
#[cycle(later)]
#[tactic(auto, using(crate::proofs::Appending::appending))]
fn push_args<'a>(env: &Env<'a>, args: &'a Vec<Expr>, list: &mut Kinds<'a>) -> Result<(), AllocError>
    ensures { OnOk result (list.new ≡ list.old ++ arg_kinds env.now (args_tree args.now.items)) }
{
    for arg in args {
        push_first(env, arg, list)?;
        push_later(env, arg, list)?;
    }
    Ok(())
}

/// The types of all expressions in the expression.
#[tactic(auto, using(crate::proofs::Appending::appending))]
fn push_all<'a>(env: &Env<'a>, expr: &'a Expr, list: &mut Kinds<'a>) -> Result<(), AllocError>
    ensures { OnOk result (list.new ≡ list.old ++ kinds env.now (expr_tree expr.now)) }
{
    push_first(env, expr, list)?;
    push_later(env, expr, list)
}

/// The types of all expressions in the expression, where they are wanted.
pub fn list_kinds<'a>(
    env: &Env<'a>,
    expr: &'a Expr,
    listed: &mut Option<Kinds<'a>>,
) -> Result<(), AllocError>
    ensures { OnOk result (listed.new ≡ with_kinds listed.old (kinds env.now (expr_tree expr.now))) }
{
    match listed {
        None => Ok(()),
        Some(list) => push_all(env, expr, list),
    }
}

/// The type of a call that is a statement, and those of all expressions in its arguments, where they are wanted.
pub fn list_call_kinds<'a>(
    env: &Env<'a>,
    callee: &'a Ident,
    args: &'a Vec<Expr>,
    listed: &mut Option<Kinds<'a>>,
) -> Result<(), AllocError>
    ensures { let call = kind_of_call env.now.tables (procedure_in env.now.tables.procedures (ident_tree callee.now).text) in
        OnOk result (listed.new ≡ with_kinds listed.old (call ∷ arg_kinds env.now (args_tree args.now.items))) }
{
    match listed {
        None => Ok(()),
        Some(list) => {
            list.push(kind_of_call(env.tables(), &callee.text))?;
            push_args(env, args, list)
        }
    }
}
