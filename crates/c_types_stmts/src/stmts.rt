//! Statements (C11 6.8). The calls nest as deep as the blocks, branches and loops do.
ghost use Rattle.std.specs.Prelude.{◌≡◌, ◌&&◌, Bool, not, OnOk, option_map};
ghost use Rattle.c_types_rules.specs.Statements as rule;
ghost use Rattle.c_types_rules.specs.Expressions.{kind_of, fits};
ghost use Rattle.c_types_rules.specs.Scopes.{entered};
ghost use Rattle.c_grammar.specs.Trees.{Stmt as StmtTree};
ghost use Rattle.c_grammar.specs.declared.tokens.places.Place.{Place as PlaceTree};
ghost use Rattle.c_tree.specs.Syntax.{expr_tree, init_tree, for_step_tree, stmt_tree, stmts_tree, block_tree};
ghost use Rattle.c_types_names.specs.Seen.{kind_seen};
ghost use Rattle.c_types_stmts.specs.Adding.{Adds};
ghost use Rattle.c_types_stmts.specs.Behind.{behind_stmts};

use crate::finding::Finding;
use crate::locals::{declaration, init};
use crate::simples::{plain, simple, whole};
use c_tree::places::place_of_expr;
use c_tree::{Block, Expr, ForInit, Place, Simple, Stmt};
use c_types_exprs::value_types::{fits_as, given_as, gives_scalar};
use c_types_names::codes::{CLASH, LEFT_OUT};
use c_types_names::env::Env;
use c_types_names::kinds::{CType, Kind};
use std::alloc::AllocError;

/// A condition.
fn condition<'a>(env: &Env<'a>, expr: &'a Expr, found: &mut Finding<'a>) -> Result<(), AllocError>
    ensures { OnOk result (Adds (rule.test env.now (expr_tree expr.now)) found.old found.new) }
{
    let kind = plain(env, expr, found)?;
    let given = given_as(env, expr, kind);
    found.unless(gives_scalar(given), place_of_expr(expr), CLASH);
    Ok(())
}

/// A condition, if there is one.
fn maybe_condition<'a>(
    env: &Env<'a>,
    expr: &'a Option<Expr>,
    found: &mut Finding<'a>,
) -> Result<(), AllocError>
    ensures { OnOk result (Adds (rule.maybe_test env.now (option_map expr_tree expr.now)) found.old found.new) }
{
    match expr {
        None => Ok(()),
        Some(expr) => condition(env, expr, found),
    }
}

/// A simple statement, if there is one.
fn maybe_simple<'a>(
    env: &Env<'a>,
    one: &'a Option<Box<Simple>>,
    found: &mut Finding<'a>,
) -> Result<(), AllocError>
    ensures { OnOk result (Adds (rule.maybe_simple env.now (option_map for_step_tree one.now)) found.old found.new) }
{
    match one {
        None => Ok(()),
        Some(one) => simple(env, one, found),
    }
}

/// Whether the type is void.
fn is_void(kind: Kind) -> bool
    ensures { result ≡ rule.is_void (kind_seen kind.entry) }
{
    match kind {
        None => false,
        Some(CType::Int) => false,
        Some(CType::Pointer(_)) => false,
        Some(CType::Void) => true,
    }
}

/// Whether the type is void, or not known.
fn may_be_void(kind: Kind) -> bool
    ensures { result ≡ rule.may_be_void (kind_seen kind.entry) }
{
    match kind {
        None => true,
        Some(CType::Int) => false,
        Some(CType::Pointer(_)) => false,
        Some(CType::Void) => true,
    }
}

/// Whether a procedure with the result may return the value, which has the type.
fn may_return<'a>(env: &Env<'a>, answer: Kind<'a>, value: &'a Expr, kind: Kind<'a>) -> bool
    requires is_its_kind { kind_seen kind ≡ kind_of env.now (expr_tree value.now) }
    ensures { result ≡ (not (rule.is_void (kind_seen answer.entry)) && fits env.now (kind_seen answer.entry) (expr_tree value.now)) }
{
    !is_void(answer) && fits_as(env, answer, value, kind)
}

/// A `return`.
fn returned<'a>(
    env: &Env<'a>,
    answer: Kind<'a>,
    place: Place,
    value: &'a Option<Expr>,
    found: &mut Finding<'a>,
) -> Result<(), AllocError>
    ensures { OnOk result (Adds (rule.returned env.now (kind_seen answer.entry) place (option_map expr_tree value.now))
        found.old found.new) }
{
    match value {
        None => {
            found.unless(may_be_void(answer), place, CLASH);
            Ok(())
        }
        Some(value) => {
            let kind = whole(env, value, found)?;
            let may = may_return(env, answer, value, kind);
            found.unless(may, place, CLASH);
            Ok(())
        }
    }
}

/// A `for`, which has a scope of its own (C11 6.8.5.3).
#[cycle(stmts)]
fn for_loop<'a>(
    env: &mut Env<'a>,
    answer: Kind<'a>,
    first: &'a ForInit,
    test: &'a Option<Expr>,
    step: &'a Option<Box<Simple>>,
    body: &'a Box<Stmt>,
    found: &mut Finding<'a>,
) -> Result<(), AllocError>
    ensures found { (loops : Bool) (place : PlaceTree) → OnOk result (Adds (rule.stmt env.old (kind_seen answer.entry) loops
        (StmtTree.For place (init_tree first.now) (option_map expr_tree test.now) (option_map for_step_tree step.now)
        (stmt_tree body.now.value))) found.old found.new) }
    ensures env { OnOk result (env.new ≡ env.old) }
{
    let begin = env.enter();
    init(env, first, found)?;
    maybe_condition(env, test, found)?;
    maybe_simple(env, step, found)?;
    nested(env, answer, true, body, found)?;
    env.leave(begin);
    Ok(())
}

/// A statement of a procedure with this result, in a loop or not.
#[cycle(stmts)]
fn stmt<'a>(
    env: &mut Env<'a>,
    answer: Kind<'a>,
    loops: bool,
    one: &'a Stmt,
    found: &mut Finding<'a>,
) -> Result<(), AllocError>
    ensures found { OnOk result (Adds (rule.stmt env.old (kind_seen answer.entry) loops (stmt_tree one.now)) found.old found.new) }
    ensures env { OnOk result (env.new ≡ rule.behind_stmt env.old (stmt_tree one.now)) }
{
    match one {
        Stmt::Block(inner) => block(env, answer, loops, inner, found),
        Stmt::Empty(_) => Ok(()),
        Stmt::Local(one) => declaration(env, one, found),
        Stmt::Simple(one) => simple(env, one, found),
        Stmt::If {
            test,
            body,
            other,
            ..
        } => {
            condition(env, test, found)?;
            nested(env, answer, loops, body, found)?;
            match other {
                None => Ok(()),
                Some(other) => nested(env, answer, loops, other, found),
            }
        }
        Stmt::While { test, body, .. } => {
            condition(env, test, found)?;
            nested(env, answer, true, body, found)
        }
        Stmt::DoWhile { body, test, .. } => {
            nested(env, answer, true, body, found)?;
            condition(env, test, found)
        }
        Stmt::For {
            init: first,
            test,
            step,
            body,
            ..
        } => for_loop(env, answer, first, test, step, body, found),
        Stmt::Break(place) | Stmt::Continue(place) => {
            found.unless(loops, *place, LEFT_OUT);
            Ok(())
        }
        Stmt::Return(place, value) => returned(env, answer, *place, value, found),
    }
}

/// A statement in a scope of its own.
#[cycle(stmts)]
fn nested<'a>(
    env: &mut Env<'a>,
    answer: Kind<'a>,
    loops: bool,
    body: &'a Box<Stmt>,
    found: &mut Finding<'a>,
) -> Result<(), AllocError>
    ensures found { OnOk result (Adds (rule.stmt (entered env.old) (kind_seen answer.entry) loops (stmt_tree body.now.value))
        found.old found.new) }
    ensures env { OnOk result (env.new ≡ env.old) }
{
    let begin = env.enter();
    stmt(env, answer, loops, body, found)?;
    env.leave(begin);
    Ok(())
}

/// The statements of a block, in a scope of its own.
#[cycle(stmts)]
fn block<'a>(
    env: &mut Env<'a>,
    answer: Kind<'a>,
    loops: bool,
    body: &'a Block,
    found: &mut Finding<'a>,
) -> Result<(), AllocError>
    ensures found { OnOk result (Adds (rule.stmts (entered env.old) (kind_seen answer.entry) loops (block_tree body.now).body)
        found.old found.new) }
    ensures env { OnOk result (env.new ≡ env.old) }
{
    let begin = env.enter();
    stmts(env, answer, loops, &body.stmts, found)?;
    env.leave(begin);
    Ok(())
}

/// Statements, one behind another.
#[cycle(stmts)]
pub fn stmts<'a>(
    env: &mut Env<'a>,
    answer: Kind<'a>,
    loops: bool,
    ones: &'a Vec<Stmt>,
    found: &mut Finding<'a>,
) -> Result<(), AllocError>
    ensures found { OnOk result (Adds (rule.stmts env.old (kind_seen answer.entry) loops (stmts_tree ones.now.items)) found.old found.new) }
    ensures env { OnOk result (env.new ≡ behind_stmts env.old (stmts_tree ones.now.items)) }
{
    for one in ones {
        stmt(env, answer, loops, one, found)?;
    }
    Ok(())
}
