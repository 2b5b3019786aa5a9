//! Declarations of local variables (C11 6.7.9), and what a `for` begins with.
ghost use Rattle.std.specs.Prelude.{◌≡◌, ◌∷◌, OnOk, map, option_map};
ghost use Rattle.c_types_rules.specs.Statements as rule;
ghost use Rattle.c_tree.specs.Syntax.{specifier_tree, expr_tree, initialized_tree, local_tree, init_tree};
ghost use Rattle.c_types_names.specs.Seen.{kind_seen};
ghost use Rattle.c_types_stmts.specs.Adding.{Adds};

use crate::finding::Finding;
use crate::simples::{simple, whole};
use c_tree::places::place_of_specifier;
use c_tree::{Expr, ForInit, Initialized, Local, Place, TypeSpecifier};
use c_types_exprs::value_types::fits_as;
use c_types_names::codes::{CLASH, LEFT_OUT, SECOND};
use c_types_names::env::Env;
use c_types_names::hiding::{is_hidden, specifier_refusals_in};
use c_types_names::kinds::Kind;
use c_types_names::objects::{may_be_object, object_kind};
use std::alloc::AllocError;

/// The value that a local of this type begins with, where its variable stands already.
fn initializer<'a>(
    env: &Env<'a>,
    place: Place,
    wanted: Kind<'a>,
    value: &'a Option<Expr>,
    found: &mut Finding<'a>,
) -> Result<(), AllocError>
    ensures { OnOk result (Adds (rule.initializer env.now place (kind_seen wanted.entry) (option_map expr_tree value.now))
        found.old found.new) }
{
    match value {
        None => Ok(()),
        Some(value) => {
            let kind = whole(env, value, found)?;
            found.unless(fits_as(env, wanted, value, kind), place, CLASH);
            Ok(())
        }
    }
}

/// A local.
fn local<'a>(
    env: &mut Env<'a>,
    specifier: &'a TypeSpecifier,
    one: &'a Initialized,
    found: &mut Finding<'a>,
) -> Result<(), AllocError>
    ensures found { OnOk result (Adds (rule.local env.old (specifier_tree specifier.now) (initialized_tree one.now)) found.old found.new) }
    ensures env { OnOk result (env.new ≡ rule.behind_local env.old (specifier_tree specifier.now) (initialized_tree one.now)) }
{
    let place = place_of_specifier(specifier);
    let stars = one.declarator.stars;
    let name = &one.declarator.name;
    found.unless(may_be_object(specifier, stars), place, LEFT_OUT);
    let stands = env.stands_here(&name.text);
    found.unless(!stands, name.place, SECOND);
    let kind = object_kind(env.tables(), specifier, stars);
    env.add(&name.text, kind)?;
    initializer(env, place, kind, &one.value, found)
}

/// The locals of a declaration whose specifier is a type.
fn checked_locals<'a>(
    env: &mut Env<'a>,
    one: &'a Local,
    found: &mut Finding<'a>,
) -> Result<(), AllocError>
    ensures found { let l = local_tree one.now in
        OnOk result (Adds (rule.locals env.old l.specifier (l.first ∷ l.others)) found.old found.new) }
    ensures env { OnOk result (env.new ≡ rule.behind_declaration env.old (local_tree one.now)) }
{
    for declarator in one.declarators.iter() {
        local(env, &one.specifier, declarator, found)?;
    }
    Ok(())
}

/// The variable of a local, of which nothing is looked at.
fn add_local<'a>(
    env: &mut Env<'a>,
    specifier: &'a TypeSpecifier,
    one: &'a Initialized,
) -> Result<(), AllocError>
    ensures { OnOk result (env.new ≡ rule.behind_local env.old (specifier_tree specifier.now) (initialized_tree one.now)) }
{
    let kind = object_kind(env.tables(), specifier, one.declarator.stars);
    env.add(&one.declarator.name.text, kind)
}

/// The variables of a declaration whose specifier is no type.
fn unchecked_locals<'a>(env: &mut Env<'a>, one: &'a Local) -> Result<(), AllocError>
    ensures { OnOk result (env.new ≡ rule.behind_declaration env.old (local_tree one.now)) }
{
    for declarator in one.declarators.iter() {
        add_local(env, &one.specifier, declarator)?;
    }
    Ok(())
}

/// A declaration.
pub fn declaration<'a>(
    env: &mut Env<'a>,
    one: &'a Local,
    found: &mut Finding<'a>,
) -> Result<(), AllocError>
    ensures found { OnOk result (Adds (rule.declaration env.old (local_tree one.now)) found.old found.new) }
    ensures env { OnOk result (env.new ≡ rule.behind_declaration env.old (local_tree one.now)) }
{
    let hidden = is_hidden(env, &one.specifier);
    specifier_refusals_in(env, &one.specifier, &mut found.first);
    if hidden {
        unchecked_locals(env, one)
    } else {
        checked_locals(env, one, found)
    }
}

/// What a `for` begins with.
pub fn init<'a>(
    env: &mut Env<'a>,
    one: &'a ForInit,
    found: &mut Finding<'a>,
) -> Result<(), AllocError>
    ensures found { OnOk result (Adds (rule.init env.old (init_tree one.now)) found.old found.new) }
    ensures env { OnOk result (env.new ≡ rule.behind_init env.old (init_tree one.now)) }
{
    match one {
        ForInit::Empty => Ok(()),
        ForInit::Local(one) => declaration(env, one, found),
        ForInit::Simple(one) => simple(env, one, found),
    }
}
