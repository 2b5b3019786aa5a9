//! Declarations of locals (C11 6.7, 6.7.9).
ghost use Rattle.std.specs.Prelude.{◌≡◌, option_map, length, OnOk, IfOk, IfSome};
ghost use Rattle.shape_data.specs.declared.program.Cmd.TheVariants as cmd;
ghost use Rattle.c_grammar.specs.FirstPlaces.{place_of_local};
ghost use Rattle.c_tree.specs.Syntax.{expr_tree, specifier_tree, initialized_tree, local_tree};
ghost use Rattle.c_types_names.specs.Seen.{type_seen};
ghost use Rattle.c_lower_rules.specs.Code.{command};
ghost use Rattle.c_lower_rules.specs.Statements as statements;
ghost use Rattle.c_lower_rules.specs.Numbers.{HasIntNumbers, InitializedHasIntNumbers, LocalHasIntNumbers};
ghost use Rattle.c_lower_emit.specs.declared.drafts.Label.TheVariants.{At};
ghost use Rattle.c_lower_emit.specs.Emitting.{EmitsCode};
ghost use Rattle.c_lower_exprs.specs.Contexts.{on_line, IsWithin};
ghost use Rattle.c_lower_stmts.specs.Simples.{EmitsPiece};
ghost use Rattle.c_lower_stmts.specs.Declaring.{Declares, DeclaresMore};
ghost use Rattle.c_lower_stmts.specs.Standing.{state};

use c_lower_emit::drafts::Label;
use c_lower_emit::output::Output;
use c_lower_emit::uses::Use;
use c_lower_exprs::context::Context;
use c_lower_exprs::site::Site;
use c_lower_exprs::values::lower;
use c_tree::places::place_of_specifier;
use c_tree::{Expr, Initialized, Local, Place, TypeSpecifier};
use c_types_names::kinds::{CType, known, type_of};
use c_types_names::objects::object_kind;
use shape_data::program::Cmd;
use std::alloc::AllocError;

/// The slot holds any value of the type.
fn any<'a>(
    site: &Site<'_, 'a>,
    to: u32,
    kind: CType<'a>,
    out: &mut Output<'a>,
) -> Result<(), AllocError>
    ensures { OnOk result
        (EmitsCode (command site.now.line (cmd.Any to (type_seen kind.entry))) out.old.temps (At (length out.old.nodes)) out.old out.new) }
{
    let any = Cmd::Any {
        to,
        ty: type_of(kind)?,
        next: 0,
    };
    out.push(site.line(), any, Label::Next, Label::Next)
}

/// What a local in the slot begins with.
fn initial<'a>(
    site: &Site<'_, 'a>,
    to: u32,
    kind: CType<'a>,
    value: &'a Option<Expr>,
    out: &mut Output<'a>,
) -> Result<(), AllocError>
    ensures { OnOk result (IfSome (option_map expr_tree value.now) HasIntNumbers
        → EmitsPiece (statements.initial site.now to (type_seen kind.entry) (option_map expr_tree value.now))
        site.now.first_temp out.old out.new) }
{
    match value {
        None => any(site, to, kind, out),
        Some(value) => {
            lower(site, value, Use::Into(to), out)?;
            Ok(())
        }
    }
}

/// A local, whose name means it in its own initializer already. Gives how many locals were declared then.
fn local<'a>(
    context: &mut Context<'a>,
    line: u32,
    locals: u32,
    specifier: &'a TypeSpecifier,
    one: &'a Initialized,
    out: &mut Output<'a>,
) -> Result<u32, AllocError>
    ensures within { OnOk result (IsWithin context.old context.new) }
    ensures declared { IfOk result (λ then. InitializedHasIntNumbers (initialized_tree one.now)
        → Declares (statements.local (specifier_tree specifier.now) (initialized_tree one.now)
        (state (on_line context.old line) locals out.old))
        context.old line locals context.new then out.old out.new) }
{
    let kind = object_kind(context.tables(), specifier, one.declarator.stars);
    let to = context.first_local().saturating_add(locals);
    context.add_local(&one.declarator.name.text, kind, to)?;
    initial(&Site::on(context, line), to, known(kind), &one.value, out)?;
    Ok(locals.saturating_add(1))
}

/// A local behind others, whose code begins at a place.
fn local_behind<'a>(
    context: &mut Context<'a>,
    line: u32,
    locals: u32,
    start: usize,
    specifier: &'a TypeSpecifier,
    one: &'a Initialized,
    out: &mut Output<'a>,
) -> Result<u32, AllocError>
    ensures within { OnOk result (IsWithin context.old context.new) }
    ensures declared { IfOk result (λ then. InitializedHasIntNumbers (initialized_tree one.now)
        → DeclaresMore (specifier_tree specifier.now) (initialized_tree one.now) start line
        context.old locals context.new then out.old out.new) }
{
    let past = out.len();
    let begin = Label::At(out.here());
    let locals = local(context, line, locals, specifier, one, out)?;
    out.lead_next(start, past, begin);
    Ok(locals)
}

/// A declaration, as code whose nodes have the line, where so many locals were declared before it. Gives how many there are then.
pub fn declaration<'a>(
    context: &mut Context<'a>,
    line: u32,
    locals: u32,
    one: &'a Local,
    out: &mut Output<'a>,
) -> Result<u32, AllocError>
    ensures within { OnOk result (IsWithin context.old context.new) }
    ensures declared { IfOk result (λ then. LocalHasIntNumbers (local_tree one.now)
        → Declares (statements.declaration (local_tree one.now) (state (on_line context.old line) locals out.old))
        context.old line locals context.new then out.old out.new) }
{
    let start = out.len();
    let Local {
        specifier,
        declarators,
    } = one;
    let mut count = local(context, line, locals, specifier, &declarators.first, out)?;
    for other in &declarators.others {
        count = local_behind(context, line, count, start, specifier, other, out)?;
    }
    Ok(count)
}

/// Where the declaration begins.
pub fn place_of_local(one: &Local) -> Place
    ensures { result ≡ place_of_local (local_tree one.now) }
{
    place_of_specifier(&one.specifier)
}
