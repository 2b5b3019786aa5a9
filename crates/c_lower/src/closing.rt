//! What closes a body (C11 6.9.1): nothing is returned, or any value of the result's type.
ghost use Rattle.std.specs.Prelude.{◌≡◌, ℕ, IfOk, OnOk, length};
ghost use Rattle.c_lower_rules.specs.Contexts.{at_place};
ghost use Rattle.c_lower_rules.specs.Temporaries.{take_temp, released};
ghost use Rattle.c_lower_rules.specs.Numbers.{StmtsHaveIntNumbers};
ghost use Rattle.c_tree.specs.Syntax.{block_tree};
ghost use Rattle.c_types_names.specs.Seen.{type_seen};
ghost use Rattle.c_lower_emit.specs.declared.drafts.Label.TheVariants.{At};
ghost use Rattle.c_lower_emit.specs.Emitting.{HasRoom, EmitsCode};
ghost use Rattle.c_lower_exprs.specs.Contexts.{on_line};
ghost use Rattle.c_lower_stmts.specs.Standing.{HasSlots};
ghost use Rattle.c_lower.specs.Closing.{value_closing, closing, closed_body, Closes};

use c_lower_emit::drafts::{AS_THEY_ARE, Label, Ways};
use c_lower_emit::output::Output;
use c_lower_emit::uses::Use;
use c_lower_exprs::context::Context;
use c_lower_exprs::site::Site;
use c_lower_stmts::stmts::stmts;
use c_tree::{Block, Place};
use c_types_names::kinds::{CType, type_of};
use shape_data::program::{Cmd, Operand};
use std::alloc::AllocError;

/// Any value of the type is returned.
fn close_with_value<'a>(
    site: &Site<'_, 'a>,
    kind: CType<'a>,
    out: &mut Output<'a>,
) -> Result<(), AllocError>
    ensures { OnOk result (HasRoom site.now.first_temp 1 out.old
        → EmitsCode (value_closing site.now (type_seen kind.entry) (take_temp (type_seen kind.entry) out.old.temps)).code
        (take_temp (type_seen kind.entry) out.old.temps).temps (At (length out.old.nodes)) out.old out.new) }
{
    let any = Cmd::Any {
        to: 0,
        ty: type_of(kind)?,
        next: 0,
    };
    let value = out.make(site.spot(), kind, any, Use::Value)?;
    out.push(site.line(), Cmd::Return { value }, Label::Next, Label::Next)
}

/// What closes a body, at the place of its `}`.
fn close<'a>(context: &Context<'a>, place: Place, out: &mut Output<'a>) -> Result<(), AllocError>
    ensures { let closed = closing context.now.result (at_place context.now place) (released out.old.temps) in
        OnOk result (HasRoom context.now.first_temp closed.code.size out.old
        → EmitsCode closed.code closed.temps (At (length out.old.nodes)) (record out.old { temps = released out.old.temps }) out.new) }
{
    out.release();
    let site = Site::at(context, place);
    match context.result() {
        CType::Void => {
            let nothing = Cmd::Return {
                value: Operand::Num(0),
            };
            out.push(site.line(), nothing, Label::Next, Label::Next)
        }
        kind => close_with_value(&site, kind, out),
    }
}

/// A body and what closes it; where a run of it begins.
pub fn closed_body<'a>(
    context: &mut Context<'a>,
    body: &'a Block,
    out: &mut Output<'a>,
) -> Result<Label, AllocError>
    requires { StmtsHaveIntNumbers (block_tree body.now).body }
    ensures tables { IfOk result (λ _. context.new.env.tables ≡ context.old.env.tables) }
    ensures code { IfOk result (λ begin. (line : ℕ)
        → (let l = closed_body (on_line context.old line) (block_tree body.now) out.old in
        HasRoom context.old.first_temp l.code.size out.old → HasSlots context.old 0 l.code.size → Closes l begin out.old out.new)) }
{
    let from = out.len();
    let laid = stmts(context, 0, &body.stmts, out)?;
    let past = out.len();
    let end = Label::At(out.here());
    close(context, body.close, out)?;
    out.lead_next(from, past, end);
    let ways = Ways {
        next: end,
        ..AS_THEY_ARE
    };
    Ok(laid.begin.redirect(ways))
}
