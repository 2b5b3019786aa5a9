//! Commands that give no value: stores, calls and frees; and 0 put into a temporary.
ghost use Rattle.std.specs.Prelude.{◌+◌, length, OnOk, None, pos};
ghost use Rattle.shape_data.specs.declared.program.Cmd.TheVariants as cmd;
ghost use Rattle.shape_data.specs.declared.program.Operand.TheVariants.{Num};
ghost use Rattle.shape_data.specs.declared.program.Ty.TheVariants.{Int};
ghost use Rattle.c_tree.specs.Syntax.{ident_tree};
ghost use Rattle.c_types_names.specs.Seen.{type_seen};
ghost use Rattle.c_lower_rules.specs.Code.{command};
ghost use Rattle.c_lower_rules.specs.Temporaries.{take_temp};
ghost use Rattle.c_lower_rules.specs.Contexts.{tag_of};
ghost use Rattle.c_lower_rules.specs.Expressions.{slot_read, field_behind};
ghost use Rattle.c_lower_emit.specs.declared.drafts.Label.TheVariants.{At};
ghost use Rattle.c_lower_emit.specs.Emitting.{HasRoom, EmitsCode};

use c_lower_emit::drafts::Label;
use c_lower_emit::output::Output;
use c_lower_exprs::members::{Field, Found, field_behind, slot_read, tag_of};
use c_lower_exprs::site::Site;
use c_tree::Ident;
use c_types_names::kinds::CType;
use shape_data::program::{Cmd, Operand};
use shape_data::{Row, copy_of};
use std::alloc::AllocError;

/// Puts the operand into a field of what a value points to.
pub fn store<'a>(
    site: &Site<'_, 'a>,
    base: Found<'a>,
    name: &Ident,
    from: Operand,
    out: &mut Output<'a>,
) -> Result<(), AllocError>
    ensures { OnOk result (EmitsCode (command site.now.line
        (cmd.Store (slot_read base.entry.operand) (field_behind site.now (type_seen base.entry.kind) (ident_tree name.now)).tag
        (field_behind site.now (type_seen base.entry.kind) (ident_tree name.now)).place from))
        out.old.temps (At (length out.old.nodes)) out.old out.new) }
{
    let Field { tag, place, .. } = field_behind(site, base.kind, name)?;
    let store = Cmd::Store {
        base: slot_read(base.operand),
        kind: tag,
        field: place,
        from,
        next: 0,
    };
    out.push(site.line(), store, Label::Next, Label::Next)
}

/// Calls a procedure with the arguments, and drops its result.
pub fn call<'a>(
    site: &Site<'_, 'a>,
    callee: &Ident,
    args: Vec<Operand>,
    out: &mut Output<'a>,
) -> Result<(), AllocError>
    ensures { OnOk result
        (EmitsCode (command site.now.line (cmd.Call None callee.now.text args.items)) out.old.temps (At (length out.old.nodes))
        out.old out.new) }
{
    let call = Cmd::Call {
        to: None,
        callee: copy_of(&callee.text)?,
        args: Row::from_vec(args),
        next: 0,
    };
    out.push(site.line(), call, Label::Next, Label::Next)
}

/// Frees what a slot of the type points to.
pub fn free<'a>(
    site: &Site<'_, 'a>,
    slot: u32,
    kind: CType<'a>,
    out: &mut Output<'a>,
) -> Result<(), AllocError>
    ensures { OnOk result
        (EmitsCode (command site.now.line (cmd.Free slot (tag_of (type_seen kind.entry)))) out.old.temps (At (length out.old.nodes))
        out.old out.new) }
{
    let free = Cmd::Free {
        base: slot,
        kind: tag_of(site.alloc(), kind)?,
        next: 0,
    };
    out.push(site.line(), free, Label::Next, Label::Next)
}

/// Puts 0 into an int temporary.
pub fn zero<'a>(site: &Site<'_, 'a>, out: &mut Output<'a>) -> Result<(), AllocError>
    ensures { OnOk result (HasRoom site.now.first_temp 1 out.old
        → EmitsCode (command site.now.line (cmd.Copy (site.now.first_temp + (take_temp Int out.old.temps).place) (Num (pos 0))))
        (take_temp Int out.old.temps).temps (At (length out.old.nodes)) out.old out.new) }
{
    let place = out.take(CType::Int)?;
    let copy = Cmd::Copy {
        to: site.first_temp().saturating_add(place),
        from: Operand::Num(0),
        next: 0,
    };
    out.push(site.line(), copy, Label::Next, Label::Next)
}
