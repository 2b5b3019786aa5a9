//! What statements have: conditions, simple statements, values that are returned, and branches.
ghost use Rattle.std.specs.Prelude.{IfSome, OnOk, length, option_map};
ghost use Rattle.c_tree.specs.Syntax.{expr_tree, simple_tree};
ghost use Rattle.shape_data.specs.declared.program.Cmd.TheVariants as cmd;
ghost use Rattle.c_lower_rules.specs.Code.{command};
ghost use Rattle.c_lower_rules.specs.Temporaries.{released};
ghost use Rattle.c_lower_rules.specs.Expressions.{lowering};
ghost use Rattle.c_lower_rules.specs.Statements.{simple, returned};
ghost use Rattle.c_lower_rules.specs.Numbers.{HasIntNumbers, SimpleHasIntNumbers};
ghost use Rattle.c_lower_emit.specs.declared.drafts.Label.TheVariants.{At};
ghost use Rattle.c_lower_emit.specs.Emitting.{EmitsCode, EmitsTested};
ghost use Rattle.c_lower_stmts.specs.Parts.{EmitsReleased, Chooses};

use crate::simples::simple;
use crate::wanted_values::{WantedType, wanted};
use c_lower_emit::drafts::{AS_THEY_ARE, Label, Ways};
use c_lower_emit::output::Output;
use c_lower_emit::uses::Use;
use c_lower_exprs::site::Site;
use c_lower_exprs::values::lower;
use c_tree::{Expr, Simple};
use shape_data::program::{Cmd, Operand};
use std::alloc::AllocError;

/// A condition, whose nodes have the site's line.
pub fn condition<'a>(
    site: &Site<'_, 'a>,
    expr: &'a Expr,
    out: &mut Output<'a>,
) -> Result<(), AllocError>
    ensures { OnOk result (HasIntNumbers (expr_tree expr.now)
        → EmitsTested ((lowering site.now (expr_tree expr.now)).test (released out.old.temps)) site.now.first_temp out.old out.new) }
{
    out.release();
    lower(site, expr, Use::Test, out)?;
    Ok(())
}

/// A simple statement, whose nodes have the site's line.
pub fn performed<'a>(
    site: &Site<'_, 'a>,
    one: &'a Simple,
    out: &mut Output<'a>,
) -> Result<(), AllocError>
    ensures { OnOk result (SimpleHasIntNumbers (simple_tree one.now)
        → EmitsReleased (simple site.now (simple_tree one.now)) site.now.first_temp out.old out.new) }
{
    out.release();
    simple(site, one, out)
}

/// Returns from the procedure, with the value, if any.
pub fn returned<'a>(
    site: &Site<'_, 'a>,
    value: &'a Option<Expr>,
    out: &mut Output<'a>,
) -> Result<(), AllocError>
    ensures { OnOk result (IfSome (option_map expr_tree value.now) HasIntNumbers
        → EmitsReleased (returned site.now (option_map expr_tree value.now)) site.now.first_temp out.old out.new) }
{
    out.release();
    match value {
        None => push_return(site, Operand::Num(0), out),
        Some(value) => {
            let found = wanted(
                site,
                WantedType::Kind(site.result()),
                value,
                Use::Value,
                out,
            )?;
            push_return(site, found.operand, out)
        }
    }
}

/// The node that returns the value.
fn push_return(site: &Site, value: Operand, out: &mut Output) -> Result<(), AllocError>
    ensures { OnOk result
        (EmitsCode (command site.now.line (λ next. cmd.Return value)) out.old.temps (At (length out.old.nodes)) out.old out.new) }
{
    out.push(site.line(), Cmd::Return { value }, Label::Next, Label::Next)
}

/// Leads the test from one place to another to the pieces that stand behind it.
pub fn choose(from: usize, past: usize, holds: Label, fails: Label, out: &mut Output)
    ensures { Chooses from past holds fails out.old out.new }
{
    let ways = Ways {
        holds,
        fails,
        ..AS_THEY_ARE
    };
    out.redirect(from, past, ways);
}
