//! What is assigned to: a variable, or a field of what an expression points to.
ghost use Rattle.std.specs.Prelude.{map, IfOk};
ghost use Rattle.c_tree.specs.Syntax.{ident_tree, expr_tree};
ghost use Rattle.c_lower_rules.specs.Values.{Lowering};
ghost use Rattle.c_lower_rules.specs.Expressions.{lowering};
ghost use Rattle.c_lower_rules.specs.Statements.{member_target};
ghost use Rattle.c_lower_rules.specs.Numbers.{HasIntNumbers};
ghost use Rattle.c_lower_emit.specs.Emitting.{Out};
ghost use Rattle.c_lower_emit.specs.declared.uses.Use.TheVariants.{Value};
ghost use Rattle.c_lower_exprs.specs.Lowered.{IsLowered};
ghost use Rattle.c_lower_stmts.specs.Targets.{IsPointer, IsTarget};

use c_lower_emit::output::Output;
use c_lower_emit::uses::Use;
use c_lower_exprs::members::{Found, load};
use c_lower_exprs::site::Site;
use c_lower_exprs::values::lower;
use c_tree::{Expr, Ident, NonEmpty};
use std::alloc::AllocError;

/// What an expression is that is assigned to.
#[derive(Clone, Copy)]
pub enum Target<'a> {
    /// The variable in the slot.
    Variable(u32),
    /// The last of the fields, one behind another, of what the expression points to.
    Member(&'a Box<Expr>, &'a NonEmpty<Ident>),
}

/// A pointer that was emitted, and the field of what it points to.
#[derive(Clone, Copy)]
pub struct Pointer<'a> {
    pub base: Found<'a>,
    pub field: &'a Ident,
}

/// What the expression is as a target. One that is neither a variable nor a member, which typing refuses, counts as the variable in slot 0.
pub fn target_of<'a>(site: &Site<'_, 'a>, left: &'a Expr) -> Target<'a>
    ensures { IsTarget site.now (expr_tree left.now) result }
{
    match left {
        Expr::Chain(_, _) => Target::Variable(0),
        Expr::Prefix(_, _, _) => Target::Variable(0),
        Expr::Members(base, fields) => Target::Member(base, fields),
        Expr::Variable(name) => Target::Variable(site.slot_of(&name.text)),
        Expr::Number(_, _) => Target::Variable(0),
        Expr::Null(_) => Target::Variable(0),
        Expr::Paren(_, inner) => target_of(site, inner),
        Expr::Call(_, _) => Target::Variable(0),
        Expr::Malloc(_, _) => Target::Variable(0),
    }
}

/// The members behind one `->` after another, but for the last one.
fn walk<'a>(
    site: &Site<'_, 'a>,
    base: Found<'a>,
    fields: &'a NonEmpty<Ident>,
    out: &mut Output<'a>,
) -> Result<Pointer<'a>, AllocError>
    ensures { IfOk result (λ found. (l : Lowering) → (before : Out) → IsLowered Value l site.now.first_temp before out.old base.entry
        → IsPointer site.now (member_target site.now l (ident_tree fields.now.first) (map ident_tree fields.now.others.items))
        site.now.first_temp before out.new found) }
{
    let mut current = base;
    let mut field = &fields.first;
    for next in &fields.others {
        current = load(site, current, field, Use::Value, out)?;
        field = next;
    }
    let base = current;
    Ok(Pointer { base, field })
}

/// The pointer before the last `->`.
pub fn lower_pointer<'a>(
    site: &Site<'_, 'a>,
    base: &'a Box<Expr>,
    fields: &'a NonEmpty<Ident>,
    out: &mut Output<'a>,
) -> Result<Pointer<'a>, AllocError>
    ensures { IfOk result (λ found. HasIntNumbers (expr_tree base.now.value)
        → IsPointer site.now
        (member_target site.now (lowering site.now (expr_tree base.now.value)) (ident_tree fields.now.first)
        (map ident_tree fields.now.others.items))
        site.now.first_temp out.old out.new found) }
{
    let base = lower(site, base, Use::Value, out)?;
    walk(site, base, fields, out)
}
