//! The types of a body's locals, in the order of the text.
ghost use Rattle.std.specs.Prelude.{◌≡◌, ◌++◌, ◌∷◌, [], OnOk};
ghost use Rattle.c_lower_rules.specs.Statements.{kinds_of_locals, declared_kinds, init_kinds, stmt_kinds, stmts_kinds};
ghost use Rattle.c_tree.specs.Syntax.{specifier_tree, initialized_tree, local_tree, init_tree, stmt_tree, block_tree};

use c_tree::{Block, ForInit, Initialized, Local, Stmt, TypeSpecifier};
use c_types_names::kinds::known_type;
use c_types_names::objects::object_kind;
use c_types_names::tables::Tables;
use shape_data::Row;
use shape_data::program::Ty;
use std::alloc::AllocError;

/// The type of one more local.
fn push_local<'a>(
    tables: &Tables<'a>,
    specifier: &'a TypeSpecifier,
    one: &'a Initialized,
    slots: &mut Row<Ty>,
) -> Result<(), AllocError>
    ensures { OnOk result (slots.new
        ≡ slots.old ++ kinds_of_locals tables.now (specifier_tree specifier.now) (initialized_tree one.now ∷ [])) }
{
    slots.push(known_type(object_kind(tables, specifier, one.declarator.stars))?)
}

/// The types of the locals of a declaration.
#[tactic(auto, using(c_types_names::proofs::Appending::appending))]
fn push_declared<'a>(
    tables: &Tables<'a>,
    one: &'a Local,
    slots: &mut Row<Ty>,
) -> Result<(), AllocError>
    ensures { OnOk result (slots.new ≡ slots.old ++ declared_kinds tables.now (local_tree one.now)) }
{
    for declarator in one.declarators.iter() {
        push_local(tables, &one.specifier, declarator, slots)?;
    }
    Ok(())
}

/// The types of the locals that a `for` begins with.
#[tactic(auto, using(c_types_names::proofs::Appending::appending))]
fn push_init<'a>(
    tables: &Tables<'a>,
    init: &'a ForInit,
    slots: &mut Row<Ty>,
) -> Result<(), AllocError>
    ensures { OnOk result (slots.new ≡ slots.old ++ init_kinds tables.now (init_tree init.now)) }
{
    match init {
        ForInit::Empty => Ok(()),
        ForInit::Local(one) => push_declared(tables, one, slots),
        ForInit::Simple(_) => Ok(()),
    }
}

/// The types of the locals of a statement.
#[cycle(locals)]
#[tactic(auto, using(c_types_names::proofs::Appending::appending))]
fn push_stmt<'a>(tables: &Tables<'a>, one: &'a Stmt, slots: &mut Row<Ty>) -> Result<(), AllocError>
    ensures { OnOk result (slots.new ≡ slots.old ++ stmt_kinds tables.now (stmt_tree one.now)) }
{
    match one {
        Stmt::Block(inner) => push_block(tables, inner, slots),
        Stmt::Empty(_) => Ok(()),
        Stmt::Local(one) => push_declared(tables, one, slots),
        Stmt::Simple(_) => Ok(()),
        Stmt::If { body, other, .. } => {
            push_stmt(tables, body, slots)?;
            match other {
                None => Ok(()),
                Some(other) => push_stmt(tables, other, slots),
            }
        }
        Stmt::While { body, .. } => push_stmt(tables, body, slots),
        Stmt::DoWhile { body, .. } => push_stmt(tables, body, slots),
        Stmt::For { init, body, .. } => {
            push_init(tables, init, slots)?;
            push_stmt(tables, body, slots)
        }
        Stmt::Break(_) => Ok(()),
        Stmt::Continue(_) => Ok(()),
        Stmt::Return(_, _) => Ok(()),
    }
}

/// The types of the locals of a block.
#[cycle(locals)]
#[tactic(auto, using(c_types_names::proofs::Appending::appending))]
pub fn push_block<'a>(
    tables: &Tables<'a>,
    block: &'a Block,
    slots: &mut Row<Ty>,
) -> Result<(), AllocError>
    ensures { OnOk result (slots.new ≡ slots.old ++ stmts_kinds tables.now (block_tree block.now).body) }
{
    for one in &block.stmts {
        push_stmt(tables, one, slots)?;
    }
    Ok(())
}
