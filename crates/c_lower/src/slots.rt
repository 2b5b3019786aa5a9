//! The slots of a procedure: its parameters, its locals and its temporaries.
ghost use Rattle.std.specs.Prelude.{◌≡◌, ◌++◌, ◌∷◌, [], IfOk, OnOk, map};
ghost use Rattle.c_grammar.specs.Trees.{Param as ParamTree};
ghost use Rattle.c_types_rules.specs.Tables.{param_kind};
ghost use Rattle.c_types_rules.specs.Items.{listed, with_name, param_names};
ghost use Rattle.c_types_rules.specs.Programs.{known};
ghost use Rattle.c_lower_rules.specs.Statements.{stmts_kinds};
ghost use Rattle.c_lower_rules.specs.Programs.{name_text, param_types};
ghost use Rattle.c_tree.specs.Syntax.{param_tree, params_tree, head_tree, block_tree};
ghost use Rattle.c_types_names.specs.Seen.{type_seen};

use crate::locals::push_block;
use c_tree::{Block, Head, Name, Param, Params};
use c_types_names::kinds::{CType, known_type, type_of};
use c_types_names::objects::param_kind;
use c_types_names::tables::Tables;
use shape_data::program::Ty;
use shape_data::{Row, copy_of};
use std::alloc::{AllocError, Global};

/// The type of one more parameter.
fn push_param<'a>(
    tables: &Tables<'a>,
    param: &'a Param,
    slots: &mut Row<Ty>,
) -> Result<(), AllocError>
    ensures { OnOk result (slots.new ≡ slots.old ++ known (param_kind tables.now (param_tree param.now)) ∷ []) }
{
    slots.push(known_type(param_kind(tables, param))?)
}

/// The types of a procedure's parameters.
#[tactic(auto, using(c_types_names::proofs::Appending::appending, c_types_names::proofs::ParamsInTurn::each_param))]
fn push_params<'a>(
    tables: &Tables<'a>,
    params: &'a Params,
    slots: &mut Row<Ty>,
) -> Result<(), AllocError>
    ensures { OnOk result (slots.new
        ≡ slots.old ++ map (λ (p : ParamTree). known (param_kind tables.now p)) (listed (params_tree params.now))) }
{
    for param in params.iter() {
        push_param(tables, param, slots)?;
    }
    Ok(())
}

/// The types of temporaries.
#[tactic(auto, using(c_types_names::proofs::Appending::appending))]
fn push_temps(temps: &[CType], slots: &mut Row<Ty>) -> Result<(), AllocError>
    ensures { OnOk result (slots.new ≡ slots.old ++ map type_seen temps.now) }
{
    for temp in temps {
        slots.push(type_of(*temp)?)?;
    }
    Ok(())
}

/// The types of a procedure's slots.
#[tactic(auto, using(c_types_names::proofs::Appending::appending))]
pub fn slot_types<'a>(
    alloc: Global,
    tables: &Tables<'a>,
    head: &'a Head,
    block: &'a Block,
    temps: &[CType],
) -> Result<Row<Ty>, AllocError>
    ensures { IfOk result (λ slots. slots
        ≡ param_types tables.now (head_tree head.now) ++ stmts_kinds tables.now (block_tree block.now).body ++ map type_seen temps.now) }
{
    let mut slots = Row::new(alloc);
    push_params(tables, &head.params, &mut slots)?;
    push_block(tables, block, &mut slots)?;
    push_temps(temps, &mut slots)?;
    Ok(slots)
}

/// The name of the parameter, if it has one.
#[tactic(auto, using(c_types_names::proofs::Appending::appending))]
fn push_name(param: &Param, names: &mut Row<Name>) -> Result<(), AllocError>
    ensures { OnOk result (names.new ≡ names.old ++ map name_text (with_name (param_tree param.now).name [])) }
{
    match &param.name {
        None => Ok(()),
        Some(name) => names.push(copy_of(&name.text)?),
    }
}

/// The names of a procedure's parameters that have one.
#[tactic(auto, using(crate::proofs::Naming::naming, c_types_names::proofs::ParamsInTurn::each_param))]
pub fn name_texts(alloc: Global, params: &Params) -> Result<Row<Name>, AllocError>
    ensures { IfOk result (λ names. names ≡ map name_text (param_names (listed (params_tree params.now)))) }
{
    let mut names = Row::new(alloc);
    for param in params.iter() {
        push_name(param, &mut names)?;
    }
    Ok(names)
}
