//! The slots of a procedure's parameters.
ghost use Rattle.std.specs.Prelude.{◌≡◌, ◌∷◌, ◌<◌, [], OnOk, length};
ghost use Rattle.c_types_rules.specs.Items.{listed};
ghost use Rattle.c_lower_rules.specs.Programs.{bound_params};
ghost use Rattle.c_tree.specs.Syntax.{param_tree, params_tree};
ghost use Rattle.c_lower_exprs.specs.Seen.{stacked};

use crate::slots::{Bound, Slots};
use c_tree::{Param, Params};
use std::alloc::AllocError;

/// How many parameters there are, where a u32 holds that.
#[tactic(auto, using(c_types_names::proofs::ParamsInTurn::each_param))]
pub fn param_count(params: &Params) -> u32
    ensures { length (listed (params_tree params.now)) < 4294967296 → result ≡ length (listed (params_tree params.now)) }
{
    u32::try_from(params.len()).unwrap_or(u32::MAX)
}

/// Puts the variable of the parameter, if it has a name, in the slot.
fn bind_param<'a>(bound: &mut Slots<'a>, param: &'a Param, slot: u32) -> Result<(), AllocError>
    ensures { OnOk result (stacked bound.new ≡ bound_params slot (param_tree param.now ∷ []) (stacked bound.old)) }
{
    match &param.name {
        None => Ok(()),
        Some(name) => {
            bound.push(Bound {
                name: &name.text,
                slot,
            })?;
            Ok(())
        }
    }
}

/// Puts the variables of a procedure's parameters in the first slots.
#[tactic(auto, using(c_types_names::proofs::ParamsInTurn::each_param))]
pub fn bind_params<'a>(bound: &mut Slots<'a>, params: &'a Params) -> Result<(), AllocError>
    ensures { OnOk result (length (listed (params_tree params.now)) < 4294967296
        → stacked bound.new ≡ bound_params 0 (listed (params_tree params.now)) (stacked bound.old)) }
{
    let mut slot = 0;
    for param in params.iter() {
        bind_param(bound, param, slot)?;
        slot = slot.saturating_add(1);
    }
    Ok(())
}
