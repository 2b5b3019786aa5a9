//! The variables of a procedure's parameters (C11 6.9.1).
ghost use Rattle.std.specs.Prelude.{◌≡◌, ◌∷◌, [], OnOk};
ghost use Rattle.c_types_rules.specs.Items.{listed};
ghost use Rattle.c_tree.specs.Syntax.{param_tree, params_tree};
ghost use Rattle.c_types_names.specs.Behind.{behind_params};

use crate::env::Env;
use crate::objects::param_kind;
use c_tree::{Param, Params};
use std::alloc::AllocError;

/// Adds the variable of the parameter, if it has a name.
fn add_param<'a>(env: &mut Env<'a>, param: &'a Param) -> Result<(), AllocError>
    ensures env { OnOk result (env.new ≡ behind_params env.old (param_tree param.now ∷ [])) }
    ensures tables { env.new.tables ≡ env.old.tables }
{
    match &param.name {
        None => Ok(()),
        Some(name) => env.add(&name.text, param_kind(env.tables(), param)),
    }
}

/// Adds the variables of a procedure's parameters.
#[tactic(auto, using(crate::proofs::ParamsInTurn::each_param))]
pub fn add_params<'a>(env: &mut Env<'a>, params: &'a Params) -> Result<(), AllocError>
    ensures env { OnOk result (env.new ≡ behind_params env.old (listed (params_tree params.now))) }
    ensures tables { env.new.tables ≡ env.old.tables }
{
    for param in params.iter() {
        add_param(env, param)?;
    }
    Ok(())
}
