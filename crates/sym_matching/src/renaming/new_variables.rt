//! New existential variables: the least numbers that are not in use.
ghost use Rattle.std.specs.Prelude.{◌≡◌, ◌++◌, ◌<◌, IfOk, length, map};
ghost use Rattle.shape_data.specs.declared.symbolic.Exp.TheVariants.{Var};
ghost use Rattle.sym_matching.specs.NewVariables.{
  HasRoom,
  first_free as first_free_of,
  fresh as fresh_of,
  fresh_variables as fresh_variables_of,
};

use shape_data::Row;
use shape_data::symbolic::{Exp, FIRST_EXISTENTIAL};
use std::alloc::{AllocError, Global};
use sym_parts::is_one_of;

/// The least number from one on that is not in use.
fn first_free(used: &[u32], first: u32) -> u32
    requires { first_free_of (length used.now) first used.now < 4294967296 }
    ensures { result ≡ first_free_of (length used.now) first used.now }
{
    let mut x = first;
    for turn in 0..used.len() {
        if !is_one_of(used, x) {
            return x;
        }
        x += 1;
    }
    x
}

/// The least existential variable that is not in use.
fn fresh(used: &[u32]) -> u32
    requires { fresh_of used.now < 4294967296 }
    ensures { result ≡ fresh_of used.now }
{
    first_free(used, FIRST_EXISTENTIAL)
}

/// So many new existential variables, each the least that is then not in use; they are put behind those in use too.
pub fn fresh_variables(
    alloc: Global,
    used: &mut Row<u32>,
    count: usize,
) -> Result<Vec<u32>, AllocError>
    requires { HasRoom count used.old }
    ensures new { IfOk result (λ names. names.items ≡ fresh_variables_of count used.old) }
    ensures used { IfOk result (λ names. used.new ≡ used.old ++ fresh_variables_of count used.old) }
{
    let mut names = Vec::new(alloc);
    for turn in 0..count {
        let x = fresh(used.as_slice());
        names.push(x)?;
        used.push(x)?;
    }
    Ok(names)
}

/// Variables as expressions.
pub fn as_exps(alloc: Global, names: &[u32]) -> Result<Row<Exp>, AllocError>
    ensures { IfOk result (λ all. all ≡ map Var names.now) }
{
    let mut all = Row::new(alloc);
    for x in names {
        all.push(Exp::Var(*x))?;
    }
    Ok(all)
}
