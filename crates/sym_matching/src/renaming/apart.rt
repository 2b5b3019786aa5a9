//! New numbers for variables, apart from those in use.
ghost use Rattle.std.specs.Prelude.{◌≡◌, ◌+◌, ◌<◌, IfOk, length};
ghost use Rattle.sym_matching.specs.NewVariables.{
  HasRoom,
  at_its_place as at_its_place_of,
  distinct as distinct_of,
  fresh_variables as fresh_variables_of,
};
ghost use Rattle.sym_matching.specs.Renaming.Apart.{number_of as number_of_in, numbers_apart as numbers_apart_of};
ghost use Rattle.sym_matching.specs.Renaming.Sizes.{AreSmall};

use crate::renaming::new_variables::fresh_variables;
use crate::renaming::parts::Numbers;
use shape_data::Row;
use shape_data::symbolic::Exp;
use std::alloc::{AllocError, Global};
use sym_parts::{Mapping, is_one_of};

impl Numbers {
    /// The new number of a variable; one that got none keeps its own.
    pub fn number_of(&self, x: u32) -> u32
        ensures { result ≡ number_of_in self.now x }
    {
        at_its_place(self.variables.as_slice(), self.numbers.as_slice(), x)
    }
}

impl Mapping for Numbers {
    ghost use Rattle.sym_parts.specs.Laws.Mapped.{renamed};
    ghost use Rattle.sym_matching.specs.Renaming.Apart.{number_of};

    ghost image = { λ apart. renamed (number_of apart) };

    fn image_of(&self, e: Exp) -> Exp {
        match e {
            Exp::Var(x) => Exp::Var(self.number_of(x)),
            Exp::Const(_) => e,
        }
    }
}

/// What stands in the second list where the variable stands in the first; a variable that does not keeps its number.
fn at_its_place(variables: &[u32], numbers: &[u32], x: u32) -> u32
    ensures { result ≡ at_its_place_of variables.now numbers.now x }
{
    for place in 0..variables.len() {
        if place >= numbers.len() {
            return x;
        }
        if x == variables[place] {
            return numbers[place];
        }
    }
    x
}

/// Each variable once, where it stands first.
fn distinct(alloc: Global, list: &[u32]) -> Result<Vec<u32>, AllocError>
    ensures { IfOk result (λ names. names.items ≡ distinct_of list.now) }
{
    let mut names = Vec::new(alloc);
    for x in list {
        if !is_one_of(names.as_slice(), *x) {
            names.push(*x)?;
        }
    }
    Ok(names)
}

/// So many new variables.
fn new_numbers(alloc: Global, used: &[u32], count: usize) -> Result<Vec<u32>, AllocError>
    requires { HasRoom count used.now }
    ensures { IfOk result (λ numbers. numbers.items ≡ fresh_variables_of count used.now) }
{
    let mut names = Row::from_vec(used.to_vec(alloc)?);
    fresh_variables(alloc, &mut names, count)
}

/// New numbers for the variables of a list: for each the least existential one that is neither in use nor that of an earlier
/// one. The only error is want of memory.
pub fn numbers_apart(alloc: Global, used: &[u32], list: &[u32]) -> Result<Numbers, AllocError>
    requires { length used.now + length list.now < 2147418112 }
    ensures value { IfOk result (λ apart. apart ≡ numbers_apart_of used.now list.now) }
    ensures small { IfOk result (λ apart. AreSmall apart.numbers) }
{
    let variables = distinct(alloc, list)?;
    let numbers = new_numbers(alloc, used, variables.len())?;
    Ok(Numbers {
        variables: Row::from_vec(variables),
        numbers: Row::from_vec(numbers),
    })
}
