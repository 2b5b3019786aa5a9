//! Equations are solved one after another, each read through those that are solved.
ghost use Rattle.std.specs.Prelude.{◌≡◌, ◌≤◌, IfOk, length, []};
ghost use Rattle.std.specs.List.{position_or_len};
ghost use Rattle.sym_pure.specs.Solving.{
  equations as equations_of,
  instead as instead_of,
  read as read_of,
  solve as solve_of,
  stands_behind as stands_behind_of,
  with_equation as with_equation_to,
  with_equation_of,
  with_read as with_read_of,
  with_solved as with_solved_of,
};

use crate::parts::Solved;
use shape_data::Row;
use shape_data::symbolic::{Exp, FIRST_EXISTENTIAL, Fact};
use std::alloc::{AllocError, Global};
use sym_parts::Mapping;

/// The expression, with another in the place of a variable.
fn instead(variable: u32, by: Exp, e: Exp) -> Exp
    ensures { result ≡ instead_of variable by e }
{
    match e {
        Exp::Var(x) => { if x == variable { by } else { e } }
        Exp::Const(_) => e,
    }
}

/// The expression read through the solved equations.
pub fn read(solved: &[Solved], e: Exp) -> Exp
    ensures { result ≡ read_of solved.now e }
{
    let mut current = e;
    for equation in solved {
        current = instead(equation.variable, equation.by, current);
    }
    current
}

/// The function that reads each expression through the solved equations.
#[derive(Clone, Copy)]
pub struct Reading<'a> {
    pub solved: &'a [Solved],
}

impl<'a> Mapping for Reading<'a> {
    ghost use Rattle.sym_pure.specs.Solving.{read};

    ghost image = { λ reading. read reading.solved.now };

    fn image_of(&self, e: Exp) -> Exp {
        read(self.solved, e)
    }
}

/// One solved equation more.
fn with_solved(solved: Row<Solved>, variable: u32, by: Exp) -> Result<Row<Solved>, AllocError>
    ensures { IfOk result (λ more. more ≡ with_solved_of solved variable by) }
{
    let mut more = solved;
    more.push(Solved { variable, by })?;
    Ok(more)
}

/// The solved equations with one whose sides are read; None is a contradiction.
fn with_read(solved: Row<Solved>, left: Exp, right: Exp) -> Result<Option<Row<Solved>>, AllocError>
    ensures { IfOk result (λ more. more ≡ with_read_of solved left right) }
{
    match (left, right) {
        (Exp::Const(m), Exp::Const(n)) => { if m == n { Ok(Some(solved)) } else { Ok(None) } }
        (Exp::Var(x), Exp::Const(_)) => Ok(Some(with_solved(solved, x, right)?)),
        (Exp::Const(_), Exp::Var(x)) => Ok(Some(with_solved(solved, x, left)?)),
        (Exp::Var(x), Exp::Var(y)) => {
            if x == y {
                Ok(Some(solved))
            } else if x < y {
                Ok(Some(with_solved(solved, y, left)?))
            } else {
                Ok(Some(with_solved(solved, x, right)?))
            }
        }
    }
}

/// The solved equations with one more; None is a contradiction.
pub fn with_equation(
    solved: Row<Solved>,
    left: Exp,
    right: Exp,
) -> Result<Option<Row<Solved>>, AllocError>
    ensures { IfOk result (λ more. more ≡ with_equation_to solved left right) }
{
    let read_left = read(solved.as_slice(), left);
    let read_right = read(solved.as_slice(), right);
    with_read(solved, read_left, read_right)
}

/// All equations among the facts; None is a contradiction.
pub fn solve(facts: &[Fact], solved: Row<Solved>) -> Result<Option<Row<Solved>>, AllocError>
    ensures { IfOk result (λ more. more ≡ solve_of facts.now solved) }
{
    let mut current = solved;
    for fact in facts {
        if let Fact::Eq(left, right) = *fact {
            match with_equation(current, left, right)? {
                Some(more) => current = more,
                None => return Ok(None),
            }
        }
    }
    Ok(Some(current))
}

/// Whether the equation of a variable stands before a fact.
fn stands_behind(variable: u32, fact: Fact) -> bool
    ensures { result ≡ stands_behind_of variable fact }
{
    match fact {
        Fact::Eq(Exp::Var(x), _) => variable < x,
        _ => true,
    }
}

/// The place of the equation of a variable.
fn place_of_equation(facts: &[Fact], variable: u32) -> usize
    ensures first { result ≡ position_or_len (stands_behind_of variable) facts.now }
    ensures within { result ≤ length facts.now }
{
    for (place, fact) in facts.iter().enumerate() {
        if stands_behind(variable, *fact) {
            return place;
        }
    }
    facts.len()
}

/// Puts a solved equation among those that stand by variable.
#[tactic(auto, using(crate::proofs::EquationPlaces::equation_places))]
fn add_equation(facts: &mut Vec<Fact>, variable: u32, by: Exp) -> Result<(), AllocError>
    ensures { IfOk result (λ _. facts.new.items ≡ with_equation_of variable by facts.old.items) }
{
    let place = place_of_equation(facts.as_slice(), variable);
    facts.insert(place, Fact::Eq(Exp::Var(variable), by))?;
    Ok(())
}

/// The solved equations of logical variables, by variable.
pub fn equations(alloc: Global, solved: &[Solved]) -> Result<Vec<Fact>, AllocError>
    ensures { IfOk result (λ all. all.items ≡ equations_of solved.now solved.now []) }
{
    let mut all = Vec::new(alloc);
    for equation in solved {
        if equation.variable < FIRST_EXISTENTIAL {
            let by = read(solved, Exp::Var(equation.variable));
            add_equation(&mut all, equation.variable, by)?;
        }
    }
    Ok(all)
}
