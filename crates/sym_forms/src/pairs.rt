//! The normal form of a pair of a missing heap and a state.
ghost use Rattle.std.specs.Prelude.{◌≡◌, IfOk, not, filter};
ghost use Rattle.std.specs.declared.option.Option.TheVariants.{Some};
ghost use Rattle.sym_parts.specs.Laws.Mapped.{on_state};
ghost use Rattle.sym_pure.specs.Equations.{read_through as read_through_of};
ghost use Rattle.sym_forms.specs.PairForms.{
  is_further_equation as is_further_equation_of,
  pair_form as pair_form_of,
  pair_of as pair_of_parts,
  with_missing as with_missing_of,
};

use shape_data::Row;
use shape_data::symbolic::{Exp, Fact, SymHeap, SymState};
use std::alloc::{AllocError, Global};
use sym_canon::{Pair, without_locals};
use sym_parts::{Mapping, map_state};
use sym_pure::{Normal, normal, read_through};

/// Reading through the equations of these facts.
#[derive(Clone, Copy)]
struct Through<'a> {
    facts: &'a [Fact],
}

impl Mapping for Through<'_> {
    ghost use Rattle.sym_pure.specs.Equations.{read_through};

    ghost image = { λ through e. read_through through.facts.now e };

    fn image_of(&self, e: Exp) -> Exp {
        read_through(self.facts, e)
    }
}

/// The state, read through the facts' equations.
fn read_state(alloc: Global, facts: &[Fact], state: &SymState) -> Result<SymState, AllocError>
    ensures { IfOk result (λ read. read ≡ on_state (read_through_of facts.now) state.now) }
{
    map_state(alloc, &Through { facts }, state)
}

/// Whether the fact is an equation of a variable that is no parameter.
fn is_further_equation(params: u32, fact: Fact) -> bool
    ensures { result ≡ is_further_equation_of params fact }
{
    match fact {
        Fact::Eq(Exp::Var(x), _) => params <= x,
        _ => false,
    }
}

/// The facts without the equations of variables that are no parameters.
fn equations_of_params(alloc: Global, params: u32, facts: &[Fact]) -> Result<Vec<Fact>, AllocError>
    ensures { IfOk result (λ some. some.items ≡ filter (λ fact. not (is_further_equation_of params fact)) facts.now) }
{
    let mut some = Vec::new(alloc);
    for fact in facts {
        if !is_further_equation(params, *fact) {
            some.push(*fact)?;
        }
    }
    Ok(some)
}

/// The missing heap without the equations of variables that are no parameters, beside the state.
fn pair_of(
    alloc: Global,
    params: u32,
    missing: SymHeap,
    state: SymState,
) -> Result<Pair, AllocError>
    ensures { IfOk result (λ pair. pair ≡ pair_of_parts params missing state) }
{
    let pure = equations_of_params(alloc, params, missing.pure.as_slice())?;
    let missing = SymHeap {
        pure: Row::from_vec(pure),
        spatial: missing.spatial,
    };
    Ok(Pair { missing, state })
}

/// The pair's form, the missing heap being in its own.
fn with_missing(
    alloc: Global,
    params: u32,
    state: &SymState,
    missing: SymHeap,
) -> Result<Option<Pair>, AllocError>
    ensures { IfOk result (λ form. form ≡ with_missing_of params state.now missing) }
{
    let read = read_state(alloc, missing.pure.as_slice(), state)?;
    match normal(alloc, &read)? {
        Normal::Contradiction => Ok(None),
        Normal::Is(state) => Ok(Some(pair_of(alloc, params, missing, state)?)),
    }
}

/// The normal form of a pair of a procedure with so many parameters: the missing heap in its own, with equations of
/// parameters alone, and the state read through the missing heap's equations, in its own form. None where one of the two
/// is a contradiction. The only error is want of memory.
pub fn pair_form(alloc: Global, params: u32, pair: &Pair) -> Result<Option<Pair>, AllocError>
    ensures { IfOk result (λ form. form ≡ pair_form_of params pair.now) }
{
    let missing = without_locals(alloc, &pair.missing)?;
    match normal(alloc, &missing)? {
        Normal::Contradiction => Ok(None),
        Normal::Is(form) => with_missing(alloc, params, &pair.state, form.heap),
    }
}
