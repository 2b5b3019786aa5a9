//! Rows of subtraction and of abduction.
use crate::rows::number;
use crate::told::is_told;
use abduction::{biabduce, biabduce_avoiding};
use shape_data::Row;
use shape_data::symbolic::{Exp, Fact, SymHeap};
use std::alloc::Global;
use subtraction::{subtract, subtract_avoiding};
use sym_matching::renaming::sizes::{are_small_variables, is_small_binding, is_within_sizes};
use sym_matching::{Abd, Sub};
use worked_rows::Fault;
use worked_rows::parts::{part, text};
use worked_scopes::Scope;

/// The flexible variables: `?11`, `?12` and `?13`.
const FLEXIBLE: [u32; 3] = [65_546, 65_547, 65_548];

/// What is asked: the heap, the wanted heap, and the bound variables.
#[derive(Drop)]
struct Asked {
    a: SymHeap,
    b: SymHeap,
    bound: Row<(u32, Exp)>,
}

/// What variables are bound to, of a text of equations.
fn binding(alloc: Global, scope: &Scope, text: &str) -> Result<Row<(u32, Exp)>, Fault> {
    let heap = scope.heap(alloc, text)?;
    let mut all = Row::new(alloc);
    for fact in heap.pure.as_slice() {
        match *fact {
            Fact::Eq(Exp::Var(x), e) => all.push((x, e))?,
            _ => return Err(Fault::Row),
        }
    }
    Ok(all)
}

/// What the row asks; the heap stands behind the word.
fn question(alloc: Global, scope: &Scope, row: &str, word: &str) -> Result<Asked, Fault> {
    Ok(Asked {
        a: scope.heap(alloc, text(row, word))?,
        b: scope.heap(alloc, text(row, "wanted"))?,
        bound: binding(alloc, scope, text(row, "bound"))?,
    })
}

/// The further variables that new ones avoid.
fn avoided(alloc: Global, scope: &Scope, row: &str) -> Result<Row<u32>, Fault> {
    let list = scope.exps(alloc, part(row, "avoid").unwrap_or(""))?;
    let mut all = Row::new(alloc);
    for e in list.as_slice() {
        match *e {
            Exp::Var(x) => all.push(x)?,
            Exp::Const(_) => return Err(Fault::Row),
        }
    }
    Ok(all)
}

/// What subtraction answers.
fn subtracted(alloc: Global, asked: &Asked, avoid: &[u32]) -> Result<Sub, Fault> {
    let bound = asked.bound.as_slice();
    let flexible = FLEXIBLE;
    if !is_within_sizes(&asked.a)
        || !is_within_sizes(&asked.b)
        || !is_small_binding(bound)
        || !are_small_variables(&flexible)
        || !are_small_variables(avoid)
    {
        return Err(Fault::Row);
    }
    if avoid.is_empty() {
        return Ok(subtract(alloc, &asked.a, &asked.b, bound, &flexible)?);
    }
    Ok(subtract_avoiding(alloc, &asked.a, &asked.b, bound, &flexible, avoid)?)
}

/// What abduction answers.
fn abduced(alloc: Global, asked: &Asked, fresh: u32, avoid: &[u32]) -> Result<Abd, Fault> {
    let bound = asked.bound.as_slice();
    let flexible = FLEXIBLE;
    if !is_within_sizes(&asked.a)
        || !is_within_sizes(&asked.b)
        || !is_small_binding(bound)
        || !are_small_variables(&flexible)
        || !are_small_variables(avoid)
        || fresh > 65_536
    {
        return Err(Fault::Row);
    }
    if avoid.is_empty() {
        return Ok(biabduce(alloc, &asked.a, &asked.b, bound, &flexible, fresh)?);
    }
    Ok(biabduce_avoiding(alloc, &asked.a, &asked.b, bound, &flexible, fresh, avoid)?)
}

/// What subtraction answers to the row.
fn found_by_subtraction(alloc: Global, scope: &Scope, row: &str, word: &str) -> Result<Sub, Fault> {
    let avoid = avoided(alloc, scope, row)?;
    let question = question(alloc, scope, row, word)?;
    subtracted(alloc, &question, avoid.as_slice())
}

/// What abduction answers to the row.
fn found_by_abduction(alloc: Global, scope: &Scope, row: &str, word: &str) -> Result<Abd, Fault> {
    let fresh = number(row, "fresh", 3)?;
    let avoid = avoided(alloc, scope, row)?;
    let question = question(alloc, scope, row, word)?;
    abduced(alloc, &question, fresh, avoid.as_slice())
}

/// The frame and the binding of a row.
fn frame_and_binding(
    alloc: Global,
    scope: &Scope,
    row: &str,
) -> Result<(SymHeap, Row<(u32, Exp)>), Fault> {
    let frame = scope.heap(alloc, text(row, "frame"))?;
    let binding = binding(alloc, scope, text(row, "binds"))?;
    Ok((frame, binding))
}

/// The answer of a row of subtraction.
fn told_of_subtraction(alloc: Global, scope: &Scope, row: &str) -> Result<Sub, Fault> {
    if part(row, "stuck").is_some() {
        let wanted = number(row, "stuck", 0)?;
        return Ok(Sub::NoMatch { wanted });
    }
    let (frame, binding) = frame_and_binding(alloc, scope, row)?;
    Ok(Sub::Match { frame, binding })
}

/// The answer of a row of abduction.
fn told_of_abduction(alloc: Global, scope: &Scope, row: &str) -> Result<Abd, Fault> {
    if part(row, "stuck").is_some() {
        let wanted = number(row, "stuck", 0)?;
        return Ok(Abd::NoMatch { wanted });
    }
    let missing = scope.heap(alloc, text(row, "missing"))?;
    let (frame, binding) = frame_and_binding(alloc, scope, row)?;
    Ok(Abd::Found {
        missing,
        frame,
        binding,
    })
}

/// Whether subtraction from the heap behind the word gives what the row tells.
pub fn subtracts(
    rt: &impl Print,
    alloc: Global,
    scope: &Scope,
    row: &str,
    word: &str,
) -> Result<bool, Fault> {
    let told = told_of_subtraction(alloc, scope, row)?;
    let found = found_by_subtraction(alloc, scope, row, word)?;
    is_told(rt, &found, &told)
}

/// Whether abduction in the heap behind the word gives what the row tells.
pub fn abduces(
    rt: &impl Print,
    alloc: Global,
    scope: &Scope,
    row: &str,
    word: &str,
) -> Result<bool, Fault> {
    let told = told_of_abduction(alloc, scope, row)?;
    let found = found_by_abduction(alloc, scope, row, word)?;
    is_told(rt, &found, &told)
}

/// Whether both give what the row tells; nothing is missing.
pub fn agree(rt: &impl Print, alloc: Global, scope: &Scope, row: &str) -> Result<bool, Fault> {
    if !subtracts(rt, alloc, scope, row, "both")? {
        return Ok(false);
    }
    abduces(rt, alloc, scope, row, "both")
}
