//! The order of the atoms: as a search from the parameters and the locals comes to them, breadth first.
ghost use Rattle.std.specs.Prelude.{◌≡◌, ℕ, ◌+◌, ◌<◌, IfOk, IfSome, List, ◌++◌, not, filter, position, length};
ghost use Rattle.shape_data.specs.declared.symbolic.Atom.{Atom as AnyAtom};
ghost use Rattle.shape_data.specs.declared.symbolic.Exp.{Exp};
ghost use Rattle.sym_parts.specs.Laws.Junks.{is_junk as is_junk_of, is_other as is_other_of};
ghost use Rattle.sym_canon.specs.Placing.{
  all_lead_to,
  exps_of,
  is_cell_at as is_cell_at_of,
  is_placed as is_placed_of,
  is_placed_by as is_placed_by_of,
  is_segment_from as is_segment_from_of,
  leads_to,
  params_from,
  place as place_of,
  place_at,
  place_by,
  place_first,
  placed as placed_of,
  places_some as places_some_of,
};

use shape_data::symbolic::{Atom, Exp};
use std::alloc::{AllocError, Global};
use sym_parts::{has_cell_at, is_same_exp};

/// Whether the atom is a cell at this very expression; facts are not asked.
pub fn is_cell_at(e: Exp, atom: &Atom) -> bool
    ensures { result ≡ is_cell_at_of e atom.now }
{
    match atom {
        Atom::Points { at, .. } => is_same_exp(e, *at),
        _ => false,
    }
}

/// Whether the atom is a segment from this very expression, of any kind; facts are not asked.
pub fn is_segment_from(e: Exp, atom: &Atom) -> bool
    ensures { result ≡ is_segment_from_of e atom.now }
{
    match atom {
        Atom::Seg { from, .. } => is_same_exp(e, *from),
        _ => false,
    }
}

/// The place of the first cell at the expression, counted from 0; none where there is no such cell.
pub fn place_of_cell(e: Exp, atoms: &[Atom]) -> Option<usize>
    ensures first { result ≡ position (is_cell_at_of e) atoms.now }
    ensures within { IfSome result (λ place. place < length atoms.now) }
{
    atoms.iter().position(|atom| is_cell_at(e, atom))
}

/// Whether the expression places the atom, where there is a cell at it or none.
fn is_placed_by(has_cell: bool, e: Exp, atom: &Atom) -> bool
    ensures { result ≡ is_placed_by_of has_cell e atom.now }
{
    if has_cell {
        is_cell_at(e, atom)
    } else {
        is_segment_from(e, atom)
    }
}

/// Whether the expression places some atom that is left.
fn places_some(left: &[Atom], e: Exp) -> bool
    ensures { result ≡ places_some_of left.now e }
{
    let has_cell = has_cell_at(left, e);
    for atom in left {
        if is_placed_by(has_cell, e, atom) {
            return true;
        }
    }
    false
}

/// The place of the queue's first expression that places an atom.
fn first_that_places(left: &[Atom], queue: &[Exp]) -> Option<usize>
    ensures first { result ≡ position (places_some_of left.now) queue.now }
    ensures within { IfSome result (λ place. place < length queue.now) }
{
    queue.iter().position(|e| places_some(left, *e))
}

/// Puts what an atom leads to behind the queue.
fn add_lead(queue: &mut Vec<Exp>, atom: &Atom) -> Result<(), AllocError>
    ensures { IfOk result (λ _. queue.new.items ≡ queue.old.items ++ leads_to atom.now) }
{
    match atom {
        Atom::Points { fields, .. } => queue.extend_from_slice(fields.as_slice())?,
        Atom::Seg { to, .. } => queue.push(*to)?,
        Atom::Junk => {}
    }
    Ok(())
}

/// Puts what the atoms lead to behind the queue.
fn add_leads(queue: &mut Vec<Exp>, atoms: &[Atom]) -> Result<(), AllocError>
    ensures { IfOk result (λ _. queue.new.items ≡ queue.old.items ++ all_lead_to atoms.now) }
{
    for atom in atoms {
        add_lead(queue, atom)?;
    }
    Ok(())
}

/// The atoms that an expression places, and the others.
#[derive(Drop)]
struct Parted {
    placed: Vec<Atom>,
    others: Vec<Atom>,
}

/// Parts the atoms that are left into those that an expression places and the others.
fn part(alloc: Global, left: Vec<Atom>, e: Exp) -> Result<Parted, AllocError>
    ensures placed { IfOk result (λ parted. parted.placed.items ≡ filter (is_placed_of left.items e) left.items) }
    ensures others { IfOk result (λ parted. parted.others.items ≡ filter (λ atom. not (is_placed_of left.items e atom)) left.items) }
{
    let has_cell = has_cell_at(left.as_slice(), e);
    let mut placed = Vec::new(alloc);
    let mut others = Vec::new(alloc);
    for atom in left {
        if is_placed_by(has_cell, e, &atom) {
            placed.push(atom)?;
        } else {
            others.push(atom)?;
        }
    }
    Ok(Parted { placed, others })
}

/// What one turn places, and what it leaves.
#[derive(Drop)]
struct Turn {
    placed: Vec<Atom>,
    queue: Vec<Exp>,
    left: Vec<Atom>,
}

/// The turn of an expression, with what stands behind it in the queue.
fn turn_of(alloc: Global, behind: &[Exp], left: Vec<Atom>, e: Exp) -> Result<Turn, AllocError>
    ensures { IfOk result (λ turn. (again : List Exp → List AnyAtom → List AnyAtom)
        → place_by again behind.now left.items e ≡ turn.placed.items ++ again turn.queue.items turn.left.items) }
{
    let Parted { placed, others } = part(alloc, left, e)?;
    let mut queue = Vec::new(alloc);
    queue.extend_from_slice(behind)?;
    add_leads(&mut queue, placed.as_slice())?;
    Ok(Turn {
        placed,
        queue,
        left: others,
    })
}

/// The expressions of an atom, its source first.
fn exps(alloc: Global, atom: &Atom) -> Result<Vec<Exp>, AllocError>
    ensures { IfOk result (λ all. all.items ≡ exps_of atom.now) }
{
    let mut all = Vec::new(alloc);
    match atom {
        Atom::Points { at, fields, .. } => {
            all.push(*at)?;
            all.extend_from_slice(fields.as_slice())?;
        }
        Atom::Seg { from, to, .. } => {
            all.push(*from)?;
            all.push(*to)?;
        }
        Atom::Junk => {}
    }
    Ok(all)
}

/// The turn of the first atom, where the queue places none.
fn turn_of_first(alloc: Global, left: Vec<Atom>) -> Result<Turn, AllocError>
    ensures { IfOk result (λ turn. (again : List Exp → List AnyAtom → List AnyAtom)
        → place_first again left.items ≡ turn.placed.items ++ again turn.queue.items turn.left.items) }
{
    let mut left = left;
    let mut placed = Vec::new(alloc);
    if left.is_empty() {
        return Ok(Turn {
            placed,
            queue: Vec::new(alloc),
            left,
        });
    }
    let first = left.remove(0);
    let queue = exps(alloc, &first)?;
    placed.push(first)?;
    Ok(Turn {
        placed,
        queue,
        left,
    })
}

/// One turn.
fn take_turn(alloc: Global, queue: &[Exp], left: Vec<Atom>) -> Result<Turn, AllocError>
    ensures { IfOk result (λ turn. (again : List Exp → List AnyAtom → List AnyAtom)
        → place_at again queue.now left.items (position (places_some_of left.items) queue.now)
        ≡ turn.placed.items ++ again turn.queue.items turn.left.items) }
{
    match first_that_places(left.as_slice(), queue) {
        Some(place) => turn_of(alloc, &queue[place + 1..], left, queue[place]),
        None => turn_of_first(alloc, left),
    }
}

fn add_all(all: &mut Vec<Atom>, more: Vec<Atom>) -> Result<(), AllocError>
    ensures { IfOk result (λ _. all.new.items ≡ all.old.items ++ more.items) }
{
    let mut more = more;
    all.append(&mut more)?;
    Ok(())
}

/// The atoms that are left, in their order from this queue on.
fn place(alloc: Global, queue: Vec<Exp>, left: Vec<Atom>) -> Result<Vec<Atom>, AllocError>
    ensures { IfOk result (λ all. all.items ≡ place_of (length left.items) queue.items left.items) }
{
    let turns = left.len();
    let mut queue = queue;
    let mut left = left;
    let mut all = Vec::new(alloc);
    for done in 0..turns {
        let turn = take_turn(alloc, queue.as_slice(), left)?;
        add_all(&mut all, turn.placed)?;
        queue = turn.queue;
        left = turn.left;
    }
    add_all(&mut all, left)?;
    Ok(all)
}

/// The parameters, and then the locals.
fn first_queue(alloc: Global, params: u32, locals: &[Exp]) -> Result<Vec<Exp>, AllocError>
    ensures { IfOk result (λ queue. queue.items ≡ params_from 0 params ++ locals.now) }
{
    let mut queue = Vec::new(alloc);
    for param in 0..params {
        queue.push(Exp::Var(param))?;
    }
    queue.extend_from_slice(locals)?;
    Ok(queue)
}

/// Junk, and all that is not.
#[derive(Drop)]
struct Sorted {
    junk: Vec<Atom>,
    others: Vec<Atom>,
}

/// Takes Junk out from among the atoms.
fn without_junk(alloc: Global, atoms: Vec<Atom>) -> Result<Sorted, AllocError>
    ensures junk { IfOk result (λ sorted. sorted.junk.items ≡ filter is_junk_of atoms.items) }
    ensures others { IfOk result (λ sorted. sorted.others.items ≡ filter is_other_of atoms.items) }
{
    let mut junk = Vec::new(alloc);
    let mut others = Vec::new(alloc);
    for atom in atoms {
        match &atom {
            Atom::Junk => junk.push(atom)?,
            _ => others.push(atom)?,
        }
    }
    Ok(Sorted { junk, others })
}

/// The atoms in their order, from the parameters and then the locals on, with Junk last.
pub fn placed(
    alloc: Global,
    params: u32,
    locals: &[Exp],
    atoms: Vec<Atom>,
) -> Result<Vec<Atom>, AllocError>
    ensures { IfOk result (λ all. all.items ≡ placed_of params locals.now atoms.items) }
{
    let Sorted { junk, others } = without_junk(alloc, atoms)?;
    let queue = first_queue(alloc, params, locals)?;
    let mut all = place(alloc, queue, others)?;
    add_all(&mut all, junk)?;
    Ok(all)
}
