//! Third rule: two atoms that meet at a variable, which stands nowhere else, are joined into one segment.
ghost use Rattle.std.specs.Prelude.{◌≡◌, ℕ, ◌^◌, ◌<◌, ◌≤◌, Bool, List, IfOk, IfSome, is_some, length, option_map, position};
ghost use Rattle.std.specs.Str.{bytes_eq};
ghost use Rattle.std.specs.declared.option.Option.TheVariants.{Some};
ghost use Rattle.shape_data.specs.declared.symbolic.Atom.{Atom as AnyAtom};
ghost use Rattle.shape_data.specs.declared.symbolic.Exp.{Exp};
ghost use Rattle.shape_data.specs.declared.symbolic.Exp.TheVariants.{Var};
ghost use Rattle.sym_parts.specs.Laws.Expressions.{same_exp};
ghost use Rattle.abstraction_laws.specs.Joining.{
  IsJoin,
  Join,
  end_by as end_by_of,
  find_join as find_join_of,
  first_join,
  is_joint as is_joint_of,
  join_at as join_at_of,
  join_first as join_first_of,
  segment_by as segment_by_link,
  segment_of as segment_of_two,
  segment_to as segment_to_end,
  start_of as start_of_atom,
  with_join,
};
ghost use Rattle.abstraction_laws.specs.Occurrences.{exps_of_atoms};
ghost use Rattle.sym_forms.specs.Sizes.{fields_of as fields_of_atom};
ghost use Rattle.abstraction_laws.specs.Rooms.{HaveFewFields};
ghost use Rattle.sym_abstract.specs.Counted.{Counts};
ghost use Rattle.sym_abstract.specs.Places.{place_of};

use crate::occurrences::{Times, times, times_of_atoms};
use shape_data::symbolic::{Atom, Exp};
use shape_data::{Name, copy_of};
use std::alloc::{AllocError, Global};
use sym_parts::is_same_exp;

/// At which variables atoms may be joined.
pub trait Middle {
    ghost use Rattle.std.specs.Prelude.{ℕ, Bool};

    /// At which variables.
    ghost may: { Self → ℕ → Bool };

    /// Whether atoms may be joined at the variable.
    fn may_be(&self, x: u32) -> bool
        ensures { result ≡ may self.now x };
}

/// Where two atoms are joined: their places in the list, and the expression at which they meet.
#[derive(Clone, Copy)]
pub struct Place {
    pub first: usize,
    pub second: usize,
    pub middle: Exp,
}

/// The place of an expression among fields.
fn place_in(fields: &[Exp], e: Exp) -> Option<usize>
    ensures { result ≡ position (same_exp e) fields.now }
{
    fields.iter().position(|field| is_same_exp(e, *field))
}

/// Whether two names are the same.
fn is_same_name(left: &Name, right: &Name) -> bool
    ensures { result ≡ bytes_eq left.now right.now }
{
    left == right
}

/// Where an atom of a kind leads by a link: what the field of a cell holds, or the end of a segment by that link.
fn end_by(kind: &Name, link: usize, atom: &Atom) -> Option<Exp>
    ensures { result ≡ end_by_of kind.now link atom.now }
{
    match atom {
        Atom::Points {
            kind: other,
            fields,
            ..
        } => {
            if is_same_name(other, kind) {
                fields.as_slice().get(link).copied()
            } else {
                None
            }
        }
        Atom::Seg {
            kind: other,
            link: field,
            to,
            ..
        } => {
            if is_same_name(other, kind) && *field as usize == link {
                Some(*to)
            } else {
                None
            }
        }
        Atom::Junk => None,
    }
}

/// The source of an atom.
fn start_of(atom: &Atom) -> Option<Exp>
    ensures { result ≡ start_of_atom atom.now }
{
    match atom {
        Atom::Points { at, .. } => Some(*at),
        Atom::Seg { from, .. } => Some(*from),
        Atom::Junk => None,
    }
}

/// The segment of a kind by a link to an end, if there is one.
fn segment_to(
    kind: &Name,
    link: usize,
    from: Exp,
    to: Option<Exp>,
) -> Result<Option<Atom>, AllocError>
    requires small { link < 2 ^ 32 }
    ensures { IfOk result (λ segment. segment ≡ segment_to_end kind.now link from to) }
{
    match to {
        Some(to) => Ok(Some(Atom::Seg {
            kind: copy_of(kind)?,
            link: link as u32,
            from,
            to,
        })),
        None => Ok(None),
    }
}

/// The segment by the link, if there is one, from a cell through the second atom.
fn segment_by(
    kind: &Name,
    from: Exp,
    second: &Atom,
    link: Option<usize>,
) -> Result<Option<Atom>, AllocError>
    requires small { IfSome link (λ place. place < 2 ^ 32) }
    ensures { IfOk result (λ segment. segment ≡ segment_by_link kind.now from second.now link) }
{
    match link {
        Some(link) => segment_to(kind, link, from, end_by(kind, link, second)),
        None => Ok(None),
    }
}

/// The segment that two atoms make which meet at an expression, if they make one.
fn segment_of(v: Exp, first: &Atom, second: &Atom) -> Result<Option<Atom>, AllocError>
    requires few { fields_of_atom first.now ≤ 32768 }
    ensures { IfOk result (λ segment. segment ≡ segment_of_two v first.now second.now) }
{
    match first {
        Atom::Points { at, kind, fields } => {
            segment_by(kind, *at, second, place_in(fields.as_slice(), v))
        }
        Atom::Seg {
            kind,
            link,
            from,
            to,
        } => {
            if is_same_exp(v, *to) {
                let link = *link as usize;
                segment_to(kind, link, *from, end_by(kind, link, second))
            } else {
                Ok(None)
            }
        }
        Atom::Junk => Ok(None),
    }
}

/// Whether a cell goes on by a link through the second atom.
fn goes_on(kind: &Name, second: &Atom, link: Option<usize>) -> bool
    ensures { (from : Exp) → result ≡ is_some (segment_by_link kind.now from second.now link) }
{
    match link {
        Some(link) => end_by(kind, link, second).is_some(),
        None => false,
    }
}

/// Whether two atoms that meet at an expression make a segment.
fn makes_segment(v: Exp, first: &Atom, second: &Atom) -> bool
    ensures { result ≡ is_some (segment_of_two v first.now second.now) }
{
    match first {
        Atom::Points { kind, fields, .. } => {
            goes_on(kind, second, place_in(fields.as_slice(), v))
        }
        Atom::Seg { kind, link, to, .. } => {
            is_same_exp(v, *to) && end_by(kind, *link as usize, second).is_some()
        }
        Atom::Junk => false,
    }
}

/// Whether atoms, whose expressions are counted, may be joined at a variable.
fn is_joint<M: Middle>(counts: &Times, may: &M, x: u32) -> bool
    ensures { (atoms : List AnyAtom) → Counts counts.now (exps_of_atoms atoms) → result ≡ is_joint_of (M.may may.now) atoms (Var x) }
{
    may.may_be(x) && times(counts, x) == 2
}

/// The join of the atoms at two places, if there is one.
fn join_at<M: Middle>(
    counts: &Times,
    may: &M,
    atoms: &[Atom],
    first: usize,
    second: usize,
) -> Option<Place>
    requires counts { Counts counts.now (exps_of_atoms atoms.now) }
    requires first_in { first < length atoms.now }
    requires second_in { second < length atoms.now }
    ensures { result ≡ option_map place_of (join_at_of (M.may may.now) atoms.now first second) }
{
    if first == second {
        return None;
    }
    match start_of(&atoms[second]) {
        Some(Exp::Var(x)) => {
            let middle = Exp::Var(x);
            if makes_segment(middle, &atoms[first], &atoms[second]) && is_joint(counts, may, x) {
                Some(Place {
                    first,
                    second,
                    middle,
                })
            } else {
                None
            }
        }
        _ => None,
    }
}

/// The first join of the atom at a place with one behind it.
fn find_second<M: Middle>(counts: &Times, may: &M, atoms: &[Atom], first: usize) -> Option<Place>
    requires counts { Counts counts.now (exps_of_atoms atoms.now) }
    requires first_in { first < length atoms.now }
    ensures { result ≡ option_map place_of (first_join (join_at_of (M.may may.now) atoms.now first) 0 (length atoms.now)) }
{
    for second in 0..atoms.len() {
        if let Some(place) = join_at(counts, may, atoms, first, second) {
            return Some(place);
        }
    }
    None
}

/// The first join of atoms, whose expressions are counted: by the place of the first atom, then by that of the second.
pub fn find_join<M: Middle>(counts: &Times, may: &M, atoms: &[Atom]) -> Option<Place>
    requires counts { Counts counts.now (exps_of_atoms atoms.now) }
    ensures { result ≡ option_map place_of (find_join_of (M.may may.now) atoms.now) }
{
    for first in 0..atoms.len() {
        if let Some(place) = find_second(counts, may, atoms, first) {
            return Some(place);
        }
    }
    None
}

/// The atoms with the join at a place made: the segment stands in the first one's place, and the second goes.
fn with_join_at(atoms: Vec<Atom>, place: Place) -> Result<Vec<Atom>, AllocError>
    requires few { HaveFewFields atoms.items }
    ensures { (join : Join) → IsJoin atoms.items join → place ≡ place_of join
        → IfOk result (λ made. made.items ≡ with_join atoms.items (Some join)) }
{
    let mut atoms = atoms;
    if place.first < atoms.len() && place.second < atoms.len() {
        if let Some(segment) = segment_of(
            place.middle,
            &atoms[place.first],
            &atoms[place.second],
        )? {
            atoms[place.first] = segment;
            let _ = atoms.remove(place.second);
        }
    }
    Ok(atoms)
}

/// The atoms with a join that was found, if one was.
pub fn join_found(atoms: Vec<Atom>, found: Option<Place>) -> Result<Vec<Atom>, AllocError>
    requires few { HaveFewFields atoms.items }
    ensures { (may : ℕ → Bool) → found ≡ option_map place_of (find_join_of may atoms.items)
        → IfOk result (λ made. made.items ≡ with_join atoms.items (find_join_of may atoms.items)) }
{
    match found {
        Some(place) => with_join_at(atoms, place),
        None => Ok(atoms),
    }
}

/// The atoms with their first join made, if there is one.
pub fn join_first<M: Middle>(
    alloc: Global,
    may: &M,
    atoms: Vec<Atom>,
) -> Result<Vec<Atom>, AllocError>
    requires few { HaveFewFields atoms.items }
    ensures { IfOk result (λ made. made.items ≡ join_first_of (M.may may.now) atoms.items) }
{
    let counts = times_of_atoms(alloc, atoms.as_slice())?;
    let found = find_join(&counts, may, atoms.as_slice());
    join_found(atoms, found)
}
