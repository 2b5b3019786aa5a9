//! The wanted atoms, in the order in which they are taken.
ghost use Rattle.std.specs.Prelude.{◌≡◌, ◌&&◌, ◌+◌, ◌++◌, ◌∷◌, ◌<◌, IfOk, IfSome, List, length, position};
ghost use Rattle.shape_data.specs.declared.symbolic.Atom.{Atom as AnyAtom};
ghost use Rattle.sym_matching.specs.declared.matching.Matching.{Matching as AnyMatching};
ghost use Rattle.sym_matching.specs.declared.matching.Turned.{Turned as AnyTurned};
ghost use Rattle.sym_matching.specs.declared.matching.Turned.TheVariants.{On};
ghost use Rattle.sym_matching.specs.declared.matching.Wanted.{Wanted as AnyWanted};
ghost use Rattle.sym_matching.specs.NewVariables.{HasRoom};
ghost use Rattle.sym_matching.specs.Rooms.{fields_of, fields_wanted, names_of, names_wanted};
ghost use Rattle.sym_matching.specs.Steps.{and_then};
ghost use Rattle.sym_matching.specs.WantedAtoms.{
  first_number as first_number_of,
  has_end as has_end_of,
  has_source as has_source_of,
  next_place as next_place_of,
  want_at,
  want_atom as want_atom_of,
  want_atoms as want_atoms_of,
  wanted_from as wanted_from_of,
};
ghost use Rattle.sym_matching.specs.RuleSteps.InSetting.{rules_in};

use crate::segments::want_segment;
use crate::wanted_cells::want_cell;
use shape_data::symbolic::Atom;
use shape_data::{Row, copy_of};
use std::alloc::{AllocError, Global};
use sym_matching::rule_steps::reading::Setting;
use sym_matching::rule_steps::steps::{is_unbound_in, read_in};
use sym_matching::{Matching, Turned, Wanted};

/// The rules for an atom. There is room for a new variable for each of its fields, and for a new logical one for each, or for its
/// end.
fn want_atom(
    alloc: Global,
    setting: &Setting,
    number: u32,
    atom: &Atom,
    m: Matching,
) -> Result<Turned, AllocError>
    requires room { HasRoom (fields_of atom.now) m.used }
    requires names { m.next + names_of atom.now < 4294967296 }
    ensures { IfOk result (λ turned. turned ≡ want_atom_of (rules_in setting.now) number atom.now m) }
{
    match atom {
        Atom::Points { at, kind, fields } => {
            let e = read_in(setting, &m, *at);
            want_cell(alloc, setting, number, kind, fields.as_slice(), e, m)
        }
        Atom::Seg {
            kind,
            link,
            from,
            to,
        } => {
            let e = read_in(setting, &m, *from);
            want_segment(alloc, setting, number, kind, *link, e, *to, m)
        }
        Atom::Junk => Ok(Turned::On(m)),
    }
}

/// Whether the source of the atom is determined.
fn has_source(setting: &Setting, m: &Matching, atom: &Atom) -> bool
    ensures { result ≡ has_source_of (rules_in setting.now) m.now atom.now }
{
    match atom {
        Atom::Points { at, .. } => !is_unbound_in(setting, m, *at),
        Atom::Seg { from, .. } => !is_unbound_in(setting, m, *from),
        Atom::Junk => true,
    }
}

/// Whether the end is determined, if the atom is a segment.
fn has_end(setting: &Setting, m: &Matching, atom: &Atom) -> bool
    ensures { result ≡ has_end_of (rules_in setting.now) m.now atom.now }
{
    match atom {
        Atom::Seg { to, .. } => !is_unbound_in(setting, m, *to),
        _ => true,
    }
}

/// The place of the first wanted atom whose source and end are determined.
fn first_ready(setting: &Setting, m: &Matching, wanted: &[Wanted]) -> Option<usize>
    ensures first { result
        ≡ position (λ w. has_source_of (rules_in setting.now) m.now w.atom && has_end_of (rules_in setting.now) m.now w.atom) wanted.now }
    ensures within { IfSome result (λ place. place < length wanted.now) }
{
    wanted.iter().position(|w| has_source(setting, m, &w.atom) && has_end(setting, m, &w.atom))
}

/// The place of the first wanted atom whose source is determined.
fn first_with_source(setting: &Setting, m: &Matching, wanted: &[Wanted]) -> Option<usize>
    ensures first { result ≡ position (λ w. has_source_of (rules_in setting.now) m.now w.atom) wanted.now }
    ensures within { IfSome result (λ place. place < length wanted.now) }
{
    wanted.iter().position(|w| has_source(setting, m, &w.atom))
}

/// The place of the wanted atom that is taken next.
fn next_place(setting: &Setting, m: &Matching, wanted: &[Wanted]) -> Option<usize>
    ensures first { result ≡ next_place_of (rules_in setting.now) m.now wanted.now }
    ensures within { IfSome result (λ place. place < length wanted.now) }
{
    match first_ready(setting, m, wanted) {
        Some(place) => Some(place),
        None => first_with_source(setting, m, wanted),
    }
}

/// The number of the first wanted atom that is left.
fn first_number(wanted: &[Wanted]) -> u32
    ensures { result ≡ first_number_of wanted.now }
{
    match wanted {
        [] => 0,
        [first, ..] => first.number,
    }
}

/// Takes the wanted atom that is next. Without one the match is stuck on the first that is left.
fn want_next(
    alloc: Global,
    setting: &Setting,
    wanted: &mut Row<Wanted>,
    m: Matching,
) -> Result<Turned, AllocError>
    requires room { HasRoom (fields_wanted wanted.old) m.used }
    requires names { m.next + names_wanted wanted.old < 4294967296 }
    ensures goes { IfOk result (λ turned. (go_on : List AnyWanted → AnyMatching → AnyTurned)
        → want_at (rules_in setting.now) m wanted.old go_on (next_place_of (rules_in setting.now) m wanted.old)
        ≡ and_then (go_on wanted.new) turned) }
    ensures room { IfOk result (λ turned. (n : AnyMatching) → turned ≡ On n → HasRoom (fields_wanted wanted.new) n.used) }
    ensures names { IfOk result (λ turned. (n : AnyMatching) → turned ≡ On n → n.next + names_wanted wanted.new < 4294967296) }
{
    match next_place(setting, &m, wanted.as_slice()) {
        None => Ok(Turned::Stuck(first_number(wanted.as_slice()))),
        Some(place) => {
            let next = wanted.remove(place);
            want_atom(alloc, setting, next.number, &next.atom, m)
        }
    }
}

/// All wanted atoms. There is room for their new variables.
pub fn want_atoms(
    alloc: Global,
    setting: &Setting,
    wanted: Row<Wanted>,
    m: Matching,
) -> Result<Turned, AllocError>
    requires room { HasRoom (fields_wanted wanted) m.used }
    requires names { m.next + names_wanted wanted < 4294967296 }
    ensures { IfOk result (λ turned. turned ≡ want_atoms_of (length wanted) (rules_in setting.now) wanted m) }
{
    let turns = wanted.len();
    let mut left = wanted;
    let mut current = m;
    for done in 0..turns {
        match want_next(alloc, setting, &mut left, current)? {
            Turned::On(next) => current = next,
            Turned::Stuck(number) => return Ok(Turned::Stuck(number)),
        }
    }
    Ok(Turned::On(current))
}

/// Puts the atom behind the wanted ones, unless it is Junk.
fn add_wanted(all: &mut Row<Wanted>, number: u32, atom: &Atom) -> Result<(), AllocError>
    ensures { IfOk result (λ _. (atoms : List AnyAtom)
        → all.old ++ wanted_from_of number (atom.now ∷ atoms) ≡ all.new ++ wanted_from_of (number + 1) atoms) }
{
    match atom {
        Atom::Points { .. } => all.push(Wanted {
            number,
            atom: copy_of(atom)?,
        }),
        Atom::Seg { .. } => all.push(Wanted {
            number,
            atom: copy_of(atom)?,
        }),
        Atom::Junk => Ok(()),
    }
}

/// The atoms other than Junk, with their numbers.
pub fn wanted_of(alloc: Global, atoms: &[Atom]) -> Result<Row<Wanted>, AllocError>
    requires { length atoms.now < 4294967296 }
    ensures { IfOk result (λ all. all ≡ wanted_from_of 0 atoms.now) }
{
    let mut all = Row::new(alloc);
    let mut number = 0u32;
    for atom in atoms {
        add_wanted(&mut all, number, atom)?;
        number += 1;
    }
    Ok(all)
}
