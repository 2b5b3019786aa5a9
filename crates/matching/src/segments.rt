//! The rules for a wanted segment.
ghost use Rattle.std.specs.Prelude.{◌≡◌, ◌&&◌, ◌==◌, ◌+◌, ◌<◌, IfOk, IfSome, ℕ, length, position, slice_get};
ghost use Rattle.shape_data.specs.declared.symbolic.Exp.{Exp as AnyExp};
ghost use Rattle.sym_matching.specs.declared.matching.Matching.{Matching as AnyMatching};
ghost use Rattle.sym_matching.specs.declared.matching.Turned.{Turned as AnyTurned};
ghost use Rattle.sym_matching.specs.WantedSegments.{
  bind_end as bind_end_of,
  is_cell_of as is_cell_of_kind,
  is_segment_of as is_segment_of_kind,
  miss_segment as miss_segment_of,
  next_of as next_of_atom,
  piece as piece_of,
  reach as reach_of,
  take_piece as take_piece_of,
  walk as walk_of,
  want_segment as want_segment_of,
};
ghost use Rattle.sym_matching.specs.RuleSteps.InSetting.{rules_in};

use crate::cells::is_from;
use shape_data::symbolic::{Atom, Exp};
use shape_data::{Name, copy_of};
use std::alloc::{AllocError, Global};
use sym_matching::rule_steps::missing::miss_atom;
use sym_matching::rule_steps::reading::{Setting, is_logical, is_logical_variable};
use sym_matching::rule_steps::steps::{bind, bind_new, exp_at, is_unbound_in, read_in};
use sym_matching::{Matching, Mode, Turned};
use sym_parts::is_same_exp;

/// Whether the atom is a segment of the kind and link from the expression.
fn is_segment_of(kind: &Name, link: u32, e: Exp, atom: &Atom) -> bool
    ensures { result ≡ is_segment_of_kind kind.now link e atom.now }
{
    match atom {
        Atom::Seg {
            kind: own_kind,
            link: own_link,
            from,
            ..
        } => is_from(e, kind, *from, own_kind) && *own_link == link,
        _ => false,
    }
}

/// Whether the atom is a cell of the kind at the expression.
fn is_cell_of(kind: &Name, e: Exp, atom: &Atom) -> bool
    ensures { result ≡ is_cell_of_kind kind.now e atom.now }
{
    match atom {
        Atom::Points {
            at,
            kind: own_kind,
            ..
        } => is_from(e, kind, *at, own_kind),
        _ => false,
    }
}

/// Where an atom leads to by a link: a cell to what its field holds, a segment to its end.
fn next_of(link: u32, atom: &Atom) -> Exp
    ensures { result ≡ next_of_atom link atom.now }
{
    match atom {
        Atom::Points { fields, .. } => exp_at(fields.as_slice(), link),
        Atom::Seg { to, .. } => *to,
        Atom::Junk => Exp::Const(0),
    }
}

/// The place of the first segment of the kind and link from the expression.
fn place_of_segment(kind: &Name, link: u32, e: Exp, atoms: &[Atom]) -> Option<usize>
    ensures first { result ≡ position (is_segment_of_kind kind.now link e) atoms.now }
    ensures within { IfSome result (λ place. place < length atoms.now) }
{
    atoms
        .iter()
        .position(|atom| is_segment_of(kind, link, e, atom))
}

/// The place of the first cell of the kind at the expression.
fn place_of_cell(kind: &Name, e: Exp, atoms: &[Atom]) -> Option<usize>
    ensures first { result ≡ position (is_cell_of_kind kind.now e) atoms.now }
    ensures within { IfSome result (λ place. place < length atoms.now) }
{
    atoms.iter().position(|atom| is_cell_of(kind, e, atom))
}

/// The place of the first piece of a segment: a segment from the expression, else a cell.
fn piece(kind: &Name, link: u32, e: Exp, atoms: &[Atom]) -> Option<usize>
    ensures first { result ≡ piece_of kind.now link e atoms.now }
    ensures within { IfSome result (λ place. place < length atoms.now) }
{
    match place_of_segment(kind, link, e, atoms) {
        Some(place) => Some(place),
        None => place_of_cell(kind, e, atoms),
    }
}

/// Takes the atom at a place; where it leads to.
fn take_piece(link: u32, m: &mut Matching, place: usize) -> Result<Exp, AllocError>
    requires { place < length m.old.left }
    ensures { IfOk result (λ next. (number : ℕ) (go_on : AnyExp → AnyMatching → AnyTurned)
        → take_piece_of number link m.old go_on place (slice_get m.old.left place) ≡ go_on next m.new) }
{
    let atom = m.left.remove(place);
    let next = next_of(link, &atom);
    m.gone.push(atom)?;
    Ok(next)
}

/// The segment is missing, where it goes from a logical variable to a logical end.
fn miss_segment(
    alloc: Global,
    setting: &Setting,
    number: u32,
    kind: &Name,
    link: u32,
    to: Exp,
    e: Exp,
    m: Matching,
) -> Result<Turned, AllocError>
    ensures { IfOk result (λ turned. turned ≡ miss_segment_of (rules_in setting.now) number kind.now link to e m setting.now.mode) }
{
    match setting.mode {
        Mode::Subtract => Ok(Turned::Stuck(number)),
        Mode::Abduce => {
            if !is_logical_variable(e) || !is_logical(to) {
                return Ok(Turned::Stuck(number));
            }
            let kind = copy_of(kind)?;
            let segment = Atom::Seg {
                kind,
                link,
                from: e,
                to,
            };
            miss_atom(alloc, setting, number, segment, m)
        }
    }
}

/// Pieces are taken until they lead to the end; from where there is none the segment is missing.
fn walk(
    alloc: Global,
    setting: &Setting,
    number: u32,
    kind: &Name,
    link: u32,
    to: Exp,
    e: Exp,
    m: Matching,
) -> Result<Turned, AllocError>
    ensures { IfOk result (λ turned. turned ≡ walk_of (length m.left) (rules_in setting.now) number kind.now link to e m) }
{
    let turns = m.left.len();
    let mut left = m;
    let mut at = e;
    for done in 0..turns {
        if is_same_exp(at, to) {
            return Ok(Turned::On(left));
        }
        match piece(kind, link, at, left.left.as_slice()) {
            Some(place) => at = take_piece(link, &mut left, place)?,
            None => return miss_segment(alloc, setting, number, kind, link, to, at, left),
        }
    }
    if is_same_exp(at, to) {
        Ok(Turned::On(left))
    } else {
        miss_segment(alloc, setting, number, kind, link, to, at, left)
    }
}

/// An unbound end where there is no piece: it is bound to the start. In abduction, where the start is a logical variable, it gets
/// a new one, and the segment between the two is missing.
fn bind_end(
    alloc: Global,
    setting: &Setting,
    number: u32,
    kind: &Name,
    link: u32,
    to: Exp,
    e: Exp,
    m: Matching,
) -> Result<Turned, AllocError>
    requires { m.next + 1 < 4294967296 }
    ensures { IfOk result (λ turned. turned ≡ bind_end_of (rules_in setting.now) number kind.now link to e m setting.now.mode) }
{
    match setting.mode {
        Mode::Subtract => Ok(Turned::On(bind(m, to, e)?)),
        Mode::Abduce => {
            if !is_logical_variable(e) {
                return Ok(Turned::On(bind(m, to, e)?));
            }
            let end = Exp::Var(m.next);
            let n = bind_new(m, to)?;
            miss_segment(alloc, setting, number, kind, link, end, e, n)
        }
    }
}

/// One piece, or none, to an end that is unbound and is bound to where it leads.
fn reach(
    alloc: Global,
    setting: &Setting,
    number: u32,
    kind: &Name,
    link: u32,
    to: Exp,
    e: Exp,
    m: Matching,
) -> Result<Turned, AllocError>
    requires { m.next + 1 < 4294967296 }
    ensures { IfOk result (λ turned. turned ≡ reach_of (rules_in setting.now) number kind.now link to e m) }
{
    let mut left = m;
    match piece(kind, link, e, left.left.as_slice()) {
        Some(place) => {
            let next = take_piece(link, &mut left, place)?;
            Ok(Turned::On(bind(left, to, next)?))
        }
        None => bind_end(alloc, setting, number, kind, link, to, e, left),
    }
}

/// A segment is wanted from an expression, which is read, to an end, which is not. There is room for a new logical variable.
pub fn want_segment(
    alloc: Global,
    setting: &Setting,
    number: u32,
    kind: &Name,
    link: u32,
    e: Exp,
    to: Exp,
    m: Matching,
) -> Result<Turned, AllocError>
    requires { m.next + 1 < 4294967296 }
    ensures { IfOk result (λ turned. turned ≡ want_segment_of (rules_in setting.now) number kind.now link e to m) }
{
    if is_unbound_in(setting, &m, to) {
        reach(alloc, setting, number, kind, link, to, e, m)
    } else {
        let end = read_in(setting, &m, to);
        walk(alloc, setting, number, kind, link, end, e, m)
    }
}
