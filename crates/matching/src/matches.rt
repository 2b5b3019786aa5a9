//! The match as a whole.
ghost use Rattle.std.specs.Prelude.{◌≡◌, ◌++◌, ◌+◌, ◌<◌, ◌≤◌, IfOk, length};
ghost use Rattle.sym_matching.specs.Matches.{
  answer_abd,
  argument_variables as argument_variables_of,
  matching,
  rules_of,
  start_of,
  want_heap as want_heap_of,
  want_spatial as want_spatial_of,
};
ghost use Rattle.sym_matching.specs.NewVariables.{HasRoom};
ghost use Rattle.sym_matching.specs.Rooms.{IsWithinSizes, fields_of_all};
ghost use Rattle.sym_matching.specs.Steps.{and_then};
ghost use Rattle.sym_matching.specs.WantedFacts.{want_all_owed as want_all_owed_of, want_facts as want_facts_of};
ghost use Rattle.sym_matching.specs.declared.matching.Turned.TheVariants.{On};
ghost use Rattle.sym_matching.specs.Renaming.Sizes.{AreSmall, IsSmallBinding};
ghost use Rattle.sym_matching.specs.RuleSteps.InSetting.{rules_in};
ghost use Rattle.sym_matching.specs.Answers.{names_of_all};

use crate::atoms::{want_atoms, wanted_of};
use crate::facts::{want_all_owed, want_facts};
use shape_data::symbolic::{Exp, SymHeap};
use shape_data::{Row, copy_of};
use std::alloc::{AllocError, Global};
use sym_matching::renaming::variables::{add_binding, add_heap};
use sym_matching::rule_steps::reading::Setting;
use sym_matching::rule_steps::steps::all_facts;
use sym_matching::{Abd, Matching, Mode, Turned};
use sym_pure::has_junk;

/// The wanted atoms of a heap. There is room for their new variables.
fn want_spatial(
    alloc: Global,
    setting: &Setting,
    b: &SymHeap,
    m: Matching,
) -> Result<Turned, AllocError>
    requires room { HasRoom (fields_of_all b.now.spatial) m.used }
    requires names { m.next + names_of_all b.now.spatial < 4294967296 }
    requires few { length b.now.spatial < 4294967296 }
    ensures { IfOk result (λ turned. turned ≡ want_spatial_of (rules_in setting.now) b.now m) }
{
    let wanted = wanted_of(alloc, b.spatial.as_slice())?;
    want_atoms(alloc, setting, wanted, m)
}

/// The facts that fields left over.
fn want_left_over(alloc: Global, setting: &Setting, m: Matching) -> Result<Turned, AllocError>
    ensures { IfOk result (λ turned. turned ≡ want_all_owed_of (rules_in setting.now) m.owed m) }
{
    let owed = m.owed.as_slice().to_vec(alloc)?;
    want_all_owed(alloc, setting, owed.as_slice(), m)
}

/// The facts that fields left over, then the wanted facts, which are numbered after the atoms.
fn want_pure(
    alloc: Global,
    setting: &Setting,
    b: &SymHeap,
    m: Matching,
) -> Result<Turned, AllocError>
    requires { length b.now.spatial + length b.now.pure < 4294967296 }
    ensures { IfOk result (λ turned. turned
        ≡ and_then (want_facts_of (rules_in setting.now) (length b.now.spatial) b.now.pure)
        (want_all_owed_of (rules_in setting.now) m.owed m)) }
{
    match want_left_over(alloc, setting, m)? {
        Turned::On(n) => {
            let first = b.spatial.len() as u32;
            want_facts(alloc, setting, first, b.pure.as_slice(), n)
        }
        Turned::Stuck(number) => Ok(Turned::Stuck(number)),
    }
}

/// The wanted parts of a heap: its atoms, then the facts. There is room for their new variables.
pub fn want_heap(
    alloc: Global,
    setting: &Setting,
    b: &SymHeap,
    m: Matching,
) -> Result<Turned, AllocError>
    requires room { HasRoom (fields_of_all b.now.spatial) m.used }
    requires names { m.next + names_of_all b.now.spatial < 4294967296 }
    requires few { length b.now.spatial + length b.now.pure < 4294967296 }
    ensures { IfOk result (λ turned. turned ≡ want_heap_of (rules_in setting.now) b.now m) }
{
    match want_spatial(alloc, setting, b, m)? {
        Turned::On(n) => want_pure(alloc, setting, b, n),
        Turned::Stuck(number) => Ok(Turned::Stuck(number)),
    }
}

/// A match in a heap at its start: all atoms are left, and nothing is missing. New existential variables avoid the used ones, and
/// new logical ones are numbered from `next` on.
pub fn start(
    alloc: Global,
    a: &SymHeap,
    bound: &[(u32, Exp)],
    used: Vec<u32>,
    next: u32,
) -> Result<Matching, AllocError>
    ensures { IfOk result (λ m. m ≡ start_of a.now bound.now used.items next) }
{
    Ok(Matching {
        left: copy_of(&a.spatial)?,
        gone: Row::new(alloc),
        missing: SymHeap {
            pure: Row::new(alloc),
            spatial: Row::new(alloc),
        },
        binding: Row::from_vec(bound.to_vec(alloc)?),
        owed: Row::new(alloc),
        used: Row::from_vec(used),
        next,
    })
}

/// What a match that went to its end answers.
fn answer(alloc: Global, setting: &Setting, b: &SymHeap, m: Matching) -> Result<Abd, AllocError>
    ensures { IfOk result (λ found. found ≡ answer_abd (rules_in setting.now) b.now (On m)) }
{
    let Matching {
        left,
        missing,
        binding,
        ..
    } = m;
    let pure = all_facts(alloc, setting, &missing)?;
    let spatial = if has_junk(b.spatial.as_slice()) {
        Row::new(alloc)
    } else {
        left
    };
    Ok(Abd::Found {
        missing,
        frame: SymHeap { pure, spatial },
        binding,
    })
}

/// All variables that stand in the arguments of a match.
fn argument_variables(
    alloc: Global,
    a: &SymHeap,
    b: &SymHeap,
    bound: &[(u32, Exp)],
    flexible: &[u32],
) -> Result<Vec<u32>, AllocError>
    ensures { IfOk result (λ names. names.items ≡ argument_variables_of a.now b.now bound.now flexible.now) }
{
    let mut names = Vec::new(alloc);
    add_heap(&mut names, a)?;
    add_heap(&mut names, b)?;
    add_binding(&mut names, bound)?;
    names.extend_from_slice(flexible)?;
    Ok(names)
}

/// All variables that stand in the arguments of a match, and further ones.
fn used_variables(
    alloc: Global,
    a: &SymHeap,
    b: &SymHeap,
    bound: &[(u32, Exp)],
    flexible: &[u32],
    avoid: &[u32],
) -> Result<Vec<u32>, AllocError>
    ensures { IfOk result (λ names. names.items ≡ argument_variables_of a.now b.now bound.now flexible.now ++ avoid.now) }
{
    let mut names = argument_variables(alloc, a, b, bound, flexible)?;
    names.extend_from_slice(avoid)?;
    Ok(names)
}

/// The match of the wanted heap `b` in the heap `a`, in either mode. `bound` gives expressions to variables of `b`; those in
/// `flexible` may be given one by the match. New existential variables avoid those of the arguments and those in `avoid`; new
/// logical variables are numbered from `next` on.
///
/// `Found` has what is missing (in subtraction nothing), what is left over, and the binding with what was added to it. `NoMatch` has
/// the number of the wanted part that was not found: the atoms of `b` first, then its facts. The only error is want of memory.
pub fn find(
    alloc: Global,
    mode: Mode,
    a: &SymHeap,
    b: &SymHeap,
    bound: &[(u32, Exp)],
    flexible: &[u32],
    avoid: &[u32],
    next: u32,
) -> Result<Abd, AllocError>
    requires a { IsWithinSizes a.now }
    requires b { IsWithinSizes b.now }
    requires bound { IsSmallBinding bound.now }
    requires flexible { AreSmall flexible.now }
    requires avoid { AreSmall avoid.now }
    requires next { next ≤ 65536 }
    ensures { IfOk result (λ found. found
        ≡ answer_abd (rules_of mode a.now flexible.now) b.now (matching mode a.now b.now bound.now flexible.now avoid.now next)) }
{
    let used = used_variables(alloc, a, b, bound, flexible, avoid)?;
    let m = start(alloc, a, bound, used, next)?;
    let setting = Setting {
        mode,
        facts: a.pure.as_slice(),
        flexible,
    };
    match want_heap(alloc, &setting, b, m)? {
        Turned::On(n) => answer(alloc, &setting, b, n),
        Turned::Stuck(wanted) => Ok(Abd::NoMatch { wanted }),
    }
}
