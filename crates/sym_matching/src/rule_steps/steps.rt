//! The steps that the rules of matching are made of: binding, owing, taking, unfolding.
ghost use Rattle.std.specs.Prelude.{◌≡◌, ◌+◌, ◌<◌, ◌≤◌, ◌++◌, ◌∷◌, [], IfOk, length, slice_index_or, pos};
ghost use Rattle.std.specs.List.{insert};
ghost use Rattle.std.specs.Str.{bytes_eq};
ghost use Rattle.shape_data.specs.declared.symbolic.Atom.TheVariants.{Points, Seg};
ghost use Rattle.shape_data.specs.declared.symbolic.Exp.TheVariants.{Const};
ghost use Rattle.sym_matching.specs.Reading.{is_unbound as is_unbound_of, read as read_of};
ghost use Rattle.sym_matching.specs.Steps.{bind as bind_of, bind_new as bind_new_of, owe as owe_of, whole as whole_of};
ghost use Rattle.sym_matching.specs.RuleSteps.InSetting.{rules_in};

use crate::rule_steps::reading::{Setting, is_unbound, read};
use crate::{Matching, Owed};
use shape_data::symbolic::{Atom, Exp, Fact, SymHeap};
use shape_data::{Name, Row, copy_of};
use std::alloc::{AllocError, Global};

/// Whether two names are the same.
pub fn is_same_name(left: &Name, right: &Name) -> bool
    ensures { result ≡ bytes_eq left.now right.now }
{
    left == right
}

/// An expression that is a variable gets an expression.
pub fn bind(m: Matching, e: Exp, f: Exp) -> Result<Matching, AllocError>
    ensures { IfOk result (λ n. n ≡ bind_of m e f) }
{
    let mut m = m;
    if let Exp::Var(x) = e {
        m.binding.push((x, f))?;
    }
    Ok(m)
}

/// An expression that is a variable gets the next new logical variable.
pub fn bind_new(m: Matching, e: Exp) -> Result<Matching, AllocError>
    requires { m.next + 1 < 4294967296 }
    ensures { IfOk result (λ n. n ≡ bind_new_of m e) }
{
    let next = m.next;
    let mut n = bind(m, e, Exp::Var(next))?;
    n.next = next + 1;
    Ok(n)
}

/// The fact that a wanted expression is equal to one of the heap is left over.
pub fn owe(m: Matching, number: u32, want: Exp, have: Exp) -> Result<Matching, AllocError>
    ensures { IfOk result (λ n. n ≡ owe_of m number want have) }
{
    let mut m = m;
    m.owed.push(Owed { number, want, have })?;
    Ok(m)
}

/// The expression at a place (what a slot holds, or a cell's field), or 0 where there is none.
pub fn exp_at(list: &[Exp], place: u32) -> Exp
    ensures { result ≡ slice_index_or list.now place (Const (pos 0)) }
{
    list.get(place as usize).copied().unwrap_or(Exp::Const(0))
}

/// Puts a segment in at a place, from the link of a cell with these fields, and takes that cell.
pub fn put_unfolded(
    m: Matching,
    place: usize,
    kind: Name,
    link: u32,
    from: Exp,
    to: Exp,
    fields: Row<Exp>,
) -> Result<Matching, AllocError>
    requires { place ≤ length m.left }
    ensures { IfOk result (λ n. n
        ≡ record m {
          left = insert m.left place (Seg kind link (slice_index_or fields link (Const (pos 0))) to);
          gone = m.gone ++ Points from kind fields ∷ [];
        }) }
{
    let mut m = m;
    let next = exp_at(fields.as_slice(), link);
    let rest = Atom::Seg {
        kind: copy_of(&kind)?,
        link,
        from: next,
        to,
    };
    m.left.insert(place, rest)?;
    m.gone.push(Atom::Points {
        at: from,
        kind,
        fields,
    })?;
    Ok(m)
}

/// The facts of the heap and of the missing part.
pub fn all_facts(
    alloc: Global,
    setting: &Setting,
    missing: &SymHeap,
) -> Result<Row<Fact>, AllocError>
    ensures { IfOk result (λ all. all ≡ setting.now.facts.now ++ missing.now.pure) }
{
    let mut all = setting.facts.to_vec(alloc)?;
    all.extend_from_slice(missing.pure.as_slice())?;
    Ok(Row::from_vec(all))
}

/// Puts copies of the atoms behind others. The only error is want of memory.
pub fn add_atoms(all: &mut Row<Atom>, atoms: &[Atom]) -> Result<(), AllocError>
    ensures { IfOk result (λ _. all.new ≡ all.old ++ atoms.now) }
{
    for atom in atoms {
        all.push(copy_of(atom)?)?;
    }
    Ok(())
}

/// The whole heap with the missing part: what is left and what was taken, with all facts.
pub fn whole(alloc: Global, setting: &Setting, m: &Matching) -> Result<SymHeap, AllocError>
    ensures { IfOk result (λ all. all ≡ whole_of (rules_in setting.now) m.now) }
{
    let mut spatial = copy_of(&m.left)?;
    add_atoms(&mut spatial, m.gone.as_slice())?;
    Ok(SymHeap {
        pure: all_facts(alloc, setting, &m.missing)?,
        spatial,
    })
}

/// An expression of the wanted heap, read as the match stands.
pub fn read_in(setting: &Setting, m: &Matching, e: Exp) -> Exp
    ensures { result ≡ read_of setting.now.facts.now m.now.binding e }
{
    read(setting.facts, m.binding.as_slice(), e)
}

/// Whether the expression is unbound as the match stands.
pub fn is_unbound_in(setting: &Setting, m: &Matching, e: Exp) -> bool
    ensures { result ≡ is_unbound_of setting.now.flexible.now m.now.binding e }
{
    is_unbound(setting.flexible, m.binding.as_slice(), e)
}
