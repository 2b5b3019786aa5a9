//! A function used on each expression of an atom, a fact, a heap, a state: substitutions, renamings and bindings are
//! such functions. What the result means is said by the laws of `crate::laws::mapping`.
ghost use Rattle.std.specs.Prelude.{◌≡◌, IfOk, map};
ghost use Rattle.sym_parts.specs.Laws.Mapped.{on_atom, on_fact, on_heap, on_post, on_state};

use shape_data::symbolic::{Atom, Exp, Fact, Post, SymHeap, SymState};
use shape_data::{Row, copy_of};
use std::alloc::{AllocError, Global};

/// A function on expressions, which takes no memory.
pub trait Mapping {
    ghost use Rattle.shape_data.specs.declared.symbolic.Exp.{Exp};

    /// What it makes of an expression.
    ghost image: { Self → Exp → Exp };

    /// The image of an expression.
    fn image_of(&self, e: Exp) -> Exp
        ensures { result ≡ image self.now e };
}

/// The images of expressions.
pub fn map_exps<M: Mapping>(
    alloc: Global,
    mapping: &M,
    list: &[Exp],
) -> Result<Vec<Exp>, AllocError>
    ensures { IfOk result (λ all. all.items ≡ map (M.image mapping.now) list.now) }
{
    let mut all = Vec::new(alloc);
    for e in list {
        all.push(mapping.image_of(*e))?;
    }
    Ok(all)
}

/// An atom with its expressions mapped.
pub fn map_atom<M: Mapping>(alloc: Global, mapping: &M, atom: &Atom) -> Result<Atom, AllocError>
    ensures { IfOk result (λ mapped. mapped ≡ on_atom (M.image mapping.now) atom.now) }
{
    match atom {
        Atom::Points { at, kind, fields } => Ok(Atom::Points {
            at: mapping.image_of(*at),
            kind: copy_of(kind)?,
            fields: Row::from_vec(map_exps(alloc, mapping, fields.as_slice())?),
        }),
        Atom::Seg {
            kind,
            link,
            from,
            to,
        } => Ok(Atom::Seg {
            kind: copy_of(kind)?,
            link: *link,
            from: mapping.image_of(*from),
            to: mapping.image_of(*to),
        }),
        Atom::Junk => Ok(Atom::Junk),
    }
}

/// Atoms with their expressions mapped.
pub fn map_atoms<M: Mapping>(
    alloc: Global,
    mapping: &M,
    atoms: &[Atom],
) -> Result<Vec<Atom>, AllocError>
    ensures { IfOk result (λ all. all.items ≡ map (on_atom (M.image mapping.now)) atoms.now) }
{
    let mut all = Vec::new(alloc);
    for atom in atoms {
        all.push(map_atom(alloc, mapping, atom)?)?;
    }
    Ok(all)
}

/// A fact with its sides mapped.
pub fn map_fact<M: Mapping>(mapping: &M, fact: Fact) -> Fact
    ensures { result ≡ on_fact (M.image mapping.now) fact }
{
    match fact {
        Fact::Eq(left, right) => Fact::Eq(mapping.image_of(left), mapping.image_of(right)),
        Fact::Ne(left, right) => Fact::Ne(mapping.image_of(left), mapping.image_of(right)),
    }
}

/// Facts with their sides mapped.
pub fn map_facts<M: Mapping>(
    alloc: Global,
    mapping: &M,
    facts: &[Fact],
) -> Result<Vec<Fact>, AllocError>
    ensures { IfOk result (λ all. all.items ≡ map (on_fact (M.image mapping.now)) facts.now) }
{
    let mut all = Vec::new(alloc);
    for fact in facts {
        all.push(map_fact(mapping, *fact))?;
    }
    Ok(all)
}

/// A heap with its expressions mapped.
pub fn map_heap<M: Mapping>(
    alloc: Global,
    mapping: &M,
    heap: &SymHeap,
) -> Result<SymHeap, AllocError>
    ensures { IfOk result (λ mapped. mapped ≡ on_heap (M.image mapping.now) heap.now) }
{
    Ok(SymHeap {
        pure: Row::from_vec(map_facts(alloc, mapping, heap.pure.as_slice())?),
        spatial: Row::from_vec(map_atoms(alloc, mapping, heap.spatial.as_slice())?),
    })
}

/// A state with its expressions mapped.
pub fn map_state<M: Mapping>(
    alloc: Global,
    mapping: &M,
    state: &SymState,
) -> Result<SymState, AllocError>
    ensures { IfOk result (λ mapped. mapped ≡ on_state (M.image mapping.now) state.now) }
{
    Ok(SymState {
        locals: Row::from_vec(map_exps(alloc, mapping, state.locals.as_slice())?),
        heap: map_heap(alloc, mapping, &state.heap)?,
    })
}

/// A post with its expressions mapped.
pub fn map_post<M: Mapping>(alloc: Global, mapping: &M, post: &Post) -> Result<Post, AllocError>
    ensures { IfOk result (λ mapped. mapped ≡ on_post (M.image mapping.now) post.now) }
{
    Ok(Post {
        ret: mapping.image_of(post.ret),
        heap: map_heap(alloc, mapping, &post.heap)?,
    })
}
