//! Whether a heap has a sample: it is normal, and the sources of its atoms, the addresses of cells and the starts of segments, are pairwise
//! distinct variables.
ghost use Rattle.std.specs.Prelude.{◌≡◌, IfOk};
ghost use Rattle.std.specs.List.{list_all};
ghost use Rattle.sym_samples.specs.Samples.{
  has_plain_sources as has_plain_sources_of,
  has_sample as has_sample_of,
  is_variable as is_variable_of,
  starts as starts_of_atoms,
};

use shape_data::symbolic::{Atom, Exp, SymHeap};
use std::alloc::{AllocError, Global};
use sym_parts::has_double;
use sym_pure::is_normal_heap;

/// The sources of atoms: the addresses of cells and the starts of segments.
fn starts_of(alloc: Global, atoms: &[Atom]) -> Result<Vec<Exp>, AllocError>
    ensures { IfOk result (λ all. all.items ≡ starts_of_atoms atoms.now) }
{
    let mut all = Vec::new(alloc);
    for atom in atoms {
        match atom {
            Atom::Points { at, .. } => all.push(*at)?,
            Atom::Seg { from, .. } => all.push(*from)?,
            Atom::Junk => {}
        }
    }
    Ok(all)
}

fn is_variable(e: Exp) -> bool
    ensures { result ≡ is_variable_of e }
{
    match e {
        Exp::Var(_) => true,
        Exp::Const(_) => false,
    }
}

fn are_variables(list: &[Exp]) -> bool
    ensures { result ≡ list_all is_variable_of list.now }
{
    list.iter().all(|e| is_variable(*e))
}

/// Whether the sources of the heap's atoms are pairwise distinct variables. The only error is want of memory.
pub fn has_plain_sources(alloc: Global, pre: &SymHeap) -> Result<bool, AllocError>
    ensures { IfOk result (λ plain. plain ≡ has_plain_sources_of pre.now) }
{
    let starts = starts_of(alloc, pre.spatial.as_slice())?;
    Ok(are_variables(starts.as_slice()) && !has_double(starts.as_slice()))
}

/// Whether the heap has a sample.
pub fn has_sample(alloc: Global, pre: &SymHeap) -> Result<bool, AllocError>
    ensures { IfOk result (λ has. has ≡ has_sample_of pre.now) }
{
    let has_plain = has_plain_sources(alloc, pre)?;
    Ok(is_normal_heap(pre) && has_plain)
}
