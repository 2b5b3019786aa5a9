//! Subtraction: a match in which nothing may be missing.
ghost use Rattle.std.specs.Prelude.{◌≡◌, IfOk};
ghost use Rattle.sym_matching.specs.Matches.{subtract as subtract_of, subtract_avoiding as subtract_avoiding_of};
ghost use Rattle.sym_matching.specs.Rooms.{IsWithinSizes};
ghost use Rattle.sym_matching.specs.Renaming.Sizes.{AreSmall, IsSmallBinding};

use matching::find;
use shape_data::symbolic::{Exp, SymHeap};
use std::alloc::{AllocError, Global};
use sym_matching::{Abd, Mode, Sub};

/// Subtraction, as [`subtract`], whose new variables avoid further ones too: those of a state's locals, of a result, of a
/// missing heap.
pub fn subtract_avoiding(
    alloc: Global,
    a: &SymHeap,
    b: &SymHeap,
    bound: &[(u32, Exp)],
    flexible: &[u32],
    avoid: &[u32],
) -> Result<Sub, AllocError>
    requires a { IsWithinSizes a.now }
    requires b { IsWithinSizes b.now }
    requires bound { IsSmallBinding bound.now }
    requires flexible { AreSmall flexible.now }
    requires avoid { AreSmall avoid.now }
    ensures { IfOk result (λ sub. sub ≡ subtract_avoiding_of a.now b.now bound.now flexible.now avoid.now) }
{
    let found = find(alloc, Mode::Subtract, a, b, bound, flexible, avoid, 0)?;
    match found {
        Abd::Found { frame, binding, .. } => Ok(Sub::Match { frame, binding }),
        Abd::NoMatch { wanted } => Ok(Sub::NoMatch { wanted }),
    }
}

/// Takes the wanted heap `b` out of the heap `a`. `bound` gives expressions to variables of `b`; those in `flexible` may be
/// given one by the match.
///
/// `Match` has what is left over, and the binding with what was added to it: by the law
/// `sym_matching::laws::subtract_gives_beside` each heap that holds `a` is a sum of one that holds `b` under the binding and one
/// that holds the frame. `NoMatch` has the number of the wanted part that was not found: the atoms of `b` first, then its
/// facts. `a` should be normal, and no bound or flexible variable should occur in `a`; else the answer is still the
/// definition's. The only error is want of memory.
pub fn subtract(
    alloc: Global,
    a: &SymHeap,
    b: &SymHeap,
    bound: &[(u32, Exp)],
    flexible: &[u32],
) -> Result<Sub, AllocError>
    requires a { IsWithinSizes a.now }
    requires b { IsWithinSizes b.now }
    requires bound { IsSmallBinding bound.now }
    requires flexible { AreSmall flexible.now }
    ensures { IfOk result (λ sub. sub ≡ subtract_of a.now b.now bound.now flexible.now) }
{
    subtract_avoiding(alloc, a, b, bound, flexible, &[])
}
