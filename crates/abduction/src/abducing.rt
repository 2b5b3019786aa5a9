//! Abduction: a match in which parts may be missing that speak of logical variables and constants alone.
ghost use Rattle.std.specs.Prelude.{◌≡◌, ◌≤◌, [], IfOk};
ghost use Rattle.sym_matching.specs.Matches.{biabduce as biabduce_of, biabduce_avoiding as biabduce_avoiding_of};
ghost use Rattle.sym_matching.specs.Rooms.{IsWithinSizes};
ghost use Rattle.sym_matching.specs.Renaming.Sizes.{AreSmall, IsSmallBinding};
ghost use Rattle.abduction.specs.Found.{IsLogical, SplitsBeside};

use matching::find;
use shape_data::symbolic::{Exp, SymHeap};
use std::alloc::{AllocError, Global};
use sym_matching::{Abd, Mode};

/// Abduction, as [`biabduce`], whose new existential variables avoid further ones too: those of a state's locals, of a result, of a
/// heap that is missing already.
pub fn biabduce_avoiding(
    alloc: Global,
    a: &SymHeap,
    b: &SymHeap,
    bound: &[(u32, Exp)],
    flexible: &[u32],
    fresh: u32,
    avoid: &[u32],
) -> Result<Abd, AllocError>
    requires a { IsWithinSizes a.now }
    requires b { IsWithinSizes b.now }
    requires bound { IsSmallBinding bound.now }
    requires flexible { AreSmall flexible.now }
    requires fresh { fresh ≤ 65536 }
    requires avoid { AreSmall avoid.now }
    ensures value { IfOk result (λ found. found ≡ biabduce_avoiding_of a.now b.now bound.now flexible.now fresh avoid.now) }
    ensures logical { IfOk result IsLogical }
    ensures beside { IfOk result (SplitsBeside a.now b.now bound.now flexible.now avoid.now) }
{
    find(alloc, Mode::Abduce, a, b, bound, flexible, avoid, fresh)
}

/// Takes the wanted heap `b` out of the heap `a` with what is missing for it. `bound` gives expressions to variables of `b`; those in
/// `flexible` may be given one by the match. New logical variables are numbered from `fresh` on.
///
/// `Found` has what is missing, which speaks of logical variables and constants alone, what is left over, and the binding with what
/// was added to it: each heap that holds `a` and the missing part side by side is a sum of one that holds `b` under the binding and
/// one that holds the frame. `NoMatch` has the number of the wanted part that was neither found nor could be missing: the atoms of `b`
/// first, then its facts.
///
/// `a` should be normal, no bound or flexible variable should occur in `a`, and `fresh` should be above all logical variables of the
/// arguments; else the answer is still the definition's. Where `b` has at most 96 parts and cells of at most 16 fields, and `fresh`
/// is at most 60,000, there are logical variables enough. The only error is want of memory.
pub fn biabduce(
    alloc: Global,
    a: &SymHeap,
    b: &SymHeap,
    bound: &[(u32, Exp)],
    flexible: &[u32],
    fresh: u32,
) -> Result<Abd, AllocError>
    requires a { IsWithinSizes a.now }
    requires b { IsWithinSizes b.now }
    requires bound { IsSmallBinding bound.now }
    requires flexible { AreSmall flexible.now }
    requires fresh { fresh ≤ 65536 }
    ensures value { IfOk result (λ found. found ≡ biabduce_of a.now b.now bound.now flexible.now fresh) }
    ensures logical { IfOk result IsLogical }
    ensures beside { IfOk result (SplitsBeside a.now b.now bound.now flexible.now []) }
{
    biabduce_avoiding(alloc, a, b, bound, flexible, fresh, &[])
}
