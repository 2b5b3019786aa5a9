//! Laws of what is known of a program, each the contract of a function that does nothing.
ghost use Rattle.bottom_up.specs.Laws.{EachIsReported, HonestIsFromNothing, LookedUpAreRight, RightAreReported};

use solve_laws::certificates::soundness::all_are_valid;
use solve_laws::laws::{solved_has_reasons, solved_is_inductive, solved_is_well_formed};

/// Each procedure of a well-formed program has a summary, whose specs are valid for it in the program; the summary is well formed, and
/// says why where it has no spec. So it is wherever the answers that keys are given are right, and so over loaded entries that are right
/// for their keys, since an answer that is solved is right as well.
pub fn each_is_reported()
    ensures solved { EachIsReported }
    ensures right { RightAreReported }
    ensures looked_up { LookedUpAreRight }
{
    solved_is_inductive();
    solved_is_well_formed();
    solved_has_reasons();
    all_are_valid();
}

/// Where each loaded answer is what solving its key gives, but for the mark of a stored answer, the summaries of a program are those that
/// are made from nothing; and so are all keys and answers, but for that mark.
pub fn honest_is_from_nothing()
    ensures { HonestIsFromNothing }
{}
