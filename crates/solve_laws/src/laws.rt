//! Laws of solving, each the contract of a function that does nothing but call the laws that it stands on.
ghost use Rattle.solve_laws.specs.Laws.{
  SolvedHasReasons,
  SolvedIsFew,
  SolvedIsInductive,
  SolvedIsWellFormed,
  SpecsFitKeys,
  StandingIsWellFormed,
  StandingStaysWellFormed,
  TasksAreWellFormed,
};

use crate::annotation::laws::{done_is_inductive, done_is_well_formed};
use crate::candidates::laws::candidates_are_well_formed;

/// The answer of a well-formed key is inductive: each spec has a certificate that passes the check.
pub fn solved_is_inductive()
    ensures { SolvedIsInductive }
{
    candidates_are_well_formed();
    done_is_well_formed();
    done_is_inductive();
}

/// It is well formed, with at most 96 parts in each heap, eight specs a procedure, and sixteen states at a node.
pub fn solved_is_well_formed()
    ensures formed { SolvedIsWellFormed }
    ensures few { SolvedIsFew }
{
    candidates_are_well_formed();
    done_is_well_formed();
}

/// A procedure without a spec has a reason.
pub fn solved_has_reasons()
    ensures { SolvedHasReasons }
{
    candidates_are_well_formed();
    done_is_well_formed();
}

/// On the way to the answer the analysis of each procedure is well formed, and so is what stands: its specs, and its certificates.
pub fn standing_is_well_formed()
    ensures specs { SpecsFitKeys }
    ensures tasks { TasksAreWellFormed }
    ensures made { StandingIsWellFormed }
    ensures kept { StandingStaysWellFormed }
{
    candidates_are_well_formed();
    done_is_well_formed();
}
