//! Laws of matching, each the contract of a function that does nothing.
ghost use Rattle.sym_matching.specs.Laws.{
  BiabduceGivesBeside,
  BiabduceKeepsBound,
  CoveringPostMeets,
  CoveringStateMeets,
  FittingCarries,
  MatchSplits,
  MissingIsLogical,
  SubtractGivesBeside,
  SubtractKeepsBound,
  SubtractMissesNothing,
  WellFormedFits,
};

/// In both modes: what holds the heap, with the missing part beside it, is under another assignment the sum of one that holds
/// the wanted heap and one that holds the frame. That assignment agrees on what was in use and on all logical variables, and
/// what was determined still reads the same.
pub fn match_splits()
    ensures { MatchSplits }
{}

/// Whatever is matched, nothing is missing in subtraction; in abduction what is missing speaks of logical variables and constants
/// alone.
pub fn missing_part()
    ensures nothing { SubtractMissesNothing }
    ensures logical { MissingIsLogical }
{}

/// Where subtraction answers `Match`, what holds the heap holds the bound wanted heap beside the frame.
pub fn subtract_gives_beside()
    ensures { SubtractGivesBeside }
{}

/// Where abduction answers `Found`, what holds the heap beside the missing part holds the bound wanted heap beside the frame, under
/// an assignment that agrees on the variables of both.
pub fn biabduce_gives_beside()
    ensures { BiabduceGivesBeside }
{}

/// A match keeps what was bound: in what it answers as binding a bound variable stands for what it was bound to, and what was
/// determined reads the same.
pub fn bound_variables_stay()
    ensures subtract { SubtractKeepsBound }
    ensures biabduce { BiabduceKeepsBound }
{}

/// What meets a state, or a post, meets each that covers it.
pub fn covering_is_met()
    ensures state { CoveringStateMeets }
    ensures post { CoveringPostMeets }
{}

/// What the other laws ask of the wanted atoms is true of those of each well-formed heap.
pub fn well_formed_heaps_fit()
    ensures { WellFormedFits }
{}

/// What fits over the structures of a key fits over those of each program that has them.
pub fn fitting_carries()
    ensures { FittingCarries }
{}
