//! Laws of the well-formedness and of the size of what a match answers, each the contract of a function that does nothing.
ghost use Rattle.sym_matching.specs.Answers.{
  BiabduceHasSizes,
  BiabduceIsWellFormed,
  MatchHasSizes,
  MatchIsWellFormed,
  SubtractHasSizes,
  SubtractIsWellFormed,
};

/// In both modes, within any limits: what is left, what is missing and the binding are well formed where the arguments are and the new
/// variables may occur. No more atoms are left than there were.
pub fn match_is_well_formed()
    ensures { MatchIsWellFormed }
{}

/// What a subtraction and an abduction answer is well formed where their arguments are, and few variables are to be avoided: new
/// variables are the least that are free.
pub fn answers_are_well_formed()
    ensures subtract { SubtractIsWellFormed }
    ensures biabduce { BiabduceIsWellFormed }
{}

/// How large what a match makes is, whatever its arguments are: no more atoms are left than there were, no more variables are bound anew
/// than are flexible, and no more parts are missing than are wanted, with one for each wanted field. A subtraction leaves all facts of the
/// heap.
pub fn answers_have_sizes()
    ensures both { MatchHasSizes }
    ensures subtract { SubtractHasSizes }
    ensures biabduce { BiabduceHasSizes }
{}
