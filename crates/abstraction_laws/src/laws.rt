//! Laws of abstraction, each the contract of a function that does nothing.
ghost use Rattle.abstraction_laws.specs.Laws.{
  AbstractExitWeakens,
  AbstractHeadWeakens,
  ForgetWeakens,
  JoinPairIsDone,
  ReduceIsDone,
  ReduceWeakens,
};
ghost use Rattle.abstraction_laws.specs.Results.{
  AbstractExitHasNoMoreParts,
  AbstractExitIsNormal,
  AbstractExitIsWellFormed,
  AbstractHeadHasNoMoreParts,
  AbstractHeadIsNormal,
  AbstractHeadIsWellFormed,
  AbstractPairHasNoMoreParts,
  AbstractPairIsNormal,
  AbstractPairIsWellFormed,
  AbstractPairIsWithin,
  AbstractPreHasNoMoreParts,
  AbstractPreIsNormal,
  AbstractPreIsWellFormed,
};
ghost use Rattle.abstraction_laws.specs.Rooms.{CellsHaveFewFields, JoinedPairHasRoom, LargePairHasRoom, WellFormedIsWithinRoom};

/// Whatever locals and heap meet a state meet its abstraction at the head of a loop, and whatever result and heap meet a post
/// meet its abstraction at an exit, in a recursive component or not; under the same assignment to the logical variables, and
/// over any structures. Where there is no abstraction, nothing meets the state or the post. (Of pairs and candidates no such
/// law is owed: each candidate is executed again without abduction, and what is not safe then is dropped.)
pub fn abstraction_weakens()
    ensures head { AbstractHeadWeakens }
    ensures exit { AbstractExitWeakens }
{}

/// The rules by themselves: forgetting constants weakens a state, and the second to the fourth rule a heap, these under the
/// same assignment to all variables.
pub fn rules_weaken()
    ensures first { ForgetWeakens }
    ensures others { ReduceWeakens }
{}

/// The repetitions end where nothing changes: of the second to the fourth rule, and of a pair's joins at logical variables.
pub fn repetitions_end()
    ensures rules { ReduceIsDone }
    ensures joins { JoinPairIsDone }
{}

/// What is answered is normal. (Of a pair the missing heap: its state is brought to normal form again before it is executed.)
pub fn abstraction_is_normal()
    ensures head { AbstractHeadIsNormal }
    ensures exit { AbstractExitIsNormal }
    ensures pair { AbstractPairIsNormal }
    ensures candidate { AbstractPreIsNormal }
{}

/// What is answered has no more parts than what was given, Junk included: where Junk is added, an atom goes.
pub fn abstraction_has_no_more_parts()
    ensures head { AbstractHeadHasNoMoreParts }
    ensures exit { AbstractExitHasNoMoreParts }
    ensures pair { AbstractPairHasNoMoreParts }
    ensures candidate { AbstractPreHasNoMoreParts }
{}

/// What is answered is well formed where what was given is; of pairs also where there are very many facts.
pub fn abstraction_is_well_formed()
    ensures head { AbstractHeadIsWellFormed }
    ensures exit { AbstractExitIsWellFormed }
    ensures pair { AbstractPairIsWellFormed }
    ensures large { AbstractPairIsWithin }
    ensures candidate { AbstractPreIsWellFormed }
{}

/// What abstraction needs of sizes holds of each well-formed state and heap, and of a pair of few atoms also where there are very many
/// facts; and after the first steps on a pair there is room for
/// as many new variables as there are logical ones.
pub fn well_formed_has_room()
    ensures state { WellFormedIsWithinRoom }
    ensures fields { CellsHaveFewFields }
    ensures large { LargePairHasRoom }
    ensures pair { JoinedPairHasRoom }
{}
