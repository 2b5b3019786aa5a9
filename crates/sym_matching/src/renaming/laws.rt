//! Laws of renaming apart, each the contract of a function that does nothing.
ghost use Rattle.sym_matching.specs.Renaming.Laws.{
  ArgumentsStand,
  CoveringsAreApart,
  MatchIsCall,
  NumbersAreApart,
  PostBesideFrame,
  PostInCaller,
  PreInCaller,
  StateApartMeets,
};
ghost use Rattle.sym_matching.specs.Renaming.Sizes.{
  CalledIsWellFormed,
  CalledIsWithinSizes,
  FewBindingVariables,
  FewDistinct,
  FewHeapVariables,
  FewStateVariables,
  MappedHeapIsWellFormed,
  MappedIsWithinSizes,
  MappedPostIsWellFormed,
  MappedStateIsWellFormed,
  PostIsWellFormed,
  PostIsWithinSizes,
};

/// New numbers are existential, free, different, and the least: so there are as many below them, from 65,536 on, as are in use.
pub fn numbers_are_apart()
    ensures { NumbersAreApart }
{}

/// A precondition in its new numbers means the same under what its variables stand for, and its parameters stand for the
/// arguments.
pub fn precondition_in_caller()
    ensures holds { PreInCaller }
    ensures arguments { ArgumentsStand }
{}

/// A match of the precondition, in both modes, parts a heap into what the callee is lent and the frame.
pub fn match_is_call()
    ensures { MatchIsCall }
{}

/// A post that is met in the callee holds in the caller as it reads there, beside the frame too; what is in use keeps its value.
pub fn post_in_caller()
    ensures alone { PostInCaller }
    ensures beside { PostBesideFrame }
{}

/// A state with new numbers for its existential variables means the same; coverings match such states.
pub fn state_apart_means_the_same()
    ensures meaning { StateApartMeets }
    ensures coverings { CoveringsAreApart }
{}

/// Heaps within the sizes have few variables, so that there is room for new numbers.
pub fn variables_are_few()
    ensures heap { FewHeapVariables }
    ensures state { FewStateVariables }
    ensures binding { FewBindingVariables }
    ensures distinct { FewDistinct }
{}

/// What is read through a function on expressions is well formed, and within the sizes, where the function's results are.
pub fn mapped_is_well_formed()
    ensures sizes { MappedIsWithinSizes }
    ensures heap { MappedHeapIsWellFormed }
    ensures state { MappedStateIsWellFormed }
    ensures post { MappedPostIsWellFormed }
{}

/// What a spec is matched with, and its posts in the caller, are within the sizes.
pub fn called_is_within_sizes()
    ensures pre { CalledIsWithinSizes }
    ensures post { PostIsWithinSizes }
{}

/// What a spec is matched with, and its posts in the caller, are well formed, with as many parts as they have in the callee.
pub fn called_is_well_formed()
    ensures pre { CalledIsWellFormed }
    ensures post { PostIsWellFormed }
{}
