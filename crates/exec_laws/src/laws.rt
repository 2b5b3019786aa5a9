//! Laws of execution, each the contract of a function that does nothing.
ghost use Rattle.exec_laws.specs.Laws.{
  AllAnswersAreWellFormed,
  AllRowsKeepWellFormed,
  AnswersAreForms,
  AnswersAreWellFormed,
  CallsKeepWellFormed,
  ExecutionIsSound,
  ExecutionIsSoundBesideFrames,
  ExecutionIsSoundOnAnyStack,
  FoundFitsAreWithin,
  MoreTurnsChangeNothing,
  RowsKeepWellFormed,
  SearchCasesAreWellFormed,
  SubtractedFitsAreWithin,
};

/// Where strict execution answers `Next`, the node's command, in each program whose structures contain those of the call, leads from
/// whatever meets the state to what meets one of the successors or exits. First with nothing beside its heap and nobody waiting for it,
/// where a call fits one of the table's specs; and so, where these specs are valid, beside every frame, and on top of any frames that
/// wait. Nothing is said of a call under a cut table.
pub fn execution_is_sound()
    ensures alone { ExecutionIsSound }
    ensures beside_frames { ExecutionIsSoundBesideFrames }
    ensures on_any_stack { ExecutionIsSoundOnAnyStack }
{}

/// What strict execution answers is in normal and then canonical form. For a command other than a call it is well formed where the
/// state is, with at most three parts more; and for every command, with at most as many more as the heaps of the table's specs have.
pub fn answers_are_forms()
    ensures forms { AnswersAreForms }
    ensures well_formed { AnswersAreWellFormed }
    ensures all_well_formed { AllAnswersAreWellFormed }
{}

/// Each empty case takes a segment away, so that as many turns of expose as there are atoms are enough.
pub fn turns_are_enough()
    ensures { MoreTurnsChangeNothing }
{}

/// In both modes, the cases of a command other than a call are well formed where the pair is, with at most three parts more; they go on at
/// nodes that are there.
pub fn rows_keep_well_formed()
    ensures { RowsKeepWellFormed }
{}

/// What a spec that fits a call gives is well formed, and leaves room for the variables of its posts.
pub fn fits_are_within()
    ensures subtracted { SubtractedFitsAreWithin }
    ensures found { FoundFitsAreWithin }
{}

/// In both modes, the cases of a call are well formed where the pair is, with at most as many parts more as the heaps of the table's specs
/// have, and as may be missing for a precondition; and so the cases of every command.
pub fn calls_keep_well_formed()
    ensures calls { CallsKeepWellFormed }
    ensures all { AllRowsKeepWellFormed }
{}

/// What the search answers for a node, in normal and canonical form, is well formed where the pair is, for every command.
pub fn search_cases_are_well_formed()
    ensures { SearchCasesAreWellFormed }
{}
