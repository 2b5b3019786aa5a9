//! Laws of limits, each the contract of a function that does nothing.
ghost use Rattle.solve_laws.specs.Limits.Laws.{
  CandidatesAreStorable,
  ComposedKeysHaveSizes,
  DoneIsStorable,
  ExecutionKeepsLogical,
  ExitsKeepLogical,
};
ghost use Rattle.solve_laws.specs.Limits.Laws.{FormsHaveLowExistentials, NodesKeepLogical, SolvedIsStorable};

/// The existential variables of a canonical form have the first numbers.
pub fn forms_have_low_existentials()
    ensures { FormsHaveLowExistentials }
{}

/// Strict execution makes no logical variable, so these stay within the limits of a store.
pub fn execution_keeps_logical()
    ensures { ExecutionKeepsLogical }
{}

/// Nor does the abstraction of what comes to a node or to an exit.
pub fn abstraction_keeps_logical()
    ensures nodes { NodesKeepLogical }
    ensures exits { ExitsKeepLogical }
{}

/// Candidates are within the limits of a store.
pub fn candidates_are_storable()
    ensures { CandidatesAreStorable }
{}

/// What an annotation gives is within the limits of a store where the precondition is.
pub fn done_is_storable()
    ensures { DoneIsStorable }
{}

/// The answer of a key within the limits of a store is within them: of a program with few fields and slots.
pub fn solved_is_storable()
    ensures { SolvedIsStorable }
{}

/// The key of a component of a program with few fields and slots has few.
pub fn composed_keys_have_sizes()
    ensures { ComposedKeysHaveSizes }
{}
