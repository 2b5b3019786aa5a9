//! What comes to a node or an exit is well formed.
ghost use Rattle.solve_laws.specs.Certificates.Results.{
  AtExitIsWellFormed,
  AtNodeIsWellFormed,
  NormalPostIsWellFormed,
  NormalStateIsWellFormed,
  StartAtNodeIsWellFormed,
  StartIsWellFormed,
};

/// Normal forms, the start state, and what comes to a node or to an exit are well formed where what was given is.
pub fn results_are_well_formed()
    ensures normal_state { NormalStateIsWellFormed }
    ensures normal_post { NormalPostIsWellFormed }
    ensures start { StartIsWellFormed }
    ensures start_at_node { StartAtNodeIsWellFormed }
    ensures at_node { AtNodeIsWellFormed }
    ensures at_exit { AtExitIsWellFormed }
{}
