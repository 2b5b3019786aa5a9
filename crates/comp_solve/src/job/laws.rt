//! What follows where an answer agrees with the loaded ones.
ghost use Rattle.comp_solve.specs.Job.Laws.{AgreedAreLookedUp};

/// An answer that is right for its key, and is that of the first loaded entry with the key, or, where there is none, was read from no
/// store, is the one that is looked up.
pub fn agreed_are_looked_up()
    ensures { AgreedAreLookedUp }
{}
