//! Laws of annotation, each the contract of a function that does nothing.
ghost use Rattle.solve_laws.specs.Annotation.Laws.{DoneIsInductive, DoneIsSmall, DoneIsWellFormed};

/// What an annotation gives is inductive: nothing that it lists is refused by the rules that certificates are checked by.
pub fn done_is_inductive()
    ensures { DoneIsInductive }
{}

/// What an annotation gives is well formed where the precondition is, and within the limits of the analysis.
pub fn done_is_well_formed()
    ensures formed { DoneIsWellFormed }
    ensures small { DoneIsSmall }
{}
