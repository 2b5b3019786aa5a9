//! Soundness: what the certificates of an inductive answer claim is valid.
ghost use Rattle.solve_laws.specs.Certificates.Laws.{AllAreValid, InductiveIsValid};

/// Each spec of an inductive answer is valid in every program in which its key stands: from each heap that meets the precondition,
/// beside any frame and under any choices, no run of the procedure faults, and each that returns meets one of the posts beside the
/// same frame. This goes through loops, calls and recursion; nothing is asked of the answer but its certificates, nor that any
/// procedure returns.
pub fn inductive_is_valid()
    ensures { InductiveIsValid }
{}

/// Up the components, the specs of all answers are valid, if each answer is inductive.
pub fn all_are_valid()
    ensures { AllAreValid }
{}
