//! Laws of candidates, each the contract of a function that does nothing.
ghost use Rattle.solve_laws.specs.Candidates.Laws.{CandidatesAreFew, CandidatesAreWellFormed, CandidatesHaveSamples};

/// Some heap meets each candidate: it is normal, and its sources are pairwise distinct variables.
pub fn candidates_have_samples()
    ensures { CandidatesHaveSamples }
{}

/// Candidates are well formed, with at most 96 parts each, and there are at most eight.
pub fn candidates_are_well_formed()
    ensures formed { CandidatesAreWellFormed }
    ensures few { CandidatesAreFew }
{}
