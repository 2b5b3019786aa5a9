//! Limits of well-formedness, narrower and wider.
ghost use Rattle.solve_laws.specs.Certificates.Limits.{AnswerWidens, KeyWidens, StorableIsAnalysable};

/// Keys and answers within limits are within wider ones; the limits of a store are narrower than those of the analysis, and these than
/// those of well-formedness alone.
pub fn limits_widen()
    ensures keys { KeyWidens }
    ensures answers { AnswerWidens }
    ensures known { StorableIsAnalysable }
{}
