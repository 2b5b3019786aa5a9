//! Laws of the tests and of the gaps.
ghost use Rattle.solve_laws.specs.Certificates.Laws.{
  NoGap,
  NoSpecGap,
  PostTestIsExact,
  PostsTestIsExact,
  StateTestIsExact,
  StatesTestIsExact,
};

/// The tests of coverings answer whether there is one.
pub fn tests_are_exact()
    ensures state { StateTestIsExact }
    ensures post { PostTestIsExact }
    ensures states { StatesTestIsExact }
    ensures posts { PostsTestIsExact }
{}

/// There is no gap exactly where a certificate, or an answer, is inductive.
pub fn no_gap_is_inductive()
    ensures spec { NoSpecGap }
    ensures answer { NoGap }
{}
