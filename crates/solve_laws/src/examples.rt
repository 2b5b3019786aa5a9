//! Answers for small procedures, each by computation.
ghost use Rattle.std.specs.Prelude.{◌≡◌, false, true, [], ◌∷◌};
ghost use Rattle.std.specs.declared.option.Option.TheVariants.{None};
ghost use Rattle.shape_data.specs.declared.answer.Budget.TheVariants as budget;
ghost use Rattle.shape_data.specs.declared.answer.Fault.TheVariants as fault;
ghost use Rattle.shape_data.specs.declared.answer.Reason.TheVariants as reason;
ghost use Rattle.sym_parts.specs.Shapes.Examples.{bad_flow};
ghost use Rattle.solve_laws.specs.Certificates.Examples.{
  answer_of,
  get_cert,
  get_flow,
  get_key,
  get_spec,
  key_of,
  length_flow,
  length_key,
  read_flow,
};
ghost use Rattle.solve_laws.specs.Candidates.Examples.{spin_flow};
ghost use Rattle.solve_laws.specs.Examples.{answer_without, forever_flow, length_specs, specs_of_all};
ghost use Rattle.solve_laws.specs.Solving.{after_rounds, no_specs, rounds, solve, MOST_ROUNDS};

/// A procedure that reads a field has the spec of one node, with its certificate.
#[tactic(auto, unfolding(crate::specs::Solving::solve, crate::specs::Candidates::Candidates::candidates, crate::specs::Annotation::Annotation::annotate, sym_matching::specs::Steps::contradicts))]
pub fn reads_a_field()
    ensures { solve get_key ≡ answer_of get_flow get_spec get_cert }
{}

/// Procedures without a spec, each with its reason: the first drop of the search, or that no path ends.
#[tactic(auto, unfolding(crate::specs::Solving::solve, crate::specs::Candidates::Candidates::candidates, crate::specs::Annotation::Annotation::annotate, sym_matching::specs::Steps::contradicts))]
pub fn says_why_there_is_none()
    ensures freed { solve (key_of false bad_flow []) ≡ answer_without bad_flow (reason.NoPath fault.Null 0) }
    ensures unknown { solve (key_of false read_flow []) ≡ answer_without read_flow (reason.NoPath fault.Callee 1) }
    ensures endless { solve (key_of false spin_flow []) ≡ answer_without spin_flow reason.Endless }
    ensures forever { solve (key_of true forever_flow []) ≡ answer_without forever_flow (reason.NoPath fault.Callee 2) }
{}

/// A procedure that calls itself: in rounds, of which each has the specs of the one before.
#[tactic(auto, unfolding(crate::specs::Solving::solve, crate::specs::Candidates::Candidates::candidates, crate::specs::Annotation::Annotation::annotate, sym_matching::specs::Steps::contradicts))]
pub fn calls_itself()
    ensures { specs_of_all (solve length_key) ≡ length_specs ∷ [] }
{}

/// There are eight rounds at most. Where they are spent, no procedure has a spec.
#[tactic(auto, unfolding(crate::specs::Solving::solve, crate::specs::Candidates::Candidates::candidates, crate::specs::Annotation::Annotation::annotate, sym_matching::specs::Steps::contradicts))]
pub fn counts_rounds()
    ensures most { MOST_ROUNDS ≡ 8 }
    ensures none { rounds 0 length_key (no_specs length_key) ≡ None }
    ensures spent { after_rounds length_key None ≡ (answer_without length_flow (reason.Spent budget.Rounds 8)).procs }
{}
