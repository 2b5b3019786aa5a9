//! Searches of small procedures, each by computation.
ghost use Rattle.std.specs.Prelude.{◌≡◌, [], ◌∷◌, ◌++◌};
ghost use Rattle.std.specs.declared.option.Option.TheVariants.{None};
ghost use Rattle.shape_data.specs.declared.answer.Fault.TheVariants as fault;
ghost use Rattle.sym_parts.specs.Shapes.Examples.{bad_flow};
ghost use Rattle.solve_laws.specs.Certificates.Examples.{get_flow, length_flow, length_spec, one_node, read_flow, walk_flow, whole_list};
ghost use Rattle.exec_laws.specs.declared.parts.Case.TheVariants.{Drops};
ghost use Rattle.solve_laws.specs.Candidates.Candidates.{candidates, cases_of_pair, turn_of, turns, MOST_TURNS};
ghost use Rattle.solve_laws.specs.Candidates.Examples.{
  at_second,
  calling,
  drop_at,
  found,
  found_before,
  found_but,
  known_by,
  large_pair,
  last_node,
  length_calling,
  list_pair,
  listed,
  never_pair,
  no_length,
  node_and_list,
  null_by_equation,
  null_heap,
  null_pair,
  read_task,
  searching,
  spin_flow,
  twice_task,
  x_pair,
};
ghost use Rattle.solve_laws.specs.Candidates.Searching.{candidate_comes, pair_comes};

/// A procedure that reads a field needs one node; of one that frees it before, no path is left: x may be null, and then the read is
/// dropped.
#[tactic(auto, unfolding(crate::specs::Candidates::Candidates::candidates, sym_matching::specs::Steps::contradicts))]
pub fn reads_a_field()
    ensures one { candidates (calling get_flow []) ≡ found (one_node ∷ []) }
    ensures freed { candidates (calling bad_flow []) ≡ found_but [] fault.Null 0 }
{}

/// A loop: the empty list, one node, and a list, which the joins at its head make of two nodes. Of a loop without end there is no
/// candidate, and no drop.
#[tactic(auto, unfolding(crate::specs::Candidates::Candidates::candidates, sym_matching::specs::Steps::contradicts))]
pub fn walks_along_a_list()
    ensures list { candidates (calling walk_flow []) ≡ found (null_heap ∷ last_node ∷ whole_list ∷ []) }
    ensures endless { candidates (calling spin_flow []) ≡ found [] }
{}

/// A call, by what is missing for the callee's spec; without a spec, a drop on the line of the call. Two lists from the same address are
/// no candidate, since their sources are the same.
#[tactic(auto, unfolding(crate::specs::Candidates::Candidates::candidates, sym_matching::specs::Steps::contradicts))]
pub fn calls_another()
    ensures known { candidates read_task ≡ found (one_node ∷ []) }
    ensures unknown { candidates (calling read_flow []) ≡ found_but [] fault.Callee 1 }
    ensures twice { candidates twice_task ≡ found_but [] fault.Alias 3 }
{}

/// A procedure that calls itself: while no spec is known, the call is dropped, also under a cut table; by the spec of the empty list one
/// node more; by that of a list a list again, since its candidates are joined, and those of a procedure that calls another are not.
#[tactic(auto, unfolding(crate::specs::Candidates::Candidates::candidates, sym_matching::specs::Steps::contradicts))]
pub fn calls_itself()
    ensures unknown { candidates (known_by length_flow []) ≡ found_but (null_heap ∷ []) fault.Callee 3 }
    ensures empty { candidates (known_by length_flow (no_length ∷ [])) ≡ found (null_heap ∷ last_node ∷ []) }
    ensures list { candidates (known_by length_flow (length_spec ∷ [])) ≡ found (null_heap ∷ whole_list ∷ []) }
    ensures another { candidates length_calling ≡ found (null_heap ∷ node_and_list ∷ []) }
{}

/// A pair that comes to a node: its parts are counted first, then it is compared with those that are listed, and then these are counted.
/// It waits behind the others. The first drop stays.
pub fn counts_pairs()
    ensures sixteenth { pair_comes 7 0 x_pair (searching (listed 15) [] [] None)
        ≡ searching (listed 15 ++ x_pair ∷ []) ((0, x_pair) ∷ []) [] None }
    ensures last { pair_comes 7 0 x_pair (searching [] ((1, null_pair) ∷ []) [] None)
        ≡ searching (x_pair ∷ []) ((1, null_pair) ∷ (0, x_pair) ∷ []) [] None }
    ensures seventeenth { pair_comes 7 0 x_pair (searching (listed 16) [] [] None) ≡ searching (listed 16) [] [] (drop_at fault.States 7) }
    ensures known { pair_comes 7 0 null_pair (searching (listed 16) [] [] None) ≡ searching (listed 16) [] [] None }
    ensures small { pair_comes 7 0 (large_pair 96) (searching [] [] [] None)
        ≡ searching (large_pair 96 ∷ []) ((0, large_pair 96) ∷ []) [] None }
    ensures large { pair_comes 7 0 (large_pair 97) (searching (large_pair 97 ∷ []) [] [] None)
        ≡ searching (large_pair 97 ∷ []) [] [] (drop_at fault.Parts 7) }
    ensures dropped { pair_comes 7 0 (large_pair 97) (searching [] [] [] (drop_at fault.Null 3))
        ≡ searching [] [] [] (drop_at fault.Null 3) }
{}

/// After eight candidates the rest is left out; and where no turn is left, a pair that waits is dropped at the line of its node.
pub fn counts_candidates_and_turns()
    ensures most { MOST_TURNS ≡ 2048 }
    ensures eighth { candidate_comes 7 null_heap (searching [] [] (found_before 7) None)
        ≡ searching [] [] (found_before 7 ++ null_heap ∷ []) None }
    ensures ninth { candidate_comes 7 null_heap (searching [] [] (found_before 8) None) ≡ searching [] [] (found_before 8) None }
    ensures known { candidate_comes 7 last_node (searching [] [] (found_before 1) None) ≡ searching [] [] (found_before 1) None }
    ensures last_turn { turns 0 read_task (searching [] ((1, x_pair) ∷ []) [] None)
        ≡ searching [] ((1, x_pair) ∷ []) [] (drop_at fault.Turns 2) }
    ensures ended { turns 0 read_task (searching [] [] [] None) ≡ searching [] [] [] None }
{}

/// The state of a pair is brought to normal form again before its turn; and what a turn drops is dropped at the line of the node whose turn
/// it is, and not of the node that it would have come to.
#[tactic(auto, unfolding(sym_matching::specs::Steps::contradicts))]
pub fn executes_pairs()
    ensures equation { cases_of_pair (calling get_flow []) 0 null_by_equation ≡ Drops fault.Null ∷ [] }
    ensures contradiction { cases_of_pair (calling get_flow []) 0 never_pair ≡ [] }
    ensures line { turn_of twice_task 0 list_pair (at_second 16 None) ≡ at_second 16 (drop_at fault.States 1) }
{}
