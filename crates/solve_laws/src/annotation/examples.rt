//! Annotations of small procedures, each by computation.
ghost use Rattle.std.specs.Prelude.{◌≡◌, true, false, [], ◌∷◌, ◌++◌};
ghost use Rattle.shape_data.specs.declared.answer.Budget.TheVariants as budget;
ghost use Rattle.shape_data.specs.declared.answer.Fault.TheVariants as fault;
ghost use Rattle.shape_data.specs.declared.symbolic.Exp.TheVariants.{Var};
ghost use Rattle.sym_matching.specs.Examples.{any, heap, null};
ghost use Rattle.exec_laws.specs.Examples.{post};
ghost use Rattle.solve_laws.specs.Certificates.Examples.{get_cert, get_flow, length_flow, one_node, read_cert, walk_flow, whole_list};
ghost use Rattle.solve_laws.specs.declared.annotation.parts.Annotated.TheVariants.{Done, Fail, Spent};
ghost use Rattle.solve_laws.specs.Annotation.Annotation.{all_done, annotate, turns, MOST_TURNS};
ghost use Rattle.solve_laws.specs.Annotation.Examples.{
  exits_before,
  large_heap,
  large_state,
  length_cut_cert,
  listed,
  listing,
  no_heap,
  nothing_cert,
  null_heap,
  null_state,
  read_task,
  reads_null,
  reads_unowned,
  strict,
  unknown,
  walk_whole_cert,
  x_state,
};
ghost use Rattle.solve_laws.specs.Annotation.Listing.{exit_comes, state_comes, Ends, Goes};

/// A procedure that reads a field: from one node; from null, and from nothing, which fail on its line; and from what no heap meets, where
/// nothing comes to any node.
#[tactic(auto, unfolding(crate::specs::Annotation::Annotation::annotate, sym_matching::specs::Steps::contradicts))]
pub fn reads_a_field()
    ensures one { annotate (strict get_flow []) one_node ≡ Done (post (Var 1) one_node ∷ []) get_cert }
    ensures at_null { annotate (strict get_flow []) null_heap ≡ Fail fault.Null 1 }
    ensures not_owned { annotate (strict get_flow []) (heap [] []) ≡ Fail fault.Unowned 1 }
    ensures unmet { annotate (strict get_flow []) no_heap ≡ Done [] nothing_cert }
{}

/// A loop: what comes round to its head is listed until nothing new comes, and the last of three exits covers the others.
#[tactic(auto, unfolding(crate::specs::Annotation::Annotation::annotate, sym_matching::specs::Steps::contradicts))]
pub fn walks_along_a_list()
    ensures { annotate (strict walk_flow []) whole_list ≡ Done (post null whole_list ∷ []) walk_whole_cert }
{}

/// A call, by the callee's spec; without it, a failure on the line of the call.
#[tactic(auto, unfolding(crate::specs::Annotation::Annotation::annotate, sym_matching::specs::Steps::contradicts))]
pub fn calls_another()
    ensures known { annotate read_task one_node ≡ Done (post (Var 1) one_node ∷ []) read_cert }
    ensures other { annotate (strict read_task.flow []) one_node ≡ Fail fault.Callee 1 }
{}

/// A procedure that calls itself, while no spec of it is known: under a cut table the call leads nowhere, else it fails.
#[tactic(auto, unfolding(crate::specs::Annotation::Annotation::annotate, sym_matching::specs::Steps::contradicts))]
pub fn calls_itself()
    ensures cut { annotate (unknown length_flow true) whole_list ≡ Done (post (any 1) null_heap ∷ []) length_cut_cert }
    ensures uncut { annotate (unknown length_flow false) whole_list ≡ Fail fault.Callee 3 }
{}

/// A state that comes to a node: its parts are counted first, then it is compared with those that are listed, and then these are counted.
/// It is listed, and queued, behind the others.
#[tactic(auto, unfolding(sym_matching::specs::Steps::contradicts))]
pub fn counts_states()
    ensures sixteenth { state_comes 0 x_state (listing (listed 15) [] ((1, null_state) ∷ []))
        ≡ Goes (listing (listed 15 ++ x_state ∷ []) [] ((1, null_state) ∷ (0, x_state) ∷ [])) }
    ensures seventeenth { state_comes 0 x_state (listing (listed 16) [] []) ≡ Ends (Spent budget.States 17) }
    ensures covered { state_comes 0 null_state (listing (listed 16) [] []) ≡ Goes (listing (listed 16) [] []) }
    ensures small { state_comes 0 (large_state 96) (listing [] [] []) ≡ Goes (listing (large_state 96 ∷ []) [] ((0, large_state 96) ∷ [])) }
    ensures large { state_comes 0 (large_state 97) (listing (large_state 97 ∷ []) [] []) ≡ Ends (Spent budget.Parts 97) }
{}

/// Likewise an exit, which waits for no turn.
#[tactic(auto, unfolding(sym_matching::specs::Steps::contradicts))]
pub fn counts_exits()
    ensures sixteenth { exit_comes (post (Var 0) (heap [] [])) (listing [] (exits_before 15) [])
        ≡ Goes (listing [] (exits_before 15 ++ post (Var 0) (heap [] []) ∷ []) []) }
    ensures seventeenth { exit_comes (post (Var 0) (heap [] [])) (listing [] (exits_before 16) []) ≡ Ends (Spent budget.States 17) }
    ensures covered { exit_comes (post null (heap [] [])) (listing [] (exits_before 16) []) ≡ Goes (listing [] (exits_before 16) []) }
    ensures small { exit_comes (post null (large_heap 96)) (listing [] [] []) ≡ Goes (listing [] (post null (large_heap 96) ∷ []) []) }
    ensures large { exit_comes (post null (large_heap 97)) (listing [] (post null (large_heap 97) ∷ []) []) ≡ Ends (Spent budget.Parts 97) }
{}

/// The state that came first has its turn first. Where no turn is left, the turns are spent if a state waits.
#[tactic(auto, unfolding(sym_matching::specs::Steps::contradicts))]
pub fn counts_turns()
    ensures most { MOST_TURNS ≡ 2048 }
    ensures null_first { turns 1 (strict get_flow []) (listing [] [] ((0, reads_null) ∷ (0, reads_unowned) ∷ [])) ≡ Fail fault.Null 1 }
    ensures unowned_first { turns 1 (strict get_flow []) (listing [] [] ((0, reads_unowned) ∷ (0, reads_null) ∷ []))
        ≡ Fail fault.Unowned 1 }
    ensures spent { turns 0 (strict get_flow []) (listing [] [] ((0, reads_null) ∷ [])) ≡ Spent budget.Turns 2049 }
    ensures ended { turns 0 (strict get_flow []) (listing [] [] []) ≡ all_done (listing [] [] []) }
{}
