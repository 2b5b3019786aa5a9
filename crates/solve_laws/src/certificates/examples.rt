//! Certificates by hand, each by computation; and so with one thing spoiled, and the gap that it leaves.
ghost use Rattle.std.specs.Prelude.{◌≡◌, [], ◌∷◌};
ghost use Rattle.std.specs.declared.option.Option.TheVariants.{None, Some};
ghost use Rattle.shape_data.specs.declared.answer.Fault.TheVariants as fault;
ghost use Rattle.shape_data.specs.declared.symbolic.Exp.TheVariants.{Var};
ghost use Rattle.shape_data.specs.declared.symbolic.Fact.TheVariants.{Ne};
ghost use Rattle.sym_matching.specs.Examples.{any, cell, heap, list, null, state};
ghost use Rattle.exec_laws.specs.Examples.{post, spec};
ghost use Rattle.solve_laws.specs.Certificates.Examples.{
  answer_of,
  cert,
  gap_at,
  get_cert,
  get_flow,
  get_key,
  get_read,
  get_spec,
  get_start,
  length_cert,
  length_flow,
  length_key,
  length_nodes,
  length_spec,
  one_node,
  read_cert,
  read_flow,
  read_key,
  walk_body,
  walk_cert,
  walk_end,
  walk_flow,
  walk_head,
  walk_key,
  walk_spec,
  whole_list,
};
ghost use Rattle.solve_laws.specs.Certificates.Gaps.{first_gap};

/// A procedure that reads a field. Spoiled: no start state; a state that is not covered, since the wrong field is read; a state that
/// says too much; an access that is not owned; an exit that is not covered; no post.
#[tactic(auto, unfolding(sym_matching::specs::Steps::contradicts))]
pub fn reads_a_field()
    ensures inductive { first_gap get_key (answer_of get_flow get_spec get_cert) ≡ None }
    ensures no_start { first_gap get_key
        (answer_of get_flow get_spec (cert ([] ∷ (get_read ∷ []) ∷ [] ∷ [] ∷ []) (post (Var 1) one_node ∷ [])))
        ≡ Some (gap_at 1 fault.Cover) }
    ensures another_field { first_gap get_key
        (answer_of get_flow get_spec
        (cert ((get_start ∷ []) ∷ (record { locals = Var 0 ∷ Var 2 ∷ []; heap = one_node } ∷ []) ∷ [] ∷ [] ∷ [])
        (post (Var 1) one_node ∷ [])))
        ≡ Some (gap_at 1 fault.Cover) }
    ensures another_fact { first_gap get_key
        (answer_of get_flow get_spec
        (cert
        ((state (Var 0 ∷ null ∷ []) (Ne (Var 1) null ∷ []) (cell (Var 0) (Var 1) (Var 2) ∷ []) ∷ []) ∷ (get_read ∷ []) ∷ [] ∷ []
        ∷ [])
        (post (Var 1) one_node ∷ [])))
        ≡ Some (gap_at 1 fault.Cover) }
    ensures not_owned { first_gap get_key
        (answer_of get_flow (spec (heap [] []) (post null (heap [] []) ∷ []))
        (cert ((state (Var 0 ∷ null ∷ []) [] [] ∷ []) ∷ [] ∷ [] ∷ [] ∷ []) []))
        ≡ Some (gap_at 1 fault.Unowned) }
    ensures no_exit { first_gap get_key (answer_of get_flow get_spec (cert ((get_start ∷ []) ∷ (get_read ∷ []) ∷ [] ∷ [] ∷ []) []))
        ≡ Some (gap_at 1 fault.Cover) }
    ensures no_post { first_gap get_key (answer_of get_flow (spec one_node []) get_cert) ≡ Some (gap_at 1 fault.Cover) }
    ensures another_post { first_gap get_key (answer_of get_flow (spec one_node (post (Var 2) one_node ∷ [])) get_cert)
        ≡ Some (gap_at 1 fault.Cover) }
{}

/// A loop, with one state at its head. Spoiled: the start state alone at the head, which does not cover what comes round; in the loop
/// x may be null; and behind it nothing is listed.
#[tactic(auto, unfolding(sym_matching::specs::Steps::contradicts))]
pub fn walks_along_a_list()
    ensures inductive { first_gap walk_key (answer_of walk_flow walk_spec walk_cert) ≡ None }
    ensures no_invariant { first_gap walk_key
        (answer_of walk_flow walk_spec
        (cert ((record { locals = Var 0 ∷ []; heap = whole_list } ∷ []) ∷ (walk_body ∷ []) ∷ (walk_end ∷ []) ∷ [])
        (post null whole_list ∷ [])))
        ≡ Some (gap_at 2 fault.Cover) }
    ensures may_be_null { first_gap walk_key
        (answer_of walk_flow walk_spec (cert ((walk_head ∷ []) ∷ (walk_head ∷ []) ∷ (walk_end ∷ []) ∷ []) (post null whole_list ∷ [])))
        ≡ Some (gap_at 2 fault.Null) }
    ensures no_end { first_gap walk_key
        (answer_of walk_flow walk_spec (cert ((walk_head ∷ []) ∷ (walk_body ∷ []) ∷ [] ∷ []) (post null whole_list ∷ [])))
        ≡ Some (gap_at 1 fault.Cover) }
{}

/// A procedure that calls itself, by the spec that is shown. Spoiled: that spec has no post, so that the call leads nowhere, and the exit
/// of the empty list is not covered; no exit.
#[tactic(auto, unfolding(sym_matching::specs::Steps::contradicts))]
pub fn calls_itself()
    ensures inductive { first_gap length_key (answer_of length_flow length_spec length_cert) ≡ None }
    ensures no_post { first_gap length_key (answer_of length_flow (spec whole_list []) length_cert) ≡ Some (gap_at 1 fault.Cover) }
    ensures no_exit { first_gap length_key (answer_of length_flow length_spec (cert length_nodes [])) ≡ Some (gap_at 2 fault.Cover) }
{}

/// A caller. Spoiled: its callee's spec says nothing of the result; it needs more than there is; it is a spec of another procedure.
#[tactic(auto, unfolding(sym_matching::specs::Steps::contradicts))]
pub fn calls_another()
    ensures inductive { first_gap (read_key get_flow.name get_spec) (answer_of read_flow get_spec read_cert) ≡ None }
    ensures weaker { first_gap (read_key get_flow.name (spec one_node (post (any 1) one_node ∷ [])))
        (answer_of read_flow get_spec read_cert)
        ≡ Some (gap_at 1 fault.Cover) }
    ensures needs_more { first_gap (read_key get_flow.name (spec (heap [] (cell (Var 0) (Var 1) null ∷ [])) (post (Var 1) one_node ∷ [])))
        (answer_of read_flow get_spec read_cert)
        ≡ Some (gap_at 1 fault.Callee) }
    ensures of_another { first_gap (read_key walk_flow.name get_spec) (answer_of read_flow get_spec read_cert)
        ≡ Some (gap_at 1 fault.Callee) }
{}
