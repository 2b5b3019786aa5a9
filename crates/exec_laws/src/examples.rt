//! Worked executions, each by computation.
ghost use Rattle.std.specs.Prelude.{◌≡◌, [], ◌∷◌, pos, true, false};
ghost use Rattle.std.specs.declared.option.Option.TheVariants.{Some};
ghost use Rattle.shape_data.specs.declared.answer.Fault.TheVariants as fault;
ghost use Rattle.shape_data.specs.declared.program.ArithOp.TheVariants as arith;
ghost use Rattle.shape_data.specs.declared.program.Cmd.TheVariants as cmd;
ghost use Rattle.shape_data.specs.declared.program.Operand.TheVariants.{Slot, Num};
ghost use Rattle.shape_data.specs.declared.program.TestOp.TheVariants as test;
ghost use Rattle.shape_data.specs.declared.program.Ty.TheVariants.{Int};
ghost use Rattle.shape_data.specs.declared.symbolic.Exp.TheVariants.{Var, Const};
ghost use Rattle.shape_data.specs.declared.symbolic.Fact.TheVariants.{Eq, Ne};
ghost use Rattle.sym_parts.specs.Shapes.Examples.{node_name};
ghost use Rattle.sym_matching.specs.Examples.{cell, heap, list, null, state};
ghost use Rattle.exec_laws.specs.declared.parts.Case.TheVariants.{On, Drops};
ghost use Rattle.exec_laws.specs.declared.parts.Step.TheVariants as step;
ghost use Rattle.exec_laws.specs.Examples.{
  callee,
  f_name,
  flow_of,
  no_table,
  one,
  pair,
  post,
  q_name,
  spec,
  structs,
  table,
  two,
};
ghost use Rattle.exec_laws.specs.Execution.{exec, search_cases};

/// A variable that stands in a local alone is not the data of a cell that a call unfolds, be it subtracted or found by abduction; nor is it
/// a new variable of the post, or the value of what was never set.
#[tactic(auto, unfolding(sym_matching::specs::Steps::contradicts))]
pub fn locals_are_not_captured()
    ensures subtracted { exec (flow_of (cmd.Call (Some 2) f_name ((Slot 0) ∷ []) 1)) structs 0
        (state ((Var 0) ∷ (Var 65536) ∷ null ∷ null ∷ []) (Ne (Var 0) null ∷ []) (list (Var 0) null ∷ []))
        (table []
        (callee f_name one
        (spec (heap [] (cell (Var 0) (Var 1) (Var 2) ∷ []))
        (post (Var 1) (heap [] (cell (Var 0) (Var 1) (Var 2) ∷ [])) ∷ [])
        ∷ [])
        ∷ [])
        false)
        ≡ (step.Next
        ((
          1,
          (state ((Var 0) ∷ (Var 65536) ∷ (Var 65537) ∷ null ∷ []) []
              (cell (Var 0) (Var 65537) (Var 65538) ∷ list (Var 65538) null ∷ [])),
        )
        ∷ [])
        []) }
    ensures found { search_cases (flow_of (cmd.Call (Some 2) f_name ((Slot 0) ∷ []) 1)) structs 0
        (pair (heap [] (list (Var 0) null ∷ [])) (state ((Var 0) ∷ (Var 65536) ∷ null ∷ null ∷ []) [] (list (Var 0) null ∷ [])))
        (table []
        (callee f_name one
        (spec (heap [] (cell (Var 0) (Var 1) (Var 2) ∷ []))
        (post (Var 1) (heap [] (cell (Var 0) (Var 1) (Var 2) ∷ [])) ∷ [])
        ∷ [])
        ∷ [])
        false)
        ≡ (On 1
        (pair (heap (Ne (Var 0) null ∷ []) (list (Var 0) null ∷ []))
        (state ((Var 0) ∷ (Var 65536) ∷ (Var 65537) ∷ null ∷ []) []
        (cell (Var 0) (Var 65537) (Var 65538) ∷ list (Var 65538) null ∷ [])))
        ∷ []) }
    ensures post { exec (flow_of (cmd.Call (Some 2) f_name ((Slot 0) ∷ []) 1)) structs 0
        (state ((Var 0) ∷ (Var 65536) ∷ null ∷ (Var 65537) ∷ []) [] (cell (Var 0) (Const (pos 7)) (Var 1) ∷ []))
        (table []
        (callee f_name one
        (spec (heap [] (cell (Var 0) (Var 65536) (Var 65537) ∷ []))
        (post (Var 65536) (heap [] (cell (Var 0) (Var 65537) (Var 65536) ∷ [])) ∷ [])
        ∷ [])
        ∷ [])
        false)
        ≡ (step.Next
        ((1, (state ((Var 0) ∷ (Var 65536) ∷ (Var 65537) ∷ (Var 65538) ∷ []) [] (cell (Var 0) (Var 65539) (Var 65537) ∷ []))) ∷ [])
        []) }
    ensures post_of_unbound { exec (flow_of (cmd.Call (Some 2) f_name ((Slot 0) ∷ []) 1)) structs 0
        (state ((Var 0) ∷ (Var 65539) ∷ null ∷ null ∷ []) [] [])
        (table [] (callee f_name one (spec (heap [] []) (post (Var 3) (heap (Ne (Var 3) null ∷ []) []) ∷ []) ∷ []) ∷ []) false)
        ≡ (step.Next ((1, (state ((Var 0) ∷ (Var 65536) ∷ (Var 65537) ∷ null ∷ []) (Ne (Var 65537) null ∷ []) [])) ∷ []) []) }
    ensures post_of_bound { exec (flow_of (cmd.Call (Some 2) f_name ((Slot 0) ∷ []) 1)) structs 0
        (state ((Var 0) ∷ (Var 1) ∷ null ∷ null ∷ []) (Ne (Var 0) null ∷ []) (list (Var 0) null ∷ []))
        (table []
        (callee f_name one
        (spec (heap [] (cell (Var 0) (Var 2) (Var 3) ∷ list (Var 3) null ∷ []))
        (post (Var 2) (heap [] (cell (Var 0) (Var 1) null ∷ [])) ∷ [])
        ∷ [])
        ∷ [])
        false)
        ≡ (step.Next ((1, (state ((Var 0) ∷ (Var 1) ∷ (Var 65536) ∷ null ∷ []) [] (cell (Var 0) (Var 65537) null ∷ []))) ∷ []) []) }
    ensures any { exec (flow_of (cmd.Any 2 Int 1)) structs 0 (state ((Var 0) ∷ (Var 65536) ∷ null ∷ null ∷ []) [] []) no_table
        ≡ (step.Next ((1, (state ((Var 0) ∷ (Var 65536) ∷ (Var 65537) ∷ null ∷ []) [] [])) ∷ []) []) }
{}

/// `?1` of a precondition is bound by the match; `?1` of its post is new. A logical variable of a post that the match left unbound is new
/// too.
#[tactic(auto, unfolding(sym_matching::specs::Steps::contradicts))]
pub fn existentials_of_a_precondition_are_not_those_of_its_posts()
    ensures swapped { exec (flow_of (cmd.Call (Some 2) f_name ((Slot 0) ∷ []) 1)) structs 0
        (state ((Var 0) ∷ (Var 1) ∷ null ∷ null ∷ []) [] (cell (Var 0) (Const (pos 7)) (Var 1) ∷ []))
        (table []
        (callee f_name one
        (spec (heap [] (cell (Var 0) (Var 65536) (Var 65537) ∷ []))
        (post (Var 65536) (heap [] (cell (Var 0) (Var 65537) (Var 65536) ∷ [])) ∷ [])
        ∷ [])
        ∷ [])
        false)
        ≡ (step.Next ((1, (state ((Var 0) ∷ (Var 1) ∷ (Var 65536) ∷ null ∷ []) [] (cell (Var 0) (Var 65537) (Var 65536) ∷ []))) ∷ []) []) }
    ensures unbound { exec (flow_of (cmd.Call (Some 2) f_name ((Slot 0) ∷ []) 1)) structs 0
        (state ((Var 0) ∷ (Var 1) ∷ null ∷ null ∷ []) [] [])
        (table [] (callee f_name one (spec (heap [] []) (post (Var 3) (heap (Ne (Var 3) null ∷ []) []) ∷ []) ∷ []) ∷ []) false)
        ≡ (step.Next ((1, (state ((Var 0) ∷ (Var 1) ∷ (Var 65536) ∷ null ∷ []) (Ne (Var 65536) null ∷ []) [])) ∷ []) []) }
{}

/// From a segment a cell comes out, or the segment is empty, unless its ends differ. Where the empty case fails, so does the command. The
/// unfolded case says nothing of the ends, which may be equal on a cycle; in the search it says that they differ.
#[tactic(auto, unfolding(sym_matching::specs::Steps::contradicts))]
pub fn strict_unfolding_adds_no_disequality()
    ensures cases { exec (flow_of (cmd.Load 2 0 node_name 1 1)) structs 0
        (state ((Var 0) ∷ (Var 1) ∷ null ∷ null ∷ []) [] (list (Var 0) (Var 1) ∷ cell (Var 1) (Const (pos 1)) null ∷ [])) no_table
        ≡ (step.Next
        ((1, (state ((Var 0) ∷ (Var 0) ∷ null ∷ null ∷ []) (Eq (Var 1) (Var 0) ∷ []) (cell (Var 0) (Const (pos 1)) null ∷ [])))
        ∷ (
          1,
          (state ((Var 0) ∷ (Var 1) ∷ (Var 65536) ∷ null ∷ []) []
              (cell (Var 0) (Var 65537) (Var 65536) ∷ cell (Var 1) (Const (pos 1)) null ∷ list (Var 65536) (Var 1) ∷ [])),
        )
        ∷ [])
        []) }
    ensures differs { exec (flow_of (cmd.Load 2 0 node_name 1 1)) structs 0
        (state ((Var 0) ∷ (Var 1) ∷ null ∷ null ∷ []) (Ne (Var 0) (Var 1) ∷ []) (list (Var 0) (Var 1) ∷ [])) no_table
        ≡ (step.Next
        ((
          1,
          (state ((Var 0) ∷ (Var 1) ∷ (Var 65536) ∷ null ∷ []) (Ne (Var 0) (Var 1) ∷ [])
              (cell (Var 0) (Var 65537) (Var 65536) ∷ list (Var 65536) (Var 1) ∷ [])),
        )
        ∷ [])
        []) }
    ensures may_be_empty { exec (flow_of (cmd.Load 2 0 node_name 1 1)) structs 0
        (state ((Var 0) ∷ (Var 1) ∷ null ∷ null ∷ []) [] (list (Var 0) (Var 1) ∷ [])) no_table
        ≡ (step.Fail fault.Unowned 5) }
    ensures search { search_cases (flow_of (cmd.Load 2 0 node_name 1 1)) structs 0
        (pair (heap [] (list (Var 0) (Var 2) ∷ [])) (state ((Var 0) ∷ (Var 2) ∷ null ∷ null ∷ []) [] (list (Var 0) (Var 2) ∷ [])))
        no_table
        ≡ (On 1
        (pair (heap [] (cell (Var 0) (Var 2) (Var 3) ∷ []))
        (state ((Var 0) ∷ (Var 0) ∷ (Var 3) ∷ null ∷ []) [] (cell (Var 0) (Var 2) (Var 3) ∷ [])))
        ∷ On 1
        (pair (heap (Ne (Var 0) (Var 2) ∷ []) (list (Var 0) (Var 2) ∷ []))
        (state ((Var 0) ∷ (Var 2) ∷ (Var 65536) ∷ null ∷ []) (Ne (Var 0) (Var 2) ∷ [])
        (cell (Var 0) (Var 65537) (Var 65536) ∷ list (Var 65536) (Var 2) ∷ [])))
        ∷ []) }
{}

/// Unless the pointer and null differ, free may do nothing. The disequality of the other case goes before the cell does.
#[tactic(auto, unfolding(sym_matching::specs::Steps::contradicts))]
pub fn free_keeps_its_null_case()
    ensures segment { exec (flow_of (cmd.Free 0 node_name 1)) structs 0
        (state ((Var 0) ∷ (Var 1) ∷ null ∷ null ∷ []) [] (list (Var 0) (Var 1) ∷ cell (Var 1) (Const (pos 1)) null ∷ [])) no_table
        ≡ (step.Next
        ((1, (state ((Var 0) ∷ (Var 0) ∷ null ∷ null ∷ []) (Eq (Var 1) (Var 0) ∷ []) []))
        ∷ (
          1,
          (state ((Var 0) ∷ (Var 1) ∷ null ∷ null ∷ []) []
              (cell (Var 1) (Const (pos 1)) null ∷ list (Var 65536) (Var 1) ∷ [])),
        )
        ∷ [])
        []) }
    ensures cell { exec (flow_of (cmd.Free 0 node_name 1)) structs 0
        (state ((Var 0) ∷ (Var 1) ∷ null ∷ null ∷ []) [] (cell (Var 0) (Const (pos 1)) null ∷ [])) no_table
        ≡ (step.Next ((1, (state ((Var 0) ∷ (Var 1) ∷ null ∷ null ∷ []) [] [])) ∷ []) []) }
    ensures of_another_kind { exec (flow_of (cmd.Free 0 q_name 1)) structs 0
        (state ((Var 0) ∷ (Var 1) ∷ null ∷ null ∷ []) [] (cell (Var 0) (Const (pos 1)) null ∷ [])) no_table
        ≡ (step.Next ((1, (state ((Var 0) ∷ (Var 1) ∷ null ∷ null ∷ []) [] [])) ∷ []) []) }
    ensures search { search_cases (flow_of (cmd.Free 0 node_name 1)) structs 0
        (pair (heap [] []) (state ((Var 0) ∷ (Var 1) ∷ null ∷ null ∷ []) [] [])) no_table
        ≡ (On 1 (pair (heap (Eq (Var 0) null ∷ []) []) (state (null ∷ (Var 1) ∷ null ∷ null ∷ []) [] []))
        ∷ On 1 (pair (heap [] (cell (Var 0) (Var 2) (Var 3) ∷ [])) (state ((Var 0) ∷ (Var 1) ∷ null ∷ null ∷ []) [] [])) ∷ []) }
{}

/// A call of the component's own procedure where no spec fits has no state under a cut table; in the search the path is dropped. A
/// procedure from outside, and one that no table lists, fails.
#[tactic(auto, unfolding(sym_matching::specs::Steps::contradicts))]
pub fn cut_tables_give_no_state_in_strict_execution_alone()
    ensures strict { exec (flow_of (cmd.Call (Some 2) f_name ((Slot 0) ∷ []) 1)) structs 0
        (state ((Var 0) ∷ (Var 1) ∷ null ∷ null ∷ []) [] [])
        (table
        (callee f_name one
        (spec (heap [] (cell (Var 0) (Var 1) (Var 2) ∷ []))
        (post (Var 1) (heap [] (cell (Var 0) (Var 1) (Var 2) ∷ [])) ∷ [])
        ∷ [])
        ∷ [])
        []
        true)
        ≡ (step.Next [] []) }
    ensures not_cut { exec (flow_of (cmd.Call (Some 2) f_name ((Slot 0) ∷ []) 1)) structs 0
        (state ((Var 0) ∷ (Var 1) ∷ null ∷ null ∷ []) [] [])
        (table
        (callee f_name one
        (spec (heap [] (cell (Var 0) (Var 1) (Var 2) ∷ []))
        (post (Var 1) (heap [] (cell (Var 0) (Var 1) (Var 2) ∷ [])) ∷ [])
        ∷ [])
        ∷ [])
        []
        false)
        ≡ (step.Fail fault.Callee 5) }
    ensures outer { exec (flow_of (cmd.Call (Some 2) f_name ((Slot 0) ∷ []) 1)) structs 0
        (state ((Var 0) ∷ (Var 1) ∷ null ∷ null ∷ []) [] [])
        (table []
        (callee f_name one
        (spec (heap [] (cell (Var 0) (Var 1) (Var 2) ∷ []))
        (post (Var 1) (heap [] (cell (Var 0) (Var 1) (Var 2) ∷ [])) ∷ [])
        ∷ [])
        ∷ [])
        true)
        ≡ (step.Fail fault.Callee 5) }
    ensures not_listed { exec (flow_of (cmd.Call (Some 2) f_name ((Slot 0) ∷ []) 1)) structs 0
        (state ((Var 0) ∷ (Var 1) ∷ null ∷ null ∷ []) [] []) (table [] [] true)
        ≡ (step.Fail fault.Callee 5) }
    ensures search { search_cases (flow_of (cmd.Call (Some 2) f_name ((Slot 0) ∷ []) 1)) structs 0
        (pair (heap [] []) (state ((Var 0) ∷ (Var 1) ∷ null ∷ null ∷ []) [] [])) (table (callee f_name one [] ∷ []) [] true)
        ≡ (Drops fault.Callee ∷ []) }
    ensures found { search_cases (flow_of (cmd.Call (Some 2) f_name ((Slot 0) ∷ []) 1)) structs 0
        (pair (heap [] []) (state ((Var 0) ∷ (Var 1) ∷ null ∷ null ∷ []) [] []))
        (table
        (callee f_name one
        (spec (heap [] (cell (Var 0) (Var 1) (Var 2) ∷ []))
        (post (Var 1) (heap [] (cell (Var 0) (Var 1) (Var 2) ∷ [])) ∷ [])
        ∷ [])
        ∷ [])
        []
        true)
        ≡ (On 1
        (pair (heap [] (cell (Var 0) (Var 2) (Var 3) ∷ []))
        (state ((Var 0) ∷ (Var 1) ∷ (Var 2) ∷ null ∷ []) [] (cell (Var 0) (Var 2) (Var 3) ∷ [])))
        ∷ []) }
{}

/// In the search, a pointer's equation of logical expressions replaces its variable in both heaps; of a parameter it stays in the missing
/// heap, and in none of the two for another variable. An int's equation changes the state alone.
#[tactic(auto, unfolding(sym_matching::specs::Steps::contradicts))]
pub fn missing_heaps_keep_equations_of_parameters()
    ensures parameter { search_cases (flow_of (cmd.Branch test.Eq true (Slot 0) (Slot 1) 1 2)) structs 0
        (pair (heap [] (cell (Var 0) (Var 2) null ∷ []))
        (state ((Var 0) ∷ (Var 1) ∷ (Var 2) ∷ null ∷ []) [] (cell (Var 0) (Var 2) null ∷ [])))
        no_table
        ≡ (On 1
        (pair (heap (Eq (Var 1) (Var 0) ∷ []) (cell (Var 0) (Var 2) null ∷ []))
        (state ((Var 0) ∷ (Var 0) ∷ (Var 2) ∷ null ∷ []) [] (cell (Var 0) (Var 2) null ∷ [])))
        ∷ On 2
        (pair (heap (Ne (Var 0) (Var 1) ∷ []) (cell (Var 0) (Var 2) null ∷ []))
        (state ((Var 0) ∷ (Var 1) ∷ (Var 2) ∷ null ∷ []) (Ne (Var 0) (Var 1) ∷ []) (cell (Var 0) (Var 2) null ∷ [])))
        ∷ []) }
    ensures other { search_cases (flow_of (cmd.Branch test.Eq true (Slot 2) (Num (pos 0)) 1 2)) structs 0
        (pair (heap [] (cell (Var 0) (Const (pos 1)) (Var 2) ∷ []))
        (state ((Var 0) ∷ (Var 1) ∷ (Var 2) ∷ null ∷ []) [] (cell (Var 0) (Const (pos 1)) (Var 2) ∷ [])))
        no_table
        ≡ (On 1
        (pair (heap [] (cell (Var 0) (Const (pos 1)) null ∷ []))
        (state ((Var 0) ∷ (Var 1) ∷ null ∷ null ∷ []) [] (cell (Var 0) (Const (pos 1)) null ∷ [])))
        ∷ On 2
        (pair (heap (Ne (Var 2) null ∷ []) (cell (Var 0) (Const (pos 1)) (Var 2) ∷ []))
        (state ((Var 0) ∷ (Var 1) ∷ (Var 2) ∷ null ∷ []) (Ne (Var 2) null ∷ []) (cell (Var 0) (Const (pos 1)) (Var 2) ∷ [])))
        ∷ []) }
    ensures int { search_cases (flow_of (cmd.Branch test.Eq false (Slot 2) (Num (pos 0)) 1 2)) structs 0
        (pair (heap [] (cell (Var 0) (Var 2) null ∷ []))
        (state ((Var 0) ∷ (Var 1) ∷ (Var 2) ∷ null ∷ []) [] (cell (Var 0) (Var 2) null ∷ [])))
        no_table
        ≡ (On 1
        (pair (heap [] (cell (Var 0) (Var 2) null ∷ []))
        (state ((Var 0) ∷ (Var 1) ∷ null ∷ null ∷ []) (Eq (Var 2) null ∷ []) (cell (Var 0) null null ∷ [])))
        ∷ On 2
        (pair (heap [] (cell (Var 0) (Var 2) null ∷ []))
        (state ((Var 0) ∷ (Var 1) ∷ (Var 2) ∷ null ∷ []) (Ne (Var 2) null ∷ []) (cell (Var 0) (Var 2) null ∷ [])))
        ∷ []) }
    ensures existential { search_cases (flow_of (cmd.Branch test.Eq true (Slot 2) (Slot 0) 1 2)) structs 0
        (pair (heap [] []) (state ((Var 0) ∷ (Var 1) ∷ (Var 65536) ∷ null ∷ []) [] (cell (Var 65536) (Const (pos 1)) null ∷ [])))
        no_table
        ≡ (On 1 (pair (heap [] []) (state ((Var 0) ∷ (Var 1) ∷ (Var 0) ∷ null ∷ []) [] (cell (Var 0) (Const (pos 1)) null ∷ [])))
        ∷ On 2
        (pair (heap [] [])
        (state ((Var 0) ∷ (Var 1) ∷ (Var 65536) ∷ null ∷ []) (Ne (Var 0) (Var 65536) ∷ [])
        (cell (Var 65536) (Const (pos 1)) null ∷ [])))
        ∷ []) }
    ensures segment_of_missing { search_cases (flow_of (cmd.Load 2 0 node_name 1 1)) structs 0
        (pair (heap [] (list (Var 0) (Var 2) ∷ [])) (state ((Var 0) ∷ (Var 1) ∷ (Var 2) ∷ null ∷ []) [] [])) no_table
        ≡ (On 1
        (pair (heap [] (cell (Var 0) (Var 2) (Var 3) ∷ []))
        (state ((Var 0) ∷ (Var 1) ∷ (Var 3) ∷ null ∷ []) [] (cell (Var 0) (Var 2) (Var 3) ∷ [])))
        ∷ []) }
{}

/// In the search a logical variable without an atom gets a cell; unowned where the missing heap has one already, or the pointer is
/// existential. A call whose missing part clashes so has no spec that fits.
#[tactic(auto, unfolding(sym_matching::specs::Steps::contradicts))]
pub fn missing_cells()
    ensures new { search_cases (flow_of (cmd.Load 2 0 node_name 1 1)) structs 0
        (pair (heap [] []) (state ((Var 0) ∷ (Var 1) ∷ null ∷ null ∷ []) [] [])) no_table
        ≡ (On 1
        (pair (heap [] (cell (Var 0) (Var 2) (Var 3) ∷ []))
        (state ((Var 0) ∷ (Var 1) ∷ (Var 3) ∷ null ∷ []) [] (cell (Var 0) (Var 2) (Var 3) ∷ [])))
        ∷ []) }
    ensures freed { search_cases (flow_of (cmd.Load 2 0 node_name 1 1)) structs 0
        (pair (heap [] (cell (Var 0) (Var 2) null ∷ [])) (state ((Var 0) ∷ (Var 1) ∷ null ∷ null ∷ []) [] [])) no_table
        ≡ (Drops fault.Unowned ∷ []) }
    ensures called { search_cases (flow_of (cmd.Call (Some 2) f_name ((Slot 0) ∷ []) 1)) structs 0
        (pair (heap [] (cell (Var 0) (Var 2) null ∷ [])) (state ((Var 0) ∷ (Var 1) ∷ null ∷ null ∷ []) [] []))
        (table []
        (callee f_name one
        (spec (heap [] (cell (Var 0) (Var 1) (Var 2) ∷ []))
        (post (Var 1) (heap [] (cell (Var 0) (Var 1) (Var 2) ∷ [])) ∷ [])
        ∷ [])
        ∷ [])
        false)
        ≡ (Drops fault.Callee ∷ []) }
    ensures existential { search_cases (flow_of (cmd.Load 2 3 node_name 1 1)) structs 0
        (pair (heap [] []) (state ((Var 0) ∷ (Var 1) ∷ null ∷ (Var 65536) ∷ []) [] [])) no_table
        ≡ (Drops fault.Unowned ∷ []) }
    ensures null { search_cases (flow_of (cmd.Load 2 2 node_name 1 1)) structs 0
        (pair (heap [] []) (state ((Var 0) ∷ (Var 1) ∷ null ∷ null ∷ []) [] [])) no_table
        ≡ (Drops fault.Null ∷ []) }
{}
