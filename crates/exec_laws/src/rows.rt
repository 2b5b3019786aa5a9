//! Rows of execution by hand, each by computation: what the cases are, and how each fails. `flow_of` is a procedure with the parameters `x`
//! and `y` and four slots, whose one node stands on its line 5.
ghost use Rattle.std.specs.Prelude.{◌≡◌, [], ◌∷◌, pos, true, false};
ghost use Rattle.std.specs.declared.option.Option.TheVariants.{Some};
ghost use Rattle.shape_data.specs.declared.answer.Fault.TheVariants as fault;
ghost use Rattle.shape_data.specs.declared.program.ArithOp.TheVariants as arith;
ghost use Rattle.shape_data.specs.declared.program.Cmd.TheVariants as cmd;
ghost use Rattle.shape_data.specs.declared.program.Operand.TheVariants.{Slot, Num};
ghost use Rattle.shape_data.specs.declared.program.TestOp.TheVariants as test;
ghost use Rattle.shape_data.specs.declared.symbolic.Exp.TheVariants.{Var, Const};
ghost use Rattle.shape_data.specs.declared.symbolic.Fact.TheVariants.{Eq, Ne};
ghost use Rattle.sym_parts.specs.Shapes.Examples.{node_name};
ghost use Rattle.sym_matching.specs.Examples.{cell, heap, list, null, state};
ghost use Rattle.exec_laws.specs.declared.parts.Case.TheVariants.{On, Drops};
ghost use Rattle.exec_laws.specs.declared.parts.Step.TheVariants as step;
ghost use Rattle.exec_laws.specs.Examples.{
  callee,
  f_name,
  flow_of,
  no_table,
  one,
  pair,
  post,
  quad,
  spec,
  structs,
  table,
};
ghost use Rattle.exec_laws.specs.Execution.{exec, search_cases};

/// A load from a segment to null: the empty case is an access at null. Without an atom the address is not owned, as after a free; a cell of
/// another kind is no cell of this one.
#[tactic(auto, unfolding(sym_matching::specs::Steps::contradicts))]
pub fn loads_that_fail()
    ensures may_be_null { exec (flow_of (cmd.Load 2 0 node_name 1 1)) structs 0
        (state (Var 0 ∷ Var 1 ∷ null ∷ null ∷ []) [] (list (Var 0) null ∷ [])) no_table
        ≡ step.Fail fault.Null 5 }
    ensures not_owned { exec (flow_of (cmd.Load 2 0 node_name 1 1)) structs 0 (state (Var 0 ∷ Var 1 ∷ null ∷ null ∷ []) [] []) no_table
        ≡ step.Fail fault.Unowned 5 }
    ensures of_another_kind { exec (flow_of (cmd.Load 2 0 node_name 1 1)) structs 0
        (state (Var 0 ∷ Var 1 ∷ null ∷ null ∷ []) [] (quad (Var 0) null null null ∷ [])) no_table
        ≡ step.Fail fault.Kind 5 }
    ensures dropped { search_cases (flow_of (cmd.Load 2 0 node_name 1 1)) structs 0
        (pair (heap [] []) (state (Var 0 ∷ Var 1 ∷ null ∷ null ∷ []) [] (quad (Var 0) null null null ∷ []))) no_table
        ≡ (Drops fault.Kind ∷ []) }
{}

/// Nothing comes of freeing null. A branch is decided by constants, and by a source, which is not null; else it has both cases, of which
/// one that contradicts the rest is left out; a comparison of order says nothing of its operands.
#[tactic(auto, unfolding(sym_matching::specs::Steps::contradicts))]
pub fn frees_and_branches()
    ensures free_null { exec (flow_of (cmd.Free 2 node_name 1)) structs 0 (state (Var 0 ∷ Var 1 ∷ null ∷ null ∷ []) [] []) no_table
        ≡ step.Next ((1, state (Var 0 ∷ Var 1 ∷ null ∷ null ∷ []) [] []) ∷ []) [] }
    ensures constants { exec (flow_of (cmd.Branch test.Eq false (Num (pos 1)) (Num (pos 2)) 1 2)) structs 0
        (state (Var 0 ∷ Var 1 ∷ null ∷ null ∷ []) [] []) no_table
        ≡ step.Next ((2, state (Var 0 ∷ Var 1 ∷ null ∷ null ∷ []) [] []) ∷ []) [] }
    ensures source { exec (flow_of (cmd.Branch test.Eq true (Slot 0) (Num (pos 0)) 1 2)) structs 0
        (state (Var 0 ∷ Var 1 ∷ null ∷ null ∷ []) [] (cell (Var 0) null null ∷ [])) no_table
        ≡ step.Next ((2, state (Var 0 ∷ Var 1 ∷ null ∷ null ∷ []) [] (cell (Var 0) null null ∷ [])) ∷ []) [] }
    ensures undecided { exec (flow_of (cmd.Branch test.Eq true (Slot 0) (Num (pos 0)) 1 2)) structs 0
        (state (Var 0 ∷ Var 1 ∷ null ∷ null ∷ []) [] []) no_table
        ≡ step.Next
        ((1, state (null ∷ Var 1 ∷ null ∷ null ∷ []) (Eq (Var 0) null ∷ []) [])
        ∷ (2, state (Var 0 ∷ Var 1 ∷ null ∷ null ∷ []) (Ne (Var 0) null ∷ []) []) ∷ [])
        [] }
    ensures left_out { exec (flow_of (cmd.Branch test.Eq true (Slot 0) (Slot 1) 1 2)) structs 0
        (state (Var 0 ∷ Var 1 ∷ Var 65536 ∷ null ∷ []) (Ne (Var 0) (Var 65536) ∷ [])
        (cell (Var 0) null null ∷ list (Var 1) (Var 65536) ∷ []))
        no_table
        ≡ step.Next
        ((
          2,
          state (Var 0 ∷ Var 1 ∷ Var 65536 ∷ null ∷ []) (Ne (Var 0) (Var 1) ∷ Ne (Var 0) (Var 65536) ∷ [])
              (cell (Var 0) null null ∷ list (Var 1) (Var 65536) ∷ []),
        )
        ∷ [])
        [] }
    ensures order { exec (flow_of (cmd.Branch test.Lt false (Slot 3) (Num (pos 5)) 1 2)) structs 0
        (state (Var 0 ∷ Var 1 ∷ null ∷ Var 65536 ∷ []) [] []) no_table
        ≡ step.Next
        ((1, state (Var 0 ∷ Var 1 ∷ null ∷ Var 65536 ∷ []) [] []) ∷ (2, state (Var 0 ∷ Var 1 ∷ null ∷ Var 65536 ∷ []) [] []) ∷ []) [] }
    ensures itself { exec (flow_of (cmd.Branch test.Ge false (Slot 3) (Slot 3) 1 2)) structs 0
        (state (Var 0 ∷ Var 1 ∷ null ∷ Var 65536 ∷ []) [] []) no_table
        ≡ step.Next ((1, state (Var 0 ∷ Var 1 ∷ null ∷ Var 65536 ∷ []) [] []) ∷ []) [] }
{}

/// A call uses the first spec that fits, here the second; where a spec is subtracted, the others play no part. In the search, where none
/// is, each that is found by abduction has its cases.
#[tactic(auto, unfolding(sym_matching::specs::Steps::contradicts))]
pub fn calls_by_several_specs()
    ensures second { exec (flow_of (cmd.Call (Some 2) f_name (Slot 0 ∷ []) 1)) structs 0 (state (Var 0 ∷ Var 1 ∷ null ∷ null ∷ []) [] [])
        (table []
        (callee f_name one
        (spec (heap [] (cell (Var 0) (Var 1) (Var 2) ∷ [])) (post (Var 1) (heap [] []) ∷ [])
        ∷ spec (heap [] []) (post (Const (pos 7)) (heap [] []) ∷ []) ∷ [])
        ∷ [])
        false)
        ≡ step.Next ((1, state (Var 0 ∷ Var 1 ∷ Const (pos 7) ∷ null ∷ []) [] []) ∷ []) [] }
    ensures first { exec (flow_of (cmd.Call (Some 2) f_name (Slot 0 ∷ []) 1)) structs 0
        (state (Var 0 ∷ Var 1 ∷ null ∷ null ∷ []) [] (cell (Var 0) (Var 65536) null ∷ []))
        (table []
        (callee f_name one
        (spec (heap [] (cell (Var 0) (Var 1) (Var 2) ∷ [])) (post (Var 1) (heap [] []) ∷ [])
        ∷ spec (heap [] []) (post (Const (pos 7)) (heap [] []) ∷ []) ∷ [])
        ∷ [])
        false)
        ≡ step.Next ((1, state (Var 0 ∷ Var 1 ∷ Var 65536 ∷ null ∷ []) [] []) ∷ []) [] }
    ensures found { search_cases (flow_of (cmd.Call (Some 2) f_name (Slot 0 ∷ []) 1)) structs 0
        (pair (heap [] []) (state (Var 0 ∷ Var 1 ∷ null ∷ null ∷ []) [] []))
        (table []
        (callee f_name one
        (spec (heap [] (cell (Var 0) (Var 1) (Var 2) ∷ []))
        (post (Var 1) (heap [] (cell (Var 0) (Var 1) (Var 2) ∷ [])) ∷ [])
        ∷ spec (heap [] (list (Var 0) null ∷ [])) (post null (heap [] (list (Var 0) null ∷ [])) ∷ []) ∷ [])
        ∷ [])
        false)
        ≡ (On 1
        (pair (heap [] (cell (Var 0) (Var 2) (Var 3) ∷ []))
        (state (Var 0 ∷ Var 1 ∷ Var 2 ∷ null ∷ []) [] (cell (Var 0) (Var 2) (Var 3) ∷ [])))
        ∷ On 1 (pair (heap [] (list (Var 0) null ∷ [])) (state (Var 0 ∷ Var 1 ∷ null ∷ null ∷ []) [] (list (Var 0) null ∷ []))) ∷ []) }
{}

/// In the search a cell is missing at `$2` as it is at a parameter; the facts of a test of pointers are missing too, an equation of a
/// parameter among them.
#[tactic(auto, unfolding(sym_matching::specs::Steps::contradicts))]
pub fn what_is_missing()
    ensures further { search_cases (flow_of (cmd.Load 3 2 node_name 0 1)) structs 0
        (pair (heap [] (cell (Var 0) (Var 2) (Var 3) ∷ []))
        (state (Var 0 ∷ Var 1 ∷ Var 3 ∷ null ∷ []) [] (cell (Var 0) (Var 2) (Var 3) ∷ [])))
        no_table
        ≡ (On 1
        (pair (heap [] (cell (Var 0) (Var 2) (Var 3) ∷ cell (Var 3) (Var 4) (Var 5) ∷ []))
        (state (Var 0 ∷ Var 1 ∷ Var 3 ∷ Var 4 ∷ []) [] (cell (Var 0) (Var 2) (Var 3) ∷ cell (Var 3) (Var 4) (Var 5) ∷ [])))
        ∷ []) }
    ensures facts { search_cases (flow_of (cmd.Branch test.Ne true (Slot 0) (Num (pos 0)) 1 2)) structs 0
        (pair (heap [] []) (state (Var 0 ∷ Var 1 ∷ null ∷ null ∷ []) [] [])) no_table
        ≡ (On 1 (pair (heap (Ne (Var 0) null ∷ []) []) (state (Var 0 ∷ Var 1 ∷ null ∷ null ∷ []) (Ne (Var 0) null ∷ []) []))
        ∷ On 2 (pair (heap (Eq (Var 0) null ∷ []) []) (state (null ∷ Var 1 ∷ null ∷ null ∷ []) [] [])) ∷ []) }
{}
