//! Random instances of the search's execution, of pairs. The answers are those of an implementation that shares nothing with the
//! definitions; of some 1,100 such instances that were computed with them these are a sample.
ghost use Rattle.std.specs.Prelude.{◌≡◌, [], ◌∷◌, pos, negsuc, true, false};
ghost use Rattle.std.specs.declared.option.Option.TheVariants.{None, Some};
ghost use Rattle.shape_data.specs.declared.answer.Fault.TheVariants as fault;
ghost use Rattle.shape_data.specs.declared.program.ArithOp.TheVariants as arith;
ghost use Rattle.shape_data.specs.declared.program.Cmd.TheVariants as cmd;
ghost use Rattle.shape_data.specs.declared.program.Operand.TheVariants.{Slot, Num};
ghost use Rattle.shape_data.specs.declared.program.TestOp.TheVariants as test;
ghost use Rattle.shape_data.specs.declared.symbolic.Atom.TheVariants.{Junk};
ghost use Rattle.shape_data.specs.declared.symbolic.Exp.TheVariants.{Var, Const};
ghost use Rattle.shape_data.specs.declared.symbolic.Fact.TheVariants.{Eq, Ne};
ghost use Rattle.sym_parts.specs.Shapes.Examples.{node_name};
ghost use Rattle.sym_matching.specs.Examples.{cell, heap, list, null, state};
ghost use Rattle.exec_laws.specs.declared.parts.Case.TheVariants.{On, Drops};
ghost use Rattle.exec_laws.specs.declared.parts.Step.TheVariants as step;
ghost use Rattle.exec_laws.specs.Examples.{
  callee,
  f_name,
  flow_of,
  g_name,
  h_name,
  no_table,
  one,
  pair,
  post,
  q_name,
  quad,
  spec,
  structs,
  table,
  tails,
  two,
};
ghost use Rattle.exec_laws.specs.Execution.{search_cases};

/// Load.
#[tactic(auto, unfolding(sym_matching::specs::Steps::contradicts))]
pub fn search_load()
    ensures c20 { search_cases (flow_of (cmd.Load 2 3 node_name 1 1)) structs 0
        (pair (heap [] [])
        (state ((Var 0) ∷ (Var 0) ∷ (Var 2) ∷ (Var 2) ∷ []) [] (list (Var 2) null ∷ cell (Var 65536) (Var 65537) null ∷ [])))
        no_table
        ≡ (Drops fault.Null
        ∷ On 1
        (pair (heap (Ne (Var 2) null ∷ []) [])
        (state ((Var 0) ∷ (Var 0) ∷ (Var 65536) ∷ (Var 2) ∷ []) []
        (list (Var 65536) null ∷ cell (Var 2) (Var 65537) (Var 65536) ∷ cell (Var 65538) (Var 65539) null ∷ [])))
        ∷ []) }
    ensures c21 { search_cases (flow_of (cmd.Load 2 2 node_name 1 1)) structs 0
        (pair (heap (Ne (Var 0) (Var 2) ∷ []) (cell (Var 0) null null ∷ []))
        (state ((Var 0) ∷ (Var 2) ∷ (Var 2) ∷ (Var 65536) ∷ []) (Ne (Var 0) (Var 2) ∷ Ne (Var 65536) (Var 65538) ∷ [])
        (cell (Var 0) null null ∷ list (Var 2) (Var 65537) ∷ cell (Var 65537) (Var 65536) (Var 65537) ∷ [])))
        no_table
        ≡ (On 1
        (pair (heap (Ne (Var 0) (Var 2) ∷ []) (cell (Var 0) null null ∷ []))
        (state ((Var 0) ∷ (Var 2) ∷ (Var 2) ∷ (Var 65536) ∷ []) (Ne (Var 65536) (Var 65537) ∷ [])
        (cell (Var 0) null null ∷ cell (Var 2) (Var 65536) (Var 2) ∷ [])))
        ∷ On 1
        (pair (heap (Ne (Var 0) (Var 2) ∷ []) (cell (Var 0) null null ∷ []))
        (state ((Var 0) ∷ (Var 2) ∷ (Var 65536) ∷ (Var 65537) ∷ []) (Ne (Var 65537) (Var 65540) ∷ [])
        (cell (Var 0) null null ∷ cell (Var 2) (Var 65538) (Var 65536) ∷ list (Var 65536) (Var 65539)
        ∷ cell (Var 65539) (Var 65537) (Var 65539) ∷ [])))
        ∷ []) }
    ensures c22 { search_cases (flow_of (cmd.Load 0 1 node_name 0 1)) structs 0
        (pair (heap [] (cell (Var 1) null (Var 1) ∷ []))
        (state ((Var 1) ∷ (Var 0) ∷ (Var 2) ∷ (Var 0) ∷ []) []
        (list (Var 0) (Const (pos 7)) ∷ cell (Var 1) null (Var 1) ∷ list (Var 2) (Const (pos 2147483647)) ∷ [])))
        no_table
        ≡ (Drops fault.Unowned
        ∷ On 1
        (pair (heap (Ne (Var 0) (Const (pos 7)) ∷ []) (cell (Var 1) null (Var 1) ∷ []))
        (state ((Var 65536) ∷ (Var 0) ∷ (Var 2) ∷ (Var 0) ∷ []) (Ne (Var 0) (Const (pos 7)) ∷ [])
        (cell (Var 0) (Var 65536) (Var 65537) ∷ cell (Var 1) null (Var 1) ∷ list (Var 2) (Const (pos 2147483647))
        ∷ list (Var 65537) (Const (pos 7)) ∷ [])))
        ∷ []) }
    ensures c23 { search_cases (flow_of (cmd.Load 3 0 q_name 2 1)) structs 0
        (pair (heap [] (list (Var 1) (Var 1) ∷ []))
        (state ((Var 0) ∷ (Var 65536) ∷ (Var 0) ∷ (Var 65536) ∷ []) []
        (list (Var 1) (Var 1) ∷ cell (Var 65536) (Const (pos 2147483647)) (Var 0) ∷ list (Var 0) (Var 65538) ∷ [])))
        no_table
        ≡ (On 1
        (pair (heap [] (quad (Var 0) (Var 2) (Var 3) (Var 4) ∷ list (Var 1) (Var 1) ∷ []))
        (state ((Var 0) ∷ (Var 65536) ∷ (Var 0) ∷ (Var 4) ∷ []) []
        (quad (Var 0) (Var 2) (Var 3) (Var 4) ∷ list (Var 1) (Var 1) ∷ cell (Var 65536) (Const (pos 2147483647)) (Var 0)
        ∷ [])))
        ∷ Drops fault.Kind ∷ []) }
    ensures c24 { search_cases (flow_of (cmd.Load 3 2 node_name 0 1)) structs 0
        (pair (heap [] (list (Var 0) (Var 0) ∷ cell (Var 1) (Var 0) (Var 1) ∷ list (Var 0) (Var 0) ∷ []))
        (state ((Var 0) ∷ (Const (pos 7)) ∷ null ∷ (Var 0) ∷ []) [] (list (Var 0) (Var 0) ∷ [])))
        no_table
        ≡ (Drops fault.Null ∷ []) }
{}

/// Store.
#[tactic(auto, unfolding(sym_matching::specs::Steps::contradicts))]
pub fn search_store()
    ensures c60 { search_cases (flow_of (cmd.Store 0 node_name 0 (Slot 2) 1)) structs 0
        (pair (heap [] [])
        (state ((Var 65539) ∷ (Var 65539) ∷ null ∷ (Var 65537) ∷ []) []
        (list (Var 65539) null ∷ cell (Var 65537) (Var 65538) (Var 0) ∷ [])))
        no_table
        ≡ (Drops fault.Null
        ∷ On 1
        (pair (heap [] [])
        (state ((Var 65536) ∷ (Var 65536) ∷ null ∷ (Var 65537) ∷ []) []
        (cell (Var 65536) null (Var 65538) ∷ cell (Var 65537) (Var 65539) (Var 0) ∷ list (Var 65538) null ∷ [])))
        ∷ []) }
    ensures c61 { search_cases (flow_of (cmd.Store 2 q_name 2 (Slot 0) 1)) structs 0
        (pair (heap (Ne (Var 0) null ∷ Ne (Var 1) (Var 2) ∷ []) [])
        (state ((Var 2) ∷ (Var 0) ∷ (Var 2) ∷ null ∷ []) (Ne (Var 0) null ∷ Ne (Var 1) (Var 2) ∷ [])
        (list (Var 2) (Var 65536) ∷ cell (Var 65537) null (Var 2) ∷ [])))
        no_table
        ≡ (On 1
        (pair (heap (Ne (Var 0) null ∷ Ne (Var 1) (Var 2) ∷ []) (quad (Var 2) (Var 3) (Var 4) (Var 5) ∷ []))
        (state ((Var 2) ∷ (Var 0) ∷ (Var 2) ∷ null ∷ []) (Ne (Var 0) null ∷ Ne (Var 1) (Var 2) ∷ [])
        (quad (Var 2) (Var 3) (Var 4) (Var 2) ∷ cell (Var 65536) null (Var 2) ∷ [])))
        ∷ Drops fault.Kind ∷ []) }
    ensures c62 { search_cases (flow_of (cmd.Store 1 node_name 0 (Num (pos 0)) 1)) structs 0
        (pair (heap (Ne (Var 1) null ∷ []) (list (Var 0) (Const (pos 1)) ∷ []))
        (state ((Var 0) ∷ (Var 1) ∷ null ∷ (Var 65536) ∷ []) (Ne (Var 1) null ∷ []) (cell (Var 2) null (Var 0) ∷ [])))
        no_table
        ≡ (On 1
        (pair (heap [] (list (Var 0) (Const (pos 1)) ∷ cell (Var 1) (Var 2) (Var 3) ∷ []))
        (state ((Var 0) ∷ (Var 1) ∷ null ∷ (Var 65536) ∷ []) [] (cell (Var 1) null (Var 3) ∷ cell (Var 4) null (Var 0) ∷ [])))
        ∷ []) }
    ensures c63 { search_cases (flow_of (cmd.Store 1 node_name 1 (Slot 1) 1)) structs 0
        (pair (heap (Ne (Var 1) (Const (pos 2147483647)) ∷ []) [])
        (state ((Var 65536) ∷ (Var 0) ∷ (Var 0) ∷ (Var 1) ∷ [])
        (Ne (Var 1) (Const (pos 2147483647)) ∷ Ne (Var 1) (Const (pos 1)) ∷ []) []))
        no_table
        ≡ (On 1
        (pair (heap (Ne (Var 1) (Const (pos 2147483647)) ∷ []) (cell (Var 0) (Var 2) (Var 3) ∷ []))
        (state ((Var 65536) ∷ (Var 0) ∷ (Var 0) ∷ (Var 1) ∷ [])
        (Ne (Var 1) (Const (pos 1)) ∷ Ne (Var 1) (Const (pos 2147483647)) ∷ []) (cell (Var 0) (Var 2) (Var 0) ∷ [])))
        ∷ []) }
    ensures c64 { search_cases (flow_of (cmd.Store 3 node_name 0 (Slot 0) 1)) structs 0
        (pair (heap (Ne (Var 2) (Var 0) ∷ []) (quad (Var 3) (Var 1) (Var 0) (Var 1) ∷ list (Var 1) (Var 0) ∷ []))
        (state ((Var 65538) ∷ (Var 1) ∷ (Var 1) ∷ (Var 1) ∷ []) (Ne (Var 2) (Var 0) ∷ []) (list (Var 1) (Var 0) ∷ [])))
        no_table
        ≡ (On 1
        (pair
        (heap (Eq (Var 1) (Var 0) ∷ Ne (Var 0) (Var 5) ∷ [])
        (cell (Var 0) (Var 2) (Var 3) ∷ quad (Var 4) (Var 0) (Var 0) (Var 0) ∷ []))
        (state ((Var 65536) ∷ (Var 0) ∷ (Var 0) ∷ (Var 0) ∷ []) (Ne (Var 0) (Var 5) ∷ [])
        (cell (Var 0) (Var 65536) (Var 3) ∷ [])))
        ∷ On 1
        (pair
        (heap (Ne (Var 0) (Var 1) ∷ Ne (Var 0) (Var 3) ∷ []) (list (Var 1) (Var 0) ∷ quad (Var 2) (Var 1) (Var 0) (Var 1) ∷ []))
        (state ((Var 65536) ∷ (Var 1) ∷ (Var 1) ∷ (Var 1) ∷ []) (Ne (Var 0) (Var 1) ∷ Ne (Var 0) (Var 3) ∷ [])
        (cell (Var 1) (Var 65536) (Var 65537) ∷ list (Var 65537) (Var 0) ∷ [])))
        ∷ []) }
{}

/// Free.
#[tactic(auto, unfolding(sym_matching::specs::Steps::contradicts))]
pub fn search_free()
    ensures c85 { search_cases (flow_of (cmd.Free 1 q_name 1)) structs 0
        (pair (heap [] (cell (Var 1) null (Var 3) ∷ []))
        (state ((Var 65537) ∷ (Var 2) ∷ (Var 2) ∷ (Var 2) ∷ []) [] (cell (Var 1) null (Var 3) ∷ list (Var 2) (Var 65538) ∷ [])))
        no_table
        ≡ (On 1
        (pair (heap [] (cell (Var 1) null (Var 2) ∷ []))
        (state ((Var 65536) ∷ null ∷ null ∷ null ∷ []) [] (cell (Var 1) null (Var 2) ∷ [])))
        ∷ On 1
        (pair (heap [] (cell (Var 1) null (Var 2) ∷ quad (Var 3) (Var 4) (Var 5) (Var 6) ∷ []))
        (state ((Var 65536) ∷ (Var 3) ∷ (Var 3) ∷ (Var 3) ∷ []) [] (cell (Var 1) null (Var 2) ∷ [])))
        ∷ On 1
        (pair (heap (Ne (Var 3) null ∷ []) (cell (Var 1) null (Var 2) ∷ []))
        (state ((Var 65536) ∷ (Var 3) ∷ (Var 3) ∷ (Var 3) ∷ []) (Ne (Var 3) (Var 65538) ∷ [])
        (cell (Var 1) null (Var 2) ∷ list (Var 65537) (Var 65538) ∷ [])))
        ∷ []) }
    ensures c86 { search_cases (flow_of (cmd.Free 2 q_name 1)) structs 0
        (pair (heap [] (tails (Var 2) (Var 0) ∷ list (Var 0) (Var 1) ∷ []))
        (state ((Var 65537) ∷ null ∷ (Var 2) ∷ (Var 2) ∷ []) (Ne (Var 65536) (Var 3) ∷ [])
        (tails (Var 2) (Var 0) ∷ list (Var 0) (Var 1) ∷ [])))
        no_table
        ≡ (On 1
        (pair (heap (Eq (Var 0) null ∷ Eq (Var 1) null ∷ []) [])
        (state ((Var 65536) ∷ null ∷ null ∷ null ∷ []) (Ne (Var 2) (Var 65537) ∷ []) []))
        ∷ On 1
        (pair (heap (Eq (Var 1) (Var 0) ∷ []) (quad (Var 0) (Var 2) (Var 3) (Var 4) ∷ []))
        (state ((Var 65536) ∷ null ∷ (Var 0) ∷ (Var 0) ∷ []) (Ne (Var 5) (Var 65537) ∷ []) []))
        ∷ On 1
        (pair (heap (Ne (Var 0) (Var 1) ∷ Ne (Var 0) null ∷ []) (tails (Var 0) (Var 0) ∷ list (Var 0) (Var 1) ∷ []))
        (state ((Var 65536) ∷ null ∷ (Var 0) ∷ (Var 0) ∷ []) (Ne (Var 0) (Var 1) ∷ Ne (Var 2) (Var 65538) ∷ [])
        (list (Var 65537) (Var 1) ∷ [])))
        ∷ On 1
        (pair (heap (Ne (Var 0) (Var 2) ∷ Ne (Var 2) null ∷ []) (list (Var 0) (Var 1) ∷ tails (Var 2) (Var 0) ∷ []))
        (state ((Var 65536) ∷ null ∷ (Var 2) ∷ (Var 2) ∷ []) (Ne (Var 0) (Var 2) ∷ Ne (Var 3) (Var 65538) ∷ [])
        (list (Var 0) (Var 1) ∷ tails (Var 65537) (Var 0) ∷ [])))
        ∷ []) }
    ensures c87 { search_cases (flow_of (cmd.Free 0 q_name 1)) structs 0
        (pair (heap (Ne (Var 2) (Var 0) ∷ []) (cell (Var 0) null (Var 2) ∷ []))
        (state ((Var 65537) ∷ (Var 0) ∷ null ∷ null ∷ []) (Ne (Var 2) (Var 0) ∷ [])
        (cell (Var 0) null (Var 2) ∷ tails (Var 65537) (Var 1) ∷ list (Var 65539) (Var 65539) ∷ [])))
        no_table
        ≡ (On 1
        (pair (heap (Ne (Var 0) (Var 2) ∷ []) (cell (Var 0) null (Var 2) ∷ []))
        (state (null ∷ (Var 0) ∷ null ∷ null ∷ []) (Eq (Var 1) null ∷ Ne (Var 0) (Var 2) ∷ [])
        (cell (Var 0) null (Var 2) ∷ list (Var 65536) (Var 65536) ∷ [])))
        ∷ On 1
        (pair (heap (Ne (Var 0) (Var 2) ∷ []) (cell (Var 0) null (Var 2) ∷ quad (Var 1) (Var 3) (Var 4) (Var 5) ∷ []))
        (state ((Var 1) ∷ (Var 0) ∷ null ∷ null ∷ []) (Ne (Var 0) (Var 2) ∷ [])
        (cell (Var 0) null (Var 2) ∷ list (Var 65536) (Var 65536) ∷ [])))
        ∷ On 1
        (pair (heap (Ne (Var 0) (Var 2) ∷ []) (cell (Var 0) null (Var 2) ∷ []))
        (state ((Var 65536) ∷ (Var 0) ∷ null ∷ null ∷ []) (Ne (Var 0) (Var 2) ∷ Ne (Var 1) (Var 65536) ∷ [])
        (cell (Var 0) null (Var 2) ∷ tails (Var 65537) (Var 1) ∷ list (Var 65538) (Var 65538) ∷ [])))
        ∷ []) }
    ensures c88 { search_cases (flow_of (cmd.Free 0 node_name 1)) structs 0
        (pair (heap [] (cell (Var 1) (Var 2) (Var 3) ∷ []))
        (state ((Var 0) ∷ (Var 3) ∷ null ∷ null ∷ []) [] (cell (Var 1) (Var 2) (Var 3) ∷ [])))
        no_table
        ≡ (On 1
        (pair (heap (Eq (Var 0) null ∷ []) (cell (Var 1) (Var 2) (Var 3) ∷ []))
        (state (null ∷ (Var 3) ∷ null ∷ null ∷ []) [] (cell (Var 1) (Var 2) (Var 3) ∷ [])))
        ∷ On 1
        (pair (heap [] (cell (Var 0) (Var 2) (Var 3) ∷ cell (Var 1) (Var 4) (Var 5) ∷ []))
        (state ((Var 0) ∷ (Var 5) ∷ null ∷ null ∷ []) [] (cell (Var 1) (Var 4) (Var 5) ∷ [])))
        ∷ []) }
    ensures c89 { search_cases (flow_of (cmd.Free 0 node_name 1)) structs 0
        (pair (heap [] []) (state ((Var 65536) ∷ null ∷ null ∷ null ∷ []) [] (cell (Var 65537) (Var 65538) null ∷ []))) no_table
        ≡ (On 1 (pair (heap [] []) (state (null ∷ null ∷ null ∷ null ∷ []) [] (cell (Var 65536) (Var 65537) null ∷ [])))
        ∷ Drops fault.Unowned ∷ []) }
{}

/// Branch.
#[tactic(auto, unfolding(sym_matching::specs::Steps::contradicts))]
pub fn search_branch()
    ensures c120 { search_cases (flow_of (cmd.Branch test.Eq true (Slot 2) (Num (pos 5)) 1 2)) structs 0
        (pair (heap (Ne (Var 1) (Const (pos 7)) ∷ []) [])
        (state ((Var 1) ∷ (Var 1) ∷ (Var 65536) ∷ (Var 1) ∷ []) (Ne (Var 1) (Var 2) ∷ Ne (Var 1) (Const (pos 7)) ∷ [])
        (cell (Var 1) (Var 1) (Var 1) ∷ [])))
        no_table
        ≡ (On 1
        (pair (heap (Ne (Var 1) (Const (pos 7)) ∷ []) [])
        (state ((Var 1) ∷ (Var 1) ∷ (Const (pos 5)) ∷ (Var 1) ∷ []) (Ne (Var 1) (Var 2) ∷ Ne (Var 1) (Const (pos 7)) ∷ [])
        (cell (Var 1) (Var 1) (Var 1) ∷ [])))
        ∷ On 2
        (pair (heap (Ne (Var 1) (Const (pos 7)) ∷ []) [])
        (state ((Var 1) ∷ (Var 1) ∷ (Var 65536) ∷ (Var 1) ∷ [])
        (Ne (Var 1) (Var 2) ∷ Ne (Var 1) (Const (pos 7)) ∷ Ne (Var 65536) (Const (pos 5)) ∷ [])
        (cell (Var 1) (Var 1) (Var 1) ∷ [])))
        ∷ []) }
    ensures c121 { search_cases (flow_of (cmd.Branch test.Ne true (Num (pos 2147483647)) (Slot 2) 1 2)) structs 0
        (pair (heap [] []) (state ((Var 0) ∷ (Var 65536) ∷ null ∷ (Var 0) ∷ []) (Ne (Var 65536) (Const (pos 1)) ∷ []) [])) no_table
        ≡ (On 1 (pair (heap [] []) (state ((Var 0) ∷ (Var 65536) ∷ null ∷ (Var 0) ∷ []) (Ne (Var 65536) (Const (pos 1)) ∷ []) [])) ∷ []) }
    ensures c122 { search_cases (flow_of (cmd.Branch test.Ne true (Slot 2) (Slot 0) 1 2)) structs 0
        (pair (heap (Ne (Var 2) (Var 0) ∷ []) (list (Var 1) (Var 1) ∷ list (Var 1) (Var 1) ∷ []))
        (state ((Var 65536) ∷ (Var 65539) ∷ (Var 0) ∷ (Var 3) ∷ []) (Ne (Var 2) (Var 0) ∷ [])
        (list (Var 1) (Var 1) ∷ list (Var 1) (Var 1) ∷ tails (Var 65538) (Var 65536) ∷ cell (Var 2) (Var 65536) (Var 65536)
        ∷ [])))
        no_table
        ≡ (On 1
        (pair (heap (Ne (Var 0) (Var 2) ∷ []) (list (Var 1) (Var 1) ∷ list (Var 1) (Var 1) ∷ []))
        (state ((Var 65536) ∷ (Var 65537) ∷ (Var 0) ∷ (Var 3) ∷ []) (Ne (Var 0) (Var 2) ∷ Ne (Var 0) (Var 65536) ∷ [])
        (list (Var 1) (Var 1) ∷ list (Var 1) (Var 1) ∷ tails (Var 65538) (Var 65536) ∷ cell (Var 2) (Var 65536) (Var 65536)
        ∷ [])))
        ∷ On 2
        (pair (heap (Ne (Var 0) (Var 2) ∷ []) (list (Var 1) (Var 1) ∷ list (Var 1) (Var 1) ∷ []))
        (state ((Var 0) ∷ (Var 65536) ∷ (Var 0) ∷ (Var 3) ∷ []) (Ne (Var 0) (Var 2) ∷ [])
        (list (Var 1) (Var 1) ∷ list (Var 1) (Var 1) ∷ tails (Var 65537) (Var 0) ∷ cell (Var 2) (Var 0) (Var 0) ∷ [])))
        ∷ []) }
    ensures c123 { search_cases (flow_of (cmd.Branch test.Eq false (Slot 2) (Slot 1) 1 2)) structs 0
        (pair (heap [] []) (state (null ∷ (Var 1) ∷ null ∷ (Var 65536) ∷ []) [] (cell (Var 65536) (Var 65537) (Var 65538) ∷ [])))
        no_table
        ≡ (On 1
        (pair (heap [] [])
        (state (null ∷ null ∷ null ∷ (Var 65536) ∷ []) (Eq (Var 1) null ∷ []) (cell (Var 65536) (Var 65537) (Var 65538) ∷ [])))
        ∷ On 2
        (pair (heap [] [])
        (state (null ∷ (Var 1) ∷ null ∷ (Var 65536) ∷ []) (Ne (Var 1) null ∷ [])
        (cell (Var 65536) (Var 65537) (Var 65538) ∷ [])))
        ∷ []) }
    ensures c124 { search_cases (flow_of (cmd.Branch test.Ne false (Slot 2) (Slot 1) 1 2)) structs 0
        (pair (heap [] []) (state ((Var 0) ∷ (Var 1) ∷ null ∷ null ∷ []) [] [])) no_table
        ≡ (On 1 (pair (heap [] []) (state ((Var 0) ∷ (Var 1) ∷ null ∷ null ∷ []) (Ne (Var 1) null ∷ []) []))
        ∷ On 2 (pair (heap [] []) (state ((Var 0) ∷ null ∷ null ∷ null ∷ []) (Eq (Var 1) null ∷ []) [])) ∷ []) }
{}

/// Call.
#[tactic(auto, unfolding(sym_matching::specs::Steps::contradicts))]
pub fn search_call()
    ensures c165 { search_cases (flow_of (cmd.Call None h_name [] 1)) structs 0
        (pair (heap (Ne (Var 2) (Var 3) ∷ []) (list (Var 1) (Var 1) ∷ cell (Var 3) (Var 0) null ∷ cell (Var 0) (Var 1) null ∷ []))
        (state ((Var 65536) ∷ (Var 3) ∷ (Var 0) ∷ (Var 0) ∷ []) (Ne (Var 2) (Var 3) ∷ Ne (Var 65537) (Var 65536) ∷ [])
        (list (Var 1) (Var 1) ∷ cell (Var 0) (Var 1) null ∷ [])))
        (table (callee h_name [] (spec (heap [] []) (post (Var 65536) (heap [] []) ∷ []) ∷ []) ∷ []) [] false)
        ≡ (On 1
        (pair (heap (Ne (Var 2) (Var 3) ∷ []) (cell (Var 0) (Var 1) null ∷ list (Var 1) (Var 1) ∷ cell (Var 2) (Var 0) null ∷ []))
        (state ((Var 65536) ∷ (Var 2) ∷ (Var 0) ∷ (Var 0) ∷ []) (Ne (Var 2) (Var 3) ∷ Ne (Var 65536) (Var 65537) ∷ [])
        (cell (Var 0) (Var 1) null ∷ list (Var 1) (Var 1) ∷ [])))
        ∷ []) }
    ensures c166 { search_cases (flow_of (cmd.Call (Some 3) g_name ((Slot 3) ∷ (Num (pos 0)) ∷ []) 1)) structs 0
        (pair (heap [] (list (Var 0) null ∷ tails (Var 1) (Var 2) ∷ []))
        (state ((Var 1) ∷ (Var 3) ∷ (Var 1) ∷ (Var 1) ∷ []) [] (tails (Var 1) (Var 2) ∷ [])))
        (table
        (callee g_name two
        (spec (heap [] (cell (Var 0) (Const (pos 7)) (Const (negsuc 0)) ∷ list (Var 2) null ∷ []))
        (post (Var 65539) (heap (Eq (Var 65536) (Var 65539) ∷ []) (list null (Var 2) ∷ [])) ∷ [])
        ∷ spec (heap [] (list (Var 0) (Var 2) ∷ [])) (post (Var 2) (heap [] (list (Var 0) (Var 2) ∷ [])) ∷ [])
        ∷ spec (heap [] (cell (Var 1) (Const (pos 1)) (Var 0) ∷ cell (Const (pos 2147483647)) (Var 0) (Var 0) ∷ []))
        (post (Var 1) (heap (Eq (Var 65538) (Var 3) ∷ []) (tails (Var 1) (Var 0) ∷ Junk ∷ [])) ∷ [])
        ∷ [])
        ∷ [])
        []
        false)
        ≡ (On 1
        (pair (heap [] (list (Var 0) null ∷ tails (Var 1) (Var 2) ∷ []))
        (state ((Var 1) ∷ (Var 3) ∷ (Var 1) ∷ (Var 1) ∷ []) [] (tails (Var 1) (Var 2) ∷ list (Var 1) (Var 1) ∷ [])))
        ∷ []) }
    ensures c167 { search_cases (flow_of (cmd.Call None f_name ((Slot 2) ∷ []) 1)) structs 0
        (pair (heap (Ne (Var 2) (Var 3) ∷ []) (cell (Var 0) (Const (pos 2147483647)) (Var 2) ∷ []))
        (state ((Var 65536) ∷ (Var 65537) ∷ (Var 1) ∷ null ∷ []) (Ne (Var 2) (Var 3) ∷ [])
        (cell (Var 0) (Const (pos 2147483647)) (Var 2) ∷ list (Var 65536) (Var 65538) ∷ list (Var 65537) (Var 2) ∷ [])))
        (table
        (callee f_name one
        (spec (heap [] (cell (Var 0) (Var 1) (Var 2) ∷ []))
        (post (Var 2) (heap [] [])
        ∷ post (Var 65536) (heap (Ne (Var 65536) (Var 1) ∷ []) (cell (Var 0) (Var 65536) (Var 65537) ∷ []))
        ∷ [])
        ∷ spec (heap [] (cell (Var 0) (Var 1) (Var 2) ∷ Junk ∷ [])) (post (Var 1) (heap [] (Junk ∷ [])) ∷ []) ∷ [])
        ∷ [])
        []
        false)
        ≡ (On 1
        (pair (heap (Ne (Var 2) (Var 5) ∷ []) (cell (Var 0) (Const (pos 2147483647)) (Var 2) ∷ cell (Var 1) (Var 3) (Var 4) ∷ []))
        (state ((Var 65536) ∷ (Var 65537) ∷ (Var 1) ∷ null ∷ []) (Ne (Var 2) (Var 5) ∷ [])
        (cell (Var 0) (Const (pos 2147483647)) (Var 2) ∷ list (Var 65536) (Var 65538) ∷ list (Var 65537) (Var 2) ∷ [])))
        ∷ On 1
        (pair (heap (Ne (Var 2) (Var 5) ∷ []) (cell (Var 0) (Const (pos 2147483647)) (Var 2) ∷ cell (Var 1) (Var 3) (Var 4) ∷ []))
        (state ((Var 65536) ∷ (Var 65537) ∷ (Var 1) ∷ null ∷ []) (Ne (Var 2) (Var 5) ∷ Ne (Var 3) (Var 65538) ∷ [])
        (cell (Var 0) (Const (pos 2147483647)) (Var 2) ∷ cell (Var 1) (Var 65538) (Var 65539) ∷ list (Var 65536) (Var 65540)
        ∷ list (Var 65537) (Var 2) ∷ [])))
        ∷ On 1
        (pair (heap (Ne (Var 2) (Var 5) ∷ []) (cell (Var 0) (Const (pos 2147483647)) (Var 2) ∷ cell (Var 1) (Var 3) (Var 4) ∷ []))
        (state ((Var 65536) ∷ (Var 65537) ∷ (Var 1) ∷ null ∷ []) (Ne (Var 2) (Var 5) ∷ []) (Junk ∷ [])))
        ∷ []) }
    ensures c168 { search_cases (flow_of (cmd.Call (Some 2) f_name ((Slot 0) ∷ []) 1)) structs 0
        (pair (heap [] [])
        (state ((Var 0) ∷ (Var 1) ∷ (Var 65536) ∷ (Var 65537) ∷ []) (Ne (Var 65540) null ∷ [])
        (cell (Var 65537) (Var 65538) (Var 65539) ∷ [])))
        (table []
        (callee f_name one
        (spec (heap [] (cell (Var 0) (Var 65536) (Var 65537) ∷ []))
        (post (Var 65536) (heap [] (cell (Var 0) (Var 65537) (Var 65536) ∷ [])) ∷ [])
        ∷ spec (heap [] (cell (Var 0) (Var 0) (Var 2) ∷ [])) (post (Const (pos 2)) (heap [] []) ∷ []) ∷ [])
        ∷ [])
        true)
        ≡ (On 1
        (pair (heap [] (cell (Var 0) (Var 2) (Var 3) ∷ []))
        (state ((Var 0) ∷ (Var 1) ∷ (Var 65536) ∷ (Var 65537) ∷ []) (Ne (Var 65541) null ∷ [])
        (cell (Var 0) (Var 65538) (Var 65536) ∷ cell (Var 65537) (Var 65539) (Var 65540) ∷ [])))
        ∷ On 1
        (pair (heap [] (cell (Var 0) (Var 0) (Var 2) ∷ []))
        (state ((Var 0) ∷ (Var 1) ∷ (Const (pos 2)) ∷ (Var 65536) ∷ []) (Ne (Var 65539) null ∷ [])
        (cell (Var 65536) (Var 65537) (Var 65538) ∷ [])))
        ∷ []) }
    ensures c169 { search_cases (flow_of (cmd.Call (Some 2) f_name ((Slot 3) ∷ []) 1)) structs 0
        (pair (heap (Ne (Var 1) null ∷ Ne (Var 1) (Var 3) ∷ []) (cell (Var 0) (Var 0) (Var 1) ∷ []))
        (state ((Var 0) ∷ (Var 1) ∷ (Var 1) ∷ (Var 1) ∷ []) (Ne (Var 1) (Var 3) ∷ Ne (Var 65538) (Const (negsuc 0)) ∷ [])
        (cell (Var 0) (Var 0) (Var 1) ∷ cell (Var 1) null (Var 0) ∷ [])))
        (table []
        (callee f_name one
        (spec (heap [] [])
        (post null (heap [] []) ∷ post (Var 65536) (heap [] (cell (Var 65536) (Var 65537) null ∷ [])) ∷ [])
        ∷ spec (heap [] (quad (Var 0) (Var 1) (Var 2) (Var 3) ∷ cell (Var 1) (Var 4) (Var 5) ∷ []))
        (post (Var 4) (heap [] (quad (Var 0) (Var 5) (Var 2) (Var 3) ∷ [])) ∷ [])
        ∷ spec (heap (Ne (Var 0) null ∷ []) (list (Var 0) null ∷ []))
        (post (Var 65537) (heap [] (cell (Var 0) (Var 65536) (Var 65537) ∷ list (Var 65537) null ∷ [])) ∷ [])
        ∷ [])
        ∷ [])
        false)
        ≡ (On 1
        (pair (heap (Ne (Var 1) (Var 2) ∷ Ne (Var 1) null ∷ []) (cell (Var 0) (Var 0) (Var 1) ∷ []))
        (state ((Var 0) ∷ (Var 1) ∷ null ∷ (Var 1) ∷ []) (Ne (Var 1) (Var 2) ∷ Ne (Var 65536) (Const (negsuc 0)) ∷ [])
        (cell (Var 0) (Var 0) (Var 1) ∷ cell (Var 1) null (Var 0) ∷ [])))
        ∷ On 1
        (pair (heap (Ne (Var 1) (Var 2) ∷ Ne (Var 1) null ∷ []) (cell (Var 0) (Var 0) (Var 1) ∷ []))
        (state ((Var 0) ∷ (Var 1) ∷ (Var 65536) ∷ (Var 1) ∷ []) (Ne (Var 1) (Var 2) ∷ Ne (Var 65538) (Const (negsuc 0)) ∷ [])
        (cell (Var 0) (Var 0) (Var 1) ∷ cell (Var 1) null (Var 0) ∷ cell (Var 65536) (Var 65537) null ∷ [])))
        ∷ []) }
{}

/// Call, further ones.
#[tactic(auto, unfolding(sym_matching::specs::Steps::contradicts))]
pub fn search_call_further()
    ensures c185 { search_cases (flow_of (cmd.Call (Some 3) f_name ((Slot 2) ∷ []) 1)) structs 0
        (pair (heap (Eq (Var 1) (Var 0) ∷ []) (quad (Var 0) (Const (pos 2147483647)) (Var 0) (Var 0) ∷ []))
        (state ((Var 65536) ∷ (Var 2) ∷ (Var 3) ∷ (Var 0) ∷ []) []
        (cell (Var 0) null (Var 2) ∷ cell (Var 65536) (Var 65537) (Var 65538) ∷ [])))
        (table []
        (callee f_name one
        (spec (heap (Eq (Var 1) null ∷ []) (cell (Var 0) (Var 0) null ∷ []))
        (post (Var 65539) (heap [] (list (Var 2) null ∷ list (Var 65538) (Var 65536) ∷ []))
        ∷ post (Var 65538) (heap [] (list (Var 65538) null ∷ cell (Var 65539) (Var 2) (Var 0) ∷ [])) ∷ [])
        ∷ [])
        ∷ [])
        false)
        ≡ (On 1
        (pair
        (heap (Eq (Var 1) (Var 0) ∷ [])
        (quad (Var 0) (Const (pos 2147483647)) (Var 0) (Var 0) ∷ cell (Var 2) (Var 2) null ∷ []))
        (state ((Var 65536) ∷ (Var 3) ∷ (Var 2) ∷ (Var 65537) ∷ []) []
        (cell (Var 0) null (Var 3) ∷ cell (Var 65536) (Var 65538) (Var 65539) ∷ list (Var 65540) null
        ∷ list (Var 65541) (Var 65542) ∷ [])))
        ∷ On 1
        (pair
        (heap (Eq (Var 1) (Var 0) ∷ [])
        (quad (Var 0) (Const (pos 2147483647)) (Var 0) (Var 0) ∷ cell (Var 2) (Var 2) null ∷ []))
        (state ((Var 65536) ∷ (Var 3) ∷ (Var 2) ∷ (Var 65537) ∷ []) []
        (cell (Var 0) null (Var 3) ∷ cell (Var 65536) (Var 65538) (Var 65539) ∷ list (Var 65537) null
        ∷ cell (Var 65540) (Var 65541) (Var 2) ∷ [])))
        ∷ []) }
    ensures c186 { search_cases (flow_of (cmd.Call None f_name ((Slot 2) ∷ []) 1)) structs 0
        (pair (heap (Ne (Var 0) (Var 1) ∷ []) [])
        (state ((Var 0) ∷ (Var 0) ∷ (Var 0) ∷ (Const (pos 2147483647)) ∷ []) (Eq (Var 1) null ∷ Ne (Var 0) null ∷ [])
        (list (Var 65536) (Var 2) ∷ [])))
        (table
        (callee f_name one
        (spec (heap [] (cell (Var 0) (Var 65536) (Var 1) ∷ list (Var 1) null ∷ []))
        (post (Var 1) (heap [] (list (Var 0) null ∷ [])) ∷ [])
        ∷ spec (heap [] (list (Var 0) (Var 1) ∷ cell (Var 1) (Var 2) null ∷ []))
        (post (Var 1) (heap [] (list (Var 0) (Var 1) ∷ cell (Var 1) (Const (pos 7)) null ∷ [])) ∷ [])
        ∷ [])
        ∷ [])
        []
        true)
        ≡ (On 1
        (pair (heap (Ne (Var 0) (Var 1) ∷ []) (cell (Var 0) (Var 2) (Var 3) ∷ list (Var 3) null ∷ []))
        (state ((Var 0) ∷ (Var 0) ∷ (Var 0) ∷ (Const (pos 2147483647)) ∷ []) (Eq (Var 1) null ∷ Ne (Var 0) null ∷ [])
        (list (Var 0) null ∷ list (Var 65536) (Var 4) ∷ [])))
        ∷ On 1
        (pair (heap (Ne (Var 0) (Var 1) ∷ []) (list (Var 0) (Var 2) ∷ cell (Var 2) (Var 3) null ∷ []))
        (state ((Var 0) ∷ (Var 0) ∷ (Var 0) ∷ (Const (pos 2147483647)) ∷ []) (Eq (Var 1) null ∷ Ne (Var 0) null ∷ [])
        (list (Var 0) (Var 2) ∷ cell (Var 2) (Const (pos 7)) null ∷ list (Var 65536) (Var 4) ∷ [])))
        ∷ []) }
    ensures c187 { search_cases (flow_of (cmd.Call None f_name ((Slot 1) ∷ []) 1)) structs 0
        (pair (heap [] []) (state ((Var 0) ∷ (Var 1) ∷ (Const (pos 1)) ∷ null ∷ []) [] (Junk ∷ [])))
        (table
        (callee f_name one
        (spec (heap [] (list (Var 1) (Var 65538) ∷ cell (Var 0) (Var 3) (Var 1) ∷ []))
        (post (Var 1) (heap (Eq null null ∷ []) []) ∷ [])
        ∷ spec (heap [] (list (Var 0) null ∷ [])) (post (Var 65536) (heap [] (list (Var 0) null ∷ [])) ∷ []) ∷ [])
        ∷ [])
        []
        false)
        ≡ (On 1
        (pair (heap [] (cell (Var 1) (Var 2) (Var 3) ∷ list (Var 3) (Var 4) ∷ []))
        (state ((Var 0) ∷ (Var 1) ∷ (Const (pos 1)) ∷ null ∷ []) [] (Junk ∷ [])))
        ∷ On 1
        (pair (heap [] (list (Var 1) null ∷ []))
        (state ((Var 0) ∷ (Var 1) ∷ (Const (pos 1)) ∷ null ∷ []) [] (list (Var 1) null ∷ Junk ∷ [])))
        ∷ []) }
    ensures c188 { search_cases (flow_of (cmd.Call (Some 2) g_name ((Slot 2) ∷ (Slot 0) ∷ []) 1)) structs 0
        (pair (heap [] []) (state ((Var 0) ∷ (Var 1) ∷ (Const (pos 1)) ∷ null ∷ []) [] []))
        (table
        (callee g_name two
        (spec (heap (Eq (Var 0) (Var 1) ∷ []) []) (post (Const (pos 1)) (heap (Eq (Var 0) (Var 1) ∷ []) []) ∷ []) ∷ [])
        ∷ [])
        []
        false)
        ≡ (On 1 (pair (heap (Eq (Var 0) (Const (pos 1)) ∷ []) []) (state ((Const (pos 1)) ∷ (Var 1) ∷ (Const (pos 1)) ∷ null ∷ []) [] []))
        ∷ []) }
    ensures c189 { search_cases (flow_of (cmd.Call (Some 2) f_name ((Num (pos 1)) ∷ []) 1)) structs 0
        (pair (heap (Ne (Var 0) (Var 2) ∷ []) (list (Var 1) (Const (pos 2147483647)) ∷ list (Var 1) null ∷ []))
        (state ((Var 2) ∷ (Var 1) ∷ (Var 3) ∷ null ∷ []) (Ne (Var 0) (Var 2) ∷ Ne (Var 0) (Const (pos 2147483647)) ∷ [])
        (list (Var 1) (Const (pos 2147483647)) ∷ [])))
        (table
        (callee f_name one
        (spec (heap [] (quad (Var 0) (Var 1) (Var 2) (Var 3) ∷ []))
        (post null (heap [] (quad (Var 0) (Var 1) null (Var 3) ∷ [])) ∷ post (Const (pos 1)) (heap [] []) ∷ [])
        ∷ spec (heap [] (list (Var 0) null ∷ [])) (post (Var 65536) (heap [] (list (Var 0) null ∷ [])) ∷ [])
        ∷ spec (heap [] (cell (Var 0) (Var 65536) (Var 65537) ∷ []))
        (post (Var 65536) (heap [] (cell (Var 0) (Var 65537) (Var 65536) ∷ [])) ∷ [])
        ∷ [])
        ∷ [])
        []
        false)
        ≡ (Drops fault.Callee ∷ []) }
{}
