//! Random instances of strict execution. The answers are those of an implementation that shares nothing with the definitions; of some 1,300
//! such instances that were computed with them these are a sample.
ghost use Rattle.std.specs.Prelude.{◌≡◌, [], ◌∷◌, pos, negsuc, true, false};
ghost use Rattle.std.specs.declared.option.Option.TheVariants.{None, Some};
ghost use Rattle.shape_data.specs.declared.answer.Fault.TheVariants as fault;
ghost use Rattle.shape_data.specs.declared.program.ArithOp.TheVariants as arith;
ghost use Rattle.shape_data.specs.declared.program.Cmd.TheVariants as cmd;
ghost use Rattle.shape_data.specs.declared.program.Operand.TheVariants.{Slot, Num};
ghost use Rattle.shape_data.specs.declared.program.TestOp.TheVariants as test;
ghost use Rattle.shape_data.specs.declared.symbolic.Atom.TheVariants.{Junk};
ghost use Rattle.shape_data.specs.declared.symbolic.Exp.TheVariants.{Var, Const};
ghost use Rattle.shape_data.specs.declared.symbolic.Fact.TheVariants.{Eq, Ne};
ghost use Rattle.sym_parts.specs.Shapes.Examples.{node_name};
ghost use Rattle.sym_matching.specs.Examples.{cell, heap, list, null, state};
ghost use Rattle.exec_laws.specs.declared.parts.Step.TheVariants as step;
ghost use Rattle.exec_laws.specs.Examples.{
  callee,
  f_name,
  flow_of,
  g_name,
  h_name,
  no_table,
  one,
  post,
  q_name,
  quad,
  spec,
  structs,
  table,
  tails,
  two,
};
ghost use Rattle.exec_laws.specs.Execution.{exec};

/// Arith: two constants, and unknowns.
#[tactic(auto, unfolding(sym_matching::specs::Steps::contradicts))]
pub fn strict_arith()
    ensures c5 { exec (flow_of (cmd.Arith 0 arith.Sub (Slot 3) (Slot 0) 1)) structs 0
        (state ((Var 2) ∷ (Var 2) ∷ (Var 1) ∷ (Var 2) ∷ []) [] (cell (Var 1) (Var 0) (Var 65536) ∷ list (Var 2) (Var 0) ∷ [])) no_table
        ≡ (step.Next
        ((1, (state ((Var 65536) ∷ (Var 2) ∷ (Var 1) ∷ (Var 2) ∷ []) [] (cell (Var 1) (Var 0) (Var 65537) ∷ list (Var 2) (Var 0) ∷ [])))
        ∷ [])
        []) }
    ensures c6 { exec (flow_of (cmd.Arith 1 arith.Add (Slot 2) (Slot 1) 1)) structs 0
        (state ((Var 0) ∷ (Var 65536) ∷ (Const (pos 1)) ∷ (Var 0) ∷ []) [] []) no_table
        ≡ (step.Next ((1, (state ((Var 0) ∷ (Var 65536) ∷ (Const (pos 1)) ∷ (Var 0) ∷ []) [] [])) ∷ []) []) }
    ensures c7 { exec (flow_of (cmd.Arith 1 arith.Sub (Num (pos 2147483647)) (Num (pos 0)) 1)) structs 0
        (state ((Var 0) ∷ (Var 0) ∷ (Var 0) ∷ (Var 0) ∷ []) (Ne (Var 1) (Var 3) ∷ []) []) no_table
        ≡ (step.Next ((1, (state ((Var 0) ∷ (Const (pos 2147483647)) ∷ (Var 0) ∷ (Var 0) ∷ []) (Ne (Var 1) (Var 3) ∷ []) [])) ∷ []) []) }
    ensures c8 { exec (flow_of (cmd.Arith 2 arith.Sub (Num (pos 0)) (Slot 0) 1)) structs 0
        (state ((Var 3) ∷ null ∷ (Var 65538) ∷ (Var 65537) ∷ []) []
        (cell (Var 0) (Const (pos 1)) (Var 0) ∷ cell (Var 65537) (Var 2) (Var 65539) ∷ tails (Var 65536) (Var 65539) ∷ []))
        no_table
        ≡ (step.Next
        ((
          1,
          (state ((Var 3) ∷ null ∷ (Var 65536) ∷ (Var 65537) ∷ []) []
              (cell (Var 0) (Const (pos 1)) (Var 0) ∷ cell (Var 65537) (Var 2) (Var 65538) ∷ tails (Var 65539) (Var 65538)
              ∷ [])),
        )
        ∷ [])
        []) }
    ensures c9 { exec (flow_of (cmd.Arith 1 arith.Mul (Num (pos 7)) (Num (negsuc 0)) 1)) structs 0
        (state ((Var 1) ∷ (Var 1) ∷ null ∷ (Var 3) ∷ []) (Ne (Const (pos 1)) (Var 2) ∷ [])
        (list (Var 3) null ∷ quad (Var 1) (Var 0) (Const (pos 1)) (Var 65537) ∷ []))
        no_table
        ≡ (step.Next
        ((
          1,
          (state ((Var 1) ∷ (Const (negsuc 6)) ∷ null ∷ (Var 3) ∷ []) (Ne (Var 2) (Const (pos 1)) ∷ [])
              (quad (Var 1) (Var 0) (Const (pos 1)) (Var 65536) ∷ list (Var 3) null ∷ [])),
        )
        ∷ [])
        []) }
{}

/// Load.
#[tactic(auto, unfolding(sym_matching::specs::Steps::contradicts))]
pub fn strict_load()
    ensures c35 { exec (flow_of (cmd.Load 3 0 node_name 1 1)) structs 0
        (state ((Var 0) ∷ (Var 2) ∷ (Const (pos 1)) ∷ (Var 0) ∷ []) []
        (cell (Var 65538) null (Var 1) ∷ cell (Var 65536) (Var 65536) (Var 3) ∷ cell (Var 1) null (Var 65536)
        ∷ list (Var 0) (Var 65538) ∷ []))
        no_table
        ≡ (step.Next
        ((
          1,
          (state ((Var 0) ∷ (Var 2) ∷ (Const (pos 1)) ∷ (Var 1) ∷ []) []
              (cell (Var 0) null (Var 1) ∷ cell (Var 1) null (Var 65536) ∷ cell (Var 65536) (Var 65536) (Var 3) ∷ [])),
        )
        ∷ (
          1,
          (state ((Var 0) ∷ (Var 2) ∷ (Const (pos 1)) ∷ (Var 65536) ∷ []) []
              (cell (Var 0) (Var 65537) (Var 65536) ∷ cell (Var 1) null (Var 65538) ∷ list (Var 65536) (Var 65539)
              ∷ cell (Var 65538) (Var 65538) (Var 3) ∷ cell (Var 65539) null (Var 1) ∷ [])),
        )
        ∷ [])
        []) }
    ensures c36 { exec (flow_of (cmd.Load 3 0 node_name 1 1)) structs 0
        (state ((Var 0) ∷ (Var 3) ∷ (Var 3) ∷ (Var 3) ∷ []) (Ne (Var 1) (Var 65538) ∷ Ne (Var 65538) null ∷ [])
        (cell (Var 0) (Const (pos 1)) (Var 0) ∷ tails (Var 3) (Var 65536) ∷ cell (Var 65537) null null ∷ []))
        no_table
        ≡ (step.Next
        ((
          1,
          (state ((Var 0) ∷ (Var 3) ∷ (Var 3) ∷ (Var 0) ∷ []) (Ne (Var 1) (Var 65538) ∷ Ne (Var 65538) null ∷ [])
              (cell (Var 0) (Const (pos 1)) (Var 0) ∷ tails (Var 3) (Var 65536) ∷ cell (Var 65537) null null ∷ [])),
        )
        ∷ [])
        []) }
    ensures c37 { exec (flow_of (cmd.Load 2 2 q_name 2 1)) structs 0
        (state ((Var 65536) ∷ (Var 0) ∷ (Var 3) ∷ (Var 0) ∷ []) (Eq (Var 1) (Var 0) ∷ []) []) no_table
        ≡ (step.Fail fault.Unowned 5) }
    ensures c38 { exec (flow_of (cmd.Load 3 1 q_name 0 1)) structs 0
        (state ((Var 1) ∷ (Var 1) ∷ (Var 1) ∷ (Var 1) ∷ []) [] (quad (Var 1) (Var 0) (Var 2) (Var 0) ∷ [])) no_table
        ≡ (step.Next ((1, (state ((Var 1) ∷ (Var 1) ∷ (Var 1) ∷ (Var 0) ∷ []) [] (quad (Var 1) (Var 0) (Var 2) (Var 0) ∷ []))) ∷ []) []) }
    ensures c39 { exec (flow_of (cmd.Load 3 0 node_name 0 1)) structs 0
        (state ((Var 3) ∷ (Var 3) ∷ (Var 3) ∷ null ∷ []) (Eq (Var 1) null ∷ []) (cell (Var 3) (Var 65539) (Const (pos 1)) ∷ []))
        no_table
        ≡ (step.Next
        ((
          1,
          (state ((Var 3) ∷ (Var 3) ∷ (Var 3) ∷ (Var 65536) ∷ []) (Eq (Var 1) null ∷ [])
              (cell (Var 3) (Var 65536) (Const (pos 1)) ∷ [])),
        )
        ∷ [])
        []) }
{}

/// Store.
#[tactic(auto, unfolding(sym_matching::specs::Steps::contradicts))]
pub fn strict_store()
    ensures c65 { exec (flow_of (cmd.Store 2 node_name 1 (Slot 3) 1)) structs 0
        (state ((Var 1) ∷ (Var 0) ∷ (Var 0) ∷ null ∷ []) []
        (cell (Var 0) (Var 0) (Var 1) ∷ cell (Var 1) (Var 2) (Var 65536) ∷ list (Var 65538) (Var 2) ∷ []))
        no_table
        ≡ (step.Next
        ((
          1,
          (state ((Var 1) ∷ (Var 0) ∷ (Var 0) ∷ null ∷ []) []
              (cell (Var 0) (Var 0) null ∷ cell (Var 1) (Var 2) (Var 65536) ∷ list (Var 65537) (Var 2) ∷ [])),
        )
        ∷ [])
        []) }
    ensures c66 { exec (flow_of (cmd.Store 2 node_name 0 (Slot 2) 1)) structs 0
        (state ((Var 65538) ∷ (Var 3) ∷ (Var 65536) ∷ (Var 65536) ∷ []) []
        (cell (Var 3) (Var 65537) (Var 65538) ∷ list (Var 65536) (Var 3) ∷ cell (Var 65538) (Var 65537) (Var 0) ∷ []))
        no_table
        ≡ (step.Next
        ((
          1,
          (state ((Var 65536) ∷ (Var 3) ∷ (Var 3) ∷ (Var 3) ∷ []) []
              (cell (Var 65536) (Var 65537) (Var 0) ∷ cell (Var 3) (Var 3) (Var 65536) ∷ [])),
        )
        ∷ (
          1,
          (state ((Var 65536) ∷ (Var 3) ∷ (Var 65537) ∷ (Var 65537) ∷ []) []
              (cell (Var 65536) (Var 65538) (Var 0) ∷ cell (Var 3) (Var 65538) (Var 65536)
              ∷ cell (Var 65537) (Var 65537) (Var 65539) ∷ list (Var 65539) (Var 3) ∷ [])),
        )
        ∷ [])
        []) }
    ensures c67 { exec (flow_of (cmd.Store 0 node_name 1 (Slot 1) 1)) structs 0
        (state ((Var 0) ∷ (Var 65536) ∷ (Var 3) ∷ (Var 3) ∷ []) []
        (cell (Var 0) (Var 1) (Var 65537) ∷ quad (Var 1) (Var 65537) (Var 65537) null ∷ cell (Var 3) (Var 65537) (Var 3) ∷ []))
        no_table
        ≡ (step.Next
        ((
          1,
          (state ((Var 0) ∷ (Var 65536) ∷ (Var 3) ∷ (Var 3) ∷ []) []
              (cell (Var 0) (Var 1) (Var 65536) ∷ quad (Var 1) (Var 65537) (Var 65537) null ∷ cell (Var 3) (Var 65537) (Var 3)
              ∷ [])),
        )
        ∷ [])
        []) }
    ensures c68 { exec (flow_of (cmd.Store 1 node_name 1 (Num (pos 5)) 1)) structs 0
        (state ((Var 65536) ∷ (Var 65538) ∷ (Var 65536) ∷ (Var 65536) ∷ []) (Ne null (Var 65537) ∷ [])
        (cell (Var 65538) (Var 65539) (Var 0) ∷ Junk ∷ []))
        no_table
        ≡ (step.Next
        ((
          1,
          (state ((Var 65536) ∷ (Var 65537) ∷ (Var 65536) ∷ (Var 65536) ∷ []) (Ne (Var 65539) null ∷ [])
              (cell (Var 65537) (Var 65538) (Const (pos 5)) ∷ Junk ∷ [])),
        )
        ∷ [])
        []) }
    ensures c69 { exec (flow_of (cmd.Store 3 node_name 1 (Slot 3) 1)) structs 0
        (state ((Var 1) ∷ (Var 3) ∷ (Var 1) ∷ (Var 0) ∷ []) [] (cell (Var 1) (Var 65537) (Var 65536) ∷ [])) no_table
        ≡ (step.Fail fault.Unowned 5) }
{}

/// Free.
#[tactic(auto, unfolding(sym_matching::specs::Steps::contradicts))]
pub fn strict_free()
    ensures c95 { exec (flow_of (cmd.Free 2 q_name 1)) structs 0
        (state ((Var 1) ∷ (Var 1) ∷ (Var 1) ∷ (Var 0) ∷ []) (Ne (Var 0) (Var 65537) ∷ [])
        (list (Var 0) (Var 0) ∷ cell (Var 1) null (Var 3) ∷ list (Var 0) (Const (negsuc 0)) ∷ []))
        no_table
        ≡ (step.Next
        ((
          1,
          (state ((Var 1) ∷ (Var 1) ∷ (Var 1) ∷ (Var 0) ∷ []) (Ne (Var 0) (Var 65536) ∷ [])
              (list (Var 0) (Var 0) ∷ list (Var 0) (Const (negsuc 0)) ∷ [])),
        )
        ∷ [])
        []) }
    ensures c96 { exec (flow_of (cmd.Free 2 node_name 1)) structs 0
        (state (null ∷ (Var 0) ∷ (Var 0) ∷ (Var 3) ∷ []) (Eq (Var 1) null ∷ [])
        (list (Var 0) (Var 2) ∷ quad (Var 65537) (Var 3) (Var 0) (Var 0) ∷ list (Var 2) null ∷ Junk ∷ []))
        no_table
        ≡ (step.Next
        ((
          1,
          (state (null ∷ null ∷ null ∷ (Var 3) ∷ []) (Eq (Var 0) null ∷ Eq (Var 1) null ∷ Eq (Var 2) null ∷ [])
              (quad (Var 65536) (Var 3) null null ∷ Junk ∷ [])),
        )
        ∷ (
          1,
          (state (null ∷ (Var 0) ∷ (Var 0) ∷ (Var 3) ∷ []) (Eq (Var 1) null ∷ Eq (Var 2) (Var 0) ∷ [])
              (quad (Var 65536) (Var 3) (Var 0) (Var 0) ∷ list (Var 65537) null ∷ Junk ∷ [])),
        )
        ∷ (
          1,
          (state (null ∷ (Var 0) ∷ (Var 0) ∷ (Var 3) ∷ []) (Eq (Var 1) null ∷ [])
              (list (Var 65536) (Var 2) ∷ list (Var 2) null ∷ quad (Var 65537) (Var 3) (Var 0) (Var 0) ∷ Junk ∷ [])),
        )
        ∷ [])
        []) }
    ensures c97 { exec (flow_of (cmd.Free 2 q_name 1)) structs 0
        (state ((Var 3) ∷ null ∷ null ∷ (Var 0) ∷ []) (Ne (Var 65538) (Var 65539) ∷ []) []) no_table
        ≡ (step.Next ((1, (state ((Var 3) ∷ null ∷ null ∷ (Var 0) ∷ []) (Ne (Var 65536) (Var 65537) ∷ []) [])) ∷ []) []) }
    ensures c98 { exec (flow_of (cmd.Free 2 node_name 1)) structs 0
        (state (null ∷ (Var 65539) ∷ (Var 2) ∷ (Var 65539) ∷ []) (Ne (Var 65539) (Var 0) ∷ [])
        (cell (Var 65537) (Var 2) (Var 65539) ∷ tails (Var 65539) null ∷ list (Var 2) (Var 1) ∷ list (Var 1) null ∷ []))
        no_table
        ≡ (step.Next
        ((
          1,
          (state (null ∷ (Var 65536) ∷ null ∷ (Var 65536) ∷ [])
              (Eq (Var 1) null ∷ Eq (Var 2) null ∷ Ne (Var 0) (Var 65536) ∷ [])
              (tails (Var 65536) null ∷ cell (Var 65537) null (Var 65536) ∷ [])),
        )
        ∷ (
          1,
          (state (null ∷ (Var 65536) ∷ (Var 1) ∷ (Var 65536) ∷ []) (Eq (Var 2) (Var 1) ∷ Ne (Var 0) (Var 65536) ∷ [])
              (tails (Var 65536) null ∷ cell (Var 65537) (Var 1) (Var 65536) ∷ list (Var 65538) null ∷ [])),
        )
        ∷ (
          1,
          (state (null ∷ (Var 65536) ∷ (Var 2) ∷ (Var 65536) ∷ []) (Ne (Var 0) (Var 65536) ∷ [])
              (list (Var 1) null ∷ tails (Var 65536) null ∷ cell (Var 65537) (Var 2) (Var 65536) ∷ list (Var 65538) (Var 1)
              ∷ [])),
        )
        ∷ [])
        []) }
    ensures c99 { exec (flow_of (cmd.Free 2 node_name 1)) structs 0
        (state ((Var 0) ∷ (Var 3) ∷ (Var 0) ∷ (Var 0) ∷ []) (Ne (Var 65536) null ∷ []) []) no_table
        ≡ (step.Fail fault.Unowned 5) }
{}

/// Branch.
#[tactic(auto, unfolding(sym_matching::specs::Steps::contradicts))]
pub fn strict_branch()
    ensures c125 { exec (flow_of (cmd.Branch test.Ne true (Slot 3) (Slot 1) 1 2)) structs 0
        (state ((Var 1) ∷ (Var 1) ∷ (Var 0) ∷ (Var 65539) ∷ []) [] []) no_table
        ≡ (step.Next
        ((1, (state ((Var 1) ∷ (Var 1) ∷ (Var 0) ∷ (Var 65536) ∷ []) (Ne (Var 1) (Var 65536) ∷ []) []))
        ∷ (2, (state ((Var 1) ∷ (Var 1) ∷ (Var 0) ∷ (Var 1) ∷ []) [] [])) ∷ [])
        []) }
    ensures c126 { exec (flow_of (cmd.Branch test.Ne true (Num (pos 5)) (Slot 2) 1 2)) structs 0
        (state ((Var 65536) ∷ (Var 65537) ∷ (Var 65536) ∷ null ∷ []) (Eq (Var 2) (Var 1) ∷ Ne (Var 65538) (Var 65539) ∷ [])
        (list (Var 65537) (Var 0) ∷ []))
        no_table
        ≡ (step.Next
        ((
          1,
          (state ((Var 65536) ∷ (Var 65537) ∷ (Var 65536) ∷ null ∷ [])
              (Eq (Var 2) (Var 1) ∷ Ne (Var 65536) (Const (pos 5)) ∷ Ne (Var 65538) (Var 65539) ∷ [])
              (list (Var 65537) (Var 0) ∷ [])),
        )
        ∷ (
          2,
          (state ((Const (pos 5)) ∷ (Var 65536) ∷ (Const (pos 5)) ∷ null ∷ [])
              (Eq (Var 2) (Var 1) ∷ Ne (Var 65537) (Var 65538) ∷ []) (list (Var 65536) (Var 0) ∷ [])),
        )
        ∷ [])
        []) }
    ensures c127 { exec (flow_of (cmd.Branch test.Eq true (Slot 0) (Slot 1) 1 2)) structs 0
        (state ((Var 0) ∷ (Var 3) ∷ (Var 0) ∷ (Var 0) ∷ []) [] []) no_table
        ≡ (step.Next
        ((1, (state ((Var 0) ∷ (Var 0) ∷ (Var 0) ∷ (Var 0) ∷ []) (Eq (Var 3) (Var 0) ∷ []) []))
        ∷ (2, (state ((Var 0) ∷ (Var 3) ∷ (Var 0) ∷ (Var 0) ∷ []) (Ne (Var 0) (Var 3) ∷ []) [])) ∷ [])
        []) }
    ensures c128 { exec (flow_of (cmd.Branch test.Eq true (Slot 1) (Slot 2) 1 2)) structs 0
        (state (null ∷ (Var 65536) ∷ (Var 0) ∷ (Var 0) ∷ []) (Ne (Var 65536) (Var 65539) ∷ [])
        (list (Var 65536) (Var 2) ∷ list (Var 0) (Var 65538) ∷ cell (Var 2) null null ∷ Junk ∷ []))
        no_table
        ≡ (step.Next
        ((
          1,
          (state (null ∷ (Var 0) ∷ (Var 0) ∷ (Var 0) ∷ []) (Ne (Var 0) (Var 65537) ∷ [])
              (list (Var 0) (Var 2) ∷ list (Var 0) (Var 65536) ∷ cell (Var 2) null null ∷ Junk ∷ [])),
        )
        ∷ (
          2,
          (state (null ∷ (Var 65536) ∷ (Var 0) ∷ (Var 0) ∷ []) (Ne (Var 0) (Var 65536) ∷ Ne (Var 65536) (Var 65538) ∷ [])
              (list (Var 0) (Var 65537) ∷ list (Var 65536) (Var 2) ∷ cell (Var 2) null null ∷ Junk ∷ [])),
        )
        ∷ [])
        []) }
    ensures c129 { exec (flow_of (cmd.Branch test.Ge false (Slot 0) (Slot 2) 1 2)) structs 0
        (state ((Var 65536) ∷ (Var 0) ∷ (Var 0) ∷ (Var 1) ∷ []) (Ne (Var 2) null ∷ Ne (Var 65537) (Const (negsuc 0)) ∷ [])
        (cell (Var 65536) null (Var 65537) ∷ tails (Var 65538) (Var 65536) ∷ []))
        no_table
        ≡ (step.Next
        ((
          1,
          (state ((Var 65536) ∷ (Var 0) ∷ (Var 0) ∷ (Var 1) ∷ []) (Ne (Var 2) null ∷ Ne (Var 65537) (Const (negsuc 0)) ∷ [])
              (cell (Var 65536) null (Var 65537) ∷ tails (Var 65538) (Var 65536) ∷ [])),
        )
        ∷ (
          2,
          (state ((Var 65536) ∷ (Var 0) ∷ (Var 0) ∷ (Var 1) ∷ []) (Ne (Var 2) null ∷ Ne (Var 65537) (Const (negsuc 0)) ∷ [])
              (cell (Var 65536) null (Var 65537) ∷ tails (Var 65538) (Var 65536) ∷ [])),
        )
        ∷ [])
        []) }
{}

/// Call.
#[tactic(auto, unfolding(sym_matching::specs::Steps::contradicts))]
pub fn strict_call()
    ensures c160 { exec (flow_of (cmd.Call (Some 2) f_name ((Slot 3) ∷ []) 1)) structs 0
        (state ((Var 65536) ∷ (Var 65536) ∷ (Var 3) ∷ (Var 65537) ∷ []) (Ne (Var 2) (Var 3) ∷ [])
        (list (Var 65536) (Var 65536) ∷ cell (Var 3) (Var 1) (Var 65537) ∷ []))
        (table
        (callee f_name one
        (spec (heap [] (cell (Var 2) (Var 1) (Var 65538) ∷ tails (Var 3) null ∷ []))
        (post (Var 2)
        (heap (Ne (Const (pos 2147483647)) (Var 0) ∷ []) (cell (Var 3) (Var 65537) (Var 65538) ∷ []))
        ∷ post (Var 65539) (heap (Ne (Var 65536) (Var 65536) ∷ []) (list (Var 65537) (Var 2) ∷ [])) ∷ [])
        ∷ spec (heap (Ne (Var 0) null ∷ []) []) (post null (heap [] []) ∷ [])
        ∷ spec (heap [] [])
        (post null (heap [] []) ∷ post (Var 1) (heap (Ne null null ∷ []) (list (Var 65536) (Var 65538) ∷ []))
        ∷ [])
        ∷ [])
        ∷ [])
        []
        true)
        ≡ (step.Next
        ((
          1,
          (state ((Var 65536) ∷ (Var 65536) ∷ null ∷ (Var 65537) ∷ []) (Ne (Var 2) (Var 3) ∷ [])
              (list (Var 65536) (Var 65536) ∷ cell (Var 3) (Var 1) (Var 65537) ∷ [])),
        )
        ∷ [])
        []) }
    ensures c161 { exec (flow_of (cmd.Call (Some 2) h_name [] 1)) structs 0
        (state ((Var 1) ∷ null ∷ (Var 65538) ∷ (Var 1) ∷ []) [] (cell (Var 1) (Var 0) (Var 65536) ∷ Junk ∷ []))
        (table []
        (callee h_name []
        (spec (heap [] [])
        (post null (heap [] []) ∷ post (Var 65536) (heap [] (cell (Var 65536) (Var 65537) null ∷ [])) ∷ [])
        ∷ spec (heap [] (Junk ∷ [])) (post (Const (pos 1)) (heap [] (Junk ∷ [])) ∷ []) ∷ [])
        ∷ [])
        true)
        ≡ (step.Next
        ((1, (state ((Var 1) ∷ null ∷ null ∷ (Var 1) ∷ []) [] (cell (Var 1) (Var 0) (Var 65536) ∷ Junk ∷ [])))
        ∷ (
          1,
          (state ((Var 1) ∷ null ∷ (Var 65536) ∷ (Var 1) ∷ []) []
              (cell (Var 1) (Var 0) (Var 65537) ∷ cell (Var 65536) (Var 65538) null ∷ Junk ∷ [])),
        )
        ∷ [])
        []) }
    ensures c162 { exec (flow_of (cmd.Call None f_name ((Slot 0) ∷ []) 1)) structs 0
        (state ((Var 0) ∷ (Var 65536) ∷ (Var 0) ∷ (Var 65537) ∷ []) (Ne (Var 0) (Var 65536) ∷ [])
        (cell (Var 0) (Var 65537) null ∷ list (Var 65536) (Var 65536) ∷ list (Var 65536) (Var 1) ∷ list (Var 65537) (Var 2) ∷ []))
        (table [] [] true)
        ≡ (step.Fail fault.Callee 5) }
    ensures c163 { exec (flow_of (cmd.Call None h_name [] 1)) structs 0
        (state ((Var 65536) ∷ (Var 1) ∷ (Var 1) ∷ (Var 1) ∷ []) (Ne (Var 0) null ∷ []) (list (Var 1) (Var 65537) ∷ []))
        (table []
        (callee h_name []
        (spec (heap [] [])
        (post null (heap [] []) ∷ post (Var 65536) (heap [] (cell (Var 65536) (Var 65537) null ∷ [])) ∷ [])
        ∷ [])
        ∷ [])
        false)
        ≡ (step.Next
        ((1, (state ((Var 65536) ∷ (Var 1) ∷ (Var 1) ∷ (Var 1) ∷ []) (Ne (Var 0) null ∷ []) (list (Var 1) (Var 65537) ∷ [])))
        ∷ (
          1,
          (state ((Var 65536) ∷ (Var 1) ∷ (Var 1) ∷ (Var 1) ∷ []) (Ne (Var 0) null ∷ [])
              (list (Var 1) (Var 65537) ∷ cell (Var 65538) (Var 65539) null ∷ [])),
        )
        ∷ [])
        []) }
    ensures c164 { exec (flow_of (cmd.Call None f_name ((Slot 1) ∷ []) 1)) structs 0
        (state ((Var 65536) ∷ (Var 65536) ∷ (Var 65536) ∷ (Var 65537) ∷ []) [] (cell (Var 65536) (Var 0) (Var 2) ∷ []))
        (table (callee f_name one (spec (heap (Ne (Var 0) null ∷ []) []) (post null (heap [] []) ∷ []) ∷ []) ∷ []) [] true)
        ≡ (step.Next
        ((1, (state ((Var 65536) ∷ (Var 65536) ∷ (Var 65536) ∷ (Var 65537) ∷ []) [] (cell (Var 65536) (Var 0) (Var 2) ∷ []))) ∷ [])
        []) }
{}

/// Call, further ones.
#[tactic(auto, unfolding(sym_matching::specs::Steps::contradicts))]
pub fn strict_call_further()
    ensures c180 { exec (flow_of (cmd.Call (Some 3) g_name ((Slot 1) ∷ (Num (pos 5)) ∷ []) 1)) structs 0
        (state ((Var 1) ∷ (Var 1) ∷ (Var 1) ∷ null ∷ []) [] (quad (Var 1) (Var 0) (Const (pos 2147483647)) (Var 65539) ∷ []))
        (table []
        (callee g_name two
        (spec (heap (Ne (Var 0) (Var 1) ∷ []) []) (post null (heap (Ne (Var 0) (Var 1) ∷ []) []) ∷ [])
        ∷ spec (heap [] [])
        (post null (heap [] []) ∷ post (Var 65536) (heap [] (cell (Var 65536) (Var 65537) null ∷ [])) ∷ [])
        ∷ spec (heap [] (list (Var 0) null ∷ list (Var 1) null ∷ []))
        (post (Var 0) (heap [] (list (Var 0) (Var 1) ∷ list (Var 1) null ∷ [])) ∷ [])
        ∷ [])
        ∷ [])
        false)
        ≡ (step.Next
        ((1, (state ((Var 1) ∷ (Var 1) ∷ (Var 1) ∷ null ∷ []) [] (quad (Var 1) (Var 0) (Const (pos 2147483647)) (Var 65536) ∷ [])))
        ∷ (
          1,
          (state ((Var 1) ∷ (Var 1) ∷ (Var 1) ∷ (Var 65536) ∷ []) []
              (quad (Var 1) (Var 0) (Const (pos 2147483647)) (Var 65537) ∷ cell (Var 65536) (Var 65538) null ∷ [])),
        )
        ∷ [])
        []) }
    ensures c181 { exec (flow_of (cmd.Call (Some 3) g_name ((Num (pos 0)) ∷ (Slot 2) ∷ []) 1)) structs 0
        (state (null ∷ (Var 2) ∷ null ∷ (Var 2) ∷ []) (Ne (Var 65537) (Const (pos 1)) ∷ [])
        (list (Var 2) (Var 1) ∷ list (Var 65536) (Var 65536) ∷ cell (Var 65537) (Const (negsuc 0)) (Var 65536) ∷ Junk ∷ []))
        (table
        (callee g_name two
        (spec (heap [] (list (Var 3) (Var 65537) ∷ [])) (post null (heap (Ne (Var 2) (Var 65538) ∷ []) []) ∷ [])
        ∷ spec (heap [] (list (Var 0) (Var 65537) ∷ []))
        (post (Const (negsuc 0))
        (heap (Eq (Const (negsuc 0)) (Var 65538) ∷ [])
        (quad (Var 3) (Var 65538) (Var 1) (Var 65537) ∷ list (Var 0) (Var 3) ∷ []))
        ∷ post (Var 0) (heap (Ne null (Const (negsuc 0)) ∷ []) []) ∷ [])
        ∷ spec (heap (Ne (Var 2) null ∷ []) (cell (Var 0) (Var 2) (Var 3) ∷ []))
        (post (Var 3) (heap [] (cell (Var 0) (Var 2) (Var 3) ∷ []))
        ∷ post (Const (pos 3)) (heap (Eq (Var 3) null ∷ []) (cell (Var 0) (Var 2) (Var 3) ∷ [])) ∷ [])
        ∷ [])
        ∷ [])
        []
        true)
        ≡ (step.Next
        ((
          1,
          (state (null ∷ (Var 2) ∷ null ∷ null ∷ []) (Ne (Var 65537) (Const (pos 1)) ∷ [])
              (list (Var 2) (Var 1) ∷ list (Var 65536) (Var 65536) ∷ cell (Var 65537) (Const (negsuc 0)) (Var 65536) ∷ Junk
              ∷ [])),
        )
        ∷ [])
        []) }
    ensures c182 { exec (flow_of (cmd.Call (Some 3) f_name ((Slot 2) ∷ []) 1)) structs 0
        (state ((Var 65536) ∷ (Var 1) ∷ (Var 65537) ∷ (Var 65538) ∷ []) [] (cell (Var 65537) (Var 0) null ∷ []))
        (table
        (callee f_name one
        (spec (heap [] [])
        (post null (heap [] []) ∷ post (Var 65536) (heap [] (cell (Var 65536) (Var 65537) null ∷ [])) ∷ [])
        ∷ [])
        ∷ [])
        []
        true)
        ≡ (step.Next
        ((1, (state ((Var 65536) ∷ (Var 1) ∷ (Var 65537) ∷ null ∷ []) [] (cell (Var 65537) (Var 0) null ∷ [])))
        ∷ (
          1,
          (state ((Var 65536) ∷ (Var 1) ∷ (Var 65537) ∷ (Var 65538) ∷ []) []
              (cell (Var 65537) (Var 0) null ∷ cell (Var 65538) (Var 65539) null ∷ [])),
        )
        ∷ [])
        []) }
    ensures c183 { exec (flow_of (cmd.Call None g_name ((Num (pos 0)) ∷ (Slot 1) ∷ []) 1)) structs 0
        (state ((Var 65536) ∷ null ∷ (Var 65537) ∷ (Const (negsuc 0)) ∷ []) [] (cell (Var 2) (Var 65536) (Var 65536) ∷ []))
        (table []
        (callee g_name two
        (spec (heap (Ne (Var 0) null ∷ []) []) (post null (heap [] []) ∷ [])
        ∷ spec (heap [] (Junk ∷ [])) (post (Const (pos 1)) (heap [] (Junk ∷ [])) ∷ [])
        ∷ spec (heap [] (list (Var 0) (Var 1) ∷ []))
        (post null (heap [] (list (Var 0) (Var 1) ∷ []))
        ∷ post (Const (pos 1)) (heap (Ne (Var 0) (Var 1) ∷ []) (list (Var 0) (Var 1) ∷ [])) ∷ [])
        ∷ [])
        ∷ [])
        false)
        ≡ (step.Next ((1, (state ((Var 65536) ∷ null ∷ (Var 65537) ∷ (Const (negsuc 0)) ∷ []) [] (Junk ∷ []))) ∷ []) []) }
    ensures c184 { exec (flow_of (cmd.Call None f_name ((Num (pos 0)) ∷ []) 1)) structs 0
        (state ((Var 1) ∷ (Var 65536) ∷ (Var 1) ∷ (Var 1) ∷ []) (Ne (Var 0) null ∷ [])
        (tails (Var 1) (Var 65537) ∷ list (Var 1) (Var 1) ∷ quad (Var 65536) null (Var 65538) (Var 2) ∷ []))
        (table
        (callee f_name one
        (spec (heap (Eq (Var 1) null ∷ []) (cell (Var 0) (Var 1) (Var 2) ∷ []))
        (post (Var 2) (heap [] (cell (Var 0) null (Var 2) ∷ [])) ∷ [])
        ∷ spec (heap [] [])
        (post null (heap [] []) ∷ post (Var 65536) (heap [] (cell (Var 65536) (Var 65537) null ∷ [])) ∷ [])
        ∷ [])
        ∷ [])
        []
        true)
        ≡ (step.Next
        ((
          1,
          (state ((Var 1) ∷ (Var 65536) ∷ (Var 1) ∷ (Var 1) ∷ []) (Ne (Var 0) null ∷ [])
              (tails (Var 1) (Var 65537) ∷ list (Var 1) (Var 1) ∷ quad (Var 65536) null (Var 65538) (Var 2) ∷ [])),
        )
        ∷ (
          1,
          (state ((Var 1) ∷ (Var 65536) ∷ (Var 1) ∷ (Var 1) ∷ []) (Ne (Var 0) null ∷ [])
              (tails (Var 1) (Var 65537) ∷ list (Var 1) (Var 1) ∷ quad (Var 65536) null (Var 65538) (Var 2)
              ∷ cell (Var 65539) (Var 65540) null ∷ [])),
        )
        ∷ [])
        []) }
{}
