//! `==` and `clone` are exact at the types of programs. Each law gives, in the order of the declaration, what makes
//! the test or the copy of each field exact, and for an enum so for each variant.
use crate::exact::Exact;
use crate::program::{
    ArithOp, Cmd, Field, Flow, HeadMark, Node, Operand, Proc, Program, StructDef, TestOp, Ty,
};

impl Exact for Ty {
    ghost use Rattle.std.specs.Prelude.{◌≡◌, refl};
    ghost use Rattle.shape_data.specs.declared.program.Ty.{Ty as AnyTy};
    ghost use Rattle.shape_data.specs.declared.program.Ty.TheVariants as ty;
    ghost use Rattle.shape_data.specs.contracts.program.Ty.{enum};
    ghost use Rattle.shape_data.specs.Exact.{enum_same, last_same, no_field_same, no_variant, variant};
    ghost use Rattle.shape_data.specs.contracts.name.NameExact.TheImpl.Laws.{eq_is_same-law as name_same};

    ghost eq_is_same = { enum_same enum
        (variant no_field_same
        (variant (last_same name_same)
        (variant no_field_same no_variant))) };

    ghost clone_is_same = { λ x. elim x as (λ x. (y : AnyTy) → ⟦<Ty as Clone>⟧.is_clone x y → y ≡ x) [
      | ty.Int ↦ λ y. elim y as (λ y. ⟦<Ty as Clone>⟧.is_clone ty.Int y → y ≡ ty.Int) [
        | ty.Int ↦ λ _. refl
        | _ ↦ λ h. absurd h
      ]
      | ty.Ptr a ↦ λ y. elim y as (λ y. ⟦<Ty as Clone>⟧.is_clone (ty.Ptr a) y → y ≡ (ty.Ptr a)) [
        | ty.Ptr a' ↦ λ h. λ i. ty.Ptr (h i)
        | _ ↦ λ h. absurd h
      ]
      | ty.Void ↦ λ y. elim y as (λ y. ⟦<Ty as Clone>⟧.is_clone ty.Void y → y ≡ ty.Void) [
        | ty.Void ↦ λ _. refl
        | _ ↦ λ h. absurd h
      ]
    ] };
}

impl Exact for Field {
    ghost use Rattle.shape_data.specs.contracts.program.Field.{struct, the_propositions};
    ghost use Rattle.shape_data.specs.Exact.{and_copied, and_same, itself, last_copied, last_same, struct_copied, struct_same};
    ghost use Rattle.shape_data.specs.contracts.name.NameExact.TheImpl.Laws.{eq_is_same-law as name_same};
    ghost use Rattle.shape_data.specs.contracts.exact.program.TyExact.TheImpl.Laws.{
      eq_is_same-law as ty_same,
      clone_is_same-law as ty_copied,
    };

    ghost eq_is_same = { struct_same struct the_propositions
        (and_same name_same
        (last_same ty_same)) };

    ghost clone_is_same = { struct_copied struct the_propositions
        (and_copied itself
        (last_copied ty_copied)) };
}

impl Exact for StructDef {
    ghost use Rattle.shape_data.specs.contracts.program.StructDef.{struct, the_propositions};
    ghost use Rattle.shape_data.specs.Exact.{
      and_copied,
      and_same,
      itself,
      last_copied,
      last_same,
      row_copied,
      row_same,
      struct_copied,
      struct_same,
    };
    ghost use Rattle.shape_data.specs.contracts.name.NameExact.TheImpl.Laws.{eq_is_same-law as name_same};
    ghost use Rattle.shape_data.specs.contracts.exact.program.FieldExact.TheImpl.Laws.{
      eq_is_same-law as field_same,
      clone_is_same-law as field_copied,
    };

    ghost eq_is_same = { struct_same struct the_propositions
        (and_same name_same
        (last_same (row_same field_same))) };

    ghost clone_is_same = { struct_copied struct the_propositions
        (and_copied itself
        (last_copied (row_copied field_copied))) };
}

impl Exact for Operand {
    ghost use Rattle.shape_data.specs.contracts.program.Operand.{enum};
    ghost use Rattle.shape_data.specs.Exact.{enum_same, itself, last_same, no_variant, number_same, signed_same, variant};

    ghost eq_is_same = { enum_same enum
        (variant (last_same number_same)
        (variant (last_same signed_same) no_variant)) };

    ghost clone_is_same = { itself };
}

impl Exact for ArithOp {
    ghost use Rattle.std.proofs.Common.{rules};

    ghost eq_is_same = { Prim.search rules };

    ghost clone_is_same = { Prim.search rules };
}

impl Exact for TestOp {
    ghost use Rattle.std.proofs.Common.{rules};

    ghost eq_is_same = { Prim.search rules };

    ghost clone_is_same = { Prim.search rules };
}

impl Exact for Cmd {
    ghost use Rattle.std.specs.Prelude.{◌≡◌, refl};
    ghost use Rattle.shape_data.specs.declared.program.Cmd.{Cmd as AnyCmd};
    ghost use Rattle.shape_data.specs.declared.program.Cmd.TheVariants as cmd;
    ghost use Rattle.shape_data.specs.contracts.program.Cmd.{enum};
    ghost use Rattle.shape_data.specs.Exact.{
      and_same,
      bool_same,
      enum_same,
      itself,
      last_same,
      no_variant,
      number_same,
      option_copied,
      option_same,
      row_copied,
      row_same,
      variant,
    };
    ghost use Rattle.shape_data.specs.contracts.name.NameExact.TheImpl.Laws.{eq_is_same-law as name_same};
    ghost use Rattle.shape_data.specs.contracts.exact.program.TyExact.TheImpl.Laws.{
      eq_is_same-law as ty_same,
      clone_is_same-law as ty_copied,
    };
    ghost use Rattle.shape_data.specs.contracts.exact.program.OperandExact.TheImpl.Laws.{eq_is_same-law as operand_same};
    ghost use Rattle.shape_data.specs.contracts.exact.program.ArithOpExact.TheImpl.Laws.{eq_is_same-law as arith_op_same};
    ghost use Rattle.shape_data.specs.contracts.exact.program.TestOpExact.TheImpl.Laws.{eq_is_same-law as test_op_same};

    ghost eq_is_same = { enum_same enum
        (variant (and_same number_same (and_same operand_same (last_same number_same)))
        (variant (and_same number_same (and_same arith_op_same (and_same operand_same (and_same operand_same (last_same number_same)))))
        (variant (and_same number_same (and_same ty_same (last_same number_same)))
        (variant (and_same number_same (and_same number_same (and_same name_same (and_same number_same (last_same number_same)))))
        (variant (and_same number_same (and_same name_same (and_same number_same (and_same operand_same (last_same number_same)))))
        (variant (and_same number_same (and_same name_same (last_same number_same)))
        (variant (and_same number_same (and_same name_same (last_same number_same)))
        (variant (and_same (option_same number_same) (and_same name_same (and_same (row_same operand_same) (last_same number_same))))
        (variant (and_same test_op_same (and_same bool_same (and_same operand_same (and_same operand_same
        (and_same number_same (last_same number_same))))))
        (variant (last_same operand_same) no_variant)))))))))) };

    ghost clone_is_same = { λ x. elim x as (λ x. (y : AnyCmd) → ⟦<Cmd as Clone>⟧.is_clone x y → y ≡ x) [
      | cmd.Copy a b c ↦ λ y. elim y as (λ y. ⟦<Cmd as Clone>⟧.is_clone (cmd.Copy a b c) y → y ≡ (cmd.Copy a b c)) [
        | cmd.Copy a' b' c' ↦ λ h. λ i. cmd.Copy (h.0 i) (h.1.0 i) (h.1.1 i)
        | _ ↦ λ h. absurd h
      ]
      | cmd.Arith a b c d e ↦ λ y. elim y as (λ y. ⟦<Cmd as Clone>⟧.is_clone (cmd.Arith a b c d e) y → y ≡ (cmd.Arith a b c d e)) [
        | cmd.Arith a' b' c' d' e' ↦ λ h. λ i. cmd.Arith (h.0 i) (h.1.0 i) (h.1.1.0 i) (h.1.1.1.0 i) (h.1.1.1.1 i)
        | _ ↦ λ h. absurd h
      ]
      | cmd.Any a b c ↦ λ y. elim y as (λ y. ⟦<Cmd as Clone>⟧.is_clone (cmd.Any a b c) y → y ≡ (cmd.Any a b c)) [
        | cmd.Any a' b' c' ↦ λ h. λ i. cmd.Any (h.0 i) (ty_copied b b' h.1.0 i) (h.1.1 i)
        | _ ↦ λ h. absurd h
      ]
      | cmd.Load a b c d e ↦ λ y. elim y as (λ y. ⟦<Cmd as Clone>⟧.is_clone (cmd.Load a b c d e) y → y ≡ (cmd.Load a b c d e)) [
        | cmd.Load a' b' c' d' e' ↦ λ h. λ i. cmd.Load (h.0 i) (h.1.0 i) (h.1.1.0 i) (h.1.1.1.0 i) (h.1.1.1.1 i)
        | _ ↦ λ h. absurd h
      ]
      | cmd.Store a b c d e ↦ λ y. elim y as (λ y. ⟦<Cmd as Clone>⟧.is_clone (cmd.Store a b c d e) y → y ≡ (cmd.Store a b c d e)) [
        | cmd.Store a' b' c' d' e' ↦ λ h. λ i. cmd.Store (h.0 i) (h.1.0 i) (h.1.1.0 i) (h.1.1.1.0 i) (h.1.1.1.1 i)
        | _ ↦ λ h. absurd h
      ]
      | cmd.New a b c ↦ λ y. elim y as (λ y. ⟦<Cmd as Clone>⟧.is_clone (cmd.New a b c) y → y ≡ (cmd.New a b c)) [
        | cmd.New a' b' c' ↦ λ h. λ i. cmd.New (h.0 i) (h.1.0 i) (h.1.1 i)
        | _ ↦ λ h. absurd h
      ]
      | cmd.Free a b c ↦ λ y. elim y as (λ y. ⟦<Cmd as Clone>⟧.is_clone (cmd.Free a b c) y → y ≡ (cmd.Free a b c)) [
        | cmd.Free a' b' c' ↦ λ h. λ i. cmd.Free (h.0 i) (h.1.0 i) (h.1.1 i)
        | _ ↦ λ h. absurd h
      ]
      | cmd.Call a b c d ↦ λ y. elim y as (λ y. ⟦<Cmd as Clone>⟧.is_clone (cmd.Call a b c d) y → y ≡ (cmd.Call a b c d)) [
        | cmd.Call a' b' c' d' ↦ λ h. λ i. cmd.Call
            (option_copied ⟦<Option<u32> as Clone>⟧.is_clone (λ _ _ h. h) (λ _ h. h) (λ _ h. h) itself a a' h.0 i)
            (h.1.0 i) (row_copied itself c c' h.1.1.0 i) (h.1.1.1 i)
        | _ ↦ λ h. absurd h
      ]
      | cmd.Branch a b c d e f ↦ λ y. elim y as (λ y. ⟦<Cmd as Clone>⟧.is_clone (cmd.Branch a b c d e f) y → y ≡ (cmd.Branch a b c d e f)) [
        | cmd.Branch a' b' c' d' e' f' ↦ λ h. λ i. cmd.Branch (h.0 i) (h.1.0 i) (h.1.1.0 i) (h.1.1.1.0 i) (h.1.1.1.1.0 i) (h.1.1.1.1.1 i)
        | _ ↦ λ h. absurd h
      ]
      | cmd.Return a ↦ λ y. elim y as (λ y. ⟦<Cmd as Clone>⟧.is_clone (cmd.Return a) y → y ≡ (cmd.Return a)) [
        | cmd.Return a' ↦ λ h. λ i. cmd.Return (h i)
        | _ ↦ λ h. absurd h
      ]
    ] };
}

impl Exact for HeadMark {
    ghost use Rattle.shape_data.specs.contracts.program.HeadMark.{struct, the_propositions};
    ghost use Rattle.shape_data.specs.Exact.{
      and_copied,
      and_same,
      itself,
      last_copied,
      last_same,
      number_same,
      row_copied,
      row_same,
      struct_copied,
      struct_same,
    };

    ghost eq_is_same = { struct_same struct the_propositions
        (and_same (row_same number_same)
        (last_same (row_same number_same))) };

    ghost clone_is_same = { struct_copied struct the_propositions
        (and_copied (row_copied itself)
        (last_copied (row_copied itself))) };
}

impl Exact for Node {
    ghost use Rattle.shape_data.specs.contracts.program.Node.{struct, the_propositions};
    ghost use Rattle.shape_data.specs.Exact.{
      and_copied,
      and_same,
      itself,
      last_copied,
      last_same,
      number_same,
      option_copied,
      option_same,
      struct_copied,
      struct_same,
    };
    ghost use Rattle.shape_data.specs.contracts.exact.program.CmdExact.TheImpl.Laws.{
      eq_is_same-law as cmd_same,
      clone_is_same-law as cmd_copied,
    };
    ghost use Rattle.shape_data.specs.contracts.exact.program.HeadMarkExact.TheImpl.Laws.{
      eq_is_same-law as mark_same,
      clone_is_same-law as mark_copied,
    };

    ghost eq_is_same = { struct_same struct the_propositions
        (and_same number_same
        (and_same cmd_same
        (last_same (option_same mark_same)))) };

    ghost clone_is_same = { struct_copied struct the_propositions
        (and_copied itself
        (and_copied cmd_copied
        (last_copied (option_copied ⟦<Option<HeadMark> as Clone>⟧.is_clone (λ _ _ h. h) (λ _ h. h) (λ _ h. h) mark_copied)))) };
}

impl Exact for Flow {
    ghost use Rattle.shape_data.specs.contracts.program.Flow.{struct, the_propositions};
    ghost use Rattle.shape_data.specs.Exact.{
      and_copied,
      and_same,
      itself,
      last_copied,
      last_same,
      row_copied,
      row_same,
      struct_copied,
      struct_same,
    };
    ghost use Rattle.shape_data.specs.contracts.name.NameExact.TheImpl.Laws.{eq_is_same-law as name_same};
    ghost use Rattle.shape_data.specs.contracts.exact.program.TyExact.TheImpl.Laws.{
      eq_is_same-law as ty_same,
      clone_is_same-law as ty_copied,
    };
    ghost use Rattle.shape_data.specs.contracts.exact.program.NodeExact.TheImpl.Laws.{
      eq_is_same-law as node_same,
      clone_is_same-law as node_copied,
    };

    ghost eq_is_same = { struct_same struct the_propositions
        (and_same name_same
        (and_same (row_same name_same)
        (and_same (row_same ty_same)
        (and_same ty_same
        (last_same (row_same node_same)))))) };

    ghost clone_is_same = { struct_copied struct the_propositions
        (and_copied itself
        (and_copied (row_copied itself)
        (and_copied (row_copied ty_copied)
        (and_copied ty_copied
        (last_copied (row_copied node_copied)))))) };
}

impl Exact for Proc {
    ghost use Rattle.shape_data.specs.contracts.program.Proc.{struct, the_propositions};
    ghost use Rattle.shape_data.specs.Exact.{
      and_copied,
      and_same,
      itself,
      last_copied,
      last_same,
      number_same,
      struct_copied,
      struct_same,
    };
    ghost use Rattle.shape_data.specs.contracts.name.NameExact.TheImpl.Laws.{eq_is_same-law as name_same};
    ghost use Rattle.shape_data.specs.contracts.exact.program.FlowExact.TheImpl.Laws.{
      eq_is_same-law as flow_same,
      clone_is_same-law as flow_copied,
    };

    ghost eq_is_same = { struct_same struct the_propositions
        (and_same flow_same
        (and_same name_same
        (last_same number_same))) };

    ghost clone_is_same = { struct_copied struct the_propositions
        (and_copied flow_copied
        (and_copied itself
        (last_copied itself))) };
}

impl Exact for Program {
    ghost use Rattle.shape_data.specs.contracts.program.Program.{struct, the_propositions};
    ghost use Rattle.shape_data.specs.Exact.{
      and_copied,
      and_same,
      last_copied,
      last_same,
      row_copied,
      row_same,
      struct_copied,
      struct_same,
    };
    ghost use Rattle.shape_data.specs.contracts.exact.program.StructDefExact.TheImpl.Laws.{
      eq_is_same-law as def_same,
      clone_is_same-law as def_copied,
    };
    ghost use Rattle.shape_data.specs.contracts.exact.program.ProcExact.TheImpl.Laws.{
      eq_is_same-law as proc_same,
      clone_is_same-law as proc_copied,
    };

    ghost eq_is_same = { struct_same struct the_propositions
        (and_same (row_same def_same)
        (last_same (row_same proc_same))) };

    ghost clone_is_same = { struct_copied struct the_propositions
        (and_copied (row_copied def_copied)
        (last_copied (row_copied proc_copied))) };
}
