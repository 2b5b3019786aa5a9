//! `==` and `clone` are exact at the types of keys and answers. Each law gives, in the order of the declaration,
//! what makes the test or the copy of each field exact, and for an enum so for each variant.
use crate::answer::{Answer, Budget, Callee, Fault, Key, ProcSummary, Reason};
use crate::exact::Exact;

impl Exact for Fault {
    ghost use Rattle.std.proofs.Common.{rules};

    ghost eq_is_same = { Prim.search rules };

    ghost clone_is_same = { Prim.search rules };
}

impl Exact for Budget {
    ghost use Rattle.std.proofs.Common.{rules};

    ghost eq_is_same = { Prim.search rules };

    ghost clone_is_same = { Prim.search rules };
}

impl Exact for Reason {
    ghost use Rattle.shape_data.specs.contracts.answer.Reason.{enum};
    ghost use Rattle.shape_data.specs.Exact.{and_same, enum_same, itself, last_same, no_field_same, no_variant, number_same, variant};
    ghost use Rattle.shape_data.specs.contracts.exact.answer.FaultExact.TheImpl.Laws.{eq_is_same-law as fault_same};
    ghost use Rattle.shape_data.specs.contracts.exact.answer.BudgetExact.TheImpl.Laws.{eq_is_same-law as budget_same};

    ghost eq_is_same = { enum_same enum
        (variant (and_same fault_same (last_same number_same))
        (variant no_field_same
        (variant (and_same fault_same (last_same number_same))
        (variant (and_same budget_same (last_same number_same)) no_variant)))) };

    ghost clone_is_same = { itself };
}

impl Exact for ProcSummary {
    ghost use Rattle.shape_data.specs.contracts.answer.ProcSummary.{struct, the_propositions};
    ghost use Rattle.shape_data.specs.Exact.{
      and_copied,
      and_same,
      itself,
      last_copied,
      last_same,
      option_copied,
      option_same,
      row_copied,
      row_same,
      struct_copied,
      struct_same,
    };
    ghost use Rattle.shape_data.specs.contracts.name.NameExact.TheImpl.Laws.{eq_is_same-law as name_same};
    ghost use Rattle.shape_data.specs.contracts.exact.symbolic.SpecExact.TheImpl.Laws.{
      eq_is_same-law as spec_same,
      clone_is_same-law as spec_copied,
    };
    ghost use Rattle.shape_data.specs.contracts.exact.symbolic.CertExact.TheImpl.Laws.{
      eq_is_same-law as cert_same,
      clone_is_same-law as cert_copied,
    };
    ghost use Rattle.shape_data.specs.contracts.exact.answer.ReasonExact.TheImpl.Laws.{eq_is_same-law as reason_same};

    ghost eq_is_same = { struct_same struct the_propositions
        (and_same name_same
        (and_same (row_same spec_same)
        (and_same (row_same cert_same)
        (last_same (option_same reason_same))))) };

    ghost clone_is_same = { struct_copied struct the_propositions
        (and_copied itself
        (and_copied (row_copied spec_copied)
        (and_copied (row_copied cert_copied)
        (last_copied (option_copied ⟦<Option<Reason> as Clone>⟧.is_clone (λ _ _ h. h) (λ _ h. h) (λ _ h. h) itself))))) };
}

impl Exact for Answer {
    ghost use Rattle.shape_data.specs.contracts.answer.Answer.{struct, the_propositions};
    ghost use Rattle.shape_data.specs.Exact.{
      and_copied,
      and_same,
      bool_same,
      itself,
      last_copied,
      last_same,
      row_copied,
      row_same,
      struct_copied,
      struct_same,
    };
    ghost use Rattle.shape_data.specs.contracts.exact.answer.ProcSummaryExact.TheImpl.Laws.{
      eq_is_same-law as summary_same,
      clone_is_same-law as summary_copied,
    };

    ghost eq_is_same = { struct_same struct the_propositions
        (and_same bool_same
        (last_same (row_same summary_same))) };

    ghost clone_is_same = { struct_copied struct the_propositions
        (and_copied itself
        (last_copied (row_copied summary_copied))) };
}

impl Exact for Callee {
    ghost use Rattle.shape_data.specs.contracts.answer.Callee.{struct, the_propositions};
    ghost use Rattle.shape_data.specs.Exact.{
      and_copied,
      and_same,
      itself,
      last_copied,
      last_same,
      row_copied,
      row_same,
      struct_copied,
      struct_same,
    };
    ghost use Rattle.shape_data.specs.contracts.name.NameExact.TheImpl.Laws.{eq_is_same-law as name_same};
    ghost use Rattle.shape_data.specs.contracts.exact.symbolic.SpecExact.TheImpl.Laws.{
      eq_is_same-law as spec_same,
      clone_is_same-law as spec_copied,
    };

    ghost eq_is_same = { struct_same struct the_propositions
        (and_same name_same
        (and_same (row_same name_same)
        (last_same (row_same spec_same)))) };

    ghost clone_is_same = { struct_copied struct the_propositions
        (and_copied itself
        (and_copied (row_copied itself)
        (last_copied (row_copied spec_copied)))) };
}

impl Exact for Key {
    ghost use Rattle.shape_data.specs.contracts.answer.Key.{struct, the_propositions};
    ghost use Rattle.shape_data.specs.Exact.{
      and_copied,
      and_same,
      bool_same,
      itself,
      last_copied,
      last_same,
      row_copied,
      row_same,
      struct_copied,
      struct_same,
    };
    ghost use Rattle.shape_data.specs.contracts.exact.program.StructDefExact.TheImpl.Laws.{
      eq_is_same-law as def_same,
      clone_is_same-law as def_copied,
    };
    ghost use Rattle.shape_data.specs.contracts.exact.program.FlowExact.TheImpl.Laws.{
      eq_is_same-law as flow_same,
      clone_is_same-law as flow_copied,
    };
    ghost use Rattle.shape_data.specs.contracts.exact.answer.CalleeExact.TheImpl.Laws.{
      eq_is_same-law as callee_same,
      clone_is_same-law as callee_copied,
    };

    ghost eq_is_same = { struct_same struct the_propositions
        (and_same bool_same
        (and_same (row_same flow_same)
        (and_same (row_same def_same)
        (last_same (row_same callee_same))))) };

    ghost clone_is_same = { struct_copied struct the_propositions
        (and_copied itself
        (and_copied (row_copied flow_copied)
        (and_copied (row_copied def_copied)
        (last_copied (row_copied callee_copied))))) };
}
