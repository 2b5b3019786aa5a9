//! `==` and `clone` are exact at the types of the concrete machine. Each law gives, in the order of the
//! declaration, what makes the test or the copy of each field exact, and for an enum so for each variant.
use crate::exact::Exact;
use crate::machine::{Cell, Choice, Config, Frame, Outcome, Stepped};

impl Exact for Choice {
    ghost use Rattle.std.specs.Prelude.{◌≡◌, refl};
    ghost use Rattle.shape_data.specs.declared.machine.Choice.{Choice as AnyChoice};
    ghost use Rattle.shape_data.specs.declared.machine.Choice.TheVariants as choice;
    ghost use Rattle.shape_data.specs.contracts.machine.Choice.{enum};
    ghost use Rattle.shape_data.specs.Exact.{
      and_same,
      enum_same,
      itself,
      last_same,
      no_field_same,
      no_variant,
      row_copied,
      row_same,
      signed_same,
      variant,
    };

    ghost eq_is_same = { enum_same enum
        (variant no_field_same
        (variant (and_same signed_same (last_same (row_same signed_same)))
        (variant (last_same signed_same)
        (variant no_field_same no_variant)))) };

    ghost clone_is_same = { λ x. elim x as (λ x. (y : AnyChoice) → ⟦<Choice as Clone>⟧.is_clone x y → y ≡ x) [
      | choice.Null ↦ λ y. elim y as (λ y. ⟦<Choice as Clone>⟧.is_clone choice.Null y → y ≡ choice.Null) [
        | choice.Null ↦ λ _. refl
        | _ ↦ λ h. absurd h
      ]
      | choice.Cell a b ↦ λ y. elim y as (λ y. ⟦<Choice as Clone>⟧.is_clone (choice.Cell a b) y → y ≡ (choice.Cell a b)) [
        | choice.Cell a' b' ↦ λ h. λ i. choice.Cell (h.0 i) (row_copied itself b b' h.1 i)
        | _ ↦ λ h. absurd h
      ]
      | choice.Value a ↦ λ y. elim y as (λ y. ⟦<Choice as Clone>⟧.is_clone (choice.Value a) y → y ≡ (choice.Value a)) [
        | choice.Value a' ↦ λ h. λ i. choice.Value (h i)
        | _ ↦ λ h. absurd h
      ]
      | choice.Go ↦ λ y. elim y as (λ y. ⟦<Choice as Clone>⟧.is_clone choice.Go y → y ≡ choice.Go) [
        | choice.Go ↦ λ _. refl
        | _ ↦ λ h. absurd h
      ]
    ] };
}

impl Exact for Cell {
    ghost use Rattle.shape_data.specs.contracts.machine.Cell.{struct, the_propositions};
    ghost use Rattle.shape_data.specs.Exact.{
      and_copied,
      and_same,
      itself,
      last_copied,
      last_same,
      row_copied,
      row_same,
      signed_same,
      struct_copied,
      struct_same,
    };
    ghost use Rattle.shape_data.specs.contracts.name.NameExact.TheImpl.Laws.{eq_is_same-law as name_same};

    ghost eq_is_same = { struct_same struct the_propositions
        (and_same signed_same
        (and_same name_same
        (last_same (row_same signed_same)))) };

    ghost clone_is_same = { struct_copied struct the_propositions
        (and_copied itself
        (and_copied itself
        (last_copied (row_copied itself)))) };
}

impl Exact for Frame {
    ghost use Rattle.shape_data.specs.contracts.machine.Frame.{struct, the_propositions};
    ghost use Rattle.shape_data.specs.Exact.{
      and_copied,
      and_same,
      itself,
      last_copied,
      last_same,
      number_same,
      option_copied,
      option_same,
      row_copied,
      row_same,
      signed_same,
      struct_copied,
      struct_same,
    };

    ghost eq_is_same = { struct_same struct the_propositions
        (and_same number_same
        (and_same number_same
        (and_same (row_same signed_same)
        (last_same (option_same number_same))))) };

    ghost clone_is_same = { struct_copied struct the_propositions
        (and_copied itself
        (and_copied itself
        (and_copied (row_copied itself)
        (last_copied (option_copied ⟦<Option<u32> as Clone>⟧.is_clone (λ _ _ h. h) (λ _ h. h) (λ _ h. h) itself))))) };
}

impl Exact for Config {
    ghost use Rattle.shape_data.specs.contracts.machine.Config.{struct, the_propositions};
    ghost use Rattle.shape_data.specs.Exact.{
      and_copied,
      and_same,
      last_copied,
      last_same,
      row_copied,
      row_same,
      struct_copied,
      struct_same,
    };
    ghost use Rattle.shape_data.specs.contracts.exact.machine.CellExact.TheImpl.Laws.{
      eq_is_same-law as cell_same,
      clone_is_same-law as cell_copied,
    };
    ghost use Rattle.shape_data.specs.contracts.exact.machine.FrameExact.TheImpl.Laws.{
      eq_is_same-law as frame_same,
      clone_is_same-law as frame_copied,
    };

    ghost eq_is_same = { struct_same struct the_propositions
        (and_same (row_same frame_same)
        (last_same (row_same cell_same))) };

    ghost clone_is_same = { struct_copied struct the_propositions
        (and_copied (row_copied frame_copied)
        (last_copied (row_copied cell_copied))) };
}

impl Exact for Stepped {
    ghost use Rattle.std.specs.Prelude.{◌≡◌, refl};
    ghost use Rattle.shape_data.specs.declared.machine.Stepped.{Stepped as AnyStepped};
    ghost use Rattle.shape_data.specs.declared.machine.Stepped.TheVariants as stepped;
    ghost use Rattle.shape_data.specs.contracts.machine.Stepped.{enum};
    ghost use Rattle.shape_data.specs.Exact.{
      and_same,
      enum_same,
      last_same,
      no_field_same,
      no_variant,
      number_same,
      row_copied,
      row_same,
      signed_same,
      variant,
    };
    ghost use Rattle.shape_data.specs.contracts.exact.answer.FaultExact.TheImpl.Laws.{eq_is_same-law as fault_same};
    ghost use Rattle.shape_data.specs.contracts.exact.machine.CellExact.TheImpl.Laws.{
      eq_is_same-law as cell_same,
      clone_is_same-law as cell_copied,
    };
    ghost use Rattle.shape_data.specs.contracts.exact.machine.ConfigExact.TheImpl.Laws.{
      eq_is_same-law as config_same,
      clone_is_same-law as config_copied,
    };

    ghost eq_is_same = { enum_same enum
        (variant (last_same config_same)
        (variant (and_same signed_same (last_same (row_same cell_same)))
        (variant (and_same number_same (last_same fault_same))
        (variant no_field_same no_variant)))) };

    ghost clone_is_same = { λ x. elim x as (λ x. (y : AnyStepped) → ⟦<Stepped as Clone>⟧.is_clone x y → y ≡ x) [
      | stepped.On a ↦ λ y. elim y as (λ y. ⟦<Stepped as Clone>⟧.is_clone (stepped.On a) y → y ≡ (stepped.On a)) [
        | stepped.On a' ↦ λ h. λ i. stepped.On (config_copied a a' h i)
        | _ ↦ λ h. absurd h
      ]
      | stepped.Returned a b ↦ λ y. elim y as (λ y. ⟦<Stepped as Clone>⟧.is_clone (stepped.Returned a b) y → y ≡ (stepped.Returned a b)) [
        | stepped.Returned a' b' ↦ λ h. λ i. stepped.Returned (h.0 i) (row_copied cell_copied b b' h.1 i)
        | _ ↦ λ h. absurd h
      ]
      | stepped.Fault a b ↦ λ y. elim y as (λ y. ⟦<Stepped as Clone>⟧.is_clone (stepped.Fault a b) y → y ≡ (stepped.Fault a b)) [
        | stepped.Fault a' b' ↦ λ h. λ i. stepped.Fault (h.0 i) (h.1 i)
        | _ ↦ λ h. absurd h
      ]
      | stepped.BadChoice ↦ λ y. elim y as (λ y. ⟦<Stepped as Clone>⟧.is_clone stepped.BadChoice y → y ≡ stepped.BadChoice) [
        | stepped.BadChoice ↦ λ _. refl
        | _ ↦ λ h. absurd h
      ]
    ] };
}

impl Exact for Outcome {
    ghost use Rattle.std.specs.Prelude.{◌≡◌, refl};
    ghost use Rattle.shape_data.specs.declared.machine.Outcome.{Outcome as AnyOutcome};
    ghost use Rattle.shape_data.specs.declared.machine.Outcome.TheVariants as outcome;
    ghost use Rattle.shape_data.specs.contracts.machine.Outcome.{enum};
    ghost use Rattle.shape_data.specs.Exact.{
      and_same,
      enum_same,
      last_same,
      no_variant,
      number_same,
      row_copied,
      row_same,
      signed_same,
      variant,
    };
    ghost use Rattle.shape_data.specs.contracts.exact.answer.FaultExact.TheImpl.Laws.{eq_is_same-law as fault_same};
    ghost use Rattle.shape_data.specs.contracts.exact.machine.CellExact.TheImpl.Laws.{
      eq_is_same-law as cell_same,
      clone_is_same-law as cell_copied,
    };
    ghost use Rattle.shape_data.specs.contracts.exact.machine.ConfigExact.TheImpl.Laws.{
      eq_is_same-law as config_same,
      clone_is_same-law as config_copied,
    };

    ghost eq_is_same = { enum_same enum
        (variant (last_same config_same)
        (variant (and_same signed_same (last_same (row_same cell_same)))
        (variant (and_same number_same (last_same fault_same))
        (variant (last_same number_same) no_variant)))) };

    ghost clone_is_same = { λ x. elim x as (λ x. (y : AnyOutcome) → ⟦<Outcome as Clone>⟧.is_clone x y → y ≡ x) [
      | outcome.Running a ↦ λ y. elim y as (λ y. ⟦<Outcome as Clone>⟧.is_clone (outcome.Running a) y → y ≡ (outcome.Running a)) [
        | outcome.Running a' ↦ λ h. λ i. outcome.Running (config_copied a a' h i)
        | _ ↦ λ h. absurd h
      ]
      | outcome.Returned a b ↦ λ y. elim y as (λ y. ⟦<Outcome as Clone>⟧.is_clone (outcome.Returned a b) y → y ≡ (outcome.Returned a b)) [
        | outcome.Returned a' b' ↦ λ h. λ i. outcome.Returned (h.0 i) (row_copied cell_copied b b' h.1 i)
        | _ ↦ λ h. absurd h
      ]
      | outcome.Fault a b ↦ λ y. elim y as (λ y. ⟦<Outcome as Clone>⟧.is_clone (outcome.Fault a b) y → y ≡ (outcome.Fault a b)) [
        | outcome.Fault a' b' ↦ λ h. λ i. outcome.Fault (h.0 i) (h.1 i)
        | _ ↦ λ h. absurd h
      ]
      | outcome.BadChoice a ↦ λ y. elim y as (λ y. ⟦<Outcome as Clone>⟧.is_clone (outcome.BadChoice a) y → y ≡ (outcome.BadChoice a)) [
        | outcome.BadChoice a' ↦ λ h. λ i. outcome.BadChoice (h i)
        | _ ↦ λ h. absurd h
      ]
    ] };
}
