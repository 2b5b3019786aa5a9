//! `==` and `clone` are exact at the types of symbolic heaps, specs and certificates. Each law gives, in the order
//! of the declaration, what makes the test or the copy of each field exact, and for an enum so for each variant.
use crate::exact::Exact;
use crate::symbolic::{Atom, Cert, Exp, Fact, Post, Spec, SymHeap, SymState};

impl Exact for Exp {
    ghost use Rattle.shape_data.specs.contracts.symbolic.Exp.{enum};
    ghost use Rattle.shape_data.specs.Exact.{enum_same, itself, last_same, no_variant, number_same, signed_same, variant};

    ghost eq_is_same = { enum_same enum
        (variant (last_same number_same)
        (variant (last_same signed_same) no_variant)) };

    ghost clone_is_same = { itself };
}

impl Exact for Atom {
    ghost use Rattle.std.specs.Prelude.{◌≡◌, refl};
    ghost use Rattle.shape_data.specs.declared.symbolic.Atom.{Atom as AnyAtom};
    ghost use Rattle.shape_data.specs.declared.symbolic.Atom.TheVariants as atom;
    ghost use Rattle.shape_data.specs.contracts.symbolic.Atom.{enum};
    ghost use Rattle.shape_data.specs.Exact.{
      and_same,
      enum_same,
      itself,
      last_same,
      no_field_same,
      no_variant,
      number_same,
      row_copied,
      row_same,
      variant,
    };
    ghost use Rattle.shape_data.specs.contracts.name.NameExact.TheImpl.Laws.{eq_is_same-law as name_same};
    ghost use Rattle.shape_data.specs.contracts.exact.symbolic.ExpExact.TheImpl.Laws.{eq_is_same-law as exp_same};

    ghost eq_is_same = { enum_same enum
        (variant (and_same exp_same (and_same name_same (last_same (row_same exp_same))))
        (variant (and_same name_same (and_same number_same (and_same exp_same (last_same exp_same))))
        (variant no_field_same no_variant))) };

    ghost clone_is_same = { λ x. elim x as (λ x. (y : AnyAtom) → ⟦<Atom as Clone>⟧.is_clone x y → y ≡ x) [
      | atom.Points a b c ↦ λ y. elim y as (λ y. ⟦<Atom as Clone>⟧.is_clone (atom.Points a b c) y → y ≡ (atom.Points a b c)) [
        | atom.Points a' b' c' ↦ λ h. λ i. atom.Points (h.0 i) (h.1.0 i) (row_copied itself c c' h.1.1 i)
        | _ ↦ λ h. absurd h
      ]
      | atom.Seg a b c d ↦ λ y. elim y as (λ y. ⟦<Atom as Clone>⟧.is_clone (atom.Seg a b c d) y → y ≡ (atom.Seg a b c d)) [
        | atom.Seg a' b' c' d' ↦ λ h. λ i. atom.Seg (h.0 i) (h.1.0 i) (h.1.1.0 i) (h.1.1.1 i)
        | _ ↦ λ h. absurd h
      ]
      | atom.Junk ↦ λ y. elim y as (λ y. ⟦<Atom as Clone>⟧.is_clone atom.Junk y → y ≡ atom.Junk) [
        | atom.Junk ↦ λ _. refl
        | _ ↦ λ h. absurd h
      ]
    ] };
}

impl Exact for Fact {
    ghost use Rattle.shape_data.specs.contracts.symbolic.Fact.{enum};
    ghost use Rattle.shape_data.specs.Exact.{and_same, enum_same, itself, last_same, no_variant, variant};
    ghost use Rattle.shape_data.specs.contracts.exact.symbolic.ExpExact.TheImpl.Laws.{eq_is_same-law as exp_same};

    ghost eq_is_same = { enum_same enum
        (variant (and_same exp_same (last_same exp_same))
        (variant (and_same exp_same (last_same exp_same)) no_variant)) };

    ghost clone_is_same = { itself };
}

impl Exact for SymHeap {
    ghost use Rattle.shape_data.specs.contracts.symbolic.SymHeap.{struct, the_propositions};
    ghost use Rattle.shape_data.specs.Exact.{
      and_copied,
      and_same,
      itself,
      last_copied,
      last_same,
      row_copied,
      row_same,
      struct_copied,
      struct_same,
    };
    ghost use Rattle.shape_data.specs.contracts.exact.symbolic.AtomExact.TheImpl.Laws.{
      eq_is_same-law as atom_same,
      clone_is_same-law as atom_copied,
    };
    ghost use Rattle.shape_data.specs.contracts.exact.symbolic.FactExact.TheImpl.Laws.{eq_is_same-law as fact_same};

    ghost eq_is_same = { struct_same struct the_propositions
        (and_same (row_same fact_same)
        (last_same (row_same atom_same))) };

    ghost clone_is_same = { struct_copied struct the_propositions
        (and_copied (row_copied itself)
        (last_copied (row_copied atom_copied))) };
}

impl Exact for SymState {
    ghost use Rattle.shape_data.specs.contracts.symbolic.SymState.{struct, the_propositions};
    ghost use Rattle.shape_data.specs.Exact.{
      and_copied,
      and_same,
      itself,
      last_copied,
      last_same,
      row_copied,
      row_same,
      struct_copied,
      struct_same,
    };
    ghost use Rattle.shape_data.specs.contracts.exact.symbolic.ExpExact.TheImpl.Laws.{eq_is_same-law as exp_same};
    ghost use Rattle.shape_data.specs.contracts.exact.symbolic.SymHeapExact.TheImpl.Laws.{
      eq_is_same-law as heap_same,
      clone_is_same-law as heap_copied,
    };

    ghost eq_is_same = { struct_same struct the_propositions
        (and_same (row_same exp_same)
        (last_same heap_same)) };

    ghost clone_is_same = { struct_copied struct the_propositions
        (and_copied (row_copied itself)
        (last_copied heap_copied)) };
}

impl Exact for Post {
    ghost use Rattle.shape_data.specs.contracts.symbolic.Post.{struct, the_propositions};
    ghost use Rattle.shape_data.specs.Exact.{and_copied, and_same, itself, last_copied, last_same, struct_copied, struct_same};
    ghost use Rattle.shape_data.specs.contracts.exact.symbolic.ExpExact.TheImpl.Laws.{eq_is_same-law as exp_same};
    ghost use Rattle.shape_data.specs.contracts.exact.symbolic.SymHeapExact.TheImpl.Laws.{
      eq_is_same-law as heap_same,
      clone_is_same-law as heap_copied,
    };

    ghost eq_is_same = { struct_same struct the_propositions
        (and_same exp_same
        (last_same heap_same)) };

    ghost clone_is_same = { struct_copied struct the_propositions
        (and_copied itself
        (last_copied heap_copied)) };
}

impl Exact for Spec {
    ghost use Rattle.shape_data.specs.contracts.symbolic.Spec.{struct, the_propositions};
    ghost use Rattle.shape_data.specs.Exact.{
      and_copied,
      and_same,
      last_copied,
      last_same,
      row_copied,
      row_same,
      struct_copied,
      struct_same,
    };
    ghost use Rattle.shape_data.specs.contracts.exact.symbolic.SymHeapExact.TheImpl.Laws.{
      eq_is_same-law as heap_same,
      clone_is_same-law as heap_copied,
    };
    ghost use Rattle.shape_data.specs.contracts.exact.symbolic.PostExact.TheImpl.Laws.{
      eq_is_same-law as post_same,
      clone_is_same-law as post_copied,
    };

    ghost eq_is_same = { struct_same struct the_propositions
        (and_same heap_same
        (last_same (row_same post_same))) };

    ghost clone_is_same = { struct_copied struct the_propositions
        (and_copied heap_copied
        (last_copied (row_copied post_copied))) };
}

impl Exact for Cert {
    ghost use Rattle.shape_data.specs.contracts.symbolic.Cert.{struct, the_propositions};
    ghost use Rattle.shape_data.specs.Exact.{
      and_copied,
      and_same,
      last_copied,
      last_same,
      row_copied,
      row_same,
      struct_copied,
      struct_same,
    };
    ghost use Rattle.shape_data.specs.contracts.exact.symbolic.SymStateExact.TheImpl.Laws.{
      eq_is_same-law as state_same,
      clone_is_same-law as state_copied,
    };
    ghost use Rattle.shape_data.specs.contracts.exact.symbolic.PostExact.TheImpl.Laws.{
      eq_is_same-law as post_same,
      clone_is_same-law as post_copied,
    };

    ghost eq_is_same = { struct_same struct the_propositions
        (and_same (row_same (row_same state_same))
        (last_same (row_same post_same))) };

    ghost clone_is_same = { struct_copied struct the_propositions
        (and_copied (row_copied (row_copied state_copied))
        (last_copied (row_copied post_copied))) };
}
