//! Laws of the normal form, each the contract of a function that does nothing.
ghost use Rattle.sym_pure.specs.Laws.{
  DiffersIsSound,
  FormHasNoMoreParts,
  FormHasNoOther,
  FormIsNormal,
  FormIsWellFormed,
  NormalHoldsAlike,
  NormalIsItself,
  NormalKeepsMeaning,
};

/// The same locals and heaps meet a state and its normal form, and nothing meets a contradiction. What holds of the
/// state under an assignment to all variables holds of the form under the same one.
pub fn normal_keeps_meaning()
    ensures meets { NormalKeepsMeaning }
    ensures holds { NormalHoldsAlike }
{}

/// What differs has different values in each heap that holds.
pub fn differs_is_sound()
    ensures { DiffersIsSound }
{}

/// The form is normal, by a test that rewrites nothing; and a state is its own form exactly where it is normal.
pub fn form_is_normal()
    ensures form { FormIsNormal }
    ensures itself { NormalIsItself }
{}

/// What holds of each expression of a state holds of each of its form, so that no new variable comes up.
pub fn form_has_no_other()
    ensures { FormHasNoOther }
{}

/// A form has no more parts than its state.
pub fn form_has_no_more_parts()
    ensures { FormHasNoMoreParts }
{}

/// The form of a well-formed state is well formed.
pub fn form_is_well_formed()
    ensures { FormIsWellFormed }
{}
