//! Laws of normal and canonical forms together, each the contract of a function that does nothing.
ghost use Rattle.sym_forms.specs.Laws.{
  CanonPairKeepsMissingNormal,
  CanonPostIsNormal,
  CanonStateIsNormal,
  CanonStateIsWellFormed,
  PairFormIsNormal,
};

/// The canonical form of what is normal is normal.
pub fn canonical_form_is_normal()
    ensures state { CanonStateIsNormal }
    ensures post { CanonPostIsNormal }
{}

/// Both parts of a pair's normal form are normal, and the missing heap stays so when its variables are numbered.
pub fn pair_form_is_normal()
    ensures form { PairFormIsNormal }
    ensures numbered { CanonPairKeepsMissingNormal }
{}

/// The canonical form of a well-formed state is well formed: its existential variables are the first ones, no more than there are
/// expressions.
pub fn canonical_form_is_well_formed()
    ensures { CanonStateIsWellFormed }
{}
