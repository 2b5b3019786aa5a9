//! Laws of the conditions, each the contract of a function that does nothing. What a match and a covering mean for heaps is
//! said by the laws of `sym_matching`.
ghost use Rattle.subtraction.specs.Conditions.{WellFormedPostIsWithinSizes, WellFormedStateIsWithinSizes};

/// Each well-formed state of a procedure, and each well-formed post, is within the sizes. For heaps it is the law
/// `sym_matching::rooms::well_formed_heaps_have_sizes`.
pub fn well_formed_is_within_sizes()
    ensures state { WellFormedStateIsWithinSizes }
    ensures post { WellFormedPostIsWithinSizes }
{}
