//! Laws of the typing rules. Each is the contract of a function with an empty body.
ghost use Rattle.c_types_rules.specs.Laws.{HaveFirst, HaveFirstPlaces, HaveKnown, HaveOwn, HaveExamples};

/// The first refusal is one of a list, and none of the list stands before it; a list that has none is empty.
pub fn first_refusal()
    ensures { HaveFirst }
{}

/// A tree spells words that begin at its first place.
pub fn first_places()
    ensures { HaveFirstPlaces }
{}

/// Where nothing is refused in a program, the type of each of its expressions is known.
pub fn types_are_known()
    ensures { HaveKnown }
{}

/// An expression's own type is the last of those of the expressions that begin at its first token.
pub fn own_type_is_last()
    ensures { HaveOwn }
{}

/// Worked examples.
pub fn examples()
    ensures { HaveExamples }
{}
