//! The laws, each the contract of a function with an empty body.
ghost use Rattle.grammar_laws.specs.Laws.{WhatIsReadIsDerived, WhatIsDerivedIsRead, StopsWhereItMust, LevelsOpen};

/// Where a form was read, it derives the words that were taken.
pub fn what_is_read_is_derived()
    ensures { WhatIsReadIsDerived }
{}

/// What a form derives is read, before all that does not continue it.
pub fn what_is_derived_is_read()
    ensures { WhatIsDerivedIsRead }
{}

/// A reading stops at the first word that cannot stand there: the words before it begin something that the form derives,
/// and with this word they begin nothing of it.
pub fn stops_where_it_must()
    ensures { StopsWhereItMust }
{}

/// With more levels open the same is read, but that a word which was one level too deep is passed.
pub fn levels_open()
    ensures { LevelsOpen }
{}
