//! Laws of the canonical form, each the contract of a function that does nothing.
ghost use Rattle.sym_canon.specs.Laws.{
  CanonPairKeepsMeaning,
  CanonPostKeepsMeaning,
  CanonStateKeepsMeaning,
  FactsAreInOrder,
  MoreTurnsChangeNothing,
};

/// The same locals and heaps meet a state and its canonical form, under each assignment to the logical variables; and
/// the same results and heaps a post and its form.
pub fn canon_keeps_meaning()
    ensures state { CanonStateKeepsMeaning }
    ensures post { CanonPostKeepsMeaning }
{}

/// A pair's canonical form means the same, up to one renumbering, for both parts, of the logical variables that are no
/// parameters.
pub fn canon_pair_keeps_meaning()
    ensures { CanonPairKeepsMeaning }
{}

/// As many turns of placing as there are atoms are enough, so that each atom is placed by a turn.
pub fn turns_are_enough()
    ensures { MoreTurnsChangeNothing }
{}

/// The sorted facts are in order.
pub fn facts_are_in_order()
    ensures { FactsAreInOrder }
{}
