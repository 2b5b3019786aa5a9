//! The order of atoms does not matter.
ghost use Rattle.sym_parts.specs.Laws.Orders.{AtomMayMove, AtomsMayPart, PartMayChange};

/// An atom within a list may stand in front.
pub fn atom_may_move()
    ensures { AtomMayMove }
{}

/// The atoms that pass a test may stand before those that don't.
pub fn atoms_may_part()
    ensures { AtomsMayPart }
{}

/// In a list of atoms a part may be replaced by one that says the same.
pub fn part_may_change()
    ensures { PartMayChange }
{}
