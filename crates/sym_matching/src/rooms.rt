//! Laws of the room for new variables, each the contract of a function that does nothing: it follows from well-formedness, so
//! that no call of the crates above has a condition for it.
ghost use Rattle.sym_matching.specs.Rooms.{
  AtomNames,
  AtomTakesRoom,
  AtomsName,
  AtomsTakeRoom,
  FewFields,
  RoomBelow,
  RoomOfFew,
  RoomParts,
  SearchFindsFree,
  WellFormedIsWithinSizes,
};

/// Each well-formed heap has variables below 2^31, at most 4,000 parts, and cells of at most 32,768 fields; so it has at most
/// 131,072,000 fields.
pub fn well_formed_heaps_have_sizes()
    ensures sizes { WellFormedIsWithinSizes }
    ensures fields { FewFields }
{}

/// There is room where the variables in use are below a limit, and where they are few; room for more is room for some, and
/// then for the others.
pub fn there_is_room()
    ensures below { RoomBelow }
    ensures few { RoomOfFew }
    ensures parts { RoomParts }
{}

/// The search for the least number that is free, from one on, finds it.
pub fn search_finds_free()
    ensures { SearchFindsFree }
{}

/// Wanted atoms take no more new variables than they have fields.
pub fn atoms_take_room()
    ensures one { AtomTakesRoom }
    ensures all { AtomsTakeRoom }
{}

/// Wanted atoms take no more new logical variables than one for each field of a cell, and one for each segment.
pub fn atoms_take_few_logical()
    ensures one { AtomNames }
    ensures all { AtomsName }
{}
