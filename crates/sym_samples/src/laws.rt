//! Laws of samples, each the contract of a function that does nothing.
ghost use Rattle.sym_samples.specs.Laws.{NormalIsMet, WellFormedIsShaped};

/// A normal heap whose sources are pairwise distinct variables is met by some heap: by one cell for each cell and each segment.
pub fn normal_heaps_are_met()
    ensures { NormalIsMet }
{}

/// What the law above and [`crate::sample`] ask of the atoms is true of those of each well-formed heap.
pub fn well_formed_heaps_are_shaped()
    ensures { WellFormedIsShaped }
{}
