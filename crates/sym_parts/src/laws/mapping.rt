//! A function used on each expression: substitution, renaming and binding.
ghost use Rattle.sym_parts.specs.Laws.Mapped.{MappedHolds, RenamedStateMeets, RenamedPostMeets};

/// A mapped heap holds under an assignment where the heap holds under the values that the function's results have.
pub fn mapped_holds()
    ensures { MappedHolds }
{}

/// Other numbers for the existential variables keep what meets a state, and what meets a post.
pub fn renamed_meets()
    ensures state { RenamedStateMeets }
    ensures post { RenamedPostMeets }
{}
