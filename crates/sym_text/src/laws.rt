//! Laws of texts: one text is that of one heap, and of one post; and what is well formed can be written.
ghost use Rattle.std.specs.Prelude.{◌≡◌, List, ℕ, true};
ghost use Rattle.shape_data.specs.declared.program.StructDef.{StructDef};
ghost use Rattle.shape_data.specs.declared.symbolic.Post.{Post};
ghost use Rattle.shape_data.specs.declared.symbolic.SymHeap.{SymHeap};
ghost use Rattle.shape_data.specs.WellFormed.{AreParams, AreStructs};
ghost use Rattle.sym_text.specs.Grammar.{IsWritten, IsWrittenPost};
ghost use Rattle.sym_text.specs.Shape.{WellFormedIsShaped, WellFormedSpecIsShaped};
ghost use Rattle.sym_text.specs.Text.{heap_text, post_text};

/// Two heaps with one text are the same, if both are well formed within `written`, over the same structures and parameters: so
/// printing and reading undo one another.
pub fn one_heap()
    ensures { (structs : List StructDef) → (params : List (List ℕ)) → AreStructs structs → AreParams params → (one other : SymHeap)
        → IsWritten structs params one → IsWritten structs params other → heap_text structs params one ≡ heap_text structs params other
        → one ≡ other }
{}

/// Two such posts with one text, with the result, are the same.
pub fn one_post()
    ensures { (structs : List StructDef) → (params : List (List ℕ)) → AreStructs structs → AreParams params → (one other : Post)
        → IsWrittenPost structs params one → IsWrittenPost structs params other
        → post_text structs params true one ≡ post_text structs params true other → one ≡ other }
{}

/// What [`crate::push_heap`] asks of a heap is true of each that is well formed within any limits.
pub fn well_formed_is_shaped()
    ensures { WellFormedIsShaped }
{}

/// What the printing functions ask of the heaps of a spec is true of each spec that is well formed within any limits.
pub fn well_formed_spec_is_shaped()
    ensures { WellFormedSpecIsShaped }
{}
