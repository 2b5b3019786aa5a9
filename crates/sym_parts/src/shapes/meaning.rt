//! What meets symbolic heaps: a heap, the empty heap alone for the empty one, and a sum for one beside
//! another.
ghost use Rattle.std.specs.Prelude.{◌≡◌, ◌↔◌, ◌++◌, ℕ, ℤ, List, []};
ghost use Rattle.shape_data.specs.declared.machine.Cell.{Cell};
ghost use Rattle.shape_data.specs.declared.program.StructDef.{StructDef};
ghost use Rattle.shape_data.specs.declared.symbolic.Atom.{Atom};
ghost use Rattle.shape_data.specs.declared.symbolic.SymHeap.{SymHeap};
ghost use Rattle.shape_data.specs.Heap.{IsHeap, IsSum};
ghost use Rattle.shape_data.specs.Meaning.{AgreesOnLogical, HoldsAtoms, Meets};
ghost use Rattle.sym_parts.specs.Shapes.Symbolic.{beside, emp, ShareNoExistential};

/// What meets a symbolic heap is a heap.
pub fn what_meets_is_heap()
    ensures { (structs : List StructDef) (s : ℕ → ℤ) (heap : List Cell) (shape : SymHeap) → Meets structs s heap shape
        → IsHeap structs heap }
{}

/// The empty heap, and no other, meets the empty symbolic heap.
pub fn empty_heap_meets_emp()
    ensures { (structs : List StructDef) (s : ℕ → ℤ) (heap : List Cell) → Meets structs s heap emp ↔ (heap ≡ []) }
{}

/// Only the logical variables of an assignment matter.
pub fn logical_variables_decide()
    ensures { (structs : List StructDef) (s t : ℕ → ℤ) (heap : List Cell) (shape : SymHeap) → AgreesOnLogical s t
        → Meets structs s heap shape → Meets structs t heap shape }
{}

/// Two lists of atoms, one after the other, hold of the sums of what they hold of.
pub fn atoms_append()
    ensures joined { (structs : List StructDef) (s : ℕ → ℤ) (left right : List Atom) (whole one other : List Cell)
        → IsSum structs whole one other → HoldsAtoms structs s left one → HoldsAtoms structs s right other
        → HoldsAtoms structs s (left ++ right) whole }
    ensures parted { (structs : List StructDef) (s : ℕ → ℤ) (left right : List Atom) (whole : List Cell)
        → HoldsAtoms structs s (left ++ right) whole
        → (one other : List Cell) × IsSum structs whole one other × HoldsAtoms structs s left one × HoldsAtoms structs s right other }
{}

/// What meets one symbolic heap beside what meets another meets the two together, where they share no
/// existential variable; and what meets the two together is always such a sum.
pub fn meets_beside()
    ensures joined { (structs : List StructDef) (s : ℕ → ℤ) (a b : SymHeap) (whole one other : List Cell) → ShareNoExistential a b
        → IsSum structs whole one other → Meets structs s one a → Meets structs s other b → Meets structs s whole (beside a b) }
    ensures parted { (structs : List StructDef) (s : ℕ → ℤ) (a b : SymHeap) (whole : List Cell) → Meets structs s whole (beside a b)
        → (one other : List Cell) × IsSum structs whole one other × Meets structs s one a × Meets structs s other b }
{}
