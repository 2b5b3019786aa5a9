//! Sums of heaps: two disjoint heaps have exactly one, their union; it is commutative and associative, with
//! the empty heap as unit.
ghost use Rattle.std.specs.Prelude.{◌≡◌, List, []};
ghost use Rattle.shape_data.specs.declared.machine.Cell.{Cell};
ghost use Rattle.shape_data.specs.declared.program.StructDef.{StructDef};
ghost use Rattle.shape_data.specs.Heap.{Disjoint, IsHeap, IsSum, union};

/// Two disjoint heaps have exactly one sum, their union.
pub fn sum_is_union()
    ensures exists { (structs : List StructDef) (left right : List Cell) → IsHeap structs left → IsHeap structs right → Disjoint left right
        → IsSum structs (union left right) left right }
    ensures only { (structs : List StructDef) (whole left right : List Cell) → IsSum structs whole left right → whole ≡ union left right }
{}

/// The order of two heaps does not matter to their sum.
pub fn sum_is_commutative()
    ensures sum { (structs : List StructDef) (whole left right : List Cell) → IsSum structs whole left right
        → IsSum structs whole right left }
    ensures unions { (structs : List StructDef) (left right : List Cell) → IsHeap structs left → IsHeap structs right → Disjoint left right
        → union left right ≡ union right left }
{}

/// Three heaps are summed from either end. The union needs no disjointness: in both forms the cell of the
/// first heap that has one stands.
pub fn sum_is_associative()
    ensures to_left { (structs : List StructDef) (whole first others second third : List Cell) → IsSum structs whole first others
        → IsSum structs others second third → (both : List Cell) × IsSum structs whole both third × IsSum structs both first second }
    ensures to_right { (structs : List StructDef) (whole both first second third : List Cell) → IsSum structs whole both third
        → IsSum structs both first second → (others : List Cell) × IsSum structs whole first others × IsSum structs others second third }
    ensures unions { (structs : List StructDef) (first second third : List Cell) → IsHeap structs first → IsHeap structs second
        → IsHeap structs third → union (union first second) third ≡ union first (union second third) }
{}

/// The empty heap adds nothing.
pub fn empty_heap_is_unit()
    ensures left { (structs : List StructDef) (heap : List Cell) → IsHeap structs heap → IsSum structs heap [] heap }
    ensures right { (structs : List StructDef) (heap : List Cell) → IsHeap structs heap → IsSum structs heap heap [] }
    ensures left_only { (structs : List StructDef) (whole right : List Cell) → IsSum structs whole [] right → whole ≡ right }
    ensures right_only { (structs : List StructDef) (whole left : List Cell) → IsSum structs whole left [] → whole ≡ left }
{}
