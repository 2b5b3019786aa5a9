//! Places in a queue, from which the least is taken first.
ghost use Rattle.std.specs.BinaryHeap.{IsHeap, heap_items};
ghost use Rattle.std.specs.Ordering.{nat_cmp};
ghost use Rattle.std.proofs.Props.{props};

mod methods;

use std::cmp::Reverse;
use std::collections::BinaryHeap;

/// Places, the least of which is taken first.
#[derive(Drop)]
pub struct Places {
    heap: BinaryHeap<Reverse<usize>>,
    ghost ordered: { IsHeap (λ x y. nat_cmp y.0 x.0) (heap_items heap) } by { Prim.hlevel props },
}
