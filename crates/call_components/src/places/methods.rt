//! What is done with places.
ghost use Rattle.std.specs.Prelude.{◌≡◌, ◌∷◌, [], ℕ, ◌<◌, ◌≤◌, true, length, IfNone, IfSome, OnOk};
ghost use Rattle.component_keys.specs.Components.{holds};
ghost use Rattle.call_components.specs.Waiting.{places_in};

use super::Places;
use std::alloc::{AllocError, Global};
use std::cmp::Reverse;
use std::collections::BinaryHeap;

impl Places {
    /// No place.
    pub fn new(alloc: Global) -> Places
        ensures { places_in result ≡ [] }
    {
        Places {
            heap: BinaryHeap::new(alloc),
        }
    }

    /// Adds a place. It takes time in proportion to a logarithm of how many there are.
    pub fn add(&mut self, place: usize) -> Result<(), AllocError>
        ensures { OnOk result ((other : ℕ) → holds (places_in self.new) other ≡ holds (place ∷ places_in self.old) other) }
    {
        self.heap.push(Reverse(place))?;
        Ok(())
    }

    /// Takes the least place. It takes time in proportion to a logarithm of how many there are.
    pub fn take(&mut self) -> Option<usize>
        ensures taken { IfSome result (λ place. (other : ℕ) → holds (places_in self.old) other ≡ holds (place ∷ places_in self.new) other) }
        ensures least { IfSome result (λ place. (other : ℕ) → holds (places_in self.old) other ≡ true → place ≤ other) }
        ensures fewer { IfSome result (λ place. length (places_in self.new) < length (places_in self.old)) }
        ensures none { IfNone result (places_in self.old ≡ []) }
    {
        match self.heap.pop() {
            Some(Reverse(place)) => Some(place),
            None => None,
        }
    }
}
