//! A set of names.
ghost use Rattle.std.specs.Prelude.{◌≡◌, ◌||◌, ℕ, List, false, OnOk};
ghost use Rattle.std.specs.Str.{bytes_eq};
ghost use Rattle.c_types_names.specs.NameSets.{has};

use crate::name_map::NameMap;
use c_tree::Name;
use std::alloc::{AllocError, Global};

/// A set of names.
#[derive(Drop)]
pub struct NameSet<'a> {
    names: NameMap<'a, bool>,
}

impl<'a> NameSet<'a> {
    /// No name.
    pub fn new(alloc: Global) -> NameSet<'a>
        ensures { (n : List ℕ) → has result n ≡ false }
    {
        NameSet {
            names: NameMap::new(alloc),
        }
    }

    /// Whether the name is in the set.
    pub fn contains(&self, name: &Name) -> bool
        ensures { result ≡ has self.now name.now }
    {
        self.names.named(name).is_some()
    }

    /// With one more name.
    pub fn add(&mut self, name: &'a Name) -> Result<(), AllocError>
        ensures { OnOk result ((n : List ℕ) → has self.new n ≡ (bytes_eq name.now n || has self.old n)) }
    {
        self.names.set(name, true)
    }
}
