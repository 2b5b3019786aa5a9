//! A reporter that counts.
ghost use Rattle.std.specs.Prelude.{◌≡◌, Ok, if◌then◌else◌};
ghost use Rattle.std.specs.Prelude.{length, ◌==◌};
ghost use Rattle.io_ports.specs.Counts.{next_count};

use crate::reporter::{Entry, Go, Reporter, TakeFault};
use std::alloc::Global;

/// How many entries were taken, and how many of them have no spec; each stays at its greatest value once it is there. It tells no
/// entries, and is steady.
#[derive(Drop, Debug)]
pub struct CountReporter {
    pub count: u64,
    pub without_spec: u64,
}

impl CountReporter {
    /// Nothing is counted yet.
    pub fn new() -> Self
        ensures count { result.count ≡ 0 }
        ensures without_spec { result.without_spec ≡ 0 }
    {
        CountReporter {
            count: 0,
            without_spec: 0,
        }
    }
}

impl Reporter for CountReporter {
    ghost use Rattle.std.specs.Prelude.{true, refl};
    ghost use Rattle.std.specs.declared.option.Option.TheVariants.{None};

    ghost known = { λ _. record { taken = None; faults = 0; steady = true; stop = None } };

    ghost untold = { λ _ _. refl };

    fn take(&mut self, _alloc: Global, entry: &Entry) -> Result<Go, TakeFault>
        ensures more { result ≡ Ok Go.More }
        ensures count { self.new.count ≡ next_count self.old.count }
        ensures without_spec { self.new.without_spec
            ≡ (if length entry.now.summary.specs == 0 then next_count self.old.without_spec else self.old.without_spec) }
    {
        self.count = self.count.saturating_add(1);
        if entry.summary.specs.is_empty() {
            self.without_spec = self.without_spec.saturating_add(1);
        }
        Ok(Go::More)
    }

    fn entries(&self) -> Option<&[Entry]> {
        None
    }
}
