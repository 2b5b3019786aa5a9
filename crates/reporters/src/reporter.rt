//! Entries, and the trait of whoever takes them.
ghost use Rattle.std.specs.Prelude.{◌≡◌, ◌≤◌, true, IfOk, OnOk, OnErr};
ghost use Rattle.std.specs.Option.{option_map};
ghost use Rattle.io_ports.specs.Counts.{Rose};
ghost use Rattle.reporters.specs.Known.{after_taken, go_at};

use crate::shared::SharedSummary;
use shape_data::Name;
use std::alloc::Global;

/// What is said of one procedure: the file in which it stands, the line there, counted from 1, and its summary, which derefs to a
/// [`ProcSummary`](shape_data::answer::ProcSummary).
#[derive(Drop, Debug)]
pub struct Entry {
    pub file: Name,
    pub line: u32,
    pub summary: SharedSummary,
}

/// Whether a reporter wants more entries.
#[derive(Clone, Copy, PartialEq, Eq, Debug)]
pub enum Go {
    More,
    Stop,
}

/// Why an entry was not taken.
#[derive(Clone, Copy, PartialEq, Eq, Debug)]
pub enum TakeFault {
    Failed,
    OutOfMemory,
}

/// Takes entries one after another, and counts its faults. Whether it is steady, and the number of entries at which it stops, stay
/// the same.
pub trait Reporter: Drop {
    ghost use Rattle.std.specs.Prelude.{◌≡◌};
    ghost use Rattle.std.specs.declared.option.Option.TheVariants.{None};
    ghost use Rattle.reporters.specs.Known.{Known};

    /// What is known of it.
    ghost known: { Self → Known };

    /// Takes an entry behind those that it has taken, and says whether it wants more. Want of memory may come at any call of one that
    /// is not steady.
    fn take(&mut self, alloc: Global, entry: &Entry) -> Result<Go, TakeFault>
        ensures taken { OnOk result ((known self.new).taken ≡ after_taken (known self.old).taken entry.now) }
        ensures kept { OnErr result ((known self.new).taken ≡ (known self.old).taken) }
        ensures stops { IfOk result (λ go. go ≡ go_at (known self.new).stop (known self.new).taken) }
        ensures steady { (known self.old).steady ≡ true → result ≡ Ok Go.More }
        ensures steady_stays { (known self.new).steady ≡ (known self.old).steady }
        ensures stop_stays { (known self.new).stop ≡ (known self.old).stop }
        ensures never_falls { (known self.old).faults ≤ (known self.new).faults }
        ensures cause { result ≡ Err TakeFault.Failed → Rose (known self.old).faults (known self.new).faults };

    /// The entries taken, where it tells them.
    fn entries(&self) -> Option<&[Entry]>
        ensures { option_map (λ entries. entries.now) result ≡ (known self.now).taken };

    /// Where the entries aren't told, there is no number at which it stops.
    ghost untold: { (x : Self) → (known x).taken ≡ None → (known x).stop ≡ None };
}
