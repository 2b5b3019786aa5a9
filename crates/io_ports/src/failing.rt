//! The numbers of the calls that fail, with the counts of calls and of faults: what a source, a sink, a keeper or a reporter in
//! memory fails by.
ghost use Rattle.std.specs.Prelude.{◌≡◌, ◌≤◌, ◌↔◌, if◌then◌else◌, Contains, IsTrue};
ghost use Rattle.io_ports.specs.Counts.{next_count};

use std::marker::Model;

/// The numbers of the calls that fail, from 0; how many calls there were, and how many of them failed, where each count stays at
/// its greatest value once it is there.
#[derive(Drop, Debug)]
pub struct FailingCalls {
    fail_at: Vec<u64>,
    calls: u64,
    faults: u64,
}

impl Model for FailingCalls {
    ghost use Rattle.io_ports.specs.Scripts.{CallScript};

    ghost Value = { CallScript };

    ghost view = { λ s. record { fail_at = s.fail_at.items; calls = s.calls; faults = s.faults } };
}

impl FailingCalls {
    /// There was no call yet; those of these numbers fail.
    pub fn new(fail_at: Vec<u64>) -> Self
        ensures { result ≡ record { fail_at = fail_at.items; calls = 0; faults = 0 } }
    {
        FailingCalls {
            fail_at,
            calls: 0,
            faults: 0,
        }
    }

    /// Counts a call, and says whether it fails; if so, it is counted as a fault, too.
    pub fn next_fails(&mut self) -> bool
        ensures fails { IsTrue result ↔ Contains self.old.fail_at self.old.calls }
        ensures fail_at { self.new.fail_at ≡ self.old.fail_at }
        ensures calls { self.new.calls ≡ next_count self.old.calls }
        ensures faults { self.new.faults ≡ (if result then next_count self.old.faults else self.old.faults) }
        ensures never_falls { self.old.faults ≤ self.new.faults }
    {
        let fails = self.fail_at.contains(&self.calls);
        self.calls = self.calls.saturating_add(1);
        if fails {
            self.faults = self.faults.saturating_add(1);
        }
        fails
    }
}
