//! A reporter in memory, of which given calls fail, for tests of faults in mid-stream. Calls are numbered from 0.
ghost use Rattle.std.specs.Prelude.{◌≡◌, ◌≢◌, ◌≤◌, ◌↔◌, [], ◌∷◌, ◌++◌, Contains, IfOk, OnOk, OnErr, Some};
ghost use Rattle.std.specs.Option.{option_map};
ghost use Rattle.io_ports.specs.Counts.{next_count};
ghost use Rattle.reporters.specs.Known.{go_at};

use crate::reporter::{Entry, Go, Reporter, TakeFault};
use io_ports::FailingCalls;
use shape_data::copy_of;
use std::alloc::{AllocError, Global};
use std::marker::Model;

/// The entries taken. It stops at a given number of them, if one was given.
#[derive(Drop, Debug)]
pub struct MemoryReporter {
    entries: Vec<Entry>,
    stop_at: Option<u32>,
    calls: FailingCalls,
}

impl Model for MemoryReporter {
    ghost use Rattle.reporters.specs.Scripts.{ReporterScript};

    ghost Value = { ReporterScript };

    ghost view = { λ r. record {
      entries = r.entries.items;
      stop_at = r.stop_at;
      fail_at = r.calls.fail_at;
      calls = r.calls.calls;
      faults = r.calls.faults;
    } };
}

/// The same entry again, whose summary is shared.
fn entry_again(entry: &Entry) -> Result<Entry, AllocError>
    ensures { IfOk result (λ copied. copied ≡ entry.now) }
{
    Ok(Entry {
        file: copy_of(&entry.file)?,
        line: entry.line,
        summary: entry.summary.again()?,
    })
}

/// Puts the entry behind the others.
fn append(entries: &mut Vec<Entry>, entry: &Entry) -> Result<(), AllocError>
    ensures ok { OnOk result (entries.new.items ≡ entries.old.items ++ entry.now ∷ []) }
    ensures err { OnErr result (entries.new.items ≡ entries.old.items) }
{
    let copied = entry_again(entry)?;
    entries.push(copied)?;
    Ok(())
}

impl MemoryReporter {
    /// A reporter that has taken nothing. It stops when it has taken this many entries, and its calls of these numbers fail.
    pub fn new(alloc: Global, stop_at: Option<u32>, fail_at: Vec<u64>) -> Result<Self, AllocError>
        ensures { IfOk result (λ reporter.
            reporter ≡ record { entries = []; stop_at = stop_at; fail_at = fail_at.items; calls = 0; faults = 0 }) }
    {
        Ok(MemoryReporter {
            entries: Vec::new(alloc),
            stop_at,
            calls: FailingCalls::new(fail_at),
        })
    }

    /// Whether there are as many entries as the number at which it stops.
    fn go(&self) -> Go
        ensures { result ≡ go_at self.now.stop_at (Some self.now.entries) }
    {
        match self.stop_at {
            Some(number) if number as usize == self.entries.len() => Go::Stop,
            _ => Go::More,
        }
    }
}

impl Reporter for MemoryReporter {
    ghost use Rattle.std.specs.Prelude.{false};
    ghost use Rattle.std.specs.declared.option.Option.TheVariants.{Some};

    ghost known = { λ r. record { taken = Some r.entries; faults = r.faults; steady = false; stop = r.stop_at } };

    ghost untold = { λ r e. Prim.cc };

    fn take(&mut self, _alloc: Global, entry: &Entry) -> Result<Go, TakeFault>
        ensures taken { OnOk result (self.new.entries ≡ self.old.entries ++ entry.now ∷ []) }
        ensures kept { OnErr result (self.new.entries ≡ self.old.entries) }
        ensures stops { IfOk result (λ go. go ≡ go_at self.new.stop_at (Some self.new.entries)) }
        ensures stop_at { self.new.stop_at ≡ self.old.stop_at }

        // Which calls fail, and how they are counted.
        ensures fails { (result ≡ Err TakeFault.Failed) ↔ Contains self.old.fail_at self.old.calls }
        ensures fail_at { self.new.fail_at ≡ self.old.fail_at }
        ensures calls { self.new.calls ≡ next_count self.old.calls }
        ensures counted { result ≡ Err TakeFault.Failed → self.new.faults ≡ next_count self.old.faults }
        ensures not_counted { result ≢ Err TakeFault.Failed → self.new.faults ≡ self.old.faults }
        ensures never_falls { self.old.faults ≤ self.new.faults }
    {
        if self.calls.next_fails() {
            return Err(TakeFault::Failed);
        }
        match append(&mut self.entries, entry) {
            Ok(()) => Ok(self.go()),
            Err(_) => Err(TakeFault::OutOfMemory),
        }
    }

    fn entries(&self) -> Option<&[Entry]>
        ensures { option_map (λ entries. entries.now) result ≡ Some self.now.entries }
    {
        Some(self.entries.as_slice())
    }
}
