//! A source, a sink and a keeper in memory of which given calls fail, for tests of faults in mid-stream. Each is the
//! steady one beside the numbers of those calls; calls are numbered from 0.
ghost use Rattle.std.specs.Prelude.{
  ◌≡◌,
  ◌≢◌,
  ◌≤◌,
  ◌<◌,
  ◌↔◌,
  ℕ,
  List,
  [],
  ◌++◌,
  length,
  take,
  min,
  if◌then◌else◌,
  is_err,
  IfOk,
  OnOk,
  OnErr,
  IsErr,
  Contains,
};
ghost use Rattle.std.specs.declared.option.Option.TheVariants.{Some};
ghost use Rattle.std.specs.Option.{option_map};
ghost use Rattle.io_ports.specs.Counts.{next_count};
ghost use Rattle.io_ports.specs.Places.{found, IsHeld, IsWithin};

use crate::failing::FailingCalls;
use crate::keeper::{Held, KeepFault, Keeper};
use crate::sink::{Sink, SinkFault};
use crate::source::{ReadFailed, Source};
use crate::steady::{SteadyKeeper, SteadySink, SteadySource};
use std::alloc::{AllocError, Global};
use std::marker::Model;

/// Bytes in memory, of which some reads fail.
#[derive(Drop, Debug)]
pub struct MemorySource {
    bytes: SteadySource,
    calls: FailingCalls,
}

impl Model for MemorySource {
    ghost use Rattle.io_ports.specs.Scripts.{SourceScript};

    ghost Value = { SourceScript };

    ghost view = { λ s. record { left = s.bytes; fail_at = s.calls.fail_at; calls = s.calls.calls; faults = s.calls.faults } };
}

impl MemorySource {
    /// A source of these bytes, whose calls of these numbers fail.
    pub fn new(alloc: Global, bytes: Vec<u8>, fail_at: Vec<u64>) -> Result<Self, AllocError>
        ensures { IfOk result (λ source.
            source ≡ record { left = bytes.items; fail_at = fail_at.items; calls = 0; faults = 0 }) }
    {
        Ok(MemorySource {
            bytes: SteadySource::new(alloc, bytes)?,
            calls: FailingCalls::new(fail_at),
        })
    }
}

impl Source for MemorySource {
    ghost use Rattle.std.specs.declared.option.Option.TheVariants.{Some};

    ghost left = { λ s. Some s.left };

    ghost faults = { λ s. s.faults };

    fn read(&mut self, buf: &mut [u8]) -> Result<usize, ReadFailed>
        requires { 0 < length buf.old }

        ensures count { IfOk result (λ count. count ≡ min (length self.old.left) (length buf.new)) }
        ensures moved { IfOk result (λ count. self.old.left ≡ take count buf.new ++ self.new.left) }
        ensures end { IfOk result (λ count. count ≡ 0 → self.new.left ≡ []) }
        ensures kept { OnErr result (self.new.left ≡ self.old.left) }

        // Which calls fail, and how they are counted.
        ensures fails { IsErr result ↔ Contains self.old.fail_at self.old.calls }
        ensures fail_at { self.new.fail_at ≡ self.old.fail_at }
        ensures calls { self.new.calls ≡ next_count self.old.calls }
        ensures faults { self.new.faults ≡
            (if is_err result then next_count self.old.faults else self.old.faults) }
        ensures never_falls { self.old.faults ≤ self.new.faults }
    {
        if self.calls.next_fails() {
            return Err(ReadFailed);
        }
        self.bytes.read(buf)
    }
}

/// Bytes in memory that writes append to, of which some fail.
#[derive(Drop, Debug)]
pub struct MemorySink {
    bytes: SteadySink,
    calls: FailingCalls,
}

impl Model for MemorySink {
    ghost use Rattle.io_ports.specs.Scripts.{SinkScript};

    ghost Value = { SinkScript };

    ghost view = { λ s. record { held = s.bytes; fail_at = s.calls.fail_at; calls = s.calls.calls; faults = s.calls.faults } };
}

impl MemorySink {
    /// A sink that holds nothing, whose calls of these numbers fail.
    pub fn new(alloc: Global, fail_at: Vec<u64>) -> Result<Self, AllocError>
        ensures { IfOk result (λ sink.
            sink ≡ record { held = []; fail_at = fail_at.items; calls = 0; faults = 0 }) }
    {
        Ok(MemorySink {
            bytes: SteadySink::new(alloc)?,
            calls: FailingCalls::new(fail_at),
        })
    }

    /// The bytes written.
    pub fn held(&self) -> &[u8]
        ensures { result.now ≡ self.now.held }
    {
        self.bytes.held()
    }
}

impl Sink for MemorySink {
    ghost use Rattle.std.specs.declared.option.Option.TheVariants.{Some};

    ghost held = { λ s. Some s.held };

    ghost faults = { λ s. s.faults };

    fn write(&mut self, alloc: Global, bytes: &[u8]) -> Result<usize, SinkFault>
        requires { 0 < length bytes.now }

        ensures all { IfOk result (λ count. count ≡ length bytes.now) }
        ensures appended { IfOk result (λ _. self.new.held ≡ self.old.held ++ bytes.now) }
        ensures kept { OnErr result (self.new.held ≡ self.old.held) }

        // Which calls fail, and how they are counted.
        ensures fails { (result ≡ Err SinkFault.Failed) ↔ Contains self.old.fail_at self.old.calls }
        ensures fail_at { self.new.fail_at ≡ self.old.fail_at }
        ensures calls { self.new.calls ≡ next_count self.old.calls }
        ensures counted { result ≡ Err SinkFault.Failed → self.new.faults ≡ next_count self.old.faults }
        ensures not_counted { result ≢ Err SinkFault.Failed → self.new.faults ≡ self.old.faults }
        ensures never_falls { self.old.faults ≤ self.new.faults }
    {
        if self.calls.next_fails() {
            return Err(SinkFault::Failed);
        }
        self.bytes.write(alloc, bytes)
    }
}

/// Bytes in memory under paths, of which some readings and replacements fail. Both kinds of call are numbered in one
/// row.
#[derive(Drop, Debug)]
pub struct MemoryKeeper {
    files: SteadyKeeper,
    calls: FailingCalls,
}

impl Model for MemoryKeeper {
    ghost use Rattle.io_ports.specs.Scripts.{KeeperScript};

    ghost Value = { KeeperScript };

    ghost view = { λ s. record { files = s.files; fail_at = s.calls.fail_at; calls = s.calls.calls; faults = s.calls.faults } };
}

impl MemoryKeeper {
    /// A keeper that has no path, whose calls of these numbers fail.
    pub fn new(alloc: Global, fail_at: Vec<u64>) -> Result<Self, AllocError>
        ensures { IfOk result (λ keeper.
            keeper ≡ record { files = []; fail_at = fail_at.items; calls = 0; faults = 0 }) }
    {
        Ok(MemoryKeeper {
            files: SteadyKeeper::new(alloc)?,
            calls: FailingCalls::new(fail_at),
        })
    }

    /// The bytes under a path.
    pub fn get(&self, path: &str) -> Option<&[u8]>
        ensures { option_map (λ bytes. bytes.now) result ≡ found self.now.files path.now }
    {
        self.files.get(path)
    }
}

impl Keeper for MemoryKeeper {
    ghost kept = { λ s path. Some (found s.files path) };

    ghost faults = { λ s. s.faults };

    fn read_all(&mut self, alloc: Global, path: &str) -> Result<Held, KeepFault>
        ensures held { IfOk result (λ held. IsHeld (found self.old.files path.now) held) }
        ensures within { IfOk result (λ held. IsWithin held) }
        ensures same { self.new.files ≡ self.old.files }

        // Which calls fail, and how they are counted.
        ensures fails { (result ≡ Err KeepFault.Failed) ↔ Contains self.old.fail_at self.old.calls }
        ensures fail_at { self.new.fail_at ≡ self.old.fail_at }
        ensures calls { self.new.calls ≡ next_count self.old.calls }
        ensures counted { result ≡ Err KeepFault.Failed → self.new.faults ≡ next_count self.old.faults }
        ensures not_counted { result ≢ Err KeepFault.Failed → self.new.faults ≡ self.old.faults }
        ensures never_falls { self.old.faults ≤ self.new.faults }
    {
        if self.calls.next_fails() {
            return Err(KeepFault::Failed);
        }
        self.files.read_all(alloc, path)
    }

    fn replace(&mut self, alloc: Global, path: &str, bytes: &[u8]) -> Result<(), KeepFault>
        ensures replaced { OnOk result (found self.new.files path.now ≡ Some bytes.now) }
        ensures others { (other : List ℕ) → other ≢ path.now →
            found self.new.files other ≡ found self.old.files other }
        ensures kept { OnErr result (found self.new.files path.now ≡ found self.old.files path.now) }

        // Which calls fail, and how they are counted.
        ensures fails { (result ≡ Err KeepFault.Failed) ↔ Contains self.old.fail_at self.old.calls }
        ensures fail_at { self.new.fail_at ≡ self.old.fail_at }
        ensures calls { self.new.calls ≡ next_count self.old.calls }
        ensures counted { result ≡ Err KeepFault.Failed → self.new.faults ≡ next_count self.old.faults }
        ensures not_counted { result ≢ Err KeepFault.Failed → self.new.faults ≡ self.old.faults }
        ensures never_falls { self.old.faults ≤ self.new.faults }
    {
        if self.calls.next_fails() {
            return Err(KeepFault::Failed);
        }
        self.files.replace(alloc, path, bytes)
    }
}
