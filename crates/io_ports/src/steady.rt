//! A source, a sink and a keeper in memory that never fail for another cause than want of memory: their counts of
//! faults are the constant 0, so a caller knows that no fault came from them.
ghost use Rattle.std.specs.Prelude.{◌≡◌, ◌≢◌, ◌<◌, ℕ, List, [], ◌++◌, length, take, drop, min, IsOk, IfOk, IfErr, OnOk, OnErr};
ghost use Rattle.std.specs.declared.option.Option.TheVariants.{Some, None};
ghost use Rattle.std.specs.Option.{option_map};
ghost use Rattle.io_ports.specs.Places.{found, IsHeld, IsWithin};

use crate::keeper::{Held, KeepFault, Keeper, MOST_HELD};
use crate::sink::{Sink, SinkFault};
use crate::source::{ReadFailed, Source};
use std::alloc::{AllocError, Global};
use std::collections::BTreeMap;
use std::marker::Model;

/// Bytes in memory, which contracts see as those that are left.
#[derive(Drop, Debug)]
pub struct SteadySource {
    bytes: Vec<u8>,
    place: usize,
}

impl Model for SteadySource {
    ghost use Rattle.std.specs.Prelude.{List, ℕ, drop, length, ◌≤◌};

    ghost Value = { List ℕ };

    ghost view = { λ s. drop s.place s.bytes.items };

    ghost invariant = { λ s. s.place ≤ length s.bytes.items };
}

impl SteadySource {
    /// A source of these bytes.
    pub fn new(_alloc: Global, bytes: Vec<u8>) -> Result<Self, AllocError>
        ensures { IfOk result (λ source. source ≡ bytes.items) }
    {
        Ok(SteadySource { bytes, place: 0 })
    }
}

impl Source for SteadySource {
    ghost use Rattle.std.specs.declared.option.Option.TheVariants.{Some};

    ghost left = { λ s. Some s };

    ghost faults = { λ _. 0 };

    fn read(&mut self, buf: &mut [u8]) -> Result<usize, ReadFailed>
        requires { 0 < length buf.old }

        ensures steady { IsOk result }
        ensures count { IfOk result (λ count. count ≡ min (length self.old) (length buf.new)) }
        ensures moved { IfOk result (λ count. self.old ≡ take count buf.new ++ self.new) }
        ensures end { IfOk result (λ count. count ≡ 0 → self.new ≡ []) }
    {
        let rest = &self.bytes.as_slice()[self.place..];
        let count = move_front(rest, buf);
        self.place += count;
        Ok(count)
    }
}

/// Moves as many bytes as fit to the front of a buffer.
fn move_front(from: &[u8], to: &mut [u8]) -> usize
    ensures count { result ≡ min (length from.now) (length to.old) }
    ensures moved { from.now ≡ take result to.new ++ drop result from.now }
{
    let count = from.len().min(to.len());
    to[..count].copy_from_slice(&from[..count]);
    count
}

/// Bytes in memory that writes append to, which contracts see as their list.
#[derive(Drop, Debug)]
pub struct SteadySink {
    bytes: Vec<u8>,
}

impl Model for SteadySink {
    ghost use Rattle.std.specs.Prelude.{List, ℕ};

    ghost Value = { List ℕ };

    ghost view = { λ s. s.bytes.items };
}

impl SteadySink {
    /// A sink that holds nothing.
    pub fn new(alloc: Global) -> Result<Self, AllocError>
        ensures { IfOk result (λ sink. sink ≡ []) }
    {
        Ok(SteadySink {
            bytes: Vec::new(alloc),
        })
    }

    /// The bytes written.
    pub fn held(&self) -> &[u8]
        ensures { result.now ≡ self.now }
    {
        self.bytes.as_slice()
    }
}

impl Sink for SteadySink {
    ghost use Rattle.std.specs.declared.option.Option.TheVariants.{Some};

    ghost held = { λ s. Some s };

    ghost faults = { λ _. 0 };

    fn write(&mut self, _alloc: Global, bytes: &[u8]) -> Result<usize, SinkFault>
        requires { 0 < length bytes.now }

        ensures all { IfOk result (λ count. count ≡ length bytes.now) }
        ensures appended { IfOk result (λ _. self.new ≡ self.old ++ bytes.now) }
        ensures memory { IfErr result (λ fault. fault ≡ SinkFault.OutOfMemory) }
        ensures kept { OnErr result (self.new ≡ self.old) }
    {
        match self.bytes.extend_from_slice(bytes) {
            Ok(()) => Ok(bytes.len()),
            Err(_) => Err(SinkFault::OutOfMemory),
        }
    }
}

/// Bytes in memory under paths, which contracts see as the map from the paths.
#[derive(Drop, Debug)]
pub struct SteadyKeeper {
    files: BTreeMap<String, Vec<u8>>,
}

impl Model for SteadyKeeper {
    ghost use Rattle.std.specs.Prelude.{List, map};
    ghost use Rattle.io_ports.specs.Places.{Stored, stored};

    ghost Value = { List Stored };

    ghost view = { λ s. map stored s.files.entries };
}

impl SteadyKeeper {
    /// A keeper that has no path.
    pub fn new(alloc: Global) -> Result<Self, AllocError>
        ensures { IfOk result (λ keeper. keeper ≡ []) }
    {
        Ok(SteadyKeeper {
            files: BTreeMap::new(alloc),
        })
    }

    /// The bytes under a path.
    pub fn get(&self, path: &str) -> Option<&[u8]>
        ensures { option_map (λ bytes. bytes.now) result ≡ found self.now path.now }
    {
        match self.files.get(path) {
            Some(bytes) => Some(bytes.as_slice()),
            None => None,
        }
    }
}

impl Keeper for SteadyKeeper {
    ghost kept = { λ s path. Some (found s path) };

    ghost faults = { λ _. 0 };

    fn read_all(&mut self, alloc: Global, path: &str) -> Result<Held, KeepFault>
        ensures held { IfOk result (λ held. IsHeld (found self.old path.now) held) }
        ensures within { IfOk result (λ held. IsWithin held) }
        ensures memory { IfErr result (λ fault. fault ≡ KeepFault.OutOfMemory) }
        ensures same { self.new ≡ self.old }
    {
        match self.get(path) {
            None => Ok(Held::Absent),
            Some(bytes) if MOST_HELD < bytes.len() => Ok(Held::TooLong),
            Some(bytes) => match Vec::from_slice(alloc, bytes) {
                Ok(copy) => Ok(Held::Bytes(copy)),
                Err(_) => Err(KeepFault::OutOfMemory),
            },
        }
    }

    fn replace(&mut self, alloc: Global, path: &str, bytes: &[u8]) -> Result<(), KeepFault>
        ensures replaced { OnOk result (found self.new path.now ≡ Some bytes.now) }
        ensures others { (other : List ℕ) → other ≢ path.now → found self.new other ≡ found self.old other }
        ensures memory { IfErr result (λ fault. fault ≡ KeepFault.OutOfMemory) }
        ensures kept { OnErr result (found self.new path.now ≡ found self.old path.now) }
    {
        let Ok(path) = String::from_str(alloc, path) else {
            return Err(KeepFault::OutOfMemory);
        };
        let Ok(bytes) = Vec::from_slice(alloc, bytes) else {
            return Err(KeepFault::OutOfMemory);
        };
        match self.files.insert(path, bytes) {
            Ok(_) => Ok(()),
            Err(_) => Err(KeepFault::OutOfMemory),
        }
    }
}
