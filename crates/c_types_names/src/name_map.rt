//! Things by their names. Each map by name of the checker and of lowering is one of these: a tree in the order of numbers that are made of
//! the names, their digests, so that long names which are alike but for their ends are told apart at once. Whoever writes the C file can
//! choose names that have one digest: all but the first of those are in a second tree, in the order of their bytes.
//!
//! Names that are alike but for their last bytes, as those of a file mostly are, have digests near to one another and mostly in the order
//! of the names, so that those which stand near to one another in the file are neighbours in the tree.
ghost use Rattle.std.specs.Prelude.{◌≡◌, ℕ, List, None, IfOk, OnOk, OnErr};
ghost use Rattle.std.specs.BTreeMap.{get_by};
ghost use Rattle.std.specs.Cmp.Lexicographic.{slice_cmp};
ghost use Rattle.std.specs.Option.{option_copied};
ghost use Rattle.std.specs.Ordering.{nat_cmp};
ghost use Rattle.std.specs.Str.{bytes_eq};
ghost use Rattle.c_types_names.specs.NameMap.{digest, is_first, named, or_first, or_last};

use c_tree::Name;
use std::alloc::{AllocError, Global};
use std::collections::BTreeMap;

/// The digest of a name: a polynomial of its bytes, in 64 bits (Knuth, The Art of Computer Programming, volume 3, 6.4). Its factor is small
/// and odd, so that the last bytes change little of it, and above all byte values of names, so that names of ASCII letters, digits and
/// underscores which are alike but for their last nine bytes have different digests.
fn digest(bytes: &[u8]) -> u64
    ensures { result ≡ digest bytes.now }
{
    let mut number: u64 = 0;
    for byte in bytes {
        number = number.wrapping_mul(131).wrapping_add(u64::from(*byte));
    }
    number
}

/// The first name with its digest that was put into a map, and its thing.
#[derive(Drop)]
struct First<'a, T> {
    name: &'a [u8],
    thing: T,
}

/// A thing for each of some names. Among n names each call below compares O(log n) digests and O(log n) names, and no more than two names
/// where no two have one digest.
#[derive(Drop)]
pub struct NameMap<'a, T> {
    firsts: BTreeMap<u64, First<'a, T>>,
    others: BTreeMap<&'a [u8], T>,
}

impl<'a, T> NameMap<'a, T> {
    /// No name has a thing.
    pub fn new(alloc: Global) -> NameMap<'a, T>
        ensures { (n : List ℕ) → named result n ≡ None }
    {
        NameMap {
            firsts: BTreeMap::new(alloc),
            others: BTreeMap::new(alloc),
        }
    }

    /// The thing of the name, if there is one.
    pub fn get(&self, name: &Name) -> Option<&T>
        ensures { option_copied result ≡ named self.now name.now }
    {
        let bytes = name.as_bytes();
        match self.firsts.get(&digest(bytes)) {
            None => self.others.get(bytes),
            Some(first) => {
                if first.name == bytes {
                    Some(&first.thing)
                } else {
                    self.others.get(bytes)
                }
            }
        }
    }

    /// Whether the name is the first one with its digest, or is not there and would be it.
    fn is_first(&self, number: u64, bytes: &[u8]) -> bool
        requires { number ≡ digest bytes.now }
        ensures { result ≡ is_first (get_by (nat_cmp number) self.now.firsts) bytes.now
            (get_by (λ k. slice_cmp nat_cmp bytes.now k.now) self.now.others) }
    {
        match self.firsts.get(&number) {
            None => !self.others.contains_key(bytes),
            Some(first) => first.name == bytes,
        }
    }
}

impl<'a, T: Copy> NameMap<'a, T> {
    /// A copy of the thing of the name, if there is one.
    pub fn named(&self, name: &Name) -> Option<T>
        ensures { result ≡ named self.now name.now }
    {
        self.get(name).copied()
    }
}

impl<'a, T: Drop> NameMap<'a, T> {
    /// Makes a thing that of the name, and gives the one that was, if there was one. Only where there was none can this fail, for want of
    /// memory, and then nothing has changed.
    pub fn replace(&mut self, name: &'a Name, thing: T) -> Result<Option<T>, AllocError>
        ensures old { IfOk result (λ old. old ≡ named self.old name.now) }
        ensures thing { OnOk result ((n : List ℕ) → named self.new n ≡ or_last (named self.old n) (bytes_eq name.now n) thing) }
        ensures same { OnErr result ((n : List ℕ) → named self.new n ≡ named self.old n) }
        ensures absent { OnErr result (named self.old name.now ≡ None) }
    {
        let bytes = name.as_bytes();
        let number = digest(bytes);
        if self.is_first(number, bytes) {
            let first = First { name: bytes, thing };
            match self.firsts.insert(number, first)? {
                None => Ok(None),
                Some(old) => Ok(Some(old.thing)),
            }
        } else {
            let old = self.others.insert(bytes, thing)?;
            Ok(old)
        }
    }

    /// Makes a thing that of the name, whether there is one or not. Only where there is none can this fail, for want of memory, and then
    /// nothing has changed.
    pub fn set(&mut self, name: &'a Name, thing: T) -> Result<(), AllocError>
        ensures thing { OnOk result ((n : List ℕ) → named self.new n ≡ or_last (named self.old n) (bytes_eq name.now n) thing) }
        ensures same { OnErr result ((n : List ℕ) → named self.new n ≡ named self.old n) }
        ensures absent { OnErr result (named self.old name.now ≡ None) }
    {
        self.replace(name, thing)?;
        Ok(())
    }

    /// Makes a thing that of the name, unless there is one. Only where there is none can this fail, for want of memory, and then nothing
    /// has changed.
    pub fn add_first(&mut self, name: &'a Name, thing: T) -> Result<(), AllocError>
        ensures thing { OnOk result ((n : List ℕ) → named self.new n ≡ or_first (named self.old n) (bytes_eq name.now n) thing) }
        ensures same { OnErr result ((n : List ℕ) → named self.new n ≡ named self.old n) }
        ensures absent { OnErr result (named self.old name.now ≡ None) }
    {
        // what was there is put back, so that a new name is looked for once
        if let Some(old) = self.replace(name, thing)? {
            self.set(name, old).unwrap();
        }
        Ok(())
    }
}
