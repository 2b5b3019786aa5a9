//! A list of values of one type, over std's `Vec`. Contracts see a row as the list of its values, without the
//! capacity and the pointer of a `Vec`, so that two rows with the same values are the same: the ground on which
//! "the same program", "the same key" and "the same answer" stand.
ghost use Rattle.std.specs.Prelude.{◌≡◌, ◌==◌, ◌+◌, ◌-◌, ◌^◌, ◌<◌, ◌≤◌, ◌++◌, ◌∷◌, []};
ghost use Rattle.std.specs.Prelude.{length, insert, remove, slice_set, slice_get, Some, OnOk, OnErr};
ghost use Rattle.std.specs.Iterator.Adapters.{IterYieldsInOrder, IterYieldsInReverse};
ghost use Rattle.std.specs.Iterator.Runs.{EveryRun, ItemsMapTo};
ghost use Rattle.std.specs.Option.{option_copied};
ghost use Rattle.std.specs.Slice.{IsItemAt, IsGetResult};
ghost use Rattle.std.specs.Slice.Iter.{iter_rest, iter_steps};

use crate::exact::Exact;
use std::alloc::{AllocError, Global};
use std::cmp::Ordering;
use std::marker::Model;
use std::ops::DerefSlice;
use std::{fmt, slice};

/// Values in order, which contracts see as their list. Places count from 0.
///
/// A row derefs to the slice of its values, so `row[place]` and the methods of slices work on it.
#[derive(Drop)]
pub struct Row<T> {
    items: Vec<T>,
}

impl<T> Model for Row<T> {
    ghost use Rattle.std.specs.Prelude.{List};

    ghost Value = { List T };

    ghost view = { λ r. r.items.items };
}

impl<T> Row<T> {
    /// The empty row, which takes no memory.
    pub fn new(alloc: Global) -> Self
        ensures { result ≡ [] }
    {
        Row {
            items: Vec::new(alloc),
        }
    }

    /// The row of a vector's values. It takes no memory.
    pub fn from_vec(items: Vec<T>) -> Self
        ensures { result ≡ items.items }
    {
        Row { items }
    }

    /// The vector of the values. It takes no memory.
    pub fn into_vec(self) -> Vec<T>
        ensures { result.items ≡ self }
    {
        let Row { items } = self;
        items
    }

    /// The values.
    pub fn as_slice(&self) -> &[T]
        ensures { result.now ≡ self.now }
    {
        self.items.as_slice()
    }

    /// How many values there are.
    pub fn len(&self) -> usize
        ensures { result ≡ length self.now }
    {
        self.items.len()
    }

    /// Whether there is no value.
    pub fn is_empty(&self) -> bool
        ensures { result ≡ (length self.now == 0) }
    {
        self.items.is_empty()
    }

    /// The value at a place, if there is one.
    pub fn get(&self, place: usize) -> Option<&T>
        ensures value { option_copied result ≡ slice_get self.now place }
        ensures item { IsItemAt self.now place result }
    {
        self.items.as_slice().get(place)
    }

    /// The first value, if there is one.
    pub fn first(&self) -> Option<&T>
        ensures value { option_copied result ≡ slice_get self.now 0 }
        ensures item { IsItemAt self.now 0 result }
    {
        self.items.as_slice().first()
    }

    /// The last value, if there is one.
    pub fn last(&self) -> Option<&T>
        ensures value { option_copied result ≡ slice_get self.now (length self.now - 1) }
        ensures item { IsGetResult self.now 0 (length self.now - 1) result }
    {
        self.items.as_slice().last()
    }

    /// The values in order.
    pub fn iter(&self) -> slice::Iter<'_, T>
        ensures rest { iter_rest result ≡ self.now }
        ensures len { length (iter_rest result) ≡ length self.now }
        ensures bound { length (iter_rest result) < 2 ^ 64 }
        ensures runs { IterYieldsInOrder T }
        ensures runs_back { IterYieldsInReverse T }
    {
        self.items.as_slice().iter()
    }

    /// Writes the value at a place, and drops the one that stood there.
    pub fn set(&mut self, place: usize, value: T)
    where
        T: Drop,
        requires { place < length self.old }
        ensures { self.new ≡ slice_set self.old place value }
    {
        self.items[place] = value;
    }

    /// Puts a value at the end. On an error the value is dropped.
    pub fn push(&mut self, value: T) -> Result<(), AllocError>
    where
        T: Drop,
        ensures ok { OnOk result (self.new ≡ self.old ++ value ∷ []) }
        ensures len { OnOk result (length self.new ≡ length self.old + 1) }
        ensures err { OnErr result (self.new ≡ self.old) }
    {
        self.items.push(value)?;
        Ok(())
    }

    /// Puts a value in at a place, before the one that stands there. On an error the value is dropped.
    pub fn insert(&mut self, place: usize, value: T) -> Result<(), AllocError>
    where
        T: Drop,
        requires { place ≤ length self.old }
        ensures ok { OnOk result (self.new ≡ insert self.old place value) }
        ensures len { OnOk result (length self.new ≡ length self.old + 1) }
        ensures err { OnErr result (self.new ≡ self.old) }
    {
        self.items.insert(place, value)?;
        Ok(())
    }

    /// Takes the value at a place out, and moves the later ones down.
    pub fn remove(&mut self, place: usize) -> T
        requires { place < length self.old }
        ensures value { slice_get self.old place ≡ Some result }
        ensures rest { self.new ≡ remove self.old place }
        ensures len { length self.new + 1 ≡ length self.old }
    {
        self.items.remove(place)
    }
}

impl<T> DerefSlice for Row<T> {
    type Elem = T;

    ghost deref_gives = { λ row values. values ≡ row };

    fn deref(&self) -> &[T] {
        self.as_slice()
    }
}

impl<T> From<Vec<T>> for Row<T> {
    ghost from_gives = { λ items row. row ≡ items.items };

    fn from(items: Vec<T>) -> Self {
        Self::from_vec(items)
    }
}

impl<'a, T> IntoIterator for &'a Row<T> {
    type Item = &'a T;

    type IntoIter = slice::Iter<'a, T>;

    ghost into_iter_gives = { λ row values. (iter_rest values ≡ row.now) × (length (iter_rest values) < 2 ^ 64)
        × EveryRun (iter_steps {A = T}) (λ run. ItemsMapTo run (λ value. value.now) (iter_rest run.from)) };

    fn into_iter(self) -> slice::Iter<'a, T> {
        self.iter()
    }
}

impl<T: PartialEq> PartialEq for Row<T> {
    ghost use Rattle.std.specs.Cmp.Lexicographic.{pointwise, lists_per};

    ghost eq = { pointwise T.eq };

    ghost laws = { lists_per T.laws };

    fn eq(&self, other: &Row<T>) -> bool {
        self.items == other.items
    }
}

impl<T: Eq> Eq for Row<T> {
    ghost use Rattle.std.specs.Cmp.Lexicographic.{lists_equiv};

    ghost laws = { lists_equiv T.Eq.laws };
}

impl<T: PartialOrd> PartialOrd for Row<T> {
    ghost use Rattle.std.specs.Cmp.Lexicographic.{slice_partial_cmp, lists_po};

    ghost partial_cmp = { slice_partial_cmp T.partial_cmp };

    ghost laws = { lists_po T.PartialOrd.laws };

    fn partial_cmp(&self, other: &Row<T>) -> Option<Ordering> {
        self.items.as_slice().partial_cmp(&other.items.as_slice())
    }
}

impl<T: Ord> Ord for Row<T> {
    ghost use Rattle.std.specs.Cmp.Lexicographic.{slice_cmp, lists_total, lists_agrees, lists_ties};

    ghost cmp = { slice_cmp T.cmp };

    ghost total = { lists_total T.total };

    ghost matches_partial_cmp = { lists_agrees T.matches_partial_cmp };

    ghost matches_eq = { lists_ties T.cmp T.matches_eq };

    fn cmp(&self, other: &Row<T>) -> Ordering {
        self.items.as_slice().cmp(&other.items.as_slice())
    }
}

impl<T: Clone> Clone for Row<T> {
    ghost use Rattle.std.specs.List.{AllZip};

    ghost is_clone = { AllZip T.is_clone };

    fn clone(&self) -> Result<Row<T>, AllocError> {
        Ok(Row {
            items: self.items.clone()?,
        })
    }
}

impl<T: Exact> Exact for Row<T> {
    ghost use Rattle.shape_data.specs.Exact.{row_same, row_copied};

    ghost eq_is_same = { row_same T.eq_is_same };

    ghost clone_is_same = { row_copied T.clone_is_same };
}

impl<T: fmt::Debug> fmt::Debug for Row<T> {
    fn fmt<W: fmt::Write>(&self, f: &mut fmt::Formatter<W>) -> fmt::Result {
        f.debug_list().entries(self.as_slice()).finish()
    }
}
