//! Variables and their slots in the order in which they were declared, found by their names.
ghost use Rattle.std.specs.Prelude.{◌≡◌, ◌<◌, ◌-◌, ◌++◌, ◌∷◌, [], length, map, take, OnOk, OnErr, IfOk};
ghost use Rattle.c_lower_rules.specs.Contexts.{slot_in, slot_of_bound};
ghost use Rattle.c_lower_exprs.specs.Seen.{stacked};
ghost use Rattle.c_lower_exprs.specs.Slots.{IsBound, slot_found, bound_of};

use c_lower_emit::visible_slots::VisibleSlots;
use c_tree::Name;
use c_types_names::name_map::NameMap;
use std::alloc::{AllocError, Global};
use std::marker::Model;

/// A variable, and its slot.
#[derive(Clone, Copy)]
pub struct Bound<'a> {
    pub name: &'a Name,
    pub slot: u32,
}

/// A variable that was declared, and the slot that its name had before, if any.
#[derive(Clone, Copy)]
struct Declared<'a> {
    bound: Bound<'a>,
    hidden: Option<u32>,
}

/// The slot of each name: one that has ever been declared has an entry, which is None where none of its variables is left.
type SlotsOfNames<'a> = NameMap<'a, Option<u32>>;

/// Variables and their slots, the innermost one last. To find, to add and to forget one takes O(log n) comparisons of names, where n names
/// have been declared. The slots are also kept as a list of their own, so that a copy of it looks at no variable.
pub struct Slots<'a> {
    all: Vec<Declared<'a>>,
    of_names: SlotsOfNames<'a>,
    visible: VisibleSlots,
}

impl<'a> Model for Slots<'a> {
    ghost use Rattle.std.specs.Prelude.{List, map};
    ghost use Rattle.c_lower_exprs.specs.declared.slots.Bound.{Bound};
    ghost use Rattle.c_lower_exprs.specs.Slots.{IsBound, bound_of};

    ghost Value = { List Bound };

    ghost view = { λ s. map bound_of s.all.items };

    ghost invariant = { λ s. IsBound s.all.items s.of_names s.visible };
}

// Written out, so that callers' proofs take the end of the slots as one call.
impl<'a> Drop for Slots<'a> {
    fn drop(self) {
        let Slots {
            all: _all,
            of_names: _of_names,
            visible: _visible,
        } = self;
    }
}

/// The slot of the name, if it has one.
fn slot_found<'a>(of_names: &SlotsOfNames<'a>, name: &Name) -> Option<u32>
    ensures { result ≡ slot_found of_names.now name.now }
{
    of_names.named(name)?
}

/// Forgets the last variable.
fn forget_last<'a>(
    all: &mut Vec<Declared<'a>>,
    of_names: &mut SlotsOfNames<'a>,
    visible: &mut VisibleSlots,
)
    requires bound { IsBound all.old.items of_names.old visible.old }
    requires some { 0 < length all.old.items }
    ensures bound { IsBound all.new.items of_names.new visible.new }
    ensures items { all.new.items ≡ take (length all.old.items - 1) all.old.items }
{
    let last = all.pop().unwrap();
    of_names.set(last.bound.name, last.hidden).unwrap();
    visible.pop();
}

/// Forgets all variables but the first ones.
fn forget_behind<'a>(
    all: &mut Vec<Declared<'a>>,
    of_names: &mut SlotsOfNames<'a>,
    visible: &mut VisibleSlots,
    len: usize,
)
    requires { IsBound all.old.items of_names.old visible.old }
    ensures bound { IsBound all.new.items of_names.new visible.new }
    ensures items { all.new.items ≡ take len all.old.items }
{
    while all.len() > len {
        forget_last(all, of_names, visible);
    }
}

/// Adds a variable.
fn declare<'a>(
    all: &mut Vec<Declared<'a>>,
    of_names: &mut SlotsOfNames<'a>,
    visible: &mut VisibleSlots,
    bound: Bound<'a>,
) -> Result<(), AllocError>
    requires { IsBound all.old.items of_names.old visible.old }
    ensures bound { IsBound all.new.items of_names.new visible.new }
    ensures more { OnOk result (map bound_of all.new.items ≡ map bound_of all.old.items ++ bound.entry ∷ []) }
    ensures same { OnErr result (all.new.items ≡ all.old.items) }
{
    all.reserve(1)?;
    visible.push(bound.slot)?;
    match of_names.replace(bound.name, Some(bound.slot)) {
        Ok(old) => {
            let hidden = old.flatten();
            all.push(Declared { bound, hidden }).unwrap();
            Ok(())
        }
        Err(fault) => {
            visible.pop();
            Err(fault)
        }
    }
}

impl<'a> Slots<'a> {
    /// No variable.
    pub fn new(alloc: Global) -> Slots<'a>
        ensures { result ≡ [] }
    {
        Slots {
            all: Vec::new(alloc),
            of_names: NameMap::new(alloc),
            visible: VisibleSlots::new(alloc),
        }
    }

    /// How many variables there are.
    pub fn len(&self) -> usize
        ensures { result ≡ length self.now }
    {
        self.all.len()
    }

    /// The slot of the last variable of the name, or 0 where there is none.
    pub fn last(&self, name: &Name) -> u32
        ensures { result ≡ slot_in (stacked self.now) name.now }
    {
        slot_found(&self.of_names, name).unwrap_or(0)
    }

    /// The slots of the variables, the last one first.
    pub fn listed(&self, alloc: Global) -> Result<VisibleSlots, AllocError>
        ensures { IfOk result (λ slots. slots ≡ map slot_of_bound (stacked self.now)) }
    {
        self.visible.copy(alloc)
    }

    /// With one more variable.
    pub fn push(&mut self, bound: Bound<'a>) -> Result<(), AllocError>
        ensures more { OnOk result (self.new ≡ self.old ++ bound.entry ∷ []) }
        ensures same { OnErr result (self.new ≡ self.old) }
    {
        declare(&mut self.all, &mut self.of_names, &mut self.visible, bound)
    }

    /// Forgets all variables but the first ones.
    pub fn truncate(&mut self, len: usize)
        ensures { self.new ≡ take len self.old }
    {
        forget_behind(&mut self.all, &mut self.of_names, &mut self.visible, len);
    }
}
