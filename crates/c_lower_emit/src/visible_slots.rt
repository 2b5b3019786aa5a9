//! The slots of the variables in scope, kept as runs of slots that follow one another.
ghost use Rattle.std.specs.Prelude.{◌≡◌, ◌+◌, [], ◌∷◌, drop, OnOk, OnErr, IfOk, IfSome, IfNone};
ghost use Rattle.std.specs.List.{list_any};
ghost use Rattle.c_lower_rules.specs.Marks.{is_listed};
ghost use Rattle.c_lower_emit.specs.VisibleSlots.{slots_of_run};

use std::alloc::{AllocError, Global};
use std::marker::Model;

/// A slot, and so many that follow it, each one more than the one before.
#[derive(Clone, Copy)]
struct Run {
    first: u32,
    more: u32,
}

/// The slots of the variables in scope, the innermost one first. Slots that follow one another are kept as one run, in which the highest
/// slot is the innermost one, so that all variables of a procedure take the memory of a few numbers where none of them leaves a gap. The
/// last run is the innermost one.
#[derive(Drop)]
pub struct VisibleSlots {
    runs: Vec<Run>,
}

impl Model for VisibleSlots {
    ghost use Rattle.std.specs.Prelude.{ℕ, List};
    ghost use Rattle.c_lower_emit.specs.VisibleSlots.{slots_in};

    ghost Value = { List ℕ };

    ghost view = { λ s. slots_in s.runs.items };
}

impl Run {
    /// Whether the slot is one of the run.
    fn has(self, slot: u32) -> bool
        ensures { result ≡ is_listed (slots_of_run self) slot }
    {
        self.first <= slot && slot - self.first <= self.more
    }

    /// The run with one more slot, if that is the next one.
    fn with(self, slot: u32) -> Option<Run>
        ensures { IfSome result (λ run. slots_of_run run ≡ slot ∷ slots_of_run self) }
    {
        if self.first < slot && slot - self.first - 1 == self.more {
            return Some(Run {
                first: self.first,
                more: slot - self.first,
            });
        }
        None
    }

    /// The run without its highest slot, if it has others.
    fn without_last(self) -> Option<Run>
        ensures some { IfSome result (λ run. slots_of_run self ≡ (self.first + self.more) ∷ slots_of_run run) }
        ensures none { IfNone result (slots_of_run self ≡ self.first ∷ []) }
    {
        if self.more == 0 {
            return None;
        }
        Some(Run {
            first: self.first,
            more: self.more - 1,
        })
    }
}

/// Whether the slot is one of some run.
fn some_has(runs: &[Run], slot: u32) -> bool
    ensures { result ≡ list_any (λ run. is_listed (slots_of_run run) slot) runs.now }
{
    runs.iter().any(|run| run.has(slot))
}

impl VisibleSlots {
    /// No slots.
    pub fn new(alloc: Global) -> VisibleSlots
        ensures { result ≡ [] }
    {
        VisibleSlots {
            runs: Vec::new(alloc),
        }
    }

    /// Whether the slot is one of them. It takes a step for each run.
    pub fn contains(&self, slot: u32) -> bool
        ensures { result ≡ is_listed self.now slot }
    {
        some_has(self.runs.as_slice(), slot)
    }

    /// With one more slot, that of a variable within all others. Where memory is wanting, nothing has changed; a slot that follows the
    /// one that was the innermost takes no memory.
    pub fn push(&mut self, slot: u32) -> Result<(), AllocError>
        ensures more { OnOk result (self.new ≡ slot ∷ self.old) }
        ensures same { OnErr result (self.new ≡ self.old) }
    {
        let count = self.runs.len();
        if count > 0 {
            if let Some(run) = self.runs[count - 1].with(slot) {
                self.runs[count - 1] = run;
                return Ok(());
            }
        }
        self.runs.push(Run {
            first: slot,
            more: 0,
        })?;
        Ok(())
    }

    /// Without the slot of the innermost variable, if there is one.
    pub fn pop(&mut self)
        ensures { self.new ≡ drop 1 self.old }
    {
        if let Some(last) = self.runs.pop() {
            if let Some(run) = last.without_last() {
                self.runs.push(run).unwrap();
            }
        }
    }

    /// The same slots once more. It takes memory and a step for each run.
    pub fn copy(&self, alloc: Global) -> Result<VisibleSlots, AllocError>
        ensures { IfOk result (λ slots. slots ≡ self.now) }
    {
        let mut runs = Vec::with_capacity(alloc, self.runs.len())?;
        runs.extend_from_slice(self.runs.as_slice())?;
        Ok(VisibleSlots { runs })
    }
}
