//! What was emitted so far.
ghost use Rattle.std.specs.Prelude.{◌≡◌, ◌<◌, ◌≤◌, [], OnOk, IfOk, length, map};
ghost use Rattle.c_lower_rules.specs.Temporaries.{take_temp, released};
ghost use Rattle.c_types_names.specs.Seen.{type_seen};
ghost use Rattle.c_lower_emit.specs.Seen.{loop_seen, temp_seen};
ghost use Rattle.c_lower_emit.specs.Emitting.{LeadsWhereFails, LeadsWhereHolds, led_out, with_draft, with_loop};
ghost use Rattle.c_lower_emit.specs.Drafts.{as_they_are, next_at};
ghost use Rattle.c_lower_emit.specs.declared.drafts.Label.TheVariants.{At};

use crate::draft_list::DraftList;
use crate::drafts::{Draft, Label, Ways};
use crate::loops::Loop;
use crate::temps::{Temp, Temps};
use crate::visible_slots::VisibleSlots;
use c_types_names::kinds::CType;
use shape_data::program::Cmd;
use std::alloc::{AllocError, Global};
use std::marker::Model;

/// Nodes, temporaries and loops.
#[derive(Drop)]
pub struct Output<'a> {
    nodes: DraftList,
    temps: Temps<'a>,
    loops: Vec<Loop>,
}

/// The nodes, temporaries and loops of an output.
#[derive(Drop)]
pub struct Parts<'a> {
    pub nodes: Vec<Draft>,
    pub temps: Vec<Temp<'a>>,
    pub loops: Vec<Loop>,
}

impl<'a> Model for Output<'a> {
    ghost use Rattle.std.specs.Prelude.{map};
    ghost use Rattle.c_lower_emit.specs.Emitting.{Out};
    ghost use Rattle.c_lower_emit.specs.Seen.{loop_seen};

    ghost Value = { Out };

    ghost view = { λ o. record { nodes = o.nodes; temps = o.temps; loops = map loop_seen o.loops.items } };
}

impl<'a> Output<'a> {
    /// Nothing was emitted.
    pub fn new(alloc: Global) -> Output<'a>
        ensures { result ≡ record { nodes = []; temps = []; loops = [] } }
    {
        Output {
            nodes: DraftList::new(alloc),
            temps: Temps::new(alloc),
            loops: Vec::new(alloc),
        }
    }

    /// The nodes, temporaries and loops.
    pub fn into_parts(self) -> Parts<'a>
        ensures { self.entry ≡ record {
          nodes = result.nodes.items;
          temps = map temp_seen result.temps.items;
          loops = map loop_seen result.loops.items;
        } }
    {
        Parts {
            nodes: self.nodes.into_vec(),
            temps: self.temps.into_vec(),
            loops: self.loops,
        }
    }

    /// How many nodes there are.
    pub fn len(&self) -> usize
        ensures { result ≡ length self.now.nodes }
    {
        self.nodes.len()
    }

    /// The place of the next node.
    pub fn here(&self) -> u32
        ensures { length self.now.nodes < 4294967296 → result ≡ length self.now.nodes }
    {
        u32::try_from(self.nodes.len()).unwrap_or(u32::MAX)
    }

    /// With one more node.
    pub fn push(&mut self, line: u32, cmd: Cmd, next: Label, other: Label) -> Result<(), AllocError>
        ensures { OnOk result (self.new ≡ with_draft line cmd next other self.old) }
    {
        self.nodes.push(Draft {
            line,
            cmd,
            next,
            other,
        })?;
        Ok(())
    }

    /// Replaces each exit of the nodes from one place to another.
    pub fn redirect(&mut self, from: usize, past: usize, ways: Ways)
        ensures { from ≤ past → past ≤ length self.old.nodes → self.new ≡ led_out from past ways self.old }
    {
        self.nodes.redirect(from, past, ways);
    }

    /// The test that begins at a place goes on at the next node where it holds. For a chain of tests that begin there, where each is led
    /// on so to the first node of the next, the cost of all is the number of their nodes; but where an operand has a chain of its own
    /// behind its first node, the next operator looks at all again.
    pub fn lead_holds(&mut self, from: usize)
        ensures { LeadsWhereHolds from self.old self.new }
    {
        let here = self.here();
        self.nodes.lead_holds(from, here);
    }

    /// The same, where it doesn't hold.
    pub fn lead_fails(&mut self, from: usize)
        ensures { LeadsWhereFails from self.old self.new }
    {
        let here = self.here();
        self.nodes.lead_fails(from, here);
    }

    /// The pieces from one place to another go on where what follows begins.
    pub fn lead_next(&mut self, from: usize, past: usize, begin: Label)
        ensures { from ≤ past → past ≤ length self.old.nodes → self.new ≡ led_out from past (next_at begin) self.old }
    {
        self.nodes.lead_next(from, past, begin);
    }

    /// How many loops there are.
    pub fn loops_len(&self) -> usize
        ensures { result ≡ length self.now.loops }
    {
        self.loops.len()
    }

    /// Adds a loop, whose nodes are those from its head on, at a place among the loops.
    pub fn add_loop(
        &mut self,
        place: usize,
        head: u32,
        visible: VisibleSlots,
    ) -> Result<(), AllocError>
        ensures { OnOk result (place ≤ length self.old.loops → length self.old.nodes < 4294967296
            → self.new ≡ with_loop place (record { head = head; past = length self.old.nodes; visible = visible }) self.old) }
    {
        let past = self.here();
        self.loops.insert(
            place.min(self.loops.len()),
            Loop {
                head,
                past,
                visible,
            },
        )?;
        Ok(())
    }

    /// Takes a temporary of the type for the statement or condition at hand, and gives its place among the temporaries.
    pub fn take(&mut self, kind: CType<'a>) -> Result<u32, AllocError>
        ensures temps { OnOk result (self.new ≡ record self.old { temps = (take_temp (type_seen kind.entry) self.old.temps).temps }) }
        ensures place { IfOk result (λ place. length self.old.temps < 4294967296
            → place ≡ (take_temp (type_seen kind.entry) self.old.temps).place) }
    {
        let place = self.temps.take(kind)?;
        Ok(u32::try_from(place).unwrap_or(u32::MAX))
    }

    /// No temporary is used any longer.
    pub fn release(&mut self)
        ensures { self.new ≡ record self.old { temps = released self.old.temps } }
    {
        self.temps.release();
    }
}
