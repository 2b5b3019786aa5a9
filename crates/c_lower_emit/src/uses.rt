//! The uses of an expression: for its value, into a slot, as a test.
ghost use Rattle.std.specs.Prelude.{◌≡◌, ◌+◌, ◌<◌, List, length, IfOk, OnOk, pos};
ghost use Rattle.shape_data.specs.declared.program.Cmd.TheVariants as cmd;
ghost use Rattle.shape_data.specs.declared.program.Operand.TheVariants.{Num};
ghost use Rattle.shape_data.specs.declared.program.TestOp.TheVariants as test;
ghost use Rattle.c_lower_rules.specs.Code.{command, branch};
ghost use Rattle.c_lower_rules.specs.Temporaries as temporaries;
ghost use Rattle.c_lower_rules.specs.Contexts.{Context};
ghost use Rattle.c_lower_rules.specs.Values.{Making, Tested, is_pointer, at_hand, made, put_truth};
ghost use Rattle.c_types_names.specs.Seen.{type_seen};
ghost use Rattle.c_lower_emit.specs.declared.drafts.Label.TheVariants.{At};
ghost use Rattle.c_lower_emit.specs.Emitting.{
  Out,
  HasRoom,
  EmitsTest,
  EmitsCode,
  Emits,
  IsMadeValue,
  EmitsMaking,
  BeginsTruth,
  EndsTruth,
};

use crate::drafts::{AS_THEY_ARE, Label, Ways, put_to};
use crate::output::Output;
use c_types_names::kinds::CType;
use shape_data::program::{Cmd, Operand, TestOp};
use std::alloc::AllocError;

/// What is wanted of an expression.
#[derive(Clone, Copy)]
pub enum Use {
    /// Its value, as an operand.
    Value,
    /// Its value, in the slot.
    Into(u32),
    /// Whether it is not 0.
    Test,
}

/// Where code is emitted: the first slot of the temporaries, and the line that nodes get, counted from 0 at that of the procedure.
#[derive(Clone, Copy)]
pub struct Spot {
    pub first_temp: u32,
    pub line: u32,
}

/// Whether the type is that of a pointer.
pub fn is_pointer(kind: CType) -> bool
    ensures { result ≡ is_pointer (type_seen kind.entry) }
{
    match kind {
        CType::Int => false,
        CType::Pointer(_) => true,
        CType::Void => false,
    }
}

impl<'a> Output<'a> {
    /// A number or a variable of the type: there is nothing to compute.
    pub fn at_hand(
        &mut self,
        spot: Spot,
        kind: CType<'a>,
        operand: Operand,
        used: Use,
    ) -> Result<Operand, AllocError>
        ensures { IfOk result (λ found. (c : Context) → c.line ≡ spot.line
            → Emits used (at_hand c (type_seen kind.entry) operand) spot.first_temp self.old self.new found) }
    {
        match used {
            Use::Value => Ok(operand),
            Use::Into(to) => {
                let from = operand;
                let copy = Cmd::Copy { to, from, next: 0 };
                self.push(spot.line, copy, Label::Next, Label::Next)?;
                Ok(operand)
            }
            Use::Test => {
                self.push_not_zero(spot, kind, operand)?;
                Ok(operand)
            }
        }
    }

    /// The test that the value of the type is not 0.
    fn push_not_zero(
        &mut self,
        spot: Spot,
        kind: CType<'a>,
        operand: Operand,
    ) -> Result<(), AllocError>
        ensures { OnOk result ((c : Context) → c.line ≡ spot.line
            → EmitsTest (branch c.line test.Ne (is_pointer (type_seen kind.entry)) operand (Num (pos 0)))
            self.old.temps self.old self.new) }
    {
        self.push_branch(spot, TestOp::Ne, is_pointer(kind), operand, Operand::Num(0))
    }

    /// A comparison.
    pub fn push_branch(
        &mut self,
        spot: Spot,
        op: TestOp,
        pointers: bool,
        left: Operand,
        right: Operand,
    ) -> Result<(), AllocError>
        ensures { OnOk result ((c : Context) → c.line ≡ spot.line
            → EmitsTest (branch c.line op pointers left right) self.old.temps self.old self.new) }
    {
        let branch = Cmd::Branch {
            op,
            pointers,
            left,
            right,
            yes: 0,
            no: 0,
        };
        self.push(spot.line, branch, Label::Holds, Label::Fails)
    }

    /// The value that a command makes, in a temporary of the type.
    fn make_value(&mut self, spot: Spot, kind: CType<'a>, cmd: Cmd) -> Result<Operand, AllocError>
        ensures { IfOk result (λ operand. HasRoom spot.first_temp 1 self.old
            → IsMadeValue spot.first_temp spot.line (type_seen kind.entry) cmd self.old self.new operand) }
    {
        let place = self.take(kind)?;
        let slot = spot.first_temp.saturating_add(place);
        let behind = self.here().saturating_add(1);
        // only a test has a second way on: no exit is left there that each sign before the value would look at
        let next = Label::At(behind);
        self.push(spot.line, put_to(cmd, slot), next, next)?;
        Ok(Operand::Slot(slot))
    }

    /// Puts the value of the type that a command makes where it is wanted, behind the code before that command.
    pub fn make(
        &mut self,
        spot: Spot,
        kind: CType<'a>,
        cmd: Cmd,
        used: Use,
    ) -> Result<Operand, AllocError>
        ensures { IfOk result (λ found. (c : Context) → c.line ≡ spot.line → c.first_temp ≡ spot.first_temp
            → (making : List temporaries.Temp → Making) → (before : Out)
            → EmitsMaking (making before.temps) cmd spot.first_temp before self.old
            → Emits used (made c (type_seen kind.entry) making) spot.first_temp before self.new found) }
    {
        match used {
            Use::Value => self.make_value(spot, kind, cmd),
            Use::Into(to) => {
                self.push(spot.line, put_to(cmd, to), Label::Next, Label::Next)?;
                Ok(Operand::Slot(to))
            }
            Use::Test => {
                let operand = self.make_value(spot, kind, cmd)?;
                self.push_not_zero(spot, kind, operand)?;
                Ok(operand)
            }
        }
    }

    /// Before a test: the slot that takes its value.
    pub fn begin_truth(&mut self, spot: Spot, used: Use) -> Result<u32, AllocError>
        ensures { IfOk result (λ to. BeginsTruth used spot.first_temp self.old self.new to) }
    {
        match used {
            Use::Value => {
                let place = self.take(CType::Int)?;
                Ok(spot.first_temp.saturating_add(place))
            }
            Use::Into(to) => Ok(to),
            Use::Test => Ok(0),
        }
    }

    /// Puts 1 into the slot where the test holds that begins at a place, and 0 where it doesn't.
    fn put_truth(&mut self, spot: Spot, to: u32, from: usize) -> Result<(), AllocError>
        ensures { OnOk result ((c : Context) → c.line ≡ spot.line → (tested : Tested) → (start : Out) → from ≡ length start.nodes
            → length start.nodes + (tested.test.size + 2) < 4294967296 → EmitsTest tested.test tested.temps start self.old
            → EmitsCode (put_truth c to tested).code tested.temps (At (length start.nodes)) start self.new) }
    {
        let past = self.len();
        let holds = self.here();
        self.push_number(spot, to, 1)?;
        let fails = self.here();
        self.push_number(spot, to, 0)?;
        let ways = Ways {
            holds: Label::At(holds),
            fails: Label::At(fails),
            ..AS_THEY_ARE
        };
        self.redirect(from, past, ways);
        Ok(())
    }

    /// Puts the number into the slot.
    fn push_number(&mut self, spot: Spot, to: u32, number: i32) -> Result<(), AllocError>
        ensures { OnOk result ((c : Context) → c.line ≡ spot.line
            → EmitsCode (command c.line (cmd.Copy to (Num number))) self.old.temps (At (length self.old.nodes)) self.old self.new) }
    {
        let copy = Cmd::Copy {
            to,
            from: Operand::Num(number),
            next: 0,
        };
        self.push(spot.line, copy, Label::Next, Label::Next)
    }

    /// Behind a test that begins at a place: its value, where that is wanted.
    pub fn end_truth(
        &mut self,
        spot: Spot,
        to: u32,
        from: usize,
        used: Use,
    ) -> Result<Operand, AllocError>
        ensures { IfOk result (EndsTruth used spot to from self.old self.new) }
    {
        match used {
            Use::Value => {
                self.put_truth(spot, to, from)?;
                let ways = Ways {
                    next: Label::At(self.here()),
                    ..AS_THEY_ARE
                };
                let past = self.len();
                self.redirect(from, past, ways);
                Ok(Operand::Slot(to))
            }
            Use::Into(_) => {
                self.put_truth(spot, to, from)?;
                Ok(Operand::Slot(to))
            }
            Use::Test => Ok(Operand::Slot(to)),
        }
    }
}
