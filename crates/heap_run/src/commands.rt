//! One step of the frame that runs, a function for each command, whose clause is that row of the machine's definition.
//! They stand on the numbers, cells and frames beside this file.
ghost use Rattle.std.specs.Prelude.{◌≡◌, ◌<◌, ℕ, pos, [], ◌∷◌, ◌++◌, length, map, slice_get, slice_index_or, All, IfOk, if◌then◌else◌};
ghost use Rattle.std.specs.Option.{IfSome, IsSomeAnd};
ghost use Rattle.shape_data.specs.Heap.{cell_at, put, with_field, AreRising, IsHeap};
ghost use Rattle.shape_data.specs.Machine.{
  any_step,
  arith_value,
  at_cell,
  called,
  free_step,
  go_to as goes_to,
  go_with as goes_with,
  new_step,
  operand_value,
  proc_named_from,
  returned,
  step_cmd,
  test_passes,
  top_of,
};
ghost use Rattle.shape_data.specs.WellFormed.{IsCmd, IsCountable, IsOperand, ReturnsInto};
ghost use Rattle.heap_run.specs.Access.{HaveField};

use crate::cells::{access, can_be_new, put_cell, take_cell, with_number};
use crate::frames::{new_frame, number_of};
use crate::numbers::{computed, is_of_type, passes, value_of, values_of};
use shape_data::answer::Fault;
use shape_data::machine::{Cell, Choice, Config, Frame, Stepped, Value};
use shape_data::program::{ArithOp, Cmd, Operand, Proc, Program, TestOp, Ty};
use shape_data::{Name, Row, copy_of};
use std::alloc::{AllocError, Global};

/// A configuration with the frame that runs taken off its stack, and the line of the file on which it runs.
#[derive(Drop)]
pub struct Machine {
    /// The frames that wait.
    pub below: Row<Frame>,
    /// The frame that runs.
    pub frame: Frame,
    /// The cells, in rising order of address.
    pub heap: Row<Cell>,
    /// The line of the command that runs.
    pub line: u32,
}

impl Machine {
    /// The frame goes on at a node.
    fn go_to(self, next: u32) -> Result<Stepped, AllocError>
        ensures { IfOk result (λ stepped. stepped ≡ goes_to self.below self.frame self.heap next) }
    {
        let Machine {
            mut below,
            mut frame,
            heap,
            line: _,
        } = self;
        frame.node = next;
        below.push(frame)?;
        Ok(Stepped::On(Config { stack: below, heap }))
    }

    /// The frame goes on at a node, with a value in a slot.
    fn go_with(mut self, to: u32, value: Value, next: u32) -> Result<Stepped, AllocError>
        requires { to < length self.frame.locals }
        ensures { IfOk result (λ stepped. stepped ≡ goes_with self.below self.frame self.heap to value next) }
    {
        self.frame.locals.set(to as usize, value);
        self.go_to(next)
    }

    /// The run ends in a fault on this line.
    fn fault(self, fault: Fault) -> Stepped
        ensures { result ≡ Stepped.Fault self.line fault }
    {
        Stepped::Fault {
            line: self.line,
            fault,
        }
    }

    /// `Copy`: the operand's value goes to the slot.
    fn copy(self, to: u32, from: Operand, next: u32) -> Result<Stepped, AllocError>
        requires to { to < length self.frame.locals }
        requires from { IsOperand (length self.frame.locals) from }
        ensures { IfOk result (λ stepped. stepped
            ≡ goes_with self.below self.frame self.heap to (operand_value self.frame.locals from) next) }
    {
        let value = value_of(&self.frame.locals, from);
        self.go_with(to, value, next)
    }

    /// `Arith`: `+`, `-` or `*`, wrapped to 32 bits, goes to the slot.
    fn arith(
        self,
        to: u32,
        op: ArithOp,
        left: Operand,
        right: Operand,
        next: u32,
    ) -> Result<Stepped, AllocError>
        requires to { to < length self.frame.locals }
        requires left { IsOperand (length self.frame.locals) left }
        requires right { IsOperand (length self.frame.locals) right }
        ensures { IfOk result (λ stepped. stepped ≡ goes_with self.below self.frame self.heap to
            (arith_value op (operand_value self.frame.locals left) (operand_value self.frame.locals right)) next) }
    {
        let left = value_of(&self.frame.locals, left);
        let right = value_of(&self.frame.locals, right);
        self.go_with(to, computed(op, left, right), next)
    }

    /// `Any`: the slot gets the number of its type that is chosen.
    fn any(self, to: u32, ty: &Ty, next: u32, choice: &Choice) -> Result<Stepped, AllocError>
        requires { to < length self.frame.locals }
        ensures { IfOk result (λ stepped. stepped ≡ any_step self.below self.frame self.heap to ty.now next choice.now) }
    {
        match choice {
            Choice::Value(value) => {
                if is_of_type(ty, *value) {
                    self.go_with(to, *value, next)
                } else {
                    Ok(Stepped::BadChoice)
                }
            }
            _ => Ok(Stepped::BadChoice),
        }
    }

    /// `Load`: a field of the structure at the base goes to the slot (C11 6.5.2.3).
    fn load(
        self,
        to: u32,
        base: u32,
        kind: &Name,
        field: u32,
        next: u32,
    ) -> Result<Stepped, AllocError>
        requires to { to < length self.frame.locals }
        requires base { base < length self.frame.locals }
        requires heap { AreRising (pos 0) self.heap }
        requires field { HaveField self.heap kind.now field }
        ensures { IfOk result (λ stepped. stepped ≡ at_cell self.heap (slice_index_or self.frame.locals base (pos 0)) kind.now self.line
            (λ cell. goes_with self.below self.frame self.heap to (slice_index_or cell.fields field (pos 0)) next)) }
    {
        let at = value_of(&self.frame.locals, Operand::Slot(base));
        match access(&self.heap, at, kind) {
            Ok(place) => {
                let value = self.heap[place].fields[field as usize];
                self.go_with(to, value, next)
            }
            Err(fault) => Ok(self.fault(fault)),
        }
    }

    /// `Store`: the operand's value goes to a field of the structure at the base (C11 6.5.2.3).
    fn store(
        self,
        base: u32,
        kind: &Name,
        field: u32,
        from: Operand,
        next: u32,
    ) -> Result<Stepped, AllocError>
        requires base { base < length self.frame.locals }
        requires from { IsOperand (length self.frame.locals) from }
        requires heap { AreRising (pos 0) self.heap }
        requires field { HaveField self.heap kind.now field }
        ensures { let at = slice_index_or self.frame.locals base (pos 0) in
            IfOk result (λ stepped. stepped ≡ at_cell self.heap at kind.now self.line
            (λ cell. goes_to self.below self.frame (with_field self.heap at field (operand_value self.frame.locals from)) next)) }
    {
        let at = value_of(&self.frame.locals, Operand::Slot(base));
        let value = value_of(&self.frame.locals, from);
        match access(&self.heap, at, kind) {
            Ok(place) => self.write(place, field, value).go_to(next),
            Err(fault) => Ok(self.fault(fault)),
        }
    }

    /// The machine with a number in a field of the cell at a place.
    fn write(self, place: usize, field: u32, value: Value) -> Machine
        requires heap { AreRising (pos 0) self.heap }
        requires there { IsSomeAnd (slice_get self.heap place) (λ cell. field < length cell.fields) }
        ensures { IfSome (slice_get self.heap place) (λ cell. result ≡ record self { heap = with_field self.heap cell.at field value }) }
    {
        let Machine {
            below,
            frame,
            heap,
            line,
        } = self;
        Machine {
            below,
            frame,
            heap: with_number(heap, place, field as usize, value),
            line,
        }
    }

    /// `New`: null, or the address of a new cell that is chosen, goes to the slot (C11 7.22.3.4).
    fn new_cell(
        self,
        program: &Program,
        to: u32,
        kind: &Name,
        next: u32,
        choice: &Choice,
    ) -> Result<Stepped, AllocError>
        requires to { to < length self.frame.locals }
        requires heap { AreRising (pos 0) self.heap }
        ensures { IfOk result (λ stepped. stepped ≡ new_step program.now self.below self.frame self.heap to kind.now next choice.now) }
    {
        match choice {
            Choice::Null => self.go_with(to, 0, next),
            Choice::Cell { at, fields } => {
                if !can_be_new(program, &self.heap, kind, *at, fields) {
                    return Ok(Stepped::BadChoice);
                }
                let cell = Cell {
                    at: *at,
                    kind: copy_of(kind)?,
                    fields: copy_of(fields)?,
                };
                self.with_cell(cell)?.go_with(to, *at, next)
            }
            _ => Ok(Stepped::BadChoice),
        }
    }

    /// The machine with a cell at its address, which has none yet.
    fn with_cell(mut self, cell: Cell) -> Result<Machine, AllocError>
        requires rising { AreRising (pos 0) self.heap }
        requires unowned { cell_at self.heap cell.at ≡ None }
        ensures { IfOk result (λ machine. machine ≡ record self { heap = put cell self.heap }) }
    {
        put_cell(&mut self.heap, cell)?;
        Ok(self)
    }

    /// `Free`: nothing comes of null; the cell of any other address goes (C11 7.22.3.3).
    fn free_cell(mut self, base: u32, next: u32) -> Result<Stepped, AllocError>
        requires base { base < length self.frame.locals }
        requires heap { AreRising (pos 0) self.heap }
        ensures { IfOk result (λ stepped. stepped
            ≡ free_step self.below self.frame self.heap (slice_index_or self.frame.locals base (pos 0)) self.line next) }
    {
        let at = value_of(&self.frame.locals, Operand::Slot(base));
        if at == 0 || take_cell(&mut self.heap, at) {
            self.go_to(next)
        } else {
            Ok(self.fault(Fault::Unowned))
        }
    }

    /// `Call`: the caller waits at its next node, and a frame with the arguments stands on top.
    fn call(
        self,
        alloc: Global,
        procs: &[Proc],
        to: Option<u32>,
        callee: &Name,
        args: &[Operand],
        next: u32,
    ) -> Result<Stepped, AllocError>
        requires procs { IsCountable procs.now }
        requires args { All (IsOperand (length self.frame.locals)) args.now }
        ensures { IfOk result (λ stepped. stepped ≡ called self.below self.frame self.heap self.line to
            (map (operand_value self.frame.locals) args.now) next (proc_named_from 0 procs.now callee.now)) }
    {
        let Some(number) = number_of(procs, callee) else {
            return Ok(self.fault(Fault::Callee));
        };
        let values = values_of(alloc, &self.frame.locals, args)?;
        let frame = new_frame(number, &procs[number as usize].flow, values, to)?;
        self.enter(next, frame)
    }

    /// A frame stands on top of the one that ran, which waits at a node.
    fn enter(self, next: u32, callee: Frame) -> Result<Stepped, AllocError>
        ensures { IfOk result (λ stepped. stepped
            ≡ Stepped.On (record { stack = self.below ++ record self.frame { node = next } ∷ callee ∷ []; heap = self.heap })) }
    {
        let Machine {
            mut below,
            mut frame,
            heap,
            line: _,
        } = self;
        frame.node = next;
        below.push(frame)?;
        below.push(callee)?;
        Ok(Stepped::On(Config { stack: below, heap }))
    }

    /// `Branch`: the frame goes on at one of two nodes, as a comparison of whole numbers says.
    fn branch(
        self,
        op: TestOp,
        left: Operand,
        right: Operand,
        yes: u32,
        no: u32,
    ) -> Result<Stepped, AllocError>
        requires left { IsOperand (length self.frame.locals) left }
        requires right { IsOperand (length self.frame.locals) right }
        ensures { IfOk result (λ stepped. stepped ≡ goes_to self.below self.frame self.heap
            (if test_passes op (operand_value self.frame.locals left) (operand_value self.frame.locals right) then yes else no)) }
    {
        let left = value_of(&self.frame.locals, left);
        let right = value_of(&self.frame.locals, right);
        self.go_to(if passes(op, left, right) { yes } else { no })
    }

    /// `Return`: the frame ends, and its value goes to the slot of its caller; with no caller the run returns.
    #[tactic(auto, using(crate::proofs::Stacks::stack_ends))]
    fn return_value(self, value: Operand) -> Result<Stepped, AllocError>
        requires value { IsOperand (length self.frame.locals) value }
        requires to { ReturnsInto (top_of self.below) self.frame }
        ensures { IfOk result (λ stepped. stepped
            ≡ returned self.below self.frame self.heap (operand_value self.frame.locals value) (top_of self.below)) }
    {
        let value = value_of(&self.frame.locals, value);
        let Machine {
            below,
            frame,
            heap,
            line: _,
        } = self;
        let mut below = below.into_vec();
        let Some(mut caller) = below.pop() else {
            return Ok(Stepped::Returned { value, heap });
        };
        if let Some(to) = frame.to {
            caller.locals.set(to as usize, value);
        }
        below.push(caller)?;
        Ok(Stepped::On(Config {
            stack: Row::from_vec(below),
            heap,
        }))
    }

    /// One step at a command.
    pub fn take_step(
        self,
        alloc: Global,
        program: &Program,
        cmd: &Cmd,
        choice: &Choice,
    ) -> Result<Stepped, AllocError>
        requires procs { IsCountable program.now.procs }
        requires fits { (nodes : ℕ) × IsCmd program.now.structs (length self.frame.locals) nodes cmd.now }
        requires heap { IsHeap program.now.structs self.heap }
        requires to { ReturnsInto (top_of self.below) self.frame }
        ensures { IfOk result (λ stepped. stepped ≡ step_cmd program.now self.below self.frame self.heap choice.now self.line cmd.now) }
    {
        match cmd {
            Cmd::Copy { to, from, next } => self.copy(*to, *from, *next),
            Cmd::Arith {
                to,
                op,
                left,
                right,
                next,
            } => self.arith(*to, *op, *left, *right, *next),
            Cmd::Any { to, ty, next } => self.any(*to, ty, *next, choice),
            Cmd::Load {
                to,
                base,
                kind,
                field,
                next,
            } => self.load(*to, *base, kind, *field, *next),
            Cmd::Store {
                base,
                kind,
                field,
                from,
                next,
            } => self.store(*base, kind, *field, *from, *next),
            Cmd::New { to, kind, next } => self.new_cell(program, *to, kind, *next, choice),
            Cmd::Free {
                base,
                kind: _,
                next,
            } => self.free_cell(*base, *next),
            Cmd::Call {
                to,
                callee,
                args,
                next,
            } => self.call(alloc, &program.procs, *to, callee, args, *next),
            Cmd::Branch {
                op,
                pointers: _,
                left,
                right,
                yes,
                no,
            } => self.branch(*op, *left, *right, *yes, *no),
            Cmd::Return { value } => self.return_value(*value),
        }
    }
}
