//! Procedures that begin by returning an operand: they return its value at their first step and touch no
//! heap.
ghost use Rattle.std.specs.Prelude.{◌≡◌, ◌<◌, ◌≤◌, ℕ, ℤ, pos, List, length, slice_index_or};
ghost use Rattle.shape_data.specs.declared.machine.Cell.{Cell};
ghost use Rattle.shape_data.specs.declared.machine.Choice.{Choice};
ghost use Rattle.shape_data.specs.declared.machine.Stepped.TheVariants.{Returned};
ghost use Rattle.shape_data.specs.declared.program.Operand.TheVariants.{Num, Slot};
ghost use Rattle.shape_data.specs.declared.program.Program.{Program};
ghost use Rattle.shape_data.specs.declared.symbolic.Exp.TheVariants.{Const, Var};
ghost use Rattle.shape_data.specs.Machine.{start, step};
ghost use Rattle.shape_data.specs.Valid.{Valid};
ghost use Rattle.sym_parts.specs.Shapes.Returns.{ReturnsAtOnce, identity_program, returns_value};

/// Such a procedure returns in one step, whatever the choice, and leaves the heap: its argument, the number,
/// or 0 where the slot is no parameter.
pub fn return_takes_one_step()
    ensures parameter { (program : Program) (number slot : ℕ) (at_once : ReturnsAtOnce program number (Slot slot)) (args : List ℤ)
        (heap : List Cell) (choice : Choice)
        → slot < length args
        → step program (start at_once.proc.flow number args heap) choice ≡ Returned (slice_index_or args slot (pos 0)) heap }
    ensures number { (program : Program) (number : ℕ) (n : ℤ) (at_once : ReturnsAtOnce program number (Num n)) (args : List ℤ)
        (heap : List Cell) (choice : Choice)
        → step program (start at_once.proc.flow number args heap) choice ≡ Returned n heap }
    ensures other_slot { (program : Program) (number slot : ℕ) (at_once : ReturnsAtOnce program number (Slot slot)) (args : List ℤ)
        (heap : List Cell) (choice : Choice)
        → length args ≤ slot → step program (start at_once.proc.flow number args heap) choice ≡ Returned (pos 0) heap }
{}

/// So the spec is valid that owns nothing before and after, and whose result is that value.
pub fn return_is_valid()
    ensures parameter { (program : Program) (number slot : ℕ) (at_once : ReturnsAtOnce program number (Slot slot))
        → slot < length at_once.proc.flow.params → slot < 65536 → Valid program number (returns_value (Var slot)) }
    ensures number { (program : Program) (number : ℕ) (n : ℤ) → ReturnsAtOnce program number (Num n)
        → Valid program number (returns_value (Const n)) }
    ensures other_slot { (program : Program) (number slot : ℕ) (at_once : ReturnsAtOnce program number (Slot slot))
        → length at_once.proc.flow.params ≤ slot → Valid program number (returns_value (Const (pos 0))) }
{}

/// `int id(int a){return a;}` returns its argument.
pub fn identity_is_valid()
    ensures { Valid identity_program 0 (returns_value (Var 0)) }
{}
