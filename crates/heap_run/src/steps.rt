//! The three calls of the machine: a run's start, one step, and a run over a list of choices. Their contracts are the
//! definitions of `shape_data`; they stand on the commands beside this file and on the law that a step keeps a
//! configuration well formed.
ghost use Rattle.std.specs.Prelude.{◌≡◌, ◌<◌, ◌^◌, None, length, slice_get, IfOk};
ghost use Rattle.std.specs.Option.{IsSomeAnd};
ghost use Rattle.shape_data.specs.Heap.{IsHeap};
ghost use Rattle.shape_data.specs.Machine.{run as run_of, start as start_of, step as step_of};
ghost use Rattle.shape_data.specs.WellFormed.{IsConfig, IsProgram};
ghost use Rattle.sym_parts.specs.Shapes.Steps.{IsRunOf, IsStepOf};

use crate::commands::Machine;
use crate::frames::new_frame;
use shape_data::machine::{Cell, Choice, Config, Outcome, Stepped, Value};
use shape_data::program::Program;
use shape_data::{Row, copy_of};
use std::alloc::{AllocError, Global};

/// The same cells again.
fn copied(alloc: Global, cells: &[Cell]) -> Result<Row<Cell>, AllocError>
    ensures { IfOk result (λ copies. copies ≡ cells.now) }
{
    let mut copies = Row::new(alloc);
    for cell in cells {
        copies.push(copy_of(cell)?)?;
    }
    Ok(copies)
}

/// A call of a procedure, given by its index into the program's `procs`, with its arguments, over a heap: cells in rising
/// order of their addresses. Both are copied. [`crate::can_start`] tests its conditions; want of memory is its one error.
pub fn start(
    alloc: Global,
    program: &Program,
    proc: u32,
    args: &[Value],
    heap: &[Cell],
) -> Result<Config, AllocError>
    requires proc { IsSomeAnd (slice_get program.now.procs proc) (λ found. length args.now ≡ length found.flow.params) }
    requires heap { IsHeap program.now.structs heap.now }
    ensures config { IfOk result (λ config. IsSomeAnd (slice_get program.now.procs proc) (λ found. config
        ≡ start_of found.flow proc args.now heap.now)) }
    ensures well_formed { IfOk result (λ config. IsProgram program.now → IsConfig program.now config) }
{
    let flow = &program.procs[proc as usize].flow;
    let frame = new_frame(proc, flow, args.to_vec(alloc)?, None)?;
    Ok(Config {
        stack: Row::from_vec(vec![in alloc; frame]?),
        heap: copied(alloc, heap)?,
    })
}

/// One step, which uses one choice: a configuration, a return, a fault on a line of the file, or that the choice is none
/// that the command allows. The configuration is taken, and what it holds is in the answer; nothing of it is copied.
///
/// Every number stays an i128: arithmetic wraps to 32 bits, and any other number comes from the configuration, the
/// command or the choice. Want of memory is the one error, and the configuration is then gone.
pub fn step(
    alloc: Global,
    program: &Program,
    config: Config,
    choice: &Choice,
) -> Result<Stepped, AllocError>
    requires program { IsProgram program.now }
    requires config { IsConfig program.now config }
    ensures step { IfOk result (λ stepped. stepped ≡ step_of program.now config choice.now) }
    ensures well_formed { IfOk result (IsStepOf program.now config) }
{
    let Config { stack, heap } = config;
    let mut below = stack.into_vec();
    let Some(frame) = below.pop() else {
        unreachable!();
    };
    let proc = &program.procs[frame.proc as usize];
    let node = &proc.flow.nodes[frame.node as usize];
    let machine = Machine {
        below: Row::from_vec(below),
        frame,
        heap,
        line: proc.line + node.line,
    };
    machine.take_step(alloc, program, &node.cmd, choice)
}

/// A run: one step for each choice, until the list ends or a step gives no configuration. Want of memory is its one error.
pub fn run(
    alloc: Global,
    program: &Program,
    config: Config,
    choices: &[Choice],
) -> Result<Outcome, AllocError>
    requires program { IsProgram program.now }
    requires config { IsConfig program.now config }
    requires choices { length choices.now < 2 ^ 32 }
    ensures run { IfOk result (λ outcome. outcome ≡ run_of program.now config choices.now) }
    ensures well_formed { IfOk result (IsRunOf program.now (length choices.now)) }
{
    let mut config = config;
    for (index, choice) in choices.iter().enumerate() {
        match step(alloc, program, config, choice)? {
            Stepped::On(next) => config = next,
            Stepped::Returned { value, heap } => return Ok(Outcome::Returned { value, heap }),
            Stepped::Fault { line, fault } => return Ok(Outcome::Fault { line, fault }),
            Stepped::BadChoice => {
                return Ok(Outcome::BadChoice {
                    index: index as u32,
                });
            }
        }
    }
    Ok(Outcome::Running(config))
}
