//! Frames of calls: the procedure that a name finds, and the new frame of a procedure with its arguments. They carry the
//! row of `Call`, and the start of a run.
ghost use Rattle.std.specs.Prelude.{◌≡◌, ◌-◌, ◌++◌, pos, length, replicate, slice_get, IfOk, MatchOption};
ghost use Rattle.std.specs.Option.{IsSomeAnd};
ghost use Rattle.shape_data.specs.Machine.{new_frame as frame_of, proc_named_from};
ghost use Rattle.shape_data.specs.WellFormed.{IsCountable};

use shape_data::machine::{Frame, Value};
use shape_data::program::{Flow, Proc};
use shape_data::{Name, Row};
use std::alloc::AllocError;

/// The number of the procedure of a name.
pub fn number_of(procs: &[Proc], name: &Name) -> Option<u32>
    requires { IsCountable procs.now }
    ensures { MatchOption result (proc_named_from 0 procs.now name.now ≡ None)
        (λ number. IsSomeAnd (slice_get procs.now number) (λ proc. proc_named_from 0 procs.now name.now ≡ Some (number, proc))) }
{
    for (number, proc) in procs.iter().enumerate() {
        if proc.flow.name == *name {
            return Some(number as u32);
        }
    }
    None
}

/// The locals of a new frame: its arguments, and 0 in all other slots.
fn locals_of(args: Vec<Value>, slots: usize) -> Result<Row<Value>, AllocError>
    ensures { IfOk result (λ locals. locals ≡ args.items ++ replicate (slots - length args.items) (pos 0)) }
{
    let mut locals = args;
    if locals.len() < slots {
        locals.resize(slots, 0)?;
    }
    Ok(Row::from_vec(locals))
}

/// The frame of a new call of a procedure, whose result goes to a slot of its caller, if to one.
pub fn new_frame(
    proc: u32,
    flow: &Flow,
    args: Vec<Value>,
    to: Option<u32>,
) -> Result<Frame, AllocError>
    ensures { IfOk result (λ frame. frame ≡ frame_of proc flow.now args.items to) }
{
    Ok(Frame {
        proc,
        node: 0,
        locals: locals_of(args, flow.slots.len())?,
        to,
    })
}
