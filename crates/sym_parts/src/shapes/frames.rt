//! The frame law of the concrete machine: a run that does not fault in a heap does the same beside any other
//! heap, which it leaves as it is. The soundness of calls stands on it.
ghost use Rattle.sym_parts.specs.Shapes.Frame.{FrameRule, NoFaultBesideFrame, RunBesideFrame};

/// What a run does in a heap it does beside any frame, under choices that put no new cell into the frame.
pub fn run_beside_frame()
    ensures { RunBesideFrame }
{}

/// A run that does not fault in a heap does not fault beside any frame, whatever the choices.
pub fn no_fault_beside_frame()
    ensures { NoFaultBesideFrame }
{}

/// The frame rule of separation logic: to prove a spec valid, no frame has to be looked at.
pub fn frame_rule()
    ensures { FrameRule }
{}
