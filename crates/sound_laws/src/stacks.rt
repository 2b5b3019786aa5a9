//! A call on top of frames that wait: it does what it does alone, and then the caller goes on.
ghost use Rattle.sound_laws.specs.Stacks.{RunOverCaller, StepOverCaller};

/// A step of a call on top of frames that wait is the step of the call alone.
pub fn step_over_caller()
    ensures { StepOverCaller }
{}

/// A run of a call on top of frames that wait is the run of the call alone, and then that of the caller.
pub fn run_over_caller()
    ensures { RunOverCaller }
{}
