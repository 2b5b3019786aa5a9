//! The concrete machine is never stuck: on a well-formed program each step of a well-formed configuration, and
//! so each run, gives one of the outcomes that the machine's definition means to give.
ghost use Rattle.sym_parts.specs.Shapes.Steps.{RunIsNeverStuck, StartIsConfig, StepIsNeverStuck};

/// A step gives a well-formed configuration, a return, a fault, or a bad choice where the command takes one.
pub fn step_is_never_stuck()
    ensures { StepIsNeverStuck }
{}

/// So does a run, from its first configuration to its last.
pub fn run_is_never_stuck()
    ensures { RunIsNeverStuck }
{}

/// A call with one argument for each parameter starts in a well-formed configuration.
pub fn start_is_config()
    ensures { StartIsConfig }
{}
