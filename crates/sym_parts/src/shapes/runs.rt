//! Runs over lists of choices.
ghost use Rattle.std.specs.Prelude.{◌≡◌, ◌++◌, List, [], length};
ghost use Rattle.shape_data.specs.declared.machine.Choice.{Choice};
ghost use Rattle.shape_data.specs.declared.machine.Config.{Config};
ghost use Rattle.shape_data.specs.declared.machine.Outcome.TheVariants.{Running};
ghost use Rattle.shape_data.specs.declared.program.Program.{Program};
ghost use Rattle.shape_data.specs.Machine.{run};
ghost use Rattle.sym_parts.specs.Shapes.Continued.{continued};

/// With no choice a run is where it began.
pub fn run_without_choice_is_running()
    ensures { (program : Program) (config : Config) → run program config [] ≡ Running config }
{}

/// A run over two lists of choices is the run over the first and then, if it goes on, over the second.
pub fn run_continues()
    ensures { (program : Program) (config : Config) (first second : List Choice)
        → run program config (first ++ second) ≡ continued program (length first) second (run program config first) }
{}
