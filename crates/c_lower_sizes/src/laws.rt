//! Laws of sizes. Each is the contract of a function with an empty body.
ghost use Rattle.c_lower_sizes.specs.Laws.{
  HaveSizes,
  HaveAsManyNodes,
  HaveLocalKinds,
  CountLocals,
  HaveANodeForEachLocal,
  AreBodiesNoLarger,
  HaveExamples,
};

/// The code of statements has as many nodes as their syntax says.
pub fn code_has_its_size()
    ensures { HaveSizes }
{}

/// Wherever code is laid, it has as many nodes as it says.
pub fn code_has_as_many_nodes()
    ensures { HaveAsManyNodes }
{}

/// Each local that is declared has a type.
pub fn locals_have_types()
    ensures { HaveLocalKinds }
{}

/// Behind statements, the locals that are declared in them are counted.
pub fn locals_are_counted()
    ensures { CountLocals }
{}

/// There are no more locals than nodes.
pub fn locals_have_nodes()
    ensures { HaveANodeForEachLocal }
{}

/// A procedure has no fewer nodes than its body.
pub fn bodies_are_no_larger()
    ensures { AreBodiesNoLarger }
{}

/// Worked examples.
pub fn examples()
    ensures { HaveExamples }
{}
