//! Instances of symbolic heaps: expressions in place of existential variables.
ghost use Rattle.sym_parts.specs.Laws.Instances.{
  ForgottenPostMeets,
  ForgottenStateMeets,
  InstanceMeets,
  InstancePostMeets,
  InstanceStateMeets,
};

/// What meets an instance meets the heap, the state or the post that it is an instance of.
pub fn instance_meets()
    ensures heap { InstanceMeets }
    ensures state { InstanceStateMeets }
    ensures post { InstancePostMeets }
{}

/// An occurrence of a constant, or of another expression, may be forgotten: with an existential variable of its own in its place, the
/// state or the post is met by all that met it.
pub fn expression_may_be_forgotten()
    ensures state { ForgottenStateMeets }
    ensures post { ForgottenPostMeets }
{}
