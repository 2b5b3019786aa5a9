//! Execution beside a frame, and below any stack.
ghost use Rattle.sound_laws.specs.Beside.{DoesBesideFrame, DoesOnAnyStack};

/// A sound row is sound beside every frame, where the specs that calls use are valid; and so it is where frames wait.
pub fn does_beside_frame()
    ensures alone { DoesBesideFrame }
    ensures on_any_stack { DoesOnAnyStack }
{}
