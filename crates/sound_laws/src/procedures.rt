//! Procedures of a program and their names.
ghost use Rattle.sound_laws.specs.Procedures.{FoundByName, HasOwnFlows};

/// Where names differ, each procedure is found by its own; so the program has each of its flows under its name.
pub fn procedure_is_found()
    ensures found { FoundByName }
    ensures flows { HasOwnFlows }
{}
