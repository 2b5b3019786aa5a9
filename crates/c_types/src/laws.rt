//! Worked rows of the typing rules, as the contract of a function with an empty body.
ghost use Rattle.c_types.specs.Rows.{HaveRows};

/// Small programs, and what is refused first in them.
pub fn rows()
    ensures { HaveRows }
{}
