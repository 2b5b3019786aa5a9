//! Laws that show the definition of a session's commands usable: a stream has them, and has them once.
ghost use Rattle.session_lines.specs.Laws.{OneFirst, OneSession, SomeSession};

/// At most one command stands first in a stream.
pub fn one_first()
    ensures { OneFirst }
{}

/// A stream has at most one list of commands, and one end.
pub fn one_session()
    ensures { OneSession }
{}

/// A stream has commands and an end: which, is decided.
pub fn some_session()
    ensures { SomeSession }
{}
