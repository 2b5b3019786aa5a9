//! What was emitted of statements.
ghost use Rattle.std.specs.Prelude.{◌≡◌};
ghost use Rattle.c_lower_stmts.specs.declared.laid.Laid.{Laid};

use c_lower_emit::drafts::Label;

/// Statements that were emitted: where a run of them begins, and how many locals were declared up to their end.
#[derive(Clone, Copy)]
pub struct Laid {
    pub begin: Label,
    pub locals: u32,
}

impl Laid {
    /// Statements whose run begins there, with so many locals up to their end.
    pub fn new(begin: Label, locals: u32) -> Laid
        ensures { result ≡ record { begin = begin; locals = locals } }
    {
        Laid { begin, locals }
    }
}
