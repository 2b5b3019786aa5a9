//! What is found in a text so far.
ghost use Rattle.c_types_rules.specs.Types.{unless as unless_of};
ghost use Rattle.c_types_rules.specs.Statements.{refuses};
ghost use Rattle.c_types_stmts.specs.Adding.{Adds};

use c_tree::Place;
use c_types_exprs::all_kinds::Kinds;
use c_types_names::first_refusal::FirstRefusal;

/// What is found in a text so far: the first refusal, and the types of its expressions where a list of them is wanted.
#[derive(Drop)]
pub struct Finding<'a> {
    pub first: FirstRefusal,
    pub kinds: Option<Kinds<'a>>,
}

impl<'a> Finding<'a> {
    /// Refuses the place, unless what a rule asks for holds.
    pub fn unless(&mut self, holds: bool, place: Place, code: u16)
        ensures { Adds (refuses (unless_of holds place code)) self.old self.new }
    {
        self.first.unless(holds, place, code);
    }
}
