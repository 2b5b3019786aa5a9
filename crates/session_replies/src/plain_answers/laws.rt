//! Laws of the entries of a store, each the contract of a function that does nothing.
ghost use Rattle.session_replies.specs.PlainAnswers.Laws.{KnownIsStorable, StoredAreRight};

use solve_laws::certificates::limits::limits_widen;
use solve_laws::limits::laws::{composed_keys_have_sizes, solved_is_storable};

/// An entry that was read from a store, is inductive for its key and within the limits of a store, is right for its key.
pub fn stored_are_right()
    ensures { StoredAreRight }
{
    limits_widen();
}

/// Over such entries all keys of a program of few fields and slots, and the answers to them, are within the limits of a store.
pub fn known_is_storable()
    ensures { KnownIsStorable }
{
    solved_is_storable();
    composed_keys_have_sizes();
}
