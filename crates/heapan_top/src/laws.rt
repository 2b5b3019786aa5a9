//! What is true of streams and their replies, whatever the program does with them.
ghost use Rattle.heapan_top.specs.Laws.{
  FedIsFront,
  HonestReplies,
  OneFeeding,
  OneOpening,
  OneReply,
  PrintsValid,
  SomeFed,
  SomeOpening,
  SomeReply,
};

use project_form::laws::limits_are_kept;
use session_lines::laws::one_first;
use session_replies::laws::{
    answers_keep_limits, honest_answers, one_answer, one_feed, one_saving, reported_is_valid,
    some_answer, some_feed, some_saving,
};
use solve_laws::certificates::limits::limits_widen;
use summary_store::laws::{loaded_are_inductive, one_loading, some_loading};

/// A stream has at most one text of replies, and one end.
pub fn one_reply()
    ensures { OneReply }
{
    one_first();
    one_answer();
}

/// A stream has replies, and an end: which, is decided.
pub fn some_reply()
    ensures { SomeReply }
{
    some_answer();
}

/// All that is fed and stored behind all commands of a stream is one list, and one store.
pub fn one_feeding()
    ensures { OneFeeding }
{
    one_first();
    one_answer();
    one_feed();
    one_saving();
}

/// What is fed up to some point is a front of what is fed behind all commands of a stream, which so is one list at most.
pub fn fed_is_front()
    ensures { FedIsFront }
{
    one_first();
    one_answer();
    one_feed();
}

/// And there is one: which, is decided.
pub fn some_fed()
    ensures { SomeFed }
{
    one_first();
    some_reply();
    some_feed();
    some_saving();
}

/// With each store a session begins in one way.
pub fn one_opening()
    ensures one { OneOpening }
    ensures some { SomeOpening }
{
    one_loading();
    some_loading();
}

/// What is reported of the files that are present is valid in the program that they are, at each point of a session, whatever bytes the
/// store has.
pub fn printed_is_valid()
    ensures { PrintsValid }
{
    limits_are_kept();
    answers_keep_limits();
    reported_is_valid();
    loaded_are_inductive();
    limits_widen();
}

/// Where each answer that was loaded is what solving its key gives, its mark aside, the replies are those of an analysis from nothing.
pub fn honest_replies()
    ensures { HonestReplies }
{
    honest_answers();
    answers_keep_limits();
}
