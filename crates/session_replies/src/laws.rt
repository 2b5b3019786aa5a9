//! Laws that show the definition of replies usable: a command has an answer, and has it once; and what is reported is valid.
ghost use Rattle.session_replies.specs.Laws.{
  AnswersKeepLimits,
  AnswersKeepSetting,
  HonestAnswers,
  OneAnswer,
  OneFeed,
  OneSaving,
  ReportedIsValid,
  SomeAnswer,
  SomeFeed,
  SomeSaving,
};

use bottom_up::laws::{each_is_reported, honest_is_from_nothing};
use project_form::laws::{
    answers_are_well_formed, limits_are_kept, one_answer as one_reading,
    some_answer as some_reading,
};

/// A command has at most one answer.
pub fn one_answer()
    ensures { OneAnswer }
{
    one_reading();
}

/// A command other than `quit` has an answer.
pub fn some_answer()
    ensures { SomeAnswer }
{
    some_reading();
}

/// Behind a command one list of entries is fed at most.
pub fn one_feed()
    ensures { OneFeed }
{
    one_reading();
}

/// Behind a command some entries are fed, or none: which, is decided.
pub fn some_feed()
    ensures { SomeFeed }
{
    some_reading();
}

/// Each command keeps the files within the limits of a project, and what the session began with.
pub fn answers_keep_limits()
    ensures limits { AnswersKeepLimits }
    ensures setting { AnswersKeepSetting }
{
    limits_are_kept();
}

/// Behind a command the store has new bytes, or none, in one way at most.
pub fn one_saving()
    ensures { OneSaving }
{
    one_reading();
}

/// Behind a command the store has new bytes, or none: which, is decided.
pub fn some_saving()
    ensures { SomeSaving }
{
    some_reading();
}

/// What is reported of files that are a program is valid in it.
pub fn reported_is_valid()
    ensures { ReportedIsValid }
{
    answers_are_well_formed();
    each_is_reported();
}

/// Where each answer that was loaded is what solving its key gives, its mark aside, a command is answered as if nothing had been loaded.
pub fn honest_answers()
    ensures { HonestAnswers }
{
    honest_is_from_nothing();
}
