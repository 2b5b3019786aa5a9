//! Laws of the forms: what is well formed is read as it was written, and one value is that of one thing.
ghost use Rattle.summary_json.specs.Laws.{AnswersAreReadBack, KeysAreReadBack, OneAnswer, OneKey};

/// A well-formed key is read as it was written.
pub fn keys_are_read_back()
    ensures { KeysAreReadBack }
{}

/// A well-formed answer for a well-formed key is read as it was written, but for the mark `stored`, which is then set.
pub fn answers_are_read_back()
    ensures { AnswersAreReadBack }
{}

/// Two well-formed keys with one value are the same.
pub fn one_key()
    ensures { OneKey }
{}

/// Two well-formed answers for a well-formed key with one value have the same summaries.
pub fn one_answer()
    ensures { OneAnswer }
{}
