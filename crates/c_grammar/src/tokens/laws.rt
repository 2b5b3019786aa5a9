//! Laws of tokens. Each is the contract of a function with an empty body.
ghost use Rattle.c_grammar.specs.Tokens.Examples.{
  TakesLongestSigns,
  EndsToken,
  EndsInComment,
  IncludesWithComment,
  NeedsTwoStars,
  RefusesOpenComment,
  RefusesOpenCommentFirst,
  RefusesSuffix,
  RefusesQuote,
  RefusesDefine,
};
ghost use Rattle.c_grammar.specs.Tokens.Laws.{
  HaveOneReading,
  HaveOneRefusal,
  HaveNotBoth,
  HaveEither,
  AreListed,
  RestsAreListed,
  KeepTokens,
  WordsReadBack,
};

/// No text has two lists of tokens.
pub fn one_reading()
    ensures { HaveOneReading }
{}

/// No text has two first refusals.
pub fn one_refusal()
    ensures { HaveOneRefusal }
{}

/// No text has tokens and a refusal.
pub fn tokens_or_refusal()
    ensures { HaveNotBoth }
{}

/// Each text has tokens or a refusal.
pub fn each_text_is_read()
    ensures { HaveEither }
{}

/// Of each list of tokens the end stands last, and the others are words of their kinds, in the order of their places.
pub fn tokens_are_listed()
    ensures { AreListed }
{}

/// What stands from a token on, in a list of tokens, is a list of tokens too.
pub fn rests_are_listed()
    ensures { RestsAreListed }
{}

/// A blank or a block comment directly behind a token, in a text that has tokens, changes nothing but places.
pub fn blank_behind_token()
    ensures { KeepTokens }
{}

/// Words that are tokens, written with a space behind each, are read as themselves.
pub fn words_read_back()
    ensures { WordsReadBack }
{}

/// Worked examples of the grammar.
pub fn small_texts()
    ensures signs { TakesLongestSigns }
    ensures ends_token { EndsToken }
    ensures comment_at_end { EndsInComment }
    ensures include { IncludesWithComment }
    ensures slash_star_slash { NeedsTwoStars }
    ensures open_comment { RefusesOpenComment }
    ensures open_comment_in_include { RefusesOpenCommentFirst }
    ensures suffix { RefusesSuffix }
    ensures quote { RefusesQuote }
    ensures define { RefusesDefine }
{}
