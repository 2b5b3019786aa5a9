//! Laws of the grammar. Each is the contract of a function with an empty body.
ghost use Rattle.c_grammar.specs.Laws.{
  HaveOneTree,
  HaveRoundTrip,
  HaveOneRefusal,
  HaveNotBoth,
  HaveEither,
  HaveTighterOperands,
  HaveChains,
  HaveNearestElse,
  HaveVoidAlone,
};

/// No words have two trees: the grammar is unambiguous.
pub fn one_tree()
    ensures { HaveOneTree }
{}

/// The text that is printed of a file is read as the same file, up to places. (By [`one_tree`] it is read as no other.)
pub fn round_trip()
    ensures { HaveRoundTrip }
{}

/// No words are refused at two places, or with two codes.
pub fn one_refusal()
    ensures { HaveOneRefusal }
{}

/// No words are refused that a file within the levels spells.
pub fn spelled_or_refused()
    ensures { HaveNotBoth }
{}

/// Each list of tokens is spelled by a file within the levels, or refused.
pub fn each_list_is_read()
    ensures { HaveEither }
{}

/// Operators of one level group from the left, as one chain; an `else` goes with the nearest `if`; and `void` alone is no
/// list of parameters.
pub fn grouping()
    ensures operands { HaveTighterOperands }
    ensures chains { HaveChains }
    ensures nearest_else { HaveNearestElse }
    ensures void_alone { HaveVoidAlone }
{}
