//! Reads fixed bytes, and the names of things.
ghost use Rattle.std.specs.Prelude.{◌≡◌, ◌≤◌, ◌<◌, ◌+◌, List, ℕ, true, drop, ◌∷◌, [], length, map, IfOk, IfErr};
ghost use Rattle.std.specs.List.{prefix_len};
ghost use Rattle.shape_data.specs.Names.{is_name_byte};
ghost use Rattle.sym_text.specs.Outcome.{Got, Stopped, literal, IsStop};
ghost use Rattle.sym_text.specs.Reading.{common, reach_from, front_name, is_one_of, place_of, read_word};

use crate::fault::Fault;
use shape_data::names::{Named, is_name_byte};

/// Reads exactly these bytes.
pub fn read_literal<'a>(word: &[u8], text: &'a [u8]) -> Result<&'a [u8], Fault>
    ensures ok { IfOk result (λ rest. literal word.now text.now ≡ Got tt rest.now) }
    ensures err { IfErr result (λ fault. IsStop fault (literal word.now text.now)) }
{
    match word {
        [] => Ok(text),
        [byte, word @ ..] => match text {
            [other, rest @ ..] if *other == *byte => read_literal(word, rest),
            _ => Err(Fault::Refused { left: text.len() }),
        },
    }
}

/// How many bytes two texts have in common at the front.
fn common(word: &[u8], text: &[u8]) -> usize
    ensures value { result ≡ common word.now text.now }
    ensures within { result ≤ length text.now }
{
    match word {
        [] => 0,
        [byte, word @ ..] => match text {
            [other, text @ ..] if *byte == *other => 1 + common(word, text),
            _ => 0,
        },
    }
}

/// How far the name of some thing goes, or what is reached already.
pub fn reach<T: Named>(most: usize, things: &[T], text: &[u8]) -> usize
    requires { most ≤ length text.now }
    ensures value { result ≡ reach_from most (map T.name_of things.now) text.now }
    ensures within { result ≤ length text.now }
{
    let mut reached = most;
    for thing in things {
        reached = further(reached, thing.name().as_bytes(), text);
    }
    reached
}

/// How far the word goes, or what is reached already.
pub fn further(most: usize, word: &[u8], text: &[u8]) -> usize
    requires { most ≤ length text.now }
    ensures value { result ≡ reach_from most (word.now ∷ []) text.now }
    ensures within { result ≤ length text.now }
{
    let reached = common(word, text);
    if most < reached { reached } else { most }
}

/// How many bytes that may stand in a name the text begins with.
fn name_len(text: &[u8]) -> usize
    ensures value { result ≡ prefix_len is_name_byte text.now }
    ensures within { result ≤ length text.now }
{
    for (place, byte) in text.iter().enumerate() {
        if !is_name_byte(*byte) {
            return place;
        }
    }
    text.len()
}

/// Whether some thing has the name.
pub fn is_one_of<T: Named>(things: &[T], word: &[u8]) -> bool
    ensures { result ≡ is_one_of (map T.name_of things.now) word.now }
{
    for thing in things {
        if *thing.name().as_bytes() == *word {
            return true;
        }
    }
    false
}

/// The place of the first thing with the name. Some thing has it.
pub fn place_of<T: Named>(things: &[T], word: &[u8]) -> usize
    requires { is_one_of (map T.name_of things.now) word.now ≡ true }
    ensures value { result ≡ place_of (map T.name_of things.now) word.now }
    ensures within { result < length things.now }
{
    for (place, thing) in things.iter().enumerate() {
        if *thing.name().as_bytes() == *word {
            return place;
        }
    }
    unreachable!()
}

/// A word, and the text behind it.
pub type Word<'a> = (&'a [u8], &'a [u8]);

/// The bytes at the front of a text that may stand in a name, as many as there are, and the text behind them. It may be none,
/// or begin with a digit; then it is no name.
pub fn front_name(text: &[u8]) -> Word<'_>
    ensures name { result.0.now ≡ front_name text.now }
    ensures rest { result.1.now ≡ drop (prefix_len is_name_byte text.now) text.now }
{
    text.split_at(name_len(text))
}

/// Reads the name of some thing.
pub fn read_word<'a, T: Named>(things: &[T], text: &'a [u8]) -> Result<Word<'a>, Fault>
    ensures ok { IfOk result (λ read. read_word (map T.name_of things.now) text.now ≡ Got read.0.now read.1.now) }
    ensures one { IfOk result (λ read. is_one_of (map T.name_of things.now) read.0.now ≡ true) }
    ensures err { IfErr result (λ fault. IsStop fault (read_word (map T.name_of things.now) text.now)) }
{
    let (name, rest) = front_name(text);
    if is_one_of(things, name) {
        Ok((name, rest))
    } else {
        Err(refused_behind(text, reach(0, things, text)))
    }
}

/// No text goes on behind so many bytes.
pub fn refused_behind(text: &[u8], len: usize) -> Fault
    requires { len ≤ length text.now }
    ensures { IsStop {A = List ℕ} result (Stopped (drop len text.now)) }
{
    Fault::Refused {
        left: text.len() - len,
    }
}
