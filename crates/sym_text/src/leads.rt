//! Reads the word that a part begins with: a parameter's name, `ls`, `junk` or, at the front of a heap, `emp`.
ghost use Rattle.std.specs.Prelude.{◌≡◌, ◌≤◌, ◌&&◌, ◌∷◌, [], true, length, IfOk, IfErr, if◌then◌else◌};
ghost use Rattle.std.specs.Str.{bytes_eq};
ghost use Rattle.sym_text.specs.Outcome.{Got, IsStop};
ghost use Rattle.sym_text.specs.Reading.{exps_may_come, is_one_of, lead_words, reach, reach_from, read_word};

use crate::cells::has_linked;
use crate::fault::Fault;
use crate::words::{Word, front_name, further, is_one_of, reach, refused_behind};
use shape_data::Name;
use shape_data::program::StructDef;

/// Whether the word is this.
pub fn is_word(expected: &[u8], word: &[u8]) -> bool
    ensures { result ≡ bytes_eq expected.now word.now }
{
    *expected == *word
}

/// Whether an expression may begin a part: that of a fact, or the address of a cell.
pub fn exps_may_come(structs: &[StructDef], facts: bool) -> bool
    ensures { result ≡ exps_may_come structs.now facts }
{
    facts || !structs.is_empty()
}

/// Whether the word is a parameter's name, where one may come.
fn is_named(may: bool, params: &[Name], word: &[u8]) -> bool
    ensures { result ≡ (may && is_one_of params.now word.now) }
{
    may && is_one_of(params, word)
}

/// Whether the word is this, where it may come.
pub fn is_word_if(may: bool, expected: &[u8], word: &[u8]) -> bool
    ensures { result ≡ (may && bytes_eq expected.now word.now) }
{
    may && is_word(expected, word)
}

/// Whether a part may begin with the word.
fn is_lead(structs: &[StructDef], params: &[Name], facts: bool, is_first: bool, word: &[u8]) -> bool
    ensures { result ≡ is_one_of (lead_words structs.now params.now facts is_first) word.now }
{
    let name = is_named(exps_may_come(structs, facts), params, word);
    let segment = is_word_if(has_linked(structs), b"ls", word);
    let junk = is_word(b"junk", word);
    let emp = is_word_if(is_first, b"emp", word);
    name | segment | junk | emp
}

/// How far the name of some parameter goes, if one may come.
fn reach_names(may: bool, params: &[Name], text: &[u8]) -> usize
    ensures value { result ≡ reach_from 0 (if may then params.now else []) text.now }
    ensures within { result ≤ length text.now }
{
    if may { reach(0, params, text) } else { 0 }
}

/// How far the word goes, if it may come, or what is reached already.
fn further_if(may: bool, most: usize, word: &[u8], text: &[u8]) -> usize
    requires { most ≤ length text.now }
    ensures value { result ≡ reach_from most (if may then word.now ∷ [] else []) text.now }
    ensures within { result ≤ length text.now }
{
    if may { further(most, word, text) } else { most }
}

/// How far some word goes that a part may begin with.
fn reach_lead(
    structs: &[StructDef],
    params: &[Name],
    facts: bool,
    is_first: bool,
    text: &[u8],
) -> usize
    ensures value { result ≡ reach (lead_words structs.now params.now facts is_first) text.now }
    ensures within { result ≤ length text.now }
{
    let names = reach_names(exps_may_come(structs, facts), params, text);
    let segment = further_if(has_linked(structs), names, b"ls", text);
    let junk = further(segment, b"junk", text);
    further_if(is_first, junk, b"emp", text)
}

/// Reads a word that a part may begin with.
pub fn read_lead<'a>(
    structs: &[StructDef],
    params: &[Name],
    facts: bool,
    is_first: bool,
    text: &'a [u8],
) -> Result<Word<'a>, Fault>
    ensures ok { IfOk result (λ read. read_word (lead_words structs.now params.now facts is_first) text.now ≡ Got read.0.now read.1.now) }
    ensures err { IfErr result (λ fault. IsStop fault (read_word (lead_words structs.now params.now facts is_first) text.now)) }
{
    let (word, rest) = front_name(text);
    if is_lead(structs, params, facts, is_first, word) {
        Ok((word, rest))
    } else {
        let reached = reach_lead(structs, params, facts, is_first, text);
        Err(refused_behind(text, reached))
    }
}
