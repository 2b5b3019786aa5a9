//! Reads a text piece by piece. `read` gives what `specs/Reading` computes, and `tokens` what `specs/Grammar` says: proofs/Texts
//! shows that they are the same.
ghost use Rattle.std.specs.Prelude.{◌≡◌, ◌<◌, ◌≤◌, [], ◌∷◌, take, drop, IfOk, IfErr, length};
ghost use Rattle.c_grammar.specs.Tokens.Grammar.{token_at, HasTokens, IsTokenFault};
ghost use Rattle.c_grammar.specs.Tokens.TokenLists.{IsTokenList};
ghost use Rattle.c_grammar.specs.Tokens.Reading.{Tokens, at_end, reading, IsFault};
ghost use Rattle.c_grammar.specs.Tokens.Places.{place_after};
ghost use Rattle.c_grammar.specs.Tokens.Steps.{HasRoom, Steps};

use crate::tokens::pieces::{NO_INCLUDE, Part, Piece, first_piece};
use crate::tokens::places::{Place, Refusal};
use crate::tokens::token::{Lexeme, Token, TokenFault, TokenKind};
use std::alloc::Global;

/// In most texts a token has at least so many bytes, with the blanks behind it. Room for the tokens of such a text is made at once.
const BYTES_PER_TOKEN: usize = 2;

/// What is left of a text.
#[derive(Clone, Copy, Debug)]
struct Cursor<'a> {
    rest: &'a [u8],
    here: Place,
    part: Part,
}

/// What the first piece of the rest is, and what is left behind it.
#[derive(Clone, Copy, Debug)]
enum Step<'a> {
    Passed(Cursor<'a>),
    Found(TokenKind, &'a [u8], Cursor<'a>),
    Refused(Refusal),
}

/// A token at the place.
fn token_at<'a>(kind: TokenKind, word: &'a [u8], place: Place) -> Token<'a>
    requires some { 1 ≤ length word.now }
    requires short { length word.now ≤ 64 }
    ensures { result ≡ token_at kind word.now place }
{
    Token {
        kind,
        text: Lexeme::of(word),
        line: place.line,
        column: place.column,
    }
}

/// The rest behind its first bytes.
fn behind<'a>(cursor: Cursor<'a>, len: usize, part: Part) -> (&'a [u8], Cursor<'a>)
    requires within { len ≤ length cursor.rest.now }
    requires room { HasRoom cursor }
    ensures word { result.0.now ≡ take len cursor.entry.rest.now }
    ensures rest { result.1.rest.now ≡ drop len cursor.entry.rest.now }
    ensures place { result.1.here ≡ place_after cursor.entry.here (take len cursor.entry.rest.now) }
    ensures part { result.1.part ≡ part }
    ensures room { HasRoom result.1 }
{
    let (word, rest) = cursor.rest.split_at(len);
    let next = Cursor {
        rest,
        here: cursor.here.after_all(word),
        part,
    };
    (word, next)
}

/// Takes the first piece.
fn take_piece(cursor: Cursor<'_>) -> Step<'_>
    requires some { 0 < length cursor.rest.now }
    requires room { HasRoom cursor }
    ensures { Steps cursor.entry result }
{
    match first_piece(cursor.here, cursor.part, cursor.rest) {
        Piece::Passed(len, part) => {
            let (_word, next) = behind(cursor, len, part);
            Step::Passed(next)
        }
        Piece::Lexed(kind, len) => {
            let (word, next) = behind(cursor, len, Part::InLine);
            Step::Found(kind, word, next)
        }
        Piece::Refused(refusal) => Step::Refused(refusal),
    }
}

/// The end of a text.
fn end<'a>(here: Place, part: Part) -> Result<Token<'a>, TokenFault>
    ensures token { IfOk result (λ token. at_end here part ≡ Tokens (token ∷ [])) }
    ensures fault { IfErr result (λ fault. IsFault fault (at_end here part)) }
{
    match part {
        Part::Hash(hash) => Err(TokenFault::Refused(hash.refusal(NO_INCLUDE))),
        Part::Include(hash) => Err(TokenFault::Refused(hash.refusal(NO_INCLUDE))),
        Part::LineStart | Part::InLine | Part::Header(_) => {
            Ok(token_at(TokenKind::End, b"#", here))
        }
    }
}

/// The tokens that are read piece by piece, and the end.
fn read<'a>(alloc: Global, bytes: &'a [u8]) -> Result<Vec<Token<'a>>, TokenFault>
    requires { length bytes.now < 4294967295 }
    ensures tokens { IfOk result (λ found. reading bytes.now ≡ Tokens found.items) }
    ensures fault { IfErr result (λ fault. IsFault fault (reading bytes.now)) }
{
    let mut found = Vec::with_capacity(alloc, bytes.len() / BYTES_PER_TOKEN)?;
    let mut cursor = Cursor {
        rest: bytes,
        here: Place { line: 1, column: 1 },
        part: Part::LineStart,
    };
    while !cursor.rest.is_empty() {
        match take_piece(cursor) {
            Step::Passed(next) => cursor = next,
            Step::Found(kind, word, next) => {
                found.push(token_at(kind, word, cursor.here))?;
                cursor = next;
            }
            Step::Refused(refusal) => return Err(TokenFault::Refused(refusal)),
        }
    }
    found.push(end(cursor.here, cursor.part)?)?;
    Ok(found)
}

/// The tokens of the text in their order, of which the last is its end, or else the text's first refusal (C11 6.4).
///
/// Lines and columns count from 1, columns in bytes; the codes of refusals are those of [`TokenFault`]. The text may be
/// any bytes; the tokens borrow theirs from it.
pub fn tokens<'a>(alloc: Global, bytes: &'a [u8]) -> Result<Vec<Token<'a>>, TokenFault>
    requires { length bytes.now < 4294967295 }
    ensures tokens { IfOk result (λ found. HasTokens bytes.now found.items) }
    ensures listed { IfOk result (λ found. IsTokenList found.items) }
    ensures fault { IfErr result (λ fault. IsTokenFault bytes.now fault) }
{
    read(alloc, bytes)
}
