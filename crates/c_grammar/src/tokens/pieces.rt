//! The pieces that a text is made of: blanks, comments, parts of directives and tokens.
ghost use Rattle.std.specs.Prelude.{◌≡◌, ℕ, ◌+◌, ◌<◌, ◌≤◌, Bool, None, Some, length, slice_index, IfSome, IfNone, true, false, ◌^◌};
ghost use Rattle.std.specs.List.{prefix_len};
ghost use Rattle.c_grammar.specs.Tokens.Gaps.{is_blank};
ghost use Rattle.c_grammar.specs.Tokens.Headers.{is_header_byte};
ghost use Rattle.c_grammar.specs.Tokens.Pieces.{
  header_len,
  begins_with_header,
  name_piece,
  number_piece,
  sign_piece,
  token_piece,
  bare_piece,
  line_feed_piece,
  block_piece,
  first_piece,
  Fits,
};

use crate::tokens::comments::{block_len, line_len};
use crate::tokens::places::{Place, Refusal};
use crate::tokens::token::TokenKind;
use crate::tokens::words::{LONGEST_NAME, is_number, is_reserved, name_len, sign_len};
use shape_data::names::is_name_start;

/// A byte that begins no token.
const NO_TOKEN: u16 = 101;

/// A comment that does not end.
const OPEN_COMMENT: u16 = 102;

/// A number that is too large or not plain.
const NO_NUMBER: u16 = 103;

/// A `#` line other than `#include <..>`.
pub const NO_INCLUDE: u16 = 104;

/// A name that is too long.
const LONG_NAME: u16 = 105;

const INCLUDE: &[u8] = b"include";

/// What stands on a line so far, blanks and comments aside. A directive is kept by the place of its `#`.
#[derive(Clone, Copy, Debug)]
pub enum Part {
    /// Nothing.
    LineStart,
    /// Tokens.
    InLine,
    /// `#`.
    Hash(Place),
    /// `#include`.
    Include(Place),
    /// `#include <..>`.
    Header(Place),
}

/// The first piece of a text.
#[derive(Clone, Copy, Debug)]
pub enum Piece {
    /// So many bytes that are no token, and what stands on the line behind them.
    Passed(usize, Part),
    /// A token of so many bytes.
    Lexed(TokenKind, usize),
    Refused(Refusal),
}

fn is_blank(byte: u8) -> bool
    ensures { result ≡ is_blank byte }
{
    matches!(byte, b' ' | b'\t' | b'\r' | 12 | b'\n')
}

/// The second byte, or 0.
fn second(bytes: &[u8]) -> u8
    ensures value { result ≡ slice_index bytes.now 1 }
    ensures some { 0 < result → 2 ≤ length bytes.now }
{
    if bytes.len() > 1 { bytes[1] } else { 0 }
}

/// The name, or the reserved word, of the first `len` bytes.
fn name_piece(here: Place, bytes: &[u8], len: usize) -> Piece
    requires some { 0 < len }
    requires within { len ≤ length bytes.now }
    ensures value { result ≡ name_piece here bytes.now len }
    ensures fits { Fits result (length bytes.now) }
{
    if len > LONGEST_NAME {
        return Piece::Refused(here.refusal(LONG_NAME));
    }
    if is_reserved(&bytes[..len]) {
        Piece::Lexed(TokenKind::Key, len)
    } else {
        Piece::Lexed(TokenKind::Word, len)
    }
}

/// The number of the first `len` bytes.
fn number_piece(here: Place, bytes: &[u8], len: usize) -> Piece
    requires some { 0 < len }
    requires within { len ≤ length bytes.now }
    ensures value { result ≡ number_piece here bytes.now len }
    ensures fits { Fits result (length bytes.now) }
{
    if is_number(&bytes[..len]) {
        Piece::Lexed(TokenKind::Number, len)
    } else {
        Piece::Refused(here.refusal(NO_NUMBER))
    }
}

/// The sign of the first `len` bytes, where it has any.
fn sign_piece(here: Place, len: usize) -> Piece
    ensures { result ≡ sign_piece here len }
{
    if len == 0 {
        Piece::Refused(here.refusal(NO_TOKEN))
    } else {
        Piece::Lexed(TokenKind::Sign, len)
    }
}

/// The token that the bytes begin with.
fn token_piece(here: Place, bytes: &[u8]) -> Piece
    requires { 0 < length bytes.now }
    ensures value { result ≡ token_piece here bytes.now }
    ensures fits { Fits result (length bytes.now) }
{
    let first = bytes[0];
    if is_name_start(first) {
        name_piece(here, bytes, name_len(bytes))
    } else if first.is_ascii_digit() {
        number_piece(here, bytes, name_len(bytes))
    } else {
        sign_piece(here, sign_len(bytes))
    }
}

fn is_header_byte(byte: u8) -> bool
    ensures { result ≡ is_header_byte byte }
{
    !(byte == b'>' || byte == b'\n')
}

/// How many bytes of a header's name the bytes begin with.
fn header_byte_len(bytes: &[u8]) -> usize
    ensures value { result ≡ prefix_len is_header_byte bytes.now }
    ensures within { result ≤ length bytes.now }
{
    for (place, byte) in bytes.iter().enumerate() {
        if !is_header_byte(*byte) {
            return place;
        }
    }
    bytes.len()
}

/// How long the name of a header in `<` and `>` is that the bytes begin with.
fn header_len(bytes: &[u8]) -> Option<usize>
    requires { 0 < length bytes.now }
    ensures some { IfSome result (λ n. (begins_with_header bytes.now ≡ true) × (n ≡ header_len bytes.now)) }
    ensures none { IfNone result (begins_with_header bytes.now ≡ false) }
    ensures within { IfSome result (λ n. n + 2 ≤ length bytes.now) }
{
    let len = header_byte_len(&bytes[1..]);
    if bytes[0] != b'<' || len == 0 || len + 1 == bytes.len() || bytes[len + 1] != b'>' {
        return None;
    }
    Some(len)
}

/// What stands at this part of a line, where the bytes begin with no blank and no comment.
fn bare_piece(here: Place, part: Part, bytes: &[u8]) -> Piece
    requires { 0 < length bytes.now }
    ensures value { result ≡ bare_piece here part bytes.now }
    ensures fits { Fits result (length bytes.now) }
{
    match part {
        Part::LineStart => {
            if bytes[0] == b'#' {
                Piece::Passed(1, Part::Hash(here))
            } else {
                token_piece(here, bytes)
            }
        }
        Part::InLine => token_piece(here, bytes),
        Part::Hash(hash) => {
            if &bytes[..name_len(bytes)] == INCLUDE {
                Piece::Passed(INCLUDE.len(), Part::Include(hash))
            } else {
                Piece::Refused(hash.refusal(NO_INCLUDE))
            }
        }
        Part::Include(hash) => match header_len(bytes) {
            Some(len) => Piece::Passed(len + 2, Part::Header(hash)),
            None => Piece::Refused(hash.refusal(NO_INCLUDE)),
        },
        Part::Header(hash) => Piece::Refused(hash.refusal(NO_INCLUDE)),
    }
}

/// A line feed.
fn line_feed_piece(part: Part) -> Piece
    ensures { result ≡ line_feed_piece part }
{
    match part {
        Part::Hash(hash) => Piece::Refused(hash.refusal(NO_INCLUDE)),
        Part::Include(hash) => Piece::Refused(hash.refusal(NO_INCLUDE)),
        Part::LineStart | Part::InLine | Part::Header(_) => Piece::Passed(1, Part::LineStart),
    }
}

/// A comment that ends so many bytes behind its `/*`, or does not end.
fn block_piece(here: Place, part: Part, end: Option<usize>) -> Piece
    requires { IfSome end (λ n. n + 2 < 2 ^ 63) }
    ensures { result ≡ block_piece here part end }
{
    match end {
        Some(len) => Piece::Passed(len + 2, part),
        None => Piece::Refused(here.refusal(OPEN_COMMENT)),
    }
}

/// The longest piece that the bytes begin with, here and at this part of a line.
pub fn first_piece(here: Place, part: Part, bytes: &[u8]) -> Piece
    requires { 0 < length bytes.now }
    ensures value { result ≡ first_piece here part bytes.now }
    ensures fits { Fits result (length bytes.now) }
{
    let first = bytes[0];
    if first == b'\n' {
        return line_feed_piece(part);
    }
    if is_blank(first) {
        return Piece::Passed(1, part);
    }
    if first == b'/' && second(bytes) == b'/' {
        return Piece::Passed(line_len(&bytes[2..]) + 2, part);
    }
    if first == b'/' && second(bytes) == b'*' {
        return block_piece(here, part, block_len(&bytes[2..]));
    }
    bare_piece(here, part, bytes)
}
