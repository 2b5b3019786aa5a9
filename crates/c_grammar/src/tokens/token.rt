//! Tokens, and why a text has none.
ghost use Rattle.std.specs.Prelude.{◌≡◌, ◌≤◌, length};

use crate::tokens::fault::ReadFault;
use std::marker::Model;

/// The kind of a token.
#[derive(Clone, Copy, Debug, PartialEq, Eq)]
pub enum TokenKind {
    /// A name.
    Word,
    /// A reserved word.
    Key,
    Number,
    Sign,
    /// The end of the text.
    End,
}

/// The 1 to 64 bytes of a token, where they stand. Contracts see the bytes.
#[derive(Drop, Debug)]
pub struct Lexeme<'a> {
    bytes: &'a [u8],
}

impl<'a> Model for Lexeme<'a> {
    ghost use Rattle.std.specs.Prelude.{List, ℕ, ◌≤◌, length};

    ghost Value = { List ℕ };

    ghost view = { λ lexeme. lexeme.bytes.now };

    ghost invariant = { λ lexeme. (1 ≤ length lexeme.bytes.now) × (length lexeme.bytes.now ≤ 64) };
}

impl<'a> Lexeme<'a> {
    /// The lexeme of these bytes.
    pub fn of(bytes: &'a [u8]) -> Lexeme<'a>
        requires some { 1 ≤ length bytes.now }
        requires short { length bytes.now ≤ 64 }
        ensures { result ≡ bytes.now }
    {
        Lexeme { bytes }
    }

    /// The bytes.
    pub fn as_bytes(&self) -> &'a [u8]
        ensures value { result.now ≡ self.now }
        ensures some { 1 ≤ length result.now }
        ensures short { length result.now ≤ 64 }
    {
        self.bytes
    }
}

/// A token of a text, and the place of its first byte. The bytes of the end are `#`.
#[derive(Drop, Debug)]
pub struct Token<'a> {
    pub kind: TokenKind,
    pub text: Lexeme<'a>,
    pub line: u32,
    pub column: u32,
}

/// Why there are no tokens. The codes are 101, a byte that begins no token; 102, a comment that does not end; 103, a
/// number that is no plain decimal of at most 2,147,483,647; 104, a `#` line other than `#include <..>`; and 105, a
/// name of more than 64 bytes.
pub type TokenFault = ReadFault;
