//! The classes of tokens: each in constant time, by its own text and by the two tokens behind it.
ghost use Rattle.std.specs.Prelude.{◌≡◌, drop, IfOk};
ghost use Rattle.std.specs.Str.{bytes_eq};
ghost use Rattle.c_grammar.specs.declared.class.Class.TheVariants as class;
ghost use Rattle.c_grammar.specs.Classes.{class_in, keys, signs};
ghost use Rattle.c_grammar.specs.Words.{class_of, sign_class, begins_cast, begins_with_star, begins_with_sign};
ghost use Rattle.c_parse_exprs.specs.Cursors.{classes_of};

use c_grammar::Class;
use c_grammar::tokens::{Token, TokenKind};
use std::alloc::{AllocError, Global};

/// Whether the texts are the same.
fn is_text(one: &[u8], other: &[u8]) -> bool
    ensures { result ≡ bytes_eq one.now other.now }
{
    one == other
}

/// The class of a reserved word that is none of the first nine.
fn later_key_class(text: &[u8]) -> Class
    ensures { result ≡ class_in (drop 9 keys) class.OtherKey text.now }
{
    match text {
        b"break" => Class::Break,
        b"continue" => Class::Continue,
        b"return" => Class::Return,
        b"sizeof" => Class::Sizeof,
        b"NULL" => Class::Null,
        b"malloc" => Class::Malloc,
        b"free" => Class::Free,
        _ => Class::OtherKey,
    }
}

/// The class of a reserved word.
fn key_class(text: &[u8]) -> Class
    ensures { result ≡ class_in keys class.OtherKey text.now }
{
    if is_text(b"int", text) {
        Class::Int
    } else if is_text(b"void", text) {
        Class::Void
    } else if is_text(b"struct", text) {
        Class::Struct
    } else if is_text(b"typedef", text) {
        Class::Typedef
    } else if is_text(b"if", text) {
        Class::If
    } else if is_text(b"else", text) {
        Class::Else
    } else if is_text(b"while", text) {
        Class::While
    } else if is_text(b"for", text) {
        Class::For
    } else if is_text(b"do", text) {
        Class::Do
    } else {
        later_key_class(text)
    }
}

/// The class of a sign but `(`.
fn other_sign_class(text: &[u8]) -> Class
    ensures { result ≡ class_in signs class.OtherKey text.now }
{
    match text {
        b")" => Class::Close,
        b"{" => Class::OpenBrace,
        b"}" => Class::CloseBrace,
        b";" => Class::Semicolon,
        b"," => Class::Comma,
        b"->" => Class::Arrow,
        b"=" => Class::Set,
        b"+=" => Class::AddTo,
        b"-=" => Class::SubtractFrom,
        b"*=" => Class::MultiplyBy,
        b"++" => Class::Increment,
        b"--" => Class::Decrement,
        b"==" => Class::Equal,
        b"!=" => Class::NotEqual,
        b"<" => Class::Less,
        b"<=" => Class::LessEqual,
        b">" => Class::Greater,
        b">=" => Class::GreaterEqual,
        b"+" => Class::Plus,
        b"-" => Class::Minus,
        b"*" => Class::Star,
        b"!" => Class::Not,
        b"&&" => Class::And,
        b"||" => Class::Or,
        _ => Class::OtherKey,
    }
}

/// Whether the first token is this sign.
fn begins_with_sign(text: &[u8], tokens: &[Token<'_>]) -> bool
    ensures { result ≡ begins_with_sign text.now tokens.now }
{
    match tokens {
        [first, ..] => first.kind == TokenKind::Sign && first.text.as_bytes() == text,
        [] => false,
    }
}

/// Whether `*` and `)` stand first.
fn begins_with_star(tokens: &[Token<'_>]) -> bool
    ensures { result ≡ begins_with_star tokens.now }
{
    match tokens {
        [_, others @ ..] => begins_with_sign(b"*", tokens) && begins_with_sign(b")", others),
        [] => false,
    }
}

/// Whether a `(` before these tokens begins a cast, if it stands where an operand may.
fn begins_cast(tokens: &[Token<'_>]) -> bool
    ensures { result ≡ begins_cast tokens.now }
{
    match tokens {
        [first, others @ ..] => match first.kind {
            TokenKind::Key => matches!(first.text.as_bytes(), b"int" | b"void" | b"struct"),
            TokenKind::Word => begins_with_star(others),
            TokenKind::Number | TokenKind::Sign | TokenKind::End => false,
        },
        [] => false,
    }
}

/// The class of a sign before these tokens.
fn sign_class(text: &[u8], tokens: &[Token<'_>]) -> Class
    ensures { result ≡ sign_class text.now tokens.now }
{
    if !is_text(text, b"(") {
        other_sign_class(text)
    } else if begins_cast(tokens) {
        Class::Cast
    } else {
        Class::Open
    }
}

/// The class of a token before these tokens.
fn class_of(token: &Token<'_>, tokens: &[Token<'_>]) -> Class
    ensures { result ≡ class_of token.now.kind token.now.text tokens.now }
{
    match token.kind {
        TokenKind::Word => Class::Name,
        TokenKind::Key => key_class(token.text.as_bytes()),
        TokenKind::Number => Class::Number,
        TokenKind::Sign => sign_class(token.text.as_bytes(), tokens),
        TokenKind::End => Class::End,
    }
}

/// The class of each token.
pub fn classes(alloc: Global, tokens: &[Token<'_>]) -> Result<Vec<Class>, AllocError>
    ensures { IfOk result (λ found. found.items ≡ classes_of tokens.now) }
{
    let mut found = Vec::with_capacity(alloc, tokens.len())?;
    let mut left = tokens;
    while let [first, others @ ..] = left {
        found.push(class_of(first, others))?;
        left = others;
    }
    Ok(found)
}
