//! Reads the text of a line. The word before its first space says which line it can be; numbers are read back by
//! printing them, so that no other form of a number passes.
ghost use Rattle.std.specs.Prelude.{◌≡◌, ◌≢◌, ◌≤◌, ◌<◌, ◌^◌, ℕ, ◌∷◌, ◌++◌, codes, IfOk, IfSome, IfNone, Some};
ghost use Rattle.std.specs.Fmt.{decimal};
ghost use Rattle.session_lines.specs.Lines.{IsLine, line_text};
ghost use Rattle.session_lines.specs.Parts.{IsAbsent, IsFirstAt, IsLineIn};

use crate::command::Line;
use crate::names::{is_file_name, is_proc_name};
use itoa::Buffer;
use shape_data::name::Name;
use std::alloc::{AllocError, Global};

/// The greatest length that a line may name.
const MOST_LENGTH: u32 = 9_999_999;

/// The greatest number of a generated file.
const MOST_GENERATED: u32 = 1_000;

/// Where the first such byte stands.
pub fn first_place(bytes: &[u8], byte: u8) -> Option<usize>
    ensures some { IfSome result (IsFirstAt byte bytes.now) }
    ensures none { IfNone result (IsAbsent byte bytes.now) }
{
    bytes.iter().position(|other| *other == byte)
}

/// What stands before and behind the first such byte.
fn split_at_first(bytes: &[u8], byte: u8) -> Option<(&[u8], &[u8])>
    ensures text { IfSome result (λ parts. bytes.now ≡ parts.0.now ++ byte ∷ parts.1.now) }
    ensures first { IfSome result (λ parts. IsAbsent byte parts.0.now) }
    ensures none { IfNone result (IsAbsent byte bytes.now) }
{
    let place = bytes.iter().position(|other| *other == byte)?;
    Some((&bytes[..place], &bytes[place + 1..]))
}

/// The number that the digits print. Of digits that print none nothing is said.
fn number_in(digits: &[u8]) -> Option<u32>
    ensures { (n : ℕ) → n < 2 ^ 32 → digits.now ≡ decimal n → result ≡ Some n }
{
    str::from_utf8(digits).ok()?.parse().ok()
}

/// The number that prints as these digits, if there is one up to `most`.
fn number_up_to(digits: &[u8], most: u32) -> Option<u32>
    ensures some { IfSome result (λ n. (n ≤ most) × (digits.now ≡ decimal n)) }
    ensures none { IfNone result ((n : ℕ) → n ≤ most → digits.now ≢ decimal n) }
{
    let n = number_in(digits)?;
    let mut buffer = Buffer::new();
    if n > most || buffer.format(n).as_bytes() != digits {
        return None;
    }
    Some(n)
}

/// The line that is this word alone.
fn word_line(text: &[u8]) -> Option<Line>
    ensures some { IfSome result (λ line. IsLine line × (text.now ≡ line_text line)) }
    ensures none { IfNone result (IsAbsent 32 text.now → IsLineIn text.now None) }
{
    if text.is_empty() {
        Some(Line::Blank)
    } else if text == b"start".as_slice() {
        Some(Line::Start)
    } else if text == b"report".as_slice() {
        Some(Line::Report)
    } else if text == b"save".as_slice() {
        Some(Line::Save)
    } else if text == b"quit".as_slice() {
        Some(Line::Quit)
    } else {
        None
    }
}

/// The line `put NAME LENGTH`.
fn put_line(alloc: Global, argument: &[u8]) -> Result<Option<Line>, AllocError>
    ensures { IfOk result (IsLineIn (codes "put " ++ argument.now)) }
{
    let Some((name, digits)) = split_at_first(argument, b' ') else {
        return Ok(None);
    };
    let Some(size) = number_up_to(digits, MOST_LENGTH) else {
        return Ok(None);
    };
    if !is_file_name(name) {
        return Ok(None);
    }
    let name = Name::of(alloc, name)?;
    Ok(Some(Line::Put { name, size }))
}

/// The line `drop NAME`.
fn drop_line(alloc: Global, name: &[u8]) -> Result<Option<Line>, AllocError>
    ensures { IfOk result (IsLineIn (codes "drop " ++ name.now)) }
{
    if !is_file_name(name) {
        return Ok(None);
    }
    let name = Name::of(alloc, name)?;
    Ok(Some(Line::DropFile { name }))
}

/// The line `show PROC`.
fn show_line(alloc: Global, name: &[u8]) -> Result<Option<Line>, AllocError>
    ensures { IfOk result (IsLineIn (codes "show " ++ name.now)) }
{
    if !is_proc_name(name) {
        return Ok(None);
    }
    let proc = Name::of(alloc, name)?;
    Ok(Some(Line::Show { proc }))
}

/// The line `gen N`.
fn gen_line(digits: &[u8]) -> Option<Line>
    ensures { IsLineIn (codes "gen " ++ digits.now) result }
{
    match number_up_to(digits, MOST_GENERATED) {
        Some(n) if n > 0 => Some(Line::Gen { n }),
        _ => None,
    }
}

/// The line that is a word, a space and an argument.
fn argument_line(alloc: Global, word: &[u8], argument: &[u8]) -> Result<Option<Line>, AllocError>
    ensures { IfOk result (λ line. IsAbsent 32 word.now → IsLineIn (word.now ++ 32 ∷ argument.now) line) }
{
    if word == b"put".as_slice() {
        put_line(alloc, argument)
    } else if word == b"drop".as_slice() {
        drop_line(alloc, argument)
    } else if word == b"show".as_slice() {
        show_line(alloc, argument)
    } else if word == b"gen".as_slice() {
        Ok(gen_line(argument))
    } else {
        Ok(None)
    }
}

/// The line that the text is, if it is one.
pub fn line_in(alloc: Global, text: &[u8]) -> Result<Option<Line>, AllocError>
    ensures { IfOk result (IsLineIn text.now) }
{
    match split_at_first(text, b' ') {
        Some((word, argument)) => argument_line(alloc, word, argument),
        None => Ok(word_line(text)),
    }
}
