//! The kinds of bytes that readers decide by: the first of an expression or a part, and the one behind a name or an
//! expression with which a part begins.
ghost use Rattle.std.specs.Prelude.{◌≡◌};
ghost use Rattle.sym_text.specs.Outcome.{first};
ghost use Rattle.sym_text.specs.Reading.{start_of, next_of};

use shape_data::names::is_name_start;

/// What an expression or a part may begin with.
#[derive(Clone, Copy, Debug)]
pub enum Start {
    Letter,
    Digit,
    Dollar,
    Question,
    Minus,
    Other,
}

/// What the byte behind the name or the expression that a part begins with says of what comes.
#[derive(Clone, Copy, Debug)]
pub enum Next {
    /// `|`: a cell.
    Bar,
    /// `=`: an equation.
    Equal,
    /// `!`: a disequality.
    Bang,
    /// `[`: a list segment, the name being `ls`.
    Bracket,
    /// A blank, or the end of the text: the part ends, the name being `junk` or `emp`.
    End,
    /// Any other byte, with which nothing can go on there.
    Other,
}

/// What a text begins with.
pub fn start_of(text: &[u8]) -> Start
    ensures { result ≡ start_of (first text.now) }
{
    match text {
        [] => Start::Other,
        [b'$', ..] => Start::Dollar,
        [b'?', ..] => Start::Question,
        [b'-', ..] => Start::Minus,
        [byte, ..] if is_name_start(*byte) => Start::Letter,
        [byte, ..] if byte.is_ascii_digit() => Start::Digit,
        _ => Start::Other,
    }
}

/// What the first byte of the text behind a name or an expression says of what comes.
pub fn next_of(text: &[u8]) -> Next
    ensures { result ≡ next_of (first text.now) }
{
    match text {
        [] | [b' ', ..] => Next::End,
        [b'|', ..] => Next::Bar,
        [b'=', ..] => Next::Equal,
        [b'!', ..] => Next::Bang,
        [b'[', ..] => Next::Bracket,
        _ => Next::Other,
    }
}
