//! Names, reserved words, numbers and signs.
ghost use Rattle.std.specs.Prelude.{◌≡◌, ◌<◌, ◌≤◌, length};
ghost use Rattle.std.specs.List.{list_all, prefix_len};
ghost use Rattle.std.specs.Char.{is_ascii_digit};
ghost use Rattle.std.specs.Str.Parse.{AllDigits, digits_value};
ghost use Rattle.shape_data.specs.Names.{is_name_byte};
ghost use Rattle.c_grammar.specs.Tokens.Words.{is_reserved, is_plain, is_number, is_long_sign, is_short_sign, sign_len};

use shape_data::names::is_name_byte;

/// The most bytes that a name has.
pub const LONGEST_NAME: usize = 64;

/// The most digits of a number that fits an `i32`.
const MOST_DIGITS: usize = 10;

/// The greatest `i32`.
const GREATEST: u64 = 2_147_483_647;

const RESERVED: [&[u8]; 47] = [
    b"auto",
    b"break",
    b"case",
    b"char",
    b"const",
    b"continue",
    b"default",
    b"do",
    b"double",
    b"else",
    b"enum",
    b"extern",
    b"float",
    b"for",
    b"goto",
    b"if",
    b"inline",
    b"int",
    b"long",
    b"register",
    b"restrict",
    b"return",
    b"short",
    b"signed",
    b"sizeof",
    b"static",
    b"struct",
    b"switch",
    b"typedef",
    b"union",
    b"unsigned",
    b"void",
    b"volatile",
    b"while",
    b"_Alignas",
    b"_Alignof",
    b"_Atomic",
    b"_Bool",
    b"_Complex",
    b"_Generic",
    b"_Imaginary",
    b"_Noreturn",
    b"_Static_assert",
    b"_Thread_local",
    b"NULL",
    b"malloc",
    b"free",
];

/// Whether the word is a keyword (C11 6.4.1), `NULL`, `malloc` or `free`.
#[tactic(auto, unfolding(crate::specs::Tokens::Words::is_reserved))]
pub fn is_reserved(word: &[u8]) -> bool
    ensures { result ≡ is_reserved word.now }
{
    RESERVED.contains(&word)
}

/// How many bytes of names the bytes begin with.
pub fn name_len(bytes: &[u8]) -> usize
    ensures value { result ≡ prefix_len is_name_byte bytes.now }
    ensures within { result ≤ length bytes.now }
{
    for (place, byte) in bytes.iter().enumerate() {
        if !is_name_byte(*byte) {
            return place;
        }
    }
    bytes.len()
}

/// Whether each byte is a digit.
fn are_digits(word: &[u8]) -> bool
    ensures { result ≡ list_all is_ascii_digit word.now }
{
    word.iter().all(|byte| byte.is_ascii_digit())
}

/// Whether the word is digits with no leading zero, and no longer than the greatest number.
fn is_plain(word: &[u8]) -> bool
    requires { 0 < length word.now }
    ensures { result ≡ is_plain word.now }
{
    word.len() <= MOST_DIGITS && are_digits(word) && (word[0] != b'0' || word.len() == 1)
}

/// The number that at most ten decimal digits write; that of no digits is 0.
pub fn digits_value(word: &[u8]) -> u64
    requires short { length word.now ≤ 10 }
    requires digits { AllDigits 10 word.now }
    ensures { result ≡ digits_value 10 word.now }
{
    let mut value = 0;
    for byte in word {
        value = value * 10 + u64::from(*byte - b'0');
    }
    value
}

/// Whether the word is a plain decimal of at most 2,147,483,647.
pub fn is_number(word: &[u8]) -> bool
    requires { 0 < length word.now }
    ensures { result ≡ is_number word.now }
{
    is_plain(word) && digits_value(word) <= GREATEST
}

#[tactic(auto, unfolding(crate::specs::Tokens::Words::is_long_sign))]
fn is_long_sign(word: &[u8]) -> bool
    ensures { result ≡ is_long_sign word.now }
{
    matches!(
        word,
        b"->"
            | b"+="
            | b"-="
            | b"*="
            | b"++"
            | b"--"
            | b"=="
            | b"!="
            | b"<="
            | b">="
            | b"&&"
            | b"||"
    )
}

#[tactic(auto, unfolding(crate::specs::Tokens::Words::is_short_sign))]
fn is_short_sign(byte: u8) -> bool
    ensures { result ≡ is_short_sign byte }
{
    matches!(
        byte,
        b'(' | b')' | b'{' | b'}' | b';' | b',' | b'=' | b'<' | b'>' | b'+' | b'-' | b'*' | b'!'
    )
}

/// How long the longest sign is that the bytes begin with, or 0.
pub fn sign_len(bytes: &[u8]) -> usize
    requires { 0 < length bytes.now }
    ensures value { result ≡ sign_len bytes.now }
    ensures within { result ≤ length bytes.now }
    ensures short { result ≤ 2 }
{
    if bytes.len() >= 2 && is_long_sign(&bytes[..2]) {
        2
    } else if is_short_sign(bytes[0]) {
        1
    } else {
        0
    }
}
