//! Reads decimal numbers.
ghost use Rattle.std.specs.Prelude.{◌≡◌, ◌≤◌, ◌<◌, IfOk, IfErr};
ghost use Rattle.sym_text.specs.Outcome.{Got, IsStop};
ghost use Rattle.sym_text.specs.Reading.{may_go_on, read_digits, read_number};

use crate::fault::Fault;
use shape_data::names::is_name_byte;

/// A number, and the text behind it.
type Number<'a> = (u64, &'a [u8]);

/// Whether the byte is a further digit of a number with this value so far, which stays within the limit. Behind a 0 none is.
fn may_go_on(limit: u64, value: u64, byte: u8) -> bool
    requires { value ≤ 2147483648 }
    ensures { result ≡ may_go_on limit value byte }
{
    byte.is_ascii_digit() && 0 < value && 10 * value + u64::from(byte - b'0') <= limit
}

/// Reads the further digits of a number whose digits up to here have this value. It ends where the text does, or before a byte
/// that stands in no name. The reader stops at a letter, at an underscore, and at a digit that can't follow.
fn read_digits<'a>(limit: u64, first: u64, text: &'a [u8]) -> Result<Number<'a>, Fault>
    requires few { limit ≤ 2147483648 }
    requires within { first ≤ limit }
    ensures ok { IfOk result (λ read. read_digits limit first text.now ≡ Got read.0 read.1.now) }
    ensures within { IfOk result (λ read. (first ≤ read.0) × (read.0 ≤ limit)) }
    ensures err { IfErr result (λ fault. IsStop fault (read_digits limit first text.now)) }
{
    let mut value = first;
    let mut rest = text;
    while let [byte, behind @ ..] = rest {
        if !is_name_byte(*byte) {
            return Ok((value, rest));
        }
        if !may_go_on(limit, value, *byte) {
            return Err(Fault::Refused { left: rest.len() });
        }
        value = 10 * value + u64::from(*byte - b'0');
        rest = behind;
    }
    Ok((value, rest))
}

/// Reads a decimal number without leading zeros from `least`, which is 0 or 1, to a limit of at least 9. What stands behind it
/// stands in no name.
pub fn read_number<'a>(least: u64, limit: u64, text: &'a [u8]) -> Result<Number<'a>, Fault>
    requires few { limit ≤ 2147483648 }
    requires many { 9 ≤ limit }
    ensures ok { IfOk result (λ read. read_number least limit text.now ≡ Got read.0 read.1.now) }
    ensures within { IfOk result (λ read. (least ≤ read.0) × (read.0 ≤ limit)) }
    ensures err { IfErr result (λ fault. IsStop fault (read_number least limit text.now)) }
{
    match text {
        [byte, rest @ ..] if byte.is_ascii_digit() && least <= u64::from(*byte - b'0') => {
            read_digits(limit, u64::from(*byte - b'0'), rest)
        }
        _ => Err(Fault::Refused { left: text.len() }),
    }
}
