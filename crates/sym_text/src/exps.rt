//! Reads expressions.
ghost use Rattle.std.specs.Prelude.{◌≡◌, ◌≤◌, length, IfOk, IfErr};
ghost use Rattle.sym_text.specs.Outcome.{Got, IsStop};
ghost use Rattle.sym_text.specs.Reading.{exp_by, read_exp};
ghost use Rattle.sym_text.specs.declared.starts.Start.TheVariants as start;

use crate::fault::Fault;
use crate::numbers::read_number;
use crate::starts::{Start, start_of};
use crate::words::{place_of, read_literal, read_word};
use shape_data::Name;
use shape_data::symbolic::{Exp, FIRST_EXISTENTIAL};

/// An expression, and the text behind it.
pub type ReadExp<'a> = (Exp, &'a [u8]);

/// Reads the name of a parameter.
#[tactic(auto, unfolding(crate::specs::Reading::exp_by, crate::specs::Outcome::go_on))]
fn read_name<'a>(params: &[Name], text: &'a [u8]) -> Result<ReadExp<'a>, Fault>
    requires { length params.now ≤ 32768 }
    ensures ok { IfOk result (λ read. exp_by params.now start.Letter text.now ≡ Got read.0 read.1.now) }
    ensures err { IfErr result (λ fault. IsStop fault (exp_by params.now start.Letter text.now)) }
{
    let (name, rest) = read_word(params, text)?;
    Ok((Exp::Var(place_of(params, name) as u32), rest))
}

/// Reads a constant without a sign.
#[tactic(auto, unfolding(crate::specs::Reading::exp_by, crate::specs::Outcome::go_on))]
fn read_constant<'a>(params: &[Name], text: &'a [u8]) -> Result<ReadExp<'a>, Fault>
    ensures ok { IfOk result (λ read. exp_by params.now start.Digit text.now ≡ Got read.0 read.1.now) }
    ensures err { IfErr result (λ fault. IsStop fault (exp_by params.now start.Digit text.now)) }
{
    let (number, rest) = read_number(0, 2_147_483_647, text)?;
    Ok((Exp::Const(number as i32), rest))
}

/// Reads `$n`.
#[tactic(auto, unfolding(crate::specs::Reading::exp_by, crate::specs::Outcome::go_on))]
fn read_logical<'a>(params: &[Name], text: &'a [u8]) -> Result<ReadExp<'a>, Fault>
    requires { length params.now ≤ 32768 }
    ensures ok { IfOk result (λ read. exp_by params.now start.Dollar text.now ≡ Got read.0 read.1.now) }
    ensures err { IfErr result (λ fault. IsStop fault (exp_by params.now start.Dollar text.now)) }
{
    let rest = read_literal(b"$", text)?;
    let (number, rest) = read_number(1, 32_768, rest)?;
    Ok((Exp::Var(params.len() as u32 + (number as u32 - 1)), rest))
}

/// Reads `?n`.
#[tactic(auto, unfolding(crate::specs::Reading::exp_by, crate::specs::Outcome::go_on))]
fn read_existential<'a>(params: &[Name], text: &'a [u8]) -> Result<ReadExp<'a>, Fault>
    ensures ok { IfOk result (λ read. exp_by params.now start.Question text.now ≡ Got read.0 read.1.now) }
    ensures err { IfErr result (λ fault. IsStop fault (exp_by params.now start.Question text.now)) }
{
    let rest = read_literal(b"?", text)?;
    let (number, rest) = read_number(1, 32_768, rest)?;
    Ok((Exp::Var(FIRST_EXISTENTIAL - 1 + number as u32), rest))
}

/// Reads a constant with its sign.
#[tactic(auto, unfolding(crate::specs::Reading::exp_by, crate::specs::Outcome::go_on))]
fn read_negative<'a>(params: &[Name], text: &'a [u8]) -> Result<ReadExp<'a>, Fault>
    ensures ok { IfOk result (λ read. exp_by params.now start.Minus text.now ≡ Got read.0 read.1.now) }
    ensures err { IfErr result (λ fault. IsStop fault (exp_by params.now start.Minus text.now)) }
{
    let rest = read_literal(b"-", text)?;
    let (number, rest) = read_number(1, 2_147_483_648, rest)?;
    Ok((Exp::Const(-1 - (number - 1) as i32), rest))
}

/// Reads an expression of a text that begins so.
#[tactic(auto, unfolding(crate::specs::Reading::exp_by, crate::specs::Outcome::go_on))]
pub fn read_exp_by<'a>(params: &[Name], start: Start, text: &'a [u8]) -> Result<ReadExp<'a>, Fault>
    requires { length params.now ≤ 32768 }
    ensures ok { IfOk result (λ read. exp_by params.now start text.now ≡ Got read.0 read.1.now) }
    ensures err { IfErr result (λ fault. IsStop fault (exp_by params.now start text.now)) }
{
    match start {
        Start::Letter => read_name(params, text),
        Start::Digit => read_constant(params, text),
        Start::Dollar => read_logical(params, text),
        Start::Question => read_existential(params, text),
        Start::Minus => read_negative(params, text),
        Start::Other => Err(Fault::Refused { left: text.len() }),
    }
}

/// Reads an expression.
#[tactic(auto, unfolding(crate::specs::Reading::read_exp, crate::specs::Outcome::by_first))]
pub fn read_exp<'a>(params: &[Name], text: &'a [u8]) -> Result<ReadExp<'a>, Fault>
    requires { length params.now ≤ 32768 }
    ensures ok { IfOk result (λ read. read_exp params.now text.now ≡ Got read.0 read.1.now) }
    ensures err { IfErr result (λ fault. IsStop fault (read_exp params.now text.now)) }
{
    read_exp_by(params, start_of(text), text)
}
