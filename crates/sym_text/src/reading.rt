//! Reads one part of a heap, and what stands between a part and what follows it.
ghost use Rattle.std.specs.Prelude.{◌≡◌, ◌≤◌, true, false, length, IfOk, IfErr, codes};
ghost use Rattle.shape_data.specs.WellFormed.{AreStructs};
ghost use Rattle.shape_data.specs.declared.symbolic.Fact.TheVariants.{Eq, Ne};
ghost use Rattle.shape_data.specs.declared.symbolic.Exp.TheVariants.{Var};
ghost use Rattle.sym_text.specs.declared.starts.Next.TheVariants as next;
ghost use Rattle.sym_text.specs.declared.starts.Start.TheVariants as start;
ghost use Rattle.sym_text.specs.Outcome.{Got, IsStop, only_if};
ghost use Rattle.sym_text.specs.Reading.{
  is_one_of,
  place_of,
  read_right,
  tail_by,
  word_by,
  counted_part,
  read_part,
  part_by,
  read_separator,
};

use crate::cells::{has_linked, read_cell, read_segment};
use crate::exps::{read_exp, read_exp_by};
use crate::fault::Fault;
use crate::leads::{exps_may_come, is_word, read_lead};
use crate::parts::{Part, ReadPart};
use crate::starts::{Next, Start, next_of, start_of};
use crate::words::{is_one_of, place_of, read_literal};
use shape_data::Name;
use shape_data::program::StructDef;
use shape_data::symbolic::{Atom, Exp, Fact};
use std::alloc::Global;

/// Reads `=` and the right side of a fact.
#[tactic(auto, unfolding(crate::specs::Outcome::go_on))]
fn read_equal<'a>(params: &[Name], left: Exp, text: &'a [u8]) -> Result<ReadPart<'a>, Fault>
    requires { length params.now ≤ 32768 }
    ensures ok { IfOk result (λ read. read_right params.now (codes "=") (λ right. Eq left right) text.now ≡ Got read.0 read.1.now) }
    ensures err { IfErr result (λ fault. IsStop fault (read_right params.now (codes "=") (λ right. Eq left right) text.now)) }
{
    let rest = read_literal(b"=", text)?;
    let (right, rest) = read_exp(params, rest)?;
    Ok((Part::Fact(Fact::Eq(left, right)), rest))
}

/// Reads `!=` and the right side of a fact.
#[tactic(auto, unfolding(crate::specs::Outcome::go_on))]
fn read_differ<'a>(params: &[Name], left: Exp, text: &'a [u8]) -> Result<ReadPart<'a>, Fault>
    requires { length params.now ≤ 32768 }
    ensures ok { IfOk result (λ read. read_right params.now (codes "!=") (λ right. Ne left right) text.now ≡ Got read.0 read.1.now) }
    ensures err { IfErr result (λ fault. IsStop fault (read_right params.now (codes "!=") (λ right. Ne left right) text.now)) }
{
    let rest = read_literal(b"!=", text)?;
    let (right, rest) = read_exp(params, rest)?;
    Ok((Part::Fact(Fact::Ne(left, right)), rest))
}

/// What decides which parts may come.
#[derive(Clone, Copy)]
pub struct Scope<'a> {
    /// The structures that cells and segments may name.
    pub structs: &'a [StructDef],
    /// The names of the first logical variables.
    pub params: &'a [Name],
    /// Whether facts may come, as no atom came before.
    pub facts: bool,
    /// Whether the part is the heap's first, so that `emp` may come.
    pub is_first: bool,
}

/// Reads the rest of a part that began with an expression; `next` is what the text behind that begins with.
#[tactic(auto, unfolding(crate::specs::Reading::tail_by))]
fn read_tail<'a>(
    alloc: Global,
    scope: &Scope<'a>,
    left: Exp,
    next: Next,
    text: &'a [u8],
) -> Result<ReadPart<'a>, Fault>
    requires { length scope.now.params.now ≤ 32768 }
    ensures ok { IfOk result (λ read. tail_by scope.now.structs.now scope.now.params.now scope.now.facts left next text.now
        ≡ Got read.0 read.1.now) }
    ensures err { IfErr result (λ fault. IsStop fault
        (tail_by scope.now.structs.now scope.now.params.now scope.now.facts left next text.now)) }
{
    match next {
        Next::Bar => {
            if scope.structs.is_empty() {
                Err(Fault::Refused { left: text.len() })
            } else {
                read_cell(alloc, scope.structs, scope.params, left, text)
            }
        }
        Next::Equal => {
            if scope.facts {
                read_equal(scope.params, left, text)
            } else {
                Err(Fault::Refused { left: text.len() })
            }
        }
        Next::Bang => {
            if scope.facts {
                read_differ(scope.params, left, text)
            } else {
                Err(Fault::Refused { left: text.len() })
            }
        }
        Next::Bracket | Next::End | Next::Other => Err(Fault::Refused { left: text.len() }),
    }
}

/// Reads a list segment, behind `ls`.
#[tactic(auto, unfolding(crate::specs::Reading::word_by, crate::specs::Outcome::go_on))]
fn read_bracket<'a>(scope: &Scope<'a>, word: &[u8], text: &'a [u8]) -> Result<ReadPart<'a>, Fault>
    requires few { length scope.now.params.now ≤ 32768 }
    requires structs { AreStructs scope.now.structs.now }
    ensures ok { IfOk result (λ read.
        word_by scope.now.structs.now scope.now.params.now scope.now.facts scope.now.is_first word.now next.Bracket text.now
        ≡ Got read.0 read.1.now) }
    ensures err { IfErr result (λ fault. IsStop fault
        (word_by scope.now.structs.now scope.now.params.now scope.now.facts scope.now.is_first word.now next.Bracket text.now)) }
{
    if !(is_word(b"ls", word) && has_linked(scope.structs)) {
        return Err(Fault::Refused { left: text.len() });
    }
    let (kind, link, from, to, rest) = read_segment(scope.structs, scope.params, text)?;
    let kind = kind.clone()?;
    Ok((
        Part::Atom(Atom::Seg {
            kind,
            link,
            from,
            to,
        }),
        rest,
    ))
}

/// Reads `junk` or `emp`, where the word ends there.
#[tactic(auto, unfolding(crate::specs::Reading::word_by))]
fn read_end<'a>(scope: &Scope<'a>, word: &[u8], text: &'a [u8]) -> Result<ReadPart<'a>, Fault>
    ensures ok { IfOk result (λ read.
        word_by scope.now.structs.now scope.now.params.now scope.now.facts scope.now.is_first word.now next.End text.now
        ≡ Got read.0 read.1.now) }
    ensures err { IfErr result (λ fault. IsStop fault
        (word_by scope.now.structs.now scope.now.params.now scope.now.facts scope.now.is_first word.now next.End text.now)) }
{
    if is_word(b"junk", word) {
        Ok((Part::Atom(Atom::Junk), text))
    } else if is_word(b"emp", word) && scope.is_first {
        Ok((Part::Nothing, text))
    } else {
        Err(Fault::Refused { left: text.len() })
    }
}

/// Reads the rest of a part that began with a word, which has to be the name of a parameter.
fn read_behind_name<'a>(
    alloc: Global,
    scope: &Scope<'a>,
    word: &[u8],
    next: Next,
    text: &'a [u8],
) -> Result<ReadPart<'a>, Fault>
    requires { length scope.now.params.now ≤ 32768 }
    ensures ok { IfOk result (λ read.
        only_if (is_one_of scope.now.params.now word.now)
        (tail_by scope.now.structs.now scope.now.params.now scope.now.facts (Var (place_of scope.now.params.now word.now)) next) text.now
        ≡ Got read.0 read.1.now) }
    ensures err { IfErr result (λ fault. IsStop fault
        (only_if (is_one_of scope.now.params.now word.now)
        (tail_by scope.now.structs.now scope.now.params.now scope.now.facts (Var (place_of scope.now.params.now word.now)) next)
        text.now)) }
{
    if is_one_of(scope.params, word) {
        let name = Exp::Var(place_of(scope.params, word) as u32);
        read_tail(alloc, scope, name, next, text)
    } else {
        Err(Fault::Refused { left: text.len() })
    }
}

/// Reads the rest of a part that began with a word; `next` is what the text behind that begins with.
#[tactic(auto, unfolding(crate::specs::Reading::word_by))]
fn read_behind_word<'a>(
    alloc: Global,
    scope: &Scope<'a>,
    word: &[u8],
    next: Next,
    text: &'a [u8],
) -> Result<ReadPart<'a>, Fault>
    requires few { length scope.now.params.now ≤ 32768 }
    requires structs { AreStructs scope.now.structs.now }
    ensures ok { IfOk result (λ read.
        word_by scope.now.structs.now scope.now.params.now scope.now.facts scope.now.is_first word.now next text.now
        ≡ Got read.0 read.1.now) }
    ensures err { IfErr result (λ fault. IsStop fault
        (word_by scope.now.structs.now scope.now.params.now scope.now.facts scope.now.is_first word.now next text.now)) }
{
    match next {
        Next::Bracket => read_bracket(scope, word, text),
        Next::End => read_end(scope, word, text),
        Next::Bar => read_behind_name(alloc, scope, word, Next::Bar, text),
        Next::Equal => read_behind_name(alloc, scope, word, Next::Equal, text),
        Next::Bang => read_behind_name(alloc, scope, word, Next::Bang, text),
        Next::Other => Err(Fault::Refused { left: text.len() }),
    }
}

/// Reads a part that begins with a letter.
#[tactic(auto, unfolding(crate::specs::Reading::part_by, crate::specs::Outcome::go_on, crate::specs::Outcome::by_first))]
fn read_lettered<'a>(
    alloc: Global,
    scope: &Scope<'a>,
    text: &'a [u8],
) -> Result<ReadPart<'a>, Fault>
    requires few { length scope.now.params.now ≤ 32768 }
    requires structs { AreStructs scope.now.structs.now }
    ensures ok { IfOk result (λ read.
        part_by scope.now.structs.now scope.now.params.now scope.now.facts scope.now.is_first start.Letter text.now
        ≡ Got read.0 read.1.now) }
    ensures err { IfErr result (λ fault. IsStop fault
        (part_by scope.now.structs.now scope.now.params.now scope.now.facts scope.now.is_first start.Letter text.now)) }
{
    let (word, rest) = read_lead(
        scope.structs,
        scope.params,
        scope.facts,
        scope.is_first,
        text,
    )?;
    read_behind_word(alloc, scope, word, next_of(rest), rest)
}

/// Reads a part that begins with a number or a numbered variable.
#[tactic(auto, unfolding(crate::specs::Outcome::go_on, crate::specs::Outcome::by_first))]
fn read_counted<'a>(
    alloc: Global,
    scope: &Scope<'a>,
    start: Start,
    text: &'a [u8],
) -> Result<ReadPart<'a>, Fault>
    requires { length scope.now.params.now ≤ 32768 }
    ensures ok { IfOk result (λ read. counted_part scope.now.structs.now scope.now.params.now scope.now.facts start text.now
        ≡ Got read.0 read.1.now) }
    ensures err { IfErr result (λ fault. IsStop fault
        (counted_part scope.now.structs.now scope.now.params.now scope.now.facts start text.now)) }
{
    if !exps_may_come(scope.structs, scope.facts) {
        return Err(Fault::Refused { left: text.len() });
    }
    let (left, rest) = read_exp_by(scope.params, start, text)?;
    read_tail(alloc, scope, left, next_of(rest), rest)
}

/// Reads a part of a text that begins so.
#[tactic(auto, unfolding(crate::specs::Reading::part_by))]
fn read_part_by<'a>(
    alloc: Global,
    scope: &Scope<'a>,
    start: Start,
    text: &'a [u8],
) -> Result<ReadPart<'a>, Fault>
    requires few { length scope.now.params.now ≤ 32768 }
    requires structs { AreStructs scope.now.structs.now }
    ensures ok { IfOk result (λ read. part_by scope.now.structs.now scope.now.params.now scope.now.facts scope.now.is_first start text.now
        ≡ Got read.0 read.1.now) }
    ensures err { IfErr result (λ fault. IsStop fault
        (part_by scope.now.structs.now scope.now.params.now scope.now.facts scope.now.is_first start text.now)) }
{
    match start {
        Start::Letter => read_lettered(alloc, scope, text),
        Start::Digit => read_counted(alloc, scope, Start::Digit, text),
        Start::Dollar => read_counted(alloc, scope, Start::Dollar, text),
        Start::Question => read_counted(alloc, scope, Start::Question, text),
        Start::Minus => read_counted(alloc, scope, Start::Minus, text),
        Start::Other => Err(Fault::Refused { left: text.len() }),
    }
}

/// Reads a part.
#[tactic(auto, unfolding(crate::specs::Reading::read_part, crate::specs::Outcome::by_first))]
pub fn read_part<'a>(
    alloc: Global,
    scope: &Scope<'a>,
    text: &'a [u8],
) -> Result<ReadPart<'a>, Fault>
    requires few { length scope.now.params.now ≤ 32768 }
    requires structs { AreStructs scope.now.structs.now }
    ensures ok { IfOk result (λ read. read_part scope.now.structs.now scope.now.params.now scope.now.facts scope.now.is_first text.now
        ≡ Got read.0 read.1.now) }
    ensures err { IfErr result (λ fault. IsStop fault
        (read_part scope.now.structs.now scope.now.params.now scope.now.facts scope.now.is_first text.now)) }
{
    read_part_by(alloc, scope, start_of(text), text)
}

/// Whether a part follows, and the text behind the separator.
type ReadMore<'a> = (bool, &'a [u8]);

/// Reads what stands behind a part in a post: ` * ` and a further part, or ` ret=`.
#[tactic(auto, unfolding(crate::specs::Reading::read_separator, crate::specs::Outcome::go_on, crate::specs::Outcome::by_first))]
fn read_ret<'a>(may: bool, text: &'a [u8]) -> Result<ReadMore<'a>, Fault>
    ensures ok { IfOk result (λ read. read_separator true may text.now ≡ Got read.0 read.1.now) }
    ensures err { IfErr result (λ fault. IsStop fault (read_separator true may text.now)) }
{
    let rest = read_literal(b" ", text)?;
    match rest {
        [b'*', ..] => {
            if !may {
                return Err(Fault::Refused { left: rest.len() });
            }
            let rest = read_literal(b"* ", rest)?;
            Ok((true, rest))
        }
        _ => {
            let rest = read_literal(b"ret=", rest)?;
            Ok((false, rest))
        }
    }
}

/// Reads what stands behind a part in a heap alone: ` * ` and a further part, or the end.
#[tactic(auto, unfolding(crate::specs::Reading::read_separator, crate::specs::Outcome::go_on, crate::specs::Outcome::by_first))]
fn read_further<'a>(may: bool, text: &'a [u8]) -> Result<ReadMore<'a>, Fault>
    ensures ok { IfOk result (λ read. read_separator false may text.now ≡ Got read.0 read.1.now) }
    ensures err { IfErr result (λ fault. IsStop fault (read_separator false may text.now)) }
{
    if text.is_empty() {
        return Ok((false, text));
    }
    if !may {
        return Err(Fault::Refused { left: text.len() });
    }
    let rest = read_literal(b" * ", text)?;
    Ok((true, rest))
}

/// Reads what stands behind a part.
pub fn read_separator<'a>(with_ret: bool, may: bool, text: &'a [u8]) -> Result<ReadMore<'a>, Fault>
    ensures ok { IfOk result (λ read. read_separator with_ret may text.now ≡ Got read.0 read.1.now) }
    ensures err { IfErr result (λ fault. IsStop fault (read_separator with_ret may text.now)) }
{
    if with_ret {
        read_ret(may, text)
    } else {
        read_further(may, text)
    }
}
