//! The parts of a command as they stand in the stream: its first line, and the bytes that belong to it. Each part is read
//! as far as it goes and no further; what else came in the last piece stays ahead.
ghost use Rattle.std.specs.Prelude.{◌≡◌, ℕ, List, ◌≤◌, ◌<◌, length, IfOk};
ghost use Rattle.io_ports.specs.Bytes.{before_left, IsNothingLeft};
ghost use Rattle.io_ports.specs.Counts.{Rose};
ghost use Rattle.session_lines.specs.Lines.{body_size};
ghost use Rattle.session_lines.specs.Parts.{EndsSo, IsAbsent, IsBehind, IsBody, IsPassed};

use crate::ahead::{Ahead, Filled};
use crate::command::{Command, Line};
use crate::lines::first_place;
use io_ports::Source;
use shape_data::name::Name;
use shape_data::row::Row;
use std::alloc::{AllocError, Global};

/// How many bytes of a line are looked at: more than any line has.
const MOST_LINE_BYTES: usize = 256;

/// The most bytes of a file that is kept.
const MOST_FILE_BYTES: u32 = 1_048_576;

/// Where the first line ends.
#[derive(Clone, Copy, Debug)]
pub enum FirstLine {
    /// At a line feed, which stands at this place of what is ahead.
    Ended(usize),
    /// At the end of the input: the line is all that is ahead.
    Last,
    /// Behind more bytes than a line has.
    TooLong,
    /// A read failed.
    Failed,
}

/// The bytes that belong to a line.
#[derive(Drop, Debug)]
pub enum Body {
    /// All of them.
    Whole(Vec<u8>),
    /// The input has not as many.
    Short,
    /// A read failed.
    Failed,
}

/// The same of bytes that are not kept.
#[derive(Clone, Copy, Debug)]
pub enum Passed {
    /// All of them were taken.
    Whole,
    /// The input has not as many.
    Short,
    /// A read failed.
    Failed,
}

/// A line with the bytes that belong to it.
#[derive(Drop, Debug)]
pub enum Behind {
    /// The command that they are.
    Command(Command),
    /// The input has not as many.
    Short,
    /// A read failed.
    Failed,
}

/// Reads until it is known where the first line ends.
pub fn first_line<S: Source>(ahead: &mut Ahead, source: &mut S) -> Result<FirstLine, AllocError>
    ensures stream { before_left ahead.old (S.left source.old) ≡ before_left ahead.new (S.left source.new) }
    ensures ends { IfOk result (EndsSo ahead.new) }
    ensures last { IfOk result (λ line. line ≡ FirstLine.Last → IsNothingLeft (S.left source.new)) }
    ensures cause { IfOk result (λ line. line ≡ FirstLine.Failed → Rose (S.faults source.old) (S.faults source.new)) }
    ensures never_falls { S.faults source.old ≤ S.faults source.new }
    ensures unread { (IsAbsent 10 ahead.old → ⊥) → (ahead.new ≡ ahead.old) × (source.new ≡ source.old) }
{
    loop {
        if let Some(place) = first_place(ahead.bytes(), b'\n') {
            return Ok(if place <= MOST_LINE_BYTES {
                FirstLine::Ended(place)
            } else {
                FirstLine::TooLong
            });
        }
        if ahead.bytes().len() > MOST_LINE_BYTES {
            return Ok(FirstLine::TooLong);
        }
        match ahead.fill(source)? {
            Filled::More => {}
            Filled::End => return Ok(FirstLine::Last),
            Filled::Failed => return Ok(FirstLine::Failed),
        }
    }
}

/// Takes so many bytes from the stream.
pub fn read_body<S: Source>(
    alloc: Global,
    ahead: &mut Ahead,
    source: &mut S,
    size: usize,
) -> Result<Body, AllocError>
    ensures body { IfOk result (IsBody size
        (before_left ahead.old (S.left source.old)) (before_left ahead.new (S.left source.new))) }
    ensures kept { (bytes : List ℕ) × (before_left ahead.old (S.left source.old)
        ≡ before_left bytes (before_left ahead.new (S.left source.new))) }
    ensures cause { IfOk result (λ body. body ≡ Body.Failed → Rose (S.faults source.old) (S.faults source.new)) }
    ensures never_falls { S.faults source.old ≤ S.faults source.new }
    ensures unread { size ≤ length ahead.old → source.new ≡ source.old }
{
    let mut bytes = Vec::with_capacity(alloc, size)?;
    while bytes.len() < size {
        match ahead.fill_if_empty(source)? {
            Filled::More => {}
            Filled::End => return Ok(Body::Short),
            Filled::Failed => return Ok(Body::Failed),
        }
        let count = ahead.bytes().len().min(size - bytes.len());
        bytes.extend_from_slice(&ahead.bytes()[..count])?;
        ahead.skip(count);
    }
    Ok(Body::Whole(bytes))
}

/// Takes so many bytes from the stream and keeps none of them.
pub fn pass_over<S: Source>(
    ahead: &mut Ahead,
    source: &mut S,
    size: usize,
) -> Result<Passed, AllocError>
    ensures passed { IfOk result (IsPassed size
        (before_left ahead.old (S.left source.old)) (before_left ahead.new (S.left source.new))) }
    ensures kept { (bytes : List ℕ) × (before_left ahead.old (S.left source.old)
        ≡ before_left bytes (before_left ahead.new (S.left source.new))) }
    ensures cause { IfOk result (λ passed. passed ≡ Passed.Failed → Rose (S.faults source.old) (S.faults source.new)) }
    ensures never_falls { S.faults source.old ≤ S.faults source.new }
    ensures unread { size ≤ length ahead.old → source.new ≡ source.old }
{
    let mut count = 0;
    while count < size {
        match ahead.fill_if_empty(source)? {
            Filled::More => {}
            Filled::End => return Ok(Passed::Short),
            Filled::Failed => return Ok(Passed::Failed),
        }
        let some = ahead.bytes().len().min(size - count);
        ahead.skip(some);
        count += some;
    }
    Ok(Passed::Whole)
}

/// The command that a file of this name and size is, with the bytes behind its line.
fn put_with<S: Source>(
    alloc: Global,
    ahead: &mut Ahead,
    source: &mut S,
    name: Name,
    size: u32,
) -> Result<Behind, AllocError>
    ensures behind { IfOk result (IsBehind (Line.Put name size)
        (before_left ahead.old (S.left source.old)) (before_left ahead.new (S.left source.new))) }
    ensures kept { (bytes : List ℕ) × (before_left ahead.old (S.left source.old)
        ≡ before_left bytes (before_left ahead.new (S.left source.new))) }
    ensures cause { IfOk result (λ behind. behind ≡ Behind.Failed → Rose (S.faults source.old) (S.faults source.new)) }
    ensures never_falls { S.faults source.old ≤ S.faults source.new }
    ensures unread { size ≤ length ahead.old → source.new ≡ source.old }
{
    if size <= MOST_FILE_BYTES {
        match read_body(alloc, ahead, source, size as usize)? {
            Body::Whole(bytes) => {
                let bytes = Row::from_vec(bytes);
                Ok(Behind::Command(Command::Put { name, bytes }))
            }
            Body::Short => Ok(Behind::Short),
            Body::Failed => Ok(Behind::Failed),
        }
    } else {
        match pass_over(ahead, source, size as usize)? {
            Passed::Whole => Ok(Behind::Command(Command::PutTooLong { name, size })),
            Passed::Short => Ok(Behind::Short),
            Passed::Failed => Ok(Behind::Failed),
        }
    }
}

/// The command that a line is with the bytes behind it, which are taken from the stream.
pub fn command_with<S: Source>(
    alloc: Global,
    ahead: &mut Ahead,
    source: &mut S,
    line: Line,
) -> Result<Behind, AllocError>
    ensures behind { IfOk result (IsBehind line
        (before_left ahead.old (S.left source.old)) (before_left ahead.new (S.left source.new))) }
    ensures kept { (bytes : List ℕ) × (before_left ahead.old (S.left source.old)
        ≡ before_left bytes (before_left ahead.new (S.left source.new))) }
    ensures cause { IfOk result (λ behind. behind ≡ Behind.Failed → Rose (S.faults source.old) (S.faults source.new)) }
    ensures never_falls { S.faults source.old ≤ S.faults source.new }
    ensures unread { body_size line ≤ length ahead.old → source.new ≡ source.old }
{
    let command = match line {
        Line::Put { name, size } => return put_with(alloc, ahead, source, name, size),
        Line::Blank => Command::Blank,
        Line::DropFile { name } => Command::DropFile { name },
        Line::Start => Command::Start,
        Line::Show { proc } => Command::Show { proc },
        Line::Report => Command::Report,
        Line::Save => Command::Save,
        Line::Gen { n } => Command::Gen { n },
        Line::Quit => Command::Quit,
    };
    Ok(Behind::Command(command))
}
