//! The reader of commands, which takes one after another from the stream. A call leaves the stream behind what it took,
//! whatever the pieces in which the source gave the bytes; where the next command stands ahead whole, nothing is read.
ghost use Rattle.std.specs.Prelude.{◌≡◌, ◌+◌, ◌<◌, ◌≤◌, ℕ, List, [], ◌++◌, length, drop, IfOk, IfSome, IfNone, OnErr};
ghost use Rattle.std.specs.Option.{ForSome};
ghost use Rattle.io_ports.specs.Bytes.{before_left};
ghost use Rattle.io_ports.specs.Counts.{Rose};
ghost use Rattle.session_lines.specs.Lines.{IsEnded, IsLine, body_size, line_text};
ghost use Rattle.session_lines.specs.Parts.{IsEndOrFull, IsNoCommand, TakesLine};
ghost use Rattle.session_lines.specs.Reading.{IsCounted, IsNoneMore, Takes, stream_left};

use crate::ahead::{Ahead, Filled};
use crate::command::{Command, Line, Taken};
use crate::lines::line_in;
use crate::reading::{Behind, FirstLine, command_with, first_line};
use io_ports::Source;
use std::alloc::{AllocError, Global};
use std::marker::Model;

/// The most commands of a session.
const MOST_COMMANDS: u32 = 65_536;

/// A reader of commands: the bytes that were read and not taken yet, and how many commands of how many bytes were taken.
#[derive(Drop, Debug)]
pub struct Commands {
    ahead: Ahead,
    taken: u32,
    offset: u64,
}

impl Model for Commands {
    ghost use Rattle.std.specs.Prelude.{◌*◌, ◌≤◌};
    ghost use Rattle.session_lines.specs.Parts.{IsEndOrFull, TakesLine};
    ghost use Rattle.session_lines.specs.Reading.{Reading};

    ghost Value = { Reading };

    ghost view = { λ c. record { ahead = c.ahead; taken = c.taken; offset = c.offset } };

    ghost invariant = { λ c. (c.taken ≤ 65536) × (c.offset ≤ c.taken * 16777216) };
}

impl Commands {
    /// A reader that has taken nothing.
    pub fn new(alloc: Global) -> Self
        ensures { result ≡ record { ahead = []; taken = 0; offset = 0 } }
    {
        Commands {
            ahead: Ahead::new(alloc),
            taken: 0,
            offset: 0,
        }
    }

    /// The bytes that were read and not taken yet: never more than 4,352, whatever was read.
    pub fn ahead(&self) -> &[u8]
        ensures value { result.now ≡ self.now.ahead }
        ensures few { length result.now ≤ 4352 }
    {
        self.ahead.bytes()
    }

    /// How many commands were taken.
    pub fn taken(&self) -> u32
        ensures value { result ≡ self.now.taken }
        ensures few { result ≤ 65536 }
    {
        self.taken
    }

    /// How many bytes they have: where the next command begins in the stream.
    pub fn offset(&self) -> u64
        ensures { result ≡ self.now.offset }
    {
        self.offset
    }
}

/// Takes the next command from the stream. The bytes of a file that is too long are passed over and not kept.
pub fn next_command<S: Source>(
    alloc: Global,
    commands: &mut Commands,
    source: &mut S,
) -> Result<Taken, AllocError>
    ensures takes { IfSome (stream_left commands.old (S.left source.old)) (λ stream. IfOk result
        (Takes commands.old commands.new stream (stream_left commands.new (S.left source.new)))) }
    ensures counted { IfOk result (IsCounted commands.old commands.new) }
    ensures err { OnErr result (IsNoneMore commands.old commands.new) }
    ensures kept { (bytes : List ℕ) × (stream_left commands.old (S.left source.old)
        ≡ before_left bytes (stream_left commands.new (S.left source.new))) }
    ensures read_fault { IfOk result (λ taken. taken ≡ Taken.ReadFault → Rose (S.faults source.old) (S.faults source.new)) }
    ensures never_falls { S.faults source.old ≤ S.faults source.new }
    ensures unread { (line : Line) (body rest : List ℕ) → IsLine line → length body ≡ body_size line
        → IsEnded commands.old.ahead (line_text line) (body ++ rest) → source.new ≡ source.old }
{
    if commands.taken == MOST_COMMANDS {
        return end_or_full(&mut commands.ahead, source);
    }
    match first_line(&mut commands.ahead, source)? {
        FirstLine::Ended(place) => {
            let line = line_in(alloc, &commands.ahead.bytes()[..place])?;
            take_line(alloc, commands, source, line, place + 1)
        }
        FirstLine::Last => {
            let size = commands.ahead.bytes().len();
            if size == 0 {
                return Ok(Taken::End);
            }
            let line = line_in(alloc, commands.ahead.bytes())?;
            take_line(alloc, commands, source, line, size)
        }
        FirstLine::TooLong => Ok(malformed(commands)),
        FirstLine::Failed => Ok(Taken::ReadFault),
    }
}

/// What follows the last command that may be taken: the end, or a byte too many.
fn end_or_full<S: Source>(ahead: &mut Ahead, source: &mut S) -> Result<Taken, AllocError>
    ensures ends { IfSome (before_left ahead.old (S.left source.old)) (λ stream. IfOk result (IsEndOrFull stream)) }
    ensures no_command { IfOk result IsNoCommand }
    ensures stream { before_left ahead.old (S.left source.old) ≡ before_left ahead.new (S.left source.new) }
    ensures read_fault { IfOk result (λ taken. taken ≡ Taken.ReadFault → Rose (S.faults source.old) (S.faults source.new)) }
    ensures never_falls { S.faults source.old ≤ S.faults source.new }
    ensures unread { 0 < length ahead.old → source.new ≡ source.old }
{
    match ahead.fill_if_empty(source)? {
        Filled::More => Ok(Taken::Full),
        Filled::End => Ok(Taken::End),
        Filled::Failed => Ok(Taken::ReadFault),
    }
}

/// The answer that what stands first in the stream is no command.
fn malformed(commands: &Commands) -> Taken
    ensures { result ≡ Taken.Malformed (commands.now.taken + 1) commands.now.offset }
{
    Taken::Malformed {
        command: commands.taken + 1,
        offset: commands.offset,
    }
}

/// Takes the command that a line is, with the line's so many bytes, which stand first in the stream.
fn take_line<S: Source>(
    alloc: Global,
    commands: &mut Commands,
    source: &mut S,
    line: Option<Line>,
    size: usize,
) -> Result<Taken, AllocError>
    requires ahead { size ≤ length commands.old.ahead }
    requires short { size ≤ 257 }
    requires few { commands.old.taken < MOST_COMMANDS }
    requires allowed { ForSome line IsLine }
    ensures takes { IfOk result (TakesLine line size commands.old commands.new
        (before_left (drop size commands.old.ahead) (S.left source.old)) (stream_left commands.new (S.left source.new))) }
    ensures err { OnErr result (IsNoneMore commands.old commands.new) }
    ensures kept { (bytes : List ℕ) × (stream_left commands.old (S.left source.old)
        ≡ before_left bytes (stream_left commands.new (S.left source.new))) }
    ensures read_fault { IfOk result (λ taken. taken ≡ Taken.ReadFault → Rose (S.faults source.old) (S.faults source.new)) }
    ensures never_falls { S.faults source.old ≤ S.faults source.new }
    ensures unread { IfSome line (λ line. size + body_size line ≤ length commands.old.ahead → source.new ≡ source.old) }
    ensures untouched { IfNone line (source.new ≡ source.old) }
{
    let Some(line) = line else {
        return Ok(malformed(commands));
    };
    commands.ahead.skip(size);
    let whole = size as u64 + u64::from(line.body_size());
    match command_with(alloc, &mut commands.ahead, source, line)? {
        Behind::Command(command) => {
            commands.taken += 1;
            commands.offset += whole;
            Ok(Taken::Command(command))
        }
        Behind::Short => Ok(malformed(commands)),
        Behind::Failed => Ok(Taken::ReadFault),
    }
}
