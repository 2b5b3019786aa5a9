//! What a line says, and what a command asks for: a line with the bytes that belong to it.

ghost use Rattle.std.specs.Prelude.{◌≡◌};
ghost use Rattle.session_lines.specs.Lines.{body_size};

use shape_data::name::Name;
use shape_data::row::Row;

/// What a line of the command stream says.
#[derive(Drop, Debug)]
pub enum Line {
    /// An empty line.
    Blank,
    /// `put NAME LENGTH`: so many bytes behind the line are a file of this name.
    Put { name: Name, size: u32 },
    /// `drop NAME`.
    DropFile { name: Name },
    /// `start`.
    Start,
    /// `show PROC`.
    Show { proc: Name },
    /// `report`.
    Report,
    /// `save`.
    Save,
    /// `gen N`, with N from 1 to 1,000.
    Gen { n: u32 },
    /// `quit`.
    Quit,
}

/// What a session is asked to do.
#[derive(Drop, Debug)]
pub enum Command {
    /// Nothing: an empty line.
    Blank,
    /// To put a file of at most 1,048,576 bytes.
    Put { name: Name, bytes: Row<u8> },
    /// To put a file of so many bytes, more than 1,048,576. They were read and not kept, since no project takes them.
    PutTooLong { name: Name, size: u32 },
    /// To drop a file.
    DropFile { name: Name },
    /// To begin the analysis.
    Start,
    /// To show the block of a procedure.
    Show { proc: Name },
    /// To report on all procedures.
    Report,
    /// To save the store.
    Save,
    /// To put the generated file of this number, from 1 to 1,000.
    Gen { n: u32 },
    /// To end the session.
    Quit,
}

impl Line {
    /// How many bytes behind the line belong to it.
    pub fn body_size(&self) -> u32
        ensures { result ≡ body_size self.now }
    {
        match self {
            Line::Put { name: _, size } => *size,
            _ => 0,
        }
    }
}

/// What one call of [`next_command`](crate::next_command) took from the stream.
#[derive(Drop, Debug)]
pub enum Taken {
    /// The next command.
    Command(Command),
    /// Nothing is left.
    End,
    /// What stands first in the stream is no command: its number, from 1, and the offset of its first byte in the stream.
    Malformed { command: u32, offset: u64 },
    /// As many commands were taken as there may be, 65,536, and a byte follows.
    Full,
    /// A read failed.
    ReadFault,
}
