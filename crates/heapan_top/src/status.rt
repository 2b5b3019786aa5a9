//! How a call of the program ended.
/// How it ended, with the number that the process ends with.
#[derive(Clone, Copy, PartialEq, Eq, Debug)]
pub enum Status {
    /// All was answered up to the end of what was read, or to the command that ends, and no procedure of the last report is without a spec.
    Done,
    /// All was answered up to there, and some procedure of the last report is without a spec.
    Unproven,
    /// A command is malformed: its number, from 1, and the offset of its first byte in the stream.
    Refused { command: u32, offset: u64 },
    /// The words are not those that the program takes.
    Usage,
    /// As many commands were taken as there may be, 65,536, none of them to end, and a byte follows.
    Full,
    /// A read failed.
    ReadFault,
    /// A write failed.
    WriteFault,
    /// The store could not be read, or could not be replaced.
    StoreFault,
    /// No memory was left.
    NoMemory,
}

impl Status {
    ghost use Rattle.std.specs.Prelude.{◌≡◌};
    ghost use Rattle.heapan_top.specs.Codes.{code_of};

    /// The number that the process ends with.
    pub fn code(&self) -> u8
        ensures { result ≡ code_of self.now }
    {
        match self {
            Status::Done => 0,
            Status::Unproven => 1,
            Status::Refused { .. } => 2,
            Status::ReadFault => 3,
            Status::WriteFault => 4,
            Status::StoreFault => 5,
            Status::Usage => 6,
            Status::Full => 7,
            Status::NoMemory => 8,
        }
    }
}
