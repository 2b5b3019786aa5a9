//! Streams of commands and what is taken from them, worked by hand from the table of commands: each form of line, right and
//! wrong by one, whatever the pieces in which the source gives its bytes.
use io_ports::{InPieces, MemorySource, ReadEnd, Source, SteadySource, read_up_to};
use session_lines::{Command, Commands, Taken, next_command};
use std::alloc::{AllocError, Global};
use std::process::Abort;

/// A word, and what stands behind it.
fn push(text: &mut Vec<u8>, word: &str, behind: &[u8]) -> Result<(), AllocError> {
    text.extend_from_slice(word.as_bytes())?;
    text.extend_from_slice(behind)
}

/// A word and a number.
fn push_number(
    alloc: Global,
    text: &mut Vec<u8>,
    word: &str,
    number: u64,
) -> Result<(), AllocError> {
    let digits = format!(in alloc; "{number}")?;
    push(text, word, digits.as_bytes())
}

/// A command, without the end of its line.
fn push_command(alloc: Global, text: &mut Vec<u8>, command: &Command) -> Result<(), AllocError> {
    match command {
        Command::Blank => push(text, "blank", b""),
        Command::Put { name, bytes } => {
            push(text, "put ", name.as_bytes())?;
            push(text, ": ", bytes.as_slice())
        }
        Command::PutTooLong { name, size } => {
            push(text, "too long ", name.as_bytes())?;
            push_number(alloc, text, " ", u64::from(*size))
        }
        Command::DropFile { name } => push(text, "drop ", name.as_bytes()),
        Command::Start => push(text, "start", b""),
        Command::Show { proc } => push(text, "show ", proc.as_bytes()),
        Command::Report => push(text, "report", b""),
        Command::Save => push(text, "save", b""),
        Command::Gen { n } => push_number(alloc, text, "gen ", u64::from(*n)),
        Command::Quit => push(text, "quit", b""),
    }
}

/// What was taken, without the end of its line.
fn push_taken(alloc: Global, text: &mut Vec<u8>, taken: &Taken) -> Result<(), AllocError> {
    match taken {
        Taken::Command(command) => push_command(alloc, text, command),
        Taken::End => push(text, "end", b""),
        Taken::Malformed { command, offset } => {
            push_number(alloc, text, "malformed ", u64::from(*command))?;
            push_number(alloc, text, " ", *offset)
        }
        Taken::Full => push(text, "full", b""),
        Taken::ReadFault => push(text, "read fault", b""),
    }
}

/// Whether more may follow.
fn goes_on(taken: &Taken) -> bool {
    match taken {
        Taken::Command(Command::Quit) => false,
        Taken::Command(_) => true,
        _ => false,
    }
}

/// All that is taken from a source, a line each.
fn session_of<S: Source>(alloc: Global, source: &mut S) -> Result<Vec<u8>, AllocError> {
    let mut commands = Commands::new(alloc);
    let mut text = Vec::new(alloc);
    for _ in 0..70_000u32 {
        let taken = next_command(alloc, &mut commands, source)?;
        push_taken(alloc, &mut text, &taken)?;
        text.push(b'\n')?;
        if !goes_on(&taken) {
            break;
        }
    }
    Ok(text)
}

/// A source of these bytes.
fn steady_of(alloc: Global, bytes: &[u8]) -> Result<SteadySource, AllocError> {
    SteadySource::new(alloc, Vec::from_slice(alloc, bytes)?)
}

/// From these bytes, in pieces of this size, this is taken.
fn takes(rt: &impl Abort, alloc: Global, bytes: &[u8], size: usize, want: &[u8]) {
    let steady = steady_of(alloc, bytes).expect(rt, "memory");
    let mut source = InPieces::new(steady, size.max(1));
    let text = session_of(alloc, &mut source).expect(rt, "memory");
    assert_eq!(rt; text.as_slice(), want, "of {bytes:?} in pieces of {size}");
}

/// Streams, and what is taken from each.
const STREAMS: [(&str, &str); 22] = [
    ("", "end\n"),
    ("\n", "blank\nend\n"),
    ("\n\nreport", "blank\nblank\nreport\nend\n"),
    ("report\n", "report\nend\n"),
    ("start\nsave\nstart", "start\nsave\nstart\nend\n"),
    ("put a.c 5\nhelloreport\n", "put a.c: hello\nreport\nend\n"),
    (
        "put a.c 5\nhello\nreport",
        "put a.c: hello\nblank\nreport\nend\n",
    ),
    ("put a.c 0\nreport", "put a.c: \nreport\nend\n"),
    ("put a.c 0\n", "put a.c: \nend\n"),
    ("put a.c 0", "put a.c: \nend\n"),
    (
        "put a.c 7\nreport\nput b 12\nput a 3\nquit",
        "put a.c: report\n\nput b: put a 3\nquit\nend\n",
    ),
    (
        "drop x\ndrop ../a-b_C.9\n",
        "drop x\ndrop ../a-b_C.9\nend\n",
    ),
    (
        "show f\nshow _x9\nshow while",
        "show f\nshow _x9\nshow while\nend\n",
    ),
    ("gen 1\ngen 10\ngen 1000", "gen 1\ngen 10\ngen 1000\nend\n"),
    ("quit", "quit\n"),
    ("quit\nhello", "quit\n"),
    ("drop x\nhello\n", "drop x\nmalformed 2 7\n"),
    ("\n\nhello", "blank\nblank\nmalformed 3 2\n"),
    ("put a.c 5\nhello\r\n", "put a.c: hello\nmalformed 2 15\n"),
    ("put a.c 5\nhell", "malformed 1 0\n"),
    (
        "report\nput a.c 13\nput b 5\nhell",
        "report\nmalformed 2 7\n",
    ),
    ("put a.c 1", "malformed 1 0\n"),
];

/// Lines of no form.
const NO_LINES: [&str; 42] = [
    " ",
    "report ",
    " report",
    "Report",
    "reports",
    "repor",
    "start\r",
    "\r",
    "\t",
    "start now",
    "save x",
    "quit ",
    "quit quit",
    "put",
    "put ",
    "put a.c",
    "put a.c ",
    "put  a.c 5",
    "put a.c  5",
    "put a.c 5 ",
    "put a.c 05",
    "put a.c 00",
    "put a.c +5",
    "put a.c -1",
    "put a.c 5x",
    "put a.c x",
    "put a.c 10000000",
    "put a;c 0",
    "put 0",
    "drop",
    "drop ",
    "drop  x",
    "drop x y",
    "drop x ",
    "show",
    "show ",
    "show 9f",
    "show f-g",
    "gen",
    "gen 0",
    "gen 01",
    "gen 1001",
];

#[test]
fn streams_are_taken_apart_whatever_the_pieces(rt: HostRuntime) {
    for (stream, want) in STREAMS {
        for size in [1, 2, 3, 5, 8, 5000] {
            takes(&rt, rt.alloc(), stream.as_bytes(), size, want.as_bytes());
        }
    }
}

/// Behind an empty line and a report, whatever stands behind it, the line is malformed.
fn is_malformed(rt: &impl Abort, alloc: Global, line: &str, behind: &str) {
    let stream = format!(in alloc; "\nreport\n{line}{behind}").expect(rt, "memory");
    let want = b"blank\nreport\nmalformed 3 8\n";
    takes(rt, alloc, stream.as_bytes(), 4096, want);
}

#[test]
fn other_lines_are_malformed(rt: HostRuntime) {
    for line in NO_LINES {
        is_malformed(&rt, rt.alloc(), line, "");
        is_malformed(&rt, rt.alloc(), line, "\nreport\n");
    }
}

/// A line that is a word and so many of a byte.
fn line_with(alloc: Global, word: &[u8], byte: u8, count: usize) -> Result<Vec<u8>, AllocError> {
    let mut line = Vec::from_slice(alloc, word)?;
    for _ in 0..count {
        line.push(byte)?;
    }
    line.push(b'\n')?;
    Ok(line)
}

/// The word with a name of 64 bytes is taken.
fn takes_longest_name(rt: &impl Abort, alloc: Global, word: &str) {
    let named = line_with(alloc, word.as_bytes(), b'a', 64).expect(rt, "memory");
    let mut want = named.clone().expect(rt, "memory");
    want.extend_from_slice(b"end\n").expect(rt, "memory");
    takes(rt, alloc, named.as_slice(), 4096, want.as_slice());
}

/// The word with so many of a byte is malformed.
fn takes_no_name(rt: &impl Abort, alloc: Global, word: &str, byte: u8, count: usize) {
    let line = line_with(alloc, word.as_bytes(), byte, count).expect(rt, "memory");
    takes(rt, alloc, line.as_slice(), 4096, b"malformed 1 0\n");
}

#[test]
fn names_have_64_bytes(rt: HostRuntime) {
    for word in ["drop ", "show "] {
        takes_longest_name(&rt, rt.alloc(), word);
        takes_no_name(&rt, rt.alloc(), word, b'a', 65);
    }
}

#[test]
fn names_have_bytes_of_their_kind(rt: HostRuntime) {
    for byte in b"\0\t\r!\"#$%&'()*+,:;<=>?@[\\]^`{|}~\x7f\x80\xff" {
        for word in ["drop ", "show ", "put "] {
            takes_no_name(&rt, rt.alloc(), word, *byte, 1);
        }
    }
    for byte in b"./-" {
        takes_no_name(&rt, rt.alloc(), "show ", *byte, 1);
    }
}

/// Takes the first command.
fn take_one<S: Source>(alloc: Global, source: &mut S) -> Result<(), AllocError> {
    let mut commands = Commands::new(alloc);
    let _taken = next_command(alloc, &mut commands, source)?;
    Ok(())
}

/// So many bytes are left behind the first command, where each read gives one byte.
fn leaves(rt: &impl Abort, alloc: Global, bytes: &[u8], left: usize) {
    let steady = steady_of(alloc, bytes).expect(rt, "memory");
    let mut source = InPieces::new(steady, 1);
    take_one(alloc, &mut source).expect(rt, "memory");
    let rest = read_up_to(alloc, &mut source, 20_000_000);
    assert_eq!(rt; rest.end, ReadEnd::End);
    assert_eq!(rt; rest.bytes.as_slice().len(), left, "behind {bytes:?}");
}

/// Streams, and how many bytes are left behind their first command.
const LEFT: [(&str, usize); 6] = [
    ("\nreport\n", 7),
    ("report\nquit", 4),
    ("put a.c 5\nhelloreport\n", 7),
    ("put a.c 0\nreport\n", 7),
    ("hello\nreport\n", 7),
    ("put a.c 5\nhell", 0),
];

#[test]
fn nothing_is_read_that_is_not_needed(rt: HostRuntime) {
    for (stream, left) in LEFT {
        leaves(&rt, rt.alloc(), stream.as_bytes(), left);
    }
}

#[test]
fn a_line_is_read_up_to_its_257th_byte(rt: HostRuntime) {
    for (count, left) in [(256, 0), (257, 1), (300, 44)] {
        let line = line_with(rt.alloc(), b"", b'a', count).expect(&rt, "memory");
        leaves(&rt, rt.alloc(), line.as_slice(), left);
    }
}

/// A line that puts a file of this size, and so many bytes.
fn put_of(alloc: Global, size: usize, bytes: usize) -> Result<Vec<u8>, AllocError> {
    let line = format!(in alloc; "put a.c {size}\n")?;
    let mut stream = Vec::from_slice(alloc, line.as_bytes())?;
    stream.resize(stream.len().saturating_add(bytes), b' ')?;
    Ok(stream)
}

/// Sizes of files, how many bytes are there, and what is taken.
const SIZES: [(usize, usize, &str); 4] = [
    (1_048_577, 1_048_577, "too long a.c 1048577\nend\n"),
    (9_999_999, 9_999_999, "too long a.c 9999999\nend\n"),
    (9_999_999, 9_999_998, "malformed 1 0\n"),
    (1_048_576, 1_048_575, "malformed 1 0\n"),
];

#[test]
fn a_file_that_is_too_long_is_passed_over(rt: HostRuntime) {
    for (size, bytes, want) in SIZES {
        let stream = put_of(rt.alloc(), size, bytes).expect(&rt, "memory");
        takes(&rt, rt.alloc(), stream.as_slice(), 4096, want.as_bytes());
    }
}

/// The longest file as it is taken.
fn longest_taken(alloc: Global) -> Result<Vec<u8>, AllocError> {
    let mut want = Vec::from_slice(alloc, b"put a.c: ")?;
    want.resize(1_048_585, b' ')?;
    want.extend_from_slice(b"\nend\n")?;
    Ok(want)
}

#[test]
fn the_longest_file_is_put(rt: HostRuntime) {
    let stream = put_of(rt.alloc(), 1_048_576, 1_048_576).expect(&rt, "memory");
    let want = longest_taken(rt.alloc()).expect(&rt, "memory");
    takes(&rt, rt.alloc(), stream.as_slice(), 4096, want.as_slice());
}

/// What is taken of 65,536 empty lines and what stands behind them.
fn many_taken(alloc: Global, behind: &str) -> Result<Vec<u8>, AllocError> {
    let mut stream = vec![in alloc; b'\n'; 65_536]?;
    stream.extend_from_slice(behind.as_bytes())?;
    let mut source = SteadySource::new(alloc, stream)?;
    session_of(alloc, &mut source)
}

/// What stands behind as many commands as there may be, and what is taken of it.
const BEHIND: [(&str, &str); 5] = [
    ("", "end\n"),
    ("\n", "full\n"),
    ("hello", "full\n"),
    ("quit\n", "full\n"),
    ("report\nreport\n", "full\n"),
];

#[test]
fn a_session_has_so_many_commands(rt: HostRuntime) {
    for (behind, end) in BEHIND {
        let text = many_taken(rt.alloc(), behind).expect(&rt, "memory");
        let (blanks, last) = text.as_slice().split_at(text.len().min(6 * 65_536));
        assert_eq!(&rt; blanks.len(), 6 * 65_536);
        assert_eq!(&rt; last, end.as_bytes());
    }
}

/// What is taken where this call of the source fails, and each read gives one byte.
fn taken_to_fault(alloc: Global, call: u64) -> Result<Vec<u8>, AllocError> {
    let bytes = Vec::from_slice(alloc, b"report\nput a.c 5\nhello")?;
    let inner = MemorySource::new(alloc, bytes, Vec::from_slice(alloc, &[call])?)?;
    let mut source = InPieces::new(inner, 1);
    session_of(alloc, &mut source)
}

/// Calls that fail, and what is taken.
const FAULTS: [(u64, &str); 6] = [
    (0, "read fault\n"),
    (3, "read fault\n"),
    (7, "report\nread fault\n"),
    (17, "report\nread fault\n"),
    (20, "report\nread fault\n"),
    (22, "report\nput a.c: hello\nread fault\n"),
];

#[test]
fn a_failed_read_is_a_read_fault(rt: HostRuntime) {
    for (call, want) in FAULTS {
        let text = taken_to_fault(rt.alloc(), call).expect(&rt, "memory");
        assert_eq!(&rt; text.as_slice(), want.as_bytes(), "at {call}");
    }
}
