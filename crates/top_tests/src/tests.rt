//! The program over memory. The bytes that are wanted are those of the README, or worked by hand from the definitions.

mod calls;
mod feeding;
mod sessions;
mod stores;
mod tables;
mod work;
mod worked;
mod workers;

use calls::{ALONE, Call, Moves, SESSION, Stream, WHOLE, answers, left_by, text};
use claim_core::Event;
use heapan_top::Status;
use io_ports::ReadEnd;
use sessions::{MALFORMED, SESSIONS};
use std::alloc::{AllocError, Global};
use std::process::Abort;
use std::sync::Wait;
use std::thread::Threads;
use tables::{
    ANALYSED, LARGEST, LONGEST, Pieces, REFUSED, REFUSED_BELOW, REPORTED, REPORTED_TOGETHER,
    TOO_LARGE, TOO_LONG,
};
use work::WORK;
use worked::{STACK_REPLY, WORKED, with_stack};

/// The first example: what is read.
const EXAMPLE: Call = Call {
    stream: Stream::Of(IDENTITY),
    ..SESSION
};

const IDENTITY: &[u8] = b"put a.c 24\nint id(int a){return a;}report\n";

/// What is written.
const IDENTITY_REPLY: &str = "ok\nid a.c 1\n pre emp\n post emp ret=a\ntotal 1 1 0\n";

/// What a file without procedures is answered.
const EMPTY: &str = "ok\ntotal 0 0 0\n";

/// What other words are answered.
const USAGE: &str = "usage: heapan session [--workers N] [--store PATH]\n";

/// A refusal of the first command, at the first byte.
const FIRST_REFUSED: Status = Status::Refused {
    command: 1,
    offset: 0,
};

#[test]
fn the_example_is_answered_whatever_the_pieces(rt: HostRuntime) {
    for size in [1, 2, 7, 41, 4096, usize::MAX] {
        let moves = Moves { size, ..WHOLE };
        let call = Call {
            reads: moves,
            writes: moves,
            ..EXAMPLE
        };
        answers(&rt, rt.alloc(), call, IDENTITY_REPLY, Status::Done);
    }
}

/// A session that puts the file as `a.c` and asks for a report.
fn put(file: &[u8]) -> Call<'_> {
    Call {
        stream: Stream::Put("a.c", file, b"report\n"),
        ..SESSION
    }
}

/// Each file is answered with these bytes, and the call is Done.
fn all_answer<R: Threads + Wait + Sync + Abort>(rt: &R, alloc: Global, rows: &[(&str, &str)]) {
    for row in rows {
        let (file, want) = *row;
        answers(rt, alloc, put(file.as_bytes()), want, Status::Done);
    }
}

/// The file is refused on this line with this code.
fn refuses<R: Threads + Wait + Sync + Abort>(
    rt: &R,
    alloc: Global,
    file: &[u8],
    line: u32,
    code: u16,
) {
    let want = format!(in alloc; "ok\nrefused a.c {line} {code}\n").expect(rt, "memory");
    answers(rt, alloc, put(file), want.as_str(), Status::Done);
}

#[test]
fn a_procedure_is_reported_by_what_it_returns(rt: HostRuntime) {
    all_answer(&rt, rt.alloc(), &REPORTED);
}

#[test]
fn all_procedures_are_reported_in_order(rt: HostRuntime) {
    all_answer(&rt, rt.alloc(), &REPORTED_TOGETHER);
}

#[test]
fn small_bodies_are_reported(rt: HostRuntime) {
    all_answer(&rt, rt.alloc(), &ANALYSED);
}

#[test]
fn worked_files_are_reported(rt: HostRuntime) {
    for (file, want, status) in WORKED {
        answers(&rt, rt.alloc(), put(file.as_bytes()), want, status);
    }
}

#[test]
fn the_stack_module_is_reported(rt: HostRuntime) {
    let call = with_stack(b"report\n");
    answers(&rt, rt.alloc(), call, STACK_REPLY, Status::Done);
}

#[test]
fn files_are_refused_by_their_first_cause(rt: HostRuntime) {
    for (file, code) in REFUSED {
        refuses(&rt, rt.alloc(), file.as_bytes(), 1, code);
    }
}

#[test]
fn files_are_refused_where_their_first_cause_stands(rt: HostRuntime) {
    for (file, line, code) in REFUSED_BELOW {
        refuses(&rt, rt.alloc(), file.as_bytes(), line, code);
    }
}

/// Appends a piece so many times.
fn push_times(text: &mut Vec<u8>, piece: &str, times: usize) -> Result<(), AllocError> {
    for _ in 0..times {
        text.extend_from_slice(piece.as_bytes())?;
    }
    Ok(())
}

/// The text of these pieces.
fn joined(alloc: Global, pieces: Pieces) -> Result<Vec<u8>, AllocError> {
    let mut text = Vec::new(alloc);
    for piece in pieces {
        let (piece, times) = *piece;
        push_times(&mut text, piece, times)?;
    }
    Ok(text)
}

/// Each file is answered with these bytes, and the call is Done.
fn all_fit<R: Threads + Wait + Sync + Abort>(rt: &R, alloc: Global, rows: &[(Pieces, &str)]) {
    for row in rows {
        let (pieces, want) = *row;
        let file = joined(alloc, pieces).expect(rt, "memory");
        answers(rt, alloc, put(file.as_slice()), want, Status::Done);
    }
}

/// Each file is refused on its first line with this code.
fn none_fits<R: Threads + Wait + Sync + Abort>(rt: &R, alloc: Global, rows: &[(Pieces, u16)]) {
    for row in rows {
        let (pieces, code) = *row;
        let file = joined(alloc, pieces).expect(rt, "memory");
        refuses(rt, alloc, file.as_slice(), 1, code);
    }
}

#[test]
fn what_is_too_long_is_refused(rt: HostRuntime) {
    none_fits(&rt, rt.alloc(), &TOO_LONG);
}

#[test]
fn limits_are_reached(rt: HostRuntime) {
    all_fit(&rt, rt.alloc(), &LONGEST);
}

#[test]
fn the_largest_fit_and_larger_ones_are_refused(rt: HostRuntime) {
    all_fit(&rt, rt.alloc(), &LARGEST);
    none_fits(&rt, rt.alloc(), &TOO_LARGE);
}

/// So many procedures, one on a line.
fn procedures(alloc: Global, count: usize) -> Result<Vec<u8>, AllocError> {
    let mut text = Vec::new(alloc);
    for number in 0..count {
        text.extend_from_slice(format!(in alloc; "void p{number}(void) {{ }}\n")?.as_bytes())?;
    }
    Ok(text)
}

#[test]
fn a_procedure_too_many_is_refused_on_its_line(rt: HostRuntime) {
    let file = procedures(rt.alloc(), 1_025).expect(&rt, "memory");
    refuses(&rt, rt.alloc(), file.as_slice(), 1_025, 142);
}

#[test]
fn as_many_procedures_as_there_may_be_are_reported(rt: HostRuntime) {
    let file = procedures(rt.alloc(), 1_024).expect(&rt, "memory");
    let left = left_by(&rt, rt.alloc(), put(file.as_slice()));
    assert_eq!(rt; left.status, Status::Done);
    let written = left.written.as_slice();
    assert!(rt; written.starts_with(b"ok\np0 a.c 1\n pre emp\n post emp\np1 a.c 2\n".as_slice()));
    assert!(rt;
        written.ends_with(b"p1023 a.c 1024\n pre emp\n post emp\ntotal 1024 1024 0\n".as_slice())
    );
}

/// The session of these bytes writes this text, and ends so.
fn session_answers<R: Threads + Wait + Sync + Abort>(
    rt: &R,
    alloc: Global,
    stream: &[u8],
    want: &str,
    status: Status,
) {
    let call = Call {
        stream: Stream::Of(stream),
        ..SESSION
    };
    answers(rt, alloc, call, want, status);
}

#[test]
fn sessions_are_answered_command_by_command(rt: HostRuntime) {
    for (stream, want, status) in SESSIONS {
        session_answers(&rt, rt.alloc(), stream.as_bytes(), want, status);
    }
}

#[test]
fn other_lines_are_malformed(rt: HostRuntime) {
    for line in MALFORMED {
        let want = "malformed 1 0\n";
        session_answers(&rt, rt.alloc(), line.as_bytes(), want, FIRST_REFUSED);
    }
}

/// Sizes of files of blanks, and what they are answered.
const SIZES: [(usize, &str); 3] = [
    (1_048_576, EMPTY),
    (1_048_577, "error 143\ntotal 0 0 0\n"),
    (2_000_000, "error 143\ntotal 0 0 0\n"),
];

#[test]
fn a_file_may_be_long_but_not_too_long(rt: HostRuntime) {
    for (size, want) in SIZES {
        let file = vec![in rt.alloc(); b' '; size].expect(&rt, "memory");
        answers(&rt, rt.alloc(), put(file.as_slice()), want, Status::Done);
    }
}

#[test]
fn a_session_has_so_many_commands(rt: HostRuntime) {
    for (count, status) in [(65_536, Status::Done), (65_537, Status::Full)] {
        let stream = vec![in rt.alloc(); b'\n'; count].expect(&rt, "memory");
        session_answers(&rt, rt.alloc(), stream.as_slice(), "", status);
    }
}

/// Words that are not taken.
const OTHER_WORDS: [&[&str]; 21] = [
    &[],
    &["run"],
    &["session", "x"],
    &["session", "session"],
    &["Session"],
    &[""],
    &["--workers", "3"],
    &["session", "--workers"],
    &["session", "--workers", "65"],
    &["session", "--workers", "100"],
    &["session", "--workers", ""],
    &["session", "--workers", "-1"],
    &["session", "--workers", "+1"],
    &["session", "--workers", "x"],
    &["session", "--workers", "1", "--workers", "1"],
    &["session", "--store"],
    &["session", "--store", "s", "--store", "s"],
    &["session", "--help"],
    &["--help"],
    &["session", "--", "--workers", "1"],
    &["session", "-w", "1"],
];

#[test]
fn other_words_meet_the_usage_line(rt: HostRuntime) {
    for words in OTHER_WORDS {
        let left = left_by(&rt, rt.alloc(), Call { words, ..EXAMPLE });
        assert_eq!(rt; left.status, Status::Usage, "at {words:?}");
        assert_eq!(rt; text(left.written.as_slice()), USAGE, "at {words:?}");
        assert_eq!(rt; left.unread.end, ReadEnd::End, "at {words:?}");
        assert_eq!(rt;
            left.unread.bytes.as_slice(),
            IDENTITY,
            "nothing is read at {words:?}"
        );
    }
}

/// Words that are taken.
const RIGHT_WORDS: [&[&str]; 9] = [
    &["session"],
    &["session", "--workers", "0"],
    &["session", "--workers", "1"],
    &["session", "--workers=3"],
    &["--workers", "08", "session"],
    &["--workers=8", "--", "session"],
    &["session", "--workers", "64"],
    &["--", "session"],
    &["session", "--workers=00"],
];

#[test]
fn workers_are_asked_for_as_words_are_taken(rt: HostRuntime) {
    for words in RIGHT_WORDS {
        let call = Call { words, ..EXAMPLE };
        answers(&rt, rt.alloc(), call, IDENTITY_REPLY, Status::Done);
    }
}

#[test]
fn a_failed_read_is_a_read_fault(rt: HostRuntime) {
    for fail_at in [0, 1, 20] {
        let call = Call {
            reads: Moves { size: 1, fail_at },
            ..EXAMPLE
        };
        answers(&rt, rt.alloc(), call, "", Status::ReadFault);
    }
}

/// Whether the call is answered; where it is not, the write of this number failed, and a front was written.
fn is_answered<R: Threads + Wait + Sync + Abort>(rt: &R, alloc: Global, writes: Moves) -> bool {
    let left = left_by(rt, alloc, Call { writes, ..EXAMPLE });
    let written = left.written.as_slice();
    if left.status == Status::Done {
        assert_eq!(rt; text(written), IDENTITY_REPLY);
        return true;
    }
    assert_eq!(rt; left.status, Status::WriteFault, "at {}", writes.fail_at);
    assert!(rt; writes.fail_at > 0 || written.is_empty());
    assert!(rt; IDENTITY_REPLY.as_bytes().starts_with(written));
    false
}

/// Each write of the call fails in turn.
fn each_write_fails<R: Threads + Wait + Sync + Abort>(rt: &R, alloc: Global, size: usize) {
    for fail_at in 0..100 {
        if is_answered(rt, alloc, Moves { size, fail_at }) {
            assert!(rt; fail_at > 0);
            return;
        }
    }
    panic!(rt; "there are more writes");
}

#[test]
fn a_failed_write_is_a_write_fault_and_leaves_a_front(rt: HostRuntime) {
    for size in [3, 1000] {
        each_write_fails(&rt, rt.alloc(), size);
    }
}

/// In the gate no allocation fails, and the reply is compared alone; `rt try --test --fail-alloc N` lets the Nth fail.
#[test]
fn want_of_memory_is_told_and_leaves_a_front(rt: HostRuntime) {
    let call = Call {
        writes: Moves { size: 16, ..WHOLE },
        ..EXAMPLE
    };
    let left = left_by(&rt, rt.alloc(), call);
    let written = left.written.as_slice();
    if left.status == Status::NoMemory {
        assert!(rt; IDENTITY_REPLY.as_bytes().starts_with(written));
    } else {
        assert_eq!(rt; left.status, Status::Done);
        assert_eq!(rt; text(written), IDENTITY_REPLY);
    }
}

#[test]
fn a_status_has_its_number(rt: HostRuntime) {
    let rows = [
        (Status::Done, 0),
        (Status::Unproven, 1),
        (FIRST_REFUSED, 2),
        (Status::ReadFault, 3),
        (Status::WriteFault, 4),
        (Status::StoreFault, 5),
        (Status::Usage, 6),
        (Status::Full, 7),
        (Status::NoMemory, 8),
    ];
    for (status, code) in rows {
        assert_eq!(rt; status.code(), code);
    }
}

/// What an event is.
fn letter(event: &Event) -> u8 {
    match event {
        Event::Revise { .. } => b'R',
        Event::Claim { .. } => b'C',
        Event::Publish { .. } => b'P',
        Event::GiveBack { .. } => b'G',
    }
}

/// How many events are of this kind.
fn count_letter(log: &[Event], wanted: u8) -> usize {
    let mut count = 0usize;
    for event in log {
        if letter(event) == wanted {
            count = count.wrapping_add(1);
        }
    }
    count
}

/// What the events of a log are.
fn letters(alloc: Global, log: &[Event]) -> Result<Vec<u8>, AllocError> {
    let mut letters = Vec::new(alloc);
    for event in log {
        letters.push(letter(event))?;
    }
    Ok(letters)
}

/// These events are what is done for the replies to a stream.
fn works<R: Threads + Wait + Sync + Abort>(rt: &R, alloc: Global, stream: Stream, want: &[u8]) {
    let call = Call {
        words: ALONE,
        stream,
        ..SESSION
    };
    let left = left_by(rt, alloc, call);
    let events = letters(alloc, left.log.as_slice()).expect(rt, "memory");
    assert_eq!(rt; text(events.as_slice()), text(want));
    let published = count_letter(left.log.as_slice(), b'P');
    assert_eq!(rt; left.solves, published as u64);
}

#[test]
fn what_is_known_is_not_solved_again(rt: HostRuntime) {
    for (stream, want) in WORK {
        works(&rt, rt.alloc(), stream, want);
    }
}
