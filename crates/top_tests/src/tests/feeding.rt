//! Reporters are fed the entries of each report, when its reply was written.
use super::calls::{Call, Kind, Left, Moves, NEVER, SESSION, Stream, WHOLE, left_by, text};
use super::worked::{STACK_REPLY, with_stack};
use heapan_top::Status;
use std::alloc::Global;
use std::process::Abort;
use std::sync::Wait;
use std::thread::Threads;

/// A reporter that keeps all.
const KEEPS: Kind = Kind::Keeps(None, NEVER);

/// A report, and two.
const ONE: &[u8] = b"report\n";

const TWO: &[u8] = b"report\nreport\n";

/// What one tells that has taken a report on the stack module.
const EIGHT: &str = "tells
make stack.c
empty stack.c
push stack.c
pop stack.c
clear stack.c
length stack.c
count stack.c
destroy stack.c
";

/// What one tells that has taken two.
const SIXTEEN: &str = "tells
make stack.c
empty stack.c
push stack.c
pop stack.c
clear stack.c
length stack.c
count stack.c
destroy stack.c
make stack.c
empty stack.c
push stack.c
pop stack.c
clear stack.c
length stack.c
count stack.c
destroy stack.c
";

/// The call ends so, and this is what the reporters tell that stay.
fn tells<R: Threads + Wait + Sync + Abort>(
    rt: &R,
    alloc: Global,
    call: Call,
    status: Status,
    told: &str,
) -> Left {
    let left = left_by(rt, alloc, call);
    assert_eq!(rt; left.status, status);
    assert_eq!(rt; text(left.told.as_slice()), told);
    left
}

/// Reporters that are handed to a session over the stack module, what stands behind that, and what those tell that stay.
type Row = (&'static [Kind], &'static [u8], &'static str);

/// Each session is Done, and its reporters that stay tell this.
fn all_tell<R: Threads + Wait + Sync + Abort>(rt: &R, alloc: Global, rows: &[Row]) {
    for row in rows {
        let (reporters, behind, told) = *row;
        let call = Call {
            reporters,
            ..with_stack(behind)
        };
        tells(rt, alloc, call, Status::Done, told);
    }
}

/// Two reporters, the first of which stops at its second entry.
const STOPS: &[Kind] = &[Kind::Keeps(Some(2), NEVER), KEEPS];

#[test]
fn one_that_stops_is_dropped_and_the_other_has_all(rt: HostRuntime) {
    all_tell(
        &rt,
        rt.alloc(),
        &[(STOPS, ONE, EIGHT), (STOPS, TWO, SIXTEEN)],
    );
}

/// One that refuses the last of a report's eight entries, and one that refuses the first behind them.
const UNTOLD: &[Row] = &[
    (&[Kind::Shy(8)], ONE, ""),
    (&[Kind::Shy(9)], ONE, "tells nothing\n"),
    (&[Kind::Shy(9)], TWO, ""),
];

#[test]
fn one_that_tells_nothing_is_offered_each_entry_once(rt: HostRuntime) {
    all_tell(&rt, rt.alloc(), UNTOLD);
}

#[test]
fn one_that_fails_is_dropped_and_the_reply_is_the_same(rt: HostRuntime) {
    let call = Call {
        reporters: &[Kind::Keeps(None, 1)],
        ..with_stack(ONE)
    };
    let left = tells(&rt, rt.alloc(), call, Status::Done, "");
    assert_eq!(rt; text(left.written.as_slice()), STACK_REPLY);
}

#[test]
fn a_report_that_is_not_written_is_fed_to_nobody(rt: HostRuntime) {
    let call = Call {
        writes: Moves {
            fail_at: 2,
            ..WHOLE
        },
        reporters: &[KEEPS],
        ..with_stack(TWO)
    };
    let left = tells(&rt, rt.alloc(), call, Status::WriteFault, EIGHT);
    assert_eq!(rt; text(left.written.as_slice()), STACK_REPLY);
}

/// Streams, and what one tells that keeps all.
const FED: [(&[u8], &str); 4] = [
    (
        b"put a.c 24\nint id(int a){return a;}show id\nstart\n",
        "tells\n",
    ),
    (b"gen 4\n", "tells\n"),
    (
        b"gen 4\nreport\nshow g3\n",
        "tells\ng0 gen.c\ng1 gen.c\ng2 gen.c\ng3 gen.c\n",
    ),
    (
        b"put a.c 5\nhelloreport\nput a.c 24\nint id(int a){return a;}report\nreport\n",
        "tells\nid a.c\nid a.c\n",
    ),
];

#[test]
fn only_reports_on_programs_are_fed(rt: HostRuntime) {
    for (stream, told) in FED {
        let call = Call {
            stream: Stream::Of(stream),
            reporters: &[KEEPS],
            ..SESSION
        };
        tells(&rt, rt.alloc(), call, Status::Done, told);
    }
}

#[test]
fn one_that_counts_stays_and_tells_nothing(rt: HostRuntime) {
    all_tell(
        &rt,
        rt.alloc(),
        &[(&[Kind::Counts], TWO, "tells nothing\n")],
    );
}
