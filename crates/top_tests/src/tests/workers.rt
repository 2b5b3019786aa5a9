//! Workers beside the leader: whatever their number and whatever they do when, the bytes are the same.
use super::calls::{
    ALONE, Call, EIGHT_WORKERS, Nowhere, ONE_WORKER, SESSION, Stream, left_at, left_by, push_put,
    text,
};
use super::count_letter;
use super::work::PEEKS;
use super::worked::{STACK_REPLY, with_stack};
use heapan_top::Status;
use io_ports::Gate;
use std::alloc::{AllocError, Global};
use std::sync::Wait;
use std::sync::atomic::{AtomicU64, Ordering};
use std::thread;
use std::time::Duration;

/// As many workers as there may be.
const MOST_WORKERS: &[&str] = &["session", "--workers", "64"];

/// Words that ask for no worker, one, four, eight and 64.
const WORDS: [&[&str]; 5] = [ALONE, ONE_WORKER, &["session"], EIGHT_WORKERS, MOST_WORKERS];

#[test]
fn the_stack_module_is_reported_whatever_the_workers(rt: HostRuntime) {
    for words in WORDS {
        let call = Call {
            words,
            ..with_stack(b"report\n")
        };
        let left = left_by(&rt, rt.alloc(), call);
        assert_eq!(rt; left.status, Status::Done, "at {words:?}");
        assert_eq!(rt; text(left.written.as_slice()), STACK_REPLY, "at {words:?}");
        assert_eq!(rt; left.solves, 8, "at {words:?}");
    }
}

/// Three files that differ in little, one after another, by the leader alone.
const PEEKS_ALONE: Call = Call {
    words: ALONE,
    stream: Stream::Reports(PEEKS),
    ..SESSION
};

#[test]
fn only_what_changed_is_solved_whatever_the_workers(rt: HostRuntime) {
    let alone = left_by(&rt, rt.alloc(), PEEKS_ALONE);
    for words in WORDS {
        let call = Call {
            words,
            ..PEEKS_ALONE
        };
        let left = left_by(&rt, rt.alloc(), call);
        assert_eq!(rt; left.written, alone.written, "at {words:?}");
        assert_eq!(rt; left.solves, 3, "at {words:?}");
        assert_eq!(rt; count_letter(left.log.as_slice(), b'C'), 3, "at {words:?}");
    }
}

/// Makes each claim wait until so many have entered, for at most `NAPS` milliseconds, and notes where they never did.
#[derive(Drop)]
struct Meeting {
    together: u64,
    entered: AtomicU64,
    late: AtomicU64,
}

const NAPS: u32 = 60_000;

impl Gate for Meeting {
    fn enter<R: Wait>(&self, rt: &R, _claim: u64) {
        self.entered.fetch_add(1, Ordering::SeqCst);
        for _ in 0..NAPS {
            if self.entered.load(Ordering::SeqCst) >= self.together {
                return;
            }
            AtomicU64::new(0).park_timeout(rt, 0, Duration::from_millis(1));
        }
        self.late.store(1, Ordering::SeqCst);
    }
}

const THREE_FILES: &[u8] =
    b"put a.c 27\nint a(int x) { return x; } \nput b.c 27\nint b(int x) { return x; } \nput c.c 26\nint c(int x) { return x; }start\nreport\n";

/// Words, and how many threads solve at once then.
const TEAMS: [(&[&str], u64); 2] = [(ONE_WORKER, 2), (&["session", "--workers", "2"], 3)];

#[test]
fn the_leader_and_each_worker_solve_at_once(rt: HostRuntime) {
    for (words, together) in TEAMS {
        let gate = Meeting {
            together,
            entered: AtomicU64::new(0),
            late: AtomicU64::new(0),
        };
        let call = Call {
            words,
            stream: Stream::Of(THREE_FILES),
            ..SESSION
        };
        let left = left_at(&rt, rt.alloc(), call, &mut Nowhere, &gate);
        assert_eq!(rt; left.status, Status::Done);
        assert_eq!(rt; left.solves, 3);
        assert_eq!(rt; gate.entered.load(Ordering::SeqCst), 3);
        assert_eq!(rt; gate.late.load(Ordering::SeqCst), 0);
    }
}

/// Lets each claim yield, up to six times, by the order in which they enter.
#[derive(Drop)]
struct Yields {
    turns: AtomicU64,
}

impl Gate for Yields {
    fn enter<R: Wait>(&self, _rt: &R, _claim: u64) {
        let turn = self.turns.fetch_add(1, Ordering::SeqCst);
        for _ in 0..turn % 7 {
            thread::yield_now();
        }
    }
}

/// A module that is put again and again with other numbers in it, and reported each time.
fn edits(alloc: Global, count: usize) -> Result<Vec<u8>, AllocError> {
    let mut stream = Vec::new(alloc);
    for number in 0..count {
        let file = format!(in alloc;
            "struct n {{ struct n *next; int v; }};\nint a(struct n *x) {{ return x->v; }}\nint b(struct n *x) {{ int d = a(x); return d + {number}; }}\nint c(struct n *x) {{ while (x) x = x->next; return {number}; }}\nint d(int k) {{ return k * {number}; }}\nvoid e(struct n *x) {{ x->v = {number}; c(x); d(1); }}\n"
        )?;
        push_put(alloc, &mut stream, "m.c", file.as_bytes())?;
        stream.extend_from_slice(b"start\nreport\n")?;
    }
    Ok(stream)
}

#[test]
fn a_storm_of_workers_and_edits_is_answered_as_by_none(rt: HostRuntime) {
    let stream = edits(rt.alloc(), 40).expect(&rt, "memory");
    let call = Call {
        words: ALONE,
        stream: Stream::Of(stream.as_slice()),
        ..SESSION
    };
    let one = left_by(&rt, rt.alloc(), call);
    let gate = Yields {
        turns: AtomicU64::new(0),
    };
    let call = Call {
        words: MOST_WORKERS,
        ..call
    };
    let other = left_at(&rt, rt.alloc(), call, &mut Nowhere, &gate);
    assert_eq!(rt; one.status, other.status);
    assert!(rt; one.written == other.written);
    assert!(rt; one.written.len() > 10_000);
}
