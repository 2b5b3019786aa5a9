//! Reporters through their bound.
ghost use Rattle.std.specs.Prelude.{◌≡◌, length, IfOk};

use reporters::{
    CountReporter, Entry, Go, MemoryReporter, Reporter, SharedSummary, TakeFault, feed_all,
};
use shape_data::answer::{Answer, ProcSummary, Reason};
use shape_data::symbolic::{Spec, SymHeap};
use shape_data::{Name, Row};
use std::alloc::{AllocError, Global};
use std::process::Abort;
use std::sync::Arc;

/// The spec of a procedure that touches no memory and never returns.
fn empty_spec(alloc: Global) -> Spec {
    Spec {
        pre: SymHeap {
            pure: Row::new(alloc),
            spatial: Row::new(alloc),
        },
        posts: Row::new(alloc),
    }
}

fn specs(alloc: Global, has_spec: bool) -> Result<Row<Spec>, AllocError> {
    let mut specs = Row::new(alloc);
    if has_spec {
        specs.push(empty_spec(alloc))?;
    }
    Ok(specs)
}

/// The summary of `f`, with one spec or none.
fn summary(alloc: Global, has_spec: bool) -> Result<ProcSummary, AllocError> {
    Ok(ProcSummary {
        name: Name::of(alloc, b"f")?,
        specs: specs(alloc, has_spec)?,
        certs: Row::new(alloc),
        reason: Some(Reason::Endless),
    })
}

/// An answer of one summary.
fn answer(alloc: Global, has_spec: bool) -> Result<Answer, AllocError>
    ensures { IfOk result (λ answer. length answer.procs ≡ 1) }
{
    let summary = summary(alloc, has_spec)?;
    let mut procs = Row::new(alloc);
    procs.push(summary)?;
    let stored = false;
    Ok(Answer { stored, procs })
}

fn shared_summary(alloc: Global, has_spec: bool) -> Result<SharedSummary, AllocError> {
    let answer = Arc::new(alloc, answer(alloc, has_spec)?)?;
    SharedSummary::of(&answer, 0)
}

/// The entry of `f` at this line, with one spec or none.
fn entry(alloc: Global, line: u32, has_spec: bool) -> Result<Entry, AllocError> {
    Ok(Entry {
        file: Name::of(alloc, b"a.c")?,
        line,
        summary: shared_summary(alloc, has_spec)?,
    })
}

/// What a reporter tells is this many entries, whose lines count from 0 to 7 again and again.
fn tells(rt: &impl Abort, reporter: &Box<dyn Reporter + Send>, count: usize) {
    match reporter.entries() {
        Some(entries) => {
            assert_eq!(rt; entries.len(), count);
            for (place, entry) in entries.iter().enumerate() {
                assert_eq!(rt; entry.line as usize, place % 8);
            }
        }
        None => panic!(rt; "it tells no entries"),
    }
}

/// Offers the entries of lines 0 to 7 to all reporters.
fn feed_eight(rt: &impl Abort, alloc: Global, reporters: &mut Vec<Box<dyn Reporter + Send>>) {
    for line in 0..8 {
        let entry = entry(alloc, line, line > 4).expect(rt, "memory");
        feed_all(alloc, reporters, &entry);
    }
}

/// The number of no call here.
const NEVER: u64 = 99;

/// A reporter whose call of this number fails.
fn reporter(
    alloc: Global,
    stop_at: Option<u32>,
    fail_at: u64,
) -> Result<Box<MemoryReporter>, AllocError> {
    let fail_at = Vec::from_slice(alloc, &[fail_at])?;
    Ok(Box::new(alloc, MemoryReporter::new(alloc, stop_at, fail_at)?)?)
}

/// Puts such a reporter behind others.
fn add(
    rt: &impl Abort,
    alloc: Global,
    reporters: &mut Vec<Box<dyn Reporter + Send>>,
    stop_at: Option<u32>,
    fail_at: u64,
) {
    let reporter = reporter(alloc, stop_at, fail_at).expect(rt, "memory");
    reporters.push(reporter).expect(rt, "memory");
}

#[test]
fn one_that_stops_at_its_second_entry_is_dropped(rt: HostRuntime) {
    let alloc = rt.alloc();
    let mut reporters: Vec<Box<dyn Reporter + Send>> = Vec::new(alloc);
    add(&rt, alloc, &mut reporters, Some(2), NEVER);
    add(&rt, alloc, &mut reporters, None, NEVER);
    for count in [8, 16] {
        feed_eight(&rt, alloc, &mut reporters);
        assert_eq!(rt; reporters.len(), 1);
        for reporter in &reporters {
            tells(&rt, reporter, count);
        }
    }
}

#[test]
fn one_that_fails_is_dropped_and_the_others_stay_in_order(rt: HostRuntime) {
    let alloc = rt.alloc();
    let mut reporters: Vec<Box<dyn Reporter + Send>> = Vec::new(alloc);
    for (stop_at, fail_at) in [(None, 9), (None, 1), (Some(9), 8), (Some(1), 9)] {
        add(&rt, alloc, &mut reporters, stop_at, fail_at);
    }
    let counts = Box::new(alloc, CountReporter::new()).expect(&rt, "memory");
    reporters.push(counts).expect(&rt, "memory");
    let lefts = [4, 3, 3, 3, 3, 3, 3, 3, 2];
    for (line, left) in lefts.iter().enumerate() {
        let entry = entry(alloc, line as u32, true).expect(&rt, "memory");
        feed_all(alloc, &mut reporters, &entry);
        assert_eq!(rt; reporters.len(), *left);
    }
    for reporter in &reporters {
        if let Some(entries) = reporter.entries() {
            assert_eq!(rt; entries.len(), 9);
        }
    }
}

/// A reporter that stops at its second entry, and whose second and third call fail.
fn failing(alloc: Global) -> Result<MemoryReporter, AllocError> {
    MemoryReporter::new(alloc, Some(2), Vec::from_slice(alloc, &[1, 2])?)
}

#[test]
fn a_reporter_in_memory_fails_where_it_is_told_to(rt: HostRuntime) {
    let alloc = rt.alloc();
    let mut reporter = failing(alloc).expect(&rt, "memory");
    let answers = [
        Ok(Go::More),
        Err(TakeFault::Failed),
        Err(TakeFault::Failed),
        Ok(Go::Stop),
        Ok(Go::More),
    ];
    for answer in answers {
        let entry = entry(alloc, 0, false).expect(&rt, "memory");
        assert_eq!(rt; reporter.take(alloc, &entry), answer);
    }
}

#[test]
fn entries_are_counted(rt: HostRuntime) {
    let alloc = rt.alloc();
    let mut reporter = CountReporter::new();
    for line in 0..8 {
        let entry = entry(alloc, line, line > 4).expect(&rt, "memory");
        assert_eq!(rt; reporter.take(alloc, &entry), Ok(Go::More));
    }
    assert_eq!(rt; reporter.count, 8);
    assert_eq!(rt; reporter.without_spec, 5);
    assert!(rt; reporter.entries().is_none());
}
