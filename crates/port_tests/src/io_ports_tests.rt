//! Each source and sink through its bound, whatever the pieces and the faults, and the trusted edge over the real
//! thing.
use io_ports::{
    InPieces, MemorySink, MemorySource, ReadEnd, ReaderSource, Sink, SinkFault, Source, SteadySink,
    SteadySource, WriterSink, read_up_to, write_all,
};
use std::alloc::{AllocError, Global};
use std::process::Abort;
use std::test::Fail;
use std::{fs, io};

/// More bytes than one piece of a reading has.
fn many_bytes(alloc: Global) -> Result<Vec<u8>, AllocError> {
    (0..5000u32).map(|i| (i % 251) as u8).collect(alloc)
}

/// A reading up to this limit gives these bytes and this ending.
fn reads<S: Source>(
    rt: &impl Abort,
    alloc: Global,
    source: &mut S,
    limit: usize,
    want: &[u8],
    end: ReadEnd,
) {
    let read = read_up_to(alloc, source, limit);
    assert_eq!(rt; read.end, end, "the ending at limit {limit}");
    assert_eq!(rt; read.bytes.as_slice(), want, "the bytes at limit {limit}");
}

/// A source of these bytes.
fn steady_of(alloc: Global, bytes: &[u8]) -> Result<SteadySource, AllocError> {
    SteadySource::new(alloc, Vec::from_slice(alloc, bytes)?)
}

/// A source of these bytes whose calls of these numbers fail.
fn memory_of(alloc: Global, bytes: &[u8], fail_at: &[u64]) -> Result<MemorySource, AllocError> {
    let bytes = Vec::from_slice(alloc, bytes)?;
    MemorySource::new(alloc, bytes, Vec::from_slice(alloc, fail_at)?)
}

/// A reading up to this limit in pieces of this size gives these bytes and this ending.
fn pieces_give(
    rt: &impl Abort,
    alloc: Global,
    bytes: &[u8],
    size: usize,
    limit: usize,
    want: &[u8],
    end: ReadEnd,
) {
    let steady = steady_of(alloc, bytes).expect(rt, "memory");
    let mut pieces = InPieces::new(steady, size.max(1));
    reads(rt, alloc, &mut pieces, limit, want, end);
}

/// A reading up to this limit gives a front of these bytes and this ending, whatever the source.
fn sources_give(rt: &impl Abort, alloc: Global, bytes: &[u8], limit: usize, end: ReadEnd) {
    let want = &bytes[..limit.min(bytes.len())];
    let mut steady = steady_of(alloc, bytes).expect(rt, "memory");
    reads(rt, alloc, &mut steady, limit, want, end);
    let mut memory = memory_of(alloc, bytes, &[]).expect(rt, "memory");
    reads(rt, alloc, &mut memory, limit, want, end);
    for size in [1, 3, 4095, 4096, 9000] {
        pieces_give(rt, alloc, bytes, size, limit, want, end);
    }
}

/// Limits of readings of 5,000 bytes, and how these end.
const LIMITS: [(usize, ReadEnd); 6] = [
    (0, ReadEnd::Limit),
    (1, ReadEnd::Limit),
    (4097, ReadEnd::Limit),
    (5000, ReadEnd::Limit),
    (5001, ReadEnd::End),
    (usize::MAX, ReadEnd::End),
];

#[test]
fn sources_give_their_bytes_whatever_the_pieces(rt: HostRuntime) {
    let bytes = many_bytes(rt.alloc()).expect(&rt, "memory");
    for (limit, end) in LIMITS {
        sources_give(&rt, rt.alloc(), bytes.as_slice(), limit, end);
    }
}

/// Calls that fail of a source of `abcdefgh` that gives three bytes a call, what is read before each fault, and what behind the last.
type Faults = (&'static [u64], &'static [&'static str], &'static str);

const FAULTS: [Faults; 6] = [
    (&[], &[], "abcdefgh"),
    (&[0], &[""], "abcdefgh"),
    (&[1], &["abc"], "defgh"),
    (&[2], &["abcdef"], "gh"),
    (&[3], &["abcdefgh"], ""),
    (&[1, 2, 4], &["abc", "", "def"], "gh"),
];

/// This is read before each fault, and behind the last.
fn faults_lose_nothing(
    rt: &impl Abort,
    alloc: Global,
    fail_at: &[u64],
    before_faults: &[&str],
    rest: &str,
) {
    let memory = memory_of(alloc, b"abcdefgh", fail_at).expect(rt, "memory");
    let mut source = InPieces::new(memory, 3);
    for want in before_faults {
        reads(rt, alloc, &mut source, 9, want.as_bytes(), ReadEnd::Failed);
    }
    reads(rt, alloc, &mut source, 9, rest.as_bytes(), ReadEnd::End);
}

#[test]
fn a_read_fault_in_mid_stream_loses_no_byte(rt: HostRuntime) {
    for (fail_at, before_faults, rest) in FAULTS {
        faults_lose_nothing(&rt, rt.alloc(), fail_at, before_faults, rest);
    }
}

/// A writing of all of these bytes ends so.
fn writes<S: Sink>(
    rt: &impl Abort,
    alloc: Global,
    sink: &mut S,
    bytes: &[u8],
    want: Result<(), SinkFault>,
) {
    assert_eq!(rt; write_all(alloc, sink, bytes), want);
}

/// A sink whose calls of these numbers fail.
fn sink_of(alloc: Global, fail_at: &[u64]) -> Result<MemorySink, AllocError> {
    MemorySink::new(alloc, Vec::from_slice(alloc, fail_at)?)
}

/// What is written in pieces of this size is held.
fn pieces_hold(rt: &impl Abort, alloc: Global, bytes: &[u8], size: usize) {
    let steady = SteadySink::new(alloc).expect(rt, "memory");
    let mut pieces = InPieces::new(steady, size.max(1));
    writes(rt, alloc, &mut pieces, bytes, Ok(()));
    assert_eq!(rt; pieces.inner.held(), bytes, "in pieces of {size}");
}

/// What is written is held, whatever the sink.
fn sinks_hold(rt: &impl Abort, alloc: Global, bytes: &[u8]) {
    let mut steady = SteadySink::new(alloc).expect(rt, "memory");
    writes(rt, alloc, &mut steady, bytes, Ok(()));
    assert_eq!(rt; steady.held(), bytes);
    let mut memory = sink_of(alloc, &[]).expect(rt, "memory");
    writes(rt, alloc, &mut memory, bytes, Ok(()));
    assert_eq!(rt; memory.held(), bytes);
    for size in [1, 3, 8, 9] {
        pieces_hold(rt, alloc, bytes, size);
    }
}

#[test]
fn sinks_hold_what_is_written_whatever_the_pieces(rt: HostRuntime) {
    for bytes in ["", "a", "abc", "abcdefgh"] {
        sinks_hold(&rt, rt.alloc(), bytes.as_bytes());
    }
}

/// The call that fails of a sink that takes three bytes a call, how the writing of `abcdefgh` ends, what is held then, and once `xy` was
/// written behind it.
const WRITE_FAULTS: [(u64, Result<(), SinkFault>, &str, &str); 4] = [
    (0, Err(SinkFault::Failed), "", "xy"),
    (1, Err(SinkFault::Failed), "abc", "abcxy"),
    (2, Err(SinkFault::Failed), "abcdef", "abcdefxy"),
    (4, Ok(()), "abcdefgh", "abcdefghxy"),
];

/// A writing whose call of this number fails ends so and leaves this front, behind which more is written.
fn fault_leaves(
    rt: &impl Abort,
    alloc: Global,
    call: u64,
    end: Result<(), SinkFault>,
    front: &str,
    then: &str,
) {
    let memory = sink_of(alloc, &[call]).expect(rt, "memory");
    let mut sink = InPieces::new(memory, 3);
    writes(rt, alloc, &mut sink, b"abcdefgh", end);
    assert_eq!(rt; sink.inner.held(), front.as_bytes(), "fault at call {call}");
    writes(rt, alloc, &mut sink, b"xy", Ok(()));
    assert_eq!(rt;
        sink.inner.held(),
        then.as_bytes(),
        "after a fault at call {call}"
    );
}

#[test]
fn a_write_fault_in_mid_stream_leaves_a_front(rt: HostRuntime) {
    for (call, end, front, then) in WRITE_FAULTS {
        fault_leaves(&rt, rt.alloc(), call, end, front, then);
    }
}

#[test]
fn the_real_thing_moves_bytes_and_answers_faults(rt: HostRuntime) -> Result<(), Fail> {
    let alloc = rt.alloc();
    let bytes = many_bytes(alloc)?;
    let (reader, writer) = io::pipe(&rt)?;
    let mut sink = WriterSink::new(writer);
    writes(&rt, alloc, &mut sink, bytes.as_slice(), Ok(()));
    drop(sink);
    let mut source = ReaderSource::new(reader);
    reads(
        &rt,
        alloc,
        &mut source,
        5001,
        bytes.as_slice(),
        ReadEnd::End,
    );

    // A file that is open for the other purpose alone refuses each call.
    let mut only_written = ReaderSource::new(fs::create(&rt, "/dev/null")?);
    reads(&rt, alloc, &mut only_written, 9, b"", ReadEnd::Failed);
    let mut only_read = WriterSink::new(fs::open(&rt, "/dev/null")?);
    writes(&rt, alloc, &mut only_read, b"abc", Err(SinkFault::Failed));

    // A slice is a writer that takes no byte once it is full.
    let mut room = [0u8; 2];
    let mut full = WriterSink::new(&mut room[..]);
    writes(&rt, alloc, &mut full, b"abc", Err(SinkFault::Failed));
    drop(full);
    assert_eq!(rt; room.as_slice(), b"ab".as_slice());
    Ok(())
}
