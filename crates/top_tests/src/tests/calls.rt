//! A call of the program over memory: what is handed to it, as plain values, and what it leaves.
use claim_core::Event;
use heapan_top::{Outcome, Status, run};
use io_ports::{
    Gate, Held, InPieces, KeepFault, Keeper, MemorySink, MemorySource, OpenGate, ReadSoFar, Sink,
    Source, read_up_to,
};
use reporters::{CountReporter, Entry, Go, MemoryReporter, Reporter, TakeFault};
use std::alloc::{AllocError, Global};
use std::process::Abort;
use std::sync::Wait;
use std::thread::Threads;

/// A stream of commands.
#[derive(Clone, Copy)]
pub enum Stream<'a> {
    /// These bytes.
    Of(&'a [u8]),
    /// A file that is put under its name, and the bytes behind it.
    Put(&'static str, &'a [u8], &'static [u8]),
    /// Files, each of which is put under its name and reported on.
    Reports(&'static [(&'static str, &'static [u8])]),
}

/// How bytes are moved: how many a read or a write moves at most, and the number of the one that fails, from 0.
#[derive(Clone, Copy)]
pub struct Moves {
    pub size: usize,
    pub fail_at: u64,
}

/// The number of no call.
pub const NEVER: u64 = u64::MAX;

/// As many bytes as there are, with no fault.
pub const WHOLE: Moves = Moves {
    size: usize::MAX,
    fail_at: NEVER,
};

/// A reporter that is handed in.
#[derive(Clone, Copy)]
pub enum Kind {
    /// Keeps what it takes; the number of entries at which it stops, and that of the call at which it fails.
    Keeps(Option<u32>, u64),
    /// Tells nothing, and refuses the entry of this number, from 1 on.
    Shy(u64),
    /// Counts.
    Counts,
}

/// A call of the program.
#[derive(Clone, Copy)]
pub struct Call<'a> {
    /// The words behind the program's name.
    pub words: &'static [&'static str],
    pub stream: Stream<'a>,
    pub reads: Moves,
    pub writes: Moves,
    pub reporters: &'static [Kind],
}

/// The word `session` over no bytes.
pub const SESSION: Call = Call {
    words: &["session"],
    stream: Stream::Of(b""),
    reads: WHOLE,
    writes: WHOLE,
    reporters: &[],
};

/// The words that ask for no worker beside the leader.
pub const ALONE: &[&str] = &["session", "--workers", "0"];

/// The words that ask for one.
pub const ONE_WORKER: &[&str] = &["session", "--workers", "1"];

/// The words that ask for eight.
pub const EIGHT_WORKERS: &[&str] = &["session", "--workers", "8"];

/// What a call leaves.
#[derive(Drop)]
pub struct Left {
    /// How it ended.
    pub status: Status,
    /// The bytes that it wrote.
    pub written: Vec<u8>,
    /// What the source has left, up to 1,000 bytes.
    pub unread: ReadSoFar,
    /// What was done for it.
    pub log: Vec<Event>,
    /// How many answers were published.
    pub solves: u64,
    /// What the reporters tell that stay.
    pub told: Vec<u8>,
}

/// A keeper for sessions that ask for none: it has no path, and takes nothing.
#[derive(Drop)]
pub struct Nowhere;

impl Keeper for Nowhere {
    ghost use Rattle.std.specs.declared.option.Option.TheVariants.{None};

    ghost kept = { λ _ _. None };

    ghost faults = { λ _. 0 };

    fn read_all(&mut self, _alloc: Global, _path: &str) -> Result<Held, KeepFault> {
        Err(KeepFault::OutOfMemory)
    }

    fn replace(&mut self, _alloc: Global, _path: &str, _bytes: &[u8]) -> Result<(), KeepFault> {
        Err(KeepFault::OutOfMemory)
    }
}

/// Tells nothing, and refuses one entry.
#[derive(Drop)]
struct Shy {
    /// How many entries it was offered.
    calls: u64,
    /// The number of the entry that it refuses.
    refused: u64,
}

impl Reporter for Shy {
    ghost use Rattle.std.specs.Prelude.{false, refl};
    ghost use Rattle.std.specs.declared.option.Option.TheVariants.{None};

    ghost known = { λ r. record { taken = None; faults = r.calls; steady = false; stop = None } };

    ghost untold = { λ _ _. refl };

    fn take(&mut self, _alloc: Global, _entry: &Entry) -> Result<Go, TakeFault> {
        let Some(calls) = self.calls.checked_add(1) else {
            return Ok(Go::More);
        };
        self.calls = calls;
        if calls == self.refused {
            return Err(TakeFault::Failed);
        }
        Ok(Go::More)
    }

    fn entries(&self) -> Option<&[Entry]> {
        None
    }
}

/// Bytes as text.
pub fn text(bytes: &[u8]) -> &str {
    str::from_utf8(bytes).unwrap_or("no text")
}

impl<'a> Stream<'a> {
    /// Its first bytes, those of the file that it puts, or a word, to tell it from others.
    fn front(self) -> &'a str {
        let bytes = match self {
            Stream::Of(bytes) => bytes,
            Stream::Put(_, file, _) => file,
            Stream::Reports(_) => b"reports",
        };
        text(&bytes[..bytes.len().min(80)])
    }
}

/// Appends the line that puts a file, and the file.
pub fn push_put(
    alloc: Global,
    bytes: &mut Vec<u8>,
    name: &str,
    file: &[u8],
) -> Result<(), AllocError> {
    let line = format!(in alloc; "put {name} {}\n", file.len())?;
    bytes.extend_from_slice(line.as_bytes())?;
    bytes.extend_from_slice(file)
}

/// Appends what puts each file and has it reported on.
fn push_reports(
    alloc: Global,
    bytes: &mut Vec<u8>,
    files: &[(&str, &[u8])],
) -> Result<(), AllocError> {
    for (name, file) in files {
        push_put(alloc, bytes, name, file)?;
        bytes.extend_from_slice(b"report\n")?;
    }
    Ok(())
}

/// The bytes of a stream.
fn bytes_of(alloc: Global, stream: Stream) -> Result<Vec<u8>, AllocError> {
    let mut bytes = Vec::new(alloc);
    match stream {
        Stream::Of(all) => bytes.extend_from_slice(all)?,
        Stream::Put(name, file, behind) => {
            push_put(alloc, &mut bytes, name, file)?;
            bytes.extend_from_slice(behind)?;
        }
        Stream::Reports(files) => push_reports(alloc, &mut bytes, files)?,
    }
    Ok(bytes)
}

fn source_of(
    alloc: Global,
    stream: Stream,
    reads: Moves,
) -> Result<InPieces<MemorySource>, AllocError> {
    let fail_at = Vec::from_slice(alloc, &[reads.fail_at])?;
    let source = MemorySource::new(alloc, bytes_of(alloc, stream)?, fail_at)?;
    Ok(InPieces::new(source, reads.size.max(1)))
}

fn sink_of(alloc: Global, writes: Moves) -> Result<InPieces<MemorySink>, AllocError> {
    let fail_at = Vec::from_slice(alloc, &[writes.fail_at])?;
    let sink = MemorySink::new(alloc, fail_at)?;
    Ok(InPieces::new(sink, writes.size.max(1)))
}

/// A reporter that keeps what it takes, stops at so many entries, and fails at the call of this number.
fn keeping<R: Abort>(
    rt: &R,
    alloc: Global,
    stop_at: Option<u32>,
    fail_at: u64,
) -> Box<MemoryReporter> {
    let fail_at = Vec::from_slice(alloc, &[fail_at]).expect(rt, "memory");
    let reporter = MemoryReporter::new(alloc, stop_at, fail_at).expect(rt, "memory");
    Box::new(alloc, reporter).expect(rt, "memory")
}

fn refusing<R: Abort>(rt: &R, alloc: Global, refused: u64) -> Box<Shy> {
    Box::new(alloc, Shy { calls: 0, refused }).expect(rt, "memory")
}

fn counting<R: Abort>(rt: &R, alloc: Global) -> Box<CountReporter> {
    Box::new(alloc, CountReporter::new()).expect(rt, "memory")
}

fn reporters_of<R: Abort>(rt: &R, alloc: Global, kinds: &[Kind]) -> Vec<Box<dyn Reporter + Send>> {
    let mut reporters: Vec<Box<dyn Reporter + Send>> = Vec::new(alloc);
    for kind in kinds {
        let pushed = match *kind {
            Kind::Keeps(stop_at, fail_at) => reporters.push(keeping(rt, alloc, stop_at, fail_at)),
            Kind::Shy(refused) => reporters.push(refusing(rt, alloc, refused)),
            Kind::Counts => reporters.push(counting(rt, alloc)),
        };
        pushed.expect(rt, "memory");
    }
    reporters
}

/// Appends what a reporter tells: each entry's procedure and file.
fn push_told(told: &mut Vec<u8>, reporter: &Box<dyn Reporter + Send>) -> Result<(), AllocError> {
    let Some(entries) = reporter.entries() else {
        return told.extend_from_slice(b"tells nothing\n");
    };
    told.extend_from_slice(b"tells\n")?;
    for entry in entries {
        told.extend_from_slice(entry.summary.name.as_bytes())?;
        told.extend_from_slice(b" ")?;
        told.extend_from_slice(entry.file.as_bytes())?;
        told.extend_from_slice(b"\n")?;
    }
    Ok(())
}

/// What all reporters tell, one after another.
fn told_by(
    alloc: Global,
    reporters: &Vec<Box<dyn Reporter + Send>>,
) -> Result<Vec<u8>, AllocError> {
    let mut told = Vec::new(alloc);
    for reporter in reporters {
        push_told(&mut told, reporter)?;
    }
    Ok(told)
}

/// Runs the top call. The tests call it here alone, since each place that calls it is proved with all that its contract says.
fn runs<R: Threads + Wait + Sync, S: Source, K: Sink, P: Keeper, G: Gate + Sync>(
    rt: &R,
    alloc: Global,
    words: &[&str],
    source: &mut S,
    sink: &mut K,
    keeper: &mut P,
    gate: &G,
    reporters: Vec<Box<dyn Reporter + Send>>,
) -> Outcome {
    run(rt, alloc, words, source, sink, keeper, gate, reporters)
}

/// What a call leaves with this keeper and this gate.
pub fn left_at<R: Threads + Wait + Sync + Abort, P: Keeper, G: Gate + Sync>(
    rt: &R,
    alloc: Global,
    call: Call,
    keeper: &mut P,
    gate: &G,
) -> Left {
    let reporters = reporters_of(rt, alloc, call.reporters);
    let mut source = source_of(alloc, call.stream, call.reads).expect(rt, "memory");
    let mut sink = sink_of(alloc, call.writes).expect(rt, "memory");
    let Outcome {
        status,
        log,
        solves,
        reporters,
    } = runs(
        rt,
        alloc,
        call.words,
        &mut source,
        &mut sink,
        keeper,
        gate,
        reporters,
    );
    Left {
        status,
        written: Vec::from_slice(alloc, sink.inner.held()).expect(rt, "memory"),
        unread: read_up_to(alloc, &mut source, 1000),
        log,
        solves,
        told: told_by(alloc, &reporters).expect(rt, "memory"),
    }
}

/// What a call leaves that has no store.
pub fn left_by<R: Threads + Wait + Sync + Abort>(rt: &R, alloc: Global, call: Call) -> Left {
    left_at(rt, alloc, call, &mut Nowhere, &OpenGate)
}

/// With this keeper the call writes this text, and ends so.
pub fn answers_at<R: Threads + Wait + Sync + Abort, P: Keeper>(
    rt: &R,
    alloc: Global,
    call: Call,
    keeper: &mut P,
    want: &str,
    status: Status,
) {
    let left = left_at(rt, alloc, call, keeper, &OpenGate);
    let Call {
        words,
        stream,
        reads,
        ..
    } = call;
    let front = stream.front();
    assert_eq!(rt; left.status, status, "the status of {words:?} at {front:?}");
    assert_eq!(rt;
        text(left.written.as_slice()),
        want,
        "of {words:?} at {front:?} in pieces of {}",
        reads.size
    );
}

/// The call, which has no store, writes this text, and ends so.
pub fn answers<R: Threads + Wait + Sync + Abort>(
    rt: &R,
    alloc: Global,
    call: Call,
    want: &str,
    status: Status,
) {
    answers_at(rt, alloc, call, &mut Nowhere, want, status);
}
