//! Sessions that have a store: what they save answers the next one, and bytes that are no store are told and answer nothing.
ghost use Rattle.std.specs.Prelude.{◌<◌, length};
ghost use Rattle.shape_data.specs.Sizes.{HasProgramSizes};
ghost use Rattle.shape_data.specs.WellFormed.{IsProgram};

use super::calls::{
    ALONE, Call, EIGHT_WORKERS, NEVER, Nowhere, ONE_WORKER, SESSION, Stream, answers_at, left_at,
    text,
};
use super::count_letter;
use super::work::{CHANGED_AND_BACK, PEEKS};
use super::worked::{STACK_REPLY, with_stack};
use claim_core::Event;
use heapan_top::{LoadedAnswers, Status, StoredAnswers, agrees, plain};
use io_ports::{Gate, Keeper, MemoryKeeper, OpenGate};
use project_form::Project;
use session_generator::generate;
use shape_data::Name;
use shape_data::answer::Kept;
use shape_data::exact::is_same_shared;
use shape_data::program::Program;
use stack_module::STACK;
use std::alloc::{AllocError, Global};
use std::process::Abort;
use std::sync::atomic::{AtomicU64, Ordering};
use std::sync::{Arc, Wait};
use std::thread::Threads;
use summary_book::Aim;
use summary_store::{Loaded, encode, load};

/// Words that name a store.
const WITH_STORE: &[&str] = &["session", "--store", "s"];

/// A file with a procedure that reads a cell.
const GET: &[u8] =
    b"struct node { int data; struct node *next; };\nint get(struct node *x) { return x->data; }";

/// What a report on it is answered where the store is none.
const UNREAD_REPLY: &str = "store unread
ok
get a.c 2
 pre x|->node(data:$1,next:$2)
 post x|->node(data:$1,next:$2) ret=$1
total 1 1 0
";

/// The bytes of a store without entries.
const EMPTY_STORE: &[u8] =
    b"{\"entries\":[],\"format\":1}\n56177ba82b132c561284403f08857796de5af224c36f16e9f410781f41504ae8\n";

/// Bytes that are no store: none, a word, one too few, no JSON under a right seal, and another format under a right seal.
const UNREAD: [&[u8]; 5] = [
    b"",
    b"hello",
    b"{\"entries\":[],\"format\":1}\n56177ba82b132c561284403f08857796de5af224c36f16e9f410781f41504ae8",
    b"{\"entries\":[],\"format\":1\nfe7f2902c9ce4305f0f6eccca168a2e40821fe70f040eef77f6088b036dc7a92\n",
    b"{\"entries\":[],\"format\":9}\nc94dc3324679ec5aec6acf0b83cd9df88ab1f5bbb2910f4ab0f2db35969754dd\n",
];

/// A session with a store: the bytes of the store before it, the number of the keeper's call that fails, what is read, what is written, how
/// it ends, and the bytes of the store behind it.
#[derive(Clone, Copy)]
struct Keeping<'a> {
    before: Option<&'a [u8]>,
    fail_at: u64,
    stream: Stream<'a>,
    want: &'a str,
    status: Status,
    after: Option<&'a [u8]>,
}

/// A keeper whose store has these bytes, where there is one, and whose call of this number fails.
fn keeper_of<R: Abort>(rt: &R, alloc: Global, store: Option<&[u8]>, fail_at: u64) -> MemoryKeeper {
    let fail_at = Vec::from_slice(alloc, &[fail_at]).expect(rt, "memory");
    let mut keeper = MemoryKeeper::new(alloc, fail_at).expect(rt, "memory");
    if let Some(bytes) = store {
        keeper.replace(alloc, "s", bytes).expect(rt, "a store");
    }
    keeper
}

/// The session writes this, ends so, and leaves these bytes in the store.
fn keeps<R: Threads + Wait + Sync + Abort>(rt: &R, alloc: Global, row: Keeping) {
    let mut keeper = keeper_of(rt, alloc, row.before, row.fail_at);
    let call = Call {
        words: WITH_STORE,
        stream: row.stream,
        ..SESSION
    };
    answers_at(rt, alloc, call, &mut keeper, row.want, row.status);
    assert_eq!(rt; keeper.get("s"), row.after);
}

/// A keeper where a session saved the stack module.
fn saved<R: Threads + Wait + Sync + Abort>(rt: &R, alloc: Global) -> MemoryKeeper {
    let mut keeper = keeper_of(rt, alloc, None, NEVER);
    let call = Call {
        words: WITH_STORE,
        ..with_stack(b"save\nquit\n")
    };
    answers_at(rt, alloc, call, &mut keeper, "ok\nok\n", Status::Done);
    keeper
}

/// The stack module is reported on from the store: each of its eight components is claimed, and answered from there.
fn stack_is_known<R: Threads + Wait + Sync + Abort>(
    rt: &R,
    alloc: Global,
    keeper: &mut MemoryKeeper,
) {
    let call = Call {
        words: WITH_STORE,
        ..with_stack(b"report\n")
    };
    let left = left_at(rt, alloc, call, keeper, &OpenGate);
    assert_eq!(rt; text(left.written.as_slice()), STACK_REPLY);
    assert_eq!(rt; left.solves, 8);
    assert_eq!(rt; count_letter(left.log.as_slice(), b'C'), 8);
    for event in left.log.as_slice() {
        if let Event::Publish { answer, .. } = event {
            assert!(rt; answer.stored);
        }
    }
}

#[test]
fn what_is_saved_answers_the_next_session(rt: HostRuntime) {
    let mut keeper = saved(&rt, rt.alloc());
    stack_is_known(&rt, rt.alloc(), &mut keeper);
}

/// A session that saves nothing, and one with what that saved.
const EMPTY: [Keeping; 2] = [
    Keeping {
        before: None,
        fail_at: NEVER,
        stream: Stream::Of(b"save\n"),
        want: "ok\n",
        status: Status::Done,
        after: Some(EMPTY_STORE),
    },
    Keeping {
        before: Some(EMPTY_STORE),
        fail_at: NEVER,
        stream: Stream::Of(b""),
        want: "",
        status: Status::Done,
        after: Some(EMPTY_STORE),
    },
];

#[test]
fn a_store_without_entries_is_saved_and_read(rt: HostRuntime) {
    for row in EMPTY {
        keeps(&rt, rt.alloc(), row);
    }
}

#[test]
fn bytes_that_are_no_store_are_told_and_answer_nothing(rt: HostRuntime) {
    for bytes in UNREAD {
        let row = Keeping {
            before: Some(bytes),
            fail_at: NEVER,
            stream: Stream::Put("a.c", GET, b"report\n"),
            want: UNREAD_REPLY,
            status: Status::Done,
            after: Some(bytes),
        };
        keeps(&rt, rt.alloc(), row);
    }
}

/// A session whose reading of the store fails, and one whose saving does.
const FAILS: [(u64, &[u8]); 2] = [(0, b""), (1, b"save\n")];

#[test]
fn a_store_that_fails_ends_the_session(rt: HostRuntime) {
    for (fail_at, stream) in FAILS {
        let row = Keeping {
            before: None,
            fail_at,
            stream: Stream::Of(stream),
            want: "",
            status: Status::StoreFault,
            after: None,
        };
        keeps(&rt, rt.alloc(), row);
    }
}

#[test]
fn a_refused_program_is_not_saved(rt: HostRuntime) {
    let row = Keeping {
        before: None,
        fail_at: NEVER,
        stream: Stream::Of(b"put a.c 27\nint f(void) { return y; }\n\nsave\n"),
        want: "ok\nrefused a.c 1 121\n",
        status: Status::Done,
        after: None,
    };
    keeps(&rt, rt.alloc(), row);
}

/// How many claims a gate notes.
const MOST_CLAIMS: usize = 1024;

/// Notes how often each claim enters, and how often somebody enters with 0.
#[derive(Drop)]
struct Noting {
    entered: Vec<AtomicU64>,
}

impl Gate for Noting {
    fn enter<R: Wait>(&self, _rt: &R, claim: u64) {
        if let Some(count) = self.entered.get(claim as usize) {
            count.fetch_add(1, Ordering::SeqCst);
        }
    }
}

impl Noting {
    /// Nobody has entered.
    fn new(alloc: Global) -> Result<Self, AllocError> {
        let mut entered = Vec::new(alloc);
        for _ in 0..MOST_CLAIMS {
            entered.push(AtomicU64::new(0))?;
        }
        Ok(Noting { entered })
    }

    /// How often this claim entered, where it was noted.
    fn count(&self, claim: u64) -> Option<u64> {
        let count = self.entered.get(claim as usize)?;
        Some(count.load(Ordering::SeqCst))
    }
}

/// The program that one file is.
fn program_of<R: Abort>(rt: &R, alloc: Global, name: &str, file: &[u8]) -> Arc<Program>
    ensures formed { IsProgram result.value }
    ensures sizes { HasProgramSizes result.value }
{
    assert!(rt; !name.is_empty() && name.len() <= 64);
    let mut project = Project::new(alloc);
    let name = Name::of(alloc, name.as_bytes()).expect(rt, "memory");
    let bytes = Vec::from_slice(alloc, file).expect(rt, "memory");
    let _put = project.put(alloc, &name, bytes);
    match project.program(alloc) {
        Ok(program) => program,
        Err(_) => panic!(rt; "no program"),
    }
}

/// Some claim of the log has the entry's key, and its answer was published and kept.
fn has_entry(log: &[Event], entry: &Kept) -> bool {
    for event in log {
        if let Event::Claim { number, key, .. } = event {
            if is_same_shared(key, &entry.key) && is_kept(log, *number, entry) {
                return true;
            }
        }
    }
    false
}

/// The entry's answer was published under the claim of the number, and kept.
fn is_kept(log: &[Event], claim: u64, entry: &Kept) -> bool {
    for event in log {
        if let Event::Publish {
            number,
            answer,
            kept,
        } = event
        {
            if *number == claim && *kept && is_same_shared(answer, &entry.answer) {
                return true;
            }
        }
    }
    false
}

/// Each claim of the log entered once, and nobody entered with 0.
fn is_noted(gate: &Noting, log: &[Event]) -> bool {
    for event in log {
        if let Event::Claim { number, .. } = event {
            if gate.count(*number) != Some(1) {
                return false;
            }
        }
    }
    gate.count(0) == Some(0)
}

/// The entries that are loaded of these bytes, none where they are no store.
fn loaded_of(alloc: Global, bytes: &[u8]) -> Result<StoredAnswers, AllocError>
    requires { length bytes.now < 4294967296 }
{
    match load(alloc, bytes)? {
        Loaded::Entries {
            entries,
            dropped: _,
        } => StoredAnswers::of(alloc, entries),
        Loaded::Unread { why: _ } => Ok(StoredAnswers::none(alloc)),
    }
}

/// The entries of the keeper's store.
fn loaded_at<R: Abort>(rt: &R, alloc: Global, keeper: &MemoryKeeper) -> StoredAnswers {
    match keeper.get("s") {
        Some(bytes) => {
            assert!(rt; bytes.len() < 4_294_967_296);
            loaded_of(alloc, bytes).expect(rt, "memory")
        }
        None => panic!(rt; "no store"),
    }
}

/// What plainly answering the program that a file is over these entries gives was claimed in the log, and published.
fn has_entries<R: Wait + Abort>(
    rt: &R,
    alloc: Global,
    log: &[Event],
    stored: &StoredAnswers,
    name: &str,
    file: &[u8],
) {
    let program = program_of(rt, alloc, name, file);
    let entries = plain(rt, alloc, stored.answers(), &program, &Aim::All, &OpenGate).expect(
        rt, "memory",
    );
    for entry in entries.as_slice() {
        assert!(rt; has_entry(log, entry), "of {name}");
    }
}

/// The call, with this keeper, claims and publishes what plainly answering the program of each of these files over the store's entries
/// gives; each claim enters the gate once.
fn logs<R: Threads + Wait + Sync + Abort, P: Keeper>(
    rt: &R,
    alloc: Global,
    call: Call,
    keeper: &mut P,
    stored: &StoredAnswers,
    files: &[(&str, &[u8])],
) {
    let gate = Noting::new(alloc).expect(rt, "memory");
    let left = left_at(rt, alloc, call, keeper, &gate);
    assert!(rt; is_noted(&gate, left.log.as_slice()));
    for (name, file) in files {
        has_entries(rt, alloc, left.log.as_slice(), stored, name, file);
    }
}

/// The same of a session without a store.
fn logs_all<R: Threads + Wait + Sync + Abort>(
    rt: &R,
    alloc: Global,
    call: Call,
    files: &[(&str, &[u8])],
) {
    let none = StoredAnswers::none(alloc);
    logs(rt, alloc, call, &mut Nowhere, &none, files);
}

#[test]
fn what_is_reported_was_claimed_and_published(rt: HostRuntime) {
    let alloc = rt.alloc();
    let peeks = Call {
        words: ALONE,
        stream: Stream::Reports(PEEKS),
        ..SESSION
    };
    logs_all(&rt, alloc, peeks, PEEKS);
    for words in [ALONE, ONE_WORKER, EIGHT_WORKERS] {
        let changed = Call {
            words,
            stream: Stream::Of(CHANGED_AND_BACK),
            ..SESSION
        };
        logs_all(&rt, alloc, changed, &[("a.c", GET)]);
        let stack = Call {
            words,
            ..with_stack(b"report\n")
        };
        logs_all(&rt, alloc, stack, &[("stack.c", STACK)]);
    }
}

/// The generated file of this number is reported on with these words.
fn logs_generated<R: Threads + Wait + Sync + Abort>(
    rt: &R,
    alloc: Global,
    words: &'static [&'static str],
    number: u32,
) {
    assert!(rt; 1 <= number && number <= 1000);
    let stream = format!(in alloc; "gen {number}\n").expect(rt, "memory");
    let file = generate(alloc, number).expect(rt, "memory");
    let call = Call {
        words,
        stream: Stream::Of(stream.as_bytes()),
        ..SESSION
    };
    logs_all(rt, alloc, call, &[("gen.c", file.as_slice())]);
}

/// Words, and the numbers of generated files.
const GENERATED: [(&[&str], u32); 4] = [
    (ALONE, 4),
    (ONE_WORKER, 4),
    (EIGHT_WORKERS, 4),
    (EIGHT_WORKERS, 1000),
];

#[test]
fn what_is_generated_was_claimed_and_published(rt: HostRuntime) {
    for (words, number) in GENERATED {
        logs_generated(&rt, rt.alloc(), words, number);
    }
}

#[test]
fn what_was_loaded_is_published_too(rt: HostRuntime) {
    let alloc = rt.alloc();
    let mut keeper = saved(&rt, alloc);
    let stored = loaded_at(&rt, alloc, &keeper);
    let call = Call {
        words: &["session", "--workers", "0", "--store", "s"],
        ..with_stack(b"report\n")
    };
    let files = [("stack.c", STACK)];
    logs(&rt, alloc, call, &mut keeper, &stored, &files);
}

/// The bytes of a store that has what plainly answering the stack module gives.
fn stack_store<R: Wait + Abort>(rt: &R, alloc: Global) -> Vec<u8> {
    let program = program_of(rt, alloc, "stack.c", STACK);
    let none = LoadedAnswers::none(alloc);
    let gate = Noting::new(alloc).expect(rt, "memory");
    let entries = plain(rt, alloc, &none, &program, &Aim::All, &gate).expect(rt, "memory");
    assert_eq!(rt; entries.len(), 8);
    assert!(rt; agrees(&none, entries.as_slice()));
    assert_eq!(rt; gate.count(0), Some(8));
    encode(alloc, entries.as_slice()).expect(rt, "memory")
}

#[test]
fn the_stack_module_is_answered_plainly(rt: HostRuntime) {
    let alloc = rt.alloc();
    let bytes = stack_store(&rt, alloc);
    let mut keeper = keeper_of(&rt, alloc, Some(bytes.as_slice()), NEVER);
    stack_is_known(&rt, alloc, &mut keeper);
}
