//! The pool over small programs, with a job that answers at once.
mod toy;

use crate::worker_pool_tests::toy::{
    Asks, Crowd, Meeting, Setting, Toy, Wants, Yields, programs, wide_programs,
};
use claim_core::Event;
use io_ports::{Gate, OpenGate};
use shape_data::program::Program;
use std::alloc::{AllocError, Global};
use std::process::Abort;
use std::sync::atomic::{AtomicU64, Ordering};
use std::sync::{Arc, Wait};
use std::test::Fail;
use std::thread::Threads;
use summary_book::Book;
use toy_programs::programs::{CALLER, LEAF, OTHER_LEAF, Sketch};
use worker_pool::pool::{Joined, run_pool};

/// How many events of each kind a log has.
#[derive(PartialEq, Drop)]
struct Events {
    revisions: u64,
    claims: u64,
    answers: u64,
    given_back: u64,
}

fn count_events(log: &[Event]) -> Events {
    let mut all = Events {
        revisions: 0,
        claims: 0,
        answers: 0,
        given_back: 0,
    };
    for event in log {
        match event {
            Event::Revise { .. } => all.revisions = all.revisions.wrapping_add(1),
            Event::Claim { .. } => all.claims = all.claims.wrapping_add(1),
            Event::Publish { .. } => all.answers = all.answers.wrapping_add(1),
            Event::GiveBack { .. } => all.given_back = all.given_back.wrapping_add(1),
        }
    }
    all
}

/// What a pool leaves.
#[derive(Drop)]
struct Left {
    log: Vec<Event>,
    solves: u64,
    seen: u64,
    /// What its leader has noted.
    letters: Vec<u8>,
    /// Whether memory was wanting to its leader.
    wanted: bool,
}

/// Runs a pool over a new book.
fn join<R: Threads + Wait + Sync, G: Gate + Sync>(
    rt: &R,
    alloc: Global,
    workers: u32,
    job: Toy,
    gate: &G,
    leader: &mut Asks,
) -> Result<Joined<Toy>, AllocError> {
    let book = Book::new(alloc)?;
    run_pool(rt, alloc, workers, job, gate, book, leader)
}

/// Runs a leader of these programs beside so many workers.
fn run<R: Threads + Wait + Sync, G: Gate + Sync>(
    rt: &R,
    alloc: Global,
    programs: Vec<Arc<Program>>,
    setting: Setting,
    workers: u32,
    gate: &G,
) -> Result<Left, AllocError> {
    let mut leader = Asks::new(alloc, programs, setting)?;
    let job = Toy::new(setting.wants);
    let Joined { book, solves, seen } = join(rt, alloc, workers, job, gate, &mut leader)?;
    let Asks { letters, wants, .. } = leader;
    Ok(Left {
        log: book.into_log(),
        solves,
        seen,
        letters,
        wanted: wants,
    })
}

/// A leader of all components, which starts each program, and whose job never wants memory.
const PLAIN: Setting = Setting {
    aim: None,
    starts: true,
    again: false,
    rests: false,
    wants: Wants::Never,
};

const TOP: Sketch = Sketch {
    name: b'e',
    body: b"f",
    ..LEAF
};

const BEFORE: &[Sketch] = &[TOP, CALLER, LEAF];

const AFTER: &[Sketch] = &[TOP, CALLER, OTHER_LEAF];

/// A program, the same again, one with another leaf, and the first again.
const CHANGES: &[&[Sketch]] = &[BEFORE, BEFORE, AFTER, BEFORE];

#[test]
fn only_what_changed_is_solved_for_every_number_of_workers(rt: HostRuntime) -> Result<(), Fail> {
    let alloc = rt.alloc();
    for workers in [0u32, 1, 4, 8, 64] {
        let programs = programs(alloc, CHANGES)?;
        let left = run(&rt, alloc, programs, PLAIN, workers, &OpenGate)?;
        let events = count_events(&left.log);
        assert!(rt; !left.wanted);
        assert_eq!(rt; left.letters.as_slice(), b"gfe.gfe.gfe.gfe.".as_slice());
        assert_eq!(rt; events.revisions, 3);
        assert_eq!(rt; events.claims, 5);
        assert_eq!(rt; events.answers, 5);
        assert_eq!(rt; events.given_back, 0);
        assert_eq!(rt; left.solves, 5);
        assert_eq!(rt; left.seen, 5);
    }
    Ok(())
}

#[test]
fn an_aim_at_one_procedure_has_whom_it_calls(rt: HostRuntime) -> Result<(), Fail> {
    let alloc = rt.alloc();
    let programs = programs(alloc, CHANGES)?;
    let setting = Setting {
        aim: Some(b'f'),
        ..PLAIN
    };
    let left = run(&rt, alloc, programs, setting, 0, &OpenGate)?;
    assert!(rt; !left.wanted);
    assert_eq!(rt; left.letters.as_slice(), b"gf.gf.gf.gf.".as_slice());
    assert_eq!(rt; left.solves, 4);
    assert_eq!(rt; left.seen, 4);
    Ok(())
}

/// Two procedures that call nobody.
const TWO: &[&[Sketch]] = &[&[LEAF, Sketch { name: b'h', ..LEAF }]];

#[test]
fn two_threads_solve_at_once(rt: HostRuntime) -> Result<(), Fail> {
    let alloc = rt.alloc();
    for starts in [true, false] {
        let programs = programs(alloc, TWO)?;
        let setting = Setting {
            starts,
            rests: true,
            ..PLAIN
        };
        let gate = Meeting::new(0, 2);
        let left = run(&rt, alloc, programs, setting, 1, &gate)?;
        assert_eq!(rt; left.solves, 2);
        assert_eq!(rt; gate.met.load(Ordering::SeqCst), 1);
        assert_eq!(rt; gate.late.load(Ordering::SeqCst), 0);
    }
    Ok(())
}

#[test]
fn a_claim_that_wants_memory_is_given_back(rt: HostRuntime) -> Result<(), Fail> {
    let alloc = rt.alloc();
    for wants_at in 1..21u64 {
        for workers in [0u32, 4] {
            let programs = wide_programs(alloc, 2)?;
            let setting = Setting {
                wants: Wants::Once(wants_at),
                ..PLAIN
            };
            let left = run(&rt, alloc, programs, setting, workers, &OpenGate)?;
            let events = count_events(&left.log);
            assert_eq!(rt; events.given_back, 1);
            assert_eq!(rt; events.claims, events.answers.wrapping_add(1));
            assert_eq!(rt; left.solves, events.answers);
            assert!(rt; left.seen <= left.solves);
        }
    }
    Ok(())
}

#[test]
fn many_workers_over_many_changes_answer_as_none_do(rt: HostRuntime) -> Result<(), Fail> {
    let alloc = rt.alloc();
    let programs = wide_programs(alloc, 20)?;
    let alone = run(&rt, alloc, programs, PLAIN, 0, &OpenGate)?;
    let gate = Yields {
        turns: AtomicU64::new(0),
    };
    let programs = wide_programs(alloc, 20)?;
    let beside = run(&rt, alloc, programs, PLAIN, 64, &gate)?;
    assert!(rt; !alone.wanted && !beside.wanted);
    assert_eq!(rt; alone.letters.len(), 540);
    assert!(rt; alone.letters.as_slice() == beside.letters.as_slice());
    assert!(rt; count_events(&alone.log) == count_events(&beside.log));
    assert_eq!(rt; alone.solves, 520);
    assert_eq!(rt; beside.solves, 520);
    assert_eq!(rt; beside.seen, 520);
    Ok(())
}

/// An event without its program, key and answer.
#[derive(PartialEq, Drop)]
enum Told {
    /// The revision.
    Revise(u64),
    /// The claim's number, the worker and the component.
    Claim(u64, u64, u32),
    /// The claim's number, and whether its answer is kept.
    Publish(u64, bool),
    /// The claim's number.
    GiveBack(u64),
}

fn without_content(event: &Event) -> Told {
    match event {
        Event::Revise { revision, .. } => Told::Revise(*revision),
        Event::Claim {
            number,
            worker,
            component,
            ..
        } => Told::Claim(*number, *worker, *component),
        Event::Publish { number, kept, .. } => Told::Publish(*number, *kept),
        Event::GiveBack { number } => Told::GiveBack(*number),
    }
}

/// The events of a leader alone at three programs, of which the last two are the same.
const ALONE: &[Told] = &[
    Told::Revise(1),
    Told::Claim(1, 0, 0),
    Told::Publish(1, true),
    Told::Claim(2, 0, 1),
    Told::Publish(2, true),
    Told::Claim(3, 0, 2),
    Told::Publish(3, true),
    Told::Revise(2),
    Told::Claim(4, 0, 0),
    Told::Publish(4, true),
];

#[test]
fn a_leader_alone_leaves_the_events_of_its_programs(rt: HostRuntime) -> Result<(), Fail> {
    let alloc = rt.alloc();
    let programs = programs(alloc, &[BEFORE, AFTER, AFTER])?;
    let setting = Setting {
        starts: false,
        ..PLAIN
    };
    let left = run(&rt, alloc, programs, setting, 0, &OpenGate)?;
    assert_eq!(rt; left.log.len(), ALONE.len());
    for (event, told) in left.log.iter().zip(ALONE) {
        assert!(rt; without_content(event) == *told);
    }
    assert_eq!(rt; left.letters.as_slice(), b"gfe.gfe.gfe.".as_slice());
    Ok(())
}

#[test]
fn a_leader_that_asks_again_is_answered(rt: HostRuntime) -> Result<(), Fail> {
    let alloc = rt.alloc();
    let setting = Setting {
        starts: false,
        again: true,
        wants: Wants::Once(1),
        ..PLAIN
    };
    for workers in [0u32, 4] {
        let programs = programs(alloc, &[BEFORE])?;
        let left = run(&rt, alloc, programs, setting, workers, &OpenGate)?;
        let events = count_events(&left.log);
        assert!(rt; !left.wanted);
        assert_eq!(rt; left.letters.as_slice(), b"gfe.".as_slice());
        assert_eq!(rt; events.claims, 4);
        assert_eq!(rt; events.answers, 3);
        assert_eq!(rt; events.given_back, 1);
    }
    Ok(())
}

#[test]
fn a_worker_that_wants_memory_ends(rt: HostRuntime) -> Result<(), Fail> {
    let alloc = rt.alloc();
    let setting = Setting {
        starts: false,
        wants: Wants::Always,
        ..PLAIN
    };
    for workers in [0u32, 1, 4] {
        let programs = wide_programs(alloc, 1)?;
        let most = (workers as u64).wrapping_add(1);
        let gate = Crowd {
            most,
            entered: AtomicU64::new(0),
        };
        let left = run(&rt, alloc, programs, setting, workers, &gate)?;
        let events = count_events(&left.log);
        assert!(rt; left.wanted);
        assert_eq!(rt; events.answers, 0);
        assert_eq!(rt; events.claims, events.given_back);
        assert!(rt; events.given_back <= most);
    }
    Ok(())
}

/// A procedure, and three that call it.
const FOUR: &[&[Sketch]] = &[&[
    LEAF,
    CALLER,
    Sketch {
        name: b'h',
        ..CALLER
    },
    Sketch {
        name: b'i',
        ..CALLER
    },
]];

#[test]
fn two_workers_solve_beside_the_leader(rt: HostRuntime) -> Result<(), Fail> {
    let alloc = rt.alloc();
    let programs = programs(alloc, FOUR)?;
    let setting = Setting {
        starts: false,
        ..PLAIN
    };
    let gate = Meeting::new(1, 4);
    let left = run(&rt, alloc, programs, setting, 2, &gate)?;
    assert_eq!(rt; left.solves, 4);
    assert_eq!(rt; gate.met.load(Ordering::SeqCst), 1);
    assert_eq!(rt; gate.late.load(Ordering::SeqCst), 0);
    Ok(())
}
