//! A job, programs, gates and a leader to try the pool with.
ghost use Rattle.std.specs.Prelude.{◌≡◌, ◌≤◌, IfOk, vec_len};

use claim_core::{Job, Meaning, Solved, Tally, has_program_sizes};
use io_ports::Gate;
use shape_data::answer::{Kept, Key};
use shape_data::program::Program;
use shape_data::{Row, well_formed_program};
use std::alloc::{AllocError, Global};
use std::sync::atomic::{AtomicU64, Ordering};
use std::sync::ledger::Ledger;
use std::sync::{Arc, Wait};
use std::thread;
use std::time::Duration;
use summary_book::Aim;
use toy_programs::answers::silent_answer;
use toy_programs::programs::{LEAF, Sketch, name_of, proc, program, program_of};
use worker_pool::desk::Desk;
use worker_pool::pool::Leader;
use worker_pool::shares::Hands;

/// When a job wants memory.
#[derive(Clone, Copy)]
pub enum Wants {
    Never,
    /// At its solve of this number, from 1 on.
    Once(u64),
    Always,
}

/// A job that answers every key with no specs, or wants memory.
#[derive(Drop)]
pub struct Toy {
    wants: Wants,
    solved: AtomicU64,
}

impl Toy {
    /// A job that wants memory so often.
    pub fn new(wants: Wants) -> Self {
        Toy {
            wants,
            solved: AtomicU64::new(0),
        }
    }
}

impl Meaning for Toy {
    ghost use Rattle.std.specs.Prelude.{◌≡◌, false};

    ghost solves = { λ key answer. answer.stored ≡ false };
}

impl Job for Toy {
    fn solve(
        &self,
        alloc: Global,
        key: &Arc<Key>,
        tally: &mut Tally,
    ) -> Result<Solved<Toy>, AllocError> {
        let turn = self.solved.fetch_add(1, Ordering::SeqCst).wrapping_add(1);
        let wants = match self.wants {
            Wants::Never => false,
            Wants::Once(at) => turn == at,
            Wants::Always => true,
        };
        if wants {
            return Err(AllocError);
        }
        let answer = silent_answer(alloc, key)?;
        let key = key.clone()?;
        tally.raise();
        Ok(Solved::new(key, answer))
    }
}

/// These programs, one after the other.
pub fn programs(alloc: Global, all: &[&[Sketch]]) -> Result<Vec<Arc<Program>>, AllocError> {
    let mut programs = Vec::new(alloc);
    for sketches in all {
        programs.push(program(alloc, *sketches)?)?;
    }
    Ok(programs)
}

/// Twenty-six procedures that call nobody and return this number.
fn wide(alloc: Global, value: i32) -> Result<Arc<Program>, AllocError> {
    let mut procs = Row::new(alloc);
    for name in b'a'..b'{' {
        let sketch = Sketch {
            name,
            value,
            ..LEAF
        };
        procs.push(proc(alloc, sketch)?)?;
    }
    program_of(alloc, procs)
}

/// So many programs, of 26 procedures each, that differ in all of these.
pub fn wide_programs(alloc: Global, count: i32) -> Result<Vec<Arc<Program>>, AllocError> {
    let mut programs = Vec::new(alloc);
    for value in 0..count {
        programs.push(wide(alloc, value)?)?;
    }
    Ok(programs)
}

const NAPS: u32 = 300;

/// For how many milliseconds a claim waits for another that has to come.
const PATIENCE: u32 = 60_000;

/// Sleeps for a millisecond, or less.
fn nap<R: Wait>(rt: &R) {
    AtomicU64::new(0).park_timeout(rt, 0, Duration::from_millis(1));
}

/// Lets the other threads come to the desk and wait there.
fn rest<R: Wait>(rt: &R) {
    for _ in 0..NAPS {
        nap(rt);
    }
}

/// Lets the first claims rest. Each later one before the last waits until the last has entered, for at most `PATIENCE` milliseconds.
#[derive(Drop)]
pub struct Meeting {
    pauses: u64,
    last: u64,
    /// Whether the last has entered.
    pub met: AtomicU64,
    /// How many waited in vain.
    pub late: AtomicU64,
}

impl Meeting {
    /// A gate for the claims behind the first `pauses`, up to `last`.
    pub fn new(pauses: u64, last: u64) -> Self {
        Meeting {
            pauses,
            last,
            met: AtomicU64::new(0),
            late: AtomicU64::new(0),
        }
    }
}

impl Gate for Meeting {
    fn enter<R: Wait>(&self, rt: &R, claim: u64) {
        if claim >= self.last {
            self.met.store(1, Ordering::SeqCst);
            return;
        }
        if claim <= self.pauses {
            rest(rt);
            return;
        }
        for _ in 0..PATIENCE {
            if self.met.load(Ordering::SeqCst) == 1 {
                return;
            }
            nap(rt);
        }
        self.late.fetch_add(1, Ordering::SeqCst);
    }
}

/// Lets claim 1 wait until more than `most` claims have entered, for at most `NAPS` milliseconds.
#[derive(Drop)]
pub struct Crowd {
    pub most: u64,
    pub entered: AtomicU64,
}

impl Gate for Crowd {
    fn enter<R: Wait>(&self, rt: &R, claim: u64) {
        self.entered.fetch_add(1, Ordering::SeqCst);
        if claim != 1 {
            return;
        }
        for _ in 0..NAPS {
            if self.entered.load(Ordering::SeqCst) > self.most {
                return;
            }
            nap(rt);
        }
    }
}

/// Lets each claim yield, up to six times, by the order in which they enter.
#[derive(Drop)]
pub struct Yields {
    pub turns: AtomicU64,
}

impl Gate for Yields {
    fn enter<R: Wait>(&self, _rt: &R, _claim: u64) {
        let turn = self.turns.fetch_add(1, Ordering::SeqCst);
        for _ in 0..turn % 7 {
            thread::yield_now();
        }
    }
}

/// How a leader works, and when its job wants memory.
#[derive(Clone, Copy)]
pub struct Setting {
    /// The procedure at which it aims; none where it aims at all components.
    pub aim: Option<u8>,
    /// Whether each program is started before it is settled.
    pub starts: bool,
    /// Whether it asks once more where memory was wanting.
    pub again: bool,
    /// Whether it rests before each program.
    pub rests: bool,
    pub wants: Wants,
}

/// A leader that settles one program after another, and notes the first letter of each entry, with a point behind those of a program.
#[derive(Drop)]
pub struct Asks {
    pub programs: Vec<Arc<Program>>,
    pub aim: Aim,
    pub setting: Setting,
    pub letters: Vec<u8>,
    pub most: usize,
    pub wants: bool,
}

fn aim_of(alloc: Global, at: Option<u8>) -> Result<Aim, AllocError> {
    match at {
        None => Ok(Aim::All),
        Some(letter) => Ok(Aim::One(name_of(alloc, letter)?)),
    }
}

impl Asks {
    /// A leader of these programs.
    pub fn new(
        alloc: Global,
        programs: Vec<Arc<Program>>,
        setting: Setting,
    ) -> Result<Self, AllocError> {
        Ok(Asks {
            programs,
            aim: aim_of(alloc, setting.aim)?,
            setting,
            letters: Vec::new(alloc),
            most: 0,
            wants: false,
        })
    }
}

/// Settles a program, where it is well formed.
fn ask<R: Wait, G: Gate, A: Ledger, B: Ledger>(
    rt: &R,
    alloc: Global,
    desk: &Desk<'_, Toy, G, A, B>,
    hands: &mut Hands<B>,
    program: &Arc<Program>,
    aim: &Aim,
    starts: bool,
) -> Result<Vec<Kept>, AllocError>
    ensures count { IfOk result (λ kept. vec_len kept ≤ hands.new.seen) }
    ensures rises { hands.old.seen ≤ hands.new.seen }
{
    if !well_formed_program(program) || !has_program_sizes(program) {
        return Err(AllocError);
    }
    if starts {
        desk.start(rt, alloc, program)?;
    }
    desk.settle(rt, alloc, program, aim, hands)
}

/// Notes the first letter of each entry.
fn note(letters: &mut Vec<u8>, kept: &[Kept]) -> Result<(), AllocError> {
    for one in kept {
        if let Some(flow) = one.key.procs.as_slice().first() {
            letters.extend_from_slice(flow.name.as_bytes())?;
        }
    }
    letters.push(b'.')?;
    Ok(())
}

impl<G: Gate> Leader<Toy, G> for Asks {
    ghost led = { λ before after seen. after.most ≤ seen };

    fn lead<R: Wait, A: Ledger, B: Ledger>(
        &mut self,
        rt: &R,
        alloc: Global,
        desk: &Desk<'_, Toy, G, A, B>,
        hands: &mut Hands<B>,
    ) {
        let Asks {
            programs,
            aim,
            setting,
            letters,
            most,
            wants,
        } = self;
        *most = 0;
        for program in programs.as_slice() {
            if setting.rests {
                rest(rt);
            }
            let mut answer = ask(rt, alloc, desk, hands, program, aim, setting.starts);
            if setting.again && answer.is_err() {
                answer = ask(rt, alloc, desk, hands, program, aim, setting.starts);
            }
            let Ok(kept) = answer else {
                *wants = true;
                return;
            };
            *most = kept.len();
            if note(letters, kept.as_slice()).is_err() {
                *wants = true;
                return;
            }
        }
    }
}
