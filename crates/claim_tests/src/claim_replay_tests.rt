//! Logs by hand, over programs in which `f` calls `g`, and the worlds that they lead to, as tables of plain values. The component of
//! `g` stands first.
ghost use Rattle.std.specs.Prelude.{All, IfOk};
ghost use Rattle.claim_replay.specs.Values.{IsFormed};

use claim_core::Event;
use claim_replay::{World, replay};
use shape_data::well_formed_program;
use std::alloc::Global;
use std::process::Abort;
use std::test::Fail;
use toy_programs::answers::answer;
use toy_programs::keys::key;
use toy_programs::programs::{CALLER, LEAF, OTHER_LEAF, Sketch, program};

/// An event.
enum Step<'a> {
    /// The revision's number, and its program.
    Revise(u64, &'a [Sketch<'a>]),
    /// The claim's number, its component, the procedure of its key, and how many specs each procedure that this one calls has.
    Claim(u64, u32, Sketch<'a>, &'a [(u8, u32)]),
    /// The claim's number, the procedure of its key, how many specs this has in the answer, and whether it is kept.
    Publish(u64, Sketch<'a>, u32, bool),
    /// The claim's number.
    GiveBack(u64),
}

/// Where the first events of a log lead: how many events these are, the revision, the numbers of the slots' claims, those of the
/// outstanding claims, and how many claims were made.
struct Led<'a>(usize, u64, &'a [u64], &'a [u64], u64);

/// A log.
struct Log<'a> {
    steps: &'a [Step<'a>],
    leads: &'a [Led<'a>],
}

/// `g` with a third body.
const THIRD_LEAF: Sketch = Sketch { value: 2, ..LEAF };

const BOTH: &[Sketch] = &[CALLER, LEAF];

const CHANGED: &[Sketch] = &[CALLER, OTHER_LEAF];

const CHANGED_AGAIN: &[Sketch] = &[CALLER, THIRD_LEAF];

const ALONE: &[Sketch] = &[CALLER];

/// What `f` knows of `g` without specs.
const NO_SPEC: &[(u8, u32)] = &[(b'g', 0)];

const ONE_SPEC: &[(u8, u32)] = &[(b'g', 1)];

const EACH_KIND: &Log = &Log {
    steps: &[
        Step::Revise(1, BOTH),
        Step::Claim(1, 0, LEAF, &[]),
        Step::Publish(1, LEAF, 0, true),
        Step::Claim(2, 1, CALLER, NO_SPEC),
        Step::Publish(2, CALLER, 0, true),
        Step::Revise(2, ALONE),
        Step::Claim(3, 0, CALLER, &[]),
        Step::GiveBack(3),
    ],
    leads: &[
        Led(0, 0, &[], &[], 0),
        Led(1, 1, &[], &[], 0),
        Led(2, 1, &[], &[1], 1),
        Led(3, 1, &[1], &[], 1),
        Led(4, 1, &[1], &[2], 2),
        Led(5, 1, &[1, 2], &[], 2),
        Led(6, 2, &[2], &[], 2),
        Led(7, 2, &[2], &[3], 3),
        Led(8, 2, &[2], &[], 3),
    ],
};

const MAY_NOT_HAPPEN: &Log = &Log {
    steps: &[
        Step::Revise(1, BOTH),
        Step::Revise(3, CHANGED),
        Step::Revise(2, BOTH),
        Step::Claim(2, 0, LEAF, &[]),
        Step::Claim(1, 1, CALLER, NO_SPEC),
        Step::Claim(1, 0, OTHER_LEAF, &[]),
        Step::Claim(1, 7, LEAF, &[]),
        Step::Publish(1, LEAF, 0, true),
        Step::GiveBack(1),
        Step::Claim(1, 0, LEAF, &[]),
        Step::Claim(2, 0, LEAF, &[]),
        Step::Publish(1, LEAF, 0, false),
        Step::Publish(1, LEAF, 0, true),
        Step::Claim(2, 0, LEAF, &[]),
    ],
    leads: &[
        Led(9, 1, &[], &[], 0),
        Led(12, 1, &[], &[1], 1),
        Led(14, 1, &[1], &[], 1),
    ],
};

/// The component is gone.
const GONE: &Log = &Log {
    steps: &[
        Step::Revise(1, BOTH),
        Step::Claim(1, 0, LEAF, &[]),
        Step::Revise(2, ALONE),
        Step::Publish(1, LEAF, 0, true),
        Step::Publish(1, LEAF, 0, false),
    ],
    leads: &[Led(4, 2, &[], &[1], 1), Led(5, 2, &[], &[], 1)],
};

/// Its procedure is another one.
const ANOTHER: &Log = &Log {
    steps: &[
        Step::Revise(1, BOTH),
        Step::Claim(1, 0, LEAF, &[]),
        Step::Revise(2, CHANGED),
        Step::Publish(1, LEAF, 0, true),
        Step::Publish(1, LEAF, 0, false),
    ],
    leads: &[Led(4, 2, &[], &[1], 1), Led(5, 2, &[], &[], 1)],
};

/// It is settled.
const SETTLED: &Log = &Log {
    steps: &[
        Step::Revise(1, BOTH),
        Step::Claim(1, 0, LEAF, &[]),
        Step::Revise(2, CHANGED),
        Step::Claim(2, 0, OTHER_LEAF, &[]),
        Step::Publish(2, OTHER_LEAF, 0, true),
        Step::Publish(1, LEAF, 1, true),
        Step::Publish(1, LEAF, 1, false),
    ],
    leads: &[Led(6, 2, &[2], &[1], 2), Led(7, 2, &[2], &[], 2)],
};

/// Its procedure is what it was.
const BACK: &Log = &Log {
    steps: &[
        Step::Revise(1, BOTH),
        Step::Claim(1, 0, LEAF, &[]),
        Step::Revise(2, CHANGED),
        Step::Revise(3, BOTH),
        Step::Publish(1, LEAF, 0, true),
    ],
    leads: &[Led(5, 3, &[1], &[], 1)],
};

/// The answer to a claim comes behind that to a later one.
const LATER: &Log = &Log {
    steps: &[
        Step::Revise(1, BOTH),
        Step::Claim(1, 0, LEAF, &[]),
        Step::Publish(1, LEAF, 0, true),
        Step::Claim(2, 1, CALLER, NO_SPEC),
        Step::Revise(2, CHANGED),
        Step::Claim(3, 0, OTHER_LEAF, &[]),
        Step::Publish(3, OTHER_LEAF, 1, true),
        Step::Claim(4, 1, CALLER, ONE_SPEC),
        Step::Publish(4, CALLER, 0, true),
        Step::Revise(3, CHANGED_AGAIN),
        Step::Publish(2, CALLER, 0, true),
        Step::Publish(2, CALLER, 0, false),
    ],
    leads: &[
        Led(9, 2, &[3, 4], &[2], 4),
        Led(11, 3, &[3, 4], &[2], 4),
        Led(12, 3, &[3, 4], &[], 4),
    ],
};

/// There is no later one.
const OLDER: &Log = &Log {
    steps: &[
        Step::Revise(1, BOTH),
        Step::Claim(1, 0, LEAF, &[]),
        Step::Publish(1, LEAF, 0, true),
        Step::Claim(2, 1, CALLER, NO_SPEC),
        Step::Revise(2, CHANGED),
        Step::Publish(2, CALLER, 0, true),
    ],
    leads: &[Led(6, 2, &[1, 2], &[], 2)],
};

fn revise(rt: &impl Abort, alloc: Global, revision: u64, sketches: &[Sketch]) -> Result<Event, Fail>
    ensures { IfOk result IsFormed }
{
    let program = program(alloc, sketches)?;
    assert!(rt; well_formed_program(&program));
    Ok(Event::Revise { revision, program })
}

fn claim(
    alloc: Global,
    number: u64,
    component: u32,
    sketch: Sketch,
    known: &[(u8, u32)],
) -> Result<Event, Fail>
    ensures { IfOk result IsFormed }
{
    let key = key(alloc, sketch, known)?;
    Ok(Event::Claim {
        number,
        worker: 0,
        component,
        key,
    })
}

fn publish(
    alloc: Global,
    number: u64,
    sketch: Sketch,
    count: u32,
    kept: bool,
) -> Result<Event, Fail>
    ensures { IfOk result IsFormed }
{
    let key = key(alloc, sketch, &[])?;
    let answer = answer(alloc, &key, count)?;
    Ok(Event::Publish {
        number,
        answer,
        kept,
    })
}

fn event(rt: &impl Abort, alloc: Global, step: &Step) -> Result<Event, Fail>
    ensures { IfOk result IsFormed }
{
    match step {
        Step::Revise(revision, sketches) => revise(rt, alloc, *revision, *sketches),
        Step::Claim(number, component, sketch, known) => {
            claim(alloc, *number, *component, *sketch, *known)
        }
        Step::Publish(number, sketch, count, kept) => {
            publish(alloc, *number, *sketch, *count, *kept)
        }
        Step::GiveBack(number) => Ok(Event::GiveBack { number: *number }),
    }
}

fn events(rt: &impl Abort, alloc: Global, steps: &[Step]) -> Result<Vec<Event>, Fail>
    ensures { IfOk result (λ log. All IsFormed log.items) }
{
    let mut log = Vec::new(alloc);
    for step in steps {
        log.push(event(rt, alloc, step)?)?;
    }
    Ok(log)
}

/// The world after these events.
fn world_after(rt: &impl Abort, alloc: Global, steps: &[Step]) -> Result<World, Fail> {
    let log = events(rt, alloc, steps)?;
    Ok(replay(alloc, &log)?)
}

/// Whether it is the world of this row.
fn is_world(alloc: Global, world: &World, row: &Led) -> Result<bool, Fail> {
    let Led(_, revision, slots, out, made) = row;
    let settled: Vec<u64> = world.slots.iter().map(|slot| slot.claim).collect(alloc)?;
    let outstanding: Vec<u64> = world.out.iter().map(|claim| claim.number).collect(alloc)?;
    Ok(
        world.revision == *revision
            && settled.as_slice() == *slots
            && outstanding.as_slice() == *out
            && world.made == *made,
    )
}

/// The log leads to the worlds of its rows.
fn leads(rt: &impl Abort, alloc: Global, log: &Log) -> Result<(), Fail> {
    for row in log.leads {
        let events = row.0;
        assert!(rt; events <= log.steps.len());
        let world = world_after(rt, alloc, &log.steps[..events])?;
        assert!(rt; is_world(alloc, &world, row)?, "after {events} events");
    }
    Ok(())
}

#[test]
fn events_of_each_kind_happen(rt: HostRuntime) -> Result<(), Fail> {
    leads(&rt, rt.alloc(), EACH_KIND)
}

#[test]
fn events_that_may_not_happen_change_nothing(rt: HostRuntime) -> Result<(), Fail> {
    leads(&rt, rt.alloc(), MAY_NOT_HAPPEN)
}

#[test]
fn late_answers_are_kept_or_stale(rt: HostRuntime) -> Result<(), Fail> {
    let alloc = rt.alloc();
    leads(&rt, alloc, GONE)?;
    leads(&rt, alloc, ANOTHER)?;
    leads(&rt, alloc, SETTLED)?;
    leads(&rt, alloc, BACK)
}

#[test]
fn an_answer_is_not_kept_over_that_of_a_later_claim(rt: HostRuntime) -> Result<(), Fail> {
    let alloc = rt.alloc();
    leads(&rt, alloc, LATER)?;
    leads(&rt, alloc, OLDER)
}
