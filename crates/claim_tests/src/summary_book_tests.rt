//! The book over small programs, with a job that answers at once: a procedure has one spec exactly where it has a slot. Its answers are
//! tested to be within the limits of a store. What is asked of a book, and what has to come of it, are tables of plain values; a claim
//! is made anew of what the log says of it.
use claim_core::{has_key_sizes, has_program_sizes};
use shape_data::answer::{Kept, Key};
use shape_data::exact::share;
use shape_data::{well_formed_key, well_formed_program};
use std::alloc::{AllocError, Global};
use std::process::Abort;
use std::sync::Arc;
use std::test::Fail;
use summary_book::{
    Aim, Book, Claim, Event, Job, Meaning, Met, Next, Published, Seen, Solved, Tally,
};
use toy_programs::answers::answer;
use toy_programs::programs::{CALLER, LEAF, OTHER_LEAF, Sketch, name_of, program};

/// A job that answers every key.
struct Toy;

impl Meaning for Toy {
    ghost use Rattle.std.specs.Prelude.{◌≡◌, false};

    ghost solves = { λ key answer. answer.stored ≡ false };
}

/// One spec for each procedure of a key in which one has a slot.
fn count_of(key: &Key) -> u32 {
    if key.procs.iter().any(|flow| !flow.slots.is_empty()) {
        1
    } else {
        0
    }
}

impl Job for Toy {
    fn solve(
        &self,
        alloc: Global,
        key: &Arc<Key>,
        tally: &mut Tally,
    ) -> Result<Solved<Toy>, AllocError> {
        let answer = answer(alloc, key, count_of(key))?;
        let key = key.clone()?;
        tally.raise();
        Ok(Solved::new(key, answer))
    }
}

/// What the book says is next for an aim.
#[derive(PartialEq, Drop)]
enum Told {
    /// A claim of this number, of this component.
    Yours(u64, u32),
    /// The number of a claim.
    Waits(u64),
    All,
}

/// What is asked of a book, and what has to come of it.
enum Turn<'a> {
    /// These procedures become the present program.
    Meet(&'a [Sketch<'a>], Met),
    /// What is next for a procedure and those that it reaches, or for all components.
    Next(Option<u8>, Told),
    /// An answer to the claim of this number.
    Answer(u64, Published),
    /// The claim of this number ends without an answer.
    GiveBack(u64),
    /// Every claim ends.
    Sweep,
    /// Whether the claim of this number is the book's.
    Holds(u64, bool),
    /// Claims are answered until each component is settled: so many.
    Settle(u32),
    /// How many components are marked.
    Marked(u32),
    /// Of each component, callees first, how many procedures and callees its key has. They have to be settled.
    Collect(&'a [(usize, usize)]),
}

/// Makes these procedures the present program.
fn meet(
    rt: &impl Abort,
    alloc: Global,
    book: &mut Book<Toy>,
    sketches: &[Sketch],
) -> Result<Met, Fail> {
    let program = program(alloc, sketches)?;
    assert!(rt; well_formed_program(&program));
    assert!(rt; has_program_sizes(&program));
    Ok(book.meet(alloc, &program)?)
}

fn aim_of(alloc: Global, at: Option<u8>) -> Result<Aim, AllocError> {
    match at {
        None => Ok(Aim::All),
        Some(letter) => Ok(Aim::One(name_of(alloc, letter)?)),
    }
}

/// What is next for an aim. A claim that is handed out is the book's.
fn next(
    rt: &impl Abort,
    alloc: Global,
    book: &mut Book<Toy>,
    at: Option<u8>,
) -> Result<Told, Fail> {
    let aim = aim_of(alloc, at)?;
    match book.next(alloc, 0, &aim)? {
        Next::Yours(claim) => {
            assert!(rt; book.holds(&claim));
            let told = Told::Yours(claim.number(), claim.component());
            claim.forget();
            Ok(told)
        }
        Next::Waits { claim } => Ok(Told::Waits(claim)),
        Next::All => Ok(Told::All),
    }
}

/// A claim of these parts.
fn claim_by(
    rt: &impl Abort,
    number: u64,
    component: u32,
    revision: u64,
    key: &Arc<Key>,
) -> Result<Claim, Fail> {
    let key = share(key)?;
    assert!(rt; well_formed_key(&key));
    assert!(rt; has_key_sizes(&key));
    Ok(Claim::new(number, component, revision, key))
}

/// The claim of a number, as it was handed out.
fn claim_of(rt: &impl Abort, log: &[Event], number: u64) -> Result<Claim, Fail> {
    let mut present = 0;
    for event in log {
        match event {
            Event::Revise { revision, .. } => present = *revision,
            Event::Claim {
                number: own,
                component,
                key,
                ..
            } if *own == number => return claim_by(rt, number, *component, present, key),
            _ => {}
        }
    }
    panic!(rt; "no claim {number}")
}

/// An answer comes to the claim of a number.
fn publish(
    rt: &impl Abort,
    alloc: Global,
    book: &mut Book<Toy>,
    number: u64,
) -> Result<Published, Fail> {
    let claim = claim_of(rt, book.log(), number)?;
    assert!(rt; book.holds(&claim));
    let mut tally = Tally::new();
    let solved = Toy
        .solve(alloc, claim.key(), &mut tally)
        .expect(rt, "memory");
    Ok(book.publish(claim, solved))
}

fn give_back(rt: &impl Abort, book: &mut Book<Toy>, number: u64) -> Result<(), Fail> {
    let claim = claim_of(rt, book.log(), number)?;
    assert!(rt; book.holds(&claim));
    book.give_back(claim);
    Ok(())
}

fn holds(rt: &impl Abort, book: &Book<Toy>, number: u64) -> Result<bool, Fail> {
    let claim = claim_of(rt, book.log(), number)?;
    let holds = book.holds(&claim);
    claim.forget();
    Ok(holds)
}

/// Hands out a component and answers its claim at once; false where each is settled.
fn solve_next(rt: &impl Abort, alloc: Global, book: &mut Book<Toy>) -> Result<bool, Fail> {
    match book.next(alloc, 0, &Aim::All)? {
        Next::Yours(claim) => {
            let mut tally = Tally::new();
            let solved = Toy
                .solve(alloc, claim.key(), &mut tally)
                .expect(rt, "memory");
            book.publish(claim, solved);
            Ok(true)
        }
        Next::Waits { claim: _ } => panic!(rt; "waits"),
        Next::All => Ok(false),
    }
}

/// Answers claims until each component is settled, and says how many there were.
fn settle(rt: &impl Abort, alloc: Global, book: &mut Book<Toy>) -> Result<u32, Fail> {
    for turn in 0..100 {
        if !solve_next(rt, alloc, book)? {
            return Ok(turn);
        }
    }
    panic!(rt; "no end")
}

/// What is kept of all components, which have to be settled.
fn collect(rt: &impl Abort, alloc: Global, book: &mut Book<Toy>) -> Result<Vec<Kept>, Fail> {
    let aim = Aim::All;
    match book.next(alloc, 0, &aim)? {
        Next::All => Ok(book.collect(alloc, &aim)?),
        Next::Waits { claim: _ } => panic!(rt; "waits"),
        Next::Yours(claim) => {
            claim.forget();
            panic!(rt; "unsettled")
        }
    }
}

/// Whether these keys have so many procedures and callees.
fn have_sizes(kept: &[Kept], sizes: &[(usize, usize)]) -> bool {
    for (one, (procs, callees)) in kept.iter().zip(sizes) {
        if one.key.procs.len() != *procs || one.key.callees.len() != *callees {
            return false;
        }
    }
    kept.len() == sizes.len()
}

/// Whether what comes of a turn is what has to.
fn comes(rt: &impl Abort, alloc: Global, book: &mut Book<Toy>, turn: &Turn) -> Result<bool, Fail> {
    match turn {
        Turn::Meet(sketches, met) => Ok(meet(rt, alloc, book, *sketches)? == *met),
        Turn::Next(at, told) => Ok(next(rt, alloc, book, *at)? == *told),
        Turn::Answer(number, published) => Ok(publish(rt, alloc, book, *number)? == *published),
        Turn::GiveBack(number) => {
            give_back(rt, book, *number)?;
            Ok(true)
        }
        Turn::Sweep => {
            book.sweep();
            Ok(true)
        }
        Turn::Holds(number, is) => Ok(holds(rt, book, *number)? == *is),
        Turn::Settle(count) => Ok(settle(rt, alloc, book)? == *count),
        Turn::Marked(count) => Ok(book.marked() == *count),
        Turn::Collect(sizes) => {
            let kept = collect(rt, alloc, book)?;
            Ok(have_sizes(&kept, *sizes))
        }
    }
}

/// What has to come of the turns of a book does.
fn play(rt: &impl Abort, alloc: Global, book: &mut Book<Toy>, turns: &[Turn]) -> Result<(), Fail> {
    for (place, turn) in turns.iter().enumerate() {
        assert!(rt; comes(rt, alloc, book, turn)?, "at turn {place}");
    }
    Ok(())
}

/// What has to come of the turns of a new book does, and its log then has so many events.
fn plays(rt: &impl Abort, alloc: Global, turns: &[Turn], events: usize) -> Result<(), Fail> {
    let mut book: Book<Toy> = Book::new(alloc)?;
    play(rt, alloc, &mut book, turns)?;
    assert_eq!(rt; book.log().len(), events);
    assert_eq!(rt; book.into_log().len(), events);
    Ok(())
}

/// The leaf with a slot, for which the toy has a spec.
const SLOT_LEAF: Sketch = Sketch {
    slots: &[None],
    ..LEAF
};

/// `a`, which calls what is not defined.
const STRAY: Sketch = Sketch {
    name: b'a',
    body: b"z",
    ..LEAF
};

const CHANGES: &[Turn] = &[
    Turn::Meet(&[CALLER, LEAF], Met::Revised(1)),
    Turn::Marked(0),
    Turn::Settle(2),
    Turn::Marked(2),
    Turn::Meet(&[CALLER, LEAF], Met::Same),
    Turn::Marked(2),
    Turn::Meet(&[CALLER, OTHER_LEAF], Met::Revised(2)),
    Turn::Marked(0),
    Turn::Settle(1),
    Turn::Meet(&[CALLER, SLOT_LEAF], Met::Revised(3)),
    Turn::Settle(2),
];

#[test]
fn only_what_changed_is_claimed(rt: HostRuntime) -> Result<(), Fail> {
    plays(&rt, rt.alloc(), CHANGES, 13)
}

const THERE_AND_BACK: &[Turn] = &[
    Turn::Meet(&[LEAF], Met::Revised(1)),
    Turn::Marked(0),
    Turn::Next(None, Told::Yours(1, 0)),
    Turn::Meet(&[OTHER_LEAF], Met::Revised(2)),
    Turn::Next(None, Told::Yours(2, 0)),
    Turn::Meet(&[LEAF], Met::Revised(3)),
    Turn::Next(None, Told::Waits(1)),
    Turn::Answer(1, Published::Kept),
    Turn::Marked(1),
    Turn::Answer(2, Published::Stale(Seen::Settled(1))),
    Turn::Meet(&[LEAF], Met::Same),
    Turn::Marked(1),
];

#[test]
fn a_late_answer_is_kept_where_its_key_is_due_again(rt: HostRuntime) -> Result<(), Fail> {
    plays(&rt, rt.alloc(), THERE_AND_BACK, 7)
}

const ONE_CLAIM: &[Turn] = &[
    Turn::Meet(&[LEAF], Met::Revised(1)),
    Turn::Next(None, Told::Yours(1, 0)),
    Turn::Holds(1, true),
];

const OTHER_CLAIM: &[Turn] = &[
    Turn::Meet(&[OTHER_LEAF], Met::Revised(1)),
    Turn::Next(None, Told::Yours(1, 0)),
    Turn::Holds(1, true),
];

#[test]
fn a_claim_of_another_book_is_not_held(rt: HostRuntime) -> Result<(), Fail> {
    let alloc = rt.alloc();
    let mut book: Book<Toy> = Book::new(alloc)?;
    let mut other: Book<Toy> = Book::new(alloc)?;
    play(&rt, alloc, &mut book, ONE_CLAIM)?;
    play(&rt, alloc, &mut other, OTHER_CLAIM)?;
    let foreign = claim_of(&rt, other.log(), 1)?;
    let holds = book.holds(&foreign);
    foreign.forget();
    assert!(rt; !holds);
    Ok(())
}

/// Of an answer that is not kept, each reason in order.
const STALE: &[Turn] = &[
    Turn::Meet(&[CALLER, LEAF], Met::Revised(1)),
    Turn::Next(None, Told::Yours(1, 0)),
    Turn::Answer(1, Published::Kept),
    Turn::Next(None, Told::Yours(2, 1)),
    Turn::Meet(&[CALLER, SLOT_LEAF], Met::Revised(2)),
    Turn::Next(None, Told::Yours(3, 0)),
    Turn::Answer(3, Published::Kept),
    Turn::Next(None, Told::Yours(4, 1)),
    Turn::Answer(4, Published::Kept),
    Turn::Meet(&[CALLER, OTHER_LEAF], Met::Revised(3)),
    Turn::Next(None, Told::Yours(5, 0)),
    Turn::Answer(2, Published::Stale(Seen::Later(4))),
    Turn::Meet(&[LEAF], Met::Revised(4)),
    Turn::Answer(5, Published::Stale(Seen::Changed(4))),
    Turn::Next(None, Told::Yours(6, 0)),
    Turn::Meet(&[CALLER], Met::Revised(5)),
    Turn::Answer(6, Published::Stale(Seen::Gone(5))),
];

#[test]
fn answers_are_stale_in_order(rt: HostRuntime) -> Result<(), Fail> {
    plays(&rt, rt.alloc(), STALE, 17)
}

const WAITING: &[Turn] = &[
    Turn::Meet(&[STRAY, LEAF], Met::Revised(1)),
    Turn::Next(None, Told::Yours(1, 0)),
    Turn::Next(Some(b'g'), Told::Yours(2, 1)),
    Turn::Next(None, Told::Waits(1)),
    Turn::Next(Some(b'g'), Told::Waits(2)),
    Turn::Holds(1, true),
    Turn::GiveBack(1),
    Turn::Next(None, Told::Yours(3, 0)),
    Turn::Next(None, Told::Waits(2)),
    Turn::Sweep,
    Turn::Holds(2, false),
    Turn::Holds(3, false),
    Turn::Settle(2),
    Turn::Next(Some(b'z'), Told::All),
];

#[test]
fn an_aim_waits_on_the_least_claim(rt: HostRuntime) -> Result<(), Fail> {
    plays(&rt, rt.alloc(), WAITING, 11)
}

const COLLECTED: &[Turn] = &[
    Turn::Meet(&[CALLER, LEAF], Met::Revised(1)),
    Turn::Settle(2),
    Turn::Collect(&[(1, 0), (1, 1)]),
];

#[test]
fn a_settled_aim_is_collected(rt: HostRuntime) -> Result<(), Fail> {
    plays(&rt, rt.alloc(), COLLECTED, 5)
}
