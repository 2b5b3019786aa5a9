//! A run of 2,000 events of a book beside the world of its log.
ghost use Rattle.std.specs.Prelude.{◌≡◌, IfOk};
ghost use Rattle.claim_replay.specs.Values.{IsFormed, IsWhole};

use crate::draws::{Draws, answer, program};
use claim_core::{has_key_sizes, has_program_sizes};
use claim_replay::{Out, Present, World, apply, first};
use shape_data::answer::{Answer, Kept, Key};
use shape_data::exact::share;
use shape_data::{Name, is_same, well_formed_answer, well_formed_key, well_formed_program};
use std::alloc::Global;
use std::process::Abort;
use std::sync::Arc;
use std::test::Fail;
use summary_book::{Aim, Book, Claim, Event, Meaning, Met, Next, Published, Solved};

/// A job for which each answer is right that was not read from a store.
struct Any;

impl Meaning for Any {
    ghost use Rattle.std.specs.Prelude.{◌≡◌, false};

    ghost solves = { λ key answer. answer.stored ≡ false };
}

/// The program of a revision is well formed.
fn is_formed(rt: &impl Abort, event: &Event)
    ensures { IsFormed event.now }
{
    if let Event::Revise { program, .. } = event {
        assert!(rt; well_formed_program(program));
    }
}

/// The world after the events of the book from one on.
fn after(
    rt: &impl Abort,
    alloc: Global,
    present: Present,
    log: &[Event],
    seen: usize,
) -> Result<Present, Fail>
    requires { IsWhole present }
    ensures { IfOk result IsWhole }
{
    let mut present = present;
    for place in seen..log.len() {
        let event = &log[place];
        is_formed(rt, event);
        present = apply(alloc, present, event)?;
    }
    Ok(present)
}

/// A claim as the book has handed it out.
fn claim_of(rt: &impl Abort, out: &Out) -> Result<Claim, Fail>
    ensures { IfOk result (λ claim. claim.key ≡ out.now.key.value) }
{
    let key = share(&out.key)?;
    assert!(rt; well_formed_key(&key));
    assert!(rt; has_key_sizes(&key));
    Ok(Claim::new(out.number, out.component, out.revision, key))
}

fn has_slot(world: &World, number: u64) -> bool {
    world.slots.iter().any(|slot| slot.claim == number)
}

fn has_claim(world: &World, number: u64) -> bool {
    world.out.iter().any(|out| out.number == number)
}

/// Whether a slot has this key and this answer.
fn is_in_slots(world: &World, kept: &Kept) -> bool {
    let key: &Key = &kept.key;
    let answer: &Answer = &kept.answer;
    for slot in world.slots.as_slice() {
        let own: &Key = &slot.key;
        let given: &Answer = &slot.answer;
        if is_same(own, key) && is_same(given, answer) {
            return true;
        }
    }
    false
}

/// A program that is drawn becomes the present one, if it is another.
fn meet(
    rt: &impl Abort,
    alloc: Global,
    draws: &mut Draws,
    book: &mut Book<Any>,
) -> Result<(), Fail> {
    let program = program(alloc, draws)?;
    assert!(rt; well_formed_program(&program));
    assert!(rt; has_program_sizes(&program));
    let before = book.log().len();
    let met = book.meet(alloc, &program)?;
    let later = book.log().len();
    match met {
        Met::Same => assert_eq!(rt; later, before),
        Met::Revised(_) => assert!(rt; later > before),
    }
    Ok(())
}

/// The keys and answers of an aim that is settled are those of slots.
fn is_collected(
    rt: &impl Abort,
    alloc: Global,
    book: &mut Book<Any>,
    present: &Present,
) -> Result<(), Fail> {
    let aim = Aim::All;
    match book.next(alloc, 0, &aim)? {
        Next::All => {
            let kept = book.collect(alloc, &aim)?;
            assert_eq!(rt; kept.len(), present.rows.len());
            for one in kept.as_slice() {
                assert!(rt; is_in_slots(&present.world, one));
            }
        }
        Next::Waits { claim: _ } => panic!(rt; "what is settled stays so"),
        Next::Yours(claim) => {
            claim.forget();
            panic!(rt; "what is settled stays so")
        }
    }
    Ok(())
}

/// What came of a turn, with a claim's number.
#[derive(Clone, Copy)]
enum Came {
    Nothing,
    /// A claim was made.
    Claimed(u64),
    /// All that an aim lacks is claimed.
    Waits,
    /// A claim ended with an answer that is kept.
    Kept(u64),
    /// A claim ended with an answer that is not kept.
    Stale(u64),
    /// A claim ended without an answer.
    Back(u64),
}

/// A component is handed out, if one can be.
fn next(
    rt: &impl Abort,
    alloc: Global,
    aim: &Aim,
    book: &mut Book<Any>,
    present: &Present,
) -> Result<Came, Fail> {
    match book.next(alloc, 0, aim)? {
        Next::Yours(claim) => {
            let number = claim.number();
            claim.forget();
            assert!(rt; number > present.world.made);
            Ok(Came::Claimed(number))
        }
        Next::Waits { claim } => {
            assert!(rt; has_claim(&present.world, claim));
            Ok(Came::Waits)
        }
        Next::All => {
            if let Aim::All = aim {
                is_collected(rt, alloc, book, present)?;
            }
            Ok(Came::Nothing)
        }
    }
}

/// An answer comes to an outstanding claim, and says whether it is kept.
fn publish(
    rt: &impl Abort,
    alloc: Global,
    draws: &mut Draws,
    book: &mut Book<Any>,
    out: &Out,
) -> Result<bool, Fail> {
    let answer = answer(alloc, draws, &out.key)?;
    assert!(rt; well_formed_answer(&out.key, &answer));
    let answer = Arc::new(alloc, answer)?;
    let key = share(&out.key)?;
    let claim = claim_of(rt, out)?;
    assert!(rt; book.holds(&claim));
    let published = book.publish(claim, Solved::new(key, answer));
    Ok(published == Published::Kept)
}

/// An outstanding claim ends without an answer.
fn give_back(rt: &impl Abort, book: &mut Book<Any>, out: &Out) -> Result<(), Fail> {
    let claim = claim_of(rt, out)?;
    assert!(rt; book.holds(&claim));
    book.give_back(claim);
    Ok(())
}

/// A claim ends, if one is outstanding: one time in five without an answer.
fn end(
    rt: &impl Abort,
    alloc: Global,
    draws: &mut Draws,
    book: &mut Book<Any>,
    present: &Present,
) -> Result<Came, Fail> {
    let outstanding = present.world.out.as_slice();
    if outstanding.is_empty() {
        return Ok(Came::Nothing);
    }
    let out = &outstanding[draws.word() as usize % outstanding.len()];
    if draws.below(5) == 0 {
        give_back(rt, book, out)?;
        return Ok(Came::Back(out.number));
    }
    if publish(rt, alloc, draws, book, out)? {
        Ok(Came::Kept(out.number))
    } else {
        Ok(Came::Stale(out.number))
    }
}

/// One call of the book.
fn turn(
    rt: &impl Abort,
    alloc: Global,
    draws: &mut Draws,
    book: &mut Book<Any>,
    present: &Present,
) -> Result<Came, Fail> {
    let choice = draws.below(16);
    if choice == 0 {
        meet(rt, alloc, draws, book)?;
        return Ok(Came::Nothing);
    }
    if choice < 7 {
        return next(rt, alloc, &Aim::All, book, present);
    }
    if choice < 10 {
        let aim = Aim::One(Name::of(alloc, b"a")?);
        return next(rt, alloc, &aim, book, present);
    }
    end(rt, alloc, draws, book, present)
}

/// The world holds what the book has answered.
fn is_as_said(rt: &impl Abort, world: &World, came: Came) {
    match came {
        Came::Nothing | Came::Waits => {}
        Came::Claimed(number) => {
            assert!(rt; has_claim(world, number));
            assert!(rt; world.made == number);
        }
        Came::Kept(number) => {
            assert!(rt; has_slot(world, number));
            assert!(rt; !has_claim(world, number));
        }
        Came::Stale(number) => {
            assert!(rt; !has_slot(world, number));
            assert!(rt; !has_claim(world, number));
        }
        Came::Back(number) => assert!(rt; !has_claim(world, number)),
    }
}

/// How often something came of a turn.
#[derive(Debug, Drop)]
struct Counts {
    claimed: u32,
    waited: u32,
    kept: u32,
    stale: u32,
    back: u32,
}

const NO_COUNTS: Counts = Counts {
    claimed: 0,
    waited: 0,
    kept: 0,
    stale: 0,
    back: 0,
};

fn count(counts: &mut Counts, came: Came) {
    match came {
        Came::Nothing => {}
        Came::Claimed(_) => counts.claimed = counts.claimed.wrapping_add(1),
        Came::Waits => counts.waited = counts.waited.wrapping_add(1),
        Came::Kept(_) => counts.kept = counts.kept.wrapping_add(1),
        Came::Stale(_) => counts.stale = counts.stale.wrapping_add(1),
        Came::Back(_) => counts.back = counts.back.wrapping_add(1),
    }
}

/// Whether each came up often.
fn is_varied(counts: &Counts) -> bool {
    counts.claimed >= 50
        && counts.waited >= 50
        && counts.kept >= 50
        && counts.stale >= 50
        && counts.back >= 50
}

#[test]
fn two_thousand_events_keep_to_the_world(rt: HostRuntime) -> Result<(), Fail> {
    let alloc = rt.alloc();
    let mut draws = Draws::new(28);
    let mut book: Book<Any> = Book::new(alloc)?;
    let mut present = first(alloc)?;
    let mut counts = NO_COUNTS;
    let mut seen = 0;
    for _ in 0..20_000 {
        if seen >= 2000 {
            break;
        }
        let came = turn(&rt, alloc, &mut draws, &mut book, &present)?;
        present = after(&rt, alloc, present, book.log(), seen)?;
        seen = book.log().len();
        is_as_said(&rt, &present.world, came);
        count(&mut counts, came);
        assert!(rt; book.marked() as usize <= present.world.slots.len());
    }
    assert!(rt; seen >= 2000);
    assert!(rt; is_varied(&counts), "{counts:?}");
    Ok(())
}
