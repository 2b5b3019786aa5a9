//! The book: its type, and its calls.
ghost use Rattle.std.specs.Prelude.{◌≡◌, ℕ, ◌≤◌, ◌++◌, [], ◌∷◌, All, Some, IsTrue, IfOk, OnErr, is_some, length, map, true};
ghost use Rattle.std.specs.List.{count_by, range_with_len};
ghost use Rattle.call_components.specs.Reaching.{marked};
ghost use Rattle.claim_core.specs.Sizes.{IsJobKey};
ghost use Rattle.claim_core.specs.Told.{events_of};
ghost use Rattle.claim_core.specs.Views.{IsSolution, solution_of};
ghost use Rattle.claim_laws.specs.Invariant.{IsDueAt};
ghost use Rattle.claim_laws.specs.Logs.{IsLegal, replay, settled_at};
ghost use Rattle.key_laws.specs.Storing.{IsStorableWorld};
ghost use Rattle.claim_laws.specs.World.{Event as Happening, Out, is_kept_outcome, out_of, outcome, standings};
ghost use Rattle.shape_data.specs.Sizes.{HasProgramSizes};
ghost use Rattle.shape_data.specs.WellFormed.{IsProgram};
ghost use Rattle.summary_book.specs.Aims.{aimed};
ghost use Rattle.summary_book.specs.Book.{AreMetMarks, count_marked, met_by, met_events};
ghost use Rattle.summary_book.specs.Next.{IfYours, IsAllAnswer, IsNext, IsSettled, count_aimed, events_by, slots_by};
ghost use Rattle.summary_book.specs.Settled.{IsMarkedAnew, StayMarked};
ghost use Rattle.summary_book.specs.Views.{is_own, slot_solution};

use crate::aims::Aim;
use crate::answers::{Met, Next};
use crate::handing::{due_key, hand_out};
use crate::meeting::{out_in, slots_in};
use crate::outstanding::{collected, holds, place_of};
use crate::parts::{aimed_in, parts_of};
use crate::publishing::{is_kept, keep, mark, outcome};
use crate::rows::{OutRow, Parts, SlotRow};
use crate::settled::count_set;
use crate::turns::{Found, first_free};
use claim_core::{Claim, Event, Meaning, Published, Solved};
use shape_data::answer::Kept;
use shape_data::exact::share;
use shape_data::program::Program;
use shape_data::{Row, is_same};
use std::alloc::{AllocError, Global};
use std::marker::{Model, PhantomData};
use std::sync::Arc;

/// A book. Contracts see its log, and which components are marked as settled.
#[derive(Drop)]
pub struct Book<J: Meaning> {
    log: Vec<Event>,
    parts: Parts,
    slots: Vec<Option<SlotRow>>,
    marks: Vec<bool>,
    out: Vec<OutRow>,
    revision: u64,
    made: u64,
    of: PhantomData<J>,
}

impl<J: Meaning> Model for Book<J> {
    ghost use Rattle.summary_book.specs.Views.{Contents};
    ghost use Rattle.summary_book.specs.Book.{IsBook};
    ghost use Rattle.claim_core.specs.Told.{events_of};
    ghost use Rattle.claim_core.specs.Views.{IsSolution};

    ghost Value = { Contents };

    ghost view = { λ book. record { log = events_of book.log.items; marks = book.marks.items } };

    ghost invariant = { λ book. IsBook (IsSolution J.solves) book.log book.parts book.slots book.marks book.out book.revision book.made };
}

impl<J: Meaning> Book<J> {
    /// A book of the empty program, with nothing done.
    pub fn new(alloc: Global) -> Result<Self, AllocError>
        ensures log { IfOk result (λ book. book.log ≡ []) }
        ensures marks { IfOk result (λ book. book.marks ≡ []) }
    {
        let program = Program {
            structs: Row::new(alloc),
            procs: Row::new(alloc),
        };
        let program = Arc::new(alloc, program)?;
        let parts = parts_of(alloc, &program)?;
        Ok(Book {
            log: Vec::new(alloc),
            parts,
            slots: Vec::new(alloc),
            marks: Vec::new(alloc),
            out: Vec::new(alloc),
            revision: 0,
            made: 0,
            of: PhantomData,
        })
    }

    /// All that was done, in order.
    pub fn log(&self) -> &[Event]
        ensures events { events_of result.now ≡ self.now.log }
        ensures legal { IsLegal J.solves self.now.log }
        ensures storable { IsStorableWorld (replay self.now.log) }
    {
        &self.log
    }

    /// All that was done, in order.
    pub fn into_log(self) -> Vec<Event>
        ensures events { events_of result.items ≡ self.log }
        ensures legal { IsLegal J.solves self.log }
        ensures storable { IsStorableWorld (replay self.log) }
    {
        let Book { log, .. } = self;
        log
    }

    /// How many components are marked as settled. Not each settled component need be marked.
    pub fn marked(&self) -> u32
        ensures number { result ≡ count_marked self.now.marks }
        ensures each { (component : ℕ) → marked self.now.marks component ≡ true
            → is_some (settled_at (replay self.now.log) component) ≡ true }
        ensures settled { result
            ≤ count_by (λ component. is_some (settled_at (replay self.now.log) component))
            (range_with_len 0 (length (standings (replay self.now.log)))) }
    {
        count_set(&self.marks) as u32
    }

    /// Whether the claim is this book's: an outstanding claim has its number and its key.
    pub fn holds(&self, claim: &Claim) -> bool
        ensures { result ≡ is_own (replay self.now.log) claim.now }
    {
        holds(&self.log, &self.out, claim)
    }

    /// Makes a program the present one, if it is another. Slots of components with the same members stay. Its structures have few
    /// fields and its procedures few slots, which `has_program_sizes` of `claim_core` tests.
    pub fn meet(&mut self, alloc: Global, program: &Arc<Program>) -> Result<Met, AllocError>
        requires formed { IsProgram program.now.value }
        requires sizes { HasProgramSizes program.now.value }
        ensures met { IfOk result (λ met. met ≡ met_by (replay self.old.log) program.now.value) }
        ensures log { IfOk result (λ met. self.new.log ≡ self.old.log ++ met_events program.now.value met) }
        ensures marks { IfOk result (λ met. AreMetMarks self.old.marks self.new.marks met) }
        ensures err { OnErr result (self.new ≡ self.old) }
    {
        let given: &Program = program;
        let present: &Program = &self.parts.program;
        if is_same(given, present) {
            return Ok(Met::Same);
        }
        let parts = parts_of(alloc, program)?;
        let slots = slots_in(alloc, &self.log, &self.parts, &self.slots, &parts)?;
        let out = out_in(alloc, &self.log, &self.out, &parts)?;
        let marks = vec![in alloc; false; parts.components.len()]?;
        let program = share(program)?;
        self.log.reserve(out.len() + 1)?;
        let revision = self.revision + 1;
        self.log.push_reserved(Event::Revise { revision, program });
        self.parts = parts;
        self.slots = slots;
        self.out = out;
        self.marks = marks;
        self.revision = revision;
        Ok(Met::Revised(revision))
    }

    /// Hands out the first component that the aim reaches, callees first, that is unsettled, whose callees are settled and whose key no
    /// outstanding claim holds. The claim is the book's from then on, so it may be published or given back, and its key is one that a
    /// job may be asked for. Room for the claim's end is taken here.
    pub fn next(&mut self, alloc: Global, worker: u64, aim: &Aim) -> Result<Next, AllocError>
        ensures next { IfOk result (λ next. IsNext (replay self.old.log) (aimed (replay self.old.log).program aim.now) next) }
        ensures log { IfOk result (λ next. self.new.log ≡ self.old.log ++ events_by worker next) }
        ensures own { IfOk result (λ next. IfYours next (λ claim. IsTrue (is_own (replay self.new.log) claim))) }
        ensures key { IfOk result (λ next. IfYours next (λ claim. IsJobKey claim.key)) }
        ensures marked { IfOk result (λ next. IsAllAnswer next
            → count_aimed (replay self.old.log) (aimed (replay self.old.log).program aim.now) ≤ count_marked self.new.marks) }
        ensures stay { StayMarked self.old.marks self.new.marks }
        ensures err { OnErr result (self.new.log ≡ self.old.log) }
    {
        let aim = aimed_in(alloc, &self.parts, aim)?;
        let found = first_free(
            &self.parts,
            &self.log,
            &self.slots,
            &mut self.marks,
            &self.out,
            &aim,
        );
        let place = match found {
            Found::Free(place) => place,
            Found::Waits(claim) => return Ok(Next::Waits { claim }),
            Found::All => return Ok(Next::All),
        };
        let key = due_key(alloc, &self.parts, &self.log, &self.slots, place)?;
        let key = Arc::new(alloc, key)?;
        let number = self.made + 1;
        let claim = hand_out(
            &mut self.log,
            &mut self.out,
            number,
            worker,
            place as u32,
            self.revision,
            key,
        )?;
        self.made = number;
        Ok(Next::Yours(claim))
    }

    /// Ends a claim with an answer, and says what becomes of that. An answer that is kept for the key that its component is due marks
    /// the component.
    pub fn publish(&mut self, claim: Claim, solved: Solved<J>) -> Published
        requires own { IsTrue (is_own (replay self.old.log) claim) }
        requires key { claim.key ≡ solved.key }
        ensures published { (out : Out) → out_of (replay self.old.log).out claim.number ≡ Some out
            → result ≡ outcome (replay self.old.log) out }
        ensures log { self.new.log ≡ self.old.log ++ Happening.Publish claim.number solved.answer (is_kept_outcome result) ∷ [] }
        ensures stay { StayMarked self.old.marks self.new.marks }
        ensures settled { (component : ℕ) → IsDueAt (replay self.old.log) component claim.key → result ≡ Published.Kept
            → IsMarkedAnew self.old.marks self.new.marks component }
    {
        let number = claim.number();
        let _key = claim.forget();
        let answer = solved.into_answer();
        let at = place_of(&self.out, number);
        let row = self.out.remove(at);
        let published = outcome(
            &self.parts,
            &self.log,
            &self.slots,
            &mut self.marks,
            &row,
            self.revision,
        );
        let kept = is_kept(published);
        let place = self.log.len();
        self.log.push_reserved(Event::Publish {
            number,
            answer,
            kept,
        });
        if kept {
            keep(&mut self.slots, &row, place);
            mark(
                &self.parts,
                &self.log,
                &self.slots,
                &mut self.marks,
                row.here,
            );
        }
        published
    }

    /// Ends a claim without an answer.
    pub fn give_back(&mut self, claim: Claim)
        requires { IsTrue (is_own (replay self.old.log) claim) }
        ensures log { self.new.log ≡ self.old.log ++ Happening.GiveBack claim.number ∷ [] }
        ensures marks { self.new.marks ≡ self.old.marks }
    {
        let number = claim.number();
        let _key = claim.forget();
        let at = place_of(&self.out, number);
        self.out.remove(at);
        self.log.push_reserved(Event::GiveBack { number });
    }

    /// Ends every outstanding claim without an answer, the least number first.
    pub fn sweep(&mut self)
        ensures log { self.new.log ≡ self.old.log ++ map (λ out. Happening.GiveBack out.number) (replay self.old.log).out }
        ensures out { (replay self.new.log).out ≡ [] }
        ensures marks { self.new.marks ≡ self.old.marks }
    {
        while !self.out.is_empty() {
            let row = self.out.remove(0);
            self.log
                .push_reserved(Event::GiveBack { number: row.number });
        }
    }

    /// The keys and answers of the components that an aim reaches, callees first. They have to be settled. Each answer is right for its
    /// key, and both are within the limits of a store.
    pub fn collect(&self, alloc: Global, aim: &Aim) -> Result<Vec<Kept>, AllocError>
        requires { IsSettled (replay self.now.log) (aimed (replay self.now.log).program aim.now) }
        ensures slots { IfOk result (λ kept. map solution_of kept.items
            ≡ map slot_solution (slots_by (replay self.now.log) (aimed (replay self.now.log).program aim.now))) }
        ensures solutions { IfOk result (λ kept. All (λ one. IsSolution J.solves one.key.value one.answer.value) kept.items) }
    {
        let aim = aimed_in(alloc, &self.parts, aim)?;
        collected(alloc, &self.parts, &self.log, &self.slots, &aim)
    }
}
