//! Programs, choices and answers drawn from a fixed seed. A program has some of the procedures `a` to `d`, each of which calls some of
//! `a` to `e` and returns a small number, so that components of every shape come up and programs come back; `e` is never defined.
ghost use Rattle.std.specs.Prelude.{◌≡◌, ◌<◌, false, IfOk};

use rand_core::utils::NextWord;
use rand_pcg::Pcg32;
use shape_data::Row;
use shape_data::answer::{Answer, Key};
use shape_data::program::{Proc, Program};
use std::alloc::{AllocError, Global};
use std::sync::Arc;
use toy_programs::answers::summary;
use toy_programs::programs::{Sketch, proc, program_of};

/// Numbers by the PCG generator.
#[derive(Drop)]
pub struct Draws {
    words: Pcg32,
}

impl Draws {
    /// The numbers of this seed.
    pub fn new(seed: u64) -> Self {
        Draws {
            words: Pcg32::new(seed, 54),
        }
    }

    /// A number.
    pub fn word(&mut self) -> u32 {
        self.words.next_word()
    }

    /// A number below the count.
    pub fn below(&mut self, count: u32) -> u32
        requires { 0 < count }
        ensures { result < count }
    {
        self.word() % count
    }
}

/// Some of the letters `a` to `e` in order, with points in place of the others.
fn body(draws: &mut Draws) -> [u8; 5] {
    let mut body = *b"abcde";
    for place in 0..5 {
        if draws.below(4) > 0 {
            body[place] = b'.';
        }
    }
    body
}

/// A procedure that calls some of `a` to `e`, and returns a small number.
fn procedure(alloc: Global, draws: &mut Draws, letter: u8) -> Result<Proc, AllocError> {
    let body = body(draws);
    let sketch = Sketch {
        name: letter,
        body: &body,
        slots: &[None],
        value: draws.below(3) as i32,
    };
    proc(alloc, sketch)
}

/// A program, each of whose four procedures is left out one time in four.
pub fn program(alloc: Global, draws: &mut Draws) -> Result<Arc<Program>, AllocError> {
    let mut procs = Row::new(alloc);
    for letter in *b"abcd" {
        if draws.below(4) > 0 {
            procs.push(procedure(alloc, draws, letter)?)?;
        }
    }
    program_of(alloc, procs)
}

/// An answer to a key, with up to two specs for each procedure.
pub fn answer(alloc: Global, draws: &mut Draws, key: &Key) -> Result<Answer, AllocError>
    ensures { IfOk result (λ answer. answer.stored ≡ false) }
{
    let mut procs = Row::new(alloc);
    for flow in key.procs.as_slice() {
        let count = draws.below(3);
        procs.push(summary(alloc, flow, count)?)?;
    }
    Ok(Answer {
        stored: false,
        procs,
    })
}
