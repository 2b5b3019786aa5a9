//! Parameters and structures, and what texts are over them.
ghost use Rattle.std.specs.Prelude.{◌<◌, length, IfOk, IsTrue};
ghost use Rattle.shape_data.specs.WellFormed.{AreParams, AreStructs};
ghost use Rattle.sym_text.specs.Grammar.{IsWritten};

use crate::names::names_of;
use crate::structures::structs_of;
use shape_data::program::Program;
use shape_data::symbolic::{Exp, Fact, Post, SymHeap, SymState};
use shape_data::{Name, Row, are_params, well_formed_program};
use std::alloc::Global;
use sym_text::{BadSpec, read_heap, read_post};
use worked_rows::Fault;

/// What texts are over.
#[derive(Drop)]
pub struct Scope {
    pub params: Row<Name>,
    /// A program without procedures, with the structures.
    pub program: Program,
}

/// What is said of a row with such a text.
fn fault_of(bad: BadSpec) -> Fault {
    match bad {
        BadSpec::At { offset } => Fault::Text(offset),
        BadSpec::OutOfMemory => Fault::OutOfMemory,
    }
}

/// The left side of a heap's one fact, if that is an equation.
fn left_side(heap: &SymHeap) -> Option<Exp> {
    match heap.pure.as_slice() {
        [Fact::Eq(e, _)] => Some(*e),
        _ => None,
    }
}

impl Scope {
    /// A scope of these parameters and structures, of which each is a name and then its fields, as [`structs_of`] has them.
    pub fn new(alloc: Global, params: &[&str], structs: &[&[&str]]) -> Result<Scope, Fault> {
        let params = names_of(alloc, params)?;
        let structs = structs_of(alloc, structs)?;
        Ok(Scope {
            params,
            program: Program {
                structs,
                procs: Row::new(alloc),
            },
        })
    }

    /// Whether a text over these parameters can be read.
    pub fn can_read(&self, params: &[Name], text: &[u8]) -> bool
        ensures short { IsTrue result → length text.now < 4294967296 }
        ensures params { IsTrue result → AreParams params.now }
        ensures structs { IsTrue result → AreStructs self.now.program.structs }
    {
        text.len() < 4_294_967_296 && are_params(params) && well_formed_program(&self.program)
    }

    /// The heap of a text over these parameters.
    pub fn heap_over(&self, alloc: Global, params: &[Name], text: &str) -> Result<SymHeap, Fault>
        ensures { IfOk result (IsWritten self.now.program.structs params.now) }
    {
        let bytes = text.as_bytes();
        if !self.can_read(params, bytes) {
            return Err(Fault::Row);
        }
        match read_heap(alloc, bytes, params, self.program.structs.as_slice()) {
            Ok(heap) => Ok(heap),
            Err(bad) => Err(fault_of(bad)),
        }
    }

    /// The post of a text over these parameters.
    pub fn post_over(&self, alloc: Global, params: &[Name], text: &str) -> Result<Post, Fault> {
        let bytes = text.as_bytes();
        if !self.can_read(params, bytes) {
            return Err(Fault::Row);
        }
        match read_post(alloc, bytes, params, self.program.structs.as_slice()) {
            Ok(post) => Ok(post),
            Err(bad) => Err(fault_of(bad)),
        }
    }

    /// The heap of a text.
    pub fn heap(&self, alloc: Global, text: &str) -> Result<SymHeap, Fault>
        ensures { IfOk result (IsWritten self.now.program.structs self.now.params) }
    {
        self.heap_over(alloc, self.params.as_slice(), text)
    }

    /// The post of a text.
    pub fn post(&self, alloc: Global, text: &str) -> Result<Post, Fault> {
        self.post_over(alloc, self.params.as_slice(), text)
    }

    /// The expression of a text.
    fn exp(&self, alloc: Global, text: &str) -> Result<Exp, Fault> {
        let same = format!(in alloc; "{text}={text}")?;
        left_side(&self.heap(alloc, same.as_str())?).ok_or(Fault::Row)
    }

    /// The expressions of a text, with blanks between them.
    pub fn exps(&self, alloc: Global, text: &str) -> Result<Row<Exp>, Fault> {
        let mut all = Row::new(alloc);
        for word in text.split_whitespace() {
            all.push(self.exp(alloc, word)?)?;
        }
        Ok(all)
    }

    /// The state of the texts of a heap and of locals.
    pub fn state(&self, alloc: Global, heap: &str, locals: &str) -> Result<SymState, Fault> {
        Ok(SymState {
            locals: self.exps(alloc, locals)?,
            heap: self.heap(alloc, heap)?,
        })
    }
}
