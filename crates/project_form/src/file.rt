//! A file that was put, with the syntax tree of its bytes once they were read. That a kept tree is the one of the present bytes is
//! part of the type.
ghost use Rattle.std.specs.Prelude.{◌≡◌, ◌≤◌, length, true, false, OnOk, OnErr, IfOk, IfErr};
ghost use Rattle.c_front.specs.Units.{IsUnitOf};
ghost use Rattle.c_tree.specs.Syntax.{unit_tree};
ghost use Rattle.project_form.specs.Kept.{HasUnit, new_file, with_bytes, with_parse, without_parse};
ghost use Rattle.project_form.specs.Parts.{IsTextFault};

use c_grammar::tokens::{Refusal, TokenFault, tokens};
use c_parse::parse;
use c_parse_exprs::SyntaxFault;
use c_tree::Unit;
use shape_data::Name;
use std::alloc::Global;
use std::marker::Model;

/// Why a file is not read.
#[derive(Clone, Copy, Debug)]
pub enum TextFault {
    /// It has no tokens.
    Tokens(Refusal),
    /// Its tokens begin no file.
    Syntax(Refusal),
    OutOfMemory,
}

/// A file that was put.
#[derive(Drop)]
pub struct File {
    name: Name,
    bytes: Vec<u8>,
    unit: Option<Unit>,
}

impl Model for File {
    ghost use Rattle.std.specs.Prelude.{◌≤◌, length, is_some, IfSome};
    ghost use Rattle.c_front.specs.Units.{IsUnitOf};
    ghost use Rattle.c_tree.specs.Syntax.{unit_tree};
    ghost use Rattle.project_form.specs.Files.{MOST_FILE_BYTES, source};
    ghost use Rattle.project_form.specs.Kept.{KeptFile};

    ghost Value = { KeptFile };

    ghost view = { λ f. record { file = source f.name f.bytes.items; is_kept = is_some f.unit } };

    ghost invariant = { λ f. IfSome f.unit (λ unit. IsUnitOf f.bytes.items (unit_tree unit)) × (length f.bytes.items ≤ MOST_FILE_BYTES) };
}

impl File {
    /// A file that was not read yet.
    pub fn new(name: Name, bytes: Vec<u8>) -> Self
        requires { length bytes.items ≤ 1048576 }
        ensures { result ≡ new_file name bytes.items }
    {
        File {
            name,
            bytes,
            unit: None,
        }
    }

    /// The name.
    pub fn name(&self) -> &Name
        ensures { result.now ≡ self.now.file.name }
    {
        &self.name
    }

    /// How many bytes there are.
    pub fn len(&self) -> usize
        ensures exact { result ≡ length self.now.file.bytes }
        ensures short { result ≤ 1048576 }
    {
        self.bytes.len()
    }

    /// Whether the syntax tree is kept.
    pub fn is_kept(&self) -> bool
        ensures { result ≡ self.now.is_kept }
    {
        self.unit.is_some()
    }

    /// Takes the syntax tree that is kept.
    pub fn take_unit(&mut self) -> Unit
        requires kept { self.old.is_kept ≡ true }
        ensures unit { IsUnitOf self.old.file.bytes (unit_tree result) }
        ensures taken { self.new ≡ without_parse self.old }
    {
        match self.unit.take() {
            Some(unit) => unit,
            None => unreachable!(),
        }
    }

    /// Keeps a syntax tree of the bytes.
    pub fn keep_unit(&mut self, unit: Unit)
        requires { IsUnitOf self.old.file.bytes (unit_tree unit) }
        ensures { self.new ≡ with_parse self.old }
    {
        self.unit = Some(unit);
    }

    /// Takes other bytes. Where they are the same, the syntax tree stays.
    pub fn put(&mut self, bytes: Vec<u8>)
        requires { length bytes.items ≤ 1048576 }
        ensures { self.new ≡ with_bytes bytes.items self.old }
    {
        if self.bytes != bytes {
            self.unit = None;
            self.bytes = bytes;
        }
    }

    /// Reads the bytes, whose syntax tree is then kept.
    pub fn read(&mut self, alloc: Global) -> Result<(), TextFault>
        ensures unit { OnOk result (HasUnit self.old.file.bytes) }
        ensures kept { OnOk result (self.new ≡ record self.old { is_kept = true }) }
        ensures fault { IfErr result (IsTextFault self.old.file.bytes) }
        ensures not_kept { OnErr result (self.old.is_kept ≡ false) }
        ensures same { OnErr result (self.new ≡ self.old) }
    {
        if self.unit.is_some() {
            return Ok(());
        }
        let unit = unit_of(alloc, self.bytes.as_slice())?;
        self.unit = Some(unit);
        Ok(())
    }
}

/// The syntax tree of bytes.
fn unit_of(alloc: Global, bytes: &[u8]) -> Result<Unit, TextFault>
    requires { length bytes.now ≤ 1048576 }
    ensures unit { IfOk result (λ unit. IsUnitOf bytes.now (unit_tree unit)) }
    ensures fault { IfErr result (IsTextFault bytes.now) }
{
    match tokens(alloc, bytes) {
        Ok(found) => match parse(alloc, found.as_slice()) {
            Ok(unit) => Ok(unit),
            Err(SyntaxFault::Refused(refusal)) => Err(TextFault::Syntax(refusal)),
            Err(SyntaxFault::OutOfMemory) => Err(TextFault::OutOfMemory),
        },
        Err(TokenFault::Refused(refusal)) => Err(TextFault::Tokens(refusal)),
        Err(TokenFault::OutOfMemory) => Err(TextFault::OutOfMemory),
    }
}
