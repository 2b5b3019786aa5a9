//! A project: the files that were put, in the order of their names.
ghost use Rattle.std.specs.Prelude.{◌≡◌, [], IfOk, IfErr, OnOk, OnErr, Ok, None};
ghost use Rattle.std.specs.List.{AllZip};
ghost use Rattle.std.specs.Arc.{arc_value};
ghost use Rattle.shape_data.specs.Sizes.{HasProgramSizes};
ghost use Rattle.shape_data.specs.WellFormed.{IsProgram};
ghost use Rattle.project_form.specs.Files.{has_file, put_refusal, with_file, without_file};
ghost use Rattle.project_form.specs.Kept.{AreAllKept, Follows, kept_of, sources_of, with_kept, without_kept};
ghost use Rattle.project_form.specs.Parts.{IsProgramFault, KeepsWhatIsRead};
ghost use Rattle.project_form.specs.Puts.{IsPutFault};
ghost use Rattle.project_form.specs.Reads.{Reads};

use crate::fault::{ProgramFault, PutFault};
use crate::file::File;
use crate::files::{count_kept, drop_named, put_file};
use crate::laws::{answers_are_well_formed, answers_have_sizes};
use crate::whole::read_program;
use shape_data::Name;
use shape_data::program::Program;
use std::alloc::Global;
use std::marker::Model;
use std::sync::Arc;

/// Files in the order of their names, of which contracts see the names, the bytes, and whether a parse is kept.
#[derive(Drop)]
pub struct Project {
    files: Vec<File>,
}

impl Model for Project {
    ghost use Rattle.std.specs.Prelude.{List};
    ghost use Rattle.project_form.specs.Files.{AreFiles};
    ghost use Rattle.project_form.specs.Kept.{KeptFile, sources_of};

    ghost Value = { List KeptFile };

    ghost view = { λ p. p.files.items };

    ghost invariant = { λ p. AreFiles (sources_of p.files.items) };
}

impl Project {
    /// A project without a file.
    pub fn new(alloc: Global) -> Self
        ensures { result ≡ [] }
    {
        Project {
            files: Vec::new(alloc),
        }
    }

    /// Puts a file under a name, in place of the one that has it. Where the bytes are the same, its parse stays kept.
    ///
    /// # Errors
    ///
    /// 143 for more than 1,048,576 bytes, 141 for a 257th file, 144 for more than 4,194,304 bytes together, in this order; and want
    /// of memory. The project is then as before.
    pub fn put(&mut self, alloc: Global, name: &Name, bytes: Vec<u8>) -> Result<(), PutFault>
        ensures may { OnOk result (put_refusal name.now bytes.items (sources_of self.old) ≡ None) }
        ensures files { OnOk result (sources_of self.new ≡ with_file name.now bytes.items (sources_of self.old)) }
        ensures marks { OnOk result (self.new ≡ with_kept name.now bytes.items self.old) }
        ensures fault { IfErr result (IsPutFault (put_refusal name.now bytes.items (sources_of self.old))) }
        ensures same { OnErr result (self.new ≡ self.old) }
    {
        put_file(alloc, &mut self.files, name, bytes)
    }

    /// Drops the file of a name, and says whether there was one.
    pub fn drop_file(&mut self, name: &Name) -> bool
        ensures dropped { result ≡ has_file name.now (sources_of self.old) }
        ensures files { sources_of self.new ≡ without_file name.now (sources_of self.old) }
        ensures marks { self.new ≡ without_kept name.now self.old }
    {
        drop_named(&mut self.files, name)
    }

    /// The program that the files are: its procedures in the order of the files' names and, within a file, of their places. Files
    /// that were changed are read again; types and lowering are done over all.
    ///
    /// # Errors
    ///
    /// The least refusal by stage (tokens, syntax, types, what is too large, and 142 for the 1,025th procedure), then by the file's
    /// name, then by place; and want of memory.
    pub fn program(&mut self, alloc: Global) -> Result<Arc<Program>, ProgramFault>
        ensures program { IfOk result (λ program. Reads (sources_of self.old) (Ok (arc_value program))) }
        ensures well_formed { IfOk result (λ program. IsProgram (arc_value program)) }
        ensures sizes { IfOk result (λ program. HasProgramSizes (arc_value program)) }
        ensures fault { IfErr result (IsProgramFault (sources_of self.old)) }
        ensures files { sources_of self.new ≡ sources_of self.old }
        ensures follow { AllZip Follows self.old self.new }
        ensures kept { OnOk result (AreAllKept self.new) }
        ensures kept_behind_refusal { IfErr result (KeepsWhatIsRead self.new) }
    {
        answers_are_well_formed();
        answers_have_sizes();
        let program = read_program(alloc, &mut self.files)?;
        Ok(Arc::new(alloc, program)?)
    }

    /// Of how many files the parse is kept.
    pub fn kept(&self) -> u32
        ensures { result ≡ kept_of self.now }
    {
        count_kept(self.files.as_slice())
    }
}
