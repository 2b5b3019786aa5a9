//! Reads the files of a project that were not read yet, and notes which are refused first.
ghost use Rattle.std.specs.Prelude.{◌≡◌, Some, OnOk, IfOk};
ghost use Rattle.std.specs.List.{AllZip};
ghost use Rattle.std.specs.Option.{option_or};
ghost use Rattle.project_form.specs.Kept.{Follows, sources_of};
ghost use Rattle.project_form.specs.Parts.{AreNoted, IsNoted, or_refused};

use crate::fault::Refused;
use crate::file::{File, TextFault};
use c_grammar::tokens::Refusal;
use shape_data::Name;
use std::alloc::{AllocError, Global};

/// Which of the files read so far is refused first for its tokens, and which for its syntax.
#[derive(Drop)]
pub struct Firsts {
    pub tokens: Option<Refused>,
    pub syntax: Option<Refused>,
}

impl Firsts {
    /// What is refused first: tokens come before syntax.
    pub fn first(self) -> Option<Refused>
        ensures { result ≡ option_or self.tokens self.syntax }
    {
        let Firsts { tokens, syntax } = self;
        match tokens {
            Some(refused) => Some(refused),
            None => syntax,
        }
    }
}

/// Notes a refusal in the file of this name, unless one was noted before.
fn note(
    alloc: Global,
    first: &mut Option<Refused>,
    name: &Name,
    refusal: Refusal,
) -> Result<(), AllocError>
    ensures { OnOk result (first.new ≡ or_refused name.now (Some refusal) first.old) }
{
    if first.is_none() {
        *first = Some(Refused {
            file: Name::of(alloc, name.as_bytes())?,
            line: refusal.line,
            code: refusal.code,
        });
    }
    Ok(())
}

/// Reads one file.
fn read_file(alloc: Global, file: &mut File, firsts: &mut Firsts) -> Result<(), AllocError>
    ensures noted { OnOk result (IsNoted file.new firsts.old firsts.new) }
    ensures follows { Follows file.old file.new }
{
    match file.read(alloc) {
        Ok(()) => Ok(()),
        Err(TextFault::Tokens(refusal)) => note(alloc, &mut firsts.tokens, file.name(), refusal),
        Err(TextFault::Syntax(refusal)) => note(alloc, &mut firsts.syntax, file.name(), refusal),
        Err(TextFault::OutOfMemory) => Err(AllocError),
    }
}

/// Reads the files. Those that have a syntax tree keep it.
pub fn read_files(alloc: Global, files: &mut Vec<File>) -> Result<Firsts, AllocError>
    ensures noted { IfOk result (λ firsts. AreNoted files.new.items firsts) }
    ensures follow { AllZip Follows files.old.items files.new.items }
    ensures files { sources_of files.new.items ≡ sources_of files.old.items }
{
    let mut firsts = Firsts {
        tokens: None,
        syntax: None,
    };
    for place in 0..files.len() {
        read_file(alloc, &mut files[place], &mut firsts)?;
    }
    Ok(firsts)
}
