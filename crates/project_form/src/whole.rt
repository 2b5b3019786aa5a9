//! The program that files are together: types, lowering, and how many procedures there are.
ghost use Rattle.std.specs.Prelude.{◌≡◌, suc, ◌<◌, ◌≤◌, length, map, slice_get, All, IfOk, IfErr, OnOk, OnErr, Ok, None};
ghost use Rattle.std.specs.List.{AllZip};
ghost use Rattle.std.specs.Option.{option_map};
ghost use Rattle.c_types.specs.Typing.{files_of};
ghost use Rattle.c_types_rules.specs.Programs.{first_refusal};
ghost use Rattle.c_lower_rules.specs.Programs.{first_too_large, program_of as lowered_program};
ghost use Rattle.c_lower.specs.Lowering.{with_first};
ghost use Rattle.project_form.specs.Files.{AreFiles};
ghost use Rattle.project_form.specs.Kept.{AreAllKept, Follows, sources_of, with_parse, without_parse};
ghost use Rattle.project_form.specs.Parts.{AreUnits, IsFirstFault, IsLowerable, IsProgramFault, IsRefused, IsWhole, KeepsWhatIsRead};
ghost use Rattle.project_form.specs.Reads.{MOST_PROCEDURES as most, Reads, names_of, refused_at, refused_proc, whole_refusal};

use crate::fault::{ProgramFault, Refused};
use crate::file::File;
use crate::reading::read_files;
use c_lower::{LowerFault, lower};
use c_lower_rules::laws::parsed_files_are_texts;
use c_tree::Unit;
use c_types::{TypeFault, Typed, check};
use c_types_rules::{At, laws};
use shape_data::Name;
use shape_data::program::Program;
use std::alloc::{AllocError, Global};

/// How many procedures a program may have.
const MOST_PROCEDURES: usize = 1024;

/// The code of one more.
const TOO_MANY: u16 = 142;

/// The names of the files.
fn file_names(alloc: Global, files: &[File]) -> Result<Vec<Name>, AllocError>
    ensures { IfOk result (λ names. names.items ≡ names_of (sources_of files.now)) }
{
    let mut names = Vec::new(alloc);
    for file in files {
        names.push(Name::of(alloc, file.name().as_bytes())?)?;
    }
    Ok(names)
}

/// Takes the syntax trees out of the files, of each of which it is kept. Room for all is made before the first is taken.
fn take_units(alloc: Global, files: &mut [File]) -> Result<Vec<Unit>, AllocError>
    requires { AreAllKept files.old }
    ensures units { IfOk result (λ units. AreUnits files.old units.items) }
    ensures taken { OnOk result (files.new ≡ map without_parse files.old) }
    ensures same { OnErr result (files.new ≡ files.old) }
{
    let mut units = Vec::with_capacity(alloc, files.len())?;
    for file in files.iter_mut() {
        units.push_reserved(file.take_unit());
    }
    Ok(units)
}

/// Each file keeps its syntax tree.
fn keep_units(files: &mut [File], units: Vec<Unit>)
    requires { AreUnits files.old units.items }
    ensures { files.new ≡ map with_parse files.old }
{
    let mut units = units.into_iter();
    for file in files.iter_mut() {
        match units.next() {
            Some(unit) => file.keep_unit(unit),
            None => unreachable!(),
        }
    }
}

/// A refusal in one of the files with these names.
fn refused(alloc: Global, names: &[Name], at: At) -> ProgramFault
    requires { at.unit < length names.now }
    ensures { IsRefused (refused_at names.now at) result }
{
    match Name::of(alloc, names[at.unit as usize].as_bytes()) {
        Ok(file) => ProgramFault::Refused(Refused {
            file,
            line: at.refusal.line,
            code: at.refusal.code,
        }),
        Err(_) => ProgramFault::OutOfMemory,
    }
}

/// Where the first procedure too many is refused.
fn procedure_too_many(alloc: Global, program: &Program) -> Result<Option<Refused>, AllocError>
    ensures { IfOk result (λ found. found ≡ option_map refused_proc (slice_get program.now.procs most)) }
{
    match program.procs.as_slice().get(MOST_PROCEDURES) {
        Some(proc) => Ok(Some(Refused {
            file: Name::of(alloc, proc.file.as_bytes())?,
            line: proc.line,
            code: TOO_MANY,
        })),
        None => Ok(None),
    }
}

/// The files with these names, typed together, whose syntax trees are these.
fn typed_files<'a>(
    alloc: Global,
    names: &[Name],
    units: &'a [Unit],
) -> Result<Typed<'a>, ProgramFault>
    requires one_each { length names.now ≡ length units.now }
    requires few { length units.now ≤ 256 }
    ensures units { IfOk result (λ typed. typed.units.now ≡ units.now) }
    ensures typed { IfOk result (λ _. first_refusal (files_of units.now) ≡ None) }
    ensures fault { IfErr result (λ fault. IsFirstFault (option_map (refused_at names.now) (first_refusal (files_of units.now))) fault) }
{
    laws::first_refusal();
    match check(alloc, units) {
        Ok(typed) => Ok(typed),
        Err(TypeFault::Refused(at)) => Err(refused(alloc, names, at)),
        Err(TypeFault::OutOfMemory) => Err(ProgramFault::OutOfMemory),
    }
}

/// The typed files with these names in flow form, of whose procedures no more are kept than tell whether there are too many.
fn lowered_files(alloc: Global, names: &[Name], typed: Typed<'_>) -> Result<Program, ProgramFault>
    requires one_each { length names.now ≡ length typed.units.now }
    requires few { length typed.units.now ≤ 256 }
    requires lowerable { All IsLowerable (files_of typed.units.now) }
    ensures program { IfOk result (λ program.
        program ≡ with_first (suc most) (lowered_program names.now (files_of typed.entry.units.now))) }
    ensures small { IfOk result (λ _. first_too_large (files_of typed.entry.units.now) ≡ None) }
    ensures fault { IfErr result (λ fault.
        IsFirstFault (option_map (refused_at names.now) (first_too_large (files_of typed.entry.units.now))) fault) }
{
    laws::first_refusal();
    match lower(alloc, typed, names, MOST_PROCEDURES + 1) {
        Ok(program) => Ok(program),
        Err(LowerFault::Refused(at)) => Err(refused(alloc, names, at)),
        Err(LowerFault::OutOfMemory) => Err(ProgramFault::OutOfMemory),
    }
}

/// The program that files with these names are together, whose syntax trees are these.
fn program_in(alloc: Global, names: &[Name], units: &[Unit]) -> Result<Program, ProgramFault>
    requires one_each { length names.now ≡ length units.now }
    requires few { length units.now ≤ 256 }
    requires lowerable { All IsLowerable (files_of units.now) }
    ensures program { IfOk result (λ program. IsWhole names.now (files_of units.now) program) }
    ensures fault { IfErr result (λ fault. IsFirstFault (whole_refusal names.now (files_of units.now)) fault) }
{
    let typed = typed_files(alloc, names, units)?;
    let program = lowered_files(alloc, names, typed)?;
    match procedure_too_many(alloc, &program)? {
        Some(refused) => Err(ProgramFault::Refused(refused)),
        None => Ok(program),
    }
}

/// The program that files are, of each of which the syntax tree is kept.
///
/// # Errors
///
/// The first refusal: of types, else of what is too large, else the first procedure too many; and want of memory.
pub fn program_of(alloc: Global, files: &mut [File]) -> Result<Program, ProgramFault>
    requires files { AreFiles (sources_of files.old) }
    requires kept { AreAllKept files.old }
    ensures program { IfOk result (λ program. Reads (sources_of files.old) (Ok program)) }
    ensures fault { IfErr result (λ fault. IsProgramFault (sources_of files.old) fault) }
    ensures same { files.new ≡ files.old }
{
    parsed_files_are_texts();
    let names = file_names(alloc, files)?;
    let units = take_units(alloc, files)?;
    let program = program_in(alloc, names.as_slice(), units.as_slice());
    keep_units(files, units);
    program
}

/// The program that files are. Those that have a syntax tree keep it.
///
/// # Errors
///
/// The first refusal: of tokens, else of syntax, else of all files together; and want of memory.
pub fn read_program(alloc: Global, files: &mut Vec<File>) -> Result<Program, ProgramFault>
    requires { AreFiles (sources_of files.old.items) }
    ensures program { IfOk result (λ program. Reads (sources_of files.old.items) (Ok program)) }
    ensures fault { IfErr result (λ fault. IsProgramFault (sources_of files.old.items) fault) }
    ensures files { sources_of files.new.items ≡ sources_of files.old.items }
    ensures follow { AllZip Follows files.old.items files.new.items }
    ensures kept { OnOk result (AreAllKept files.new.items) }
    ensures kept_behind_refusal { IfErr result (λ fault. KeepsWhatIsRead files.new.items fault) }
{
    let firsts = read_files(alloc, files)?;
    match firsts.first() {
        Some(refused) => Err(ProgramFault::Refused(refused)),
        None => program_of(alloc, files.as_mut_slice()),
    }
}
