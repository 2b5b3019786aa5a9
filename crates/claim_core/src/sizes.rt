//! Tests of the sizes of programs and keys.
ghost use Rattle.std.specs.Prelude.{◌↔◌, All, IsTrue};
ghost use Rattle.shape_data.specs.Sizes.{HasFewSlots, HasKeySizes, HasProgramSizes, IsNarrow};
ghost use Rattle.shape_data.specs.declared.program.Proc.{Proc as ProcValue};

use shape_data::answer::Key;
use shape_data::program::{Flow, Proc, Program, StructDef};

/// The most fields of a structure.
const MOST_FIELDS: usize = 16;

/// The most slots of a procedure.
const MOST_SLOTS: usize = 48;

fn have_few_fields(structs: &[StructDef]) -> bool
    ensures { IsTrue result ↔ All IsNarrow structs.now }
{
    structs.iter().all(|def| def.fields.len() <= MOST_FIELDS)
}

fn have_few_slots(flows: &[Flow]) -> bool
    ensures { IsTrue result ↔ All HasFewSlots flows.now }
{
    flows.iter().all(|flow| flow.slots.len() <= MOST_SLOTS)
}

fn procs_have_few_slots(procs: &[Proc]) -> bool
    ensures { IsTrue result ↔ All (λ (proc : ProcValue). HasFewSlots proc.flow) procs.now }
{
    procs.iter().all(|proc| proc.flow.slots.len() <= MOST_SLOTS)
}

/// Whether each structure of a program has at most 16 fields, and each procedure at most 48 slots.
pub fn has_program_sizes(program: &Program) -> bool
    ensures { IsTrue result ↔ HasProgramSizes program.now }
{
    let structs = program.structs.as_slice();
    let procs = program.procs.as_slice();
    have_few_fields(structs) && procs_have_few_slots(procs)
}

/// The same of a key.
pub fn has_key_sizes(key: &Key) -> bool
    ensures { IsTrue result ↔ HasKeySizes key.now }
{
    let structs = key.structs.as_slice();
    let procs = key.procs.as_slice();
    have_few_fields(structs) && have_few_slots(procs)
}
