//! The answers of the components that an aim reaches, one after the other.
ghost use Rattle.std.specs.Prelude.{◌≡◌, All, IfOk, length};
ghost use Rattle.std.specs.List.{filter_map};
ghost use Rattle.bottom_up.specs.BottomUp.{answered, known_by};
ghost use Rattle.bottom_up.specs.Placed.{AreRows};
ghost use Rattle.call_components.specs.Reaching.{marked};
ghost use Rattle.loaded_answers.specs.Lookup.{lookup};
ghost use Rattle.claim_core.specs.Views.{solution_of, solutions_of};
ghost use Rattle.session_replies.specs.PlainAnswers.Table.{IsClosed, IsTable};
ghost use Rattle.settled_laws.specs.Laws.{aimed_known};
ghost use Rattle.shape_data.specs.Sizes.{HasProgramSizes};
ghost use Rattle.shape_data.specs.WellFormed.{IsProgram, IsStorableKey};
ghost use Rattle.comp_solve.specs.Job.Solves.{IsStoredEntry, solve as solve_of};
ghost use Rattle.store_json.specs.Entries.{IsStorable};

use crate::plain_answers::aims::aimed_in;
use crate::plain_answers::keys::key_in;
use crate::plain_answers::laws::known_is_storable;
use call_components::reach::is_marked;
use comp_solve::solve;
use composed_keys::{Component, components_of, structures_of};
use io_ports::Gate;
use loaded_answers::LoadedAnswers;
use shape_data::answer::{Answer, Kept, Key};
use shape_data::exact::share;
use shape_data::program::Program;
use solve_laws::certificates::limits::limits_widen;
use std::alloc::{AllocError, Global};
use std::sync::{Arc, Wait};
use summary_book::Aim;

/// The answer that solving a key gives.
fn solved(alloc: Global, key: &Key) -> Result<Answer, AllocError>
    requires { IsStorableKey key.now }
    ensures { IfOk result (λ answer. answer ≡ solve_of key.now) }
{
    limits_widen();
    solve(alloc, key)
}

/// The answer of the first loaded entry that has the key, else the one that solving it gives, behind the gate.
fn answer_to<R: Wait, G: Gate>(
    rt: &R,
    alloc: Global,
    loaded: &LoadedAnswers,
    key: &Key,
    gate: &G,
) -> Result<Arc<Answer>, AllocError>
    requires { IsStorableKey key.now }
    ensures { IfOk result (λ answer. answer.value ≡ lookup solve_of loaded.now key.now) }
{
    match loaded.find(key) {
        Some(answer) => share(answer),
        None => {
            gate.enter(rt, 0);
            Ok(Arc::new(alloc, solved(alloc, key)?)?)
        }
    }
}

/// A key with the answer to it.
fn entry_for<R: Wait, G: Gate>(
    rt: &R,
    alloc: Global,
    loaded: &LoadedAnswers,
    key: Key,
    gate: &G,
) -> Result<Kept, AllocError>
    requires { IsStorableKey key }
    ensures { IfOk result (λ kept. solution_of kept ≡ answered (lookup solve_of loaded.now) key) }
{
    let answer = answer_to(rt, alloc, loaded, &key, gate)?;
    let key = Arc::new(alloc, key)?;
    Ok(Kept { key, answer })
}

/// What is known of the marked components, callees first, each at its number; of the others nothing.
fn table_of<R: Wait, G: Gate>(
    rt: &R,
    alloc: Global,
    loaded: &LoadedAnswers,
    program: &Program,
    components: &[Component],
    marks: &[bool],
    gate: &G,
) -> Result<Vec<Option<Kept>>, AllocError>
    requires formed { IsProgram program.now }
    requires sizes { HasProgramSizes program.now }
    requires loaded { All IsStoredEntry loaded.now }
    requires rows { AreRows program.now components.now }
    requires closed { IsClosed program.now (marked marks.now) }
    ensures { IfOk result (λ table. IsTable (marked marks.now) (known_by (lookup solve_of loaded.now) program.now) (length components.now)
        table.items) }
{
    known_is_storable();
    let structures = structures_of(alloc, &program.structs)?;
    let mut table = Vec::with_capacity(alloc, components.len())?;
    for (place, row) in components.iter().enumerate() {
        if !is_marked(marks, place) {
            table.push(None)?;
            continue;
        }
        let key = key_in(alloc, program, &structures, &table, row)?;
        let entry = entry_for(rt, alloc, loaded, key, gate)?;
        table.push(Some(entry))?;
    }
    Ok(table)
}

/// The entries that a table has.
fn entries_in(alloc: Global, table: Vec<Option<Kept>>) -> Result<Vec<Kept>, AllocError>
    ensures { IfOk result (λ kept. kept.items ≡ filter_map (λ entry. entry) table.items) }
{
    table.into_iter().filter_map(|entry| entry).collect(alloc)
}

/// The answers of the components of a program that an aim reaches, callees first, with their keys: of each the answer of the first loaded
/// entry that has its key, else the one that solving it gives. Before each solving it enters the gate with 0. Each key and each answer is
/// within the limits of a store. The only error is want of memory.
pub fn plain<R: Wait, G: Gate>(
    rt: &R,
    alloc: Global,
    loaded: &LoadedAnswers,
    program: &Program,
    aim: &Aim,
    gate: &G,
) -> Result<Vec<Kept>, AllocError>
    requires formed { IsProgram program.now }
    requires sizes { HasProgramSizes program.now }
    requires loaded { All IsStoredEntry loaded.now }
    ensures known { IfOk result (λ kept. solutions_of kept.items ≡ aimed_known (lookup solve_of loaded.now) program.now aim.now) }
    ensures storable { IfOk result (λ kept. All (λ one. IsStorable (solution_of one)) kept.items) }
{
    known_is_storable();
    let components = components_of(alloc, program)?;
    let marks = aimed_in(alloc, program, &components, aim)?;
    let table = table_of(rt, alloc, loaded, program, &components, &marks, gate)?;
    entries_in(alloc, table)
}
