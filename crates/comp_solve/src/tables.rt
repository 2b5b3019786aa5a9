//! The specs that calls may use while a component is solved: some for its own procedures, and those of the key's callees.
ghost use Rattle.std.specs.Prelude.{◌≡◌, false, [], length, IfOk};
ghost use Rattle.solve_laws.specs.Tables.{own_with as own_with_of, table_with as table_with_of, with_specs as with_specs_of};

use exec_laws::Table;
use shape_data::answer::{Callee, Key};
use shape_data::program::Flow;
use shape_data::symbolic::Spec;
use shape_data::{Row, copy_of};
use std::alloc::{AllocError, Global};

/// A procedure with specs, as a callee.
fn with_specs(flow: &Flow, specs: &Row<Spec>) -> Result<Callee, AllocError>
    ensures { IfOk result (λ callee. callee ≡ with_specs_of flow.now specs.now) }
{
    Ok(Callee {
        name: copy_of(&flow.name)?,
        params: copy_of(&flow.params)?,
        specs: copy_of(specs)?,
    })
}

/// The procedures of a key with the specs of each.
#[tactic(auto, using(crate::proofs::Turns::own_turns))]
fn own_with(alloc: Global, flows: &[Flow], specs: &[Row<Spec>]) -> Result<Row<Callee>, AllocError>
    requires { length specs.now ≡ length flows.now }
    ensures { IfOk result (λ callees. callees ≡ own_with_of flows.now specs.now) }
{
    let mut callees = Row::new(alloc);
    for place in 0..flows.len() {
        callees.push(with_specs(&flows[place], &specs[place])?)?;
    }
    Ok(callees)
}

/// The table of a key with specs of its own procedures, cut or strict.
pub fn table_with(
    alloc: Global,
    key: &Key,
    specs: &[Row<Spec>],
    cut: bool,
) -> Result<Table, AllocError>
    requires { length specs.now ≡ length key.now.procs }
    ensures { IfOk result (λ table. table ≡ table_with_of key.now specs.now cut) }
{
    Ok(Table {
        own: own_with(alloc, key.procs.as_slice(), specs)?,
        outer: copy_of(&key.callees)?,
        cut,
    })
}

/// The strict table of a key without specs of its own procedures.
pub fn table_alone(alloc: Global, key: &Key) -> Result<Table, AllocError>
    ensures { IfOk result (λ table. table ≡ table_with_of key.now [] false) }
{
    Ok(Table {
        own: Row::new(alloc),
        outer: copy_of(&key.callees)?,
        cut: false,
    })
}
