//! Rows of execution: what is asked, what is found, and what is told.
use crate::conditions::{fits, is_heap, is_state, is_table};
use crate::programs::{LINE, program};
use crate::rows::piece;
use crate::tables::table;
use exec_laws::{Case, Step, Table};
use shape_data::program::Program;
use shape_data::symbolic::{Post, SymHeap, SymState};
use shape_data::{Row, answer, well_formed_program};
use std::alloc::{AllocError, Global};
use sym_canon::Pair;
use sym_exec::{exec, search_cases};
use worked_rows::Fault;
use worked_rows::parts::{first_word, number_of, text};
use worked_scopes::Scope;

/// What is asked: the program of the procedure, the pair, and the table.
#[derive(Drop)]
struct Asked {
    program: Program,
    pair: Pair,
    table: Table,
}

/// The pair that the row asks of.
fn pair_asked(alloc: Global, scope: &Scope, row: &str) -> Result<Pair, Fault> {
    Ok(Pair {
        state: scope.state(alloc, text(row, "state"), text(row, "slots"))?,
        missing: scope.heap(alloc, text(row, "missing"))?,
    })
}

/// What the row asks, of the command behind its first word.
fn question(alloc: Global, scope: &Scope, row: &str) -> Result<Asked, Fault> {
    let (_, command) = first_word(row.split(';').next().unwrap_or(""));
    Ok(Asked {
        pair: pair_asked(alloc, scope, row)?,
        program: program(alloc, scope, command)?,
        table: table(alloc, scope, row)?,
    })
}

/// What strict execution answers.
fn stepped(alloc: Global, asked: &Asked) -> Result<Step, Fault> {
    let structs = asked.program.structs.as_slice();
    let table = &asked.table;
    let state = &asked.pair.state;
    let Some(proc) = asked.program.procs.first() else {
        return Err(Fault::Row);
    };
    let flow = &proc.flow;
    if !well_formed_program(&asked.program)
        || !is_state(structs, flow.params.len(), flow.slots.len(), state)
        || !is_table(structs, table)
        || !fits(table, flow)
    {
        return Err(Fault::Row);
    }
    Ok(exec(alloc, flow, structs, 0, state, table)?)
}

/// What the search's execution answers.
fn searched(alloc: Global, asked: &Asked) -> Result<Row<Case>, Fault> {
    let structs = asked.program.structs.as_slice();
    let table = &asked.table;
    let pair = &asked.pair;
    let Some(proc) = asked.program.procs.first() else {
        return Err(Fault::Row);
    };
    let flow = &proc.flow;
    if !well_formed_program(&asked.program)
        || !is_state(structs, flow.params.len(), flow.slots.len(), &pair.state)
        || !is_heap(structs, flow.params.len(), &pair.missing)
        || !is_table(structs, table)
        || !fits(table, flow)
    {
        return Err(Fault::Row);
    }
    Ok(search_cases(alloc, flow, structs, 0, pair, table)?)
}

/// No heap.
fn emp(alloc: Global) -> SymHeap {
    SymHeap {
        pure: Row::new(alloc),
        spatial: Row::new(alloc),
    }
}

/// The cases of an answer of strict execution, with nothing missing.
fn cases_of(alloc: Global, step: Step) -> Result<Row<Case>, Fault> {
    let mut cases = Row::new(alloc);
    match step {
        Step::Fail { fault, line } => {
            if line != LINE {
                return Err(Fault::Row);
            }
            cases.push(Case::Drops { fault })?;
        }
        Step::Next { next, exits } => {
            add_next(alloc, &mut cases, next)?;
            add_exits(alloc, &mut cases, exits)?;
        }
    }
    Ok(cases)
}

/// Puts the cases that go on behind others.
fn add_next(
    alloc: Global,
    cases: &mut Row<Case>,
    next: Row<(u32, SymState)>,
) -> Result<(), AllocError> {
    for (node, state) in next.into_vec() {
        cases.push(Case::On {
            node,
            pair: Pair {
                missing: emp(alloc),
                state,
            },
        })?;
    }
    Ok(())
}

/// The case that leaves with a post, with nothing missing.
fn leaving(alloc: Global, post: Post) -> Result<Case, AllocError> {
    let locals = Row::from_vec(Vec::from_array(alloc, [post.ret])?);
    Ok(Case::Leaves {
        pair: Pair {
            missing: emp(alloc),
            state: SymState {
                locals,
                heap: post.heap,
            },
        },
    })
}

/// Puts the cases that leave behind others.
fn add_exits(alloc: Global, cases: &mut Row<Case>, exits: Row<Post>) -> Result<(), AllocError> {
    for post in exits.into_vec() {
        cases.push(leaving(alloc, post)?)?;
    }
    Ok(())
}

/// The fault of a word.
fn fault_of(word: &str) -> Result<answer::Fault, Fault> {
    match word {
        "null" => Ok(answer::Fault::Null),
        "unowned" => Ok(answer::Fault::Unowned),
        "kind" => Ok(answer::Fault::Kind),
        "callee" => Ok(answer::Fault::Callee),
        _ => Err(Fault::Row),
    }
}

/// The pair of the pieces behind the first; where no heap is told to be missing, none is.
fn pair_told(alloc: Global, scope: &Scope, text: &str) -> Result<Pair, Fault> {
    let with_missing = !piece(text, 3).is_empty();
    let missing = if with_missing { piece(text, 1) } else { "emp" };
    let place = if with_missing { 2 } else { 1 };
    Ok(Pair {
        missing: scope.heap(alloc, missing)?,
        state: scope.state(alloc, piece(text, place + 1), piece(text, place))?,
    })
}

/// The case that goes on at the node of the first piece.
fn case_on(alloc: Global, scope: &Scope, text: &str) -> Result<Case, Fault> {
    Ok(Case::On {
        node: number_of(piece(text, 0))?,
        pair: pair_told(alloc, scope, text)?,
    })
}

/// The case of a part, if it is of one.
fn case_told(alloc: Global, scope: &Scope, part: &str) -> Result<Option<Case>, Fault> {
    let (word, text) = first_word(part);
    match word {
        "on" => Ok(Some(case_on(alloc, scope, text)?)),
        "leaves" => Ok(Some(Case::Leaves {
            pair: pair_told(alloc, scope, text)?,
        })),
        "drops" => Ok(Some(Case::Drops {
            fault: fault_of(text)?,
        })),
        _ => Ok(None),
    }
}

/// The cases that the row tells.
fn told(alloc: Global, scope: &Scope, row: &str) -> Result<Row<Case>, Fault> {
    let mut cases = Row::new(alloc);
    for part in row.split(';') {
        if let Some(case) = case_told(alloc, scope, part)? {
            cases.push(case)?;
        }
    }
    Ok(cases)
}

/// Whether two cases are the same.
fn is_same(left: &Case, right: &Case) -> bool {
    match (left, right) {
        (Case::On { node, pair }, Case::On { node: n, pair: p }) => *node == *n && *pair == *p,
        (Case::Leaves { pair }, Case::Leaves { pair: p }) => *pair == *p,
        (Case::Drops { fault }, Case::Drops { fault: f }) => *fault == *f,
        _ => false,
    }
}

/// Whether the cases that were found are those that were told; else they are printed.
fn are_told(rt: &impl Print, found: &Row<Case>, told: &Row<Case>) -> Result<bool, Fault> {
    let agrees = found.len() == told.len()
        && found
            .iter()
            .zip(told.iter())
            .all(|(one, other)| is_same(one, other));
    if !agrees {
        println!(rt; "{found:?}")?;
    }
    Ok(agrees)
}

/// The cases that strict execution answers to the row.
fn cases_stepped(alloc: Global, scope: &Scope, row: &str) -> Result<Row<Case>, Fault> {
    let step = stepped(alloc, &question(alloc, scope, row)?)?;
    cases_of(alloc, step)
}

/// The cases that the search's execution answers to the row.
fn cases_searched(alloc: Global, scope: &Scope, row: &str) -> Result<Row<Case>, Fault> {
    searched(alloc, &question(alloc, scope, row)?)
}

/// Whether strict execution answers what the row tells.
pub fn steps(rt: &impl Print, alloc: Global, scope: &Scope, row: &str) -> Result<bool, Fault> {
    let told = told(alloc, scope, row)?;
    are_told(rt, &cases_stepped(alloc, scope, row)?, &told)
}

/// Whether the search's execution answers what the row tells.
pub fn searches(rt: &impl Print, alloc: Global, scope: &Scope, row: &str) -> Result<bool, Fault> {
    let told = told(alloc, scope, row)?;
    are_told(rt, &cases_searched(alloc, scope, row)?, &told)
}
