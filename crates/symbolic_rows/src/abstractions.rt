//! Rows of abstraction.
ghost use Rattle.std.specs.Prelude.{◌<◌, length, IsTrue};

use crate::rows::{PARAMS, state_of};
use crate::told::is_given;
use shape_data::program::{Flow, HeadMark};
use shape_data::symbolic::{Post, SymHeap, SymState};
use shape_data::{Name, Row, copy_of};
use std::alloc::Global;
use sym_abstract::{
    abstract_exit, abstract_head, abstract_pair, abstract_pre, have_few_fields, is_within_room,
};
use sym_canon::Pair;
use worked_rows::Fault;
use worked_rows::parts::{number_of, part, text};
use worked_scopes::Scope;
use worked_scopes::names::name_of;
use worked_scopes::structures::type_of;

/// The slots behind a word.
fn slots(alloc: Global, row: &str, word: &str) -> Result<Row<u32>, Fault> {
    let mut all = Row::new(alloc);
    for digits in part(row, word).unwrap_or("").split_whitespace() {
        all.push(number_of(digits)?)?;
    }
    Ok(all)
}

/// The mark of a row: its int slots and its dead ones.
fn mark(alloc: Global, row: &str) -> Result<HeadMark, Fault> {
    Ok(HeadMark {
        ints: slots(alloc, row, "ints")?,
        dead: slots(alloc, row, "dead")?,
    })
}

/// A procedure with the parameters, whose result is a pointer to a structure, or an int where there is no name. It has no node.
fn flow(alloc: Global, scope: &Scope, pointed: Option<&str>) -> Result<Flow, Fault> {
    Ok(Flow {
        name: name_of(alloc, "f")?,
        params: copy_of(&scope.params)?,
        ret: type_of(alloc, pointed)?,
        slots: Row::new(alloc),
        nodes: Row::new(alloc),
    })
}

/// Whether a 32-bit number can count the names, as abstraction asks of parameters.
fn are_countable(names: &[Name]) -> bool
    ensures { IsTrue result → length names.now < 4294967296 }
{
    names.len() < 4_294_967_296
}

/// The abstraction of a state at the head of a loop that has this mark.
fn head_with(
    alloc: Global,
    scope: &Scope,
    state: &SymState,
    mark: &HeadMark,
) -> Result<Option<SymState>, Fault> {
    let flow = flow(alloc, scope, None)?;
    if !is_within_room(state.locals.as_slice(), &state.heap)
        || !are_countable(flow.params.as_slice())
    {
        return Err(Fault::Row);
    }
    Ok(abstract_head(alloc, state, &flow, mark, scope.program.structs.as_slice())?)
}

/// The abstraction of the row's state at the head of a loop.
fn head(alloc: Global, scope: &Scope, row: &str) -> Result<Option<SymState>, Fault> {
    let state = state_of(alloc, scope, row, "head", "locals")?;
    let mark = mark(alloc, row)?;
    head_with(alloc, scope, &state, &mark)
}

/// Whether the state at the head of a loop becomes what the row tells.
pub fn abstracts_at_head(
    rt: &impl Print,
    alloc: Global,
    scope: &Scope,
    row: &str,
) -> Result<bool, Fault> {
    let found = head(alloc, scope, row)?;
    is_given(rt, alloc, scope, row, &found)
}

/// The abstraction of the post at an exit of a procedure.
fn exit_of(
    alloc: Global,
    scope: &Scope,
    post: &Post,
    flow: &Flow,
    recursive: bool,
) -> Result<Option<Post>, Fault> {
    if !is_within_room(&[post.ret], &post.heap) || !are_countable(flow.params.as_slice()) {
        return Err(Fault::Row);
    }
    Ok(abstract_exit(
        alloc,
        post,
        flow,
        scope.program.structs.as_slice(),
        recursive,
    )?)
}

/// The abstraction of the row's post at an exit.
fn exit(alloc: Global, scope: &Scope, row: &str) -> Result<Option<Post>, Fault> {
    let post = scope.post(alloc, text(row, "exit"))?;
    let flow = flow(alloc, scope, part(row, "pointer"))?;
    exit_of(alloc, scope, &post, &flow, part(row, "recursive").is_some())
}

/// Whether the post at an exit becomes what the row tells.
pub fn abstracts_at_exit(
    rt: &impl Print,
    alloc: Global,
    scope: &Scope,
    row: &str,
) -> Result<bool, Fault> {
    let found = exit(alloc, scope, row)?;
    is_given(rt, alloc, scope, row, &found)
}

/// The abstraction of a pair at the head of a loop that has this mark.
fn pair_with(
    alloc: Global,
    scope: &Scope,
    pair: &Pair,
    mark: &HeadMark,
) -> Result<Option<Pair>, Fault> {
    let flow = flow(alloc, scope, None)?;
    if !have_few_fields(pair.missing.spatial.as_slice())
        || !is_within_room(pair.state.locals.as_slice(), &pair.state.heap)
        || !are_countable(flow.params.as_slice())
    {
        return Err(Fault::Row);
    }
    Ok(abstract_pair(alloc, pair, &flow, mark, scope.program.structs.as_slice())?)
}

/// The row's pair.
fn pair_of(alloc: Global, scope: &Scope, row: &str) -> Result<Pair, Fault> {
    Ok(Pair {
        missing: scope.heap(alloc, text(row, "missing"))?,
        state: state_of(alloc, scope, row, "pair", "locals")?,
    })
}

/// The abstraction of the row's pair at the head of a loop.
fn pair(alloc: Global, scope: &Scope, row: &str) -> Result<Option<Pair>, Fault> {
    let pair = pair_of(alloc, scope, row)?;
    let mark = mark(alloc, row)?;
    pair_with(alloc, scope, &pair, &mark)
}

/// Whether the pair at the head of a loop becomes what the row tells.
pub fn abstracts_pair(
    rt: &impl Print,
    alloc: Global,
    scope: &Scope,
    row: &str,
) -> Result<bool, Fault> {
    let found = pair(alloc, scope, row)?;
    is_given(rt, alloc, scope, row, &found)
}

/// The abstraction of the row's candidate.
fn candidate(alloc: Global, scope: &Scope, row: &str) -> Result<Option<SymHeap>, Fault> {
    let missing = scope.heap(alloc, text(row, "candidate"))?;
    if !have_few_fields(missing.spatial.as_slice()) {
        return Err(Fault::Row);
    }
    Ok(abstract_pre(alloc, &missing, PARAMS)?)
}

/// Whether the candidate of a recursive component becomes what the row tells.
pub fn abstracts_candidate(
    rt: &impl Print,
    alloc: Global,
    scope: &Scope,
    row: &str,
) -> Result<bool, Fault> {
    let found = candidate(alloc, scope, row)?;
    is_given(rt, alloc, scope, row, &found)
}
