//! The turns of a search: the first pair of the queue is executed at its node, and what comes of it is listed.
ghost use Rattle.std.specs.Prelude.{◌≡◌, length, All, IfOk, OnOk};
ghost use Rattle.solve_laws.specs.Certificates.Conditions.{IsTask};
ghost use Rattle.certificate_steps.specs.InTask.{task_in};
ghost use Rattle.solve_laws.specs.Candidates.Candidates.{
  candidates as candidates_of,
  case_comes as case_comes_of,
  cases_come as cases_come_of,
  cases_of_pair as cases_of_pair_at,
  empty_search as empty_search_of,
  started as started_of,
  turn_of,
  turns as turns_of,
  without_turns as without_turns_of,
};
ghost use Rattle.solve_laws.specs.Candidates.Conditions.{IsGivenCase, IsSearch, IsTaskPair, MayCome, MayLeave};
ghost use Rattle.solve_laws.specs.Candidates.Coming.{candidate_of as candidate_of_missing, pair_at_node as pair_at_node_of};
ghost use Rattle.solve_laws.specs.Candidates.Searching.{candidate_comes as candidate_comes_of, pair_comes as pair_comes_of, unless_none};
ghost use Rattle.pre_gen.specs.InSearch.{no_pairs_of, search_in};

use crate::coming::{candidate_of, pair_at_node, start_pair_at_node};
use crate::searching::{Search, candidate_comes, drops, pair_comes};
use certificate_steps::Task;
use certificate_steps::coming::{line_at, normal_state};
use exec_laws::Case;
use shape_data::Row;
use shape_data::answer::Fault;
use shape_data::program::Node;
use shape_data::symbolic::SymHeap;
use solve_laws::candidates::Found;
use std::alloc::{AllocError, Global};
use std::collections::VecDeque;
use sym_canon::Pair;
use sym_exec::search_cases;

/// How many turns there are at most.
const MOST_TURNS: u32 = 2048;

/// A pair that the execution of a node on a line gave comes to its node.
fn goes_on(
    alloc: Global,
    task: &Task,
    search: &mut Search,
    line: u32,
    node: u32,
    pair: Pair,
) -> Result<(), AllocError>
    requires task { IsTask (task_in task.now) }
    requires pair { MayCome (task_in task.now) node pair }
    requires nodes { length search.old.nodes.items ≡ length task.now.flow.now.nodes }
    ensures { OnOk result
        (search_in search.new
        ≡ unless_none (pair_comes_of line node) (pair_at_node_of (task_in task.now) node pair) (search_in search.old)) }
{
    match pair_at_node(alloc, task, node, pair)? {
        None => Ok(()),
        Some(made) => pair_comes(search, line, node, made),
    }
}

/// The missing heap at an exit, from the execution of a node on a line, comes as a candidate.
fn leaves(
    alloc: Global,
    task: &Task,
    search: &mut Search,
    line: u32,
    missing: SymHeap,
) -> Result<(), AllocError>
    requires task { IsTask (task_in task.now) }
    requires missing { MayLeave (task_in task.now) missing }
    ensures { OnOk result
        (search_in search.new
        ≡ unless_none (candidate_comes_of line) (candidate_of_missing (task_in task.now) missing) (search_in search.old)) }
{
    match candidate_of(alloc, task, missing)? {
        None => Ok(()),
        Some(pre) => candidate_comes(alloc, search, line, pre),
    }
}

/// A case that the execution of a node on a line gave.
fn case_comes(
    alloc: Global,
    task: &Task,
    search: &mut Search,
    line: u32,
    case: Case,
) -> Result<(), AllocError>
    requires task { IsTask (task_in task.now) }
    requires case { IsGivenCase (task_in task.now) case }
    requires nodes { length search.old.nodes.items ≡ length task.now.flow.now.nodes }
    ensures { OnOk result (search_in search.new ≡ case_comes_of (task_in task.now) line case (search_in search.old)) }
{
    match case {
        Case::On { node, pair } => goes_on(alloc, task, search, line, node, pair),
        Case::Leaves { pair } => leaves(alloc, task, search, line, pair.missing),
        Case::Drops { fault } => {
            drops(search, fault, line);
            Ok(())
        }
    }
}

/// The cases of an execution come in order.
fn cases_come(
    alloc: Global,
    task: &Task,
    search: &mut Search,
    line: u32,
    cases: Row<Case>,
) -> Result<(), AllocError>
    requires task { IsTask (task_in task.now) }
    requires cases { All (IsGivenCase (task_in task.now)) cases }
    requires search { IsSearch (task_in task.now) (search_in search.old) }
    ensures { OnOk result (search_in search.new ≡ cases_come_of (task_in task.now) line cases (search_in search.old)) }
{
    for case in cases.into_vec() {
        case_comes(alloc, task, search, line, case)?;
    }
    Ok(())
}

/// The cases of a pair at a node. Its state is brought to normal form first: numbering its logical variables may have left an equation
/// solved for the smaller one.
fn cases_of_pair(alloc: Global, task: &Task, node: u32, pair: Pair) -> Result<Row<Case>, AllocError>
    requires task { IsTask (task_in task.now) }
    requires pair { IsTaskPair (task_in task.now) pair }
    ensures { IfOk result (λ cases. cases ≡ cases_of_pair_at (task_in task.now) node pair) }
{
    let Pair { missing, state } = pair;
    match normal_state(alloc, &state)? {
        None => Ok(Row::new(alloc)),
        Some(form) => {
            let formed = Pair {
                missing,
                state: form,
            };
            search_cases(alloc, task.flow, task.structs, node, &formed, task.table)
        }
    }
}

/// The turn of a pair at a node.
fn turn(
    alloc: Global,
    task: &Task,
    search: &mut Search,
    node: u32,
    pair: Pair,
) -> Result<(), AllocError>
    requires task { IsTask (task_in task.now) }
    requires pair { IsTaskPair (task_in task.now) pair }
    requires search { IsSearch (task_in task.now) (search_in search.old) }
    ensures { OnOk result (search_in search.new ≡ turn_of (task_in task.now) node pair (search_in search.old)) }
{
    let line = line_at(task, node);
    let cases = cases_of_pair(alloc, task, node, pair)?;
    cases_come(alloc, task, search, line, cases)
}

/// No turn is left: if a pair waits, the search ends with `Turns`.
fn without_turns(task: &Task, search: &mut Search)
    ensures { search_in search.new ≡ without_turns_of (task_in task.now) (search_in search.old) (search_in search.old).queue }
{
    match search.queue.front() {
        None => {}
        Some(first) => {
            let node = first.0;
            drops(search, Fault::Turns, line_at(task, node));
        }
    }
}

/// So many turns, each of the first of the queue.
fn turns(alloc: Global, task: &Task, search: &mut Search, most: u32) -> Result<(), AllocError>
    requires task { IsTask (task_in task.now) }
    requires search { IsSearch (task_in task.now) (search_in search.old) }
    ensures { OnOk result (search_in search.new ≡ turns_of most (task_in task.now) (search_in search.old)) }
{
    for _turn in 0..most {
        match search.queue.pop_front() {
            None => return Ok(()),
            Some(first) => turn(alloc, task, search, first.0, first.1)?,
        }
    }
    without_turns(task, search);
    Ok(())
}

/// No pairs for each of the nodes.
fn no_pairs(alloc: Global, nodes: &[Node]) -> Result<Vec<Row<Pair>>, AllocError>
    ensures { IfOk result (λ lists. lists.items ≡ no_pairs_of nodes.now) }
{
    nodes.iter().map(|_node| Row::new(alloc)).collect(alloc)
}

/// Nothing is listed.
fn empty_search(alloc: Global, task: &Task) -> Result<Search, AllocError>
    ensures { IfOk result (λ search. search_in search ≡ empty_search_of (task_in task.now)) }
{
    let nodes = task.flow.nodes.as_slice();
    let lists = no_pairs(alloc, nodes)?;
    Ok(Search {
        nodes: lists,
        queue: VecDeque::new(alloc),
        pres: Row::new(alloc),
        first_drop: None,
    })
}

/// The search when the start pair has come to node 0.
fn started(alloc: Global, task: &Task) -> Result<Search, AllocError>
    requires { IsTask (task_in task.now) }
    ensures { IfOk result (λ search. search_in search ≡ started_of (task_in task.now)) }
{
    let mut search = empty_search(alloc, task)?;
    if let Some(start) = start_pair_at_node(alloc, task)? {
        pair_comes(&mut search, line_at(task, 0), 0, start)?;
    }
    Ok(search)
}

/// The candidates of a procedure: the preconditions that a search by abduction finds, in the order in which it finds them, and why and
/// at which line the first path was dropped, if one was.
///
/// The search executes pairs of a missing heap and a state from the empty missing heap, first in first out. A pair with over 96 parts
/// in a heap is dropped, and so is the seventeenth of a node; turn 2,049 ends the search. The missing heap at an exit is a candidate; in
/// a recursive component its segments are joined first. After eight candidates the rest is left out. A candidate has a heap that meets
/// it, and nothing more is claimed of it: the procedure may fault from it. The only error is want of memory.
pub fn candidates(alloc: Global, task: &Task) -> Result<Found, AllocError>
    requires { IsTask (task_in task.now) }
    ensures { IfOk result (λ found. found ≡ candidates_of (task_in task.now)) }
{
    let mut search = started(alloc, task)?;
    turns(alloc, task, &mut search, MOST_TURNS)?;
    let Search {
        pres,
        first_drop,
        ..
    } = search;
    Ok(Found { pres, first_drop })
}
