//! Execution of a node: the cases of its command, each in normal and canonical form, and what strict execution answers to them.
ghost use Rattle.std.specs.Prelude.{◌≡◌, IfOk, filter_map, length, slice_get};
ghost use Rattle.shape_data.specs.declared.answer.Callee.{Callee as AnyCallee};
ghost use Rattle.shape_data.specs.WellFormed.{AreStructs, FitCalls, IsFlow, IsState, IsSymHeap, widest};
ghost use Rattle.exec_laws.specs.Execution.{
  answer_to as answer_to_of,
  both_forms as both_forms_of,
  cases_of as cases_of_command,
  exec as exec_of,
  execution as execution_of,
  exit_of,
  first_drop as first_drop_of,
  formed_case as formed_case_of,
  formed_cases as formed_cases_of,
  line_of as line_of_node,
  next_of,
  nothing_missing as nothing_missing_of,
  post_of as post_of_state,
  search_cases as search_cases_of,
};
ghost use Rattle.exec_laws.specs.declared.parts.Step.TheVariants as step;
ghost use Rattle.exec_laws.specs.Laws.{FitsTable, IsTable, callees_of};
ghost use Rattle.sym_exec.specs.Callers.{IsGiven};
ghost use Rattle.exec_cells.specs.InSetting.{IsGood, setting_in};
ghost use Rattle.exec_cells.specs.Sizes.{IsLowPair};

use crate::branching::{Sides, branch};
use crate::calls::call;
use exec_cells::cells::{free, load, new, store};
use exec_cells::pairs::{canonical, formed};
use exec_cells::setting::Setting;
use exec_cells::values::{any, arith, copy, leave};
use exec_laws::{Case, Mode, Step, Table};
use shape_data::answer::Fault;
use shape_data::program::{Cmd, Flow, StructDef};
use shape_data::symbolic::{Post, SymHeap, SymState};
use shape_data::{Row, copy_of};
use std::alloc::{AllocError, Global};
use sym_canon::Pair;
use sym_matching::rule_steps::steps::exp_at;

/// The cases of a command, in the order of its row.
fn cases_of(
    alloc: Global,
    setting: &Setting,
    pair: Pair,
    command: &Cmd,
) -> Result<Vec<Case>, AllocError>
    requires setting { IsGood (setting_in setting.now) }
    requires pair { IsGiven (setting_in setting.now) pair }
    requires low { IsLowPair pair }
    requires table { IsTable setting.now.structs.now setting.now.table.now }
    requires fits { FitsTable setting.now.table.now command.now }
    ensures { IfOk result (λ cases. cases.items ≡ cases_of_command (setting_in setting.now) pair command.now) }
{
    match command {
        Cmd::Copy { to, from, next } => copy(alloc, *to, *from, *next, pair),
        Cmd::Arith {
            to,
            op,
            left,
            right,
            next,
        } => arith(alloc, *to, *op, *left, *right, *next, pair),
        Cmd::Any { to, ty: _, next } => any(alloc, *to, *next, pair),
        Cmd::Load {
            to,
            base,
            kind,
            field,
            next,
        } => load(alloc, setting, *to, *base, kind, *field, *next, pair),
        Cmd::Store {
            base,
            kind,
            field,
            from,
            next,
        } => store(alloc, setting, *base, kind, *field, *from, *next, pair),
        Cmd::New { to, kind, next } => new(alloc, setting, *to, kind, *next, pair),
        Cmd::Free { base, kind, next } => free(alloc, setting, *base, kind, *next, pair),
        Cmd::Call {
            to,
            callee,
            args,
            next,
        } => call(alloc, setting, *to, callee, args.as_slice(), *next, &pair),
        Cmd::Branch {
            op,
            pointers,
            left,
            right,
            yes,
            no,
        } => {
            let sides = Sides { yes: *yes, no: *no };
            branch(alloc, setting, *op, *pointers, *left, *right, sides, pair)
        }
        Cmd::Return { value } => leave(alloc, *value, pair),
    }
}

/// The canonical form of a pair's normal form; none of a contradiction.
fn both_forms(alloc: Global, setting: &Setting, pair: Pair) -> Result<Option<Pair>, AllocError>
    ensures { IfOk result (λ form. form ≡ both_forms_of (setting_in setting.now) pair) }
{
    match formed(alloc, setting.mode, setting.params, pair)? {
        None => Ok(None),
        Some(form) => Ok(Some(canonical(alloc, setting.mode, setting.params, form)?)),
    }
}

/// A case with its pair in these forms; none of a contradiction.
fn formed_case(alloc: Global, setting: &Setting, case: Case) -> Result<Option<Case>, AllocError>
    ensures { IfOk result (λ form. form ≡ formed_case_of (setting_in setting.now) case) }
{
    match case {
        Case::On { node, pair } => match both_forms(alloc, setting, pair)? {
            None => Ok(None),
            Some(pair) => Ok(Some(Case::On { node, pair })),
        },
        Case::Leaves { pair } => match both_forms(alloc, setting, pair)? {
            None => Ok(None),
            Some(pair) => Ok(Some(Case::Leaves { pair })),
        },
        Case::Drops { fault } => Ok(Some(Case::Drops { fault })),
    }
}

/// The cases in these forms.
fn in_form(alloc: Global, setting: &Setting, cases: Vec<Case>) -> Result<Vec<Case>, AllocError>
    ensures { IfOk result (λ kept. kept.items ≡ filter_map (formed_case_of (setting_in setting.now)) cases.items) }
{
    let mut kept = Vec::new(alloc);
    for case in cases {
        match formed_case(alloc, setting, case)? {
            Some(form) => kept.push(form)?,
            None => {}
        }
    }
    Ok(kept)
}

/// The cases of a command, in normal and canonical form.
fn formed_cases(
    alloc: Global,
    setting: &Setting,
    pair: Pair,
    command: &Cmd,
) -> Result<Vec<Case>, AllocError>
    requires setting { IsGood (setting_in setting.now) }
    requires pair { IsGiven (setting_in setting.now) pair }
    requires low { IsLowPair pair }
    requires table { IsTable setting.now.structs.now setting.now.table.now }
    requires fits { FitsTable setting.now.table.now command.now }
    ensures { IfOk result (λ cases. cases.items ≡ formed_cases_of (setting_in setting.now) pair command.now) }
{
    let cases = cases_of(alloc, setting, pair, command)?;
    in_form(alloc, setting, cases)
}

/// The cases of a node, in normal and canonical form; there are none where there is no such node.
fn execution(
    alloc: Global,
    mode: Mode,
    flow: &Flow,
    structs: &[StructDef],
    node: u32,
    pair: Pair,
    table: &Table,
) -> Result<Vec<Case>, AllocError>
    requires structs { AreStructs structs.now }
    requires flow { IsFlow structs.now flow.now }
    requires state { IsState widest structs.now (length flow.now.params) (length flow.now.slots) pair.state }
    requires missing { IsSymHeap widest structs.now (length flow.now.params) pair.missing }
    requires table { IsTable structs.now table.now }
    requires fits { FitCalls (λ (one : AnyCallee). one.name) (λ (one : AnyCallee). one.params) (callees_of table.now) flow.now }
    ensures { IfOk result (λ cases. cases.items ≡ execution_of mode flow.now structs.now node pair table.now) }
{
    let setting = Setting {
        mode,
        params: flow.params.len() as u32,
        structs,
        table,
    };
    match flow.nodes.get(node as usize) {
        None => Ok(Vec::new(alloc)),
        Some(there) => formed_cases(alloc, &setting, pair, &there.cmd),
    }
}

/// The cases of a node in the search, in their order: each goes on at a node or leaves with a pair in normal and canonical form, or is
/// dropped with a fault; contradictions are left out. A procedure's node that is not there has none. The calls of the procedure fit the
/// table. The only error is want of memory.
pub fn search_cases(
    alloc: Global,
    flow: &Flow,
    structs: &[StructDef],
    node: u32,
    pair: &Pair,
    table: &Table,
) -> Result<Row<Case>, AllocError>
    requires structs { AreStructs structs.now }
    requires flow { IsFlow structs.now flow.now }
    requires state { IsState widest structs.now (length flow.now.params) (length flow.now.slots) pair.now.state }
    requires missing { IsSymHeap widest structs.now (length flow.now.params) pair.now.missing }
    requires table { IsTable structs.now table.now }
    requires fits { FitCalls (λ (one : AnyCallee). one.name) (λ (one : AnyCallee). one.params) (callees_of table.now) flow.now }
    ensures { IfOk result (λ cases. cases ≡ search_cases_of flow.now structs.now node pair.now table.now) }
{
    let given = copy_of(pair)?;
    let cases = execution(alloc, Mode::Search, flow, structs, node, given, table)?;
    Ok(Row::from_vec(cases))
}

/// The fault of the first case that is dropped.
fn first_drop(cases: &[Case]) -> Option<Fault>
    ensures { result ≡ first_drop_of cases.now }
{
    for case in cases {
        if let Case::Drops { fault } = case {
            return Some(*fault);
        }
    }
    None
}

/// The post of a state whose one local is the result.
fn post_of(state: SymState) -> Post
    ensures { result ≡ post_of_state state }
{
    Post {
        ret: exp_at(state.locals.as_slice(), 0),
        heap: state.heap,
    }
}

/// Where the cases go on, and where they leave.
fn successors(alloc: Global, cases: Vec<Case>) -> Result<Step, AllocError>
    ensures { IfOk result (λ made. made ≡ step.Next (filter_map next_of cases.items) (filter_map exit_of cases.items)) }
{
    let mut next = Row::new(alloc);
    let mut exits = Row::new(alloc);
    for case in cases {
        match case {
            Case::On { node, pair } => next.push((node, pair.state))?,
            Case::Leaves { pair } => exits.push(post_of(pair.state))?,
            Case::Drops { .. } => {}
        }
    }
    Ok(Step::Next { next, exits })
}

/// What strict execution answers to the cases of a node on this line.
fn answer_to(alloc: Global, line: u32, cases: Vec<Case>) -> Result<Step, AllocError>
    ensures { IfOk result (λ made. made ≡ answer_to_of line cases.items) }
{
    match first_drop(cases.as_slice()) {
        Some(fault) => Ok(Step::Fail { fault, line }),
        None => successors(alloc, cases),
    }
}

/// The line of a node, or 0 where there is none.
fn line_of(flow: &Flow, node: u32) -> u32
    ensures { result ≡ line_of_node (slice_get flow.now.nodes node) }
{
    match flow.nodes.get(node as usize) {
        None => 0,
        Some(there) => there.line,
    }
}

/// A copy of the state, with nothing missing.
fn nothing_missing(alloc: Global, state: &SymState) -> Result<Pair, AllocError>
    ensures { IfOk result (λ pair. pair ≡ nothing_missing_of state.now) }
{
    Ok(Pair {
        missing: SymHeap {
            pure: Row::new(alloc),
            spatial: Row::new(alloc),
        },
        state: copy_of(state)?,
    })
}

/// Strict execution of a node of a procedure from a state: the states that it goes on with and the posts that it leaves with, each in
/// normal and canonical form, contradictions left out; or the fault of the first case that is dropped, with the node's line. From a
/// node that is not there nothing comes. The calls of the procedure fit the table. The only error is want of memory.
pub fn exec(
    alloc: Global,
    flow: &Flow,
    structs: &[StructDef],
    node: u32,
    state: &SymState,
    table: &Table,
) -> Result<Step, AllocError>
    requires structs { AreStructs structs.now }
    requires flow { IsFlow structs.now flow.now }
    requires state { IsState widest structs.now (length flow.now.params) (length flow.now.slots) state.now }
    requires table { IsTable structs.now table.now }
    requires fits { FitCalls (λ (one : AnyCallee). one.name) (λ (one : AnyCallee). one.params) (callees_of table.now) flow.now }
    ensures { IfOk result (λ made. made ≡ exec_of flow.now structs.now node state.now table.now) }
{
    let pair = nothing_missing(alloc, state)?;
    let cases = execution(alloc, Mode::Strict, flow, structs, node, pair, table)?;
    answer_to(alloc, line_of(flow, node), cases)
}
