//! The row of Call: the specs of the callee, each renamed apart and matched, and the posts of those that fit.
ghost use Rattle.std.specs.Prelude.{◌≡◌, ◌++◌, ◌∷◌, [], ◌≤◌, IfOk, IfSome, All, Some, length, map, option_map};
ghost use Rattle.std.specs.List.{filter_map};
ghost use Rattle.std.specs.Option.{option_copied};
ghost use Rattle.shape_data.specs.declared.answer.Fault.TheVariants.{Callee as NoCallee};
ghost use Rattle.shape_data.specs.declared.program.Cmd.TheVariants.{Call};
ghost use Rattle.shape_data.specs.WellFormed.{IsSpec, widest};
ghost use Rattle.sym_parts.specs.Shapes.Symbolic.{beside as beside_of};
ghost use Rattle.sym_matching.specs.Rooms.{IsWithinSizes};
ghost use Rattle.exec_laws.specs.declared.parts.Case.TheVariants.{Drops};
ghost use Rattle.exec_laws.specs.Calling.{
  after_fit as after_fit_of,
  after_found as after_found_of,
  after_post as after_post_of,
  call as call_of,
  call_of as call_of_callee,
  callee_named as callee_named_of,
  callee_of as callee_of_table,
  first_subtracted as first_subtracted_of,
  found as found_of,
  in_use as in_use_of,
  is_cut as is_cut_of,
  state_after as state_after_of,
  subtracted as subtracted_of,
  with_received as with_received_of,
  without_fit as without_fit_of,
};
ghost use Rattle.exec_laws.specs.Laws.{FitsTable, IsTable};
ghost use Rattle.exec_laws.specs.Values.{operand as operand_of};
ghost use Rattle.sym_exec.specs.Callers.{IsCaller, IsGiven, IsRoomy, fit_in};
ghost use Rattle.exec_cells.specs.InSetting.{IsGood, setting_in};

use abduction::biabduce_avoiding;
use exec_cells::pairs::{above_logical, pair_variables};
use exec_cells::setting::Setting;
use exec_cells::values::{one_case, operand};
use exec_laws::laws::fits_are_within;
use exec_laws::{Case, Mode, Table};
use shape_data::answer::{Callee, Fault};
use shape_data::program::Operand;
use shape_data::symbolic::{Exp, Post, Spec, SymHeap, SymState};
use shape_data::{Name, Row, copy_of};
use std::alloc::{AllocError, Global};
use subtraction::subtract_avoiding;
use sym_canon::Pair;
use sym_matching::renaming::variables::{add_heap, add_state};
use sym_matching::renaming::{Numbers, called_pre, post_in_caller};
use sym_matching::rule_steps::missing::contradicts;
use sym_matching::rule_steps::steps::add_atoms;
use sym_matching::{Abd, Sub};

/// The callee of a name.
fn callee_named<'a>(callees: &'a [Callee], name: &Name) -> Option<&'a Callee>
    ensures { option_copied result ≡ callee_named_of callees.now name.now }
{
    callees.iter().find(|callee| callee.name == *name)
}

/// The callee of a name in the table, the component's own first.
fn callee_of<'a>(table: &'a Table, name: &Name) -> Option<&'a Callee>
    ensures { option_copied result ≡ callee_of_table table.now name.now }
{
    match callee_named(table.own.as_slice(), name) {
        Some(callee) => Some(callee),
        None => callee_named(table.outer.as_slice(), name),
    }
}

/// Whether the table is cut, and the callee is of the component.
fn is_cut(table: &Table, name: &Name) -> bool
    ensures { result ≡ is_cut_of table.now name.now }
{
    table.cut && callee_named(table.own.as_slice(), name).is_some()
}

/// What the operands stand for.
fn arguments(alloc: Global, pair: &Pair, args: &[Operand]) -> Result<Vec<Exp>, AllocError>
    ensures { IfOk result (λ all. all.items ≡ map (operand_of pair.now) args.now) }
{
    let mut all = Vec::new(alloc);
    for arg in args {
        all.push(operand(pair, *arg))?;
    }
    Ok(all)
}

/// What a call is made with: the arguments, the pair, the pair's variables, and the number from which on logical variables are new.
#[derive(Clone, Copy)]
struct Caller<'a> {
    args: &'a [Exp],
    pair: &'a Pair,
    used: &'a [u32],
    first: u32,
}

/// How a spec fits: the missing heap with what is missing for the precondition, what is left beside it, the new numbers of its variables,
/// what these are bound to, and the posts.
#[derive(Drop)]
struct Fit<'a> {
    missing: SymHeap,
    frame: SymHeap,
    apart: Numbers,
    binding: Row<(u32, Exp)>,
    posts: &'a [Post],
}

/// One symbolic heap beside another.
fn beside(alloc: Global, a: &SymHeap, b: &SymHeap) -> Result<SymHeap, AllocError>
    ensures { IfOk result (λ both. both ≡ beside_of a.now b.now) }
{
    let mut pure = a.pure.as_slice().to_vec(alloc)?;
    pure.extend_from_slice(b.pure.as_slice())?;
    let mut spatial = copy_of(&a.spatial)?;
    add_atoms(&mut spatial, b.spatial.as_slice())?;
    Ok(SymHeap {
        pure: Row::from_vec(pure),
        spatial,
    })
}

/// What comes of a spec whose precondition is subtracted.
fn subtracted<'a>(
    alloc: Global,
    setting: &Setting,
    caller: &Caller,
    spec: &'a Spec,
) -> Result<Option<Fit<'a>>, AllocError>
    requires caller { IsCaller (setting_in setting.now) caller.now }
    requires spec { IsSpec widest setting.now.structs.now (length caller.now.args.now) spec.now }
    ensures value { IfOk result (λ fit. option_map fit_in fit ≡ subtracted_of caller.now.args.now caller.now.pair.now spec.now) }
    ensures room { IfOk result (λ fit. IfSome fit (IsRoomy caller.now)) }
{
    fits_are_within();
    let called = called_pre(alloc, caller.used, &spec.pre, caller.args)?;
    match subtract_avoiding(
        alloc,
        &caller.pair.state.heap,
        &called.pre,
        called.bound.as_slice(),
        called.flexible.as_slice(),
        caller.used,
    )? {
        Sub::NoMatch { .. } => Ok(None),
        Sub::Match { frame, binding } => Ok(Some(Fit {
            missing: copy_of(&caller.pair.missing)?,
            frame,
            apart: called.numbers,
            binding,
            posts: spec.posts.as_slice(),
        })),
    }
}

/// The first spec whose precondition is subtracted.
fn first_subtracted<'a>(
    alloc: Global,
    setting: &Setting,
    caller: &Caller,
    specs: &'a [Spec],
) -> Result<Option<Fit<'a>>, AllocError>
    requires caller { IsCaller (setting_in setting.now) caller.now }
    requires specs { All (IsSpec widest setting.now.structs.now (length caller.now.args.now)) specs.now }
    ensures value { IfOk result (λ fit. option_map fit_in fit ≡ first_subtracted_of caller.now.args.now caller.now.pair.now specs.now) }
    ensures room { IfOk result (λ fit. IfSome fit (IsRoomy caller.now)) }
{
    for spec in specs {
        match subtracted(alloc, setting, caller, spec)? {
            Some(fit) => return Ok(Some(fit)),
            None => {}
        }
    }
    Ok(None)
}

/// What comes of a spec whose precondition is found by abduction: nothing where the missing heap becomes a contradiction.
fn found<'a>(
    alloc: Global,
    setting: &Setting,
    caller: &Caller,
    spec: &'a Spec,
) -> Result<Option<Fit<'a>>, AllocError>
    requires caller { IsCaller (setting_in setting.now) caller.now }
    requires spec { IsSpec widest setting.now.structs.now (length caller.now.args.now) spec.now }
    ensures value { IfOk result (λ fit. option_map fit_in fit
        ≡ found_of (setting_in setting.now) caller.now.args.now caller.now.pair.now spec.now) }
    ensures room { IfOk result (λ fit. IfSome fit (IsRoomy caller.now)) }
{
    fits_are_within();
    let called = called_pre(alloc, caller.used, &spec.pre, caller.args)?;
    match biabduce_avoiding(
        alloc,
        &caller.pair.state.heap,
        &called.pre,
        called.bound.as_slice(),
        called.flexible.as_slice(),
        caller.first,
        caller.used,
    )? {
        Abd::NoMatch { .. } => Ok(None),
        Abd::Found {
            missing,
            frame,
            binding,
        } => {
            let all = beside(alloc, &caller.pair.missing, &missing)?;
            if contradicts(alloc, copy_of(&all)?)? {
                return Ok(None);
            }
            Ok(Some(Fit {
                missing: all,
                frame,
                apart: called.numbers,
                binding,
                posts: spec.posts.as_slice(),
            }))
        }
    }
}

/// Each spec whose precondition is found by abduction.
fn all_found<'a>(
    alloc: Global,
    setting: &Setting,
    caller: &Caller,
    specs: &'a [Spec],
) -> Result<Vec<Fit<'a>>, AllocError>
    requires caller { IsCaller (setting_in setting.now) caller.now }
    requires specs { All (IsSpec widest setting.now.structs.now (length caller.now.args.now)) specs.now }
    ensures value { IfOk result (λ fits. map fit_in fits.items
        ≡ filter_map (found_of (setting_in setting.now) caller.now.args.now caller.now.pair.now) specs.now) }
    ensures room { IfOk result (λ fits. All (IsRoomy caller.now) fits.items) }
{
    let mut fits = Vec::new(alloc);
    for spec in specs {
        match found(alloc, setting, caller, spec)? {
            Some(fit) => fits.push(fit)?,
            None => {}
        }
    }
    Ok(fits)
}

/// The variables that the new ones of a post avoid: those of what the match left, and of the pair.
fn in_use(alloc: Global, pair: &Pair, fit: &Fit) -> Result<Vec<u32>, AllocError>
    ensures { IfOk result (λ names. names.items ≡ in_use_of pair.now (fit_in fit.now)) }
{
    let mut names = Vec::new(alloc);
    add_heap(&mut names, &fit.frame)?;
    add_state(&mut names, &pair.state)?;
    add_heap(&mut names, &pair.missing)?;
    Ok(names)
}

/// The locals with the result in its slot, where there is one.
fn with_received(to: Option<u32>, e: Exp, locals: Row<Exp>) -> Row<Exp>
    ensures { result ≡ with_received_of to e locals }
{
    let mut locals = locals;
    if let Some(slot) = to {
        if (slot as usize) < locals.len() {
            locals.set(slot as usize, e);
        }
    }
    locals
}

/// The state after a call: what is left of the caller's heap and the post's heap together, and the result in its slot.
fn state_after(
    alloc: Global,
    to: Option<u32>,
    locals: &Row<Exp>,
    frame: &SymHeap,
    post: &Post,
) -> Result<SymState, AllocError>
    ensures { IfOk result (λ state. state ≡ state_after_of locals.now to frame.now post.now) }
{
    Ok(SymState {
        locals: with_received(to, post.ret, copy_of(locals)?),
        heap: beside(alloc, frame, &post.heap)?,
    })
}

/// What comes of a post, its new variables avoiding those in use.
fn after_post(
    alloc: Global,
    to: Option<u32>,
    next: u32,
    pair: &Pair,
    used: &[u32],
    fit: &Fit,
    post: &Post,
) -> Result<Case, AllocError>
    requires used { used.now ≡ in_use_of pair.now (fit_in fit.now) }
    requires few { length used.now ≤ 1073741824 }
    requires binding { length fit.now.binding ≤ 268435456 }
    requires post { IsWithinSizes post.now.heap }
    ensures { IfOk result (λ case. case ≡ after_post_of to next pair.now (fit_in fit.now) post.now) }
{
    let read = post_in_caller(alloc, used, &fit.apart, fit.binding.as_slice(), post)?;
    Ok(Case::On {
        node: next,
        pair: Pair {
            missing: copy_of(&fit.missing)?,
            state: state_after(alloc, to, &pair.state.locals, &fit.frame, &read)?,
        },
    })
}

/// Adds what comes of each post of a spec that fits.
fn add_after_fit(
    alloc: Global,
    to: Option<u32>,
    next: u32,
    caller: &Caller,
    fit: &Fit,
    cases: &mut Vec<Case>,
) -> Result<(), AllocError>
    requires { IsRoomy caller.now fit.now }
    ensures { IfOk result (λ _. cases.new.items ≡ cases.old.items ++ after_fit_of to next caller.now.pair.now (fit_in fit.now)) }
{
    let used = in_use(alloc, caller.pair, fit)?;
    for post in fit.posts {
        let case = after_post(alloc, to, next, caller.pair, used.as_slice(), fit, post)?;
        cases.push(case)?;
    }
    Ok(())
}

/// What comes of the specs that are found by abduction: of each, of each post; the path is dropped where there is none.
fn after_found(
    alloc: Global,
    to: Option<u32>,
    next: u32,
    caller: &Caller,
    fits: &[Fit],
) -> Result<Vec<Case>, AllocError>
    requires { All (IsRoomy caller.now) fits.now }
    ensures { IfOk result (λ cases. cases.items ≡ after_found_of to next caller.now.pair.now (map fit_in fits.now)) }
{
    if fits.is_empty() {
        return dropped(alloc);
    }
    let mut cases = Vec::new(alloc);
    for fit in fits {
        add_after_fit(alloc, to, next, caller, fit, &mut cases)?;
    }
    Ok(cases)
}

/// The path is dropped, since no spec fits.
fn dropped(alloc: Global) -> Result<Vec<Case>, AllocError>
    ensures { IfOk result (λ cases. cases.items ≡ Drops NoCallee ∷ []) }
{
    one_case(
        alloc,
        Case::Drops {
            fault: Fault::Callee,
        },
    )
}

/// What comes of a call where no spec is subtracted.
fn without_fit(
    alloc: Global,
    setting: &Setting,
    cut: bool,
    to: Option<u32>,
    next: u32,
    caller: &Caller,
    callee: &Callee,
) -> Result<Vec<Case>, AllocError>
    requires caller { IsCaller (setting_in setting.now) caller.now }
    requires specs { All (IsSpec widest setting.now.structs.now (length caller.now.args.now)) callee.now.specs }
    ensures { IfOk result (λ cases. cases.items
        ≡ without_fit_of setting.now.mode (setting_in setting.now) cut to next caller.now.args.now caller.now.pair.now callee.now) }
{
    match setting.mode {
        Mode::Strict => {
            if cut {
                Ok(Vec::new(alloc))
            } else {
                dropped(alloc)
            }
        }
        Mode::Search => {
            let fits = all_found(alloc, setting, caller, callee.specs.as_slice())?;
            after_found(alloc, to, next, caller, fits.as_slice())
        }
    }
}

/// What comes of a call of a callee: by the first spec that is subtracted, if there is one.
fn call_callee(
    alloc: Global,
    setting: &Setting,
    cut: bool,
    to: Option<u32>,
    next: u32,
    caller: &Caller,
    callee: &Callee,
) -> Result<Vec<Case>, AllocError>
    requires caller { IsCaller (setting_in setting.now) caller.now }
    requires specs { All (IsSpec widest setting.now.structs.now (length caller.now.args.now)) callee.now.specs }
    ensures { IfOk result (λ cases. cases.items
        ≡ call_of_callee (setting_in setting.now) cut to next caller.now.args.now caller.now.pair.now (Some callee.now)) }
{
    match first_subtracted(alloc, setting, caller, callee.specs.as_slice())? {
        None => without_fit(alloc, setting, cut, to, next, caller, callee),
        Some(fit) => {
            let mut cases = Vec::new(alloc);
            add_after_fit(alloc, to, next, caller, &fit, &mut cases)?;
            Ok(cases)
        }
    }
}

/// Call: the callee's first spec that is subtracted, each post of it; in the search, where there is none, each spec that is found by
/// abduction. Without one the path is dropped; in strict execution, under a cut table, the component's own procedure then has no
/// state.
pub fn call(
    alloc: Global,
    setting: &Setting,
    to: Option<u32>,
    callee: &Name,
    args: &[Operand],
    next: u32,
    pair: &Pair,
) -> Result<Vec<Case>, AllocError>
    requires setting { IsGood (setting_in setting.now) }
    requires pair { IsGiven (setting_in setting.now) pair.now }
    requires table { IsTable setting.now.structs.now setting.now.table.now }
    requires fits { FitsTable setting.now.table.now (Call to callee.now args.now next) }
    ensures { IfOk result (λ cases. cases.items ≡ call_of (setting_in setting.now) to callee.now args.now next pair.now) }
{
    let list = arguments(alloc, pair, args)?;
    let used = pair_variables(alloc, pair)?;
    let first = above_logical(setting.params, used.as_slice());
    match callee_of(setting.table, callee) {
        None => dropped(alloc),
        Some(one) => {
            let caller = Caller {
                args: list.as_slice(),
                pair,
                used: used.as_slice(),
                first,
            };
            let cut = is_cut(setting.table, callee);
            call_callee(alloc, setting, cut, to, next, &caller, one)
        }
    }
}
