//! How states come to a node, and posts to an exit: in normal and canonical form, and abstracted at the head of a loop and at an exit.
//! None is a contradiction, which is left out.
ghost use Rattle.std.specs.Prelude.{◌≡◌, ◌-◌, ◌++◌, ◌≤◌, pos, length, replicate, IfOk, IfSome};
ghost use Rattle.shape_data.specs.declared.symbolic.Exp.TheVariants.{Const};
ghost use Rattle.shape_data.specs.WellFormed.{IsSymHeap, widest};
ghost use Rattle.sound_laws.specs.Certificates.{start_state as start_state_of};
ghost use Rattle.solve_laws.specs.Certificates.Coming.{
  at_exit as at_exit_of,
  at_node as at_node_of,
  normal_post as normal_post_of,
  normal_state as normal_state_of,
  start_at_node as start_at_node_of,
  start_form as start_form_of,
};
ghost use Rattle.solve_laws.specs.Certificates.Gaps.{line_at as line_at_node};
ghost use Rattle.solve_laws.specs.Certificates.Conditions.{IsTask, IsTaskPost, IsTaskState};
ghost use Rattle.certificate_steps.specs.InTask.{task_in, variables_below};

use exec_laws::Table;
use shape_data::program::{Flow, StructDef};
use shape_data::symbolic::{Exp, Post, SymHeap, SymState};
use shape_data::{Row, copy_of};
use std::alloc::{AllocError, Global};
use sym_abstract::{abstract_exit, abstract_head, post_of};
use sym_canon::{as_state, canon_state};
use sym_pure::{Normal, normal};

/// What stays the same through the analysis of a procedure.
#[derive(Clone, Copy)]
pub struct Task<'a> {
    pub flow: &'a Flow,
    pub structs: &'a [StructDef],
    /// The specs that calls may use.
    pub table: &'a Table,
    /// Whether the procedure's component calls itself.
    pub recursive: bool,
}

/// The line of a node, or 0 where there is none.
pub fn line_at(task: &Task, at: u32) -> u32
    ensures { result ≡ line_at_node (task_in task.now) at }
{
    match task.flow.nodes.get(at as usize) {
        None => 0,
        Some(node) => node.line,
    }
}

/// The normal form of a state. The only error is want of memory.
pub fn normal_state(alloc: Global, state: &SymState) -> Result<Option<SymState>, AllocError>
    ensures { IfOk result (λ form. form ≡ normal_state_of state.now) }
{
    match normal(alloc, state)? {
        Normal::Is(form) => Ok(Some(form)),
        Normal::Contradiction => Ok(None),
    }
}

/// The normal form of a post. The only error is want of memory.
pub fn normal_post(alloc: Global, post: &Post) -> Result<Option<Post>, AllocError>
    ensures { IfOk result (λ form. form ≡ normal_post_of post.now) }
{
    let state = as_state(alloc, post)?;
    match normal(alloc, &state)? {
        Normal::Is(form) => Ok(Some(post_of(post.ret, form))),
        Normal::Contradiction => Ok(None),
    }
}

/// The variables of the parameters.
#[tactic(auto, using(crate::proofs::Starts::starting))]
fn variables(alloc: Global, params: usize) -> Result<Vec<Exp>, AllocError>
    requires { params ≤ 32768 }
    ensures { IfOk result (λ made. made.items ≡ variables_below params) }
{
    let mut made = Vec::new(alloc);
    for slot in 0..params {
        made.push(Exp::Var(slot as u32))?;
    }
    Ok(made)
}

/// The locals, and 0 in all other slots.
fn filled(locals: Vec<Exp>, slots: usize) -> Result<Vec<Exp>, AllocError>
    ensures { IfOk result (λ made. made.items ≡ locals.items ++ replicate (slots - length locals.items) (Const (pos 0))) }
{
    let mut made = locals;
    if made.len() < slots {
        made.resize(slots, Exp::Const(0))?;
    }
    Ok(made)
}

/// The locals at the start: the variables of the parameters, and 0 in all other slots.
#[tactic(auto, using(crate::proofs::Starts::starting))]
fn start_locals(alloc: Global, params: usize, slots: usize) -> Result<Vec<Exp>, AllocError>
    requires { params ≤ 32768 }
    ensures { IfOk result (λ made. made.items ≡ variables_below params ++ replicate (slots - params) (Const (pos 0))) }
{
    let locals = variables(alloc, params)?;
    filled(locals, slots)
}

/// The state in which a procedure starts, from a precondition. The only error is want of memory.
#[tactic(auto, using(crate::proofs::Starts::starting))]
fn start_state(alloc: Global, flow: &Flow, pre: &SymHeap) -> Result<SymState, AllocError>
    requires { length flow.now.params ≤ 32768 }
    ensures { IfOk result (λ start. start ≡ start_state_of flow.now pre.now) }
{
    Ok(SymState {
        locals: Row::from_vec(start_locals(alloc, flow.params.len(), flow.slots.len())?),
        heap: copy_of(pre)?,
    })
}

/// That state in normal and canonical form. The only error is want of memory.
pub fn start_form(alloc: Global, flow: &Flow, pre: &SymHeap) -> Result<Option<SymState>, AllocError>
    requires { length flow.now.params ≤ 32768 }
    ensures { IfOk result (λ form. form ≡ start_form_of flow.now pre.now) }
{
    let start = start_state(alloc, flow, pre)?;
    match normal(alloc, &start)? {
        Normal::Is(form) => Ok(Some(canon_state(alloc, &form, flow.params.len() as u32)?)),
        Normal::Contradiction => Ok(None),
    }
}

/// A state that comes to the node at a place: abstracted, where that is the head of a loop. The only error is want of memory.
pub fn at_node(
    alloc: Global,
    task: &Task,
    at: u32,
    state: &SymState,
) -> Result<Option<SymState>, AllocError>
    requires task { IsTask (task_in task.now) }
    requires state { IsTaskState (task_in task.now) state.now }
    ensures value { IfOk result (λ form. form ≡ at_node_of (task_in task.now) at state.now) }
    ensures well_formed { IfOk result (λ form. IfSome form (IsTaskState (task_in task.now))) }
{
    match task.flow.nodes.get(at as usize) {
        None => Ok(Some(copy_of(state)?)),
        Some(node) => match &node.head {
            None => Ok(Some(copy_of(state)?)),
            Some(mark) => abstract_head(alloc, state, task.flow, mark, task.structs),
        },
    }
}

/// The state in which a procedure starts from a precondition, which comes to node 0. The only error is want of memory.
pub fn start_at_node(
    alloc: Global,
    task: &Task,
    pre: &SymHeap,
) -> Result<Option<SymState>, AllocError>
    requires task { IsTask (task_in task.now) }
    requires pre { IsSymHeap widest task.now.structs.now (length task.now.flow.now.params) pre.now }
    ensures value { IfOk result (λ form. form ≡ start_at_node_of (task_in task.now) pre.now) }
    ensures well_formed { IfOk result (λ form. IfSome form (IsTaskState (task_in task.now))) }
{
    match start_form(alloc, task.flow, pre)? {
        None => Ok(None),
        Some(start) => at_node(alloc, task, 0, &start),
    }
}

/// A post that comes to an exit, abstracted. The only error is want of memory.
pub fn at_exit(alloc: Global, task: &Task, exit: &Post) -> Result<Option<Post>, AllocError>
    requires task { IsTask (task_in task.now) }
    requires exit { IsTaskPost (task_in task.now) exit.now }
    ensures value { IfOk result (λ form. form ≡ at_exit_of (task_in task.now) exit.now) }
    ensures well_formed { IfOk result (λ form. IfSome form (IsTaskPost (task_in task.now))) }
{
    abstract_exit(alloc, exit, task.flow, task.structs, task.recursive)
}
