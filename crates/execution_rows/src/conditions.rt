//! Tests of what execution asks of a state, a missing heap and a table.
ghost use Rattle.std.specs.Prelude.{◌≡◌, ◌↔◌, ◌+◌, ◌≤◌, length, All, IsTrue};
ghost use Rattle.std.specs.Option.{IsSomeAnd};
ghost use Rattle.shape_data.specs.declared.answer.Callee.{Callee as AnyCallee};
ghost use Rattle.shape_data.specs.Heap.{struct_named};
ghost use Rattle.shape_data.specs.WellFormed.{
  widest as within,
  FitCalls,
  FitsCall,
  IsAtom,
  IsCallee,
  IsExp,
  IsFact,
  IsField,
  IsPost,
  IsSpec,
  IsState,
  IsSymHeap,
};
ghost use Rattle.exec_laws.specs.Laws.{IsTable, callees_of};

use exec_laws::Table;
use shape_data::answer::Callee;
use shape_data::names::is_c_name;
use shape_data::program::{Cmd, Flow, StructDef};
use shape_data::symbolic::{Atom, Exp, Fact, Post, Spec, SymHeap, SymState};
use shape_data::{Name, are_params, struct_of};

/// The most parts of a heap.
const MOST_PARTS: usize = 4_000;

fn is_exp(params: usize, e: Exp) -> bool
    ensures { IsTrue result ↔ IsExp within params e }
{
    match e {
        Exp::Var(x) => x < 2_147_483_648,
        Exp::Const(_) => true,
    }
}

fn are_exps(params: usize, list: &[Exp]) -> bool
    ensures { IsTrue result ↔ All (IsExp within params) list.now }
{
    list.iter().all(|e| is_exp(params, *e))
}

fn is_fact(params: usize, fact: Fact) -> bool
    ensures { IsTrue result ↔ IsFact within params fact }
{
    match fact {
        Fact::Eq(left, right) => is_exp(params, left) && is_exp(params, right),
        Fact::Ne(left, right) => is_exp(params, left) && is_exp(params, right),
    }
}

fn has_fields(structs: &[StructDef], kind: &Name, fields: usize) -> bool
    ensures { IsTrue result ↔ IsSomeAnd (struct_named structs.now kind.now) (λ def. fields ≡ length def.fields) }
{
    match struct_of(structs, kind) {
        Some(def) => fields == def.fields.len(),
        None => false,
    }
}

fn is_field(structs: &[StructDef], kind: &Name, field: u32) -> bool
    ensures { IsTrue result ↔ IsField structs.now kind.now field }
{
    match struct_of(structs, kind) {
        Some(def) => (field as usize) < def.fields.len(),
        None => false,
    }
}

fn is_atom(structs: &[StructDef], params: usize, atom: &Atom) -> bool
    ensures { IsTrue result ↔ IsAtom within structs.now params atom.now }
{
    match atom {
        Atom::Points { at, kind, fields } => {
            is_exp(params, *at)
                && has_fields(structs, kind, fields.len())
                && are_exps(params, fields.as_slice())
        }
        Atom::Seg {
            kind,
            link,
            from,
            to,
        } => is_field(structs, kind, *link) && is_exp(params, *from) && is_exp(params, *to),
        Atom::Junk => true,
    }
}

fn has_few_parts(heap: &SymHeap) -> bool
    ensures { IsTrue result ↔ (length heap.now.pure + length heap.now.spatial ≤ 4000) }
{
    let facts = heap.pure.len();
    let atoms = heap.spatial.len();
    facts <= MOST_PARTS && atoms <= MOST_PARTS - facts
}

/// Whether a heap is well formed.
pub fn is_heap(structs: &[StructDef], params: usize, heap: &SymHeap) -> bool
    ensures { IsTrue result ↔ IsSymHeap within structs.now params heap.now }
{
    has_few_parts(heap)
        && heap
            .pure
            .as_slice()
            .iter()
            .all(|fact| is_fact(params, *fact))
        && heap
            .spatial
            .as_slice()
            .iter()
            .all(|atom| is_atom(structs, params, atom))
}

/// Whether a state is well formed.
pub fn is_state(structs: &[StructDef], params: usize, slots: usize, state: &SymState) -> bool
    ensures { IsTrue result ↔ IsState within structs.now params slots state.now }
{
    state.locals.len() == slots
        && are_exps(params, state.locals.as_slice())
        && is_heap(structs, params, &state.heap)
}

fn is_post(structs: &[StructDef], params: usize, post: &Post) -> bool
    ensures { IsTrue result ↔ IsPost within structs.now params post.now }
{
    is_exp(params, post.ret) && is_heap(structs, params, &post.heap)
}

fn are_posts(structs: &[StructDef], params: usize, posts: &[Post]) -> bool
    ensures { IsTrue result ↔ All (IsPost within structs.now params) posts.now }
{
    posts.iter().all(|post| is_post(structs, params, post))
}

fn is_spec(structs: &[StructDef], params: usize, spec: &Spec) -> bool
    ensures { IsTrue result ↔ IsSpec within structs.now params spec.now }
{
    let posts = spec.posts.as_slice();
    is_heap(structs, params, &spec.pre)
        && posts.len() < 4_294_967_296
        && are_posts(structs, params, posts)
}

fn are_specs(structs: &[StructDef], params: usize, specs: &[Spec]) -> bool
    ensures { IsTrue result ↔ All (IsSpec within structs.now params) specs.now }
{
    specs.iter().all(|spec| is_spec(structs, params, spec))
}

fn is_callee(structs: &[StructDef], callee: &Callee) -> bool
    ensures { IsTrue result ↔ IsCallee within structs.now callee.now }
{
    is_c_name(callee.name.as_bytes())
        && are_params(callee.params.as_slice())
        && callee.specs.len() <= 4_294_967_295
        && are_specs(structs, callee.params.len(), callee.specs.as_slice())
}

fn are_callees(structs: &[StructDef], callees: &[Callee]) -> bool
    ensures { IsTrue result ↔ All (IsCallee within structs.now) callees.now }
{
    callees.iter().all(|callee| is_callee(structs, callee))
}

/// Whether the callees of a table are well formed.
pub fn is_table(structs: &[StructDef], table: &Table) -> bool
    ensures { IsTrue result ↔ IsTable structs.now table.now }
{
    let own = are_callees(structs, table.own.as_slice());
    let outer = are_callees(structs, table.outer.as_slice());
    own && outer
}

fn accepts(callee: &Callee, name: &Name, args: usize) -> bool
    ensures { IsTrue result ↔ (callee.now.name ≡ name.now → length callee.now.params ≡ args) }
{
    callee.name != *name || callee.params.len() == args
}

fn accept(callees: &[Callee], name: &Name, args: usize) -> bool
    ensures { IsTrue result ↔ All (λ (callee : AnyCallee). callee.name ≡ name.now → length callee.params ≡ args) callees.now }
{
    callees.iter().all(|callee| accepts(callee, name, args))
}

fn both_accept(table: &Table, name: &Name, args: usize) -> bool
    ensures { IsTrue result ↔ All (λ (callee : AnyCallee). callee.name ≡ name.now → length callee.params ≡ args) (callees_of table.now) }
{
    let own = accept(table.own.as_slice(), name, args);
    let outer = accept(table.outer.as_slice(), name, args);
    own && outer
}

fn fits_call(table: &Table, cmd: &Cmd) -> bool
    ensures { IsTrue result ↔ FitsCall (λ (one : AnyCallee). one.name) (λ (one : AnyCallee). one.params) (callees_of table.now) cmd.now }
{
    match cmd {
        Cmd::Call {
            to: _,
            callee,
            args,
            next: _,
        } => both_accept(table, callee, args.len()),
        _ => true,
    }
}

/// Whether each call of the procedure has one argument for each parameter of what the table lists under its name.
pub fn fits(table: &Table, flow: &Flow) -> bool
    ensures { IsTrue result ↔ FitCalls (λ (one : AnyCallee). one.name) (λ (one : AnyCallee). one.params) (callees_of table.now) flow.now }
{
    flow.nodes
        .as_slice()
        .iter()
        .all(|node| fits_call(table, &node.cmd))
}
