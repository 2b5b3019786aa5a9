//! Tests of symbolic heaps, states, posts, specs and certificates within the limits of a store: which
//! variables occur, how many parts there are, and whether the structures and fields that atoms name are
//! there. They stand on the definitions of `specs/WellFormed`, and serve the tests of keys and answers.
ghost use Rattle.std.specs.Prelude.{◌≡◌, ◌↔◌, ◌+◌, ◌<◌, ◌≤◌, length, All, IsTrue};
ghost use Rattle.std.specs.Option.{IsSomeAnd};
ghost use Rattle.shape_data.specs.Heap.{struct_named};
ghost use Rattle.shape_data.specs.WellFormed.{
  storable as within,
  IsExp,
  IsFact,
  IsAtom,
  IsSymHeap,
  IsState,
  IsPost,
  IsSpec,
  AreStates,
  IsCert,
};

use crate::flows::{is_countable, is_field, struct_of};
use crate::name::Name;
use crate::program::{Flow, StructDef};
use crate::row::Row;
use crate::symbolic::{Atom, Cert, Exp, FIRST_EXISTENTIAL, Fact, Post, Spec, SymHeap, SymState};

/// The greatest n of `$n` and of `?n`.
const MOST_NUMBERED: u32 = 32_768;

/// The most parts of a heap.
const MOST_PARTS: usize = 96;

/// The most specs of a procedure.
pub const MOST_SPECS: usize = 8;

/// The most states of a node, and the most exits.
const MOST_STATES: usize = 16;

/// Whether a logical variable is a parameter, or `$n` with an n that may be written.
fn is_parameter_or_numbered(params: usize, variable: u32) -> bool
    ensures { IsTrue result ↔ (variable < params + 32768) }
{
    variable < MOST_NUMBERED || ((variable - MOST_NUMBERED) as usize) < params
}

fn is_exp(params: usize, exp: Exp) -> bool
    ensures { IsTrue result ↔ IsExp within params exp }
{
    match exp {
        Exp::Var(variable) => {
            (variable >= FIRST_EXISTENTIAL || is_parameter_or_numbered(params, variable))
                && variable < FIRST_EXISTENTIAL + MOST_NUMBERED
        }
        Exp::Const(_) => true,
    }
}

fn are_exps(params: usize, exps: &[Exp]) -> bool
    ensures { IsTrue result ↔ All (IsExp within params) exps.now }
{
    exps.iter().all(|exp| is_exp(params, *exp))
}

fn is_fact(params: usize, fact: Fact) -> bool
    ensures { IsTrue result ↔ IsFact within params fact }
{
    match fact {
        Fact::Eq(left, right) => is_exp(params, left) && is_exp(params, right),
        Fact::Ne(left, right) => is_exp(params, left) && is_exp(params, right),
    }
}

fn has_fields(structs: &[StructDef], kind: &Name, fields: usize) -> bool
    ensures { IsTrue result ↔ IsSomeAnd (struct_named structs.now kind.now) (λ def. fields ≡ length def.fields) }
{
    match struct_of(structs, kind) {
        Some(def) => fields == def.fields.len(),
        None => false,
    }
}

fn is_atom(structs: &[StructDef], params: usize, atom: &Atom) -> bool
    ensures { IsTrue result ↔ IsAtom within structs.now params atom.now }
{
    match atom {
        Atom::Points { at, kind, fields } => {
            is_exp(params, *at)
                && has_fields(structs, kind, fields.len())
                && are_exps(params, fields.as_slice())
        }
        Atom::Seg {
            kind,
            link,
            from,
            to,
        } => is_field(structs, kind, *link) && is_exp(params, *from) && is_exp(params, *to),
        Atom::Junk => true,
    }
}

fn has_few_parts(heap: &SymHeap) -> bool
    ensures { IsTrue result ↔ (length heap.now.pure + length heap.now.spatial ≤ 96) }
{
    let facts = heap.pure.len();
    let atoms = heap.spatial.len();
    facts <= MOST_PARTS && atoms <= MOST_PARTS - facts
}

/// Whether a symbolic heap may stand in a store.
pub fn is_sym_heap(structs: &[StructDef], params: usize, heap: &SymHeap) -> bool
    ensures { IsTrue result ↔ IsSymHeap within structs.now params heap.now }
{
    has_few_parts(heap)
        && heap
            .pure
            .as_slice()
            .iter()
            .all(|fact| is_fact(params, *fact))
        && heap
            .spatial
            .as_slice()
            .iter()
            .all(|atom| is_atom(structs, params, atom))
}

fn is_state(structs: &[StructDef], params: usize, slots: usize, state: &SymState) -> bool
    ensures { IsTrue result ↔ IsState within structs.now params slots state.now }
{
    state.locals.len() == slots
        && are_exps(params, state.locals.as_slice())
        && is_sym_heap(structs, params, &state.heap)
}

fn is_post(structs: &[StructDef], params: usize, post: &Post) -> bool
    ensures { IsTrue result ↔ IsPost within structs.now params post.now }
{
    is_exp(params, post.ret) && is_sym_heap(structs, params, &post.heap)
}

fn are_posts(structs: &[StructDef], params: usize, posts: &[Post]) -> bool
    ensures { IsTrue result ↔ All (IsPost within structs.now params) posts.now }
{
    posts.iter().all(|post| is_post(structs, params, post))
}

fn is_spec(structs: &[StructDef], params: usize, spec: &Spec) -> bool
    ensures { IsTrue result ↔ IsSpec within structs.now params spec.now }
{
    let posts = spec.posts.as_slice();
    is_sym_heap(structs, params, &spec.pre)
        && is_countable(posts)
        && are_posts(structs, params, posts)
}

/// Whether the specs of a procedure of so many parameters may stand in a store, their number aside.
pub fn are_specs(structs: &[StructDef], params: usize, specs: &[Spec]) -> bool
    ensures { IsTrue result ↔ All (IsSpec within structs.now params) specs.now }
{
    specs.iter().all(|spec| is_spec(structs, params, spec))
}

fn are_states(structs: &[StructDef], params: usize, slots: usize, states: &Row<SymState>) -> bool
    ensures { IsTrue result ↔ AreStates within structs.now params slots states.now }
{
    states.len() <= MOST_STATES
        && states
            .as_slice()
            .iter()
            .all(|state| is_state(structs, params, slots, state))
}

/// Whether a certificate of a procedure may stand in a store.
pub fn is_cert(structs: &[StructDef], flow: &Flow, cert: &Cert) -> bool
    ensures { IsTrue result ↔ IsCert within structs.now flow.now cert.now }
{
    let params = flow.params.len();
    let slots = flow.slots.len();
    let exits = cert.exits.as_slice();
    cert.nodes.len() == flow.nodes.len()
        && cert
            .nodes
            .as_slice()
            .iter()
            .all(|states| are_states(structs, params, slots, states))
        && exits.len() <= MOST_STATES
        && are_posts(structs, params, exits)
}
