//! Tests of flows: whether the structures, slots, nodes and fields that a procedure in flow form names are
//! there. They stand on the definition of a well-formed flow, and serve the tests of programs and of keys.
ghost use Rattle.std.specs.Prelude.{◌≡◌, ◌↔◌, ◌<◌, length, All, IsTrue};
ghost use Rattle.std.specs.Option.{option_copied, IfSome};
ghost use Rattle.shape_data.specs.Heap.{struct_named};
ghost use Rattle.shape_data.specs.WellFormed.{
  IsCountable,
  IsTy,
  IsStruct,
  AreStructs,
  AreParams,
  IsOperand,
  IsKind,
  IsField,
  IsCmd,
  IsMark,
  IsNode,
  IsFlow,
  FitsCall,
  FitCalls,
};

use crate::name::Name;
use crate::names::{Callable, have_different_names, is_c_name};
use crate::program::{Cmd, Flow, HeadMark, Node, Operand, StructDef, Ty};

/// The most parameters of a procedure, fields of a structure, and slots of a procedure.
const MOST_SLOTS: usize = 32_768;

/// Whether a 32-bit number can count the things.
pub fn is_countable<T>(things: &[T]) -> bool
    ensures { IsTrue result ↔ IsCountable things.now }
{
    things.len() < 4_294_967_296
}

/// The structure of a name.
pub fn struct_of<'a>(structs: &'a [StructDef], name: &Name) -> Option<&'a StructDef>
    ensures { option_copied result ≡ struct_named structs.now name.now }
{
    structs.iter().find(|def| def.name == *name)
}

fn is_ty(ty: &Ty) -> bool
    ensures { IsTrue result ↔ IsTy ty.now }
{
    match ty {
        Ty::Int => true,
        Ty::Ptr(name) => is_c_name(name.as_bytes()),
        Ty::Void => true,
    }
}

fn is_struct(def: &StructDef) -> bool
    ensures { IsTrue result ↔ IsStruct def.now }
{
    let fields = def.fields.as_slice();
    is_c_name(def.name.as_bytes())
        && fields.len() <= MOST_SLOTS
        && fields.iter().all(|field| is_c_name(field.name.as_bytes()))
        && fields.iter().all(|field| is_ty(&field.ty))
        && have_different_names(fields)
}

/// Whether structures are well formed and have different names.
pub fn are_structs(structs: &[StructDef]) -> bool
    ensures { IsTrue result ↔ AreStructs structs.now }
{
    is_countable(structs)
        && structs.iter().all(|def| is_struct(def))
        && have_different_names(structs)
}

/// Whether parameters are few and have C names, which differ.
pub fn are_params(params: &[Name]) -> bool
    ensures { IsTrue result ↔ AreParams params.now }
{
    params.len() <= MOST_SLOTS
        && params.iter().all(|name| is_c_name(name.as_bytes()))
        && have_different_names(params)
}

fn is_operand(slots: usize, operand: Operand) -> bool
    ensures { IsTrue result ↔ IsOperand slots operand }
{
    match operand {
        Operand::Slot(slot) => (slot as usize) < slots,
        Operand::Num(_) => true,
    }
}

fn is_kind(structs: &[StructDef], kind: &Name) -> bool
    ensures { IsTrue result ↔ IsKind structs.now kind.now }
{
    struct_of(structs, kind).is_some()
}

/// Whether the structure is listed and has the field.
pub fn is_field(structs: &[StructDef], kind: &Name, field: u32) -> bool
    ensures { IsTrue result ↔ IsField structs.now kind.now field }
{
    match struct_of(structs, kind) {
        Some(def) => (field as usize) < def.fields.len(),
        None => false,
    }
}

fn are_operands(slots: usize, operands: &[Operand]) -> bool
    ensures { IsTrue result ↔ All (IsOperand slots) operands.now }
{
    operands.iter().all(|operand| is_operand(slots, *operand))
}

fn are_slots(slots: usize, listed: &[u32]) -> bool
    ensures { IsTrue result ↔ All (λ slot. slot < slots) listed.now }
{
    listed.iter().all(|slot| (*slot as usize) < slots)
}

fn is_target(slots: usize, to: Option<u32>) -> bool
    ensures { IsTrue result ↔ IfSome to (λ slot. slot < slots) }
{
    match to {
        Some(slot) => (slot as usize) < slots,
        None => true,
    }
}

fn is_cmd(structs: &[StructDef], slots: usize, nodes: usize, cmd: &Cmd) -> bool
    ensures { IsTrue result ↔ IsCmd structs.now slots nodes cmd.now }
{
    let is_slot = |slot: u32| (slot as usize) < slots;
    let is_node = |node: u32| (node as usize) < nodes;
    match cmd {
        Cmd::Copy { to, from, next } => is_slot(*to) && is_operand(slots, *from) && is_node(*next),
        Cmd::Arith {
            to,
            op: _,
            left,
            right,
            next,
        } => {
            is_slot(*to) && is_operand(slots, *left) && is_operand(slots, *right) && is_node(*next)
        }
        Cmd::Any { to, ty, next } => is_slot(*to) && is_node(*next) && is_ty(ty),
        Cmd::Load {
            to,
            base,
            kind,
            field,
            next,
        } => is_slot(*to) && is_slot(*base) && is_field(structs, kind, *field) && is_node(*next),
        Cmd::Store {
            base,
            kind,
            field,
            from,
            next,
        } => {
            is_slot(*base)
                && is_field(structs, kind, *field)
                && is_operand(slots, *from)
                && is_node(*next)
        }
        Cmd::New { to, kind, next } => is_slot(*to) && is_kind(structs, kind) && is_node(*next),
        Cmd::Free { base, kind, next } => {
            is_slot(*base) && is_kind(structs, kind) && is_node(*next)
        }
        Cmd::Call {
            to,
            callee,
            args,
            next,
        } => {
            is_target(slots, *to)
                && is_countable(args.as_slice())
                && are_operands(slots, args.as_slice())
                && is_node(*next)
                && is_c_name(callee.as_bytes())
        }
        Cmd::Branch {
            op: _,
            pointers: _,
            left,
            right,
            yes,
            no,
        } => {
            is_operand(slots, *left) && is_operand(slots, *right) && is_node(*yes) && is_node(*no)
        }
        Cmd::Return { value } => is_operand(slots, *value),
    }
}

fn is_mark(slots: usize, mark: &HeadMark) -> bool
    ensures { IsTrue result ↔ IsMark slots mark.now }
{
    let ints = mark.ints.as_slice();
    let dead = mark.dead.as_slice();
    is_countable(ints) && are_slots(slots, ints) && is_countable(dead) && are_slots(slots, dead)
}

fn is_head(slots: usize, head: &Option<HeadMark>) -> bool
    ensures { IsTrue result ↔ IfSome head.now (IsMark slots) }
{
    match head {
        Some(mark) => is_mark(slots, mark),
        None => true,
    }
}

fn is_node(structs: &[StructDef], slots: usize, nodes: usize, node: &Node) -> bool
    ensures { IsTrue result ↔ IsNode structs.now slots nodes node.now }
{
    is_cmd(structs, slots, nodes, &node.cmd) && is_head(slots, &node.head)
}

/// Whether a flow is well formed over these structures, its calls aside.
pub fn is_flow(structs: &[StructDef], flow: &Flow) -> bool
    ensures { IsTrue result ↔ IsFlow structs.now flow.now }
{
    let slots = flow.slots.len();
    let nodes = flow.nodes.as_slice();
    is_c_name(flow.name.as_bytes())
        && are_params(flow.params.as_slice())
        && flow.params.len() <= slots
        && slots <= MOST_SLOTS
        && flow.slots.as_slice().iter().all(|ty| is_ty(ty))
        && is_ty(&flow.ret)
        && !nodes.is_empty()
        && is_countable(nodes)
        && nodes
            .iter()
            .all(|node| is_node(structs, slots, nodes.len(), node))
}

fn accepts<T: Callable>(one: &T, callee: &Name, args: usize) -> bool
    ensures { IsTrue result ↔ (T.name_of one.now ≡ callee.now → length (T.params_of one.now) ≡ args) }
{
    *one.name() != *callee || one.params().len() == args
}

fn fits_call<T: Callable>(listed: &[T], cmd: &Cmd) -> bool
    ensures { IsTrue result ↔ FitsCall T.name_of T.params_of listed.now cmd.now }
{
    match cmd {
        Cmd::Call {
            to: _,
            callee,
            args,
            next: _,
        } => {
            let count = args.len();
            listed.iter().all(|one| accepts(one, callee, count))
        }
        _ => true,
    }
}

/// Whether each call of what is listed has one argument for each parameter.
pub fn fit_calls<T: Callable>(listed: &[T], flow: &Flow) -> bool
    ensures { IsTrue result ↔ FitCalls T.name_of T.params_of listed.now flow.now }
{
    flow.nodes
        .as_slice()
        .iter()
        .all(|node| fits_call(listed, &node.cmd))
}
