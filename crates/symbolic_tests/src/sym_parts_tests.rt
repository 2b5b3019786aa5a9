//! Each shared function once, on one heap.
use shape_data::symbolic::{Atom, Exp, Post};
use std::alloc::Global;
use sym_parts::{
    Mapping, cell_address, cell_addresses, has_cell_at, has_double, is_among, is_same_exp,
    map_post, map_state, occurs_in, occurs_in_exps,
};
use worked_rows::Fault;
use worked_scopes::Scope;

const A: Exp = Exp::Var(0);

const B: Exp = Exp::Var(1);

const C: Exp = Exp::Var(2);

const SEVEN: Exp = Exp::Const(7);

/// Gives each variable the constant 7.
#[derive(Clone, Copy)]
struct ToSeven;

impl Mapping for ToSeven {
    ghost use Rattle.std.specs.Prelude.{pos};
    ghost use Rattle.shape_data.specs.declared.symbolic.Exp.TheVariants.{Const, Var};

    ghost image = { λ _ e. elim e [ Var x ↦ Const (pos 7) | Const n ↦ Const n ] };

    fn image_of(&self, e: Exp) -> Exp {
        match e {
            Exp::Var(_) => SEVEN,
            Exp::Const(_) => e,
        }
    }
}

/// One fact of each kind and one atom of each kind.
const HEAP: &str = "a=7 * 7!=b * a|->node(data:b,next:7) * ls[node.next](b,7) * junk";

/// The same with 7 for each variable.
const SEVENS: &str = "7=7 * 7!=7 * 7|->node(data:7,next:7) * ls[node.next](7,7) * junk";

/// What texts are over.
fn scope_of(alloc: Global) -> Result<Scope, Fault> {
    Scope::new(alloc, &["a", "b"], &[&["node", "data", "next node"]])
}

#[test]
fn a_mapping_is_used_on_each_expression_of_a_state(rt: HostRuntime) {
    let scope = scope_of(rt.alloc()).expect(&rt, "a scope");
    let state = scope.state(rt.alloc(), HEAP, "a 7").expect(&rt, "a state");
    let wanted = scope
        .state(rt.alloc(), SEVENS, "7 7")
        .expect(&rt, "a state");
    let mapped = map_state(rt.alloc(), &ToSeven, &state).expect(&rt, "memory");
    assert!(rt; mapped == wanted);
}

#[test]
fn a_mapping_is_used_on_each_expression_of_a_post(rt: HostRuntime) {
    let scope = scope_of(rt.alloc()).expect(&rt, "a scope");
    let heap = scope.heap(rt.alloc(), HEAP).expect(&rt, "a heap");
    let wanted = scope.heap(rt.alloc(), SEVENS).expect(&rt, "a heap");
    let mapped = map_post(rt.alloc(), &ToSeven, &Post { ret: B, heap }).expect(&rt, "memory");
    assert!(rt; mapped.ret == SEVEN);
    assert!(rt; mapped.heap == wanted);
}

#[test]
fn expressions_are_found(rt: HostRuntime) {
    assert!(rt; is_same_exp(A, A));
    assert!(rt; !is_same_exp(A, B));
    assert!(rt; !is_same_exp(A, Exp::Const(0)));
    assert!(rt; is_among(B, &[A, B]));
    assert!(rt; !is_among(C, &[A, B]));
    assert!(rt; has_double(&[A, B, A]));
    assert!(rt; !has_double(&[A, B]));
    assert!(rt; occurs_in_exps(1, &[A, B]));
    assert!(rt; !occurs_in_exps(2, &[A, B]));
    assert!(rt; cell_address(&Atom::Junk).is_none());
}

#[test]
fn variables_and_addresses_are_found_in_a_heap(rt: HostRuntime) {
    let scope = scope_of(rt.alloc()).expect(&rt, "a scope");
    let heap = scope.heap(rt.alloc(), HEAP).expect(&rt, "a heap");
    let atoms = heap.spatial.as_slice();
    let addresses = cell_addresses(rt.alloc(), atoms).expect(&rt, "memory");
    assert!(rt; addresses.as_slice() == &[A][..]);
    assert!(rt; occurs_in(0, &heap));
    assert!(rt; occurs_in(1, &heap));
    assert!(rt; !occurs_in(7, &heap));
    assert!(rt; has_cell_at(atoms, A));
    assert!(rt; !has_cell_at(atoms, B));
}
