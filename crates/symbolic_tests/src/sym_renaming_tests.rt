//! Worked renamings: numbers, a precondition with its arguments, a post, a state. The callee has the parameter `x`; the caller has ?1
//! and ?2 in use. Heaps are texts over the callee's parameter, also those of the caller. Values were worked by hand.
ghost use Rattle.sym_matching.specs.Rooms.{IsWithinSizes};

use shape_data::Row;
use shape_data::symbolic::{Exp, Post, SymHeap, SymState};
use std::alloc::Global;
use std::process::Abort;
use sym_matching::renaming::new_variables::as_exps;
use sym_matching::renaming::sizes::is_within_sizes;
use sym_matching::renaming::variables::add_state;
use sym_matching::renaming::{
    Bound, bound_exp, called_pre, numbers_apart, post_in_caller, state_apart,
};
use sym_parts::map_heap;
use worked_scopes::Scope;

const X: Exp = Exp::Var(0);

/// `$1`.
const FURTHER: Exp = Exp::Var(1);

const E1: Exp = Exp::Var(65_536);

const E2: Exp = Exp::Var(65_537);

const E3: Exp = Exp::Var(65_538);

const E6: Exp = Exp::Var(65_541);

const SEVEN: Exp = Exp::Const(7);

const USED: [u32; 2] = [65_536, 65_537];

/// The heap of a text, which is within the sizes.
fn heap_of(rt: &impl Abort, alloc: Global, text: &str) -> SymHeap
    ensures { IsWithinSizes result }
{
    let scope = Scope::new(alloc, &["x"], &[&["node", "data", "next node"]]).expect(rt, "a scope");
    let heap = scope.heap(alloc, text).expect(rt, "a heap");
    assert!(rt; is_within_sizes(&heap));
    heap
}

#[test]
fn numbers_are_the_least_that_are_free(rt: HostRuntime) {
    let alloc = rt.alloc();
    let used = [65_536, 65_538, 3];
    let list = [5, 65_536, 5, 3];
    let apart = numbers_apart(alloc, &used, &list).expect(&rt, "memory");
    assert!(rt; apart.variables.as_slice() == [5, 65_536, 3].as_slice());
    assert!(rt; apart.numbers.as_slice() == [65_537, 65_539, 65_540].as_slice());
    assert!(rt; apart.number_of(3) == 65_540);
    assert!(rt; apart.number_of(4) == 4);
}

/// Called with ?2, `x`, ?1 and $1 become ?3, ?4 and ?5.
#[test]
fn a_precondition_has_numbers_of_its_own(rt: HostRuntime) {
    let alloc = rt.alloc();
    let pre = heap_of(&rt, alloc, "x!=?1 * x|->node(data:$1,next:?1)");
    let wanted = heap_of(&rt, alloc, "?3!=?4 * ?3|->node(data:?5,next:?4)");
    let used = USED;
    let called = called_pre(alloc, &used, &pre, &[E2]).expect(&rt, "memory");
    assert!(rt; called.numbers.variables.as_slice() == [0, 65_536, 1].as_slice());
    assert!(rt; called.numbers.numbers.as_slice() == [65_538, 65_539, 65_540].as_slice());
    assert!(rt; called.pre == wanted);
    assert!(rt; called.bound.as_slice() == [(65_538, E2)].as_slice());
    assert!(rt; called.flexible.as_slice() == [65_539, 65_540].as_slice());
}

/// The match bound $1 to 7: `x` is ?2, $2 is ?7, and ?1, which is ?6, is no more that of the precondition.
#[test]
fn a_post_is_read_in_the_caller(rt: HostRuntime) {
    let alloc = rt.alloc();
    let used = USED;
    let apart = numbers_apart(alloc, &used, &[0, 65_536, 1]).expect(&rt, "memory");
    let binding = [(65_538, E2), (65_539, E1), (65_540, SEVEN)];
    let post = Post {
        ret: E1,
        heap: heap_of(&rt, alloc, "x=$2 * x|->node(data:$1,next:?1)"),
    };
    let wanted = heap_of(&rt, alloc, "?2=?7 * ?2|->node(data:7,next:?6)");
    let read = post_in_caller(alloc, &used, &apart, &binding, &post).expect(&rt, "memory");
    assert!(rt; read.ret == E6);
    assert!(rt; read.heap == wanted);
}

/// Its variables become ?3 and ?4, apart from its own, and are added as they stand in it.
#[test]
fn a_state_has_new_existential_variables(rt: HostRuntime) {
    let alloc = rt.alloc();
    let state = SymState {
        locals: Row::from_vec(vec![in alloc; E2].expect(&rt, "memory")),
        heap: heap_of(&rt, alloc, "?1=$1 * ?2|->node(data:?1,next:?2)"),
    };
    let wanted = heap_of(&rt, alloc, "?4=$1 * ?3|->node(data:?4,next:?3)");
    let used = USED;
    let apart = state_apart(alloc, &used, &state).expect(&rt, "memory");
    assert!(rt; apart.locals.as_slice() == [E3].as_slice());
    assert!(rt; apart.heap == wanted);
    let mut names = Vec::new(alloc);
    add_state(&mut names, &apart).expect(&rt, "memory");
    assert!(rt; names.as_slice() == [65_538, 65_539, 1, 65_538, 65_539, 65_538].as_slice());
}

#[test]
fn what_is_not_bound_stands_for_itself(rt: HostRuntime) {
    let alloc = rt.alloc();
    let binding = [(0, E1), (65_536, SEVEN), (0, E2)];
    assert!(rt; bound_exp(&binding, X) == E1);
    assert!(rt; bound_exp(&binding, FURTHER) == FURTHER);
    let heap = heap_of(&rt, alloc, "x=7 * ?1|->node(data:?2,next:x)");
    let wanted = heap_of(&rt, alloc, "?1=7 * 7|->node(data:?2,next:?1)");
    let bound = Bound { binding: &binding };
    let read = map_heap(alloc, &bound, &heap).expect(&rt, "memory");
    assert!(rt; read == wanted);
}

#[test]
fn variables_are_expressions(rt: HostRuntime) {
    let alloc = rt.alloc();
    let all = as_exps(alloc, &[0, 65_536]).expect(&rt, "memory");
    assert!(rt; all.as_slice() == [X, E1].as_slice());
}
