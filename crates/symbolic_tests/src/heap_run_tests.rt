//! Runs of small programs, written in flow form by hand: what each command does, and each fault and bad choice. The
//! programs, heaps and ends are tables of plain values, made into the machine's types by [`made`].
ghost use Rattle.shape_data.specs.WellFormed.{IsConfig, IsProgram};

mod made;

use heap_run::{can_start, run, start, step};
use made::{
    Called, Code, End, Live, Pick, Source, cells, choice, choices, outcome, program, stepped,
};
use shape_data::answer::Fault;
use shape_data::machine::{Config, Outcome, Value};
use shape_data::program::{ArithOp, Operand, Program, TestOp};
use shape_data::well_formed_program;
use std::alloc::Global;
use std::process::Abort;

const MIN: Value = -2_147_483_648;

const MAX: Value = 2_147_483_647;

/// A run of `f`: its arguments, its heap, its choices, and where it ends.
#[derive(Clone, Copy)]
struct Run<'a>([Value; 2], &'a [Live<'a>], &'a [Pick<'a>], End<'a>);

/// The first configuration of `f`.
fn begun(
    rt: &impl Abort,
    alloc: Global,
    program: &Program,
    args: [Value; 2],
    live: &[Live],
) -> Config
    ensures program { IsProgram program.now }
    ensures config { IsConfig program.now result }
{
    let heap = cells(alloc, live).expect(rt, "cells");
    assert!(rt; well_formed_program(program));
    assert!(rt; can_start(program, 0, &args, &heap));
    start(alloc, program, 0, &args, &heap).expect(rt, "memory")
}

/// Where a run of `f` leads.
fn led(
    rt: &impl Abort,
    alloc: Global,
    program: &Program,
    args: [Value; 2],
    live: &[Live],
    picks: &[Pick],
) -> Outcome {
    let choices = choices(alloc, picks).expect(rt, "choices");
    let config = begun(rt, alloc, program, args, live);
    assert!(rt; choices.len() < 1000);
    run(alloc, program, config, &choices).expect(rt, "memory")
}

/// A run of `f` leads to its end.
fn leads(rt: &impl Abort, alloc: Global, program: &Program, row: Run) {
    let Run(args, live, picks, end) = row;
    let wanted = outcome(alloc, end).expect(rt, "an end");
    let last = led(rt, alloc, program, args, live, picks);
    assert!(rt; last == wanted, "{last:?}");
}

/// Each run of the procedure leads to its end.
fn all_lead(rt: &impl Abort, alloc: Global, source: &Source, runs: &[Run]) {
    let program = program(alloc, source).expect(rt, "a program");
    for row in runs {
        leads(rt, alloc, &program, *row);
    }
}

/// A step of `f` from (1, 5) over [`NODE`], which uses one choice, leads to its end.
fn steps(rt: &impl Abort, alloc: Global, source: &Source, pick: Pick, end: End) {
    let program = program(alloc, source).expect(rt, "a program");
    let choice = choice(alloc, pick).expect(rt, "a choice");
    let wanted = stepped(outcome(alloc, end).expect(rt, "an end"));
    let first = begun(rt, alloc, &program, [1, 5], &[NODE]);
    let last = step(alloc, &program, first, &choice).expect(rt, "memory");
    assert!(rt; last == wanted, "{last:?}");
}

const GO: &[Pick] = &[Pick::Go; 2];

/// A run over no cells, which returns this value.
fn returns<'a>(args: [Value; 2], value: Value) -> Run<'a> {
    Run(args, &[], GO, End::Returned(value, &[]))
}

const NODE: Live = Live(1, "node", &[7, 0]);

const TREE: Live = Live(1, "tree", &[7]);

/// `int f(struct node *a, int b) { return a->data; }` on line 2.
const GET: Source = Source {
    line: 2,
    slots: 3,
    nodes: &[
        (0, Code::Load(2, 0, 0, 1)),
        (0, Code::Return(Operand::Slot(2))),
    ],
};

const GET_RUNS: &[Run] = &[
    Run([1, 0], &[NODE], GO, End::Returned(7, &[NODE])),
    Run([0, 0], &[], GO, End::Fault(2, Fault::Null)),
    Run([2, 0], &[NODE], GO, End::Fault(2, Fault::Unowned)),
    Run([1, 0], &[TREE], GO, End::Fault(2, Fault::Kind)),
    Run(
        [0, 0],
        &[],
        &[],
        End::Running(&[Called(0, &[0, 0, 0], None)], &[]),
    ),
];

#[test]
fn get_reads_its_cell(rt: HostRuntime) {
    all_lead(&rt, rt.alloc(), &GET, GET_RUNS);
}

/// `int f(int a, int b) { return b; }` on line 2.
const GIVE: Source = Source {
    line: 2,
    slots: 3,
    nodes: &[(0, Code::Return(Operand::Slot(1)))],
};

#[test]
fn a_step_uses_one_choice(rt: HostRuntime) {
    let alloc = rt.alloc();
    let second = [Called(1, &[1, 5, 7], None)];
    steps(&rt, alloc, &GET, Pick::Go, End::Running(&second, &[NODE]));
    steps(&rt, alloc, &GIVE, Pick::Null, End::Returned(5, &[NODE]));
}

/// `struct node *f(int a, int b) {` on line 2, and `struct node *n = malloc(sizeof(struct node));`, `n->data = a;`,
/// `return n; }` on the lines behind it.
const MAKE: Source = Source {
    line: 2,
    slots: 3,
    nodes: &[
        (1, Code::New(2, 1)),
        (2, Code::Store(2, 0, Operand::Slot(0), 2)),
        (3, Code::Return(Operand::Slot(2))),
    ],
};

const LOW: Live = Live(3, "tree", &[1]);

const MADE: Live = Live(9, "node", &[5, 0]);

const HIGH: Live = Live(12, "tree", &[2]);

const AT_NINE: &[Pick] = &[Pick::Cell(9, &[0, 0]), Pick::Go, Pick::Go];

const MAKE_RUNS: &[Run] = &[
    Run(
        [5, 0],
        &[],
        &[Pick::Null, Pick::Go],
        End::Fault(4, Fault::Null),
    ),
    Run([5, 0], &[], AT_NINE, End::Returned(9, &[MADE])),
    Run(
        [5, 0],
        &[LOW, HIGH],
        AT_NINE,
        End::Returned(9, &[LOW, MADE, HIGH]),
    ),
];

#[test]
fn make_takes_the_chosen_cell(rt: HostRuntime) {
    all_lead(&rt, rt.alloc(), &MAKE, MAKE_RUNS);
}

const MISFITS: &[Pick] = &[
    Pick::Cell(0, &[0, 0]),
    Pick::Cell(-1, &[0, 0]),
    Pick::Cell(9, &[0, 0]),
    Pick::Cell(8, &[0]),
    Pick::Cell(8, &[0, 0, 0]),
    Pick::Cell(8, &[MAX + 1, 0]),
    Pick::Cell(8, &[MIN - 1, 0]),
    Pick::Cell(8, &[0, -1]),
    Pick::Value(8),
    Pick::Go,
];

#[test]
fn a_new_cell_fits_its_structure_and_the_heap(rt: HostRuntime) {
    let alloc = rt.alloc();
    for pick in MISFITS {
        let run = Run(
            [5, 0],
            &[Live(9, "node", &[0, 0])],
            &[*pick],
            End::BadChoice(0),
        );
        all_lead(&rt, alloc, &MAKE, &[run]);
    }
}

/// `int f(struct node *a, int b) { free(a); return a->data; }` on line 2.
const FREED: Source = Source {
    line: 2,
    slots: 3,
    nodes: &[
        (0, Code::Free(0, 1)),
        (0, Code::Load(2, 0, 0, 2)),
        (0, Code::Return(Operand::Slot(2))),
    ],
};

const ZEROS: Live = Live(1, "node", &[0, 0]);

#[test]
fn a_freed_cell_is_gone(rt: HostRuntime) {
    let run = Run([1, 0], &[ZEROS], GO, End::Fault(2, Fault::Unowned));
    all_lead(&rt, rt.alloc(), &FREED, &[run]);
}

/// `int f(struct node *a, int b) { free(a);` on line 2, and `free(a); return 0; }` on line 3.
const TWICE: Source = Source {
    line: 2,
    slots: 2,
    nodes: &[
        (0, Code::Free(0, 1)),
        (1, Code::Free(0, 2)),
        (1, Code::Return(Operand::Num(0))),
    ],
};

const TWICE_RUNS: &[Run] = &[
    Run([0, 0], &[ZEROS], &[Pick::Go; 3], End::Returned(0, &[ZEROS])),
    Run(
        [1, 0],
        &[ZEROS],
        &[Pick::Go; 3],
        End::Fault(3, Fault::Unowned),
    ),
    Run(
        [4, 0],
        &[ZEROS],
        &[Pick::Go; 3],
        End::Fault(2, Fault::Unowned),
    ),
];

#[test]
fn null_may_be_freed_and_nothing_twice(rt: HostRuntime) {
    all_lead(&rt, rt.alloc(), &TWICE, TWICE_RUNS);
}

const SUMS: &[(ArithOp, Value, Value, Value)] = &[
    (ArithOp::Add, MAX, 1, MIN),
    (ArithOp::Add, MIN, -1, MAX),
    (ArithOp::Sub, MIN, 1, MAX),
    (ArithOp::Sub, MAX, -1, MIN),
    (ArithOp::Sub, 3, 5, -2),
    (ArithOp::Mul, MAX, 2, -2),
    (ArithOp::Mul, MIN, -1, MIN),
    (ArithOp::Mul, MIN, 2, 0),
];

#[test]
fn arithmetic_wraps_at_both_ends(rt: HostRuntime) {
    let alloc = rt.alloc();
    for (op, left, right, wanted) in SUMS {
        let arith = Code::Arith(2, *op, Operand::Slot(0), Operand::Slot(1), 1);
        let give = Code::Return(Operand::Slot(2));
        let source = Source {
            line: 1,
            slots: 3,
            nodes: &[(0, arith), (0, give)],
        };
        all_lead(&rt, alloc, &source, &[returns([*left, *right], *wanted)]);
    }
}

/// What each gives at (-1, 1), (1, 1) and (1, -1).
const COMPARISONS: &[(TestOp, [Value; 3])] = &[
    (TestOp::Eq, [0, 1, 0]),
    (TestOp::Ne, [1, 0, 1]),
    (TestOp::Lt, [1, 0, 0]),
    (TestOp::Le, [1, 1, 0]),
    (TestOp::Gt, [0, 0, 1]),
    (TestOp::Ge, [0, 1, 1]),
];

#[test]
fn comparisons_are_of_whole_numbers(rt: HostRuntime) {
    let alloc = rt.alloc();
    for (op, [below, same, above]) in COMPARISONS {
        let branch = Code::Branch(*op, Operand::Slot(0), Operand::Slot(1), 1, 2);
        let one = Code::Return(Operand::Num(1));
        let zero = Code::Return(Operand::Num(0));
        let source = Source {
            line: 1,
            slots: 2,
            nodes: &[(0, branch), (0, one), (0, zero)],
        };
        let runs = [
            returns([-1, 1], *below),
            returns([1, 1], *same),
            returns([1, -1], *above),
        ];
        all_lead(&rt, alloc, &source, &runs);
    }
}

/// `int f(int a, int b) { int c; return c; }` on line 1.
const UNSET_INT: Source = Source {
    line: 1,
    slots: 3,
    nodes: &[(0, Code::AnyInt(2, 1)), (0, Code::Return(Operand::Slot(2)))],
};

const UNSET_INT_RUNS: &[Run] = &[
    Run(
        [0, 0],
        &[],
        &[Pick::Value(MAX), Pick::Go],
        End::Returned(MAX, &[]),
    ),
    Run(
        [0, 0],
        &[],
        &[Pick::Value(MAX + 1), Pick::Go],
        End::BadChoice(0),
    ),
    Run(
        [0, 0],
        &[],
        &[Pick::Value(MIN), Pick::Go],
        End::Returned(MIN, &[]),
    ),
    Run(
        [0, 0],
        &[],
        &[Pick::Value(MIN - 1), Pick::Go],
        End::BadChoice(0),
    ),
    Run([0, 0], &[], &[Pick::Null, Pick::Go], End::BadChoice(0)),
    Run(
        [0, 0],
        &[],
        &[Pick::Cell(1, &[0, 0]), Pick::Go],
        End::BadChoice(0),
    ),
    Run([0, 0], &[], &[Pick::Go, Pick::Go], End::BadChoice(0)),
];

/// `struct node *f(int a, int b) { struct node *c; return c; }` on line 1.
const UNSET_POINTER: Source = Source {
    line: 1,
    slots: 3,
    nodes: &[
        (0, Code::AnyPointer(2, 1)),
        (0, Code::Return(Operand::Slot(2))),
    ],
};

const UNSET_POINTER_RUNS: &[Run] = &[
    Run(
        [0, 0],
        &[],
        &[Pick::Value(0), Pick::Go],
        End::Returned(0, &[]),
    ),
    Run(
        [0, 0],
        &[],
        &[Pick::Value(MAX + 1), Pick::Go],
        End::Returned(MAX + 1, &[]),
    ),
    Run([0, 0], &[], &[Pick::Value(-1), Pick::Go], End::BadChoice(0)),
];

#[test]
fn what_was_never_set_is_of_its_type(rt: HostRuntime) {
    let alloc = rt.alloc();
    all_lead(&rt, alloc, &UNSET_INT, UNSET_INT_RUNS);
    all_lead(&rt, alloc, &UNSET_POINTER, UNSET_POINTER_RUNS);
}

const IS_ZERO: Code = Code::Branch(TestOp::Eq, Operand::Slot(0), Operand::Num(0), 1, 2);

const LESS: Code = Code::Arith(2, ArithOp::Sub, Operand::Slot(0), Operand::Num(1), 3);

const MORE: Code = Code::Arith(3, ArithOp::Add, Operand::Slot(1), Operand::Num(10), 4);

const SUM: Code = Code::Arith(5, ArithOp::Add, Operand::Slot(4), Operand::Slot(0), 6);

/// `int f(int a, int b) { if (a == 0) return b; int c = f(a - 1, b + 10); return c + a; }` on line 2, the call on line 3.
const OWN: Source = Source {
    line: 2,
    slots: 6,
    nodes: &[
        (0, IS_ZERO),
        (0, Code::Return(Operand::Slot(1))),
        (1, LESS),
        (1, MORE),
        (
            1,
            Code::Call(4, "f", [Operand::Slot(2), Operand::Slot(3)], 5),
        ),
        (1, SUM),
        (1, Code::Return(Operand::Slot(5))),
    ],
};

/// The same with a call of `g`.
const OUTER: Source = Source {
    line: 2,
    slots: 6,
    nodes: &[
        (0, IS_ZERO),
        (0, Code::Return(Operand::Slot(1))),
        (1, LESS),
        (1, MORE),
        (
            1,
            Code::Call(4, "g", [Operand::Slot(2), Operand::Slot(3)], 5),
        ),
        (1, SUM),
        (1, Code::Return(Operand::Slot(5))),
    ],
};

/// The frames from (3, 0) when the fourth is new.
const FOUR_FRAMES: &[Called] = &[
    Called(5, &[3, 0, 2, 10, 0, 0], None),
    Called(5, &[2, 10, 1, 20, 0, 0], Some(4)),
    Called(5, &[1, 20, 0, 30, 0, 0], Some(4)),
    Called(0, &[0, 30, 0, 0, 0, 0], Some(4)),
];

const OWN_RUNS: &[Run] = &[
    Run([3, 0], &[], &[Pick::Go; 12], End::Running(FOUR_FRAMES, &[])),
    Run([3, 0], &[], &[Pick::Go; 20], End::Returned(36, &[])),
];

#[test]
fn calls_return_to_their_callers(rt: HostRuntime) {
    let alloc = rt.alloc();
    all_lead(&rt, alloc, &OWN, OWN_RUNS);
    let run = Run([3, 0], &[], &[Pick::Go; 20], End::Fault(3, Fault::Callee));
    all_lead(&rt, alloc, &OUTER, &[run]);
}
