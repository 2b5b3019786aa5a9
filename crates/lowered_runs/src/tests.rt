//! Programs of one file: the last procedure runs from no cells, and returns what C11 says (gcc and clang agree), or faults on a line.
use heap_run::{can_start, run, start};
use project_form::Project;
use shape_data::machine::{Choice, Outcome, Value};
use shape_data::program::Program;
use shape_data::{Name, Row, well_formed_program};
use std::alloc::Global;
use std::process::Abort;
use std::rt::HostRuntime;
use std::sync::Arc;
use std::test::Fail;

const EITHER: &str = "struct s { int d; struct s *n; };
int f(int a, int b) { struct s *p = NULL; if (p != NULL && p->d == a || b) return 1; return 2; }";

const NEAREST: &str = "int f(int a, int b) { if (a) if (b) return 1; else return 2; return 3; }";

const DOUBLED: &str =
    "int f(int a, int b) { int r = 0; do { r = r * 2 + b; a--; } while (a > 0); return r; }";

/// More steps than any of the programs takes.
const STEPS: u32 = 400;

/// A program, the arguments of its last procedure, and the end of the run: the result, or the line and the fault.
const RUNS: [(&str, [Value; 2], &str); 18] = [
    // loops, and what leaves them
    (
        "int f(int a, int b) { int r = 0; while (a > 0) { r += b; a--; } return r; }",
        [6, 7],
        "42",
    ),
    (
        "int f(int a, int b) {
            int r = 0;
            int i = 0;
            for (i = 0; i < 10; i++) {
                if (i == a) continue;
                if (i == b) break;
                r += i;
            }
            return r;
        }",
        [3, 7],
        "18",
    ),
    (DOUBLED, [3, 1], "7"),
    (DOUBLED, [0, 5], "5"),
    (
        "int f(int a, int b) {
            int r = 0;
            int i = 0;
            while (i < a) {
                int j = 0;
                while (1) { if (j == b) break; j++; r++; }
                i++;
            }
            return r;
        }",
        [3, 4],
        "12",
    ),
    // an `else` goes with the nearest `if`
    (NEAREST, [1, 0], "2"),
    (NEAREST, [0, 0], "3"),
    // operators group from the left, and by their level
    ("int f(int a, int b) { return a - b - 1; }", [10, 3], "6"),
    (
        "int f(int a, int b) { return (a + b * 2 < 20) * 100 + (a < b == 0) * 10 + !a; }",
        [5, 3],
        "110",
    ),
    (
        "int f(int a, int b) { a++; b--; a -= b; a *= 3; return -a; }",
        [5, 3],
        "-12",
    ),
    // what stands behind `&&` and `||` is looked at where it decides
    (EITHER, [0, 1], "1"),
    (EITHER, [0, 0], "2"),
    // a name is the innermost variable's
    (
        "int f(int a, int b) {
            int r = a;
            {
                int a = b;
                r = r * 10 + a;
                { int b = 3; r = r * 10 + b; }
            }
            r = r * 10 + a;
            return r * 10 + b;
        }",
        [1, 2],
        "12312",
    ),
    (
        "int f(int a, int b) { if (a == 0) return b; int c = f(a - 1, b + 10); return c + a; }",
        [3, 0],
        "36",
    ),
    // the member is loaded behind the call
    (
        "struct s { int d; struct s *n; };
        int g(struct s *p) { p->d = 10; return 1; }
        int f(int a, int b) {
            struct s *p = malloc(sizeof(struct s));
            if (p == NULL) return 0;
            p->d = 5;
            p->d += g(p);
            return p->d;
        }",
        [0, 0],
        "11",
    ),
    (
        "struct s { int d; struct s *n; };
        struct s *list(int a) {
            struct s *x = NULL;
            while (a > 0) {
                struct s *y = malloc(sizeof(struct s));
                if (!y) return x;
                y->d = a;
                y->n = x;
                x = y;
                a--;
            }
            return x;
        }
        int sum(struct s *x) { int r = 0; while (x) { r += x->d; x = x->n; } return r; }
        int f(int a, int b) { struct s *x = list(a); int r = sum(x); return r + b; }",
        [4, 100],
        "110",
    ),
    // faults
    (
        "struct s { int d; struct s *n; };
        int f(int a, int b) {
            struct s *p = malloc(sizeof(struct s));
            if (p == NULL) return 0;
            free(p);
            return p->d;
        }",
        [0, 0],
        "6 Unowned",
    ),
    (
        "struct s { int d; struct s *n; };
        int f(int a, int b) {
            struct s *p = NULL;
            return p->d;
        }",
        [0, 0],
        "4 Null",
    ),
];

/// The program that a file is.
fn program(alloc: Global, text: &str) -> Result<Arc<Program>, Fail> {
    let mut project = Project::new(alloc);
    let file = Name::of(alloc, b"f.c")?;
    match project.put(alloc, &file, text.as_bytes().to_vec(alloc)?) {
        Ok(()) => {}
        Err(_) => return Err("not taken")?,
    }
    match project.program(alloc) {
        Ok(program) => Ok(program),
        Err(_) => Err("refused")?,
    }
}

/// A choice for each step: a cell that is made has an address of its own, and two fields that are 0.
fn choices(alloc: Global) -> Result<Vec<Choice>, Fail> {
    let mut choices = Vec::new(alloc);
    for step in 0..STEPS {
        choices.push(Choice::Cell {
            at: 1 + Value::from(step),
            fields: Row::from_vec([0, 0].as_slice().to_vec(alloc)?),
        })?;
    }
    Ok(choices)
}

/// How a run of the last procedure ends.
fn led(
    rt: &impl Abort,
    alloc: Global,
    program: &Program,
    args: [Value; 2],
    choices: &[Choice],
) -> Result<Outcome, Fail> {
    let procs = program.procs.len();
    assert!(rt; 0 < procs && procs < 1000);
    assert!(rt; choices.len() < 1000);
    let last = (procs - 1) as u32;
    assert!(rt; well_formed_program(program));
    assert!(rt; can_start(program, last, &args, &[]));
    let config = start(alloc, program, last, &args, &[])?;
    Ok(run(alloc, program, config, choices)?)
}

/// An end as a text.
fn end(alloc: Global, outcome: &Outcome) -> Result<String, Fail> {
    Ok(match outcome {
        Outcome::Returned { value, .. } => format!(in alloc; "{value:?}")?,
        Outcome::Fault { line, fault } => format!(in alloc; "{line} {fault:?}")?,
        other => format!(in alloc; "{other:?}")?,
    })
}

#[test]
fn lowered_programs_compute_what_c_says(rt: HostRuntime) -> Result<(), Fail> {
    let alloc = rt.alloc();
    let choices = choices(alloc)?;
    for (text, args, wanted) in RUNS {
        let program = program(alloc, text)?;
        let last = led(&rt, alloc, &program, args, choices.as_slice())?;
        let found = end(alloc, &last)?;
        assert!(rt; found.as_str() == wanted, "{text}: {found}");
    }
    Ok(())
}
