//! The first generated files, by hand from the table of lines.
use session_generator::generate;

const NINE: &str = "struct cell { int v; struct cell *n; };
int g0(struct cell *x) { return x->v; }
void g1(struct cell *x) { while (x) { x = x->n; } }
int g2(struct cell *x) { return g0(x); }
void g3(struct cell *x) { g1(x); }
int g4(struct cell *x) { return x->v; }
void g5(struct cell *x) { while (x) { x = x->n; } }
int g6(struct cell *x) { return g4(x); }
void g7(struct cell *x) { g5(x); }
int g8(struct cell *x) { return x->v; }
";

/// How many lines bytes have.
fn lines_of(bytes: &[u8]) -> usize {
    bytes.iter().filter(|byte| **byte == b'\n').count()
}

#[test]
fn files_are_generated_line_by_line(rt: HostRuntime) {
    for (n, lines) in [(1, 2), (2, 3), (3, 4), (4, 5), (5, 6), (9, 10)] {
        let text = generate(rt.alloc(), n).expect(&rt, "memory");
        assert!(&rt; NINE.as_bytes().starts_with(text.as_slice()), "at {n}");
        assert_eq!(&rt; lines_of(text.as_slice()), lines, "at {n}");
    }
}

#[test]
fn a_thousand_procedures_are_generated(rt: HostRuntime) {
    let whole = generate(rt.alloc(), 1_000).expect(&rt, "memory");
    let last = b"\nvoid g999(struct cell *x) { g997(x); }\n";
    assert!(&rt; whole.as_slice().ends_with(last.as_slice()));
}
