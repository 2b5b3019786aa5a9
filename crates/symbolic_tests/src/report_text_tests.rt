//! Blocks and total lines, by hand from the table of the report.
ghost use Rattle.std.specs.Prelude.{◌≡◌, ◌≤◌, [], length, All, IfOk, Some};
ghost use Rattle.sym_text.specs.Shape.{IsShapedHeap, IsShapedPost, IsShapedSpec};
ghost use Rattle.report_text.specs.Parts.{AreCountable};

use report_text::{block, total};
use shape_data::answer::{Answer, Budget, Fault, ProcSummary, Reason};
use shape_data::program::{Flow, Proc, Ty};
use shape_data::symbolic::{Atom, Exp, Post, Spec, SymHeap};
use shape_data::{Name, Row};
use std::alloc::{AllocError, Global};
use std::process::Abort;
use std::sync::Arc;

/// The procedure `f` of the file `a.c`, which begins on line 7 and returns an int.
fn proc_of(alloc: Global) -> Result<Proc, AllocError>
    ensures { IfOk result (λ proc. proc.flow.params ≡ []) }
{
    let file = Name::of(alloc, b"a.c")?;
    let flow = flow_of(alloc)?;
    Ok(Proc {
        flow,
        file,
        line: 7,
    })
}

/// Its flow form, of which only the name and the result are printed.
fn flow_of(alloc: Global) -> Result<Flow, AllocError>
    ensures { IfOk result (λ flow. flow.params ≡ []) }
{
    Ok(Flow {
        name: Name::of(alloc, b"f")?,
        params: Row::new(alloc),
        slots: Row::new(alloc),
        ret: Ty::Int,
        nodes: Row::new(alloc),
    })
}

/// A summary with these specs, and this reason.
fn summary_of(alloc: Global, specs: Row<Spec>, reason: Reason) -> Result<ProcSummary, AllocError>
    ensures specs { IfOk result (λ summary. summary.specs ≡ specs) }
    ensures reason { IfOk result (λ summary. summary.reason ≡ Some reason) }
{
    Ok(ProcSummary {
        name: Name::of(alloc, b"f")?,
        specs,
        certs: Row::new(alloc),
        reason: Some(reason),
    })
}

/// Reasons, and the rest of the line that tells each.
const REASONS: [(Reason, &str); 20] = [
    (Reason::Endless, "no-path endless"),
    (
        Reason::NoPath {
            fault: Fault::Null,
            line: 0,
        },
        "no-path 7 null",
    ),
    (
        Reason::NoPath {
            fault: Fault::Unowned,
            line: 1,
        },
        "no-path 8 unowned",
    ),
    (
        Reason::NoPath {
            fault: Fault::Kind,
            line: 2,
        },
        "no-path 9 struct",
    ),
    (
        Reason::NoPath {
            fault: Fault::Callee,
            line: 3,
        },
        "no-path 10 callee",
    ),
    (
        Reason::NoPath {
            fault: Fault::Cover,
            line: 4,
        },
        "no-path 11 cover",
    ),
    (
        Reason::NoPath {
            fault: Fault::Alias,
            line: 5,
        },
        "no-path 12 alias",
    ),
    (
        Reason::NoPath {
            fault: Fault::States,
            line: 6,
        },
        "no-path 13 states",
    ),
    (
        Reason::NoPath {
            fault: Fault::Parts,
            line: 7,
        },
        "no-path 14 parts",
    ),
    (
        Reason::NoPath {
            fault: Fault::Turns,
            line: 4_294_967_288,
        },
        "no-path 4294967295 turns",
    ),
    (
        Reason::Failed {
            fault: Fault::Null,
            line: 0,
        },
        "failed 7 null",
    ),
    (
        Reason::Failed {
            fault: Fault::Unowned,
            line: 1,
        },
        "failed 8 unowned",
    ),
    (
        Reason::Failed {
            fault: Fault::Kind,
            line: 2,
        },
        "failed 9 struct",
    ),
    (
        Reason::Failed {
            fault: Fault::Callee,
            line: 3,
        },
        "failed 10 callee",
    ),
    (
        Reason::Failed {
            fault: Fault::Cover,
            line: 4,
        },
        "failed 11 cover",
    ),
    (
        Reason::Failed {
            fault: Fault::Turns,
            line: 5,
        },
        "failed 12 turns",
    ),
    (
        Reason::Spent {
            what: Budget::Turns,
            count: 2049,
        },
        "spent turns 2049",
    ),
    (
        Reason::Spent {
            what: Budget::States,
            count: 17,
        },
        "spent states 17",
    ),
    (
        Reason::Spent {
            what: Budget::Parts,
            count: 97,
        },
        "spent parts 97",
    ),
    (
        Reason::Spent {
            what: Budget::Rounds,
            count: 8,
        },
        "spent rounds 8",
    ),
];

/// The block of the procedure without a spec ends with the reason.
fn tells_why(rt: &impl Abort, alloc: Global, reason: Reason, want: &str) {
    let proc = proc_of(alloc).expect(rt, "memory");
    let summary = summary_of(alloc, Row::new(alloc), reason).expect(rt, "memory");
    let text = block(alloc, &proc, &summary, &[]).expect(rt, "memory");
    let line = format!(in alloc; "f a.c 7\n none {want}\n").expect(rt, "memory");
    assert_eq!(rt; text.as_slice(), line.as_bytes());
}

#[test]
fn a_block_without_a_spec_says_why(rt: HostRuntime) {
    for (reason, want) in REASONS {
        tells_why(&rt, rt.alloc(), reason, want);
    }
}

/// A heap with `junk`, or with nothing.
fn heap_of(alloc: Global, junk: bool) -> Result<SymHeap, AllocError>
    ensures { IfOk result (IsShapedHeap []) }
{
    let mut spatial = Row::new(alloc);
    if junk {
        spatial.push(Atom::Junk)?;
    }
    Ok(SymHeap {
        pure: Row::new(alloc),
        spatial,
    })
}

/// A post with a result, and with `junk` or nothing.
fn post_of(alloc: Global, ret: i32, junk: bool) -> Result<Post, AllocError>
    ensures { IfOk result (IsShapedPost []) }
{
    Ok(Post {
        ret: Exp::Const(ret),
        heap: heap_of(alloc, junk)?,
    })
}

/// A spec with such a post.
fn spec_of(alloc: Global, ret: i32, junk: bool) -> Result<Spec, AllocError>
    ensures { IfOk result (IsShapedSpec []) }
{
    let mut posts = Row::new(alloc);
    posts.push(post_of(alloc, ret, junk)?)?;
    Ok(Spec {
        pre: heap_of(alloc, false)?,
        posts,
    })
}

/// One such spec, or none.
fn specs_of(alloc: Global, some: bool, ret: i32, junk: bool) -> Result<Row<Spec>, AllocError>
    ensures specs { IfOk result (All (IsShapedSpec [])) }
    ensures few { IfOk result (λ specs. length specs ≤ 1) }
{
    let mut specs = Row::new(alloc);
    if some {
        specs.push(spec_of(alloc, ret, junk)?)?;
    }
    Ok(specs)
}

/// The block of the procedure with such a spec.
fn block_of(alloc: Global, ret: i32, junk: bool) -> Result<Vec<u8>, AllocError> {
    let proc = proc_of(alloc)?;
    let specs = specs_of(alloc, true, ret, junk)?;
    let summary = summary_of(alloc, specs, Reason::Endless)?;
    block(alloc, &proc, &summary, &[])
}

/// That block is this text.
fn has_block(rt: &impl Abort, alloc: Global, ret: i32, junk: bool, want: &str) {
    let text = block_of(alloc, ret, junk).expect(rt, "memory");
    assert_eq!(rt; text.as_slice(), want.as_bytes());
}

#[test]
fn a_block_has_its_specs(rt: HostRuntime) {
    let alloc = rt.alloc();
    let plain = "f a.c 7\n pre emp\n post emp ret=0\n";
    has_block(&rt, alloc, 0, false, plain);
    let leak = "f a.c 7\n pre emp\n post junk ret=-2147483648 leak\n";
    has_block(&rt, alloc, -2_147_483_648, true, leak);
}

/// An answer on one procedure, with a spec or without.
fn answer_of(alloc: Global, some: bool) -> Result<Answer, AllocError>
    ensures { IfOk result (λ answer. AreCountable answer.procs) }
{
    let specs = specs_of(alloc, some, 0, false)?;
    let summary = summary_of(alloc, specs, Reason::Endless)?;
    let mut procs = Row::new(alloc);
    procs.push(summary)?;
    Ok(Answer {
        stored: false,
        procs,
    })
}

/// The total line of one answer, on one procedure, with a spec or without.
fn total_of_one(alloc: Global, some: bool) -> Result<Vec<u8>, AllocError> {
    let answer = Arc::new(alloc, answer_of(alloc, some)?)?;
    total(alloc, &[answer])
}

#[test]
fn a_total_line_counts_procedures_and_specs(rt: HostRuntime) {
    let none = total(rt.alloc(), &[]).expect(&rt, "memory");
    assert_eq!(&rt; none.as_slice(), b"total 0 0 0\n".as_slice());
    for (some, want) in [(true, "total 1 1 0\n"), (false, "total 1 0 1\n")] {
        let text = total_of_one(rt.alloc(), some).expect(&rt, "memory");
        assert_eq!(&rt; text.as_slice(), want.as_bytes());
    }
}
