//! A certificate by hand, and so with one thing spoiled.
ghost use Rattle.std.specs.Prelude.{IfOk};
ghost use Rattle.shape_data.specs.WellFormed.{IsStorableAnswer, IsStorableKey};

use crate::texts::{NODE, answer_of, key_of};
use shape_data::answer::{Answer, Fault, Key};
use solve_laws::certificates::Gap;
use std::alloc::Global;
use std::test::Fail;
use triple_check::{check_answer, first_gap};

/// `void walk(struct node *x) {`, `while (x != NULL)`, `x = x->next;`, `}`: a line each.
const WALK: &str = r#"{
    "name": "walk", "params": ["x"], "slots": [["ptr", "node"]], "ret": "void",
    "nodes": [
        [1, [[], []], ["branch", "!=", true, ["s", 0], ["n", 0], 1, 2]],
        [2, null, ["load", 0, 0, "node", 1, 0]],
        [3, null, ["return", ["n", 0]]]
    ]
}"#;

/// A list is left as it was. At the head and in the loop stands what is behind and what is ahead of x, which is ?1; in the loop x
/// is not null, and behind it x is null.
const INDUCTIVE: &str = r#"{"procs": [{
    "name": "walk", "reason": null,
    "specs": [{"pre": "ls[node.next](x,0)", "posts": ["ls[node.next](x,0) ret=0"]}],
    "certs": [{
        "nodes": [
            [{"locals": ["?1"], "heap": "ls[node.next](x,?1) * ls[node.next](?1,0)"}],
            [{"locals": ["?1"], "heap": "?1!=0 * ls[node.next](x,?1) * ls[node.next](?1,0)"}],
            [{"locals": ["0"], "heap": "ls[node.next](x,0)"}]
        ],
        "exits": ["ls[node.next](x,0) ret=0"]
    }]
}]}"#;

/// The state at the head.
const HEAD: &str = r#"{"locals": ["?1"], "heap": "ls[node.next](x,?1) * ls[node.next](?1,0)"}"#;

/// The line and the fault of the first gap of the one spec.
type GapAt = (u32, Fault);

/// The answer with a change at one place: what it says then, the text that stands there, the text that is put there instead, and
/// the gap, if there is one.
const ANSWERS: [(&str, &str, &str, Option<GapAt>); 7] = [
    ("nothing is spoiled", "", "", None),
    (
        "no state is listed at the head",
        HEAD,
        "",
        Some((1, Fault::Cover)),
    ),
    (
        "at the head stands the start state alone, which does not cover what comes round",
        HEAD,
        r#"{"locals": ["x"], "heap": "ls[node.next](x,0)"}"#,
        Some((2, Fault::Cover)),
    ),
    (
        "in the loop x may be null",
        "?1!=0 * ",
        "",
        Some((2, Fault::Null)),
    ),
    (
        "no state is listed behind the loop",
        r#"{"locals": ["0"], "heap": "ls[node.next](x,0)"}"#,
        "",
        Some((1, Fault::Cover)),
    ),
    (
        "there is no exit",
        r#""exits": ["ls[node.next](x,0) ret=0"]"#,
        r#""exits": []"#,
        Some((3, Fault::Cover)),
    ),
    (
        "there is no post",
        r#""posts": ["ls[node.next](x,0) ret=0"]"#,
        r#""posts": []"#,
        Some((1, Fault::Cover)),
    ),
];

/// Whether an answer passes, and its first gap.
type Verdict = (bool, Option<Gap>);

/// The answer with a change at the first place where a text stands.
fn edited(alloc: Global, key: &Key, old: &str, new: &str) -> Result<Answer, Fail>
    ensures { IfOk result (λ answer. IsStorableAnswer key.now answer) }
{
    let text = INDUCTIVE.replacen(alloc, old, new, 1)?;
    answer_of(alloc, key, text.as_str())
}

fn verdict_of(alloc: Global, key: &Key, answer: &Answer) -> Result<Verdict, Fail>
    requires key { IsStorableKey key.now }
    requires answer { IsStorableAnswer key.now answer.now }
{
    let passes = check_answer(alloc, key, answer)?;
    Ok((passes, first_gap(alloc, key, answer)?))
}

/// The verdict on the answer with a change.
fn verdict(alloc: Global, old: &str, new: &str) -> Result<Verdict, Fail> {
    let key = key_of(alloc, false, NODE, WALK)?;
    let answer = edited(alloc, &key, old, new)?;
    verdict_of(alloc, &key, &answer)
}

/// The verdict on an answer whose one spec has its first gap there.
fn wanted(gap: Option<GapAt>) -> Verdict {
    match gap {
        None => (true, None),
        Some((line, fault)) => {
            let gap = Gap {
                proc: 0,
                spec: 0,
                line,
                fault,
            };
            (false, Some(gap))
        }
    }
}

#[test]
fn a_certificate_passes_unless_something_is_spoiled(rt: HostRuntime) -> Result<(), Fail> {
    let alloc = rt.alloc();
    for (what, old, new, gap) in ANSWERS {
        assert!(rt; verdict(alloc, old, new)? == wanted(gap), "{what}");
    }
    Ok(())
}
