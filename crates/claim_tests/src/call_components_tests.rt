//! The components of small graphs and of large ones. The rows were worked by hand from the order of the list.
use call_components::{components, is_call_graph};
use shape_data::Name;
use std::alloc::Global;
use std::process::Abort;
use std::test::Fail;

/// A graph of calls, a word a procedure: its letter, a colon, and the places of those that it calls; and its components, a word each.
const ROWS: [(&str, &str); 8] = [
    ("", ""),
    ("a:", "a"),
    ("f:1 g:02 h:", "h fg"),
    ("b: a: `:0", "a b `"),
    ("a:0 b:0", "a b"),
    ("a:1 b:2 c:0 d:0", "abc d"),
    ("z:1 a:0 m:", "az m"),
    ("d:1 c:2 b:3 a:", "a b c d"),
];

/// The letter of a word, and the places behind its colon.
fn parts(word: &str) -> (&[u8], &[u8]) {
    match word.as_bytes() {
        [_, _, callees @ ..] => (&word.as_bytes()[..1], callees),
        _ => (b"?", b""),
    }
}

fn names_of(alloc: Global, text: &str) -> Result<Vec<Name>, Fail> {
    let mut names = Vec::new(alloc);
    for word in text.split_whitespace() {
        let (letter, _) = parts(word);
        if Name::is_name(letter) {
            names.push(Name::of(alloc, letter)?)?;
        }
    }
    Ok(names)
}

fn places_of(alloc: Global, callees: &[u8]) -> Result<Vec<u32>, Fail> {
    let mut places = Vec::new(alloc);
    for callee in callees {
        places.push(u32::from(callee.wrapping_sub(b'0')))?;
    }
    Ok(places)
}

fn calls_of(alloc: Global, text: &str) -> Result<Vec<Vec<u32>>, Fail> {
    let mut calls = Vec::new(alloc);
    for word in text.split_whitespace() {
        let (_, callees) = parts(word);
        calls.push(places_of(alloc, callees)?)?;
    }
    Ok(calls)
}

/// Puts the names of a class behind the text, as one word.
fn show(text: &mut Vec<u8>, names: &[Name], class: &[u32]) -> Result<(), Fail> {
    if !text.is_empty() {
        text.push(b' ')?;
    }
    for number in class {
        if let Some(name) = names.get(*number as usize) {
            text.extend_from_slice(name.as_bytes())?;
        }
    }
    Ok(())
}

/// The names of each class, a word each.
fn shown(alloc: Global, names: &[Name], all: &[Vec<u32>]) -> Result<Vec<u8>, Fail> {
    let mut text = Vec::new(alloc);
    for class in all {
        show(&mut text, names, class)?;
    }
    Ok(text)
}

fn components_of(
    rt: &impl Abort,
    alloc: Global,
    names: &[Name],
    calls: &[Vec<u32>],
) -> Result<Vec<Vec<u32>>, Fail> {
    assert!(rt; names.len() < 10_000);
    assert!(rt; is_call_graph(names, calls));
    Ok(components(alloc, names, calls)?)
}

/// The components of a graph, a word each.
fn answered(rt: &impl Abort, alloc: Global, graph: &str) -> Result<Vec<u8>, Fail> {
    let names = names_of(alloc, graph)?;
    let calls = calls_of(alloc, graph)?;
    let all = components_of(rt, alloc, &names, &calls)?;
    shown(alloc, &names, &all)
}

#[test]
fn small_graphs(rt: HostRuntime) -> Result<(), Fail> {
    let alloc = rt.alloc();
    for (graph, expected) in ROWS {
        let text = answered(&rt, alloc, graph)?;
        assert!(rt; text.as_slice() == expected.as_bytes(), "{graph}");
    }
    Ok(())
}

/// So many names of two bytes, in order.
fn many_names(alloc: Global) -> Result<Vec<Name>, Fail> {
    let mut names = Vec::new(alloc);
    for number in 0..1024_u32 {
        let bytes = [(number / 32) as u8 + 64, (number % 32) as u8 + 64];
        names.push(Name::of(alloc, &bytes)?)?;
    }
    Ok(names)
}

/// Whom the procedure of a number calls: the next one, and the last one calls `last`, if that is one of them.
fn callees(alloc: Global, number: u32, last: u32) -> Result<Vec<u32>, Fail> {
    let mut callees = Vec::new(alloc);
    let callee = if number == 1023 {
        last
    } else {
        number.wrapping_add(1)
    };
    if callee < 1024 {
        callees.push(callee)?;
    }
    Ok(callees)
}

fn chain(alloc: Global, last: u32) -> Result<Vec<Vec<u32>>, Fail> {
    let mut calls = Vec::new(alloc);
    for number in 0..1024_u32 {
        calls.push(callees(alloc, number, last)?)?;
    }
    Ok(calls)
}

/// The components of 1,024 procedures in a chain.
fn chained(rt: &impl Abort, alloc: Global, last: u32) -> Result<Vec<Vec<u32>>, Fail> {
    let names = many_names(alloc)?;
    let calls = chain(alloc, last)?;
    components_of(rt, alloc, &names, &calls)
}

#[test]
fn a_chain_of_all_procedures(rt: HostRuntime) -> Result<(), Fail> {
    let all = chained(&rt, rt.alloc(), 1024)?;
    assert_eq!(rt; all.len(), 1024);
    let mut expected = 1024_u32;
    for class in &all {
        expected = expected.wrapping_sub(1);
        assert!(rt; class.as_slice() == [expected].as_slice(), "{expected}");
    }
    Ok(())
}

#[test]
fn a_cycle_of_all_procedures(rt: HostRuntime) -> Result<(), Fail> {
    let all = chained(&rt, rt.alloc(), 0)?;
    assert_eq!(rt; all.len(), 1);
    let members = all[0].as_slice();
    assert_eq!(rt; members.len(), 1024);
    for (place, member) in members.iter().enumerate() {
        assert_eq!(rt; *member as usize, place);
    }
    Ok(())
}
