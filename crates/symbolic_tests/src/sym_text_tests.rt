//! Texts read and printed again, and texts that leave the grammar at a known byte.
mod tables;

use std::alloc::{AllocError, Global};
use std::process::Abort;
use sym_text::laws::well_formed_is_shaped;
use sym_text::{BadSpec, push_heap, push_post, read_heap, read_post};
use tables::{PRINTED, REFUSED, Table};
use worked_scopes::Scope;

/// Where the text of a heap is refused; where it is read, the heap is printed behind `again`.
fn heap_again(
    rt: &impl Abort,
    alloc: Global,
    scope: &Scope,
    text: &[u8],
    again: &mut Vec<u8>,
) -> Option<u32> {
    let params = scope.params.as_slice();
    let structs = scope.program.structs.as_slice();
    assert!(rt; scope.can_read(params, text));
    well_formed_is_shaped();
    match read_heap(alloc, text, params, structs) {
        Ok(heap) => {
            push_heap(again, params, structs, &heap).expect(rt, "memory");
            None
        }
        Err(BadSpec::At { offset }) => Some(offset),
        Err(BadSpec::OutOfMemory) => panic!(rt; "no memory"),
    }
}

/// Where the text of a post is refused; where it is read, the post is printed behind `again`, and without its result behind
/// `bare`.
fn post_again(
    rt: &impl Abort,
    alloc: Global,
    scope: &Scope,
    text: &[u8],
    again: &mut Vec<u8>,
    bare: &mut Vec<u8>,
) -> Option<u32> {
    let params = scope.params.as_slice();
    let structs = scope.program.structs.as_slice();
    assert!(rt; scope.can_read(params, text));
    well_formed_is_shaped();
    match read_post(alloc, text, params, structs) {
        Ok(post) => {
            push_post(again, params, structs, &post, true).expect(rt, "memory");
            push_post(bare, params, structs, &post, false).expect(rt, "memory");
            None
        }
        Err(BadSpec::At { offset }) => Some(offset),
        Err(BadSpec::OutOfMemory) => panic!(rt; "no memory"),
    }
}

/// Checks the text of a heap: where it is refused, or that it is printed again.
fn check_heap(rt: &impl Abort, alloc: Global, scope: &Scope, text: &[u8], refused: Option<u32>) {
    let mut again = Vec::new(alloc);
    let found = heap_again(rt, alloc, scope, text, &mut again);
    assert_eq!(rt; found, refused, "in {text:?}");
    if found.is_none() {
        assert_eq!(rt; again.as_slice(), text);
    }
}

/// Checks the text of a post: where it is refused, or that it is printed again, and without ` ret=` and the result where the
/// result is not asked for.
fn check_post(rt: &impl Abort, alloc: Global, scope: &Scope, text: &[u8], refused: Option<u32>) {
    let mut again = Vec::new(alloc);
    let mut bare = Vec::new(alloc);
    let found = post_again(rt, alloc, scope, text, &mut again, &mut bare);
    bare.extend_from_slice(b" ret=").expect(rt, "memory");
    assert_eq!(rt; found, refused, "in {text:?}");
    if found.is_none() {
        assert_eq!(rt; again.as_slice(), text);
        assert!(rt; text.starts_with(bare.as_slice()), "in {text:?}");
    }
}

fn check_text(
    rt: &impl Abort,
    alloc: Global,
    scope: &Scope,
    is_post: bool,
    text: &[u8],
    refused: Option<u32>,
) {
    if is_post {
        check_post(rt, alloc, scope, text, refused);
    } else {
        check_heap(rt, alloc, scope, text, refused);
    }
}

/// Checks each line; `@` marks where its text is refused.
fn check_lines(rt: &impl Abort, alloc: Global, scope: &Scope, is_post: bool, lines: &[u8]) {
    let mut text = Vec::new(alloc);
    let mut refused = None;
    for byte in lines {
        if *byte == b'\n' {
            check_text(rt, alloc, scope, is_post, text.as_slice(), refused);
            text.clear();
            refused = None;
        } else if *byte == b'@' {
            refused = u32::try_from(text.len()).ok();
        } else {
            text.push(*byte).expect(rt, "memory");
        }
    }
}

fn check_table(rt: &impl Abort, alloc: Global, table: &Table<'_>) {
    let scope = Scope::new(alloc, table.params, table.structs).expect(rt, "a scope");
    check_lines(rt, alloc, &scope, false, table.heaps.as_bytes());
    check_lines(rt, alloc, &scope, true, table.posts.as_bytes());
}

#[test]
fn printed_heaps_are_read_and_printed_again(rt: HostRuntime) {
    let alloc = rt.alloc();
    for table in PRINTED {
        check_table(&rt, alloc, table);
    }
}

#[test]
fn texts_are_refused_where_they_leave_the_grammar(rt: HostRuntime) {
    let alloc = rt.alloc();
    for table in REFUSED {
        check_table(&rt, alloc, table);
    }
}

/// So many equations.
fn equations(alloc: Global, count: u32) -> Result<Vec<u8>, AllocError> {
    let mut text = Vec::new(alloc);
    for place in 0..count {
        if place > 0 {
            text.extend_from_slice(b" * ")?;
        }
        text.extend_from_slice(b"x=0")?;
    }
    Ok(text)
}

#[test]
fn at_most_four_thousand_parts_are_read(rt: HostRuntime) {
    let alloc = rt.alloc();
    let scope = Scope::new(alloc, &["x"], &[]).expect(&rt, "a scope");
    for (count, heap_refused, post_refused) in [
        (4_000, None, None),
        (4_001, Some(23_997), Some(23_998)),
    ] {
        let mut text = equations(alloc, count).expect(&rt, "memory");
        check_text(&rt, alloc, &scope, false, text.as_slice(), heap_refused);
        text.extend_from_slice(b" ret=0").expect(&rt, "memory");
        check_text(&rt, alloc, &scope, true, text.as_slice(), post_refused);
    }
}
