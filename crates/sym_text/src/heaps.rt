//! Reads whole heaps and posts.
ghost use Rattle.std.specs.Prelude.{◌≡◌, ◌≤◌, ◌<◌, [], true, false, length, IfOk, IfErr, OnOk};
ghost use Rattle.shape_data.specs.WellFormed.{AreParams, AreStructs};
ghost use Rattle.sym_text.specs.Grammar.{IsWritten, IsWrittenPost, IsHeapText, IsPostText, IsRefusal};
ghost use Rattle.sym_text.specs.Outcome.{Got, IsStop};
ghost use Rattle.sym_text.specs.Reading.{with_part, more_may_come, read_turn, read_parts, read_whole_post};
ghost use Rattle.sym_text.specs.Text.{heap_text, post_text};

use crate::exps::read_exp;
use crate::fault::{BadSpec, Fault, bad_spec};
use crate::parts::Part;
use crate::reading::{Scope, read_part, read_separator};
use shape_data::program::StructDef;
use shape_data::symbolic::{Post, SymHeap};
use shape_data::{Name, Row};
use std::alloc::{AllocError, Global};

/// The most parts of a heap.
const MOST_PARTS: usize = 4_000;

/// Puts a part behind those of a heap.
fn push_part(heap: &mut SymHeap, part: Part) -> Result<(), AllocError>
    ensures { OnOk result (heap.new ≡ with_part heap.old part) }
{
    match part {
        Part::Fact(fact) => heap.pure.push(fact),
        Part::Atom(atom) => heap.spatial.push(atom),
        Part::Nothing => Ok(()),
    }
}

/// Whether a further part may come.
fn more_may_come(left: usize, part: &Part) -> bool
    ensures { result ≡ more_may_come left part.now }
{
    match part {
        Part::Fact(_) | Part::Atom(_) => 0 < left,
        Part::Nothing => false,
    }
}

/// A part, whether a further one follows, and the text behind them.
type ReadTurn<'a> = (Part, bool, &'a [u8]);

/// Reads a part and what stands behind it, where at most so many parts may follow.
#[tactic(auto, unfolding(crate::specs::Reading::read_turn, crate::specs::Outcome::go_on))]
fn read_turn<'a>(
    alloc: Global,
    with_ret: bool,
    scope: &Scope<'a>,
    left: usize,
    text: &'a [u8],
) -> Result<ReadTurn<'a>, Fault>
    requires few { length scope.now.params.now ≤ 32768 }
    requires structs { AreStructs scope.now.structs.now }
    ensures ok { IfOk result (λ read.
        read_turn with_ret scope.now.structs.now scope.now.params.now scope.now.facts scope.now.is_first left text.now
        ≡ Got (record { 0 = read.0; 1 = read.1 }) read.2.now) }
    ensures err { IfErr result (λ fault. IsStop fault
        (read_turn with_ret scope.now.structs.now scope.now.params.now scope.now.facts scope.now.is_first left text.now)) }
{
    let (part, rest) = read_part(alloc, scope, text)?;
    let (more, rest) = read_separator(with_ret, more_may_come(left, &part), rest)?;
    Ok((part, more, rest))
}

/// A heap, and the text behind it.
type ReadHeap<'a> = (SymHeap, &'a [u8]);

/// Reads a heap: `emp`, or its parts.
fn read_parts<'a>(
    alloc: Global,
    with_ret: bool,
    structs: &'a [StructDef],
    params: &'a [Name],
    text: &'a [u8],
) -> Result<ReadHeap<'a>, Fault>
    requires few { length params.now ≤ 32768 }
    requires structs { AreStructs structs.now }
    ensures ok { IfOk result (λ read. read_parts with_ret structs.now params.now 4000 true (record { pure = []; spatial = [] }) text.now
        ≡ Got read.0 read.1.now) }
    ensures err { IfErr result (λ fault. IsStop fault
        (read_parts with_ret structs.now params.now 4000 true (record { pure = []; spatial = [] }) text.now)) }
{
    let mut heap = SymHeap {
        pure: Row::new(alloc),
        spatial: Row::new(alloc),
    };
    let mut is_first = true;
    let mut left = MOST_PARTS;
    let mut rest = text;
    while 0 < left {
        let scope = Scope {
            structs,
            params,
            facts: heap.spatial.is_empty(),
            is_first,
        };
        let (part, more, behind) = read_turn(alloc, with_ret, &scope, left - 1, rest)?;
        push_part(&mut heap, part)?;
        if !more {
            return Ok((heap, behind));
        }
        is_first = false;
        left -= 1;
        rest = behind;
    }
    Err(Fault::Refused { left: rest.len() })
}

/// Reads a post with its result, and the end of the text.
#[tactic(auto, unfolding(crate::specs::Reading::read_whole_post, crate::specs::Outcome::go_on, crate::specs::Outcome::by_first))]
fn read_whole_post<'a>(
    alloc: Global,
    structs: &'a [StructDef],
    params: &'a [Name],
    text: &'a [u8],
) -> Result<Post, Fault>
    requires few { length params.now ≤ 32768 }
    requires structs { AreStructs structs.now }
    ensures ok { IfOk result (λ post. read_whole_post structs.now params.now text.now ≡ Got post []) }
    ensures err { IfErr result (λ fault. IsStop fault (read_whole_post structs.now params.now text.now)) }
{
    let (heap, rest) = read_parts(alloc, true, structs, params, text)?;
    let (ret, rest) = read_exp(params, rest)?;
    match rest {
        [] => Ok(Post { ret, heap }),
        [_, ..] => Err(Fault::Refused { left: rest.len() }),
    }
}

/// The heap of a text over these parameters and structures: the one well-formed heap of at most 4,000 parts that
/// [`print_heap`](crate::print_heap) prints so.
///
/// Errors: `At` where there is none, with the length in bytes of the longest prefix that begins the text of some such heap;
/// `OutOfMemory`. The parameters are the logical variables from 0 on, and the structures give cells their fields in order.
pub fn read_heap(
    alloc: Global,
    text: &[u8],
    params: &[Name],
    structs: &[StructDef],
) -> Result<SymHeap, BadSpec>
    requires short { length text.now < 4294967296 }
    requires params { AreParams params.now }
    requires structs { AreStructs structs.now }
    ensures heap { IfOk result (λ heap. IsWritten structs.now params.now heap) }
    ensures text { IfOk result (λ heap. text.now ≡ heap_text structs.now params.now heap) }
    ensures bad { IfErr result (λ bad. IsRefusal (IsHeapText structs.now params.now) text.now bad) }
{
    match read_parts(alloc, false, structs, params, text) {
        Ok((heap, _)) => Ok(heap),
        Err(fault) => Err(bad_spec(text.len(), fault)),
    }
}

/// The post of a text over these parameters and structures: the one well-formed post, of at most 4,000 parts, that
/// [`print_post`](crate::print_post) prints so with its result. A text without ` ret=` is none.
///
/// Errors: as those of [`read_heap`].
pub fn read_post(
    alloc: Global,
    text: &[u8],
    params: &[Name],
    structs: &[StructDef],
) -> Result<Post, BadSpec>
    requires short { length text.now < 4294967296 }
    requires params { AreParams params.now }
    requires structs { AreStructs structs.now }
    ensures post { IfOk result (λ post. IsWrittenPost structs.now params.now post) }
    ensures text { IfOk result (λ post. text.now ≡ post_text structs.now params.now true post) }
    ensures bad { IfErr result (λ bad. IsRefusal (IsPostText structs.now params.now) text.now bad) }
{
    match read_whole_post(alloc, structs, params, text) {
        Ok(post) => Ok(post),
        Err(fault) => Err(bad_spec(text.len(), fault)),
    }
}
