//! Bytes that were read from a source and not taken yet. What stands ahead and what the source has left are together
//! the stream that is left, so that reading changes nothing of it.
ghost use Rattle.std.specs.Prelude.{◌≡◌, ◌+◌, ◌<◌, ◌≤◌, [], length, drop, IfOk};
ghost use Rattle.io_ports.specs.Bytes.{before_left, IsNothingLeft};
ghost use Rattle.io_ports.specs.Counts.{Rose};

use io_ports::Source;
use std::alloc::{AllocError, Global};
use std::marker::Model;

/// How many bytes are asked for in one read, at most.
const PIECE: usize = 4096;

/// The bytes that were read and not taken yet, which contracts see as their list.
#[derive(Drop, Debug)]
pub struct Ahead {
    bytes: Vec<u8>,
    start: usize,
}

impl Model for Ahead {
    ghost use Rattle.std.specs.Prelude.{List, ℕ, drop, length, ◌+◌, ◌≤◌};

    ghost Value = { List ℕ };

    ghost view = { λ a. drop a.start a.bytes.items };

    ghost invariant = { λ a. (a.start ≤ length a.bytes.items) × (length a.bytes.items ≤ a.start + 4352) };
}

/// How a reading ended.
#[derive(Clone, Copy, PartialEq, Eq, Debug)]
pub enum Filled {
    /// There are more bytes.
    More,
    /// Nothing is left to be read.
    End,
    /// The read failed.
    Failed,
}

impl Ahead {
    /// No bytes.
    pub fn new(alloc: Global) -> Self
        ensures { result ≡ [] }
    {
        Ahead {
            bytes: Vec::new(alloc),
            start: 0,
        }
    }

    /// The bytes, of which there are at most a line's and a piece's.
    pub fn bytes(&self) -> &[u8]
        ensures value { result.now ≡ self.now }
        ensures few { length result.now ≤ 4352 }
    {
        &self.bytes.as_slice()[self.start..]
    }

    /// Takes the first of the bytes.
    pub fn skip(&mut self, count: usize)
        requires { count ≤ length self.old }
        ensures { self.new ≡ drop count self.old }
    {
        self.start += count;
    }

    /// Reads a piece where no bytes stand ahead.
    pub fn fill_if_empty<S: Source>(&mut self, source: &mut S) -> Result<Filled, AllocError>
        ensures stream { before_left self.old (S.left source.old) ≡ before_left self.new (S.left source.new) }
        ensures more { IfOk result (λ filled. filled ≡ Filled.More → 0 < length self.new) }
        ensures end { IfOk result (λ filled. filled ≡ Filled.End → IsNothingLeft (S.left source.new) × (self.new ≡ [])) }
        ensures cause { IfOk result (λ filled. filled ≡ Filled.Failed → Rose (S.faults source.old) (S.faults source.new)) }
        ensures never_falls { S.faults source.old ≤ S.faults source.new }
        ensures unread { 0 < length self.old → (source.new ≡ source.old) × (self.new ≡ self.old) }
    {
        if self.bytes().is_empty() {
            self.fill(source)
        } else {
            Ok(Filled::More)
        }
    }

    /// Moves one piece from the source to the end of the bytes, which are no more than a line's. Room for it is taken first, so
    /// that want of memory loses no byte.
    pub fn fill<S: Source>(&mut self, source: &mut S) -> Result<Filled, AllocError>
        requires { length self.old ≤ 256 }
        ensures stream { before_left self.old (S.left source.old) ≡ before_left self.new (S.left source.new) }
        ensures more { IfOk result (λ filled. filled ≡ Filled.More → length self.old < length self.new) }
        ensures end { IfOk result (λ filled. filled ≡ Filled.End → IsNothingLeft (S.left source.new)) }
        ensures cause { IfOk result (λ filled. filled ≡ Filled.Failed → Rose (S.faults source.old) (S.faults source.new)) }
        ensures same { IfOk result (λ filled. filled ≡ Filled.End → self.new ≡ self.old) }
        ensures never_falls { S.faults source.old ≤ S.faults source.new }
    {
        drop_front(&mut self.bytes, self.start);
        self.start = 0;
        let mut piece = [0u8; PIECE];
        read_piece(source, &mut self.bytes, &mut piece)
    }
}

/// Drops the first of the bytes.
fn drop_front(bytes: &mut Vec<u8>, count: usize)
    requires { count ≤ length bytes.old.items }
    ensures { bytes.new.items ≡ drop count bytes.old.items }
{
    let left = bytes.len() - count;
    bytes.as_mut_slice().rotate_left(count);
    bytes.truncate(left);
}

/// Moves one piece, of at most the length of `piece`, from the source to the end of the bytes.
fn read_piece<S: Source>(
    source: &mut S,
    bytes: &mut Vec<u8>,
    piece: &mut [u8],
) -> Result<Filled, AllocError>
    requires { 0 < length piece.old }
    ensures stream { before_left bytes.old.items (S.left source.old) ≡ before_left bytes.new.items (S.left source.new) }
    ensures more { IfOk result (λ filled. filled ≡ Filled.More → length bytes.old.items < length bytes.new.items) }
    ensures within { length bytes.new.items ≤ length bytes.old.items + length piece.old }
    ensures end { IfOk result (λ filled. filled ≡ Filled.End → IsNothingLeft (S.left source.new)) }
    ensures cause { IfOk result (λ filled. filled ≡ Filled.Failed → Rose (S.faults source.old) (S.faults source.new)) }
    ensures same { IfOk result (λ filled. filled ≡ Filled.End → bytes.new.items ≡ bytes.old.items) }
    ensures never_falls { S.faults source.old ≤ S.faults source.new }
{
    bytes.reserve(piece.len())?;
    match source.read(piece) {
        Ok(0) => Ok(Filled::End),
        Ok(count) => match bytes.extend_from_slice(&piece[..count]) {
            Ok(()) => Ok(Filled::More),
            Err(_) => unreachable!(),
        },
        Err(_) => Ok(Filled::Failed),
    }
}
