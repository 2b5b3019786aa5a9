//! A source of bytes, and the reading of it up to a limit. What was read and what is left are together what was
//! left before, at each ending, so that no byte is lost at a fault or for want of memory.
ghost use Rattle.std.specs.Prelude.{◌≡◌, ◌≢◌, ℕ, List, ◌<◌, ◌≤◌, ◌+◌, ◌↔◌, length, take, vec_len, IfOk, OnErr, IfSome, IfNone, OnSome};
ghost use Rattle.std.specs.declared.option.Option.{Option};
ghost use Rattle.io_ports.specs.Bytes.{before_left, IsNothingLeft};
ghost use Rattle.io_ports.specs.Counts.{Rose};

use std::alloc::Global;

/// How many bytes are asked for in one read, at most.
const PIECE: usize = 4096;

/// A read that failed, and moved nothing.
#[derive(Clone, Copy, PartialEq, Eq, Debug)]
pub struct ReadFailed;

/// Gives bytes, and counts its faults.
pub trait Source {
    /// The bytes left, where the source tells them.
    ghost left: { Self → Option (List ℕ) };

    /// How many calls failed.
    ghost faults: { Self → ℕ };

    /// Moves the first of the bytes left to the front of the buffer, and says how many: none only where nothing
    /// is left. What the buffer holds after them is not said.
    fn read(&mut self, buf: &mut [u8]) -> Result<usize, ReadFailed>
        requires { 0 < length buf.old }

        ensures bound { IfOk result (λ count. count ≤ length buf.new) }
        ensures moved { IfOk result (λ count.
            left self.old ≡ before_left (take count buf.new) (left self.new)) }
        ensures end { IfOk result (λ count. count ≡ 0 → IsNothingLeft (left self.new)) }
        ensures kept { OnErr result (left self.new ≡ left self.old) }

        ensures never_falls { faults self.old ≤ faults self.new }
        ensures cause { OnErr result (Rose (faults self.old) (faults self.new)) };
}

/// Why a reading up to a limit stopped.
#[derive(Clone, Copy, PartialEq, Eq, Debug)]
pub enum ReadEnd {
    /// Nothing is left.
    End,
    /// As many bytes were read as the limit says; whether more are left was not asked.
    Limit,
    /// A read failed.
    Failed,
    /// No memory was left for a further piece, which was therefore not read.
    OutOfMemory,
}

/// The bytes that were read, and why the reading stopped.
#[derive(Drop, Debug)]
pub struct ReadSoFar {
    pub bytes: Vec<u8>,
    pub end: ReadEnd,
}

/// Reads until nothing is left or until as many bytes as the limit were read.
pub fn read_up_to<S: Source>(alloc: Global, source: &mut S, limit: usize) -> ReadSoFar
    ensures kept { S.left source.old ≡ before_left result.bytes.items (S.left source.new) }
    ensures within { length result.bytes.items ≤ limit }

    // Which ending comes when: want of memory may come at any piece, and the others only so.
    ensures end { result.end ≡ ReadEnd.End → IsNothingLeft (S.left source.new) }
    ensures whole { result.end ≡ ReadEnd.End →
        IfSome (S.left source.old) (λ all. result.bytes.items ≡ all) }
    ensures limit { (result.end ≡ ReadEnd.Limit) ↔ (length result.bytes.items ≡ limit) }
    ensures cause { result.end ≡ ReadEnd.Failed → Rose (S.faults source.old) (S.faults source.new) }

    ensures never_falls { S.faults source.old ≤ S.faults source.new }
{
    let mut bytes = Vec::new(alloc);
    let mut piece = [0u8; PIECE];
    while bytes.len() < limit {
        let room = PIECE.min(limit - bytes.len());
        if let Some(end) = read_piece(source, &mut bytes, &mut piece[..room]) {
            return ReadSoFar { bytes, end };
        }
    }
    ReadSoFar {
        bytes,
        end: ReadEnd::Limit,
    }
}

/// Moves one piece, of at most the length of `piece`, to the end of `bytes`, or says why nothing was moved.
/// Room for the piece is taken before it is read, so that want of memory loses no byte.
fn read_piece<S: Source>(source: &mut S, bytes: &mut Vec<u8>, piece: &mut [u8]) -> Option<ReadEnd>
    requires { 0 < length piece.old }

    ensures kept { before_left bytes.old.items (S.left source.old) ≡
        before_left bytes.new.items (S.left source.new) }
    ensures grown { IfNone result (vec_len bytes.old < vec_len bytes.new) }
    ensures within { vec_len bytes.new ≤ vec_len bytes.old + length piece.old }
    ensures same { OnSome result (bytes.new.items ≡ bytes.old.items) }

    ensures not_limit { IfSome result (λ end. end ≢ ReadEnd.Limit) }
    ensures end { IfSome result (λ end. end ≡ ReadEnd.End → IsNothingLeft (S.left source.new)) }
    ensures cause { IfSome result (λ end.
        end ≡ ReadEnd.Failed → Rose (S.faults source.old) (S.faults source.new)) }
    ensures never_falls { S.faults source.old ≤ S.faults source.new }
{
    if bytes.reserve(piece.len()).is_err() {
        return Some(ReadEnd::OutOfMemory);
    }
    match source.read(piece) {
        Ok(0) => Some(ReadEnd::End),
        Ok(count) => match bytes.extend_from_slice(&piece[..count]) {
            Ok(()) => None,
            Err(_) => unreachable!(),
        },
        Err(_) => Some(ReadEnd::Failed),
    }
}
