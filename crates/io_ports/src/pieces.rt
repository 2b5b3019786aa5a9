//! A source or a sink that moves at most a given number of bytes a call, for claims that hold whatever the pieces.
//! What it has left or holds, and its count of faults, are those of the source or sink inside.
ghost use Rattle.std.specs.Prelude.{◌≡◌, ◌≤◌, ◌<◌, length, take, IfOk, OnErr};
ghost use Rattle.io_ports.specs.Bytes.{before_left, after_held, IsNothingLeft};
ghost use Rattle.io_ports.specs.Counts.{Rose};

use crate::sink::{Sink, SinkFault};
use crate::source::{ReadFailed, Source};
use std::alloc::Global;

/// A source or a sink, and how many bytes one call moves at most.
#[derive(Drop, Debug)]
pub struct InPieces<S> {
    pub inner: S,
    pub size: usize,
    pub ghost some: { 1 ≤ size },
}

impl<S> InPieces<S> {
    /// Pieces of this size over a source or a sink.
    pub fn new(inner: S, size: usize) -> Self
        requires { 1 ≤ size }
        ensures inner { result.inner ≡ inner }
        ensures size { result.size ≡ size }
    {
        InPieces { inner, size }
    }
}

impl<S: Source> Source for InPieces<S> {
    ghost left = { λ s. S.left s.inner };

    ghost faults = { λ s. S.faults s.inner };

    fn read(&mut self, buf: &mut [u8]) -> Result<usize, ReadFailed>
        requires { 0 < length buf.old }

        ensures piece { IfOk result (λ count. count ≤ self.old.size) }
        ensures size { self.new.size ≡ self.old.size }

        // As of any source.
        ensures bound { IfOk result (λ count. count ≤ length buf.new) }
        ensures moved { IfOk result (λ count.
            S.left self.old.inner ≡ before_left (take count buf.new) (S.left self.new.inner)) }
        ensures end { IfOk result (λ count. count ≡ 0 → IsNothingLeft (S.left self.new.inner)) }
        ensures kept { OnErr result (S.left self.new.inner ≡ S.left self.old.inner) }
        ensures never_falls { S.faults self.old.inner ≤ S.faults self.new.inner }
        ensures cause { OnErr result (Rose (S.faults self.old.inner) (S.faults self.new.inner)) }
    {
        let most = buf.len().min(self.size);
        self.inner.read(&mut buf[..most])
    }
}

impl<S: Sink> Sink for InPieces<S> {
    ghost held = { λ s. S.held s.inner };

    ghost faults = { λ s. S.faults s.inner };

    fn write(&mut self, alloc: Global, bytes: &[u8]) -> Result<usize, SinkFault>
        requires { 0 < length bytes.now }

        ensures piece { IfOk result (λ count. count ≤ self.old.size) }
        ensures size { self.new.size ≡ self.old.size }

        // As of any sink.
        ensures some { IfOk result (λ count. 1 ≤ count) }
        ensures bound { IfOk result (λ count. count ≤ length bytes.now) }
        ensures appended { IfOk result (λ count.
            S.held self.new.inner ≡ after_held (S.held self.old.inner) (take count bytes.now)) }
        ensures kept { OnErr result (S.held self.new.inner ≡ S.held self.old.inner) }
        ensures never_falls { S.faults self.old.inner ≤ S.faults self.new.inner }
        ensures cause { result ≡ Err SinkFault.Failed →
            Rose (S.faults self.old.inner) (S.faults self.new.inner) }
    {
        let most = bytes.len().min(self.size);
        self.inner.write(alloc, &bytes[..most])
    }
}
