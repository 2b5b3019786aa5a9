//! A sink of bytes, and the writing of all of a slice to it. Where a fault stops the writing, what was appended is
//! a front of the bytes.
ghost use Rattle.std.specs.Prelude.{◌≡◌, ℕ, List, [], ◌<◌, ◌≤◌, length, take, IfOk, OnOk, OnErr};
ghost use Rattle.std.specs.declared.option.Option.{Option};
ghost use Rattle.io_ports.specs.Bytes.{after_held, AppendsFront};
ghost use Rattle.io_ports.specs.Counts.{Rose};

use std::alloc::Global;

/// Why nothing was written.
#[derive(Clone, Copy, PartialEq, Eq, Debug)]
pub enum SinkFault {
    Failed,
    OutOfMemory,
}

/// Takes bytes, and counts its faults.
pub trait Sink {
    /// The bytes held, where the sink tells them.
    ghost held: { Self → Option (List ℕ) };

    /// How many calls failed.
    ghost faults: { Self → ℕ };

    /// Appends the first of the bytes, at least one, and says how many. Want of memory may come at any call.
    fn write(&mut self, alloc: Global, bytes: &[u8]) -> Result<usize, SinkFault>
        requires { 0 < length bytes.now }

        ensures some { IfOk result (λ count. 1 ≤ count) }
        ensures bound { IfOk result (λ count. count ≤ length bytes.now) }
        ensures appended { IfOk result (λ count.
            held self.new ≡ after_held (held self.old) (take count bytes.now)) }
        ensures kept { OnErr result (held self.new ≡ held self.old) }

        ensures never_falls { faults self.old ≤ faults self.new }
        ensures cause { result ≡ Err SinkFault.Failed → Rose (faults self.old) (faults self.new) };
}

/// Writes all of the bytes, in as many calls as the sink wants, or stops at the first fault.
pub fn write_all<S: Sink>(alloc: Global, sink: &mut S, bytes: &[u8]) -> Result<(), SinkFault>
    ensures all { OnOk result (S.held sink.new ≡ after_held (S.held sink.old) bytes.now) }
    ensures front { OnErr result (AppendsFront (S.held sink.old) (S.held sink.new) bytes.now) }
    ensures empty { bytes.now ≡ [] → sink.new ≡ sink.old }

    ensures never_falls { S.faults sink.old ≤ S.faults sink.new }
    ensures cause { result ≡ Err SinkFault.Failed → Rose (S.faults sink.old) (S.faults sink.new) }
{
    let mut written = 0;
    while written < bytes.len() {
        match sink.write(alloc, &bytes[written..]) {
            Ok(count) => written += count,
            Err(fault) => return Err(fault),
        }
    }
    Ok(())
}
