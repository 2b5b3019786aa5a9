//! Where the program's bytes come from and go to: a source tells the bytes that it has left, a sink those that it
//! holds, a keeper those under its paths, and each counts its faults. A fault is answered only where that count rose,
//! so each fault has a cause; what a real file or terminal holds is told by none of them and so never proved.
#![tactic(auto)]

pub mod failing;
pub mod gate;
pub mod keeper;
pub mod memory;
pub mod pieces;
pub mod real;
pub mod sink;
pub mod source;
pub mod steady;

pub use failing::FailingCalls;
pub use gate::{Gate, OpenGate};
pub use keeper::{Held, KeepFault, Keeper, MOST_HELD};
pub use memory::{MemoryKeeper, MemorySink, MemorySource};
pub use pieces::InPieces;
pub use real::{FileKeeper, ReaderSource, WriterSink};
pub use sink::{Sink, SinkFault, write_all};
pub use source::{ReadEnd, ReadFailed, ReadSoFar, Source, read_up_to};
pub use steady::{SteadyKeeper, SteadySink, SteadySource};
