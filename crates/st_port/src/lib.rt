//! Where bytes come from and go to: sources and sinks that count their faults.
//!
//! A fault is answered only where the count of that object rose in the call, so no body above can invent one. A contract
//! sees of a source or a sink the record that it tells (`specs/Streams.antt`): the bytes left or taken where they are
//! known, and the count.
#![tactic(auto)]

mod buffered;
mod edge;
mod growing;
mod memory;
mod piece;
mod port;
mod sure;
mod whole;

pub use buffered::Buffered;
pub use edge::{StdSink, StdSource};
pub use growing::TextSink;
pub use memory::{MemSink, MemSource};
pub use piece::Piece;
pub use port::{Failed, ReadEnd, Sink, Source};
pub use sure::{CountSink, SureSource};
pub use whole::{read_all, write_all};

#[cfg(test)]
mod halting_tests;
