//! Where the bytes of an archive come from and where the text of an answer goes: shelves of named
//! sources and sinks of bytes, as traits, with one of each in memory and one of each over the
//! system; the calls that read and write whole texts, and long ones piece by piece; and the gate that
//! a worker passes before each of its jobs.
#![tactic(auto)]

mod calls;
mod faults;
mod file_shelf;
mod gates;
mod memory_shelf;
mod memory_sink;
mod named;
mod pieces;
mod shelves;
mod sinks;
mod std_sink;
mod texts;

pub use faults::Failed;
pub use file_shelf::FileShelf;
pub use gates::{Gate, OpenGate};
pub use memory_shelf::MemoryShelf;
pub use memory_sink::MemorySink;
pub use named::Named;
pub use pieces::{Cut, flush, flush_long};
pub use shelves::Shelf;
pub use sinks::Sink;
pub use std_sink::StdSink;
pub use texts::{TakeFault, put_all, take_all};
