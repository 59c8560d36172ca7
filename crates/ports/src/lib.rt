//! Where bytes come from and go: sources and sinks with a written meaning, and the lines of a
//! source.
#![tactic(auto)]

// sources: the trait, and what a pull answers
mod source;

// sinks: the trait, and what a push answers
mod sink;

// a whole text into a sink
mod writing;

// bytes copied to the front of a slice
mod copying;

// a source and a sink that never fail
mod calm;

// a source of given pieces that fails where it is told to
mod memory_source;

// a sink with a given room
mod memory_sink;

// a source over a reader, and a sink over a writer, of the standard library
mod read_source;
mod write_sink;

// standard input and output
mod standard;

// the lines of a source
mod lines;
#[cfg(test)]
mod tests;

pub use calm::{CalmSink, CalmSource};
pub use lines::{Lines, NextLine};
pub use memory_sink::MemorySink;
pub use memory_source::MemorySource;
pub use read_source::ReadSource;
pub use sink::{Pushed, Sink};
pub use source::{Pulled, Source};
pub use standard::{StdSink, StdSource};
pub use write_sink::WriteSink;
pub use writing::{WriteFault, put_all};
