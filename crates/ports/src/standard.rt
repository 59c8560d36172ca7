use crate::read_source::ReadSource;
use crate::write_sink::WriteSink;
use std::rt::{Stdin, Stdout};

/// Standard input. It doesn't tell its bytes; a contract sees the count of faults.
pub type StdSource = ReadSource<Stdin>;

/// Standard output. It doesn't tell its bytes; a contract sees the count of faults.
pub type StdSink = WriteSink<Stdout>;
