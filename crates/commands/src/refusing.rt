//! Refusals of scripts.
ghost use Rattle.script.specs.Refusals.{line_refused, end_refused};
ghost use Rattle.commands.specs.Lines.{Refuses};

use crate::stop::Stop;
use ports::{Sink, put_all};
use script::Refusal;
use std::alloc::{AllocError, Global};

/// Writes the line that refuses the script at the line with this number, and answers why the run
/// ends: since it is refused, or since that can't be told.
pub fn refuse_line<K: Sink>(alloc: Global, sink: &mut K, number: u32, refusal: Refusal) -> Stop
    ensures { Refuses result (K.written sink.old) (K.written sink.new) (K.faults sink.old) (K.faults sink.new)
        (line_refused number refusal) }
{
    match format!(in alloc; "refused line {number}: {refusal}\n") {
        Ok(text) => tell(sink, text.as_bytes()),
        Err(_) => Stop::OutOfMemory,
    }
}

/// The same of a script that is refused at its end.
pub fn refuse_end<K: Sink>(alloc: Global, sink: &mut K, refusal: Refusal) -> Stop
    ensures { Refuses result (K.written sink.old) (K.written sink.new) (K.faults sink.old) (K.faults sink.new)
        (end_refused refusal) }
{
    match format!(in alloc; "refused end: {refusal}\n") {
        Ok(text) => tell(sink, text.as_bytes()),
        Err(_) => Stop::OutOfMemory,
    }
}

/// Writes the line of a refusal.
fn tell<K: Sink>(sink: &mut K, line: &[u8]) -> Stop
    ensures { Refuses result (K.written sink.old) (K.written sink.new) (K.faults sink.old) (K.faults sink.new)
        line.now }
{
    match put_all(sink, line) {
        Ok(()) => Stop::Refused,
        Err(_) => Stop::WriteFault,
    }
}
