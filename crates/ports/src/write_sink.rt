ghost use Rattle.std.specs.Prelude.{◌≡◌, ◌≢◌, ◌<◌, ◌≤◌, length};
ghost use Rattle.ports.specs.Bytes.{AddsBytes, TakesCount};
ghost use Rattle.ports.specs.Faults.{Rose};
ghost use Rattle.ports.specs.Streams.{WritesBytes};

use crate::sink::{Pushed, Sink};
use std::io::Write;
use std::marker::Model;

/// A sink over a writer of the standard library. A write that fails or takes no byte is a fault. It
/// holds no byte back and doesn't flush: what it took is out at once, where the writer itself holds
/// none back, as standard output. The trait isn't told the writer's bytes; a contract sees them
/// where the writer tells them, and the count of faults.
#[derive(Drop)]
pub struct WriteSink<W: Write> {
    writer: W,
    failures: u64,
}

impl<W: Write> Model for WriteSink<W> {
    ghost use Rattle.ports.specs.Streams.{Writer};

    ghost Value = { Writer };

    ghost view = { λ s. record { held = W.contents s.writer; faults = s.failures } };
}

impl<W: Write> WriteSink<W> {
    /// A sink over this writer.
    pub fn new(writer: W) -> WriteSink<W>
        ensures held { result.held ≡ W.contents writer }
        ensures faults { result.faults ≡ 0 }
    {
        WriteSink {
            writer,
            failures: 0,
        }
    }
}

impl<W: Write> Sink for WriteSink<W> {
    ghost use Rattle.std.specs.Prelude.{None};

    ghost written = { λ _. None };

    ghost faults = { λ s. s.faults };

    fn push(&mut self, piece: &[u8]) -> Pushed
        requires { 0 < length piece.now }
        ensures count { TakesCount result (length piece.now) }
        ensures adds { AddsBytes None None piece.now result }
        ensures failed { result ≡ Pushed.Failed → Rose self.old.faults self.new.faults }
        ensures no_fault { result ≢ Pushed.Failed → self.new.faults ≡ self.old.faults }
        ensures faults { self.old.faults ≤ self.new.faults }
        ensures writes { WritesBytes self.old.held self.new.held piece.now result }
    {
        let size = piece.len().min(u32::MAX as usize);
        match self.writer.write(&piece[..size]) {
            Ok(count) if count > 0 => Pushed::Took(count as u32),
            _ => {
                self.failures = self.failures.saturating_add(1);
                Pushed::Failed
            }
        }
    }
}
