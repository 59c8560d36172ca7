ghost use Rattle.std.specs.Prelude.{◌≡◌, ◌≢◌, ◌<◌, ◌≤◌, length};
ghost use Rattle.ports.specs.Bytes.{GivesCount, MovesBytes};
ghost use Rattle.ports.specs.Faults.{Rose};
ghost use Rattle.ports.specs.Streams.{ReadsBytes};

use crate::source::{Pulled, Source};
use std::io::Read;
use std::marker::Model;

/// A source over a reader of the standard library. A read that gives no byte is the end, and one
/// that fails is a fault. The trait isn't told the reader's bytes; a contract sees them where the
/// reader tells them, and the count of faults.
#[derive(Drop)]
pub struct ReadSource<R: Read> {
    reader: R,
    failures: u64,
}

impl<R: Read> Model for ReadSource<R> {
    ghost use Rattle.ports.specs.Streams.{Reader};

    ghost Value = { Reader };

    ghost view = { λ s. record { left = R.remaining s.reader; faults = s.failures } };
}

impl<R: Read> ReadSource<R> {
    /// A source over this reader.
    pub fn new(reader: R) -> ReadSource<R>
        ensures left { result.left ≡ R.remaining reader }
        ensures faults { result.faults ≡ 0 }
    {
        ReadSource {
            reader,
            failures: 0,
        }
    }
}

impl<R: Read> Source for ReadSource<R> {
    ghost use Rattle.std.specs.Prelude.{None};

    ghost left = { λ _. None };

    ghost faults = { λ s. s.faults };

    fn pull(&mut self, into: &mut [u8]) -> Pulled
        requires { 0 < length into.old }
        ensures count { GivesCount result (length into.new) }
        ensures moves { MovesBytes None None into.new result }
        ensures failed { result ≡ Pulled.Failed → Rose self.old.faults self.new.faults }
        ensures no_fault { result ≢ Pulled.Failed → self.new.faults ≡ self.old.faults }
        ensures faults { self.old.faults ≤ self.new.faults }
        ensures reads { ReadsBytes self.old.left self.new.left into.new result }
    {
        let room = into.len().min(u32::MAX as usize);
        match self.reader.read(&mut into[..room]) {
            Ok(0) => Pulled::End,
            Ok(count) => Pulled::Bytes(count as u32),
            Err(_) => {
                self.failures = self.failures.saturating_add(1);
                Pulled::Failed
            }
        }
    }
}
