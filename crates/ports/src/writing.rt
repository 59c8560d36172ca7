ghost use Rattle.std.specs.Prelude.{◌≡◌, ◌≤◌, OnErr, OnOk};
ghost use Rattle.ports.specs.Bytes.{WritesAll, WritesPart};
ghost use Rattle.ports.specs.Faults.{Rose};

use crate::sink::{Pushed, Sink};
use std::error::Error;
use std::fmt;

/// A sink failed before it had taken a whole text.
#[derive(Clone, Copy, Debug, PartialEq, Eq)]
pub struct WriteFault;

impl fmt::Display for WriteFault {
    ghost use Rattle.std.specs.Prelude.{Some, codes};

    ghost output = { λ _. Some (codes "write failed") };

    fn fmt<W: fmt::Write>(&self, f: &mut fmt::Formatter<W>) -> fmt::Result {
        write!(f, "write failed")
    }
}

impl Error for WriteFault {}

/// Pushes the piece until the sink has taken all of it. An empty piece takes no push.
pub fn put_all<K: Sink>(sink: &mut K, piece: &[u8]) -> Result<(), WriteFault>
    ensures ok { OnOk result (WritesAll (K.written sink.old) (K.written sink.new) piece.now) }
    ensures err { OnErr result (WritesPart (K.written sink.old) (K.written sink.new) piece.now) }
    ensures no_fault { OnOk result (K.faults sink.new ≡ K.faults sink.old) }
    ensures fault { OnErr result (Rose (K.faults sink.old) (K.faults sink.new)) }
    ensures faults { K.faults sink.old ≤ K.faults sink.new }
{
    let mut done = 0;
    while done < piece.len() {
        match sink.push(&piece[done..]) {
            Pushed::Took(count) => done += count as usize,
            Pushed::Failed => return Err(WriteFault),
        }
    }
    Ok(())
}
