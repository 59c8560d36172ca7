//! A demonstration, written.
ghost use Rattle.std.specs.Prelude.{◌≡◌, ℕ, ◌+◌, ◌^◌, ◌≤◌, List, OnOk, OnErr, IfErr};
ghost use Rattle.ports.specs.Bytes.{WritesAll, WritesPart};
ghost use Rattle.ports.specs.Faults.{Rose};
ghost use Rattle.demo.specs.DemoText.{IsDemoText};
ghost use Rattle.demo.specs.declared.fault.DemoFault.TheVariants.{Write, OutOfMemory};

use crate::fault::DemoFault;
use crate::raising::raised;
use crate::texts::text;
use ports::{Sink, put_all};
use prepare::Tally;
use std::alloc::Global;

/// Makes the job of a number, finds its factors up to degree 40, and writes their summary.
///
/// The 164 steps are those of four roots and 41 degrees. All is found before anything is written,
/// and the text goes to the sink at once.
pub fn write_demo<K: Sink>(
    alloc: Global,
    seed: u64,
    sink: &mut K,
    tally: &mut Tally,
) -> Result<(), DemoFault>
    requires tally { tally.old ≤ 2 ^ 61 }
    ensures ok { OnOk result ((text : List ℕ) → IsDemoText seed text
        → WritesAll (K.written sink.old) (K.written sink.new) text) }
    ensures err { OnErr result ((text : List ℕ) → IsDemoText seed text
        → WritesPart (K.written sink.old) (K.written sink.new) text) }
    ensures no_fault { OnOk result (K.faults sink.new ≡ K.faults sink.old) }
    ensures fault { IfErr result (λ e. e ≡ Write → Rose (K.faults sink.old) (K.faults sink.new)) }
    ensures nothing { IfErr result (λ e. e ≡ OutOfMemory
        → K.written sink.new ≡ K.written sink.old) }
    ensures memory { IfErr result (λ e. e ≡ OutOfMemory → K.faults sink.new ≡ K.faults sink.old) }
    ensures faults { K.faults sink.old ≤ K.faults sink.new }
    ensures steps { OnOk result (tally.new ≡ tally.old + 164) }
    ensures more { tally.old ≤ tally.new }
    ensures at_most { tally.new ≤ tally.old + 164 }
{
    let session = raised(alloc, seed, tally)?;
    let degree = session.job().degree();
    let text = text(alloc, seed, degree, &session)?;
    put_all(sink, text.as_bytes())?;
    Ok(())
}
