//! The text of a stream.
ghost use Rattle.std.specs.Prelude.{◌++◌, ◌≤◌, codes, decimal};
ghost use Rattle.ps_model.specs.BlockText.{newline};
ghost use Rattle.printer.specs.View.{HasUpTo};
ghost use Rattle.printer.specs.Wrote.{Wrote};
ghost use Rattle.session.specs.ViewTexts.{view_stream_text};

use itoa::Buffer;
use ports::{Sink, WriteFault, put_all};
use printer::{BlockView, write_degree};

/// Writes the stream up to degree d: a line that tells it, the degrees from 0 on, and a last line.
pub fn write_stream<V: BlockView, K: Sink>(sink: &mut K, view: &V, d: u32) -> Result<(), WriteFault>
    requires known { HasUpTo (V.value view.now) d }
    requires low { d ≤ 4095 }
    ensures { Wrote result (K.written sink.old) (K.written sink.new) (K.faults sink.old)
        (K.faults sink.new) (view_stream_text (V.names view.now) (V.value view.now) d) }
{
    write_first_line(sink, d)?;
    for r in 0..d + 1 {
        write_degree(sink, view, r)?;
    }
    put(sink, b"end\n")
}

/// The line that a stream begins with.
pub(crate) fn write_first_line<K: Sink>(sink: &mut K, d: u32) -> Result<(), WriteFault>
    ensures { Wrote result (K.written sink.old) (K.written sink.new) (K.faults sink.old)
        (K.faults sink.new) (codes "stream " ++ decimal d ++ newline) }
{
    put(sink, b"stream ")?;
    write_number(sink, d)?;
    put(sink, b"\n")
}

/// A number, in decimal.
fn write_number<K: Sink>(sink: &mut K, number: u32) -> Result<(), WriteFault>
    ensures { Wrote result (K.written sink.old) (K.written sink.new) (K.faults sink.old)
        (K.faults sink.new) (decimal number) }
{
    let mut buffer = Buffer::new();
    put(sink, buffer.format(number).as_bytes())
}

/// A piece of a text, as it is.
pub(crate) fn put<K: Sink>(sink: &mut K, piece: &[u8]) -> Result<(), WriteFault>
    ensures { Wrote result (K.written sink.old) (K.written sink.new) (K.faults sink.old)
        (K.faults sink.new) piece.now }
{
    put_all(sink, piece)
}
