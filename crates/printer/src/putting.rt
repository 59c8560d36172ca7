//! Pieces of a text, through a buffer into a sink.
ghost use Rattle.std.specs.Prelude.{◌≡◌, ◌+◌, ◌≤◌, [], ◌++◌, length, decimal, OnOk};
ghost use Rattle.printer.specs.Buffered.{Buffered};
ghost use Rattle.printer.specs.Wrote.{Wrote};

use crate::buffer::TextBuffer;
use ports::{Sink, WriteFault, put_all};

/// How many bytes may be held where 400 more have to fit behind them.
const MOST_HELD: usize = 624;

/// Gives what is held to the sink. It is held no more, also where the sink fails.
pub(crate) fn flush<K: Sink>(sink: &mut K, buffer: &mut TextBuffer) -> Result<(), WriteFault>
    ensures wrote { Wrote result (K.written sink.old) (K.written sink.new) (K.faults sink.old)
        (K.faults sink.new) buffer.old }
    ensures empty { buffer.new ≡ [] }
{
    let result = put_all(sink, buffer.bytes());
    buffer.clear();
    result
}

/// Makes room for 400 bytes.
pub(crate) fn make_room<K: Sink>(sink: &mut K, buffer: &mut TextBuffer) -> Result<(), WriteFault>
    ensures sent { Buffered result (K.written sink.old) (K.written sink.new) buffer.old
        buffer.new (K.faults sink.old) (K.faults sink.new) [] }
    ensures room { OnOk result (length buffer.new ≤ 624) }
{
    if buffer.len() <= MOST_HELD {
        return Ok(());
    }
    flush(sink, buffer)
}

/// A piece, as it is.
pub(crate) fn put<K: Sink>(
    sink: &mut K,
    buffer: &mut TextBuffer,
    piece: &[u8],
) -> Result<(), WriteFault>
    requires { length piece.now ≤ 400 }
    ensures { Buffered result (K.written sink.old) (K.written sink.new) buffer.old
        buffer.new (K.faults sink.old) (K.faults sink.new) piece.now }
{
    make_room(sink, buffer)?;
    buffer.append(piece);
    Ok(())
}

/// A number, in decimal.
pub(crate) fn write_number<K: Sink>(
    sink: &mut K,
    buffer: &mut TextBuffer,
    number: u64,
) -> Result<(), WriteFault>
    ensures { Buffered result (K.written sink.old) (K.written sink.new) buffer.old
        buffer.new (K.faults sink.old) (K.faults sink.new) (decimal number) }
{
    make_room(sink, buffer)?;
    buffer.append_number(number);
    Ok(())
}

/// A piece, and a number behind it.
pub(crate) fn write_numbered<K: Sink>(
    sink: &mut K,
    buffer: &mut TextBuffer,
    piece: &[u8],
    number: u64,
) -> Result<(), WriteFault>
    requires { length piece.now ≤ 400 }
    ensures { Buffered result (K.written sink.old) (K.written sink.new) buffer.old
        buffer.new (K.faults sink.old) (K.faults sink.new) (piece.now ++ decimal number) }
{
    put(sink, buffer, piece)?;
    write_number(sink, buffer, number)
}
