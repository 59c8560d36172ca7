//! What a request for factors asks for, written: a block, or a stream.
ghost use Rattle.std.specs.Prelude.{◌≤◌};
ghost use Rattle.printer.specs.View.{HasUpTo};
ghost use Rattle.printer.specs.Wrote.{Wrote};
ghost use Rattle.script.specs.Requests.{precision_of};
ghost use Rattle.commands.specs.Streams.{view_answer};

use ports::{Sink, WriteFault};
use printer::{BlockView, write_block};
use script::Request;
use session::write_stream;

/// Writes what a request asks for, of a view that has it.
pub(crate) fn write_answer<V: BlockView, K: Sink>(
    sink: &mut K,
    view: &V,
    request: Request,
) -> Result<(), WriteFault>
    requires known { HasUpTo (V.value view.now) (precision_of request) }
    requires low { precision_of request ≤ 4095 }
    ensures { Wrote result (K.written sink.old) (K.written sink.new) (K.faults sink.old)
        (K.faults sink.new) (view_answer (V.names view.now) (V.value view.now) request) }
{
    match request {
        Request::Show { precision } => write_block(sink, view, precision),
        Request::Stream { precision } => write_stream(sink, view, precision),
    }
}
