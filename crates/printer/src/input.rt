//! Inputs.
ghost use Rattle.std.specs.Prelude.{◌≡◌, ◌≤◌, ◌<◌, suc, length, take};
ghost use Rattle.ps_model.specs.InputText.{input_text};
ghost use Rattle.parts.specs.Rings.{variables_of};
ghost use Rattle.parts.specs.RowsOfParts.{parts_in, AreRowsOfParts};
ghost use Rattle.parts.specs.Series.{series, polynomial_of};
ghost use Rattle.printer.specs.Texts.{degree_of};
ghost use Rattle.printer.specs.Buffered.{Buffered};
ghost use Rattle.printer.specs.Wrote.{Wrote};

use crate::buffer::TextBuffer;
use crate::coefficients::ListedParts;
use crate::lines::{write_lines, write_precision};
use crate::putting::{flush, put, write_numbered};
use crate::terms::Variables;
use parts::{Part, Ring};
use ports::{Sink, WriteFault};
use ps_model::NameView;
use std::sync::Arc;

/// Writes an input up to degree d: a line for the precision, one for its degree in Y, and one for
/// each coefficient, by falling power of Y. `rows[r]` has the parts of degree r, by power of Y from
/// 0 on; all rows have one length, from 1 to 33.
///
/// The terms of a line stand by rising degree, those of one degree by falling powers of the first
/// variable, then of the next. On a fault a beginning of the text is written. It takes no memory,
/// and gives the sink about 1,000 bytes at once.
pub fn write_input<N: NameView, K: Sink>(
    sink: &mut K,
    names: &N,
    ring: Ring,
    rows: &[Vec<Arc<Part>>],
    d: u32,
) -> Result<(), WriteFault>
    requires named { variables_of ring ≤ length (N.names names.now) }
    requires known { d < length rows.now }
    requires rows { AreRowsOfParts ring (degree_of (parts_in rows.now)) (parts_in rows.now) }
    requires few { degree_of (parts_in rows.now) ≤ 32 }
    ensures { Wrote result (K.written sink.old) (K.written sink.new) (K.faults sink.old)
        (K.faults sink.new) (input_text (series ring) (N.names names.now)
        (degree_of (parts_in rows.now))
        (polynomial_of ring (take (suc d) (parts_in rows.now))) d) }
{
    let mut buffer = TextBuffer::new();
    put_input(sink, &mut buffer, names, ring, rows, d)?;
    flush(sink, &mut buffer)
}

/// An input up to degree d.
fn put_input<N: NameView, K: Sink>(
    sink: &mut K,
    buffer: &mut TextBuffer,
    names: &N,
    ring: Ring,
    rows: &[Vec<Arc<Part>>],
    d: u32,
) -> Result<(), WriteFault>
    requires named { variables_of ring ≤ length (N.names names.now) }
    requires known { d < length rows.now }
    requires rows { AreRowsOfParts ring (degree_of (parts_in rows.now)) (parts_in rows.now) }
    requires few { degree_of (parts_in rows.now) ≤ 32 }
    ensures { Buffered result (K.written sink.old) (K.written sink.new) buffer.old
        buffer.new (K.faults sink.old) (K.faults sink.new) (input_text (series ring)
        (N.names names.now) (degree_of (parts_in rows.now))
        (polynomial_of ring (take (suc d) (parts_in rows.now))) d) }
{
    let degree = rows[0].len() as u32 - 1;
    write_precision(sink, buffer, d)?;
    write_numbered(sink, buffer, b"input degree ", u64::from(degree))?;
    put(sink, buffer, b"\n")?;
    let variables = Variables {
        names,
        count: ring.n(),
    };
    write_lines(sink, buffer, &variables, &ListedParts { rows }, degree, d)
}
