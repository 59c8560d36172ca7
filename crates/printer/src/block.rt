//! Blocks.
ghost use Rattle.std.specs.Prelude.{◌≡◌, ◌++◌, ℕ, ◌+◌, ◌<◌, ◌≤◌, IsTrue, length, slice_get, codes, decimal};
ghost use Rattle.ps_model.specs.BlockText.{newline, factor_text, lead_text};
ghost use Rattle.ps_model.specs.declared.job.Root.{Root as RootOf};
ghost use Rattle.parts.specs.Series.{series};
ghost use Rattle.printer.specs.Texts.{factor_to, lead_to, view_text};
ghost use Rattle.printer.specs.View.{HasUpTo};
ghost use Rattle.printer.specs.Buffered.{Buffered};
ghost use Rattle.printer.specs.Wrote.{Wrote};

use crate::buffer::TextBuffer;
use crate::coefficients::{FactorParts, LeadParts};
use crate::lines::{write_coefficient, write_lines, write_precision};
use crate::putting::{flush, put, write_numbered};
use crate::terms::Variables;
use crate::view::{BlockView, variables_of};
use ports::{Sink, WriteFault};
use ps_model::Root;

/// Writes the block of precision d: a line for the precision, one for the lead where it is shown,
/// and for each factor a line of its root and one for each coefficient, by falling power of Y.
///
/// The terms of a line stand by rising degree, those of one degree by falling powers of the first
/// variable, then of the next. On a fault a beginning of the block is written. It goes over the
/// parts once, takes no memory, and gives the sink about 1,000 bytes at once.
pub fn write_block<V: BlockView, K: Sink>(sink: &mut K, view: &V, d: u32) -> Result<(), WriteFault>
    requires { HasUpTo (V.value view.now) d }
    ensures { Wrote result (K.written sink.old) (K.written sink.new) (K.faults sink.old)
        (K.faults sink.new) (view_text (V.names view.now) (V.value view.now) d) }
{
    let mut buffer = TextBuffer::new();
    put_block(sink, &mut buffer, view, d)?;
    flush(sink, &mut buffer)
}

/// The block of precision d.
fn put_block<V: BlockView, K: Sink>(
    sink: &mut K,
    buffer: &mut TextBuffer,
    view: &V,
    d: u32,
) -> Result<(), WriteFault>
    requires { HasUpTo (V.value view.now) d }
    ensures { Buffered result (K.written sink.old) (K.written sink.new) buffer.old
        buffer.new (K.faults sink.old) (K.faults sink.new) (view_text (V.names view.now)
        (V.value view.now) d) }
{
    write_precision(sink, buffer, d)?;
    let shown = view.has_lead();
    if shown {
        write_lead(sink, buffer, view, d)?;
    }
    for i in 0..view.factors() {
        write_factor(sink, buffer, view, i, d)?;
    }
    Ok(())
}

/// The line of the lead.
fn write_lead<V: BlockView, K: Sink>(
    sink: &mut K,
    buffer: &mut TextBuffer,
    view: &V,
    d: u32,
) -> Result<(), WriteFault>
    requires { HasUpTo (V.value view.now) d }
    ensures { Buffered result (K.written sink.old) (K.written sink.new) buffer.old
        buffer.new (K.faults sink.old) (K.faults sink.new)
        (lead_text (series (V.value view.now).ring) (V.names view.now) d
        (Some (lead_to (V.value view.now) d))) }
{
    put(sink, buffer, b"lead: ")?;
    write_coefficient(sink, buffer, &variables_of(view), &LeadParts { view }, 0, d)?;
    put(sink, buffer, b"\n")
}

/// The lines of the factor at place i, from 0; they count it from 1.
fn write_factor<V: BlockView, K: Sink>(
    sink: &mut K,
    buffer: &mut TextBuffer,
    view: &V,
    i: u32,
    d: u32,
) -> Result<(), WriteFault>
    requires factor { i < length (V.value view.now).roots }
    requires known { HasUpTo (V.value view.now) d }
    ensures { (root : RootOf) → slice_get (V.value view.now).roots i ≡ Some root
        → Buffered result (K.written sink.old) (K.written sink.new) buffer.old
        buffer.new (K.faults sink.old) (K.faults sink.new)
        (factor_text (series (V.value view.now).ring) (V.names view.now) d
        (i + 1) root (factor_to (V.value view.now) d i)) }
{
    let root = view.root(i);
    write_head(sink, buffer, u64::from(i) + 1, root)?;
    write_lines(
        sink,
        buffer,
        &variables_of(view),
        &FactorParts { view, factor: i },
        root.times,
        d,
    )
}

/// The first line of the factor with this number.
fn write_head<K: Sink>(
    sink: &mut K,
    buffer: &mut TextBuffer,
    number: u64,
    root: Root,
) -> Result<(), WriteFault>
    ensures { Buffered result (K.written sink.old) (K.written sink.new) buffer.old
        buffer.new (K.faults sink.old) (K.faults sink.new) (codes "factor "
        ++ decimal number ++ codes " root "
        ++ decimal root.value ++ codes " times " ++ decimal root.times ++ newline) }
{
    write_numbered(sink, buffer, b"factor ", number)?;
    write_numbered(sink, buffer, b" root ", root.value)?;
    write_numbered(sink, buffer, b" times ", u64::from(root.times))?;
    put(sink, buffer, b"\n")
}
