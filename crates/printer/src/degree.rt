//! Degrees of a stream.
ghost use Rattle.std.specs.Prelude.{◌≡◌, ◌++◌, ℕ, ◌+◌, ◌<◌, ◌≤◌, length, slice_get, slice_index_or, codes, decimal};
ghost use Rattle.ps_model.specs.BlockText.{terms_of_degree};
ghost use Rattle.ps_model.specs.StreamText.{unless_none, lead_line, lines_of};
ghost use Rattle.ps_model.specs.declared.job.Root.{Root as RootOf};
ghost use Rattle.parts.specs.Series.{series};
ghost use Rattle.printer.specs.Texts.{factor_to, lead_to, view_degree_text};
ghost use Rattle.printer.specs.View.{HasUpTo};
ghost use Rattle.printer.specs.Buffered.{Buffered};
ghost use Rattle.printer.specs.Wrote.{Wrote};

use crate::buffer::TextBuffer;
use crate::putting::{flush, put, write_number, write_numbered};
use crate::terms::write_terms;
use crate::view::{BlockView, variables_of};
use ports::{Sink, WriteFault};

/// Writes degree r of a stream: a line that tells the degree, one for the lead where it is shown,
/// and one for each coefficient of each factor, by falling power of Y. The part of degree r of a
/// line is one that isn't 0: there is no line for another.
///
/// The terms of a line stand by falling powers of the first variable, then of the next. On a fault
/// a beginning of the text is written. It takes no memory, and gives the sink about 1,000 bytes at
/// once.
pub fn write_degree<V: BlockView, K: Sink>(sink: &mut K, view: &V, r: u32) -> Result<(), WriteFault>
    requires { HasUpTo (V.value view.now) r }
    ensures { Wrote result (K.written sink.old) (K.written sink.new) (K.faults sink.old)
        (K.faults sink.new) (view_degree_text (V.names view.now) (V.value view.now) r) }
{
    let mut buffer = TextBuffer::new();
    put_degree(sink, &mut buffer, view, r)?;
    flush(sink, &mut buffer)
}

/// Degree r of a stream.
fn put_degree<V: BlockView, K: Sink>(
    sink: &mut K,
    buffer: &mut TextBuffer,
    view: &V,
    r: u32,
) -> Result<(), WriteFault>
    requires { HasUpTo (V.value view.now) r }
    ensures { Buffered result (K.written sink.old) (K.written sink.new) buffer.old
        buffer.new (K.faults sink.old) (K.faults sink.new) (view_degree_text (V.names view.now)
        (V.value view.now) r) }
{
    write_numbered(sink, buffer, b"degree ", u64::from(r))?;
    put(sink, buffer, b"\n")?;
    let shown = view.has_lead();
    if shown {
        write_lead_line(sink, buffer, view, r)?;
    }
    for i in 0..view.factors() {
        write_factor_lines(sink, buffer, view, i, r)?;
    }
    Ok(())
}

/// The line of the lead's terms of degree r, if there are some.
fn write_lead_line<V: BlockView, K: Sink>(
    sink: &mut K,
    buffer: &mut TextBuffer,
    view: &V,
    r: u32,
) -> Result<(), WriteFault>
    requires { HasUpTo (V.value view.now) r }
    ensures { Buffered result (K.written sink.old) (K.written sink.new) buffer.old
        buffer.new (K.faults sink.old) (K.faults sink.new)
        (lead_line (series (V.value view.now).ring) (V.names view.now)
        (Some (lead_to (V.value view.now) r)) r) }
{
    let terms = view.lead_part(r).terms();
    if terms.is_empty() {
        return Ok(());
    }
    put(sink, buffer, b"lead: ")?;
    write_terms(sink, buffer, &variables_of(view), terms, false)?;
    put(sink, buffer, b"\n")
}

/// The lines of the factor at place i, by falling power of Y.
fn write_factor_lines<V: BlockView, K: Sink>(
    sink: &mut K,
    buffer: &mut TextBuffer,
    view: &V,
    i: u32,
    r: u32,
) -> Result<(), WriteFault>
    requires factor { i < length (V.value view.now).roots }
    requires known { HasUpTo (V.value view.now) r }
    ensures { (root : RootOf) → slice_get (V.value view.now).roots i ≡ Some root
        → Buffered result (K.written sink.old) (K.written sink.new) buffer.old
        buffer.new (K.faults sink.old) (K.faults sink.new)
        (lines_of (series (V.value view.now).ring) (V.names view.now) r
        (i + 1) (factor_to (V.value view.now) r i) root.times) }
{
    let times = view.root(i).times;
    for power in (0..=times).rev() {
        write_power_line(sink, buffer, view, i, power, r)?;
    }
    Ok(())
}

/// The line of the terms of degree r at `Y^power` of the factor at place i, if there are some.
fn write_power_line<V: BlockView, K: Sink>(
    sink: &mut K,
    buffer: &mut TextBuffer,
    view: &V,
    i: u32,
    power: u32,
    r: u32,
) -> Result<(), WriteFault>
    requires factor { i < length (V.value view.now).roots }
    requires power { (root : RootOf) →
        power ≤ (slice_index_or (V.value view.now).roots i root).times }
    requires known { HasUpTo (V.value view.now) r }
    ensures { Buffered result (K.written sink.old) (K.written sink.new) buffer.old
        buffer.new (K.faults sink.old) (K.faults sink.new) (unless_none (V.names view.now)
        (decimal (i + 1) ++ codes " Y^" ++ decimal power ++ codes ": ")
        (terms_of_degree (series (V.value view.now).ring) (factor_to (V.value view.now) r i)
        power r)) }
{
    let terms = view.part(i, power, r).terms();
    let none = terms.is_empty();
    if none {
        return Ok(());
    }
    write_number(sink, buffer, u64::from(i) + 1)?;
    write_numbered(sink, buffer, b" Y^", u64::from(power))?;
    put(sink, buffer, b": ")?;
    write_terms(sink, buffer, &variables_of(view), terms, false)?;
    put(sink, buffer, b"\n")
}
