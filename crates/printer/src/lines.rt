//! Lines: the terms of one coefficient.
ghost use Rattle.std.specs.Prelude.{◌≡◌, ◌++◌, ℕ, ◌≤◌, false, IfOk, codes, decimal, take};
ghost use Rattle.ps_model.specs.BlockText.{newline, terms_text};
ghost use Rattle.printer.specs.Lines.{listed, has_texts, texts_of, coefficient_line, coefficient_lines};
ghost use Rattle.printer.specs.Rows.{terms_up_to};
ghost use Rattle.printer.specs.Buffered.{Buffered};

use crate::buffer::TextBuffer;
use crate::coefficients::Coefficients;
use crate::putting::{put, write_numbered};
use crate::terms::{Variables, write_terms};
use ports::{Sink, WriteFault};
use ps_model::NameView;

/// The line that tells the precision.
pub(crate) fn write_precision<K: Sink>(
    sink: &mut K,
    buffer: &mut TextBuffer,
    d: u32,
) -> Result<(), WriteFault>
    ensures { Buffered result (K.written sink.old) (K.written sink.new) buffer.old
        buffer.new (K.faults sink.old) (K.faults sink.new) (codes "precision " ++ decimal d ++ newline) }
{
    write_numbered(sink, buffer, b"precision ", u64::from(d))?;
    put(sink, buffer, b"\n")
}

/// The lines of the coefficients from `Y^top` down to Y^0, up to degree d.
pub(crate) fn write_lines<N: NameView, C: Coefficients, K: Sink>(
    sink: &mut K,
    buffer: &mut TextBuffer,
    variables: &Variables<'_, N>,
    coefficients: &C,
    top: u32,
    d: u32,
) -> Result<(), WriteFault>
    requires { (power r : ℕ) → power ≤ top → r ≤ d → C.Has coefficients.now power r }
    ensures { Buffered result (K.written sink.old) (K.written sink.new) buffer.old
        buffer.new (K.faults sink.old) (K.faults sink.new) (coefficient_lines (take variables.now.count
        (N.names variables.now.names.now)) d (C.part_of coefficients.now) top) }
{
    for power in (0..=top).rev() {
        write_line(sink, buffer, variables, coefficients, power, d)?;
    }
    Ok(())
}

/// The line of the coefficient of `Y^power`.
fn write_line<N: NameView, C: Coefficients, K: Sink>(
    sink: &mut K,
    buffer: &mut TextBuffer,
    variables: &Variables<'_, N>,
    coefficients: &C,
    power: u32,
    d: u32,
) -> Result<(), WriteFault>
    requires { (r : ℕ) → r ≤ d → C.Has coefficients.now power r }
    ensures { Buffered result (K.written sink.old) (K.written sink.new) buffer.old
        buffer.new (K.faults sink.old) (K.faults sink.new) (coefficient_line (take variables.now.count
        (N.names variables.now.names.now)) d (C.part_of coefficients.now) power) }
{
    write_numbered(sink, buffer, b"Y^", u64::from(power))?;
    put(sink, buffer, b": ")?;
    write_coefficient(sink, buffer, variables, coefficients, power, d)?;
    put(sink, buffer, b"\n")
}

/// The terms of the degrees 0 to d of the coefficient of `Y^power`, or `0`.
pub(crate) fn write_coefficient<N: NameView, C: Coefficients, K: Sink>(
    sink: &mut K,
    buffer: &mut TextBuffer,
    variables: &Variables<'_, N>,
    coefficients: &C,
    power: u32,
    d: u32,
) -> Result<(), WriteFault>
    requires { (r : ℕ) → r ≤ d → C.Has coefficients.now power r }
    ensures { Buffered result (K.written sink.old) (K.written sink.new) buffer.old
        buffer.new (K.faults sink.old) (K.faults sink.new) (terms_text (take variables.now.count
        (N.names variables.now.names.now)) (terms_up_to (C.part_of coefficients.now power) d)) }
{
    if !write_degrees(sink, buffer, variables, coefficients, power, d)? {
        return put(sink, buffer, b"0");
    }
    Ok(())
}

/// The terms of the degrees 0 to d, in this order; whether there are some.
fn write_degrees<N: NameView, C: Coefficients, K: Sink>(
    sink: &mut K,
    buffer: &mut TextBuffer,
    variables: &Variables<'_, N>,
    coefficients: &C,
    power: u32,
    d: u32,
) -> Result<bool, WriteFault>
    requires { (r : ℕ) → r ≤ d → C.Has coefficients.now power r }
    ensures wrote { Buffered result (K.written sink.old) (K.written sink.new) buffer.old
        buffer.new (K.faults sink.old) (K.faults sink.new) (listed false (texts_of (take variables.now.count
        (N.names variables.now.names.now)) (terms_up_to (C.part_of coefficients.now power) d))) }
    ensures some { IfOk result (λ some. some ≡ has_texts (texts_of (take variables.now.count
        (N.names variables.now.names.now)) (terms_up_to (C.part_of coefficients.now power) d))) }
{
    let mut some = false;
    for r in 0..=d {
        let terms = coefficients.part(power, r).terms();
        write_terms(sink, buffer, variables, terms, some)?;
        if !terms.is_empty() {
            some = true;
        }
    }
    Ok(some)
}
