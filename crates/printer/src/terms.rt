//! Terms, as text.
ghost use Rattle.std.specs.Prelude.{◌≡◌, ℕ, ◌+◌, ◌≤◌, ◌++◌, length, map, take};
ghost use Rattle.ps_model.specs.BlockText.{power_text, term_text};
ghost use Rattle.parts.specs.Terms.{entry_of};
ghost use Rattle.printer.specs.Lines.{sign, listed, texts_of};
ghost use Rattle.printer.specs.Buffered.{Buffered};

use crate::buffer::TextBuffer;
use crate::putting::make_room;
use parts::Term;
use ports::{Sink, WriteFault};
use ps_model::NameView;

/// The names of the variables: the first `count` of `names`.
#[derive(Drop)]
pub(crate) struct Variables<'n, N: NameView> {
    pub names: &'n N,
    pub count: u32,
    pub ghost named: { count ≤ length (N.names names.now) },
    pub ghost few: { count ≤ 8 },
}

/// Terms, joined by plus signs; the first one has such a sign before it where `some` were written.
pub(crate) fn write_terms<N: NameView, K: Sink>(
    sink: &mut K,
    buffer: &mut TextBuffer,
    variables: &Variables<'_, N>,
    terms: &[Term],
    some: bool,
) -> Result<(), WriteFault>
    ensures { Buffered result (K.written sink.old) (K.written sink.new) buffer.old
        buffer.new (K.faults sink.old) (K.faults sink.new) (listed some (texts_of (take
        variables.now.count (N.names variables.now.names.now)) (map entry_of terms.now))) }
{
    let mut behind = some;
    for term in terms {
        write_term(sink, buffer, variables, term, behind)?;
        behind = true;
    }
    Ok(())
}

/// A term, with a plus sign before it where it stands behind another.
fn write_term<N: NameView, K: Sink>(
    sink: &mut K,
    buffer: &mut TextBuffer,
    variables: &Variables<'_, N>,
    term: &Term,
    behind: bool,
) -> Result<(), WriteFault>
    ensures { Buffered result (K.written sink.old) (K.written sink.new) buffer.old
        buffer.new (K.faults sink.old) (K.faults sink.new) (sign behind ++ term_text (take
        variables.now.count (N.names variables.now.names.now)) (entry_of term.now)) }
{
    make_room(sink, buffer)?;
    lay_sign(buffer, behind);
    lay_term(buffer, variables, term);
    Ok(())
}

/// A plus sign, where the next term stands behind another.
fn lay_sign(buffer: &mut TextBuffer, behind: bool)
    requires { length buffer.old ≤ 624 }
    ensures text { buffer.new ≡ buffer.old ++ sign behind }
    ensures short { length buffer.new ≤ 627 }
{
    if behind {
        buffer.append(b" + ");
    }
}

/// A coefficient and the powers of its monomial: 20 bytes at most, and 38 for each power.
fn lay_term<N: NameView>(buffer: &mut TextBuffer, variables: &Variables<'_, N>, term: &Term)
    requires { length buffer.old ≤ 700 }
    ensures { buffer.new ≡ buffer.old ++ term_text (take variables.now.count
        (N.names variables.now.names.now)) (entry_of term.now) }
{
    buffer.append_number(term.coefficient);
    for i in 0..variables.count {
        lay_power(buffer, variables.names.name(i), term.monomial.power(i));
    }
}

/// A name. Most have one letter.
fn lay_name(buffer: &mut TextBuffer, name: &[u8])
    requires { length buffer.old + length name.now ≤ 1024 }
    ensures { buffer.new ≡ buffer.old ++ name.now }
{
    if let [letter] = name {
        buffer.push(*letter);
    } else {
        buffer.append(name);
    }
}

/// A power of a variable; nothing for the power 0.
fn lay_power(buffer: &mut TextBuffer, name: &str, power: u32)
    requires room { length buffer.old + 38 ≤ 1024 }
    requires short { length name.now ≤ 16 }
    ensures text { buffer.new ≡ buffer.old ++ power_text name.now power }
    ensures short { length buffer.new ≤ length buffer.old + 38 }
{
    if power == 0 {
        return;
    }
    buffer.push(b'*');
    lay_name(buffer, name.as_bytes());
    if power == 1 {
        return;
    }
    buffer.push(b'^');
    buffer.append_number(u64::from(power));
}
