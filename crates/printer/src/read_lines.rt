//! The lines of a factor.
ghost use Rattle.std.specs.Prelude.{◌≡◌, ◌≤◌, ◌++◌, ◌+◌, ◌<◌, ℕ, List, length, map, codes, decimal};
ghost use Rattle.std.specs.Prelude.{IfOk, IfErr, IfSome, IfNone};
ghost use Rattle.ps_model.specs.BlockText.{newline};
ghost use Rattle.ps_model.specs.Plain.{entry_of};
ghost use Rattle.parts.specs.Rings.{variables_of};
ghost use Rattle.printer.specs.ReadForms.{Gives, strip as strip_text, head_in, mark_in};
ghost use Rattle.printer.specs.ReadBlock.{variable_names, head_text, mark_text, BeginsWith};
ghost use Rattle.printer.specs.ReadBlock.{Form, HasLine, HasMarkedLine, HasPowerLines, StopsBehind};

use crate::read_pieces::strip;
use crate::read_terms::read_terms;
use itoa::Buffer;
use parts::Ring;
use ps_model::{NameView, OutOfMemory, PlainTerm, Root};

/// What is behind this number in decimal, where the bytes begin with it.
fn strip_number(bytes: &[u8], number: u64) -> Option<&[u8]>
    ensures { Gives (λ p. p.now) result (strip_text (decimal number) bytes.now) }
{
    let mut buffer = Buffer::new();
    strip(bytes, buffer.format(number).as_bytes())
}

#[tactic(auto, unfolding(crate::specs::ReadForms::head_in))]
fn head(bytes: &[u8], number: u64, root: Root) -> Option<&[u8]>
    ensures { Gives (λ p. p.now) result (head_in number root.value root.times bytes.now) }
{
    let rest = strip(bytes, b"factor ")?;
    let rest = strip_number(rest, number)?;
    let rest = strip(rest, b" root ")?;
    let rest = strip_number(rest, root.value)?;
    let rest = strip(rest, b" times ")?;
    let rest = strip_number(rest, u64::from(root.times))?;
    strip(rest, b"\n")
}

/// What is behind the first line of the factor with this number, where the bytes begin with it.
pub fn strip_head(bytes: &[u8], number: u64, root: Root) -> Option<&[u8]>
    ensures shorter { IfSome result (λ p. length p.now < length bytes.now) }
    ensures stripped { Gives (λ p. p.now) result (strip_text (head_text number root ++ newline) bytes.now) }
{
    head(bytes, number, root)
}

#[tactic(auto, unfolding(crate::specs::ReadForms::mark_in))]
fn mark(bytes: &[u8], y: u32) -> Option<&[u8]>
    ensures { Gives (λ p. p.now) result (mark_in y bytes.now) }
{
    let rest = strip(bytes, b"Y^")?;
    let rest = strip_number(rest, u64::from(y))?;
    strip(rest, b": ")
}

/// What is behind the mark of `Y^y`, where the bytes begin with it.
fn strip_mark(bytes: &[u8], y: u32) -> Option<&[u8]>
    ensures { Gives (λ p. p.now) result (strip_text (mark_text y) bytes.now) }
{
    mark(bytes, y)
}

/// Reads the line of the coefficient of `Y^y`, and adds its terms to a list. Where the text begins
/// with no such line it is None.
pub fn read_power_line<'a, N: NameView>(
    names: &N,
    ring: Ring,
    d: u32,
    y: u32,
    text: &'a [u8],
    terms: &mut Vec<PlainTerm>,
) -> Result<Option<&'a [u8]>, OutOfMemory>
    requires named { variables_of ring ≤ length (N.names names.now) }
    requires low { d ≤ 4095 }
    ensures some { IfOk result (λ o. IfSome o (λ rest.
        HasMarkedLine ring (variable_names ring (N.names names.now)) d y (mark_text y) text.now
        (map entry_of terms.old.items) (map entry_of terms.new.items) rest.now)) }
    ensures none { IfOk result (λ o. IfNone o ((rest : List ℕ) →
        BeginsWith ring (variable_names ring (N.names names.now)) d (Form.Coefficient (mark_text y) y)
        text.now rest → ⊥)) }
{
    match strip_mark(text, y) {
        Some(behind) => read_terms(names, ring, d, y, behind, terms),
        None => Ok(None),
    }
}

/// Reads the line of the lead in the same way.
pub fn read_lead_line<'a, N: NameView>(
    names: &N,
    ring: Ring,
    d: u32,
    text: &'a [u8],
    terms: &mut Vec<PlainTerm>,
) -> Result<Option<&'a [u8]>, OutOfMemory>
    requires named { variables_of ring ≤ length (N.names names.now) }
    requires low { d ≤ 4095 }
    ensures some { IfOk result (λ o. IfSome o (λ rest.
        HasMarkedLine ring (variable_names ring (N.names names.now)) d 0 (codes "lead: ") text.now
        (map entry_of terms.old.items) (map entry_of terms.new.items) rest.now)) }
    ensures none { IfOk result (λ o. IfNone o ((rest : List ℕ) →
        BeginsWith ring (variable_names ring (N.names names.now)) d (Form.Coefficient (codes "lead: ") 0)
        text.now rest → ⊥)) }
{
    match strip(text, b"lead: ") {
        Some(behind) => read_terms(names, ring, d, 0, behind, terms),
        None => Ok(None),
    }
}

/// Reads the lines of the coefficients from `Y^times` down to Y^0, and adds their terms to a list.
/// Where one is unlawful it is an error: how many lawful ones are before it.
pub fn read_power_lines<'a, N: NameView>(
    names: &N,
    ring: Ring,
    d: u32,
    times: u32,
    text: &'a [u8],
    terms: &mut Vec<PlainTerm>,
) -> Result<Result<&'a [u8], u32>, OutOfMemory>
    requires named { variables_of ring ≤ length (N.names names.now) }
    requires low { d ≤ 4095 }
    ensures read { IfOk result (λ r. IfOk r (λ rest.
        HasPowerLines ring (variable_names ring (N.names names.now)) d times text.now
        (map entry_of terms.old.items) (map entry_of terms.new.items) rest.now)) }
    ensures stopped { IfOk result (λ r. IfErr r (λ k.
        StopsBehind ring (variable_names ring (N.names names.now)) d times text.now k)) }
    ensures long { IfOk result (λ r. IfOk r (λ rest. times + length rest.now < length text.now)) }
    ensures few { IfOk result (λ r. IfErr r (λ k. k ≤ length text.now)) }
{
    let mut rest = text;
    let mut power = times;
    'lines: loop {
        let Some(behind) = read_power_line(names, ring, d, power, rest, terms)? else {
            return Ok(Err(times - power));
        };
        if power == 0 {
            return Ok(Ok(behind));
        }
        rest = behind;
        power -= 1;
    }
}
