//! Pieces of a block's text: prefixes, numbers, powers and terms.
ghost use Rattle.std.specs.Prelude.{◌≡◌, ◌≤◌, ◌<◌, ◌^◌, ◌∷◌, IfSome, length, take};
ghost use Rattle.ps_model.specs.Names.{is_name_byte as is_byte_of_name};
ghost use Rattle.printer.specs.ReadForms.{Gives, strip as strip_text, up_to, digits_from};
ghost use Rattle.printer.specs.ReadForms.{number_in, exponent_in, behind_name as behind};
ghost use Rattle.printer.specs.ReadForms.{power_in, powers_in, term_in, IsNamed};

use ps_model::{NameView, PlainTerm};

/// What is behind this text, where the bytes begin with it.
pub fn strip<'a>(bytes: &'a [u8], text: &[u8]) -> Option<&'a [u8]>
    ensures { Gives (λ p. p.now) result (strip_text text.now bytes.now) }
{
    if bytes.len() < text.len() {
        return None;
    }
    for i in 0..text.len() {
        if bytes[i] != text[i] {
            return None;
        }
    }
    Some(&bytes[text.len()..])
}

/// The number of the digits that the bytes begin with, where it is at most the limit, and what is
/// behind them.
fn digits(bytes: &[u8], limit: u64) -> Option<(u64, &[u8])>
    ensures { Gives (λ p. (p.0, p.1.now)) result (up_to limit (digits_from 0 bytes.now)) }
{
    let most_before = limit / 10;
    let mut value = 0u64;
    let mut next = 0usize;
    while next < bytes.len() && bytes[next].is_ascii_digit() {
        if value > most_before {
            return None;
        }
        let digit = u64::from(bytes[next] - b'0');
        if digit > limit - 10 * value {
            return None;
        }
        value = 10 * value + digit;
        next += 1;
    }
    Some((value, &bytes[next..]))
}

/// A number from 1 up to the limit without leading zeros, and what is behind it.
#[tactic(auto, unfolding(crate::specs::ReadForms::number_in))]
pub fn number(bytes: &[u8], limit: u64) -> Option<(u64, &[u8])>
    ensures { Gives (λ p. (p.0, p.1.now)) result (number_in limit bytes.now) }
{
    if bytes.is_empty() || !bytes[0].is_ascii_digit() || bytes[0] == b'0' {
        return None;
    }
    digits(bytes, limit)
}

/// A power from 2 on, and what is behind it.
#[tactic(auto, unfolding(crate::specs::ReadForms::exponent_in))]
fn exponent(bytes: &[u8], limit: u64) -> Option<(u64, &[u8])>
    ensures { Gives (λ p. (p.0, p.1.now)) result (exponent_in limit bytes.now) }
{
    let (power, rest) = number(bytes, limit)?;
    if power < 2 {
        return None;
    }
    Some((power, rest))
}

fn is_name_byte(byte: u8) -> bool
    ensures { result ≡ is_byte_of_name byte }
{
    byte.is_ascii_alphanumeric() || byte == b'_'
}

/// The power of a name behind which `rest` is.
fn behind_name<'a>(bytes: &'a [u8], rest: &'a [u8], limit: u64) -> Option<(u64, &'a [u8])>
    ensures { Gives (λ p. (p.0, p.1.now)) result (behind limit bytes.now rest.now) }
{
    if rest.is_empty() {
        return Some((1, rest));
    }
    if is_name_byte(rest[0]) {
        return Some((0, bytes));
    }
    if rest[0] == b'^' {
        return exponent(&rest[1..], limit);
    }
    Some((1, rest))
}

/// What is behind `*` and a name, where the bytes begin with these.
fn strip_name<'a>(bytes: &'a [u8], name: &[u8]) -> Option<&'a [u8]>
    ensures { Gives (λ p. p.now) result (strip_text (42 ∷ name.now) bytes.now) }
{
    if bytes.is_empty() || bytes[0] != b'*' {
        return None;
    }
    strip(&bytes[1..], name)
}

/// The power of the variable with this name, and what is behind it.
#[tactic(auto, unfolding(crate::specs::ReadForms::power_in))]
fn power<'a>(bytes: &'a [u8], name: &[u8], limit: u64) -> Option<(u64, &'a [u8])>
    ensures { Gives (λ p. (p.0, p.1.now)) result (power_in limit name.now bytes.now) }
{
    let Some(rest) = strip_name(bytes, name) else {
        return Some((0, bytes));
    };
    behind_name(bytes, rest, limit)
}

/// The powers of the first names, and what is behind them.
fn powers<'a, N: NameView>(
    bytes: &'a [u8],
    names: &N,
    count: u32,
    limit: u64,
) -> Option<([u16; 8], &'a [u8])>
    requires few { count ≤ 8 }
    requires named { count ≤ length (N.names names.now) }
    requires small { limit < 2 ^ 15 }
    ensures read { Gives (λ p. (take count p.0, p.1.now)) result
        (powers_in limit (take count (N.names names.now)) bytes.now) }
    ensures past { IfSome result (λ p. IsNamed (take count (N.names names.now)) p.0) }
    ensures all { IfSome result (λ p. length p.0 ≡ 8) }
{
    let mut powers = [0u16; 8];
    let mut rest = bytes;
    for i in 0..count {
        let (power, behind) = power(rest, names.name(i).as_bytes(), limit)?;
        powers[i as usize] = power as u16;
        rest = behind;
    }
    Some((powers, rest))
}

/// The term that the bytes begin with, with this power of Y, and what is behind it.
#[tactic(auto, unfolding(crate::specs::ReadForms::term_in))]
pub fn term<'a, N: NameView>(
    bytes: &'a [u8],
    names: &N,
    count: u32,
    y: u32,
    most: u64,
    limit: u64,
) -> Option<(PlainTerm, &'a [u8])>
    requires few { count ≤ 8 }
    requires named { count ≤ length (N.names names.now) }
    requires small { limit < 2 ^ 15 }
    ensures read { Gives (λ p. ((p.0.coefficient, take count p.0.powers), p.1.now)) result
        (term_in most limit (take count (N.names names.now)) bytes.now) }
    ensures past { IfSome result (λ p. IsNamed (take count (N.names names.now)) p.0.powers) }
    ensures all { IfSome result (λ p. length p.0.powers ≡ 8) }
    ensures y { IfSome result (λ p. p.0.y ≡ y) }
{
    let (coefficient, rest) = number(bytes, most)?;
    let (powers, rest) = powers(rest, names, count, limit)?;
    Some((
        PlainTerm {
            powers,
            y,
            coefficient,
        },
        rest,
    ))
}
