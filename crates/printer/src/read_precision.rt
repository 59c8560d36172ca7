//! The line of the precision.
ghost use Rattle.std.specs.Prelude.{◌≡◌, ℕ};
ghost use Rattle.std.specs.Option.{option_map};
ghost use Rattle.printer.specs.ReadForms.{Gives, digits_from};
ghost use Rattle.printer.specs.ReadPrecision.{numeral_in, precision_in, told_precision};
ghost use Rattle.printer.specs.ReadPrecision.{ends_line as ends};

use crate::read_pieces::strip;

/// The number of the digits that the bytes begin with, at most the greatest `u32`, and what is
/// behind them.
fn told_digits(bytes: &[u8]) -> (u32, &[u8])
    ensures { (result.0, result.1.now) ≡ told_precision (digits_from 0 bytes.now) }
{
    let mut value = 0u32;
    let mut next = 0usize;
    while next < bytes.len() && bytes[next].is_ascii_digit() {
        value = value
            .saturating_mul(10)
            .saturating_add(u32::from(bytes[next] - b'0'));
        next += 1;
    }
    (value, &bytes[next..])
}

/// The number without leading zeros that the bytes begin with, in the same way.
#[tactic(auto, unfolding(crate::specs::ReadPrecision::numeral_in))]
fn told_numeral(bytes: &[u8]) -> Option<(u32, &[u8])>
    ensures { Gives (λ p. (p.0, p.1.now)) result
        (option_map told_precision (numeral_in bytes.now)) }
{
    if bytes.is_empty() {
        return None;
    }
    if bytes[0] == b'0' {
        return Some((0, &bytes[1..]));
    }
    if !bytes[0].is_ascii_digit() {
        return None;
    }
    Some(told_digits(bytes))
}

/// Whether a line ends here, with its newline or with the text.
fn ends_line(rest: &[u8]) -> bool
    ensures { result ≡ ends rest.now }
{
    rest.is_empty() || rest[0] == b'\n'
}

/// The precision of the first line, with or without its newline, at most the greatest `u32`, and
/// what is behind that: the newline first.
#[tactic(auto, unfolding(crate::specs::ReadPrecision::precision_in))]
pub fn read_precision(text: &[u8]) -> Option<(u32, &[u8])>
    ensures { Gives (λ p. (p.0, p.1.now)) result
        (option_map told_precision (precision_in text.now)) }
{
    let digits = strip(text, b"precision ")?;
    let (precision, rest) = told_numeral(digits)?;
    if !ends_line(rest) {
        return None;
    }
    Some((precision, rest))
}
