//! Texts to be read.
ghost use Rattle.std.specs.Prelude.{◌≡◌, ◌≤◌, length, codes, string_bytes, IfOk};
ghost use Rattle.reader_speed.specs.Texts.{filled as filled_of, deep as deep_of, made};

use ps_model::OutOfMemory;
use std::alloc::Global;

/// What a text is made of.
#[derive(Clone, Copy, Drop)]
pub enum Kind {
    /// `x + 2*x + 2*x ..`
    Sum,
    /// 64 open parentheses, `x` and 64 closing ones; the same again behind each `+`.
    Nested,
    /// One number.
    Number,
}

/// A text of a kind, as long as a length lets it be.
pub fn text_of(alloc: Global, kind: Kind, most: usize) -> Result<String, OutOfMemory>
    requires { 129 ≤ most }
    ensures text { IfOk result (λ text. string_bytes text ≡ made kind most) }
    ensures within { IfOk result (λ text. length (string_bytes text) ≤ most) }
{
    match kind {
        Kind::Sum => filled(alloc, "x", " + 2*x", most),
        Kind::Nested => {
            let first = deep(alloc)?;
            let mut piece = String::from_str(alloc, "+")?;
            piece.push_str(first.as_str())?;
            filled(alloc, first.as_str(), piece.as_str(), most)
        }
        Kind::Number => filled(alloc, "", "7", most),
    }
}

/// `x` in 64 parentheses.
fn deep(alloc: Global) -> Result<String, OutOfMemory>
    ensures text { IfOk result (λ text. string_bytes text ≡ deep_of) }
    ensures count { IfOk result (λ text. length (string_bytes text) ≡ 129) }
{
    let mut text = "(".repeat(alloc, 64)?;
    text.push_str("x")?;
    text.push_str(")".repeat(alloc, 64)?.as_str())?;
    Ok(text)
}

/// A text, and behind it as many copies of a piece as a length lets there be.
fn filled(alloc: Global, first: &str, piece: &str, most: usize) -> Result<String, OutOfMemory>
    requires first { length first.now ≤ most }
    requires some { 1 ≤ length piece.now }
    ensures text { IfOk result (λ text. string_bytes text ≡ filled_of first.now piece.now most) }
    ensures within { IfOk result (λ text. length (string_bytes text) ≤ most) }
{
    let copies = (most - first.len()) / piece.len();
    let mut text = String::from_str(alloc, first)?;
    text.push_str(piece.repeat(alloc, copies)?.as_str())?;
    Ok(text)
}
