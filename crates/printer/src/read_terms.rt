//! The terms of a line.
ghost use Rattle.std.specs.Prelude.{◌≡◌, ◌≤◌, ◌++◌, ℕ, List, [], drop, length, map, IfSome, IsSomeAnd};
ghost use Rattle.std.specs.Prelude.{◌↔◌, IsTrue, IfOk, IfNone};
ghost use Rattle.ps_model.specs.BlockText.{term_text};
ghost use Rattle.ps_model.specs.Keys.{Key};
ghost use Rattle.ps_model.specs.Plain.{key_of, entry_of};
ghost use Rattle.ps_model.specs.PlainLists.{plain_degree};
ghost use Rattle.parts.specs.Rings.{variables_of, eight_weights};
ghost use Rattle.printer.specs.ReadForms.{IsNamed};
ghost use Rattle.printer.specs.ReadBlock.{printed_order, variable_names, IsTerm, IsTermBefore};
ghost use Rattle.printer.specs.ReadBlock.{FollowsBy, IsGraded, last_entry, HasLine, HasNoLine};

use crate::read_pieces::{strip, term};
use parts::Ring;
use ps_model::{NameView, OutOfMemory, PlainTerm};
use std::cmp::Ordering;

/// The degree of a term that has no variables but those of the ring.
fn degree(ring: Ring, term: &PlainTerm) -> u32
    requires all { length term.now.powers ≡ 8 }
    requires past { IsNamed [] (drop (variables_of ring) term.now.powers) }
    ensures { result ≡ plain_degree (eight_weights ring) (key_of term.now) }
{
    let powers = term.powers;
    let mut degree = 0u32;
    for i in 0..ring.n() {
        let power = u32::from(powers[i as usize]);
        degree += ring.weight(i) * power;
    }
    degree
}

/// The order in which terms of these degrees are printed.
fn compare(d: u32, t: &PlainTerm, e: u32, u: &PlainTerm) -> Ordering
    ensures { (ws : List ℕ) → d ≡ plain_degree ws (key_of t.now)
        → e ≡ plain_degree ws (key_of u.now)
        → result ≡ printed_order ws (key_of t.now) (key_of u.now) }
{
    let keys = u.y.cmp(&t.y).then(u.powers.cmp(&t.powers));
    d.cmp(&e).then(keys)
}

/// The term that the bytes begin with, where a block of precision d may have it in the line of
/// `Y^y`, its degree, and what is behind it.
fn lawful_term<'a, N: NameView>(
    names: &N,
    ring: Ring,
    d: u32,
    y: u32,
    bytes: &'a [u8],
) -> Option<(PlainTerm, u32, &'a [u8])>
    requires named { variables_of ring ≤ length (N.names names.now) }
    requires low { d ≤ 4095 }
    ensures term { IfSome result (λ p.
        IsTerm ring (variable_names ring (N.names names.now)) d y (entry_of p.0)) }
    ensures degree { IfSome result (λ p. p.1 ≡ plain_degree (eight_weights ring) (key_of p.0)) }
    ensures text { IfSome result (λ p. bytes.now
        ≡ term_text (variable_names ring (N.names names.now)) (entry_of p.0) ++ p.2.now) }
    ensures only { (t : Key 8 × ℕ) (rest : List ℕ)
        → IsTermBefore ring (variable_names ring (N.names names.now)) d y bytes.now t rest
        → IsSomeAnd result (λ p. (entry_of p.0 ≡ t) × (p.2.now ≡ rest)) }
{
    let most = ring.modulus().value() - 1;
    let (term, rest) = term(bytes, names, ring.n(), y, most, u64::from(d))?;
    let degree = degree(ring, &term);
    if degree > d {
        return None;
    }
    Some((term, degree, rest))
}

/// Whether a term of this degree is printed behind the last one, where there is one.
fn is_after(last: Option<(u32, PlainTerm)>, degree: u32, term: &PlainTerm) -> bool
    ensures { (ws : List ℕ) → IsGraded ws last → degree ≡ plain_degree ws (key_of term.now)
        → (IsTrue result ↔ FollowsBy ws (last_entry last) (entry_of term.now)) }
{
    match last {
        None => true,
        Some((d, t)) => compare(d, &t, degree, term) == Ordering::Less,
    }
}

/// Reads the terms of the coefficient of `Y^y` and the end of their line, and adds the terms to a
/// list. Where the line isn't that of a block of precision d it is None.
pub fn read_terms<'a, N: NameView>(
    names: &N,
    ring: Ring,
    d: u32,
    y: u32,
    text: &'a [u8],
    terms: &mut Vec<PlainTerm>,
) -> Result<Option<&'a [u8]>, OutOfMemory>
    requires named { variables_of ring ≤ length (N.names names.now) }
    requires low { d ≤ 4095 }
    ensures some { IfOk result (λ o. IfSome o (λ rest.
        HasLine ring (variable_names ring (N.names names.now)) d y text.now
        (map entry_of terms.old.items) (map entry_of terms.new.items) rest.now)) }
    ensures none { IfOk result (λ o. IfNone o
        (HasNoLine ring (variable_names ring (N.names names.now)) d y text.now)) }
{
    if let Some(rest) = strip(text, b"0\n") {
        return Ok(Some(rest));
    }
    let mut rest = text;
    let mut last: Option<(u32, PlainTerm)> = None;
    loop {
        let Some((term, degree, behind)) = lawful_term(names, ring, d, y, rest) else {
            return Ok(None);
        };
        if !is_after(last, degree, &term) {
            return Ok(None);
        }
        terms.push(term)?;
        if let Some(end) = strip(behind, b"\n") {
            return Ok(Some(end));
        }
        let Some(next) = strip(behind, b" + ") else {
            return Ok(None);
        };
        rest = next;
        last = Some((degree, term));
    }
}
