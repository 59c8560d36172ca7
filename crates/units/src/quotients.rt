//! The next part of a quotient.
//!
//! g = a / b is the series with g * b = a. Here f(r) is the part of degree r of a series f. The
//! parts of degree r of both sides give
//!
//! g(r) = b(0)^-1 * (a(r) - sum over 0 < s <= r of g(r-s) * b(s))
ghost use Rattle.std.specs.Prelude.{◌≡◌, ◌+◌, ◌*◌, ◌%◌, ◌<◌, ◌≤◌, ◌++◌, ◌∷◌, [], length, IfOk, OnOk};
ghost use Rattle.std.specs.Prelude.{slice_index_or};
ghost use Rattle.ps_model.specs.Bounds.{IsUnit};
ghost use Rattle.ps_model.specs.Notation.{one, negative, product, scaled as scaled_by, homogeneous_part};
ghost use Rattle.ps_model.specs.SeriesRing.{Poly};
ghost use Rattle.parts.specs.Rings.{modulus_of};
ghost use Rattle.parts.specs.PartValue.{IsPartOf};
ghost use Rattle.parts.specs.RowsOfParts.{parts_of, part_in};
ghost use Rattle.parts.specs.Series.{series, polynomial_in, constant_of};
ghost use Rattle.units.specs.SeriesParts.{IsPartAt, AreSeriesParts, series_of, AreQuotientParts};
ghost use Rattle.units.specs.SeriesParts.{Changes};
ghost use Rattle.units.specs.Links.{AreLinks};

use crate::known_parts::KnownParts;
use parts::{Accumulator, Monomial, Part, Ring, scaled};
use ps_model::OutOfMemory;
use std::alloc::Global;
use std::sync::Arc;

/// Adds f to a sum. A zero part adds nothing.
fn add_part(sum: &mut Accumulator, f: &Part) -> Result<(), OutOfMemory>
    requires degrees { f.now.degree ≡ sum.old.degree }
    requires part { IsPartOf sum.old.ring f.now }
    ensures { OnOk result (Changes sum.old.ring sum.old sum.new (polynomial_in sum.old.ring f.now.map)) }
{
    if f.is_zero() {
        return Ok(());
    }
    sum.add_scaled(f, 1)?;
    Ok(())
}

/// Subtracts f * g from a sum. A zero part takes no product.
fn subtract_product(sum: &mut Accumulator, f: &Part, g: &Part) -> Result<(), OutOfMemory>
    requires degrees { f.now.degree + g.now.degree ≡ sum.old.degree }
    requires parts { IsPartOf sum.old.ring f.now × IsPartOf sum.old.ring g.now }
    ensures { OnOk result (Changes sum.old.ring sum.old sum.new
        (negative (product (polynomial_in sum.old.ring f.now.map)
        (polynomial_in sum.old.ring g.now.map)))) }
{
    if f.is_zero() || g.is_zero() {
        return Ok(());
    }
    sum.add_product(f, g, true)?;
    Ok(())
}

/// The inverse of the constant term of a part.
fn constant_inverse(ring: Ring, part: &Part) -> u64
    requires unit { IsUnit (modulus_of ring) (constant_of ring part.now) }
    ensures residue { result < modulus_of ring }
    ensures inverts { (constant_of ring part.now * result) % modulus_of ring ≡ 1 }
{
    let origin = Monomial::of(ring, [0; 8]);
    let constant = ring.modulus().reduce(part.coefficient(&origin));
    match ring.modulus().inverse(constant) {
        Ok(inverse) => inverse,
        Err(_) => unreachable!(),
    }
}

/// A part divided by the constant term of a series whose part of degree 0 is `first`.
fn over_constant(alloc: Global, ring: Ring, part: Part, first: &Part) -> Result<Part, OutOfMemory>
    requires unit { IsUnit (modulus_of ring) (constant_of ring first.now) }
    requires part { IsPartOf ring part }
    ensures degree { IfOk result (λ p. p.degree ≡ part.degree) }
    ensures part { IfOk result (IsPartOf ring) }
    ensures back { IfOk result (λ p. scaled_by (constant_of ring first.now) (polynomial_in ring p.map)
        ≡ polynomial_in ring part.map) }
{
    if part.is_zero() {
        return Ok(part);
    }
    let inverse = constant_inverse(ring, first);
    if inverse == 1 {
        return Ok(part);
    }
    Ok(scaled(alloc, ring, &part, inverse)?)
}

/// Where the parts below degree s begin that need not be looked at, by the links; where there is no
/// link each one is.
fn below(links: &[u32], s: usize) -> usize
    ensures { result ≡ slice_index_or links.now s s }
{
    match links.get(s) {
        Some(end) => *end as usize,
        None => s,
    }
}

/// g(r) for r = `own.len()`, where `numerator` is a(r). By the links it passes over zero parts of b.
fn next_of(
    alloc: Global,
    ring: Ring,
    numerator: &Part,
    b: &[Arc<Part>],
    links: &[u32],
    own: &[Arc<Part>],
) -> Result<Part, OutOfMemory>
    requires permitted { length own.now ≤ 4095 }
    requires unit { IsUnit (modulus_of ring) (constant_of ring (part_in (parts_of b.now) 0)) }
    requires enough { length own.now < length b.now }
    requires numerator { IsPartAt ring (length own.now) numerator.now }
    requires b_parts { AreSeriesParts ring (parts_of b.now) }
    requires links { AreLinks (parts_of b.now) links.now }
    requires own_parts { AreSeriesParts ring (parts_of own.now) }
    ensures part { IfOk result (IsPartAt ring (length own.now)) }
    ensures next { IfOk result (λ p. (a : Poly (series ring)) →
        homogeneous_part (length own.now) a ≡ polynomial_in ring numerator.now.map →
        AreQuotientParts ring a (series_of ring (parts_of b.now)) (parts_of own.now) →
        AreQuotientParts ring a (series_of ring (parts_of b.now)) (parts_of own.now ++ p ∷ [])) }
{
    let r = own.len();
    let mut sum = Accumulator::new(alloc, ring, r as u32);
    add_part(&mut sum, numerator)?;
    // the products g(r-s) * b(s) of s >= end are subtracted
    let mut end = r + 1;
    while end > 1 {
        let s = end - 1;
        subtract_product(&mut sum, &own[r - s], &b[s])?;
        end = below(links, s);
    }
    Ok(over_constant(alloc, ring, sum.finish()?, &b[0])?)
}

/// The part of degree r of 1.
fn one_part(alloc: Global, ring: Ring, r: u32) -> Result<Part, OutOfMemory>
    ensures part { IfOk result (IsPartAt ring r) }
    ensures one { IfOk result (λ p. homogeneous_part r one ≡ polynomial_in ring p.map) }
{
    if r == 0 {
        return Ok(Part::constant(alloc, ring, 1)?);
    }
    Ok(Part::zero(alloc, r))
}

/// The next part of 1 / b: that of degree `own.len()`, where `own` has the parts before. `b[r]`
/// and `own[r]` are the parts of degree r.
///
/// It takes at most `own.len()` products of parts.
pub fn inverse_next(
    alloc: Global,
    ring: Ring,
    b: &[Arc<Part>],
    own: &[Arc<Part>],
) -> Result<Part, OutOfMemory>
    requires permitted { length own.now ≤ 4095 }
    requires unit { IsUnit (modulus_of ring) (constant_of ring (part_in (parts_of b.now) 0)) }
    requires enough { length own.now < length b.now }
    requires b_parts { AreSeriesParts ring (parts_of b.now) }
    requires own_parts { AreSeriesParts ring (parts_of own.now) }
    requires own_first { AreQuotientParts ring one (series_of ring (parts_of b.now))
        (parts_of own.now) }
    ensures degree { IfOk result (λ p. p.degree ≡ length own.now) }
    ensures part { IfOk result (IsPartOf ring) }
    ensures first { IfOk result (λ p. AreQuotientParts ring one
        (series_of ring (parts_of b.now)) (parts_of own.now ++ p ∷ [])) }
{
    let numerator = one_part(alloc, ring, own.len() as u32)?;
    Ok(next_of(alloc, ring, &numerator, b, &[], own)?)
}

/// The next part of a / b: that of degree `own.len()`, where `own` has the parts before. `a[r]`,
/// `b[r]` and `own[r]` are the parts of degree r.
///
/// It takes at most `own.len()` products of parts.
pub fn quotient_next(
    alloc: Global,
    ring: Ring,
    a: &[Arc<Part>],
    b: &[Arc<Part>],
    own: &[Arc<Part>],
) -> Result<Part, OutOfMemory>
    requires permitted { length own.now ≤ 4095 }
    requires unit { IsUnit (modulus_of ring) (constant_of ring (part_in (parts_of b.now) 0)) }
    requires a_enough { length own.now < length a.now }
    requires b_enough { length own.now < length b.now }
    requires a_parts { AreSeriesParts ring (parts_of a.now) }
    requires b_parts { AreSeriesParts ring (parts_of b.now) }
    requires own_parts { AreSeriesParts ring (parts_of own.now) }
    requires own_first { AreQuotientParts ring (series_of ring (parts_of a.now))
        (series_of ring (parts_of b.now)) (parts_of own.now) }
    ensures degree { IfOk result (λ p. p.degree ≡ length own.now) }
    ensures part { IfOk result (IsPartOf ring) }
    ensures first { IfOk result (λ p. AreQuotientParts ring (series_of ring (parts_of a.now))
        (series_of ring (parts_of b.now)) (parts_of own.now ++ p ∷ [])) }
{
    Ok(next_of(alloc, ring, &a[own.len()], b, &[], own)?)
}

/// The next part of a / b, as `quotient_next` computes it.
///
/// It takes at most as many products as b has parts of the degrees from 1 to `own.len()` that aren't
/// zero, and looks at no other parts.
pub fn quotient_next_of(
    alloc: Global,
    ring: Ring,
    a: &KnownParts,
    b: &KnownParts,
    own: &KnownParts,
) -> Result<Part, OutOfMemory>
    requires permitted { length own.now ≤ 4095 }
    requires unit { IsUnit (modulus_of ring) (constant_of ring (part_in b.now 0)) }
    requires a_enough { length own.now < length a.now }
    requires b_enough { length own.now < length b.now }
    requires a_parts { AreSeriesParts ring a.now }
    requires b_parts { AreSeriesParts ring b.now }
    requires own_parts { AreSeriesParts ring own.now }
    requires own_first { AreQuotientParts ring (series_of ring a.now) (series_of ring b.now) own.now }
    ensures degree { IfOk result (λ p. p.degree ≡ length own.now) }
    ensures part { IfOk result (IsPartOf ring) }
    ensures first { IfOk result (λ p. AreQuotientParts ring (series_of ring a.now)
        (series_of ring b.now) (own.now ++ p ∷ [])) }
{
    let numerator = a.part(own.len());
    Ok(next_of(alloc, ring, numerator, b.parts(), b.links(), own.parts())?)
}
