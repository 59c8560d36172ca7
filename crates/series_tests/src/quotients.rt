//! Parts by hand, and inverses that are multiplied back.
//!
//! The rings have two variables: x of weight 1 and y of weight 2.
ghost use Rattle.std.specs.Prelude.{◌≡◌, ◌+◌, ◌<◌, ◌≤◌, ◌∷◌, [], length, IfOk, OnOk};
ghost use Rattle.ps_model.specs.Bounds.{IsUnit};
ghost use Rattle.ps_model.specs.Notation.{one};
ghost use Rattle.parts.specs.PartValue.{IsPartOf};
ghost use Rattle.parts.specs.Rings.{modulus_of, weights_of};
ghost use Rattle.parts.specs.RowsOfParts.{parts_of, part_in};
ghost use Rattle.parts.specs.Series.{constant_of};
ghost use Rattle.units.specs.SeriesParts.{IsPartAt, AreSeriesParts, series_of, AreQuotientParts};

use parts::{Accumulator, Monomial, Part, Ring, scaled};
use ps_model::OutOfMemory;
use residue::Modulus;
use std::alloc::Global;
use std::process::Abort;
use std::sync::Arc;
use std::test::Fail;
use units::{inverse_next, quotient_next};

/// A polynomial of degree 2 at most: its constant term, and the numbers of x and y.
type Linear = [u64; 3];

/// The ring of x and y modulo m.
fn ring_of_two(m: u64) -> Result<Ring, Fail>
    ensures { IfOk result (λ ring. weights_of ring ≡ 1 ∷ 2 ∷ []) }
{
    Ok(Ring::weighted(Modulus::new(m)?, 2, [1, 2, 1, 1, 1, 1, 1, 1]))
}

/// The part of degree r of a polynomial.
fn part_at(alloc: Global, ring: Ring, numbers: &Linear, r: u32) -> Result<Part, OutOfMemory>
    requires { weights_of ring ≡ 1 ∷ 2 ∷ [] }
    ensures { IfOk result (IsPartAt ring r) }
{
    match r {
        0 => Part::constant(alloc, ring, numbers[0]),
        1 => scaled(alloc, ring, &Part::variable(alloc, ring, 0)?, numbers[1]),
        2 => scaled(alloc, ring, &Part::variable(alloc, ring, 1)?, numbers[2]),
        _ => Ok(Part::zero(alloc, r)),
    }
}

/// The parts of a polynomial up to a degree.
fn parts_up_to(
    alloc: Global,
    ring: Ring,
    numbers: &Linear,
    to: u32,
) -> Result<Vec<Arc<Part>>, OutOfMemory>
    requires low { to ≤ 4095 }
    requires weights { weights_of ring ≡ 1 ∷ 2 ∷ [] }
    ensures count { IfOk result (λ row. length row.items ≡ to + 1) }
    ensures parts { IfOk result (λ row. AreSeriesParts ring (parts_of row.items)) }
{
    let mut row = Vec::new(alloc);
    for r in 0..to + 1 {
        let part = part_at(alloc, ring, numbers, r)?;
        row.push(Arc::new(alloc, part)?)?;
    }
    Ok(row)
}

/// Refuses a series whose constant term has no inverse.
fn need_unit(ring: Ring, b: &[Arc<Part>]) -> Result<(), Fail>
    requires { 0 < length b.now }
    ensures { OnOk result (IsUnit (modulus_of ring) (constant_of ring (part_in (parts_of b.now) 0))) }
{
    let origin = Monomial::of(ring, [0; 8]);
    let constant = ring.modulus().reduce(b[0].coefficient(&origin));
    match ring.modulus().inverse(constant) {
        Ok(_) => Ok(()),
        Err(_) => Err("no unit")?,
    }
}

/// The parts of the inverse of b, as many as b has.
fn inverted(alloc: Global, ring: Ring, b: &[Arc<Part>]) -> Result<Vec<Arc<Part>>, OutOfMemory>
    requires low { length b.now ≤ 4096 }
    requires unit { IsUnit (modulus_of ring) (constant_of ring (part_in (parts_of b.now) 0)) }
    requires parts { AreSeriesParts ring (parts_of b.now) }
    ensures count { IfOk result (λ own. length own.items ≡ length b.now) }
    ensures parts { IfOk result (λ own. AreSeriesParts ring (parts_of own.items)) }
    ensures first { IfOk result (λ own. AreQuotientParts ring one (series_of ring (parts_of b.now))
        (parts_of own.items)) }
{
    let mut own = Vec::new(alloc);
    for _ in 0..b.len() {
        let part = inverse_next(alloc, ring, b, &own)?;
        own.push(Arc::new(alloc, part)?)?;
    }
    Ok(own)
}

/// The parts of the quotient of a by b, as many as b has.
fn divided(
    alloc: Global,
    ring: Ring,
    a: &[Arc<Part>],
    b: &[Arc<Part>],
) -> Result<Vec<Arc<Part>>, OutOfMemory>
    requires low { length b.now ≤ 4096 }
    requires enough { length b.now ≤ length a.now }
    requires unit { IsUnit (modulus_of ring) (constant_of ring (part_in (parts_of b.now) 0)) }
    requires a_parts { AreSeriesParts ring (parts_of a.now) }
    requires b_parts { AreSeriesParts ring (parts_of b.now) }
    ensures count { IfOk result (λ own. length own.items ≡ length b.now) }
    ensures parts { IfOk result (λ own. AreSeriesParts ring (parts_of own.items)) }
    ensures first { IfOk result (λ own. AreQuotientParts ring (series_of ring (parts_of a.now))
        (series_of ring (parts_of b.now)) (parts_of own.items)) }
{
    let mut own = Vec::new(alloc);
    for _ in 0..b.len() {
        let part = quotient_next(alloc, ring, a, b, &own)?;
        own.push(Arc::new(alloc, part)?)?;
    }
    Ok(own)
}

/// The part of degree r of a product.
fn product_part(
    alloc: Global,
    ring: Ring,
    a: &[Arc<Part>],
    b: &[Arc<Part>],
    r: usize,
) -> Result<Part, OutOfMemory>
    requires low { r ≤ 4095 }
    requires a_enough { r < length a.now }
    requires b_enough { r < length b.now }
    requires a_parts { AreSeriesParts ring (parts_of a.now) }
    requires b_parts { AreSeriesParts ring (parts_of b.now) }
{
    let mut sum = Accumulator::new(alloc, ring, r as u32);
    for s in 0..r + 1 {
        sum.add_product(&a[s], &b[r - s], false)?;
    }
    sum.finish()
}

/// The coefficients of a part are these, by falling powers of x.
fn assert_part(rt: &impl Abort, alloc: Global, part: &Part, want: &[u64]) -> Result<(), Fail> {
    let mut found = Vec::new(alloc);
    for term in part.terms() {
        found.push(term.coefficient)?;
    }
    assert_eq!(rt; found.as_slice(), want);
    Ok(())
}

/// The parts of a series have these coefficients.
fn assert_parts(
    rt: &impl Abort,
    alloc: Global,
    row: &[Arc<Part>],
    wants: &[&[u64]],
) -> Result<(), Fail> {
    assert_eq!(rt; row.len(), wants.len());
    for (part, want) in row.iter().zip(wants) {
        assert_part(rt, alloc, part, want)?;
    }
    Ok(())
}

/// The product of a series and its inverse is 1, as far as their parts are there.
fn assert_multiplies_back(
    rt: &impl Abort,
    alloc: Global,
    ring: Ring,
    b: &[Arc<Part>],
    own: &[Arc<Part>],
) -> Result<(), Fail>
    requires low { length b.now ≤ 4096 }
    requires count { length own.now ≡ length b.now }
    requires b_parts { AreSeriesParts ring (parts_of b.now) }
    requires own_parts { AreSeriesParts ring (parts_of own.now) }
{
    for r in 0..b.len() {
        let part = product_part(alloc, ring, own, b, r)?;
        let want: &[u64] = if r == 0 { &[1] } else { &[] };
        assert_part(rt, alloc, &part, want)?;
    }
    Ok(())
}

/// The inverse of a polynomial has these parts.
fn assert_inverse(
    rt: &impl Abort,
    alloc: Global,
    m: u64,
    numbers: &Linear,
    wants: &[&[u64]],
) -> Result<(), Fail>
    requires some { 1 ≤ length wants.now }
    requires few { length wants.now ≤ 9 }
{
    let ring = ring_of_two(m)?;
    let b = parts_up_to(alloc, ring, numbers, wants.len() as u32 - 1)?;
    need_unit(ring, &b)?;
    let own = inverted(alloc, ring, &b)?;
    assert_parts(rt, alloc, &own, wants)?;
    assert_multiplies_back(rt, alloc, ring, &b, &own)
}

/// The quotient of two polynomials has these parts.
fn assert_quotient(
    rt: &impl Abort,
    alloc: Global,
    m: u64,
    numbers: &[Linear; 2],
    wants: &[&[u64]],
) -> Result<(), Fail>
    requires some { 1 ≤ length wants.now }
    requires few { length wants.now ≤ 9 }
{
    let ring = ring_of_two(m)?;
    let to = wants.len() as u32 - 1;
    let [numerator, divisor] = numbers;
    let a = parts_up_to(alloc, ring, numerator, to)?;
    let b = parts_up_to(alloc, ring, divisor, to)?;
    need_unit(ring, &b)?;
    let own = divided(alloc, ring, &a, &b)?;
    assert_parts(rt, alloc, &own, wants)
}

#[test]
fn an_inverse_is_built_part_by_part(rt: HostRuntime) -> Result<(), Fail> {
    let cases: [(u64, Linear, &[&[u64]]); 5] = [
        // 1 / (1 - x) = 1 + x + x^2 + ..
        (7, [1, 6, 0], &[&[1], &[1], &[1]]),
        // of a constant: 3 * 5 leaves 1
        (7, [3, 0, 0], &[&[5], &[], &[]]),
        // degree 0 alone
        (6, [5, 1, 1], &[&[5]]),
        // 5 + x + y is x + y - 1, so the parts are those of 5 * (x + y)^k
        (
            6,
            [5, 1, 1],
            &[&[5], &[5], &[5, 5], &[5, 4], &[5, 3, 5], &[5, 2, 3]],
        ),
        // 5 * (4*x + 3*y)^k, where the products of x and y vanish
        (6, [5, 4, 3], &[&[5], &[2], &[2, 3], &[2], &[2, 3]]),
    ];
    for (m, numbers, wants) in cases {
        assert!(rt; 1 <= wants.len() && wants.len() <= 9);
        assert_inverse(&rt, rt.alloc(), m, &numbers, wants)?;
    }
    Ok(())
}

#[test]
fn a_quotient_is_built_part_by_part(rt: HostRuntime) -> Result<(), Fail> {
    let cases: [(u64, [Linear; 2], &[&[u64]]); 4] = [
        // 1 / (1 - x)
        (7, [[1, 0, 0], [1, 6, 0]], &[&[1], &[1], &[1]]),
        // (1 + x) / (1 - x) = 1 + 2*x + 2*x^2 + ..
        (7, [[1, 1, 0], [1, 6, 0]], &[&[1], &[2], &[2], &[2]]),
        // degree 0 alone: 2 / 3 is 2 * 5
        (7, [[2, 1, 1], [3, 1, 1]], &[&[3]]),
        // (2*x + 3*y) / (x - 1) = -(2*x + 3*y) * (1 + x + ..)
        (6, [[0, 2, 3], [5, 1, 0]], &[&[], &[4], &[4, 3], &[4, 3]]),
    ];
    for (m, numbers, wants) in cases {
        assert!(rt; 1 <= wants.len() && wants.len() <= 9);
        assert_quotient(&rt, rt.alloc(), m, &numbers, wants)?;
    }
    Ok(())
}
