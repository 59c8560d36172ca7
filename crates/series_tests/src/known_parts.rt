//! Known parts: where their links lead, and quotients over them.
//!
//! The rings have two variables, x of weight 1 and y of weight 5: there are zero parts between.
ghost use Rattle.std.specs.Prelude.{◌≡◌, ◌+◌, ◌<◌, ◌≤◌, ◌∷◌, [], length, IfOk, OnOk};
ghost use Rattle.ps_model.specs.Bounds.{IsUnit};
ghost use Rattle.parts.specs.Rings.{modulus_of, weights_of};
ghost use Rattle.parts.specs.RowsOfParts.{part_in};
ghost use Rattle.parts.specs.Series.{constant_of};
ghost use Rattle.units.specs.SeriesParts.{IsPartAt, AreSeriesParts};

use parts::{Monomial, Part, Ring, scaled};
use ps_model::OutOfMemory;
use residue::Modulus;
use std::alloc::Global;
use std::process::Abort;
use std::sync::Arc;
use std::test::Fail;
use units::{KnownParts, quotient_next_of};

/// A polynomial: its constant term, and the numbers of x and y.
type Linear = [u64; 3];

/// The ring of x and y modulo m.
fn ring_of_two(m: u64) -> Result<Ring, Fail>
    ensures { IfOk result (λ ring. weights_of ring ≡ 1 ∷ 5 ∷ []) }
{
    Ok(Ring::weighted(Modulus::new(m)?, 2, [1, 5, 1, 1, 1, 1, 1, 1]))
}

/// The part of degree r of a polynomial.
fn part_at(alloc: Global, ring: Ring, numbers: &Linear, r: u32) -> Result<Part, OutOfMemory>
    requires { weights_of ring ≡ 1 ∷ 5 ∷ [] }
    ensures { IfOk result (IsPartAt ring r) }
{
    match r {
        0 => Part::constant(alloc, ring, numbers[0]),
        1 => scaled(alloc, ring, &Part::variable(alloc, ring, 0)?, numbers[1]),
        5 => scaled(alloc, ring, &Part::variable(alloc, ring, 1)?, numbers[2]),
        _ => Ok(Part::zero(alloc, r)),
    }
}

/// The parts of a polynomial up to a degree.
fn known_up_to(
    alloc: Global,
    ring: Ring,
    numbers: &Linear,
    to: u32,
) -> Result<KnownParts, OutOfMemory>
    requires low { to ≤ 4095 }
    requires weights { weights_of ring ≡ 1 ∷ 5 ∷ [] }
    ensures count { IfOk result (λ known. length known ≡ to + 1) }
    ensures parts { IfOk result (AreSeriesParts ring) }
{
    let mut known = KnownParts::new(alloc);
    for r in 0..to + 1 {
        let part = part_at(alloc, ring, numbers, r)?;
        known.push(Arc::new(alloc, part)?)?;
    }
    Ok(known)
}

/// Refuses a series whose constant term has no inverse.
fn need_unit(ring: Ring, b: &KnownParts) -> Result<(), Fail>
    requires { 0 < length b.now }
    ensures { OnOk result (IsUnit (modulus_of ring) (constant_of ring (part_in b.now 0))) }
{
    let origin = Monomial::of(ring, [0; 8]);
    let constant = ring.modulus().reduce(b.part(0).coefficient(&origin));
    match ring.modulus().inverse(constant) {
        Ok(_) => Ok(()),
        Err(_) => Err("no unit")?,
    }
}

/// The parts of the quotient of a by b, as many as b has.
fn divided(
    alloc: Global,
    ring: Ring,
    a: &KnownParts,
    b: &KnownParts,
) -> Result<KnownParts, OutOfMemory>
    requires low { length b.now ≤ 4096 }
    requires enough { length b.now ≤ length a.now }
    requires unit { IsUnit (modulus_of ring) (constant_of ring (part_in b.now 0)) }
    requires a_parts { AreSeriesParts ring a.now }
    requires b_parts { AreSeriesParts ring b.now }
{
    let mut own = KnownParts::new(alloc);
    for _ in 0..b.len() {
        let part = quotient_next_of(alloc, ring, a, b, &own)?;
        own.push(Arc::new(alloc, part)?)?;
    }
    Ok(own)
}

/// The coefficients of a part are these, by falling powers of x.
fn assert_part(rt: &impl Abort, alloc: Global, part: &Part, want: &[u64]) -> Result<(), Fail> {
    let mut found = Vec::new(alloc);
    for term in part.terms() {
        found.push(term.coefficient)?;
    }
    assert_eq!(rt; found.as_slice(), want);
    Ok(())
}

/// A polynomial's parts have these links, and so many of them have a term.
fn assert_links(
    rt: &impl Abort,
    alloc: Global,
    numbers: &Linear,
    wants: &[usize],
    nonzero: u32,
) -> Result<(), Fail>
    requires some { 1 ≤ length wants.now }
    requires few { length wants.now ≤ 9 }
{
    let ring = ring_of_two(7)?;
    let known = known_up_to(alloc, ring, numbers, wants.len() as u32 - 1)?;
    assert_eq!(rt; known.nonzero(), nonzero);
    for s in 0..wants.len() {
        assert_eq!(rt; known.below(s), wants[s], "below {s}");
    }
    Ok(())
}

/// The quotient of two polynomials has these parts.
fn assert_quotient(
    rt: &impl Abort,
    alloc: Global,
    m: u64,
    numbers: &[Linear; 2],
    wants: &[&[u64]],
) -> Result<(), Fail>
    requires some { 1 ≤ length wants.now }
    requires few { length wants.now ≤ 11 }
{
    let ring = ring_of_two(m)?;
    let to = wants.len() as u32 - 1;
    let [numerator, divisor] = numbers;
    let a = known_up_to(alloc, ring, numerator, to)?;
    let b = known_up_to(alloc, ring, divisor, to)?;
    need_unit(ring, &b)?;
    let own = divided(alloc, ring, &a, &b)?;
    assert_eq!(rt; own.len(), wants.len());
    for r in 0..wants.len() {
        assert_part(rt, alloc, own.part(r), wants[r])?;
    }
    Ok(())
}

#[test]
fn links_lead_past_zero_parts(rt: HostRuntime) -> Result<(), Fail> {
    let cases: [(Linear, &[usize], u32); 4] = [
        // 1 + x + y, with a run of zero parts between and one at the end
        ([1, 1, 1], &[0, 1, 2, 2, 2, 2, 6, 6], 3),
        // y, with zero parts in front
        ([0, 0, 1], &[0, 0, 0, 0, 0, 0, 6, 6], 1),
        // 1 + 2 * y
        ([1, 0, 2], &[0, 1, 1, 1, 1, 1, 6], 2),
        // no term at all
        ([0, 0, 0], &[0, 0, 0], 0),
    ];
    for (numbers, wants, nonzero) in cases {
        assert!(rt; 1 <= wants.len() && wants.len() <= 9);
        assert_links(&rt, rt.alloc(), &numbers, wants, nonzero)?;
    }
    Ok(())
}

#[test]
fn a_quotient_passes_over_zero_parts(rt: HostRuntime) -> Result<(), Fail> {
    let cases: [(u64, [Linear; 2], &[&[u64]]); 5] = [
        // 1 / (1 - y) = 1 + y + y^2 + ..
        (
            7,
            [[1, 0, 0], [1, 0, 6]],
            &[&[1], &[], &[], &[], &[], &[1], &[], &[], &[], &[], &[1]],
        ),
        // 1 / (1 - x - y), where x^5 and y meet
        (
            7,
            [[1, 0, 0], [1, 6, 6]],
            &[&[1], &[1], &[1], &[1], &[1], &[1, 1], &[1, 2]],
        ),
        // (2*x + 3*y) / (1 - y)
        (
            6,
            [[0, 2, 3], [1, 0, 5]],
            &[&[], &[2], &[], &[], &[], &[3], &[2], &[]],
        ),
        // 2 / (3 + y): 1 / 3 is 5
        (7, [[2, 0, 0], [3, 0, 1]], &[&[3], &[], &[], &[], &[], &[6]]),
        // 1 / (1 + 3*y) = 1 - 3*y + 9*y^2 - ..
        (
            6,
            [[1, 0, 0], [1, 0, 3]],
            &[&[1], &[], &[], &[], &[], &[3], &[], &[], &[], &[], &[3]],
        ),
    ];
    for (m, numbers, wants) in cases {
        assert!(rt; 1 <= wants.len() && wants.len() <= 11);
        assert_quotient(&rt, rt.alloc(), m, &numbers, wants)?;
    }
    Ok(())
}
