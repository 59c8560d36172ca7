//! One part from many products of series.
ghost use Rattle.std.specs.Prelude.{◌≡◌, ℕ, ◌+◌, ◌-◌, ◌%◌, ◌<◌, ◌≤◌, IfOk, OnOk, length};
ghost use Rattle.ps_model.specs.Sums.{total};
ghost use Rattle.parts.specs.CrossedEntries.{left_in};
ghost use Rattle.parts.specs.PartValue.{IsPartOf};
ghost use Rattle.parts.specs.Rings.{modulus_of, weights_of};
ghost use Rattle.parts.specs.SeriesParts.{AreOver, AreSeriesParts, IsLessCrossed, SubtractsFrom};
ghost use Rattle.parts.specs.SeriesParts.{crossed_part, facing_parts, parts_at};
ghost use Rattle.parts.specs.SeriesRows.{indicator, crossed_total, IsContiguous, IsPairKey};
ghost use Rattle.parts.specs.Terms.{key_of, IsKeyOf};
ghost use Rattle.parts.specs.TermLists.{IsTotal};
ghost use Rattle.residue.specs.ProductSums.{Gains};

use crate::arithmetic::scaled;
use crate::homogeneous::Part;
use crate::merging::push_nonzero;
use crate::places::{fill_powers, make_sizes};
use crate::rings::Ring;
use crate::series::{Series, is_contiguous};
use crate::sums::Accumulator;
use crate::terms::{Monomial, Term};
use ps_model::OutOfMemory;
use residue::ProductSum;
use std::alloc::Global;

/// What belongs to one power of Y in the product of two polynomials in Y whose coefficients are
/// series: the sum of left[h] * right[power - h]. A series past the end is 0.
#[derive(Clone, Copy)]
pub struct Crossed<'a> {
    pub left: &'a [Series],
    pub right: &'a [Series],
    pub power: usize,
}

/// factor times what is left of the part `start`, of degree r, less the part of degree r of a sum
/// of products of series: of each product the sum of a(s) * w(r-s), a part past the end being 0.
///
/// In one variable and in two a coefficient takes one pass over the rows of the series; elsewhere
/// the products of parts are added up one after the other.
pub fn less_crossed(
    alloc: Global,
    ring: Ring,
    start: &Part,
    crossed: &Crossed,
    factor: u64,
) -> Result<Part, OutOfMemory>
    requires start { IsPartOf ring start.now }
    requires permitted { start.now.degree ≤ 4095 }
    requires left { AreOver ring crossed.now.left.now }
    requires right { AreOver ring crossed.now.right.now }
    requires places { length crossed.now.left.now ≤ crossed.now.power + 1 }
    requires residue { factor < modulus_of ring }
    ensures { IfOk result (IsLessCrossed ring start.now crossed.now.left.now crossed.now.right.now
        crossed.now.power factor) }
{
    of_ring(ring, crossed.left);
    of_ring(ring, crossed.right);
    if is_contiguous(ring) {
        let terms = left_terms(alloc, ring, start, crossed, factor)?;
        return Ok(Part::of_terms(ring, start.degree(), terms));
    }
    from_parts(alloc, ring, start, crossed, factor)
}

/// The parts of series are of their ring, by their type.
fn of_ring(ring: Ring, series: &[Series])
    requires { AreOver ring series.now }
    ensures { (h : ℕ) → AreSeriesParts ring (parts_at series.now h) }
{
    let _ring = ring;
    for s in series {
        s.parts_are();
    }
}

/// The terms of what is left, from rows of coefficients, place by place.
fn left_terms(
    alloc: Global,
    ring: Ring,
    start: &Part,
    crossed: &Crossed,
    factor: u64,
) -> Result<Vec<Term>, OutOfMemory>
    requires contiguous { IsContiguous ring }
    requires start { IsPartOf ring start.now }
    requires permitted { start.now.degree ≤ 4095 }
    requires left { AreOver ring crossed.now.left.now }
    requires right { AreOver ring crossed.now.right.now }
    requires left_parts { (h : ℕ) → AreSeriesParts ring (parts_at crossed.now.left.now h) }
    requires right_parts { (h : ℕ) → AreSeriesParts ring (parts_at crossed.now.right.now h) }
    requires places { length crossed.now.left.now ≤ crossed.now.power + 1 }
    requires residue { factor < modulus_of ring }
    ensures { IfOk result (λ terms. IsTotal ring start.now.degree (left_in ring start.now
        crossed.now.left.now crossed.now.right.now crossed.now.power factor) terms.items) }
{
    let n = ring.n() as usize;
    let weights = ring.weights();
    let degree = start.degree();
    let mut sizes = [0; 8];
    let Some(count) = make_sizes(degree, &weights[..n], &mut sizes[..n]) else {
        return Err(OutOfMemory);
    };
    let mut sum = ProductSum::new(ring.modulus());
    let mut terms = Vec::new(alloc);
    for at in (0..count).rev() {
        let mut powers = [0; 8];
        if fill_powers(&mut powers[..n], &weights[..n], &sizes[..n], degree, at) {
            let monomial = Monomial::of_powers(powers);
            let coefficient = left_at(&mut sum, ring, start, crossed, factor, &monomial);
            push_nonzero(
                &mut terms,
                Term {
                    monomial,
                    coefficient,
                },
            )?;
        }
    }
    Ok(terms)
}

/// The coefficient at a monomial of what is left.
fn left_at(
    sum: &mut ProductSum,
    ring: Ring,
    start: &Part,
    crossed: &Crossed,
    factor: u64,
    monomial: &Monomial,
) -> u64
    requires contiguous { IsContiguous ring }
    requires modulus { sum.old.modulus ≡ modulus_of ring }
    requires start { IsPartOf ring start.now }
    requires left { AreOver ring crossed.now.left.now }
    requires right { AreOver ring crossed.now.right.now }
    requires left_parts { (h : ℕ) → AreSeriesParts ring (parts_at crossed.now.left.now h) }
    requires right_parts { (h : ℕ) → AreSeriesParts ring (parts_at crossed.now.right.now h) }
    requires places { length crossed.now.left.now ≤ crossed.now.power + 1 }
    requires residue { factor < modulus_of ring }
    requires key { IsKeyOf (weights_of ring) start.now.degree (key_of monomial.now) }
    requires pair { IsPairKey monomial.now }
    ensures modulus { sum.new.modulus ≡ modulus_of ring }
    ensures value { result ≡ total (indicator (key_of monomial.now)) (left_in ring start.now
        crossed.now.left.now crossed.now.right.now crossed.now.power factor) % modulus_of ring }
{
    sum.clear();
    for h in 0..crossed.left.len() {
        add_at(sum, ring, crossed, h, monomial);
    }
    let modulus = ring.modulus();
    let left = modulus.sub(start.coefficient(monomial), sum.residue());
    modulus.mul(left, factor)
}

/// Adds the coefficient at a monomial of left[h] * right[power - h].
fn add_at(sum: &mut ProductSum, ring: Ring, crossed: &Crossed, h: usize, monomial: &Monomial)
    requires contiguous { IsContiguous ring }
    requires modulus { sum.old.modulus ≡ modulus_of ring }
    requires left { AreOver ring crossed.now.left.now }
    requires right { AreOver ring crossed.now.right.now }
    requires place { (h < length crossed.now.left.now) × (h ≤ crossed.now.power) }
    requires pair { IsPairKey monomial.now }
    ensures { Gains sum.old sum.new (crossed_total (indicator (key_of monomial.now))
        (parts_at crossed.now.left.now h)
        (parts_at crossed.now.right.now (crossed.now.power - h))) }
{
    let _ring = ring;
    let other = crossed.power - h;
    if other < crossed.right.len() {
        crossed.left[h].add_product_at(&crossed.right[other], monomial, sum);
    }
}

/// The same from the parts, whose products are added up one after the other.
fn from_parts(
    alloc: Global,
    ring: Ring,
    start: &Part,
    crossed: &Crossed,
    factor: u64,
) -> Result<Part, OutOfMemory>
    requires start { IsPartOf ring start.now }
    requires permitted { start.now.degree ≤ 4095 }
    requires left { AreOver ring crossed.now.left.now }
    requires right { AreOver ring crossed.now.right.now }
    requires places { length crossed.now.left.now ≤ crossed.now.power + 1 }
    requires residue { factor < modulus_of ring }
    ensures { IfOk result (IsLessCrossed ring start.now crossed.now.left.now crossed.now.right.now
        crossed.now.power factor) }
{
    let mut sum = Accumulator::new(alloc, ring, start.degree());
    sum.add_scaled(start, 1)?;
    for h in 0..crossed.left.len() {
        subtract_product(&mut sum, crossed, h, start.degree())?;
    }
    scaled(alloc, ring, &sum.finish()?, factor)
}

/// Subtracts the part of degree r of left[h] * right[power - h]: with series a and w the sum over
/// s of a(s) * w(r-s).
fn subtract_product(
    sum: &mut Accumulator,
    crossed: &Crossed,
    h: usize,
    degree: u32,
) -> Result<(), OutOfMemory>
    requires left { AreOver sum.old.ring crossed.now.left.now }
    requires right { AreOver sum.old.ring crossed.now.right.now }
    requires place { (h < length crossed.now.left.now) × (h ≤ crossed.now.power) }
    requires degree { sum.old.degree ≡ degree }
    requires permitted { degree ≤ 4095 }
    ensures { OnOk result (SubtractsFrom sum.old sum.new (crossed_part sum.old.ring degree
        (parts_at crossed.now.left.now h)
        (parts_at crossed.now.right.now (crossed.now.power - h)))) }
{
    for s in 0..degree + 1 {
        subtract_parts(sum, crossed, h, degree, s)?;
    }
    Ok(())
}

/// Subtracts a(s) * w(r-s), which is 0 where a part or a series is past the end.
fn subtract_parts(
    sum: &mut Accumulator,
    crossed: &Crossed,
    h: usize,
    degree: u32,
    s: u32,
) -> Result<(), OutOfMemory>
    requires left { AreOver sum.old.ring crossed.now.left.now }
    requires right { AreOver sum.old.ring crossed.now.right.now }
    requires place { (h < length crossed.now.left.now) × (h ≤ crossed.now.power) }
    requires degree { sum.old.degree ≡ degree }
    requires permitted { degree ≤ 4095 }
    requires part { s ≤ degree }
    ensures { OnOk result (SubtractsFrom sum.old sum.new (facing_parts sum.old.ring degree
        (parts_at crossed.now.left.now h)
        (parts_at crossed.now.right.now (crossed.now.power - h)) s)) }
{
    let other = crossed.power - h;
    if other >= crossed.right.len() {
        return Ok(());
    }
    let left = &crossed.left[h];
    let right = &crossed.right[other];
    if s >= left.len() {
        return Ok(());
    }
    if degree - s >= right.len() {
        return Ok(());
    }
    sum.add_product(left.part(s), right.part(degree - s), true)
}
