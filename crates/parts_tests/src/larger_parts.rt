//! Sums and products at the sizes that matter, beside the plain sum over all pairs or numbers by hand.
ghost use Rattle.std.specs.Prelude.{◌≡◌, ◌+◌, ◌<◌, ◌≤◌, replicate, IfOk};
ghost use Rattle.parts.specs.PartValue.{IsPartOf};
ghost use Rattle.parts.specs.Rings.{modulus_of, variables_of, weights_of};

use parts::{Accumulator, Monomial, Part, Ring, Term, product, scaled, sum};
use ps_model::OutOfMemory;
use residue::Modulus;
use std::alloc::Global;
use std::test::Fail;

/// The sum of the products of one term and those whose powers of the second variable add to k.
fn row_total(modulus: Modulus, term: &Term, others: &[Term], k: u64) -> u64 {
    let mut total = 0;
    for other in others {
        if u64::from(term.monomial.power(1)) + u64::from(other.monomial.power(1)) == k {
            let pair = u128::from(term.coefficient) * u128::from(other.coefficient);
            let residue = (pair % u128::from(modulus.value())) as u64;
            total = modulus.reduce(modulus.reduce(total) + modulus.reduce(residue));
        }
    }
    total
}

/// The coefficient at the power k of the second of two variables, over all pairs of terms.
fn total_over_pairs(modulus: Modulus, a: &[Term], b: &[Term], k: u64) -> u64 {
    let mut total = 0;
    for term in a {
        let row = row_total(modulus, term, b, k);
        total = modulus.reduce(modulus.reduce(total) + modulus.reduce(row));
    }
    total
}

/// A part of degree 1 to the power `times`.
fn power(alloc: Global, ring: Ring, f: &Part, times: u32) -> Result<Part, OutOfMemory>
    requires low { times ≤ 4095 }
    requires degree { f.now.degree ≡ 1 }
    requires part { IsPartOf ring f.now }
    ensures degree { IfOk result (λ p. p.degree ≡ times) }
    ensures part { IfOk result (IsPartOf ring) }
{
    let mut power = Part::constant(alloc, ring, 1)?;
    for _ in 0..times {
        power = product(alloc, ring, &power, f)?;
    }
    Ok(power)
}

/// a * x + b * y, of parts x and y of degree 1.
fn linear(
    alloc: Global,
    ring: Ring,
    a: u64,
    x: &Part,
    b: u64,
    y: &Part,
) -> Result<Part, OutOfMemory>
    requires degrees { (x.now.degree ≡ 1) × (y.now.degree ≡ 1) }
    requires residues { (a < modulus_of ring) × (b < modulus_of ring) }
    requires parts { IsPartOf ring x.now × IsPartOf ring y.now }
    ensures degree { IfOk result (λ p. p.degree ≡ 1) }
    ensures part { IfOk result (IsPartOf ring) }
{
    let ax = scaled(alloc, ring, x, a)?;
    let by = scaled(alloc, ring, y, b)?;
    sum(alloc, ring, &ax, &by)
}

/// Twice a part, less a product of its degree, in one accumulator.
fn twice_less_product(
    alloc: Global,
    ring: Ring,
    whole: &Part,
    a: &Part,
    b: &Part,
) -> Result<Part, OutOfMemory>
    requires low { whole.now.degree ≤ 4095 }
    requires degree { whole.now.degree ≡ a.now.degree + b.now.degree }
    requires residue { 2 < modulus_of ring }
    requires whole { IsPartOf ring whole.now }
    requires factors { IsPartOf ring a.now × IsPartOf ring b.now }
{
    let mut total = Accumulator::new(alloc, ring, whole.degree());
    total.add_scaled(whole, 2)?;
    total.add_product(a, b, true)?;
    total.finish()
}

#[test]
fn one_variable_is_summed_at_the_greatest_degree(rt: HostRuntime) -> Result<(), Fail> {
    let alloc = rt.alloc();
    let ring = Ring::new(Modulus::new(1000003)?, 1);
    let x = scaled(alloc, ring, &Part::variable(alloc, ring, 0)?, 3)?;
    let x2047 = power(alloc, ring, &x, 2047)?;
    let x2048 = power(alloc, ring, &x, 2048)?;
    let top = product(alloc, ring, &x2047, &x2048)?;
    let mut total = Accumulator::new(alloc, ring, 4095);
    total.add_product(&x2047, &x2048, false)?;
    total.add_scaled(&top, 5)?;
    let part = total.finish()?;
    let at = Monomial::of(ring, [4095, 0, 0, 0, 0, 0, 0, 0]);
    // 6 * 3^4095 modulo 1000003, by another program
    assert_eq!(rt; part.coefficient(&at), 97133);
    assert_eq!(rt; part.terms().len(), 1);
    Ok(())
}

#[test]
fn a_product_in_cells_is_the_sum_over_all_pairs(rt: HostRuntime) -> Result<(), Fail> {
    let alloc = rt.alloc();
    let modulus = Modulus::new(9223372036854775783)?;
    let ring = Ring::new(modulus, 2);
    let x = Part::variable(alloc, ring, 0)?;
    let y = Part::variable(alloc, ring, 1)?;
    // (x + 2y)^100, and (x + 2y)^98 * (3x + 2y)^2
    let one = linear(alloc, ring, 1, &x, 2, &y)?;
    let other = linear(alloc, ring, 3, &x, 2, &y)?;
    let a = power(alloc, ring, &one, 100)?;
    let b98 = power(alloc, ring, &one, 98)?;
    let b2 = power(alloc, ring, &other, 2)?;
    let b = product(alloc, ring, &b98, &b2)?;
    let whole = product(alloc, ring, &a, &b)?;
    assert_eq!(rt; a.terms().len(), 101);
    assert_eq!(rt; b.terms().len(), 101);
    for k in 0..201_u16 {
        let at = Monomial::of(ring, [200 - k, k, 0, 0, 0, 0, 0, 0]);
        assert_eq!(rt;
            whole.coefficient(&at),
            total_over_pairs(modulus, a.terms(), b.terms(), u64::from(k)),
            "at the power {k} of y"
        );
    }
    Ok(())
}

/// The sum of the four variables from `first` on.
fn four_variables(alloc: Global, ring: Ring, first: u32) -> Result<Part, OutOfMemory>
    requires variables { first + 3 < variables_of ring }
    requires weights { weights_of ring ≡ replicate (variables_of ring) 1 }
    ensures degree { IfOk result (λ p. p.degree ≡ 1) }
    ensures part { IfOk result (IsPartOf ring) }
{
    let mut total = Accumulator::new(alloc, ring, 1);
    for i in first..first + 4 {
        total.add_scaled(&Part::variable(alloc, ring, i)?, 1)?;
    }
    total.finish()
}

#[test]
fn sorted_terms_of_eight_variables_are_added(rt: HostRuntime) -> Result<(), Fail> {
    let alloc = rt.alloc();
    let ring = Ring::new(Modulus::new(9223372036854775783)?, 8);
    let left = four_variables(alloc, ring, 0)?;
    let right = four_variables(alloc, ring, 4)?;
    let four = power(alloc, ring, &left, 4)?;
    let five = power(alloc, ring, &right, 5)?;
    let nine = product(alloc, ring, &four, &five)?;
    // C(7, 3) * C(8, 3) terms, and 4! * 5! / 2! at one that has a square of the fifth variable
    assert_eq!(rt; nine.terms().len(), 1960);
    let at = Monomial::of(ring, [1, 1, 1, 1, 2, 1, 1, 1]);
    assert_eq!(rt; nine.coefficient(&at), 1440);
    let part = twice_less_product(alloc, ring, &nine, &five, &four)?;
    assert_eq!(rt; part.coefficient(&at), 1440);
    assert_eq!(rt; part.terms().len(), 1960);
    Ok(())
}
