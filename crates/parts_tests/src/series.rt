//! Sums of products of residues, and products of series by hand.
ghost use Rattle.std.specs.Prelude.{◌≡◌, ◌<◌, slice_index, IfOk};
ghost use Rattle.parts.specs.Rings.{modulus_of, variables_of, weights_of};

use parts::{Crossed, Part, Ring, Series, less_crossed, product, scaled};
use ps_model::OutOfMemory;
use residue::{Modulus, ProductSum};
use std::alloc::Global;
use std::sync::Arc;
use std::test::Fail;

#[test]
fn products_are_summed_exactly(rt: HostRuntime) -> Result<(), Fail> {
    // nine times (m - 1)^2 leaves 9, for each way to add up
    for m in [
        2,
        101,
        65537,
        998244353,
        4294967297,
        9223372036854775783,
        9223372036854775807,
    ] {
        let modulus = Modulus::new(m)?;
        let last = modulus.neg(modulus.reduce(1));
        let mut sum = ProductSum::new(modulus);
        sum.add(&[last], &[last]);
        sum.add(
            &[last, last, last, last, last, last, last, last],
            &[last, last, last, last, last, last, last, last],
        );
        assert_eq!(rt; sum.residue(), modulus.reduce(9), "modulo {m}");
        sum.clear();
        sum.add(
            &[last, last, last, last, last],
            &[last, last, last, last, last],
        );
        assert_eq!(rt;
            sum.residue(),
            modulus.reduce(5),
            "modulo {m}, side by side"
        );
    }
    Ok(())
}

/// The series 1 + v for the variable at a place.
fn one_and_variable(alloc: Global, ring: Ring, place: u32) -> Result<Series, OutOfMemory>
    requires place { place < variables_of ring }
    requires light { slice_index (weights_of ring) place ≡ 1 }
    ensures { IfOk result (λ series. series.ring ≡ ring) }
{
    let mut series = Series::new(alloc, ring);
    series.push(&Arc::new(alloc, Part::constant(alloc, ring, 1)?)?)?;
    series.push(&Arc::new(alloc, Part::variable(alloc, ring, place)?)?)?;
    Ok(series)
}

#[test]
fn a_part_is_lost_again(rt: HostRuntime) -> Result<(), Fail> {
    let alloc = rt.alloc();
    let ring = Ring::new(Modulus::new(7)?, 1);
    let mut series = one_and_variable(alloc, ring, 0)?;
    let x = Part::variable(alloc, ring, 0)?;
    assert_eq!(rt; series.len(), 2);
    assert!(rt; series.part(1).terms() == x.terms());
    series.pop();
    assert_eq!(rt; series.len(), 1);
    Ok(())
}

/// Whether 3 * (5 x^2 - (1 + x)^2 at degree 2) is 3 * 4 x^2 = 5 x^2, modulo 7.
fn a_square_is_taken_away(alloc: Global, ring: Ring) -> Result<bool, OutOfMemory>
    requires some { 0 < variables_of ring }
    requires light { slice_index (weights_of ring) 0 ≡ 1 }
    requires modulus { modulus_of ring ≡ 7 }
{
    let x = Part::variable(alloc, ring, 0)?;
    let square = product(alloc, ring, &x, &x)?;
    let left = one_and_variable(alloc, ring, 0)?;
    let right = one_and_variable(alloc, ring, 0)?;
    let start = scaled(alloc, ring, &square, 5)?;
    let crossed = Crossed {
        left: &[left],
        right: &[right],
        power: 0,
    };
    let rest = less_crossed(alloc, ring, &start, &crossed, 3)?;
    Ok(rest.terms() == start.terms())
}

#[test]
fn a_product_is_taken_away(rt: HostRuntime) -> Result<(), Fail> {
    let alloc = rt.alloc();
    let modulus = Modulus::new(7)?;
    // side by side in one variable and in two, by parts in three
    assert!(rt; a_square_is_taken_away(alloc, Ring::new(modulus, 1))?);
    assert!(rt; a_square_is_taken_away(alloc, Ring::new(modulus, 2))?);
    assert!(rt; a_square_is_taken_away(alloc, Ring::new(modulus, 3))?);
    Ok(())
}
