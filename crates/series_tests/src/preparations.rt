//! Values by hand, each refusal once, and a count.
ghost use Rattle.std.specs.Prelude.{◌≡◌, ◌-◌, ◌<◌, ◌≤◌, ◌∷◌, [], length, IfOk, OnOk};
ghost use Rattle.parts.specs.PartValue.{IsPartOf};
ghost use Rattle.parts.specs.Rings.{weights_of};
ghost use Rattle.prepare.specs.PrepValue.{degrees_of};
ghost use Rattle.parts.specs.RowsOfParts.{parts_of, IsRowOfParts};

use parts::{Part, Ring, product, scaled};
use prepare::{Prep, PrepError, Tally};
use ps_model::OutOfMemory;
use residue::Modulus;
use std::alloc::Global;
use std::sync::Arc;
use std::test::Fail;

/// A row of multiples of a part.
fn row(
    alloc: Global,
    ring: Ring,
    part: &Part,
    numbers: &[u64],
) -> Result<Vec<Arc<Part>>, OutOfMemory>
    requires some { 1 ≤ length numbers.now }
    requires part { IsPartOf ring part.now }
    ensures length { IfOk result (λ row. length row.items ≡ length numbers.now) }
    ensures row { IfOk result (λ row.
        IsRowOfParts ring (length row.items - 1) part.now.degree (parts_of row.items)) }
{
    let mut row = Vec::new(alloc);
    for c in numbers {
        let multiple = scaled(alloc, ring, part, *c)?;
        row.push(Arc::new(alloc, multiple)?)?;
    }
    Ok(row)
}

/// The one variable of a ring, of weight 1.
fn only_variable(alloc: Global, ring: Ring) -> Result<Part, OutOfMemory>
    requires { weights_of ring ≡ 1 ∷ [] }
    ensures degree { IfOk result (λ p. p.degree ≡ 1) }
    ensures part { IfOk result (IsPartOf ring) }
{
    Part::variable(alloc, ring, 0)
}

/// The preparation of 20 * Y + Y^2 + x * (10 + Y) at k = 1, up to degree 2.
fn prepare_twice(alloc: Global, ring: Ring, tally: &mut Tally) -> Result<Prep, PrepError>
    requires none { tally.old ≡ 0 }
    requires weights { weights_of ring ≡ 1 ∷ [] }
{
    let one = Part::constant(alloc, ring, 1)?;
    let x = only_variable(alloc, ring)?;
    let square = product(alloc, ring, &x, &x)?;
    let row_0 = row(alloc, ring, &one, &[0, 20, 1])?;
    let mut prep = Prep::begin(alloc, ring, 1, &row_0, tally)?;
    let row_1 = row(alloc, ring, &x, &[10, 1, 0])?;
    prep.step(&row_1, tally)?;
    let row_2 = row(alloc, ring, &square, &[0, 0, 0])?;
    prep.step(&row_2, tally)?;
    Ok(prep)
}

/// The coefficients of a row whose parts have one term at most.
fn coefficients(alloc: Global, row: &[Arc<Part>]) -> Result<Vec<u64>, OutOfMemory> {
    let mut numbers = Vec::new(alloc);
    for part in row {
        match part.terms() {
            [] => numbers.push(0)?,
            [term, ..] => numbers.push(term.coefficient)?,
        }
    }
    Ok(numbers)
}

#[test]
fn two_steps_are_taken(rt: HostRuntime) -> Result<(), Fail> {
    let alloc = rt.alloc();
    let ring = Ring::new(Modulus::new(101)?, 1);
    let mut tally = Tally::new();
    let prepared = prepare_twice(alloc, ring, &mut tally);
    let steps = tally.finish();
    let prep = prepared?;
    assert_eq!(rt; steps, 3);
    assert_eq!(rt; prep.degrees(), 3);
    for (r, in_p, in_u) in [
        (0, [0, 1], [20, 1]),
        (1, [51, 0], [51, 0]),
        (2, [77, 0], [24, 0]),
    ] {
        assert!(rt; r < prep.degrees());
        assert_eq!(rt;
            coefficients(alloc, prep.row_p(r))?.as_slice(),
            in_p.as_slice(),
            "p at {r}"
        );
        assert_eq!(rt;
            coefficients(alloc, prep.row_u(r))?.as_slice(),
            in_u.as_slice(),
            "u at {r}"
        );
    }
    Ok(())
}

/// The preparation of Y^2 + Y + x at k = 1, up to degree 4095.
fn prepare_long(alloc: Global, ring: Ring, tally: &mut Tally) -> Result<Prep, PrepError>
    requires none { tally.old ≡ 0 }
    requires weights { weights_of ring ≡ 1 ∷ [] }
    ensures degrees { IfOk result (λ prep. degrees_of prep ≡ 4096) }
    ensures ticks { OnOk result (tally.new ≡ 4096) }
{
    let one = Part::constant(alloc, ring, 1)?;
    let row_0 = row(alloc, ring, &one, &[0, 1, 1])?;
    let mut prep = Prep::begin(alloc, ring, 1, &row_0, tally)?;
    let x = only_variable(alloc, ring)?;
    let row_1 = row(alloc, ring, &x, &[1, 0, 0])?;
    prep.step(&row_1, tally)?;
    for r in 2..4096_u32 {
        let zero = Part::zero(alloc, r);
        let next = row(alloc, ring, &zero, &[0, 0, 0])?;
        prep.step(&next, tally)?;
    }
    Ok(prep)
}

// With p = Y + a and u = Y + 1 - a the part of a of degree r is the Catalan number r - 1 times x^r.
// The Catalan number 4094 leaves 982387647.
#[test]
fn the_greatest_degree_is_reached(rt: HostRuntime) -> Result<(), Fail> {
    let alloc = rt.alloc();
    let ring = Ring::new(Modulus::new(998244353)?, 1);
    let mut tally = Tally::new();
    let prepared = prepare_long(alloc, ring, &mut tally);
    assert_eq!(rt; tally.count(), 4096);
    tally.finish();
    let prep = prepared?;
    assert_eq!(rt; prep.degrees(), 4096);
    let last = coefficients(alloc, prep.row_p(4095))?;
    assert_eq!(rt; last.as_slice(), [982387647, 0].as_slice());
    let last = coefficients(alloc, prep.row_u(4095))?;
    assert_eq!(rt; last.as_slice(), [15856706, 0].as_slice());
    Ok(())
}

/// The preparation of a polynomial with these constants at k = 1.
fn begin(
    alloc: Global,
    ring: Ring,
    numbers: &[u64; 3],
    tally: &mut Tally,
) -> Result<Prep, PrepError>
    requires { tally.old ≡ 0 }
{
    let one = Part::constant(alloc, ring, 1)?;
    let row_0 = row(alloc, ring, &one, numbers)?;
    Prep::begin(alloc, ring, 1, &row_0, tally)
}

#[test]
fn rows_without_a_preparation_are_refused(rt: HostRuntime) -> Result<(), Fail> {
    for (modulus, numbers, want, text) in [
        (
            101,
            [1, 20, 1],
            PrepError::NotPrepared { power: 0 },
            "not zero at Y^0",
        ),
        (
            6,
            [0, 3, 1],
            PrepError::NotAUnit { gcd: 3 },
            "not a unit: common divisor 3",
        ),
    ] {
        let ring = Ring::new(Modulus::new(modulus)?, 1);
        let mut tally = Tally::new();
        let prepared = begin(rt.alloc(), ring, &numbers, &mut tally);
        assert_eq!(rt; tally.finish(), 0);
        match prepared {
            Err(error) => {
                assert_eq!(rt; error, want);
                let printed = format!(in rt.alloc(); "{error}")?;
                assert_eq!(rt; printed.as_str(), text);
            }
            Ok(_) => panic!(rt; "prepared modulo {modulus}"),
        }
    }
    Ok(())
}

#[test]
fn tallies_are_merged(rt: HostRuntime) -> Result<(), Fail> {
    let alloc = rt.alloc();
    let ring = Ring::new(Modulus::new(101)?, 1);
    let mut steps = Tally::new();
    let first = prepare_twice(alloc, ring, &mut steps);
    let mut others = Tally::new();
    let second = prepare_twice(alloc, ring, &mut others);
    assert_eq!(rt; steps.count(), 3);
    assert_eq!(rt; others.count(), 3);
    steps.merge(others);
    assert_eq!(rt; steps.finish(), 6);
    first?;
    second?;
    Ok(())
}
