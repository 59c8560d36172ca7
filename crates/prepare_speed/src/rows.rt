//! Rows with all monomials, to be prepared.
ghost use Rattle.std.specs.Prelude.{◌≡◌, ◌+◌, ◌<◌, ◌≤◌, ◌∷◌, [], length, slice_index, IfOk};
ghost use Rattle.parts.specs.PartValue.{IsPartOf};
ghost use Rattle.parts.specs.Rings.{modulus_of, variables_of, weights_of};
ghost use Rattle.parts.specs.RowsOfParts.{parts_of, parts_in, IsRowOfParts, AreRowsOfParts};
ghost use Rattle.prepare_speed.specs.Prepared.{ArePowers};

use parts::{Accumulator, Part, Ring, product, scaled};
use ps_model::OutOfMemory;
use std::alloc::Global;
use std::sync::Arc;

/// The powers of both variables, from the power 0 on.
#[derive(Clone, Copy)]
struct Powers<'a> {
    alloc: Global,
    ring: Ring,
    x: &'a [Part],
    y: &'a [Part],
}

/// The powers of variable i from 0 up to a degree.
fn powers_of(alloc: Global, ring: Ring, i: u32, degree: u32) -> Result<Vec<Part>, OutOfMemory>
    requires variable { i < variables_of ring }
    requires weight { slice_index (weights_of ring) i ≡ 1 }
    requires degree { degree ≤ 4095 }
    ensures count { IfOk result (λ powers. length powers.items ≡ degree + 1) }
    ensures powers { IfOk result (λ powers. ArePowers ring powers.items) }
{
    let variable = Part::variable(alloc, ring, i)?;
    let mut powers = Vec::new(alloc);
    powers.push(Part::constant(alloc, ring, 1)?)?;
    for k in 0..degree {
        let next = product(alloc, ring, &powers[k as usize], &variable)?;
        powers.push(next)?;
    }
    Ok(powers)
}

/// The next number that looks random, by xorshift.
fn next_number(state: &mut u64) -> u64 {
    *state ^= *state << 13;
    *state ^= *state >> 7;
    *state ^= *state << 17;
    *state
}

/// A part with all monomials of its degree.
fn dense_part(powers: &Powers, state: &mut u64, degree: u32) -> Result<Part, OutOfMemory>
    requires low { degree ≤ 4095 }
    requires x_count { degree < length powers.now.x.now }
    requires y_count { degree < length powers.now.y.now }
    requires x { ArePowers powers.now.ring powers.now.x.now }
    requires y { ArePowers powers.now.ring powers.now.y.now }
    ensures degree { IfOk result (λ p. p.degree ≡ degree) }
    ensures part { IfOk result (IsPartOf powers.now.ring) }
{
    let mut sum = Accumulator::new(powers.alloc, powers.ring, degree);
    let most = powers.ring.modulus().value() - 1;
    for i in 0..degree + 1 {
        let c = next_number(state) % most + 1;
        let left = scaled(powers.alloc, powers.ring, &powers.x[i as usize], c)?;
        sum.add_product(&left, &powers.y[(degree - i) as usize], false)?;
    }
    sum.finish()
}

/// The part of a degree at Y^j: of degree 0 it is 0 below Y^2, and 1 there.
fn part_at(powers: &Powers, state: &mut u64, degree: u32, j: u32) -> Result<Part, OutOfMemory>
    requires low { degree ≤ 4095 }
    requires x_count { degree < length powers.now.x.now }
    requires y_count { degree < length powers.now.y.now }
    requires x { ArePowers powers.now.ring powers.now.x.now }
    requires y { ArePowers powers.now.ring powers.now.y.now }
    ensures degree { IfOk result (λ p. p.degree ≡ degree) }
    ensures part { IfOk result (IsPartOf powers.now.ring) }
{
    if degree > 0 || j > 2 {
        dense_part(powers, state, degree)
    } else if j == 2 {
        Part::constant(powers.alloc, powers.ring, 1)
    } else {
        Part::constant(powers.alloc, powers.ring, 0)
    }
}

/// The row of a degree, from Y^0 to Y^8.
fn row_of(powers: &Powers, state: &mut u64, degree: u32) -> Result<Vec<Arc<Part>>, OutOfMemory>
    requires low { degree ≤ 4095 }
    requires x_count { degree < length powers.now.x.now }
    requires y_count { degree < length powers.now.y.now }
    requires x { ArePowers powers.now.ring powers.now.x.now }
    requires y { ArePowers powers.now.ring powers.now.y.now }
    ensures { IfOk result (λ row. IsRowOfParts powers.now.ring 8 degree (parts_of row.items)) }
{
    let mut row = Vec::new(powers.alloc);
    for j in 0..9_u32 {
        let part = part_at(powers, state, degree, j)?;
        row.push(Arc::new(powers.alloc, part)?)?;
    }
    Ok(row)
}

/// The rows of the degrees from 0 on, in a ring of two variables of weight 1.
pub fn rows_up_to(
    alloc: Global,
    ring: Ring,
    degree: u32,
) -> Result<Vec<Vec<Arc<Part>>>, OutOfMemory>
    requires two { variables_of ring ≡ 2 }
    requires weights { weights_of ring ≡ 1 ∷ 1 ∷ [] }
    requires low { degree ≤ 4095 }
    ensures count { IfOk result (λ rows. length rows.items ≡ degree + 1) }
    ensures rows { IfOk result (λ rows. AreRowsOfParts ring 8 (parts_in rows.items)) }
{
    let x = powers_of(alloc, ring, 0, degree)?;
    let y = powers_of(alloc, ring, 1, degree)?;
    let powers = Powers {
        alloc,
        ring,
        x: &x,
        y: &y,
    };
    let mut state = 88172645463325252;
    let mut rows = Vec::new(alloc);
    for r in 0..degree + 1 {
        rows.push(row_of(&powers, &mut state, r)?)?;
    }
    Ok(rows)
}
