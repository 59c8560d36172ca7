//! The rows of the next degree, by the recurrences of Weierstrass preparation ('Weierstrass' and
//! 'BM21' in docs/GLOSSARY.md).
//!
//! p = Y^k + a_(k-1) Y^(k-1) + .. + a_0, u = w_0 + .. + w_q Y^q, and G = p * u is the sum of the
//! b_l Y^l, with w_h = 0 for h > q. Here f(r) is the part of degree r of a series f. The parts of
//! degree r of both sides at Y^l give, for l below k and for l from k on,
//!
//! a_i(r) = w_0(0)^-1 * (b_i(r) - sum over h < i of (a_h * w_(i-h))(r)
//!     - sum over 0 < s < r of a_i(s) * w_0(r-s))
//! w_j(r) = b_(k+j)(r) - sum over i < k of (a_i * w_(k+j-i))(r)
//!
//! Since each a_h(0) is 0, (a_h * w_j)(r) is the sum over 0 < s <= r of a_h(s) * w_j(r-s). A part that
//! isn't there yet counts as 0: so each new part is one of b_l less the part of degree r at Y^l of the
//! product of the series of p below Y^k, so far as they are there, and those of u.
ghost use Rattle.std.specs.Prelude.{◌≡◌, suc, ◌+◌, ◌<◌, ◌≤◌, ◌++◌, ◌∷◌, [], length, IfOk};
ghost use Rattle.std.specs.Prelude.{OnOk, OnErr};
ghost use Rattle.std.specs.Arc.{arc_value};
ghost use Rattle.parts.specs.PartValue.{IsPartOf};
ghost use Rattle.parts.specs.Rings.{modulus_of};
ghost use Rattle.parts.specs.RowsOfParts.{parts_of, parts_in, IsRowOfParts, AreRowsOfParts};
ghost use Rattle.parts.specs.SeriesParts.{AreOver, IsLessCrossed};
ghost use Rattle.prepare.specs.Columns.{AreColumns, AreBegun, HasNoneAtStart, HasNext, HasSeries};
ghost use Rattle.prepare.specs.PrepValue.{IsPrep};
ghost use Rattle.prepare.specs.Recurrence.{IsNextOfP, IsNextOfU};

use crate::factor::{Factor, cut_back};
use parts::{Crossed, Part, Ring, Series, less_crossed};
use ps_model::OutOfMemory;
use std::alloc::Global;
use std::sync::Arc;

/// What stays the same: p has degree k in Y, u no power above q, and `inverse` is w_0(0)^-1.
#[derive(Clone, Copy)]
pub struct Given {
    pub alloc: Global,
    pub ring: Ring,
    pub k: usize,
    pub q: usize,
    pub inverse: u64,
}

/// factor times what is left of a part, to be shared.
fn next_part(
    given: &Given,
    start: &Part,
    left: &[Series],
    right: &[Series],
    power: usize,
    factor: u64,
) -> Result<Arc<Part>, OutOfMemory>
    requires start { IsPartOf given.now.ring start.now }
    requires permitted { start.now.degree ≤ 4095 }
    requires left { AreOver given.now.ring left.now }
    requires right { AreOver given.now.ring right.now }
    requires places { length left.now ≤ power + 1 }
    requires residue { factor < modulus_of given.now.ring }
    ensures { IfOk result (λ part. IsLessCrossed given.now.ring start.now left.now right.now power
        factor (arc_value part)) }
{
    let crossed = Crossed { left, right, power };
    let part = less_crossed(given.alloc, given.ring, start, &crossed, factor)?;
    Ok(Arc::new(given.alloc, part)?)
}

/// Row r of p: a_0(r), .., a_(k-1)(r), and 0 at Y^k. The series of p get their parts.
///
/// a_i(r) = w_0(0)^-1 * (b_i(r) - sum over h < i of (a_h * w_(i-h))(r)
///     - sum over 0 < s < r of a_i(s) * w_0(r-s)); `row` has each b_l(r).
pub fn next_of_p(
    given: &Given,
    p: &mut Factor,
    u: &Factor,
    row: &[Arc<Part>],
) -> Result<Vec<Arc<Part>>, OutOfMemory>
    requires p_rows { AreRowsOfParts given.now.ring given.now.k (parts_in p.old.rows.items) }
    requires u_rows { AreRowsOfParts given.now.ring given.now.q (parts_in u.now.rows.items) }
    requires same { length u.now.rows.items ≡ length p.old.rows.items }
    requires begun { 1 ≤ length p.old.rows.items }
    requires permitted { length p.old.rows.items ≤ 4095 }
    requires few { given.now.k ≤ 32 }
    requires residue { given.now.inverse < modulus_of given.now.ring }
    requires none { HasNoneAtStart given.now.k (parts_in p.old.rows.items) }
    requires p_series { AreColumns given.now.ring given.now.k (parts_in p.old.rows.items)
        p.old.series.items }
    requires u_series { AreColumns given.now.ring (suc given.now.q) (parts_in u.now.rows.items)
        u.now.series.items }
    requires row { IsRowOfParts given.now.ring (given.now.k + given.now.q)
        (length p.old.rows.items) (parts_of row.now) }
    ensures next { IfOk result (λ next. IsNextOfP given.now.ring given.now.k given.now.inverse
        (parts_in p.old.rows.items) (parts_in u.now.rows.items) (parts_of row.now)
        (parts_of next.items)) }
    ensures series { IfOk result (λ next. AreColumns given.now.ring given.now.k
        (parts_in p.old.rows.items ++ parts_of next.items ∷ []) p.new.series.items) }
    ensures begin { AreBegun given.now.ring given.now.k (parts_in p.old.rows.items)
        p.new.series.items }
    ensures rows { p.new.rows.items ≡ p.old.rows.items }
{
    let degree = p.rows.len() as u32;
    let mut last = Vec::new(given.alloc);
    for i in 0..given.k {
        let part = next_part(
            given,
            &row[i],
            &p.series[..i + 1],
            &u.series,
            i,
            given.inverse,
        )?;
        p.series[i].push(&part)?;
        last.push(part)?;
    }
    last.push(Arc::new(given.alloc, Part::zero(given.alloc, degree))?)?;
    Ok(last)
}

/// Row r of u: w_0(r), .., w_q(r). The series of u get their parts.
///
/// w_j(r) = b_(k+j)(r) - sum over i < k of (a_i * w_(k+j-i))(r); `last` is row r of p, which its
/// series have, and `row` has each b_l(r).
pub fn next_of_u(
    given: &Given,
    p: &Factor,
    u: &mut Factor,
    last: &[Arc<Part>],
    row: &[Arc<Part>],
) -> Result<Vec<Arc<Part>>, OutOfMemory>
    requires p_rows { AreRowsOfParts given.now.ring given.now.k (parts_in p.now.rows.items) }
    requires u_rows { AreRowsOfParts given.now.ring given.now.q (parts_in u.old.rows.items) }
    requires same { length u.old.rows.items ≡ length p.now.rows.items }
    requires begun { 1 ≤ length p.now.rows.items }
    requires permitted { length p.now.rows.items ≤ 4095 }
    requires few { given.now.k + given.now.q ≤ 32 }
    requires none { HasNoneAtStart given.now.k (parts_in p.now.rows.items) }
    requires last { IsRowOfParts given.now.ring given.now.k (length p.now.rows.items)
        (parts_of last.now) }
    requires p_series { AreColumns given.now.ring given.now.k
        (parts_in p.now.rows.items ++ parts_of last.now ∷ []) p.now.series.items }
    requires u_series { AreColumns given.now.ring (suc given.now.q) (parts_in u.old.rows.items)
        u.old.series.items }
    requires row { IsRowOfParts given.now.ring (given.now.k + given.now.q)
        (length p.now.rows.items) (parts_of row.now) }
    ensures next { IfOk result (λ next. IsNextOfU given.now.ring given.now.k given.now.q
        (parts_in p.now.rows.items) (parts_of last.now) (parts_in u.old.rows.items)
        (parts_of row.now) (parts_of next.items)) }
    ensures series { IfOk result (λ next. AreColumns given.now.ring (suc given.now.q)
        (parts_in u.old.rows.items ++ parts_of next.items ∷ []) u.new.series.items) }
    ensures begin { AreBegun given.now.ring (suc given.now.q) (parts_in u.old.rows.items)
        u.new.series.items }
    ensures rows { u.new.rows.items ≡ u.old.rows.items }
{
    let _last = last;
    let mut next = Vec::new(given.alloc);
    for j in 0..given.q + 1 {
        let part = next_part(
            given,
            &row[given.k + j],
            &p.series,
            &u.series,
            given.k + j,
            1,
        )?;
        u.series[j].push(&part)?;
        next.push(part)?;
    }
    Ok(next)
}

/// Adds the rows of the next degree to both factors. Where memory runs out a series may have one
/// part more than there are rows.
fn add_rows(
    given: &Given,
    p: &mut Factor,
    u: &mut Factor,
    row: &[Arc<Part>],
) -> Result<(), OutOfMemory>
    requires is { IsPrep (record {
      ring = given.now.ring;
      k = given.now.k;
      q = given.now.q;
      rows_p = parts_in p.old.rows.items;
      rows_u = parts_in u.old.rows.items;
    }) given.now.inverse }
    requires series { HasSeries (record {
      ring = given.now.ring;
      k = given.now.k;
      q = given.now.q;
      rows_p = parts_in p.old.rows.items;
      rows_u = parts_in u.old.rows.items;
    }) p.old.series.items u.old.series.items }
    requires permitted { length p.old.rows.items ≤ 4095 }
    requires row { IsRowOfParts given.now.ring (given.now.k + given.now.q)
        (length p.old.rows.items) (parts_of row.now) }
    ensures ok { OnOk result (HasNext (record {
      ring = given.now.ring;
      k = given.now.k;
      q = given.now.q;
      rows_p = parts_in p.old.rows.items;
      rows_u = parts_in u.old.rows.items;
    }) (record {
      ring = given.now.ring;
      k = given.now.k;
      q = given.now.q;
      rows_p = parts_in p.new.rows.items;
      rows_u = parts_in u.new.rows.items;
    }) given.now.inverse (parts_of row.now)) }
    ensures p_columns { OnOk result (AreColumns given.now.ring given.now.k
        (parts_in p.new.rows.items) p.new.series.items) }
    ensures u_columns { OnOk result (AreColumns given.now.ring (suc given.now.q)
        (parts_in u.new.rows.items) u.new.series.items) }
    ensures p_rows { OnErr result (p.new.rows.items ≡ p.old.rows.items) }
    ensures u_rows { OnErr result (u.new.rows.items ≡ u.old.rows.items) }
    ensures p_begin { AreBegun given.now.ring given.now.k (parts_in p.old.rows.items)
        p.new.series.items }
    ensures u_begin { AreBegun given.now.ring (suc given.now.q) (parts_in u.old.rows.items)
        u.new.series.items }
{
    let row_p = next_of_p(given, p, u, row)?;
    let row_u = next_of_u(given, p, u, &row_p, row)?;
    p.rows.push(row_p)?;
    if u.rows.push(row_u).is_err() {
        let _ = p.rows.pop();
        return Err(OutOfMemory);
    }
    Ok(())
}

/// Adds the next degree to both factors; where memory runs out they are as they were.
pub fn add_degree(
    given: &Given,
    p: &mut Factor,
    u: &mut Factor,
    row: &[Arc<Part>],
) -> Result<(), OutOfMemory>
    requires is { IsPrep (record {
      ring = given.now.ring;
      k = given.now.k;
      q = given.now.q;
      rows_p = parts_in p.old.rows.items;
      rows_u = parts_in u.old.rows.items;
    }) given.now.inverse }
    requires series { HasSeries (record {
      ring = given.now.ring;
      k = given.now.k;
      q = given.now.q;
      rows_p = parts_in p.old.rows.items;
      rows_u = parts_in u.old.rows.items;
    }) p.old.series.items u.old.series.items }
    requires permitted { length p.old.rows.items ≤ 4095 }
    requires row { IsRowOfParts given.now.ring (given.now.k + given.now.q)
        (length p.old.rows.items) (parts_of row.now) }
    ensures ok { OnOk result (HasNext (record {
      ring = given.now.ring;
      k = given.now.k;
      q = given.now.q;
      rows_p = parts_in p.old.rows.items;
      rows_u = parts_in u.old.rows.items;
    }) (record {
      ring = given.now.ring;
      k = given.now.k;
      q = given.now.q;
      rows_p = parts_in p.new.rows.items;
      rows_u = parts_in u.new.rows.items;
    }) given.now.inverse (parts_of row.now)) }
    ensures p_rows { OnErr result (p.new.rows.items ≡ p.old.rows.items) }
    ensures u_rows { OnErr result (u.new.rows.items ≡ u.old.rows.items) }
    ensures p_columns { AreColumns given.now.ring given.now.k (parts_in p.new.rows.items)
        p.new.series.items }
    ensures u_columns { AreColumns given.now.ring (suc given.now.q) (parts_in u.new.rows.items)
        u.new.series.items }
{
    let r = p.rows.len() as u32;
    if add_rows(given, p, u, row).is_err() {
        cut_back(&mut p.series, r);
        cut_back(&mut u.series, r);
        return Err(OutOfMemory);
    }
    Ok(())
}
