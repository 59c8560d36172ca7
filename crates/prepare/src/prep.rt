//! Preparations.
ghost use Rattle.std.specs.Prelude.{◌≡◌, ℕ, ◌+◌, ◌-◌, ◌*◌, ◌%◌, ◌<◌, ◌≤◌};
ghost use Rattle.std.specs.Prelude.{[], length, slice_index_or};
ghost use Rattle.parts.specs.RowsOfParts.{parts_of, IsRowOfParts};
ghost use Rattle.prepare.specs.PrepValue.{degrees_of};

use crate::error::PrepError;
use crate::factor::{Factor, begun};
use crate::first::{constant_term, lowest_below, power_of_y};
use crate::recurrence::{Given, add_degree};
use crate::tally::Tally;
use parts::{Part, Ring, share};
use ps_model::OutOfMemory;
use residue::NoInverse;
use std::alloc::Global;
use std::marker::Model;
use std::sync::Arc;

/// A polynomial in Y, so far as its degrees were given, as the product p * u of a polynomial p,
/// monic of degree k in Y, and a unit u with no power of Y above q.
///
/// p = Y^k + a_(k-1) Y^(k-1) + .. + a_0 and u = w_0 + .. + w_q Y^q; row r of p has the parts a_i(r)
/// of degree r, and place i of it belongs to Y^i; likewise row r of u has the w_j(r).
#[derive(Drop)]
pub struct Prep {
    alloc: Global,
    ring: Ring,
    k: u32,
    q: u32,
    inverse: u64,
    /// p, with the series of its coefficients below Y^k.
    p: Factor,
    /// u, with the series of all its coefficients.
    u: Factor,
}

impl Model for Prep {
    ghost use Rattle.prepare.specs.Columns.{HasSeries};
    ghost use Rattle.prepare.specs.PrepValue.{PrepValue, prep_code, IsPrep};

    ghost Value = { PrepValue };

    ghost coded = { prep_code };

    ghost use Rattle.parts.specs.RowsOfParts.{parts_in};

    ghost view = { λ prep. record {
      ring = prep.ring;
      k = prep.k;
      q = prep.q;
      rows_p = parts_in prep.p.rows.items;
      rows_u = parts_in prep.u.rows.items;
    } };

    ghost invariant = { λ prep. IsPrep (record {
      ring = prep.ring;
      k = prep.k;
      q = prep.q;
      rows_p = parts_in prep.p.rows.items;
      rows_u = parts_in prep.u.rows.items;
    }) prep.inverse × HasSeries (record {
      ring = prep.ring;
      k = prep.k;
      q = prep.q;
      rows_p = parts_in prep.p.rows.items;
      rows_u = parts_in prep.u.rows.items;
    }) prep.p.series.items prep.u.series.items };
}

impl Prep {
    ghost use Rattle.std.specs.Prelude.{◌^◌, ◌↔◌, IfOk, OnOk, OnErr};
    ghost use Rattle.parts.specs.Rings.{modulus_of};
    ghost use Rattle.parts.specs.RowsOfParts.{part_in};
    ghost use Rattle.parts.specs.Series.{constant_of};
    ghost use Rattle.prepare.specs.Calls.{IsLowest, HasNoneBelow, IsWithoutInverse, Begins, Adds};

    /// Prepares degree 0: p is Y^k there, and w_j(0) = b_(k+j)(0). `row0[l]` is b_l(0), the part of
    /// degree 0 of the coefficient of Y^l.
    pub fn begin(
        alloc: Global,
        ring: Ring,
        k: u32,
        row0: &[Arc<Part>],
        tally: &mut Tally,
    ) -> Result<Prep, PrepError>
        requires some { 1 ≤ k }
        requires within { k < length row0.now }
        requires few { length row0.now ≤ 33 }
        requires row { IsRowOfParts ring (length row0.now - 1) 0 (parts_of row0.now) }
        requires room { tally.old < 2 ^ 63 }
        ensures ok { IfOk result (Begins ring k (parts_of row0.now)) }
        ensures not_prepared { (power : ℕ) → (result ≡ Err (PrepError.NotPrepared power))
            ↔ IsLowest k (parts_of row0.now) power }
        ensures not_a_unit { (gcd : ℕ) → (result ≡ Err (PrepError.NotAUnit gcd))
            ↔ IsWithoutInverse ring k (parts_of row0.now) gcd }
        ensures ticks { OnOk result (tally.new ≡ tally.old + 1) }
        ensures no_tick { OnErr result (tally.new ≡ tally.old) }
    {
        if let Some(power) = lowest_below(row0, k) {
            return Err(PrepError::NotPrepared { power });
        }
        let constant = constant_term(ring, &row0[k as usize]);
        let inverse = match ring.modulus().inverse(constant) {
            Ok(inverse) => inverse,
            Err(NoInverse { gcd }) => return Err(PrepError::NotAUnit { gcd }),
        };
        let prep = Prep::of_row(alloc, ring, k, inverse, row0)?;
        tally.tick();
        Ok(prep)
    }

    /// The preparation of degree 0, once its row is known to have one: a_i(0) = 0 and
    /// w_j(0) = b_(k+j)(0). `inverse` is w_0(0)^-1.
    fn of_row(
        alloc: Global,
        ring: Ring,
        k: u32,
        inverse: u64,
        row0: &[Arc<Part>],
    ) -> Result<Prep, OutOfMemory>
        requires some { 1 ≤ k }
        requires within { k < length row0.now }
        requires few { length row0.now ≤ 33 }
        requires row { IsRowOfParts ring (length row0.now - 1) 0 (parts_of row0.now) }
        requires none { HasNoneBelow k (parts_of row0.now) }
        requires residue { inverse < modulus_of ring }
        requires inverts { (constant_of ring (part_in (parts_of row0.now) k) * inverse)
            % modulus_of ring ≡ 1 }
        ensures { IfOk result (Begins ring k (parts_of row0.now)) }
    {
        let row_p = power_of_y(alloc, ring, k)?;
        let row_u = share(alloc, &row0[k as usize..])?;
        let series_p = begun(alloc, ring, &row_p, k as usize)?;
        let series_u = begun(alloc, ring, &row_u, row_u.len())?;
        let mut rows_p = Vec::new(alloc);
        rows_p.push(row_p)?;
        let mut rows_u = Vec::new(alloc);
        rows_u.push(row_u)?;
        Ok(Prep {
            alloc,
            ring,
            k,
            q: row0.len() as u32 - 1 - k,
            inverse,
            p: Factor {
                rows: rows_p,
                series: series_p,
            },
            u: Factor {
                rows: rows_u,
                series: series_u,
            },
        })
    }

    /// Adds the next degree, r, by the recurrences ('Weierstrass' and 'BM21' in docs/GLOSSARY.md).
    /// `row[l]` is b_l(r), the part of that degree of the coefficient of Y^l. Each of the k + q + 1
    /// new parts takes at most k * r products of parts.
    pub fn step(&mut self, row: &[Arc<Part>], tally: &mut Tally) -> Result<(), OutOfMemory>
        requires row { IsRowOfParts self.old.ring (self.old.k + self.old.q) (degrees_of self.old)
            (parts_of row.now) }
        requires permitted { degrees_of self.old ≤ 4095 }
        requires room { tally.old < 2 ^ 63 }
        ensures ok { OnOk result (Adds (parts_of row.now) self.old self.new) }
        ensures err { OnErr result (self.new ≡ self.old) }
        ensures ticks { OnOk result (tally.new ≡ tally.old + 1) }
        ensures no_tick { OnErr result (tally.new ≡ tally.old) }
    {
        let given = Given {
            alloc: self.alloc,
            ring: self.ring,
            k: self.k as usize,
            q: self.q as usize,
            inverse: self.inverse,
        };
        add_degree(&given, &mut self.p, &mut self.u, row)?;
        tally.tick();
        Ok(())
    }

    /// How many degrees are there, from 0 on.
    pub fn degrees(&self) -> u32
        ensures degrees { result ≡ degrees_of self.now }
        ensures begun { 1 ≤ result }
        ensures permitted { result ≤ 4096 }
    {
        self.p.rows.len() as u32
    }

    /// The parts of degree r of the polynomial, from Y^0 to Y^k.
    pub fn row_p(&self, r: u32) -> &[Arc<Part>]
        requires { r < degrees_of self.now }
        ensures row { parts_of result.now ≡ slice_index_or self.now.rows_p r [] }
        ensures parts { IsRowOfParts self.now.ring self.now.k r (parts_of result.now) }
    {
        &self.p.rows[r as usize]
    }

    /// The parts of degree r of the unit, from Y^0 to Y^q.
    pub fn row_u(&self, r: u32) -> &[Arc<Part>]
        requires { r < degrees_of self.now }
        ensures row { parts_of result.now ≡ slice_index_or self.now.rows_u r [] }
        ensures parts { IsRowOfParts self.now.ring self.now.q r (parts_of result.now) }
    {
        &self.u.rows[r as usize]
    }
}
