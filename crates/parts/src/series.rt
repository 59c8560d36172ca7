//! Series: their parts of the degrees from 0 on, with the coefficients side by side.
ghost use Rattle.std.specs.Prelude.{◌≡◌, ◌-◌, ◌<◌, ◌≤◌, ◌↔◌, [], ◌∷◌, ◌++◌, length, take};
ghost use Rattle.std.specs.Prelude.{OnOk, OnErr, IsTrue};
ghost use Rattle.std.specs.Arc.{arc_value};
ghost use Rattle.parts.specs.PartValue.{IsPartOf};
ghost use Rattle.parts.specs.Rings.{modulus_of};
ghost use Rattle.parts.specs.RowsOfParts.{parts_of, part_in};
ghost use Rattle.parts.specs.SeriesParts.{SeriesValue, with_part, AreSeriesParts};
ghost use Rattle.parts.specs.SeriesRows.{rows_in, IsSeries, IsContiguous, IsPairKey};
ghost use Rattle.parts.specs.SeriesRows.{indicator, crossed_total};
ghost use Rattle.parts.specs.Terms.{key_of};
ghost use Rattle.residue.specs.ProductSums.{Gains};

use crate::contiguous::add_crossed;
use crate::homogeneous::Part;
use crate::rings::Ring;
use crate::row_terms::{clear_terms, make_places, put_terms};
use crate::terms::Monomial;
use ps_model::OutOfMemory;
use residue::ProductSum;
use std::alloc::Global;
use std::marker::Model;
use std::sync::Arc;

/// The parts of one series so far, that of degree r at place r.
///
/// In one variable and in two its coefficients also stand side by side, in rows along the first
/// variable, 8 bytes each; so a coefficient of a product is a sum of products of contiguous lists.
#[derive(Drop)]
pub struct Series {
    alloc: Global,
    ring: Ring,
    parts: Vec<Arc<Part>>,
    rows: Vec<Vec<u64>>,
}

impl Model for Series {
    ghost use Rattle.parts.specs.RowsOfParts.{parts_of};
    ghost use Rattle.parts.specs.SeriesParts.{SeriesValue, series_code};
    ghost use Rattle.parts.specs.SeriesRows.{rows_in, IsSeries};

    ghost Value = { SeriesValue };

    ghost coded = { series_code };

    ghost view = { λ s. record { ring = s.ring; parts = parts_of s.parts.items } };

    ghost invariant = { λ s. IsSeries s.ring (parts_of s.parts.items) (rows_in s.rows.items) };
}

/// Whether the series of a ring have rows.
pub fn is_contiguous(ring: Ring) -> bool
    ensures { IsTrue result ↔ IsContiguous ring }
{
    ring.n() <= 2
}

/// Adds the next part to the parts and to the rows, or changes no number where memory runs out.
fn push_part(
    alloc: Global,
    ring: Ring,
    parts: &mut Vec<Arc<Part>>,
    rows: &mut Vec<Vec<u64>>,
    part: &Arc<Part>,
) -> Result<(), OutOfMemory>
    requires series { IsSeries ring (parts_of parts.old.items) (rows_in rows.old.items) }
    requires of_ring { IsPartOf ring (arc_value part.now) }
    requires degree { (arc_value part.now).degree ≡ length (parts_of parts.old.items) }
    requires permitted { length (parts_of parts.old.items) ≤ 4095 }
    ensures series { IsSeries ring (parts_of parts.new.items) (rows_in rows.new.items) }
    ensures ok { OnOk result (parts_of parts.new.items
        ≡ parts_of parts.old.items ++ arc_value part.now ∷ []) }
    ensures err { OnErr result (parts_of parts.new.items ≡ parts_of parts.old.items) }
{
    let shared = Arc::try_clone(part)?;
    if !is_contiguous(ring) {
        parts.push(shared)?;
        return Ok(());
    }
    let terms = part.terms();
    make_places(alloc, rows, terms)?;
    parts.push(shared)?;
    // nothing fails from here on
    put_terms(rows, terms);
    Ok(())
}

/// Takes the last part away, and its coefficients.
fn pop_part(ring: Ring, parts: &mut Vec<Arc<Part>>, rows: &mut Vec<Vec<u64>>)
    requires series { IsSeries ring (parts_of parts.old.items) (rows_in rows.old.items) }
    ensures series { IsSeries ring (parts_of parts.new.items) (rows_in rows.new.items) }
    ensures parts { parts_of parts.new.items
        ≡ take (length (parts_of parts.old.items) - 1) (parts_of parts.old.items) }
{
    let Some(last) = parts.pop() else {
        return;
    };
    if is_contiguous(ring) {
        clear_terms(rows, last.terms());
    }
}

impl Series {
    /// The series without a part.
    pub fn new(alloc: Global, ring: Ring) -> Series
        ensures { result ≡ record { ring = ring; parts = [] } }
    {
        Series {
            alloc,
            ring,
            parts: Vec::new(alloc),
            rows: Vec::new(alloc),
        }
    }

    /// How many parts are there.
    pub fn len(&self) -> u32
        ensures length { result ≡ length self.now.parts }
        ensures low { result ≤ 4096 }
    {
        self.parts.len() as u32
    }

    /// The part of degree r.
    pub fn part(&self, r: u32) -> &Part
        requires { r < length self.now.parts }
        ensures part { result.now ≡ part_in self.now.parts r }
        ensures degree { result.now.degree ≡ r }
        ensures of_ring { IsPartOf self.now.ring result.now }
    {
        &self.parts[r as usize]
    }

    /// Adds the next part, which is shared. Where memory runs out the series is as it was.
    pub fn push(&mut self, part: &Arc<Part>) -> Result<(), OutOfMemory>
        requires of_ring { IsPartOf self.old.ring (arc_value part.now) }
        requires degree { (arc_value part.now).degree ≡ length self.old.parts }
        requires permitted { length self.old.parts ≤ 4095 }
        ensures ok { OnOk result (self.new ≡ with_part self.old (arc_value part.now)) }
        ensures err { OnErr result (self.new ≡ self.old) }
    {
        push_part(self.alloc, self.ring, &mut self.parts, &mut self.rows, part)
    }

    /// Takes the last part away. It takes no memory.
    pub fn pop(&mut self)
        ensures { self.new ≡ record self.old {
          parts = take (length self.old.parts - 1) self.old.parts;
        } }
    {
        pop_part(self.ring, &mut self.parts, &mut self.rows);
    }

    /// The part at place r is one of degree r, and of the ring.
    pub(crate) fn parts_are(&self)
        ensures { AreSeriesParts self.now.ring self.now.parts }
    {
        let _parts = &self.parts;
    }

    /// Adds the coefficient at a monomial of the product with another series.
    pub(crate) fn add_product_at(&self, other: &Series, monomial: &Monomial, sum: &mut ProductSum)
        requires contiguous { IsContiguous self.now.ring }
        requires ring { other.now.ring ≡ self.now.ring }
        requires modulus { sum.old.modulus ≡ modulus_of self.now.ring }
        requires key { IsPairKey monomial.now }
        ensures { Gains sum.old sum.new
            (crossed_total (indicator (key_of monomial.now)) self.now.parts other.now.parts) }
    {
        let rows = &self.rows;
        let others = &other.rows;
        let (p, f) = (monomial.power(0) as usize, monomial.power(1) as usize);
        add_crossed(sum, rows, others, f, p);
    }
}
