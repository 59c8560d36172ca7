//! Sums of many products.
ghost use Rattle.std.specs.Prelude.{◌≡◌, ◌+◌, ◌<◌, ◌≤◌, ◌↔◌, IfOk, OnOk, OnErr, IsTrue};
ghost use Rattle.std.specs.FinMap as map;
ghost use Rattle.parts.specs.Rings.{modulus_of, weights_of};
ghost use Rattle.parts.specs.Places.{IsDense};
ghost use Rattle.parts.specs.PartValue.{IsPartOf};
ghost use Rattle.parts.specs.AccumulatorValue.{AccumulatorValue, accumulator_code};
ghost use Rattle.parts.specs.AccumulatorValue.{after_multiple, after_product};
ghost use Rattle.parts.specs.AccumulatorValue.{held_map};
ghost use Rattle.parts.specs.TermLists.{AreTermsOf};

use crate::dense::DenseSum;
use crate::homogeneous::Part;
use crate::places::is_dense;
use crate::rings::Ring;
use crate::sparse::{with_multiple_of, with_products};
use crate::terms::Term;
use ps_model::OutOfMemory;
use std::alloc::Global;
use std::marker::Model;

/// A sum of products of parts, all of one degree.
///
/// It is kept in one list of cells, 16 bytes for each place, or as sorted terms where the cells
/// would be many and most of them have no monomial, as with eight variables.
#[derive(Drop)]
pub struct Accumulator {
    alloc: Global,
    is_dense: bool,
    dense: DenseSum,
    terms: Vec<Term>,
}

impl Model for Accumulator {
    ghost Value = { AccumulatorValue };

    ghost coded = { accumulator_code };

    ghost view = { λ s. record {
      ring = s.dense.ring;
      degree = s.dense.degree;
      map = held_map s.is_dense s.dense.map s.terms.items;
    } };

    ghost invariant = { λ s. (s.dense.degree ≤ 4095)
        × (IsTrue s.is_dense ↔ IsDense (weights_of s.dense.ring) s.dense.degree)
        × AreTermsOf s.dense.ring s.dense.degree s.terms.items };
}

impl Accumulator {
    /// An accumulator at zero. It takes memory at the first addition.
    pub fn new(alloc: Global, ring: Ring, degree: u32) -> Accumulator
        requires { degree ≤ 4095 }
        ensures { result ≡ record { ring = ring; degree = degree; map = map.empty } }
    {
        let n = ring.n() as usize;
        let weights = ring.weights();
        Accumulator {
            alloc,
            is_dense: is_dense(&weights[..n], degree),
            dense: DenseSum::new(alloc, ring, degree),
            terms: Vec::new(alloc),
        }
    }

    /// Adds the product of two parts, or subtracts it. On a refusal the sum is as it was.
    pub fn add_product(&mut self, a: &Part, b: &Part, minus: bool) -> Result<(), OutOfMemory>
        requires degrees { a.now.degree + b.now.degree ≡ self.old.degree }
        requires parts { IsPartOf self.old.ring a.now × IsPartOf self.old.ring b.now }
        ensures ok { OnOk result (self.new ≡ after_product self.old minus a.now b.now) }
        ensures err { OnErr result (self.new ≡ self.old) }
    {
        if self.is_dense {
            return self.dense.add_product(a, b, minus);
        }
        let ring = self.dense.ring();
        let (left, right) = (a.degree(), b.degree());
        let sum = with_products(
            self.alloc,
            ring,
            left,
            right,
            &self.terms,
            a.terms(),
            b.terms(),
            minus,
        )?;
        self.terms = sum;
        Ok(())
    }

    /// Adds c times a part. On a refusal the sum is as it was.
    pub fn add_scaled(&mut self, a: &Part, c: u64) -> Result<(), OutOfMemory>
        requires degrees { a.now.degree ≡ self.old.degree }
        requires parts { IsPartOf self.old.ring a.now }
        requires residue { c < modulus_of self.old.ring }
        ensures ok { OnOk result (self.new ≡ after_multiple self.old c a.now) }
        ensures err { OnErr result (self.new ≡ self.old) }
    {
        if self.is_dense {
            return self.dense.add_scaled(a, c);
        }
        let ring = self.dense.ring();
        let degree = self.dense.degree();
        let sum = with_multiple_of(self.alloc, ring, degree, &self.terms, a.terms(), c)?;
        self.terms = sum;
        Ok(())
    }

    /// The sum as a part.
    pub fn finish(self) -> Result<Part, OutOfMemory>
        ensures degree { IfOk result (λ p. p.degree ≡ self.degree) }
        ensures map { IfOk result (λ p. p.map ≡ self.map) }
        ensures part { IfOk result (IsPartOf self.ring) }
    {
        let Accumulator {
            is_dense,
            dense,
            terms,
            ..
        } = self;
        if is_dense {
            return dense.finish();
        }
        Ok(Part::of_terms(dense.ring(), dense.degree(), terms))
    }
}
