//! Sums of products in one dense list of cells.
ghost use Rattle.std.specs.Prelude.{◌≡◌, ℕ, ◌+◌, ◌^◌, ◌<◌, ◌≤◌, ◌∷◌, [], length, take, All, IfOk};
ghost use Rattle.std.specs.Prelude.{OnOk, OnErr};
ghost use Rattle.std.specs.Prelude.{map as map_list};
ghost use Rattle.std.specs.FinMap as map;
ghost use Rattle.ps_model.specs.Keys.{key_compare};
ghost use Rattle.parts.specs.Places.{size, multipliers};
ghost use Rattle.parts.specs.Terms.{finished, key_at};
ghost use Rattle.residue.specs.Residues.{number_of};
ghost use Rattle.parts.specs.Rings.{modulus_of, weights_of};
ghost use Rattle.parts.specs.PartValue.{IsPartOf};
ghost use Rattle.parts.specs.AccumulatorValue.{AccumulatorValue, accumulator_code, cells_map};
ghost use Rattle.parts.specs.AccumulatorValue.{AreCells};
ghost use Rattle.parts.specs.AccumulatorValue.{after_multiple, after_product};

use crate::cells::{Fold, Placed, add_row};
use crate::homogeneous::Part;
use crate::places::{add_rows, collect_terms, make_cells, place_terms};
use crate::rings::Ring;
use ps_model::OutOfMemory;
use std::alloc::Global;
use std::marker::Model;

/// A sum of products of parts, all of one degree.
#[derive(Drop)]
pub struct DenseSum {
    alloc: Global,
    ring: Ring,
    degree: u32,
    fold: Fold,
    sizes: [usize; 8],
    row: Vec<Placed>,
    cells: Vec<u128>,
}

impl Model for DenseSum {
    ghost Value = { AccumulatorValue };

    ghost coded = { accumulator_code };

    ghost view = { λ s. record {
      ring = s.ring;
      degree = s.degree;
      map = cells_map (modulus_of s.ring) (weights_of s.ring) s.degree s.cells.items;
    } };

    ghost invariant = { λ s. (number_of s.fold.modulus ≡ modulus_of s.ring) × (s.degree < 4096)
        × AreCells (weights_of s.ring) s.degree s.sizes s.cells.items };
}

/// Sees that the cells of a degree are there.
fn ready_cells(
    cells: &mut Vec<u128>,
    sizes: &mut [usize; 8],
    weights: &[u16],
    degree: u32,
) -> Result<(), OutOfMemory>
    requires few { length weights.now ≤ 8 }
    requires positive { All (λ w. 0 < w) weights.now }
    requires cells { AreCells weights.now degree sizes.old cells.old.items }
    ensures cells { AreCells weights.now degree sizes.new cells.new.items }
    ensures length { IfOk result (λ _. length cells.new.items ≡ size degree weights.now) }
    ensures few { IfOk result (λ _. size degree weights.now ≤ 2 ^ 24) }
    ensures sizes { IfOk result (λ _. take (length weights.now) sizes.new
        ≡ multipliers degree weights.now) }
    ensures same { (m : ℕ) → finished m (key_at degree weights.now) 0 cells.new.items
        ≡ finished m (key_at degree weights.now) 0 cells.old.items }
{
    if cells.is_empty() {
        let n = weights.len();
        make_cells(cells, &mut sizes[..n], weights, degree)
    } else {
        Ok(())
    }
}

impl DenseSum {
    /// An accumulator at zero.
    pub fn new(alloc: Global, ring: Ring, degree: u32) -> DenseSum
        requires { degree ≤ 4095 }
        ensures { result ≡ record { ring = ring; degree = degree; map = map.empty } }
    {
        DenseSum {
            alloc,
            ring,
            degree,
            fold: Fold::new(ring.modulus()),
            sizes: [0; 8],
            row: Vec::new(alloc),
            cells: Vec::new(alloc),
        }
    }

    /// The ring.
    pub fn ring(&self) -> Ring
        ensures { result ≡ self.now.ring }
    {
        self.ring
    }

    /// The degree.
    pub fn degree(&self) -> u32
        ensures { result ≡ self.now.degree }
    {
        self.degree
    }

    /// Adds the product of two parts, or subtracts it.
    pub fn add_product(&mut self, a: &Part, b: &Part, minus: bool) -> Result<(), OutOfMemory>
        requires degrees { a.now.degree + b.now.degree ≡ self.old.degree }
        requires a_part { IsPartOf self.old.ring a.now }
        requires b_part { IsPartOf self.old.ring b.now }
        ensures ok { OnOk result (self.new ≡ after_product self.old minus a.now b.now) }
        ensures err { OnErr result (self.new ≡ self.old) }
    {
        let modulus = self.ring.modulus();
        let n = self.ring.n() as usize;
        let weights = self.ring.weights();
        ready_cells(&mut self.cells, &mut self.sizes, &weights[..n], self.degree)?;
        place_terms(&mut self.row, &self.sizes[..n], b.terms())?;
        add_rows(
            &mut self.cells,
            &self.sizes[..n],
            a.terms(),
            &self.row,
            minus,
            modulus,
            &self.fold,
        );
        Ok(())
    }

    /// Adds c times a part.
    pub fn add_scaled(&mut self, a: &Part, c: u64) -> Result<(), OutOfMemory>
        requires degrees { a.now.degree ≡ self.old.degree }
        requires a_part { IsPartOf self.old.ring a.now }
        requires residue { c < modulus_of self.old.ring }
        ensures ok { OnOk result (self.new ≡ after_multiple self.old c a.now) }
        ensures err { OnErr result (self.new ≡ self.old) }
    {
        let n = self.ring.n() as usize;
        let weights = self.ring.weights();
        ready_cells(&mut self.cells, &mut self.sizes, &weights[..n], self.degree)?;
        place_terms(&mut self.row, &self.sizes[..n], a.terms())?;
        add_row(&mut self.cells, 0, c, &self.row, &self.fold);
        Ok(())
    }

    /// The sum.
    pub fn finish(self) -> Result<Part, OutOfMemory>
        ensures degree { IfOk result (λ p. p.degree ≡ self.degree) }
        ensures map { IfOk result (λ p. p.map ≡ self.map) }
        ensures part { IfOk result (λ p. IsPartOf self.ring p) }
    {
        let DenseSum {
            alloc,
            ring,
            degree,
            sizes,
            cells,
            ..
        } = self;
        if cells.is_empty() {
            return Ok(Part::zero(alloc, degree));
        }
        let n = ring.n() as usize;
        let weights = ring.weights();
        let terms = collect_terms(
            alloc,
            &cells,
            &weights[..n],
            &sizes[..n],
            degree,
            ring.modulus(),
        )?;
        Ok(Part::of_terms(ring, degree, terms))
    }
}
