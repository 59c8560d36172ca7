//! Sums, multiples and products of parts.
ghost use Rattle.std.specs.Prelude.{◌≡◌, ◌+◌, ◌≤◌, IfOk};
ghost use Rattle.ps_model.specs.Keys.{key_compare, add_keys};
ghost use Rattle.ps_model.specs.FiniteMaps.{product_maps, scale_map, sum_maps};
ghost use Rattle.parts.specs.Rings.{modulus_of};
ghost use Rattle.parts.specs.PartValue.{IsPartOf};

use crate::homogeneous::Part;
use crate::merging::{merged, scaled_terms};
use crate::rings::Ring;
use crate::sums::Accumulator;
use ps_model::OutOfMemory;
use std::alloc::Global;

/// The product of two parts.
pub fn product(alloc: Global, ring: Ring, a: &Part, b: &Part) -> Result<Part, OutOfMemory>
    requires degrees { a.now.degree + b.now.degree ≤ 4095 }
    requires parts { IsPartOf ring a.now × IsPartOf ring b.now }
    ensures degree { IfOk result (λ p. p.degree ≡ a.now.degree + b.now.degree) }
    ensures map { IfOk result (λ p. p.map
        ≡ product_maps (key_compare 8) (add_keys 8) (modulus_of ring) a.now.map b.now.map) }
    ensures part { IfOk result (IsPartOf ring) }
{
    let mut sum = Accumulator::new(alloc, ring, a.degree() + b.degree());
    sum.add_product(a, b, false)?;
    sum.finish()
}

/// c times a part, in one pass.
pub fn scaled(alloc: Global, ring: Ring, a: &Part, c: u64) -> Result<Part, OutOfMemory>
    requires { IsPartOf ring a.now }
    ensures degree { IfOk result (λ p. p.degree ≡ a.now.degree) }
    ensures map { IfOk result (λ p. p.map
        ≡ scale_map (key_compare 8) (modulus_of ring) c a.now.map) }
    ensures part { IfOk result (IsPartOf ring) }
{
    let degree = a.degree();
    let terms = scaled_terms(alloc, ring, degree, a.terms(), c)?;
    Ok(Part::of_terms(ring, degree, terms))
}

/// The sum of two parts of one degree, by merging their terms.
pub fn sum(alloc: Global, ring: Ring, a: &Part, b: &Part) -> Result<Part, OutOfMemory>
    requires degrees { a.now.degree ≡ b.now.degree }
    requires parts { IsPartOf ring a.now × IsPartOf ring b.now }
    ensures degree { IfOk result (λ p. p.degree ≡ a.now.degree) }
    ensures map { IfOk result (λ p. p.map
        ≡ sum_maps (key_compare 8) (modulus_of ring) a.now.map b.now.map) }
    ensures part { IfOk result (IsPartOf ring) }
{
    let degree = a.degree();
    let terms = merged(alloc, ring, degree, a.terms(), b.terms())?;
    Ok(Part::of_terms(ring, degree, terms))
}
