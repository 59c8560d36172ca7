//! Homogeneous parts.
ghost use Rattle.std.specs.Prelude.{◌≡◌, ◌<◌, ◌≤◌, ◌↔◌, [], All, IfOk, IsTrue, map as map_list, slice_index, unwrap_or};
ghost use Rattle.std.specs.FinMap as map;
ghost use Rattle.ps_model.specs.Keys.{key_compare, y_key};
ghost use Rattle.ps_model.specs.FiniteMaps.{value_at};
ghost use Rattle.parts.specs.Rings.{variables_of, weights_of};
ghost use Rattle.parts.specs.Terms.{entry_of, key_of, IsKeyOf, TermsInOrder};
ghost use Rattle.parts.specs.Keys.{key_from};
ghost use Rattle.parts.specs.TermLists.{AreTermsOf};
ghost use Rattle.parts.specs.PartValue.{PartValue, part_code, IsPartOf, single_map, variable_key};

use crate::merging::{find_coefficient, push_nonzero};
use crate::rings::Ring;
use crate::terms::{Monomial, Term};
use ps_model::OutOfMemory;
use std::alloc::Global;
use std::marker::Model;

/// A homogeneous polynomial of one degree.
///
/// Its terms stand by falling powers of the first variable, then of the next, and so on; none has
/// coefficient 0. A part does not hold its ring: a caller passes that to each call.
#[derive(Drop)]
pub struct Part {
    degree: u32,
    terms: Vec<Term>,
}

impl Model for Part {
    ghost Value = { PartValue };

    ghost coded = { part_code };

    ghost view = { λ p. record {
      degree = p.degree;
      map = map.from_entries (map_list entry_of p.terms.items);
    } };

    ghost invariant = { λ p. TermsInOrder p.terms.items };
}

/// The part of one degree with c times a product of powers, c modulo the ring's modulus.
fn single(
    alloc: Global,
    ring: Ring,
    degree: u32,
    powers: [u16; 8],
    c: u64,
) -> Result<Part, OutOfMemory>
    requires key { IsKeyOf (weights_of ring) degree (key_from powers) }
    requires low { All (λ p. p ≤ 4095) powers }
    ensures degree { IfOk result (λ p. p.degree ≡ degree) }
    ensures map { IfOk result (λ p. p.map ≡ single_map ring (key_from powers) c) }
    ensures part { IfOk result (IsPartOf ring) }
{
    let mut terms = Vec::new(alloc);
    let term = Term {
        monomial: Monomial::of_powers(powers),
        coefficient: ring.modulus().reduce(c),
    };
    push_nonzero(&mut terms, term)?;
    Ok(Part::of_terms(ring, degree, terms))
}

impl Part {
    /// The zero part of a degree, without memory of its own.
    pub fn zero(alloc: Global, degree: u32) -> Part
        ensures degree { result.degree ≡ degree }
        ensures map { result.map ≡ map.empty }
    {
        Part {
            degree,
            terms: Vec::new(alloc),
        }
    }

    /// The part of degree 0 with the constant c modulo the ring's modulus.
    pub fn constant(alloc: Global, ring: Ring, c: u64) -> Result<Part, OutOfMemory>
        ensures degree { IfOk result (λ p. p.degree ≡ 0) }
        ensures map { IfOk result (λ p. p.map ≡ single_map ring (y_key 8 0) c) }
        ensures part { IfOk result (IsPartOf ring) }
    {
        single(alloc, ring, 0, [0; 8], c)
    }

    /// Variable i, a part of the degree that is its weight; the first one is variable 0.
    pub fn variable(alloc: Global, ring: Ring, i: u32) -> Result<Part, OutOfMemory>
        requires { i < variables_of ring }
        ensures degree { IfOk result (λ p. p.degree ≡ slice_index (weights_of ring) i) }
        ensures map { IfOk result (λ p. p.map ≡ single_map ring (variable_key i) 1) }
        ensures part { IfOk result (IsPartOf ring) }
    {
        let _variables = ring.n();
        let mut powers = [0; 8];
        powers[i as usize] = 1;
        single(alloc, ring, ring.weight(i), powers, 1)
    }

    /// The part with these terms, all of one degree by the ring's weights.
    pub fn of_terms(ring: Ring, degree: u32, terms: Vec<Term>) -> Part
        requires { AreTermsOf ring degree terms.items }
        ensures degree { result.degree ≡ degree }
        ensures map { result.map ≡ map.from_entries (map_list entry_of terms.items) }
        ensures part { IsPartOf ring result }
    {
        let _ring = ring;
        Part { degree, terms }
    }

    /// The degree, also of the zero part.
    pub fn degree(&self) -> u32
        ensures { result ≡ self.now.degree }
    {
        self.degree
    }

    /// The terms, in order.
    pub fn terms(&self) -> &[Term]
        ensures entries { map_list entry_of result.now ≡ map.entries self.now.map }
        ensures order { TermsInOrder result.now }
    {
        &self.terms
    }

    /// Whether there is no term.
    pub fn is_zero(&self) -> bool
        ensures { IsTrue result ↔ (self.now.map ≡ map.empty) }
    {
        self.terms.is_empty()
    }

    /// The coefficient at a monomial, 0 where it is absent, by a binary search.
    pub fn coefficient(&self, at: &Monomial) -> u64
        ensures { result ≡ value_at (key_compare 8) self.now.map (key_of at.now) }
    {
        find_coefficient(&self.terms, at)
    }
}
