//! Rings of polynomials.
ghost use Rattle.std.specs.Prelude.{◌≡◌, ◌<◌, ◌≤◌, length, replicate, drop, slice_index, All};

use residue::Modulus;

/// A ring of polynomials: a modulus, and 1 to 8 variables with weights from 1 to 64.
///
/// The degree of a monomial is the sum over the variables of weight times power.
#[derive(Clone, Copy)]
pub struct Ring {
    modulus: Modulus,
    n: u32,
    weights: [u16; 8],
    pub ghost some: { 1 ≤ n },
    pub ghost few: { n ≤ 8 },
    pub ghost positive: { All (λ w. 0 < w) weights },
    pub ghost light: { All (λ w. w ≤ 64) weights },
    pub ghost past: { All (λ w. w ≡ 1) (drop n weights) },
    pub ghost many: { length weights ≡ 8 },
}

impl Ring {
    ghost use Rattle.residue.specs.Residues.{number_of};
    ghost use Rattle.parts.specs.Rings.{modulus_of, variables_of, weights_of};
    ghost use Rattle.parts.specs.Rings.{eight_weights};
    ghost use Rattle.ps_model.specs.AcceptedJob.{AreWeights};

    /// The polynomials in n variables, each of weight 1.
    pub fn new(modulus: Modulus, n: u32) -> Ring
        requires some { 1 ≤ n }
        requires few { n ≤ 8 }
        ensures modulus { modulus_of result ≡ number_of modulus }
        ensures variables { variables_of result ≡ n }
        ensures weights { weights_of result ≡ replicate n 1 }
        ensures all_weights { eight_weights result ≡ replicate 8 1 }
    {
        Ring {
            modulus,
            n,
            weights: [1; 8],
        }
    }

    /// The polynomials in n variables: variable i has the weight `weights[i]`.
    pub fn weighted(modulus: Modulus, n: u32, weights: [u16; 8]) -> Ring
        requires some { 1 ≤ n }
        requires few { n ≤ 8 }
        requires weights { AreWeights n weights }
        ensures modulus { modulus_of result ≡ number_of modulus }
        ensures variables { variables_of result ≡ n }
        ensures weights { eight_weights result ≡ weights }
    {
        Ring {
            modulus,
            n,
            weights,
        }
    }

    /// The modulus of the coefficients.
    pub fn modulus(&self) -> Modulus
        ensures { number_of result ≡ modulus_of self.now }
    {
        self.modulus
    }

    /// How many variables there are.
    pub fn n(&self) -> u32
        ensures variables { result ≡ variables_of self.now }
        ensures some { 1 ≤ result }
        ensures few { result ≤ 8 }
    {
        self.n
    }

    /// The weight of variable i.
    pub fn weight(&self, i: u32) -> u32
        requires { i < variables_of self.now }
        ensures weight { result ≡ slice_index (weights_of self.now) i }
        ensures some { 1 ≤ result }
        ensures few { result ≤ 64 }
    {
        let _variables = self.n();
        u32::from(self.weights[i as usize])
    }

    /// The weight of each variable, and 1 past them.
    pub(crate) fn weights(&self) -> [u16; 8]
        ensures { result ≡ self.now.weights }
    {
        self.weights
    }
}
