//! How many monomials there are, and how many are permitted.
ghost use Rattle.std.specs.Prelude.{◌≡◌, ℕ, ◌^◌, ◌<◌, ◌≤◌, ◌↔◌, ◌≢◌, IsTrue, List, Contains};
ghost use Rattle.std.specs.Prelude.{AllPairs, All, length, slice_index_or};
ghost use Rattle.parts.specs.Counting.{powers_up_to, monomials_up_to, AddsVariable};
ghost use Rattle.parts.specs.JobRows.{IsPermitted};
ghost use Rattle.parts.specs.Places.{dot};
ghost use Rattle.parts.specs.Rings.{weights_of};

use crate::rings::Ring;

/// The greatest number of monomials up to a degree that a program may ask for.
pub const MOST_MONOMIALS: u128 = 32_768;

/// The lists of powers that are counted are those of the monomials up to the degree, each once.
pub fn counting_laws()
    ensures which { (ws : List ℕ) (d : ℕ) (xs : List ℕ) → All (λ w. 0 < w) ws →
        (Contains (powers_up_to ws d) xs ↔ (length xs ≡ length ws) × (dot ws xs ≤ d)) }
    ensures once { (ws : List ℕ) (d : ℕ) → AllPairs (λ xs ys. xs ≢ ys) (powers_up_to ws d) }
{}

/// Takes one more variable into counts by degree, whatever they count.
pub(crate) fn add_variable(counts: &mut [u128; 4096], weight: u16, degree: u32)
    requires positive { 0 < weight }
    requires low { degree ≤ 4095 }
    requires small { (d : ℕ) → d ≤ degree → slice_index_or counts.old d 0 ≤ 2 ^ 96 }
    ensures { AddsVariable weight degree counts.old counts.new }
{
    let w = weight as usize;
    // a monomial is without the variable, or the variable times one whose degree is less by w
    for d in w..degree as usize + 1 {
        counts[d] += counts[d - w];
    }
}

/// How many monomials the ring has up to degree d, by its weights.
pub fn monomials(ring: Ring, d: u32) -> u128
    requires { d ≤ 4095 }
    ensures { result ≡ monomials_up_to (weights_of ring) d }
{
    let weights = ring.weights();
    let n = ring.n() as usize;
    let mut counts: [u128; 4096] = [1; 4096];
    for k in (0..n).rev() {
        add_variable(&mut counts, weights[k], d);
    }
    counts[d as usize]
}

/// Whether the ring's monomials up to degree d may be asked for.
pub fn permitted(ring: Ring, d: u32) -> bool
    ensures { IsTrue result ↔ IsPermitted (weights_of ring) d }
{
    d <= 4095 && monomials(ring, d) <= MOST_MONOMIALS
}
