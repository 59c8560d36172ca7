//! Monomials and terms.
ghost use Rattle.std.specs.Prelude.{◌≡◌, ℕ, ◌+◌, ◌-◌, ◌*◌, ◌^◌, ◌<◌, ◌≤◌, drop, slice_index, All};
ghost use Rattle.packed_powers.specs.Packed.{ArePowers};
ghost use Rattle.ps_model.specs.Keys.{add_keys, key_compare};
ghost use Rattle.residue.specs.Products.{sum_below};

use crate::rings::Ring;
use packed_powers::PackedPowers;
use std::cmp::Ordering;
use std::marker::Model;

/// A product of powers of up to eight variables, in one number of 96 bits.
///
/// A contract sees the powers, and not how they are kept.
#[derive(Clone, Copy, Debug, PartialEq, Eq)]
pub struct Monomial {
    /// The power of each variable, each at most 4,095, and 0 past the ring's variables.
    packed: PackedPowers,
}

impl Model for Monomial {
    ghost use Rattle.parts.specs.Keys.{MonomialValue};

    ghost Value = { MonomialValue };

    ghost view = { λ x. record { powers = x.packed.powers } };

    ghost inverse = { λ v. record { packed = record { powers = v.powers } } };
}

/// A monomial and its coefficient, in 32 bytes.
#[derive(Clone, Copy, Debug, PartialEq, Eq)]
pub struct Term {
    pub monomial: Monomial,
    pub coefficient: u64,
}

impl Monomial {
    ghost use Rattle.parts.specs.Rings.{variables_of};
    ghost use Rattle.parts.specs.Terms.{powers_in, key_of};

    /// The monomial with these powers: `powers[i]` is that of variable i.
    pub fn of(ring: Ring, powers: [u16; 8]) -> Monomial
        requires low { All (λ p. p ≤ 4095) powers }
        requires past { All (λ p. p ≡ 0) (drop (variables_of ring) powers) }
        ensures { powers_in result ≡ powers }
    {
        let _variables = ring.n();
        Monomial::of_powers(powers)
    }

    /// The same where no ring is at hand.
    pub(crate) fn of_powers(powers: [u16; 8]) -> Monomial
        requires { All (λ p. p ≤ 4095) powers }
        ensures { powers_in result ≡ powers }
    {
        Monomial {
            packed: PackedPowers::of(powers),
        }
    }

    /// There are eight powers, each at most 4,095. Nothing is computed.
    pub(crate) fn are_powers(&self)
        ensures { ArePowers (powers_in self.now) }
    {
        self.packed.are_powers();
    }

    /// The product with another, by one addition.
    pub(crate) fn times(&self, other: &Monomial) -> Monomial
        requires { (i : ℕ) → i < 8
            → slice_index (powers_in self.now) i + slice_index (powers_in other.now) i ≤ 4095 }
        ensures { key_of result ≡ add_keys 8 (key_of self.now) (key_of other.now) }
    {
        let packed = self.packed.times(&other.packed);
        packed.are_powers();
        Monomial { packed }
    }

    /// Where it stands beside another, by one comparison: the one with the greater first power
    /// comes first.
    pub(crate) fn order(&self, other: &Monomial) -> Ordering
        ensures { result ≡ key_compare 8 (key_of self.now) (key_of other.now) }
    {
        self.packed.are_powers();
        other.packed.are_powers();
        self.packed.order(&other.packed)
    }

    /// The power of variable i; 0 past the ring's variables.
    pub fn power(&self, i: u32) -> u32
        requires { i < 8 }
        ensures { result ≡ slice_index (powers_in self.now) i }
    {
        self.packed.power(i)
    }

    /// The number of the monomial: 12 bits for each power, those of the first variable highest.
    pub fn packed(&self) -> u128
        ensures { result
            ≡ sum_below 8 (λ i. slice_index (powers_in self.now) i * 2 ^ (12 * (7 - i))) }
    {
        self.packed.are_powers();
        self.packed.packed()
    }
}
