//! The powers of a monomial as one number.
#![tactic(auto)]

ghost use Rattle.std.specs.Prelude.{◌≡◌, ℕ, ◌+◌, ◌<◌, ◌≤◌, slice_index, All, nat_eq};
ghost use Rattle.std.specs.Ordering.{nat_cmp, on};
ghost use Rattle.std.specs.Cmp.{on_per, on_equiv, partial_equiv_from_equiv};
ghost use Rattle.std.specs.Cmp.Lexicographic.{pointwise, slice_cmp, nat_list_eq_equiv};

use std::cmp::Ordering;
use std::marker::Model;

#[cfg(test)]
mod tests;

/// The bits of a power.
const POWER_BITS: u32 = 12;

/// The powers of up to eight variables, each at most 4,095, in one number of 96 bits: 12 bits for each
/// power, those of the first variable highest.
///
/// So the powers of a product are one sum, and powers stand beside others as their numbers do. A
/// contract sees the powers, and not how they are kept.
#[derive(Clone, Copy, Debug)]
pub struct PackedPowers {
    /// The sum of `powers[i] * 2^(12 * (7 - i))`, below 2^96.
    packed: u128,
}

impl Model for PackedPowers {
    ghost use Rattle.std.specs.Prelude.{◌<◌, ◌^◌};
    ghost use Rattle.packed_powers.specs.Packed.{PowersValue, packed_number, unpacked};
    ghost use Rattle.packed_powers.specs.PackedLaws.{packed_unpacked};

    ghost Value = { PowersValue };

    ghost view = { λ x. record { powers = unpacked x.packed } };

    ghost invariant = { λ x. x.packed < 2 ^ 96 };

    ghost inverse = { λ v. record { packed = packed_number v.powers } };

    ghost inverse_ok = { λ x below i. record { packed = packed_unpacked x.packed below i } };
}

impl PackedPowers {
    ghost use Rattle.packed_powers.specs.Packed.{ArePowers, packed_number};

    /// These powers: `powers[i]` is that of variable i.
    #[inline]
    pub fn of(powers: [u16; 8]) -> PackedPowers
        requires { All (λ p. p ≤ 4095) powers }
        ensures { result.powers ≡ powers }
    {
        let mut packed: u128 = 0;
        for power in powers {
            packed = (packed << POWER_BITS) + u128::from(power);
        }
        PackedPowers { packed }
    }

    /// The power of variable i.
    #[inline]
    pub fn power(&self, i: u32) -> u32
        requires { i < 8 }
        ensures power { result ≡ slice_index self.now.powers i }
        ensures low { result ≤ 4095 }
    {
        (self.packed >> (POWER_BITS * (7 - i)) & 0xfff) as u32
    }

    /// The powers of all eight variables.
    #[inline]
    pub fn powers(&self) -> [u16; 8]
        ensures { result ≡ self.now.powers }
    {
        self.are_powers();
        let mut powers = [0; 8];
        for i in 0..8_u32 {
            powers[i as usize] = self.power(i) as u16;
        }
        powers
    }

    /// The powers of the product with another monomial, by one addition.
    #[inline]
    pub fn times(&self, other: &PackedPowers) -> PackedPowers
        requires { (i : ℕ) → i < 8
            → slice_index self.now.powers i + slice_index other.now.powers i ≤ 4095 }
        ensures { (i : ℕ) → i < 8
            → slice_index result.powers i
            ≡ slice_index self.now.powers i + slice_index other.now.powers i }
    {
        PackedPowers {
            packed: self.packed + other.packed,
        }
    }

    /// Where they stand beside others, by one comparison: those with the greater first power come first.
    #[inline]
    pub fn order(&self, other: &PackedPowers) -> Ordering
        ensures { result ≡ slice_cmp nat_cmp other.now.powers self.now.powers }
    {
        other.packed.cmp(&self.packed)
    }

    /// The number that keeps them.
    #[inline]
    pub fn packed(&self) -> u128
        ensures { result ≡ packed_number self.now.powers }
    {
        self.packed
    }

    /// There are eight of them, each at most 4,095. Nothing is computed.
    #[inline]
    pub fn are_powers(&self)
        ensures { ArePowers self.now.powers }
    {
        let _packed = self.packed;
    }
}

/// Powers are equal where their numbers are.
impl PartialEq for PackedPowers {
    ghost eq = { on (λ p. p.powers) (pointwise nat_eq) };

    ghost laws = { on_per (λ p. p.powers) (partial_equiv_from_equiv nat_list_eq_equiv) };

    #[inline]
    fn eq(&self, other: &PackedPowers) -> bool {
        self.packed == other.packed
    }
}

impl Eq for PackedPowers {
    ghost laws = { on_equiv (λ p. p.powers) nat_list_eq_equiv };
}
