//! Numbers of 192 bits, and what they leave modulo m.
ghost use Rattle.std.specs.Prelude.{◌≡◌, ◌+◌, ◌*◌, ◌%◌, ◌^◌, ◌<◌};
ghost use Rattle.residue.specs.ProductSums.{exact_of};
ghost use Rattle.residue.specs.Residues.{number_of};

use crate::Modulus;

/// 2^64.
pub const WORD: u128 = 1 << 64;

/// The number low + 2^64 * high.
#[derive(Clone, Copy)]
pub struct Exact {
    pub low: u64,
    pub high: u128,
}

impl Exact {
    /// A number of one word.
    pub fn of(low: u64) -> Exact
        ensures { exact_of result ≡ low }
    {
        Exact { low, high: 0 }
    }

    /// The sum with low + 2^128 * top.
    pub fn plus(self, low: u128, top: u64) -> Exact
        requires { exact_of self + (low + 2 ^ 128 * top) < 2 ^ 192 }
        ensures { exact_of result ≡ exact_of self + (low + 2 ^ 128 * top) }
    {
        let sum = u128::from(self.low) + low % WORD;
        Exact {
            low: (sum % WORD) as u64,
            high: self.high + low / WORD + u128::from(top) * WORD + sum / WORD,
        }
    }

    /// The residue, by one division of 64 bits where there is no more than one word.
    pub fn residue(self, modulus: Modulus) -> u64
        ensures { result ≡ exact_of self % number_of modulus }
    {
        if self.high == 0 {
            return modulus.reduce(self.low);
        }
        let m = u128::from(modulus.value());
        ((self.high % m * WORD + u128::from(self.low)) % m) as u64
    }
}
