//! Arithmetic of the residues modulo a number.
#![tactic(auto)]

ghost use Rattle.std.specs.Prelude.{◌≡◌, ◌+◌, ◌-◌, ◌*◌, ◌%◌, ◌^◌, ◌<◌, ◌≤◌, ◌⊎◌, ◌↔◌, IsOk, IfOk};
ghost use Rattle.std.specs.Prelude.{IfErr};
ghost use Rattle.std.specs.Int.{IsGcd};

use std::error::Error;
use std::fmt;

mod exact;
mod kernels;
mod product_sum;

pub use product_sum::ProductSum;

/// A number from 2 to 2^63 - 1, modulo which is computed. It need not be a prime.
///
/// A residue is a number below it; each call answers one.
#[derive(Clone, Copy, Debug, PartialEq, Eq)]
pub struct Modulus {
    value: u64,
    pub ghost low: { 2 ≤ value },
    pub ghost high: { value < 2 ^ 63 },
}

/// A number that is no modulus: below 2, or 2^63 and above.
#[derive(Clone, Copy, Debug, PartialEq, Eq)]
pub struct BadModulus;

/// A residue without an inverse.
#[derive(Clone, Copy, Debug, PartialEq, Eq)]
pub struct NoInverse {
    /// The greatest common divisor of the residue and the modulus, above 1.
    pub gcd: u64,
}

impl Modulus {
    ghost use Rattle.residue.specs.Residues.{number_of, IsResidue, IsInverse};

    /// The modulus m.
    pub fn new(m: u64) -> Result<Modulus, BadModulus>
        ensures valid { IsOk result ↔ ((2 ≤ m) × (m < 2 ^ 63)) }
        ensures number { IfOk result (λ modulus. number_of modulus ≡ m) }
        ensures bad { IfErr result (λ _. (m < 2) ⊎ (2 ^ 63 ≤ m)) }
    {
        if m < 2 || m >= 1 << 63 {
            return Err(BadModulus);
        }
        Ok(Modulus { value: m })
    }

    /// The number itself.
    pub fn value(&self) -> u64
        ensures number { result ≡ number_of self.now }
        ensures low { 2 ≤ result }
        ensures high { result < 2 ^ 63 }
    {
        self.value
    }

    /// The residue of any number.
    pub fn reduce(&self, x: u64) -> u64
        ensures { result ≡ x % number_of self.now }
    {
        x % self.value
    }

    /// The residue of any number of 128 bits: by no division where it is one, by one of 64 bits where
    /// that suffices.
    pub fn reduce_wide(&self, x: u128) -> u64
        ensures { result ≡ x % number_of self.now }
    {
        if x < u128::from(self.value) {
            return x as u64;
        }
        if x <= u128::from(u64::MAX) {
            return x as u64 % self.value;
        }
        (x % u128::from(self.value)) as u64
    }

    /// a + b, without a division.
    pub fn add(&self, a: u64, b: u64) -> u64
        requires a_residue { IsResidue self.now a }
        requires b_residue { IsResidue self.now b }
        ensures { result ≡ (a + b) % number_of self.now }
    {
        let sum = a + b;
        if sum >= self.value {
            sum - self.value
        } else {
            sum
        }
    }

    /// a - b, without a division.
    pub fn sub(&self, a: u64, b: u64) -> u64
        requires a_residue { IsResidue self.now a }
        requires b_residue { IsResidue self.now b }
        ensures { result ≡ (a + (number_of self.now - b)) % number_of self.now }
    {
        if a >= b { a - b } else { a + (self.value - b) }
    }

    /// a * b, by one division.
    pub fn mul(&self, a: u64, b: u64) -> u64
        requires a_residue { IsResidue self.now a }
        requires b_residue { IsResidue self.now b }
        ensures { result ≡ (a * b) % number_of self.now }
    {
        self.reduce_wide(u128::from(a) * u128::from(b))
    }

    /// -a.
    pub fn neg(&self, a: u64) -> u64
        requires { IsResidue self.now a }
        ensures { result ≡ (number_of self.now - a) % number_of self.now }
    {
        if a == 0 { 0 } else { self.value - a }
    }

    /// a to the power e, by repeated squaring: at most 64 products. The power 0 is 1.
    pub fn pow(&self, a: u64, e: u32) -> u64
        requires { IsResidue self.now a }
        ensures { result ≡ (a ^ e) % number_of self.now }
    {
        let mut result = 1;
        let mut base = a;
        let mut left = e;
        while left != 0 {
            if left % 2 == 1 {
                result = self.mul(result, base);
            }
            base = self.mul(base, base);
            left /= 2;
        }
        result
    }

    /// The x for which a * x leaves 1, by Euclid's algorithm: at most some 90 divisions.
    pub fn inverse(&self, a: u64) -> Result<u64, NoInverse>
        requires { IsResidue self.now a }
        ensures coprime { IsOk result ↔ IsGcd a (number_of self.now) 1 }
        ensures inverse { IfOk result (IsInverse self.now a) }
        ensures common { IfErr result (λ e. 1 < e.gcd) }
        ensures divisor { IfErr result (λ e. IsGcd a (number_of self.now) e.gcd) }
    {
        let mut r = self.value;
        let mut next = a;
        let mut s = 0;
        let mut t = 1;
        while next != 0 {
            // a * s leaves r and a * t leaves next; each step takes the remainder of both
            let multiple = self.mul(self.reduce(r / next), t);
            let rest = r % next;
            r = next;
            next = rest;
            let difference = self.sub(s, multiple);
            s = t;
            t = difference;
        }
        if r == 1 {
            Ok(s)
        } else {
            Err(NoInverse { gcd: r })
        }
    }
}

impl fmt::Display for BadModulus {
    ghost use Rattle.std.specs.Prelude.{Some, codes};

    ghost output = { λ _. Some (codes "a modulus is from 2 to 2^63 - 1") };

    fn fmt<W: fmt::Write>(&self, f: &mut fmt::Formatter<W>) -> fmt::Result {
        write!(f, "a modulus is from 2 to 2^63 - 1")
    }
}

impl Error for BadModulus {}

impl fmt::Display for NoInverse {
    ghost use Rattle.std.specs.Prelude.{Some, ◌++◌, codes, decimal};

    ghost output = { λ e. Some (codes "no inverse: common divisor " ++ decimal e.gcd) };

    fn fmt<W: fmt::Write>(&self, f: &mut fmt::Formatter<W>) -> fmt::Result {
        write!(f, "no inverse: common divisor {}", self.gcd)
    }
}

impl Error for NoInverse {}
