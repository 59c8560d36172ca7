//! Sums of products of residues, which are reduced when they are read.
ghost use Rattle.std.specs.Prelude.{◌≡◌, ◌+◌, ◌%◌, ◌<◌, ◌≤◌, length, All};
ghost use Rattle.residue.specs.Products.{reversed_dot};
ghost use Rattle.residue.specs.ProductSums.{exact_of, HasRoom, IsChosen, with_products};
ghost use Rattle.residue.specs.Residues.{number_of};

use crate::Modulus;
use crate::exact::Exact;
use crate::kernels::{Kernel, by_fours, fastest, with_all};
use std::marker::Model;

/// A sum of products of residues modulo m.
///
/// It is exact while products are added, in the way that is fastest for m, and reduced when it is
/// read.
#[derive(Drop)]
pub struct ProductSum {
    modulus: Modulus,
    kernel: Kernel,
    /// So many products have room beside a residue.
    most: u64,
    /// So many products have room beside the sum.
    left: u64,
    sum: Exact,
}

impl Model for ProductSum {
    ghost use Rattle.std.specs.Prelude.{◌≡◌, ◌%◌, ◌≤◌};
    ghost use Rattle.residue.specs.Residues.{number_of};
    ghost use Rattle.residue.specs.ProductSums.{ProductSumValue, exact_of, HasRoom, IsChosen};

    ghost Value = { ProductSumValue };

    ghost view = { λ s. record {
      modulus = number_of s.modulus;
      residue = exact_of s.sum % number_of s.modulus;
    } };

    ghost invariant = { λ s. IsChosen (number_of s.modulus) s.kernel s.most × (s.left ≤ s.most)
        × HasRoom (number_of s.modulus) s.kernel s.sum s.left };
}

/// A sum, and how many products have room beside it.
#[derive(Clone, Copy)]
struct Room {
    sum: Exact,
    left: u64,
}

/// The sum as it is where n products have room beside it, else its residue.
fn with_room(modulus: Modulus, kernel: Kernel, most: u64, now: Room, n: u64) -> Room
    requires chosen { IsChosen (number_of modulus) kernel most }
    requires few { n ≤ most }
    requires left { now.left ≤ most }
    requires room { HasRoom (number_of modulus) kernel now.sum now.left }
    ensures same { exact_of result.sum % number_of modulus ≡ exact_of now.sum % number_of modulus }
    ensures left { result.left ≤ most }
    ensures room { HasRoom (number_of modulus) kernel result.sum result.left }
    ensures enough { n ≤ result.left }
{
    if n <= now.left {
        return now;
    }
    Room {
        sum: Exact::of(now.sum.residue(modulus)),
        left: most,
    }
}

/// The sum with products added, more than have room at once: from its residue on.
fn added_anew(modulus: Modulus, kernel: Kernel, most: u64, sum: Exact, a: &[u64], w: &[u64]) -> Room
    requires chosen { IsChosen (number_of modulus) kernel most }
    requires same { length a.now ≡ length w.now }
    requires a_residues { All (λ x. x < number_of modulus) a.now }
    requires w_residues { All (λ x. x < number_of modulus) w.now }
    ensures residue { exact_of result.sum % number_of modulus
        ≡ (exact_of sum + reversed_dot a.now w.now) % number_of modulus }
    ensures left { result.left ≤ most }
    ensures room { HasRoom (number_of modulus) kernel result.sum result.left }
{
    let _kernel = kernel;
    let start = sum.residue(modulus);
    let whole = by_fours(a, w, Exact::of(start));
    Room {
        sum: Exact::of(whole.residue(modulus)),
        left: most,
    }
}

/// The sum with products added that have room beside a residue.
fn added_beside(
    modulus: Modulus,
    kernel: Kernel,
    most: u64,
    now: Room,
    a: &[u64],
    w: &[u64],
) -> Room
    requires chosen { IsChosen (number_of modulus) kernel most }
    requires left { now.left ≤ most }
    requires room { HasRoom (number_of modulus) kernel now.sum now.left }
    requires few { length a.now ≤ most }
    requires same { length a.now ≡ length w.now }
    requires a_residues { All (λ x. x < number_of modulus) a.now }
    requires w_residues { All (λ x. x < number_of modulus) w.now }
    ensures residue { exact_of result.sum % number_of modulus
        ≡ (exact_of now.sum + reversed_dot a.now w.now) % number_of modulus }
    ensures left { result.left ≤ most }
    ensures room { HasRoom (number_of modulus) kernel result.sum result.left }
{
    let n = a.len() as u64;
    let room = with_room(modulus, kernel, most, now, n);
    let sum = with_all(kernel, a, w, room.sum);
    Room {
        sum,
        left: room.left - n,
    }
}

/// The sum with the products of all numbers added.
fn added(modulus: Modulus, kernel: Kernel, most: u64, now: Room, a: &[u64], w: &[u64]) -> Room
    requires chosen { IsChosen (number_of modulus) kernel most }
    requires left { now.left ≤ most }
    requires room { HasRoom (number_of modulus) kernel now.sum now.left }
    requires same { length a.now ≡ length w.now }
    requires a_residues { All (λ x. x < number_of modulus) a.now }
    requires w_residues { All (λ x. x < number_of modulus) w.now }
    ensures residue { exact_of result.sum % number_of modulus
        ≡ (exact_of now.sum + reversed_dot a.now w.now) % number_of modulus }
    ensures left { result.left ≤ most }
    ensures room { HasRoom (number_of modulus) kernel result.sum result.left }
{
    if a.len() as u64 > most {
        return added_anew(modulus, kernel, most, now.sum, a, w);
    }
    added_beside(modulus, kernel, most, now, a, w)
}

impl ProductSum {
    /// 0 modulo m.
    pub fn new(modulus: Modulus) -> ProductSum
        ensures { result ≡ record { modulus = number_of modulus; residue = 0 } }
    {
        let (kernel, most) = fastest(modulus);
        ProductSum {
            modulus,
            kernel,
            most,
            left: most,
            sum: Exact::of(0),
        }
    }

    /// Adds the products of the residues of a and those of w read backwards: a_i * w_(n-1-i) for
    /// each i below n, the length of both.
    pub fn add(&mut self, a: &[u64], w: &[u64])
        requires same { length a.now ≡ length w.now }
        requires a_residues { All (λ x. x < self.old.modulus) a.now }
        requires w_residues { All (λ x. x < self.old.modulus) w.now }
        ensures { self.new ≡ with_products self.old a.now w.now }
    {
        let now = Room {
            sum: self.sum,
            left: self.left,
        };
        let room = added(self.modulus, self.kernel, self.most, now, a, w);
        self.sum = room.sum;
        self.left = room.left;
    }

    /// The residue of what was added.
    pub fn residue(&self) -> u64
        ensures residue { result ≡ self.now.residue }
        ensures low { result < self.now.modulus }
    {
        self.sum.residue(self.modulus)
    }

    /// Makes it 0 again.
    pub fn clear(&mut self)
        ensures { self.new ≡ record self.old { residue = 0 } }
    {
        self.sum = Exact::of(0);
        self.left = self.most;
    }
}
