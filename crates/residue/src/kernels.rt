//! The sum of the products of two lists, one of them read backwards, in three ways.
ghost use Rattle.std.specs.Prelude.{◌≡◌, ◌+◌, ◌*◌, ◌^◌, ◌<◌, ◌≤◌, length, All};
ghost use Rattle.residue.specs.Products.{reversed_dot};
ghost use Rattle.residue.specs.ProductSums.{exact_of, limit_of, Takes, IsChosen};
ghost use Rattle.residue.specs.Residues.{number_of};

use crate::Modulus;
use crate::exact::Exact;

/// 2^32.
const HALF: u64 = 1 << 32;

/// So many products at least have to fit one word, so that it is taken.
const MANY: u64 = 1 << 20;

/// How products are added up.
#[derive(Clone, Copy)]
pub enum Kernel {
    /// All in one word.
    OneWord,
    /// The halves of each product apart, where the numbers have 32 bits.
    Halves,
    /// The products by fours, with a count of carries.
    Fours,
}

/// The fastest way modulo m, and how many products it takes between two reductions.
pub fn fastest(modulus: Modulus) -> (Kernel, u64)
    ensures { IsChosen (number_of modulus) result.0 result.1 }
{
    let m = modulus.value();
    if m > HALF {
        return (Kernel::Fours, u64::MAX);
    }
    let square = (m - 1) * (m - 1);
    let most = (u64::MAX - (m - 1)) / square;
    if most >= MANY {
        (Kernel::OneWord, most)
    } else {
        (Kernel::Halves, HALF - 1)
    }
}

/// The sum with the products of all numbers added, in the way that the kernel says.
pub fn with_all(kernel: Kernel, a: &[u64], w: &[u64], sum: Exact) -> Exact
    requires same { length a.now ≡ length w.now }
    requires a_below { All (λ x. x < 2 ^ 63) a.now }
    requires w_below { All (λ x. x < 2 ^ 63) w.now }
    requires a_taken { All (λ x. Takes kernel (x + 1) (length a.now)) a.now }
    requires w_taken { All (λ x. Takes kernel (x + 1) (length a.now)) w.now }
    requires room { exact_of sum + reversed_dot a.now w.now < limit_of kernel }
    ensures { exact_of result ≡ exact_of sum + reversed_dot a.now w.now }
{
    match kernel {
        Kernel::OneWord => Exact {
            low: in_one_word(a, w, sum.low),
            high: sum.high,
        },
        Kernel::Halves => by_halves(a, w, sum),
        Kernel::Fours => by_fours(a, w, sum),
    }
}

/// All products of numbers of 32 bits in one word.
fn in_one_word(a: &[u64], w: &[u64], sum: u64) -> u64
    requires same { length a.now ≡ length w.now }
    requires a_below { All (λ x. x < 2 ^ 32) a.now }
    requires w_below { All (λ x. x < 2 ^ 32) w.now }
    requires room { sum + reversed_dot a.now w.now < 2 ^ 64 }
    ensures { result ≡ sum + reversed_dot a.now w.now }
{
    let n = a.len();
    let mut total = sum;
    // the remainders change nothing, and show that a product of halves of words serves
    for i in 0..n {
        total += a[i] % HALF * (w[n - 1 - i] % HALF);
    }
    total
}

/// The halves of all products of numbers of 32 bits, each in a word of its own.
fn by_halves(a: &[u64], w: &[u64], sum: Exact) -> Exact
    requires same { length a.now ≡ length w.now }
    requires few { length a.now < 2 ^ 32 }
    requires a_below { All (λ x. x < 2 ^ 32) a.now }
    requires w_below { All (λ x. x < 2 ^ 32) w.now }
    requires room { exact_of sum + reversed_dot a.now w.now < 2 ^ 192 }
    ensures { exact_of result ≡ exact_of sum + reversed_dot a.now w.now }
{
    let n = a.len();
    let mut low: u64 = 0;
    let mut high: u64 = 0;
    for i in 0..n {
        let product = a[i] % HALF * (w[n - 1 - i] % HALF);
        low += product % HALF;
        high += product / HALF;
    }
    sum.plus(u128::from(high) * u128::from(HALF) + u128::from(low), 0)
}

/// x_0 * y_3 + x_1 * y_2 + x_2 * y_1 + x_3 * y_0.
fn of_four(x: &[u64], y: &[u64]) -> u128
    requires x_four { length x.now ≡ 4 }
    requires y_four { length y.now ≡ 4 }
    requires x_below { All (λ z. z < 2 ^ 63) x.now }
    requires y_below { All (λ z. z < 2 ^ 63) y.now }
    ensures { result ≡ reversed_dot x.now y.now }
{
    let p = u128::from(x[0]) * u128::from(y[3]);
    let q = u128::from(x[1]) * u128::from(y[2]);
    let r = u128::from(x[2]) * u128::from(y[1]);
    let s = u128::from(x[3]) * u128::from(y[0]);
    p + q + r + s
}

/// The products of at most three numbers.
fn of_few(a: &[u64], w: &[u64]) -> u128
    requires same { length a.now ≡ length w.now }
    requires few { length a.now < 4 }
    requires a_below { All (λ x. x < 2 ^ 63) a.now }
    requires w_below { All (λ x. x < 2 ^ 63) w.now }
    ensures { result ≡ reversed_dot a.now w.now }
{
    let n = a.len();
    let mut total: u128 = 0;
    for i in 0..n {
        total += u128::from(a[i]) * u128::from(w[n - 1 - i]);
    }
    total
}

/// low + 2^128 * top with a number of two words added.
fn carried(low: u128, top: u64, more: u128) -> (u128, u64)
    requires { top < 2 ^ 63 }
    ensures sum { result.0 + 2 ^ 128 * result.1 ≡ low + 2 ^ 128 * top + more }
    ensures top { result.1 ≤ top + 1 }
{
    let (low, over) = low.overflowing_add(more);
    (low, top + u64::from(over))
}

/// Four products at once, each below 2^126, in two words; what is carried out of these is counted.
pub fn by_fours(a: &[u64], w: &[u64], sum: Exact) -> Exact
    requires same { length a.now ≡ length w.now }
    requires a_below { All (λ x. x < 2 ^ 63) a.now }
    requires w_below { All (λ x. x < 2 ^ 63) w.now }
    requires room { exact_of sum + reversed_dot a.now w.now < 2 ^ 192 }
    ensures { exact_of result ≡ exact_of sum + reversed_dot a.now w.now }
{
    let n = a.len();
    let mut low: u128 = 0;
    let mut top: u64 = 0;
    for k in 0..n / 4 {
        let i = 4 * k;
        // slices of a known length: four products without a test between them
        let four = of_four(&a[i..i + 4], &w[n - i - 4..n - i]);
        let (next, count) = carried(low, top, four);
        low = next;
        top = count;
    }
    let done = n / 4 * 4;
    let few = of_few(&a[done..], &w[..n - done]);
    let (all, count) = carried(low, top, few);
    sum.plus(all, count)
}
