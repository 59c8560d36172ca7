//! The divisions of a tree, in the order of their signs: the first one by Y, and the first one that
//! fails. Each test goes over the tree once.
ghost use Rattle.std.specs.Prelude.{◌≡◌, ℕ, IfOk, IfErr, IfSome, None, true, false, List};
ghost use Rattle.std.specs.Int.{IsGcd};
ghost use Rattle.residue.specs.Residues.{number_of, IsResidue};
ghost use Rattle.ps_model.specs.Tree.{divisors, has_y as y_in};
ghost use Rattle.ps_model.specs.Divisions.{IsByY, Fails};
ghost use Rattle.ps_model.specs.Input.{IsLeast, told_count};
ghost use Rattle.ps_model.specs.Job.{series_ring};
ghost use Rattle.intake.specs.Origin.{HasEightNames, IsShare, HasOrigin, IsByUnit, IsByNoUnit};
ghost use Rattle.intake.specs.Passes.{divisors_of, ArePassed, IsStopped};

use ps_model::{Expr, Factor};
use residue::{Modulus, NoInverse};

/// What was met in a tree without a division by Y.
#[derive(Clone, Copy, Debug, PartialEq, Eq)]
struct Passed {
    /// The divisions up to its end.
    seen: u32,
    /// Whether Y stands in it.
    has_y: bool,
}

/// The value of a tree at the origin.
#[derive(Clone, Copy, Debug, PartialEq, Eq)]
pub struct Origin {
    pub value: u64,
    /// The divisions up to its end.
    pub seen: u32,
}

/// A division that fails.
#[derive(Clone, Copy, Debug, PartialEq, Eq)]
pub struct Failure {
    /// Its number, from 1.
    pub division: u32,
    /// The divisor's value at the origin.
    pub value: u64,
    /// The greatest common divisor of the value and the modulus.
    pub gcd: u64,
}

/// The first division by Y, counted from 1.
pub fn first_by_y(expr: &Expr) -> Option<u32>
    ensures some { IfSome result (λ place. (k : ℕ) × IsLeast (IsByY expr.now) k
        × (place ≡ told_count k)) }
    ensures none { result ≡ None → (k : ℕ) → IsByY expr.now k → ⊥ }
{
    match pass(expr, 0) {
        Ok(_) => None,
        Err(place) => Some(place),
    }
}

/// The first division that fails, counted from 1.
pub fn first_failure(modulus: Modulus, expr: &Expr) -> Option<Failure>
    requires names { HasEightNames expr.now }
    requires divisors { (k : ℕ) → IsByY expr.now k → ⊥ }
    ensures some { IfSome result (λ f. (ws : List ℕ) → (k : ℕ)
        × Fails (series_ring (number_of modulus) ws) expr.now k f.value
        × IsLeast (λ i. (c : ℕ) × Fails (series_ring (number_of modulus) ws) expr.now i c) k
        × (f.division ≡ told_count k)) }
    ensures gcd { IfSome result (λ f. IsGcd f.value (number_of modulus) f.gcd) }
    ensures none { result ≡ None → (ws : List ℕ) (k c : ℕ)
        → Fails (series_ring (number_of modulus) ws) expr.now k c → ⊥ }
{
    match at_origin(modulus, expr, 0) {
        Ok(_) => None,
        Err(failure) => Some(failure),
    }
}

/// Passes the divisions of a tree, behind those that were seen, up to the first one by Y.
#[cycle(passes)]
fn pass(expr: &Expr, seen: u32) -> Result<Passed, u32>
    ensures passed { IfOk result (λ p. ArePassed (λ d. y_in d ≡ false) (divisors expr.now) seen p.seen) }
    ensures has_y { IfOk result (λ p. p.has_y ≡ y_in expr.now) }
    ensures stopped { IfErr result (IsStopped (λ d. y_in d ≡ false) (λ d. y_in d ≡ true)
        (divisors expr.now) seen) }
    ensures by_y { IfErr result (λ _. y_in expr.now ≡ true) }
{
    match expr {
        Expr::Number(_) => Ok(Passed { seen, has_y: false }),
        Expr::Name(_) => Ok(Passed { seen, has_y: false }),
        Expr::MainVariable => Ok(Passed { seen, has_y: true }),
        Expr::Sum(summands) => {
            let mut passed = Passed { seen, has_y: false };
            for summand in summands.as_slice() {
                let of = pass(&summand.of, passed.seen)?;
                passed.seen = of.seen;
                passed.has_y = passed.has_y || of.has_y;
            }
            Ok(passed)
        }
        Expr::Product(factors) => {
            let mut passed = Passed { seen, has_y: false };
            for factor in factors.as_slice() {
                let of = pass_factor(factor, passed.seen)?;
                passed.seen = of.seen;
                passed.has_y = passed.has_y || of.has_y;
            }
            Ok(passed)
        }
        Expr::Power(base, _) => pass(base.get(), seen),
    }
}

/// The same of a factor. A sign of division stands before those of its divisor.
#[cycle(passes)]
fn pass_factor(factor: &Factor, seen: u32) -> Result<Passed, u32>
    ensures passed { IfOk result (λ p. ArePassed (λ d. y_in d ≡ false) (divisors_of factor.now) seen
        p.seen) }
    ensures has_y { IfOk result (λ p. p.has_y ≡ y_in factor.now.of) }
    ensures stopped { IfErr result (IsStopped (λ d. y_in d ≡ false) (λ d. y_in d ≡ true)
        (divisors_of factor.now) seen) }
    ensures by_y { IfErr result (λ _. y_in factor.now.of ≡ true) }
{
    if !factor.divide {
        return pass(&factor.of, seen);
    }
    let place = seen.saturating_add(1);
    match pass(&factor.of, place) {
        Ok(Passed { has_y: true, .. }) => Err(place),
        Ok(passed) => Ok(passed),
        Err(_) => Err(place),
    }
}

/// The value of a tree at the origin, or the first of its divisions that fails, behind those that
/// were seen.
#[cycle(origins)]
pub fn at_origin(modulus: Modulus, expr: &Expr, seen: u32) -> Result<Origin, Failure>
    ensures value { IfOk result (λ o. HasOrigin (number_of modulus) expr.now o.value) }
    ensures residue { IfOk result (λ o. IsResidue modulus o.value) }
    ensures passed { IfOk result (λ o. ArePassed (IsByUnit (number_of modulus)) (divisors expr.now)
        seen o.seen) }
    ensures stopped { IfErr result (λ f. IsStopped (IsByUnit (number_of modulus))
        (IsByNoUnit (number_of modulus) f.value) (divisors expr.now) seen f.division) }
    ensures gcd { IfErr result (λ f. IsGcd f.value (number_of modulus) f.gcd) }
{
    match expr {
        Expr::Number(c) => Ok(Origin {
            value: modulus.reduce(*c),
            seen,
        }),
        Expr::Name(_) => Ok(Origin { value: 0, seen }),
        Expr::MainVariable => Ok(Origin { value: 0, seen }),
        Expr::Sum(summands) => {
            let mut sum = Origin { value: 0, seen };
            for summand in summands.as_slice() {
                let of = at_origin(modulus, &summand.of, sum.seen)?;
                sum.seen = of.seen;
                sum.value = if summand.minus {
                    modulus.sub(sum.value, of.value)
                } else {
                    modulus.add(sum.value, of.value)
                };
            }
            Ok(sum)
        }
        Expr::Product(factors) => {
            let mut product = Origin { value: 1, seen };
            for factor in factors.as_slice() {
                let share = share_at_origin(modulus, factor, product.seen)?;
                product.seen = share.seen;
                product.value = modulus.mul(product.value, share.value);
            }
            Ok(product)
        }
        Expr::Power(base, exponent) => {
            let base = at_origin(modulus, base.get(), seen)?;
            Ok(Origin {
                value: modulus.pow(base.value, *exponent),
                seen: base.seen,
            })
        }
    }
}

/// What a factor multiplies by at the origin: the inverse of its value where it divides.
#[cycle(origins)]
fn share_at_origin(modulus: Modulus, factor: &Factor, seen: u32) -> Result<Origin, Failure>
    ensures value { IfOk result (λ o. (a : ℕ) × HasOrigin (number_of modulus) factor.now.of a
        × IsShare (number_of modulus) factor.now.divide a o.value) }
    ensures residue { IfOk result (λ o. IsResidue modulus o.value) }
    ensures passed { IfOk result (λ o. ArePassed (IsByUnit (number_of modulus))
        (divisors_of factor.now) seen o.seen) }
    ensures stopped { IfErr result (λ f. IsStopped (IsByUnit (number_of modulus))
        (IsByNoUnit (number_of modulus) f.value) (divisors_of factor.now) seen f.division) }
    ensures gcd { IfErr result (λ f. IsGcd f.value (number_of modulus) f.gcd) }
{
    if !factor.divide {
        return at_origin(modulus, &factor.of, seen);
    }
    let division = seen.saturating_add(1);
    let of = at_origin(modulus, &factor.of, division)?;
    match modulus.inverse(of.value) {
        Ok(value) => Ok(Origin {
            value,
            seen: of.seen,
        }),
        Err(NoInverse { gcd }) => Err(Failure {
            division,
            value: of.value,
            gcd,
        }),
    }
}
