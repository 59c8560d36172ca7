//! The leading number of a tree, where its form tells it.
ghost use Rattle.std.specs.Prelude.{◌≡◌, ℕ, ◌≤◌, ◌↔◌, Some, IfSome, List, ◌∷◌};
ghost use Rattle.residue.specs.Residues.{number_of, IsResidue};
ghost use Rattle.ps_model.specs.declared.expr.Expr.{Sum, Product};
ghost use Rattle.ps_model.specs.Tree.{node_count, is_number as number_in};
ghost use Rattle.ps_model.specs.Value.{HasLead, HasInverseShare};
ghost use Rattle.ps_model.specs.Job.{series_ring};
ghost use Rattle.intake.specs.Origin.{HasEightNames};
ghost use Rattle.intake.specs.Leading.{IsLeading};

use crate::divisions::at_origin;
use ps_model::{Expr, Factor, Summand};
use residue::Modulus;

/// The greatest power of Y that the form of a tree allows, and the number there.
#[derive(Clone, Copy, Debug, PartialEq, Eq)]
struct Leading {
    degree: u32,
    /// None where it isn't known.
    number: Option<u64>,
}

/// The leading number, None exactly where it isn't known.
pub fn leading_number(modulus: Modulus, expr: &Expr) -> Option<u64>
    requires names { HasEightNames expr.now }
    requires nodes { node_count expr.now ≤ 4096 }
    ensures { (ws : List ℕ) (l : ℕ)
        → (result ≡ Some l) ↔ HasLead (series_ring (number_of modulus) ws) expr.now l }
{
    leading_of(modulus, expr).number
}

#[cycle(leading)]
fn leading_of(modulus: Modulus, expr: &Expr) -> Leading
    requires names { HasEightNames expr.now }
    requires nodes { node_count expr.now ≤ 4096 }
    ensures residue { IfSome result.number (IsResidue modulus) }
    ensures leading { IsLeading (number_of modulus) expr.now result.degree result.number }
{
    match expr {
        Expr::Number(c) => Leading {
            degree: 0,
            number: Some(modulus.reduce(*c)),
        },
        Expr::Name(_) => Leading {
            degree: 0,
            number: None,
        },
        Expr::MainVariable => Leading {
            degree: 1,
            number: Some(1),
        },
        Expr::Sum(summands) => sum_leading(modulus, summands.as_slice()),
        Expr::Product(factors) => product_leading(modulus, factors.as_slice()),
        Expr::Power(base, exponent) => {
            if *exponent == 0 {
                return Leading {
                    degree: 0,
                    number: Some(1),
                };
            }
            let base = leading_of(modulus, base.get());
            Leading {
                degree: *exponent * base.degree,
                number: match base.number {
                    Some(l) => Some(modulus.pow(l, *exponent)),
                    None => None,
                },
            }
        }
    }
}

/// That of a sum, from its last summand to the first one.
#[cycle(leading)]
fn sum_leading(modulus: Modulus, summands: &[Summand]) -> Leading
    requires names { HasEightNames (Sum summands.now) }
    requires nodes { node_count (Sum summands.now) ≤ 4096 }
    ensures residue { IfSome result.number (IsResidue modulus) }
    ensures leading { IsLeading (number_of modulus) (Sum summands.now) result.degree result.number }
{
    let mut sum = Leading {
        degree: 0,
        number: Some(0),
    };
    for i in (0..summands.len()).rev() {
        let of = leading_of(modulus, &summands[i].of);
        sum = with_summand(modulus, &summands[i], of, sum);
    }
    sum
}

/// That of a sum, from those of its first summand and of the later ones.
fn with_summand(modulus: Modulus, summand: &Summand, of: Leading, later: Leading) -> Leading
    requires of_residue { IfSome of.number (IsResidue modulus) }
    requires later_residue { IfSome later.number (IsResidue modulus) }
    ensures residue { IfSome result.number (IsResidue modulus) }
    ensures leading { (rest : List Summand)
        → IsLeading (number_of modulus) summand.now.of of.degree of.number
        → IsLeading (number_of modulus) (Sum rest) later.degree later.number
        → IsLeading (number_of modulus) (Sum (summand.now ∷ rest)) result.degree result.number }
{
    if of.degree < later.degree {
        return later;
    }
    let Some(number) = of.number else {
        return Leading {
            degree: of.degree,
            number: None,
        };
    };
    let signed = if summand.minus {
        modulus.neg(number)
    } else {
        number
    };
    if later.degree < of.degree {
        return Leading {
            degree: of.degree,
            number: Some(signed),
        };
    }
    Leading {
        degree: of.degree,
        number: match later.number {
            Some(others) => Some(modulus.add(signed, others)),
            None => None,
        },
    }
}

/// That of a product, from its last factor to the first one.
#[cycle(leading)]
fn product_leading(modulus: Modulus, factors: &[Factor]) -> Leading
    requires names { HasEightNames (Product factors.now) }
    requires nodes { node_count (Product factors.now) ≤ 4096 }
    ensures residue { IfSome result.number (IsResidue modulus) }
    ensures leading { IsLeading (number_of modulus) (Product factors.now) result.degree result.number }
{
    let mut product = Leading {
        degree: 0,
        number: Some(1),
    };
    for i in (0..factors.len()).rev() {
        product = with_factor(modulus, &factors[i], product);
    }
    product
}

/// That of a product, from its first factor and that of the later ones.
#[cycle(leading)]
fn with_factor(modulus: Modulus, factor: &Factor, later: Leading) -> Leading
    requires names { HasEightNames factor.now.of }
    requires nodes { node_count factor.now.of ≤ 4096 }
    requires degree { later.degree ≤ 4096 }
    requires residue { IfSome later.number (IsResidue modulus) }
    ensures residue { IfSome result.number (IsResidue modulus) }
    ensures leading { (rest : List Factor)
        → IsLeading (number_of modulus) (Product rest) later.degree later.number
        → IsLeading (number_of modulus) (Product (factor.now ∷ rest)) result.degree result.number }
{
    let mut degree = later.degree;
    let share = if factor.divide {
        inverse_share(modulus, &factor.of)
    } else {
        let of = leading_of(modulus, &factor.of);
        degree += of.degree;
        of.number
    };
    let number = match (share, later.number) {
        (Some(share), Some(others)) => Some(modulus.mul(share, others)),
        _ => None,
    };
    Leading { degree, number }
}

/// What a divisor adds to a leading number: the inverse of its value, where neither a variable nor Y
/// stands in it.
fn inverse_share(modulus: Modulus, divisor: &Expr) -> Option<u64>
    requires { HasEightNames divisor.now }
    ensures residue { IfSome result (IsResidue modulus) }
    ensures share { (ws : List ℕ) (l : ℕ)
        → (result ≡ Some l) ↔ HasInverseShare (series_ring (number_of modulus) ws) divisor.now l }
{
    if !is_number(divisor) {
        return None;
    }
    let Ok(origin) = at_origin(modulus, divisor, 0) else {
        return None;
    };
    match modulus.inverse(origin.value) {
        Ok(inverse) => Some(inverse),
        Err(_) => None,
    }
}

/// Whether neither a variable nor Y stands in a tree.
fn is_number(expr: &Expr) -> bool
    ensures { result ≡ number_in expr.now }
{
    match expr {
        Expr::Number(_) => true,
        Expr::Name(_) => false,
        Expr::MainVariable => false,
        Expr::Sum(summands) => {
            for summand in summands.as_slice() {
                if !is_number(&summand.of) {
                    return false;
                }
            }
            true
        }
        Expr::Product(factors) => {
            for factor in factors.as_slice() {
                if !is_number(&factor.of) {
                    return false;
                }
            }
            true
        }
        Expr::Power(base, _) => is_number(base.get()),
    }
}
