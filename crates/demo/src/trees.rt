//! The tree of a job's polynomial.
ghost use Rattle.std.specs.Prelude.{◌≡◌, ℕ, false, IfOk};
ghost use Rattle.ps_model.specs.declared.expr.Expr.{Power, Product, Sum};
ghost use Rattle.ps_model.specs.Examples.{multiplied};
ghost use Rattle.demo.specs.Generator.{drawn, first_of, second_of, next, state_behind, prime};
ghost use Rattle.demo.specs.Generator.{factor, less as less_by, powers_by, term_by, tree_by};
ghost use Rattle.std.specs.Prelude.{[], ◌∷◌};

use crate::draws::{Draws, Multiplicities};
use crate::jobs::PRIME;
use ps_model::{Expr, Factor, OutOfMemory, Summand};
use sqlite_items::{Boxed, Items};
use std::alloc::Global;

/// The first expression plus the second one, or minus that.
fn sum_of(alloc: Global, first: Expr, minus: bool, second: Expr) -> Result<Expr, OutOfMemory>
    ensures { IfOk result (λ e. e ≡ Sum (record { minus = false; of = first }
        ∷ record { minus = minus; of = second } ∷ [])) }
{
    let mut summands = Items::new(alloc);
    summands.push(Summand {
        minus: false,
        of: first,
    })?;
    summands.push(Summand { minus, of: second })?;
    Ok(Expr::Sum(summands))
}

/// The product of two expressions.
fn product_of(alloc: Global, first: Expr, second: Expr) -> Result<Expr, OutOfMemory>
    ensures { IfOk result (λ e. e ≡ multiplied first second) }
{
    let mut factors = Items::new(alloc);
    factors.push(factor_of(first))?;
    factors.push(factor_of(second))?;
    Ok(Expr::Product(factors))
}

/// An expression as a factor.
fn factor_of(of: Expr) -> Factor
    ensures { result ≡ factor of }
{
    Factor { divide: false, of }
}

/// A power of an expression.
fn power_of(alloc: Global, base: Expr, exponent: u32) -> Result<Expr, OutOfMemory>
    ensures { IfOk result (λ e. e ≡ Power base exponent) }
{
    Ok(Expr::Power(Boxed::new(alloc, base)?, exponent))
}

/// A power of `Y - c`.
fn root_power(alloc: Global, c: u64, times: u32) -> Result<Expr, OutOfMemory>
    ensures { IfOk result (λ e. e ≡ Power (less_by c) times) }
{
    let base = sum_of(alloc, Expr::MainVariable, true, Expr::Number(c))?;
    power_of(alloc, base, times)
}

/// `Y^k1*(Y-1)^k2*(Y-2)^k3*(Y-3)^k4`, of these multiplicities.
fn powers(alloc: Global, times: Multiplicities) -> Result<Expr, OutOfMemory>
    ensures { IfOk result (λ e. e ≡ powers_by times.first times.second times.third times.fourth) }
{
    let mut factors = Items::new(alloc);
    factors.push(factor_of(power_of(alloc, Expr::MainVariable, times.first)?))?;
    factors.push(factor_of(root_power(alloc, 1, times.second)?))?;
    factors.push(factor_of(root_power(alloc, 2, times.third)?))?;
    factors.push(factor_of(root_power(alloc, 3, times.fourth)?))?;
    Ok(Expr::Product(factors))
}

/// `(a*x + b*y)*Y^power`, where a and b are the next two draws.
fn term(alloc: Global, draws: &mut Draws, power: u32) -> Result<Expr, OutOfMemory>
    ensures state { draws.new.state ≡ next (next draws.old.state) }
    ensures tree { IfOk result (λ e. e ≡ term_by (drawn (next draws.old.state) prime)
        (drawn (next (next draws.old.state)) prime) power) }
{
    let first = draws.below(PRIME);
    let second = draws.below(PRIME);
    let of_x = product_of(alloc, Expr::Number(first), Expr::Name(0))?;
    let of_y = product_of(alloc, Expr::Number(second), Expr::Name(1))?;
    let sum = sum_of(alloc, of_x, false, of_y)?;
    product_of(alloc, sum, power_of(alloc, Expr::MainVariable, power)?)
}

/// The tree of the product of the roots' powers and of a term for each power of Y below its degree,
/// of the draws that follow those of the multiplicities.
pub(crate) fn tree(
    alloc: Global,
    times: Multiplicities,
    draws: &mut Draws,
) -> Result<Expr, OutOfMemory>
    ensures { IfOk result (λ e. (seed : ℕ) → draws.old.state ≡ state_behind seed 4 →
        e ≡ tree_by times.first times.second times.third times.fourth (first_of seed) (second_of seed)) }
{
    let mut summands = Items::new(alloc);
    summands.push(Summand {
        minus: false,
        of: powers(alloc, times)?,
    })?;
    for power in 0..times.sum() {
        let of = term(alloc, draws, power)?;
        summands.push(Summand { minus: false, of })?;
    }
    Ok(Expr::Sum(summands))
}
