//! Copies of trees.
ghost use Rattle.std.specs.Prelude.{◌≡◌, ◌↔◌, IfOk, IsTrue};

use crate::{Expr, Factor, OutOfMemory, Summand};
use sqlite_items::{Boxed, Items};
use std::alloc::Global;

/// The same tree in memory of its own.
pub fn copy_of(alloc: Global, expr: &Expr) -> Result<Expr, OutOfMemory>
    ensures { IfOk result (λ e. e ≡ expr.now) }
{
    match expr {
        Expr::Number(n) => Ok(Expr::Number(*n)),
        Expr::Name(i) => Ok(Expr::Name(*i)),
        Expr::MainVariable => Ok(Expr::MainVariable),
        Expr::Sum(summands) => {
            let mut all = Items::new(alloc);
            for summand in summands.as_slice() {
                let of = copy_of(alloc, &summand.of)?;
                all.push(Summand {
                    minus: summand.minus,
                    of,
                })?;
            }
            Ok(Expr::Sum(all))
        }
        Expr::Product(factors) => {
            let mut all = Items::new(alloc);
            for factor in factors.as_slice() {
                let of = copy_of(alloc, &factor.of)?;
                all.push(Factor {
                    divide: factor.divide,
                    of,
                })?;
            }
            Ok(Expr::Product(all))
        }
        Expr::Power(base, exponent) => {
            let base = copy_of(alloc, base.get())?;
            Ok(Expr::Power(Boxed::new(alloc, base)?, *exponent))
        }
    }
}
