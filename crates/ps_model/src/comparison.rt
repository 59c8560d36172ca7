//! Comparison of trees.
ghost use Rattle.std.specs.Prelude.{◌≡◌, ◌↔◌, IsTrue};

use crate::Expr;

/// Whether two trees are the same.
pub fn same(a: &Expr, b: &Expr) -> bool
    ensures { IsTrue result ↔ (a.now ≡ b.now) }
{
    match (a, b) {
        (Expr::Number(m), Expr::Number(n)) => *m == *n,
        (Expr::Name(i), Expr::Name(j)) => *i == *j,
        (Expr::MainVariable, Expr::MainVariable) => true,
        (Expr::Power(x, m), Expr::Power(y, n)) => *m == *n && same(x.get(), y.get()),
        (Expr::Sum(x), Expr::Sum(y)) => {
            let (x, y) = (x.as_slice(), y.as_slice());
            if x.len() != y.len() {
                return false;
            }
            'summands: for i in 0..x.len() {
                if x[i].minus != y[i].minus || !same(&x[i].of, &y[i].of) {
                    return false;
                }
            }
            true
        }
        (Expr::Product(x), Expr::Product(y)) => {
            let (x, y) = (x.as_slice(), y.as_slice());
            if x.len() != y.len() {
                return false;
            }
            'factors: for i in 0..x.len() {
                if x[i].divide != y[i].divide || !same(&x[i].of, &y[i].of) {
                    return false;
                }
            }
            true
        }
        _ => false,
    }
}
