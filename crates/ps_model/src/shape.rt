//! The formal degree and the count of nodes of a tree.
ghost use Rattle.std.specs.Prelude.{◌≡◌, min};
ghost use Rattle.ps_model.specs.Tree.{formal_degree as degree_of, node_count as nodes_of};
ghost use Rattle.ps_model.specs.Tree.{nodes_of_power};

use crate::Expr;

/// The formal degree and the count of nodes, each the greatest number of its type where it is greater.
#[derive(Clone, Copy, Debug, PartialEq, Eq)]
struct Shape {
    degree: u64,
    nodes: u32,
}

/// Both by one pass over the tree.
fn shape_of(expr: &Expr) -> Shape
    ensures degree { result.degree ≡ min (degree_of expr.now) 18446744073709551615 }
    ensures nodes { result.nodes ≡ min (nodes_of expr.now) 4294967295 }
{
    match expr {
        Expr::Number(_) => Shape {
            degree: 0,
            nodes: 1,
        },
        Expr::Name(_) => Shape {
            degree: 0,
            nodes: 1,
        },
        Expr::MainVariable => Shape {
            degree: 1,
            nodes: 2,
        },
        Expr::Sum(summands) => {
            let mut degree = 0u64;
            let mut nodes = 0u32;
            for summand in summands.as_slice() {
                let of = shape_of(&summand.of);
                degree = degree.max(of.degree);
                nodes = nodes.saturating_add(of.nodes);
            }
            let nodes = nodes.saturating_add(narrow(degree)).saturating_add(1);
            Shape { degree, nodes }
        }
        Expr::Product(factors) => {
            let mut degree = 0u64;
            let mut running = 0u32;
            let mut nodes = 0u32;
            let mut first = true;
            for factor in factors.as_slice() {
                let of = shape_of(&factor.of);
                let share = if factor.divide { 0 } else { of.degree };
                degree = degree.saturating_add(share);
                if first {
                    running = narrow(of.degree);
                    nodes = of.nodes;
                    first = false;
                } else {
                    running = running.saturating_add(narrow(share));
                    nodes = nodes
                        .saturating_add(of.nodes)
                        .saturating_add(running)
                        .saturating_add(1);
                }
            }
            Shape { degree, nodes }
        }
        Expr::Power(base, exponent) => {
            let of = shape_of(base.get());
            Shape {
                degree: of.degree.saturating_mul(*exponent as u64),
                nodes: power_nodes(of.nodes, narrow(of.degree), *exponent),
            }
        }
    }
}

/// A number as a `u32`, or the greatest one.
fn narrow(x: u64) -> u32
    ensures { result ≡ min x 4294967295 }
{
    x.min(4294967295) as u32
}

/// The formal degree, or the greatest `u64` where it is greater.
pub fn wide_degree(expr: &Expr) -> u64
    ensures { result ≡ min (degree_of expr.now) 18446744073709551615 }
{
    shape_of(expr).degree
}

/// The formal degree, or the greatest `u32` where it is greater.
pub fn formal_degree(expr: &Expr) -> u32
    ensures { result ≡ min (degree_of expr.now) 4294967295 }
{
    narrow(wide_degree(expr))
}

/// The count of nodes, or the greatest `u32` where it is greater.
pub fn node_count(expr: &Expr) -> u32
    ensures { result ≡ min (nodes_of expr.now) 4294967295 }
{
    shape_of(expr).nodes
}

/// The nodes of a power, from those of its base and the base's degree.
fn power_nodes(nodes: u32, degree: u32, exponent: u32) -> u32
    ensures { result ≡ min (nodes_of_power nodes degree exponent) 4294967295 }
{
    if exponent == 0 {
        return nodes.saturating_add(1);
    }
    let degree = u64::from(degree);
    let mut count = u64::from(nodes);
    for i in 2..u64::from(exponent) + 1 {
        count = (count + (i * degree + 1)).min(4294967295);
    }
    count as u32
}
