//! A tree as nodes of a graph.
ghost use Rattle.std.specs.Prelude.{◌≡◌, ℕ, ◌+◌, ◌≤◌, IfOk};
ghost use Rattle.ps_model.specs.declared.expr.Expr.{MainVariable};
ghost use Rattle.ps_model.specs.Tree.{IsValidTree, node_count};
ghost use Rattle.residue.specs.Residues.{number_of};
ghost use Rattle.parts.specs.Rings.{modulus_of, variables_of};
ghost use Rattle.series_graph.specs.GraphValue.{size_of};
ghost use Rattle.intake.specs.Slots.{Builds, DividesWell};

use crate::slots::{Addend, flat, made, multiplied, power, sums};
use ps_model::{Expr, OutOfMemory};
use residue::Modulus;
use series_graph::{Graph, NodeId};
use std::alloc::Global;

/// Adds the nodes of a tree, and answers those of the coefficients of its value: one for each power
/// of Y, from Y^0 to the formal degree.
pub fn build(
    alloc: Global,
    graph: &mut Graph,
    modulus: Modulus,
    expr: &Expr,
) -> Result<Vec<NodeId>, OutOfMemory>
    requires modulus { number_of modulus ≡ modulus_of graph.old.ring }
    requires tree { IsValidTree (variables_of graph.old.ring) expr.now }
    requires divisions { DividesWell graph.old.ring expr.now }
    requires room { size_of graph.old + node_count expr.now ≤ 65536 }
    ensures { IfOk result (λ ids. Builds expr.now graph.old graph.new ids.items) }
{
    match expr {
        Expr::Number(c) => flat(alloc, graph.number(modulus.reduce(*c))),
        Expr::Name(i) => flat(alloc, graph.variable(*i)),
        Expr::MainVariable => main_variable(alloc, graph),
        Expr::Sum(summands) => {
            let mut addends = Vec::new(alloc);
            let mut count = 1;
            for summand in summands.as_slice() {
                let slots = build(alloc, graph, modulus, &summand.of)?;
                count = count.max(slots.len());
                let sign = if summand.minus { modulus.neg(1) } else { 1 };
                addends.push(Addend { sign, slots })?;
            }
            sums(alloc, graph, &addends, count)
        }
        Expr::Product(factors) => {
            let mut slots = Vec::new(alloc);
            for factor in factors.as_slice() {
                let of = build(alloc, graph, modulus, &factor.of)?;
                slots = if slots.is_empty() {
                    of
                } else {
                    multiplied(alloc, graph, &slots, factor.divide, &of)?
                };
            }
            Ok(slots)
        }
        Expr::Power(base, exponent) => {
            let slots = build(alloc, graph, modulus, base.get())?;
            if *exponent == 0 {
                return flat(alloc, graph.number(1));
            }
            power(alloc, graph, &slots, *exponent)
        }
    }
}

/// The slots of Y.
fn main_variable(alloc: Global, graph: &mut Graph) -> Result<Vec<NodeId>, OutOfMemory>
    requires room { size_of graph.old + 2 ≤ 65536 }
    ensures { IfOk result (λ ids. Builds MainVariable graph.old graph.new ids.items) }
{
    let zero = made(graph.number(0))?;
    let one = made(graph.number(1))?;
    Ok(vec![in alloc; zero, one]?)
}
