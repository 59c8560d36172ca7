//! Nodes of the coefficients of polynomials in Y: one slot for each power of Y, from Y^0 on.
ghost use Rattle.std.specs.Prelude.{◌≡◌, ◌≢◌, ℕ, ◌+◌, ◌-◌, ◌*◌, ◌<◌, ◌≤◌, suc, length};
ghost use Rattle.std.specs.Prelude.{Ok, Err, IfOk, IsTrue, [], ◌∷◌};
ghost use Rattle.std.specs.List.{All};
ghost use Rattle.ps_model.specs.Bounds.{HasNoDegreeAbove, HasNoPowerAbove};
ghost use Rattle.ps_model.specs.Notation.{power as power_of, truncated};
ghost use Rattle.ps_model.specs.SeriesRing.{SeriesRing, Poly};
ghost use Rattle.ps_model.specs.Tree.{power_nodes};
ghost use Rattle.parts.specs.Rings.{modulus_of};
ghost use Rattle.series_graph.specs.GraphValue.{size_of, IsIdOf};
ghost use Rattle.intake.specs.Slots.{AreIn, terms_of, pairs_to, sums_of, products_of, quotients_of};
ghost use Rattle.intake.specs.Slots.{AddsEach, AddsSlots, IsFlatSlot, IsUnitAt, Mean, Multiplies};

use ps_model::OutOfMemory;
use series_graph::{Graph, GraphError, NodeId};
use std::alloc::Global;

/// What is added up: a residue times the polynomial that has these slots.
#[derive(Drop)]
pub struct Addend {
    pub sign: u64,
    pub slots: Vec<NodeId>,
}

/// The node. Where there was room and no divisor fails, none is made only for want of memory.
pub fn made(node: Result<NodeId, GraphError>) -> Result<NodeId, OutOfMemory>
    requires room { node ≢ Err GraphError.Full }
    requires units { (value gcd : ℕ) → node ≢ Err (GraphError.NotAUnit value gcd) }
    ensures { IfOk result (λ id. node ≡ Ok id) }
{
    match node {
        Ok(id) => Ok(id),
        Err(_) => Err(OutOfMemory),
    }
}

/// The slot of a polynomial without Y.
pub fn flat(alloc: Global, node: Result<NodeId, GraphError>) -> Result<Vec<NodeId>, OutOfMemory>
    requires room { node ≢ Err GraphError.Full }
    requires units { (value gcd : ℕ) → node ≢ Err (GraphError.NotAUnit value gcd) }
    ensures { IfOk result (λ ids. IsFlatSlot node ids.items) }
{
    let node = made(node)?;
    Ok(vec![in alloc; node]?)
}

/// The terms of the coefficient of Y^j in a sum.
fn terms_at(alloc: Global, addends: &[Addend], j: usize) -> Result<Vec<(u64, NodeId)>, OutOfMemory>
    ensures { IfOk result (λ of. of.items ≡ terms_of addends.now j) }
{
    let mut of = Vec::new(alloc);
    for addend in addends {
        if let Some(id) = addend.slots.get(j) {
            of.push((addend.sign, *id))?;
        }
    }
    Ok(of)
}

/// The pairs whose products are the coefficient of Y^j in a product.
fn pairs_at(
    alloc: Global,
    a: &[NodeId],
    b: &[NodeId],
    j: usize,
) -> Result<Vec<(NodeId, NodeId)>, OutOfMemory>
    requires { j < 65536 }
    ensures { IfOk result (λ of. of.items ≡ pairs_to a.now b.now j (suc j)) }
{
    let mut of = Vec::new(alloc);
    for i in 0..j + 1 {
        if let (Some(x), Some(y)) = (a.get(i), b.get(j - i)) {
            of.push((*x, *y))?;
        }
    }
    Ok(of)
}

/// The first `count` slots of a sum.
pub fn sums(
    alloc: Global,
    graph: &mut Graph,
    addends: &[Addend],
    count: usize,
) -> Result<Vec<NodeId>, OutOfMemory>
    requires residues { All (λ a. a.sign < modulus_of graph.old.ring) addends.now }
    requires ids { All (λ a. AreIn graph.old a.slots.items) addends.now }
    requires room { size_of graph.old + count ≤ 65536 }
    ensures { IfOk result (λ ids. AddsEach (sums_of addends.now count) graph.old graph.new ids.items) }
{
    let mut slots = Vec::new(alloc);
    for j in 0..count {
        let of = terms_at(alloc, addends, j)?;
        slots.push(made(graph.combine(&of))?)?;
    }
    Ok(slots)
}

/// The first `count` slots of a product.
fn products(
    alloc: Global,
    graph: &mut Graph,
    a: &[NodeId],
    b: &[NodeId],
    count: usize,
) -> Result<Vec<NodeId>, OutOfMemory>
    requires ids { AreIn graph.old a.now × AreIn graph.old b.now }
    requires room { size_of graph.old + count ≤ 65536 }
    ensures { IfOk result (λ ids. AddsEach (products_of a.now b.now count) graph.old graph.new ids.items) }
{
    let mut slots = Vec::new(alloc);
    for j in 0..count {
        let of = pairs_at(alloc, a, b, j)?;
        slots.push(made(graph.dot(&of))?)?;
    }
    Ok(slots)
}

/// The slots of a quotient by a series.
fn quotients(
    alloc: Global,
    graph: &mut Graph,
    a: &[NodeId],
    divisor: NodeId,
) -> Result<Vec<NodeId>, OutOfMemory>
    requires ids { AreIn graph.old a.now × IsIdOf graph.old divisor }
    requires unit { IsUnitAt graph.old.ring graph.old.formulas divisor }
    requires room { size_of graph.old + length a.now ≤ 65536 }
    ensures { IfOk result (λ ids. AddsEach (quotients_of a.now divisor) graph.old graph.new ids.items) }
{
    let mut slots = Vec::new(alloc);
    for id in a {
        slots.push(made(graph.quotient(*id, divisor))?)?;
    }
    Ok(slots)
}

/// The slots of a product, or of a quotient by a series, which has one slot.
pub fn multiplied(
    alloc: Global,
    graph: &mut Graph,
    a: &[NodeId],
    divide: bool,
    b: &[NodeId],
) -> Result<Vec<NodeId>, OutOfMemory>
    requires some { (0 < length a.now) × (0 < length b.now) }
    requires ids { AreIn graph.old a.now × AreIn graph.old b.now }
    requires series { IsTrue divide → length b.now ≡ 1 }
    requires unit { (id : _) → b.now ≡ id ∷ [] → IsTrue divide → IsUnitAt graph.old.ring graph.old.formulas id }
    requires room { size_of graph.old + (length a.now + length b.now - 1) ≤ 65536 }
    ensures slots { IfOk result (λ ids. AddsSlots (length a.now + length b.now - 1)
        (length a.now + length b.now - 1) graph.old graph.new ids.items) }
    ensures mean { IfOk result (λ ids. (S : SeriesRing) (D : ℕ) (u v w : Poly S) →
        HasNoPowerAbove (length a.now - 1) u → HasNoPowerAbove (length b.now - 1) v →
        Mean S D graph.old.formulas a.now u → Mean S D graph.old.formulas b.now v →
        Multiplies S D divide u v w → Mean S D graph.new.formulas ids.items w) }
{
    if divide {
        quotients(alloc, graph, a, b[0])
    } else {
        products(alloc, graph, a, b, a.len() + b.len() - 1)
    }
}

/// The slots of a power, as repeated products.
pub fn power(
    alloc: Global,
    graph: &mut Graph,
    base: &[NodeId],
    exponent: u32,
) -> Result<Vec<NodeId>, OutOfMemory>
    requires some { (0 < length base.now) × (0 < exponent) }
    requires ids { AreIn graph.old base.now }
    requires room { size_of graph.old + power_nodes (length base.now - 1) exponent ≤ 65536 }
    ensures slots { IfOk result (λ ids. AddsSlots (power_nodes (length base.now - 1) exponent)
        (suc (exponent * (length base.now - 1))) graph.old graph.new ids.items) }
    ensures mean { IfOk result (λ ids. (S : SeriesRing) (D : ℕ) (v : Poly S) →
        HasNoPowerAbove (length base.now - 1) v → HasNoDegreeAbove D v →
        Mean S D graph.old.formulas base.now v →
        Mean S D graph.new.formulas ids.items (truncated D (power_of v exponent))) }
{
    let mut slots = base.to_vec(alloc)?;
    for _ in 1..exponent {
        slots = multiplied(alloc, graph, &slots, false, base)?;
    }
    Ok(slots)
}
