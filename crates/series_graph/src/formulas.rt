//! The next part of a node, from the known parts of those that it names.
//!
//! f(r) is the part of degree r of a series f. A combination's part is the sum of each number times
//! the part of its node; that of a sum of products is the sum over the pairs a, b and over s from 0
//! to r of a(s) * b(r-s). Of a and b the one with fewer parts that aren't zero says which s are looked
//! at.
ghost use Rattle.std.specs.Prelude.{◌≡◌, ℕ, ◌+◌, ◌-◌, ◌<◌, ◌≤◌, length, IfOk, OnOk};
ghost use Rattle.std.specs.Arc.{arc_value};
ghost use Rattle.std.specs.List.{All};
ghost use Rattle.ps_model.specs.Keys.{y_key};
ghost use Rattle.ps_model.specs.Notation.{monomial, product, scaled, sum_to, homogeneous_part};
ghost use Rattle.ps_model.specs.Value.{variable};
ghost use Rattle.parts.specs.Rings.{modulus_of, variables_of};
ghost use Rattle.parts.specs.PartValue.{IsPartOf};
ghost use Rattle.parts.specs.RowsOfParts.{part_in};
ghost use Rattle.parts.specs.Series.{series, polynomial_in};
ghost use Rattle.units.specs.SeriesParts.{AreSeriesParts, Changes};
ghost use Rattle.series_graph.specs.Formula.{place_of, EachNamed};
ghost use Rattle.series_graph.specs.Meaning.{formula_at, combination};
ghost use Rattle.series_graph.specs.GraphValue.{known_at, IsKnownPart, IsGraph};
ghost use Rattle.series_graph.specs.Nodes.{formulas_in, known_in, graph_of};
ghost use Rattle.series_graph.specs.Sums.{part_known, products_known, IsPartWith};

use crate::node::{Form, Node, NodeId};
use parts::{Accumulator, Part, Ring};
use ps_model::OutOfMemory;
use std::alloc::Global;
use std::sync::Arc;
use units::{KnownParts, quotient_next_of};

/// The part of degree r of a number.
fn number_part(alloc: Global, ring: Ring, c: u64, r: u32) -> Result<Part, OutOfMemory>
    ensures { IfOk result (IsPartWith ring r
        (homogeneous_part r (monomial c (y_key (series ring).variables 0)))) }
{
    if r == 0 {
        return Ok(Part::constant(alloc, ring, c)?);
    }
    Ok(Part::zero(alloc, r))
}

/// The part of degree r of variable i.
fn variable_part(alloc: Global, ring: Ring, i: u32, r: u32) -> Result<Part, OutOfMemory>
    requires { i < variables_of ring }
    ensures { IfOk result (IsPartWith ring r (homogeneous_part r (variable (series ring) i))) }
{
    if r == ring.weight(i) {
        return Ok(Part::variable(alloc, ring, i)?);
    }
    Ok(Part::zero(alloc, r))
}

/// Adds c times f to a sum. A zero part adds nothing.
fn add_multiple(sum: &mut Accumulator, f: &Part, c: u64) -> Result<(), OutOfMemory>
    requires degrees { f.now.degree ≡ sum.old.degree }
    requires part { IsPartOf sum.old.ring f.now }
    requires residue { c < modulus_of sum.old.ring }
    ensures { OnOk result (Changes sum.old.ring sum.old sum.new
        (scaled c (polynomial_in sum.old.ring f.now.map))) }
{
    if f.is_zero() {
        return Ok(());
    }
    sum.add_scaled(f, c)?;
    Ok(())
}

/// Adds f * g to a sum. A zero part takes no product.
fn add_product(sum: &mut Accumulator, f: &Part, g: &Part) -> Result<(), OutOfMemory>
    requires degrees { f.now.degree + g.now.degree ≡ sum.old.degree }
    requires parts { IsPartOf sum.old.ring f.now × IsPartOf sum.old.ring g.now }
    ensures { OnOk result (Changes sum.old.ring sum.old sum.new
        (product (polynomial_in sum.old.ring f.now.map) (polynomial_in sum.old.ring g.now.map))) }
{
    if f.is_zero() || g.is_zero() {
        return Ok(());
    }
    sum.add_product(f, g, false)?;
    Ok(())
}

/// Adds the sum over s from r down to 0 of f(r-s) * g(s), and passes over the zero parts of g.
fn add_products(
    sum: &mut Accumulator,
    f: &KnownParts,
    g: &KnownParts,
    r: usize,
) -> Result<(), OutOfMemory>
    requires degree { sum.old.degree ≡ r }
    requires enough { (r < length f.now) × (r < length g.now) }
    requires permitted { r ≤ 4095 }
    requires f_parts { AreSeriesParts sum.old.ring f.now }
    requires g_parts { AreSeriesParts sum.old.ring g.now }
    ensures { OnOk result (Changes sum.old.ring sum.old sum.new (sum_to r (λ s. product
        (polynomial_in sum.old.ring (part_in f.now s).map)
        (polynomial_in sum.old.ring (part_in g.now (r - s)).map)))) }
{
    // the products of s >= end are added
    let mut end = r + 1;
    while end > 0 {
        let s = end - 1;
        add_product(sum, f.part(r - s), g.part(s))?;
        end = g.below(s);
    }
    Ok(())
}

/// Adds the part of degree r of a * b: the sum over s from 0 to r of a(s) * b(r-s).
fn add_product_part(
    sum: &mut Accumulator,
    a: &KnownParts,
    b: &KnownParts,
    r: usize,
) -> Result<(), OutOfMemory>
    requires degree { sum.old.degree ≡ r }
    requires enough { (r < length a.now) × (r < length b.now) }
    requires permitted { r ≤ 4095 }
    requires a_parts { AreSeriesParts sum.old.ring a.now }
    requires b_parts { AreSeriesParts sum.old.ring b.now }
    ensures { OnOk result (Changes sum.old.ring sum.old sum.new (sum_to r (λ s. product
        (polynomial_in sum.old.ring (part_in a.now s).map)
        (polynomial_in sum.old.ring (part_in b.now (r - s)).map)))) }
{
    if a.nonzero() < b.nonzero() {
        return add_products(sum, b, a, r);
    }
    add_products(sum, a, b, r)
}

/// The sum of each number times the part of degree r of its node. Where it is that part itself, its
/// memory is shared.
fn combination_part(
    alloc: Global,
    ring: Ring,
    nodes: &[Node],
    of: &[(u64, NodeId)],
    r: u32,
) -> Result<Arc<Part>, OutOfMemory>
    requires graph { IsGraph (graph_of ring nodes.now) }
    requires permitted { r ≤ 4095 }
    requires residues { All (λ t. t.0 < modulus_of ring) of.now }
    requires known { All (λ t. r < length (known_at (graph_of ring nodes.now) (place_of t.1))) of.now }
    ensures { IfOk result (λ p. IsPartWith ring r (combination (series ring)
        (λ j. part_known ring (known_in nodes.now) j r) of.now) (arc_value p)) }
{
    if let [(c, id)] = of {
        let part = nodes[id.index as usize].known.part(r as usize);
        if *c == 1 || part.is_zero() {
            return Ok(Arc::try_clone(part)?);
        }
    }
    let mut sum = Accumulator::new(alloc, ring, r);
    for (c, id) in of {
        add_multiple(
            &mut sum,
            nodes[id.index as usize].known.part(r as usize),
            *c,
        )?;
    }
    Ok(Arc::new(alloc, sum.finish()?)?)
}

/// The part of degree r of the sum of the products of each two nodes.
fn dot_part(
    alloc: Global,
    ring: Ring,
    nodes: &[Node],
    of: &[(NodeId, NodeId)],
    r: u32,
) -> Result<Part, OutOfMemory>
    requires graph { IsGraph (graph_of ring nodes.now) }
    requires permitted { r ≤ 4095 }
    requires known { All (λ t. (r < length (known_at (graph_of ring nodes.now) (place_of t.0)))
        × (r < length (known_at (graph_of ring nodes.now) (place_of t.1)))) of.now }
    ensures { IfOk result (IsPartWith ring r (products_known ring (known_in nodes.now) r of.now)) }
{
    let mut sum = Accumulator::new(alloc, ring, r);
    for (a, b) in of {
        let a = &nodes[a.index as usize].known;
        let b = &nodes[b.index as usize].known;
        add_product_part(&mut sum, a, b, r as usize)?;
    }
    Ok(sum.finish()?)
}

/// The first part of node i that isn't known.
pub fn next_part(
    alloc: Global,
    ring: Ring,
    nodes: &[Node],
    i: usize,
) -> Result<Arc<Part>, OutOfMemory>
    requires graph { IsGraph (graph_of ring nodes.now) }
    requires node { i < length nodes.now }
    requires permitted { length (known_at (graph_of ring nodes.now) i) ≤ 4095 }
    requires named { EachNamed (λ j. length (known_at (graph_of ring nodes.now) i)
        < length (known_at (graph_of ring nodes.now) j)) (formula_at (formulas_in nodes.now) i) }
    ensures { IfOk result (λ p. IsKnownPart ring (formulas_in nodes.now) i
        (length (known_at (graph_of ring nodes.now) i)) (arc_value p)) }
{
    let node = &nodes[i];
    let r = node.known.len() as u32;
    let part = match &node.form {
        Form::Number(c) => number_part(alloc, ring, *c, r)?,
        Form::Variable(i) => variable_part(alloc, ring, *i, r)?,
        Form::Combination(of) => return combination_part(alloc, ring, nodes, of, r),
        Form::Dot(of) => dot_part(alloc, ring, nodes, of, r)?,
        Form::Quotient(a, b) => {
            let a = &nodes[a.index as usize].known;
            let b = &nodes[b.index as usize].known;
            quotient_next_of(alloc, ring, a, b, &node.known)?
        }
    };
    Ok(Arc::new(alloc, part)?)
}
