//! Nodes whose parts and constant terms are known by hand, what stays unknown, and each refusal.
ghost use Rattle.std.specs.Prelude.{◌≡◌, ◌<◌, ◌≤◌, ◌∷◌, [], length, IfOk};
ghost use Rattle.std.specs.List.{All};
ghost use Rattle.parts.specs.Rings.{modulus_of, variables_of};
ghost use Rattle.series_graph.specs.GraphValue.{size_of, IsIdOf};

use parts::{Part, Ring};
use residue::Modulus;
use series_graph::{Graph, GraphError, NodeId};
use std::alloc::Global;
use std::process::Abort;
use std::sync::Arc;
use std::test::Fail;

/// A term: its coefficient, and the powers of x and of y.
type Plain = (u64, u32, u32);

/// A part has these terms.
fn assert_part(rt: &impl Abort, alloc: Global, part: &Part, want: &[Plain]) -> Result<(), Fail> {
    let mut found = Vec::new(alloc);
    for term in part.terms() {
        let at = term.monomial;
        found.push((term.coefficient, at.power(0), at.power(1)))?;
    }
    assert_eq!(rt; found.as_slice(), want);
    Ok(())
}

/// The known parts of a node are these, from degree 0 on.
fn assert_parts(
    rt: &impl Abort,
    alloc: Global,
    graph: &Graph,
    id: NodeId,
    wants: &[&[Plain]],
) -> Result<(), Fail>
    requires { IsIdOf graph.now id }
{
    assert_eq!(rt; graph.known(id) as usize, wants.len());
    for r in 0..wants.len() {
        assert_part(rt, alloc, graph.part(id, r as u32), wants[r])?;
    }
    Ok(())
}

/// Of each node this number of parts is known.
fn assert_known(rt: &impl Abort, graph: &Graph, ids: &[NodeId], count: u32)
    requires { All (IsIdOf graph.now) ids.now }
{
    for id in ids {
        assert_eq!(rt; graph.known(*id), count);
    }
}

/// The nodes 1, x, 1 - x and 1 / (1 - x).
fn geometric(graph: &mut Graph) -> Result<[NodeId; 4], GraphError>
    requires modulus { modulus_of graph.old.ring ≡ 7 }
    requires variables { variables_of graph.old.ring ≡ 1 }
    ensures { IfOk result (All (IsIdOf graph.new)) }
{
    let one = graph.number(1)?;
    let x = graph.variable(0)?;
    let less = graph.combine(&[(1, one), (6, x)])?;
    let quotient = graph.quotient(one, less)?;
    Ok([one, x, less, quotient])
}

#[test]
fn a_quotient_is_the_geometric_series(rt: HostRuntime) -> Result<(), Fail> {
    let ring = Ring::new(Modulus::new(7)?, 1);
    let mut graph = Graph::new(rt.alloc(), ring);
    let ids = geometric(&mut graph)?;
    assert_known(&rt, &graph, &ids, 0);
    graph.extend(ids[3], 3)?;
    assert_known(&rt, &graph, &ids, 4);
    let powers: [&[Plain]; 4] = [&[(1, 0, 0)], &[(1, 1, 0)], &[(1, 2, 0)], &[(1, 3, 0)]];
    assert_parts(&rt, rt.alloc(), &graph, ids[3], &powers)
}

/// What the quotient of 1 by c + x answers.
fn divided(graph: &mut Graph, c: u64) -> Result<NodeId, GraphError>
    requires residue { c < modulus_of graph.old.ring }
    requires number { 1 < modulus_of graph.old.ring }
    requires variables { variables_of graph.old.ring ≡ 1 }
{
    let one = graph.number(1)?;
    let x = graph.variable(0)?;
    let divisor = graph.combine(&[(c, one), (1, x)])?;
    graph.quotient(one, divisor)
}

#[test]
fn a_divisor_without_inverse_is_refused(rt: HostRuntime) -> Result<(), Fail> {
    for (m, value, gcd) in [(7, 0, 7), (6, 0, 6), (6, 2, 2), (6, 3, 3), (12, 8, 4)] {
        let ring = Ring::new(Modulus::new(m)?, 1);
        let mut graph = Graph::new(rt.alloc(), ring);
        assert!(rt; 1 < m && value < m);
        assert_eq!(rt;
            divided(&mut graph, value),
            Err(GraphError::NotAUnit { value, gcd }),
            "{value} modulo {m}"
        );
    }
    Ok(())
}

/// The product of x and x.
fn square(graph: &mut Graph) -> Result<NodeId, GraphError>
    requires { variables_of graph.old.ring ≡ 1 }
    ensures { IfOk result (IsIdOf graph.new) }
{
    let x = graph.variable(0)?;
    graph.dot(&[(x, x)])
}

#[test]
fn a_square_has_one_part(rt: HostRuntime) -> Result<(), Fail> {
    let ring = Ring::new(Modulus::new(7)?, 1);
    let mut graph = Graph::new(rt.alloc(), ring);
    let id = square(&mut graph)?;
    graph.extend(id, 2)?;
    assert_parts(&rt, rt.alloc(), &graph, id, &[&[], &[], &[(1, 2, 0)]])
}

/// The nodes 5 * y and y.
fn multiple(graph: &mut Graph) -> Result<[NodeId; 2], GraphError>
    requires modulus { modulus_of graph.old.ring ≡ 7 }
    requires variables { variables_of graph.old.ring ≡ 2 }
    ensures { IfOk result (All (IsIdOf graph.new)) }
{
    let y = graph.variable(1)?;
    let multiple = graph.combine(&[(5, y)])?;
    Ok([multiple, y])
}

#[test]
fn a_variable_is_the_part_of_its_weight(rt: HostRuntime) -> Result<(), Fail> {
    let ring = Ring::weighted(Modulus::new(7)?, 2, [1, 3, 1, 1, 1, 1, 1, 1]);
    let mut graph = Graph::new(rt.alloc(), ring);
    let [multiple, y] = multiple(&mut graph)?;
    graph.extend(multiple, 4)?;
    let alloc = rt.alloc();
    assert_parts(&rt, alloc, &graph, y, &[&[], &[], &[], &[(1, 0, 1)], &[]])?;
    assert_parts(
        &rt,
        alloc,
        &graph,
        multiple,
        &[&[], &[], &[], &[(5, 0, 1)], &[]],
    )
}

/// The nodes x, 1, their sum and 2 * x.
fn branches(graph: &mut Graph) -> Result<[NodeId; 4], GraphError>
    requires modulus { modulus_of graph.old.ring ≡ 7 }
    requires variables { variables_of graph.old.ring ≡ 1 }
    ensures { IfOk result (All (IsIdOf graph.new)) }
{
    let x = graph.variable(0)?;
    let one = graph.number(1)?;
    let sum = graph.combine(&[(1, x), (1, one)])?;
    let twice = graph.combine(&[(2, x)])?;
    Ok([x, one, sum, twice])
}

#[test]
fn other_nodes_stay_unknown(rt: HostRuntime) -> Result<(), Fail> {
    let ring = Ring::new(Modulus::new(7)?, 1);
    let mut graph = Graph::new(rt.alloc(), ring);
    let [x, one, sum, twice] = branches(&mut graph)?;
    graph.extend(twice, 2)?;
    assert_known(&rt, &graph, &[x, twice], 3);
    assert_known(&rt, &graph, &[one, sum], 0);
    graph.extend(sum, 0)?;
    assert_known(&rt, &graph, &[x, twice], 3);
    assert_known(&rt, &graph, &[one, sum], 1);
    Ok(())
}

// the part that is held is still that of the node: its memory has two owners
#[test]
fn known_parts_stay(rt: HostRuntime) -> Result<(), Fail> {
    let ring = Ring::new(Modulus::new(7)?, 1);
    let mut graph = Graph::new(rt.alloc(), ring);
    let id = square(&mut graph)?;
    graph.extend(id, 2)?;
    assert_eq!(rt; graph.known(id), 3);
    let held = Arc::try_clone(graph.part(id, 2))?;
    graph.extend(id, 2)?;
    graph.extend(id, 0)?;
    graph.extend(id, 5)?;
    assert_eq!(rt; Arc::strong_count(&held), 2);
    assert_known(&rt, &graph, &[id], 6);
    Ok(())
}

/// A variable and, behind it, 65,535 nodes, each the one before.
fn chain(graph: &mut Graph) -> Result<NodeId, GraphError>
    requires number { 1 < modulus_of graph.old.ring }
    requires variables { variables_of graph.old.ring ≡ 1 }
    requires empty { size_of graph.old ≡ 0 }
    ensures id { IfOk result (IsIdOf graph.new) }
    ensures size { IfOk result (λ _. size_of graph.new ≡ 65536) }
    ensures number { IfOk result (λ _. 1 < modulus_of graph.new.ring) }
    ensures variables { IfOk result (λ _. variables_of graph.new.ring ≡ 1) }
{
    let mut last = graph.variable(0)?;
    for _ in 1..65536_u32 {
        last = graph.combine(&[(1, last)])?;
    }
    Ok(last)
}

/// Each call that adds a node refuses.
fn assert_full(rt: &impl Abort, graph: &mut Graph, id: NodeId)
    requires number { 1 < modulus_of graph.old.ring }
    requires variables { variables_of graph.old.ring ≡ 1 }
    requires id { IsIdOf graph.old id }
    requires full { size_of graph.old ≡ 65536 }
{
    assert_eq!(rt; graph.number(1), Err(GraphError::Full));
    assert_eq!(rt; graph.variable(0), Err(GraphError::Full));
    assert_eq!(rt; graph.combine(&[(1, id)]), Err(GraphError::Full));
    assert_eq!(rt; graph.dot(&[(id, id)]), Err(GraphError::Full));
    assert_eq!(rt; graph.quotient(id, id), Err(GraphError::Full));
}

#[test]
fn a_full_graph_shares_its_parts(rt: HostRuntime) -> Result<(), Fail> {
    let ring = Ring::new(Modulus::new(7)?, 1);
    let mut graph = Graph::new(rt.alloc(), ring);
    let last = chain(&mut graph)?;
    graph.extend(last, 1)?;
    assert_parts(&rt, rt.alloc(), &graph, last, &[&[], &[(1, 1, 0)]])?;
    assert_eq!(rt; graph.known(last), 2);
    assert_eq!(rt; Arc::strong_count(graph.part(last, 1)), 65536);
    assert_full(&rt, &mut graph, last);
    Ok(())
}

/// The constant terms of nodes are these.
fn assert_constants(rt: &impl Abort, graph: &Graph, ids: &[NodeId], wants: &[u64])
    requires { All (IsIdOf graph.now) ids.now }
{
    assert_eq!(rt; ids.len(), wants.len());
    for i in 0..ids.len() {
        assert_eq!(rt; graph.constant(ids[i]), wants[i], "of node {i}");
    }
}

/// The nodes 5, x, 3 * 5 + 2 * x, 0, 5 * 5 + 5 * x, 0 and (3 * 5 + 2 * x) / 5.
fn one_of_each(graph: &mut Graph) -> Result<[NodeId; 7], GraphError>
    requires modulus { modulus_of graph.old.ring ≡ 7 }
    requires variables { variables_of graph.old.ring ≡ 1 }
    ensures { IfOk result (All (IsIdOf graph.new)) }
{
    let five = graph.number(5)?;
    let x = graph.variable(0)?;
    let sum = graph.combine(&[(3, five), (2, x)])?;
    let no_sum = graph.combine(&[])?;
    let dot = graph.dot(&[(five, five), (five, x)])?;
    let no_dot = graph.dot(&[])?;
    let quotient = graph.quotient(sum, five)?;
    Ok([five, x, sum, no_sum, dot, no_dot, quotient])
}

// 15 leaves 1, 25 leaves 4, and 1 / 5 is 3
#[test]
fn constant_terms_are_known_at_once(rt: HostRuntime) -> Result<(), Fail> {
    let ring = Ring::new(Modulus::new(7)?, 1);
    let mut graph = Graph::new(rt.alloc(), ring);
    let ids = one_of_each(&mut graph)?;
    assert_constants(&rt, &graph, &ids, &[5, 0, 1, 0, 4, 0, 3]);
    Ok(())
}

#[test]
fn errors_are_told(rt: HostRuntime) -> Result<(), Fail> {
    for (error, text) in [
        (GraphError::Full, "graph is full"),
        (
            GraphError::NotAUnit { value: 10, gcd: 5 },
            "10 has no inverse, gcd 5",
        ),
        (GraphError::OutOfMemory, "out of memory"),
    ] {
        let printed = format!(in rt.alloc(); "{error}")?;
        assert_eq!(rt; printed.as_str(), text);
    }
    Ok(())
}
