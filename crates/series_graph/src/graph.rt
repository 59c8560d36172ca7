//! Graphs.
use crate::ancestors::ancestors_of;
use crate::constants::{combined_constant, dot_constant};
use crate::error::GraphError;
use crate::formulas::next_part;
use crate::node::{Form, Node, NodeId};
use parts::{Part, Ring};
use ps_model::OutOfMemory;
use residue::NoInverse;
use std::alloc::Global;
use std::marker::Model;
use std::sync::Arc;
use units::KnownParts;

/// The greatest number of nodes.
const MOST_NODES: usize = 65536;

/// Power series as nodes.
///
/// The nodes stand in one vector, and each names earlier ones. A node is made without a part; its
/// parts are computed when they are asked for, and stay.
#[derive(Drop)]
pub struct Graph {
    alloc: Global,
    ring: Ring,
    nodes: Vec<Node>,
}

impl Model for Graph {
    ghost use Rattle.series_graph.specs.GraphValue.{GraphValue, graph_code, IsGraph};
    ghost use Rattle.series_graph.specs.Nodes.{graph_of};

    ghost Value = { GraphValue };

    ghost coded = { graph_code };

    ghost view = { λ graph. graph_of graph.ring graph.nodes.items };

    ghost invariant = { λ graph. IsGraph (graph_of graph.ring graph.nodes.items) };
}

impl Graph {
    ghost use Rattle.std.specs.Prelude.{◌≡◌, ◌≢◌, ℕ, ◌+◌, ◌*◌, ◌%◌, ◌<◌, ◌≤◌, ◌↔◌, [], length, suc};
    ghost use Rattle.std.specs.Prelude.{IfOk, OnOk, OnErr, Ok, Err};
    ghost use Rattle.std.specs.Arc.{arc_value};
    ghost use Rattle.std.specs.List.{All};
    ghost use Rattle.ps_model.specs.Notation.{constant_term};
    ghost use Rattle.ps_model.specs.Bounds.{ExactlyOne};
    ghost use Rattle.ps_model.specs.SeriesRing.{Poly};
    ghost use Rattle.parts.specs.Rings.{modulus_of, variables_of};
    ghost use Rattle.parts.specs.Series.{series};
    ghost use Rattle.parts.specs.RowsOfParts.{part_in};
    ghost use Rattle.series_graph.specs.Formula as formula;
    ghost use Rattle.series_graph.specs.Formula.{place_of, formula_of, EachNamed};
    ghost use Rattle.series_graph.specs.Meaning.{formula_at, Means};
    ghost use Rattle.series_graph.specs.GraphValue.{size_of, IsIdOf, constant_at, known_at};
    ghost use Rattle.series_graph.specs.GraphValue.{IsKnownPart, IsLawful, IsConstant};
    ghost use Rattle.series_graph.specs.Calls.{IsFull, AreIdsOf, AddsNode, IsWithoutInverse};
    ghost use Rattle.series_graph.specs.Calls.{AddsPart, Keeps, KeepsOthers, ReachesAll};

    /// A graph without nodes.
    pub fn new(alloc: Global, ring: Ring) -> Graph
        ensures { result ≡ record { ring = ring; formulas = []; constants = []; known = [] } }
    {
        Graph {
            alloc,
            ring,
            nodes: Vec::new(alloc),
        }
    }

    /// A node that means the number c.
    pub fn number(&mut self, c: u64) -> Result<NodeId, GraphError>
        requires { c < modulus_of self.old.ring }
        ensures ok { IfOk result (AddsNode (formula.Number c) self.old self.new) }
        ensures err { OnErr result (self.new ≡ self.old) }
        ensures full { (result ≡ Err GraphError.Full) ↔ IsFull self.old }
        ensures units { (value gcd : ℕ) → result ≢ Err (GraphError.NotAUnit value gcd) }
    {
        self.test_room()?;
        Ok(self.add(Form::Number(c), c)?)
    }

    /// A node that means variable i; the first one is variable 0.
    pub fn variable(&mut self, i: u32) -> Result<NodeId, GraphError>
        requires { i < variables_of self.old.ring }
        ensures ok { IfOk result (AddsNode (formula.Variable i) self.old self.new) }
        ensures err { OnErr result (self.new ≡ self.old) }
        ensures full { (result ≡ Err GraphError.Full) ↔ IsFull self.old }
        ensures units { (value gcd : ℕ) → result ≢ Err (GraphError.NotAUnit value gcd) }
    {
        self.test_room()?;
        Ok(self.add(Form::Variable(i), 0)?)
    }

    /// A node that means the sum of each residue times its node, 0 where the list is empty.
    pub fn combine(&mut self, of: &[(u64, NodeId)]) -> Result<NodeId, GraphError>
        requires residues { All (λ t. t.0 < modulus_of self.old.ring) of.now }
        requires ids { AreIdsOf self.old (formula.Combination of.now) }
        ensures ok { IfOk result (AddsNode (formula.Combination of.now) self.old self.new) }
        ensures err { OnErr result (self.new ≡ self.old) }
        ensures full { (result ≡ Err GraphError.Full) ↔ IsFull self.old }
        ensures units { (value gcd : ℕ) → result ≢ Err (GraphError.NotAUnit value gcd) }
    {
        self.test_room()?;
        let constant = combined_constant(self.ring.modulus(), &self.nodes, of);
        let Ok(of) = of.to_vec(self.alloc) else {
            return Err(GraphError::OutOfMemory);
        };
        Ok(self.add(Form::Combination(of), constant)?)
    }

    /// A node that means the sum of the products of each two nodes, 0 where the list is empty.
    pub fn dot(&mut self, of: &[(NodeId, NodeId)]) -> Result<NodeId, GraphError>
        requires ids { AreIdsOf self.old (formula.Dot of.now) }
        ensures ok { IfOk result (AddsNode (formula.Dot of.now) self.old self.new) }
        ensures err { OnErr result (self.new ≡ self.old) }
        ensures full { (result ≡ Err GraphError.Full) ↔ IsFull self.old }
        ensures units { (value gcd : ℕ) → result ≢ Err (GraphError.NotAUnit value gcd) }
    {
        self.test_room()?;
        let constant = dot_constant(self.ring.modulus(), &self.nodes, of);
        let Ok(of) = of.to_vec(self.alloc) else {
            return Err(GraphError::OutOfMemory);
        };
        Ok(self.add(Form::Dot(of), constant)?)
    }

    /// A node that means a / b.
    pub fn quotient(&mut self, a: NodeId, b: NodeId) -> Result<NodeId, GraphError>
        requires ids { IsIdOf self.old a × IsIdOf self.old b }
        ensures ok { IfOk result (AddsNode (formula.Quotient a b) self.old self.new) }
        ensures err { OnErr result (self.new ≡ self.old) }
        ensures full { (result ≡ Err GraphError.Full) ↔ IsFull self.old }
        ensures not_a_unit { (value gcd : ℕ) → (result ≡ Err (GraphError.NotAUnit value gcd))
            ↔ IsWithoutInverse self.old b value gcd }
        ensures divisor { (value gcd D : ℕ) → result ≡ Err (GraphError.NotAUnit value gcd) →
            (p : Poly (series self.old.ring)) × Means (series self.old.ring) D self.old.formulas (place_of b) p
            × (value ≡ constant_term p) }
    {
        self.test_room()?;
        let modulus = self.ring.modulus();
        let value = self.constant(b);
        match modulus.inverse(value) {
            Ok(inverse) => {
                let constant = modulus.mul(self.constant(a), inverse);
                Ok(self.add(Form::Quotient(a, b), constant)?)
            }
            Err(NoInverse { gcd }) => Err(GraphError::NotAUnit { value, gcd }),
        }
    }

    /// Sees to it that the parts of a node are known up to the degree `to`, and those of each node
    /// that it rests on.
    ///
    /// It goes over these nodes in their order, and computes each part that isn't known once. On a
    /// refusal the parts that were computed stay. Where all is known no memory is taken.
    pub fn extend(&mut self, id: NodeId, to: u32) -> Result<(), OutOfMemory>
        requires id { IsIdOf self.old id }
        requires permitted { to ≤ 4095 }
        ensures kept { Keeps self.old self.new }
        ensures others { KeepsOthers (place_of id) self.old self.new }
        ensures ok { OnOk result (ReachesAll (suc to) (place_of id) self.old self.new) }
        ensures there { to < length (known_at self.old (place_of id)) →
            (result ≡ Ok tt) × (self.new ≡ self.old) }
    {
        if self.known(id) > to {
            return Ok(());
        }
        let last = id.index as usize;
        let marks = ancestors_of(self.alloc, &self.nodes, last)?;
        for i in 0..last + 1 {
            if marks[i] {
                self.extend_node(i, to as usize)?;
            }
        }
        Ok(())
    }

    /// The constant term of a node.
    pub fn constant(&self, id: NodeId) -> u64
        requires { IsIdOf self.now id }
        ensures value { result ≡ constant_at self.now (place_of id) }
        ensures residue { result < modulus_of self.now.ring }
        ensures meaning { (D : ℕ) → ExactlyOne (Means (series self.now.ring) D self.now.formulas (place_of id)) }
        ensures term { (D : ℕ) (p : Poly (series self.now.ring)) →
            Means (series self.now.ring) D self.now.formulas (place_of id) p → result ≡ constant_term p }
    {
        self.nodes[id.index as usize].constant
    }

    /// How many parts of a node are known.
    pub fn known(&self, id: NodeId) -> u32
        requires { IsIdOf self.now id }
        ensures count { result ≡ length (known_at self.now (place_of id)) }
        ensures few { result ≤ 4096 }
    {
        self.nodes[id.index as usize].known.len() as u32
    }

    /// The part of degree r of a node.
    pub fn part(&self, id: NodeId, r: u32) -> &Arc<Part>
        requires id { IsIdOf self.now id }
        requires known { r < length (known_at self.now (place_of id)) }
        ensures value { arc_value result.now ≡ part_in (known_at self.now (place_of id)) r }
        ensures part { IsKnownPart self.now.ring self.now.formulas (place_of id) r (arc_value result.now) }
        ensures meaning { (D : ℕ) → ExactlyOne (Means (series self.now.ring) D self.now.formulas (place_of id)) }
    {
        self.nodes[id.index as usize].known.part(r as usize)
    }

    /// Refuses where the graph is full.
    fn test_room(&self) -> Result<(), GraphError>
        ensures ok { OnOk result (size_of self.now < 65536) }
        ensures err { OnErr result ((result ≡ Err GraphError.Full) × IsFull self.now) }
    {
        if self.nodes.len() == MOST_NODES {
            return Err(GraphError::Full);
        }
        Ok(())
    }

    /// Adds a node with this constant term.
    fn add(&mut self, form: Form, constant: u64) -> Result<NodeId, OutOfMemory>
        requires room { size_of self.old < 65536 }
        requires lawful { IsLawful self.old.ring self.old.constants (size_of self.old) (formula_of form) }
        requires constant { IsConstant (modulus_of self.old.ring) self.old.constants (formula_of form) constant }
        ensures ok { IfOk result (AddsNode (formula_of form) self.old self.new) }
        ensures err { OnErr result (self.new ≡ self.old) }
    {
        let index = self.nodes.len() as u32;
        self.nodes.push(Node {
            form,
            constant,
            known: KnownParts::new(self.alloc),
        })?;
        Ok(NodeId { index })
    }

    /// Sees to it that the parts of node i are known up to the degree `to`, where those of the nodes
    /// that it names are.
    fn extend_node(&mut self, i: usize, to: usize) -> Result<(), OutOfMemory>
        requires node { i < size_of self.old }
        requires permitted { to ≤ 4095 }
        requires named { EachNamed (λ j. to < length (known_at self.old j)) (formula_at self.old.formulas i) }
        ensures kept { Keeps self.old self.new }
        ensures others { (h : ℕ) → h ≢ i → known_at self.new h ≡ known_at self.old h }
        ensures ok { OnOk result (to < length (known_at self.new i)) }
    {
        for _ in self.nodes[i].known.len()..to + 1 {
            self.learn(i)?;
        }
        Ok(())
    }

    /// Computes the first part of node i that isn't known.
    fn learn(&mut self, i: usize) -> Result<(), OutOfMemory>
        requires node { i < size_of self.old }
        requires permitted { length (known_at self.old i) ≤ 4095 }
        requires named { EachNamed (λ j. length (known_at self.old i) < length (known_at self.old j))
            (formula_at self.old.formulas i) }
        ensures ok { OnOk result (AddsPart i self.old self.new) }
        ensures err { OnErr result (self.new ≡ self.old) }
    {
        let part = next_part(self.alloc, self.ring, &self.nodes, i)?;
        self.nodes[i].known.push(part)?;
        Ok(())
    }
}
