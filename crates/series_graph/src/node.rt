//! Nodes, and how they are named.
use units::KnownParts;

/// The name of a node in its graph.
#[derive(Clone, Copy, Debug, PartialEq, Eq)]
pub struct NodeId {
    pub(crate) index: u32,
}

/// What a node is made of.
#[derive(Drop)]
pub enum Form {
    /// A residue.
    Number(u64),
    /// A variable of the ring.
    Variable(u32),
    /// The sum of each residue times its node.
    Combination(Vec<(u64, NodeId)>),
    /// The sum of the products of each two nodes.
    Dot(Vec<(NodeId, NodeId)>),
    /// The first node divided by the second.
    Quotient(NodeId, NodeId),
}

/// A node.
#[derive(Drop)]
pub struct Node {
    pub form: Form,
    /// The constant term of what it means.
    pub constant: u64,
    /// The parts that are known.
    pub known: KnownParts,
}
