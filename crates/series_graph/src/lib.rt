//! Power series as nodes, each made of earlier ones, whose parts are computed when they are asked for.
#![tactic(auto)]

mod error;
mod node;

// of one node: its constant term, its next part, and the nodes that it rests on
mod ancestors;
mod constants;
mod formulas;
mod graph;

pub use error::GraphError;
pub use graph::Graph;
pub use node::NodeId;
