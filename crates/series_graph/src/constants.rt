//! The constant terms of sums.
ghost use Rattle.std.specs.Prelude.{◌≡◌, ℕ, ◌%◌, ◌<◌, length};
ghost use Rattle.std.specs.List.{All};
ghost use Rattle.residue.specs.Residues.{number_of};
ghost use Rattle.series_graph.specs.Formula.{place_of};
ghost use Rattle.series_graph.specs.GraphValue.{combined, multiplied};
ghost use Rattle.series_graph.specs.Nodes.{constants_in};

use crate::node::{Node, NodeId};
use residue::Modulus;

/// The sum of each number times its node's constant term.
pub fn combined_constant(modulus: Modulus, nodes: &[Node], of: &[(u64, NodeId)]) -> u64
    requires constants { All (λ c. c < number_of modulus) (constants_in nodes.now) }
    requires residues { All (λ t. t.0 < number_of modulus) of.now }
    requires nodes { All (λ t. place_of t.1 < length nodes.now) of.now }
    ensures { result ≡ combined (constants_in nodes.now) of.now % number_of modulus }
{
    let mut sum = 0;
    for (c, id) in of {
        let multiple = modulus.mul(*c, nodes[id.index as usize].constant);
        sum = modulus.add(sum, multiple);
    }
    sum
}

/// The sum of the products of each two nodes' constant terms.
pub fn dot_constant(modulus: Modulus, nodes: &[Node], of: &[(NodeId, NodeId)]) -> u64
    requires constants { All (λ c. c < number_of modulus) (constants_in nodes.now) }
    requires nodes { All (λ t. (place_of t.0 < length nodes.now)
        × (place_of t.1 < length nodes.now)) of.now }
    ensures { result ≡ multiplied (constants_in nodes.now) of.now % number_of modulus }
{
    let mut sum = 0;
    for (a, b) in of {
        let a = nodes[a.index as usize].constant;
        let b = nodes[b.index as usize].constant;
        sum = modulus.add(sum, modulus.mul(a, b));
    }
    sum
}
