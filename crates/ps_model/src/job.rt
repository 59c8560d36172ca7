use crate::Expr;
use sqlite_items::Items;

/// A root at the origin: a residue, and its multiplicity from 1 to 32.
#[derive(Clone, Copy, Debug, PartialEq, Eq)]
pub struct Root {
    pub value: u64,
    pub times: u32,
}

/// What is to be factored: the polynomial that the tree stands for, in Y and n weighted variables
/// modulo a number, by its roots at the origin. Past the n-th the weights are 1.
#[derive(Debug, Drop)]
pub struct JobData {
    pub modulus: u64,
    pub n: u32,
    pub weights: [u16; 8],
    pub expr: Expr,
    pub roots: Items<Root>,
}
