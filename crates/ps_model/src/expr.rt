use sqlite_items::{Boxed, Items};

/// An expression as a tree.
#[cycle(expr)]
#[derive(Debug, Drop)]
pub enum Expr {
    /// A number, of which the residue counts.
    Number(u64),
    /// The variable at this place in the list of names, from 0.
    Name(u32),
    /// Y.
    MainVariable,
    /// At least two summands, or one with a minus.
    Sum(Items<Summand>),
    /// At least two factors, the first of which doesn't divide.
    Product(Items<Factor>),
    /// A base and its exponent, at most 255.
    Power(Boxed<Expr>, u32),
}

/// A summand and whether a minus stands before it.
#[cycle(expr)]
#[derive(Debug, Drop)]
pub struct Summand {
    pub minus: bool,
    pub of: Expr,
}

/// A factor and whether it divides.
#[cycle(expr)]
#[derive(Debug, Drop)]
pub struct Factor {
    pub divide: bool,
    pub of: Expr,
}
