//! The grammar of expressions: what a token can be followed by, and the law of the canonical
//! spelling.
#![tactic(auto)]

pub mod laws;
