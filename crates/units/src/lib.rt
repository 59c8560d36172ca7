//! Inverses and quotients of power series, part by part.
#![tactic(auto)]

mod known_parts;
mod quotients;

pub use known_parts::KnownParts;
pub use quotients::{inverse_next, quotient_next, quotient_next_of};
