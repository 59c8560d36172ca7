//! Shifts of polynomials: Y + c in place of Y.
#![tactic(auto)]

// binomial numbers modulo a number, and a table that threads share
mod binomials;
mod shared;

// the shift of a row of parts
mod shifts;

pub use binomials::Binomials;
pub use shared::{SharedBinomials, Table};
pub use shifts::shift;
