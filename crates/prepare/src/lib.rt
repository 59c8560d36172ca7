//! Weierstrass preparation, degree by degree: a polynomial in Y over power series as the product
//! of one that is monic in Y and a unit.
#![tactic(auto)]

mod error;
mod factor;
mod first;
mod prep;
mod recurrence;
mod tally;

pub use error::PrepError;
pub use prep::Prep;
pub use tally::Tally;
