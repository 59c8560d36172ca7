//! Homogeneous parts of polynomials in up to eight variables, and sums of their products.
#![tactic(auto)]

// what a part is made of: a ring, terms with their monomials, the part
mod homogeneous;
mod rings;
mod terms;

// how many monomials there are
mod counting;

// rows of parts: shared once more, and where those of a job's polynomial come from
mod sharing;
mod source;

// sums, multiples and products
mod arithmetic;
mod dense;
mod merging;
mod sparse;
mod sums;

// series: rows of coefficients beside the parts, and parts of sums of products
mod contiguous;
mod crossed;
mod row_terms;
mod series;

// the cells in which products are added up
mod cells;
mod places;

pub use arithmetic::{product, scaled, sum};
pub use counting::{counting_laws, monomials, permitted};
pub use crossed::{Crossed, less_crossed};
pub use homogeneous::Part;
pub use rings::Ring;
pub use series::Series;
pub use sharing::share;
pub use source::RowSource;
pub use sums::Accumulator;
pub use terms::{Monomial, Term};
