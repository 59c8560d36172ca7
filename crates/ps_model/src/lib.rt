//! Jobs as plain data, polynomials in Y and up to eight weighted variables modulo m, and their
//! laws.
#![tactic(auto)]

mod comparison;
mod copies;
pub mod examples;
mod expr;
mod job;
pub mod laws;
mod name_view;
mod out_of_memory;
pub mod plain;
mod shape;

pub use comparison::same;
pub use copies::copy_of;
pub use expr::{Expr, Factor, Summand};
pub use job::{JobData, Root};
pub use name_view::NameView;
pub use out_of_memory::OutOfMemory;
pub use plain::{PlainPoly, PlainTerm, plain_cut, plain_is_factors, plain_product, plain_sum};
pub use shape::{formal_degree, node_count};
