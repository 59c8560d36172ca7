//! Laws over the definitions alone. Each function's contract is its law. They hold for every
//! modulus from 2 on, prime or not, every number of variables and all positive weights.
//! `specs/Notation.antt` has the words for polynomials.
pub mod algebra;
pub mod factors;
pub mod leads;
pub mod preparation;
pub mod shift;
pub mod trees;

pub use algebra::{coefficient_laws, quotient_laws, ring_laws, truncation_laws};
pub use factors::{job_laws, l3, l4, stage_laws};
pub use leads::{input_laws, lead_laws};
pub use preparation::{l2, preparation_laws, prepared_row_laws, row_laws, slice_laws};
pub use shift::{l7, taylor_laws};
pub use trees::{l1, value_laws};
