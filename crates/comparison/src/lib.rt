//! Where a block that was read differs from one that is known.
#![tactic(auto)]

// places, and their order
mod laws;
mod place;

// one polynomial: its parts in a view, its terms by degree, the first difference
mod coefficients;
mod polynomials;
mod slices;

// a block
mod blocks;

pub use blocks::first_difference;
pub use laws::difference_laws;
pub use place::Place;
