//! The texts of blocks, streams and inputs, written piece by piece, and blocks read back.
#![tactic(auto)]

// what is written: a view, and the parts of one polynomial of it
mod coefficients;
mod view;

// bytes that are held for a sink; pieces, terms, and lines of terms
mod buffer;
mod lines;
mod putting;
mod terms;

// the texts
mod block;
mod degree;
mod input;

// reading: pieces, terms, and lines of terms
mod read_lines;
mod read_pieces;
mod read_precision;
mod read_terms;

// the lines of a block
mod read_factors;
mod read_whole;

// the block that a text is, and why a text is none
mod block_error;
mod read_laws;
mod read_polynomials;
mod reading;

pub use block::write_block;
pub use block_error::BlockError;
pub use degree::write_degree;
pub use input::write_input;
pub use read_laws::l6;
pub use reading::{Block, read_block};
pub use view::BlockView;
