//! Free-running workers over a line of stages with shared rows.
#![tactic(auto)]

// what stands before each step, and how a worker comes to what it takes
mod gate;
mod look;

// one step, and the steps of a block
mod block;
mod first;
mod step;
mod view;

// how stages are cut into blocks
mod blocks_of;
mod cut;
mod weights;

// blocks beside each other, and a whole line
mod blocks;
mod extend;
mod pipeline;

// a line with shared rows and a reader of each
mod make;
mod shared;

pub use cut::cut_blocks;
pub use extend::{extend_blocks, extend_line};
pub use gate::{Gate, OpenGate};
pub use look::wait_for;
pub use shared::{SharedLine, SharedLineView};
pub use weights::weight;
