//! Jobs and inputs without roots, with what is wrong with them, and the rows of their polynomials.
#![tactic(auto)]

// the tests of a tree, before anything is made of it
mod divisions;
mod leading;

// a tree as nodes of a graph
mod building;
mod slots;

// inputs without roots, and why one is refused
mod free_error;
mod free_input;
mod slot_rows;

// jobs: their roots, the rows of their polynomials, and why one is refused
mod differences;
mod input_rows;
mod job;
mod job_error;
mod root_faults;
mod roots;

pub use free_error::FreeError;
pub use free_input::FreeInput;
pub use input_rows::InputRows;
pub use job::Job;
pub use job_error::JobError;
