//! A demonstration: a number of 64 bits makes a job, whose factors are found up to degree 40 and
//! summed up in a text.
#![tactic(auto)]

// the numbers that are drawn, and the job that they make
mod draws;
mod jobs;
mod trees;

// its factors
mod raising;

// what is told of them
mod counting;
mod fault;
mod laws;
mod texts;
mod writing;

pub use fault::DemoFault;
pub use laws::demo_law;
pub use writing::write_demo;
