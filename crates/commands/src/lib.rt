//! What the program does with its words, its input and its output, from bytes to bytes.
#![tactic(auto)]

mod command;

// why a run ends
mod stop;

// scripts of the commands that answer requests, and what answers them
mod expanding;
mod factoring;
mod pipeline;
mod streams;

// a script of `check`, line by line, and its block
mod check;
mod checking;
mod judging;
mod verdict;

// a script of the others, line by line, and the words of all
pub mod laws;
mod program;
mod reading;
mod refusing;

pub use command::ScriptCommand;
pub use program::{asks_pipe, run, run_pipe};
