//! The words of the command line, read by `clap`.
#![tactic(auto)]

// what the words ask for
mod command;

// the program as `clap` knows it, and the rules behind its parse
pub mod laws;
mod number;
mod program;
mod reading;

pub use command::{Command, Workers};
pub use reading::command_of;
