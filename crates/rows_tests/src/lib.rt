//! Tests of rows that one writer and several readers share.
#![tactic(auto)]

// rows of numbers
#[cfg(test)]
mod numbers;

// what a look finds
#[cfg(test)]
mod looks;

// readers beside a writer, in threads of their own
#[cfg(test)]
mod threads;
