//! Tests of `pipe`.
#![tactic(auto)]

// weights, cut into blocks
#[cfg(test)]
mod blocks;

// jobs and their lines, and what these are compared by
#[cfg(test)]
mod comparisons;
#[cfg(test)]
mod jobs;
#[cfg(test)]
mod lines;

// workers over lines
#[cfg(test)]
mod pipelines;
