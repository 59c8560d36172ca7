//! Tests of `series_graph`, `intake` and `stages`.
#![tactic(auto)]

// `series_graph`
#[cfg(test)]
mod graphs;

// `intake`
#[cfg(test)]
mod job_rows;

// `stages` over the rows of `intake`
#[cfg(test)]
mod jobs;

// `stages` in any order, and over shared rows
#[cfg(test)]
mod schedules;
#[cfg(test)]
mod shared_lines;
