//! Tests of `residue`, `parts` and `rows`.
#![tactic(auto)]

// `residue` and `parts`
#[cfg(test)]
mod homogeneous_parts;
#[cfg(test)]
mod larger_parts;
#[cfg(test)]
mod residues;
#[cfg(test)]
mod series;

// `rows`
#[cfg(test)]
mod own_rows;
