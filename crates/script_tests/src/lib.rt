//! Tests of `script`.
#![tactic(auto)]

#[cfg(test)]
mod headers;
#[cfg(test)]
mod requests;
