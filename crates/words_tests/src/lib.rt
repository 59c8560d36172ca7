//! Tests of `words`.
#![tactic(auto)]

// which lists of words are taken, and as what
#[cfg(test)]
mod lists;
