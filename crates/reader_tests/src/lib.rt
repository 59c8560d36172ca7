//! Tests of `expr_reader`.
#![tactic(auto)]

#[cfg(test)]
mod expressions;
#[cfg(test)]
mod names;
