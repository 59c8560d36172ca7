//! Tests of `ps_model`.
#![tactic(auto)]

#[cfg(test)]
mod plain_functions;
