//! Tests of `taylor`, `prepare` and `units`.
#![tactic(auto)]

// `taylor`
#[cfg(test)]
mod shifts;

// `prepare`
#[cfg(test)]
mod preparations;

// `units`
#[cfg(test)]
mod known_parts;
#[cfg(test)]
mod quotients;
