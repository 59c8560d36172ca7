//! Tests of `session` and `printer`.
#![tactic(auto)]

// jobs, and sessions that are raised
#[cfg(test)]
mod made;

// `session`
#[cfg(test)]
mod rounds;
#[cfg(test)]
mod sessions;

// `session`, over shared rows
#[cfg(test)]
mod beside;
#[cfg(test)]
mod shared;

// `printer`, from sessions
#[cfg(test)]
mod printing;

// `comparison`, of texts with sessions
#[cfg(test)]
mod comparing;

// `printer`, of texts
#[cfg(test)]
mod reading;
