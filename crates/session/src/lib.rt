//! A job, whose factors are raised to any list of precisions.
#![tactic(auto)]

// what a session is opened with: the greatest precision, and the first parts of the lead
mod lead;
mod precision;

// a session, and what a writer sees of it
mod blocks;
mod sessions;

// sessions over rows that threads share, and a stream that is written while they grow
mod beside;
mod following;
mod names;
mod seen;
mod seen_rows;
mod shared;
mod shared_blocks;
mod stream_fault;
mod streams;

// that what is written are the job's factors
mod laws;

pub use laws::{factor_laws, step_laws};
pub use precision::greatest_permitted;
pub use sessions::{Session, SessionView};
pub use shared::SharedSessionView;
pub use stream_fault::StreamFault;
pub use streams::write_stream;
