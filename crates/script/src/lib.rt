//! Scripts: what their lines say, and why one is refused.
#![tactic(auto)]

mod words;

// what is told of a refused line
mod refusal;

// the lines of a header
mod header;
mod names;
mod roots;

// the lines behind it
mod block;
mod request;

pub use block::block_line;
pub use header::{Header, Said};
pub use refusal::{Keyword, Refusal, Refused};
pub use request::{Request, request_of};
pub use words::is_skipped;
