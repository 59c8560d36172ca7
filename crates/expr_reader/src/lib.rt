//! Expressions as texts, and the names of their variables.
#![tactic(auto)]

// names in order of mention, and why a name isn't added
mod name_error;
mod names;
// tokens, reading by recursive descent, and the canonical spelling
mod parsing;
mod printing;
mod read_error;
mod reader;
mod reading;
mod scanning;
mod token;

pub use name_error::NameError;
pub use names::Names;
pub use printing::print;
pub use read_error::ReadError;
pub use reading::read;
