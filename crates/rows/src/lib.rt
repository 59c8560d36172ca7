//! Rows of items, each of which fits its place.
#![tactic(auto)]

// what a row holds, and what a row is
mod item;

// a row of one owner
mod own;

// a row that one writer and several readers share: what readers read, and the rule over it
mod copies;
mod published_length;
mod rule;

// its writer, its readers, and what they tell and find
mod making;
mod reader;
mod shared;
mod writer;

pub use item::{RowItem, RowOut};
pub use making::shared_row;
pub use own::OwnRow;
pub use shared::{Looked, RowReader, RowWriter, Told};
