//! The stages that workers run.

use rows::RowWriter;
use stages::{Stage, StageItem};

/// A stage over a shared row.
pub type Work = Stage<RowWriter<StageItem>>;
