//! Rows of numbers: at place r stands r.
ghost use Rattle.std.specs.Prelude.{◌≡◌};
ghost use Rattle.std.specs.Coded.{Coded-set, coded_ℕ};

use rows::RowItem;
use std::sync::Arc;

/// A number of a row.
#[derive(Drop)]
pub struct Number {
    pub value: u64,
}

impl RowItem for Number {
    type Title = ();

    ghost fits = { λ title r x. x.value ≡ r };

    ghost fits_once = { λ title r x. Coded-set coded_ℕ x.value r };
}

/// How many items there are, where none of the `last` ones that were there is gone, the first one and
/// that in their middle are right, and so is each from the last of them on.
pub fn found_behind(items: &[Arc<Number>], last: usize) -> Option<u32> {
    if items.len() < last {
        return None;
    }
    for r in [0, last / 2] {
        if r < items.len() && items[r].value != r as u64 {
            return None;
        }
    }
    for r in last.saturating_sub(1)..items.len() {
        if items[r].value != r as u64 {
            return None;
        }
    }
    u32::try_from(items.len()).ok()
}
