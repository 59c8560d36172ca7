//! Rows of numbers.
ghost use Rattle.std.specs.Prelude.{◌≡◌, ◌+◌, length};
ghost use Rattle.std.specs.Coded.{Coded-set, coded_ℕ};

use rows::{RowItem, RowOut};
use std::alloc::Global;
use std::sync::Arc;

/// The number at place 0.
#[derive(Drop)]
pub struct First {
    pub number: u64,
}

/// A number: at place r the first one plus r.
#[derive(Drop)]
pub struct Number {
    pub value: u64,
}

impl RowItem for Number {
    type Title = First;

    ghost fits = { λ title r x. x.value ≡ title.number + r };

    ghost fits_once = { λ title r x. Coded-set coded_ℕ x.value (title.number + r) };
}

/// Puts the next number of a row that begins with `first`. It tells whether there was room and
/// memory.
pub fn put_next<R: RowOut<Number>>(alloc: Global, row: &mut R, first: u32) -> bool
    requires { (R.title row.old).number ≡ first }
    ensures title { R.title row.new ≡ R.title row.old }
    ensures name { R.name row.new ≡ R.name row.old }
{
    let r = row.len();
    if r >= row.capacity() {
        return false;
    }
    let value = u64::from(first) + u64::from(r);
    let Ok(item) = Arc::new(alloc, Number { value }) else {
        return false;
    };
    row.put(item);
    true
}
