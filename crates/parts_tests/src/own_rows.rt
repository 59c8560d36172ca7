//! Rows of numbers, filled and read back through the bound.
ghost use Rattle.std.specs.Prelude.{◌≡◌, ◌+◌, ◌<◌, ◌≤◌, ◌^◌, [], length, IfOk};
ghost use Rattle.std.specs.Coded.{Coded-set, coded_ℕ};

use ps_model::OutOfMemory;
use rows::{OwnRow, RowItem, RowOut};
use std::alloc::Global;
use std::sync::Arc;
use std::test::Fail;

/// The number at place 0.
#[derive(Drop)]
struct First {
    number: u64,
}

/// A number: at place r the first one plus r.
#[derive(Drop)]
struct Number {
    value: u64,
}

impl RowItem for Number {
    type Title = First;

    ghost fits = { λ title r x. x.value ≡ title.number + r };

    ghost fits_once = { λ title r x. Coded-set coded_ℕ x.value (title.number + r) };
}

/// Fills an empty row.
fn fill<R: RowOut<Number>>(alloc: Global, row: &mut R, first: u32) -> Result<(), OutOfMemory>
    requires title { (R.title row.old).number ≡ first }
    requires empty { R.items row.old ≡ [] }
    ensures title { R.title row.new ≡ R.title row.old }
    ensures full { IfOk result (λ _. length (R.items row.new) ≡ R.capacity row.old) }
{
    for r in 0..row.capacity() {
        let value = u64::from(first) + u64::from(r);
        row.put(Arc::new(alloc, Number { value })?);
    }
    Ok(())
}

/// The number at place `r`.
fn number_at<R: RowOut<Number>>(row: &R, r: u32) -> u64
    requires { r < length (R.items row.now) }
    ensures { result ≡ (R.title row.now).number + r }
{
    row.get(r).value
}

/// A full row of the numbers from `first` on.
fn numbers(alloc: Global, first: u32, capacity: u32) -> Result<OwnRow<Number>, OutOfMemory>
    requires { capacity ≤ 4096 }
    ensures title { IfOk result (λ row.
        (⟦<OwnRow<Number> as RowOut<Number>>⟧.title row).number ≡ first) }
    ensures full { IfOk result (λ row.
        length (⟦<OwnRow<Number> as RowOut<Number>>⟧.items row) ≡ capacity) }
{
    let title = First {
        number: u64::from(first),
    };
    let mut row = OwnRow::new(alloc, title, capacity)?;
    fill(alloc, &mut row, first)?;
    Ok(row)
}

#[test]
fn a_row_is_filled_and_read(rt: HostRuntime) -> Result<(), Fail> {
    let row = numbers(rt.alloc(), 7, 3)?;
    assert_eq!(rt; row.len(), 3);
    assert_eq!(rt; row.capacity(), 3);
    for (r, number) in [(0, 7), (1, 8), (2, 9)] {
        assert_eq!(rt; number_at(&row, r), number);
    }
    Ok(())
}

#[test]
fn a_row_without_room_stays_empty(rt: HostRuntime) -> Result<(), Fail> {
    let row = numbers(rt.alloc(), 7, 0)?;
    assert_eq!(rt; row.len(), 0);
    assert_eq!(rt; row.capacity(), 0);
    Ok(())
}

#[test]
fn the_largest_row_is_filled(rt: HostRuntime) -> Result<(), Fail> {
    let row = numbers(rt.alloc(), 7, 4096)?;
    assert_eq!(rt; row.len(), 4096);
    assert_eq!(rt; row.capacity(), 4096);
    for (r, number) in [(0, 7), (4094, 4101), (4095, 4102)] {
        assert_eq!(rt; number_at(&row, r), number);
    }
    Ok(())
}
