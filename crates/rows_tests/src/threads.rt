//! Readers beside a writer, each in a thread of its own.
ghost use Rattle.std.specs.Prelude.{◌≡◌};
ghost use Rattle.std.specs.Coded.{Coded-set, coded_ℕ};

use crate::numbers::{First, Number, put_next};
use rows::{Looked, RowOut, RowReader, RowWriter, shared_row};
use std::alloc::Global;
use std::sync::Wait;
use std::sync::atomic::{AtomicU64, Ordering};
use std::test::Fail;
use std::thread::{Threads, join};

/// A row that begins with 7: the closure of a thread knows it by the type.
struct FromSeven<R: RowOut<Number>> {
    row: R,
    ghost first: { (R.title row).number ≡ 7 } by { Coded-set coded_ℕ _ _ },
}

/// Whether the list that was found begins with the last one, which becomes what was found.
fn goes_on(found: &Looked<Number>, last: &mut Vec<u64>) -> bool {
    for r in 0..found.len() {
        let number = found.item(r).value;
        match last.get(r as usize).copied() {
            Some(before) => {
                if before != number {
                    return false;
                }
            }
            None => {
                if last.push(number).is_err() {
                    return false;
                }
            }
        }
    }
    last.len() == found.len() as usize
}

/// Looks until so many items are seen. It tells whether each look entered, and began with the last.
fn look_on<W: Wait>(rt: &W, alloc: Global, reader: RowReader<Number>, want: u32) -> bool {
    let mut last: Vec<u64> = Vec::new(alloc);
    let mut reader = reader;
    for _ in rt.forever() {
        match reader.look() {
            Err(_) => return false,
            Ok(found) => {
                let same = goes_on(&found, &mut last);
                reader = found.leave();
                if !same {
                    return false;
                }
            }
        }
        if reader.seen() >= want {
            return true;
        }
    }
    unreachable!()
}

/// The same, and counts that it has ended.
fn watch<W: Wait>(
    rt: &W,
    alloc: Global,
    reader: RowReader<Number>,
    want: u32,
    ended: &AtomicU64,
) -> bool {
    let fine = look_on(rt, alloc, reader, want);
    ended.fetch_add(1, Ordering::SeqCst);
    fine
}

/// Publishes so many items one by one, and keeps the writer until both readers have ended.
fn write_on<W: Wait>(
    rt: &W,
    alloc: Global,
    row: &mut FromSeven<RowWriter<Number>>,
    count: u32,
    ended: &AtomicU64,
) -> bool {
    let mut fine = true;
    for _ in 0..count {
        fine = put_next(alloc, &mut row.row, 7) && fine;
        fine = row.row.publish(rt).is_ok() && fine;
    }
    for _ in rt.forever() {
        if ended.load(Ordering::SeqCst) == 2 {
            break;
        }
    }
    fine
}

/// Both readers, where the second one could look while a look of the first stood.
fn both_enter(
    one: RowReader<Number>,
    two: RowReader<Number>,
) -> Option<(RowReader<Number>, RowReader<Number>)> {
    match one.look() {
        Err(_) => None,
        Ok(held) => match two.look() {
            Err(_) => {
                held.leave();
                None
            }
            Ok(found) => {
                let two = found.leave();
                Some((held.leave(), two))
            }
        },
    }
}

/// Two readers and the writer, each in a thread of its own.
fn run<W: Wait + Threads + Sync>(
    rt: &W,
    alloc: Global,
    row: &mut FromSeven<RowWriter<Number>>,
    one: RowReader<Number>,
    two: RowReader<Number>,
) -> bool {
    let Some((one, two)) = both_enter(one, two) else {
        return false;
    };
    let ended = AtomicU64::new(0);
    let ended = &ended;
    let (left, (right, wrote)) = join(
        rt,
        move || watch(rt, alloc, one, 100, ended),
        move || {
            join(
                rt,
                move || watch(rt, alloc, two, 100, ended),
                move || write_on(rt, alloc, row, 100, ended),
            )
        },
    );
    left && right && wrote
}

#[test]
fn readers_enter_beside_a_writer(rt: HostRuntime) -> Result<(), Fail> {
    let (row, mut readers) = shared_row(&rt, rt.alloc(), First { number: 7 }, 128, 2)?;
    let mut row = FromSeven { row };
    let fine = match (readers.pop(), readers.pop()) {
        (Some(one), Some(two)) => run(&rt, rt.alloc(), &mut row, one, two),
        _ => false,
    };
    let FromSeven { row } = row;
    row.close(&rt);
    assert!(rt; fine);
    Ok(())
}
