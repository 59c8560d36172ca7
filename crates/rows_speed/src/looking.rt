//! Readers: of a shared row, and of a vector behind a lock.
use crate::numbers::{Number, found_behind};
use rows::{Looked, RowReader};
use std::sync::atomic::{AtomicU64, Ordering};
use std::sync::{Arc, Mutex, RwLock, Wait};
use std::time::{Clock, Instant};

/// What a row can be looked at by.
pub trait LookAt {
    /// One look at a row of which `last` items were seen. It tells how many there are, or nothing
    /// where the look missed or they don't begin with those that were seen.
    fn look_at<W: Wait>(self, rt: &W, last: u32) -> (Self, Option<u32>);
}

/// The number of items of a look, as `found_behind` has it.
fn found_of(found: &Looked<Number>, last: u32) -> Option<u32> {
    let len = found.len();
    if len < last {
        return None;
    }
    for r in [0, last / 2] {
        if r < len && found.item(r).value != u64::from(r) {
            return None;
        }
    }
    for r in last.saturating_sub(1)..len {
        if found.item(r).value != u64::from(r) {
            return None;
        }
    }
    Some(len)
}

impl LookAt for RowReader<Number> {
    fn look_at<W: Wait>(self, _rt: &W, last: u32) -> (RowReader<Number>, Option<u32>) {
        match self.look() {
            Ok(found) => {
                let len = found_of(&found, last);
                (found.leave(), len)
            }
            Err(reader) => (reader, None),
        }
    }
}

/// A vector behind a `Mutex`.
#[derive(Clone, Copy)]
pub struct BehindMutex<'a> {
    pub items: &'a Mutex<Vec<Arc<Number>>>,
}

impl LookAt for BehindMutex<'_> {
    fn look_at<W: Wait>(self, rt: &W, last: u32) -> (Self, Option<u32>) {
        let items = self.items.lock(rt);
        (self, found_behind(&items, last as usize))
    }
}

/// A vector behind an `RwLock`.
#[derive(Clone, Copy)]
pub struct BehindRwLock<'a> {
    pub items: &'a RwLock<Vec<Arc<Number>>>,
}

impl LookAt for BehindRwLock<'_> {
    fn look_at<W: Wait>(self, rt: &W, last: u32) -> (Self, Option<u32>) {
        let items = self.items.read(rt);
        (self, found_behind(&items, last as usize))
    }
}

/// What came of all looks.
#[derive(Clone, Copy)]
pub struct Looks {
    pub count: u64,
    pub wrong: u64,
    pub nanos: u64,
}

impl Looks {
    /// These and others.
    pub fn and(self, others: Looks) -> Looks {
        Looks {
            count: self.count.saturating_add(others.count),
            wrong: self.wrong.saturating_add(others.wrong),
            nanos: self.nanos.saturating_add(others.nanos),
        }
    }
}

/// Looks until so many items are found, a look is wrong, or the writer gave up; and once more, when
/// all items are tested.
pub fn look_on<W: Wait + Clock, L: LookAt + Drop>(
    rt: &W,
    reader: L,
    items: u32,
    gave_up: &AtomicU64,
) -> Option<Looks> {
    let start = Instant::now(rt).ok()?;
    let mut count = 0_u64;
    let mut last = 0;
    let mut reader = reader;
    for _ in rt.forever() {
        let (next, found) = reader.look_at(rt, last);
        reader = next;
        count = count.saturating_add(1);
        last = found.unwrap_or(u32::MAX);
        if last >= items || gave_up.load(Ordering::SeqCst) == 1 {
            break;
        }
    }
    let nanos = start.elapsed(rt).ok()?.as_nanos();
    let (_reader, whole) = reader.look_at(rt, 1);
    Some(Looks {
        count,
        wrong: if last == items && whole == Some(items) {
            0
        } else {
            1
        },
        nanos: u64::try_from(nanos).unwrap_or(u64::MAX),
    })
}
