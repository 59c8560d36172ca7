//! Writers: of a shared row, and of a vector behind a lock.
use crate::looking::{BehindMutex, BehindRwLock};
use crate::numbers::Number;
use rows::{RowOut, RowWriter};
use std::alloc::Global;
use std::sync::atomic::{AtomicU64, Ordering};
use std::sync::{Arc, Wait};

/// What items can be put behind.
pub trait PutBehind {
    /// Puts an item, so that readers find it. It tells whether there was room and memory.
    fn put_behind<W: Wait>(&mut self, rt: &W, item: Arc<Number>) -> bool;
}

impl PutBehind for RowWriter<Number> {
    fn put_behind<W: Wait>(&mut self, rt: &W, item: Arc<Number>) -> bool {
        let r = self.len();
        if r >= self.capacity() || item.value != u64::from(r) {
            return false;
        }
        self.put(item);
        self.publish(rt).is_ok()
    }
}

impl PutBehind for BehindMutex<'_> {
    fn put_behind<W: Wait>(&mut self, rt: &W, item: Arc<Number>) -> bool {
        let mut items = self.items.lock(rt);
        items.push(item).is_ok()
    }
}

impl PutBehind for BehindRwLock<'_> {
    fn put_behind<W: Wait>(&mut self, rt: &W, item: Arc<Number>) -> bool {
        let mut items = self.items.write(rt);
        items.push(item).is_ok()
    }
}

/// Puts so many items, one by one.
fn put_all<W: Wait, P: PutBehind>(rt: &W, alloc: Global, row: &mut P, items: u32) -> bool {
    for r in 0..items {
        let value = u64::from(r);
        let Ok(item) = Arc::new(alloc, Number { value }) else {
            return false;
        };
        if !row.put_behind(rt, item) {
            return false;
        }
    }
    true
}

/// The same, and tells readers where it gave up.
pub fn write_on<W: Wait, P: PutBehind>(
    rt: &W,
    alloc: Global,
    row: &mut P,
    items: u32,
    gave_up: &AtomicU64,
) -> bool {
    let done = put_all(rt, alloc, row, items);
    if !done {
        gave_up.store(1, Ordering::SeqCst);
    }
    done
}
