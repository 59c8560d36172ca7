//! One writer beside several readers, each in a thread of its own.
ghost use Rattle.std.specs.Prelude.{◌≤◌};

use crate::looking::{BehindMutex, BehindRwLock, LookAt, Looks, look_on};
use crate::numbers::Number;
use crate::writing::{PutBehind, write_on};
use rows::shared_row;
use std::alloc::Global;
use std::marker::{Send, Sync};
use std::sync::atomic::AtomicU64;
use std::sync::{Mutex, RwLock, Wait};
use std::thread::{Threads, join, map_vec};
use std::time::Clock;

/// Who looks at how many items.
#[derive(Clone, Copy)]
pub struct Crowd {
    pub readers: u32,
    pub items: u32,
    ghost some: { 1 ≤ readers },
    ghost few: { readers ≤ 4 },
    ghost short: { items ≤ 4096 },
}

/// How a row is shared.
#[derive(Clone, Copy)]
pub enum Way {
    Shared,
    Mutex,
    RwLock,
}

impl Way {
    pub fn name(self) -> &'static str {
        match self {
            Way::Shared => "shared row",
            Way::Mutex => "Mutex",
            Way::RwLock => "RwLock",
        }
    }
}

/// One row: a writer puts all items, and the readers look until they find them.
pub fn round<R: Wait + Threads + Clock + Sync>(
    rt: &R,
    alloc: Global,
    way: Way,
    crowd: Crowd,
) -> Option<Looks> {
    match way {
        Way::Shared => of_shared(rt, alloc, crowd),
        Way::Mutex => of_mutex(rt, alloc, crowd),
        Way::RwLock => of_rw_lock(rt, alloc, crowd),
    }
}

/// A writer that puts so many items, beside these readers. It answers what came of all their looks.
fn beside<R: Wait + Threads + Clock + Sync, P: PutBehind + Send, L: LookAt + Send + Drop>(
    rt: &R,
    alloc: Global,
    row: &mut P,
    readers: Vec<L>,
    items: u32,
) -> Option<Looks> {
    let gave_up = AtomicU64::new(0);
    let gave_up = &gave_up;
    let (wrote, looks) = join(
        rt,
        move || write_on(rt, alloc, row, items, gave_up),
        move || {
            map_vec(
                rt,
                readers,
                &|reader: L| { look_on(rt, reader, items, gave_up) },
            )
        },
    );
    let mut all = Looks {
        count: 0,
        wrong: 0,
        nanos: 0,
    };
    for one in looks.ok()? {
        all = all.and(one?);
    }
    if wrote { Some(all) } else { None }
}

/// Looks at a shared row.
fn of_shared<R: Wait + Threads + Clock + Sync>(
    rt: &R,
    alloc: Global,
    crowd: Crowd,
) -> Option<Looks> {
    let (mut row, readers) = shared_row::<Number, R>(
        rt,
        alloc,
        (),
        crowd.items,
        crowd.readers,
    ).ok()?;
    let looks = beside(rt, alloc, &mut row, readers, crowd.items);
    row.close(rt);
    looks
}

/// Looks at a vector behind a `Mutex`.
fn of_mutex<R: Wait + Threads + Clock + Sync>(
    rt: &R,
    alloc: Global,
    crowd: Crowd,
) -> Option<Looks> {
    let items = Mutex::new(Vec::with_capacity(alloc, crowd.items as usize).ok()?);
    let mut row = BehindMutex { items: &items };
    let mut readers = Vec::new(alloc);
    for _ in 0..crowd.readers {
        readers.push(row).ok()?;
    }
    beside(rt, alloc, &mut row, readers, crowd.items)
}

/// Looks at a vector behind an `RwLock`.
fn of_rw_lock<R: Wait + Threads + Clock + Sync>(
    rt: &R,
    alloc: Global,
    crowd: Crowd,
) -> Option<Looks> {
    let items = RwLock::new(Vec::with_capacity(alloc, crowd.items as usize).ok()?);
    let mut row = BehindRwLock { items: &items };
    let mut readers = Vec::new(alloc);
    for _ in 0..crowd.readers {
        readers.push(row).ok()?;
    }
    beside(rt, alloc, &mut row, readers, crowd.items)
}
