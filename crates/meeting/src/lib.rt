//! A gate at which two workers meet, for tests.
#![tactic(auto)]

use pipe::Gate;
use std::sync::Wait;
use std::sync::atomic::{AtomicBool, Ordering};
use std::thread;
use std::thread::Threads;

/// Lets stage 0 before degree 1 and stage 1 before degree 0 wait for each other. One thread alone waits
/// in vain at the first of the two.
#[derive(Drop)]
pub struct Meeting {
    first: AtomicBool,
    second: AtomicBool,
    late: AtomicBool,
}

impl Meeting {
    /// Nobody has come.
    pub fn new() -> Meeting {
        Meeting {
            first: AtomicBool::new(false),
            second: AtomicBool::new(false),
            late: AtomicBool::new(false),
        }
    }

    /// Whether both came, and none waited in vain.
    pub fn met(&self) -> bool {
        self.first.load(Ordering::SeqCst)
            && self.second.load(Ordering::SeqCst)
            && !self.late.load(Ordering::SeqCst)
    }

    /// Says that one has come, and waits for the other, but for so many turns at most.
    fn meet(&self, mine: &AtomicBool, other: &AtomicBool) {
        mine.store(true, Ordering::SeqCst);
        for _ in 0..10_000_000u32 {
            if other.load(Ordering::SeqCst) {
                return;
            }
            thread::yield_now();
        }
        self.late.store(true, Ordering::SeqCst);
    }
}

impl Gate for Meeting {
    fn before_step<R: Threads + Wait + Sync>(&self, _rt: &R, stage: u32, degree: u32) {
        if stage == 0 && degree == 1 {
            self.meet(&self.first, &self.second);
        }
        if stage == 1 && degree == 0 {
            self.meet(&self.second, &self.first);
        }
    }
}
