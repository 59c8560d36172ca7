//! Counts of steps.
ghost use Rattle.std.specs.Prelude.{◌≡◌, ℕ, ◌+◌, ◌^◌, ◌<◌, ◌≤◌};

use std::marker::Model;

/// A count of steps. It cannot be dropped: it is spent by `merge`, which adds it to another one, or
/// by `finish`, which answers the count.
pub struct Tally {
    count: u64,
}

impl Model for Tally {
    ghost Value = { ℕ };

    ghost view = { λ tally. tally.count };

    ghost invariant = { λ tally. tally.count ≤ 2 ^ 63 };
}

impl Tally {
    /// A count of 0.
    pub fn new() -> Tally
        ensures { result ≡ 0 }
    {
        Tally { count: 0 }
    }

    /// The count so far.
    pub fn count(&self) -> u64
        ensures count { result ≡ self.now }
        ensures bound { result ≤ 2 ^ 63 }
    {
        self.count
    }

    /// The count. The tally is spent.
    pub fn finish(self) -> u64
        ensures count { result ≡ self }
        ensures bound { result ≤ 2 ^ 63 }
    {
        let Tally { count } = self;
        count
    }

    /// Adds the count of another tally, which is spent.
    pub fn merge(&mut self, other: Tally)
        requires { self.old + other ≤ 2 ^ 63 }
        ensures { self.new ≡ self.old + other }
    {
        let Tally { count } = other;
        self.count += count;
    }

    /// Counts one step more.
    pub(crate) fn tick(&mut self)
        requires { self.old < 2 ^ 63 }
        ensures { self.new ≡ self.old + 1 }
    {
        self.count += 1;
    }
}
