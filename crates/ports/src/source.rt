ghost use Rattle.std.specs.Prelude.{◌≡◌, ◌≢◌, ℕ, ◌<◌, ◌≤◌, List, Option, length};
ghost use Rattle.ports.specs.Bytes.{GivesCount, MovesBytes};
ghost use Rattle.ports.specs.Faults.{Rose};

/// What a pull answers.
#[derive(Clone, Copy, Debug, PartialEq, Eq)]
pub enum Pulled {
    /// So many bytes stand at the front of what was lent: at least one.
    Bytes(u32),
    /// The source has ended.
    End,
    /// No byte was read. The next pull may succeed.
    Failed,
}

/// A source of bytes.
///
/// `left` is the bytes that are left, or `None` where the source doesn't tell them; no call changes
/// which of the two it is. `faults` counts the failed pulls, up to 2^64 - 1.
pub trait Source {
    ghost left: { Self → Option (List ℕ) };

    ghost faults: { Self → ℕ };

    /// Puts bytes at the front of `into`. What stands behind them is left open.
    fn pull(&mut self, into: &mut [u8]) -> Pulled
        requires { 0 < length into.old }
        ensures count { GivesCount result (length into.new) }
        ensures moves { MovesBytes (left self.old) (left self.new) into.new result }
        ensures failed { result ≡ Pulled.Failed → Rose (faults self.old) (faults self.new) }
        ensures no_fault { result ≢ Pulled.Failed → faults self.new ≡ faults self.old }
        ensures faults { faults self.old ≤ faults self.new };
}
