ghost use Rattle.std.specs.Prelude.{◌≡◌, ◌≢◌, ℕ, ◌<◌, ◌≤◌, List, Option, length};
ghost use Rattle.ports.specs.Bytes.{AddsBytes, TakesCount};
ghost use Rattle.ports.specs.Faults.{Rose};

/// What a push answers.
#[derive(Clone, Copy, Debug, PartialEq, Eq)]
pub enum Pushed {
    /// So many bytes of the piece's front were taken: at least one.
    Took(u32),
    /// No byte was taken. The next push may succeed.
    Failed,
}

/// A sink of bytes.
///
/// `written` is the bytes that were written, or `None` where the sink doesn't tell them; no call
/// changes which of the two it is. `faults` counts the failed pushes, up to 2^64 - 1.
pub trait Sink {
    ghost written: { Self → Option (List ℕ) };

    ghost faults: { Self → ℕ };

    /// Takes bytes from the front of `piece`, maybe not all.
    fn push(&mut self, piece: &[u8]) -> Pushed
        requires { 0 < length piece.now }
        ensures count { TakesCount result (length piece.now) }
        ensures adds { AddsBytes (written self.old) (written self.new) piece.now result }
        ensures failed { result ≡ Pushed.Failed → Rose (faults self.old) (faults self.new) }
        ensures no_fault { result ≢ Pushed.Failed → faults self.new ≡ faults self.old }
        ensures faults { faults self.old ≤ faults self.new };
}
