ghost use Rattle.std.specs.Prelude.{◌≡◌, ◌≢◌, ℕ, ◌<◌, ◌≤◌, ◌↔◌, [], IfOk, length};
ghost use Rattle.ports.specs.Bytes.{AddsBytes, TakesCount};
ghost use Rattle.ports.specs.Faults.{Rose};
ghost use Rattle.ports.specs.Store.{Pushes};

use crate::sink::{Pushed, Sink};
use ps_model::OutOfMemory;
use std::alloc::Global;
use std::marker::Model;

/// A sink in memory with a given room. A push takes as much of its piece as the room and `bite`, a
/// number of bytes, allow, and fails where no room is left. It takes no memory.
#[derive(Drop)]
pub struct MemorySink {
    bytes: Vec<u8>,
    size: usize,
    bite: u32,
    failures: u64,
}

impl Model for MemorySink {
    ghost use Rattle.std.specs.Prelude.{◌-◌, vec_capacity, vec_len};
    ghost use Rattle.ports.specs.Store.{IsStore, Store};

    ghost Value = { Store };

    ghost view = { λ s. record {
      bytes = s.bytes.items;
      room = s.size - vec_len s.bytes;
      bite = s.bite;
      faults = s.failures;
    } };

    ghost invariant = { λ s. IsStore (vec_len s.bytes) (vec_capacity s.bytes) s.size s.bite };
}

impl MemorySink {
    /// A sink with room for `room` bytes, all reserved.
    pub fn new(alloc: Global, room: u64, bite: u32) -> Result<MemorySink, OutOfMemory>
        requires bites { 1 ≤ bite }
        requires fits { room ≤ 4194304 }
        ensures empty { IfOk result (λ s. s.bytes ≡ []) }
        ensures room { IfOk result (λ s. s.room ≡ room) }
        ensures bite { IfOk result (λ s. s.bite ≡ bite) }
        ensures faults { IfOk result (λ s. s.faults ≡ 0) }
    {
        let size = room as usize;
        let bytes = Vec::with_capacity(alloc, size)?;
        Ok(MemorySink {
            bytes,
            size,
            bite,
            failures: 0,
        })
    }

    /// The bytes that were written.
    pub fn bytes(&self) -> &[u8]
        ensures { result.now ≡ self.now.bytes }
    {
        self.bytes.as_slice()
    }
}

impl Sink for MemorySink {
    ghost use Rattle.std.specs.Prelude.{Some};

    ghost written = { λ s. Some s.bytes };

    ghost faults = { λ s. s.faults };

    fn push(&mut self, piece: &[u8]) -> Pushed
        requires { 0 < length piece.now }
        ensures count { TakesCount result (length piece.now) }
        ensures adds { AddsBytes (Some self.old.bytes) (Some self.new.bytes) piece.now result }
        ensures failed { result ≡ Pushed.Failed → Rose self.old.faults self.new.faults }
        ensures no_fault { result ≢ Pushed.Failed → self.new.faults ≡ self.old.faults }
        ensures faults { self.old.faults ≤ self.new.faults }
        ensures full { (result ≡ Pushed.Failed) ↔ (self.old.room ≡ 0) }
        ensures exact { Pushes self.old self.new piece.now result }
    {
        let room = self.size - self.bytes.len();
        let count = piece.len().min(self.bite as usize).min(room);
        if count == 0 {
            self.failures = self.failures.saturating_add(1);
            return Pushed::Failed;
        }
        match self.bytes.extend_from_slice(&piece[..count]) {
            Ok(()) => Pushed::Took(count as u32),
            Err(_) => unreachable!(),
        }
    }
}
