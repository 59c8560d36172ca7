ghost use Rattle.std.specs.Prelude.{◌≡◌, ◌≢◌, ℕ, ◌<◌, ◌≤◌, ◌↔◌, All, Contains, IsTrue};
ghost use Rattle.std.specs.Prelude.{length, map, vec_len};
ghost use Rattle.std.specs.List.{concat};
ghost use Rattle.ports.specs.Bytes.{GivesCount, MovesBytes};
ghost use Rattle.ports.specs.Faults.{Rose, raised};
ghost use Rattle.ports.specs.Supply.{GivesPiece};

use crate::copying::{behind, copy_front};
use crate::source::{Pulled, Source};
use std::marker::Model;

/// A source of given pieces. A pull gives the first piece that is left, or as much of its beginning
/// as fits; the pulls whose numbers, from 1, stand in `failing` fail.
#[derive(Drop)]
pub struct MemorySource {
    pieces: Vec<Vec<u8>>,
    failing: Vec<u32>,
    piece: usize,
    place: usize,
    pulls: u64,
    failures: u64,
}

impl Model for MemorySource {
    ghost use Rattle.std.specs.Prelude.{map};
    ghost use Rattle.ports.specs.Supply.{IsPlace, Supply, pieces_from};

    ghost Value = { Supply };

    ghost view = { λ s. record {
      pieces = pieces_from s.piece s.place (map (λ p. p.items) s.pieces.items);
      failing = s.failing.items;
      pulls = s.pulls;
      faults = s.failures;
    } };

    ghost invariant = { λ s. IsPlace s.piece s.place (map (λ p. p.items) s.pieces.items) };
}

impl MemorySource {
    /// A source of these pieces. `failing` holds numbers of pulls.
    pub fn new(pieces: Vec<Vec<u8>>, failing: Vec<u32>) -> MemorySource
        requires { All (λ p. 0 < vec_len p) pieces.items }
        ensures pieces { result.pieces ≡ map (λ p. p.items) pieces.items }
        ensures failing { result.failing ≡ failing.items }
        ensures pulls { result.pulls ≡ 0 }
        ensures faults { result.faults ≡ 0 }
    {
        MemorySource {
            pieces,
            failing,
            piece: 0,
            place: 0,
            pulls: 0,
            failures: 0,
        }
    }
}

impl Source for MemorySource {
    ghost use Rattle.std.specs.Prelude.{Some};
    ghost use Rattle.std.specs.List.{concat};

    ghost left = { λ s. Some (concat s.pieces) };

    ghost faults = { λ s. s.faults };

    fn pull(&mut self, into: &mut [u8]) -> Pulled
        requires { 0 < length into.old }
        ensures count { GivesCount result (length into.new) }
        ensures moves { MovesBytes (Some (concat self.old.pieces))
            (Some (concat self.new.pieces)) into.new result }
        ensures failed { result ≡ Pulled.Failed → Rose self.old.faults self.new.faults }
        ensures no_fault { result ≢ Pulled.Failed → self.new.faults ≡ self.old.faults }
        ensures faults { self.old.faults ≤ self.new.faults }
        ensures fails { (result ≡ Pulled.Failed) ↔
            Contains self.old.failing (raised self.old.pulls) }
        ensures exact { GivesPiece self.old self.new (length into.new) result }
    {
        self.pulls = self.pulls.saturating_add(1);
        if is_among(self.pulls, self.failing.as_slice()) {
            self.failures = self.failures.saturating_add(1);
            return Pulled::Failed;
        }
        if self.piece == self.pieces.len() {
            return Pulled::End;
        }
        let bytes = self.pieces[self.piece].as_slice();
        let count = copy_front(behind(bytes, self.place), into);
        self.place += count as usize;
        if self.place == bytes.len() {
            self.piece += 1;
            self.place = 0;
        }
        Pulled::Bytes(count)
    }
}

// Whether the number stands among the numbers.
fn is_among(number: u64, numbers: &[u32]) -> bool
    ensures { IsTrue result ↔ Contains numbers.now number }
{
    numbers.iter().any(|one| u64::from(*one) == number)
}
