ghost use Rattle.std.specs.Prelude.{◌≡◌, ◌≢◌, ◌<◌, length};
ghost use Rattle.ports.specs.Bytes.{AddsBytes, GivesCount, GivesFront, MovesBytes};
ghost use Rattle.ports.specs.Bytes.{TakesCount, TakesFront};

use crate::copying::copy_front;
use crate::sink::{Pushed, Sink};
use crate::source::{Pulled, Source};
use std::marker::Model;

/// A source over bytes in memory, which never fails. A contract sees the bytes that are left.
#[derive(Drop)]
pub struct CalmSource {
    bytes: Vec<u8>,
    place: usize,
}

impl Model for CalmSource {
    ghost use Rattle.std.specs.Prelude.{ℕ, ◌≤◌, List, drop, vec_len};

    ghost Value = { List ℕ };

    ghost view = { λ s. drop s.place s.bytes.items };

    ghost invariant = { λ s. s.place ≤ vec_len s.bytes };
}

impl CalmSource {
    /// A source of these bytes.
    pub fn new(bytes: Vec<u8>) -> CalmSource
        ensures { result ≡ bytes.items }
    {
        CalmSource { bytes, place: 0 }
    }
}

impl Source for CalmSource {
    ghost use Rattle.std.specs.Prelude.{Some};

    ghost left = { λ s. Some s };

    ghost faults = { λ _. 0 };

    fn pull(&mut self, into: &mut [u8]) -> Pulled
        requires { 0 < length into.old }
        ensures count { GivesCount result (length into.new) }
        ensures moves { MovesBytes (Some self.old) (Some self.new) into.new result }
        ensures never_failed { result ≢ Pulled.Failed }
        ensures most { GivesFront self.old (length into.new) result }
    {
        let count = copy_front(&self.bytes.as_slice()[self.place..], into);
        if count == 0 {
            return Pulled::End;
        }
        self.place += count as usize;
        Pulled::Bytes(count)
    }
}

/// A sink that takes each piece whole, or its first 4,294,967,295 bytes, and keeps none.
#[derive(Clone, Copy, Debug)]
pub struct CalmSink;

impl CalmSink {
    /// A sink.
    pub fn new() -> CalmSink {
        CalmSink
    }
}

impl Sink for CalmSink {
    ghost use Rattle.std.specs.Prelude.{None};

    ghost written = { λ _. None };

    ghost faults = { λ _. 0 };

    fn push(&mut self, piece: &[u8]) -> Pushed
        requires { 0 < length piece.now }
        ensures count { TakesCount result (length piece.now) }
        ensures adds { AddsBytes None None piece.now result }
        ensures never_failed { result ≢ Pushed.Failed }
        ensures most { TakesFront piece.now result }
    {
        Pushed::Took(piece.len().min(u32::MAX as usize) as u32)
    }
}
