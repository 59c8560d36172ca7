ghost use Rattle.std.specs.Prelude.{◌≡◌, ◌≢◌, ◌⊎◌, ℕ, ◌+◌, ◌-◌, ◌<◌, ◌≤◌, ◌↔◌, [], IfOk, IfNone};
ghost use Rattle.std.specs.Prelude.{IfSome};
ghost use Rattle.std.specs.Prelude.{MatchOption, drop, length, slice_index, take, true, false};
ghost use Rattle.std.specs.Bool.{OnFalse, OnTrue};
ghost use Rattle.ports.specs.Bytes.{AllTaken, GivesCount, MovesBytes};
ghost use Rattle.ports.specs.Faults.{Rose};
ghost use Rattle.ports.specs.Reading.{EndsBefore, HasNoNewline, HoldsLine, KeepsLine};
ghost use Rattle.ports.specs.Reading.{NeedsLastByte, PullsMore, TakesLine};
ghost use Rattle.ports.specs.Reading.{rest_of, without_return};

use crate::copying::behind;
use crate::source::{Pulled, Source};
use memchr::memchr;
use ps_model::OutOfMemory;
use std::alloc::Global;
use std::marker::Model;

// No line reaches past this many bytes of the input.
const LIMIT: usize = 1_048_576;

// The buffer has one byte more, which shows that the input goes on.
const SIZE: usize = 1_048_577;

const NEWLINE: u8 = b'\n';

const RETURN: u8 = b'\r';

/// What a request for the next line answers.
#[derive(Clone, Copy, Debug, PartialEq, Eq)]
pub enum NextLine {
    /// The next line is there: see [`Lines::text`] and [`Lines::number`].
    Line,
    /// The next line needs byte 1,048,577 of the input.
    InputTooLong,
    /// The source has ended, and no byte is left.
    End,
    /// A pull failed. The bytes pulled are kept, and the next request goes on from there.
    Failed,
}

/// The lines of an input of at most 1,048,576 bytes. It keeps all bytes that it pulled.
#[derive(Drop)]
pub struct Lines {
    buffer: Vec<u8>,
    filled: usize,
    // No newline stands from `place` up to here.
    scanned: usize,
    place: usize,
    ended: bool,
    start: usize,
    stop: usize,
    count: u32,
}

impl Model for Lines {
    ghost use Rattle.std.specs.Prelude.{drop, take};
    ghost use Rattle.ports.specs.Buffer.{IsBuffer};
    ghost use Rattle.ports.specs.Reading.{Reading};

    ghost Value = { Reading };

    ghost view = { λ s. record {
      pulled = take s.filled s.buffer.items;
      place = s.place;
      ended = s.ended;
      text = drop s.start (take s.stop s.buffer.items);
      number = s.count;
    } };

    ghost invariant = { λ s.
        IsBuffer s.buffer.items s.filled s.scanned s.place s.ended s.start s.stop s.count };
}

impl Lines {
    /// Lines of an input that begins. Reserves 1,048,577 bytes.
    pub fn new(alloc: Global) -> Result<Lines, OutOfMemory>
        ensures pulled { IfOk result (λ s. s.pulled ≡ []) }
        ensures place { IfOk result (λ s. s.place ≡ 0) }
        ensures ended { IfOk result (λ s. s.ended ≡ false) }
        ensures text { IfOk result (λ s. s.text ≡ []) }
        ensures number { IfOk result (λ s. s.number ≡ 0) }
    {
        let buffer = Vec::from_elem(alloc, 0, SIZE)?;
        Ok(Lines {
            buffer,
            filled: 0,
            scanned: 0,
            place: 0,
            ended: false,
            start: 0,
            stop: 0,
            count: 0,
        })
    }

    /// Takes the next line. Pulls from the source only while no whole line is there and the source
    /// hasn't ended, and lends each pull the whole rest of the buffer. Takes no memory.
    pub fn next<S: Source>(&mut self, source: &mut S) -> NextLine
        // Bytes come from the source and stay.
        ensures bytes { PullsMore self.old self.new (S.left source.old) (S.left source.new) }
        ensures unmoved { HoldsLine self.old ⊎ (self.old.ended ≡ true) →
            (source.new ≡ source.old) × (self.new.pulled ≡ self.old.pulled) }
        ensures room { (length self.new.pulled ≤ 1048577) ×
            (self.new.place ≤ length self.new.pulled) }

        // What each answer says.
        ensures line { result ≡ NextLine.Line → TakesLine self.old self.new }
        ensures onward { result ≡ NextLine.Line → self.old.place < self.new.place }
        ensures too_long { result ≡ NextLine.InputTooLong → NeedsLastByte self.new }
        ensures full { length self.new.pulled ≡ 1048577 →
            (result ≡ NextLine.Line) ⊎ (result ≡ NextLine.InputTooLong) }
        ensures end { result ≡ NextLine.End → (self.new.ended ≡ true) × (rest_of self.new ≡ []) }
        ensures failed { result ≡ NextLine.Failed →
            Rose (S.faults source.old) (S.faults source.new) }
        ensures short { result ≡ NextLine.Failed → HasNoNewline (rest_of self.new) }
        ensures going { result ≡ NextLine.Failed → self.new.ended ≡ false }
        ensures keeps { (result ≡ NextLine.Line → ⊥) → KeepsLine self.old self.new }

        // The end and the faults of the source.
        ensures ended { self.new.ended ≡ true →
            (self.old.ended ≡ true) ⊎ AllTaken (S.left source.new) }
        ensures ended_stays { self.old.ended ≡ true → self.new.ended ≡ true }
        ensures no_fault { result ≢ NextLine.Failed →
            S.faults source.new ≡ S.faults source.old }
        ensures faults { S.faults source.old ≤ S.faults source.new }
    {
        loop {
            if let Some(newline) = self.find_newline() {
                self.set_line(newline, newline + 1);
                return NextLine::Line;
            }
            if self.has_ended() {
                return self.take_rest();
            }
            if self.is_full() {
                return NextLine::InputTooLong;
            }
            if !self.fill(source) {
                return NextLine::Failed;
            }
        }
    }

    /// The last line without its newline, and without one `\r` at its end. Empty before the first
    /// line; no answer but `Line` changes it.
    pub fn text(&self) -> &[u8]
        ensures { result.now ≡ self.now.text }
    {
        &self.buffer.as_slice()[self.start..self.stop]
    }

    /// The last line's number, from 1. 0 before the first line; no answer but `Line` changes it.
    pub fn number(&self) -> u32
        ensures { result ≡ self.now.number }
    {
        self.count
    }

    /// All bytes pulled so far.
    pub fn bytes(&self) -> &[u8]
        ensures { result.now ≡ self.now.pulled }
    {
        &self.buffer.as_slice()[..self.filled]
    }

    // Whether the source has ended.
    fn has_ended(&self) -> bool
        ensures { result ≡ self.now.ended }
    {
        self.ended
    }

    // Whether no more byte fits.
    fn is_full(&self) -> bool
        ensures full { result ≡ true → length self.now.pulled ≡ 1048577 }
        ensures room { result ≡ false → length self.now.pulled < 1048577 }
    {
        self.filled == SIZE
    }

    // The place of the first newline behind the last line and below the limit.
    fn find_newline(&mut self) -> Option<usize>
        ensures same { self.new ≡ self.old }
        ensures room { (length self.old.pulled ≤ 1048577) ×
            (self.old.place ≤ length self.old.pulled) }
        ensures place { MatchOption result
            (HasNoNewline (drop self.old.place (take 1048576 self.old.pulled)))
            (EndsBefore self.old) }
    {
        let end = self.filled.min(LIMIT);
        match newline_within(self.buffer.as_slice(), self.scanned, end) {
            Some(newline) => Some(newline),
            None => {
                self.scanned = end;
                None
            }
        }
    }

    // Sets the text of the next line, which ends before `end`, and the place behind it.
    fn set_line(&mut self, end: usize, next: usize)
        requires order { (self.old.place ≤ end) × (end ≤ next) × (self.old.place < next) }
        requires within { (next ≤ length self.old.pulled) × (next ≤ 1048576) }
        ensures pulled { self.new.pulled ≡ self.old.pulled }
        ensures ended { self.new.ended ≡ self.old.ended }
        ensures place { self.new.place ≡ next }
        ensures text { self.new.text ≡
            without_return (drop self.old.place (take end self.old.pulled)) }
        ensures number { self.new.number ≡ self.old.number + 1 }
    {
        self.stop = text_end(self.buffer.as_slice(), self.place, end);
        self.start = self.place;
        self.place = next;
        self.scanned = next;
        self.count += 1;
    }

    // Takes what is left as the last line, where something is left.
    fn take_rest(&mut self) -> NextLine
        requires ended { self.old.ended ≡ true }
        requires no_newline { HasNoNewline (drop self.old.place (take 1048576 self.old.pulled)) }
        ensures pulled { self.new.pulled ≡ self.old.pulled }
        ensures ended { self.new.ended ≡ true }
        ensures room { (length self.new.pulled ≤ 1048576) ×
            (self.new.place ≤ length self.new.pulled) }
        ensures line { result ≡ NextLine.Line → TakesLine self.old self.new }
        ensures onward { result ≡ NextLine.Line → self.old.place < self.new.place }
        ensures end { result ≡ NextLine.End →
            (rest_of self.new ≡ []) × KeepsLine self.old self.new }
        ensures either { (result ≡ NextLine.Line) ⊎ (result ≡ NextLine.End) }
    {
        let end = self.filled;
        if self.place == end {
            return NextLine::End;
        }
        self.set_line(end, end);
        NextLine::Line
    }

    // One pull into the rest of the buffer. False where it failed.
    fn fill<S: Source>(&mut self, source: &mut S) -> bool
        requires going { self.old.ended ≡ false }
        requires free { length self.old.pulled < 1048577 }
        ensures bytes { PullsMore self.old self.new (S.left source.old) (S.left source.new) }
        ensures room { length self.new.pulled ≤ 1048577 }
        ensures keeps { KeepsLine self.old self.new }
        ensures ended { self.new.ended ≡ true → AllTaken (S.left source.new) }
        ensures more { OnTrue result
            (length self.old.pulled < length self.new.pulled ⊎ (self.new.ended ≡ true)) }
        ensures stays { OnFalse result (self.new.pulled ≡ self.old.pulled) }
        ensures going { OnFalse result (self.new.ended ≡ false) }
        ensures failed { OnFalse result (Rose (S.faults source.old) (S.faults source.new)) }
        ensures no_fault { OnTrue result (S.faults source.new ≡ S.faults source.old) }
        ensures faults { S.faults source.old ≤ S.faults source.new }
    {
        match pull_behind(source, self.buffer.as_mut_slice(), self.filled) {
            Pulled::Bytes(count) => self.filled += count as usize,
            Pulled::End => self.ended = true,
            Pulled::Failed => return false,
        }
        true
    }
}

// The first newline from `from` up to `to`.
fn newline_within(bytes: &[u8], from: usize, to: usize) -> Option<usize>
    requires range { (from ≤ to) × (to ≤ length bytes.now) }
    ensures none { IfNone result (HasNoNewline (drop from (take to bytes.now))) }
    ensures within { IfSome result (λ k. (from ≤ k) × (k < to)) }
    ensures newline { IfSome result (λ k. slice_index bytes.now k ≡ 10) }
    ensures first { IfSome result (λ k. HasNoNewline (drop from (take k bytes.now))) }
{
    match memchr(NEWLINE, behind(&bytes[..to], from)) {
        Some(distance) => Some(from + distance),
        None => None,
    }
}

// Where the text of the line from `start` up to `end` ends: before a `\r` at its end.
fn text_end(bytes: &[u8], start: usize, end: usize) -> usize
    requires range { (start ≤ end) × (end ≤ length bytes.now) }
    ensures within { (start ≤ result) × (result ≤ end) }
    ensures text { drop start (take result bytes.now) ≡
        without_return (drop start (take end bytes.now)) }
{
    if start < end && bytes[end - 1] == RETURN {
        end - 1
    } else {
        end
    }
}

// One pull into the bytes from `place` on.
fn pull_behind<S: Source>(source: &mut S, bytes: &mut [u8], place: usize) -> Pulled
    requires { place < length bytes.old }
    ensures kept { take place bytes.new ≡ take place bytes.old }
    ensures count { GivesCount result (length bytes.old - place) }
    ensures moves { MovesBytes (S.left source.old) (S.left source.new)
        (drop place bytes.new) result }
    ensures failed { result ≡ Pulled.Failed → Rose (S.faults source.old) (S.faults source.new) }
    ensures no_fault { result ≢ Pulled.Failed → S.faults source.new ≡ S.faults source.old }
    ensures faults { S.faults source.old ≤ S.faults source.new }
{
    source.pull(&mut bytes[place..])
}
