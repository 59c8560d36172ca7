//! Sessions over shared rows: readers may look at a row while its stage is raised.
ghost use Rattle.std.specs.Prelude.{◌≡◌, ℕ, ◌+◌, ◌<◌, ◌≤◌, ◌^◌, ◌↔◌, IsTrue, List, [], length, map, replicate};
ghost use Rattle.std.specs.Prelude.{slice_index, Option, Some, None, IfOk, IfErr, IfSome, OnOk, All};
ghost use Rattle.std.specs.Prelude.{vec_capacity};
ghost use Rattle.ps_model.specs.AcceptedJob.{IsAccepted};
ghost use Rattle.ps_model.specs.Job.{job_ring};
ghost use Rattle.ps_model.specs.Lead.{IsLeadShown};
ghost use Rattle.parts.specs.JobRows.{IsPermitted, IsRingOf};
ghost use Rattle.parts.specs.RowsOfParts.{parts_of};
ghost use Rattle.rows.specs.Readers.{told_name, told_length};
ghost use Rattle.stages.specs.Lines.{OfStage};
ghost use Rattle.stages.specs.Schedules.{lengths_in};
ghost use Rattle.pipe.specs.Extends.{AreSeen};
ghost use Rattle.pipe.specs.Looks.{ReaderState, state_of, KeepsReader};
ghost use Rattle.pipe.specs.Pairs.{Pairwise};
ghost use Rattle.pipe.specs.SharedLines.{OfReader, IsNewReader};
ghost use Rattle.session.specs.Extended.{CountsFaults};
ghost use Rattle.session.specs.Calls.{IsFreshShared, KeepsSession, IsRaised, IsWithin, prepared_degrees};
ghost use Rattle.session.specs.Leads.{AreLeadParts};
ghost use Rattle.session.specs.Seen.{IsLevel};
ghost use Rattle.session.specs.SeenBy.{seen_by};
ghost use Rattle.session.specs.Precisions.{weights_in, IsGreatestPermitted};
ghost use Rattle.session.specs.Shared.{place_of, reader_at, IsReaderOf, HasReaders, IsTaken, AreUnseen};
ghost use Rattle.session.specs.Shared.{KeepsPlace};
ghost use Rattle.session.specs.Streams.{StreamsJob};
ghost use Rattle.expr_reader.specs.NameLists.{as_names};

use crate::beside::stream_beside;
use crate::lead::extend_lead;
use crate::names::copy_names;
use crate::precision::greatest_permitted;
use crate::seen_rows::SeenRows;
use crate::sessions::{Session, SessionView};
use crate::stream_fault::StreamFault;
use intake::Job;
use parts::{Part, Ring};
use pipe::{Gate, SharedLine, extend_line};
use ports::Sink;
use prepare::Tally;
use ps_model::OutOfMemory;
use rows::{RowReader, RowWriter, Told};
use stages::{Line, SharedRowsView, StageItem};
use std::alloc::Global;
use std::marker::Sync;
use std::sync::atomic::AtomicBool;
use std::sync::{Arc, Wait};
use std::thread::Threads;

/// What contracts see of a session over shared rows, beside its state: how many items of each row are
/// published, the readers of the workers, and at each place the reader for the caller, until it is
/// taken.
pub trait SharedSessionView {
    ghost published: { Self → List ℕ };

    ghost inner: { Self → List ReaderState };

    ghost outer: { Self → List (Option ReaderState) };
}

impl SharedSessionView for Session<RowWriter<StageItem>> {
    ghost published = { λ s. ⟦<Line<RowWriter<StageItem>> as SharedRowsView>⟧.published s.line };

    ghost inner = { λ s. map state_of s.inner.items };

    ghost outer = { λ s. map place_of s.outer.items };
}

impl Session<RowWriter<StageItem>> {
    /// A session of the job over shared rows, in which nothing is known or published yet, with a
    /// reader of each row. It takes the memory of its rows, which have room up to the greatest
    /// precision that may be asked for. It may wait.
    ///
    /// It isn't `Drop`: end it by `close`.
    pub fn open_shared<W: Wait>(
        rt: &W,
        alloc: Global,
        job: Job,
    ) -> Result<Session<RowWriter<StageItem>>, OutOfMemory>
        requires accepted { IsAccepted job.job }
        requires names { length job.names ≡ job.job.n }
        ensures fresh { IfOk result (λ s. (d : ℕ) → IsGreatestPermitted (weights_in job.job) d →
            IsFreshShared (d + 1) job (⟦<Session<RowWriter<StageItem>> as SessionView>⟧.state s)) }
        ensures published { IfOk result (λ s.
            ⟦<Session<RowWriter<StageItem>> as SharedSessionView>⟧.published s
            ≡ replicate (length job.job.roots) 0) }
        ensures inner { IfOk result (λ s. All IsNewReader
            (⟦<Session<RowWriter<StageItem>> as SharedSessionView>⟧.inner s)) }
        ensures readers { IfOk result (λ s. HasReaders (length job.job.roots)
            (⟦<Session<RowWriter<StageItem>> as SharedSessionView>⟧.outer s)) }
        ensures unseen { IfOk result (λ s. AreUnseen
            (⟦<Session<RowWriter<StageItem>> as SharedSessionView>⟧.outer s)) }
    {
        let ring = job.ring();
        let shows_lead = job.has_lead();
        // that there are as many names tells the proof that they are names
        let _names = job.names().len();
        let capacity = greatest_permitted(ring) + 1;
        let lead = Vec::with_capacity(alloc, capacity as usize)?;
        let data = Arc::try_clone(job.data())?;
        let mut outer = Vec::with_capacity(alloc, data.roots.len())?;
        let (line, readers) = SharedLine::new(rt, alloc, ring, data, capacity)?;
        // a line over shared rows is to be closed: behind it nothing is refused
        let (line, inner) = line.into_parts();
        fill_places(&mut outer, readers);
        Ok(Session {
            alloc,
            job,
            ring,
            shows_lead,
            line,
            lead,
            inner,
            outer,
        })
    }

    /// Raises each row and the lead to a degree as `raise` does, the rows by free-running workers, at
    /// most `workers` of them. Each row is published as it grows. It may wait.
    pub fn raise_pipe<T: Threads + Wait + Sync, G: Gate>(
        &mut self,
        rt: &T,
        to: u32,
        workers: u32,
        gate: &G,
        tally: &mut Tally,
    ) -> Result<(), OutOfMemory>
        requires permitted { IsPermitted (weights_in (⟦<Self as SessionView>⟧.state self.old).job.job) to }
        requires some_workers { 1 ≤ workers }
        requires few_workers { workers ≤ 64 }
        requires tally { tally.old ≤ 2 ^ 61 }
        ensures kept { let state = ⟦<Self as SessionView>⟧.state in
            KeepsSession (state self.old) (state self.new) }
        ensures ok { let state = ⟦<Self as SessionView>⟧.state in
            OnOk result (IsRaised (to + 1) (state self.old) (state self.new)) }
        ensures within { let state = ⟦<Self as SessionView>⟧.state in
            IsWithin (to + 1) (state self.old) (state self.new) }
        ensures ticks { let state = ⟦<Self as SessionView>⟧.state in
            tally.new + prepared_degrees (state self.old)
            ≡ tally.old + prepared_degrees (state self.new) }
        ensures published { OnOk result (⟦<Self as SharedSessionView>⟧.published self.new
            ≡ lengths_in (⟦<Self as SessionView>⟧.state self.new).stages) }
        ensures seen { let state = ⟦<Self as SessionView>⟧.state in
            OnOk result (AreSeen (to + 1) (state self.old).stages (state self.new).stages
            (⟦<Self as SharedSessionView>⟧.inner self.new)) }
        ensures inner { let inner = ⟦<Self as SharedSessionView>⟧.inner in
            Pairwise KeepsReader (inner self.old) (inner self.new) }
        ensures outer { let outer = ⟦<Self as SharedSessionView>⟧.outer in
            outer self.new ≡ outer self.old }
    {
        let rows = self.job.input();
        extend_lead(rows, &mut self.lead, to)?;
        let stop = AtomicBool::new(false);
        extend_line(
            rt,
            &mut self.line,
            self.inner.as_mut_slice(),
            rows,
            to,
            workers,
            gate,
            &stop,
            tally,
        )?;
        Ok(())
    }

    /// Raises as `raise_pipe` does, while the caller's thread writes the stream up to degree `to` from
    /// the readers of the session. It may wait. Where no thread can be started the session is raised
    /// first, and the stream is written then.
    ///
    /// On a fault a beginning of the text is written, and each row begins with what it was; a later
    /// raise goes on from there.
    pub fn stream_pipe<T: Threads + Wait + Sync, G: Gate, K: Sink>(
        &mut self,
        rt: &T,
        to: u32,
        workers: u32,
        gate: &G,
        sink: &mut K,
        tally: &mut Tally,
    ) -> Result<(), StreamFault>
        requires permitted { IsPermitted (weights_in (⟦<Self as SessionView>⟧.state self.old).job.job) to }
        requires some_workers { 1 ≤ workers }
        requires few_workers { workers ≤ 64 }
        requires tally { tally.old ≤ 2 ^ 61 }
        requires readers { HasReaders (length (⟦<Self as SessionView>⟧.state self.old).job.job.roots)
            (⟦<Self as SharedSessionView>⟧.outer self.old) }
        ensures kept { let state = ⟦<Self as SessionView>⟧.state in
            KeepsSession (state self.old) (state self.new) }
        ensures ok { let state = ⟦<Self as SessionView>⟧.state in
            OnOk result (IsRaised (to + 1) (state self.old) (state self.new)) }
        ensures within { let state = ⟦<Self as SessionView>⟧.state in
            IsWithin (to + 1) (state self.old) (state self.new) }
        ensures ticks { let state = ⟦<Self as SessionView>⟧.state in
            tally.new + prepared_degrees (state self.old)
            ≡ tally.old + prepared_degrees (state self.new) }
        ensures published { OnOk result (⟦<Self as SharedSessionView>⟧.published self.new
            ≡ lengths_in (⟦<Self as SessionView>⟧.state self.new).stages) }
        ensures seen { let state = ⟦<Self as SessionView>⟧.state in
            OnOk result (AreSeen (to + 1) (state self.old).stages (state self.new).stages
            (⟦<Self as SharedSessionView>⟧.inner self.new)) }
        ensures inner { let inner = ⟦<Self as SharedSessionView>⟧.inner in
            Pairwise KeepsReader (inner self.old) (inner self.new) }
        ensures outer { let outer = ⟦<Self as SharedSessionView>⟧.outer in
            Pairwise KeepsPlace (outer self.old) (outer self.new) }
        ensures text { let job = (⟦<Self as SessionView>⟧.state self.old).job in
            StreamsJob (as_names job.names) job.job to result (K.written sink.old) (K.written sink.new) }
        ensures faults { CountsFaults result (K.faults sink.old) (K.faults sink.new) }
    {
        let rows = self.job.input();
        extend_lead(rows, &mut self.lead, to)?;
        let mut seen = rows_to_see(
            self.alloc,
            &self.job,
            self.ring,
            self.shows_lead,
            &self.lead,
        )?;
        let rows = self.job.input();
        stream_beside(
            rt,
            &mut self.line,
            self.inner.as_mut_slice(),
            self.outer.as_mut_slice(),
            &mut seen,
            rows,
            to,
            workers,
            gate,
            sink,
            tally,
        )
    }

    /// The reader of the row of root `i`, counted from 0; None exactly where it was taken before.
    pub fn take_reader(&mut self, i: u32) -> Option<RowReader<StageItem>>
        requires { i < length (⟦<Self as SessionView>⟧.state self.old).job.job.roots }
        ensures none { (result ≡ None)
            ↔ (reader_at (⟦<Self as SharedSessionView>⟧.outer self.old) i ≡ None) }
        ensures some { IfSome result (λ reader.
            reader_at (⟦<Self as SharedSessionView>⟧.outer self.old) i ≡ Some (state_of reader)) }
        ensures row { IfSome result (λ reader. OfStage (⟦<Self as SessionView>⟧.state self.old).stages i
            (λ s. IsReaderOf s (state_of reader))) }
        ensures outer { let outer = ⟦<Self as SharedSessionView>⟧.outer in
            IsTaken i (outer self.old) (outer self.new) }
        ensures state { ⟦<Self as SessionView>⟧.state self.new ≡ ⟦<Self as SessionView>⟧.state self.old }
        ensures published { let published = ⟦<Self as SharedSessionView>⟧.published in
            published self.new ≡ published self.old }
        ensures inner { let inner = ⟦<Self as SharedSessionView>⟧.inner in
            inner self.new ≡ inner self.old }
    {
        self.outer[i as usize].take()
    }

    /// Whether no reader was taken.
    pub fn has_readers(&self) -> bool
        ensures { IsTrue result ↔ HasReaders (length (⟦<Self as SessionView>⟧.state self.now).job.job.roots)
            (⟦<Self as SharedSessionView>⟧.outer self.now) }
    {
        for i in 0..self.outer.len() {
            if self.outer[i].is_none() {
                return false;
            }
        }
        true
    }

    /// That as many items of the row of root `i`, counted from 0, are published as are now; None exactly
    /// where none is. It takes no memory.
    pub fn told(&mut self, i: u32) -> Option<Told>
        requires { i < length (⟦<Self as SessionView>⟧.state self.old).job.job.roots }
        ensures none { (result ≡ None)
            ↔ (slice_index (⟦<Self as SharedSessionView>⟧.published self.old) i ≡ 0) }
        ensures told { IfSome result (λ told.
            told_length told ≡ slice_index (⟦<Self as SharedSessionView>⟧.published self.old) i) }
        ensures name { IfSome result (λ told. OfStage (⟦<Self as SessionView>⟧.state self.old).stages i
            (λ s. told_name told ≡ s.name)) }
        ensures state { ⟦<Self as SessionView>⟧.state self.new ≡ ⟦<Self as SessionView>⟧.state self.old }
        ensures published { let published = ⟦<Self as SharedSessionView>⟧.published in
            published self.new ≡ published self.old }
        ensures inner { let inner = ⟦<Self as SharedSessionView>⟧.inner in
            inner self.new ≡ inner self.old }
        ensures outer { let outer = ⟦<Self as SharedSessionView>⟧.outer in
            outer self.new ≡ outer self.old }
    {
        if self.line.published(i) == 0 {
            return None;
        }
        Some(self.line.tell(i))
    }

    /// How many items of the row of root `i`, counted from 0, the workers' reader has seen.
    pub fn inner_seen(&self, i: u32) -> u32
        requires { i < length (⟦<Self as SessionView>⟧.state self.now).job.job.roots }
        ensures { OfReader (⟦<Self as SharedSessionView>⟧.inner self.now) i (λ reader. result ≡ reader.seen) }
    {
        self.inner[i as usize].seen()
    }

    /// Ends each row. It may wait for readers, and takes no memory.
    pub fn close<W: Wait>(self, rt: &W) {
        let Session {
            alloc: _,
            job: _,
            ring: _,
            shows_lead: _,
            line,
            lead: _,
            inner: _,
            outer: _,
        } = self;
        line.close(rt);
    }
}

/// Puts each reader at a place of its own, in order, in the memory that is reserved.
fn fill_places(places: &mut Vec<Option<RowReader<StageItem>>>, readers: Vec<RowReader<StageItem>>)
    requires none { places.old.items ≡ [] }
    requires room { length readers.items ≤ vec_capacity places.old }
    ensures { places.new.items ≡ map (λ r. Some r) readers.items }
{
    let mut readers = readers.into_iter();
    while let Some(reader) = readers.next() {
        places.push_reserved(Some(reader));
    }
}

/// Rows of a job of which nothing was seen, with the job's lead. They have the names in memory of their
/// own, since the job is lent to the raise meanwhile.
fn rows_to_see<'a>(
    alloc: Global,
    job: &Job,
    ring: Ring,
    shows_lead: bool,
    lead: &'a Vec<Arc<Part>>,
) -> Result<SeenRows<'a>, OutOfMemory>
    requires accepted { IsAccepted job.now.job }
    requires names { job.now.job.n ≤ length (as_names job.now.names) }
    requires ring { IsRingOf ring job.now.job }
    requires shown { IsTrue shows_lead ↔ IsLeadShown (job_ring job.now.job) job.now.job.expr }
    requires lead { AreLeadParts job.now.job (parts_of lead.now.items) }
    requires few { length (parts_of lead.now.items) ≤ 4096 }
    ensures job { IfOk result (λ s. (seen_by s).job ≡ job.now) }
    ensures lead { IfOk result (λ s. (seen_by s).lead ≡ parts_of lead.now.items) }
    ensures level { IfOk result (λ s. IsLevel 0 (seen_by s)) }
{
    let names = copy_names(alloc, job.names())?;
    let data = Arc::try_clone(job.data())?;
    SeenRows::new(alloc, names, data, ring, shows_lead, lead)
}
