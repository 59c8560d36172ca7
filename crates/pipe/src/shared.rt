//! A line of stages with shared rows, and a reader of each row for its workers.
ghost use Rattle.std.specs.Prelude.{◌≡◌, ℕ, ◌+◌, ◌<◌, ◌≤◌, ◌^◌, List, length, map, sum_by, take};
ghost use Rattle.std.specs.Prelude.{OnOk, OnErr, IsOk, Some, None, IfSome, slice_get, slice_index, ◌↔◌, ◌≢◌};
ghost use Rattle.std.specs.Arc.{arc_value};
ghost use Rattle.ps_model.specs.declared.job.JobData.{JobData};
ghost use Rattle.parts.specs.JobRows.{IsPermitted};
ghost use Rattle.rows.specs.Readers.{told_name, told_length};
ghost use Rattle.stages.specs.Items.{IsItem};
ghost use Rattle.stages.specs.Splitters.{IsPreparationOf};
ghost use Rattle.stages.specs.States.{StageState, prepared_of};
ghost use Rattle.stages.specs.Lines.{titles_of, titles-set, OfStage, AreStagesOf};
ghost use Rattle.stages.specs.Lines.{HaveRoom, AllHave, AreFalling, AreKept, AllReach, NoneExceeds};
ghost use Rattle.pipe.specs.Looks.{ReaderState, state_of};
ghost use Rattle.pipe.specs.SharedLines.{OfReader, AreReadersOf, AreOfRows-IsProp, AreWithin};

use parts::RowSource;
use prepare::{Prep, Tally};
use ps_model::OutOfMemory;
use rows::{RowReader, RowWriter, Told};
use stages::{Line, LineView, SharedRowsView, StageItem};
use std::marker::Sync;
use std::sync::{Arc, Wait};
use std::thread::Threads;

/// All stages of a job over shared rows, with a reader of each row.
///
/// It isn't `Drop`: end it by `close`, or take it apart by `into_parts`.
pub struct SharedLine {
    pub(crate) line: Line<RowWriter<StageItem>>,
    /// At each place the reader of the row of the stage there.
    pub(crate) inner: Vec<RowReader<StageItem>>,
    ghost stages: { let view = ⟦<Line<RowWriter<StageItem>> as LineView>⟧ in
        map (λ s. s.title) (view.states line) ≡ titles_of (view.job line) } by { titles-set _ _ },
    ghost readers: { AreReadersOf (⟦<Line<RowWriter<StageItem>> as LineView>⟧.states line)
        (map state_of inner.items) } by { AreOfRows-IsProp _ _ _ },
}

/// What contracts see of it: the job, the stages and what of their rows is published, and the inner
/// readers.
pub trait SharedLineView {
    ghost job: { Self → JobData };

    ghost states: { Self → List StageState };

    ghost published: { Self → List ℕ };

    ghost inner: { Self → List ReaderState };
}

impl SharedLineView for SharedLine {
    ghost job = { λ s. ⟦<Line<RowWriter<StageItem>> as LineView>⟧.job s.line };

    ghost states = { λ s. ⟦<Line<RowWriter<StageItem>> as LineView>⟧.states s.line };

    ghost published = { λ s. ⟦<Line<RowWriter<StageItem>> as SharedRowsView>⟧.published s.line };

    ghost inner = { λ s. map state_of s.inner.items };
}

impl SharedLine {
    /// Raises the line to a degree as `Line::raise` does. It publishes nothing and looks at nothing.
    ///
    /// What a line says of its rows it says of rows of any kind, so that no clause names the counts
    /// that were published; none is above its row's length.
    pub fn raise<I: RowSource>(
        &mut self,
        input: &mut I,
        to: u32,
        tally: &mut Tally,
    ) -> Result<(), OutOfMemory>
        requires room { HaveRoom to (⟦<Self as SharedLineView>⟧.states self.old) }
        requires permitted { let job = ⟦<Self as SharedLineView>⟧.job self.old in
            IsPermitted (take job.n job.weights) to }
        requires source { I.job input.old ≡ ⟦<Self as SharedLineView>⟧.job self.old }
        requires tally { tally.old ≤ 2 ^ 61 }
        ensures job { ⟦<Self as SharedLineView>⟧.job self.new ≡ ⟦<Self as SharedLineView>⟧.job self.old }
        ensures whole { let job = ⟦<Self as SharedLineView>⟧.job in
            let states = ⟦<Self as SharedLineView>⟧.states in
            AreStagesOf (job self.old) (states self.old)
            → AreStagesOf (job self.new) (states self.new) }
        ensures source { I.job input.new ≡ I.job input.old }
        ensures kept { let states = ⟦<Self as SharedLineView>⟧.states in
            AreKept (states self.old) (states self.new) }
        ensures falling { let states = ⟦<Self as SharedLineView>⟧.states in
            AreFalling (states self.old) → AreFalling (states self.new) }
        ensures ok { let states = ⟦<Self as SharedLineView>⟧.states in
            OnOk result (AllReach (to + 1) (states self.old) (states self.new)) }
        ensures err { let states = ⟦<Self as SharedLineView>⟧.states in
            OnErr result (NoneExceeds (to + 1) (states self.old) (states self.new)) }
        ensures ticks { let states = ⟦<Self as SharedLineView>⟧.states in
            tally.new + sum_by prepared_of (states self.old)
            ≡ tally.old + sum_by prepared_of (states self.new) }
        ensures there { let states = ⟦<Self as SharedLineView>⟧.states in
            AllHave (to + 1) (states self.old) → IsOk result
            × (states self.new ≡ states self.old) × (input.new ≡ input.old) × (tally.new ≡ tally.old) }
        ensures published { AreWithin (⟦<Self as SharedLineView>⟧.published self.new)
            (⟦<Self as SharedLineView>⟧.states self.new) }
        ensures inner { ⟦<Self as SharedLineView>⟧.inner self.new ≡ ⟦<Self as SharedLineView>⟧.inner self.old }
    {
        self.line.raise(input, to, tally)
    }

    /// Raises the line to a degree as `Line::raise_rounds` does. Of what is published the same holds as
    /// after `raise`.
    pub fn raise_rounds<I: RowSource>(
        &mut self,
        rt: &(impl Threads + Sync),
        input: &mut I,
        to: u32,
        workers: u32,
        tally: &mut Tally,
    ) -> Result<(), OutOfMemory>
        requires room { HaveRoom to (⟦<Self as SharedLineView>⟧.states self.old) }
        requires permitted { let job = ⟦<Self as SharedLineView>⟧.job self.old in
            IsPermitted (take job.n job.weights) to }
        requires source { I.job input.old ≡ ⟦<Self as SharedLineView>⟧.job self.old }
        requires some_workers { 1 ≤ workers }
        requires few_workers { workers ≤ 64 }
        requires tally { tally.old ≤ 2 ^ 61 }
        ensures job { ⟦<Self as SharedLineView>⟧.job self.new ≡ ⟦<Self as SharedLineView>⟧.job self.old }
        ensures whole { let job = ⟦<Self as SharedLineView>⟧.job in
            let states = ⟦<Self as SharedLineView>⟧.states in
            AreStagesOf (job self.old) (states self.old)
            → AreStagesOf (job self.new) (states self.new) }
        ensures source { I.job input.new ≡ I.job input.old }
        ensures kept { let states = ⟦<Self as SharedLineView>⟧.states in
            AreKept (states self.old) (states self.new) }
        ensures falling { let states = ⟦<Self as SharedLineView>⟧.states in
            AreFalling (states self.old) → AreFalling (states self.new) }
        ensures ok { let states = ⟦<Self as SharedLineView>⟧.states in
            OnOk result (AllReach (to + 1) (states self.old) (states self.new)) }
        ensures err { let states = ⟦<Self as SharedLineView>⟧.states in
            OnErr result (NoneExceeds (to + 1) (states self.old) (states self.new)) }
        ensures ticks { let states = ⟦<Self as SharedLineView>⟧.states in
            tally.new + sum_by prepared_of (states self.old)
            ≡ tally.old + sum_by prepared_of (states self.new) }
        ensures there { let states = ⟦<Self as SharedLineView>⟧.states in
            AllHave (to + 1) (states self.old) → IsOk result
            × (states self.new ≡ states self.old) × (input.new ≡ input.old) × (tally.new ≡ tally.old) }
        ensures published { AreWithin (⟦<Self as SharedLineView>⟧.published self.new)
            (⟦<Self as SharedLineView>⟧.states self.new) }
        ensures inner { ⟦<Self as SharedLineView>⟧.inner self.new ≡ ⟦<Self as SharedLineView>⟧.inner self.old }
    {
        self.line.raise_rounds(rt, input, to, workers, tally)
    }

    /// How many stages there are: one for each root.
    pub fn stages(&self) -> u32
        ensures count { result ≡ length (⟦<Self as SharedLineView>⟧.states self.now) }
        ensures job { AreStagesOf (⟦<Self as SharedLineView>⟧.job self.now)
            (⟦<Self as SharedLineView>⟧.states self.now)
            → result ≡ length (⟦<Self as SharedLineView>⟧.job self.now).roots }
        ensures whole { 0 < result → AreStagesOf (⟦<Self as SharedLineView>⟧.job self.now)
            (⟦<Self as SharedLineView>⟧.states self.now) }
    {
        self.line.stages()
    }

    /// How many items stage `stage` has.
    pub fn len(&self, stage: u32) -> u32
        requires { stage < length (⟦<Self as SharedLineView>⟧.states self.now) }
        ensures { OfStage (⟦<Self as SharedLineView>⟧.states self.now) stage
            (λ s. result ≡ length s.items) }
    {
        self.line.len(stage)
    }

    /// How many degrees the preparation of stage `stage` has: as many as its row has items, or one
    /// more.
    pub fn prepared(&self, stage: u32) -> u32
        requires { stage < length (⟦<Self as SharedLineView>⟧.states self.now) }
        ensures count { OfStage (⟦<Self as SharedLineView>⟧.states self.now) stage
            (λ s. result ≡ prepared_of s) }
        ensures behind { OfStage (⟦<Self as SharedLineView>⟧.states self.now) stage
            (λ s. length s.items ≤ result) }
        ensures ahead { OfStage (⟦<Self as SharedLineView>⟧.states self.now) stage
            (λ s. result ≤ length s.items + 1) }
    {
        self.line.prepared(stage)
    }

    /// The preparation of stage `stage`, once it is begun.
    pub fn preparation(&self, stage: u32) -> Option<&Prep>
        requires { stage < length (⟦<Self as SharedLineView>⟧.states self.now) }
        ensures none { OfStage (⟦<Self as SharedLineView>⟧.states self.now) stage
            (λ s. (result ≡ None) ↔ (prepared_of s ≡ 0)) }
        ensures some { OfStage (⟦<Self as SharedLineView>⟧.states self.now) stage
            (λ s. IfSome result (λ prep. s.preparation ≡ Some prep.now)) }
        ensures rows { OfStage (⟦<Self as SharedLineView>⟧.states self.now) stage
            (λ s. IfSome result (λ prep. IsPreparationOf
            (record { job = ⟦<Self as SharedLineView>⟧.job self.now; stage = stage }) s.ring prep.now)) }
    {
        self.line.preparation(stage)
    }

    /// The item of degree r of stage `stage`.
    pub fn item(&self, stage: u32, r: u32) -> &Arc<StageItem>
        requires stage { stage < length (⟦<Self as SharedLineView>⟧.states self.now) }
        requires degree { OfStage (⟦<Self as SharedLineView>⟧.states self.now) stage
            (λ s. r < length s.items) }
        ensures item { OfStage (⟦<Self as SharedLineView>⟧.states self.now) stage
            (λ s. slice_get s.items r ≡ Some (arc_value result.now)) }
        ensures fits { IsItem (record { job = ⟦<Self as SharedLineView>⟧.job self.now; stage = stage })
            r (arc_value result.now) }
    {
        self.line.item(stage, r)
    }

    /// How many items of the row of stage `stage` are published.
    pub fn published(&self, stage: u32) -> u32
        requires { stage < length (⟦<Self as SharedLineView>⟧.states self.now) }
        ensures count { result ≡ slice_index (⟦<Self as SharedLineView>⟧.published self.now) stage }
        ensures within { OfStage (⟦<Self as SharedLineView>⟧.states self.now) stage
            (λ s. result ≤ length s.items) }
    {
        self.line.published(stage)
    }

    /// That as many items of the row of stage `stage` are published as are now, for the readers of
    /// that row.
    pub fn told(&mut self, stage: u32) -> Told
        requires { stage < length (⟦<Self as SharedLineView>⟧.states self.old) }
        ensures job { ⟦<Self as SharedLineView>⟧.job self.new ≡ ⟦<Self as SharedLineView>⟧.job self.old }
        ensures states { ⟦<Self as SharedLineView>⟧.states self.new
            ≡ ⟦<Self as SharedLineView>⟧.states self.old }
        ensures published { ⟦<Self as SharedLineView>⟧.published self.new
            ≡ ⟦<Self as SharedLineView>⟧.published self.old }
        ensures inner { ⟦<Self as SharedLineView>⟧.inner self.new
            ≡ ⟦<Self as SharedLineView>⟧.inner self.old }
        ensures told { told_length result
            ≡ slice_index (⟦<Self as SharedLineView>⟧.published self.old) stage }
        ensures name { OfStage (⟦<Self as SharedLineView>⟧.states self.old) stage
            (λ s. told_name result ≡ s.name) }
        ensures reader { OfReader (⟦<Self as SharedLineView>⟧.inner self.old) stage
            (λ r. told_name result ≡ r.name) }
    {
        self.line.tell(stage)
    }

    /// How many items the inner reader of the row of stage `stage` has seen.
    pub fn inner_seen(&self, stage: u32) -> u32
        requires { stage < length (⟦<Self as SharedLineView>⟧.states self.now) }
        ensures { OfReader (⟦<Self as SharedLineView>⟧.inner self.now) stage
            (λ r. result ≡ r.seen) }
    {
        self.inner[stage as usize].seen()
    }

    /// The line and its inner readers.
    pub fn into_parts(self) -> (Line<RowWriter<StageItem>>, Vec<RowReader<StageItem>>)
        ensures job { ⟦<Line<RowWriter<StageItem>> as LineView>⟧.job result.0
            ≡ ⟦<Self as SharedLineView>⟧.job self }
        ensures states { ⟦<Line<RowWriter<StageItem>> as LineView>⟧.states result.0
            ≡ ⟦<Self as SharedLineView>⟧.states self }
        ensures published { ⟦<Line<RowWriter<StageItem>> as SharedRowsView>⟧.published result.0
            ≡ ⟦<Self as SharedLineView>⟧.published self }
        ensures inner { map state_of result.1.items ≡ ⟦<Self as SharedLineView>⟧.inner self }
        ensures whole { let view = ⟦<Line<RowWriter<StageItem>> as LineView>⟧ in
            AreStagesOf (view.job result.0) (view.states result.0) }
        ensures readers { AreReadersOf (⟦<Line<RowWriter<StageItem>> as LineView>⟧.states result.0)
            (map state_of result.1.items) }
    {
        let SharedLine { line, inner } = self;
        (line, inner)
    }

    /// Ends each row. It may wait for readers.
    pub fn close<W: Wait>(self, rt: &W) {
        let SharedLine { line, inner: _ } = self;
        line.close(rt);
    }
}
