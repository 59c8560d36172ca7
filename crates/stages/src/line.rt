//! The stages of a job, in their order.
ghost use Rattle.std.specs.Prelude.{◌≡◌, ℕ, ◌+◌, ◌<◌, ◌≤◌, ◌^◌, [], length, map, sum_by, IfOk, IfErr};
ghost use Rattle.std.specs.Prelude.{OnOk, OnErr, IsOk, Some, None, IfSome, slice_get, ◌↔◌, List, take};
ghost use Rattle.std.specs.Arc.{arc_value};
ghost use Rattle.std.specs.Coded.{→_prop};
ghost use Rattle.ps_model.specs.declared.job.JobData.{JobData};
ghost use Rattle.ps_model.specs.AcceptedJob.{IsAccepted};
ghost use Rattle.ps_model.specs.Props.{IsAccepted-IsProp};
ghost use Rattle.parts.specs.JobRows.{IsRingOf, IsPermitted};
ghost use Rattle.stages.specs.Items.{IsItem};
ghost use Rattle.stages.specs.Splitters.{IsPreparationOf, AreSplitters};
ghost use Rattle.stages.specs.States.{StageState, prepared_of};
ghost use Rattle.stages.specs.Lines.{titles_of, titles-set, AreFresh, OfStage};
ghost use Rattle.stages.specs.Lines.{HaveRoom, AllHave, AreFalling, AreKept, AllReach, NoneExceeds};
ghost use Rattle.stages.specs.Lines.{AreStagesOf};

use crate::item::StageItem;
use crate::raising::{least_length, raise_all};
use crate::round::{lacks_item, raise_round};
use crate::splitter::Splitter;
use crate::stage::{Stage, StageView};
use crate::title::StageTitle;
use parts::{Ring, RowSource};
use prepare::{Prep, Tally};
use ps_model::{JobData, OutOfMemory};
use rows::RowOut;
use std::alloc::Global;
use std::marker::Sync;
use std::sync::Arc;
use std::thread::Threads;
use taylor::SharedBinomials;

/// All stages of a job, the first one first, or none while they are taken out. Each takes what the
/// one before it leaves.
#[derive(Drop)]
pub struct Line<R: RowOut<StageItem>> {
    pub(crate) alloc: Global,
    pub(crate) job: Arc<JobData>,
    pub(crate) stages: Vec<Stage<R>>,
    ghost accepted: { IsAccepted (arc_value job) } by { IsAccepted-IsProp _ },
    ghost of_job: { 0 < length stages.items → map (λ s. s.splitter.title) stages.items ≡ titles_of (arc_value job) } by { →_prop (titles-set _ _) },
}

/// What contracts see of a line.
pub trait LineView {
    ghost job: { Self → JobData };

    ghost states: { Self → List StageState };
}

impl<R: RowOut<StageItem>> LineView for Line<R> {
    ghost job = { λ line. arc_value line.job };

    ghost states = { λ line. map ⟦<Stage<R> as StageView>⟧.state line.stages.items };
}

impl<R: RowOut<StageItem>> Line<R> {
    /// The stages of a job over its rows, which are empty. On a refusal the rows come back as they
    /// were.
    pub fn new(
        alloc: Global,
        ring: Ring,
        job: Arc<JobData>,
        rows: Vec<R>,
    ) -> Result<Line<R>, (OutOfMemory, Vec<R>)>
        requires accepted { IsAccepted (arc_value job) }
        requires ring { IsRingOf ring (arc_value job) }
        requires count { length rows.items ≡ length (arc_value job).roots }
        requires empty { (s : ℕ) (row : R) → slice_get rows.items s ≡ Some row → R.items row ≡ [] }
        requires titles { (s : ℕ) (row : R) → slice_get rows.items s ≡ Some row →
            R.title row ≡ record { job = arc_value job; stage = s } }
        ensures job { IfOk result (λ line. ⟦<Self as LineView>⟧.job line ≡ arc_value job) }
        ensures states { IfOk result (λ line. AreFresh (arc_value job) ring
            (map R.capacity rows.items) (map R.name rows.items)
            (⟦<Self as LineView>⟧.states line)) }
        ensures whole { IfOk result (λ line.
            AreStagesOf (⟦<Self as LineView>⟧.job line) (⟦<Self as LineView>⟧.states line)) }
        ensures rows { IfErr result (λ e. e.1.items ≡ rows.items) }
    {
        let splitters = match make_splitters(alloc, ring, &job) {
            Ok(splitters) => splitters,
            Err(error) => return Err((error, rows)),
        };
        let Ok(mut stages) = Vec::with_capacity(alloc, rows.len()) else {
            return Err((OutOfMemory, rows));
        };
        let mut splitters = splitters.into_iter();
        let mut rows = rows.into_iter();
        while let Some(row) = rows.next() {
            let Some(splitter) = splitters.next() else {
                unreachable!();
            };
            stages.push_reserved(Stage::over(alloc, splitter, row));
        }
        rows.destroy_empty();
        Ok(Line { alloc, job, stages })
    }

    /// Raises the line to a degree: each row has its items up to there then, if it had not.
    ///
    /// On a refusal each row begins with what it was, and a later call goes on from there. Where all
    /// is there already nothing changes, the source stays as it was, and no memory is taken. Where
    /// no row was longer than the one before it, none is then.
    pub fn raise<I: RowSource>(
        &mut self,
        input: &mut I,
        to: u32,
        tally: &mut Tally,
    ) -> Result<(), OutOfMemory>
        requires room { HaveRoom to (⟦<Self as LineView>⟧.states self.old) }
        requires permitted { let job = ⟦<Self as LineView>⟧.job self.old in
            IsPermitted (take job.n job.weights) to }
        requires source { I.job input.old ≡ ⟦<Self as LineView>⟧.job self.old }
        requires tally { tally.old ≤ 2 ^ 61 }
        ensures job { ⟦<Self as LineView>⟧.job self.new ≡ ⟦<Self as LineView>⟧.job self.old }
        ensures whole { let job = ⟦<Self as LineView>⟧.job in
            let states = ⟦<Self as LineView>⟧.states in
            AreStagesOf (job self.old) (states self.old)
            → AreStagesOf (job self.new) (states self.new) }
        ensures source { I.job input.new ≡ I.job input.old }
        ensures kept { let states = ⟦<Self as LineView>⟧.states in
            AreKept (states self.old) (states self.new) }
        ensures falling { let states = ⟦<Self as LineView>⟧.states in
            AreFalling (states self.old) → AreFalling (states self.new) }
        ensures ok { let states = ⟦<Self as LineView>⟧.states in
            OnOk result (AllReach (to + 1) (states self.old) (states self.new)) }
        ensures err { let states = ⟦<Self as LineView>⟧.states in
            OnErr result (NoneExceeds (to + 1) (states self.old) (states self.new)) }
        ensures ticks { let states = ⟦<Self as LineView>⟧.states in
            tally.new + sum_by prepared_of (states self.old)
            ≡ tally.old + sum_by prepared_of (states self.new) }
        ensures there { let states = ⟦<Self as LineView>⟧.states in
            AllHave (to + 1) (states self.old) → IsOk result
            × (states self.new ≡ states self.old) × (input.new ≡ input.old) × (tally.new ≡ tally.old) }
    {
        for r in least_length(&self.stages)..to + 1 {
            raise_all(&mut self.stages, r, input, tally)?;
        }
        Ok(())
    }

    /// Raises the line to a degree as `raise` does, in rounds. In a round each stage that lacks an item,
    /// and for which what it is made of is there as the round begins, puts it: so the stages work side by
    /// side, each one degree behind the one before it at least.
    ///
    /// The stages of a round are split over at most `workers` threads, the caller's among them, which are
    /// joined, each with a count of steps of its own. Where a thread can't be had the caller does its work.
    pub fn raise_rounds<I: RowSource>(
        &mut self,
        rt: &(impl Threads + Sync),
        input: &mut I,
        to: u32,
        workers: u32,
        tally: &mut Tally,
    ) -> Result<(), OutOfMemory>
        requires room { HaveRoom to (⟦<Self as LineView>⟧.states self.old) }
        requires permitted { let job = ⟦<Self as LineView>⟧.job self.old in
            IsPermitted (take job.n job.weights) to }
        requires source { I.job input.old ≡ ⟦<Self as LineView>⟧.job self.old }
        requires some_workers { 1 ≤ workers }
        requires few_workers { workers ≤ 64 }
        requires tally { tally.old ≤ 2 ^ 61 }
        ensures job { ⟦<Self as LineView>⟧.job self.new ≡ ⟦<Self as LineView>⟧.job self.old }
        ensures whole { let job = ⟦<Self as LineView>⟧.job in
            let states = ⟦<Self as LineView>⟧.states in
            AreStagesOf (job self.old) (states self.old)
            → AreStagesOf (job self.new) (states self.new) }
        ensures source { I.job input.new ≡ I.job input.old }
        ensures kept { let states = ⟦<Self as LineView>⟧.states in
            AreKept (states self.old) (states self.new) }
        ensures falling { let states = ⟦<Self as LineView>⟧.states in
            AreFalling (states self.old) → AreFalling (states self.new) }
        ensures ok { let states = ⟦<Self as LineView>⟧.states in
            OnOk result (AllReach (to + 1) (states self.old) (states self.new)) }
        ensures err { let states = ⟦<Self as LineView>⟧.states in
            OnErr result (NoneExceeds (to + 1) (states self.old) (states self.new)) }
        ensures ticks { let states = ⟦<Self as LineView>⟧.states in
            tally.new + sum_by prepared_of (states self.old)
            ≡ tally.old + sum_by prepared_of (states self.new) }
        ensures there { let states = ⟦<Self as LineView>⟧.states in
            AllHave (to + 1) (states self.old) → IsOk result
            × (states self.new ≡ states self.old) × (input.new ≡ input.old) × (tally.new ≡ tally.old) }
    {
        while lacks_item(&self.stages, to) {
            raise_round(rt, self.alloc, &mut self.stages, input, to, workers, tally)?;
        }
        Ok(())
    }

    /// How many stages there are: one for each root, or none while they are taken out.
    pub fn stages(&self) -> u32
        ensures count { result ≡ length (⟦<Self as LineView>⟧.states self.now) }
        ensures job { AreStagesOf (⟦<Self as LineView>⟧.job self.now)
            (⟦<Self as LineView>⟧.states self.now)
            → result ≡ length (⟦<Self as LineView>⟧.job self.now).roots }
        ensures whole { 0 < result → AreStagesOf (⟦<Self as LineView>⟧.job self.now)
            (⟦<Self as LineView>⟧.states self.now) }
    {
        self.stages.len() as u32
    }

    /// How many items stage `stage` has.
    pub fn len(&self, stage: u32) -> u32
        requires { stage < length (⟦<Self as LineView>⟧.states self.now) }
        ensures { OfStage (⟦<Self as LineView>⟧.states self.now) stage
            (λ s. result ≡ length s.items) }
    {
        self.stages[stage as usize].len()
    }

    /// How many degrees the preparation of stage `stage` has: as many as its row has items, or one
    /// more.
    pub fn prepared(&self, stage: u32) -> u32
        requires { stage < length (⟦<Self as LineView>⟧.states self.now) }
        ensures count { OfStage (⟦<Self as LineView>⟧.states self.now) stage
            (λ s. result ≡ prepared_of s) }
        ensures behind { OfStage (⟦<Self as LineView>⟧.states self.now) stage
            (λ s. length s.items ≤ result) }
        ensures ahead { OfStage (⟦<Self as LineView>⟧.states self.now) stage
            (λ s. result ≤ length s.items + 1) }
    {
        self.stages[stage as usize].prepared()
    }

    /// The preparation of stage `stage`, once it is begun.
    pub fn preparation(&self, stage: u32) -> Option<&Prep>
        requires { stage < length (⟦<Self as LineView>⟧.states self.now) }
        ensures none { OfStage (⟦<Self as LineView>⟧.states self.now) stage
            (λ s. (result ≡ None) ↔ (prepared_of s ≡ 0)) }
        ensures some { OfStage (⟦<Self as LineView>⟧.states self.now) stage
            (λ s. IfSome result (λ prep. s.preparation ≡ Some prep.now)) }
        ensures rows { OfStage (⟦<Self as LineView>⟧.states self.now) stage
            (λ s. IfSome result (λ prep. IsPreparationOf
            (record { job = ⟦<Self as LineView>⟧.job self.now; stage = stage }) s.ring prep.now)) }
    {
        self.stages[stage as usize].preparation()
    }

    /// The item of degree r of stage `stage`.
    pub fn item(&self, stage: u32, r: u32) -> &Arc<StageItem>
        requires stage { stage < length (⟦<Self as LineView>⟧.states self.now) }
        requires degree { OfStage (⟦<Self as LineView>⟧.states self.now) stage
            (λ s. r < length s.items) }
        ensures item { OfStage (⟦<Self as LineView>⟧.states self.now) stage
            (λ s. slice_get s.items r ≡ Some (arc_value result.now)) }
        ensures fits { IsItem (record { job = ⟦<Self as LineView>⟧.job self.now; stage = stage })
            r (arc_value result.now) }
    {
        self.stages[stage as usize].item(r)
    }
}

/// A splitter for each stage of a job. They share one table, which is made here.
fn make_splitters(
    alloc: Global,
    ring: Ring,
    job: &Arc<JobData>,
) -> Result<Vec<Splitter>, OutOfMemory>
    requires accepted { IsAccepted (arc_value job.now) }
    requires ring { IsRingOf ring (arc_value job.now) }
    ensures { IfOk result (λ splitters. AreSplitters (arc_value job.now) ring splitters.items) }
{
    let tables = Arc::new(alloc, SharedBinomials::new(alloc))?;
    Splitter::make_table(ring, &tables)?;
    let count = job.roots.as_slice().len() as u32;
    let mut splitters = Vec::new(alloc);
    for stage in 0..count {
        let title = StageTitle {
            job: Arc::try_clone(job)?,
            stage,
        };
        let tables = Arc::try_clone(&tables)?;
        splitters.push(Splitter::new(alloc, ring, title, tables))?;
    }
    Ok(splitters)
}
