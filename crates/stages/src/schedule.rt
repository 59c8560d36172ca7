//! Stages that step in any order: the lengths of the rows are those of the schedule, and the items
//! are the one right ones all the same.
ghost use Rattle.std.specs.Prelude.{◌≡◌, ℕ, ◌+◌, ◌<◌, ◌≤◌, ◌^◌, length, map, sum_by, take, replicate};
ghost use Rattle.std.specs.Prelude.{IfOk, OnOk, All, Some, slice_get};
ghost use Rattle.std.specs.Arc.{arc_value};
ghost use Rattle.ps_model.specs.AcceptedJob.{IsAccepted};
ghost use Rattle.ps_model.specs.Job.{IsFactors};
ghost use Rattle.parts.specs.JobRows.{IsRingOf, IsPermitted};
ghost use Rattle.stages.specs.Items.{IsItem};
ghost use Rattle.stages.specs.States.{prepared_of};
ghost use Rattle.stages.specs.Lines.{OfStage, AreStagesOf, HaveRoom, AllHave, AreKept};
ghost use Rattle.stages.specs.Schedules.{may_gain as may_gain_in, after_event, lengths_after};
ghost use Rattle.stages.specs.Schedules.{lengths_in};
ghost use Rattle.stages.specs.FactorLists.{factors_up_to};

use crate::item::StageItem;
use crate::line::{Line, LineView};
use crate::own_rows::empty_rows;
use crate::raising::raise_one;
use crate::stage::{Stage, StageView};
use parts::{Ring, RowSource};
use prepare::Tally;
use ps_model::{JobData, OutOfMemory};
use rows::{OwnRow, RowOut};
use std::alloc::Global;
use std::sync::Arc;

/// The stages of a job after a schedule.
#[derive(Drop)]
pub struct Core {
    line: Line<OwnRow<StageItem>>,
}

impl LineView for Core {
    ghost job = { λ core. arc_value core.line.job };

    ghost states = { λ core.
        map ⟦<Stage<OwnRow<StageItem>> as StageView>⟧.state core.line.stages.items };
}

/// The stages of a job after these events: at each event its stage gains its next item, where it is
/// the first stage, or the stage before it has more items than it has; else nothing changes.
///
/// Whatever the order of the events, the items are those of the job's factors, and the rows, put
/// together as far as all of them go, are the one list of factors.
pub fn run_schedule<I: RowSource>(
    alloc: Global,
    ring: Ring,
    job: Arc<JobData>,
    input: &mut I,
    events: &[u32],
) -> Result<Core, OutOfMemory>
    requires accepted { IsAccepted (arc_value job) }
    requires ring { IsRingOf ring (arc_value job) }
    requires source { I.job input.old ≡ arc_value job }
    requires events { All (λ s. s < length (arc_value job).roots) events.now }
    requires permitted { IsPermitted (take (arc_value job).n (arc_value job).weights)
        (length events.now) }
    ensures source { I.job input.new ≡ I.job input.old }
    ensures job { IfOk result (λ core. ⟦<Core as LineView>⟧.job core ≡ arc_value job) }
    ensures count { IfOk result
        (λ core. length (⟦<Core as LineView>⟧.states core) ≡ length (arc_value job).roots) }
    ensures lengths { IfOk result (λ core. lengths_in (⟦<Core as LineView>⟧.states core)
        ≡ lengths_after (replicate (length (arc_value job).roots) 0) events.now) }
    ensures factors { IfOk result (λ core. (D : ℕ) →
        AllHave (D + 1) (⟦<Core as LineView>⟧.states core) →
        IsFactors (arc_value job) D (factors_up_to (arc_value job) D (⟦<Core as LineView>⟧.states core))) }
{
    let rows = empty_rows(alloc, &job, events.len() as u32 + 1)?;
    let mut line = match Line::new(alloc, ring, job, rows) {
        Ok(line) => line,
        Err((refusal, _rows)) => return Err(refusal),
    };
    run_uncounted(&mut line.stages, events, input)?;
    Ok(Core { line })
}

impl Core {
    /// How many items stage `stage` has.
    pub fn len(&self, stage: u32) -> u32
        requires { stage < length (⟦<Self as LineView>⟧.states self.now) }
        ensures { OfStage (⟦<Self as LineView>⟧.states self.now) stage
            (λ s. result ≡ length s.items) }
    {
        self.line.len(stage)
    }

    /// The item of degree r of stage `stage`.
    pub fn item(&self, stage: u32, r: u32) -> &Arc<StageItem>
        requires stage { stage < length (⟦<Self as LineView>⟧.states self.now) }
        requires degree { OfStage (⟦<Self as LineView>⟧.states self.now) stage
            (λ s. r < length s.items) }
        ensures item { OfStage (⟦<Self as LineView>⟧.states self.now) stage
            (λ s. slice_get s.items r ≡ Some (arc_value result.now)) }
        ensures fits { IsItem (record { job = ⟦<Self as LineView>⟧.job self.now; stage = stage })
            r (arc_value result.now) }
    {
        self.line.item(stage, r)
    }
}

/// All events, in their order, where nobody asks for the steps.
fn run_uncounted<R: RowOut<StageItem>, I: RowSource>(
    stages: &mut [Stage<R>],
    events: &[u32],
    input: &mut I,
) -> Result<(), OutOfMemory>
    requires line { let state = ⟦<Stage<R> as StageView>⟧.state in
        AreStagesOf (I.job input.old) (map state stages.old) }
    requires empty { let state = ⟦<Stage<R> as StageView>⟧.state in
        lengths_in (map state stages.old) ≡ replicate (length stages.old) 0 }
    requires events { All (λ s. s < length stages.old) events.now }
    requires room { let state = ⟦<Stage<R> as StageView>⟧.state in
        HaveRoom (length events.now) (map state stages.old) }
    requires permitted { IsPermitted (take (I.job input.old).n (I.job input.old).weights)
        (length events.now) }
    ensures source { I.job input.new ≡ I.job input.old }
    ensures kept { let state = ⟦<Stage<R> as StageView>⟧.state in
        AreKept (map state stages.old) (map state stages.new) }
    ensures lengths { let state = ⟦<Stage<R> as StageView>⟧.state in
        OnOk result (lengths_in (map state stages.new)
        ≡ lengths_after (lengths_in (map state stages.old)) events.now) }
{
    let mut tally = Tally::new();
    let done = run_events(stages, events, input, &mut tally);
    tally.finish();
    done
}

/// All events, in their order, from empty rows on.
fn run_events<R: RowOut<StageItem>, I: RowSource>(
    stages: &mut [Stage<R>],
    events: &[u32],
    input: &mut I,
    tally: &mut Tally,
) -> Result<(), OutOfMemory>
    requires line { let state = ⟦<Stage<R> as StageView>⟧.state in
        AreStagesOf (I.job input.old) (map state stages.old) }
    requires empty { let state = ⟦<Stage<R> as StageView>⟧.state in
        lengths_in (map state stages.old) ≡ replicate (length stages.old) 0 }
    requires events { All (λ s. s < length stages.old) events.now }
    requires room { let state = ⟦<Stage<R> as StageView>⟧.state in
        HaveRoom (length events.now) (map state stages.old) }
    requires permitted { IsPermitted (take (I.job input.old).n (I.job input.old).weights)
        (length events.now) }
    requires tally { tally.old ≤ 2 ^ 61 }
    ensures source { I.job input.new ≡ I.job input.old }
    ensures kept { let state = ⟦<Stage<R> as StageView>⟧.state in
        AreKept (map state stages.old) (map state stages.new) }
    ensures lengths { let state = ⟦<Stage<R> as StageView>⟧.state in
        OnOk result (lengths_in (map state stages.new)
        ≡ lengths_after (lengths_in (map state stages.old)) events.now) }
{
    for event in events {
        run_event(stages, *event as usize, input, tally)?;
    }
    Ok(())
}

/// One event, of stage `s`.
fn run_event<R: RowOut<StageItem>, I: RowSource>(
    stages: &mut [Stage<R>],
    s: usize,
    input: &mut I,
    tally: &mut Tally,
) -> Result<(), OutOfMemory>
    requires line { let state = ⟦<Stage<R> as StageView>⟧.state in
        AreStagesOf (I.job input.old) (map state stages.old) }
    requires stage { s < length stages.old }
    requires room { let state = ⟦<Stage<R> as StageView>⟧.state in
        OfStage (map state stages.old) s (λ x. length x.items < x.capacity) }
    requires permitted { let state = ⟦<Stage<R> as StageView>⟧.state in
        OfStage (map state stages.old) s (λ x.
        IsPermitted (take (I.job input.old).n (I.job input.old).weights) (length x.items)) }
    requires tally { tally.old < 2 ^ 62 }
    ensures source { I.job input.new ≡ I.job input.old }
    ensures kept { let state = ⟦<Stage<R> as StageView>⟧.state in
        AreKept (map state stages.old) (map state stages.new) }
    ensures lengths { let state = ⟦<Stage<R> as StageView>⟧.state in
        OnOk result (lengths_in (map state stages.new)
        ≡ after_event (lengths_in (map state stages.old)) s) }
    ensures ticks { let state = ⟦<Stage<R> as StageView>⟧.state in
        tally.new + sum_by prepared_of (map state stages.old)
        ≡ tally.old + sum_by prepared_of (map state stages.new) }
{
    if !may_gain(stages, s) {
        return Ok(());
    }
    let r = stages[s].len();
    raise_one(stages, s, r, input, tally)
}

/// Whether stage `s` gains an item at its event.
fn may_gain<R: RowOut<StageItem>>(stages: &[Stage<R>], s: usize) -> bool
    requires { s < length stages.now }
    ensures { let state = ⟦<Stage<R> as StageView>⟧.state in
        result ≡ may_gain_in (lengths_in (map state stages.now)) s }
{
    s == 0 || stages[s - 1].len() > stages[s].len()
}
