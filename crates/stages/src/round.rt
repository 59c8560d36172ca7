//! A round: every stage that can puts its next item.
ghost use Rattle.std.specs.Prelude.{◌≡◌, ◌+◌, ◌<◌, ◌≤◌, ◌^◌, length, map, sum_by, take, true, false};
ghost use Rattle.std.specs.Prelude.{IfOk, OnOk};
ghost use Rattle.parts.specs.JobRows.{IsPermitted};
ghost use Rattle.stages.specs.States.{StageState, prepared_of};
ghost use Rattle.stages.specs.Lines.{AreStagesOf, HaveRoom, AllHave, AreFalling, AllGrow};
ghost use Rattle.stages.specs.Rounds.{SomeLacks, Planned, IsPlan, IsRound};

use crate::item::StageItem;
use crate::stage::{Stage, StageView};
use crate::upstream::Upstream;
use crate::workers::{Work, advance_parts};
use parts::RowSource;
use prepare::Tally;
use ps_model::OutOfMemory;
use rows::RowOut;
use std::alloc::Global;
use std::marker::Sync;
use std::sync::Arc;
use std::thread::Threads;

/// Whether a stage lacks an item of a degree up to `to`.
pub(crate) fn lacks_item<R: RowOut<StageItem>>(stages: &[Stage<R>], to: u32) -> bool
    ensures some { let state = ⟦<Stage<R> as StageView>⟧.state in
        result ≡ true → SomeLacks to (map state stages.now) }
    ensures none { let state = ⟦<Stage<R> as StageView>⟧.state in
        result ≡ false → AllHave (to + 1) (map state stages.now) }
{
    for s in 0..stages.len() {
        if stages[s].len() <= to {
            return true;
        }
    }
    false
}

/// One round up to a degree. Which stages put an item is decided by the lengths that the rows have as it
/// begins, so no stage waits for another one, and the items are made side by side.
pub(crate) fn raise_round<R: RowOut<StageItem>, I: RowSource>(
    rt: &(impl Threads + Sync),
    alloc: Global,
    stages: &mut [Stage<R>],
    input: &mut I,
    to: u32,
    workers: u32,
    tally: &mut Tally,
) -> Result<(), OutOfMemory>
    requires line { let state = ⟦<Stage<R> as StageView>⟧.state in
        AreStagesOf (I.job input.old) (map state stages.old) }
    requires room { let state = ⟦<Stage<R> as StageView>⟧.state in
        HaveRoom to (map state stages.old) }
    requires permitted { IsPermitted (take (I.job input.old).n (I.job input.old).weights) to }
    requires workers { 1 ≤ workers }
    requires tally { let state = ⟦<Stage<R> as StageView>⟧.state in
        tally.old ≤ 2 ^ 61 + sum_by prepared_of (map state stages.old) }
    ensures source { I.job input.new ≡ I.job input.old }
    ensures grow { let state = ⟦<Stage<R> as StageView>⟧.state in
        AllGrow (to + 1) (map state stages.old) (map state stages.new) }
    ensures falling { let state = ⟦<Stage<R> as StageView>⟧.state in
        AreFalling (map state stages.old) → AreFalling (map state stages.new) }
    ensures ok { let state = ⟦<Stage<R> as StageView>⟧.state in
        OnOk result (IsRound to (map state stages.old) (map state stages.new)) }
    ensures ticks { let state = ⟦<Stage<R> as StageView>⟧.state in
        tally.new + sum_by prepared_of (map state stages.old)
        ≡ tally.old + sum_by prepared_of (map state stages.new) }
{
    let plan = plan_round(alloc, stages, input, to)?;
    let Work { outcome, steps } = advance_parts(rt, workers, &plan, stages);
    tally.merge(steps);
    outcome
}

/// What each stage takes in a round that begins now.
fn plan_round<R: RowOut<StageItem>, I: RowSource>(
    alloc: Global,
    stages: &[Stage<R>],
    input: &mut I,
    to: u32,
) -> Result<Vec<Option<Upstream>>, OutOfMemory>
    requires line { let state = ⟦<Stage<R> as StageView>⟧.state in
        AreStagesOf (I.job input.old) (map state stages.now) }
    requires permitted { IsPermitted (take (I.job input.old).n (I.job input.old).weights) to }
    ensures source { I.job input.new ≡ I.job input.old }
    ensures plan { let state = ⟦<Stage<R> as StageView>⟧.state in IfOk result (λ plan.
        IsPlan to (I.job input.old) (map state stages.now) plan.items) }
{
    let mut plan = Vec::with_capacity(alloc, stages.len())?;
    for s in 0..stages.len() {
        let planned = upstream_at(stages, s, input, to)?;
        plan.push_reserved(planned);
    }
    Ok(plan)
}

/// What stage `s` takes in a round that begins now: None where it has its items up to the degree, or where
/// what its next one is made of isn't there yet.
fn upstream_at<R: RowOut<StageItem>, I: RowSource>(
    stages: &[Stage<R>],
    s: usize,
    input: &mut I,
    to: u32,
) -> Result<Option<Upstream>, OutOfMemory>
    requires line { let state = ⟦<Stage<R> as StageView>⟧.state in
        AreStagesOf (I.job input.old) (map state stages.now) }
    requires stage { s < length stages.now }
    requires permitted { IsPermitted (take (I.job input.old).n (I.job input.old).weights) to }
    ensures source { I.job input.new ≡ I.job input.old }
    ensures planned { let state = ⟦<Stage<R> as StageView>⟧.state in IfOk result (λ planned.
        (d : StageState) → Planned to (I.job input.old) (map state stages.now) s d planned) }
{
    let r = stages[s].len();
    if r > to {
        return Ok(None);
    }
    if s == 0 {
        let row = input.row(r)?;
        return Ok(Some(Upstream::Row(row)));
    }
    if stages[s - 1].len() <= r {
        return Ok(None);
    }
    let item = Arc::try_clone(stages[s - 1].item(r))?;
    Ok(Some(Upstream::Item(item)))
}
