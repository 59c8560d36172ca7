//! How the stages of a line are extended.
ghost use Rattle.std.specs.Prelude.{◌≡◌, ℕ, ◌+◌, ◌<◌, ◌≤◌, ◌^◌, length, map, take, sum_by, OnOk, OnErr, All};
ghost use Rattle.parts.specs.JobRows.{IsPermitted};
ghost use Rattle.stages.specs.States.{prepared_of};
ghost use Rattle.stages.specs.Schedules.{lengths_in};
ghost use Rattle.stages.specs.Lines.{AreStagesOf, HaveRoom, AreKept, AreFalling, AllReach, NoneExceeds};
ghost use Rattle.pipe.specs.Looks.{state_of, title_of_reader, KeepsReader};
ghost use Rattle.pipe.specs.Works.{work_of, IsShown};
ghost use Rattle.pipe.specs.Pairs.{Pairwise};
ghost use Rattle.pipe.specs.Runs.{Runs};
ghost use Rattle.pipe.specs.Extends.{CanExtend, IsExtended, SameStage, AreSeen};
ghost use Rattle.pipe.specs.SharedLines.{AreWithin};

use crate::blocks_of::ends_of;
use crate::gate::Gate;
use crate::pipeline::run_all;
use crate::shared::{SharedLine, SharedLineView};
use crate::view::Work;
use parts::RowSource;
use prepare::Tally;
use ps_model::OutOfMemory;
use rows::{RowReader, RowWriter};
use stages::{Line, LineView, SharedRowsView, SharedStageView, StageItem, StageView};
use std::alloc::Global;
use std::sync::Wait;
use std::sync::atomic::{AtomicBool, Ordering};
use std::thread::Threads;

/// Publishes what stands unpublished.
pub(crate) fn publish_all<R: Wait>(rt: &R, stages: &mut [Work]) -> Result<(), OutOfMemory>
    ensures same { Pairwise SameStage (map work_of stages.old) (map work_of stages.new) }
    ensures shown { OnOk result (All IsShown (map work_of stages.new)) }
{
    for i in 0..stages.len() {
        if stages[i].published() != stages[i].len() {
            let _told = stages[i].publish(rt)?;
        }
    }
    Ok(())
}

/// Raises stages all of whose items are published.
fn run_stages<R: Threads + Wait + Sync, G: Gate, I: RowSource>(
    rt: &R,
    gate: &G,
    stop: &AtomicBool,
    to: u32,
    input: &mut I,
    ends: &[u32],
    stages: &mut [Work],
    inner: &mut [RowReader<StageItem>],
    tally: &mut Tally,
) -> Result<(), OutOfMemory>
    requires can { CanExtend (I.job input.old) to (map work_of stages.old) (map state_of inner.old) tally.old }
    requires shown { All IsShown (map work_of stages.old) }
    ensures source { I.job input.new ≡ I.job input.old }
    ensures runs { Runs (to + 1) (map work_of stages.old) (map work_of stages.new)
        (map state_of inner.old) (map state_of inner.new) tally.old tally.new }
    ensures ok { OnOk result
        (IsExtended (to + 1) (map work_of stages.old) (map work_of stages.new) (map state_of inner.new)) }
{
    let Some((first, later)) = stages.split_first_mut() else {
        return Ok(());
    };
    let count = later.len();
    let (readers, _last) = inner.split_at_mut(count);
    run_all(
        rt, gate, stop, to, input, ends, first, later, readers, tally,
    )
}

/// Raises stages to a degree: what stands unpublished is published first, and then each block works in
/// a thread of its own. The blocks end before these stages, the last one behind all.
pub(crate) fn extend_with<R: Threads + Wait + Sync, G: Gate, I: RowSource>(
    rt: &R,
    gate: &G,
    stop: &AtomicBool,
    to: u32,
    input: &mut I,
    ends: &[u32],
    stages: &mut [Work],
    inner: &mut [RowReader<StageItem>],
    tally: &mut Tally,
) -> Result<(), OutOfMemory>
    requires { CanExtend (I.job input.old) to (map work_of stages.old) (map state_of inner.old) tally.old }
    ensures source { I.job input.new ≡ I.job input.old }
    ensures runs { Runs (to + 1) (map work_of stages.old) (map work_of stages.new)
        (map state_of inner.old) (map state_of inner.new) tally.old tally.new }
    ensures ok { OnOk result
        (IsExtended (to + 1) (map work_of stages.old) (map work_of stages.new) (map state_of inner.new)) }
{
    publish_all(rt, stages)?;
    run_stages(rt, gate, stop, to, input, ends, stages, inner, tally)
}

/// Raises the stages of a job to a degree, in at most `workers` blocks.
fn extend_stages<R: Threads + Wait + Sync, G: Gate, I: RowSource>(
    rt: &R,
    alloc: Global,
    gate: &G,
    stop: &AtomicBool,
    to: u32,
    workers: u32,
    input: &mut I,
    stages: &mut [Work],
    inner: &mut [RowReader<StageItem>],
    tally: &mut Tally,
) -> Result<(), OutOfMemory>
    requires line { let state = ⟦<Work as StageView>⟧.state in
        AreStagesOf (I.job input.old) (map state stages.old) }
    requires room { HaveRoom to (map ⟦<Work as StageView>⟧.state stages.old) }
    requires permitted { IsPermitted (take (I.job input.old).n (I.job input.old).weights) to }
    requires readers { map title_of_reader (map state_of inner.old)
        ≡ map (λ s. s.title) (map ⟦<Work as StageView>⟧.state stages.old) }
    requires workers { 1 ≤ workers }
    requires tally { tally.old ≤ 2 ^ 61 }
    ensures source { I.job input.new ≡ I.job input.old }
    ensures kept { let state = ⟦<Work as StageView>⟧.state in
        AreKept (map state stages.old) (map state stages.new) }
    ensures falling { let state = ⟦<Work as StageView>⟧.state in OnOk result
        (AreFalling (map state stages.old) → AreFalling (map state stages.new)) }
    ensures ok { let state = ⟦<Work as StageView>⟧.state in OnOk result
        (AllReach (to + 1) (map state stages.old) (map state stages.new)) }
    ensures published { OnOk result (map ⟦<Work as SharedStageView>⟧.published stages.new
        ≡ lengths_in (map ⟦<Work as StageView>⟧.state stages.new)) }
    ensures err { let state = ⟦<Work as StageView>⟧.state in OnErr result
        (NoneExceeds (to + 1) (map state stages.old) (map state stages.new)) }
    ensures ticks { let state = ⟦<Work as StageView>⟧.state in
        tally.new + sum_by prepared_of (map state stages.old)
        ≡ tally.old + sum_by prepared_of (map state stages.new) }
    ensures readers { Pairwise KeepsReader (map state_of inner.old) (map state_of inner.new) }
    ensures seen { let state = ⟦<Work as StageView>⟧.state in OnOk result
        (AreSeen (to + 1) (map state stages.old) (map state stages.new) (map state_of inner.new)) }
{
    let ends = ends_of(alloc, &stages[0].title().job, workers)?;
    extend_with(rt, gate, stop, to, input, &ends, stages, inner, tally)
}

/// Raises all stages of a line to a degree by free-running workers, each of which has a block of the
/// stages. `inner[s]` is a reader of the row of stage s.
///
/// What stands unpublished is published first. A worker passes `gate` before each step, and publishes
/// each item that it puts. For each stage above 0 it takes what the stage before leaves by a look of
/// the reader of that row, and waits until it is there, or until somebody raised `stop`. It may wait.
///
/// On a refusal `stop` is raised, so that whoever waits for a row ends; each row begins with what it
/// was, and a later call goes on from there.
pub fn extend_line<R: Threads + Wait + Sync, G: Gate, I: RowSource>(
    rt: &R,
    line: &mut Line<RowWriter<StageItem>>,
    inner: &mut [RowReader<StageItem>],
    input: &mut I,
    to: u32,
    workers: u32,
    gate: &G,
    stop: &AtomicBool,
    tally: &mut Tally,
) -> Result<(), OutOfMemory>
    requires room { HaveRoom to (⟦<Line<RowWriter<StageItem>> as LineView>⟧.states line.old) }
    requires permitted { let job = ⟦<Line<RowWriter<StageItem>> as LineView>⟧.job line.old in
        IsPermitted (take job.n job.weights) to }
    requires source { I.job input.old ≡ ⟦<Line<RowWriter<StageItem>> as LineView>⟧.job line.old }
    requires readers { map title_of_reader (map state_of inner.old)
        ≡ map (λ s. s.title) (⟦<Line<RowWriter<StageItem>> as LineView>⟧.states line.old) }
    requires some_workers { 1 ≤ workers }
    requires few_workers { workers ≤ 64 }
    requires tally { tally.old ≤ 2 ^ 61 }
    ensures job { let view = ⟦<Line<RowWriter<StageItem>> as LineView>⟧ in view.job line.new ≡ view.job line.old }
    ensures whole { let view = ⟦<Line<RowWriter<StageItem>> as LineView>⟧ in
        AreStagesOf (view.job line.old) (view.states line.old)
        → AreStagesOf (view.job line.new) (view.states line.new) }
    ensures source { I.job input.new ≡ I.job input.old }
    ensures kept { let states = ⟦<Line<RowWriter<StageItem>> as LineView>⟧.states in
        AreKept (states line.old) (states line.new) }
    ensures falling { let states = ⟦<Line<RowWriter<StageItem>> as LineView>⟧.states in
        OnOk result (AreFalling (states line.old) → AreFalling (states line.new)) }
    ensures ok { let states = ⟦<Line<RowWriter<StageItem>> as LineView>⟧.states in
        OnOk result (AllReach (to + 1) (states line.old) (states line.new)) }
    ensures published { OnOk result
        (⟦<Line<RowWriter<StageItem>> as SharedRowsView>⟧.published line.new
        ≡ lengths_in (⟦<Line<RowWriter<StageItem>> as LineView>⟧.states line.new)) }
    ensures err { let states = ⟦<Line<RowWriter<StageItem>> as LineView>⟧.states in
        OnErr result (NoneExceeds (to + 1) (states line.old) (states line.new)) }
    ensures within { AreWithin (⟦<Line<RowWriter<StageItem>> as SharedRowsView>⟧.published line.new)
        (⟦<Line<RowWriter<StageItem>> as LineView>⟧.states line.new) }
    ensures ticks { let states = ⟦<Line<RowWriter<StageItem>> as LineView>⟧.states in
        tally.new + sum_by prepared_of (states line.old) ≡ tally.old + sum_by prepared_of (states line.new) }
    ensures readers { Pairwise KeepsReader (map state_of inner.old) (map state_of inner.new) }
    ensures seen { let states = ⟦<Line<RowWriter<StageItem>> as LineView>⟧.states in OnOk result
        (AreSeen (to + 1) (states line.old) (states line.new) (map state_of inner.new)) }
{
    if line.stages() == 0 {
        return Ok(());
    }
    let mut stages = line.take_stages();
    let alloc = *stages.allocator();
    let done = extend_stages(
        rt,
        alloc,
        gate,
        stop,
        to,
        workers,
        input,
        stages.as_mut_slice(),
        inner,
        tally,
    );
    line.give_stages(stages);
    if done.is_err() {
        stop.store(true, Ordering::SeqCst);
    }
    done
}

/// Raises all stages of a line to a degree as `extend_line` does, beside nobody else.
///
/// On a refusal each row begins with what it was, and a later call goes on from there.
pub fn extend_blocks<R: Threads + Wait + Sync, I: RowSource, G: Gate>(
    rt: &R,
    line: &mut SharedLine,
    input: &mut I,
    to: u32,
    workers: u32,
    gate: &G,
    tally: &mut Tally,
) -> Result<(), OutOfMemory>
    requires room { HaveRoom to (⟦<SharedLine as SharedLineView>⟧.states line.old) }
    requires permitted { let job = ⟦<SharedLine as SharedLineView>⟧.job line.old in
        IsPermitted (take job.n job.weights) to }
    requires source { I.job input.old ≡ ⟦<SharedLine as SharedLineView>⟧.job line.old }
    requires some_workers { 1 ≤ workers }
    requires few_workers { workers ≤ 64 }
    requires tally { tally.old ≤ 2 ^ 61 }
    ensures job { let view = ⟦<SharedLine as SharedLineView>⟧ in view.job line.new ≡ view.job line.old }
    ensures whole { let view = ⟦<SharedLine as SharedLineView>⟧ in
        AreStagesOf (view.job line.old) (view.states line.old)
        → AreStagesOf (view.job line.new) (view.states line.new) }
    ensures source { I.job input.new ≡ I.job input.old }
    ensures kept { let states = ⟦<SharedLine as SharedLineView>⟧.states in
        AreKept (states line.old) (states line.new) }
    ensures falling { let states = ⟦<SharedLine as SharedLineView>⟧.states in
        OnOk result (AreFalling (states line.old) → AreFalling (states line.new)) }
    ensures ok { let states = ⟦<SharedLine as SharedLineView>⟧.states in
        OnOk result (AllReach (to + 1) (states line.old) (states line.new)) }
    ensures published { let view = ⟦<SharedLine as SharedLineView>⟧ in
        OnOk result (view.published line.new ≡ lengths_in (view.states line.new)) }
    ensures within { let view = ⟦<SharedLine as SharedLineView>⟧ in
        AreWithin (view.published line.new) (view.states line.new) }
    ensures err { let states = ⟦<SharedLine as SharedLineView>⟧.states in
        OnErr result (NoneExceeds (to + 1) (states line.old) (states line.new)) }
    ensures ticks { let states = ⟦<SharedLine as SharedLineView>⟧.states in
        tally.new + sum_by prepared_of (states line.old) ≡ tally.old + sum_by prepared_of (states line.new) }
    ensures readers { let inner = ⟦<SharedLine as SharedLineView>⟧.inner in
        Pairwise KeepsReader (inner line.old) (inner line.new) }
    ensures seen { let view = ⟦<SharedLine as SharedLineView>⟧ in OnOk result
        (AreSeen (to + 1) (view.states line.old) (view.states line.new) (view.inner line.new)) }
{
    let stop = AtomicBool::new(false);
    extend_line(
        rt,
        &mut line.line,
        line.inner.as_mut_slice(),
        input,
        to,
        workers,
        gate,
        &stop,
        tally,
    )
}
