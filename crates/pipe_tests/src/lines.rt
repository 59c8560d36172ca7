//! Lines of jobs, with room up to degree 7, and the ways to raise them.
ghost use Rattle.std.specs.Prelude.{◌≡◌, ◌≤◌, length, map, take, IfOk};
ghost use Rattle.std.specs.Arc.{arc_value};
ghost use Rattle.ps_model.specs.AcceptedJob.{IsAccepted};
ghost use Rattle.parts.specs.JobRows.{IsPermitted, IsRingOf};
ghost use Rattle.stages.specs.Lines.{HaveRoom, AreKept};
ghost use Rattle.pipe.specs.Looks.{state_of};
ghost use Rattle.pipe.specs.SharedLines.{AreReadersOf};

use intake::{InputRows, Job};
use parts::{Ring, permitted};
use pipe::{Gate, SharedLine, SharedLineView, extend_blocks};
use prepare::Tally;
use ps_model::{JobData, OutOfMemory};
use rows::{OwnRow, RowReader};
use stages::{Line, LineView, StageItem, empty_rows};
use std::alloc::Global;
use std::sync::{Arc, Wait};
use std::test::Fail;
use std::thread::Threads;

/// How a line over shared rows is raised.
#[derive(Clone, Copy)]
pub enum Way {
    Alone,
    Rounds,
    Blocks,
}

/// A line of a job for one thread.
pub fn plain_line(
    alloc: Global,
    ring: Ring,
    job: &Arc<JobData>,
) -> Result<Line<OwnRow<StageItem>>, OutOfMemory>
    requires accepted { IsAccepted (arc_value job.now) }
    requires ring { IsRingOf ring (arc_value job.now) }
    ensures job { IfOk result (λ line.
        ⟦<Line<OwnRow<StageItem>> as LineView>⟧.job line ≡ arc_value job.now) }
    ensures room { IfOk result (λ line.
        HaveRoom 7 (⟦<Line<OwnRow<StageItem>> as LineView>⟧.states line)) }
{
    let rows = empty_rows(alloc, job, 8)?;
    match Line::new(alloc, ring, Arc::try_clone(job)?, rows) {
        Ok(line) => Ok(line),
        Err((refusal, _rows)) => Err(refusal),
    }
}

/// Raises a line on one thread: the count of steps.
#[tactic(auto, using(crate::proofs::Permitted::permitted_for))]
pub fn plain_steps(
    ring: Ring,
    line: &mut Line<OwnRow<StageItem>>,
    input: &mut InputRows,
    to: u32,
) -> Result<u64, Fail>
    requires ring { IsRingOf ring input.old }
    requires job { ⟦<Line<OwnRow<StageItem>> as LineView>⟧.job line.old ≡ input.old }
    requires room { HaveRoom 7 (⟦<Line<OwnRow<StageItem>> as LineView>⟧.states line.old) }
    ensures source { input.new ≡ input.old }
{
    if to > 7 || !permitted(ring, to) {
        return Err("not to be raised")?;
    }
    let mut tally = Tally::new();
    let done = line.raise(input, to, &mut tally);
    let steps = tally.finish();
    done?;
    Ok(steps)
}

/// A line of a job over shared rows, and a reader of each row.
pub fn shared_line<W: Wait>(
    rt: &W,
    alloc: Global,
    job: &Job,
) -> Result<(SharedLine, Vec<RowReader<StageItem>>), OutOfMemory>
    requires { IsAccepted job.now.job }
    ensures job { IfOk result (λ made. ⟦<SharedLine as SharedLineView>⟧.job made.0 ≡ job.now.job) }
    ensures room { IfOk result
        (λ made. HaveRoom 7 (⟦<SharedLine as SharedLineView>⟧.states made.0)) }
    ensures readers { IfOk result (λ made. AreReadersOf (⟦<SharedLine as SharedLineView>⟧.states made.0)
        (map state_of made.1.items)) }
{
    SharedLine::new(rt, alloc, job.ring(), Arc::try_clone(job.data())?, 8)
}

/// Raises a line over shared rows in one of the ways.
fn raise_by<R: Threads + Wait + Sync, G: Gate>(
    rt: &R,
    line: &mut SharedLine,
    input: &mut InputRows,
    to: u32,
    way: Way,
    workers: u32,
    gate: &G,
    tally: &mut Tally,
) -> Result<(), OutOfMemory>
    requires room { HaveRoom to (⟦<SharedLine as SharedLineView>⟧.states line.old) }
    requires permitted { IsPermitted (take input.old.n input.old.weights) to }
    requires source { input.old ≡ ⟦<SharedLine as SharedLineView>⟧.job line.old }
    requires some_workers { 1 ≤ workers }
    requires few_workers { workers ≤ 64 }
    requires tally { tally.old ≡ 0 }
    ensures source { input.new ≡ input.old }
    ensures job { let job = ⟦<SharedLine as SharedLineView>⟧.job in job line.new ≡ job line.old }
    ensures kept { let states = ⟦<SharedLine as SharedLineView>⟧.states in
        AreKept (states line.old) (states line.new) }
{
    match way {
        Way::Alone => line.raise(input, to, tally),
        Way::Rounds => line.raise_rounds(rt, input, to, workers, tally),
        Way::Blocks => extend_blocks(rt, line, input, to, workers, gate, tally),
    }
}

/// Raises a line over shared rows in one of the ways: the count of steps.
#[tactic(auto, using(crate::proofs::Permitted::permitted_for))]
pub fn steps_by<R: Threads + Wait + Sync, G: Gate>(
    rt: &R,
    ring: Ring,
    line: &mut SharedLine,
    input: &mut InputRows,
    to: u32,
    way: Way,
    workers: u32,
    gate: &G,
) -> Result<u64, Fail>
    requires ring { IsRingOf ring input.old }
    requires job { ⟦<SharedLine as SharedLineView>⟧.job line.old ≡ input.old }
    requires room { HaveRoom 7 (⟦<SharedLine as SharedLineView>⟧.states line.old) }
    ensures source { input.new ≡ input.old }
    ensures job { ⟦<SharedLine as SharedLineView>⟧.job line.new ≡ input.old }
    ensures room { HaveRoom 7 (⟦<SharedLine as SharedLineView>⟧.states line.new) }
    ensures kept { let states = ⟦<SharedLine as SharedLineView>⟧.states in
        AreKept (states line.old) (states line.new) }
{
    if to > 7 || !permitted(ring, to) || workers < 1 || workers > 64 {
        return Err("not to be raised")?;
    }
    let mut tally = Tally::new();
    let done = raise_by(rt, line, input, to, way, workers, gate, &mut tally);
    let steps = tally.finish();
    done?;
    Ok(steps)
}
