//! How the stages of a round are split over workers.
ghost use Rattle.std.specs.Prelude.{◌≡◌, ◌+◌, ◌<◌, ◌≤◌, ◌^◌, map, sum_by, OnOk};
ghost use Rattle.std.specs.Result.{result_and};
ghost use Rattle.std.specs.Thread.{IsSync, IsSend};
ghost use Rattle.stages.specs.States.{state_by, prepared_of};
ghost use Rattle.stages.specs.Rounds.{CanTake, CanAdvance, Moves, HasPut, AreMoved, HavePut};

use crate::item::StageItem;
use crate::stage::{Stage, StageView};
use crate::upstream::Upstream;
use prepare::Tally;
use ps_model::OutOfMemory;
use rows::RowOut;
use std::marker::Sync;
use std::thread::{Threads, join_mut};

/// What a worker did: whether all of its stages have their items, and its own count of steps.
pub struct Work {
    pub outcome: Result<(), OutOfMemory>,
    pub steps: Tally,
}

/// Puts the next item of each stage for which one is planned, split over at most `workers` threads,
/// the caller's among them. Each half of the stages has a worker of its own, and so have its halves,
/// as long as there are workers. Where a thread can't be had the caller does its work.
#[cycle(halves)]
pub(crate) fn advance_parts<R: RowOut<StageItem>, T: Threads + Sync>(
    rt: &T,
    workers: u32,
    plan: &[Option<Upstream>],
    stages: &mut [Stage<R>],
) -> Work
    requires workers { 1 ≤ workers }
    requires can { let state = ⟦<Stage<R> as StageView>⟧.state in
        CanAdvance plan.now (map state stages.old) }
    ensures moved { let state = ⟦<Stage<R> as StageView>⟧.state in
        AreMoved plan.now (map state stages.old) (map state stages.new) }
    ensures put { let state = ⟦<Stage<R> as StageView>⟧.state in
        OnOk result.outcome (HavePut plan.now (map state stages.old) (map state stages.new)) }
    ensures ticks { let state = ⟦<Stage<R> as StageView>⟧.state in
        result.steps + sum_by prepared_of (map state stages.old) ≡ sum_by prepared_of (map state stages.new) }
{
    if workers == 1 || stages.len() <= 1 {
        return advance_in_turn(plan, stages);
    }
    let half = stages.len() / 2;
    let (front_plan, back_plan) = plan.split_at(half);
    let (front, back) = stages.split_at_mut(half);
    let (first, second) = advance_halves(rt, workers, front_plan, front, back_plan, back);
    both(first, second)
}

/// Two parts of the stages, each with half of the workers.
#[cycle(halves)]
fn advance_halves<R: RowOut<StageItem>, T: Threads + Sync>(
    rt: &T,
    workers: u32,
    front_plan: &[Option<Upstream>],
    front: &mut [Stage<R>],
    back_plan: &[Option<Upstream>],
    back: &mut [Stage<R>],
) -> (Work, Work)
    requires workers { 2 ≤ workers }
    requires front { let state = ⟦<Stage<R> as StageView>⟧.state in
        CanAdvance front_plan.now (map state front.old) }
    requires back { let state = ⟦<Stage<R> as StageView>⟧.state in
        CanAdvance back_plan.now (map state back.old) }
    ensures front_moved { let state = ⟦<Stage<R> as StageView>⟧.state in
        AreMoved front_plan.now (map state front.old) (map state front.new) }
    ensures front_put { let state = ⟦<Stage<R> as StageView>⟧.state in
        OnOk result.0.outcome (HavePut front_plan.now (map state front.old) (map state front.new)) }
    ensures front_ticks { let state = ⟦<Stage<R> as StageView>⟧.state in
        result.0.steps + sum_by prepared_of (map state front.old)
        ≡ sum_by prepared_of (map state front.new) }
    ensures back_moved { let state = ⟦<Stage<R> as StageView>⟧.state in
        AreMoved back_plan.now (map state back.old) (map state back.new) }
    ensures back_put { let state = ⟦<Stage<R> as StageView>⟧.state in
        OnOk result.1.outcome (HavePut back_plan.now (map state back.old) (map state back.new)) }
    ensures back_ticks { let state = ⟦<Stage<R> as StageView>⟧.state in
        result.1.steps + sum_by prepared_of (map state back.old)
        ≡ sum_by prepared_of (map state back.new) }
{
    let low = workers / 2;
    let high = workers - low;
    let mut first = || -> Work
        requires { IsSync T.row × IsSend R.row × (1 ≤ low)
            × CanAdvance front_plan.now
            (map (λ s. state_by R.capacity R.name R.items s.splitter s.row) front.now) }
        ensures moved { AreMoved front_plan.entry.now
            (map (λ s. state_by R.capacity R.name R.items s.splitter s.row) front.entry.now)
            (map (λ s. state_by R.capacity R.name R.items s.splitter s.row) front.exit.now) }
        ensures put { OnOk result.outcome (HavePut front_plan.entry.now
            (map (λ s. state_by R.capacity R.name R.items s.splitter s.row) front.entry.now)
            (map (λ s. state_by R.capacity R.name R.items s.splitter s.row) front.exit.now)) }
        ensures ticks { result.steps + sum_by prepared_of
            (map (λ s. state_by R.capacity R.name R.items s.splitter s.row) front.entry.now)
            ≡ sum_by prepared_of (map (λ s. state_by R.capacity R.name R.items s.splitter s.row) front.exit.now) }
    { advance_parts(rt, low, front_plan, front) };
    let mut second = || -> Work
        requires { IsSync T.row × IsSend R.row × (1 ≤ high)
            × CanAdvance back_plan.now
            (map (λ s. state_by R.capacity R.name R.items s.splitter s.row) back.now) }
        ensures moved { AreMoved back_plan.entry.now
            (map (λ s. state_by R.capacity R.name R.items s.splitter s.row) back.entry.now)
            (map (λ s. state_by R.capacity R.name R.items s.splitter s.row) back.exit.now) }
        ensures put { OnOk result.outcome (HavePut back_plan.entry.now
            (map (λ s. state_by R.capacity R.name R.items s.splitter s.row) back.entry.now)
            (map (λ s. state_by R.capacity R.name R.items s.splitter s.row) back.exit.now)) }
        ensures ticks { result.steps + sum_by prepared_of
            (map (λ s. state_by R.capacity R.name R.items s.splitter s.row) back.entry.now)
            ≡ sum_by prepared_of (map (λ s. state_by R.capacity R.name R.items s.splitter s.row) back.exit.now) }
    { advance_parts(rt, high, back_plan, back) };
    join_mut(rt, &mut first, &mut second)
}

/// The work of two workers.
fn both(first: Work, second: Work) -> Work
    requires { first.steps + second.steps ≤ 2 ^ 63 }
    ensures outcome { result.outcome ≡ result_and first.outcome second.outcome }
    ensures steps { result.steps ≡ first.steps + second.steps }
{
    let Work { outcome, mut steps } = first;
    let Work {
        outcome: other,
        steps: more,
    } = second;
    steps.merge(more);
    Work {
        outcome: outcome.and(other),
        steps,
    }
}

/// One worker's part: its stages one after another, up to the first refusal.
fn advance_in_turn<R: RowOut<StageItem>>(plan: &[Option<Upstream>], stages: &mut [Stage<R>]) -> Work
    requires can { let state = ⟦<Stage<R> as StageView>⟧.state in
        CanAdvance plan.now (map state stages.old) }
    ensures moved { let state = ⟦<Stage<R> as StageView>⟧.state in
        AreMoved plan.now (map state stages.old) (map state stages.new) }
    ensures put { let state = ⟦<Stage<R> as StageView>⟧.state in
        OnOk result.outcome (HavePut plan.now (map state stages.old) (map state stages.new)) }
    ensures ticks { let state = ⟦<Stage<R> as StageView>⟧.state in
        result.steps + sum_by prepared_of (map state stages.old) ≡ sum_by prepared_of (map state stages.new) }
{
    let mut steps = Tally::new();
    let outcome = advance_all(plan, stages, &mut steps);
    Work { outcome, steps }
}

/// Puts the next item of each stage for which one is planned, one after another.
fn advance_all<R: RowOut<StageItem>>(
    plan: &[Option<Upstream>],
    stages: &mut [Stage<R>],
    tally: &mut Tally,
) -> Result<(), OutOfMemory>
    requires can { let state = ⟦<Stage<R> as StageView>⟧.state in
        CanAdvance plan.now (map state stages.old) }
    requires fresh { tally.old ≡ 0 }
    ensures moved { let state = ⟦<Stage<R> as StageView>⟧.state in
        AreMoved plan.now (map state stages.old) (map state stages.new) }
    ensures put { let state = ⟦<Stage<R> as StageView>⟧.state in
        OnOk result (HavePut plan.now (map state stages.old) (map state stages.new)) }
    ensures ticks { let state = ⟦<Stage<R> as StageView>⟧.state in
        tally.new + sum_by prepared_of (map state stages.old)
        ≡ tally.old + sum_by prepared_of (map state stages.new) }
{
    for s in 0..stages.len() {
        advance_one(&mut stages[s], &plan[s], tally)?;
    }
    Ok(())
}

/// Puts the next item of a stage, if one is planned.
fn advance_one<R: RowOut<StageItem>>(
    stage: &mut Stage<R>,
    planned: &Option<Upstream>,
    tally: &mut Tally,
) -> Result<(), OutOfMemory>
    requires can { let state = ⟦<Stage<R> as StageView>⟧.state in
        CanTake planned.now (state stage.old) }
    requires tally { tally.old < 2 ^ 62 }
    ensures moves { let state = ⟦<Stage<R> as StageView>⟧.state in
        Moves planned.now (state stage.old) (state stage.new) }
    ensures put { let state = ⟦<Stage<R> as StageView>⟧.state in
        OnOk result (HasPut planned.now (state stage.old) (state stage.new)) }
    ensures ticks { let state = ⟦<Stage<R> as StageView>⟧.state in
        tally.new + prepared_of (state stage.old) ≡ tally.old + prepared_of (state stage.new) }
{
    match planned {
        Some(upstream) => stage.advance(upstream.parts(), tally),
        None => Ok(()),
    }
}
