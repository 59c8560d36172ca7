//! Workers over the lines of jobs.
ghost use Rattle.std.specs.Prelude.{◌≡◌, ◌<◌, length, map, take};
ghost use Rattle.parts.specs.JobRows.{IsPermitted, IsRingOf};
ghost use Rattle.stages.specs.Lines.{HaveRoom};
ghost use Rattle.pipe.specs.Looks.{state_of};
ghost use Rattle.pipe.specs.SharedLines.{AreReadersOf};

use crate::comparisons::{are_shown, have_same_rows, is_same};
use crate::jobs::{job_of_four, job_of_two};
use crate::lines::{Way, plain_line, plain_steps, shared_line, steps_by};
use intake::InputRows;
use meeting::Meeting;
use parts::{Ring, permitted};
use pipe::{Gate, OpenGate, SharedLine, SharedLineView, extend_line, wait_for};
use prepare::Tally;
use rows::{Looked, OwnRow, RowReader};
use stages::{Line, LineView, StageItem};
use std::alloc::Global;
use std::sync::Wait;
use std::sync::atomic::{AtomicBool, Ordering};
use std::test::Fail;
use std::thread::Threads;

/// Raises a line of two stages to degree 1 by two workers: the count of steps.
fn steps_past<R: Threads + Wait + Sync, G: Gate>(
    rt: &R,
    alloc: Global,
    gate: &G,
) -> Result<u64, Fail> {
    let mut job = job_of_two(alloc)?;
    let ring = job.ring();
    let (mut line, _readers) = shared_line(rt, alloc, &job)?;
    let steps = steps_by(rt, ring, &mut line, job.input(), 1, Way::Blocks, 2, gate);
    line.close(rt);
    steps
}

#[test]
fn two_blocks_meet_at_a_gate(rt: HostRuntime) -> Result<(), Fail> {
    let gate = Meeting::new();
    let steps = steps_past(&rt, rt.alloc(), &gate)?;
    assert!(rt; gate.met());
    assert_eq!(rt; steps, 4);
    Ok(())
}

/// Raises one line on one thread, and the other by workers to degrees 2, 4 and 4 again. It tells the
/// steps of each raise, and whether the lines have the same items and all are shown.
fn raises_by<R: Threads + Wait + Sync>(
    rt: &R,
    ring: Ring,
    plain: &mut Line<OwnRow<StageItem>>,
    line: &mut SharedLine,
    input: &mut InputRows,
    workers: u32,
) -> Result<([u64; 4], bool), Fail>
    requires ring { IsRingOf ring input.old }
    requires plain { ⟦<Line<OwnRow<StageItem>> as LineView>⟧.job plain.old ≡ input.old }
    requires plain_room { HaveRoom 7 (⟦<Line<OwnRow<StageItem>> as LineView>⟧.states plain.old) }
    requires line { ⟦<SharedLine as SharedLineView>⟧.job line.old ≡ input.old }
    requires line_room { HaveRoom 7 (⟦<SharedLine as SharedLineView>⟧.states line.old) }
{
    let alone = plain_steps(ring, plain, input, 4)?;
    let first = steps_by(rt, ring, line, input, 2, Way::Blocks, workers, &OpenGate)?;
    let second = steps_by(rt, ring, line, input, 4, Way::Blocks, workers, &OpenGate)?;
    let third = steps_by(rt, ring, line, input, 4, Way::Blocks, workers, &OpenGate)?;
    let same = have_same_rows(plain, line) && are_shown(line, 5);
    Ok(([alone, first, second, third], same))
}

/// The same over new lines of a job with four roots.
fn raises_of_four<R: Threads + Wait + Sync>(
    rt: &R,
    alloc: Global,
    workers: u32,
) -> Result<([u64; 4], bool), Fail> {
    let mut job = job_of_four(alloc)?;
    let ring = job.ring();
    let mut plain = plain_line(alloc, ring, job.data())?;
    let (mut line, _readers) = shared_line(rt, alloc, &job)?;
    let found = raises_by(rt, ring, &mut plain, &mut line, job.input(), workers);
    line.close(rt);
    found
}

// By hand: four stages take 20 steps to degree 4, of which 12 are to degree 2.
#[test]
fn any_number_of_workers_gives_the_items_of_one_thread(rt: HostRuntime) -> Result<(), Fail> {
    for workers in [1, 2, 3, 9, 64] {
        let (steps, same) = raises_of_four(&rt, rt.alloc(), workers)?;
        assert_eq!(rt; steps, [20, 12, 8, 0], "by {workers}");
        assert!(rt; same, "by {workers}");
    }
    Ok(())
}

/// Whether a look found an item of degree r, which is that of the stage.
fn is_found(found: &Looked<StageItem>, line: &SharedLine, stage: u32, r: u32) -> bool
    requires { stage < length (⟦<SharedLine as SharedLineView>⟧.states line.now) }
{
    if r >= found.len() || r >= line.len(stage) {
        return false;
    }
    is_same(found.item(r), line.item(stage, r))
}

/// How many of the items that a look found are those of the stage.
fn count_same(found: &Looked<StageItem>, line: &SharedLine, stage: u32) -> u32
    requires { stage < length (⟦<SharedLine as SharedLineView>⟧.states line.now) }
{
    let mut count = 0;
    for r in 0..line.len(stage) {
        if is_found(found, line, stage, r) {
            count += 1;
        }
    }
    count
}

/// How many items the last stage has, how many of them are published, and how many a reader finds.
fn counts_of_last(
    line: &SharedLine,
    reader: RowReader<StageItem>,
) -> Option<([u32; 3], RowReader<StageItem>)> {
    if line.stages() == 0 {
        return None;
    }
    let last = line.stages() - 1;
    let Ok(found) = reader.look() else {
        return None;
    };
    let same = count_same(&found, line, last);
    Some(([line.len(last), line.published(last), same], found.leave()))
}

/// The counts of the last stage behind a raise on one thread, and behind one by workers to the same
/// degree, with the steps of both.
fn counts_by_turns<R: Threads + Wait + Sync>(
    rt: &R,
    ring: Ring,
    line: &mut SharedLine,
    reader: RowReader<StageItem>,
    input: &mut InputRows,
) -> Result<([u64; 2], [[u32; 3]; 2]), Fail>
    requires ring { IsRingOf ring input.old }
    requires line { ⟦<SharedLine as SharedLineView>⟧.job line.old ≡ input.old }
    requires room { HaveRoom 7 (⟦<SharedLine as SharedLineView>⟧.states line.old) }
{
    let alone = steps_by(rt, ring, line, input, 2, Way::Alone, 1, &OpenGate)?;
    let (before, reader) = counts_of_last(line, reader).ok_or("no look")?;
    let beside = steps_by(rt, ring, line, input, 2, Way::Blocks, 2, &OpenGate)?;
    let (behind, _reader) = counts_of_last(line, reader).ok_or("no look")?;
    Ok(([alone, beside], [before, behind]))
}

/// The same over a new line of two stages.
fn counts_of_two<R: Threads + Wait + Sync>(
    rt: &R,
    alloc: Global,
) -> Result<([u64; 2], [[u32; 3]; 2]), Fail> {
    let mut job = job_of_two(alloc)?;
    let ring = job.ring();
    let (mut line, mut readers) = shared_line(rt, alloc, &job)?;
    let counts = match readers.pop() {
        Some(reader) => counts_by_turns(rt, ring, &mut line, reader, job.input()),
        None => Err(Fail::from("no reader")),
    };
    line.close(rt);
    counts
}

// By hand: two stages take 6 steps to degree 2, and none of the items is found before the workers came.
#[test]
fn workers_publish_what_is_there(rt: HostRuntime) -> Result<(), Fail> {
    let (steps, counts) = counts_of_two(&rt, rt.alloc())?;
    assert_eq!(rt; steps, [6, 0]);
    assert_eq!(rt; counts, [[3, 0, 0], [3, 3, 3]]);
    Ok(())
}

/// Tells the first reader what of its row is published: how many items.
fn tell_first(line: &mut SharedLine, readers: &mut [RowReader<StageItem>]) -> Option<u32>
    requires { AreReadersOf (⟦<SharedLine as SharedLineView>⟧.states line.old) (map state_of readers.old) }
    ensures { ⟦<SharedLine as SharedLineView>⟧.states line.new
        ≡ ⟦<SharedLine as SharedLineView>⟧.states line.old }
{
    if line.stages() == 0 || readers.is_empty() {
        return None;
    }
    let told = line.told(0);
    let count = told.len();
    readers[0].learn(told);
    Some(count)
}

/// Whether a wait of the first reader for an item of degree 2 brings that of the line, and one for degree
/// 3, which isn't there, ends once it is to stop.
fn waits_well<W: Wait>(rt: &W, line: &SharedLine, readers: &mut [RowReader<StageItem>]) -> bool {
    if line.stages() == 0 || line.len(0) != 3 || readers.is_empty() {
        return false;
    }
    let stop = AtomicBool::new(false);
    let Ok(item) = wait_for(rt, &stop, &mut readers[0], 2) else {
        return false;
    };
    stop.store(true, Ordering::SeqCst);
    is_same(&item, line.item(0, 2)) && wait_for(rt, &stop, &mut readers[0], 3).is_err()
}

/// Raises a line to degree 2 by workers, and tells the first reader. It tells the steps, how many items
/// the reader was told of, and whether its waits bring the items.
fn told_and_found<R: Threads + Wait + Sync>(
    rt: &R,
    ring: Ring,
    line: &mut SharedLine,
    readers: &mut [RowReader<StageItem>],
    input: &mut InputRows,
) -> Result<(u64, Option<u32>, bool), Fail>
    requires ring { IsRingOf ring input.old }
    requires line { ⟦<SharedLine as SharedLineView>⟧.job line.old ≡ input.old }
    requires room { HaveRoom 7 (⟦<SharedLine as SharedLineView>⟧.states line.old) }
    requires readers { AreReadersOf (⟦<SharedLine as SharedLineView>⟧.states line.old)
        (map state_of readers.old) }
{
    let steps = steps_by(rt, ring, line, input, 2, Way::Blocks, 2, &OpenGate)?;
    let told = tell_first(line, readers);
    Ok((steps, told, waits_well(rt, line, readers)))
}

/// The same over a new line of two stages.
fn told_of_two<R: Threads + Wait + Sync>(
    rt: &R,
    alloc: Global,
) -> Result<(u64, Option<u32>, bool), Fail> {
    let mut job = job_of_two(alloc)?;
    let ring = job.ring();
    let (mut line, mut readers) = shared_line(rt, alloc, &job)?;
    let found = told_and_found(rt, ring, &mut line, readers.as_mut_slice(), job.input());
    line.close(rt);
    found
}

#[test]
fn a_reader_finds_what_it_is_told_of(rt: HostRuntime) -> Result<(), Fail> {
    let (steps, told, waits_well) = told_of_two(&rt, rt.alloc())?;
    assert_eq!(rt; steps, 6);
    assert_eq!(rt; told, Some(3));
    assert!(rt; waits_well);
    Ok(())
}

/// How many degrees are prepared of the first stage, and whether there is a preparation.
fn prepared(line: &SharedLine) -> Option<(u32, bool)> {
    if line.stages() == 0 {
        return None;
    }
    Some((line.prepared(0), line.preparation(0).is_some()))
}

/// Raises a line by a degree in each way, and another one on one thread. It tells the steps of each
/// raise, what was prepared before and behind them, and whether both lines have the same items.
fn each_way<R: Threads + Wait + Sync>(
    rt: &R,
    ring: Ring,
    plain: &mut Line<OwnRow<StageItem>>,
    line: &mut SharedLine,
    input: &mut InputRows,
) -> Result<([u64; 3], [Option<(u32, bool)>; 2], bool), Fail>
    requires ring { IsRingOf ring input.old }
    requires plain { ⟦<Line<OwnRow<StageItem>> as LineView>⟧.job plain.old ≡ input.old }
    requires plain_room { HaveRoom 7 (⟦<Line<OwnRow<StageItem>> as LineView>⟧.states plain.old) }
    requires line { ⟦<SharedLine as SharedLineView>⟧.job line.old ≡ input.old }
    requires line_room { HaveRoom 7 (⟦<SharedLine as SharedLineView>⟧.states line.old) }
    ensures source { input.new ≡ input.old }
    ensures job { ⟦<SharedLine as SharedLineView>⟧.job line.new ≡ input.old }
    ensures room { HaveRoom 7 (⟦<SharedLine as SharedLineView>⟧.states line.new) }
{
    let before = prepared(line);
    let _steps = plain_steps(ring, plain, input, 2)?;
    let alone = steps_by(rt, ring, line, input, 0, Way::Alone, 1, &OpenGate)?;
    let rounds = steps_by(rt, ring, line, input, 1, Way::Rounds, 2, &OpenGate)?;
    let blocks = steps_by(rt, ring, line, input, 2, Way::Blocks, 2, &OpenGate)?;
    Ok((
        [alone, rounds, blocks],
        [before, prepared(line)],
        have_same_rows(plain, line),
    ))
}

/// Takes a line apart and raises it to degree 3 by workers: the steps, and how many items of its first
/// stage are published.
fn steps_in_parts<R: Threads + Wait + Sync>(
    rt: &R,
    line: SharedLine,
    input: &mut InputRows,
) -> Result<(u64, u32), Fail>
    requires permitted { IsPermitted (take input.old.n input.old.weights) 3 }
    requires line { ⟦<SharedLine as SharedLineView>⟧.job line ≡ input.old }
    requires room { HaveRoom 7 (⟦<SharedLine as SharedLineView>⟧.states line) }
{
    let (mut line, mut inner) = line.into_parts();
    let stop = AtomicBool::new(false);
    let mut tally = Tally::new();
    let done = extend_line(
        rt,
        &mut line,
        inner.as_mut_slice(),
        input,
        3,
        2,
        &OpenGate,
        &stop,
        &mut tally,
    );
    let steps = tally.finish();
    let published = if line.stages() == 0 {
        0
    } else {
        line.published(0)
    };
    line.close(rt);
    done?;
    Ok((steps, published))
}

/// All of it over new lines of two stages.
#[tactic(auto, using(crate::proofs::Permitted::permitted_for))]
fn ways_of_two<R: Threads + Wait + Sync>(
    rt: &R,
    alloc: Global,
) -> Result<(([u64; 3], [Option<(u32, bool)>; 2], bool), (u64, u32)), Fail> {
    let mut job = job_of_two(alloc)?;
    let ring = job.ring();
    if !permitted(ring, 3) {
        return Err("not permitted")?;
    }
    let mut plain = plain_line(alloc, ring, job.data())?;
    let (mut line, _readers) = shared_line(rt, alloc, &job)?;
    let raised = each_way(rt, ring, &mut plain, &mut line, job.input());
    match raised {
        Ok(found) => {
            let in_parts = steps_in_parts(rt, line, job.input())?;
            Ok((found, in_parts))
        }
        Err(fail) => {
            line.close(rt);
            Err(fail)
        }
    }
}

// By hand: each raise is by one degree of two stages.
#[test]
fn each_way_goes_on_from_the_others(rt: HostRuntime) -> Result<(), Fail> {
    let ((ways, prepared, same), (steps, published)) = ways_of_two(&rt, rt.alloc())?;
    assert_eq!(rt; ways, [2, 2, 2]);
    assert_eq!(rt; prepared, [Some((0, false)), Some((3, true))]);
    assert!(rt; same);
    assert_eq!(rt; (steps, published), (2, 4));
    Ok(())
}
