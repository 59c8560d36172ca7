//! One step of a worker.
ghost use Rattle.std.specs.Prelude.{◌≡◌, ℕ, ◌+◌, ◌<◌, ◌≤◌, ◌^◌, length, take, OnOk};
ghost use Rattle.ps_model.specs.AcceptedJob.{IsAccepted};
ghost use Rattle.parts.specs.JobRows.{IsPermitted};
ghost use Rattle.parts.specs.RowsOfParts.{parts_of};
ghost use Rattle.stages.specs.Slices.{IsUpstream};
ghost use Rattle.pipe.specs.Looks.{state_of, KeepsReader};
ghost use Rattle.pipe.specs.Works.{work_of, Works, IsShown, IsBehind, count_of, prepared_in};

use crate::gate::Gate;
use crate::look::wait_for;
use crate::view::Work;
use parts::{Part, RowSource};
use prepare::Tally;
use ps_model::OutOfMemory;
use rows::RowReader;
use stages::StageItem;
use std::sync::atomic::AtomicBool;
use std::sync::{Arc, Wait};
use std::thread::Threads;

/// Puts the next item of a stage and publishes it.
fn put_next<R: Wait>(
    rt: &R,
    stage: &mut Work,
    upstream: &[Arc<Part>],
    tally: &mut Tally,
) -> Result<(), OutOfMemory>
    requires room { count_of (work_of stage.old) < (work_of stage.old).stage.capacity }
    requires row { IsUpstream (work_of stage.old).stage.title.job (work_of stage.old).stage.title.stage
        (count_of (work_of stage.old)) (parts_of upstream.now) }
    requires tally { tally.old < 2 ^ 62 }
    ensures works { Works (count_of (work_of stage.old) + 1) (work_of stage.old) (work_of stage.new) }
    ensures put { OnOk result (count_of (work_of stage.new) ≡ count_of (work_of stage.old) + 1) }
    ensures shown { OnOk result (IsShown (work_of stage.new)) }
    ensures ticks { tally.new + prepared_in (work_of stage.old) ≡ tally.old + prepared_in (work_of stage.new) }
{
    stage.advance(upstream, tally)?;
    let _told = stage.publish(rt)?;
    Ok(())
}

/// A step of a stage that takes what the stage before it leaves, by looks of its reader there.
pub(crate) fn step_later<R: Threads + Wait + Sync, G: Gate>(
    rt: &R,
    gate: &G,
    stop: &AtomicBool,
    stage: &mut Work,
    reader: &mut RowReader<StageItem>,
    r: u32,
    tally: &mut Tally,
) -> Result<(), OutOfMemory>
    requires behind { IsBehind (state_of reader.old) (work_of stage.old) }
    requires next { count_of (work_of stage.old) ≡ r }
    requires room { r < (work_of stage.old).stage.capacity }
    requires tally { tally.old < 2 ^ 62 }
    ensures reader { KeepsReader (state_of reader.old) (state_of reader.new) }
    ensures works { Works (r + 1) (work_of stage.old) (work_of stage.new) }
    ensures put { OnOk result (r < count_of (work_of stage.new)) }
    ensures shown { OnOk result (IsShown (work_of stage.new)) }
    ensures seen { OnOk result (r < (state_of reader.new).seen) }
    ensures ticks { tally.new + prepared_in (work_of stage.old) ≡ tally.old + prepared_in (work_of stage.new) }
{
    let item = wait_for(rt, stop, reader, r)?;
    gate.before_step(rt, stage.title().stage, r);
    put_next(rt, stage, item.left(), tally)
}

/// A step of the first stage, which takes the job's own row.
pub(crate) fn step_first<R: Threads + Wait + Sync, G: Gate, I: RowSource>(
    rt: &R,
    gate: &G,
    input: &mut I,
    stage: &mut Work,
    r: u32,
    tally: &mut Tally,
) -> Result<(), OutOfMemory>
    requires first { (work_of stage.old).stage.title ≡ record { job = I.job input.old; stage = 0 } }
    requires accepted { IsAccepted (I.job input.old) }
    requires permitted { IsPermitted (take (I.job input.old).n (I.job input.old).weights) r }
    requires next { count_of (work_of stage.old) ≡ r }
    requires room { r < (work_of stage.old).stage.capacity }
    requires tally { tally.old < 2 ^ 62 }
    ensures source { I.job input.new ≡ I.job input.old }
    ensures works { Works (r + 1) (work_of stage.old) (work_of stage.new) }
    ensures put { OnOk result (r < count_of (work_of stage.new)) }
    ensures shown { OnOk result (IsShown (work_of stage.new)) }
    ensures ticks { tally.new + prepared_in (work_of stage.old) ≡ tally.old + prepared_in (work_of stage.new) }
{
    let row = input.row(r)?;
    gate.before_step(rt, stage.title().stage, r);
    put_next(rt, stage, &row, tally)
}
