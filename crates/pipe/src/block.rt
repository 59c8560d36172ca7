//! The work of one block.
ghost use Rattle.std.specs.Prelude.{◌≡◌, ℕ, ◌+◌, ◌<◌, ◌≤◌, ◌^◌, length, map, OnOk, OnErr, All};
ghost use Rattle.pipe.specs.Looks.{state_of};
ghost use Rattle.pipe.specs.Works.{work_of, count_of};
ghost use Rattle.pipe.specs.Runs.{CanRun, Runs, IsRaised};

use crate::gate::Gate;
use crate::step::step_later;
use crate::view::Work;
use prepare::Tally;
use ps_model::OutOfMemory;
use rows::RowReader;
use stages::StageItem;
use std::sync::Wait;
use std::sync::atomic::{AtomicBool, Ordering};
use std::thread::Threads;

/// Sees to it that each stage has its item of degree r.
pub(crate) fn one_degree<R: Threads + Wait + Sync, G: Gate>(
    rt: &R,
    gate: &G,
    stop: &AtomicBool,
    stages: &mut [Work],
    readers: &mut [RowReader<StageItem>],
    r: u32,
    tally: &mut Tally,
) -> Result<(), OutOfMemory>
    requires can { CanRun r (map work_of stages.old) (map state_of readers.old) 0 }
    requires have { All (λ w. r ≤ count_of w) (map work_of stages.old) }
    requires tally { tally.old ≤ 2 ^ 61 + 139298 }
    ensures runs { Runs (r + 1) (map work_of stages.old) (map work_of stages.new)
        (map state_of readers.old) (map state_of readers.new) tally.old tally.new }
    ensures ok { OnOk result
        (IsRaised (r + 1) (map work_of stages.old) (map work_of stages.new) (map state_of readers.new)) }
{
    for i in 0..stages.len() {
        if stages[i].len() == r {
            step_later(rt, gate, stop, &mut stages[i], &mut readers[i], r, tally)?;
        }
    }
    Ok(())
}

/// Raises the stages of a block behind the first stage, degree by degree.
pub(crate) fn run_later<R: Threads + Wait + Sync, G: Gate>(
    rt: &R,
    gate: &G,
    stop: &AtomicBool,
    to: u32,
    stages: &mut [Work],
    readers: &mut [RowReader<StageItem>],
    tally: &mut Tally,
) -> Result<(), OutOfMemory>
    requires { CanRun to (map work_of stages.old) (map state_of readers.old) tally.old }
    ensures runs { Runs (to + 1) (map work_of stages.old) (map work_of stages.new)
        (map state_of readers.old) (map state_of readers.new) tally.old tally.new }
    ensures ok { OnOk result
        (IsRaised (to + 1) (map work_of stages.old) (map work_of stages.new) (map state_of readers.new)) }
{
    for r in 0..to + 1 {
        if let Err(error) = one_degree(rt, gate, stop, stages, readers, r, tally) {
            stop.store(true, Ordering::SeqCst);
            return Err(error);
        }
    }
    Ok(())
}
