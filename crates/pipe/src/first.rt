//! The work of the block with the first stage.
ghost use Rattle.std.specs.Prelude.{◌≡◌, ℕ, ◌+◌, ◌<◌, ◌≤◌, ◌^◌, length, map, OnOk, All};
ghost use Rattle.pipe.specs.Looks.{state_of};
ghost use Rattle.pipe.specs.Works.{work_of, count_of};
ghost use Rattle.pipe.specs.Runs.{CanRun, CanRunFirst, RunsFirst, IsRaised, IsRaisedFirst};

use crate::block::one_degree;
use crate::gate::Gate;
use crate::step::step_first;
use crate::view::Work;
use parts::RowSource;
use prepare::Tally;
use ps_model::OutOfMemory;
use rows::RowReader;
use stages::StageItem;
use std::sync::Wait;
use std::sync::atomic::{AtomicBool, Ordering};
use std::thread::Threads;

/// Sees to it that the first stage and those behind it have their item of degree r.
fn first_degree<R: Threads + Wait + Sync, G: Gate, I: RowSource>(
    rt: &R,
    gate: &G,
    stop: &AtomicBool,
    input: &mut I,
    first: &mut Work,
    stages: &mut [Work],
    readers: &mut [RowReader<StageItem>],
    r: u32,
    tally: &mut Tally,
) -> Result<(), OutOfMemory>
    requires first { CanRunFirst r (I.job input.old) (work_of first.old) }
    requires first_has { r ≤ count_of (work_of first.old) }
    requires can { CanRun r (map work_of stages.old) (map state_of readers.old) 0 }
    requires have { All (λ w. r ≤ count_of w) (map work_of stages.old) }
    requires tally { tally.old ≤ 2 ^ 61 + 135201 }
    ensures source { I.job input.new ≡ I.job input.old }
    ensures runs { RunsFirst (r + 1) (work_of first.old) (work_of first.new)
        (map work_of stages.old) (map work_of stages.new)
        (map state_of readers.old) (map state_of readers.new) tally.old tally.new }
    ensures first_ok { OnOk result (IsRaisedFirst (r + 1) (work_of first.new)) }
    ensures ok { OnOk result
        (IsRaised (r + 1) (map work_of stages.old) (map work_of stages.new) (map state_of readers.new)) }
{
    if first.len() == r {
        step_first(rt, gate, input, first, r, tally)?;
    }
    one_degree(rt, gate, stop, stages, readers, r, tally)
}

/// Raises the first stage and those of its block behind it, degree by degree.
pub(crate) fn run_first<R: Threads + Wait + Sync, G: Gate, I: RowSource>(
    rt: &R,
    gate: &G,
    stop: &AtomicBool,
    to: u32,
    input: &mut I,
    first: &mut Work,
    stages: &mut [Work],
    readers: &mut [RowReader<StageItem>],
    tally: &mut Tally,
) -> Result<(), OutOfMemory>
    requires first { CanRunFirst to (I.job input.old) (work_of first.old) }
    requires can { CanRun to (map work_of stages.old) (map state_of readers.old) tally.old }
    ensures source { I.job input.new ≡ I.job input.old }
    ensures runs { RunsFirst (to + 1) (work_of first.old) (work_of first.new)
        (map work_of stages.old) (map work_of stages.new)
        (map state_of readers.old) (map state_of readers.new) tally.old tally.new }
    ensures first_ok { OnOk result (IsRaisedFirst (to + 1) (work_of first.new)) }
    ensures ok { OnOk result
        (IsRaised (to + 1) (map work_of stages.old) (map work_of stages.new) (map state_of readers.new)) }
{
    for r in 0..to + 1 {
        if let Err(error) = first_degree(rt, gate, stop, input, first, stages, readers, r, tally) {
            stop.store(true, Ordering::SeqCst);
            return Err(error);
        }
    }
    Ok(())
}
