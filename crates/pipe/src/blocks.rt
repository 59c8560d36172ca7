//! Blocks that work beside each other.
ghost use Rattle.std.specs.Prelude.{◌≡◌, ℕ, ◌+◌, ◌<◌, ◌≤◌, ◌^◌, length, map, OnOk};
ghost use Rattle.std.specs.Thread.{IsSync};
ghost use Rattle.pipe.specs.Looks.{state_of};
ghost use Rattle.pipe.specs.Works.{work_of};
ghost use Rattle.pipe.specs.Runs.{CanRun, Runs, IsRaised};

use crate::block::run_later;
use crate::gate::Gate;
use crate::view::Work;
use prepare::Tally;
use ps_model::OutOfMemory;
use rows::RowReader;
use stages::StageItem;
use std::sync::Wait;
use std::sync::atomic::AtomicBool;
use std::thread::{Threads, join_mut};

/// Raises stages behind the first one, block by block, each block in a thread of its own. The last
/// block has all that is left.
#[cycle(blocks)]
pub(crate) fn run_blocks<R: Threads + Wait + Sync, G: Gate>(
    rt: &R,
    gate: &G,
    stop: &AtomicBool,
    to: u32,
    ends: &[u32],
    from: u32,
    stages: &mut [Work],
    readers: &mut [RowReader<StageItem>],
    tally: &mut Tally,
) -> Result<(), OutOfMemory>
    requires { CanRun to (map work_of stages.old) (map state_of readers.old) tally.old }
    ensures runs { Runs (to + 1) (map work_of stages.old) (map work_of stages.new)
        (map state_of readers.old) (map state_of readers.new) tally.old tally.new }
    ensures ok { OnOk result
        (IsRaised (to + 1) (map work_of stages.old) (map work_of stages.new) (map state_of readers.new)) }
{
    let Some((end, later)) = ends.split_first() else {
        return run_later(rt, gate, stop, to, stages, readers, tally);
    };
    if later.is_empty() {
        return run_later(rt, gate, stop, to, stages, readers, tally);
    }
    let end = *end;
    let size = (end.saturating_sub(from) as usize).min(stages.len());
    let (mine, theirs) = stages.split_at_mut(size);
    let (my_readers, their_readers) = readers.split_at_mut(size);
    let mut mine_count = Tally::new();
    let done = both(
        rt,
        gate,
        stop,
        to,
        mine,
        my_readers,
        &mut mine_count,
        later,
        end,
        theirs,
        their_readers,
        tally,
    );
    tally.merge(mine_count);
    done
}

/// Raises one block in a thread of its own, and the blocks behind it beside it.
#[cycle(blocks)]
fn both<R: Threads + Wait + Sync, G: Gate>(
    rt: &R,
    gate: &G,
    stop: &AtomicBool,
    to: u32,
    mine: &mut [Work],
    my_readers: &mut [RowReader<StageItem>],
    my_tally: &mut Tally,
    later: &[u32],
    end: u32,
    theirs: &mut [Work],
    their_readers: &mut [RowReader<StageItem>],
    their_tally: &mut Tally,
) -> Result<(), OutOfMemory>
    requires front { CanRun to (map work_of mine.old) (map state_of my_readers.old) my_tally.old }
    requires back { CanRun to (map work_of theirs.old) (map state_of their_readers.old) their_tally.old }
    ensures front { Runs (to + 1) (map work_of mine.old) (map work_of mine.new)
        (map state_of my_readers.old) (map state_of my_readers.new) my_tally.old my_tally.new }
    ensures back { Runs (to + 1) (map work_of theirs.old) (map work_of theirs.new)
        (map state_of their_readers.old) (map state_of their_readers.new) their_tally.old their_tally.new }
    ensures front_ok { OnOk result
        (IsRaised (to + 1) (map work_of mine.old) (map work_of mine.new) (map state_of my_readers.new)) }
    ensures back_ok { OnOk result
        (IsRaised (to + 1) (map work_of theirs.old) (map work_of theirs.new) (map state_of their_readers.new)) }
{
    let mut front = || -> Result<(), OutOfMemory>
        requires { IsSync R.row × IsSync G.row
            × CanRun to (map work_of mine.now) (map state_of my_readers.now) my_tally.now }
        ensures runs { Runs (to + 1) (map work_of mine.entry.now) (map work_of mine.exit.now)
            (map state_of my_readers.entry.now) (map state_of my_readers.exit.now)
            my_tally.entry.now my_tally.exit.now }
        ensures ok { OnOk result
            (IsRaised (to + 1) (map work_of mine.entry.now) (map work_of mine.exit.now)
            (map state_of my_readers.exit.now)) }
    { run_later(rt, gate, stop, to, mine, my_readers, my_tally) };
    let mut back = || -> Result<(), OutOfMemory>
        requires { IsSync R.row × IsSync G.row
            × CanRun to (map work_of theirs.now) (map state_of their_readers.now) their_tally.now }
        ensures runs { Runs (to + 1) (map work_of theirs.entry.now) (map work_of theirs.exit.now)
            (map state_of their_readers.entry.now) (map state_of their_readers.exit.now)
            their_tally.entry.now their_tally.exit.now }
        ensures ok { OnOk result
            (IsRaised (to + 1) (map work_of theirs.entry.now) (map work_of theirs.exit.now)
            (map state_of their_readers.exit.now)) }
    {
        run_blocks(
            rt,
            gate,
            stop,
            to,
            later,
            end,
            theirs,
            their_readers,
            their_tally,
        )
    };
    let (rest, first) = join_mut(rt, &mut back, &mut front);
    first?;
    rest
}
