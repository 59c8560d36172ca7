//! The work of `check`, from bytes to bytes.
ghost use Rattle.std.specs.Prelude.{◌^◌, ◌≤◌, Some};
ghost use Rattle.commands.specs.Runs.{Ran};
ghost use Rattle.commands.specs.Telling.{check_status};
ghost use Rattle.commands.specs.Words.{Check};

use crate::checking::Checking;
use crate::stop::Stop;
use crate::verdict::Verdict;
use ports::{Lines, NextLine, Sink, Source};
use prepare::Tally;
use std::alloc::Global;

/// Reads a header and a block, says whether the block is right, and answers the status.
pub fn run_check<S: Source, K: Sink>(
    alloc: Global,
    source: &mut S,
    sink: &mut K,
    tally: &mut Tally,
) -> u8
    requires room { tally.old ≤ 2 ^ 60 }
    ensures { Ran (Some Check) result (S.left source.old) (S.left source.new) (S.faults source.old)
        (S.faults source.new) (K.written sink.old) (K.written sink.new) (K.faults sink.old) (K.faults sink.new)
        tally.old tally.new }
{
    match check_script(alloc, source, sink, tally) {
        Ok(verdict) => verdict.status(),
        Err(stop) => stop.status(),
    }
}

/// Reads a header and a block, line by line, and says whether the block is right.
fn check_script<S: Source, K: Sink>(
    alloc: Global,
    source: &mut S,
    sink: &mut K,
    tally: &mut Tally,
) -> Result<Verdict, Stop>
    requires room { tally.old ≤ 2 ^ 60 }
    ensures { Ran (Some Check) (check_status result) (S.left source.old) (S.left source.new) (S.faults source.old)
        (S.faults source.new) (K.written sink.old) (K.written sink.new) (K.faults sink.old) (K.faults sink.new)
        tally.old tally.new }
{
    let mut lines = Lines::new(alloc)?;
    let mut checking = Checking::new(alloc);
    loop {
        match lines.next(source) {
            NextLine::Line => {
                checking = checking.line(alloc, lines.text(), lines.number(), sink)?;
            }
            NextLine::InputTooLong => {
                return Err(checking.too_long(alloc, lines.number() + 1, sink));
            }
            NextLine::End => return checking.end(alloc, lines.number() + 1, sink, tally),
            NextLine::Failed => return Err(Stop::ReadFault),
        }
    }
}
