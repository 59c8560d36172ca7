//! How a stream is written while the rows grow.
ghost use Rattle.std.specs.Prelude.{◌≡◌, ◌≢◌, ℕ, ◌+◌, ◌<◌, ◌≤◌, length, map, slice_index_or, OnOk};
ghost use Rattle.stages.specs.Lines.{HaveRoom};
ghost use Rattle.stages.specs.States.{StageState};
ghost use Rattle.pipe.specs.Pairs.{Pairwise};
ghost use Rattle.expr_reader.specs.NameLists.{as_names};
ghost use Rattle.session.specs.Extended.{CanFollow, CountsFaults};
ghost use Rattle.session.specs.Seen.{IsLevel, KeepsSeen};
ghost use Rattle.session.specs.SeenBy.{seen_by};
ghost use Rattle.session.specs.Shared.{place_of, KeepsPlace, IsPlaceOf, ArePlacesOf};
ghost use Rattle.session.specs.Streams.{StreamsJob, WritesDegree};

use crate::seen_rows::SeenRows;
use crate::stream_fault::StreamFault;
use crate::streams::{put, write_first_line};
use pipe::wait_for;
use ports::Sink;
use printer::write_degree;
use ps_model::OutOfMemory;
use rows::RowReader;
use stages::StageItem;
use std::sync::Wait;
use std::sync::atomic::{AtomicBool, Ordering};

/// Writes the stream up to degree `to`, each degree once the readers show it. A fault raises the flag.
pub(crate) fn follow_stream<W: Wait, K: Sink>(
    rt: &W,
    stop: &AtomicBool,
    outer: &mut [Option<RowReader<StageItem>>],
    seen: &mut SeenRows<'_>,
    to: u32,
    sink: &mut K,
) -> Result<(), StreamFault>
    requires { CanFollow to (map place_of outer.old) (seen_by seen.old) }
    ensures kept { Pairwise KeepsPlace (map place_of outer.old) (map place_of outer.new) }
    ensures text { let job = (seen_by seen.old).job in
        StreamsJob (as_names job.names) job.job to result (K.written sink.old) (K.written sink.new) }
    ensures faults { CountsFaults result (K.faults sink.old) (K.faults sink.new) }
{
    let done = follow_text(rt, stop, outer, seen, to, sink);
    if done.is_err() {
        stop.store(true, Ordering::SeqCst);
    }
    done
}

/// The same, where a fault leaves the flag as it was: a line that tells `to`, the degrees from 0 on, and
/// a last line.
fn follow_text<W: Wait, K: Sink>(
    rt: &W,
    stop: &AtomicBool,
    outer: &mut [Option<RowReader<StageItem>>],
    seen: &mut SeenRows<'_>,
    to: u32,
    sink: &mut K,
) -> Result<(), StreamFault>
    requires { CanFollow to (map place_of outer.old) (seen_by seen.old) }
    ensures kept { Pairwise KeepsPlace (map place_of outer.old) (map place_of outer.new) }
    ensures text { let job = (seen_by seen.old).job in
        StreamsJob (as_names job.names) job.job to result (K.written sink.old) (K.written sink.new) }
    ensures faults { CountsFaults result (K.faults sink.old) (K.faults sink.new) }
{
    write_first_line(sink, to)?;
    for r in 0..to + 1 {
        follow_degree(rt, stop, outer, seen, r, sink)?;
    }
    put(sink, b"end\n")?;
    Ok(())
}

/// Writes degree r of the stream, once the readers show it.
fn follow_degree<W: Wait, K: Sink>(
    rt: &W,
    stop: &AtomicBool,
    outer: &mut [Option<RowReader<StageItem>>],
    seen: &mut SeenRows<'_>,
    r: u32,
    sink: &mut K,
) -> Result<(), StreamFault>
    requires readers { ArePlacesOf (seen_by seen.old).job.job (map place_of outer.old) }
    requires level { IsLevel r (seen_by seen.old) }
    requires room { HaveRoom r (seen_by seen.old).stages }
    requires lead { r < length (seen_by seen.old).lead }
    requires low { r ≤ 4095 }
    ensures kept { Pairwise KeepsPlace (map place_of outer.old) (map place_of outer.new) }
    ensures same { KeepsSeen (seen_by seen.old) (seen_by seen.new) }
    ensures level { OnOk result (IsLevel (r + 1) (seen_by seen.new)) }
    ensures text { let job = (seen_by seen.old).job in
        WritesDegree (as_names job.names) job.job r result (K.written sink.old) (K.written sink.new) }
    ensures faults { CountsFaults result (K.faults sink.old) (K.faults sink.new) }
{
    take_degree(rt, stop, outer, seen, r)?;
    write_degree(sink, seen, r)?;
    Ok(())
}

/// Takes in the items of degree r, each once its reader shows it.
fn take_degree<W: Wait>(
    rt: &W,
    stop: &AtomicBool,
    outer: &mut [Option<RowReader<StageItem>>],
    seen: &mut SeenRows<'_>,
    r: u32,
) -> Result<(), OutOfMemory>
    requires readers { ArePlacesOf (seen_by seen.old).job.job (map place_of outer.old) }
    requires level { IsLevel r (seen_by seen.old) }
    requires room { HaveRoom r (seen_by seen.old).stages }
    ensures kept { Pairwise KeepsPlace (map place_of outer.old) (map place_of outer.new) }
    ensures same { KeepsSeen (seen_by seen.old) (seen_by seen.new) }
    ensures level { OnOk result (IsLevel (r + 1) (seen_by seen.new)) }
{
    for i in 0..outer.len() {
        take_item(rt, stop, &mut outer[i], seen, i as u32, r)?;
    }
    Ok(())
}

/// Takes in the item of degree r of row `i`, once the reader at its place shows it.
fn take_item<W: Wait>(
    rt: &W,
    stop: &AtomicBool,
    place: &mut Option<RowReader<StageItem>>,
    seen: &mut SeenRows<'_>,
    i: u32,
    r: u32,
) -> Result<(), OutOfMemory>
    requires reader { IsPlaceOf (seen_by seen.old).job.job i (place_of place.old) }
    requires row { i < length (seen_by seen.old).stages }
    requires count { (d : StageState) →
        length (slice_index_or (seen_by seen.old).stages i d).items ≡ r }
    requires room { (d : StageState) →
        r < (slice_index_or (seen_by seen.old).stages i d).capacity }
    ensures kept { KeepsPlace (place_of place.old) (place_of place.new) }
    ensures same { KeepsSeen (seen_by seen.old) (seen_by seen.new) }
    ensures others { (j : ℕ) (d : StageState) → j ≢ i →
        slice_index_or (seen_by seen.new).stages j d ≡ slice_index_or (seen_by seen.old).stages j d }
    ensures more { OnOk result ((d : StageState) →
        length (slice_index_or (seen_by seen.new).stages i d).items ≡ r + 1) }
{
    let Some(reader) = place else {
        unreachable!();
    };
    let item = wait_for(rt, stop, reader, r)?;
    seen.put(i, item);
    Ok(())
}
