//! A line is raised while the caller's thread writes a stream.
ghost use Rattle.std.specs.Prelude.{◌≡◌, ◌+◌, map, IfSome, None, OnOk};
ghost use Rattle.std.specs.Thread.{IsSync, IsSend};
ghost use Rattle.pipe.specs.Looks.{state_of};
ghost use Rattle.pipe.specs.Pairs.{Pairwise};
ghost use Rattle.expr_reader.specs.NameLists.{as_names};
ghost use Rattle.session.specs.Extended.{job_in, states_in, published_in};
ghost use Rattle.session.specs.Extended.{CanRaise, CanFollow, ExtendsLine, RaisesLine, CountsFaults};
ghost use Rattle.session.specs.SeenBy.{seen_by};
ghost use Rattle.session.specs.Shared.{place_of, KeepsPlace};
ghost use Rattle.session.specs.Streams.{StreamsJob, outcome_of};

use crate::following::follow_stream;
use crate::seen_rows::SeenRows;
use crate::stream_fault::StreamFault;
use parts::RowSource;
use pipe::{Gate, extend_line};
use ports::Sink;
use prepare::Tally;
use ps_model::OutOfMemory;
use rows::{RowReader, RowWriter};
use stages::{Line, LineView, SharedRowsView, StageItem};
use std::marker::Sync;
use std::sync::Wait;
use std::sync::atomic::{AtomicBool, Ordering};
use std::thread;
use std::thread::{Threads, join_mut};

/// How often the writer looks whether the raise has begun: some ten times as often as a start takes on a
/// machine that is busy.
const LOOKS: u32 = 20_000;

/// Raises a line to a degree, while this thread writes the stream from the readers `outer`. Where no
/// thread can be started it is raised first.
pub(crate) fn stream_beside<T: Threads + Wait + Sync, I: RowSource, G: Gate, K: Sink>(
    rt: &T,
    line: &mut Line<RowWriter<StageItem>>,
    inner: &mut [RowReader<StageItem>],
    outer: &mut [Option<RowReader<StageItem>>],
    seen: &mut SeenRows<'_>,
    input: &mut I,
    to: u32,
    workers: u32,
    gate: &G,
    sink: &mut K,
    tally: &mut Tally,
) -> Result<(), StreamFault>
    requires raise { let view = ⟦<Line<RowWriter<StageItem>> as LineView>⟧ in
        CanRaise (view.job line.old) (I.job input.old) to workers (view.states line.old) (map state_of inner.old)
        tally.old }
    requires follow { CanFollow to (map place_of outer.old) (seen_by seen.old) }
    ensures job { let view = ⟦<Line<RowWriter<StageItem>> as LineView>⟧ in
        view.job line.new ≡ view.job line.old }
    ensures source { I.job input.new ≡ I.job input.old }
    ensures extends { let view = ⟦<Line<RowWriter<StageItem>> as LineView>⟧ in
        ExtendsLine (to + 1) (view.states line.old) (view.states line.new) (map state_of inner.old)
        (map state_of inner.new) tally.old tally.new }
    ensures raises { let view = ⟦<Line<RowWriter<StageItem>> as LineView>⟧ in
        OnOk result (RaisesLine (to + 1) (view.states line.old) (view.states line.new)
        (⟦<Line<RowWriter<StageItem>> as SharedRowsView>⟧.published line.new) (map state_of inner.new)) }
    ensures outer { Pairwise KeepsPlace (map place_of outer.old) (map place_of outer.new) }
    ensures text { let job = (seen_by seen.old).job in
        StreamsJob (as_names job.names) job.job to result (K.written sink.old) (K.written sink.new) }
    ensures faults { CountsFaults result (K.faults sink.old) (K.faults sink.new) }
{
    let stop = AtomicBool::new(false);
    let begun = AtomicBool::new(false);
    // where no thread can be started now nobody is waited for
    let looks = if can_start(rt) { LOOKS } else { 0 };
    let (raised, early) = both(
        rt, &stop, &begun, looks, line, inner, outer, seen, input, to, workers, gate, sink, tally,
    );
    match early {
        Some(written) => outcome(written, raised),
        None => {
            let written = follow_stream(rt, &stop, outer, seen, to, sink);
            outcome(written, raised)
        }
    }
}

/// Whether a thread can be started now.
fn can_start<T: Threads>(rt: &T) -> bool {
    match thread::spawn(rt, || ()) {
        Ok(started) => {
            started.join(rt);
            true
        }
        Err(_) => false,
    }
}

/// What is answered. A writer who found no item since a worker met want of memory says so too.
fn outcome(
    written: Result<(), StreamFault>,
    raised: Result<(), OutOfMemory>,
) -> Result<(), StreamFault>
    ensures { result ≡ outcome_of written raised }
{
    match written {
        Err(fault) => Err(fault),
        Ok(()) => match raised {
            Err(OutOfMemory) => Err(StreamFault::OutOfMemory),
            Ok(()) => Ok(()),
        },
    }
}

/// Whether the raise begins within so many looks.
fn begins(begun: &AtomicBool, looks: u32) -> bool {
    for _ in 0..looks {
        if begun.load(Ordering::SeqCst) {
            return true;
        }
        thread::yield_now();
    }
    false
}

/// The line is raised in a thread of its own. A join whose thread is refused does that work last, and
/// tells nobody: so the writer waits for the raise to begin by so many looks, and else writes nothing.
fn both<T: Threads + Wait + Sync, I: RowSource, G: Gate, K: Sink>(
    rt: &T,
    stop: &AtomicBool,
    begun: &AtomicBool,
    looks: u32,
    line: &mut Line<RowWriter<StageItem>>,
    inner: &mut [RowReader<StageItem>],
    outer: &mut [Option<RowReader<StageItem>>],
    seen: &mut SeenRows<'_>,
    input: &mut I,
    to: u32,
    workers: u32,
    gate: &G,
    sink: &mut K,
    tally: &mut Tally,
) -> (Result<(), OutOfMemory>, Option<Result<(), StreamFault>>)
    requires raise { let view = ⟦<Line<RowWriter<StageItem>> as LineView>⟧ in
        CanRaise (view.job line.old) (I.job input.old) to workers (view.states line.old) (map state_of inner.old)
        tally.old }
    requires follow { CanFollow to (map place_of outer.old) (seen_by seen.old) }
    ensures job { let view = ⟦<Line<RowWriter<StageItem>> as LineView>⟧ in
        view.job line.new ≡ view.job line.old }
    ensures source { I.job input.new ≡ I.job input.old }
    ensures extends { let view = ⟦<Line<RowWriter<StageItem>> as LineView>⟧ in
        ExtendsLine (to + 1) (view.states line.old) (view.states line.new) (map state_of inner.old)
        (map state_of inner.new) tally.old tally.new }
    ensures raises { let view = ⟦<Line<RowWriter<StageItem>> as LineView>⟧ in
        OnOk result.0 (RaisesLine (to + 1) (view.states line.old) (view.states line.new)
        (⟦<Line<RowWriter<StageItem>> as SharedRowsView>⟧.published line.new) (map state_of inner.new)) }
    ensures outer { Pairwise KeepsPlace (map place_of outer.old) (map place_of outer.new) }
    ensures text { let job = (seen_by seen.old).job in IfSome result.1 (λ done.
        StreamsJob (as_names job.names) job.job to done (K.written sink.old) (K.written sink.new)) }
    ensures faults { IfSome result.1 (λ done. CountsFaults done (K.faults sink.old) (K.faults sink.new)) }
    ensures none { result.1 ≡ None → (outer.new ≡ outer.old) × (seen.new ≡ seen.old) × (sink.new ≡ sink.old) }
{
    let mut raise = || -> Result<(), OutOfMemory>
        requires { IsSync T.row × IsSync G.row × IsSend I.row
            × CanRaise (job_in line.now) (I.job input.now) to workers (states_in line.now)
            (map state_of inner.now) tally.now }
        ensures job { job_in line.exit.now ≡ job_in line.entry.now }
        ensures source { I.job input.exit.now ≡ I.job input.entry.now }
        ensures extends { ExtendsLine (to + 1) (states_in line.entry.now) (states_in line.exit.now)
            (map state_of inner.entry.now) (map state_of inner.exit.now) tally.entry.now tally.exit.now }
        ensures raises { OnOk result (RaisesLine (to + 1) (states_in line.entry.now)
            (states_in line.exit.now) (published_in line.exit.now) (map state_of inner.exit.now)) }
    {
        begun.store(true, Ordering::SeqCst);
        raise_line(rt, stop, line, inner, input, to, workers, gate, tally)
    };
    let mut write = || -> Option<Result<(), StreamFault>>
        requires { CanFollow to (map place_of outer.now) (seen_by seen.now) }
        ensures outer { Pairwise KeepsPlace (map place_of outer.entry.now) (map place_of outer.exit.now) }
        ensures text { let job = (seen_by seen.entry.now).job in
            IfSome result (λ done. StreamsJob (as_names job.names) job.job to done (K.written sink.entry.now)
            (K.written sink.exit.now)) }
        ensures faults { IfSome result (λ done.
            CountsFaults done (K.faults sink.entry.now) (K.faults sink.exit.now)) }
        ensures none { result ≡ None → (outer.exit.now ≡ outer.entry.now)
            × (seen.exit.now ≡ seen.entry.now) × (sink.exit.now ≡ sink.entry.now) }
    {
        if begins(begun, looks) {
            Some(follow_stream(rt, stop, outer, seen, to, sink))
        } else {
            None
        }
    };
    join_mut(rt, &mut raise, &mut write)
}

/// Raises a line to a degree. A refusal raises the flag, since the writer waits for what isn't put then.
fn raise_line<T: Threads + Wait + Sync, I: RowSource, G: Gate>(
    rt: &T,
    stop: &AtomicBool,
    line: &mut Line<RowWriter<StageItem>>,
    inner: &mut [RowReader<StageItem>],
    input: &mut I,
    to: u32,
    workers: u32,
    gate: &G,
    tally: &mut Tally,
) -> Result<(), OutOfMemory>
    requires raise { let view = ⟦<Line<RowWriter<StageItem>> as LineView>⟧ in
        CanRaise (view.job line.old) (I.job input.old) to workers (view.states line.old) (map state_of inner.old)
        tally.old }
    ensures job { let view = ⟦<Line<RowWriter<StageItem>> as LineView>⟧ in
        view.job line.new ≡ view.job line.old }
    ensures source { I.job input.new ≡ I.job input.old }
    ensures extends { let view = ⟦<Line<RowWriter<StageItem>> as LineView>⟧ in
        ExtendsLine (to + 1) (view.states line.old) (view.states line.new) (map state_of inner.old)
        (map state_of inner.new) tally.old tally.new }
    ensures raises { let view = ⟦<Line<RowWriter<StageItem>> as LineView>⟧ in
        OnOk result (RaisesLine (to + 1) (view.states line.old) (view.states line.new)
        (⟦<Line<RowWriter<StageItem>> as SharedRowsView>⟧.published line.new) (map state_of inner.new)) }
{
    extend_line(rt, line, inner, input, to, workers, gate, stop, tally)
}
