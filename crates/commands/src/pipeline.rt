//! Scripts of `factor` by workers that run freely.
ghost use Rattle.std.specs.Prelude.{◌≡◌, ℕ, ◌+◌, ◌*◌, ◌^◌, ◌≤◌, length, List, Option, OnOk, Some};
ghost use Rattle.parts.specs.JobRows.{IsPermitted};
ghost use Rattle.script.specs.Requests.{precision_of as precision_in};
ghost use Rattle.session.specs.Precisions.{weights_in};
ghost use Rattle.session.specs.Shared.{HasReaders};
ghost use Rattle.commands.specs.declared.command.ScriptCommand.TheVariants.{Factor};
ghost use Rattle.commands.specs.Factorings.{AnswersFactors, factoring_of, IsFactoring};
ghost use Rattle.commands.specs.Progress.{SoFar};
ghost use Rattle.commands.specs.Readings.{Factors};
ghost use Rattle.commands.specs.Runs.{Ran, status_in};
ghost use Rattle.commands.specs.Words.{Script};

use crate::command::ScriptCommand;
use crate::reading::{next_request, read_job};
use crate::stop::Stop;
use pipe::Gate;
use ports::{Lines, Sink, Source};
use prepare::Tally;
use printer::write_block;
use rows::RowWriter;
use script::Request;
use session::{Session, SessionView, SharedSessionView};
use stages::StageItem;
use std::alloc::Global;
use std::marker::Sync;
use std::sync::Wait;
use std::thread::Threads;

/// Answers a script of `factor`, line by line. Factors are raised by so many workers, which pass the
/// gate before each step; a stream is written while they are raised. Each request is answered before
/// a line is pulled that isn't there yet. It may wait.
pub(crate) fn factor_in_pipeline<T: Threads + Wait + Sync, S: Source, K: Sink, G: Gate>(
    rt: &T,
    alloc: Global,
    workers: u32,
    gate: &G,
    source: &mut S,
    sink: &mut K,
    tally: &mut Tally,
) -> Result<(), Stop>
    requires some_workers { 1 ≤ workers }
    requires few_workers { workers ≤ 64 }
    requires room { tally.old ≤ 2 ^ 60 }
    ensures { Ran (Some (Script Factor)) (status_in result) (S.left source.old) (S.left source.new)
        (S.faults source.old) (S.faults source.new) (K.written sink.old) (K.written sink.new)
        (K.faults sink.old) (K.faults sink.new) tally.old tally.new }
{
    let mut lines = Lines::new(alloc)?;
    let job = read_job(alloc, ScriptCommand::Factor, &mut lines, source, sink)?;
    let mut session = Session::open_shared(rt, alloc, job)?;
    let done = answer_by_pipeline(
        rt,
        alloc,
        &mut session,
        workers,
        gate,
        &mut lines,
        source,
        sink,
        tally,
    );
    // a session over shared rows isn't dropped: behind its opening nothing leaves this function
    session.close(rt);
    done
}

/// Answers the requests of a script whose header is read.
fn answer_by_pipeline<T: Threads + Wait + Sync, S: Source, K: Sink, G: Gate>(
    rt: &T,
    alloc: Global,
    session: &mut Session<RowWriter<StageItem>>,
    workers: u32,
    gate: &G,
    lines: &mut Lines,
    source: &mut S,
    sink: &mut K,
    tally: &mut Tally,
) -> Result<(), Stop>
    requires some_workers { 1 ≤ workers }
    requires few_workers { workers ≤ 64 }
    requires even { IsFactoring (⟦<Session<RowWriter<StageItem>> as SessionView>⟧.state session.old) }
    requires readers { HasReaders
        (length (⟦<Session<RowWriter<StageItem>> as SessionView>⟧.state session.old).job.job.roots)
        (⟦<Session<RowWriter<StageItem>> as SharedSessionView>⟧.outer session.old) }
    requires begun { (left : Option (List ℕ)) × (written : Option (List ℕ)) × (first : ℕ) × (first ≤ 2 ^ 60)
        × SoFar Factor lines.old
        (Factors (factoring_of (⟦<Session<RowWriter<StageItem>> as SessionView>⟧.state session.old)))
        left (S.left source.old) written (K.written sink.old) first tally.old }
    ensures { (left written : Option (List ℕ)) (read wrote first : ℕ) → read ≤ S.faults source.old
        → wrote ≤ K.faults sink.old
        → SoFar Factor lines.old
        (Factors (factoring_of (⟦<Session<RowWriter<StageItem>> as SessionView>⟧.state session.old)))
        left (S.left source.old) written (K.written sink.old) first tally.old
        → Ran (Some (Script Factor)) (status_in result) left (S.left source.new) read (S.faults source.new)
        written (K.written sink.new) wrote (K.faults sink.new) first tally.new }
{
    while let Some(request) = next_request(
        alloc,
        ScriptCommand::Factor,
        session.ring(),
        lines,
        source,
        sink,
    )? {
        answer_request(rt, session, workers, gate, request, sink, tally)?;
    }
    Ok(())
}

/// Answers a request: a block is written when all workers have done, a stream meanwhile.
///
/// Each degree that is prepared ticks once, of each root. On an error a beginning of the answer is
/// written at most.
fn answer_request<T: Threads + Wait + Sync, K: Sink, G: Gate>(
    rt: &T,
    session: &mut Session<RowWriter<StageItem>>,
    workers: u32,
    gate: &G,
    request: Request,
    sink: &mut K,
    tally: &mut Tally,
) -> Result<(), Stop>
    requires some_workers { 1 ≤ workers }
    requires few_workers { workers ≤ 64 }
    requires even { IsFactoring (⟦<Session<RowWriter<StageItem>> as SessionView>⟧.state session.old) }
    requires permitted { let state = ⟦<Session<RowWriter<StageItem>> as SessionView>⟧.state in
        IsPermitted (weights_in (state session.old).job.job) (precision_in request) }
    requires readers { HasReaders
        (length (⟦<Session<RowWriter<StageItem>> as SessionView>⟧.state session.old).job.job.roots)
        (⟦<Session<RowWriter<StageItem>> as SharedSessionView>⟧.outer session.old) }
    requires tally { tally.old ≤ 2 ^ 61 }
    ensures answers { let state = ⟦<Session<RowWriter<StageItem>> as SessionView>⟧.state in
        AnswersFactors (factoring_of (state session.old)) (factoring_of (state session.new)) request result
        (K.written sink.old) (K.written sink.new) (K.faults sink.old) (K.faults sink.new)
        tally.old tally.new }
    ensures even { OnOk result
        (IsFactoring (⟦<Session<RowWriter<StageItem>> as SessionView>⟧.state session.new)) }
    ensures readers { HasReaders
        (length (⟦<Session<RowWriter<StageItem>> as SessionView>⟧.state session.old).job.job.roots)
        (⟦<Session<RowWriter<StageItem>> as SharedSessionView>⟧.outer session.new) }
{
    match request {
        Request::Show { precision } => {
            session.raise_pipe(rt, precision, workers, gate, tally)?;
            write_block(sink, session, precision)?;
        }
        Request::Stream { precision } => {
            session.stream_pipe(rt, precision, workers, gate, sink, tally)?;
        }
    }
    Ok(())
}
