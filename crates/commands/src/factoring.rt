//! Scripts of `factor`, on one thread or in rounds.
ghost use Rattle.std.specs.Prelude.{◌≡◌, ◌+◌, ◌^◌, ◌≤◌, IfSome, OnOk, Some};
ghost use Rattle.parts.specs.JobRows.{IsPermitted};
ghost use Rattle.script.specs.Requests.{precision_of as precision_in};
ghost use Rattle.session.specs.Calls.{IsRaised, IsWithin, KeepsSession, prepared_degrees};
ghost use Rattle.session.specs.Precisions.{weights_in};
ghost use Rattle.commands.specs.declared.command.ScriptCommand.TheVariants.{Factor as FactorScript};
ghost use Rattle.commands.specs.Runs.{Ran, status_in};
ghost use Rattle.commands.specs.Words.{Script};

use crate::command::ScriptCommand;
use crate::reading::{next_request, read_job};
use crate::stop::Stop;
use crate::streams::write_answer;
use intake::Job;
use parts::Ring;
use ports::{Lines, Sink, Source};
use prepare::Tally;
use ps_model::OutOfMemory;
use rows::OwnRow;
use script::Request;
use session::{Session, SessionView};
use stages::StageItem;
use std::alloc::Global;
use std::marker::Model;
use std::thread::Threads;

/// Answers a script of `factor`, line by line. Factors are raised in rounds of up to so many threads, or
/// on this thread alone. Each request is answered before a line is pulled that isn't there yet.
pub(crate) fn factor_in_rounds<S: Source, K: Sink>(
    rt: &(impl Threads + Sync),
    alloc: Global,
    rounds: Option<u32>,
    source: &mut S,
    sink: &mut K,
    tally: &mut Tally,
) -> Result<(), Stop>
    requires rounds { IfSome rounds (λ n. (1 ≤ n) × (n ≤ 64)) }
    requires room { tally.old ≤ 2 ^ 60 }
    ensures { Ran (Some (Script FactorScript)) (status_in result) (S.left source.old) (S.left source.new)
        (S.faults source.old) (S.faults source.new) (K.written sink.old) (K.written sink.new)
        (K.faults sink.old) (K.faults sink.new) tally.old tally.new }
{
    let command = ScriptCommand::Factor;
    let mut lines = Lines::new(alloc)?;
    let job = read_job(alloc, command, &mut lines, source, sink)?;
    let mut factoring = Factoring::open(alloc, job)?;
    while let Some(request) = next_request(
        alloc,
        command,
        factoring.ring(),
        &mut lines,
        source,
        sink,
    )? {
        factoring = factoring.answer(rt, rounds, request, sink, tally)?;
    }
    Ok(())
}

/// A job whose factors answer requests.
#[derive(Drop)]
pub struct Factoring {
    session: Session<OwnRow<StageItem>>,
}

impl Model for Factoring {
    ghost use Rattle.commands.specs.Answering.{FactoringValue};
    ghost use Rattle.commands.specs.Factorings.{factoring_code, factoring_of, IsFactoring};

    ghost Value = { FactoringValue };

    ghost coded = { factoring_code };

    ghost view = { λ s. factoring_of (⟦<Session<OwnRow<StageItem>> as SessionView>⟧.state s.session) };

    ghost invariant = { λ s. IsFactoring (⟦<Session<OwnRow<StageItem>> as SessionView>⟧.state s.session) };
}

impl Factoring {
    ghost use Rattle.std.specs.Prelude.{◌≡◌, ◌+◌, ◌*◌, ◌^◌, ◌≤◌, max, suc, length, IfOk, IfErr, IfSome};
    ghost use Rattle.parts.specs.JobRows.{IsPermitted, IsRingOf};
    ghost use Rattle.ps_model.specs.AcceptedJob.{IsAccepted};
    ghost use Rattle.script.specs.Requests.{precision_of};
    ghost use Rattle.script.specs.Script.{Has};
    ghost use Rattle.session.specs.Precisions.{weights_in};
    ghost use Rattle.commands.specs.declared.stop.Stop.TheVariants.{OutOfMemory as NoMemory};
    ghost use Rattle.commands.specs.declared.command.ScriptCommand.TheVariants.{Factor};
    ghost use Rattle.commands.specs.Answering.{Answered};

    /// Of the factors nothing is known yet. It takes the memory of their rows.
    pub fn open(alloc: Global, job: Job) -> Result<Factoring, Stop>
        requires accepted { IsAccepted job.job }
        requires names { length job.names ≡ job.job.n }
        ensures opened { IfOk result
            (λ f. f ≡ record { names = job.names; job = job.job; degrees = 0 }) }
        ensures refused { IfErr result (λ e. e ≡ NoMemory) }
    {
        Ok(Factoring {
            session: Session::open(alloc, job)?,
        })
    }

    /// The ring of the job.
    pub fn ring(&self) -> Ring
        ensures { IsRingOf result self.now.job }
    {
        self.session.ring()
    }

    /// Answers a request: raises the factors to its precision, in rounds of up to so many threads or on
    /// this thread alone, and writes them.
    ///
    /// Each degree that is prepared ticks once, of each root. On an error a beginning of the answer is
    /// written at most.
    pub fn answer<K: Sink>(
        self,
        rt: &(impl Threads + Sync),
        rounds: Option<u32>,
        request: Request,
        sink: &mut K,
        tally: &mut Tally,
    ) -> Result<Factoring, Stop>
        requires rounds { IfSome rounds (λ n. (1 ≤ n) × (n ≤ 64)) }
        requires permitted { IsPermitted (weights_in self.job) (precision_of request) }
        requires tally { tally.old ≤ 2 ^ 61 }
        ensures next { IfOk result (λ f.
            f ≡ record self { degrees = max (suc (precision_of request)) self.degrees }) }
        ensures answered { Answered Factor (Has self.names self.job) request result
            (K.written sink.old) (K.written sink.new) (K.faults sink.old) (K.faults sink.new) }
        ensures spent { IfOk result (λ f. tally.new + length self.job.roots * self.degrees
            ≡ tally.old + length self.job.roots * f.degrees) }
        ensures more { tally.old ≤ tally.new }
        ensures at_most { tally.new + length self.job.roots * self.degrees
            ≤ tally.old + length self.job.roots * max (suc (precision_of request)) self.degrees }
    {
        let Factoring { mut session } = self;
        raise(rt, &mut session, rounds, precision_of(request), tally)?;
        write_answer(sink, &session, request)?;
        Ok(Factoring { session })
    }
}

/// Raises a session to a degree, in rounds of up to so many threads or on this thread alone.
fn raise(
    rt: &(impl Threads + Sync),
    session: &mut Session<OwnRow<StageItem>>,
    rounds: Option<u32>,
    to: u32,
    tally: &mut Tally,
) -> Result<(), OutOfMemory>
    requires rounds { IfSome rounds (λ n. (1 ≤ n) × (n ≤ 64)) }
    requires permitted { let state = ⟦<Session<OwnRow<StageItem>> as SessionView>⟧.state in
        IsPermitted (weights_in (state session.old).job.job) to }
    requires tally { tally.old ≤ 2 ^ 61 }
    ensures kept { let state = ⟦<Session<OwnRow<StageItem>> as SessionView>⟧.state in
        KeepsSession (state session.old) (state session.new) }
    ensures ok { let state = ⟦<Session<OwnRow<StageItem>> as SessionView>⟧.state in
        OnOk result (IsRaised (to + 1) (state session.old) (state session.new)) }
    ensures within { let state = ⟦<Session<OwnRow<StageItem>> as SessionView>⟧.state in
        IsWithin (to + 1) (state session.old) (state session.new) }
    ensures ticks { let state = ⟦<Session<OwnRow<StageItem>> as SessionView>⟧.state in
        tally.new + prepared_degrees (state session.old)
        ≡ tally.old + prepared_degrees (state session.new) }
{
    match rounds {
        None => session.raise(to, tally),
        Some(workers) => session.raise_rounds(rt, to, workers, tally),
    }
}

/// The precision that a request asks for.
pub(crate) fn precision_of(request: Request) -> u32
    ensures { result ≡ precision_in request }
{
    match request {
        Request::Show { precision } => precision,
        Request::Stream { precision } => precision,
    }
}
