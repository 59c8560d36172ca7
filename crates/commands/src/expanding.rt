//! Scripts of `expand`.
ghost use Rattle.std.specs.Prelude.{◌≡◌, ℕ, ◌+◌, ◌<◌, ◌≤◌, length, OnOk, Some};
ghost use Rattle.parts.specs.JobRows.{IsPermitted};
ghost use Rattle.parts.specs.RowsOfParts.{parts_in};
ghost use Rattle.session.specs.Precisions.{weights_in};
ghost use Rattle.commands.specs.declared.command.ScriptCommand.TheVariants.{Expand};
ghost use Rattle.commands.specs.Expandings.{AreValueRows};
ghost use Rattle.commands.specs.Runs.{Ran, status_in};
ghost use Rattle.commands.specs.Words.{Script};

use crate::command::ScriptCommand;
use crate::factoring::precision_of;
use crate::reading::{next_request, read_job};
use crate::stop::Stop;
use intake::{InputRows, Job};
use parts::{Part, Ring};
use ports::{Lines, Sink, Source};
use printer::write_input;
use ps_model::OutOfMemory;
use std::alloc::Global;
use std::marker::Model;
use std::sync::Arc;

/// Answers a script of `expand`, line by line. Each request is answered before a line is pulled that
/// isn't there yet.
pub(crate) fn expand_script<S: Source, K: Sink>(
    alloc: Global,
    source: &mut S,
    sink: &mut K,
) -> Result<(), Stop>
    ensures { (tally : ℕ) → Ran (Some (Script Expand)) (status_in result) (S.left source.old)
        (S.left source.new) (S.faults source.old) (S.faults source.new) (K.written sink.old)
        (K.written sink.new) (K.faults sink.old) (K.faults sink.new) tally tally }
{
    let command = ScriptCommand::Expand;
    let mut lines = Lines::new(alloc)?;
    let job = read_job(alloc, command, &mut lines, source, sink)?;
    let mut expanding = Expanding::open(alloc, job);
    while let Some(request) = next_request(
        alloc,
        command,
        expanding.ring(),
        &mut lines,
        source,
        sink,
    )? {
        expanding = expanding.answer(precision_of(request), sink)?;
    }
    Ok(())
}

/// A job whose input answers requests.
#[derive(Drop)]
pub struct Expanding {
    job: Job,
    /// The parts of the input that are known, by degree and by power of Y.
    rows: Vec<Vec<Arc<Part>>>,
}

impl Model for Expanding {
    ghost use Rattle.parts.specs.RowsOfParts.{parts_in};
    ghost use Rattle.commands.specs.Answering.{ExpandingValue};
    ghost use Rattle.commands.specs.Expandings.{expanding_code, expanding_of, IsExpanding};

    ghost Value = { ExpandingValue };

    ghost coded = { expanding_code };

    ghost view = { λ s. expanding_of s.job };

    ghost invariant = { λ s. IsExpanding s.job (parts_in s.rows.items) };
}

impl Expanding {
    ghost use Rattle.std.specs.Prelude.{◌≡◌, length, IfOk};
    ghost use Rattle.parts.specs.JobRows.{IsPermitted, IsRingOf};
    ghost use Rattle.ps_model.specs.AcceptedJob.{IsAccepted};
    ghost use Rattle.script.specs.Script.{Has};
    ghost use Rattle.script.specs.declared.request.Request.TheVariants.{Show};
    ghost use Rattle.session.specs.Precisions.{weights_in};
    ghost use Rattle.commands.specs.declared.command.ScriptCommand.TheVariants.{Expand};
    ghost use Rattle.commands.specs.Answering.{Answered};

    /// Of the input nothing is known yet.
    pub fn open(alloc: Global, job: Job) -> Expanding
        requires accepted { IsAccepted job.job }
        requires names { length job.names ≡ job.job.n }
        ensures { result ≡ record { names = job.names; job = job.job } }
    {
        // that there are as many names tells the proof that they are names
        let _names = job.names().len();
        Expanding {
            job,
            rows: Vec::new(alloc),
        }
    }

    /// The ring of the job.
    pub fn ring(&self) -> Ring
        ensures { IsRingOf result self.now.job }
    {
        self.job.ring()
    }

    /// Answers a request for a block: writes the input up to the precision.
    ///
    /// On an error a beginning of the answer is written at most.
    pub fn answer<K: Sink>(self, precision: u32, sink: &mut K) -> Result<Expanding, Stop>
        requires permitted { IsPermitted (weights_in self.job) precision }
        ensures next { IfOk result (λ e. e ≡ self) }
        ensures answered { Answered Expand (Has self.names self.job) (Show precision) result
            (K.written sink.old) (K.written sink.new) (K.faults sink.old) (K.faults sink.new) }
    {
        let Expanding { mut job, mut rows } = self;
        extend_rows(job.input(), &mut rows, precision)?;
        write_input(sink, job.names(), job.ring(), &rows, precision)?;
        Ok(Expanding { job, rows })
    }
}

/// Extends the rows of the input to those of the degrees up to `to`. On a refusal those that came
/// before it stay.
fn extend_rows(
    input: &mut InputRows,
    rows: &mut Vec<Vec<Arc<Part>>>,
    to: u32,
) -> Result<(), OutOfMemory>
    requires permitted { IsPermitted (weights_in input.old) to }
    requires few { length rows.old.items ≤ 4096 }
    requires rows { AreValueRows input.old (parts_in rows.old.items) }
    ensures input { input.new ≡ input.old }
    ensures rows { AreValueRows input.old (parts_in rows.new.items) }
    ensures few { length rows.new.items ≤ 4096 }
    ensures ok { OnOk result (to < length rows.new.items) }
{
    for r in rows.len() as u32..to + 1 {
        let row = input.input_row(r)?;
        rows.push(row)?;
    }
    Ok(())
}
