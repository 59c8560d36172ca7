//! Scripts, line by line: the job of the header, and then the requests.
ghost use Rattle.std.specs.Prelude.{◌≡◌, ℕ, ◌<◌, ◌≤◌, length, [], false, IfOk, IfSome};
ghost use Rattle.ps_model.specs.AcceptedJob.{IsAccepted};
ghost use Rattle.script.specs.Sayings.{CanBeFactored};
ghost use Rattle.commands.specs.declared.command.ScriptCommand.{ScriptCommand as CommandOf};
ghost use Rattle.commands.specs.Lines.{AnswersLine};
ghost use Rattle.commands.specs.Progress.{AsksLine, Begins, IsNext};
ghost use Rattle.commands.specs.Readings.{Begun, reads};
ghost use Rattle.commands.specs.Words.{takes_streams as may_ask};

use crate::command::ScriptCommand;
use crate::refusing::{refuse_end, refuse_line};
use crate::stop::Stop;
use intake::Job;
use parts::Ring;
use ports::{Lines, NextLine, Sink, Source};
use script::{Header, Refusal, Refused, Request, Said, is_skipped, request_of};
use std::alloc::Global;

/// The most bytes of a line of a script.
pub(crate) const LONGEST_LINE: usize = 65536;

/// Reads the header of a script from its first line on, and answers the job.
pub(crate) fn read_job<S: Source, K: Sink>(
    alloc: Global,
    command: ScriptCommand,
    lines: &mut Lines,
    source: &mut S,
    sink: &mut K,
) -> Result<Job, Stop>
    requires pulled { lines.old.pulled ≡ [] }
    requires place { lines.old.place ≡ 0 }
    requires ended { lines.old.ended ≡ false }
    requires number { lines.old.number ≡ 0 }
    ensures accepted { IfOk result (λ job. IsAccepted job.job) }
    ensures names { IfOk result (λ job. length job.names ≡ job.job.n) }
    ensures begins { (tally : ℕ) → Begins command lines.new result (S.left source.old) (S.left source.new)
        (S.faults source.old) (S.faults source.new) (K.written sink.old) (K.written sink.new)
        (K.faults sink.old) (K.faults sink.new) tally }
    ensures source_faults { S.faults source.old ≤ S.faults source.new }
    ensures sink_faults { K.faults sink.old ≤ K.faults sink.new }
{
    let mut header = Header::new(alloc);
    loop {
        match lines.next(source) {
            NextLine::Line => {
                match read_header(alloc, header, lines.text(), lines.number(), sink)? {
                    Said::Longer(longer) => header = longer,
                    Said::Makes(job) => return Ok(job),
                }
            }
            NextLine::InputTooLong => {
                return Err(refuse_line(alloc, sink, lines.number() + 1, Refusal::InputTooLong));
            }
            NextLine::End => {
                return Err(refuse_end(alloc, sink, Refusal::Expected(header.due())));
            }
            NextLine::Failed => return Err(Stop::ReadFault),
        }
    }
}

/// Reads a line of the header, which has this number.
fn read_header<K: Sink>(
    alloc: Global,
    header: Header,
    line: &[u8],
    number: u32,
    sink: &mut K,
) -> Result<Said, Stop>
    ensures answers { (command : CommandOf) (tally : ℕ) → AnswersLine command (Begun header) line.now number
        (reads command result) (K.written sink.old) (K.written sink.new) (K.faults sink.old)
        (K.faults sink.new) tally tally }
    ensures accepted { IfOk result CanBeFactored }
{
    if line.len() > LONGEST_LINE {
        return Err(refuse_line(alloc, sink, number, Refusal::LineTooLong));
    }
    if is_skipped(line) {
        return Ok(Said::Longer(header));
    }
    match header.read(line) {
        Ok(said) => Ok(said),
        Err(Refused::Line(refusal)) => Err(refuse_line(alloc, sink, number, refusal)),
        Err(Refused::OutOfMemory) => Err(Stop::OutOfMemory),
    }
}

/// The next request of a script whose header is read, None where the input ends. It pulls no line
/// behind the request that it answers.
pub(crate) fn next_request<S: Source, K: Sink>(
    alloc: Global,
    command: ScriptCommand,
    ring: Ring,
    lines: &mut Lines,
    source: &mut S,
    sink: &mut K,
) -> Result<Option<Request>, Stop>
    requires { lines.old.number ≤ lines.old.place }
    ensures next { IsNext command ring lines.old lines.new result (S.left source.old) (S.left source.new)
        (S.faults source.old) (S.faults source.new) (K.written sink.old) (K.written sink.new)
        (K.faults sink.old) (K.faults sink.new) }
    ensures onward { IfOk result (λ asked. IfSome asked (λ _. (lines.old.place < lines.new.place)
        × (lines.new.place ≤ 1048576))) }
{
    loop {
        match lines.next(source) {
            NextLine::Line => {
                match read_request(alloc, command, ring, lines.text(), lines.number(), sink)? {
                    Some(request) => return Ok(Some(request)),
                    None => {}
                }
            }
            NextLine::InputTooLong => {
                return Err(refuse_line(alloc, sink, lines.number() + 1, Refusal::InputTooLong));
            }
            NextLine::End => return Ok(None),
            NextLine::Failed => return Err(Stop::ReadFault),
        }
    }
}

/// What a line behind the header asks for, which has this number; None of one that says nothing.
fn read_request<K: Sink>(
    alloc: Global,
    command: ScriptCommand,
    ring: Ring,
    line: &[u8],
    number: u32,
    sink: &mut K,
) -> Result<Option<Request>, Stop>
    ensures { AsksLine command ring line.now number result (K.written sink.old) (K.written sink.new)
        (K.faults sink.old) (K.faults sink.new) }
{
    if line.len() > LONGEST_LINE {
        return Err(refuse_line(alloc, sink, number, Refusal::LineTooLong));
    }
    if is_skipped(line) {
        return Ok(None);
    }
    match request_of(ring, takes_streams(command), line) {
        Ok(request) => Ok(Some(request)),
        Err(refusal) => Err(refuse_line(alloc, sink, number, refusal)),
    }
}

/// Whether a script of the command may ask for streams.
fn takes_streams(command: ScriptCommand) -> bool
    ensures { result ≡ may_ask command }
{
    match command {
        ScriptCommand::Factor => true,
        ScriptCommand::Expand => false,
    }
}
