//! Scripts of `check`, line by line.
ghost use Rattle.std.specs.Prelude.{◌≡◌, ◌^◌, ◌≤◌, ℕ, List, Option};
ghost use Rattle.script.specs.Checking.{Begun as BegunWith};
ghost use Rattle.script.specs.Header.{Empty as NothingRead};
ghost use Rattle.commands.specs.Checks.{IsTold, Ends, IsTooLong};
ghost use Rattle.commands.specs.CheckLines.{ChecksLine, IsChecking, IsReady, state_in};
ghost use Rattle.commands.specs.Statuses.{status_of};
ghost use Rattle.commands.specs.Telling.{Tells, check_status};

use crate::judging::Collected;
use crate::reading::LONGEST_LINE;
use crate::refusing::{refuse_end, refuse_line};
use crate::stop::Stop;
use crate::verdict::Verdict;
use intake::Job;
use ports::Sink;
use prepare::Tally;
use script::{Header, Keyword, Refusal, Refused, Said, block_line, is_skipped};
use std::alloc::Global;

/// How far a script of `check` is read.
#[derive(Drop)]
pub enum Checking {
    /// The header so far.
    Begun(Header),
    /// The job of the whole header, of which the line `block` is due.
    Due(Job),
    /// The lines of the block so far.
    Block(Collected),
}

impl Checking {
    /// Nothing is read.
    pub fn new(alloc: Global) -> Checking
        ensures state { state_in result ≡ BegunWith NothingRead }
        ensures checking { IsChecking result }
    {
        Checking::Begun(Header::new(alloc))
    }

    /// Reads the next line, which has this number. Each line of the block is kept as it is.
    pub fn line<K: Sink>(
        self,
        alloc: Global,
        line: &[u8],
        number: u32,
        sink: &mut K,
    ) -> Result<Checking, Stop>
        requires { IsChecking self }
        ensures { ChecksLine self line.now number result (K.written sink.old) (K.written sink.new)
            (K.faults sink.old) (K.faults sink.new) }
    {
        match self {
            Checking::Begun(header) => read_header(alloc, header, line, number, sink),
            Checking::Due(job) => read_due(alloc, job, line, number, sink),
            Checking::Block(block) => collect(block, line),
        }
    }

    /// Refuses the script, of which the next line is too long: at an earlier line, where one of the
    /// block's is not lawful.
    pub fn too_long<K: Sink>(self, alloc: Global, next: u32, sink: &mut K) -> Stop
        requires { IsReady self next }
        ensures { (tally : ℕ) → Tells (IsTold (state_in self) next IsTooLong) (status_of result)
            (K.written sink.old) (K.written sink.new) (K.faults sink.old) (K.faults sink.new) tally tally }
    {
        match self {
            Checking::Begun(_) => refuse_line(alloc, sink, next, Refusal::InputTooLong),
            Checking::Due(_) => refuse_line(alloc, sink, next, Refusal::InputTooLong),
            Checking::Block(block) => block.too_long(alloc, next, sink),
        }
    }

    /// What is told where the input ends, and line `next` would be next.
    pub fn end<K: Sink>(
        self,
        alloc: Global,
        next: u32,
        sink: &mut K,
        tally: &mut Tally,
    ) -> Result<Verdict, Stop>
        requires ready { IsReady self next }
        requires tally { tally.old ≤ 2 ^ 61 }
        ensures { Tells (IsTold (state_in self) next Ends) (check_status result) (K.written sink.old)
            (K.written sink.new) (K.faults sink.old) (K.faults sink.new) tally.old tally.new }
    {
        match self {
            Checking::Begun(header) => {
                Err(refuse_end(alloc, sink, Refusal::Expected(header.due())))
            }
            Checking::Due(_) => Err(refuse_end(alloc, sink, Refusal::Expected(Keyword::Block))),
            Checking::Block(block) => block.judge(alloc, next, sink, tally),
        }
    }
}

/// Reads a line of the header.
fn read_header<K: Sink>(
    alloc: Global,
    header: Header,
    line: &[u8],
    number: u32,
    sink: &mut K,
) -> Result<Checking, Stop>
    ensures { ChecksLine (Checking.Begun header) line.now number result (K.written sink.old)
        (K.written sink.new) (K.faults sink.old) (K.faults sink.new) }
{
    if line.len() > LONGEST_LINE {
        return Err(refuse_line(alloc, sink, number, Refusal::LineTooLong));
    }
    if is_skipped(line) {
        return Ok(Checking::Begun(header));
    }
    match header.read(line) {
        Ok(Said::Longer(header)) => Ok(Checking::Begun(header)),
        Ok(Said::Makes(job)) => Ok(Checking::Due(job)),
        Err(Refused::Line(refusal)) => Err(refuse_line(alloc, sink, number, refusal)),
        Err(Refused::OutOfMemory) => Err(Stop::OutOfMemory),
    }
}

/// Reads the line `block`, or one before it that says nothing.
fn read_due<K: Sink>(
    alloc: Global,
    job: Job,
    line: &[u8],
    number: u32,
    sink: &mut K,
) -> Result<Checking, Stop>
    requires { IsChecking (Checking.Due job) }
    ensures { ChecksLine (Checking.Due job) line.now number result (K.written sink.old)
        (K.written sink.new) (K.faults sink.old) (K.faults sink.new) }
{
    if line.len() > LONGEST_LINE {
        return Err(refuse_line(alloc, sink, number, Refusal::LineTooLong));
    }
    if is_skipped(line) {
        return Ok(Checking::Due(job));
    }
    match block_line(line) {
        Ok(()) => Ok(Checking::Block(Collected {
            job,
            first: number,
            text: Vec::new(alloc),
        })),
        Err(refusal) => Err(refuse_line(alloc, sink, number, refusal)),
    }
}

/// Keeps a line of the block.
fn collect(block: Collected, line: &[u8]) -> Result<Checking, Stop>
    requires { IsChecking (Checking.Block block) }
    ensures { (number : ℕ) (written : Option (List ℕ)) (faults : ℕ)
        → ChecksLine (Checking.Block block) line.now number result written written faults faults }
{
    let Collected {
        job,
        first,
        mut text,
    } = block;
    text.extend_from_slice(line)?;
    text.push(b'\n')?;
    Ok(Checking::Block(Collected { job, first, text }))
}
