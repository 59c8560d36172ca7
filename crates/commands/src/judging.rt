//! Blocks that are judged, when all their lines are there.
ghost use Rattle.std.specs.Prelude.{◌≡◌, ◌^◌, ◌<◌, ◌≤◌, ℕ, List, length, Err, MatchOption};
ghost use Rattle.ps_model.specs.AcceptedJob.{IsAccepted};
ghost use Rattle.parts.specs.JobRows.{IsPermitted};
ghost use Rattle.parts.specs.Rings.{weights_of};
ghost use Rattle.printer.specs.declared.block_error.BlockError.TheVariants.{NotPermitted, OutOfMemory as NoMemory};
ghost use Rattle.script.specs.Checking.{Reads};
ghost use Rattle.script.specs.Requests.{degree_in};
ghost use Rattle.commands.specs.Checks.{IsTold, Ends, IsTooLong};
ghost use Rattle.commands.specs.Judging.{Tells as TellsAt};
ghost use Rattle.commands.specs.Judged.{IsBlockOf, IsBlockBy, IsReadOf, RefusesBlock, behind_of};
ghost use Rattle.commands.specs.Statuses.{status_of};
ghost use Rattle.commands.specs.Telling.{Tells, check_status};

use crate::refusing::{refuse_end, refuse_line};
use crate::stop::Stop;
use crate::verdict::{Verdict, write_verdict};
use comparison::first_difference;
use intake::Job;
use parts::{Ring, monomials};
use ports::Sink;
use prepare::Tally;
use printer::{Block, BlockError, read_block};
use script::Refusal;
use session::Session;
use std::alloc::Global;

/// The lines of a block of a job.
#[derive(Drop)]
pub struct Collected {
    pub job: Job,
    /// The number of the line `block`.
    pub first: u32,
    /// The lines behind it, each with a newline.
    pub text: Vec<u8>,
}

/// How an input goes on behind a block's lines.
#[derive(Clone, Copy)]
enum Behind {
    /// It ends.
    End,
    /// The next line needs byte 1,048,577.
    TooLong,
}

impl Collected {
    /// Judges the block at the end of the input, where line `next` would be next.
    ///
    /// Where it is one of the job, the job's factors are raised to its precision, each degree of
    /// which ticks once, of each root.
    pub fn judge<K: Sink>(
        self,
        alloc: Global,
        next: u32,
        sink: &mut K,
        tally: &mut Tally,
    ) -> Result<Verdict, Stop>
        requires accepted { IsAccepted self.job.job }
        requires names { length self.job.names ≡ self.job.job.n }
        requires short { length self.text.items ≤ 1048577 }
        requires behind { self.first < next }
        requires tally { tally.old ≤ 2 ^ 61 }
        ensures { Tells (IsTold (Reads self.job.names self.job.job self.first self.text.items) next Ends)
            (check_status result) (K.written sink.old) (K.written sink.new) (K.faults sink.old)
            (K.faults sink.new) tally.old tally.new }
    {
        match self.read(alloc) {
            Ok(block) => compare(alloc, self.job, &block, sink, tally),
            Err(error) => Err(refuse_block(
                alloc,
                sink,
                self.job.ring(),
                error,
                self.first,
                next,
                Behind::End,
            )),
        }
    }

    /// Refuses the script, of which line `next` is too long: at an earlier line, where one of the
    /// block's is not lawful.
    pub fn too_long<K: Sink>(self, alloc: Global, next: u32, sink: &mut K) -> Stop
        requires accepted { IsAccepted self.job.job }
        requires names { length self.job.names ≡ self.job.job.n }
        requires short { length self.text.items ≤ 1048577 }
        requires behind { self.first < next }
        ensures { (tally : ℕ) → Tells
            (IsTold (Reads self.job.names self.job.job self.first self.text.items) next IsTooLong)
            (status_of result) (K.written sink.old) (K.written sink.new) (K.faults sink.old)
            (K.faults sink.new) tally tally }
    {
        match self.read(alloc) {
            Ok(_) => refuse_line(alloc, sink, next, Refusal::InputTooLong),
            Err(error) => refuse_block(
                alloc,
                sink,
                self.job.ring(),
                error,
                self.first,
                next,
                Behind::TooLong,
            ),
        }
    }

    /// Reads the block.
    fn read(&self, alloc: Global) -> Result<Block, BlockError>
        requires names { length self.now.job.names ≡ self.now.job.job.n }
        requires short { length self.now.text.items ≤ 1048577 }
        ensures { IsReadOf self.now.job.names self.now.job.job self.now.text.items result }
    {
        let job = &self.job;
        // that there are as many names tells the proof that they are names
        let _names = job.names().len();
        read_block(
            alloc,
            job.names(),
            job.ring(),
            job.has_lead(),
            job.data().roots.as_slice(),
            self.text.as_slice(),
        )
    }
}

/// Refuses the script for a block that isn't read: at the line that tells why, where that is one of
/// the block's, and else where the block ends.
fn refuse_block<K: Sink>(
    alloc: Global,
    sink: &mut K,
    ring: Ring,
    error: BlockError,
    first: u32,
    next: u32,
    behind: Behind,
) -> Stop
    requires permitted { (p : ℕ) → error ≡ NotPermitted p → IsPermitted (weights_of ring) p → ⊥ }
    requires behind { first < next }
    ensures { RefusesBlock (weights_of ring) error first next (behind_of behind) result
        (K.written sink.old) (K.written sink.new) (K.faults sink.old) (K.faults sink.new) }
{
    let Some((line, refusal)) = refused_at(ring, error) else {
        return Stop::OutOfMemory;
    };
    if line < next - first {
        return refuse_line(alloc, sink, first + line, refusal);
    }
    match behind {
        Behind::End => refuse_end(alloc, sink, refusal),
        Behind::TooLong => refuse_line(alloc, sink, next, Refusal::InputTooLong),
    }
}

/// The line of a block that is refused for an error, counted from 1, and what is told of it; None
/// where memory ran out.
fn refused_at(ring: Ring, error: BlockError) -> Option<(u32, Refusal)>
    requires { (p : ℕ) → error ≡ NotPermitted p → IsPermitted (weights_of ring) p → ⊥ }
    ensures { MatchOption result (error ≡ NoMemory) (λ at. TellsAt (weights_of ring) error at.0 at.1) }
{
    match error {
        BlockError::NotPermitted { precision } => Some((1, not_permitted(ring, precision))),
        BlockError::NotABlock { line } => Some((line, Refusal::NotABlock)),
        BlockError::OutOfMemory => None,
    }
}

/// Why a precision isn't permitted.
fn not_permitted(ring: Ring, precision: u32) -> Refusal
    requires { IsPermitted (weights_of ring) precision → ⊥ }
    ensures { degree_in (weights_of ring) precision ≡ Err result }
{
    if precision > 4095 {
        return Refusal::PrecisionTooLarge;
    }
    Refusal::TooManyMonomials {
        precision,
        count: monomials(ring, precision),
    }
}

/// Says where a block first differs from the job's, which is raised to the block's precision.
fn compare<K: Sink>(
    alloc: Global,
    job: Job,
    block: &Block,
    sink: &mut K,
    tally: &mut Tally,
) -> Result<Verdict, Stop>
    requires accepted { IsAccepted job.job }
    requires names { length job.names ≡ job.job.n }
    requires read { IsBlockOf job.names job.job block.now.precision block.now.lead block.now.factors.items }
    requires tally { tally.old ≤ 2 ^ 61 }
    ensures { (text : List ℕ) (first next : ℕ)
        → IsBlockBy job.names job.job text block.now.precision block.now.lead block.now.factors.items
        → Tells (IsTold (Reads job.names job.job first text) next Ends) (check_status result)
        (K.written sink.old) (K.written sink.new) (K.faults sink.old) (K.faults sink.new) tally.old tally.new }
{
    let mut session = Session::open(alloc, job)?;
    session.raise(block.precision, tally)?;
    let place = first_difference(alloc, &session, block)?;
    write_verdict(alloc, sink, place)
}
