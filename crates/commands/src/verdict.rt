//! What `check` says of a block.
ghost use Rattle.std.specs.Prelude.{◌≡◌, IfOk, Some, string_bytes};
ghost use Rattle.comparison.specs.declared.place.Place.TheVariants.{Factor};
ghost use Rattle.commands.specs.Judging.{verdict_text};
ghost use Rattle.commands.specs.Telling.{TellsVerdict};

use crate::stop::Stop;
use comparison::Place;
use ports::{Sink, put_all};
use std::alloc::{AllocError, Global};

/// Whether the block is the job's.
#[derive(Clone, Copy, Debug, PartialEq, Eq)]
pub enum Verdict {
    /// Its lead and its factors are the job's.
    Right,
    /// They differ, and the line that says where they do first is written.
    Wrong,
}

impl Verdict {
    ghost use Rattle.std.specs.Prelude.{◌≡◌};
    ghost use Rattle.commands.specs.Statuses.{status_by};

    /// The status of the program.
    pub fn status(self) -> u8
        ensures { result ≡ status_by self }
    {
        match self {
            Verdict::Right => 0,
            Verdict::Wrong => 6,
        }
    }
}

/// Writes whether a block is right, or where it first differs from the job's.
pub fn write_verdict<K: Sink>(
    alloc: Global,
    sink: &mut K,
    place: Option<Place>,
) -> Result<Verdict, Stop>
    ensures { TellsVerdict place result (K.written sink.old) (K.written sink.new) (K.faults sink.old)
        (K.faults sink.new) }
{
    let line = verdict_line(alloc, place)?;
    put_all(sink, line.as_bytes())?;
    match place {
        None => Ok(Verdict::Right),
        Some(_) => Ok(Verdict::Wrong),
    }
}

/// The line that says it.
fn verdict_line(alloc: Global, place: Option<Place>) -> Result<String, AllocError>
    ensures { IfOk result (λ line. string_bytes line ≡ verdict_text place) }
{
    match place {
        None => format!(in alloc; "right\n"),
        Some(Place::Lead { degree }) => format!(in alloc; "wrong lead degree {degree}\n"),
        Some(
            Place::Factor {
                number,
                power,
                degree,
            },
        ) => factor_line(alloc, number, power, degree),
    }
}

/// The line that says it of a factor.
fn factor_line(alloc: Global, number: u32, power: u32, degree: u32) -> Result<String, AllocError>
    ensures { IfOk result (λ line.
        string_bytes line ≡ verdict_text (Some (Factor number power degree))) }
{
    format!(in alloc; "wrong factor {number} power {power} degree {degree}\n")
}
