//! Requests: the lines behind a header.
ghost use Rattle.std.specs.Prelude.{◌≡◌};
ghost use Rattle.parts.specs.Rings.{weights_of};
ghost use Rattle.script.specs.Requests.{precision_in, request_said, said_by};
ghost use Rattle.script.specs.Words.{words};

use crate::refusal::Refusal;
use crate::words::{first_word, number};
use parts::{Ring, monomials};

/// What a line behind the header asks for, up to a degree.
#[derive(Clone, Copy, Debug, PartialEq, Eq)]
pub enum Request {
    /// A block of factors, or of the input.
    Show { precision: u32 },
    /// The factors' terms, degree by degree.
    Stream { precision: u32 },
}

/// What a line asks for that isn't one to be skipped; `streams` tells whether streams may be asked
/// for. It takes no memory.
pub fn request_of(ring: Ring, streams: bool, line: &[u8]) -> Result<Request, Refusal>
    ensures { said_by result ≡ request_said streams (weights_of ring) line.now }
{
    let Some((word, rest)) = first_word(line) else {
        return Err(Refusal::ExpectedRequest);
    };
    if word == b"show".as_slice() {
        return Ok(Request::Show {
            precision: precision_of(ring, rest)?,
        });
    }
    if streams && word == b"stream".as_slice() {
        return Ok(Request::Stream {
            precision: precision_of(ring, rest)?,
        });
    }
    Err(Refusal::ExpectedRequest)
}

/// The precision of the words behind a request's keyword.
fn precision_of(ring: Ring, text: &[u8]) -> Result<u32, Refusal>
    ensures { result ≡ precision_in (weights_of ring) (words text.now) }
{
    let Some((word, rest)) = first_word(text) else {
        return Err(Refusal::BadRequest);
    };
    if first_word(rest).is_some() {
        return Err(Refusal::BadRequest);
    }
    let Some(d) = number(word) else {
        return Err(Refusal::BadRequest);
    };
    if d > 4095 {
        return Err(Refusal::PrecisionTooLarge);
    }
    let precision = d as u32;
    let count = monomials(ring, precision);
    if count > 32768 {
        return Err(Refusal::TooManyMonomials { precision, count });
    }
    Ok(precision)
}
