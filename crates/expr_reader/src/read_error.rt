//! Why no expression was read.
use std::alloc::AllocError;
use std::error::Error;
use std::fmt;

/// Why no expression was read. The place is that of the first byte of the first token that fails a
/// test, counted from 0; the order is that of the tests of a token.
#[derive(Clone, Copy, Debug, PartialEq, Eq)]
pub enum ReadError {
    /// 1: the byte begins no token.
    BadCharacter { place: u32 },

    /// 2: the grammar allows no such token here; at the end of the text, where it needs more, the
    /// place is the length of the text without blanks at its end.
    Expected { place: u32 },

    /// 3: a name that is neither `Y` nor one of the names.
    UnknownName { place: u32 },

    /// 4: a number outside an exponent above 18446744073709551615.
    NumberTooLarge { place: u32 },

    /// 5: an exponent above 255.
    ExponentTooLarge { place: u32 },

    /// 6: the 65th open parenthesis.
    TooDeep { place: u32 },

    /// Memory could not be had.
    OutOfMemory,
}

impl fmt::Display for ReadError {
    fn fmt<W: fmt::Write>(&self, f: &mut fmt::Formatter<W>) -> fmt::Result {
        match self {
            ReadError::BadCharacter { place } => write!(f, "bad character at {place}"),
            ReadError::Expected { place } => write!(f, "unexpected token at {place}"),
            ReadError::UnknownName { place } => write!(f, "unknown name at {place}"),
            ReadError::NumberTooLarge { place } => write!(f, "number too large at {place}"),
            ReadError::ExponentTooLarge { place } => write!(f, "exponent too large at {place}"),
            ReadError::TooDeep { place } => write!(f, "too deep at {place}"),
            ReadError::OutOfMemory => write!(f, "out of memory"),
        }
    }
}

impl Error for ReadError {}

impl From<AllocError> for ReadError {
    ghost use Rattle.std.specs.Prelude.{◌≡◌};
    ghost use Rattle.expr_reader.specs.declared.read_error.ReadError.TheVariants.{OutOfMemory};

    ghost from_gives = { λ _ e. e ≡ OutOfMemory };

    fn from(_: AllocError) -> ReadError {
        ReadError::OutOfMemory
    }
}
