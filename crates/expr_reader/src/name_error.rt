//! Why a name isn't added to a list.
use std::alloc::{AllocError, AllocFailed};
use std::error::Error;
use std::fmt;

/// Why a name isn't added to a list of names. The order is that of the tests: of two causes the
/// first is told.
#[derive(Clone, Copy, Debug, PartialEq, Eq)]
pub enum NameError {
    /// 1: eight names are there.
    TooMany,

    /// 2: the text is no name. A name is a letter of ASCII, then letters, digits or `_`, has at most
    /// 16 bytes, and isn't `Y`.
    BadName,

    /// 3: the same name is there, at the position `first`, counted from 0.
    Repeats { first: u32 },

    /// 4: memory could not be had for a name that has none of these faults.
    OutOfMemory,
}

impl fmt::Display for NameError {
    ghost use Rattle.std.specs.Prelude.{Some};
    ghost use Rattle.expr_reader.specs.NameFaults.{name_error_text};

    ghost output = { λ e. Some (name_error_text e) };

    fn fmt<W: fmt::Write>(&self, f: &mut fmt::Formatter<W>) -> fmt::Result {
        match self {
            NameError::TooMany => write!(f, "too many names"),
            NameError::BadName => write!(f, "bad name"),
            NameError::Repeats { first } => write!(f, "repeats the name at position {first}"),
            NameError::OutOfMemory => write!(f, "out of memory"),
        }
    }
}

impl Error for NameError {}

impl From<AllocError> for NameError {
    ghost use Rattle.std.specs.Prelude.{◌≡◌};
    ghost use Rattle.expr_reader.specs.declared.name_error.NameError.TheVariants.{OutOfMemory};

    ghost from_gives = { λ _ e. e ≡ OutOfMemory };

    fn from(_: AllocError) -> NameError {
        NameError::OutOfMemory
    }
}

impl<T: Drop> From<AllocFailed<T>> for NameError {
    ghost use Rattle.std.specs.Prelude.{◌≡◌};
    ghost use Rattle.expr_reader.specs.declared.name_error.NameError.TheVariants.{OutOfMemory};

    ghost from_gives = { λ _ e. e ≡ OutOfMemory };

    fn from(_: AllocFailed<T>) -> NameError {
        NameError::OutOfMemory
    }
}
