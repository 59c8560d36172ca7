//! Why a preparation can't begin.
use ps_model::OutOfMemory;
use std::error::Error;
use std::fmt;

/// Why a preparation can't begin, in the order in which it is found out.
#[derive(Clone, Copy, Debug, PartialEq, Eq)]
pub enum PrepError {
    /// A part below Y^k isn't zero; the least such power of Y.
    NotPrepared { power: u32 },
    /// The constant term at Y^k has no inverse; its greatest common divisor with the modulus.
    NotAUnit { gcd: u64 },
    /// Memory could not be had.
    OutOfMemory,
}

impl fmt::Display for PrepError {
    ghost use Rattle.std.specs.Prelude.{Some};
    ghost use Rattle.prepare.specs.ErrorText.{error_text};

    ghost output = { λ e. Some (error_text e) };

    fn fmt<W: fmt::Write>(&self, f: &mut fmt::Formatter<W>) -> fmt::Result {
        match self {
            PrepError::NotPrepared { power } => write!(f, "not zero at Y^{power}"),
            PrepError::NotAUnit { gcd } => write!(f, "not a unit: common divisor {gcd}"),
            PrepError::OutOfMemory => write!(f, "out of memory"),
        }
    }
}

impl Error for PrepError {}

impl From<OutOfMemory> for PrepError {
    ghost use Rattle.std.specs.Prelude.{◌≡◌};
    ghost use Rattle.prepare.specs.declared.error.PrepError.TheVariants.{OutOfMemory as NoMemory};

    ghost from_gives = { λ _ e. e ≡ NoMemory };

    fn from(_: OutOfMemory) -> PrepError {
        PrepError::OutOfMemory
    }
}
