//! Why an input is refused.
use ps_model::OutOfMemory;
use std::error::Error;
use std::fmt;

/// Why an input is refused, in the order in which it is found out. A count that is greater than the
/// greatest `u32` is told as that.
#[derive(Clone, Copy, Debug, PartialEq, Eq)]
pub enum FreeError {
    /// The divisor of a division contains Y; the least such division, counted from 1.
    DividesByY { division: u32 },
    /// The graph of the tree would have so many nodes, more than 4,096.
    TooManyNodes { count: u32 },
    /// The formal degree in Y is above 32.
    DegreeTooLarge { degree: u32 },
    /// A divisor's value at the origin has no inverse: the least such division, that value, and its
    /// greatest common divisor with the modulus.
    NotAUnit { division: u32, value: u64, gcd: u64 },
    /// Memory could not be had.
    OutOfMemory,
}

impl fmt::Display for FreeError {
    ghost use Rattle.std.specs.Prelude.{Some};
    ghost use Rattle.intake.specs.InputErrors.{error_text};

    ghost output = { λ e. Some (error_text e) };

    fn fmt<W: fmt::Write>(&self, f: &mut fmt::Formatter<W>) -> fmt::Result {
        match self {
            FreeError::DividesByY { division } => write!(f, "division {division} by Y"),
            FreeError::TooManyNodes { count } => write!(f, "{count} nodes, limit 4096"),
            FreeError::DegreeTooLarge { degree } => write!(f, "degree {degree}, limit 32"),
            FreeError::NotAUnit {
                division,
                value,
                gcd,
            } => { write!(f, "division {division}: {value} has no inverse, gcd {gcd}") }
            FreeError::OutOfMemory => write!(f, "out of memory"),
        }
    }
}

impl Error for FreeError {}

impl From<OutOfMemory> for FreeError {
    ghost use Rattle.std.specs.Prelude.{◌≡◌};
    ghost use Rattle.intake.specs.declared.free_error.FreeError.TheVariants.{OutOfMemory as NoMemory};

    ghost from_gives = { λ _ e. e ≡ NoMemory };

    fn from(_: OutOfMemory) -> FreeError {
        FreeError::OutOfMemory
    }
}
