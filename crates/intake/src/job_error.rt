//! Why a job is refused.
use crate::free_error::FreeError;
use ps_model::OutOfMemory;
use std::error::Error;
use std::fmt;

/// Why a job is refused, in the order in which it is found out. The first four are those of an
/// input without roots. A count that is greater than the greatest `u32` is told as that.
#[derive(Clone, Copy, Debug, PartialEq, Eq)]
pub enum JobError {
    /// The divisor of a division contains Y; the least such division, counted from 1.
    DividesByY {
        division: u32,
    },
    /// The graph of the tree would have so many nodes, more than 4,096.
    TooManyNodes {
        count: u32,
    },
    /// The formal degree in Y is above 32.
    DegreeTooLarge {
        degree: u32,
    },
    /// A divisor's value at the origin has no inverse: the least such division, that value, and its
    /// greatest common divisor with the modulus.
    NotAUnit {
        division: u32,
        value: u64,
        gcd: u64,
    },
    /// The constant term of the leading coefficient has no inverse: that term, and its greatest
    /// common divisor with the modulus.
    LeadNotAUnit {
        value: u64,
        gcd: u64,
    },
    /// The multiplicities don't add to the formal degree: that degree, and their sum.
    DegreeMismatch {
        degree: u32,
        sum: u32,
    },
    /// The difference of two roots has no inverse: the first such pair, counted from 1, the
    /// difference, and its greatest common divisor with the modulus.
    NotApart {
        first: u32,
        second: u32,
        difference: u64,
        gcd: u64,
    },
    /// The input at the origin isn't what the roots give: the least such power of Y, the input's
    /// coefficient there, and that of the leading coefficient's constant term times the product of
    /// the root powers.
    RootsMismatch {
        power: u32,
        input: u64,
        roots: u64,
    },
    /// Memory could not be had.
    OutOfMemory,
}

impl fmt::Display for JobError {
    ghost use Rattle.std.specs.Prelude.{Some};
    ghost use Rattle.intake.specs.JobErrors.{job_error_text};

    ghost output = { λ e. Some (job_error_text e) };

    fn fmt<W: fmt::Write>(&self, f: &mut fmt::Formatter<W>) -> fmt::Result {
        match self {
            JobError::DividesByY { division } => write!(f, "division {division} by Y"),
            JobError::TooManyNodes { count } => write!(f, "{count} nodes, limit 4096"),
            JobError::DegreeTooLarge { degree } => write!(f, "degree {degree}, limit 32"),
            JobError::NotAUnit {
                division,
                value,
                gcd,
            } => { write!(f, "division {division}: {value} has no inverse, gcd {gcd}") }
            JobError::LeadNotAUnit { value, gcd } => {
                write!(f, "leading coefficient {value} has no inverse, gcd {gcd}")
            }
            JobError::DegreeMismatch { degree, sum } => {
                write!(f, "degree {degree}, roots give {sum}")
            }
            JobError::NotApart {
                first,
                second,
                difference,
                gcd,
            } => {
                write!(
                    f,
                    "roots {first} and {second}: difference {difference} has no inverse, gcd {gcd}"
                )
            }
            JobError::RootsMismatch {
                power,
                input,
                roots,
            } => { write!(f, "power {power}: input {input}, roots {roots}") }
            JobError::OutOfMemory => write!(f, "out of memory"),
        }
    }
}

impl Error for JobError {}

impl From<OutOfMemory> for JobError {
    ghost use Rattle.std.specs.Prelude.{◌≡◌};
    ghost use Rattle.intake.specs.declared.job_error.JobError.TheVariants.{OutOfMemory as NoMemory};

    ghost from_gives = { λ _ e. e ≡ NoMemory };

    fn from(_: OutOfMemory) -> JobError {
        JobError::OutOfMemory
    }
}

impl From<FreeError> for JobError {
    ghost use Rattle.std.specs.Prelude.{◌≡◌};
    ghost use Rattle.intake.specs.JobErrors.{of_input};

    ghost from_gives = { λ error e. e ≡ of_input error };

    fn from(error: FreeError) -> JobError {
        match error {
            FreeError::DividesByY { division } => JobError::DividesByY { division },
            FreeError::TooManyNodes { count } => JobError::TooManyNodes { count },
            FreeError::DegreeTooLarge { degree } => JobError::DegreeTooLarge { degree },
            FreeError::NotAUnit {
                division,
                value,
                gcd,
            } => JobError::NotAUnit {
                division,
                value,
                gcd,
            },
            FreeError::OutOfMemory => JobError::OutOfMemory,
        }
    }
}
