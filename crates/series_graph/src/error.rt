//! Why a node can't be made.
use ps_model::OutOfMemory;
use std::error::Error;
use std::fmt;

/// Why a node can't be made, in the order in which it is found out.
#[derive(Clone, Copy, Debug, PartialEq, Eq)]
pub enum GraphError {
    /// The graph has 65,536 nodes.
    Full,
    /// The divisor's constant term has no inverse: that term, and its greatest common divisor with
    /// the modulus.
    NotAUnit { value: u64, gcd: u64 },
    /// Memory could not be had.
    OutOfMemory,
}

impl fmt::Display for GraphError {
    ghost use Rattle.std.specs.Prelude.{Some};
    ghost use Rattle.series_graph.specs.ErrorText.{error_text};

    ghost output = { λ e. Some (error_text e) };

    fn fmt<W: fmt::Write>(&self, f: &mut fmt::Formatter<W>) -> fmt::Result {
        match self {
            GraphError::Full => write!(f, "graph is full"),
            GraphError::NotAUnit { value, gcd } => write!(f, "{value} has no inverse, gcd {gcd}"),
            GraphError::OutOfMemory => write!(f, "out of memory"),
        }
    }
}

impl Error for GraphError {}

impl From<OutOfMemory> for GraphError {
    ghost use Rattle.std.specs.Prelude.{◌≡◌};
    ghost use Rattle.series_graph.specs.declared.error.GraphError.TheVariants.{OutOfMemory as NoMemory};

    ghost from_gives = { λ _ e. e ≡ NoMemory };

    fn from(_: OutOfMemory) -> GraphError {
        GraphError::OutOfMemory
    }
}
