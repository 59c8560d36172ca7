//! Why a text isn't read as a block.
use ps_model::OutOfMemory;
use std::error::Error;
use std::fmt;

/// Why a text isn't read as a block.
#[derive(Clone, Copy, Debug, PartialEq, Eq)]
pub enum BlockError {
    /// The first to be told, whatever follows: line 1, with or without its newline, is `precision`
    /// and a number without leading zeros that isn't permitted in the ring. It carries the number,
    /// and 4096 for each above 4095.
    NotPermitted { precision: u32 },
    /// Else, where the text is no block's: its first line that has no lawful form at its place,
    /// counted from 1. So is a line that lacks its newline, one behind the block's last, and, where
    /// the text ends early, the one that would follow.
    NotABlock { line: u32 },
    /// Memory could not be had. It may come at any time.
    OutOfMemory,
}

impl fmt::Display for BlockError {
    ghost use Rattle.std.specs.Prelude.{Some};
    ghost use Rattle.printer.specs.ReadErrors.{error_text};

    ghost output = { λ e. Some (error_text e) };

    fn fmt<W: fmt::Write>(&self, f: &mut fmt::Formatter<W>) -> fmt::Result {
        match self {
            BlockError::NotPermitted { precision } => write!(
                f,
                "precision {precision} not permitted"
            ),
            BlockError::NotABlock { line } => write!(f, "line {line}: not that of a block"),
            BlockError::OutOfMemory => write!(f, "out of memory"),
        }
    }
}

impl Error for BlockError {}

impl From<OutOfMemory> for BlockError {
    ghost use Rattle.std.specs.Prelude.{◌≡◌};
    ghost use Rattle.printer.specs.declared.block_error.BlockError.TheVariants.{OutOfMemory as NoMemory};

    ghost from_gives = { λ _ e. e ≡ NoMemory };

    fn from(_: OutOfMemory) -> BlockError {
        BlockError::OutOfMemory
    }
}
