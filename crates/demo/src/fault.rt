//! Why a demonstration ends before its text does.
use ports::WriteFault;
use ps_model::OutOfMemory;
use std::error::Error;
use std::fmt;

/// Why a demonstration isn't written whole.
#[derive(Clone, Copy, Debug, PartialEq, Eq)]
pub enum DemoFault {
    /// The sink failed: a beginning of the text is written at most.
    Write,
    /// Memory could not be had: nothing is written.
    OutOfMemory,
}

impl fmt::Display for DemoFault {
    ghost use Rattle.std.specs.Prelude.{Some};
    ghost use Rattle.demo.specs.Faults.{fault_text};

    ghost output = { λ fault. Some (fault_text fault) };

    fn fmt<W: fmt::Write>(&self, f: &mut fmt::Formatter<W>) -> fmt::Result {
        match self {
            DemoFault::Write => write!(f, "write failed"),
            DemoFault::OutOfMemory => write!(f, "out of memory"),
        }
    }
}

impl Error for DemoFault {}

impl From<WriteFault> for DemoFault {
    ghost use Rattle.std.specs.Prelude.{◌≡◌};
    ghost use Rattle.demo.specs.declared.fault.DemoFault.TheVariants.{Write};

    ghost from_gives = { λ _ e. e ≡ Write };

    fn from(_: WriteFault) -> DemoFault {
        DemoFault::Write
    }
}

impl From<OutOfMemory> for DemoFault {
    ghost use Rattle.std.specs.Prelude.{◌≡◌};
    ghost use Rattle.demo.specs.declared.fault.DemoFault.TheVariants.{OutOfMemory as NoMemory};

    ghost from_gives = { λ _ e. e ≡ NoMemory };

    fn from(_: OutOfMemory) -> DemoFault {
        DemoFault::OutOfMemory
    }
}
