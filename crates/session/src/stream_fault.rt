//! Why a stream stops.
use ports::WriteFault;
use ps_model::OutOfMemory;
use std::alloc::AllocError;

/// Why a stream wasn't written to its end.
#[derive(Clone, Copy, Debug, PartialEq, Eq)]
pub enum StreamFault {
    /// The sink failed.
    Write,
    /// Memory was refused.
    OutOfMemory,
}

impl From<WriteFault> for StreamFault {
    ghost use Rattle.std.specs.Prelude.{◌≡◌};
    ghost use Rattle.session.specs.declared.stream_fault.StreamFault.TheVariants.{Write};

    ghost from_gives = { λ _ e. e ≡ Write };

    fn from(_: WriteFault) -> StreamFault {
        StreamFault::Write
    }
}

impl From<OutOfMemory> for StreamFault {
    ghost use Rattle.std.specs.Prelude.{◌≡◌};
    ghost use Rattle.session.specs.declared.stream_fault.StreamFault.TheVariants.{OutOfMemory as NoMemory};

    ghost from_gives = { λ _ e. e ≡ NoMemory };

    fn from(_: OutOfMemory) -> StreamFault {
        StreamFault::OutOfMemory
    }
}

impl From<AllocError> for StreamFault {
    ghost use Rattle.std.specs.Prelude.{◌≡◌};
    ghost use Rattle.session.specs.declared.stream_fault.StreamFault.TheVariants.{OutOfMemory as NoMemory};

    ghost from_gives = { λ _ e. e ≡ NoMemory };

    fn from(_: AllocError) -> StreamFault {
        StreamFault::OutOfMemory
    }
}
