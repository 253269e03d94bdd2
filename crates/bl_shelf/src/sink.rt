// Where lines go.
ghost use Rattle.std.specs.Prelude.{◌≡◌, List, ℕ, Option, OnOk, IsErrOf};
ghost use Rattle.bl_shelf.specs.Causes.{HasSinkCause};
ghost use Rattle.bl_shelf.specs.Written.{Grows, GrowsByPrefix};
ghost use Rattle.bl_shelf.specs.declared.sink.SinkFault.TheVariants.{NoMemory};

use std::alloc::{AllocError, AllocFailed};
use thiserror::Error;

/// Why a sink refuses a call.
#[derive(Clone, Copy, Debug, PartialEq, Eq, Error)]
pub enum SinkFault {
    #[error("a device failed")]
    Failed,
    #[error("out of memory")]
    NoMemory,
}

impl From<AllocError> for SinkFault {
    ghost from_gives = { λ _ e. e ≡ NoMemory };

    fn from(_e: AllocError) -> SinkFault {
        SinkFault::NoMemory
    }
}

impl<T: Drop> From<AllocFailed<T>> for SinkFault {
    ghost from_gives = { λ _ e. e ≡ NoMemory };

    fn from(_e: AllocFailed<T>) -> SinkFault {
        SinkFault::NoMemory
    }
}

/// Where bytes are put, one after another, as lines to a terminal are.
pub trait Sink {
    /// The bytes that were put, where the sink tells them.
    ghost written: { Self → Option (List ℕ) };

    /// How often a device failed.
    ghost faults: { Self → ℕ };

    /// Adds all the bytes. After a failure some of them may be there, from the first on.
    fn put(&mut self, bytes: &[u8]) -> Result<(), SinkFault>
        ensures ok { OnOk result (Grows (written self.old) bytes.now (written self.new)) }
        ensures part { GrowsByPrefix (written self.old) bytes.now (written self.new) }
        ensures no_memory { IsErrOf result SinkFault.NoMemory
            → written self.new ≡ written self.old }
        ensures cause { HasSinkCause (faults self.old) (faults self.new) result };
}
