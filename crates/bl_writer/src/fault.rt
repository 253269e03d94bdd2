// Why a draft isn't rendered.
ghost use Rattle.std.specs.Prelude.{◌≡◌};
ghost use Rattle.bl_writer.specs.Faults.{fault_of_shelf};

use bl_shelf::ShelfFault;
use thiserror::Error;

/// Why a draft isn't rendered. `Absent` and `Device` end the call where they happen.
#[derive(Clone, Copy, Debug, PartialEq, Eq, Error)]
pub enum WriteFault {
    /// A float of struct `t` would become another number.
    #[error("member {member} of struct {t} would turn a float into another number")]
    FloatCast { t: u32, member: u32 },
    #[error("the output has {0} nodes")]
    TooManyBlocks(u64),
    #[error("a block of the output has {0} bytes")]
    BlockTooLong(u64),
    #[error("the output has {0} bytes")]
    FileTooLarge(u64),
    /// The shelf doesn't hold a source.
    #[error("the file isn't there")]
    Absent,
    #[error("a device failed")]
    Device,
    #[error("out of memory")]
    NoMemory,
}

/// A shelf's fault as that of a draft that isn't rendered.
pub(crate) fn write_fault(fault: ShelfFault) -> WriteFault
    ensures { result ≡ fault_of_shelf fault }
{
    match fault {
        ShelfFault::Absent => WriteFault::Absent,
        ShelfFault::Failed => WriteFault::Device,
        ShelfFault::NoMemory => WriteFault::NoMemory,
    }
}
