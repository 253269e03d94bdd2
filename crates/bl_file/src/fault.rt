ghost use Rattle.std.specs.Prelude.{◌≡◌};
ghost use Rattle.bl_file.specs.Reading.{fault_of_shelf};
ghost use Rattle.bl_file.specs.declared.fault.OpenFault.TheVariants.{NoMemory};

use bl_format::{BlockFault, HeadFault, LayoutFault, SdnaFault};
use bl_num::{NoMemory as Exhausted, Text};
use bl_shelf::ShelfFault;
use std::alloc::{AllocError, AllocFailed};

/// Why a file isn't opened. A place counts bytes from the file's start for a block, and from the
/// start of the catalogue's payload for a fault in it.
#[derive(Debug, Drop)]
pub enum OpenFault {
    NoMemory,
    /// The shelf doesn't hold the file.
    Absent,
    /// A device of the shelf failed.
    Device,
    /// The files of the run have so many bytes together.
    TooLarge(u64),
    Head(HeadFault),
    Block(BlockFault),
    NoCatalogue,
    /// The second of the catalogues stands at this place.
    TwoCatalogues(u64),
    Sdna(SdnaFault),
    /// With the names of the struct and the member, both empty for a fault of the whole layout.
    Layout {
        fault: LayoutFault,
        owner: Text,
        member: Text,
    },
    /// The block at this place has the number of no struct.
    BadStruct(u64),
    /// The payload of the block at this place is shorter than its structs.
    ShortBlock(u64),
}

impl From<AllocError> for OpenFault {
    ghost from_gives = { λ _ e. e ≡ NoMemory };

    fn from(_e: AllocError) -> OpenFault {
        OpenFault::NoMemory
    }
}

impl<T: Drop> From<AllocFailed<T>> for OpenFault {
    ghost from_gives = { λ _ e. e ≡ NoMemory };

    fn from(_e: AllocFailed<T>) -> OpenFault {
        OpenFault::NoMemory
    }
}

impl From<Exhausted> for OpenFault {
    ghost from_gives = { λ _ e. e ≡ NoMemory };

    fn from(_e: Exhausted) -> OpenFault {
        OpenFault::NoMemory
    }
}

/// A shelf's fault as that of a file that isn't opened.
pub fn shelf_fault(fault: ShelfFault) -> OpenFault
    ensures { result ≡ fault_of_shelf fault }
{
    match fault {
        ShelfFault::Absent => OpenFault::Absent,
        ShelfFault::Failed => OpenFault::Device,
        ShelfFault::NoMemory => OpenFault::NoMemory,
    }
}
