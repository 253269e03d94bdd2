ghost use Rattle.std.specs.Prelude.{◌≡◌};
ghost use Rattle.bl_commands.specs.declared.ending.Ending.TheVariants as endings;

use bl_num::{NoMemory, Text};
use std::alloc::{AllocError, AllocFailed};

/// Why a file is refused. A place counts bytes from the file's start for a block, and from the
/// start of the catalogue's payload for a fault in it.
#[derive(Debug, Drop)]
pub enum FileFault {
    Compressed,
    BadMagic,
    BadMark(u8),
    BadVersion(u16),
    Truncated(u64),
    NegativeLength(u64),
    NegativeIndex(u64),
    NegativeCount(u64),
    NoCatalogue,
    TwoCatalogues(u64),
    BadTag(u64),
    CutShort(u64),
    BadIndex(u64),
    TwoTypes(u64),
    TwoStructs(u64),
    BadName { owner: Text, member: Text },
    DuplicateMember { owner: Text, member: Text },
    BasicLength { owner: Text, member: Text },
    Cyclic { owner: Text, member: Text },
    Overrun { owner: Text, member: Text },
    BadStruct(u64),
    ShortBlock(u64),
    StrayPlaceholder(u64),
    /// The file has a form that this program doesn't convert yet.
    NotBuilt,
}

/// What is missing: in a file of the shelf, of a full name, or at a place of a query's path.
#[derive(Debug, Drop)]
pub enum Lack {
    NoIdStruct { file: Text },
    NoName { file: Text },
    NoLibraryStruct { file: Text },
    NoDatablock { name: Text },
    MissingDatablock { name: Text, path: Text },
    NoStruct { name: Text },
    BadLibraryPath { path: Text },
    NoMember(u64),
    NotArray(u64),
    OutOfRange(u64),
    NotLeaf(u64),
    NotPointer(u64),
    NullPointer(u64),
    NotStruct(u64),
}

/// What has a limit.
#[derive(Clone, Copy, Debug, PartialEq, Eq)]
pub enum Quantity {
    InputBytes,
    Blocks,
    Depth,
    Leaves,
    TypeBytes,
    PathBytes,
    NameBytes,
    Libraries,
    OutputBlocks,
    BlockBytes,
    FileBytes,
}

/// What ended a run that isn't done.
#[derive(Debug, Drop)]
pub enum Ending {
    NoCommand,
    NoMemory,
    /// The shelf doesn't hold the file.
    Absent { file: Text },
    /// A device of the shelf failed.
    Device,
    BadFile { file: Text, fault: FileFault },
    Missing(Lack),
    /// A float would be carried to another number, or back, in a struct's member.
    FloatCast { owner: Text, member: Text },
    PastLimit { quantity: Quantity, count: u64 },
    /// The sink failed.
    Sink,
}

impl From<AllocError> for Ending {
    ghost from_gives = { λ _ e. e ≡ endings.NoMemory };

    fn from(_: AllocError) -> Ending {
        Ending::NoMemory
    }
}

impl<T: Drop> From<AllocFailed<T>> for Ending {
    ghost from_gives = { λ _ e. e ≡ endings.NoMemory };

    fn from(_: AllocFailed<T>) -> Ending {
        Ending::NoMemory
    }
}

impl From<NoMemory> for Ending {
    ghost from_gives = { λ _ e. e ≡ endings.NoMemory };

    fn from(_: NoMemory) -> Ending {
        Ending::NoMemory
    }
}
