ghost use Rattle.std.specs.Prelude.{◌≡◌};
ghost use Rattle.bl_commands.specs.declared.ending.Ending.TheVariants.{BadFile, PastLimit};
ghost use Rattle.bl_commands.specs.Texts.{head_ending, block_ending, sdna_ending, layout_ending};

use bl_commands::{Ending, FileFault, Quantity};
use bl_format::{BlockFault, HeadFault, LayoutFault, SdnaFault};
use bl_num::Text;

fn bad_file(file: Text, fault: FileFault) -> Ending
    ensures { result ≡ BadFile file fault }
{
    Ending::BadFile { file, fault }
}

fn past_limit(quantity: Quantity, count: u64) -> Ending
    ensures { result ≡ PastLimit quantity count }
{
    Ending::PastLimit { quantity, count }
}

/// How a run ends at a file whose header isn't read.
pub fn head_ending(file: Text, fault: HeadFault) -> Ending
    ensures { result ≡ head_ending file fault }
{
    match fault {
        HeadFault::Compressed => bad_file(file, FileFault::Compressed),
        HeadFault::BadMagic => bad_file(file, FileFault::BadMagic),
        HeadFault::BadMark(place) => bad_file(file, FileFault::BadMark(place)),
        HeadFault::BadVersion(version) => bad_file(file, FileFault::BadVersion(version)),
    }
}

/// How a run ends at a file whose blocks aren't read.
pub fn block_ending(file: Text, fault: BlockFault) -> Ending
    ensures { result ≡ block_ending file fault }
{
    match fault {
        BlockFault::Truncated(place) => bad_file(file, FileFault::Truncated(place)),
        BlockFault::NegativeLength(place) => bad_file(file, FileFault::NegativeLength(place)),
        BlockFault::NegativeIndex(place) => bad_file(file, FileFault::NegativeIndex(place)),
        BlockFault::NegativeCount(place) => bad_file(file, FileFault::NegativeCount(place)),
        BlockFault::TooManyBlocks(count) => past_limit(Quantity::Blocks, count),
        BlockFault::NoMemory => Ending::NoMemory,
    }
}

/// How a run ends at a file whose catalogue isn't read.
pub fn sdna_ending(file: Text, fault: SdnaFault) -> Ending
    ensures { result ≡ sdna_ending file fault }
{
    match fault {
        SdnaFault::BadTag(place) => bad_file(file, FileFault::BadTag(place)),
        SdnaFault::CutShort(place) => bad_file(file, FileFault::CutShort(place)),
        SdnaFault::BadIndex(place) => bad_file(file, FileFault::BadIndex(place)),
        SdnaFault::TwoTypes(place) => bad_file(file, FileFault::TwoTypes(place)),
        SdnaFault::TwoStructs(place) => bad_file(file, FileFault::TwoStructs(place)),
        SdnaFault::NoMemory => Ending::NoMemory,
    }
}

/// How a run ends at a file whose catalogue has no layout, with the name of the struct and the
/// whole name of the member where the fault stands.
pub fn layout_ending(file: Text, owner: Text, member: Text, fault: LayoutFault) -> Ending
    ensures { result ≡ layout_ending file owner member fault }
{
    match fault {
        LayoutFault::BadName { .. } => bad_file(file, FileFault::BadName { owner, member }),
        LayoutFault::BasicLength { .. } => {
            bad_file(file, FileFault::BasicLength { owner, member })
        }
        LayoutFault::Overrun { .. } => bad_file(file, FileFault::Overrun { owner, member }),
        LayoutFault::Cyclic { .. } => bad_file(file, FileFault::Cyclic { owner, member }),
        LayoutFault::DuplicateMember { .. } => {
            bad_file(file, FileFault::DuplicateMember { owner, member })
        }
        LayoutFault::TooDeep(count) => past_limit(Quantity::Depth, count),
        LayoutFault::TooManyLeaves(count) => past_limit(Quantity::Leaves, count),
        LayoutFault::TooLong(count) => past_limit(Quantity::TypeBytes, count),
        LayoutFault::NoMemory => Ending::NoMemory,
    }
}
