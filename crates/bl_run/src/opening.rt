// How each fault of a command's input ends the run.
ghost use Rattle.std.specs.Prelude.{◌≡◌, ◌⊎◌, IfOk};
ghost use Rattle.bl_run.specs.Input.{open_ending};

use bl_commands::{Ending, FileFault, Quantity};
use bl_file::OpenFault;
use bl_lines::{block_ending, head_ending, layout_ending, sdna_ending};
use bl_num::Text;
use std::alloc::{AllocError, Global};

/// A file's name as an owned text.
pub fn name_text(alloc: Global, name: &str) -> Result<Text, AllocError>
    ensures { IfOk result (λ text. text ≡ name.now) }
{
    Text::from_slice(alloc, name.as_bytes())
}

/// How a fault of the file under a name ends a run, unless memory is wanted for the name.
pub fn open_ending(alloc: Global, name: &str, fault: OpenFault) -> Ending
    ensures { (result ≡ open_ending name.now fault) ⊎ (result ≡ Ending.NoMemory) }
{
    match name_text(alloc, name) {
        Ok(file) => ending_of(file, fault),
        Err(_) => Ending::NoMemory,
    }
}

// How a fault of a file ends a run.
fn ending_of(file: Text, fault: OpenFault) -> Ending
    ensures { result ≡ open_ending file fault }
{
    match fault {
        OpenFault::NoMemory => Ending::NoMemory,
        OpenFault::Absent => Ending::Absent { file },
        OpenFault::Device => Ending::Device,
        OpenFault::TooLarge(count) => Ending::PastLimit {
            quantity: Quantity::InputBytes,
            count,
        },
        OpenFault::Head(fault) => head_ending(file, fault),
        OpenFault::Block(fault) => block_ending(file, fault),
        OpenFault::NoCatalogue => bad_file(file, FileFault::NoCatalogue),
        OpenFault::TwoCatalogues(at) => bad_file(file, FileFault::TwoCatalogues(at)),
        OpenFault::Sdna(fault) => sdna_ending(file, fault),
        OpenFault::Layout {
            fault,
            owner,
            member,
        } => layout_ending(file, owner, member, fault),
        OpenFault::BadStruct(at) => bad_file(file, FileFault::BadStruct(at)),
        OpenFault::ShortBlock(at) => bad_file(file, FileFault::ShortBlock(at)),
    }
}

// How a file that is refused ends a run.
fn bad_file(file: Text, fault: FileFault) -> Ending
    ensures { result ≡ Ending.BadFile file fault }
{
    Ending::BadFile { file, fault }
}
