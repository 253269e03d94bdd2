// How each fault of an output that isn't rendered ends the run.
ghost use Rattle.std.specs.Prelude.{◌≡◌, ◌⊎◌, IfOk};
ghost use Rattle.bl_answers.specs.Writing.{float_cast_ending};
ghost use Rattle.bl_run.specs.Rendering.{write_ending};

use crate::opening::name_text;
use bl_commands::{Ending, Quantity};
use bl_layout::member_identifier;
use bl_num::Text;
use bl_sdna::{Catalogue, struct_name};
use bl_writer::WriteFault;
use std::alloc::{AllocError, Global};

/// How a fault of an output ends a run, by the output's catalogue and the name of the file that is
/// read, unless memory is wanted for the names.
pub fn write_ending(alloc: Global, catalogue: &Catalogue, name: &str, fault: WriteFault) -> Ending
    ensures { (result ≡ write_ending catalogue.now name.now fault) ⊎ (result ≡ Ending.NoMemory) }
{
    match fault {
        WriteFault::FloatCast { t, member } => match float_cast_ending(
            alloc, catalogue, t, member,
        ) {
            Ok(ending) => ending,
            Err(_) => Ending::NoMemory,
        },
        WriteFault::Absent => match name_text(alloc, name) {
            Ok(file) => Ending::Absent { file },
            Err(_) => Ending::NoMemory,
        },
        WriteFault::Device => Ending::Device,
        WriteFault::NoMemory => Ending::NoMemory,
        WriteFault::TooManyBlocks(count) => past_limit(Quantity::OutputBlocks, count),
        WriteFault::BlockTooLong(count) => past_limit(Quantity::BlockBytes, count),
        WriteFault::FileTooLarge(count) => past_limit(Quantity::FileBytes, count),
    }
}

// How a run ends for a float that would become another number.
fn float_cast_ending(
    alloc: Global,
    catalogue: &Catalogue,
    t: u32,
    member: u32,
) -> Result<Ending, AllocError>
    ensures { IfOk result (λ ending. ending ≡ float_cast_ending catalogue.now (t, member)) }
{
    let owner = Text::from_slice(alloc, struct_name(catalogue, t))?;
    let member = Text::from_slice(alloc, member_identifier(catalogue, t, member))?;
    Ok(Ending::FloatCast { owner, member })
}

// How a run ends for so much of what has a limit.
fn past_limit(quantity: Quantity, count: u64) -> Ending
    ensures { result ≡ Ending.PastLimit quantity count }
{
    Ending::PastLimit { quantity, count }
}
