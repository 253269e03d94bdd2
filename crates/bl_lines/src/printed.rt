ghost use Rattle.std.specs.Prelude.{◌≡◌, IfOk};
ghost use Rattle.std.specs.String.{string_bytes};
ghost use Rattle.bl_commands.specs.declared.ending.Ending.TheVariants.{Absent, BadFile, FloatCast, PastLimit};
ghost use Rattle.bl_commands.specs.Texts.{summary_line, fault_line, status_of};

use crate::faults::{file_fault_text, lack_text, quantity_text};
use crate::shown::shown_bytes;
use bl_commands::{Ending, FileFault, Quantity};
use bl_num::{NoMemory, Text};
use std::alloc::{AllocError, Global};

/// The line of a command that writes: the nodes of its output, and the length of the whole file.
#[tactic(auto, unfolding(bl_commands::specs::Texts::summary_line))]
pub fn summary_line(alloc: Global, blocks: u64, bytes: u64) -> Result<Vec<u8>, NoMemory>
    ensures { IfOk result (λ line. line.items ≡ summary_line blocks bytes) }
{
    let line = format!(in alloc; "blocks {blocks} bytes {bytes}\n")?;
    Ok(line.into_bytes())
}

/// The line that tells what ended a run; of a failed sink there is none.
pub fn fault_line(alloc: Global, ending: &Ending) -> Result<Vec<u8>, NoMemory>
    ensures { IfOk result (λ line. line.items ≡ fault_line ending.now) }
{
    let text = fault_text(alloc, ending)?;
    Ok(text.into_bytes())
}

/// The status with which the process ends.
pub fn status_of(ending: &Ending) -> u8
    ensures { result ≡ status_of ending.now }
{
    match ending {
        Ending::NoCommand => 2,
        Ending::NoMemory => 3,
        Ending::Absent { .. } => 4,
        Ending::Device => 5,
        Ending::BadFile { .. } => 6,
        Ending::Missing(_) => 7,
        Ending::FloatCast { .. } => 8,
        Ending::PastLimit { .. } => 9,
        Ending::Sink => 10,
    }
}

#[tactic(auto, unfolding(bl_commands::specs::Texts::fault_line))]
fn fault_text(alloc: Global, ending: &Ending) -> Result<String, AllocError>
    ensures { IfOk result (λ text. string_bytes text ≡ fault_line ending.now) }
{
    match ending {
        Ending::NoCommand => String::from_str(alloc, "usage\n"),
        Ending::NoMemory => String::from_str(alloc, "out of memory\n"),
        Ending::Absent { file } => absent(alloc, file),
        Ending::Device => String::from_str(alloc, "device\n"),
        Ending::BadFile { file, fault } => bad_file(alloc, file, fault),
        Ending::Missing(lack) => {
            let lack = lack_text(alloc, lack)?;
            format!(in alloc; "missing {lack}\n")
        }
        Ending::FloatCast { owner, member } => float_cast(alloc, owner, member),
        Ending::PastLimit { quantity, count } => past_limit(alloc, *quantity, *count),
        Ending::Sink => Ok(String::new(alloc)),
    }
}

#[tactic(auto, unfolding(bl_commands::specs::Texts::fault_line))]
fn absent(alloc: Global, file: &Text) -> Result<String, AllocError>
    ensures { IfOk result (λ text. string_bytes text ≡ fault_line (Absent file.now)) }
{
    let file = shown_bytes(alloc, file.as_slice())?;
    format!(in alloc; "absent {file}\n")
}

#[tactic(auto, unfolding(bl_commands::specs::Texts::fault_line))]
fn bad_file(alloc: Global, file: &Text, fault: &FileFault) -> Result<String, AllocError>
    ensures { IfOk result (λ text. string_bytes text ≡ fault_line (BadFile file.now fault.now)) }
{
    let file = shown_bytes(alloc, file.as_slice())?;
    let fault = file_fault_text(alloc, fault)?;
    format!(in alloc; "bad file {file}: {fault}\n")
}

#[tactic(auto, unfolding(bl_commands::specs::Texts::fault_line))]
fn float_cast(alloc: Global, owner: &Text, member: &Text) -> Result<String, AllocError>
    ensures { IfOk result (λ text. string_bytes text ≡ fault_line (FloatCast owner.now member.now)) }
{
    let owner = shown_bytes(alloc, owner.as_slice())?;
    let member = shown_bytes(alloc, member.as_slice())?;
    format!(in alloc; "float cast {owner}.{member}\n")
}

#[tactic(auto, unfolding(bl_commands::specs::Texts::fault_line))]
fn past_limit(alloc: Global, quantity: Quantity, count: u64) -> Result<String, AllocError>
    ensures { IfOk result (λ text. string_bytes text ≡ fault_line (PastLimit quantity count)) }
{
    let quantity = quantity_text(quantity);
    format!(in alloc; "limit {quantity} {count}\n")
}
