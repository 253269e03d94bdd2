ghost use Rattle.std.specs.Prelude.{◌≡◌, IfOk};
ghost use Rattle.std.specs.String.{string_bytes};
ghost use Rattle.bl_commands.specs.Texts.{with_place, with_member, with_text, in_file, file_fault_text, missing_datablock_text, lack_text, quantity_text};

use crate::shown::shown_bytes;
use bl_commands::{FileFault, Lack, Quantity};
use bl_num::Text;
use std::alloc::{AllocError, Global};

// A name with a place or a number.
fn with_place(alloc: Global, name: &str, place: u64) -> Result<String, AllocError>
    ensures { IfOk result (λ text. string_bytes text ≡ with_place name.now place) }
{
    format!(in alloc; "{name} {place}")
}

// A name with those of a struct and its member.
fn with_member(alloc: Global, name: &str, owner: &Text, member: &Text) -> Result<String, AllocError>
    ensures { IfOk result (λ text. string_bytes text ≡ with_member name.now owner.now member.now) }
{
    let owner = shown_bytes(alloc, owner.as_slice())?;
    let member = shown_bytes(alloc, member.as_slice())?;
    format!(in alloc; "{name} {owner} {member}")
}

// A name, and a shown text behind it.
fn with_text(alloc: Global, name: &str, text: &Text) -> Result<String, AllocError>
    ensures { IfOk result (λ line. string_bytes line ≡ with_text name.now text.now) }
{
    let text = shown_bytes(alloc, text.as_slice())?;
    format!(in alloc; "{name} {text}")
}

// A name, and the file in which it is missing.
fn in_file(alloc: Global, name: &str, file: &Text) -> Result<String, AllocError>
    ensures { IfOk result (λ line. string_bytes line ≡ in_file name.now file.now) }
{
    let file = shown_bytes(alloc, file.as_slice())?;
    format!(in alloc; "{name} in {file}")
}

/// What is said of a file that is refused.
pub fn file_fault_text(alloc: Global, fault: &FileFault) -> Result<String, AllocError>
    ensures { IfOk result (λ text. string_bytes text ≡ file_fault_text fault.now) }
{
    match fault {
        FileFault::Compressed => String::from_str(alloc, "Compressed"),
        FileFault::BadMagic => String::from_str(alloc, "BadMagic"),
        FileFault::BadMark(place) => with_place(alloc, "BadMark", u64::from(*place)),
        FileFault::BadVersion(version) => with_place(alloc, "BadVersion", u64::from(*version)),
        FileFault::Truncated(place) => with_place(alloc, "Truncated", *place),
        FileFault::NegativeLength(place) => with_place(alloc, "NegativeLength", *place),
        FileFault::NegativeIndex(place) => with_place(alloc, "NegativeIndex", *place),
        FileFault::NegativeCount(place) => with_place(alloc, "NegativeCount", *place),
        FileFault::NoCatalogue => String::from_str(alloc, "NoCatalogue"),
        FileFault::TwoCatalogues(place) => with_place(alloc, "TwoCatalogues", *place),
        FileFault::BadTag(place) => with_place(alloc, "BadTag", *place),
        FileFault::CutShort(place) => with_place(alloc, "CutShort", *place),
        FileFault::BadIndex(place) => with_place(alloc, "BadIndex", *place),
        FileFault::TwoTypes(place) => with_place(alloc, "TwoTypes", *place),
        FileFault::TwoStructs(place) => with_place(alloc, "TwoStructs", *place),
        FileFault::BadName { owner, member } => with_member(alloc, "BadName", owner, member),
        FileFault::DuplicateMember { owner, member } => {
            with_member(alloc, "DuplicateMember", owner, member)
        }
        FileFault::BasicLength { owner, member } => {
            with_member(alloc, "BasicLength", owner, member)
        }
        FileFault::Cyclic { owner, member } => with_member(alloc, "Cyclic", owner, member),
        FileFault::Overrun { owner, member } => with_member(alloc, "Overrun", owner, member),
        FileFault::BadStruct(place) => with_place(alloc, "BadStruct", *place),
        FileFault::ShortBlock(place) => with_place(alloc, "ShortBlock", *place),
        FileFault::StrayPlaceholder(place) => with_place(alloc, "StrayPlaceholder", *place),
        FileFault::NotBuilt => String::from_str(alloc, "NotBuilt"),
    }
}

// That a datablock stands for none of the library's file.
fn missing_datablock(alloc: Global, name: &Text, path: &Text) -> Result<String, AllocError>
    ensures { IfOk result (λ text. string_bytes text ≡ missing_datablock_text name.now path.now) }
{
    let name = shown_bytes(alloc, name.as_slice())?;
    let path = shown_bytes(alloc, path.as_slice())?;
    format!(in alloc; "MissingDatablock {name} in {path}")
}

/// What is said of what is missing.
pub fn lack_text(alloc: Global, lack: &Lack) -> Result<String, AllocError>
    ensures { IfOk result (λ text. string_bytes text ≡ lack_text lack.now) }
{
    match lack {
        Lack::NoIdStruct { file } => in_file(alloc, "NoIdStruct", file),
        Lack::NoName { file } => in_file(alloc, "NoName", file),
        Lack::NoLibraryStruct { file } => in_file(alloc, "NoLibraryStruct", file),
        Lack::NoDatablock { name } => with_text(alloc, "NoDatablock", name),
        Lack::MissingDatablock { name, path } => missing_datablock(alloc, name, path),
        Lack::NoStruct { name } => with_text(alloc, "NoStruct", name),
        Lack::BadLibraryPath { path } => with_text(alloc, "BadLibraryPath", path),
        Lack::NoMember(place) => with_place(alloc, "NoMember", *place),
        Lack::NotArray(place) => with_place(alloc, "NotArray", *place),
        Lack::OutOfRange(place) => with_place(alloc, "OutOfRange", *place),
        Lack::NotLeaf(place) => with_place(alloc, "NotLeaf", *place),
        Lack::NotPointer(place) => with_place(alloc, "NotPointer", *place),
        Lack::NullPointer(place) => with_place(alloc, "NullPointer", *place),
        Lack::NotStruct(place) => with_place(alloc, "NotStruct", *place),
    }
}

/// What has a limit, in words.
pub fn quantity_text(quantity: Quantity) -> &'static str
    ensures { result.now ≡ quantity_text quantity }
{
    match quantity {
        Quantity::InputBytes => "input bytes",
        Quantity::Blocks => "blocks",
        Quantity::Depth => "depth",
        Quantity::Leaves => "leaves",
        Quantity::TypeBytes => "type bytes",
        Quantity::PathBytes => "path bytes",
        Quantity::NameBytes => "name bytes",
        Quantity::Libraries => "libraries",
        Quantity::OutputBlocks => "output blocks",
        Quantity::BlockBytes => "block bytes",
        Quantity::FileBytes => "file bytes",
    }
}
