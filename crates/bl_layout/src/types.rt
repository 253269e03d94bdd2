ghost use Rattle.std.specs.Prelude.{◌≡◌, ◌<◌, ◌^◌, All, IfOk, length};
ghost use Rattle.bl_format.specs.Layout.{basic_named, basic_or_struct};
ghost use Rattle.bl_layout.specs.BasicTypes.{content_meant, AreContents, IsStructTable};

use crate::basic_types::{Content, basic_named};
use bl_format::{StructEntry, TypeEntry};
use std::alloc::{AllocError, Global};

/// What each type holds: by its number, the basic type of its name, else its struct.
pub fn contents(
    alloc: Global,
    types: &[TypeEntry],
    structs: &[StructEntry],
) -> Result<Vec<Content>, AllocError>
    requires few { length structs.now < 2 ^ 32 }
    requires inside { All (λ s. s.type_number < length types.now) structs.now }
    ensures { IfOk result (λ contents. AreContents types.now structs.now contents.items) }
{
    let numbers = struct_numbers(alloc, types.len(), structs)?;
    let mut contents = Vec::with_capacity(alloc, types.len())?;
    for (entry, number) in types.iter().zip(&numbers) {
        contents.push(content_of(entry.name.as_slice(), *number))?;
    }
    Ok(contents)
}

fn content_of(name: &[u8], number: Option<u32>) -> Content
    ensures { content_meant result ≡ basic_or_struct (basic_named name.now) number }
{
    match (basic_named(name), number) {
        (Some(basic), _) => Content::Basic(basic),
        (None, Some(number)) => Content::Struct(number),
        (None, None) => Content::Opaque,
    }
}

/// By the number of a type, the first struct that has it.
pub fn struct_numbers(
    alloc: Global,
    types: usize,
    structs: &[StructEntry],
) -> Result<Vec<Option<u32>>, AllocError>
    requires few { length structs.now < 2 ^ 32 }
    requires inside { All (λ s. s.type_number < types) structs.now }
    ensures { IfOk result (λ numbers. IsStructTable types structs.now numbers.items) }
{
    let mut numbers = vec![in alloc; None; types]?;
    for (i, entry) in structs.iter().enumerate() {
        let number = entry.type_number as usize;
        numbers[number] = numbers[number].or(Some(i as u32));
    }
    Ok(numbers)
}
