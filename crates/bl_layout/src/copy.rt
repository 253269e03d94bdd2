ghost use Rattle.std.specs.Prelude.{◌≡◌, IfOk};

use bl_format::{Catalogue, StructEntry, TypeEntry};
use bl_num::{Items, Text};
use std::alloc::{AllocError, Global};

/// A catalogue of its own with the same names, types and structs.
pub fn copy_of(alloc: Global, catalogue: &Catalogue) -> Result<Catalogue, AllocError>
    ensures { IfOk result (λ copy. copy ≡ catalogue.now) }
{
    Ok(Catalogue {
        names: copy_of_names(alloc, catalogue.names.as_slice())?,
        types: copy_of_types(alloc, catalogue.types.as_slice())?,
        structs: copy_of_structs(alloc, catalogue.structs.as_slice())?,
    })
}

pub fn copy_of_names(alloc: Global, names: &[Text]) -> Result<Items<Text>, AllocError>
    ensures { IfOk result (λ copy. copy ≡ names.now) }
{
    let mut copy = Vec::with_capacity(alloc, names.len())?;
    for name in names {
        copy.push(Text::from_slice(alloc, name.as_slice())?)?;
    }
    Ok(Items::from_vec(copy))
}

fn copy_of_types(alloc: Global, types: &[TypeEntry]) -> Result<Items<TypeEntry>, AllocError>
    ensures { IfOk result (λ copy. copy ≡ types.now) }
{
    let mut copy = Vec::with_capacity(alloc, types.len())?;
    for entry in types {
        copy.push(copy_of_type(alloc, entry)?)?;
    }
    Ok(Items::from_vec(copy))
}

fn copy_of_type(alloc: Global, entry: &TypeEntry) -> Result<TypeEntry, AllocError>
    ensures { IfOk result (λ copy. copy ≡ entry.now) }
{
    Ok(TypeEntry {
        name: Text::from_slice(alloc, entry.name.as_slice())?,
        length: entry.length,
    })
}

pub fn copy_of_structs(
    alloc: Global,
    structs: &[StructEntry],
) -> Result<Items<StructEntry>, AllocError>
    ensures { IfOk result (λ copy. copy ≡ structs.now) }
{
    let mut copy = Vec::with_capacity(alloc, structs.len())?;
    for entry in structs {
        copy.push(copy_of_struct(alloc, entry)?)?;
    }
    Ok(Items::from_vec(copy))
}

fn copy_of_struct(alloc: Global, entry: &StructEntry) -> Result<StructEntry, AllocError>
    ensures { IfOk result (λ copy. copy ≡ entry.now) }
{
    Ok(StructEntry {
        type_number: entry.type_number,
        members: Items::from_vec(entry.members.as_slice().to_vec(alloc)?),
    })
}
