ghost use Rattle.std.specs.Prelude.{◌≡◌, ◌⊎◌, ◌≤◌, ◌<◌, ◌^◌, length, Ok, Err, IfOk, IfErr};
ghost use Rattle.bl_format.specs.Schema.{Gives, CanBeRead, IsPayload, names_at, types_at, lengths_at, all_structs_at, catalogue_of};
ghost use Rattle.bl_format.specs.declared.catalogue.SdnaFault.TheVariants.{NoMemory};

use crate::lists::{lengths, names, structs, type_entries, type_names};
use crate::place::{aligned_place, count_at, tag_at};
use bl_format::{Catalogue, SdnaFault, StructEntry};
use bl_num::{Items, Order, Text};
use std::alloc::Global;

// The names of members, behind the first two tags.
fn names_at(alloc: Global, order: Order, bytes: &[u8]) -> Result<(Vec<Text>, usize), SdnaFault>
    ensures read { Gives (λ read. (read.0.items, read.1)) result (names_at order bytes.now) }
    ensures within { IfOk result (λ read. read.1 ≤ length bytes.now) }
{
    let after = tag_at(b"SDNA", bytes, 0)?;
    let after = tag_at(b"NAME", bytes, after)?;
    let (count, after) = count_at(order, bytes, after)?;
    names(alloc, count, bytes, after)
}

// The names of types.
fn types_at(
    alloc: Global,
    order: Order,
    bytes: &[u8],
    at: usize,
) -> Result<(Vec<Text>, usize), SdnaFault>
    requires { at ≤ length bytes.now }
    ensures read { Gives (λ read. (read.0.items, read.1)) result (types_at order bytes.now at) }
    ensures within { IfOk result (λ read. read.1 ≤ length bytes.now) }
{
    let after = tag_at(b"TYPE", bytes, aligned_place(at))?;
    let (count, after) = count_at(order, bytes, after)?;
    type_names(alloc, count, bytes, after)
}

// The lengths of so many types.
fn lengths_at(
    alloc: Global,
    order: Order,
    types: usize,
    bytes: &[u8],
    at: usize,
) -> Result<(Vec<u16>, usize), SdnaFault>
    requires { at ≤ length bytes.now }
    ensures read { Gives (λ read. (read.0.items, read.1)) result
        (lengths_at order types bytes.now at) }
    ensures within { IfOk result (λ read. read.1 ≤ length bytes.now) }
{
    let after = tag_at(b"TLEN", bytes, aligned_place(at))?;
    lengths(alloc, order, types, bytes, after)
}

// All structs, for so many types and names.
fn all_structs_at(
    alloc: Global,
    order: Order,
    types: usize,
    names: usize,
    bytes: &[u8],
    at: usize,
) -> Result<(Vec<StructEntry>, usize), SdnaFault>
    requires { at ≤ length bytes.now }
    ensures { Gives (λ read. (read.0.items, read.1)) result
        (all_structs_at order types names bytes.now at) }
{
    let after = tag_at(b"STRC", bytes, aligned_place(at))?;
    let (count, after) = count_at(order, bytes, after)?;
    structs(alloc, order, types, names, count, bytes, after)
}

// The catalogue of a payload.
#[tactic(auto, unfolding(bl_format::specs::Schema::catalogue_of))]
fn read_catalogue(alloc: Global, order: Order, bytes: &[u8]) -> Result<Catalogue, SdnaFault>
    ensures { Gives (λ catalogue. catalogue) result (catalogue_of order bytes.now) }
{
    let (names, after) = names_at(alloc, order, bytes)?;
    let (types, after) = types_at(alloc, order, bytes, after)?;
    let (lengths, after) = lengths_at(alloc, order, types.len(), bytes, after)?;
    let (structs, _) = all_structs_at(alloc, order, types.len(), names.len(), bytes, after)?;
    let types = type_entries(alloc, types, &lengths)?;
    Ok(Catalogue {
        names: Items::from_vec(names),
        types: Items::from_vec(types),
        structs: Items::from_vec(structs),
    })
}

/// Reads the catalogue from the payload of its block. Bytes behind the last struct, and those that
/// stand as padding, may be any. A fault's place counts from the payload's start.
pub fn parse_catalogue(alloc: Global, order: Order, bytes: &[u8]) -> Result<Catalogue, SdnaFault>
    ensures reads { IfOk result (λ catalogue. catalogue_of order bytes.now ≡ Ok catalogue) }
    ensures spelled { IfOk result (λ catalogue. IsPayload order catalogue bytes.now) }
    ensures can_be_read { length bytes.now < 2 ^ 32 → IfOk result CanBeRead }
    ensures refuses { IfErr result (λ fault. (fault ≡ NoMemory)
        ⊎ (catalogue_of order bytes.now ≡ Err fault)) }
{
    read_catalogue(alloc, order, bytes)
}
