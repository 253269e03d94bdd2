ghost use Rattle.std.specs.Prelude.{◌≡◌, ◌≤◌, ◌<◌, ◌+◌, ◌==◌, ◌||◌, List, ℕ, [], length, IfOk};
ghost use Rattle.std.specs.BTreeSet.{contains};
ghost use Rattle.std.specs.Ordering.{nat_cmp};
ghost use Rattle.std.specs.Str.{bytes_eq};
ghost use Rattle.bl_format.specs.Schema.{Gives, count_at, name_at, many_at, type_names_at, member_at, structs_at, type_entries};
ghost use Rattle.bl_sdna.specs.Lists.{has_name, type_name_at, members_at, struct_at};

use crate::place::{index_at, name_at, short_at};
use bl_format::{MemberEntry, SdnaFault, StructEntry, TypeEntry};
use bl_num::{Items, Order, Text};
use std::alloc::{AllocError, Global};
use std::collections::BTreeSet;

/// A number of names.
pub fn names(
    alloc: Global,
    count: u32,
    bytes: &[u8],
    at: usize,
) -> Result<(Vec<Text>, usize), SdnaFault>
    requires { at ≤ length bytes.now }
    ensures read { Gives (λ read. (read.0.items, read.1)) result
        (many_at (name_at bytes.now) count at) }
    ensures within { IfOk result (λ read. read.1 ≤ length bytes.now) }
{
    let mut names = Vec::new(alloc);
    let mut place = at;
    for _ in 0..count {
        let (name, after) = name_at(bytes, place)?;
        names.push(Text::from_slice(alloc, name)?)?;
        place = after;
    }
    Ok((names, place))
}

// The name of a type, which none of those seen is, and is seen from then on.
#[tactic(auto, using(crate::proofs::Seen::name_put), unfolding(crate::specs::Lists::type_name_at))]
fn type_name_at<'a>(
    bytes: &'a [u8],
    seen: &mut BTreeSet<&'a [u8]>,
    at: usize,
) -> Result<(&'a [u8], usize), SdnaFault>
    requires { at ≤ length bytes.now }
    ensures read { Gives (λ read. (read.0.now, read.1)) result
        (type_name_at bytes.now (has_name seen.old) at) }
    ensures within { IfOk result (λ read. read.1 ≤ length bytes.now) }
    ensures seen { IfOk result (λ read. (name : List ℕ) → has_name seen.new name
        ≡ (bytes_eq name read.0.now || has_name seen.old name)) }
{
    let (name, after) = name_at(bytes, at)?;
    if seen.insert(name)? {
        Ok((name, after))
    } else {
        Err(SdnaFault::TwoTypes(at as u64))
    }
}

/// A number of type names, which all differ.
pub fn type_names(
    alloc: Global,
    count: u32,
    bytes: &[u8],
    at: usize,
) -> Result<(Vec<Text>, usize), SdnaFault>
    requires { at ≤ length bytes.now }
    ensures read { Gives (λ read. (read.0.items, read.1)) result
        (type_names_at bytes.now [] count at) }
    ensures within { IfOk result (λ read. read.1 ≤ length bytes.now) }
{
    let mut names = Vec::new(alloc);
    let mut seen = BTreeSet::new(alloc);
    let mut place = at;
    for _ in 0..count {
        let (name, after) = type_name_at(bytes, &mut seen, place)?;
        names.push(Text::from_slice(alloc, name)?)?;
        place = after;
    }
    Ok((names, place))
}

/// The lengths of so many types.
pub fn lengths(
    alloc: Global,
    order: Order,
    count: usize,
    bytes: &[u8],
    at: usize,
) -> Result<(Vec<u16>, usize), SdnaFault>
    requires { at ≤ length bytes.now }
    ensures read { Gives (λ read. (read.0.items, read.1)) result
        (many_at (count_at order 2 bytes.now) count at) }
    ensures within { IfOk result (λ read. read.1 ≤ length bytes.now) }
{
    let mut lengths = Vec::new(alloc);
    let mut place = at;
    for _ in 0..count {
        let (length, after) = short_at(order, bytes, place)?;
        lengths.push(length)?;
        place = after;
    }
    Ok((lengths, place))
}

/// The types of some names and as many lengths.
pub fn type_entries(
    alloc: Global,
    names: Vec<Text>,
    lengths: &[u16],
) -> Result<Vec<TypeEntry>, AllocError>
    ensures { IfOk result (λ types. types.items ≡ type_entries names.items lengths.now) }
{
    names
        .into_iter()
        .zip(lengths)
        .map(|(name, length)| TypeEntry {
            name,
            length: *length,
        })
        .collect(alloc)
}

// A member of a catalogue with so many types and names.
#[tactic(auto, unfolding(bl_format::specs::Schema::member_at))]
fn member_at(
    order: Order,
    types: usize,
    names: usize,
    bytes: &[u8],
    at: usize,
) -> Result<(MemberEntry, usize), SdnaFault>
    requires { at ≤ length bytes.now }
    ensures read { result ≡ member_at order types names bytes.now at }
    ensures within { IfOk result (λ read. read.1 ≤ length bytes.now) }
{
    let (type_number, after) = index_at(order, types, bytes, at)?;
    let (name_number, after) = index_at(order, names, bytes, after)?;
    Ok((
        MemberEntry {
            type_number,
            name_number,
        },
        after,
    ))
}

// A number of members, in a catalogue with so many types and names.
fn members(
    alloc: Global,
    order: Order,
    types: usize,
    names: usize,
    count: u16,
    bytes: &[u8],
    at: usize,
) -> Result<(Vec<MemberEntry>, usize), SdnaFault>
    requires { at ≤ length bytes.now }
    ensures read { Gives (λ read. (read.0.items, read.1)) result
        (many_at (member_at order types names bytes.now) count at) }
    ensures within { IfOk result (λ read. read.1 ≤ length bytes.now) }
{
    let mut members = Vec::new(alloc);
    let mut place = at;
    for _ in 0..count {
        let (member, after) = member_at(order, types, names, bytes, place)?;
        members.push(member)?;
        place = after;
    }
    Ok((members, place))
}

// The members of a struct: how many they are, and then each.
#[tactic(auto, unfolding(crate::specs::Lists::members_at))]
fn members_at(
    alloc: Global,
    order: Order,
    types: usize,
    names: usize,
    bytes: &[u8],
    at: usize,
) -> Result<(Vec<MemberEntry>, usize), SdnaFault>
    requires { at ≤ length bytes.now }
    ensures read { Gives (λ read. (read.0.items, read.1)) result
        (members_at order types names bytes.now at) }
    ensures within { IfOk result (λ read. read.1 ≤ length bytes.now) }
{
    let (count, after) = short_at(order, bytes, at)?;
    members(alloc, order, types, names, count, bytes, after)
}

// A struct, whose type none of those seen is, and is seen from then on.
#[tactic(auto, unfolding(crate::specs::Lists::struct_at))]
fn struct_at(
    alloc: Global,
    order: Order,
    types: usize,
    names: usize,
    bytes: &[u8],
    seen: &mut BTreeSet<u16>,
    at: usize,
) -> Result<(StructEntry, usize), SdnaFault>
    requires { at ≤ length bytes.now }
    ensures read { Gives (λ read. read) result
        (struct_at order types names bytes.now (contains nat_cmp seen.old) at) }
    ensures within { IfOk result (λ read. read.1 ≤ length bytes.now) }
    ensures seen { IfOk result (λ read. (number : ℕ) → contains nat_cmp seen.new number
        ≡ ((read.0.type_number == number) || contains nat_cmp seen.old number)) }
{
    let (type_number, after) = index_at(order, types, bytes, at)?;
    if !seen.insert(type_number)? {
        return Err(SdnaFault::TwoStructs(at as u64));
    }
    let (members, after) = members_at(alloc, order, types, names, bytes, after)?;
    Ok((
        StructEntry {
            type_number,
            members: Items::from_vec(members),
        },
        after,
    ))
}

/// A number of structs, of types that all differ, in a catalogue with so many types and names.
pub fn structs(
    alloc: Global,
    order: Order,
    types: usize,
    names: usize,
    count: u32,
    bytes: &[u8],
    at: usize,
) -> Result<(Vec<StructEntry>, usize), SdnaFault>
    requires { at ≤ length bytes.now }
    ensures read { Gives (λ read. (read.0.items, read.1)) result
        (structs_at order types names bytes.now [] count at) }
    ensures within { IfOk result (λ read. read.1 ≤ length bytes.now) }
{
    let mut structs = Vec::new(alloc);
    let mut seen = BTreeSet::new(alloc);
    let mut place = at;
    for _ in 0..count {
        let (entry, after) = struct_at(alloc, order, types, names, bytes, &mut seen, place)?;
        structs.push(entry)?;
        place = after;
    }
    Ok((structs, place))
}
