// Names and lengths in a catalogue by numbers. What isn't there has no name and no bytes.
ghost use Rattle.std.specs.Prelude.{◌≡◌, length, option_copied, unwrap_or};
ghost use Rattle.bl_format.specs.Layout.{struct_name, member_entry, name_entry, type_entry};

use bl_format::{Catalogue, MemberEntry};

/// The name of a struct, which is that of its type, and nothing where there is none of the number.
pub fn struct_name(catalogue: &Catalogue, s: u32) -> &[u8]
    ensures { result.now ≡ struct_name catalogue.now s }
{
    let Some(entry) = catalogue.structs.as_slice().get(s as usize) else {
        return &[];
    };
    type_name(catalogue, entry.type_number)
}

/// The whole name of a member, and nothing where there is none of the numbers.
pub fn member_name(catalogue: &Catalogue, s: u32, member: u32) -> &[u8]
    ensures { result.now ≡ name_entry catalogue.now (member_entry catalogue.now s member).name_number }
{
    let Some(entry) = member_entry(catalogue, s, member) else {
        return &[];
    };
    match catalogue.names.as_slice().get(entry.name_number as usize) {
        Some(name) => name.as_slice(),
        None => &[],
    }
}

/// The name of a member's type, and nothing where there is none of the numbers.
pub fn member_type_name(catalogue: &Catalogue, s: u32, member: u32) -> &[u8]
    ensures { result.now ≡ (type_entry catalogue.now (member_entry catalogue.now s member).type_number).name }
{
    let Some(entry) = member_entry(catalogue, s, member) else {
        return &[];
    };
    type_name(catalogue, entry.type_number)
}

/// The length of a member's type, and 0 where there is none of the numbers.
pub fn member_type_length(catalogue: &Catalogue, s: u32, member: u32) -> u16
    ensures { result ≡ (type_entry catalogue.now (member_entry catalogue.now s member).type_number).length }
{
    let Some(entry) = member_entry(catalogue, s, member) else {
        return 0;
    };
    match catalogue.types.as_slice().get(entry.type_number as usize) {
        Some(named) => named.length,
        None => 0,
    }
}

// A member, where there is one of the numbers.
fn member_entry(catalogue: &Catalogue, s: u32, member: u32) -> Option<&MemberEntry>
    ensures { unwrap_or (option_copied result)
        (record { type_number = length catalogue.now.types; name_number = length catalogue.now.names })
        ≡ member_entry catalogue.now s member }
{
    let entry = catalogue.structs.as_slice().get(s as usize)?;
    entry.members.as_slice().get(member as usize)
}

// The name of a type, and nothing where there is none of the number.
fn type_name(catalogue: &Catalogue, t: u16) -> &[u8]
    ensures { result.now ≡ (type_entry catalogue.now t).name }
{
    match catalogue.types.as_slice().get(t as usize) {
        Some(named) => named.name.as_slice(),
        None => &[],
    }
}
