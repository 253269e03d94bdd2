// Whether a draft has the structs of its source as they are.
ghost use Rattle.std.specs.Prelude.{◌≡◌, ◌↔◌, IsTrue};

use bl_file::Outline;
use bl_format::{Catalogue, MemberEntry, StructEntry, TypeEntry};
use bl_num::Text;
use bl_selection::Draft;

/// Whether a draft has its source's catalogue and width, so that all structs stay as they are.
pub fn has_own_structs(outline: &Outline, draft: &Draft) -> bool
    ensures { IsTrue result ↔ ((draft.now.catalogue ≡ outline.now.layout.catalogue)
        × (draft.now.header.width ≡ outline.now.header.width)) }
{
    draft.header.width == outline.header.width
        && is_same(&draft.catalogue, outline.layout.catalogue())
}

// Whether two catalogues are the same.
fn is_same(catalogue: &Catalogue, other: &Catalogue) -> bool
    ensures { IsTrue result ↔ (catalogue.now ≡ other.now) }
{
    have_same_names(catalogue.names.as_slice(), other.names.as_slice())
        && have_same_types(catalogue.types.as_slice(), other.types.as_slice())
        && have_same_structs(catalogue.structs.as_slice(), other.structs.as_slice())
}

// Whether names are the same, in order.
fn have_same_names(names: &[Text], others: &[Text]) -> bool
    ensures { IsTrue result ↔ (names.now ≡ others.now) }
{
    if names.len() != others.len() {
        return false;
    }
    for (k, name) in names.iter().enumerate() {
        if !is_same_name(name, &others[k]) {
            return false;
        }
    }
    true
}

// Whether two names are the same.
fn is_same_name(name: &Text, other: &Text) -> bool
    ensures { IsTrue result ↔ (name.now ≡ other.now) }
{
    name.as_slice() == other.as_slice()
}

// Whether types are the same, in order.
fn have_same_types(types: &[TypeEntry], others: &[TypeEntry]) -> bool
    ensures { IsTrue result ↔ (types.now ≡ others.now) }
{
    if types.len() != others.len() {
        return false;
    }
    for (k, entry) in types.iter().enumerate() {
        if !is_same_type(entry, &others[k]) {
            return false;
        }
    }
    true
}

// Whether two types are the same.
fn is_same_type(entry: &TypeEntry, other: &TypeEntry) -> bool
    ensures { IsTrue result ↔ (entry.now ≡ other.now) }
{
    entry.length == other.length && is_same_name(&entry.name, &other.name)
}

// Whether structs are the same, in order.
fn have_same_structs(structs: &[StructEntry], others: &[StructEntry]) -> bool
    ensures { IsTrue result ↔ (structs.now ≡ others.now) }
{
    if structs.len() != others.len() {
        return false;
    }
    for (k, entry) in structs.iter().enumerate() {
        if !is_same_struct(entry, &others[k]) {
            return false;
        }
    }
    true
}

// Whether two structs are the same.
fn is_same_struct(entry: &StructEntry, other: &StructEntry) -> bool
    ensures { IsTrue result ↔ (entry.now ≡ other.now) }
{
    entry.type_number == other.type_number
        && have_same_members(entry.members.as_slice(), other.members.as_slice())
}

// Whether members are the same, in order.
fn have_same_members(members: &[MemberEntry], others: &[MemberEntry]) -> bool
    ensures { IsTrue result ↔ (members.now ≡ others.now) }
{
    if members.len() != others.len() {
        return false;
    }
    for (k, member) in members.iter().enumerate() {
        if !is_same_member(member, &others[k]) {
            return false;
        }
    }
    true
}

// Whether two members are the same.
fn is_same_member(member: &MemberEntry, other: &MemberEntry) -> bool
    ensures { IsTrue result ↔ (member.now ≡ other.now) }
{
    member.type_number == other.type_number && member.name_number == other.name_number
}
