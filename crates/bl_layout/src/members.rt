ghost use Rattle.std.specs.Prelude.{◌≡◌, ◌≤◌, ◌<◌, ◌^◌, ◌*◌, option_map, length};
ghost use Rattle.bl_num.specs.Numbers.{pointer_bytes};
ghost use Rattle.bl_format.specs.Schema.{IsCatalogue, MemberFits};
ghost use Rattle.bl_layout.specs.Tables.{AreTables};
ghost use Rattle.bl_layout.specs.BasicTypes.{basic_meant, content_meant};
ghost use Rattle.bl_layout.specs.MemberNames.{entry_of_name};
ghost use Rattle.bl_format.specs.Layout.{name_entry, content_of};
ghost use Rattle.bl_layout.specs.Sizes.{element_size_of, size_of, basic_in, has_bad_length};

use crate::basic_types::{Basic, Content, has_length};
use crate::member_names::NameEntry;
use crate::tables::Tables;
use bl_format::{Catalogue, MemberEntry};
use bl_num::Width;

/// What the name of a member says.
pub fn name_of(catalogue: &Catalogue, tables: &Tables, member: MemberEntry) -> NameEntry
    requires fits { MemberFits catalogue.now member }
    requires tables { AreTables catalogue.now tables.now }
    ensures { result ≡ entry_of_name (name_entry catalogue.now member.name_number) }
{
    tables.names[member.name_number as usize]
}

/// What the type of a member holds.
pub fn content_of(catalogue: &Catalogue, tables: &Tables, type_number: u16) -> Content
    requires fits { type_number < length catalogue.now.types }
    requires tables { AreTables catalogue.now tables.now }
    ensures { content_meant result ≡ content_of catalogue.now type_number }
{
    tables.contents[type_number as usize]
}

/// The bytes of one element of a member.
pub fn element_size(
    catalogue: &Catalogue,
    tables: &Tables,
    width: Width,
    member: MemberEntry,
) -> u64
    requires fits { MemberFits catalogue.now member }
    requires tables { AreTables catalogue.now tables.now }
    ensures size { result ≡ element_size_of catalogue.now width member }
    ensures small { result < 2 ^ 16 }
{
    if name_of(catalogue, tables, member).shape.pointer {
        pointer_bytes(width)
    } else {
        u64::from(catalogue.types.as_slice()[member.type_number as usize].length)
    }
}

/// The bytes of all elements of a member.
pub fn member_size(catalogue: &Catalogue, tables: &Tables, width: Width, member: MemberEntry) -> u64
    requires fits { MemberFits catalogue.now member }
    requires tables { AreTables catalogue.now tables.now }
    ensures size { result ≡ size_of catalogue.now width member }
    ensures small { result < 2 ^ 48 }
{
    let count = name_of(catalogue, tables, member).shape.count;
    element_size(catalogue, tables, width, member) * u64::from(count)
}

pub fn pointer_bytes(width: Width) -> u64
    ensures { result ≡ pointer_bytes width }
{
    match width {
        Width::Four => 4,
        Width::Eight => 8,
    }
}

/// Whether a member has a length that its basic type may not have, or stands in a struct with the
/// name of a basic type.
pub fn has_bad_length(own: Content, content: Content, length: u16, pointer: bool) -> bool
    ensures { result ≡ has_bad_length (content_meant own) (content_meant content) length pointer }
{
    if basic_in(own).is_some() {
        return true;
    }
    match basic_in(content) {
        Some(basic) => !pointer && !has_length(basic, length),
        None => false,
    }
}

/// The basic type that is held.
pub fn basic_in(content: Content) -> Option<Basic>
    ensures { option_map basic_meant result ≡ basic_in (content_meant content) }
{
    match content {
        Content::Basic(basic) => Some(basic),
        Content::Struct(_) | Content::Opaque => None,
    }
}
