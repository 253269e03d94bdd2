ghost use Rattle.std.specs.Prelude.{◌≡◌, ◌==◌, ◌<◌, ◌+◌, ◌*◌, ◌^◌, ◌&&◌, All, false, not, None, length};
ghost use Rattle.bl_format.specs.Schema.{IsCatalogue, MemberFits};
ghost use Rattle.bl_format.specs.Layout.{content_of, first_fault, is_bad_length, kind_of, member_count, member_entry, name_of, type_entry};
ghost use Rattle.bl_layout.specs.ShapeTables.{IsShapeTables};
ghost use Rattle.bl_layout.specs.BasicTypes.{content_meant};
ghost use Rattle.bl_layout.specs.Leaves.{kind_at, part_at, part_of};
ghost use Rattle.bl_layout.specs.Sizes.{basic_in, parts_of};
ghost use Rattle.bl_layout.specs.Tables.{AreTables};

use crate::basic_types::{self, Content};
use crate::leaves::Part;
use crate::member_names::key_in;
use crate::members::{content_of, element_size, name_of};
use crate::shape_tables::ShapeTables;
use crate::tables::Tables;
use bl_format::{Catalogue, Kind, MemberEntry};
use bl_num::Width;

/// Member `k` of struct `s`.
pub fn entry_of(catalogue: &Catalogue, s: u32, k: u32) -> MemberEntry
    requires catalogue { IsCatalogue catalogue.now }
    requires place { s < length catalogue.now.structs }
    requires member { k < member_count catalogue.now s }
    ensures entry { result ≡ member_entry catalogue.now s k }
    ensures fits { MemberFits catalogue.now result }
{
    let members = catalogue.structs.as_slice()[s as usize].members.as_slice();
    members[k as usize]
}

/// How many members struct `s` has.
pub fn member_count(catalogue: &Catalogue, s: u32) -> u32
    requires catalogue { IsCatalogue catalogue.now }
    requires place { s < length catalogue.now.structs }
    ensures { result ≡ member_count catalogue.now s }
{
    let members = catalogue.structs.as_slice()[s as usize].members.as_slice();
    members.len() as u32
}

/// The key of member `k` of struct `s`.
pub fn member_key<'a>(catalogue: &'a Catalogue, tables: &Tables, s: u32, k: u32) -> &'a [u8]
    requires catalogue { IsCatalogue catalogue.now }
    requires tables { AreTables catalogue.now tables.now }
    requires place { s < length catalogue.now.structs }
    requires member { k < member_count catalogue.now s }
    ensures { result.now ≡ (name_of catalogue.now s k).key }
{
    let entry = entry_of(catalogue, s, k);
    let name = &catalogue.names.as_slice()[entry.name_number as usize];
    key_in(name.as_slice(), name_of(catalogue, tables, entry).shape)
}

/// What the type of member `k` of struct `s` holds.
pub fn member_content(catalogue: &Catalogue, tables: &Tables, s: u32, k: u32) -> Content
    requires catalogue { IsCatalogue catalogue.now }
    requires tables { AreTables catalogue.now tables.now }
    requires place { s < length catalogue.now.structs }
    requires member { k < member_count catalogue.now s }
    ensures { content_meant result ≡ content_of catalogue.now (member_entry catalogue.now s k).type_number }
{
    let entry = entry_of(catalogue, s, k);
    content_of(catalogue, tables, entry.type_number)
}

/// What the leaves of member `k` of struct `s` are made from, where its entry is known.
pub fn part_of(
    catalogue: &Catalogue,
    width: Width,
    shape_tables: &ShapeTables,
    s: u32,
    k: u32,
    entry: MemberEntry,
) -> Part
    requires catalogue { IsCatalogue catalogue.now }
    requires shape_tables { IsShapeTables catalogue.now width shape_tables.now }
    requires members { first_fault catalogue.now width ≡ None }
    requires place { s < length catalogue.now.structs }
    requires member { k < member_count catalogue.now s }
    requires entry { entry ≡ member_entry catalogue.now s k }
    ensures part { result ≡ part_of catalogue.now width s k }
    ensures near { result.offset + result.size * result.count < 2 ^ 31 }
{
    let row = shape_tables.offsets.as_slice()[s as usize].as_slice();
    let offset = row[k as usize];
    part_at(catalogue, &shape_tables.tables, width, k, entry, offset)
}

fn part_at(
    catalogue: &Catalogue,
    tables: &Tables,
    width: Width,
    k: u32,
    entry: MemberEntry,
    offset: u32,
) -> Part
    requires fits { MemberFits catalogue.now entry }
    requires tables { AreTables catalogue.now tables.now }
    ensures { result ≡ part_at catalogue.now width k entry offset }
{
    Part {
        member: k,
        name_number: entry.name_number,
        offset,
        size: element_size(catalogue, tables, width, entry) as u32,
        count: name_of(catalogue, tables, entry).shape.count,
    }
}

/// Whether a member has no bytes.
pub fn is_empty(part: Part) -> bool
    ensures { result ≡ (part.size * part.count == 0) }
{
    u64::from(part.size) * u64::from(part.count) == 0
}

/// What the leaf of a member holds that has a length of its basic type.
pub fn kind_at(catalogue: &Catalogue, tables: &Tables, entry: MemberEntry) -> Kind
    requires fits { MemberFits catalogue.now entry }
    requires tables { AreTables catalogue.now tables.now }
    requires names { All (λ n. length n < 2 ^ 32) catalogue.now.names }
    requires good { (not (parts_of catalogue.now entry).pointer
        && is_bad_length (basic_in (content_of catalogue.now entry.type_number))
        (type_entry catalogue.now entry.type_number).length) ≡ false }
    ensures { result ≡ kind_at catalogue.now entry }
{
    let shape = name_of(catalogue, tables, entry).shape;
    if shape.pointer {
        return Kind::Pointer {
            depth: shape.depth as u32,
            type_number: entry.type_number,
        };
    }
    let length = catalogue.types.as_slice()[entry.type_number as usize].length;
    basic_types::kind_of(content_of(catalogue, tables, entry.type_number), length)
}
