ghost use Rattle.std.specs.Prelude.{◌≡◌, ◌<◌, ◌*◌, ◌^◌, length};
ghost use Rattle.bl_format.specs.Schema.{CanBeRead, IsCatalogue, MemberFits};
ghost use Rattle.bl_format.specs.Layout.{HasLayout, struct_length, member_count, name_entry, shape_of};
ghost use Rattle.bl_layout.specs.ShapeTables.{IsShapeTables};
ghost use Rattle.bl_layout.specs.MemberNames.{entry_of_name};
ghost use Rattle.bl_layout.specs.Shapes.{IsShort, shape_with};
ghost use Rattle.bl_layout.specs.Tables.{AreTables};

use crate::graph::inner_struct;
use crate::leaves::Part;
use crate::member_names::NameShape;
use crate::member_parts::{entry_of, part_of};
use crate::members::name_of;
use crate::shape_tables::ShapeTables;
use crate::tables::Tables;
use bl_format::{Catalogue, MemberEntry, Shape};
use bl_num::Width;

/// How many structs there are.
pub fn struct_count(catalogue: &Catalogue) -> u32
    requires { IsCatalogue catalogue.now }
    ensures { result ≡ length catalogue.now.structs }
{
    catalogue.structs.as_slice().len() as u32
}

/// The bytes of one value of a struct.
pub fn struct_length(catalogue: &Catalogue, s: u32) -> u32
    requires catalogue { IsCatalogue catalogue.now }
    requires s { s < length catalogue.now.structs }
    ensures { result ≡ struct_length catalogue.now s }
{
    let number = catalogue.structs.as_slice()[s as usize].type_number;
    u32::from(catalogue.types.as_slice()[number as usize].length)
}

/// What is known of a member by its name and its place.
pub fn member_shape(
    catalogue: &Catalogue,
    width: Width,
    shape_tables: &ShapeTables,
    s: u32,
    member: u32,
) -> Shape
    requires has_layout { HasLayout catalogue.now width }
    requires shape_tables { IsShapeTables catalogue.now width shape_tables.now }
    requires s { s < length catalogue.now.structs }
    requires member { member < member_count catalogue.now s }
    ensures { result ≡ shape_of catalogue.now width s member }
{
    let entry = entry_of(catalogue, s, member);
    let name = short_name(catalogue, &shape_tables.tables, entry);
    let part = part_of(catalogue, width, shape_tables, s, member, entry);
    let inner = inner_struct(catalogue, &shape_tables.tables, entry);
    shape_with(name, part, inner)
}

fn short_name(catalogue: &Catalogue, tables: &Tables, member: MemberEntry) -> NameShape
    requires catalogue { CanBeRead catalogue.now }
    requires tables { AreTables catalogue.now tables.now }
    requires fits { MemberFits catalogue.now member }
    ensures is { result ≡ (entry_of_name (name_entry catalogue.now member.name_number)).shape }
    ensures short { IsShort result }
{
    name_of(catalogue, tables, member).shape
}

fn shape_with(name: NameShape, part: Part, inner: Option<u32>) -> Shape
    requires name { IsShort name }
    requires size { part.size * part.count < 2 ^ 32 }
    ensures { result ≡ shape_with name part inner }
{
    Shape {
        pointer: name.pointer,
        depth: name.depth as u32,
        identifier_at: name.identifier_at as u32,
        identifier_len: name.identifier_len as u32,
        key_len: name.key_len as u32,
        brackets: name.brackets,
        count: part.count,
        offset: part.offset,
        size: part.size * part.count,
        inner,
    }
}
