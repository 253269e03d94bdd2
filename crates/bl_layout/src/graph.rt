ghost use Rattle.std.specs.Prelude.{◌≡◌, ◌<◌, All, IfOk, length};
ghost use Rattle.bl_format.specs.Schema.{IsCatalogue, MemberFits};
ghost use Rattle.bl_layout.specs.Tables.{AreTables};
ghost use Rattle.bl_layout.specs.BasicTypes.{content_meant};
ghost use Rattle.bl_format.specs.Layout.{struct_of_content};
ghost use Rattle.bl_layout.specs.Sizes.{inner_of};
ghost use Rattle.bl_layout.specs.Graph.{AreInnerStructs, inner_among};

use crate::basic_types::Content;
use crate::members::{content_of, name_of};
use crate::tables::Tables;
use bl_format::{Catalogue, MemberEntry};
use std::alloc::{AllocError, Global};

/// Of each struct, the structs that stand in it by value, in the order of its members.
pub fn inner_structs(
    alloc: Global,
    catalogue: &Catalogue,
    tables: &Tables,
) -> Result<Vec<Vec<u32>>, AllocError>
    requires catalogue { IsCatalogue catalogue.now }
    requires tables { AreTables catalogue.now tables.now }
    ensures { IfOk result (λ inner. AreInnerStructs catalogue.now inner.items) }
{
    let structs = catalogue.structs.as_slice();
    let mut inner = Vec::with_capacity(alloc, structs.len())?;
    for entry in structs {
        inner.push(inner_among(alloc, catalogue, tables, entry.members.as_slice())?)?;
    }
    Ok(inner)
}

fn inner_among(
    alloc: Global,
    catalogue: &Catalogue,
    tables: &Tables,
    members: &[MemberEntry],
) -> Result<Vec<u32>, AllocError>
    requires members { All (MemberFits catalogue.now) members.now }
    requires tables { AreTables catalogue.now tables.now }
    ensures { IfOk result (λ inner. inner.items ≡ inner_among catalogue.now members.now) }
{
    members
        .iter()
        .filter_map(|member| inner_struct(catalogue, tables, *member))
        .collect(alloc)
}

/// The struct that a member is by value.
pub fn inner_struct(catalogue: &Catalogue, tables: &Tables, member: MemberEntry) -> Option<u32>
    requires fits { MemberFits catalogue.now member }
    requires tables { AreTables catalogue.now tables.now }
    ensures { result ≡ inner_of catalogue.now member }
{
    if name_of(catalogue, tables, member).shape.pointer {
        return None;
    }
    struct_in(content_of(catalogue, tables, member.type_number))
}

fn struct_in(content: Content) -> Option<u32>
    ensures { result ≡ struct_of_content (content_meant content) }
{
    match content {
        Content::Struct(s) => Some(s),
        Content::Basic(_) | Content::Opaque => None,
    }
}
