// Which structs have the part of an ID.
ghost use Rattle.std.specs.Prelude.{◌≡◌, ◌<◌, ◌≤◌, ◌+◌, ◌&&◌, ◌==◌, IfOk, length, codes};
ghost use Rattle.std.specs.Str.{bytes_eq};
ghost use Rattle.bl_format.specs.Words.{part};
ghost use Rattle.bl_format.specs.Layout.{member_count};
ghost use Rattle.bl_format.specs.Nodes.{has_id_part, is_id_member};
ghost use Rattle.bl_file.specs.Ids.{id_parts, is_id_struct};

use bl_format::Catalogue;
use bl_layout::{Layout, Shape};
use bl_num::NoMemory;
use bl_sdna::{member_name, struct_name};
use std::alloc::Global;

/// For each struct whether it has the part of an ID.
pub fn id_parts(alloc: Global, layout: &Layout) -> Result<Vec<bool>, NoMemory>
    ensures { IfOk result (λ parts. parts.items ≡ id_parts layout.now.catalogue) }
{
    let count = layout.struct_count();
    let mut parts = Vec::with_capacity(alloc, count as usize)?;
    for s in 0..count {
        parts.push(has_id_part(layout, s))?;
    }
    Ok(parts)
}

// Whether a struct is `ID`, or its first member is.
#[tactic(auto, unfolding(bl_format::specs::Nodes::has_id_part))]
fn has_id_part(layout: &Layout, s: u32) -> bool
    requires { s < length layout.now.catalogue.structs }
    ensures { result ≡ has_id_part layout.now.catalogue s }
{
    is_id_name(struct_name(layout.catalogue(), s))
        || (layout.member_count(s) > 0 && is_id_member(layout, s))
}

// Whether the first member of a struct is `id`, one `ID` by value.
fn is_id_member(layout: &Layout, s: u32) -> bool
    requires s { s < length layout.now.catalogue.structs }
    requires member { 0 < member_count layout.now.catalogue s }
    ensures { result ≡ is_id_member layout.now.catalogue s 0 }
{
    let shape = layout.member_shape(s, 0);
    let name = member_name(layout.catalogue(), s, 0);
    let identifier = identifier_in(name, &shape);
    is_one_id(
        identifier,
        shape.count,
        is_id_struct(layout.catalogue(), shape.inner),
    )
}

// Whether a member of this identifier and count is `id`, one `ID`.
fn is_one_id(identifier: &[u8], count: u32, is_id: bool) -> bool
    ensures { result ≡ (bytes_eq identifier.now (codes "id") && count == 1 && is_id) }
{
    identifier == b"id".as_slice() && count == 1 && is_id
}

// Whether a struct is `ID`, where there is one.
fn is_id_struct(catalogue: &Catalogue, s: Option<u32>) -> bool
    ensures { result ≡ is_id_struct catalogue.now s }
{
    match s {
        Some(s) => is_id_name(struct_name(catalogue, s)),
        None => false,
    }
}

// The identifier in a member's name.
fn identifier_in<'a>(name: &'a [u8], shape: &Shape) -> &'a [u8]
    requires { shape.now.identifier_at + shape.now.identifier_len ≤ length name.now }
    ensures { result.now ≡ part name.now shape.now.identifier_at shape.now.identifier_len }
{
    &name[shape.identifier_at as usize..][..shape.identifier_len as usize]
}

fn is_id_name(name: &[u8]) -> bool
    ensures { result ≡ bytes_eq name.now (codes "ID") }
{
    name == b"ID".as_slice()
}
