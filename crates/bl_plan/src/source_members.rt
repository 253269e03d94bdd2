// The members of a struct by their keys, as the members of its namesake meet them.
ghost use Rattle.std.specs.Prelude.{◌≡◌, ◌<◌, IfOk, IfSome, length};
ghost use Rattle.std.specs.Option.{option_and_then};
ghost use Rattle.bl_format.specs.Layout.{HasLayout, struct_name};
ghost use Rattle.bl_plan.specs.SourcePlaces.{HasFirstLeaves, source_member, own_leaf_of, elements_by, elements_of};

use crate::names::learn;
use bl_layout::Layout;
use bl_num::NoMemory;
use bl_sdna::struct_name;
use std::alloc::Global;
use std::collections::BTreeMap;

/// A member of the source that has leaves.
#[derive(Clone, Copy)]
pub struct SourceMember {
    /// The number of its first leaf.
    pub first: u32,
    /// How many elements it has.
    pub count: u32,
    /// The number of the struct that it is by value.
    pub inner: Option<u32>,
}

/// The elements of a member of the source that is a struct by value.
#[derive(Clone, Copy)]
pub struct SourceElements {
    /// The number of the struct.
    pub s: u32,
    /// The number of the first leaf of element 0.
    pub first: u32,
    /// How many leaves an element has.
    pub leaves: u32,
    /// How many elements there are.
    pub count: u32,
}

/// The first leaf of each member of a struct, by the member's key. A file chooses its names, so they
/// are kept in order: in a hashed table it could choose ones that collide.
pub fn first_leaves(
    alloc: Global,
    layout: &Layout,
    s: u32,
) -> Result<BTreeMap<&[u8], u32>, NoMemory>
    requires { s < length layout.now.catalogue.structs }
    ensures table { IfOk result (HasFirstLeaves layout.now.catalogue layout.now.width s) }
    ensures has_layout { HasLayout layout.now.catalogue layout.now.width }
{
    let mut table: BTreeMap<&[u8], u32> = BTreeMap::new(alloc);
    for (place, leaf) in layout.leaves(s).iter().enumerate() {
        learn(&mut table, layout.member_key(s, leaf.member), place as u32)?;
    }
    Ok(table)
}

/// The member of a key, if one with leaves has it.
#[tactic(auto, unfolding(crate::specs::SourcePlaces::source_member))]
pub fn source_member<'a>(
    layout: &Layout,
    s: u32,
    table: &BTreeMap<&'a [u8], u32>,
    key: &'a [u8],
) -> Option<SourceMember>
    requires s { s < length layout.now.catalogue.structs }
    requires table { HasFirstLeaves layout.now.catalogue layout.now.width s table.now }
    ensures { result ≡ source_member layout.now.catalogue layout.now.width s key.now }
{
    let first = table.get(&key).copied()?;
    let member = layout.leaves(s)[first as usize].member;
    let shape = layout.member_shape(s, member);
    Some(SourceMember {
        first,
        count: shape.count,
        inner: shape.inner,
    })
}

/// The one leaf of a member that is no struct by value.
pub fn own_leaf_of(source: Option<SourceMember>) -> Option<u32>
    ensures { result ≡ option_and_then own_leaf_of source }
{
    match source {
        Some(
            SourceMember {
                first,
                inner: None,
                ..
            },
        ) => Some(first),
        _ => None,
    }
}

/// The elements of a member that is by value the struct of a name.
pub fn elements_of(
    layout: &Layout,
    name: &[u8],
    source: Option<SourceMember>,
) -> Option<SourceElements>
    requires { IfSome source (λ x. IfSome x.inner (λ s. s < length layout.now.catalogue.structs)) }
    ensures { result
        ≡ option_and_then (elements_of layout.now.catalogue layout.now.width name.now) source }
{
    let member = source?;
    let s = member.inner?;
    elements_by(layout, name, member, s)
}

// The elements of a member that is struct `s` by value, if that has the name.
fn elements_by(layout: &Layout, name: &[u8], member: SourceMember, s: u32) -> Option<SourceElements>
    requires { s < length layout.now.catalogue.structs }
    ensures { result ≡ elements_by layout.now.catalogue layout.now.width name.now member s }
{
    if struct_name(layout.catalogue(), s) != name {
        return None;
    }
    let leaves = layout.leaves(s);
    Some(SourceElements {
        s,
        first: member.first,
        leaves: leaves.len() as u32,
        count: member.count,
    })
}
