ghost use Rattle.std.specs.Prelude.{◌≡◌, ◌<◌, ◌==◌, length};
ghost use Rattle.bl_format.specs.Layout.{member_count, member_size, struct_name};
ghost use Rattle.bl_selection.specs.Fate.{fate_of, pair_fate};
ghost use Rattle.bl_plan.specs.Names.{HasMembers};

use crate::contents::{fate_by_content, fate_by_count};
use bl_layout::Layout;
use bl_sdna::{member_type_length, member_type_name};
use bl_selection::Fate;
use std::collections::BTreeMap;

/// What becomes of a member of struct `t`: by the member of its key in struct `s`, which has the same
/// name and the members `known`.
#[tactic(auto, unfolding(bl_selection::specs::Fate::fate_of))]
pub fn member_fate<'a>(
    from: &'a Layout,
    s: u32,
    known: &BTreeMap<&'a [u8], u32>,
    to: &'a Layout,
    t: u32,
    member: u32,
) -> Fate
    requires known { HasMembers from.now.catalogue s known.now }
    requires s { s < length from.now.catalogue.structs }
    requires t { t < length to.now.catalogue.structs }
    requires name { struct_name from.now.catalogue s ≡ struct_name to.now.catalogue t }
    requires member { member < member_count to.now.catalogue t }
    ensures { result
        ≡ fate_of from.now.catalogue from.now.width s to.now.catalogue to.now.width t member }
{
    let Some(source) = known.get(&to.member_key(t, member)).copied() else {
        return Fate::Fresh;
    };
    if is_empty(from, s, source) || is_empty(to, t, member) {
        return Fate::Fresh;
    }
    pair_fate(from, s, source, to, t, member)
}

// Whether a member has no bytes.
#[tactic(auto, unfolding(bl_format::specs::Layout::shape_of))]
fn is_empty(layout: &Layout, s: u32, member: u32) -> bool
    requires s { s < length layout.now.catalogue.structs }
    requires member { member < member_count layout.now.catalogue s }
    ensures { result ≡ (member_size layout.now.catalogue layout.now.width s member == 0) }
{
    layout.member_shape(s, member).size == 0
}

// The fate of two members that meet, neither of which is empty.
#[tactic(auto, unfolding(bl_format::specs::Layout::shape_of))]
fn pair_fate(from: &Layout, s: u32, j: u32, to: &Layout, t: u32, k: u32) -> Fate
    requires s { s < length from.now.catalogue.structs }
    requires j { j < member_count from.now.catalogue s }
    requires t { t < length to.now.catalogue.structs }
    requires k { k < member_count to.now.catalogue t }
    ensures { result ≡ pair_fate from.now.catalogue s j to.now.catalogue t k }
{
    let source = from.member_shape(s, j);
    let target = to.member_shape(t, k);
    let counts = fate_by_count(source.count, target.count);
    if source.pointer && target.pointer {
        return counts;
    }
    if source.pointer || target.pointer {
        return Fate::Fresh;
    }
    let (c, d) = (from.catalogue(), to.catalogue());
    let name = member_type_name(c, s, j) == member_type_name(d, t, k);
    let length = member_type_length(c, s, j) == member_type_length(d, t, k);
    fate_by_content(
        from.member_content(s, j),
        to.member_content(t, k),
        name,
        length,
        counts,
    )
}
