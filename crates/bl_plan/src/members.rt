// The leaves of structs, the member at which each one ends, and its type. The way to it is found by the leaf's place.
ghost use Rattle.std.specs.Prelude.{◌≡◌, ◌<◌, ℕ, length, Some};
ghost use Rattle.bl_format.specs.Layout.{HasLayout, inner_struct, leaf_of, named_leaves};
ghost use Rattle.bl_selection.specs.Fate.{direct_member};
ghost use Rattle.bl_plan.specs.Meetings.{leaf_at};
ghost use Rattle.bl_plan.specs.Ways.{HasPlace, IsAmongMembers, place_inside};

use bl_format::Leaf;
use bl_layout::Layout;
use bl_sdna::member_type_name;

/// A member of a struct.
#[derive(Clone, Copy)]
pub struct Member {
    pub s: u32,
    pub member: u32,
}

// A place in an element of a struct.
#[derive(Clone, Copy)]
struct Place {
    s: u32,
    at: u32,
}

/// How many leaves struct `s` has.
pub fn leaf_count(layout: &Layout, s: u32) -> u32
    requires { s < length layout.now.catalogue.structs }
    ensures count { result ≡ length (named_leaves layout.now.catalogue layout.now.width s) }
    ensures has_layout { HasLayout layout.now.catalogue layout.now.width }
{
    let leaves = layout.leaves(s);
    leaves.len() as u32
}

/// A leaf of struct `s`.
pub fn leaf_at(layout: &Layout, s: u32, leaf: u32) -> &Leaf
    requires s { s < length layout.now.catalogue.structs }
    requires leaf { leaf < length (named_leaves layout.now.catalogue layout.now.width s) }
    ensures is { result.now ≡ leaf_of (leaf_at layout.now s leaf) }
    ensures has_layout { HasLayout layout.now.catalogue layout.now.width }
{
    let leaves = layout.leaves(s);
    &leaves[leaf as usize]
}

/// The name of the type of a leaf of struct `s`.
pub fn leaf_type(layout: &Layout, s: u32, leaf: u32) -> &[u8]
    requires s { s < length layout.now.catalogue.structs }
    requires leaf { leaf < length (named_leaves layout.now.catalogue layout.now.width s) }
    ensures { result.now ≡ (leaf_at layout.now s leaf).type_name }
{
    let direct = direct_member(layout, s, leaf);
    member_type_name(layout.catalogue(), direct.s, direct.member)
}

/// The innermost struct on the way to a leaf of struct `s`, and the member there.
pub fn direct_member(layout: &Layout, s: u32, leaf: u32) -> Member
    requires s { s < length layout.now.catalogue.structs }
    requires leaf { leaf < length (named_leaves layout.now.catalogue layout.now.width s) }
    ensures s { result.s ≡ (direct_member (leaf_at layout.now s leaf).way).0 }
    ensures member { result.member ≡ (direct_member (leaf_at layout.now s leaf).way).1 }
{
    let own = leaf_at(layout, s, leaf);
    let steps = own.steps.as_slice();
    let mut place = Place { s, at: own.offset };
    for step in 1..steps.len() {
        place = inner_place(layout, place);
    }
    Member {
        s: place.s,
        member: member_at(layout, place),
    }
}

// The same place in the struct by value that stands there.
#[tactic(auto, unfolding(bl_format::specs::Layout::shape_of))]
fn inner_place(layout: &Layout, place: Place) -> Place
    requires { IsAmongMembers layout.now.catalogue layout.now.width place.s place.at }
    ensures { (k t : ℕ) → HasPlace layout.now.catalogue layout.now.width place.s k place.at
        → inner_struct layout.now.catalogue place.s k ≡ Some t
        → result ≡ record { s = t; at = place_inside layout.now.catalogue layout.now.width place.s k t place.at } }
{
    let shape = layout.member_shape(place.s, member_at(layout, place));
    match shape.inner {
        Some(inner) => Place {
            s: inner,
            at: (place.at - shape.offset) % layout.length(inner),
        },
        None => place,
    }
}

// The member that has a place: the last one that begins there or before.
#[tactic(auto, unfolding(bl_format::specs::Layout::shape_of))]
fn member_at(layout: &Layout, place: Place) -> u32
    requires { IsAmongMembers layout.now.catalogue layout.now.width place.s place.at }
    ensures { HasPlace layout.now.catalogue layout.now.width place.s result place.at }
{
    let mut low = 0;
    let mut high = layout.member_count(place.s);
    'search: while high - low > 1 {
        let middle = low + (high - low) / 2;
        if layout.member_shape(place.s, middle).offset <= place.at {
            low = middle;
        } else {
            high = middle;
        }
    }
    low
}
