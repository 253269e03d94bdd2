// What becomes of two leaves that meet, of a source's struct and a target's.
ghost use Rattle.std.specs.Prelude.{◌≡◌, ◌<◌, ◌*◌, ◌^◌, length};
ghost use Rattle.bl_format.specs.Layout.{leaf_of, named_leaves};
ghost use Rattle.bl_selection.specs.Fate.{is_char, is_whole, kept_count, same_type};
ghost use Rattle.bl_plan.specs.Meetings.{are_alike, is_opaque, leaf_at, meeting_at, meeting_by, step_between, whole_carry};

use crate::members::{leaf_at, leaf_type};
use crate::steps::{Carry, Step};
use bl_format::{Kind, Leaf};
use bl_layout::Layout;
use bl_num::{Whole, Width};

/// What becomes of a leaf of the target.
#[derive(Clone, Copy)]
pub enum Meeting {
    /// It becomes zeros.
    Fresh,
    /// A step carries it over from the leaf that it meets.
    Carried(Step),
    /// A float meets another number.
    Clash,
}

/// What becomes of a leaf of struct `t` that meets a leaf of struct `s`.
pub fn meeting_at(from: &Layout, s: u32, source: u32, to: &Layout, t: u32, target: u32) -> Meeting
    requires s { s < length from.now.catalogue.structs }
    requires t { t < length to.now.catalogue.structs }
    requires source { source < length (named_leaves from.now.catalogue from.now.width s) }
    requires target { target < length (named_leaves to.now.catalogue to.now.width t) }
    ensures { result ≡ meeting_at from.now.width to.now.width
        (leaf_at from.now s source) (leaf_at to.now t target) }
{
    let kept = kept_count(from, s, source, to, t, target);
    let alike = are_alike(from, s, source, to, t, target);
    let x = leaf_at(from, s, source);
    let y = leaf_at(to, t, target);
    meeting_by(from.width(), to.width(), x, y, kept, alike)
}

#[tactic(auto, unfolding(crate::specs::Meetings::meeting_by))]
fn meeting_by(from: Width, to: Width, x: &Leaf, y: &Leaf, kept: u32, alike: bool) -> Meeting
    requires { kept * x.now.size < 2 ^ 32 }
    ensures { result ≡ meeting_by from to x.now y.now kept alike x.now.kind y.now.kind }
{
    match (x.kind, y.kind) {
        (Kind::Pointer { .. }, Kind::Pointer { .. }) => {
            let carry = Carry::Pointers {
                source: from,
                target: to,
            };
            Meeting::Carried(step_between(x, y, kept, carry))
        }
        (Kind::Whole(a), Kind::Whole(b)) => {
            Meeting::Carried(step_between(x, y, kept, whole_carry(a, b)))
        }
        (Kind::Bits(a), Kind::Bits(b)) if a == b => {
            Meeting::Carried(step_between(x, y, kept, Carry::Kept(a)))
        }
        (Kind::Bits(_), Kind::Bits(_) | Kind::Whole(_)) | (Kind::Whole(_), Kind::Bits(_)) => {
            Meeting::Clash
        }
        (Kind::Opaque, Kind::Opaque) if alike => {
            Meeting::Carried(step_between(x, y, kept * x.size, Carry::Kept(1)))
        }
        _ => Meeting::Fresh,
    }
}

// The first elements of a leaf, carried over to another.
fn step_between(x: &Leaf, y: &Leaf, count: u32, carry: Carry) -> Step
    ensures { result ≡ step_between x.now y.now count carry }
{
    Step {
        from: x.offset,
        to: y.offset,
        count,
        carry,
    }
}

// Whole numbers of one length have the same bits, and others are cast.
#[tactic(auto, unfolding(crate::specs::Meetings::whole_carry))]
fn whole_carry(source: Whole, target: Whole) -> Carry
    ensures { result ≡ whole_carry source target }
{
    if source.bytes == target.bytes {
        Carry::Kept(source.bytes)
    } else {
        Carry::Cast { source, target }
    }
}

// How many elements the target's leaf keeps: of `char`, where it is shorter, one fewer than it has.
fn kept_count(from: &Layout, s: u32, source: u32, to: &Layout, t: u32, target: u32) -> u32
    requires s { s < length from.now.catalogue.structs }
    requires t { t < length to.now.catalogue.structs }
    requires source { source < length (named_leaves from.now.catalogue from.now.width s) }
    requires target { target < length (named_leaves to.now.catalogue to.now.width t) }
    ensures { result ≡ kept_count (leaf_at from.now s source) (leaf_at to.now t target) }
{
    let old = leaf_at(from, s, source).count;
    let new = leaf_at(to, t, target).count;
    if new < old && is_char(from, s, source) && is_char(to, t, target) {
        new - 1
    } else {
        old.min(new)
    }
}

// A leaf holds `char` by value.
fn is_char(layout: &Layout, s: u32, leaf: u32) -> bool
    requires s { s < length layout.now.catalogue.structs }
    requires leaf { leaf < length (named_leaves layout.now.catalogue layout.now.width s) }
    ensures { result ≡ is_char (leaf_at layout.now s leaf) }
{
    is_whole(leaf_at(layout, s, leaf).kind) && leaf_type(layout, s, leaf) == b"char".as_slice()
}

fn is_whole(kind: Kind) -> bool
    ensures { result ≡ is_whole kind }
{
    matches!(kind, Kind::Whole(_))
}

fn is_opaque(kind: Kind) -> bool
    ensures { result ≡ is_opaque kind }
{
    matches!(kind, Kind::Opaque)
}

// Two leaves hold opaque bytes of one type and length.
fn are_alike(from: &Layout, s: u32, source: u32, to: &Layout, t: u32, target: u32) -> bool
    requires s { s < length from.now.catalogue.structs }
    requires t { t < length to.now.catalogue.structs }
    requires source { source < length (named_leaves from.now.catalogue from.now.width s) }
    requires target { target < length (named_leaves to.now.catalogue to.now.width t) }
    ensures { result ≡ are_alike (leaf_at from.now s source) (leaf_at to.now t target) }
{
    let x = leaf_at(from, s, source);
    let y = leaf_at(to, t, target);
    is_opaque(x.kind)
        && is_opaque(y.kind)
        && x.size == y.size
        && leaf_type(from, s, source) == leaf_type(to, t, target)
}
