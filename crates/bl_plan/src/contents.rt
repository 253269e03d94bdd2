// The fate of two members by how many elements they have, and by what their types hold.
ghost use Rattle.std.specs.Prelude.{◌≡◌, if◌then◌else◌};
ghost use Rattle.bl_format.specs.Layout.{IsBasic};
ghost use Rattle.bl_layout.specs.BasicTypes.{basic_meant, content_meant};
ghost use Rattle.bl_selection.specs.Fate.{fate_by_content, fate_by_count, same_sign};

use bl_layout::{Basic, Content};
use bl_selection::Fate;

/// The fate of members that carry their values over, by the counts of their elements.
pub fn fate_by_count(from: u32, to: u32) -> Fate
    ensures { result ≡ fate_by_count from to }
{
    if to < from {
        Fate::Cut
    } else if from < to {
        Fate::Extended
    } else {
        Fate::Kept
    }
}

/// The fate of two members by value, by what they hold, whether their types have one name and one
/// length, and their fate by counts.
pub fn fate_by_content(from: Content, to: Content, name: bool, length: bool, counts: Fate) -> Fate
    ensures { result ≡ fate_by_content (content_meant from) (content_meant to) name length counts }
{
    match (from, to) {
        (Content::Basic(a), Content::Basic(b)) => fate_by_basic(a, b, name, length, counts),
        (Content::Struct(_), Content::Struct(_)) => fate_if(name, counts),
        (Content::Opaque, Content::Opaque) => fate_if(name && length, counts),
        _ => Fate::Fresh,
    }
}

fn fate_by_basic(from: Basic, to: Basic, name: bool, length: bool, counts: Fate) -> Fate
    ensures { result
        ≡ fate_by_content (IsBasic (basic_meant from)) (IsBasic (basic_meant to)) name length counts }
{
    match (from, to) {
        (Basic::Void, _) | (_, Basic::Void) => Fate::Fresh,
        (Basic::Float(_), Basic::Float(_)) => if name { counts } else { Fate::FloatCast },
        (Basic::Float(_), _) | (_, Basic::Float(_)) => Fate::FloatCast,
        (
            Basic::Whole { signed: a, .. } | Basic::Long { signed: a },
            Basic::Whole { signed: b, .. } | Basic::Long { signed: b },
        ) => if same_sign(a, b) && length {
            counts
        } else {
            Fate::Cast
        },
    }
}

fn same_sign(a: bool, b: bool) -> bool
    ensures { result ≡ same_sign a b }
{
    a == b
}

// One fate where a test holds, and else nothing is carried over.
fn fate_if(holds: bool, fate: Fate) -> Fate
    ensures { result ≡ (if holds then fate else Fate.Fresh) }
{
    if holds { fate } else { Fate::Fresh }
}
