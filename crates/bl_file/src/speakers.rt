// The leaves of structs whose pointers say anything of raw nodes.
ghost use Rattle.std.specs.Prelude.{◌≡◌, ◌<◌, None, IfOk, length, slice_index_or};
ghost use Rattle.bl_file.specs.Speakers.{IsHeard, said_by, speaker_of, speaker_number, speakers_of, struct_speakers};

use bl_format::{Kind, Leaf, RawKind};
use bl_layout::Layout;
use bl_num::{Items, Order, read_whole};
use bl_ptrarrays::view_of;
use std::alloc::{AllocError, Global};

/// A leaf whose pointers say that what they name is of a kind: where it begins in its struct, the
/// bytes of an element, and how many there are.
#[derive(Clone, Copy, Debug)]
pub struct Speaker {
    pub offset: u32,
    pub size: u32,
    pub count: u32,
    pub kind: RawKind,
}

/// By the number of a struct, the leaves that say anything. The basic types are given by the number
/// of a type, as the bytes of each.
pub fn struct_speakers(
    alloc: Global,
    layout: &Layout,
    basics: &[Option<u8>],
) -> Result<Vec<Items<Speaker>>, AllocError>
    ensures { IfOk result (λ structs. structs.items
        ≡ struct_speakers layout.now.catalogue layout.now.width basics.now) }
{
    let count = layout.struct_count();
    let mut structs = Vec::with_capacity(alloc, count as usize)?;
    for s in 0..count {
        let speakers = speakers_of(alloc, basics, layout.leaves(s))?;
        structs.push(Items::from_vec(speakers))?;
    }
    Ok(structs)
}

// The leaves that say anything.
fn speakers_of(
    alloc: Global,
    basics: &[Option<u8>],
    leaves: &[Leaf],
) -> Result<Vec<Speaker>, AllocError>
    ensures { IfOk result (λ speakers. speakers.items ≡ speakers_of basics.now leaves.now) }
{
    leaves
        .iter()
        .filter_map(|leaf| speaker_of(basics, leaf))
        .collect(alloc)
}

// What a leaf says, if it says anything.
fn speaker_of(basics: &[Option<u8>], leaf: &Leaf) -> Option<Speaker>
    ensures { result ≡ speaker_of basics.now leaf.now }
{
    let kind = said_by(basics, leaf.kind)?;
    Some(Speaker {
        offset: leaf.offset,
        size: leaf.size,
        count: leaf.count,
        kind,
    })
}

/// What the pointers of a leaf's kind say of what they name, by the bytes of basic types.
pub fn said_by(basics: &[Option<u8>], kind: Kind) -> Option<RawKind>
    ensures { result ≡ said_by basics.now kind }
{
    match kind {
        Kind::Pointer { depth, type_number } => view_of(depth, basic_at(basics, type_number)),
        Kind::Whole(_) => None,
        Kind::Bits(_) => None,
        Kind::Opaque => None,
    }
}

// The bytes of the basic type of a number.
fn basic_at(basics: &[Option<u8>], type_number: u16) -> Option<u8>
    ensures { result ≡ slice_index_or basics.now type_number None }
{
    basics
        .get(usize::from(type_number))
        .copied()
        .unwrap_or(None)
}

/// The number in an element of a leaf that says anything, in the bytes of an element of its struct.
pub fn speaker_number(speaker: Speaker, order: Order, bytes: &[u8], element: u32) -> u64
    requires heard { IsHeard (length bytes.now) speaker }
    requires element { element < speaker.count }
    ensures { result ≡ speaker_number order speaker bytes.now element }
{
    let at = speaker.offset as usize + element as usize * speaker.size as usize;
    read_whole(order, &bytes[at..][..speaker.size as usize])
}
