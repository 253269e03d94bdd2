use bl_format::{Catalogue, Header};
use bl_num::{Items, Text};

/// What becomes of a member under another catalogue, whose member of the same key meets it (a step
/// of Blender's `DNA_struct_reconstruct`).
#[derive(Clone, Copy, Debug, PartialEq, Eq)]
pub enum Fate {
    Kept,
    /// A whole number of another length or sign.
    Cast,
    /// The other member has fewer elements.
    Cut,
    /// The other member has more elements, which are zero.
    Extended,
    /// Nothing meets it, so it is zero.
    Fresh,
    /// A float meets another number, which is refused.
    FloatCast,
}

/// A struct node that is made here: a `BHead` with `nr` 1. What isn't given is zero.
#[derive(Debug, Drop)]
pub struct Made {
    pub code: [u8; 4],
    /// The number of its struct in the draft's catalogue.
    pub s: u32,
    pub values: Items<MadeValue>,
}

/// What a leaf's element is made to: the low bits of a number, a pointer to an entry, or null, which
/// is the number 0 of a pointer.
#[derive(Clone, Copy, Debug, PartialEq, Eq)]
pub enum MadeTo {
    Number(u64),
    /// The number of the entry, from 0.
    Node(u32),
}

/// A value of a made node: the number of a leaf of its struct, and which of the leaf's elements.
#[derive(Clone, Copy, Debug, PartialEq, Eq)]
pub struct MadeValue {
    pub leaf: u32,
    pub element: u32,
    pub value: MadeTo,
}

/// A node of an output, which becomes a `BHead` and its payload: one of a source file, by the numbers
/// of both, a made struct node, or a made raw node.
#[derive(Debug, Drop)]
pub enum Entry {
    Source { file: u32, node: u32 },
    Made(Made),
    Raw { code: [u8; 4], bytes: Text },
}

/// A value that replaces the one of a leaf's element, in one element of an entry. It is none of
/// Blender's library overrides.
#[derive(Clone, Copy, Debug, PartialEq, Eq)]
pub struct Override {
    pub entry: u32,
    /// The element of the entry's node, below its count.
    pub part: u32,
    pub leaf: u32,
    pub element: u32,
    pub value: MadeTo,
}

/// A selection (near to Blender's partial write): which nodes an output has, under which header and
/// catalogue.
#[derive(Debug, Drop)]
pub struct Draft {
    pub header: Header,
    pub catalogue: Catalogue,
    pub entries: Items<Entry>,
    /// For each source file and node 1 more than the number of the entry that stands for it, or 0:
    /// what an old-to-new map (`OldNewMap`) leads to.
    pub images: Items<Items<u32>>,
    pub overrides: Items<Override>,
}
