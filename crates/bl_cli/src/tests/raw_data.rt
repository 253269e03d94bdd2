// What stands in leaves, and what becomes of raw blocks.
ghost use Rattle.std.specs.Prelude.{◌≡◌, ◌==◌, if◌then◌else◌, Some, None, refl};

use bl_format::{Kind, Leaf, RawKind, View};
use bl_members::{leaf_bytes, read_leaf, write_leaf};
use bl_num::Order::{Big, Little};
use bl_num::{Form, Items, Order, Whole, Width};
use bl_ptrarrays::{Images, carry_raw, raw_length, view_of, views};
use std::alloc::Global;

const STRUCT_LEN: usize = 18;

// The bytes ABCDEFGH, the highest first.
const VALUE: u64 = 0x4142_4344_4546_4748;

// A leaf of two elements behind one byte of its struct.
fn leaf(alloc: Global, kind: Kind, size: u32) -> Leaf
    ensures offset { result.offset ≡ 1 }
    ensures size { result.size ≡ size }
    ensures count { result.count ≡ 2 }
{
    Leaf {
        member: 0,
        steps: Items::from_vec(Vec::new(alloc)),
        kind,
        offset: 1,
        size,
        count: 2,
    }
}

// A struct of dots once the value stands in the second element of such a leaf, and what is read there.
fn round_trip(
    alloc: Global,
    kind: Kind,
    size: u32,
    order: Order,
) -> Option<([u8; STRUCT_LEN], u64)> {
    if size != 1 && size != 2 && size != 4 && size != 8 {
        return None;
    }
    let leaf = leaf(alloc, kind, size);
    let mut bytes = [b'.'; STRUCT_LEN];
    write_leaf(&leaf, order, 1, VALUE, &mut bytes);
    Some((bytes, read_leaf(&leaf, order, &bytes, 1)))
}

#[test]
fn reads_the_leaves_it_writes(rt: HostRuntime) {
    let byte = Kind::Whole(Whole {
        bytes: 1,
        signed: true,
    });
    let short = Kind::Whole(Whole {
        bytes: 2,
        signed: false,
    });
    let pointer = Kind::Pointer {
        depth: 1,
        type_number: 3,
    };
    for (kind, size, order, bytes, number) in [
        (byte, 1, Little, *b"..H...............", 0x48),
        (byte, 1, Big, *b"..H...............", 0x48),
        (short, 2, Little, *b"...HG.............", 0x4748),
        (short, 2, Big, *b"...GH.............", 0x4748),
        (Kind::Bits(4), 4, Little, *b".....HGFE.........", 0x45464748),
        (Kind::Bits(4), 4, Big, *b".....EFGH.........", 0x45464748),
        (pointer, 8, Little, *b".........HGFEDCBA.", VALUE),
        (pointer, 8, Big, *b".........ABCDEFGH.", VALUE),
    ] {
        let read = round_trip(rt.alloc(), kind, size, order);
        assert_eq!(rt; read, Some((bytes, number)));
    }
    let opaque = leaf(rt.alloc(), Kind::Opaque, 3);
    assert_eq!(rt; leaf_bytes(&opaque, b".abcdef.", 0), b"abc".as_slice());
    assert_eq!(rt; leaf_bytes(&opaque, b".abcdef.", 1), b"def".as_slice());
}

#[test]
fn tells_kinds_by_pointers(rt: HostRuntime) {
    for (depth, basic, kind) in [
        (1, Some(0), None),
        (1, Some(1), Some(RawKind::Bytes)),
        (1, Some(4), Some(RawKind::Numbers(4))),
        (1, None, Some(RawKind::Bytes)),
        (2, Some(4), Some(RawKind::Pointers)),
        (3, Some(4), Some(RawKind::Bytes)),
        (0, None, Some(RawKind::Bytes)),
    ] {
        assert_eq!(rt; view_of(depth, basic), kind);
    }
}

fn view(node: u32, kind: RawKind) -> View
    ensures { result.node ≡ node }
{
    View { node, kind }
}

// Whether four nodes have these kinds, by views of them.
fn have_kinds(alloc: Global, want: &[RawKind]) -> Option<bool> {
    let seen = [
        view(3, RawKind::Numbers(4)),
        view(0, RawKind::Pointers),
        view(1, RawKind::Numbers(2)),
        view(1, RawKind::Numbers(4)),
        view(1, RawKind::Numbers(4)),
        view(3, RawKind::Numbers(4)),
    ];
    let kinds = views(alloc, 4, &seen).ok()?;
    Some(kinds.as_slice() == want)
}

#[test]
fn joins_views(rt: HostRuntime) {
    let kinds = [
        RawKind::Pointers,
        RawKind::Bytes,
        RawKind::Bytes,
        RawKind::Numbers(4),
    ];
    assert_eq!(rt; have_kinds(rt.alloc(), &kinds), Some(true));
}

/// One address names the second node, and all others name nothing.
pub struct OneName;

impl Images for OneName {
    ghost names = { λ _ address. if address == 0x4142 then Some 1 else None };

    ghost null_names_nothing = { λ _. refl };

    fn image(&self, address: u64) -> u64 {
        if address == 0x4142 { 32 } else { 0 }
    }
}

// What a raw block of at least 8 bytes becomes, from pointers of 8 bytes and the lowest byte first
// to pointers of 4 bytes and the highest byte first.
fn carried(alloc: Global, kind: RawKind, src: &[u8]) -> Option<Vec<u8>> {
    if src.len() < 8 {
        return None;
    }
    let from = Form {
        width: Width::Eight,
        order: Little,
    };
    let to = Form {
        width: Width::Four,
        order: Big,
    };
    let len = raw_length(kind, src.len() as u64, from.width, to.width);
    let mut dst = vec![in alloc; b'?'; len as usize].ok()?;
    carry_raw(kind, src, from, to, &OneName, &mut dst);
    Some(dst)
}

fn is_carried(alloc: Global, kind: RawKind, src: &[u8], want: &[u8]) -> Option<bool> {
    let dst = carried(alloc, kind, src)?;
    Some(dst.as_slice() == want)
}

#[test]
fn carries_by_kind(rt: HostRuntime) {
    for (kind, src, want) in [
        (
            RawKind::Pointers,
            b"\0\x01\0\0\0\0\0\0BA\0\0\0\0\0\0tail".as_slice(),
            b"\0\0\0\0\0\0\0\x20".as_slice(),
        ),
        (RawKind::Numbers(2), b"abcdefghi", b"badcfehgi"),
        (RawKind::Pair, b"abcdefghij", b"dcbahgfeij"),
        (RawKind::Bytes, b"abcdefgh", b"abcdefgh"),
    ] {
        assert_eq!(rt; is_carried(rt.alloc(), kind, src, want), Some(true));
    }
}
