// Where members of structs stand, and what they hold.
use super::examples::{
    INDEX_NAME, INT_LENGTH, MESH_ID_TYPE, OBJECT_LENGTH, OBJECT_TYPE_NAME, PAD_BRACKET,
    catalogue_with,
};
use bl_layout::{Kind, Layout, LayoutFault, PathStep, Shape};
use bl_num::Order::{Big, Little};
use bl_num::{Order, Whole, Width};
use std::alloc::Global;

// The structs with members that are looked at.
const OBJECT: u32 = 3;

const MESH: u32 = 4;

// The layout of the example in an order, with other bytes from a place on.
fn layout_with(alloc: Global, order: Order, at: usize, part: &[u8]) -> Result<Layout, LayoutFault> {
    let width = match order {
        Little => Width::Eight,
        Big => Width::Four,
    };
    match catalogue_with(alloc, order, at, part) {
        Ok(catalogue) => Layout::new(alloc, &catalogue, width),
        Err(_) => Err(LayoutFault::NoMemory),
    }
}

// The length of a struct in such a layout.
fn length_with(alloc: Global, at: usize, part: &[u8], s: u32) -> Result<u32, LayoutFault> {
    let layout = layout_with(alloc, Little, at, part)?;
    if s < layout.struct_count() {
        Ok(layout.length(s))
    } else {
        Err(LayoutFault::NoMemory)
    }
}

#[test]
fn lays_out_or_refuses(rt: HostRuntime) {
    let bad_name = LayoutFault::BadName {
        s: OBJECT,
        member: 5,
    };
    let overrun = LayoutFault::Overrun {
        s: OBJECT,
        member: 5,
    };
    let duplicate = LayoutFault::DuplicateMember {
        s: OBJECT,
        member: 4,
    };
    for (at, part, want) in [
        (OBJECT_LENGTH, b"\x88", Ok(136)),
        // A tail of one byte.
        (OBJECT_LENGTH, b"\x89", Ok(137)),
        (OBJECT_LENGTH, b"\x87", Err(overrun)),
        (PAD_BRACKET, b"(", Err(bad_name)),
        (
            INT_LENGTH,
            b"\x08",
            Err(LayoutFault::BasicLength { s: 1, member: 6 }),
        ),
        (OBJECT_TYPE_NAME, b"\x07", Err(duplicate)),
        (
            MESH_ID_TYPE,
            b"\x0d",
            Err(LayoutFault::Cyclic { s: MESH, member: 0 }),
        ),
    ] {
        assert_eq!(rt; length_with(rt.alloc(), at, part, OBJECT), want);
    }
}

// The shape of a member in an order, where member 1 of the last struct is a pointer to functions.
fn shape_of(alloc: Global, order: Order, s: u32, member: u32) -> Option<Shape> {
    let layout = layout_with(alloc, order, INDEX_NAME, b"(*f)()").ok()?;
    if s < layout.struct_count() && member < layout.member_count(s) {
        Some(layout.member_shape(s, member))
    } else {
        None
    }
}

#[test]
fn lays_out_members(rt: HostRuntime) {
    let plain = Shape {
        pointer: false,
        depth: 0,
        identifier_at: 0,
        identifier_len: 3,
        key_len: 3,
        brackets: true,
        count: 3,
        offset: 120,
        size: 12,
        inner: None,
    };
    let inner = Shape {
        identifier_len: 2,
        key_len: 2,
        brackets: false,
        count: 1,
        offset: 0,
        size: 104,
        inner: Some(1),
        ..plain
    };
    let pointer = Shape {
        pointer: true,
        depth: 2,
        identifier_at: 2,
        identifier_len: 5,
        key_len: 7,
        brackets: false,
        count: 1,
        size: 8,
        ..plain
    };
    let function = Shape {
        pointer: true,
        identifier_at: 2,
        identifier_len: 1,
        key_len: 6,
        brackets: false,
        count: 1,
        offset: 88,
        size: 4,
        ..plain
    };
    for (order, s, member, shape) in [
        (Little, OBJECT, 3, plain),
        (Little, OBJECT, 0, inner),
        (Little, MESH, 3, pointer),
        (Big, MESH, 1, function),
    ] {
        assert_eq!(rt; shape_of(rt.alloc(), order, s, member), Some(shape));
    }
}

// Where a member stands in an order, and its size.
fn place_of(alloc: Global, order: Order, s: u32, member: u32) -> Option<(u32, u32)> {
    let shape = shape_of(alloc, order, s, member)?;
    Some((shape.offset, shape.size))
}

#[test]
fn lays_out_four_byte_pointers(rt: HostRuntime) {
    for (member, place) in [
        (0, (0, 88)),
        (1, (88, 4)),
        (2, (92, 4)),
        (3, (96, 12)),
        (4, (108, 2)),
        (5, (110, 2)),
    ] {
        assert_eq!(rt; place_of(rt.alloc(), Big, OBJECT, member), Some(place));
    }
}

// The width of a layout, and how many names its catalogue has.
fn width_and_names(alloc: Global, order: Order) -> Option<(Width, usize)> {
    let layout = layout_with(alloc, order, 0, b"").ok()?;
    Some((layout.width(), layout.catalogue().names.as_slice().len()))
}

// Which member a leaf of a struct is of, where it stands, its size and its count, and what it holds.
fn leaf_of(alloc: Global, s: u32, k: usize) -> Option<([u32; 4], Kind)> {
    let layout = layout_with(alloc, Little, 0, b"").ok()?;
    if s >= layout.struct_count() {
        return None;
    }
    let leaf = layout.leaves(s).get(k)?;
    Some(([leaf.member, leaf.offset, leaf.size, leaf.count], leaf.kind))
}

#[test]
fn opens_inner_structs(rt: HostRuntime) {
    let letter = Kind::Whole(Whole {
        bytes: 1,
        signed: true,
    });
    let pointer = Kind::Pointer {
        depth: 1,
        type_number: 12,
    };
    for (k, want) in [
        (4, Some(([0, 32, 1, 66], letter))),
        (7, Some(([1, 104, 8, 1], pointer))),
        (9, Some(([3, 120, 4, 3], Kind::Bits(4)))),
        (12, None),
    ] {
        assert_eq!(rt; leaf_of(rt.alloc(), OBJECT, k), want);
    }
}

// Whether the way to a leaf of a struct is this.
fn has_way(alloc: Global, s: u32, k: usize, way: &[PathStep]) -> Option<bool> {
    let layout = layout_with(alloc, Little, 0, b"").ok()?;
    if s >= layout.struct_count() {
        return None;
    }
    let leaf = layout.leaves(s).get(k)?;
    Some(leaf.steps.as_slice() == way)
}

#[test]
fn tells_ways_to_leaves(rt: HostRuntime) {
    let way = [
        PathStep {
            name_number: 7,
            element: 0,
        },
        PathStep {
            name_number: 4,
            element: 0,
        },
    ];
    assert_eq!(rt; has_way(rt.alloc(), OBJECT, 4, &way), Some(true));
    assert_eq!(rt; width_and_names(rt.alloc(), Big), Some((Width::Four, 20)));
}
