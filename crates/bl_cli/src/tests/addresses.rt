// Which nodes addresses name.
use bl_addresses::Table;
use bl_num::NoMemory;
use std::alloc::Global;

// Two groups behind group 0: a head that is an ID and its data, with an address that stands twice,
// and a second head that is one, with data at an address of the first group.
const GROUPS: [u32; 7] = [0, 1, 1, 1, 2, 2, 2];

const ADDRESSES: [u64; 7] = [0x50, 0x10, 0x20, 0x20, 0x30, 0x20, 0x10];

const IDS: [bool; 7] = [false, true, false, false, true, false, false];

// Groups whose nodes don't stand side by side, with an address that two nodes of a group have, two
// IDs of other groups, and one that an ID has behind a node of another group.
const MIXED_GROUPS: [u32; 7] = [1, 0, 1, 2, 0, 1, 2];

const MIXED_ADDRESSES: [u64; 7] = [0x20, 0x20, 0x10, 0x30, 0x20, 0x20, 0x10];

const MIXED_IDS: [bool; 7] = [true, true, false, true, false, false, true];

// What an address names in a group of a table, and what it names there among the group's own nodes.
fn named(
    alloc: Global,
    mixed: bool,
    group: u32,
    address: u64,
) -> Result<(Option<u32>, Option<u32>), NoMemory> {
    let table = if mixed {
        Table::new(alloc, &MIXED_GROUPS, &MIXED_ADDRESSES, &MIXED_IDS)?
    } else {
        Table::new(alloc, &GROUPS, &ADDRESSES, &IDS)?
    };
    Ok((
        table.resolve(group, address),
        table.resolve_in_group(group, address),
    ))
}

#[test]
fn names_nodes(rt: HostRuntime) {
    for (group, address, want) in [
        // Null, whatever the group.
        (1, 0, (None, None)),
        // One address in two groups.
        (1, 0x10, (Some(1), Some(1))),
        (2, 0x10, (Some(6), Some(6))),
        // In two nodes of a group the last one.
        (1, 0x20, (Some(3), Some(3))),
        (2, 0x20, (Some(5), Some(5))),
        // An ID of another group, which isn't among the group's own nodes.
        (0, 0x10, (Some(1), None)),
        (1, 0x30, (Some(4), None)),
        (9, 0x30, (Some(4), None)),
        // Another node of another group.
        (0, 0x20, (None, None)),
        (1, 0x50, (None, None)),
        // Not an address of a node.
        (1, 0x15, (None, None)),
        (2, 0xffff_ffff_ffff_ffff, (None, None)),
    ] {
        assert_eq!(rt; named(rt.alloc(), false, group, address), Ok(want));
    }
}

#[test]
fn names_nodes_of_mixed_groups(rt: HostRuntime) {
    for (group, address, want) in [
        (1, 0, (None, None)),
        // The last node of the group, with nodes of others between.
        (0, 0x20, (Some(4), Some(4))),
        (1, 0x20, (Some(5), Some(5))),
        // A node of the group before an ID of another.
        (1, 0x10, (Some(2), Some(2))),
        (2, 0x10, (Some(6), Some(6))),
        (2, 0x30, (Some(3), Some(3))),
        // The last ID at the address.
        (2, 0x20, (Some(1), None)),
        (3, 0x20, (Some(1), None)),
        (0, 0x10, (Some(6), None)),
        (1, 0x30, (Some(3), None)),
        (0, 0x40, (None, None)),
    ] {
        assert_eq!(rt; named(rt.alloc(), true, group, address), Ok(want));
    }
}

// The group of a node of the first table.
fn group_of(alloc: Global, node: u32) -> Option<u32> {
    match Table::new(alloc, &GROUPS, &ADDRESSES, &IDS) {
        Ok(table) if node < 7 => Some(table.group_of(node)),
        _ => None,
    }
}

#[test]
fn gives_groups(rt: HostRuntime) {
    for (node, group) in [(0, 0), (3, 1), (6, 2)] {
        assert_eq!(rt; group_of(rt.alloc(), node), Some(group));
    }
}
