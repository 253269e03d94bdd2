ghost use Rattle.std.specs.Prelude.{◌≡◌, ◌<◌, ◌^◌, IfOk, length, slice_get, option_map, Some};
ghost use Rattle.bl_format.specs.Nodes.{target_of};
ghost use Rattle.bl_addresses.specs.Marks.{marks_by, target_in_group};

use crate::marks::{Place, Row, Scope};
use crate::order::order_of;
use crate::search::last_at;
use crate::spans::{Buckets, Span, span_of, starts_of};
use bl_num::NoMemory;
use std::alloc::Global;
use std::marker::Model;

/// Which nodes addresses name, group by group: Blender's `OldNewMap`, which has old pointers for
/// keys. Addresses are searched in sorted lists: a file chooses its addresses, and in a hashed table
/// it could choose ones that collide. Where one stands is guessed, by its group or among the IDs by
/// its value, and the guess is tested. A node takes 20 bytes, an ID 20 more, and a group 4.
#[derive(Drop)]
pub struct Table {
    // The group of each node.
    groups: Vec<u32>,
    // The nodes by group, by address and by number.
    nodes: Vec<Row>,
    // The IDs by address and by number.
    ids: Vec<Row>,
    // Where each group is guessed to begin in the nodes. A search tests its guess.
    starts: Vec<u32>,
    // Where addresses are guessed to stand in the IDs. A search tests this, too.
    buckets: Buckets,
}

impl Model for Table {
    ghost use Rattle.std.specs.Prelude.{List};
    ghost use Rattle.bl_format.specs.Nodes.{Mark};
    ghost use Rattle.bl_addresses.specs.Table.{IsTable, marks_in};

    ghost Value = { List Mark };

    ghost view = { λ t. marks_in t.groups.items t.nodes.items t.ids.items };

    ghost invariant = { λ t.
        IsTable (marks_in t.groups.items t.nodes.items t.ids.items) t.nodes.items t.ids.items };
}

impl Table {
    /// A table of nodes by their groups, their addresses and whether they are IDs.
    pub fn new(
        alloc: Global,
        groups: &[u32],
        addresses: &[u64],
        ids: &[bool],
    ) -> Result<Table, NoMemory>
        requires addresses { length addresses.now ≡ length groups.now }
        requires ids { length ids.now ≡ length groups.now }
        requires few { length groups.now < 2 ^ 32 }
        ensures marks { IfOk result (λ table. table ≡ marks_by groups.now addresses.now ids.now) }
        ensures len { IfOk result (λ table. length table ≡ length groups.now) }
    {
        let nodes = order_of(alloc, Scope::Group, groups, addresses, ids)?;
        let ids = order_of(alloc, Scope::File, groups, addresses, ids)?;
        let starts = starts_of(alloc, groups)?;
        let buckets = Buckets::new(alloc, &ids)?;
        Ok(Table {
            groups: Vec::from_slice(alloc, groups)?,
            nodes,
            ids,
            starts,
            buckets,
        })
    }

    /// The number of a node's group.
    pub fn group_of(&self, node: u32) -> u32
        requires { node < length self.now }
        ensures { option_map (λ mark. mark.group) (slice_get self.now node) ≡ Some result }
    {
        self.groups[node as usize]
    }

    /// The node that an address names in a group.
    #[tactic(auto, unfolding(bl_format::specs::Nodes::target_of))]
    pub fn resolve(&self, group: u32, address: u64) -> Option<u32>
        ensures { result ≡ target_of self.now group address }
    {
        match self.resolve_in_group(group, address) {
            Some(node) => Some(node),
            None if address == 0 => None,
            None => last_at(
                &self.ids,
                self.buckets.span_of(address, self.ids.len()),
                Place { part: 0, address },
            ),
        }
    }

    /// The node of a group that an address names, where IDs of other groups aren't looked at.
    #[tactic(auto, unfolding(crate::specs::Marks::target_in_group))]
    pub fn resolve_in_group(&self, group: u32, address: u64) -> Option<u32>
        ensures { result ≡ target_in_group self.now group address }
    {
        if address == 0 {
            return None;
        }
        let place = Place {
            part: group,
            address,
        };
        last_at(&self.nodes, self.span_of(group), place)
    }

    // Where a group is guessed to stand in the nodes.
    fn span_of(&self, group: u32) -> Span {
        span_of(&self.starts, group as usize, self.nodes.len())
    }
}
