// What addresses name from nodes.
ghost use Rattle.std.specs.Prelude.{◌≡◌, ◌<◌, ◌≤◌, ◌^◌, ℕ, All, None, IfOk, IfSome, false, true, get_or, length};
ghost use Rattle.bl_file.specs.Groups.{has_raw};

use bl_addresses::Table;
use bl_format::Head;
use std::alloc::{AllocError, Global};

/// What addresses name, from each of some nodes, which are numbered from 0.
pub trait Targets {
    ghost use Rattle.std.specs.Prelude.{ℕ};
    ghost use Rattle.bl_file.specs.Seen.{Namings};

    /// How many nodes there are.
    ghost count: { Self → ℕ };

    /// What an address names from a node.
    ghost names: { Self → Namings };

    /// The node that an address names from a node.
    fn target(&self, node: u32, address: u64) -> Option<u32>
        requires { node < count self.now }
        ensures target { result ≡ names self.now node address }
        ensures inside { IfSome result (λ to. to < count self.now) };

    /// Whether it is known that no address names anything from a node.
    fn is_silent(&self, node: u32) -> bool
        requires { node < count self.now }
        ensures { result ≡ true → (address : ℕ) → names self.now node address ≡ None };

    /// The address 0 names nothing.
    ghost null_names_nothing: { (t : Self) (node : ℕ) → names t node 0 ≡ None };
}

/// What addresses name from the nodes of a file.
#[derive(Drop)]
pub struct FileTargets<'a> {
    pub table: &'a Table,
}

impl<'a> Targets for FileTargets<'a> {
    ghost use Rattle.std.specs.Prelude.{length};
    ghost use Rattle.bl_file.specs.Seen.{table_names, table_names-null};

    ghost count = { λ t. length t.table.now };

    ghost names = { λ t. table_names t.table.now };

    ghost null_names_nothing = { λ t. table_names-null t.table.now };

    fn target(&self, node: u32, address: u64) -> Option<u32> {
        self.table.resolve(self.table.group_of(node), address)
    }

    fn is_silent(&self, _node: u32) -> bool {
        false
    }
}

/// What addresses name from the nodes of a file in the groups of these, where a group has a raw
/// node. That is all that they name of raw nodes: none of these is an ID.
#[derive(Drop)]
pub struct GroupTargets<'a> {
    table: &'a Table,
    // By the number of a group, whether it has a raw node.
    raw_groups: Vec<bool>,
}

impl<'a> Targets for GroupTargets<'a> {
    ghost use Rattle.std.specs.Prelude.{length};
    ghost use Rattle.bl_file.specs.Groups.{group_names, group_names-null};

    ghost count = { λ t. length t.table.now };

    ghost names = { λ t. group_names t.raw_groups.items t.table.now };

    ghost null_names_nothing = { λ t. group_names-null t.raw_groups.items t.table.now };

    fn target(&self, node: u32, address: u64) -> Option<u32> {
        let group = self.table.group_of(node);
        if self.has_raw(group) {
            self.table.resolve_in_group(group, address)
        } else {
            None
        }
    }

    fn is_silent(&self, node: u32) -> bool {
        !self.has_raw(self.table.group_of(node))
    }
}

impl<'a> GroupTargets<'a> {
    /// The targets of a file's nodes in their groups.
    pub fn new(
        alloc: Global,
        table: &'a Table,
        nodes: &[Head],
    ) -> Result<GroupTargets<'a>, AllocError>
        requires count { length table.now ≡ length nodes.now }
        requires few { length nodes.now < 2 ^ 32 }
        requires groups { All (λ mark. mark.group ≤ length nodes.now) table.now }
        ensures table { IfOk result (λ targets. targets.table.now ≡ table.now) }
        ensures raw { IfOk result (λ targets. (group : ℕ)
            → get_or targets.raw_groups.items group false ≡ has_raw table.now nodes.now group) }
    {
        let mut raw_groups = vec![in alloc; false; nodes.len() + 1]?;
        add_raw_groups(table, nodes, raw_groups.as_mut_slice());
        Ok(GroupTargets { table, raw_groups })
    }

    // Whether a group has a raw node.
    fn has_raw(&self, group: u32) -> bool
        ensures { result ≡ get_or self.now.raw_groups.items group false }
    {
        self.raw_groups
            .get(group as usize)
            .copied()
            .unwrap_or(false)
    }
}

// Sets the groups that have a raw node, where none is set.
fn add_raw_groups(table: &Table, nodes: &[Head], raw_groups: &mut [bool])
    requires count { length table.now ≡ length nodes.now }
    requires few { length nodes.now < 2 ^ 32 }
    requires groups { All (λ mark. mark.group < length raw_groups.old) table.now }
    requires blank { (group : ℕ) → get_or raw_groups.old group false ≡ false }
    ensures { (group : ℕ) → get_or raw_groups.new group false ≡ has_raw table.now nodes.now group }
{
    for (number, node) in nodes.iter().enumerate() {
        if node.index == 0 {
            let group = table.group_of(number as u32);
            raw_groups[group as usize] = true;
        }
    }
}
