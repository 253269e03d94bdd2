ghost use Rattle.std.specs.Prelude.{◌≡◌, ◌≤◌, ◌<◌, Some};
ghost use Rattle.bl_format.specs.Limits.{most_output_nodes};
ghost use Rattle.bl_selection.specs.Written.{address_of};

use bl_file::Targets;
use bl_ptrarrays::Images;
use std::marker::Model;

// How far the addresses of two nodes are apart.
const ADDRESS_STEP: u64 = 16;

/// What addresses in one node become, where all nodes that they name are written in their order.
#[derive(Drop)]
pub struct NodeImages<'a, T: Targets> {
    targets: &'a T,
    node: u32,
}

impl<'a, T: Targets> Model for NodeImages<'a, T> {
    ghost use Rattle.std.specs.Prelude.{ℕ, ◌≤◌, ◌<◌};
    ghost use Rattle.bl_format.specs.Limits.{most_output_nodes};

    ghost Value = { T × ℕ };

    ghost view = { λ i. (i.targets.now, i.node) };

    ghost invariant = { λ i. (T.count i.targets.now ≤ most_output_nodes)
        × (i.node < T.count i.targets.now) };
}

impl<'a, T: Targets> NodeImages<'a, T> {
    /// The images of a node, by the targets of all nodes.
    pub fn new(targets: &'a T, node: u32) -> NodeImages<'a, T>
        requires few { T.count targets.now ≤ most_output_nodes }
        requires node { node < T.count targets.now }
        ensures { result ≡ (targets.now, node) }
    {
        NodeImages { targets, node }
    }
}

impl<'a, T: Targets> Images for NodeImages<'a, T> {
    ghost names = { λ i. T.names i.0 i.1 };

    ghost null_names_nothing = { λ i. T.null_names_nothing i.0 i.1 };

    fn image(&self, address: u64) -> u64 {
        match self.targets.target(self.node, address) {
            Some(node) => node_address(node),
            None => 0,
        }
    }
}

/// The address of a node in the output; the first node has one step, and 0 is null.
pub fn node_address(node: u32) -> u64
    ensures { result ≡ address_of (Some node) }
{
    ADDRESS_STEP * (u64::from(node) + 1)
}
