// The groups of a file's nodes.
ghost use Rattle.std.specs.Prelude.{◌≡◌, ◌<◌, ◌^◌, if◌then◌else◌, suc, IfOk, length, map};
ghost use Rattle.std.specs.List.{enumerate_from};
ghost use Rattle.bl_format.specs.declared.file.Head.{Head};
ghost use Rattle.bl_format.specs.Nodes.{group_of, is_data};

use bl_format::Head;
use bl_num::NoMemory;
use std::alloc::Global;

/// The number of each node's group: how many nodes up to it have another code than `DATA`. Nodes
/// before the first of these are in group 0.
pub fn groups_of(alloc: Global, nodes: &[Head]) -> Result<Vec<u32>, NoMemory>
    requires { length nodes.now < 2 ^ 32 }
    ensures groups { IfOk result (λ groups. groups.items
        ≡ map (λ p. group_of (map (λ (x : Head). x.code) nodes.now) p.0)
        (enumerate_from 0 nodes.now)) }
    ensures len { IfOk result (λ groups. length groups.items ≡ length nodes.now) }
{
    let mut groups = Vec::with_capacity(alloc, nodes.len())?;
    let mut heads = 0;
    for node in nodes {
        heads = heads_after(node, heads);
        groups.push(heads)?;
    }
    Ok(groups)
}

// How many nodes up to one head a group, by how many before it do.
fn heads_after(node: &Head, before: u32) -> u32
    requires { suc before < 2 ^ 32 }
    ensures { result ≡ (if is_data node.now.code then before else suc before) }
{
    if node.code == *b"DATA" {
        before
    } else {
        before + 1
    }
}
