// What is so of a file's nodes by their heads: faults, IDs, and what addresses name.
ghost use Rattle.std.specs.Prelude.{◌≡◌, ◌≤◌, IfOk, length, map, option_map};
ghost use Rattle.bl_format.specs.declared.file.Head.{Head};
ghost use Rattle.bl_format.specs.declared.file.Header.{Header};
ghost use Rattle.bl_format.specs.declared.catalogue.Catalogue.{Catalogue};
ghost use Rattle.bl_format.specs.Limits.{most_blocks};
ghost use Rattle.bl_format.specs.Words.{find_map};
ghost use Rattle.bl_format.specs.Blocks.{is_two_letter};
ghost use Rattle.bl_format.specs.Nodes.{node_fault};
ghost use Rattle.bl_file.specs.Ids.{is_id_by};
ghost use Rattle.bl_file.specs.Opening.{fault_of_node};
ghost use Rattle.bl_file.specs.Outlines.{ids_of, marks_of};

use crate::fault::OpenFault;
use crate::id_parts::id_parts;
use bl_addresses::{Table, groups_of};
use bl_format::Head;
use bl_layout::Layout;
use bl_num::NoMemory;
use std::alloc::Global;

/// The first node that no struct fits, and why.
pub fn first_node_fault(layout: &Layout, nodes: &[Head]) -> Option<OpenFault>
    ensures { result
        ≡ option_map fault_of_node (find_map (node_fault layout.now.catalogue) nodes.now) }
{
    for node in nodes {
        let fault = node_fault(layout, node);
        if fault.is_some() {
            return fault;
        }
    }
    None
}

// The first check that a node fails.
fn node_fault(layout: &Layout, node: &Head) -> Option<OpenFault>
    ensures { result ≡ option_map fault_of_node (node_fault layout.now.catalogue node.now) }
{
    if node.index == 0 {
        return None;
    }
    if layout.struct_count() <= node.index {
        return Some(OpenFault::BadStruct(node.at));
    }
    if node.len < u64::from(node.count) * u64::from(layout.length(node.index)) {
        return Some(OpenFault::ShortBlock(node.at));
    }
    None
}

/// For each node whether it is an ID.
pub fn ids_of(alloc: Global, layout: &Layout, nodes: &[Head]) -> Result<Vec<bool>, NoMemory>
    ensures ids { IfOk result (λ ids. ids.items ≡ ids_of layout.now.catalogue nodes.now) }
    ensures len { IfOk result (λ ids. length ids.items ≡ length nodes.now) }
{
    let parts = id_parts(alloc, layout)?;
    let mut ids = Vec::with_capacity(alloc, nodes.len())?;
    for node in nodes {
        ids.push(is_id_by(&parts, node))?;
    }
    Ok(ids)
}

// Whether a node is an ID, by which structs have the part of one.
fn is_id_by(parts: &[bool], node: &Head) -> bool
    ensures { result ≡ is_id_by parts.now node.now }
{
    is_two_letter(node.code)
        && node.count == 1
        && node.index != 0
        && parts.get(node.index as usize).copied().unwrap_or(false)
}

fn is_two_letter(code: [u8; 4]) -> bool
    ensures { result ≡ is_two_letter code }
{
    code[0] != 0 && code[1] != 0 && code[2] == 0 && code[3] == 0
}

/// Which nodes addresses name.
pub fn table_of(alloc: Global, nodes: &[Head], ids: &[bool]) -> Result<Table, NoMemory>
    requires few { length nodes.now ≤ most_blocks }
    requires ids { length ids.now ≡ length nodes.now }
    ensures { IfOk result (λ table. (h : Header) (c : Catalogue)
        → ids.now ≡ ids_of c nodes.now → table ≡ marks_of h c nodes.now) }
{
    let groups = groups_of(alloc, nodes)?;
    let addresses = addresses_of(alloc, nodes)?;
    Table::new(alloc, &groups, &addresses, ids)
}

// The address of each node.
fn addresses_of(alloc: Global, nodes: &[Head]) -> Result<Vec<u64>, NoMemory>
    ensures addresses { IfOk result (λ addresses.
        addresses.items ≡ map (λ (x : Head). x.address) nodes.now) }
    ensures len { IfOk result (λ addresses. length addresses.items ≡ length nodes.now) }
{
    Ok(nodes.iter().map(|node| node.address).collect(alloc)?)
}
