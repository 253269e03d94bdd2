// What is taken of each entry of a draft of one file's nodes.
ghost use Rattle.std.specs.Prelude.{◌≡◌, All, IfOk, length, map};
ghost use Rattle.bl_draft.specs.Own.{entry_head, entry_heads, entry_node};
ghost use Rattle.bl_draft.specs.Entries.{IsNodeBelow, source_group};
ghost use Rattle.bl_draft.specs.Numbers.{numbered_head};

use crate::numbers::number_at;
use bl_addresses::Table;
use bl_format::Head;
use bl_num::NoMemory;
use bl_selection::Entry;
use std::alloc::Global;

// The number of the node that an entry is.
fn node_of(entry: &Entry) -> u32
    ensures { result ≡ entry_node entry.now }
{
    match entry {
        Entry::Source { node, .. } => *node,
        _ => 0,
    }
}

// The head of the node that an entry is.
fn head_of(nodes: &[Head], entry: &Entry) -> Head
    requires { IsNodeBelow (length nodes.now) entry.now }
    ensures { result ≡ entry_head nodes.now entry.now }
{
    nodes[node_of(entry) as usize]
}

/// The head of each entry's node.
pub fn heads_by(alloc: Global, nodes: &[Head], entries: &[Entry]) -> Result<Vec<Head>, NoMemory>
    requires { All (IsNodeBelow (length nodes.now)) entries.now }
    ensures { IfOk result (λ heads. heads.items ≡ entry_heads nodes.now entries.now) }
{
    let mut heads = Vec::with_capacity(alloc, entries.len())?;
    for entry in entries {
        heads.push(head_of(nodes, entry))?;
    }
    Ok(heads)
}

// The group of an entry's node in the source.
fn source_group(table: &Table, entry: &Entry) -> u32
    requires { IsNodeBelow (length table.now) entry.now }
    ensures { result ≡ source_group table.now entry.now }
{
    table.group_of(node_of(entry))
}

/// The group of each entry's node in the source.
pub fn source_groups(alloc: Global, table: &Table, entries: &[Entry]) -> Result<Vec<u32>, NoMemory>
    requires { All (IsNodeBelow (length table.now)) entries.now }
    ensures { IfOk result (λ groups. groups.items ≡ map (source_group table.now) entries.now) }
{
    let mut groups = Vec::with_capacity(alloc, entries.len())?;
    for entry in entries {
        groups.push(source_group(table, entry))?;
    }
    Ok(groups)
}

/// Some heads with the numbers that their structs have under another catalogue.
pub fn numbered_heads(alloc: Global, numbers: &[u32], heads: &[Head]) -> Result<Vec<Head>, NoMemory>
    ensures { IfOk result (λ numbered. numbered.items ≡ map (numbered_head numbers.now) heads.now) }
{
    let mut numbered = Vec::with_capacity(alloc, heads.len())?;
    for head in heads {
        numbered.push(numbered_head(numbers, head))?;
    }
    Ok(numbered)
}

// A head with the number that its struct has.
fn numbered_head(numbers: &[u32], head: &Head) -> Head
    ensures { result ≡ numbered_head numbers.now head.now }
{
    Head {
        index: number_at(numbers, head.index),
        ..*head
    }
}
