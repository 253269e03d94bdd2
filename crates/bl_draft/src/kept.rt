ghost use Rattle.std.specs.Prelude.{◌≡◌, ◌<◌, ◌^◌, All, IfOk, length, map, suc, if◌then◌else◌};
ghost use Rattle.bl_format.specs.Schema.{CanBeRead};
ghost use Rattle.bl_format.specs.Nodes.{is_data};
ghost use Rattle.bl_format.specs.Words.{numbers_below};
ghost use Rattle.bl_selection.specs.Selection.{is_kept, own_images};
ghost use Rattle.bl_draft.specs.Kept.{HasIndex, file_of, flag_at, entries_by};
ghost use Rattle.bl_draft.specs.Numbers.{is_shared};

use crate::numbers::{number_at, numbers_under};
use bl_format::{Catalogue, Head};
use bl_num::NoMemory;
use bl_selection::Entry;
use std::alloc::Global;

/// For each node, whether a catalogue keeps it: the catalogue has its struct and that of the head
/// of its group.
pub fn kept_flags(
    alloc: Global,
    nodes: &[Head],
    from: &Catalogue,
    catalogue: &Catalogue,
) -> Result<Vec<bool>, NoMemory>
    requires from { CanBeRead from.now }
    requires catalogue { CanBeRead catalogue.now }
    requires nodes { All (HasIndex from.now) nodes.now }
    ensures { IfOk result (λ kept. kept.items
        ≡ map (is_kept catalogue.now (file_of nodes.now from.now)) (numbers_below (length nodes.now))) }
{
    let numbers = numbers_under(alloc, catalogue, from)?;
    let mut kept = Vec::with_capacity(alloc, nodes.len())?;
    let mut stays = true;
    for node in nodes {
        let own = is_shared(&numbers, node.index);
        stays = head_stays(node, own, stays);
        kept.push(own && stays)?;
    }
    Ok(kept)
}

// Whether the head of a node's group stays, which is the node itself or the head before it.
fn head_stays(node: &Head, own: bool, before: bool) -> bool
    ensures { result ≡ (if is_data node.now.code then before else own) }
{
    if is_data(node) { before } else { own }
}

// Whether an index is that of raw data or of a struct that has a number.
fn is_shared(numbers: &[u32], index: u32) -> bool
    ensures { result ≡ is_shared numbers.now index }
{
    index == 0 || number_at(numbers, index) != 0
}

// Whether a node begins no group.
fn is_data(node: &Head) -> bool
    ensures { result ≡ is_data node.now.code }
{
    node.code == *b"DATA"
}

/// An entry for each node that is kept.
pub fn entries_by(alloc: Global, kept: &[bool]) -> Result<Vec<Entry>, NoMemory>
    requires { length kept.now < 2 ^ 32 }
    ensures { IfOk result (λ entries. entries.items ≡ entries_by (flag_at kept.now) (length kept.now)) }
{
    let mut entries = Vec::with_capacity(alloc, count(kept))?;
    for (n, is_kept) in kept.iter().enumerate() {
        if *is_kept {
            entries.push(Entry::Source {
                file: 0,
                node: n as u32,
            })?;
        }
    }
    Ok(entries)
}

// How many nodes are kept.
fn count(kept: &[bool]) -> usize {
    kept.iter().filter(|is_kept| **is_kept).count()
}

/// For each node 1 more than the number of its entry, or 0.
pub fn own_images(alloc: Global, kept: &[bool]) -> Result<Vec<u32>, NoMemory>
    requires { suc (length kept.now) < 2 ^ 32 }
    ensures { IfOk result (λ images. images.items ≡ own_images (flag_at kept.now) (length kept.now)) }
{
    let mut images = Vec::with_capacity(alloc, kept.len())?;
    let mut entries = 0;
    for is_kept in kept {
        images.push(image_after(*is_kept, entries))?;
        entries = count_after(*is_kept, entries);
    }
    Ok(images)
}

// The image of a node, by how many are kept before it.
fn image_after(is_kept: bool, before: u32) -> u32
    requires { suc before < 2 ^ 32 }
    ensures { result ≡ (if is_kept then suc before else 0) }
{
    if is_kept { before + 1 } else { 0 }
}

// How many nodes are kept up to one, by how many are before it.
fn count_after(is_kept: bool, before: u32) -> u32
    requires { suc before < 2 ^ 32 }
    ensures { result ≡ (if is_kept then suc before else before) }
{
    if is_kept { before + 1 } else { before }
}
