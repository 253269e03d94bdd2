// Which entries addresses name from the entries of a draft.
ghost use Rattle.std.specs.Prelude.{◌≡◌, ◌<◌, ◌↔◌, ℕ, [], false, IfOk, IsTrue, get_or, length, option_and_then};
ghost use Rattle.bl_selection.specs.Selection.{image_numbered};
ghost use Rattle.bl_file.specs.Outlines.{IsSound};
ghost use Rattle.bl_draft.specs.Own.{IsSourceDraft, entry_heads, outlined, own_names};
ghost use Rattle.bl_draft.specs.Prepared.{HasFileIds};
ghost use Rattle.bl_draft.specs.Structs.{AreStructsOf};
ghost use Rattle.bl_draft.specs.Targets.{known_names, known_in_scope};

use crate::entries::{numbered_heads, source_groups};
use crate::prepared::Prepared;
use bl_addresses::{Table, groups_of};
use bl_file::{Targets, ids_of};
use bl_num::NoMemory;
use std::alloc::Global;
use std::marker::Model;

/// Which entries of a draft addresses name: the image of what an address names in the source, where
/// that stands in the same group of the output or is an ID there.
#[derive(Drop)]
pub struct EntryTargets<'a> {
    // Which nodes of the source addresses name.
    table: &'a Table,
    // By the number of a node 1 more than the number of the entry that stands for it, or 0.
    images: &'a [u32],
    // By the number of an entry its group in the source, its group in the output, and whether it is
    // an ID.
    sources: Vec<u32>,
    groups: Vec<u32>,
    ids: Vec<bool>,
}

impl<'a> Model for EntryTargets<'a> {
    ghost use Rattle.std.specs.Prelude.{◌≡◌, ◌≤◌, All, length};
    ghost use Rattle.bl_draft.specs.Targets.{Known};

    ghost Value = { Known };

    ghost view = { λ t. record {
      marks = t.table.now;
      images = t.images.now;
      sources = t.sources.items;
      groups = t.groups.items;
      ids = t.ids.items;
    } };

    ghost invariant = { λ t. All (λ image. image ≤ length t.groups.items) t.images.now
        × (length t.images.now ≡ length t.table.now)
        × (length t.sources.items ≡ length t.groups.items)
        × (length t.ids.items ≡ length t.groups.items) };
}

impl<'a> Targets for EntryTargets<'a> {
    ghost use Rattle.std.specs.Prelude.{length};
    ghost use Rattle.bl_draft.specs.Targets.{known_names, known_names-null};

    ghost count = { λ k. length k.groups };

    ghost names = { known_names };

    ghost null_names_nothing = { known_names-null };

    fn target(&self, node: u32, address: u64) -> Option<u32> {
        match self.table.resolve(self.sources[node as usize], address) {
            Some(named) => self.entry_named(node, named),
            None => None,
        }
    }

    fn is_silent(&self, _node: u32) -> bool {
        false
    }
}

impl<'a> EntryTargets<'a> {
    // The image of a node of the source, where a pointer in an entry may name it.
    fn entry_named(&self, from: u32, node: u32) -> Option<u32>
        ensures { result ≡ option_and_then (known_in_scope self.now from)
            (image_numbered (get_or self.now.images node 0)) }
    {
        match image_of(self.images, node) {
            Some(to) => self.in_scope(from, to),
            None => None,
        }
    }

    // An entry as a pointer in another may name it: one of the same group, or an ID.
    fn in_scope(&self, from: u32, to: u32) -> Option<u32>
        ensures { result ≡ known_in_scope self.now from to }
    {
        if group_at(&self.groups, to) == group_at(&self.groups, from) || is_id(&self.ids, to) {
            Some(to)
        } else {
            None
        }
    }
}

// The entry that stands for a node.
fn image_of(images: &[u32], node: u32) -> Option<u32>
    ensures { result ≡ image_numbered (get_or images.now node 0) }
{
    let image = images.get(node as usize).copied().unwrap_or(0);
    if image == 0 { None } else { Some(image - 1) }
}

// The group of an entry.
fn group_at(groups: &[u32], entry: u32) -> u32
    ensures { result ≡ get_or groups.now entry 0 }
{
    groups.get(entry as usize).copied().unwrap_or(0)
}

// Whether an entry is an ID.
fn is_id(ids: &[bool], entry: u32) -> bool
    ensures { result ≡ get_or ids.now entry false }
{
    ids.get(entry as usize).copied().unwrap_or(false)
}

/// The targets of a draft's entries.
pub fn targets_of<'a>(alloc: Global, prepared: &Prepared<'a>) -> Result<EntryTargets<'a>, NoMemory>
    requires sound { IsSound prepared.now.outline.now }
    requires draft { IsSourceDraft prepared.now.outline.now prepared.now.draft.now }
    requires structs { AreStructsOf prepared.now.outline.now prepared.now.draft.now prepared.now.structs.now }
    requires heads { prepared.now.heads.now
        ≡ entry_heads prepared.now.outline.now.nodes prepared.now.draft.now.entries }
    ensures count { IfOk result (λ targets. length targets.groups ≡ length prepared.now.draft.now.entries) }
    ensures names { IfOk result (λ targets. (e : ℕ) → e < length prepared.now.draft.now.entries
        → known_names targets e ≡ own_names (outlined prepared.now.outline.now []) prepared.now.draft.now e) }
{
    let Prepared {
        draft,
        outline,
        structs,
        heads,
    } = *prepared;
    let entries = draft.entries.as_slice();
    let numbered = numbered_heads(alloc, &structs.numbers, heads)?;
    Ok(EntryTargets {
        table: &outline.table,
        images: draft.images.as_slice()[0].as_slice(),
        sources: source_groups(alloc, &outline.table, entries)?,
        groups: groups_of(alloc, heads)?,
        ids: ids_of(alloc, structs.layout, &numbered)?,
    })
}

/// Whether the nodes of a file that are IDs under a draft's catalogue are those that are IDs in the
/// file. So addresses name from a draft of all nodes what they name in the file.
pub fn has_file_ids(alloc: Global, prepared: &Prepared) -> Result<bool, NoMemory>
    requires sound { IsSound prepared.now.outline.now }
    requires structs { AreStructsOf prepared.now.outline.now prepared.now.draft.now prepared.now.structs.now }
    ensures { IfOk result (λ same.
        IsTrue same ↔ HasFileIds prepared.now.outline.now prepared.now.draft.now) }
{
    let outline = prepared.outline;
    let structs = prepared.structs;
    let numbered = numbered_heads(alloc, &structs.numbers, outline.nodes.as_slice())?;
    let ids = ids_of(alloc, structs.layout, &numbered)?;
    Ok(ids.as_slice() == outline.ids.as_slice())
}
