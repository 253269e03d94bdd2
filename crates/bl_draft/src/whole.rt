ghost use Rattle.std.specs.Prelude.{◌≡◌, ◌≤◌, ◌<◌, ◌^◌, ◌↔◌, ℕ, true, All, List, [], ◌∷◌, IfOk, IsTrue, length, suc};
ghost use Rattle.bl_format.specs.Limits.{first_version, last_version};
ghost use Rattle.bl_format.specs.Schema.{CanBeRead, catalogue_written};
ghost use Rattle.bl_format.specs.Layout.{HasLayout};
ghost use Rattle.bl_selection.specs.Drafts.{is_well_formed};
ghost use Rattle.bl_selection.specs.Selection.{draft_of, is_source, whole_selection};
ghost use Rattle.bl_file.specs.Outlines.{IsSound};
ghost use Rattle.bl_draft.specs.Kept.{HasIndex, file_of};
ghost use Rattle.bl_draft.specs.Own.{IsSourceDraft, outlined};
ghost use Rattle.bl_draft.specs.Whole.{IsOfAll, all_entries, all_images};

use crate::kept::{entries_by, kept_flags, own_images};
use bl_file::Opened;
use bl_format::{Catalogue, Head, Header};
use bl_num::{Items, NoMemory};
use bl_selection::{Draft, Entry};
use std::alloc::Global;

/// The draft of all nodes of an opened file that a catalogue keeps, each as its own image.
pub fn whole_draft<P>(
    alloc: Global,
    opened: &Opened<P>,
    header: Header,
    catalogue: Catalogue,
) -> Result<Draft, NoMemory>
    requires sound { IsSound opened.now.outline }
    requires catalogue { HasLayout catalogue header.width }
    ensures draft { IfOk result (λ draft. (b : List ℕ) →
        draft ≡ whole_selection (outlined opened.now.outline b) header catalogue) }
    ensures well_formed { IfOk result (λ draft. (b : List ℕ) →
        is_well_formed (outlined opened.now.outline b ∷ []) draft ≡ true) }

    // Under a header and a catalogue that can be written it may be rendered.
    ensures source { (first_version ≤ header.version) × (header.version ≤ last_version)
        → length (catalogue_written header.order catalogue) < 2 ^ 31
        → IfOk result (IsSourceDraft opened.now.outline) }
{
    let outline = &opened.outline;
    let nodes = outline.nodes.as_slice();
    draft_of_nodes(alloc, nodes, outline.layout.catalogue(), header, catalogue)
}

/// The draft of all nodes of a file that a catalogue keeps, in time that grows with the nodes and
/// the names of both catalogues.
pub fn draft_of_nodes(
    alloc: Global,
    nodes: &[Head],
    from: &Catalogue,
    header: Header,
    catalogue: Catalogue,
) -> Result<Draft, NoMemory>
    requires from { CanBeRead from.now }
    requires catalogue { CanBeRead catalogue }
    requires nodes { All (HasIndex from.now) nodes.now }
    requires few { suc (length nodes.now) < 2 ^ 32 }
    ensures { IfOk result (λ draft.
        draft ≡ whole_selection (file_of nodes.now from.now) header catalogue) }
{
    let kept = kept_flags(alloc, nodes, from, &catalogue)?;
    let entries = entries_by(alloc, &kept)?;
    let mut images = Vec::with_capacity(alloc, 1)?;
    images.push(Items::from_vec(own_images(alloc, &kept)?))?;
    Ok(draft_of(alloc, header, catalogue, entries, images))
}

// A draft without overrides.
fn draft_of(
    alloc: Global,
    header: Header,
    catalogue: Catalogue,
    entries: Vec<Entry>,
    images: Vec<Items<u32>>,
) -> Draft
    ensures { result ≡ draft_of header catalogue entries.items images.items }
{
    Draft {
        header,
        catalogue,
        entries: Items::from_vec(entries),
        images: Items::from_vec(images),
        overrides: Items::from_vec(Vec::new(alloc)),
    }
}

/// Whether a draft has all of so many nodes of its only source, in order, each as its own image.
pub fn is_of_all(draft: &Draft, count: usize) -> bool
    requires { length draft.now.images ≡ 1 }
    ensures { IsTrue result ↔ IsOfAll count draft.now }
{
    are_all_nodes(draft.entries.as_slice(), count)
        && are_own_images(draft.images.as_slice()[0].as_slice(), count)
}

// Whether entries are all of so many nodes of the only source, in order.
fn are_all_nodes(entries: &[Entry], count: usize) -> bool
    ensures { IsTrue result ↔ (entries.now ≡ all_entries count) }
{
    for (k, entry) in entries.iter().enumerate() {
        if !is_node(entry, k) {
            return false;
        }
    }
    entries.len() == count
}

// Whether an entry is node k of the only source.
fn is_node(entry: &Entry, k: usize) -> bool
    ensures { result ≡ is_source 0 k entry.now }
{
    match entry {
        Entry::Source { file, node } => *file == 0 && *node as usize == k,
        _ => false,
    }
}

// Whether images are those by which each of so many nodes is its own.
fn are_own_images(images: &[u32], count: usize) -> bool
    ensures { IsTrue result ↔ (images.now ≡ all_images count) }
{
    for (k, image) in images.iter().enumerate() {
        if *image as usize != k + 1 {
            return false;
        }
    }
    images.len() == count
}
