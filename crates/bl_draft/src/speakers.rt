// The leaves of a source's structs whose pointers say anything once they are carried to a draft's
// catalogue.
ghost use Rattle.std.specs.Prelude.{◌≡◌, ◌≢◌, ◌<◌, All, IfOk, false, get_or, length, true};
ghost use Rattle.bl_format.specs.declared.file.Head.{Head};
ghost use Rattle.bl_format.specs.Layout.{struct_length};
ghost use Rattle.bl_file.specs.Heard.{AreHeard};
ghost use Rattle.bl_file.specs.Outlines.{IsSound};
ghost use Rattle.bl_file.specs.Speakers.{IsHeard, basic_lengths};
ghost use Rattle.bl_draft.specs.Own.{IsSourceDraft, entry_heads};
ghost use Rattle.bl_draft.specs.Speakers.{SpeaksAs, carried_speakers, is_pointer, met_speaker, speaker_at, speakers_by};
ghost use Rattle.bl_draft.specs.Structs.{AreStructsOf, number_under};

use crate::numbers::number_at;
use crate::prepared::Prepared;
use bl_file::{Head, Speaker, basic_lengths, said_by};
use bl_format::{Kind, Leaf};
use bl_num::{Items, NoMemory};
use bl_plan::source_places;
use std::alloc::{AllocError, Global};

/// By the number of a struct of the source, the leaves whose pointers say anything under the draft's
/// catalogue, where a node of the draft has the struct.
pub fn carried_speakers(alloc: Global, prepared: &Prepared) -> Result<Vec<Items<Speaker>>, NoMemory>
    requires sound { IsSound prepared.now.outline.now }
    requires draft { IsSourceDraft prepared.now.outline.now prepared.now.draft.now }
    requires structs { AreStructsOf prepared.now.outline.now prepared.now.draft.now prepared.now.structs.now }
    requires heads { prepared.now.heads.now
        ≡ entry_heads prepared.now.outline.now.nodes prepared.now.draft.now.entries }
    ensures heard { IfOk result (λ speakers.
        AreHeard prepared.now.outline.now.layout.catalogue speakers.items) }
    ensures says { IfOk result (λ speakers. All
        (SpeaksAs prepared.now.outline.now prepared.now.draft.now speakers.items) prepared.now.heads.now) }
{
    let count = prepared.outline.layout.struct_count();
    let used = used_structs(alloc, count as usize, prepared.heads)?;
    let basics = basic_lengths(alloc, prepared.structs.layout.catalogue())?;
    let mut speakers = Vec::with_capacity(alloc, count as usize)?;
    for s in 0..count {
        let own = struct_speakers(alloc, prepared, &basics, s, used[s as usize])?;
        speakers.push(Items::from_vec(own))?;
    }
    Ok(speakers)
}

// By the number of a struct, whether one of some nodes has it.
fn used_structs(alloc: Global, count: usize, heads: &[Head]) -> Result<Vec<bool>, AllocError>
    ensures len { IfOk result (λ used. length used.items ≡ count) }
    ensures used { IfOk result (λ used. All (λ (x : Head).
        x.index < count → get_or used.items x.index false ≡ true) heads.now) }
{
    let mut used = vec![in alloc; false; count]?;
    for head in heads {
        let s = head.index as usize;
        if s < count {
            used[s] = true;
        }
    }
    Ok(used)
}

// The leaves of one struct, if it is used, and has a namesake.
fn struct_speakers(
    alloc: Global,
    prepared: &Prepared,
    basics: &[Option<u8>],
    s: u32,
    is_used: bool,
) -> Result<Vec<Speaker>, NoMemory>
    requires sound { IsSound prepared.now.outline.now }
    requires structs { AreStructsOf prepared.now.outline.now prepared.now.draft.now prepared.now.structs.now }
    requires basics { basics.now ≡ basic_lengths prepared.now.draft.now.catalogue }
    requires s { s < length prepared.now.outline.now.layout.catalogue.structs }
    ensures speakers { IfOk result (λ speakers.
        is_used ≡ true → number_under prepared.now.outline.now prepared.now.draft.now s ≢ 0
        → speakers.items ≡ carried_speakers prepared.now.outline.now prepared.now.draft.now s) }
    ensures heard { IfOk result (λ speakers.
        All (IsHeard (struct_length prepared.now.outline.now.layout.catalogue s)) speakers.items) }
{
    let from = &prepared.outline.layout;
    let to = prepared.structs.layout;
    let t = number_at(&prepared.structs.numbers, s);
    if !is_used || t == 0 {
        return Ok(Vec::new(alloc));
    }
    let found = source_places(alloc, from, s, to, t)?;
    Ok(speakers_by(alloc, basics, from.leaves(s), to.leaves(t), &found)?)
}

// What some leaves say, heard at those of the source that they meet.
fn speakers_by(
    alloc: Global,
    basics: &[Option<u8>],
    sources: &[Leaf],
    targets: &[Leaf],
    found: &[Option<u32>],
) -> Result<Vec<Speaker>, AllocError>
    ensures { IfOk result (λ speakers.
        speakers.items ≡ speakers_by basics.now sources.now targets.now found.now) }
{
    targets
        .iter()
        .zip(found)
        .filter_map(|(target, place)| speaker_at(basics, sources, target, *place))
        .collect(alloc)
}

// What a leaf says, where it meets the source's leaf of a number, or none.
fn speaker_at(
    basics: &[Option<u8>],
    sources: &[Leaf],
    target: &Leaf,
    place: Option<u32>,
) -> Option<Speaker>
    ensures { result ≡ speaker_at basics.now sources.now target.now place }
{
    let source = sources.get(place? as usize)?;
    met_speaker(basics, target, source)
}

// What a leaf says, where it meets another of the source, if it says anything.
fn met_speaker(basics: &[Option<u8>], target: &Leaf, source: &Leaf) -> Option<Speaker>
    ensures { result ≡ met_speaker basics.now target.now source.now }
{
    if !is_pointer(source.kind) {
        return None;
    }
    let kind = said_by(basics, target.kind)?;
    Some(Speaker {
        offset: source.offset,
        size: source.size,
        count: source.count.min(target.count),
        kind,
    })
}

// Whether a leaf holds pointers.
fn is_pointer(kind: Kind) -> bool
    ensures { result ≡ is_pointer kind }
{
    match kind {
        Kind::Pointer { .. } => true,
        Kind::Whole(_) => false,
        Kind::Bits(_) => false,
        Kind::Opaque => false,
    }
}
