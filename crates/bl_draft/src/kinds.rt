// The kinds of a draft's entries.
ghost use Rattle.std.specs.Prelude.{◌≡◌, ◌<◌, ℕ, [], IfOk, length};
ghost use Rattle.bl_file.specs.Calls.{Stays, Tells};
ghost use Rattle.bl_file.specs.Frames.{CountsReads};
ghost use Rattle.bl_file.specs.Outlines.{ArePairsLong};
ghost use Rattle.bl_draft.specs.Own.{entry_kinds, outlined, own_names};
ghost use Rattle.bl_draft.specs.Prepared.{HasFileIds, IsPrepared};
ghost use Rattle.bl_draft.specs.Targets.{known_names};
ghost use Rattle.bl_draft.specs.Whole.{IsOfAll};

use crate::prepared::Prepared;
use crate::speakers::carried_speakers;
use crate::targets::EntryTargets;
use bl_file::{Payload, RawKind, Sight, kinds_heard, kinds_in_groups};
use bl_shelf::{Shelf, ShelfFault};
use std::alloc::Global;

/// The kind of each entry of a draft as raw data, by what all its pointers say once they are carried,
/// which reads all its structs; a struct counts as bytes.
pub fn kinds_of_entries<S: Shelf, P: Payload>(
    alloc: Global,
    prepared: &Prepared,
    targets: &EntryTargets,
    payload: &mut P,
    shelf: &mut S,
) -> Result<Vec<RawKind>, ShelfFault>
    requires prepared { IsPrepared S.Shelf P.Payload shelf.old payload.old prepared.now }
    requires count { length targets.now.groups ≡ length prepared.now.draft.now.entries }
    requires names { (e : ℕ) → e < length prepared.now.draft.now.entries → known_names targets.now e
        ≡ own_names (outlined prepared.now.outline.now []) prepared.now.draft.now e }
    ensures len { IfOk result (λ kinds. length kinds.items ≡ length prepared.now.draft.now.entries) }
    ensures kinds { IfOk result (λ kinds. Tells S.Shelf P.Payload shelf.old payload.old (λ b.
        kinds.items ≡ entry_kinds (outlined prepared.now.outline.now b) prepared.now.draft.now)) }
    ensures pairs { IfOk result (λ kinds. ArePairsLong prepared.now.heads.now kinds.items) }
    ensures stays { Stays S.Shelf P.Payload shelf.old shelf.new payload.old payload.new }
    ensures cause { CountsReads S.Shelf shelf.old shelf.new result }
{
    let outline = prepared.outline;
    let speakers = match carried_speakers(alloc, prepared) {
        Ok(speakers) => speakers,
        Err(_) => return Err(ShelfFault::NoMemory),
    };
    let sight = Sight {
        header: &outline.header,
        layout: &outline.layout,
        nodes: prepared.heads,
        speakers: &speakers,
    };
    kinds_heard(alloc, payload, shelf, &sight, targets)
}

/// The same of a draft of all nodes of a file, with the file's IDs. So addresses name what they name
/// in the file, and they are looked up in groups that have a raw node alone.
pub fn kinds_of_all<S: Shelf, P: Payload>(
    alloc: Global,
    prepared: &Prepared,
    payload: &mut P,
    shelf: &mut S,
) -> Result<Vec<RawKind>, ShelfFault>
    requires prepared { IsPrepared S.Shelf P.Payload shelf.old payload.old prepared.now }
    requires all { IsOfAll (length prepared.now.outline.now.nodes) prepared.now.draft.now }
    requires ids { HasFileIds prepared.now.outline.now prepared.now.draft.now }
    ensures len { IfOk result (λ kinds. length kinds.items ≡ length prepared.now.draft.now.entries) }
    ensures kinds { IfOk result (λ kinds. Tells S.Shelf P.Payload shelf.old payload.old (λ b.
        kinds.items ≡ entry_kinds (outlined prepared.now.outline.now b) prepared.now.draft.now)) }
    ensures pairs { IfOk result (λ kinds. ArePairsLong prepared.now.heads.now kinds.items) }
    ensures stays { Stays S.Shelf P.Payload shelf.old shelf.new payload.old payload.new }
    ensures cause { CountsReads S.Shelf shelf.old shelf.new result }
{
    let outline = prepared.outline;
    let speakers = match carried_speakers(alloc, prepared) {
        Ok(speakers) => speakers,
        Err(_) => return Err(ShelfFault::NoMemory),
    };
    let sight = Sight {
        header: &outline.header,
        layout: &outline.layout,
        nodes: prepared.heads,
        speakers: &speakers,
    };
    kinds_in_groups(alloc, payload, shelf, &sight, &outline.table)
}
