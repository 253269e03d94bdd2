// The kinds of a draft of one opened file.
ghost use Rattle.std.specs.Prelude.{◌≡◌, All, [], ◌∷◌, IfOk, length};
ghost use Rattle.bl_selection.specs.EntryKinds.{draft_kinds};
ghost use Rattle.bl_shelf.specs.Calls.{Keeps};
ghost use Rattle.bl_file.specs.Calls.{Stays, Tells};
ghost use Rattle.bl_file.specs.Opening.{file_in};
ghost use Rattle.bl_file.specs.Outlines.{ArePairsLong};
ghost use Rattle.bl_draft.specs.Own.{entry_heads};
ghost use Rattle.bl_draft.specs.Faults.{CountsKinds, TellsClash};
ghost use Rattle.bl_draft.specs.Sources.{AreOpen, IsSource, SourcesStay};

use crate::fault::{DraftFault, plan_fault, shelf_fault};
use crate::heads::heads_of;
use crate::kinds::kinds_of_entries;
use crate::prepared::Prepared;
use crate::structs::structs_of;
use crate::targets::targets_of;
use bl_file::{Opened, Outline, Payload, RawKind};
use bl_layout::Layout;
use bl_selection::Draft;
use bl_shelf::Shelf;
use std::alloc::Global;

/// The kind of each entry of a draft as raw data, by what all its pointers say once they are carried;
/// a struct counts as bytes. The draft has nodes of one opened file, under any header and catalogue.
/// Nothing is staged.
pub fn kinds_for<S: Shelf, P: Payload>(
    alloc: Global,
    draft: &Draft,
    sources: &mut [Opened<P>],
    shelf: &mut S,
) -> Result<Vec<RawKind>, DraftFault>
    requires sources { AreOpen S.Shelf P.Payload shelf.old draft.now sources.old }
    ensures len { IfOk result (λ kinds. length kinds.items ≡ length draft.now.entries) }
    ensures pairs { IfOk result (λ kinds. All (λ x.
        ArePairsLong (entry_heads x.outline.nodes draft.now.entries) kinds.items) sources.old) }
    ensures kinds { IfOk result (λ kinds. All (λ x. Tells S.Shelf P.Payload shelf.old x.payload (λ b.
        kinds.items ≡ draft_kinds (file_in b ∷ []) draft.now)) sources.old) }
    ensures clash { All (λ x. TellsClash x.outline draft.now result) sources.old }
    ensures keeps { Keeps S.Shelf shelf.old shelf.new }
    ensures sources { SourcesStay S.Shelf P.Payload shelf.new sources.old sources.new }
    ensures cause { CountsKinds S.Shelf shelf.old shelf.new result }
{
    let source = &mut sources[0];
    kinds_of_source(alloc, draft, &source.outline, &mut source.payload, shelf)
}

// The same of the one source.
fn kinds_of_source<S: Shelf, P: Payload>(
    alloc: Global,
    draft: &Draft,
    outline: &Outline,
    payload: &mut P,
    shelf: &mut S,
) -> Result<Vec<RawKind>, DraftFault>
    requires source { IsSource S.Shelf P.Payload shelf.old draft.now outline.now payload.old }
    ensures len { IfOk result (λ kinds. length kinds.items ≡ length draft.now.entries) }
    ensures pairs { IfOk result (λ kinds.
        ArePairsLong (entry_heads outline.now.nodes draft.now.entries) kinds.items) }
    ensures kinds { IfOk result (λ kinds. Tells S.Shelf P.Payload shelf.old payload.old (λ b.
        kinds.items ≡ draft_kinds (file_in b ∷ []) draft.now)) }
    ensures clash { TellsClash outline.now draft.now result }
    ensures stays { Stays S.Shelf P.Payload shelf.old shelf.new payload.old payload.new }
    ensures cause { CountsKinds S.Shelf shelf.old shelf.new result }
{
    let layout = match Layout::new(alloc, &draft.catalogue, draft.header.width) {
        Ok(layout) => layout,
        Err(_) => return Err(DraftFault::NoMemory),
    };
    let heads = match heads_of(alloc, outline, draft) {
        Ok(heads) => heads,
        Err(_) => return Err(DraftFault::NoMemory),
    };
    let structs = match structs_of(alloc, outline, draft, &layout, &heads) {
        Ok(structs) => structs,
        Err(fault) => return Err(plan_fault(fault)),
    };
    let prepared = Prepared {
        draft,
        outline,
        structs: &structs,
        heads: &heads,
    };
    let targets = match targets_of(alloc, &prepared) {
        Ok(targets) => targets,
        Err(_) => return Err(DraftFault::NoMemory),
    };
    match kinds_of_entries(alloc, &prepared, &targets, payload, shelf) {
        Ok(kinds) => Ok(kinds),
        Err(fault) => Err(shelf_fault(fault)),
    }
}
