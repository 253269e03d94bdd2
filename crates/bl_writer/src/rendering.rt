// A draft as a staged output.
ghost use Rattle.std.specs.Prelude.{◌≡◌, ◌≤◌, ◌<◌, All, [], ◌∷◌, length, None, option_map, IfOk, OnOk};
ghost use Rattle.bl_shelf.specs.Calls.{Holds};
ghost use Rattle.bl_file.specs.Calls.{Tells};
ghost use Rattle.bl_file.specs.Opening.{file_in};
ghost use Rattle.bl_draft.specs.Prepared.{HasFileIds, IsPrepared};
ghost use Rattle.bl_draft.specs.Sources.{AreOpen, IsSource, SourcesStay};
ghost use Rattle.bl_draft.specs.Whole.{IsOfAll};
ghost use Rattle.bl_writer.specs.Calls.{CountsWrites, RefusesFirst, Stages};
ghost use Rattle.bl_writer.specs.Faults.{KeepsLimits};
ghost use Rattle.bl_writer.specs.Outputs.{selection_form};
ghost use Rattle.bl_writer.specs.Rendered.{HasRendered, IsChecked, IsOwn};
ghost use Rattle.bl_writer.specs.Rendering.{staged_as};
ghost use Rattle.bl_writer.specs.Totals.{AreTotals};

use crate::checked::{checked_structs, layout_of};
use crate::fault::{WriteFault, write_fault};
use crate::output::Output;
use crate::output_staged::render_output;
use bl_draft::{
    Draft, Prepared, has_file_ids, has_own_structs, heads_of, is_of_all, kinds_of_all,
    kinds_of_entries, targets_of,
};
use bl_file::{FileTargets, Opened, Outline, Payload};
use bl_layout::Layout;
use bl_shelf::Shelf;
use std::alloc::Global;

/// How much was written.
#[derive(Clone, Copy, Debug, PartialEq, Eq)]
pub struct Totals {
    /// The nodes, without the catalogue.
    pub blocks: u64,
    /// All bytes of the file.
    pub bytes: u64,
}

// Stages a draft, of which kinds and what addresses name are found by its entries.
fn render_entries<S: Shelf, P: Payload>(
    alloc: Global,
    prepared: &Prepared,
    payload: &mut P,
    shelf: &mut S,
    name: &str,
) -> Result<Totals, WriteFault>
    requires prepared { IsPrepared S.Shelf P.Payload shelf.old payload.old prepared.now }
    requires checked { IsChecked prepared.now }
    requires staged { S.room shelf.old ≡ None }
    ensures { HasRendered S.Shelf P.Payload name.now prepared.now.draft.now prepared.now.outline.now
        shelf.old shelf.new payload.old payload.new result }
{
    let Prepared {
        draft,
        outline,
        structs,
        heads,
    } = *prepared;
    let targets = match targets_of(alloc, prepared) {
        Ok(targets) => targets,
        Err(_) => return Err(WriteFault::NoMemory),
    };
    let kinds = match kinds_of_entries(alloc, prepared, &targets, payload, shelf) {
        Ok(kinds) => kinds,
        Err(fault) => return Err(write_fault(fault)),
    };
    let output = Output {
        from: outline.header,
        source: &outline.layout,
        header: draft.header,
        structs,
        nodes: heads,
        kinds: &kinds,
    };
    render_output(alloc, &output, &targets, payload, shelf, name)
}

// Stages a draft of all nodes with the file's IDs: what addresses name is taken as the file has it.
fn render_with_file_ids<S: Shelf, P: Payload>(
    alloc: Global,
    prepared: &Prepared,
    payload: &mut P,
    shelf: &mut S,
    name: &str,
) -> Result<Totals, WriteFault>
    requires prepared { IsPrepared S.Shelf P.Payload shelf.old payload.old prepared.now }
    requires checked { IsChecked prepared.now }
    requires all { IsOfAll (length prepared.now.outline.now.nodes) prepared.now.draft.now }
    requires ids { HasFileIds prepared.now.outline.now prepared.now.draft.now }
    requires staged { S.room shelf.old ≡ None }
    ensures { HasRendered S.Shelf P.Payload name.now prepared.now.draft.now prepared.now.outline.now
        shelf.old shelf.new payload.old payload.new result }
{
    let Prepared {
        draft,
        outline,
        structs,
        heads,
    } = *prepared;
    let targets = FileTargets {
        table: &outline.table,
    };
    let kinds = match kinds_of_all(alloc, prepared, payload, shelf) {
        Ok(kinds) => kinds,
        Err(fault) => return Err(write_fault(fault)),
    };
    let output = Output {
        from: outline.header,
        source: &outline.layout,
        header: draft.header,
        structs,
        nodes: heads,
        kinds: &kinds,
    };
    render_output(alloc, &output, &targets, payload, shelf, name)
}

// Stages a draft of all nodes, each as its own image, under the file's own catalogue and width: heads,
// kinds and what addresses name are taken as the file has them.
fn render_own<S: Shelf, P: Payload>(
    alloc: Global,
    draft: &Draft,
    outline: &Outline,
    payload: &mut P,
    shelf: &mut S,
    name: &str,
) -> Result<Totals, WriteFault>
    requires source { IsSource S.Shelf P.Payload shelf.old draft.now outline.now payload.old }
    requires own { IsOwn outline.now draft.now }
    requires staged { S.room shelf.old ≡ None }
    ensures { HasRendered S.Shelf P.Payload name.now draft.now outline.now shelf.old shelf.new
        payload.old payload.new result }
{
    let heads = outline.nodes.as_slice();
    let structs = checked_structs(alloc, outline, draft, &outline.layout, heads)?;
    let targets = FileTargets {
        table: &outline.table,
    };
    let output = Output {
        from: outline.header,
        source: &outline.layout,
        header: draft.header,
        structs: &structs,
        nodes: heads,
        kinds: outline.kinds.as_slice(),
    };
    render_output(alloc, &output, &targets, payload, shelf, name)
}

// Stages a draft of all nodes, each as its own image, whose catalogue is laid out.
fn render_nodes<S: Shelf, P: Payload>(
    alloc: Global,
    draft: &Draft,
    outline: &Outline,
    layout: &Layout,
    payload: &mut P,
    shelf: &mut S,
    name: &str,
) -> Result<Totals, WriteFault>
    requires source { IsSource S.Shelf P.Payload shelf.old draft.now outline.now payload.old }
    requires catalogue { layout.now.catalogue ≡ draft.now.catalogue }
    requires width { layout.now.width ≡ draft.now.header.width }
    requires all { IsOfAll (length outline.now.nodes) draft.now }
    requires staged { S.room shelf.old ≡ None }
    ensures { HasRendered S.Shelf P.Payload name.now draft.now outline.now shelf.old shelf.new
        payload.old payload.new result }
{
    let heads = outline.nodes.as_slice();
    let structs = checked_structs(alloc, outline, draft, layout, heads)?;
    let prepared = Prepared {
        draft,
        outline,
        structs: &structs,
        heads,
    };
    match has_file_ids(alloc, &prepared) {
        Ok(true) => render_with_file_ids(alloc, &prepared, payload, shelf, name),
        Ok(false) => render_entries(alloc, &prepared, payload, shelf, name),
        Err(_) => Err(WriteFault::NoMemory),
    }
}

// Stages a draft, whose catalogue is laid out.
fn render_under<S: Shelf, P: Payload>(
    alloc: Global,
    draft: &Draft,
    outline: &Outline,
    layout: &Layout,
    payload: &mut P,
    shelf: &mut S,
    name: &str,
) -> Result<Totals, WriteFault>
    requires source { IsSource S.Shelf P.Payload shelf.old draft.now outline.now payload.old }
    requires catalogue { layout.now.catalogue ≡ draft.now.catalogue }
    requires width { layout.now.width ≡ draft.now.header.width }
    requires staged { S.room shelf.old ≡ None }
    ensures { HasRendered S.Shelf P.Payload name.now draft.now outline.now shelf.old shelf.new
        payload.old payload.new result }
{
    if is_of_all(draft, outline.nodes.as_slice().len()) {
        return render_nodes(alloc, draft, outline, layout, payload, shelf, name);
    }
    let heads = match heads_of(alloc, outline, draft) {
        Ok(heads) => heads,
        Err(_) => return Err(WriteFault::NoMemory),
    };
    let structs = checked_structs(alloc, outline, draft, layout, &heads)?;
    let prepared = Prepared {
        draft,
        outline,
        structs: &structs,
        heads: &heads,
    };
    render_entries(alloc, &prepared, payload, shelf, name)
}

// Stages a draft of an opened file.
fn render_source<S: Shelf, P: Payload>(
    alloc: Global,
    draft: &Draft,
    outline: &Outline,
    payload: &mut P,
    shelf: &mut S,
    name: &str,
) -> Result<Totals, WriteFault>
    requires source { IsSource S.Shelf P.Payload shelf.old draft.now outline.now payload.old }
    requires staged { S.room shelf.old ≡ None }
    ensures { HasRendered S.Shelf P.Payload name.now draft.now outline.now shelf.old shelf.new
        payload.old payload.new result }
{
    if !has_own_structs(outline, draft) {
        let layout = layout_of(alloc, draft)?;
        return render_under(alloc, draft, outline, &layout, payload, shelf, name);
    }
    if is_of_all(draft, outline.nodes.as_slice().len()) {
        return render_own(alloc, draft, outline, payload, shelf, name);
    }
    render_under(alloc, draft, outline, &outline.layout, payload, shelf, name)
}

/// Stages the written form of a draft's selection under a name. The draft has nodes of one opened
/// file, under any header and catalogue. The caller commits. After a refusal nothing is staged. All
/// memory is taken by the end of `stage`.
pub fn render<S: Shelf, P: Payload>(
    alloc: Global,
    draft: &Draft,
    sources: &mut [Opened<P>],
    shelf: &mut S,
    name: &str,
) -> Result<Totals, WriteFault>
    requires sources { AreOpen S.Shelf P.Payload shelf.old draft.now sources.old }
    requires staged { S.room shelf.old ≡ None }

    // What is staged, and how much it is: all of it, so that no room is left.
    ensures staged { OnOk result (All (λ x. Tells S.Shelf P.Payload shelf.old x.payload (λ b.
        S.told shelf.new ≡ option_map (staged_as name.now
        (selection_form (file_in b ∷ []) draft.now)) (S.told shelf.old))) sources.old) }
    ensures stages { Stages S.Shelf name.now shelf.old shelf.new result }
    ensures totals { IfOk result (λ totals. All (λ x.
        AreTotals S.Shelf P.Payload shelf.old draft.now x.outline x.payload totals) sources.old) }

    // Floats that would become other numbers and outputs past a limit are refused, in this order,
    // and before a file is begun.
    ensures limits { All (λ x.
        KeepsLimits S.Shelf P.Payload shelf.old draft.now x.outline x.payload result) sources.old }
    ensures first { RefusesFirst S.Shelf shelf.old shelf.new result }

    // What is held stays, and the files may be read again.
    ensures holds { Holds S.Shelf shelf.old shelf.new }
    ensures sources { SourcesStay S.Shelf P.Payload shelf.new sources.old sources.new }
    ensures cause { CountsWrites S.Shelf shelf.old shelf.new result }
{
    let source = &mut sources[0];
    render_source(
        alloc,
        draft,
        &source.outline,
        &mut source.payload,
        shelf,
        name,
    )
}
