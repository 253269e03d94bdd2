// Converts a file, in its own form or under the catalogue of another file.
ghost use Rattle.std.specs.Prelude.{◌≡◌, ◌⊎◌, ◌↔◌, ℕ, List, Option, Some, None, IfOk, IfErr, IsTrue, OnOk};
ghost use Rattle.bl_num.specs.declared.number.Order.{Order};
ghost use Rattle.bl_num.specs.declared.number.Width.{Width};
ghost use Rattle.bl_format.specs.Rewidth.{rewidth, rewidth_fault};
ghost use Rattle.bl_shelf.specs.Calls.{IsQuiet, Keeps};
ghost use Rattle.bl_file.specs.Outlines.{IsSound};
ghost use Rattle.bl_draft.specs.Own.{IsSourceDraft};
ghost use Rattle.bl_run.specs.Blame.{IsNotUsage};
ghost use Rattle.bl_run.specs.Commands.Convert.{convert_meaning, width_ending};
ghost use Rattle.bl_run.specs.Conversions.{IsConversionDraft, IsFormDraft, IsNoConversion, IsUnformed, wanted_fault};
ghost use Rattle.bl_run.specs.Obeying.{Obeys};
ghost use Rattle.bl_run.specs.Opened.{IsInput};
ghost use Rattle.bl_run.specs.Rendering.{WritesDraft};
ghost use Rattle.bl_run.specs.Staging.{IsReady, IsUnready};

use crate::committing::commit;
use crate::opening::open_ending;
use crate::rendering::write_ending;
use bl_commands::{Ending, Quantity};
use bl_draft::{Draft, whole_draft};
use bl_file::{Header, LayoutFault, Opened, Outline, PagedPayload, Payload, open};
use bl_format::Catalogue;
use bl_layout::{copy_of, rewidth};
use bl_lines::summary_line;
use bl_num::{Order, Width};
use bl_shelf::{Shelf, Sink};
use bl_words::ConvertOptions;
use bl_writer::render;
use std::alloc::Global;

// The catalogue of a model at a width.
fn catalogue_at(alloc: Global, model: &Outline, width: Width) -> Result<Catalogue, LayoutFault>
    requires { IsSound model.now }
    ensures made { IfOk result (λ catalogue.
        catalogue ≡ rewidth model.now.layout.catalogue model.now.header.width width) }
    ensures fits { OnOk result
        (rewidth_fault model.now.layout.catalogue model.now.header.width width ≡ None) }
    ensures refuses { IfErr result (λ fault. (fault ≡ LayoutFault.NoMemory)
        ⊎ (rewidth_fault model.now.layout.catalogue model.now.header.width width ≡ Some fault)) }
{
    let own = model.header.width;
    if same_width(own, width) {
        return Ok(copy_of(alloc, model.layout.catalogue())?);
    }
    rewidth(alloc, model.layout.catalogue(), own, width)
}

// Whether two widths are one.
fn same_width(one: Width, other: Width) -> bool
    ensures { IsTrue result ↔ (one ≡ other) }
{
    one == other
}

// How a run ends for a struct that is too long at a width.
fn width_ending(fault: LayoutFault) -> Ending
    ensures { result ≡ width_ending fault }
{
    match fault {
        LayoutFault::TooLong(count) => Ending::PastLimit {
            quantity: Quantity::TypeBytes,
            count,
        },
        _ => Ending::NoMemory,
    }
}

// The draft of all nodes of a file that the catalogue of a model keeps, under that, in the width and
// the order that are wanted.
fn form_draft<P>(
    alloc: Global,
    file: &Opened<P>,
    model: &Outline,
    width: Option<Width>,
    order: Option<Order>,
) -> Result<Draft, Ending>
    requires file { IsSound file.now.outline }
    requires model { IsSound model.now }
    ensures draft { IfOk result (IsFormDraft file.now.outline model.now width order) }
    ensures fits { OnOk result (wanted_fault file.now.outline model.now width ≡ None) }
    ensures source { IfOk result (IsSourceDraft file.now.outline) }
    ensures refuses { IfErr result (IsUnformed file.now.outline model.now width) }
{
    let own = file.outline.header;
    let header = Header {
        width: width.unwrap_or(own.width),
        order: order.unwrap_or(own.order),
        version: model.header.version,
    };
    let catalogue = match catalogue_at(alloc, model, header.width) {
        Ok(catalogue) => catalogue,
        Err(fault) => return Err(width_ending(fault)),
    };
    match whole_draft(alloc, file, header, catalogue) {
        Ok(draft) => Ok(draft),
        Err(_) => Err(Ending::NoMemory),
    }
}

// The draft that a conversion of a file writes under the catalogue of the file `cat`. Of that, no
// more than the catalogue is kept.
fn draft_by_catalogue<S: Shelf>(
    alloc: Global,
    file: &Opened<PagedPayload>,
    cat: &str,
    width: Option<Width>,
    order: Option<Order>,
    shelf: &mut S,
) -> Result<Draft, Ending>
    requires idle { S.room shelf.old ≡ None }
    requires file { IsSound file.now.outline }
    ensures keeps { Keeps S.Shelf shelf.old shelf.new }
    ensures source { IfOk result (IsSourceDraft file.now.outline) }
    ensures quiet { IfOk result (λ draft. IsQuiet S.Shelf shelf.old shelf.new) }
    ensures draft { IfOk result (IsConversionDraft S.Shelf ⟦<PagedPayload as Payload>⟧
        (Some cat.now) width order shelf.old file.now.outline file.now.payload) }
    ensures unready { IfErr result (IsNoConversion S.Shelf ⟦<PagedPayload as Payload>⟧
        (Some cat.now) width order shelf.old shelf.new file.now.outline file.now.payload) }
    ensures spelled { IfErr result IsNotUsage }
{
    let model = match open::<S, PagedPayload>(alloc, shelf, cat, file.outline.size) {
        Ok(model) => model.outline,
        Err(fault) => return Err(open_ending(alloc, cat, fault)),
    };
    form_draft(alloc, file, &model, width, order)
}

// The draft that a conversion of a file writes: under its own catalogue, or under that of the file
// behind `--like`.
fn target_draft<S: Shelf>(
    alloc: Global,
    file: &Opened<PagedPayload>,
    options: &ConvertOptions,
    shelf: &mut S,
) -> Result<Draft, Ending>
    requires idle { S.room shelf.old ≡ None }
    requires file { IsSound file.now.outline }
    ensures keeps { Keeps S.Shelf shelf.old shelf.new }
    ensures source { IfOk result (IsSourceDraft file.now.outline) }
    ensures quiet { IfOk result (λ draft. IsQuiet S.Shelf shelf.old shelf.new) }
    ensures draft { IfOk result (IsConversionDraft S.Shelf ⟦<PagedPayload as Payload>⟧
        options.now.like options.now.width options.now.order shelf.old file.now.outline file.now.payload) }
    ensures unready { IfErr result (IsNoConversion S.Shelf ⟦<PagedPayload as Payload>⟧
        options.now.like options.now.width options.now.order shelf.old shelf.new file.now.outline
        file.now.payload) }
    ensures spelled { IfErr result IsNotUsage }
{
    match &options.like {
        Some(cat) => draft_by_catalogue(
            alloc,
            file,
            cat.as_str(),
            options.width,
            options.order,
            shelf,
        ),
        None => form_draft(alloc, file, &file.outline, options.width, options.order),
    }
}

// Stages a draft of the nodes of the file `input` under a name, and gives the line that tells of it.
fn stage_conversion<S: Shelf>(
    alloc: Global,
    draft: &Draft,
    file: Opened<PagedPayload>,
    input: &str,
    name: &str,
    shelf: &mut S,
) -> Result<Vec<u8>, Ending>
    requires idle { S.room shelf.old ≡ None }
    requires input { IsInput S.Shelf ⟦<PagedPayload as Payload>⟧
        input.now shelf.old file.outline file.payload }
    requires draft { IsSourceDraft file.outline draft.now }
    ensures ready { IfOk result (λ line.
        (like : Option (List ℕ)) (width : Option Width) (order : Option Order)
        → WritesDraft S.Shelf (convert_meaning input.now name.now like width order)
        input.now name.now shelf.old draft.now
        → IsReady S.Shelf (convert_meaning input.now name.now like width order)
        name.now shelf.old shelf.new line.items) }
    ensures unready { IfErr result (λ ending.
        (like : Option (List ℕ)) (width : Option Width) (order : Option Order)
        → WritesDraft S.Shelf (convert_meaning input.now name.now like width order)
        input.now name.now shelf.old draft.now
        → IsUnready S.Shelf (convert_meaning input.now name.now like width order)
        name.now shelf.old shelf.new ending) }
    ensures spelled { IfErr result IsNotUsage }
{
    let totals = match render(alloc, draft, &mut [file], shelf, name) {
        Ok(totals) => totals,
        Err(fault) => return Err(write_ending(alloc, &draft.catalogue, input, fault)),
    };
    match summary_line(alloc, totals.blocks, totals.bytes) {
        Ok(line) => Ok(line),
        Err(_) => {
            shelf.abandon();
            Err(Ending::NoMemory)
        }
    }
}

/// Converts the file `input` to the file `name`: under the catalogue of the file that `like` names, or
/// its own, and in the width and the order that are given, or its own. The other options aren't read.
pub fn convert<S: Shelf, O: Sink>(
    alloc: Global,
    input: &str,
    name: &str,
    options: &ConvertOptions,
    shelf: &mut S,
    out: &mut O,
) -> Result<(), Ending>
    requires { S.room shelf.old ≡ None }
    ensures obeys { Obeys S.Shelf O.Sink
        (convert_meaning input.now name.now options.now.like options.now.width options.now.order)
        shelf.old shelf.new out.old out.new result }
    ensures spelled { IfErr result IsNotUsage }
{
    let file = match open::<S, PagedPayload>(alloc, shelf, input, 0) {
        Ok(file) => file,
        Err(fault) => return Err(open_ending(alloc, input, fault)),
    };
    let draft = match target_draft(alloc, &file, options, shelf) {
        Ok(draft) => draft,
        Err(ending) => return Err(ending),
    };
    match stage_conversion(alloc, &draft, file, input, name, shelf) {
        Err(ending) => Err(ending),
        Ok(line) => commit(&line, shelf, out),
    }
}
