// Reads the catalogue of a file, and lays out its structs.
ghost use Rattle.std.specs.Prelude.{◌≡◌, ◌≢◌, ◌⊎◌, ◌≤◌, ◌<◌, ◌+◌, ◌^◌, ◌∷◌, [], All, Ok, Some, None, OnOk, IfOk, IfErr, length, option_map};
ghost use Rattle.std.specs.Result.{result_err};
ghost use Rattle.bl_format.specs.Blocks.{head_size};
ghost use Rattle.bl_format.specs.Schema.{CanBeRead, catalogue_of, catalogue_written};
ghost use Rattle.bl_format.specs.Layout.{HasLayout, layout_fault};
ghost use Rattle.bl_format.specs.Nodes.{is_catalogue, catalogues_in, payload as payload_in};
ghost use Rattle.bl_file.specs.Calls.{Stays, Tells, IsOpen, FailsFor, Blames};
ghost use Rattle.bl_file.specs.Opening.{catalogue_fault, named_fault};
ghost use Rattle.bl_file.specs.Reading.{IsBlockIn};
ghost use Rattle.bl_file.specs.Steps.{IsGiven, NoFaultIn, IsFormatFault, AreBlocksOf, IsCatalogueOf};

use crate::fault::{OpenFault, shelf_fault};
use crate::fault_names::layout_fault;
use crate::payload::Payload;
use bl_blocks::head_size;
use bl_format::{Catalogue, Head, Header, SdnaFault};
use bl_layout::Layout;
use bl_num::{Order, Width};
use bl_sdna::parse_catalogue;
use bl_shelf::Shelf;
use std::alloc::{AllocError, Global};

// Whether a block holds the catalogue.
pub fn is_catalogue(block: &Head) -> bool
    ensures { result ≡ is_catalogue block.now }
{
    block.code == *b"DNA1"
}

// The blocks that hold a catalogue.
fn catalogues_in(alloc: Global, blocks: &[Head]) -> Result<Vec<Head>, AllocError>
    ensures { IfOk result (λ catalogues. catalogues.items ≡ catalogues_in blocks.now) }
{
    blocks
        .iter()
        .filter(|block| is_catalogue(block))
        .copied()
        .collect(alloc)
}

// The one of some blocks that hold a catalogue, or what is wrong with them.
fn only_one(catalogues: &[Head]) -> Result<Head, OpenFault>
    ensures one { IfOk result (λ place. catalogues.now ≡ place ∷ []) }
    ensures fault { IfErr result (IsGiven (catalogue_fault catalogues.now)) }
{
    match catalogues {
        [] => Err(OpenFault::NoCatalogue),
        [place] => Ok(*place),
        [_, second, ..] => Err(OpenFault::TwoCatalogues(second.at)),
    }
}

// The one block that holds a catalogue, or why there isn't one.
fn one_catalogue(alloc: Global, blocks: &[Head]) -> Result<Head, OpenFault>
    ensures one { IfOk result (λ place. catalogues_in blocks.now ≡ place ∷ []) }
    ensures fault { IfErr result (IsGiven (catalogue_fault (catalogues_in blocks.now))) }
{
    let catalogues = catalogues_in(alloc, blocks)?;
    only_one(&catalogues)
}

// The bytes behind a head.
fn read_payload<S: Shelf, P: Payload>(
    alloc: Global,
    payload: &mut P,
    shelf: &mut S,
    header: &Header,
    head: &Head,
) -> Result<Vec<u8>, OpenFault>
    requires small { P.file_size payload.old < 2 ^ 63 }
    requires inside { head.now.at + head_size header.now + head.now.len
        ≤ P.file_size payload.old }
    requires held { IsOpen S.Shelf P.Payload shelf.old payload.old }
    ensures len { IfOk result (λ bytes. length bytes.items ≡ head.now.len) }
    ensures bytes { IfOk result (λ bytes. Tells S.Shelf P.Payload shelf.old payload.old
        (λ b. payload_in header.now b head.now ≡ bytes.items)) }
    ensures fault { IfErr result
        (FailsFor S.Shelf P.Payload shelf.old payload.old NoFaultIn) }
    ensures stays { Stays S.Shelf P.Payload shelf.old shelf.new payload.old payload.new }
    ensures cause { Blames S.Shelf shelf.old shelf.new result }
{
    let at = head.at + head_size(header) as u64;
    let mut bytes = vec![in alloc; 0; head.len as usize]?;
    match payload.copy_out(shelf, at, &mut bytes) {
        Ok(()) => Ok(bytes),
        Err(fault) => Err(shelf_fault(fault)),
    }
}

// A catalogue's fault as that of a file.
fn sdna_fault(fault: SdnaFault) -> OpenFault
    ensures { (result ≡ OpenFault.NoMemory)
        ⊎ ((fault ≢ SdnaFault.NoMemory) × (result ≡ OpenFault.Sdna fault)) }
{
    if fault == SdnaFault::NoMemory {
        return OpenFault::NoMemory;
    }
    OpenFault::Sdna(fault)
}

// The catalogue that a payload spells.
fn catalogue_of(alloc: Global, order: Order, bytes: &[u8]) -> Result<Catalogue, OpenFault>
    requires { length bytes.now < 2 ^ 31 }
    ensures read { IfOk result (λ catalogue. catalogue_of order bytes.now ≡ Ok catalogue) }
    ensures can_be_read { IfOk result CanBeRead }
    ensures short { IfOk result (λ catalogue.
        length (catalogue_written order catalogue) < 2 ^ 31) }
    ensures fault { IfErr result
        (IsGiven (option_map OpenFault.Sdna (result_err (catalogue_of order bytes.now)))) }
{
    match parse_catalogue(alloc, order, bytes) {
        Ok(catalogue) => Ok(catalogue),
        Err(fault) => Err(sdna_fault(fault)),
    }
}

// The layout of a catalogue, which it has from then on.
fn layout_of(alloc: Global, catalogue: Catalogue, width: Width) -> Result<Layout, OpenFault>
    requires { CanBeRead catalogue }
    ensures made { IfOk result (λ layout.
        layout ≡ record { catalogue = catalogue; width = width }) }
    ensures passes { OnOk result (layout_fault catalogue width ≡ None) }
    ensures fault { IfErr result
        (IsGiven (option_map (named_fault catalogue) (layout_fault catalogue width))) }
{
    match Layout::from_catalogue(alloc, catalogue, width) {
        Ok(layout) => Ok(layout),
        Err(refused) => Err(layout_fault(alloc, &refused.catalogue, refused.fault)),
    }
}

/// The catalogue of a file, laid out at the header's width.
pub fn read_layout<S: Shelf, P: Payload>(
    alloc: Global,
    payload: &mut P,
    shelf: &mut S,
    header: &Header,
    blocks: &[Head],
) -> Result<Layout, OpenFault>
    requires small { P.file_size payload.old < 2 ^ 63 }
    requires sound { All (IsBlockIn header.now (P.file_size payload.old)) blocks.now }
    requires held { IsOpen S.Shelf P.Payload shelf.old payload.old }
    requires read { Tells S.Shelf P.Payload shelf.old payload.old
        (AreBlocksOf header.now blocks.now) }
    ensures width { IfOk result (λ layout. layout.width ≡ header.now.width) }
    ensures has_layout { IfOk result (λ layout. HasLayout layout.catalogue layout.width) }
    ensures short { IfOk result (λ layout.
        length (catalogue_written header.now.order layout.catalogue) < 2 ^ 31) }
    ensures read { IfOk result (λ layout. Tells S.Shelf P.Payload shelf.old payload.old
        (IsCatalogueOf header.now blocks.now layout.catalogue)) }
    ensures fault { IfErr result
        (FailsFor S.Shelf P.Payload shelf.old payload.old IsFormatFault) }
    ensures stays { Stays S.Shelf P.Payload shelf.old shelf.new payload.old payload.new }
    ensures cause { Blames S.Shelf shelf.old shelf.new result }
{
    let place = match one_catalogue(alloc, blocks) {
        Ok(place) => place,
        Err(fault) => return Err(fault),
    };
    let bytes = match read_payload(alloc, payload, shelf, header, &place) {
        Ok(bytes) => bytes,
        Err(fault) => return Err(fault),
    };
    let catalogue = match catalogue_of(alloc, header.order, &bytes) {
        Ok(catalogue) => catalogue,
        Err(fault) => return Err(fault),
    };
    match layout_of(alloc, catalogue, header.width) {
        Ok(layout) => Ok(layout),
        Err(fault) => Err(fault),
    }
}
