// Opens a file: reads its header, its blocks, its catalogue and its nodes.
ghost use Rattle.std.specs.Prelude.{◌≡◌, ◌≤◌, ◌+◌, None, Ok, IfOk, IfErr, OnOk, IfSome};
ghost use Rattle.bl_format.specs.Limits.{most_input_bytes, first_version, last_version};
ghost use Rattle.bl_format.specs.Blocks.{header_of, header_size};
ghost use Rattle.bl_format.specs.Nodes.{nodes_in};
ghost use Rattle.bl_shelf.specs.Calls.{Keeps};
ghost use Rattle.bl_shelf.specs.Told.{bytes_under};
ghost use Rattle.bl_file.specs.Calls.{Stays, Tells, IsOpen, FailsFor, Blames};
ghost use Rattle.bl_file.specs.Held.{IsHeldAnd};
ghost use Rattle.bl_file.specs.Opening.{format_fault, open_fault};
ghost use Rattle.bl_file.specs.Outlines.{IsSound, StandsFor, IsFirst};
ghost use Rattle.bl_file.specs.Steps.{NoFaultIn, IsFormatFault, IsFileOf, IsSoundFrame};

use crate::fault::{OpenFault, shelf_fault};
use crate::kinds::kinds_of;
use crate::layout::{is_catalogue, read_layout};
use crate::nodes::{first_node_fault, ids_of, table_of};
use crate::outline::{Opened, Outline};
use crate::payload::Payload;
use crate::reading::{read_blocks, read_header};
use bl_format::{Head, Header};
use bl_layout::Layout;
use bl_num::Items;
use bl_shelf::Shelf;
use std::alloc::Global;

// The most bytes of all files of a run.
const MAX_INPUT_BYTES: u64 = 1 << 30;

// Leaves the blocks that hold no catalogue.
fn keep_nodes(blocks: &mut Vec<Head>)
    ensures { blocks.new.items ≡ nodes_in blocks.old.items }
{
    blocks.retain(|block| !is_catalogue(block));
}

// The outline of a file whose header, layout and nodes are read.
fn outline_of<S: Shelf, P: Payload>(
    alloc: Global,
    payload: &mut P,
    shelf: &mut S,
    header: Header,
    layout: Layout,
    nodes: Vec<Head>,
    size: u64,
) -> Result<Outline, OpenFault>
    requires frame { IsSoundFrame header layout nodes.items size }
    requires size { P.file_size payload.old ≡ size }
    requires held { IsOpen S.Shelf P.Payload shelf.old payload.old }
    requires read { Tells S.Shelf P.Payload shelf.old payload.old
        (IsFileOf header layout.catalogue nodes.items) }
    ensures sound { IfOk result IsSound }
    ensures whole { IfOk result (λ outline. outline.size ≡ size) }
    ensures stands { IfOk result (λ outline. Tells S.Shelf P.Payload shelf.old payload.old
        (λ b. StandsFor b outline)) }
    ensures passes { OnOk result (Tells S.Shelf P.Payload shelf.old payload.old
        (λ b. format_fault b ≡ None)) }
    ensures fault { IfErr result
        (FailsFor S.Shelf P.Payload shelf.old payload.old NoFaultIn) }
    ensures stays { Stays S.Shelf P.Payload shelf.old shelf.new payload.old payload.new }
    ensures cause { Blames S.Shelf shelf.old shelf.new result }
{
    let ids = ids_of(alloc, &layout, &nodes)?;
    let table = table_of(alloc, &nodes, &ids)?;
    match kinds_of(alloc, payload, shelf, &header, &layout, &nodes, &table) {
        Ok(kinds) => Ok(Outline {
            header,
            layout,
            nodes: Items::from_vec(nodes),
            ids: Items::from_vec(ids),
            table,
            kinds: Items::from_vec(kinds),
            size,
        }),
        Err(fault) => Err(shelf_fault(fault)),
    }
}

// The outline of a file whose header is read.
fn read_outline_behind<S: Shelf, P: Payload>(
    alloc: Global,
    payload: &mut P,
    shelf: &mut S,
    header: Header,
    size: u64,
) -> Result<Outline, OpenFault>
    requires version { (first_version ≤ header.version) × (header.version ≤ last_version) }
    requires whole { header_size header ≤ size }
    requires small { size ≤ most_input_bytes }
    requires size { P.file_size payload.old ≡ size }
    requires held { IsOpen S.Shelf P.Payload shelf.old payload.old }
    requires read { Tells S.Shelf P.Payload shelf.old payload.old
        (λ bytes. header_of bytes ≡ Ok header) }
    ensures sound { IfOk result IsSound }
    ensures whole { IfOk result (λ outline. outline.size ≡ size) }
    ensures stands { IfOk result (λ outline. Tells S.Shelf P.Payload shelf.old payload.old
        (λ b. StandsFor b outline)) }
    ensures passes { OnOk result (Tells S.Shelf P.Payload shelf.old payload.old
        (λ b. format_fault b ≡ None)) }
    ensures fault { IfErr result
        (FailsFor S.Shelf P.Payload shelf.old payload.old IsFormatFault) }
    ensures stays { Stays S.Shelf P.Payload shelf.old shelf.new payload.old payload.new }
    ensures cause { Blames S.Shelf shelf.old shelf.new result }
{
    let mut blocks = match read_blocks(alloc, payload, shelf, &header, size) {
        Ok(blocks) => blocks,
        Err(fault) => return Err(fault),
    };
    let layout = match read_layout(alloc, payload, shelf, &header, &blocks) {
        Ok(layout) => layout,
        Err(fault) => return Err(fault),
    };
    keep_nodes(&mut blocks);
    match first_node_fault(&layout, &blocks) {
        Some(fault) => Err(fault),
        None => outline_of(alloc, payload, shelf, header, layout, blocks, size),
    }
}

/// Opens the file under a name. `used` is how many bytes the files opened before have.
pub fn open<S: Shelf, P: Payload>(
    alloc: Global,
    shelf: &mut S,
    name: &str,
    used: u64,
) -> Result<Opened<P>, OpenFault>
    requires { used ≤ most_input_bytes }
    ensures keeps { Keeps S.Shelf shelf.old shelf.new }
    ensures cause { Blames S.Shelf shelf.old shelf.new result }

    // What is opened is sound, and stands for the bytes under the name.
    ensures sound { IfOk result (λ opened. IsSound opened.outline) }
    ensures name { IfOk result (λ opened. P.file_name opened.payload ≡ name.now) }
    ensures size { IfOk result (λ opened. P.file_size opened.payload ≡ opened.outline.size) }
    ensures few { IfOk result (λ opened. used + opened.outline.size ≤ most_input_bytes) }
    ensures stands { IfOk result (λ opened. IsHeldAnd (S.told shelf.old) name.now
        (λ b. P.agrees opened.payload b × StandsFor b opened.outline)) }
    ensures passes { OnOk result (IfSome (S.told shelf.old)
        (λ t. open_fault used (bytes_under name.now t) ≡ None)) }

    // A refusal is the first of the checks, unless memory or a device gave it.
    ensures refuses { IfErr result (λ fault. IfSome (S.told shelf.old)
        (λ t. IsFirst (open_fault used (bytes_under name.now t)) fault)) }
{
    let size = match shelf.size(name) {
        Ok(size) => size,
        Err(fault) => return Err(shelf_fault(fault)),
    };
    let sum = used + size;
    if sum > MAX_INPUT_BYTES {
        return Err(OpenFault::TooLarge(sum));
    }
    let mut payload = match P::start(alloc, shelf, name, size) {
        Ok(payload) => payload,
        Err(fault) => return Err(shelf_fault(fault)),
    };
    let header = match read_header(&mut payload, shelf, size) {
        Ok(header) => header,
        Err(fault) => return Err(fault),
    };
    match read_outline_behind(alloc, &mut payload, shelf, header, size) {
        Ok(outline) => Ok(Opened { outline, payload }),
        Err(fault) => Err(fault),
    }
}
