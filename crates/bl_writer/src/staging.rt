// An output, pushed piece by piece.
ghost use Rattle.std.specs.Prelude.{◌≡◌, ◌≤◌, ◌<◌, ◌+◌, ◌^◌, codes, length, flat_map, Some, option_map, OnOk, OnErr};
ghost use Rattle.bl_format.specs.Words.{numbers_below};
ghost use Rattle.bl_format.specs.Blocks.{head_size};
ghost use Rattle.bl_format.specs.Schema.{catalogue_written};
ghost use Rattle.bl_selection.specs.Written.{block_written};
ghost use Rattle.bl_shelf.specs.Calls.{Counts};
ghost use Rattle.bl_shelf.specs.Told.{push_in};
ghost use Rattle.bl_file.specs.Calls.{IsOpen, Tells};
ghost use Rattle.bl_file.specs.Frames.{CountsReads};
ghost use Rattle.bl_writer.specs.Calls.{Pushes, PushesFrom};
ghost use Rattle.bl_writer.specs.Lengths.{IsReady, OutputFits, OutputScratchFits, blocks_length, form_length, node_scratch};
ghost use Rattle.bl_writer.specs.Outputs.{ArePayloadsShort, IsOutput, block_bytes, block_length, output_form, payload_length, target_of};
ghost use Rattle.bl_writer.specs.Rendering.{end_written, AddsOf, CanAdd, HasAdded, pending};

use crate::blocks::write_block;
use crate::buffer::{OutBuffer, add_bytes, make_room, push_last};
use crate::nodes::block_length;
use crate::output::Output;
use bl_blocks::{LONGEST_HEAD, head_size, write_end, write_head};
use bl_file::{Head, Header, Payload, Targets};
use bl_header::write_header;
use bl_shelf::{Shelf, ShelfFault};

// Adds the block of node k.
fn add_block<S: Shelf, P: Payload, T: Targets>(
    output: &Output,
    targets: &T,
    payload: &mut P,
    k: u32,
    scratch: &mut [u8],
    shelf: &mut S,
    buffer: &mut OutBuffer,
) -> Result<(), ShelfFault>
    requires output { IsOutput output.now (P.file_size payload.old) }
    requires targets { T.count targets.now ≡ length output.now.nodes.now }
    requires held { IsOpen S.Shelf P.Payload shelf.old payload.old }
    requires k { k < length output.now.nodes.now }
    requires short { payload_length output.now k < 2 ^ 31 }
    requires scratch { node_scratch output.now k ≤ length scratch.old }
    requires can { CanAdd S.Shelf shelf.old buffer.old (block_length output.now k)
        (block_length output.now k) }
    ensures scratch { length scratch.new ≡ length scratch.old }
    ensures adds { OnOk result (Tells S.Shelf P.Payload shelf.old payload.old (λ b.
        AddsOf (S.told shelf.old) (pending buffer.old)
        (block_bytes (T.names targets.now k) output.now b k) (block_length output.now k)
        (S.told shelf.new) (pending buffer.new))) }
    ensures added { OnOk result (HasAdded S.Shelf shelf.old shelf.new buffer.old buffer.new
        (block_length output.now k)) }
    ensures stays { PushesFrom S.Shelf P.Payload shelf.old shelf.new payload.old payload.new }
    ensures cause { CountsReads S.Shelf shelf.old shelf.new result }
{
    let len = block_length(output, k) as usize;
    let at = make_room(buffer, shelf, len)?;
    let (_, rest) = buffer.bytes.as_mut_slice().split_at_mut(at);
    let (own, _) = rest.split_at_mut(len);
    write_block(output, targets, payload, shelf, k, scratch, own)?;
    buffer.filled = at + len;
    Ok(())
}

// Adds the blocks of all nodes, in order.
fn add_blocks<S: Shelf, P: Payload, T: Targets>(
    output: &Output,
    targets: &T,
    payload: &mut P,
    scratch: &mut [u8],
    shelf: &mut S,
    buffer: &mut OutBuffer,
) -> Result<(), ShelfFault>
    requires output { IsOutput output.now (P.file_size payload.old) }
    requires targets { T.count targets.now ≡ length output.now.nodes.now }
    requires held { IsOpen S.Shelf P.Payload shelf.old payload.old }
    requires short { ArePayloadsShort output.now }
    requires scratch { OutputScratchFits output.now (length scratch.old) }
    requires long { OutputFits output.now (length buffer.old.bytes.items) }
    requires can { CanAdd S.Shelf shelf.old buffer.old 0
        (blocks_length output.now (length output.now.nodes.now)) }
    ensures adds { OnOk result (Tells S.Shelf P.Payload shelf.old payload.old (λ b.
        AddsOf (S.told shelf.old) (pending buffer.old)
        (flat_map (λ k. block_bytes (T.names targets.now k) output.now b k)
        (numbers_below (length output.now.nodes.now)))
        (blocks_length output.now (length output.now.nodes.now))
        (S.told shelf.new) (pending buffer.new))) }
    ensures added { OnOk result (HasAdded S.Shelf shelf.old shelf.new buffer.old buffer.new
        (blocks_length output.now (length output.now.nodes.now))) }
    ensures stays { PushesFrom S.Shelf P.Payload shelf.old shelf.new payload.old payload.new }
    ensures cause { CountsReads S.Shelf shelf.old shelf.new result }
{
    for k in 0..output.nodes.len() as u32 {
        add_block(output, targets, payload, k, scratch, shelf, buffer)?;
    }
    Ok(())
}

// Adds the block of a catalogue that is written.
fn add_catalogue<S: Shelf>(
    header: &Header,
    written: &[u8],
    shelf: &mut S,
    buffer: &mut OutBuffer,
) -> Result<(), ShelfFault>
    requires short { length written.now < 2 ^ 31 }
    requires can { CanAdd S.Shelf shelf.old buffer.old (LONGEST_HEAD + length written.now)
        (head_size header.now + length written.now) }
    ensures adds { OnOk result (AddsOf (S.told shelf.old) (pending buffer.old)
        (block_written header.now (codes "DNA1") 0 0 1 written.now)
        (head_size header.now + length written.now) (S.told shelf.new) (pending buffer.new)) }
    ensures added { OnOk result (HasAdded S.Shelf shelf.old shelf.new buffer.old buffer.new
        (head_size header.now + length written.now)) }
    ensures pushes { Pushes S.Shelf shelf.old shelf.new }
    ensures cause { Counts S.Shelf shelf.old shelf.new result }
    ensures fault { OnErr result (result ≡ Err ShelfFault.Failed) }
{
    let head = Head {
        code: *b"DNA1",
        len: written.len() as u64,
        address: 0,
        index: 0,
        count: 1,
        at: 0,
    };
    let mut spelled = [0; LONGEST_HEAD];
    let own = &mut spelled[..head_size(header)];
    write_head(header, &head, own);
    add_bytes(own, shelf, buffer)?;
    add_bytes(written, shelf, buffer)
}

// Adds the end of a file, as long as a head.
fn add_end<S: Shelf>(
    header: &Header,
    shelf: &mut S,
    buffer: &mut OutBuffer,
) -> Result<(), ShelfFault>
    requires can { CanAdd S.Shelf shelf.old buffer.old LONGEST_HEAD (head_size header.now) }
    ensures adds { OnOk result (AddsOf (S.told shelf.old) (pending buffer.old)
        (end_written header.now) (head_size header.now) (S.told shelf.new) (pending buffer.new)) }
    ensures added { OnOk result (HasAdded S.Shelf shelf.old shelf.new buffer.old buffer.new
        (head_size header.now)) }
    ensures pushes { Pushes S.Shelf shelf.old shelf.new }
    ensures cause { Counts S.Shelf shelf.old shelf.new result }
    ensures fault { OnErr result (result ≡ Err ShelfFault.Failed) }
{
    let mut spelled = [0; LONGEST_HEAD];
    let own = &mut spelled[..head_size(header)];
    write_end(own);
    add_bytes(own, shelf, buffer)
}

/// Adds all of an output to the staged file: the header, the blocks of all nodes, that of the
/// catalogue, and the end.
pub fn write_all<S: Shelf, P: Payload, T: Targets>(
    output: &Output,
    targets: &T,
    payload: &mut P,
    catalogue: &[u8],
    scratch: &mut [u8],
    shelf: &mut S,
    buffer: &mut OutBuffer,
) -> Result<(), ShelfFault>
    requires output { IsOutput output.now (P.file_size payload.old) }
    requires targets { T.count targets.now ≡ length output.now.nodes.now }
    requires held { IsOpen S.Shelf P.Payload shelf.old payload.old }
    requires catalogue { catalogue.now
        ≡ catalogue_written output.now.header.order (target_of output.now) }
    requires short { ArePayloadsShort output.now }
    requires scratch { OutputScratchFits output.now (length scratch.old) }
    requires ready { IsReady output.now (LONGEST_HEAD + length catalogue.now) buffer.old }
    requires room { S.room shelf.old ≡ Some (form_length output.now.header
        (blocks_length output.now (length output.now.nodes.now)) (length catalogue.now)) }
    ensures pushed { OnOk result (Tells S.Shelf P.Payload shelf.old payload.old (λ b.
        S.told shelf.new
        ≡ option_map (push_in (output_form (T.names targets.now) output.now b)) (S.told shelf.old))) }
    ensures length { OnOk result (Tells S.Shelf P.Payload shelf.old payload.old (λ b.
        length (output_form (T.names targets.now) output.now b) ≡ form_length output.now.header
        (blocks_length output.now (length output.now.nodes.now)) (length catalogue.now))) }
    ensures room { OnOk result (S.room shelf.new ≡ Some 0) }
    ensures stays { PushesFrom S.Shelf P.Payload shelf.old shelf.new payload.old payload.new }
    ensures cause { CountsReads S.Shelf shelf.old shelf.new result }
{
    let header = &output.header;
    add_bytes(&write_header(header), shelf, buffer)?;
    add_blocks(output, targets, payload, scratch, shelf, buffer)?;
    add_catalogue(header, catalogue, shelf, buffer)?;
    add_end(header, shelf, buffer)?;
    push_last(buffer, shelf)
}
