// The payload of a node, as it is written.
ghost use Rattle.std.specs.Prelude.{◌≡◌, ◌≢◌, ◌<◌, ◌≤◌, ◌+◌, ◌*◌, ◌^◌, [], length, OnOk};
ghost use Rattle.bl_format.specs.declared.raw.RawKind.TheVariants.{Pair};
ghost use Rattle.bl_format.specs.Limits.{most_input_bytes};
ghost use Rattle.bl_format.specs.Nodes.{pair_length};
ghost use Rattle.bl_format.specs.Graph.{form_of, raw_length};
ghost use Rattle.bl_selection.specs.Carried.{carried_contents, carried_elements, carried_length};
ghost use Rattle.bl_file.specs.Calls.{IsOpen, Stays, Tells};
ghost use Rattle.bl_file.specs.Frames.{CountsReads};
ghost use Rattle.bl_writer.specs.Lengths.{scratch_of, raw_scratch, piece_size};
ghost use Rattle.bl_writer.specs.Outputs.{IsOutput, source_of, target_of, form_out};
ghost use Rattle.bl_writer.specs.Payloads.{AreElementsOf, IsOutputNode, payload_place, payload_bytes};

use crate::elements::{Elements, stay_whole, write_elements};
use crate::nodes::{Node, is_read_first, number_in, payload_place};
use crate::output::Output;
use bl_file::{Head, Header, Payload};
use bl_num::Form;
use bl_ptrarrays::{Images, carry_raw};
use bl_shelf::{Shelf, ShelfFault};

// The elements of a struct node.
fn elements_of<'a>(output: &Output<'a>, node: Node) -> Elements<'a>
    requires output { IsOutput output.now most_input_bytes }
    requires node { IsOutputNode output.now most_input_bytes node }
    requires some { node.head.index ≢ 0 }
    ensures { AreElementsOf output.now node.head result }
{
    let head = node.head;
    let structs = output.structs;
    Elements {
        plan: &structs.plans[head.index as usize],
        from: output.from.order,
        to: output.header.order,
        len: output.source.length(head.index) as usize,
        to_len: structs.layout.length(number_in(output, head.index)) as usize,
        at: payload_place(output, head),
        count: head.count as usize,
    }
}

// Writes all elements of a struct node. Those that stay as they are are read where they are written.
fn write_struct<I: Images, S: Shelf, P: Payload>(
    output: &Output,
    node: Node,
    images: &I,
    payload: &mut P,
    shelf: &mut S,
    scratch: &mut [u8],
    dst: &mut [u8],
) -> Result<(), ShelfFault>
    requires output { IsOutput output.now (P.file_size payload.old) }
    requires node { IsOutputNode output.now (P.file_size payload.old) node }
    requires some { node.head.index ≢ 0 }
    requires held { IsOpen S.Shelf P.Payload shelf.old payload.old }
    requires scratch { piece_size ≤ length scratch.old }
    requires dst { length dst.old ≡ node.head.count * (form_out output.now node.head.index).size }
    ensures written { OnOk result (Tells S.Shelf P.Payload shelf.old payload.old
        (λ b. dst.new ≡ carried_elements (I.names images.now) (source_of output.now b)
        output.now.header (target_of output.now) node.head)) }
    ensures length { length dst.new ≡ length dst.old }
    ensures scratch { length scratch.new ≡ length scratch.old }
    ensures stays { Stays S.Shelf P.Payload shelf.old shelf.new payload.old payload.new }
    ensures cause { CountsReads S.Shelf shelf.old shelf.new result }
    ensures no_memory { result ≢ Err ShelfFault.NoMemory }
{
    let elements = elements_of(output, node);
    // A head may claim almost 2^31 elements of no bytes, which would be as many turns for nothing.
    if elements.to_len == 0 {
        return Ok(());
    }
    if stay_whole(&elements) {
        return payload.copy_out(shelf, elements.at, dst);
    }
    write_elements(&elements, images, payload, shelf, scratch, dst)
}

// How a file with a header writes pointers and numbers.
fn form_of(header: &Header) -> Form
    ensures { result ≡ form_of header.now }
{
    Form {
        width: header.width,
        order: header.order,
    }
}

// Writes the payload of a raw node, which is read into `scratch`, in the form of the output.
fn write_carried<I: Images, S: Shelf, P: Payload>(
    output: &Output,
    node: Node,
    images: &I,
    payload: &mut P,
    shelf: &mut S,
    scratch: &mut [u8],
    dst: &mut [u8],
) -> Result<(), ShelfFault>
    requires inside { payload_place output.now.from node.head + node.head.len
        ≤ P.file_size payload.old }
    requires small { P.file_size payload.old < 2 ^ 63 }
    requires pair { node.kind ≡ Pair → pair_length ≤ node.head.len }
    requires held { IsOpen S.Shelf P.Payload shelf.old payload.old }
    requires scratch { length scratch.old ≡ node.head.len }
    requires dst { length dst.old
        ≡ raw_length node.kind node.head.len output.now.from.width output.now.header.width }
    ensures written { OnOk result (Tells S.Shelf P.Payload shelf.old payload.old
        (λ b. dst.new ≡ carried_contents (I.names images.now) (source_of output.now b)
        output.now.header node.kind node.head)) }
    ensures length { length dst.new ≡ length dst.old }
    ensures scratch { length scratch.new ≡ length scratch.old }
    ensures stays { Stays S.Shelf P.Payload shelf.old shelf.new payload.old payload.new }
    ensures cause { CountsReads S.Shelf shelf.old shelf.new result }
    ensures no_memory { result ≢ Err ShelfFault.NoMemory }
{
    let at = payload_place(output, node.head);
    payload.copy_out(shelf, at, scratch)?;
    let (from, to) = (form_of(&output.from), form_of(&output.header));
    carry_raw(node.kind, scratch, from, to, images, dst);
    Ok(())
}

// Writes the payload of a raw node. What stays as it is is read where it is written.
fn write_raw<I: Images, S: Shelf, P: Payload>(
    output: &Output,
    node: Node,
    images: &I,
    payload: &mut P,
    shelf: &mut S,
    scratch: &mut [u8],
    dst: &mut [u8],
) -> Result<(), ShelfFault>
    requires node { IsOutputNode output.now (P.file_size payload.old) node }
    requires small { P.file_size payload.old < 2 ^ 63 }
    requires held { IsOpen S.Shelf P.Payload shelf.old payload.old }
    requires scratch { raw_scratch output.now node.kind node.head.len ≤ length scratch.old }
    requires dst { length dst.old
        ≡ raw_length node.kind node.head.len output.now.from.width output.now.header.width }
    ensures written { OnOk result (Tells S.Shelf P.Payload shelf.old payload.old
        (λ b. dst.new ≡ carried_contents (I.names images.now) (source_of output.now b)
        output.now.header node.kind node.head)) }
    ensures length { length dst.new ≡ length dst.old }
    ensures scratch { length scratch.new ≡ length scratch.old }
    ensures stays { Stays S.Shelf P.Payload shelf.old shelf.new payload.old payload.new }
    ensures cause { CountsReads S.Shelf shelf.old shelf.new result }
    ensures no_memory { result ≢ Err ShelfFault.NoMemory }
{
    if is_read_first(output, node.kind) {
        let (own, _) = scratch.split_at_mut(node.head.len as usize);
        return write_carried(output, node, images, payload, shelf, own, dst);
    }
    payload.copy_out(shelf, payload_place(output, node.head), dst)
}

/// Writes the payload of a node.
pub(crate) fn write_payload<I: Images, S: Shelf, P: Payload>(
    output: &Output,
    node: Node,
    images: &I,
    payload: &mut P,
    shelf: &mut S,
    scratch: &mut [u8],
    dst: &mut [u8],
) -> Result<(), ShelfFault>
    requires output { IsOutput output.now (P.file_size payload.old) }
    requires node { IsOutputNode output.now (P.file_size payload.old) node }
    requires held { IsOpen S.Shelf P.Payload shelf.old payload.old }
    requires scratch { scratch_of output.now node.kind node.head ≤ length scratch.old }
    requires dst { length dst.old
        ≡ carried_length (source_of output.now []) output.now.header (target_of output.now) node.kind node.head }
    ensures written { OnOk result (Tells S.Shelf P.Payload shelf.old payload.old
        (λ b. dst.new ≡ payload_bytes (I.names images.now) output.now b node)) }
    ensures length { length dst.new ≡ length dst.old }
    ensures scratch { length scratch.new ≡ length scratch.old }
    ensures stays { Stays S.Shelf P.Payload shelf.old shelf.new payload.old payload.new }
    ensures cause { CountsReads S.Shelf shelf.old shelf.new result }
    ensures no_memory { result ≢ Err ShelfFault.NoMemory }
{
    if node.head.index == 0 {
        return write_raw(output, node, images, payload, shelf, scratch, dst);
    }
    write_struct(output, node, images, payload, shelf, scratch, dst)
}
