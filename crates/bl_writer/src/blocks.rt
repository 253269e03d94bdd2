// The block of a node.
ghost use Rattle.std.specs.Prelude.{◌≡◌, ◌≢◌, ◌<◌, ◌≤◌, ◌^◌, [], length, OnOk};
ghost use Rattle.bl_format.specs.Limits.{most_input_bytes, most_output_nodes};
ghost use Rattle.bl_format.specs.Blocks.{head_size, head_written};
ghost use Rattle.bl_selection.specs.Carried.{carried_head};
ghost use Rattle.bl_file.specs.Calls.{IsOpen, Stays, Tells};
ghost use Rattle.bl_file.specs.Frames.{CountsReads};
ghost use Rattle.bl_file.specs.Outlines.{IsNodeIn};
ghost use Rattle.bl_writer.specs.Lengths.{node_scratch};
ghost use Rattle.bl_writer.specs.Outputs.{IsOutput, block_bytes, block_length, payload_length, source_of, target_of};

use crate::node_images::{NodeImages, node_address};
use crate::nodes::{node_at, number_in};
use crate::output::Output;
use crate::payloads::write_payload;
use bl_blocks::{head_size, write_head};
use bl_file::{Head, Payload, Targets};
use bl_shelf::{Shelf, ShelfFault};

// Writes the head of node `k`, with its address and its struct in the output and the length of its
// payload there.
fn write_node_head(output: &Output, k: u32, head: Head, len: u64, dst: &mut [u8])
    requires output { IsOutput output.now most_input_bytes }
    requires node { IsNodeIn output.now.from output.now.source.now.catalogue most_input_bytes head }
    requires room { length dst.old ≡ head_size output.now.header }
    requires len { len < 2 ^ 31 }
    requires few { k < most_output_nodes }
    ensures written { dst.new ≡ head_written output.now.header
        (carried_head (source_of output.now []) (target_of output.now) k head len) }
    ensures length { length dst.new ≡ length dst.old }
{
    let code = head.code;
    let own = Head {
        code,
        len,
        address: node_address(k),
        index: number_in(output, head.index),
        count: head.count,
        at: 0,
    };
    write_head(&output.header, &own, dst);
}

/// Writes node `k` of an output as a block: its head with its new address, and its payload, carried
/// over, in which each pointer has the address that its target has in the output.
pub(crate) fn write_block<S: Shelf, P: Payload, T: Targets>(
    output: &Output,
    targets: &T,
    payload: &mut P,
    shelf: &mut S,
    k: u32,
    scratch: &mut [u8],
    dst: &mut [u8],
) -> Result<(), ShelfFault>
    requires output { IsOutput output.now (P.file_size payload.old) }
    requires targets { T.count targets.now ≡ length output.now.nodes.now }
    requires held { IsOpen S.Shelf P.Payload shelf.old payload.old }
    requires k { k < length output.now.nodes.now }
    requires short { payload_length output.now k < 2 ^ 31 }
    requires scratch { node_scratch output.now k ≤ length scratch.old }
    requires dst { length dst.old ≡ block_length output.now k }
    ensures written { OnOk result (Tells S.Shelf P.Payload shelf.old payload.old
        (λ b. dst.new ≡ block_bytes (T.names targets.now k) output.now b k)) }
    ensures length { length dst.new ≡ length dst.old }
    ensures scratch { length scratch.new ≡ length scratch.old }
    ensures stays { Stays S.Shelf P.Payload shelf.old shelf.new payload.old payload.new }
    ensures cause { CountsReads S.Shelf shelf.old shelf.new result }
    ensures no_memory { result ≢ Err ShelfFault.NoMemory }
{
    let node = node_at(output, k);
    let (own, body) = dst.split_at_mut(head_size(&output.header));
    write_node_head(output, k, node.head, body.len() as u64, own);
    let images = NodeImages::new(targets, k);
    write_payload(output, node, &images, payload, shelf, scratch, body)
}
