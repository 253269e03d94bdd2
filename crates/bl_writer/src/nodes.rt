// The nodes of an output, and how long their blocks are.
ghost use Rattle.std.specs.Prelude.{◌≡◌, ◌≢◌, ◌<◌, ◌≤◌, ◌*◌, ◌^◌, length, map};
ghost use Rattle.bl_format.specs.Layout.{struct_numbers};
ghost use Rattle.bl_format.specs.Limits.{most_input_bytes};
ghost use Rattle.bl_file.specs.Outlines.{IsNodeIn};
ghost use Rattle.bl_ptrarrays.specs.Carried.{is_other};
ghost use Rattle.bl_writer.specs.Lengths.{is_read_first, node_scratch};
ghost use Rattle.bl_writer.specs.Outputs.{IsOutput, IsPlanned, block_length, form_out, node_of, number_in, payload_length};
ghost use Rattle.bl_writer.specs.Payloads.{payload_place};

use crate::elements::PIECE_SIZE;
use crate::output::Output;
use bl_blocks::head_size;
use bl_format::{Head, RawKind};
use bl_num::Order;
use bl_ptrarrays::raw_length;

/// A node of an output: its head, as it stands in the source, and its kind as raw data; a struct
/// node counts as bytes.
#[derive(Clone, Copy)]
pub struct Node {
    pub head: Head,
    pub kind: RawKind,
}

/// Node `k`.
pub(crate) fn node_at(output: &Output, k: u32) -> Node
    requires k { k < length output.now.nodes.now }
    requires kinds { length output.now.kinds.now ≡ length output.now.nodes.now }
    ensures { result ≡ node_of output.now k }
{
    Node {
        head: output.nodes[k as usize],
        kind: output.kinds[k as usize],
    }
}

/// The number of a source's struct in the catalogue that is written; 0 stands for raw data.
pub(crate) fn number_in(output: &Output, s: u32) -> u32
    requires numbers { output.now.structs.now.numbers.items
        ≡ map (number_in output.now) (struct_numbers output.now.source.now.catalogue) }
    requires s { s ≢ 0 → s < length output.now.source.now.catalogue.structs }
    ensures { result ≡ number_in output.now s }
{
    if s == 0 {
        return 0;
    }
    output.structs.numbers[s as usize]
}

/// The place of a node's payload in the source.
pub(crate) fn payload_place(output: &Output, head: Head) -> u64
    requires { payload_place output.now.from head < 2 ^ 63 }
    ensures { result ≡ payload_place output.now.from head }
{
    head.at + head_size(&output.from) as u64
}

/// Two orders of bytes aren't the same.
pub(crate) fn is_other(from: Order, to: Order) -> bool
    ensures { result ≡ is_other from to }
{
    match from {
        Order::Little => matches!(to, Order::Big),
        Order::Big => matches!(to, Order::Little),
    }
}

/// Whether a raw payload of a kind is read before it is carried: pointers are, and numbers that turn.
#[tactic(auto, unfolding(crate::specs::Lengths::is_read_first))]
pub(crate) fn is_read_first(output: &Output, kind: RawKind) -> bool
    ensures { result ≡ is_read_first output.now kind }
{
    match kind {
        RawKind::Bytes => false,
        RawKind::Numbers(_) => is_other(output.from.order, output.header.order),
        RawKind::Pointers => true,
        RawKind::Pair => is_other(output.from.order, output.header.order),
    }
}

/// The bytes of a node's payload as it is written, which may be too many.
pub(crate) fn payload_length(output: &Output, k: u32) -> u64
    requires output { IsOutput output.now most_input_bytes }
    requires k { k < length output.now.nodes.now }
    ensures length { result ≡ payload_length output.now k }
    ensures small { result < 2 ^ 63 }
{
    let node = node_at(output, k);
    let head = node.head;
    if head.index == 0 {
        return raw_length(node.kind, head.len, output.from.width, output.header.width);
    }
    struct_payload_length(output, head)
}

// The bytes of a struct node's payload.
fn struct_payload_length(output: &Output, head: Head) -> u64
    requires output { IsOutput output.now most_input_bytes }
    requires node { IsNodeIn output.now.from output.now.source.now.catalogue most_input_bytes head }
    requires some { head.index ≢ 0 }
    requires planned { IsPlanned output.now head }
    ensures length { result ≡ head.count * (form_out output.now head.index).size }
    ensures small { result < 2 ^ 63 }
{
    let number = number_in(output, head.index);
    u64::from(head.count) * u64::from(output.structs.layout.length(number))
}

/// The bytes of a node's block.
pub(crate) fn block_length(output: &Output, k: u32) -> u64
    requires output { IsOutput output.now most_input_bytes }
    requires k { k < length output.now.nodes.now }
    ensures { result ≡ block_length output.now k }
{
    head_size(&output.header) as u64 + payload_length(output, k)
}

/// How much of a node is read before it is written.
pub(crate) fn node_scratch(output: &Output, k: u32) -> u64
    requires k { k < length output.now.nodes.now }
    requires kinds { length output.now.kinds.now ≡ length output.now.nodes.now }
    ensures { result ≡ node_scratch output.now k }
{
    let node = node_at(output, k);
    if node.head.index != 0 {
        return PIECE_SIZE as u64;
    }
    if is_read_first(output, node.kind) {
        node.head.len
    } else {
        0
    }
}
