// What the pointers of nodes say of raw nodes, read from a file.
ghost use Rattle.std.specs.Prelude.{◌≡◌, ◌≤◌, ◌<◌, ◌+◌, ◌^◌, ◌++◌, ◌≢◌, All, None, OnOk, IsErrOf, length};
ghost use Rattle.bl_format.specs.Words.{part};
ghost use Rattle.bl_format.specs.Blocks.{head_size};
ghost use Rattle.bl_format.specs.Layout.{struct_length};
ghost use Rattle.bl_file.specs.Calls.{Stays, Tells, IsOpen};
ghost use Rattle.bl_file.specs.Frames.{CountsReads};
ghost use Rattle.bl_file.specs.Speakers.{IsHeard};
ghost use Rattle.bl_file.specs.SpeakingNodes.{IsSpeakingNode};
ghost use Rattle.bl_file.specs.Views.{IsSight, AreInside, speakers_views, elements_said, node_at_said, nodes_said};

use crate::Payload;
use crate::speakers::Speaker;
use crate::targets::Targets;
use crate::views::{Sight, speakers_views};
use bl_blocks::head_size;
use bl_format::{Head, Header, View};
use bl_shelf::{Shelf, ShelfFault};

/// Adds the views of all nodes. The buffer has room for an element of any struct.
pub fn nodes_said<S: Shelf, P: Payload, T: Targets>(
    sight: &Sight,
    targets: &T,
    payload: &mut P,
    shelf: &mut S,
    buffer: &mut [u8],
    seen: &mut Vec<View>,
) -> Result<(), ShelfFault>
    requires sight { IsSight sight.now (P.file_size payload.old) }
    requires small { P.file_size payload.old < 2 ^ 63 }
    requires few { length sight.now.nodes.now < 2 ^ 32 }
    requires count { T.count targets.now ≡ length sight.now.nodes.now }
    requires buffer { 2 ^ 16 ≤ length buffer.old + 1 }
    requires seen { AreInside sight.now.nodes.now seen.old.items }
    requires held { IsOpen S.Shelf P.Payload shelf.old payload.old }
    ensures said { OnOk result (Tells S.Shelf P.Payload shelf.old payload.old
        (λ b. seen.new.items ≡ seen.old.items ++ nodes_said (T.names targets.now) sight.now b (length sight.now.nodes.now))) }
    ensures inside { OnOk result (AreInside sight.now.nodes.now seen.new.items) }
    ensures stays { Stays S.Shelf P.Payload shelf.old shelf.new payload.old payload.new }
    ensures cause { CountsReads S.Shelf shelf.old shelf.new result }
{
    for number in 0..sight.nodes.len() {
        node_said(sight, targets, number as u32, payload, shelf, buffer, seen)?;
    }
    Ok(())
}

// Adds the views of a node.
fn node_said<S: Shelf, P: Payload, T: Targets>(
    sight: &Sight,
    targets: &T,
    number: u32,
    payload: &mut P,
    shelf: &mut S,
    buffer: &mut [u8],
    seen: &mut Vec<View>,
) -> Result<(), ShelfFault>
    requires sight { IsSight sight.now (P.file_size payload.old) }
    requires small { P.file_size payload.old < 2 ^ 63 }
    requires count { T.count targets.now ≡ length sight.now.nodes.now }
    requires number { number < length sight.now.nodes.now }
    requires buffer { 2 ^ 16 ≤ length buffer.old + 1 }
    requires seen { AreInside sight.now.nodes.now seen.old.items }
    requires held { IsOpen S.Shelf P.Payload shelf.old payload.old }
    ensures said { OnOk result (Tells S.Shelf P.Payload shelf.old payload.old
        (λ b. seen.new.items ≡ seen.old.items ++ node_at_said (T.names targets.now) sight.now b number)) }
    ensures inside { OnOk result (AreInside sight.now.nodes.now seen.new.items) }
    ensures len { length buffer.new ≡ length buffer.old }
    ensures stays { Stays S.Shelf P.Payload shelf.old shelf.new payload.old payload.new }
    ensures cause { CountsReads S.Shelf shelf.old shelf.new result }
{
    if targets.is_silent(number) {
        return Ok(());
    }
    let head = &sight.nodes[number as usize];
    if head.index == 0 {
        return Ok(());
    }
    let speakers = sight.speakers[head.index as usize].as_slice();
    if speakers.is_empty() {
        return Ok(());
    }
    let (bytes, _) = buffer.split_at_mut(sight.layout.length(head.index) as usize);
    let node = SpeakingNode {
        sight,
        number,
        head,
        speakers,
    };
    elements_said(&node, targets, payload, shelf, bytes, seen)
}

// Where a node's payload begins.
fn payload_place(header: &Header, node: &Head) -> u64
    requires { node.now.at + head_size header.now < 2 ^ 63 }
    ensures { result ≡ node.now.at + head_size header.now }
{
    node.at + head_size(header) as u64
}

// A struct node that says anything: its number, its head, and the leaves of its struct that do.
#[derive(Drop)]
pub struct SpeakingNode<'a> {
    pub sight: &'a Sight<'a>,
    pub number: u32,
    pub head: &'a Head,
    pub speakers: &'a [Speaker],
}

// Adds the views of all elements of a struct node.
fn elements_said<S: Shelf, P: Payload, T: Targets>(
    node: &SpeakingNode,
    targets: &T,
    payload: &mut P,
    shelf: &mut S,
    bytes: &mut [u8],
    seen: &mut Vec<View>,
) -> Result<(), ShelfFault>
    requires node { IsSpeakingNode node.now (P.file_size payload.old) }
    requires small { P.file_size payload.old < 2 ^ 63 }
    requires number { node.now.number < T.count targets.now }
    requires bytes { length bytes.old ≡ struct_length node.now.sight.now.layout.now.catalogue node.now.head.now.index }
    requires seen { AreInside node.now.sight.now.nodes.now seen.old.items }
    requires held { IsOpen S.Shelf P.Payload shelf.old payload.old }
    ensures said { OnOk result (Tells S.Shelf P.Payload shelf.old payload.old
        (λ b. seen.new.items ≡ seen.old.items ++ elements_said node.now.speakers.now
        node.now.sight.now.nodes.now (T.names targets.now node.now.number) node.now.sight.now.header.now
        node.now.sight.now.layout.now.catalogue node.now.head.now b node.now.head.now.count)) }
    ensures inside { OnOk result (AreInside node.now.sight.now.nodes.now seen.new.items) }
    ensures len { length bytes.new ≡ length bytes.old }
    ensures stays { Stays S.Shelf P.Payload shelf.old shelf.new payload.old payload.new }
    ensures cause { CountsReads S.Shelf shelf.old shelf.new result }
{
    let at = payload_place(node.sight.header, node.head);
    for element in 0..node.head.count {
        let from = at + u64::from(element) * bytes.len() as u64;
        element_said(node, targets, payload, shelf, from, bytes, seen)?;
    }
    Ok(())
}

// Adds the views of an element of a node's struct, which stands at this place.
fn element_said<S: Shelf, P: Payload, T: Targets>(
    node: &SpeakingNode,
    targets: &T,
    payload: &mut P,
    shelf: &mut S,
    at: u64,
    bytes: &mut [u8],
    seen: &mut Vec<View>,
) -> Result<(), ShelfFault>
    requires number { node.now.number < T.count targets.now }
    requires inside { at + length bytes.old ≤ P.file_size payload.old }
    requires heard { All (IsHeard (length bytes.old)) node.now.speakers.now }
    requires seen { AreInside node.now.sight.now.nodes.now seen.old.items }
    requires held { IsOpen S.Shelf P.Payload shelf.old payload.old }
    ensures said { OnOk result (Tells S.Shelf P.Payload shelf.old payload.old
        (λ b. seen.new.items ≡ seen.old.items ++ speakers_views
        node.now.sight.now.nodes.now (T.names targets.now node.now.number) node.now.sight.now.header.now.order
        (part b at (length bytes.old)) node.now.speakers.now)) }
    ensures inside { OnOk result (AreInside node.now.sight.now.nodes.now seen.new.items) }
    ensures len { length bytes.new ≡ length bytes.old }
    ensures stays { Stays S.Shelf P.Payload shelf.old shelf.new payload.old payload.new }
    ensures cause { CountsReads S.Shelf shelf.old shelf.new result }
{
    match payload.copy_out(shelf, at, bytes) {
        Ok(()) => match speakers_views(
            node.sight,
            targets,
            node.number,
            node.speakers,
            bytes,
            seen,
        ) {
            Ok(()) => Ok(()),
            Err(_) => Err(ShelfFault::NoMemory),
        },
        Err(fault) => Err(fault),
    }
}
