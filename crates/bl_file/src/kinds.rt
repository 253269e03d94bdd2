// The kinds of nodes.
ghost use Rattle.std.specs.Prelude.{◌≡◌, ◌≤◌, ◌<◌, ◌^◌, All, None, IfOk, IfErr, IsErrOf, length};
ghost use Rattle.bl_format.specs.Limits.{most_blocks};
ghost use Rattle.bl_format.specs.Nodes.{is_pair_code};
ghost use Rattle.bl_file.specs.Calls.{Stays, Tells, IsOpen};
ghost use Rattle.bl_file.specs.Frames.{CountsReads};
ghost use Rattle.bl_file.specs.Heard.{views_heard};
ghost use Rattle.bl_file.specs.Opening.{kinds_in};
ghost use Rattle.bl_file.specs.Outlines.{IsNodeIn, ArePairsLong, file_with, marks_of};
ghost use Rattle.bl_file.specs.Seen.{kinds_seen, table_names};
ghost use Rattle.bl_file.specs.Views.{AreInside, IsSight, viewed_or_bytes, kind_by, kinds_by};

use crate::Payload;
use crate::basics::basic_lengths;
use crate::node_views::nodes_said;
use crate::speakers::struct_speakers;
use crate::targets::{GroupTargets, Targets};
use crate::views::Sight;
use bl_addresses::Table;
use bl_format::{Head, Header, RawKind, View};
use bl_layout::Layout;
use bl_ptrarrays::views;
use bl_shelf::{Shelf, ShelfFault};
use std::alloc::Global;

// The bytes of the longest type, which an element of any struct fits in.
const LONGEST_TYPE: usize = 65_535;

/// The kind of each node as raw data, by what addresses name from each, where it is given which
/// leaves of each struct say anything; a struct node counts as bytes. One element of a node is in
/// memory at a time, and the views of raw nodes.
pub fn kinds_heard<S: Shelf, P: Payload, T: Targets>(
    alloc: Global,
    payload: &mut P,
    shelf: &mut S,
    sight: &Sight,
    targets: &T,
) -> Result<Vec<RawKind>, ShelfFault>
    requires sight { IsSight sight.now (P.file_size payload.old) }
    requires small { P.file_size payload.old < 2 ^ 63 }
    requires few { length sight.now.nodes.now < 2 ^ 32 }
    requires count { T.count targets.now ≡ length sight.now.nodes.now }
    requires held { IsOpen S.Shelf P.Payload shelf.old payload.old }
    ensures len { IfOk result (λ kinds. length kinds.items ≡ length sight.now.nodes.now) }
    ensures kinds { IfOk result (λ kinds.
        Tells S.Shelf P.Payload shelf.old payload.old (λ b. kinds.items
        ≡ kinds_seen sight.now.nodes.now
        (views_heard sight.now.speakers.now (T.names targets.now) sight.now.header.now
        sight.now.layout.now.catalogue sight.now.nodes.now b))) }
    ensures pairs { IfOk result (λ kinds. ArePairsLong sight.now.nodes.now kinds.items) }
    ensures stays { Stays S.Shelf P.Payload shelf.old shelf.new payload.old payload.new }
    ensures cause { CountsReads S.Shelf shelf.old shelf.new result }
{
    let mut buffer = vec![in alloc; 0; LONGEST_TYPE]?;
    let mut seen = Vec::new(alloc);
    match nodes_said(
        sight,
        targets,
        payload,
        shelf,
        buffer.as_mut_slice(),
        &mut seen,
    ) {
        Ok(()) => kinds_by(alloc, sight.nodes, &seen),
        Err(fault) => Err(fault),
    }
}

/// The same by what addresses name in the nodes' own file, by the table of these. They are looked up
/// in groups that have a raw node alone.
pub fn kinds_in_groups<S: Shelf, P: Payload>(
    alloc: Global,
    payload: &mut P,
    shelf: &mut S,
    sight: &Sight,
    table: &Table,
) -> Result<Vec<RawKind>, ShelfFault>
    requires sight { IsSight sight.now (P.file_size payload.old) }
    requires small { P.file_size payload.old < 2 ^ 63 }
    requires few { length sight.now.nodes.now ≤ most_blocks }
    requires table { table.now
        ≡ marks_of sight.now.header.now sight.now.layout.now.catalogue sight.now.nodes.now }
    requires held { IsOpen S.Shelf P.Payload shelf.old payload.old }
    ensures len { IfOk result (λ kinds. length kinds.items ≡ length sight.now.nodes.now) }
    ensures kinds { IfOk result (λ kinds.
        Tells S.Shelf P.Payload shelf.old payload.old (λ b. kinds.items
        ≡ kinds_seen sight.now.nodes.now
        (views_heard sight.now.speakers.now (table_names table.now) sight.now.header.now
        sight.now.layout.now.catalogue sight.now.nodes.now b))) }
    ensures pairs { IfOk result (λ kinds. ArePairsLong sight.now.nodes.now kinds.items) }
    ensures stays { Stays S.Shelf P.Payload shelf.old shelf.new payload.old payload.new }
    ensures cause { CountsReads S.Shelf shelf.old shelf.new result }
{
    let targets = GroupTargets::new(alloc, table, sight.nodes)?;
    kinds_heard(alloc, payload, shelf, sight, &targets)
}

/// The kind of each node as raw data, by what pointers say in their file; a struct node counts as
/// bytes.
pub fn kinds_of<S: Shelf, P: Payload>(
    alloc: Global,
    payload: &mut P,
    shelf: &mut S,
    header: &Header,
    layout: &Layout,
    nodes: &[Head],
    table: &Table,
) -> Result<Vec<RawKind>, ShelfFault>
    requires width { layout.now.width ≡ header.now.width }
    requires nodes { All (IsNodeIn header.now layout.now.catalogue (P.file_size payload.old)) nodes.now }
    requires small { P.file_size payload.old < 2 ^ 63 }
    requires few { length nodes.now ≤ most_blocks }
    requires table { table.now ≡ marks_of header.now layout.now.catalogue nodes.now }
    requires held { IsOpen S.Shelf P.Payload shelf.old payload.old }
    ensures len { IfOk result (λ kinds. length kinds.items ≡ length nodes.now) }
    ensures kinds { IfOk result (λ kinds.
        Tells S.Shelf P.Payload shelf.old payload.old (λ b. kinds.items
        ≡ kinds_in (file_with header.now layout.now.catalogue nodes.now b))) }
    ensures pairs { IfOk result (λ kinds. ArePairsLong nodes.now kinds.items) }
    ensures stays { Stays S.Shelf P.Payload shelf.old shelf.new payload.old payload.new }
    ensures cause { CountsReads S.Shelf shelf.old shelf.new result }
{
    let basics = basic_lengths(alloc, layout.catalogue())?;
    let speakers = struct_speakers(alloc, layout, &basics)?;
    let sight = Sight {
        header,
        layout,
        nodes,
        speakers: &speakers,
    };
    kinds_in_groups(alloc, payload, shelf, &sight, table)
}

// The kinds of nodes by the views of the raw ones.
fn kinds_by(alloc: Global, nodes: &[Head], seen: &[View]) -> Result<Vec<RawKind>, ShelfFault>
    requires few { length nodes.now < 2 ^ 32 }
    requires seen { AreInside nodes.now seen.now }
    ensures kinds { IfOk result (λ kinds. kinds.items ≡ kinds_by nodes.now seen.now) }
    ensures len { IfOk result (λ kinds. length kinds.items ≡ length nodes.now) }
    ensures pairs { IfOk result (λ kinds. ArePairsLong nodes.now kinds.items) }
    ensures fault { IfErr result (λ fault. fault ≡ ShelfFault.NoMemory) }
{
    let viewed = match views(alloc, nodes.len() as u32, seen) {
        Ok(kinds) => kinds,
        Err(_) => return Err(ShelfFault::NoMemory),
    };
    let viewed = viewed.as_slice();
    let mut kinds = Vec::with_capacity(alloc, nodes.len())?;
    for (k, node) in nodes.iter().enumerate() {
        kinds.push(kind_by(node, viewed[k]))?;
    }
    Ok(kinds)
}

// The kind of a node, by the kind that its views give.
fn kind_by(node: &Head, viewed: RawKind) -> RawKind
    ensures { result ≡ kind_by node.now viewed }
{
    if node.index != 0 {
        RawKind::Bytes
    } else if !is_pair_code(node.code) {
        viewed_or_bytes(viewed)
    } else if node.len >= 8 {
        RawKind::Pair
    } else {
        RawKind::Bytes
    }
}

// The kind that views give, and bytes in place of a pair, which no view gives.
fn viewed_or_bytes(viewed: RawKind) -> RawKind
    ensures { result ≡ viewed_or_bytes viewed }
{
    match viewed {
        RawKind::Bytes => RawKind::Bytes,
        RawKind::Numbers(n) => RawKind::Numbers(n),
        RawKind::Pointers => RawKind::Pointers,
        RawKind::Pair => RawKind::Bytes,
    }
}

fn is_pair_code(code: [u8; 4]) -> bool
    ensures { result ≡ is_pair_code code }
{
    code == *b"REND" || code == *b"TEST"
}
