// What pointers say of raw nodes. Views of struct nodes aren't kept.
ghost use Rattle.std.specs.Prelude.{◌≡◌, ◌<◌, ◌++◌, All, None, OnOk, length};
ghost use Rattle.bl_file.specs.Heard.{views_of_target};
ghost use Rattle.bl_file.specs.Speakers.{IsHeard};
ghost use Rattle.bl_file.specs.Views.{is_raw, raw_target, element_views, speaker_views, speakers_views};

use crate::speakers::{Speaker, speaker_number};
use crate::targets::Targets;
use bl_format::{Head, Header, RawKind, View};
use bl_layout::Layout;
use bl_num::Items;
use std::alloc::AllocError;

/// By what the pointers of a file are read.
#[derive(Drop)]
pub struct Sight<'a> {
    pub header: &'a Header,
    pub layout: &'a Layout,
    pub nodes: &'a [Head],
    /// By the number of a struct, its leaves that say anything.
    pub speakers: &'a [Items<Speaker>],
}

/// The views of some leaves of a node, in the bytes of an element of their struct.
pub fn speakers_views<T: Targets>(
    sight: &Sight,
    targets: &T,
    number: u32,
    speakers: &[Speaker],
    bytes: &[u8],
    seen: &mut Vec<View>,
) -> Result<(), AllocError>
    requires number { number < T.count targets.now }
    requires heard { All (IsHeard (length bytes.now)) speakers.now }
    ensures { OnOk result (seen.new.items ≡ seen.old.items
        ++ speakers_views sight.now.nodes.now (T.names targets.now number)
        sight.now.header.now.order bytes.now speakers.now) }
{
    for speaker in speakers {
        speaker_views(sight, targets, number, *speaker, bytes, seen)?;
    }
    Ok(())
}

// The views of all elements of a leaf.
fn speaker_views<T: Targets>(
    sight: &Sight,
    targets: &T,
    number: u32,
    speaker: Speaker,
    bytes: &[u8],
    seen: &mut Vec<View>,
) -> Result<(), AllocError>
    requires number { number < T.count targets.now }
    requires heard { IsHeard (length bytes.now) speaker }
    ensures { OnOk result (seen.new.items ≡ seen.old.items
        ++ speaker_views sight.now.nodes.now (T.names targets.now number)
        sight.now.header.now.order bytes.now speaker) }
{
    for element in 0..speaker.count {
        let address = speaker_number(speaker, sight.header.order, bytes, element);
        let target = named(sight.nodes, targets, number, address);
        add_view(speaker.kind, target, seen)?;
    }
    Ok(())
}

// What an address names from a node, where it is a raw node. Nothing is looked up at the address 0.
fn named<T: Targets>(nodes: &[Head], targets: &T, number: u32, address: u64) -> Option<u32>
    requires number { number < T.count targets.now }
    ensures { result ≡ raw_target nodes.now (T.names targets.now number address) }
{
    if address == 0 {
        return None;
    }
    raw_target(nodes, targets.target(number, address))
}

// Adds a view of what is named, if anything is.
fn add_view(kind: RawKind, target: Option<u32>, seen: &mut Vec<View>) -> Result<(), AllocError>
    ensures { OnOk result (seen.new.items ≡ seen.old.items ++ views_of_target kind target) }
{
    if let Some(node) = target {
        seen.push(View { node, kind })?;
    }
    Ok(())
}

// What is named, where it is a raw node.
fn raw_target(nodes: &[Head], target: Option<u32>) -> Option<u32>
    ensures { result ≡ raw_target nodes.now target }
{
    let node = target?;
    if is_raw(nodes, node) {
        Some(node)
    } else {
        None
    }
}

fn is_raw(nodes: &[Head], node: u32) -> bool
    ensures { result ≡ is_raw nodes.now node }
{
    match nodes.get(node as usize) {
        Some(head) => head.index == 0,
        None => false,
    }
}
