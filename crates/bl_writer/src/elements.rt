// The elements of a struct node, carried over piece by piece.
ghost use Rattle.std.specs.Prelude.{◌≡◌, ◌≢◌, ◌<◌, ◌≤◌, ◌+◌, ◌*◌, ◌^◌, length, true, OnOk};
ghost use Rattle.bl_format.specs.Words.{part};
ghost use Rattle.bl_plan.specs.Steps.{PlanFits};
ghost use Rattle.bl_file.specs.Calls.{IsOpen, Stays, Tells};
ghost use Rattle.bl_file.specs.Frames.{CountsReads};
ghost use Rattle.bl_writer.specs.Lengths.{piece_size};
ghost use Rattle.bl_writer.specs.Payloads.{StandIn, StayWhole, elements_carried, piece_at};

use crate::nodes::is_other;
use bl_file::Payload;
use bl_num::Order;
use bl_plan::Plan;
use bl_ptrarrays::Images;
use bl_rebuild::apply;
use bl_shelf::{Shelf, ShelfFault};

/// How many bytes of elements are read at once.
pub const PIECE_SIZE: usize = 65_536;

/// Elements of a struct that stand side by side in a source, and how each is carried over.
#[derive(Clone, Copy)]
pub struct Elements<'a> {
    pub plan: &'a Plan,
    /// Both orders of bytes.
    pub from: Order,
    pub to: Order,
    /// The bytes of an element in the source, and in the output.
    pub len: usize,
    pub to_len: usize,
    /// Where the first one stands in the source.
    pub at: u64,
    pub count: usize,
}

/// Whether elements stay as they are, byte by byte.
pub fn stay_whole(elements: &Elements) -> bool
    requires len { elements.now.len < 2 ^ 16 }
    requires to_len { elements.now.to_len < 2 ^ 16 }
    ensures { result ≡ true → StayWhole elements.now }
{
    if is_other(elements.from, elements.to) {
        return false;
    }
    let (len, to_len) = (elements.len as u32, elements.to_len as u32);
    elements.plan.copies_whole(len, to_len)
}

/// Writes elements, which are read in pieces into `scratch`.
pub fn write_elements<I: Images, S: Shelf, P: Payload>(
    elements: &Elements,
    images: &I,
    payload: &mut P,
    shelf: &mut S,
    scratch: &mut [u8],
    dst: &mut [u8],
) -> Result<(), ShelfFault>
    requires stand { StandIn elements.now (P.file_size payload.old) }
    requires held { IsOpen S.Shelf P.Payload shelf.old payload.old }
    requires scratch { piece_size ≤ length scratch.old }
    requires dst { length dst.old ≡ elements.now.count * elements.now.to_len }
    ensures written { OnOk result (Tells S.Shelf P.Payload shelf.old payload.old
        (λ b. dst.new ≡ elements_carried (I.names images.now) elements.now elements.now.count
        (part b elements.now.at (elements.now.count * elements.now.len)))) }
    ensures length { length dst.new ≡ length dst.old }
    ensures scratch { length scratch.new ≡ length scratch.old }
    ensures stays { Stays S.Shelf P.Payload shelf.old shelf.new payload.old payload.new }
    ensures cause { CountsReads S.Shelf shelf.old shelf.new result }
    ensures no_memory { result ≢ Err ShelfFault.NoMemory }
{
    let most = elements_at_once(elements.len);
    let mut done = 0;
    while done < elements.count {
        let piece = piece_at(elements, done, most);
        let (_, rest) = dst.split_at_mut(done * elements.to_len);
        let (own, _) = rest.split_at_mut(piece.count * elements.to_len);
        write_piece(&piece, images, payload, shelf, scratch, own)?;
        done += piece.count;
    }
    Ok(())
}

// How many elements of so many bytes are read at once.
fn elements_at_once(len: usize) -> usize
    requires { len < 2 ^ 16 }
    ensures some { 1 ≤ result }
    ensures fit { result * len ≤ piece_size }
{
    if len == 0 {
        PIECE_SIZE
    } else {
        PIECE_SIZE / len
    }
}

// Some of the elements behind those that are done.
fn piece_at<'a>(elements: &Elements<'a>, done: usize, most: usize) -> Elements<'a>
    requires stand { elements.now.at + elements.now.count * elements.now.len < 2 ^ 63 }
    requires done { done < elements.now.count }
    requires most { 1 ≤ most }
    ensures { result ≡ piece_at elements.now done most }
{
    Elements {
        at: elements.at + (done * elements.len) as u64,
        count: most.min(elements.count - done),
        ..*elements
    }
}

// Writes a piece of elements, which is read into the front of `scratch`.
fn write_piece<I: Images, S: Shelf, P: Payload>(
    piece: &Elements,
    images: &I,
    payload: &mut P,
    shelf: &mut S,
    scratch: &mut [u8],
    dst: &mut [u8],
) -> Result<(), ShelfFault>
    requires stand { StandIn piece.now (P.file_size payload.old) }
    requires held { IsOpen S.Shelf P.Payload shelf.old payload.old }
    requires scratch { piece.now.count * piece.now.len ≤ length scratch.old }
    requires dst { length dst.old ≡ piece.now.count * piece.now.to_len }
    ensures written { OnOk result (Tells S.Shelf P.Payload shelf.old payload.old
        (λ b. dst.new ≡ elements_carried (I.names images.now) piece.now piece.now.count
        (part b piece.now.at (piece.now.count * piece.now.len)))) }
    ensures length { length dst.new ≡ length dst.old }
    ensures scratch { length scratch.new ≡ length scratch.old }
    ensures stays { Stays S.Shelf P.Payload shelf.old shelf.new payload.old payload.new }
    ensures cause { CountsReads S.Shelf shelf.old shelf.new result }
    ensures no_memory { result ≢ Err ShelfFault.NoMemory }
{
    let (own, _) = scratch.split_at_mut(piece.count * piece.len);
    payload.copy_out(shelf, piece.at, own)?;
    carry_elements(piece, images, own, dst);
    Ok(())
}

// Carries elements over one by one.
fn carry_elements<I: Images>(elements: &Elements, images: &I, src: &[u8], dst: &mut [u8])
    requires fits { PlanFits elements.now.len elements.now.to_len elements.now.plan.now }
    requires src { length src.now ≡ elements.now.count * elements.now.len }
    requires dst { length dst.old ≡ elements.now.count * elements.now.to_len }
    ensures carried { dst.new ≡ elements_carried (I.names images.now) elements.now elements.now.count src.now }
    ensures length { length dst.new ≡ length dst.old }
{
    for e in 0..elements.count {
        let own = &src[e * elements.len..][..elements.len];
        let (_, rest) = dst.split_at_mut(e * elements.to_len);
        let (to, _) = rest.split_at_mut(elements.to_len);
        apply(elements.plan, own, elements.from, elements.to, images, to);
    }
}
