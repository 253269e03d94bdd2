ghost use Rattle.std.specs.Prelude.{◌≡◌, ◌≤◌, ◌<◌, ◌+◌, ◌*◌, ◌/◌, length};
ghost use Rattle.bl_num.specs.Numbers.{pointer_bytes, number_of, bytes_of};
ghost use Rattle.bl_ptrarrays.specs.Pieces.{piece, with_piece, turned, turned_pieces};

use crate::carry::pointer_bytes;
use bl_num::{Form, read_whole, write_whole};

// Turns each whole piece of n bytes round, so that its last byte stands first.
pub(crate) fn turn_pieces(n: u8, bytes: &mut [u8])
    requires { 0 < n }
    ensures { bytes.new ≡ turned_pieces n bytes.old }
{
    let size = usize::from(n);
    for k in 0..bytes.len() / size {
        turn_piece(bytes, size, k);
    }
}

// Turns one piece round.
fn turn_piece(bytes: &mut [u8], size: usize, k: usize)
    requires { k * size + size ≤ length bytes.old }
    ensures { bytes.new ≡ with_piece size k (turned (piece size bytes.old k)) bytes.old }
{
    let (_, rest) = bytes.split_at_mut(k * size);
    let (own, _) = rest.split_at_mut(size);
    own.reverse();
}

// The address in a pointer, of those that stand one behind another.
pub(crate) fn read_slot(bytes: &[u8], form: Form, k: usize) -> u64
    requires { k < length bytes.now / pointer_bytes form.width }
    ensures { result ≡ number_of form.order (pointer_bytes form.width)
        (piece (pointer_bytes form.width) bytes.now k) }
{
    let size = pointer_bytes(form.width);
    read_whole(form.order, &bytes[k * size..][..size])
}

// Writes an address into a pointer, of those that stand one behind another.
pub(crate) fn write_slot(dst: &mut [u8], form: Form, k: usize, address: u64)
    requires { k * pointer_bytes form.width + pointer_bytes form.width ≤ length dst.old }
    ensures { dst.new ≡ with_piece (pointer_bytes form.width) k
        (bytes_of form.order (pointer_bytes form.width) address) dst.old }
{
    let size = pointer_bytes(form.width);
    let (_, rest) = dst.split_at_mut(k * size);
    let (own, _) = rest.split_at_mut(size);
    write_whole(form.order, address, own);
}
