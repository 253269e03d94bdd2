ghost use Rattle.std.specs.Prelude.{◌≡◌, ◌≤◌, ◌<◌, ◌^◌, length};
ghost use Rattle.bl_num.specs.Numbers.{pointer_bytes};
ghost use Rattle.bl_format.specs.declared.raw.RawKind.TheVariants.{Pair, Pointers};
ghost use Rattle.bl_format.specs.Nodes.{pair_length};
ghost use Rattle.bl_format.specs.Graph.{contents_by, raw_length};
ghost use Rattle.bl_selection.specs.Written.{contents_written};
ghost use Rattle.bl_ptrarrays.specs.Carried.{header_with, is_other, numbers_carried, pair_carried, pointers_carried};

use crate::images::Images;
use crate::pieces::{read_slot, turn_pieces, write_slot};
use bl_format::RawKind;
use bl_num::{Form, Order, Width};

/// How long the payload of a raw block of a kind is at another width.
pub fn raw_length(kind: RawKind, len: u64, from: Width, to: Width) -> u64
    requires { len < 2 ^ 63 }
    ensures { result ≡ raw_length kind len from to }
{
    match kind {
        RawKind::Pointers => len / pointer_bytes(from) as u64 * pointer_bytes(to) as u64,
        RawKind::Bytes => len,
        RawKind::Numbers(_) => len,
        RawKind::Pair => len,
    }
}

/// Carries the payload of a raw block of a kind from one form to another: numbers in the other
/// order, pointers as the addresses that their targets have in the output, and bytes as they are.
pub fn carry_raw<I: Images>(
    kind: RawKind,
    src: &[u8],
    from: Form,
    to: Form,
    images: &I,
    dst: &mut [u8],
)
    requires pair { kind ≡ Pair → pair_length ≤ length src.now }
    requires dst { length dst.old ≡ raw_length kind (length src.now) from.width to.width }
    ensures { dst.new ≡ contents_written (header_with to) kind
        (contents_by kind (I.names images.now) from src.now) }
{
    match kind {
        RawKind::Bytes => dst.copy_from_slice(src),
        RawKind::Numbers(n) => carry_numbers(n, src, from.order, to.order, dst),
        RawKind::Pointers => carry_pointers(src, from, to, images, dst),
        RawKind::Pair => carry_pair(src, from.order, to.order, dst),
    }
}

// Carries numbers of n bytes each, and copies what is left behind the last one.
fn carry_numbers(n: u8, src: &[u8], from: Order, to: Order, dst: &mut [u8])
    requires { length dst.old ≡ length src.now }
    ensures { dst.new ≡ numbers_carried n from to src.now }
{
    dst.copy_from_slice(src);
    if is_other(from, to) && n > 0 {
        turn_pieces(n, dst);
    }
}

// Two orders aren't the same.
fn is_other(from: Order, to: Order) -> bool
    ensures { result ≡ is_other from to }
{
    match from {
        Order::Little => matches!(to, Order::Big),
        Order::Big => matches!(to, Order::Little),
    }
}

// Carries two numbers of four bytes, and copies what stands behind them.
fn carry_pair(src: &[u8], from: Order, to: Order, dst: &mut [u8])
    requires src { pair_length ≤ length src.now }
    requires dst { length dst.old ≡ length src.now }
    ensures { dst.new ≡ pair_carried from to src.now }
{
    let (numbers, rest) = dst.split_at_mut(8);
    carry_numbers(4, &src[..8], from, to, numbers);
    rest.copy_from_slice(&src[8..]);
}

// Writes the address in the output for each whole pointer.
fn carry_pointers<I: Images>(src: &[u8], from: Form, to: Form, images: &I, dst: &mut [u8])
    requires { length dst.old ≡ raw_length Pointers (length src.now) from.width to.width }
    ensures { dst.new ≡ pointers_carried (I.names images.now) from to src.now }
{
    for k in 0..src.len() / pointer_bytes(from.width) {
        let address = read_slot(src, from, k);
        write_slot(dst, to, k, images.image(address));
    }
}

// The bytes of a pointer.
pub(crate) fn pointer_bytes(width: Width) -> usize
    ensures { result ≡ pointer_bytes width }
{
    match width {
        Width::Four => 4,
        Width::Eight => 8,
    }
}
