// Numbers side by side, carried over one by one or all at once.
ghost use Rattle.std.specs.Prelude.{◌≡◌, ◌≤◌, ◌<◌, ◌+◌, ◌*◌, length};
ghost use Rattle.bl_num.specs.Numbers.{IsWholeLength, bytes_of, number_of};
ghost use Rattle.bl_selection.specs.Written.{address_of};
ghost use Rattle.bl_ptrarrays.specs.Carried.{is_other, numbers_carried};
ghost use Rattle.bl_ptrarrays.specs.Pieces.{piece, pieces_by, turned, turned_pieces, with_piece};
ghost use Rattle.bl_rebuild.specs.Runs.{number_cast, pointer_written};

use bl_num::{Order, Whole, cast, read_whole, write_whole};
use bl_ptrarrays::Images;

/// Copies numbers of one size, and turns each where the other order is wanted.
pub fn keep_numbers(size: u8, from: Order, to: Order, src: &[u8], dst: &mut [u8])
    requires size { IsWholeLength size }
    requires dst { length dst.old ≡ length src.now }
    ensures { dst.new ≡ numbers_carried size from to src.now }
{
    dst.copy_from_slice(src);
    if is_other(from, to) && size > 1 {
        turn(size, dst);
    }
}

// Two orders aren't the same.
fn is_other(from: Order, to: Order) -> bool
    ensures { result ≡ is_other from to }
{
    match from {
        Order::Little => matches!(to, Order::Big),
        Order::Big => matches!(to, Order::Little),
    }
}

// Turns each number of a size round, by a loop of its own for each size.
fn turn(size: u8, bytes: &mut [u8])
    requires { IsWholeLength size }
    ensures { bytes.new ≡ turned_pieces size bytes.old }
{
    match size {
        1 => turn_pieces(1, bytes),
        2 => turn_pieces(2, bytes),
        4 => turn_pieces(4, bytes),
        _ => turn_pieces(8, bytes),
    }
}

fn turn_pieces(size: usize, bytes: &mut [u8])
    requires { 0 < size }
    ensures { bytes.new ≡ turned_pieces size bytes.old }
{
    for k in 0..bytes.len() / size {
        turn_piece(bytes, size, k);
    }
}

fn turn_piece(bytes: &mut [u8], size: usize, k: usize)
    requires { k * size + size ≤ length bytes.old }
    ensures { bytes.new ≡ with_piece size k (turned (piece size bytes.old k)) bytes.old }
{
    let (_, rest) = bytes.split_at_mut(k * size);
    let (own, _) = rest.split_at_mut(size);
    own.reverse();
}

/// Casts whole numbers one by one.
pub fn cast_numbers(
    source: Whole,
    target: Whole,
    count: usize,
    from: Order,
    to: Order,
    src: &[u8],
    dst: &mut [u8],
)
    requires source { IsWholeLength source.bytes }
    requires target { IsWholeLength target.bytes }
    requires src { length src.now ≡ count * source.bytes }
    requires dst { length dst.old ≡ count * target.bytes }
    ensures { dst.new ≡ pieces_by (number_cast source target from to) source.bytes count src.now }
{
    for k in 0..count {
        let value = read_piece(from, usize::from(source.bytes), src, k);
        write_piece(
            to,
            usize::from(target.bytes),
            k,
            cast(value, source, target),
            dst,
        );
    }
}

/// Writes for each pointer of one size the address in the output, in another size.
pub fn write_pointers<I: Images>(
    source: usize,
    target: usize,
    count: usize,
    from: Order,
    to: Order,
    src: &[u8],
    images: &I,
    dst: &mut [u8],
)
    requires source { IsWholeLength source }
    requires target { IsWholeLength target }
    requires src { length src.now ≡ count * source }
    requires dst { length dst.old ≡ count * target }
    ensures { dst.new ≡ pieces_by (pointer_written (I.names images.now) source target from to) source count src.now }
{
    for k in 0..count {
        let image = image_of(images, read_piece(from, source, src, k));
        write_piece(to, target, k, image, dst);
    }
}

// The address in the output of what an address names; null stays null.
fn image_of<I: Images>(images: &I, address: u64) -> u64
    ensures { result ≡ address_of (I.names images.now address) }
{
    if address == 0 {
        return 0;
    }
    images.image(address)
}

// The number in piece k of so many bytes each.
fn read_piece(order: Order, size: usize, src: &[u8], k: usize) -> u64
    requires size { IsWholeLength size }
    requires inside { k * size + size ≤ length src.now }
    ensures { result ≡ number_of order size (piece size src.now k) }
{
    read_whole(order, &src[k * size..][..size])
}

// Writes a number into piece k of so many bytes each.
fn write_piece(order: Order, size: usize, k: usize, value: u64, dst: &mut [u8])
    requires size { IsWholeLength size }
    requires inside { k * size + size ≤ length dst.old }
    ensures { dst.new ≡ with_piece size k (bytes_of order size value) dst.old }
{
    let (_, rest) = dst.split_at_mut(k * size);
    let (own, _) = rest.split_at_mut(size);
    write_whole(order, value, own);
}
