ghost use Rattle.std.specs.Prelude.{◌≡◌, ◌≢◌, ◌<◌, ◌*◌, ◌^◌, ◌%◌, ℕ, length};
ghost use Rattle.bl_num.specs.Numbers.{bytes_of};
ghost use Rattle.bl_format.specs.Words.{part};
ghost use Rattle.bl_members.specs.Leaf.{element_place, bytes_of_leaf, number_of_leaf, replaced_at, FitsIn, HoldsNumbers, AreDisjoint};

use bl_format::Leaf;
use bl_num::{Order, read_whole, write_whole};

/// The bytes of an element of a leaf, in those of an element of its struct.
pub fn leaf_bytes<'a>(leaf: &Leaf, bytes: &'a [u8], element: u32) -> &'a [u8]
    requires fits { FitsIn leaf.now (length bytes.now) }
    requires element { element < leaf.now.count }
    ensures bytes { result.now ≡ bytes_of_leaf leaf.now bytes.now element }
    ensures length { length result.now ≡ leaf.now.size }
{
    &bytes[place_of(leaf, element)..][..leaf.size as usize]
}

/// An element of a leaf as a number: the bits of a whole number or a float, or an address. The
/// elements of leaves that aren't opaque can be read so.
pub fn read_leaf(leaf: &Leaf, order: Order, bytes: &[u8], element: u32) -> u64
    requires fits { FitsIn leaf.now (length bytes.now) }
    requires element { element < leaf.now.count }
    requires number { HoldsNumbers leaf.now }
    ensures { result ≡ number_of_leaf order leaf.now bytes.now element }
{
    read_whole(order, leaf_bytes(leaf, bytes, element))
}

/// Writes the low bytes of a value into an element of a leaf, in the bytes of an element of its
/// struct.
pub fn write_leaf(leaf: &Leaf, order: Order, element: u32, value: u64, dst: &mut [u8])
    requires fits { FitsIn leaf.now (length dst.old) }
    requires element { element < leaf.now.count }
    requires number { HoldsNumbers leaf.now }
    ensures written { dst.new ≡ replaced_at (element_place leaf.now element)
        (bytes_of order leaf.now.size value) dst.old }
    ensures length { length dst.new ≡ length dst.old }

    // What is read afterwards of this element, of the leaf's others, and of any bytes but its own.
    ensures reads_back { number_of_leaf order leaf.now dst.new element ≡ value % 256 ^ leaf.now.size }
    ensures others { (k : ℕ) → k < leaf.now.count → k ≢ element
        → bytes_of_leaf leaf.now dst.new k ≡ bytes_of_leaf leaf.now dst.old k }
    ensures elsewhere { (at n : ℕ) → AreDisjoint at n (element_place leaf.now element) leaf.now.size
        → part dst.new at n ≡ part dst.old at n }
{
    let (_, rest) = dst.split_at_mut(place_of(leaf, element));
    let (own, _) = rest.split_at_mut(leaf.size as usize);
    write_whole(order, value, own);
}

// Where an element of a leaf begins.
fn place_of(leaf: &Leaf, element: u32) -> usize
    ensures { result ≡ element_place leaf.now element }
{
    leaf.offset as usize + element as usize * leaf.size as usize
}
