ghost use Rattle.std.specs.Prelude.{◌≡◌, ◌<◌, ◌^◌, ℕ, All, IfOk, Some, length, slice_index};
ghost use Rattle.bl_num.specs.Numbers.{pointer_bytes};
ghost use Rattle.bl_format.specs.Layout.{HasLayout};
ghost use Rattle.bl_layout.specs.NewLengths.{AreShort, new_lengths, next_length, next_lengths, size_by};

use crate::layout::Layout;
use crate::members::pointer_bytes;
use bl_format::Shape;
use bl_num::Width;
use std::alloc::{AllocError, Global};

/// The lengths that all structs have at another width, by rounds: each opens structs up once more,
/// and one that changes nothing is the last.
pub fn new_lengths(alloc: Global, layout: &Layout, to: Width) -> Result<Vec<u64>, AllocError>
    requires { HasLayout layout.now.catalogue layout.now.width }
    ensures { IfOk result (λ lengths. lengths.items
        ≡ new_lengths layout.now.catalogue layout.now.width to) }
{
    let count = layout.struct_count();
    let mut lengths = vec![in alloc; 0; count as usize]?;
    for _ in 0..count {
        let next = next_lengths(alloc, layout, to, &lengths)?;
        if next.as_slice() == lengths.as_slice() {
            return Ok(next);
        }
        lengths = next;
    }
    Ok(lengths)
}

// The lengths by those of the round before.
fn next_lengths(
    alloc: Global,
    layout: &Layout,
    to: Width,
    lengths: &[u64],
) -> Result<Vec<u64>, AllocError>
    requires has_layout { HasLayout layout.now.catalogue layout.now.width }
    requires lengths { AreShort layout.now.catalogue lengths.now }
    ensures { IfOk result (λ next. next.items
        ≡ next_lengths (slice_index lengths.now) layout.now.catalogue layout.now.width to) }
{
    let count = layout.struct_count();
    let mut next = Vec::with_capacity(alloc, count as usize)?;
    for s in 0..count {
        next.push(next_length(layout, to, lengths, s))?;
    }
    Ok(next)
}

// The length of a struct: that of its members, and its old tail.
fn next_length(layout: &Layout, to: Width, lengths: &[u64], s: u32) -> u64
    requires has_layout { HasLayout layout.now.catalogue layout.now.width }
    requires lengths { AreShort layout.now.catalogue lengths.now }
    requires s { s < length layout.now.catalogue.structs }
    ensures { result
        ≡ next_length (slice_index lengths.now) layout.now.catalogue layout.now.width to s }
{
    let mut old = 0;
    let mut new = 0;
    for k in 0..layout.member_count(s) {
        let shape = layout.member_shape(s, k);
        old += u64::from(shape.size);
        new += new_size(shape, to, lengths);
    }
    new + (u64::from(layout.length(s)) - old)
}

// The bytes of all elements of a member.
fn new_size(shape: Shape, to: Width, lengths: &[u64]) -> u64
    requires inside { (t : ℕ) → shape.inner ≡ Some t → t < length lengths.now }
    requires small { All (λ n. n < 2 ^ 17) lengths.now }
    ensures { result ≡ size_by (slice_index lengths.now) to shape }
{
    if shape.pointer {
        return pointer_bytes(to) * u64::from(shape.count);
    }
    match shape.inner {
        Some(t) => lengths[t as usize] * u64::from(shape.count),
        None => u64::from(shape.size),
    }
}
