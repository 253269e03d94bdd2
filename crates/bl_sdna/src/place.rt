ghost use Rattle.std.specs.Prelude.{◌≡◌, ◌≤◌, ◌<◌, ◌+◌, ◌^◌, length, position, ◌==◌, IfOk, IfSome};
ghost use Rattle.bl_num.specs.Numbers.{number_of};
ghost use Rattle.bl_format.specs.Words.{aligned_place};
ghost use Rattle.bl_format.specs.Schema.{Gives, tag_at, count_at, index_at, name_at};

use bl_format::SdnaFault;
use bl_num::{Order, Text};
use byteorder::{BigEndian, ByteOrder, LittleEndian};
use std::alloc::Global;

// The bytes of a tag, and of a count of names, types or structs.
const TAG_SIZE: usize = 4;

const COUNT_SIZE: usize = 4;

// The bytes of a length, a number of a type or a name, and a count of members.
const SHORT_SIZE: usize = 2;

// Each tag but the first two begins at a multiple of this.
const ALIGNMENT: usize = 4;

/// The place from which the next tag is read.
pub fn aligned_place(at: usize) -> usize
    requires { at + 3 < 2 ^ 64 }
    ensures { result ≡ aligned_place at }
{
    at.div_ceil(ALIGNMENT) * ALIGNMENT
}

/// The place behind a tag, which may have to begin past the end.
#[tactic(auto, unfolding(bl_format::specs::Schema::tag_at))]
pub fn tag_at(tag: &[u8; 4], bytes: &[u8], at: usize) -> Result<usize, SdnaFault>
    requires { at ≤ length bytes.now + 3 }
    ensures read { result ≡ tag_at tag.now bytes.now at }
    ensures within { IfOk result (λ after. after ≤ length bytes.now) }
{
    if bytes.len() < at + TAG_SIZE {
        return Err(SdnaFault::CutShort(at as u64));
    }
    let found = &bytes[at..];
    if &found[..TAG_SIZE] == tag.as_slice() {
        Ok(at + TAG_SIZE)
    } else {
        Err(SdnaFault::BadTag(at as u64))
    }
}

/// A count of names, types or structs.
#[tactic(auto, unfolding(bl_format::specs::Schema::count_at))]
pub fn count_at(order: Order, bytes: &[u8], at: usize) -> Result<(u32, usize), SdnaFault>
    requires { at ≤ length bytes.now }
    ensures read { result ≡ count_at order 4 bytes.now at }
    ensures within { IfOk result (λ read. read.1 ≤ length bytes.now) }
{
    let rest = &bytes[at..];
    if rest.len() < COUNT_SIZE {
        return Err(SdnaFault::CutShort(at as u64));
    }
    let count = match order {
        Order::Little => LittleEndian::read_u32(rest),
        Order::Big => BigEndian::read_u32(rest),
    };
    Ok((count, at + COUNT_SIZE))
}

/// A length of a type, or a count of members.
#[tactic(auto, unfolding(bl_format::specs::Schema::count_at))]
pub fn short_at(order: Order, bytes: &[u8], at: usize) -> Result<(u16, usize), SdnaFault>
    requires { at ≤ length bytes.now }
    ensures read { result ≡ count_at order 2 bytes.now at }
    ensures within { IfOk result (λ read. read.1 ≤ length bytes.now) }
{
    let rest = &bytes[at..];
    if rest.len() < SHORT_SIZE {
        return Err(SdnaFault::CutShort(at as u64));
    }
    let number = match order {
        Order::Little => LittleEndian::read_u16(rest),
        Order::Big => BigEndian::read_u16(rest),
    };
    Ok((number, at + SHORT_SIZE))
}

/// The number of one of so many types or names.
#[tactic(auto, unfolding(bl_format::specs::Schema::index_at))]
pub fn index_at(
    order: Order,
    count: usize,
    bytes: &[u8],
    at: usize,
) -> Result<(u16, usize), SdnaFault>
    requires { at ≤ length bytes.now }
    ensures read { result ≡ index_at order count bytes.now at }
    ensures within { IfOk result (λ read. read.1 ≤ length bytes.now) }
{
    let (number, after) = short_at(order, bytes, at)?;
    if usize::from(number) < count {
        Ok((number, after))
    } else {
        Err(SdnaFault::BadIndex(at as u64))
    }
}

// The place of the first zero.
fn first_zero(bytes: &[u8]) -> Option<usize>
    ensures place { result ≡ position (λ b. b == 0) bytes.now }
    ensures within { IfSome result (λ place. place < length bytes.now) }
{
    bytes.iter().position(|byte| *byte == 0)
}

/// A name, which a zero ends, and the place behind the zero.
#[tactic(auto, unfolding(bl_format::specs::Schema::name_at))]
pub fn name_at(bytes: &[u8], at: usize) -> Result<(&[u8], usize), SdnaFault>
    requires { at ≤ length bytes.now }
    ensures read { Gives (λ read. (read.0.now, read.1)) result (name_at bytes.now at) }
    ensures within { IfOk result (λ read. read.1 ≤ length bytes.now) }
{
    let rest = &bytes[at..];
    match first_zero(rest) {
        Some(len) => Ok((&rest[..len], at + len + 1)),
        None => Err(SdnaFault::CutShort(at as u64)),
    }
}
