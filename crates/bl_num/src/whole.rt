// Whole numbers of 1, 2, 4 and 8 bytes, carried from one type to another.
ghost use Rattle.std.specs.Prelude.{◌≡◌, ◌*◌, ◌-◌, ◌%◌, ◌^◌, if◌then◌else◌};
ghost use Rattle.bl_num.specs.Numbers.{IsWholeLength, number_meant, cast_of};

use crate::number::Whole;

// All the bits that a number of 1, 2, 4 or 8 bytes has.
fn all_bits(bytes: u8) -> u64
    requires { IsWholeLength bytes }
    ensures { result ≡ 2 ^ (8 * bytes) - 1 }
{
    u64::MAX >> (64 - 8 * bytes)
}

// The low bits of a number.
fn low_bits(value: u64, bytes: u8) -> u64
    requires { IsWholeLength bytes }
    ensures { result ≡ value % 2 ^ (8 * bytes) }
{
    value & all_bits(bytes)
}

// The bit of the sign, or 0 where the type has none.
fn sign_bit(whole: Whole) -> u64
    requires { IsWholeLength whole.bytes }
    ensures { result ≡ (if whole.signed then 2 ^ (8 * whole.bytes - 1) else 0) }
{
    u64::from(whole.signed) << (8 * whole.bytes - 1)
}

/// The low bits of the number that the value means in its type, as a number of another type.
pub fn cast(value: u64, from: Whole, to: Whole) -> u64
    requires from_length { IsWholeLength from.bytes }
    requires to_length { IsWholeLength to.bytes }
    ensures { result ≡ cast_of value from to }
{
    let sign = sign_bit(from);
    let shifted = low_bits(value.wrapping_add(sign), from.bytes);
    low_bits(shifted.wrapping_sub(sign), to.bytes)
}

/// The number that the low bits of the value mean in a type.
pub fn value_of(value: u64, of: Whole) -> i128
    requires { IsWholeLength of.bytes }
    ensures { result ≡ number_meant of value }
{
    let sign = sign_bit(of);
    let shifted = low_bits(value.wrapping_add(sign), of.bytes);
    i128::from(shifted) - i128::from(sign)
}
