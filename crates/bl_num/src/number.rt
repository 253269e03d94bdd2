ghost use Rattle.std.specs.Prelude.{◌≡◌, length};
ghost use Rattle.bl_num.specs.Numbers.{IsWholeLength, number_of, bytes_of};

use byteorder::{BigEndian, ByteOrder, LittleEndian};
use std::alloc::{AllocError, AllocFailed};

/// Which byte of a number comes first: the lowest or the highest.
#[derive(Clone, Copy, Debug, PartialEq, Eq)]
pub enum Order {
    Little,
    Big,
}

/// How many bytes a pointer takes in a file.
#[derive(Clone, Copy, Debug, PartialEq, Eq)]
pub enum Width {
    Four,
    Eight,
}

/// How a file writes pointers and numbers.
#[derive(Clone, Copy, Debug, PartialEq, Eq)]
pub struct Form {
    pub width: Width,
    pub order: Order,
}

/// A whole-number type: its length in bytes, which is 1, 2, 4 or 8, and whether it has a sign.
#[derive(Clone, Copy, Debug, PartialEq, Eq)]
pub struct Whole {
    pub bytes: u8,
    pub signed: bool,
}

/// Want of memory: the one answer that no contract ties to a cause.
#[derive(Clone, Copy, Debug, PartialEq, Eq)]
pub struct NoMemory;

impl From<AllocError> for NoMemory {
    fn from(_: AllocError) -> NoMemory {
        NoMemory
    }
}

impl<T: Drop> From<AllocFailed<T>> for NoMemory {
    fn from(_: AllocFailed<T>) -> NoMemory {
        NoMemory
    }
}

/// The number that the bytes spell, of which there are 1, 2, 4 or 8.
pub fn read_whole(order: Order, bytes: &[u8]) -> u64
    requires { IsWholeLength (length bytes.now) }
    ensures { result ≡ number_of order (length bytes.now) bytes.now }
{
    match order {
        Order::Little => match bytes.len() {
            1 => u64::from(bytes[0]),
            2 => u64::from(LittleEndian::read_u16(bytes)),
            4 => u64::from(LittleEndian::read_u32(bytes)),
            _ => LittleEndian::read_u64(bytes),
        },
        Order::Big => match bytes.len() {
            1 => u64::from(bytes[0]),
            2 => u64::from(BigEndian::read_u16(bytes)),
            4 => u64::from(BigEndian::read_u32(bytes)),
            _ => BigEndian::read_u64(bytes),
        },
    }
}

/// Writes the low bytes of the number into 1, 2, 4 or 8 bytes.
pub fn write_whole(order: Order, value: u64, dst: &mut [u8])
    requires { IsWholeLength (length dst.old) }
    ensures { dst.new ≡ bytes_of order (length dst.old) value }
{
    let len = dst.len();
    match order {
        Order::Little => dst.copy_from_slice(&value.to_le_bytes()[..len]),
        Order::Big => dst.copy_from_slice(&value.to_be_bytes()[8 - len..]),
    }
}
