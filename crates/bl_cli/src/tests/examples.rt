// The catalogue of the worked examples, and files that are made of it. The bytes were made by a
// script that knows nothing of this program.
ghost use Rattle.std.specs.Prelude.{IfOk};
ghost use Rattle.bl_format.specs.Schema.{CanBeRead};

use bl_format::{Catalogue, SdnaFault};
use bl_num::Order;
use bl_sdna::parse_catalogue;
use std::alloc::{AllocError, Global};

// The catalogue for pointers of 8 bytes, the lowest byte of a number first.
const WIDE: &[u8; 392] =
    b"SDNANAME\x14\0\0\0*next\0*prev\0*newid\0*lib\0name[66]\0flag\0us\0id\0name[1024]\0\
    *parent\0*data\0loc[3]\0type\0_pad[2]\0*index\0*co\0**users\0*extra\0totindex\0tot\
    co\0\0\0TYPE\x0e\0\0\0char\0uchar\0short\0ushort\0int\0int64_t\0float\0double\0voi\
    d\0Link\0ID\0Library\0Object\0Mesh\0\0\0TLEN\x01\0\x01\0\x02\0\x02\0\x04\0\x08\0\
    \x04\0\x08\0\0\0\x10\0h\0h\x04\x88\0\x90\0STRC\x05\0\0\0\x09\0\x02\0\x09\0\0\0\x09\
    \0\x01\0\x0a\0\x07\0\x08\0\0\0\x08\0\x01\0\x0a\0\x02\0\x0b\0\x03\0\0\0\x04\0\x02\0\
    \x05\0\x04\0\x06\0\x0b\0\x02\0\x0a\0\x07\0\0\0\x08\0\x0c\0\x06\0\x0a\0\x07\0\x0c\0\
    \x09\0\x0d\0\x0a\0\x06\0\x0b\0\x02\0\x0c\0\0\0\x0d\0\x0d\0\x07\0\x0a\0\x07\0\x04\0\
    \x0e\0\x06\0\x0f\0\x0c\0\x10\0\x08\0\x11\0\x04\0\x12\0\x04\0\x13\0";

// The same for pointers of 4 bytes, the highest byte of a number first.
const NARROW: &[u8; 392] =
    b"SDNANAME\0\0\0\x14*next\0*prev\0*newid\0*lib\0name[66]\0flag\0us\0id\0name[1024]\0\
    *parent\0*data\0loc[3]\0type\0_pad[2]\0*index\0*co\0**users\0*extra\0totindex\0tot\
    co\0\0\0TYPE\0\0\0\x0echar\0uchar\0short\0ushort\0int\0int64_t\0float\0double\0voi\
    d\0Link\0ID\0Library\0Object\0Mesh\0\0\0TLEN\0\x01\0\x01\0\x02\0\x02\0\x04\0\x08\0\
    \x04\0\x08\0\0\0\x08\0X\x04X\0p\0pSTRC\0\0\0\x05\0\x09\0\x02\0\x09\0\0\0\x09\0\x01\
    \0\x0a\0\x07\0\x08\0\0\0\x08\0\x01\0\x0a\0\x02\0\x0b\0\x03\0\0\0\x04\0\x02\0\x05\0\
    \x04\0\x06\0\x0b\0\x02\0\x0a\0\x07\0\0\0\x08\0\x0c\0\x06\0\x0a\0\x07\0\x0c\0\x09\0\
    \x0d\0\x0a\0\x06\0\x0b\0\x02\0\x0c\0\0\0\x0d\0\x0d\0\x07\0\x0a\0\x07\0\x04\0\x0e\0\
    \x06\0\x0f\0\x0c\0\x10\0\x08\0\x11\0\x04\0\x12\0\x04\0\x13";

/// The bytes of the example in an order.
pub fn example(order: Order) -> &'static [u8] {
    match order {
        Order::Little => WIDE,
        Order::Big => NARROW,
    }
}

/// Places in both: a bracket of the last member of struct 3, the name of member 1 of struct 4,
/// padding behind the names, the name of type 3, padding before the lengths, the lengths of types 4
/// and 12, the name of member 4 of struct 3, the last struct, the type of its member 0, and the
/// name of its last member.
pub const PAD_BRACKET: usize = 97;

pub const INDEX_NAME: usize = 101;

pub const PADDING: usize = 142;

pub const USHORT: usize = 169;

pub const LAST_PADDING: usize = 235;

pub const INT_LENGTH: usize = 248;

pub const OBJECT_LENGTH: usize = 264;

pub const OBJECT_TYPE_NAME: usize = 354;

pub const LAST_STRUCT: usize = 360;

pub const MESH_ID_TYPE: usize = 364;

pub const LAST_NAME: usize = 390;

/// Bytes with others in place of some of them, from a place on.
pub fn changed(alloc: Global, bytes: &[u8], at: usize, part: &[u8]) -> Result<Vec<u8>, AllocError> {
    let mut changed = Vec::from_slice(alloc, bytes.get(..at).unwrap_or(b""))?;
    changed.extend_from_slice(part)?;
    let behind = bytes.get(changed.len()..).unwrap_or(b"");
    changed.extend_from_slice(behind)?;
    Ok(changed)
}

/// A file of version 4.05 with these blocks and this catalogue, of less than 65,536 bytes.
pub fn file_of(alloc: Global, blocks: &[u8], catalogue: &[u8]) -> Result<Vec<u8>, AllocError> {
    let mut file = Vec::from_slice(alloc, b"BLENDER-v405")?;
    file.extend_from_slice(blocks)?;
    let len = catalogue.len();
    file.extend_from_slice(b"DNA1")?;
    file.extend_from_slice(&[(len % 256) as u8, (len / 256 % 256) as u8, 0, 0])?;
    file.extend_from_slice(b"\0\0\0\0\0\0\0\0\0\0\0\0\x01\0\0\0")?;
    file.extend_from_slice(catalogue)?;
    file.extend_from_slice(b"ENDB\0\0\0\0\0\0\0\0\0\0\0\0\0\0\0\0\0\0\0\0")?;
    Ok(file)
}

/// The catalogue that some bytes hold, of which there are few.
pub fn catalogue_in(alloc: Global, order: Order, bytes: &[u8]) -> Result<Catalogue, SdnaFault>
    ensures { IfOk result CanBeRead }
{
    if bytes.len() > 65_536 {
        return Err(SdnaFault::NoMemory);
    }
    parse_catalogue(alloc, order, bytes)
}

/// The catalogue of the example in an order, with other bytes from a place on.
pub fn catalogue_with(
    alloc: Global,
    order: Order,
    at: usize,
    part: &[u8],
) -> Result<Catalogue, SdnaFault>
    ensures { IfOk result CanBeRead }
{
    let bytes = changed(alloc, example(order), at, part)?;
    catalogue_in(alloc, order, &bytes)
}
