ghost use Rattle.std.specs.Prelude.{◌≡◌, ◌≤◌, ◌<◌, ◌-◌, ◌++◌, ℕ, List, length, take, slice_index, if◌then◌else◌, Ok, Err};
ghost use Rattle.std.specs.Char.{is_ascii_digit};
ghost use Rattle.std.specs.Str.{bytes_eq};
ghost use Rattle.bl_format.specs.Blocks.{header_of, header_written, is_compressed, bad_mark, unless_bad_mark, marked_header, width_mark, order_mark};

use bl_format::{HeadFault, Header};
use bl_num::{Order, Width};

/// The bytes of a header.
pub const HEADER_SIZE: usize = 12;

const MAGIC: [u8; 7] = *b"BLENDER";

// Where the header's parts stand behind the magic.
const WIDTH_AT: usize = 7;

const ORDER_AT: usize = 8;

const VERSION_AT: usize = 9;

/// The first version of Blender whose files are read, 2.50.
pub const FIRST_VERSION: u16 = 250;

/// The last version of Blender whose files are read, 4.99.
pub const LAST_VERSION: u16 = 499;

// The first bytes of a compressed file.
const GZIP: [u8; 2] = [0x1f, 0x8b];

const ZSTD: [u8; 4] = [0x28, 0xb5, 0x2f, 0xfd];

/// Reads the header with which a file begins. Whatever stands behind it isn't looked at.
#[tactic(auto, unfolding(bl_format::specs::Blocks::header_of))]
pub fn parse_header(bytes: &[u8]) -> Result<Header, HeadFault>
    ensures { result ≡ header_of bytes.now }
{
    if is_compressed(bytes) {
        return Err(HeadFault::Compressed);
    }
    if bytes.len() < HEADER_SIZE || !begins_with(bytes, &MAGIC) {
        return Err(HeadFault::BadMagic);
    }
    marked_header(bytes)
}

/// Spells a header as Blender does, with the version in three digits.
#[tactic(auto, unfolding(bl_format::specs::Blocks::header_written))]
pub fn write_header(header: &Header) -> [u8; 12]
    requires first { FIRST_VERSION ≤ header.now.version }
    requires last { header.now.version ≤ LAST_VERSION }
    ensures written { result ≡ header_written header.now }
    ensures reads_back { (rest : List ℕ) → header_of (result ++ rest) ≡ Ok header.now }
{
    let version = header.version;
    [
        b'B',
        b'L',
        b'E',
        b'N',
        b'D',
        b'E',
        b'R',
        width_mark(header.width),
        order_mark(header.order),
        b'0' + (version / 100) as u8,
        b'0' + (version / 10 % 10) as u8,
        b'0' + (version % 10) as u8,
    ]
}

fn is_compressed(bytes: &[u8]) -> bool
    ensures { result ≡ is_compressed bytes.now }
{
    begins_with(bytes, &GZIP) || begins_with(bytes, &ZSTD)
}

fn begins_with(bytes: &[u8], start: &[u8]) -> bool
    ensures { result ≡ bytes_eq (take (length start.now) bytes.now) start.now }
{
    bytes.len() >= start.len() && &bytes[..start.len()] == start
}

// The header that the marks and digits behind the magic spell.
fn marked_header(bytes: &[u8]) -> Result<Header, HeadFault>
    requires { HEADER_SIZE ≤ length bytes.now }
    ensures { result ≡ unless_bad_mark (bad_mark bytes.now) (marked_header bytes.now) }
{
    let width = match bytes[WIDTH_AT] {
        b'_' => Width::Four,
        b'-' => Width::Eight,
        _ => return Err(HeadFault::BadMark(WIDTH_AT as u8)),
    };
    let order = match bytes[ORDER_AT] {
        b'v' => Order::Little,
        b'V' => Order::Big,
        _ => return Err(HeadFault::BadMark(ORDER_AT as u8)),
    };
    let hundreds = digit_at(bytes, VERSION_AT)?;
    let tens = digit_at(bytes, VERSION_AT + 1)?;
    let ones = digit_at(bytes, VERSION_AT + 2)?;
    let version = 100 * hundreds + 10 * tens + ones;
    if version < FIRST_VERSION || version > LAST_VERSION {
        return Err(HeadFault::BadVersion(version));
    }
    Ok(Header {
        width,
        order,
        version,
    })
}

fn digit_at(bytes: &[u8], at: usize) -> Result<u16, HeadFault>
    requires inside { at < length bytes.now }
    requires small { at < HEADER_SIZE }
    ensures { result ≡ (if is_ascii_digit (slice_index bytes.now at)
        then Ok (slice_index bytes.now at - 48)
        else Err (HeadFault.BadMark at)) }
{
    match bytes[at] {
        digit @ b'0'..=b'9' => Ok(u16::from(digit - b'0')),
        _ => Err(HeadFault::BadMark(at as u8)),
    }
}

fn width_mark(width: Width) -> u8
    ensures { result ≡ width_mark width }
{
    match width {
        Width::Four => b'_',
        Width::Eight => b'-',
    }
}

fn order_mark(order: Order) -> u8
    ensures { result ≡ order_mark order }
{
    match order {
        Order::Little => b'v',
        Order::Big => b'V',
    }
}
