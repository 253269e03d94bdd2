ghost use Rattle.std.specs.Prelude.{◌≡◌, ◌≢◌, ◌≤◌, ◌<◌, ◌+◌, ◌-◌, ◌^◌, ◌++◌, ℕ, List, false, min, length, take, codes, Ok};
ghost use Rattle.std.specs.Str.{bytes_eq};
ghost use Rattle.bl_num.specs.Numbers.{number_of, pointer_bytes};
ghost use Rattle.bl_format.specs.Words.{zeros};
ghost use Rattle.bl_format.specs.Blocks.{head_size, head_in, code_meant, code_written, checked_head, step_in, head_written, is_negative};

use bl_format::{BlockFault, Head, Header, Step};
use bl_num::{Order, Width, read_whole, write_whole};
use byteorder::{BigEndian, ByteOrder, LittleEndian};

// A head has a code, the payload's length, an address, the struct's number and a count.
const CODE_SIZE: usize = 4;

const NUMBER_SIZE: usize = 4;

const LEN_AT: usize = CODE_SIZE;

const ADDRESS_AT: usize = LEN_AT + NUMBER_SIZE;

/// The bytes of the longest head.
pub const LONGEST_HEAD: usize = 24;

/// The code that ends a file. No block has it.
pub const END: [u8; 4] = *b"ENDB";

// The least number of 32 bits that is negative.
const SIGN: u32 = 0x8000_0000;

/// The bytes of a block's head, Blender's `BHead`.
pub fn head_size(header: &Header) -> usize
    ensures size { result ≡ head_size header.now }
    ensures longest { result ≤ LONGEST_HEAD }
{
    ADDRESS_AT + pointer_size(header.width) + 2 * NUMBER_SIZE
}

/// What begins at the place `at` of a file of `size` bytes. The window begins there too, and holds
/// a head's size or all that is left of the file.
#[tactic(auto, unfolding(bl_format::specs::Blocks::step_in, bl_format::specs::Blocks::head_in))]
pub fn next_block(header: &Header, window: &[u8], at: u64, size: u64) -> Result<Step, BlockFault>
    requires { min (head_size header.now) (size - at) ≤ length window.now }
    ensures { result ≡ step_in header.now window.now at size }
{
    let left = size.saturating_sub(at);
    if left < CODE_SIZE as u64 {
        return Err(BlockFault::Truncated(at));
    }
    if is_end(window) {
        return Ok(Step::End);
    }
    if left < head_size(header) as u64 {
        return Err(BlockFault::Truncated(at));
    }
    checked_head(header, head_in(header, window, at), size)
}

/// Writes a block's head, Blender's `BHead`. Its code is one that four bytes mean, so not two zeros
/// and then two other bytes; a code of two letters is written with its zeros first in a file whose
/// numbers have their highest byte first.
pub fn write_head(header: &Header, head: &Head, dst: &mut [u8])
    requires room { length dst.old ≡ head_size header.now }
    requires code { code_meant head.now.code ≡ head.now.code }
    requires len { head.now.len < 2 ^ 31 }
    requires address { head.now.address < 256 ^ pointer_bytes header.now.width }
    requires index { head.now.index < 2 ^ 31 }
    requires count { head.now.count < 2 ^ 31 }
    ensures written { dst.new ≡ head_written header.now head.now }

    // Wherever the payload fits behind it, the block reads back, whatever it holds.
    ensures reads_back { head.now.code ≢ codes "ENDB" → (at size : ℕ) (rest : List ℕ)
        → at + head_size header.now + head.now.len ≤ size
        → step_in header.now (dst.new ++ rest) at size
        ≡ Ok (Step.Block (record head.now { at = at })) }
{
    let (code, rest) = dst.split_at_mut(CODE_SIZE);
    let (len, rest) = rest.split_at_mut(NUMBER_SIZE);
    let (address, rest) = rest.split_at_mut(pointer_size(header.width));
    let (index, count) = rest.split_at_mut(NUMBER_SIZE);
    code.copy_from_slice(&code_written(header.order, head.code));
    write_whole(header.order, head.len, len);
    write_whole(header.order, head.address, address);
    write_whole(header.order, u64::from(head.index), index);
    write_whole(header.order, u64::from(head.count), count);
}

/// Writes the end of a file: its code, and zeros behind it.
pub fn write_end(dst: &mut [u8])
    requires { 4 ≤ length dst.old }
    ensures { dst.new ≡ codes "ENDB" ++ zeros (length dst.old - 4) }
{
    let (code, rest) = dst.split_at_mut(CODE_SIZE);
    code.copy_from_slice(&END);
    rest.fill(0);
}

fn pointer_size(width: Width) -> usize
    ensures { result ≡ pointer_bytes width }
{
    match width {
        Width::Four => 4,
        Width::Eight => 8,
    }
}

// Whether the bytes begin with the code that ends a file.
fn is_end(bytes: &[u8]) -> bool
    requires { CODE_SIZE ≤ length bytes.now }
    ensures { result ≡ bytes_eq (take 4 bytes.now) (codes "ENDB") }
{
    &bytes[..CODE_SIZE] == END.as_slice()
}

// The head with which some bytes begin.
#[tactic(auto, unfolding(bl_format::specs::Blocks::head_in))]
fn head_in(header: &Header, bytes: &[u8], at: u64) -> Head
    requires { head_size header.now ≤ length bytes.now }
    ensures head { result ≡ head_in header.now bytes.now at }
    ensures place { result.at ≡ at }
{
    let index_at = ADDRESS_AT + pointer_size(header.width);
    Head {
        code: code_in(bytes),
        len: u64::from(number_in(header.order, &bytes[LEN_AT..])),
        address: address_in(header, &bytes[ADDRESS_AT..]),
        index: number_in(header.order, &bytes[index_at..]),
        count: number_in(header.order, &bytes[index_at + NUMBER_SIZE..]),
        at,
    }
}

// The code that the first four bytes mean.
fn code_in(bytes: &[u8]) -> [u8; 4]
    requires { CODE_SIZE ≤ length bytes.now }
    ensures { result ≡ code_meant (take 4 bytes.now) }
{
    let code = [bytes[0], bytes[1], bytes[2], bytes[3]];
    if code[0] == 0 && code[1] == 0 && code[2] != 0 && code[3] != 0 {
        [code[2], code[3], 0, 0]
    } else {
        code
    }
}

// The number that the first four bytes spell.
fn number_in(order: Order, bytes: &[u8]) -> u32
    requires { NUMBER_SIZE ≤ length bytes.now }
    ensures { result ≡ number_of order 4 bytes.now }
{
    match order {
        Order::Little => LittleEndian::read_u32(bytes),
        Order::Big => BigEndian::read_u32(bytes),
    }
}

// The address that the first bytes spell.
fn address_in(header: &Header, bytes: &[u8]) -> u64
    requires { pointer_bytes header.now.width ≤ length bytes.now }
    ensures { result ≡ number_of header.now.order (pointer_bytes header.now.width) bytes.now }
{
    read_whole(header.order, &bytes[..pointer_size(header.width)])
}

// The checks of a head, in their order.
fn checked_head(header: &Header, head: Head, size: u64) -> Result<Step, BlockFault>
    requires { head.at + head_size header.now ≤ size }
    ensures { result ≡ checked_head header.now head size }
{
    if head.len >= u64::from(SIGN) {
        return Err(BlockFault::NegativeLength(head.at));
    }
    if head.index >= SIGN {
        return Err(BlockFault::NegativeIndex(head.at));
    }
    if head.count >= SIGN {
        return Err(BlockFault::NegativeCount(head.at));
    }
    if size - head.at - (head_size(header) as u64) < head.len {
        return Err(BlockFault::Truncated(head.at));
    }
    Ok(Step::Block(head))
}

// The spelling of a code.
fn code_written(order: Order, code: [u8; 4]) -> [u8; 4]
    ensures { result ≡ code_written order code }
{
    let is_two_letter = code[0] != 0 && code[1] != 0 && code[2] == 0 && code[3] == 0;
    match order {
        Order::Big if is_two_letter => [0, 0, code[0], code[1]],
        _ => code,
    }
}
