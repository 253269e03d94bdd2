// Reads a file's header and its blocks through a payload.
ghost use Rattle.std.specs.Prelude.{◌≡◌, ◌+◌, ◌-◌, ◌*◌, ◌^◌, ◌<◌, ◌≤◌, All, min, length, Ok, IfOk, IfErr};
ghost use Rattle.bl_format.specs.Limits.{first_version, last_version, most_blocks};
ghost use Rattle.bl_format.specs.Blocks.{header_of, header_size, head_size, step_in, step_at, blocks_of};
ghost use Rattle.bl_file.specs.Calls.{Stays, Tells, IsOpen, FailsFor, Blames};
ghost use Rattle.bl_file.specs.Reading.{with_fault, IsHeaderFault, IsStepFault, IsBlocksFault, IsOfHeader, IsOfBlocks, IsBlockIn, IsStepIn};

use crate::fault::shelf_fault;
use crate::{OpenFault, Payload};
use bl_blocks::{LONGEST_HEAD, MAX_BLOCKS, head_size, next_block};
use bl_format::{BlockFault, Head, Header, Step};
use bl_header::{HEADER_SIZE, parse_header};
use bl_shelf::Shelf;
use std::alloc::Global;

/// The header of a file.
pub fn read_header<S: Shelf, P: Payload>(
    payload: &mut P,
    shelf: &mut S,
    size: u64,
) -> Result<Header, OpenFault>
    requires size { P.file_size payload.old ≡ size }
    requires held { IsOpen S.Shelf P.Payload shelf.old payload.old }
    ensures version { IfOk result (λ header.
        (first_version ≤ header.version) × (header.version ≤ last_version)) }
    ensures whole { IfOk result (λ header. header_size header ≤ size) }
    ensures read { IfOk result (λ header. Tells S.Shelf P.Payload shelf.old payload.old
        (λ bytes. header_of bytes ≡ Ok header)) }
    ensures fault { IfErr result
        (FailsFor S.Shelf P.Payload shelf.old payload.old IsHeaderFault) }
    ensures kind { IfErr result IsOfHeader }
    ensures stays { Stays S.Shelf P.Payload shelf.old shelf.new payload.old payload.new }
    ensures cause { Blames S.Shelf shelf.old shelf.new result }
{
    let mut window = [0u8; HEADER_SIZE];
    let part = &mut window[..size.min(HEADER_SIZE as u64) as usize];
    match payload.copy_out(shelf, 0, part) {
        Ok(()) => header_in(part),
        Err(fault) => Err(shelf_fault(fault)),
    }
}

/// All blocks of a file, in their order and without the end.
pub fn read_blocks<S: Shelf, P: Payload>(
    alloc: Global,
    payload: &mut P,
    shelf: &mut S,
    header: &Header,
    size: u64,
) -> Result<Vec<Head>, OpenFault>
    requires whole { header_size header.now ≤ size }
    requires small { size < 2 ^ 63 }
    requires size { P.file_size payload.old ≡ size }
    requires held { IsOpen S.Shelf P.Payload shelf.old payload.old }
    ensures sound { IfOk result (λ heads. All (IsBlockIn header.now size) heads.items) }
    ensures few { IfOk result (λ heads. length heads.items ≤ most_blocks) }
    ensures spaced { IfOk result (λ heads. header_size header.now + 20 * length heads.items ≤ size) }
    ensures read { IfOk result (λ heads. Tells S.Shelf P.Payload shelf.old payload.old
        (λ bytes. blocks_of header.now bytes ≡ Ok heads.items)) }
    ensures fault { IfErr result (FailsFor S.Shelf P.Payload shelf.old payload.old
        (IsBlocksFault header.now)) }
    ensures kind { IfErr result IsOfBlocks }
    ensures stays { Stays S.Shelf P.Payload shelf.old shelf.new payload.old payload.new }
    ensures cause { Blames S.Shelf shelf.old shelf.new result }
{
    let mut heads = Vec::new(alloc);
    let mut at = HEADER_SIZE as u64;
    for _ in 0..MAX_BLOCKS + 1 {
        match read_step(payload, shelf, header, at, size)? {
            Step::Block(head) => {
                at += head_size(header) as u64 + head.len;
                heads.push(head)?;
            }
            Step::End => return Ok(heads),
        }
    }
    Err(OpenFault::Block(BlockFault::TooManyBlocks(MAX_BLOCKS + 1)))
}

// What begins at a place behind the header.
fn read_step<S: Shelf, P: Payload>(
    payload: &mut P,
    shelf: &mut S,
    header: &Header,
    at: u64,
    size: u64,
) -> Result<Step, OpenFault>
    requires behind { header_size header.now ≤ at }
    requires inside { at ≤ size }
    requires size { P.file_size payload.old ≡ size }
    requires held { IsOpen S.Shelf P.Payload shelf.old payload.old }
    ensures sound { IfOk result (IsStepIn header.now at size) }
    ensures read { IfOk result (λ step. Tells S.Shelf P.Payload shelf.old payload.old
        (λ bytes. step_at header.now bytes at ≡ Ok step)) }
    ensures fault { IfErr result (FailsFor S.Shelf P.Payload shelf.old payload.old
        (IsStepFault header.now at)) }
    ensures kind { IfErr result IsOfBlocks }
    ensures stays { Stays S.Shelf P.Payload shelf.old shelf.new payload.old payload.new }
    ensures cause { Blames S.Shelf shelf.old shelf.new result }
{
    let mut window = [0u8; LONGEST_HEAD];
    let part = &mut window[..(size - at).min(head_size(header) as u64) as usize];
    match payload.copy_out(shelf, at, part) {
        Ok(()) => step_in(header, part, at, size),
        Err(fault) => Err(shelf_fault(fault)),
    }
}

// The header that some bytes begin with.
fn header_in(bytes: &[u8]) -> Result<Header, OpenFault>
    ensures { result ≡ with_fault OpenFault.Head (header_of bytes.now) }
{
    match parse_header(bytes) {
        Ok(header) => Ok(header),
        Err(fault) => Err(OpenFault::Head(fault)),
    }
}

// What some bytes begin with that stand at the place `at`.
fn step_in(header: &Header, window: &[u8], at: u64, size: u64) -> Result<Step, OpenFault>
    requires { min (head_size header.now) (size - at) ≤ length window.now }
    ensures step { result ≡ with_fault OpenFault.Block (step_in header.now window.now at size) }
    ensures bytes { All (λ byte. byte < 256) window.now }
{
    match next_block(header, window, at, size) {
        Ok(step) => Ok(step),
        Err(fault) => Err(OpenFault::Block(fault)),
    }
}
