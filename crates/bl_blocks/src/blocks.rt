ghost use Rattle.std.specs.Prelude.{◌≡◌, ◌⊎◌, ◌≤◌, length, IfOk, IfErr, Ok, Err};
ghost use Rattle.bl_format.specs.Blocks.{HasBlockFault, Reads, header_of, header_size, blocks_of};

use crate::{head_size, next_block};
use bl_format::{BlockFault, Head, Header, Step};
use bl_header::HEADER_SIZE;
use std::alloc::Global;

/// The most blocks that a file may have before its end.
pub const MAX_BLOCKS: u64 = 4_194_304;

/// Reads all blocks of a whole file, in their order and without the end.
pub fn all_blocks(alloc: Global, header: &Header, bytes: &[u8]) -> Result<Vec<Head>, BlockFault>
    requires { header_size header.now ≤ length bytes.now }
    ensures reads { IfOk result (λ heads. blocks_of header.now bytes.now ≡ Ok heads.items) }
    ensures refuses { IfErr result (λ fault. (fault ≡ BlockFault.NoMemory)
        ⊎ (blocks_of header.now bytes.now ≡ Err fault)) }

    // Behind the header that the bytes have, this is their one reading, or why they have none.
    ensures reading { IfOk result (λ heads. header_of bytes.now ≡ Ok header.now
        → Reads bytes.now header.now heads.items) }
    ensures cause { IfErr result (λ fault. header_of bytes.now ≡ Ok header.now
        → (fault ≡ BlockFault.NoMemory) ⊎ HasBlockFault bytes.now header.now fault) }
{
    let mut heads = Vec::new(alloc);
    let mut at = HEADER_SIZE;
    for _ in 0..MAX_BLOCKS + 1 {
        match next_block(header, &bytes[at..], at as u64, bytes.len() as u64)? {
            Step::Block(head) => {
                at += head_size(header) + head.len as usize;
                heads.push(head)?;
            }
            Step::End => return Ok(heads),
        }
    }
    Err(BlockFault::TooManyBlocks(MAX_BLOCKS + 1))
}
