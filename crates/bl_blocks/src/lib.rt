//! The blocks of a `.blend` file: their heads read one by one or all at once, and written.
#![tactic(auto)]

mod blocks;
mod head;

pub use bl_format::{BlockFault, Head, Step};
pub use blocks::{MAX_BLOCKS, all_blocks};
pub use head::{END, LONGEST_HEAD, head_size, next_block, write_end, write_head};
