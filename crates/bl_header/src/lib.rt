//! The header of a `.blend` file, read and written.
#![tactic(auto)]

mod header;

pub use bl_format::{HeadFault, Header};
pub use header::{FIRST_VERSION, HEADER_SIZE, LAST_VERSION, parse_header, write_header};
