//! Raw blocks: which kind each has, and how their payloads are carried to another form.
#![tactic(auto)]

mod carry;
mod images;
mod kinds;
mod pieces;

pub use bl_format::{RawKind, View};
pub use carry::{carry_raw, raw_length};
pub use images::Images;
pub use kinds::{view_of, views};
