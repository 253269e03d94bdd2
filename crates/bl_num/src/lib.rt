//! Numbers as bytes, and texts and lists that contracts see as plain values.
#![tactic(auto)]

mod items;
mod number;
mod slices;
mod whole;

pub use items::{Items, Text};
pub use number::{Form, NoMemory, Order, Whole, Width, read_whole, write_whole};
pub use slices::copy_part;
pub use whole::{cast, value_of};
