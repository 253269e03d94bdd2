//! The struct catalogue of a `.blend` file, Blender's SDNA: read from the payload of its block,
//! written, and searched by name.
#![tactic(auto)]

mod lists;
mod lookup;
mod names;
mod parse;
mod place;
mod text;
mod write;

pub use bl_format::{Catalogue, MemberEntry, SdnaFault, StructEntry, TypeEntry};
pub use lookup::{struct_named, type_named};
pub use names::{member_name, member_type_length, member_type_name, struct_name};
pub use parse::parse_catalogue;
pub use write::write_catalogue;
